// The report part by part, both verdicts alike: `begin` puts the first text into a lent buffer, and `next_part` the part behind the one that the
// buffer has. The parts, one behind the other, are the report (specs/Parts.antt).
ghost use Rattle.std.specs.Prelude.{◌≤◌, true, ◌≡◌, length};
ghost use Rattle.state.specs.Cells.{cells_in};
ghost use Rattle.state.specs.HeldWords.{words_held, Whole};
ghost use Rattle.state.specs.Meaning.{database_of, scheme_of};
ghost use Rattle.state.specs.Lent.{lent};
ghost use Rattle.catalog.specs.Catalog.{Catalogued};
ghost use Rattle.script.specs.Step.{Outputs, outputs};
ghost use Rattle.script.specs.JustRead.{buffers};
ghost use Rattle.desk.specs.Parts.{First, NextReady, Begins, Continues};

use crate::reporting::{Progress, fill};
use format::{Verdict, read_catalogued};
use report::{put_design_line, put_refusal_line};
use state::Design;

// Writes the first text: the line of an accepted design with its rows, or that of the refusal. Constant time.
fn put_first(
    script: &[u8],
    out: &mut [u8],
    design: Design,
    rows: usize,
    verdict: Verdict,
) -> Progress
    requires { 91 ≤ length out.old }
    ensures { First script.now design rows verdict out.old out.new result }
{
    match verdict {
        Verdict::Accepted(at) => {
            let end = put_design_line(out, 0, design, rows);
            Progress {
                design,
                at,
                number: 0,
                more: at < script.len(),
                end,
            }
        }
        Verdict::Refused(cause, place) => {
            let end = put_refusal_line(out, 0, cause, place);
            Progress {
                design,
                at: place,
                number: 0,
                more: false,
                end,
            }
        }
    }
}

// Reads the design into lent buffers, makes the catalog of its rows, and puts the report's first part into `out`, from 0 on. The cost of
// `read_catalogued`.
pub(crate) fn begin(
    script: &[u8],
    cells: &mut [u32],
    issues: &mut [u8],
    tables: &mut [u8],
    catalog: &mut [u16; 16449],
    keys: &mut [u64; 4096],
    marks: &mut [u8],
    out: &mut [u8],
) -> Progress
    requires { 91 ≤ length out.old }
    ensures begins { (w : Outputs) → Begins script.now (buffers (cells_in cells.old issues.old) tables.old marks.old w)
        (cells_in cells.new issues.new) tables.new marks.new out.new result }
    ensures catalogued { result.more ≡ true → Catalogued (scheme_of result.design) (database_of (cells_in cells.new issues.new) tables.new)
        catalog.new keys.new }
{
    let reading = read_catalogued(script, cells, issues, tables, marks, catalog, keys);
    let design = reading.design;
    let rows = reading.rows;
    let verdict = reading.verdict;
    put_first(script, out, design, rows, verdict)
}

// Puts the report's next part into `out`, from 0 on. The cost of the operations, and of the text.
pub(crate) fn next_part(
    script: &[u8],
    from: Progress,
    cells: &mut [u32],
    issues: &mut [u8],
    tables: &mut [u8],
    catalog: &mut [u16; 16449],
    keys: &mut [u64; 4096],
    marks: &mut [u8],
    held: &mut [u32; 358],
    words: &mut [u32],
    text: &mut [u8],
    counts: &mut [u64; 5120],
    places: &mut [u16; 5120],
    out: &mut [u8],
) -> Progress
    requires next_ready { NextReady script.now (lent from.design (cells_in cells.old issues.old) tables.old marks.old (words_held held.old)) from
        × Catalogued (scheme_of from.design) (database_of (cells_in cells.old issues.old) tables.old) catalog.old keys.old × Whole held.old }
    requires words_len_bound { (length words.old ≤ 4096) × (length text.old ≤ 16384) × (length out.old ≡ 81920) }
    ensures continues { Continues script.now (lent from.design (cells_in cells.old issues.old) tables.old marks.old (words_held held.old))
        (outputs words.old text.old) from out.new
        (lent result.design (cells_in cells.new issues.new) tables.new marks.new (words_held held.new))
        (outputs words.new text.new) result }
    ensures catalogued { Catalogued (scheme_of result.design) (database_of (cells_in cells.new issues.new) tables.new) catalog.new keys.new
        × Whole held.new }
{
    let p = Progress { end: 0, ..from };
    fill(
        script, p, cells, issues, tables, catalog, keys, marks, held, words, text, counts, places,
        out,
    )
}
