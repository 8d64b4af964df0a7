// A whole run of a script: its design is read, then every operation behind the END is carried out in order, refused ones too.
ghost use Rattle.std.specs.Prelude.{◌≡◌, true, ℕ, length};
ghost use Rattle.state.specs.Cells.{cells_in};
ghost use Rattle.state.specs.Meaning.{answer_of, cell_of, column_of, database_of, scheme_of};
ghost use Rattle.state.specs.HeldWords.{words_held, Whole};
ghost use Rattle.state.specs.Lent.{lent, sound};
ghost use Rattle.catalog.specs.Catalog.{Catalogued};
ghost use Rattle.format.specs.declared.verdict.Verdict.TheVariants as Verdicts;
ghost use Rattle.script.specs.Step.{outputs};
ghost use Rattle.run.specs.Runs.{leaving, left_from, Ran, ProbedAfter};
ghost use Rattle.script.specs.JustRead.{buffers};

use crate::outcome::{ProbedRun, Run};
use cache::probe_lawful;
use catalog::Index;
use format::{Verdict, read_catalogued};
use script::step_lawful;
use state::{Answer, Cell, Column, Design};

// The steps from place `at` on, until the script ends or cause 1, 2 or 4 stops it, on a state known sound with the catalog of its rows. That the state is sound again is a law (`left-sound` of proofs/RunLaws.antt). The last two arrays are working memory, whatever stands
// in them. The cost of the operations.
pub fn run_lawful(
    script: &[u8],
    at: usize,
    design: Design,
    cells: &mut [u32],
    issues: &mut [u8],
    tables: &mut [u8],
    catalog: &mut [u16; 16449],
    keys: &mut [u64; 4096],
    marks: &mut [u8],
    held: &mut [u32; 358],
    words: &mut [u32],
    text: &mut [u8],
    counts: &mut [u64; 5120],
    places: &mut [u16; 5120],
)
    requires { (sound (lent design (cells_in cells.old issues.old) tables.old marks.old (words_held held.old)) ≡ true)
        × Catalogued (scheme_of design) (database_of (cells_in cells.old issues.old) tables.old) catalog.old keys.old × Whole held.old }
    ensures text_after { leaving (lent design (cells_in cells.new issues.new) tables.new marks.new (words_held held.new))
        (outputs words.new text.new)
        ≡ left_from (length script.now) script.now
        (lent design (cells_in cells.old issues.old) tables.old marks.old (words_held held.old))
        (outputs words.old text.old) at }
    ensures catalogued { Catalogued (scheme_of design) (database_of (cells_in cells.new issues.new) tables.new) catalog.new keys.new
        × Whole held.new }
{
    let mut i = at;
    // no iterator: where the next step begins, this one says
    while i < script.len() {
        let t = step_lawful(
            script, i, design, cells, issues, tables, catalog, keys, marks, held, words, text,
            counts, places,
        );
        if !t.more {
            return;
        }
        i = t.next;
    }
}

// The run of a whole script, which leaves the catalog of the rows in the arrays, whatever stood there. The cost of `read_catalogued`, then that of the
// operations. What is lent is known to be sound from then on, so that no step tests for cause 12.
fn run_catalogued(
    script: &[u8],
    cells: &mut [u32],
    issues: &mut [u8],
    tables: &mut [u8],
    catalog: &mut [u16; 16449],
    keys: &mut [u64; 4096],
    marks: &mut [u8],
    held: &mut [u32; 358],
    words: &mut [u32],
    text: &mut [u8],
) -> Run
    ensures ran { Ran script.now
        (buffers (cells_in cells.old issues.old) tables.old marks.old (outputs words.old text.old))
        (buffers (cells_in cells.new issues.new) tables.new marks.new (outputs words.new text.new))
        held.old held.new result }
    ensures by_index { (i : ℕ) → result.verdict ≡ Verdicts.Accepted i → Catalogued (scheme_of result.design) (database_of (cells_in cells.new issues.new) tables.new)
        catalog.new keys.new }
{
    let reading = read_catalogued(script, cells, issues, tables, marks, catalog, keys);
    let verdict = reading.verdict;
    let design = reading.design;
    let Verdict::Accepted(at) = verdict else {
        return Run { verdict, design };
    };
    let mut counts = [0u64; 5120];
    let mut places = [0u16; 5120];
    *held = [0u32; 358];
    run_lawful(
        script,
        at,
        design,
        cells,
        issues,
        tables,
        catalog,
        keys,
        marks,
        held,
        words,
        text,
        &mut counts,
        &mut places,
    );
    Run { verdict, design }
}

// The run of a whole script. What stands in the words for what is held is of no account: a run begins with nothing held, and a refused design leaves them.
// Reading the design and making its catalog, then the cost of the operations.
pub fn run(
    script: &[u8],
    cells: &mut [u32],
    issues: &mut [u8],
    tables: &mut [u8],
    marks: &mut [u8],
    held: &mut [u32; 358],
    words: &mut [u32],
    text: &mut [u8],
) -> Run
    ensures { Ran script.now
        (buffers (cells_in cells.old issues.old) tables.old marks.old (outputs words.old text.old))
        (buffers (cells_in cells.new issues.new) tables.new marks.new (outputs words.new text.new))
        held.old held.new result }
{
    let mut catalog = [0u16; 16449];
    let mut keys = [0u64; 4096];
    run_catalogued(
        script,
        cells,
        issues,
        tables,
        &mut catalog,
        &mut keys,
        marks,
        held,
        words,
        text,
    )
}

// The run of a whole script, and a probe of what it has left; with a refused design, its cause. The cost of the run and that of the probe: what a
// run leaves is sound, and is not tested again.
pub fn probe_after(
    script: &[u8],
    cells: &mut [u32],
    issues: &mut [u8],
    tables: &mut [u8],
    marks: &mut [u8],
    held: &mut [u32; 358],
    words: &mut [u32],
    text: &mut [u8],
    k: Column,
    v: Cell,
) -> ProbedRun
    ensures { ProbedAfter script.now
        (buffers (cells_in cells.old issues.old) tables.old marks.old (outputs words.old text.old))
        (buffers (cells_in cells.new issues.new) tables.new marks.new (outputs words.new text.new))
        held.old held.new result.run (column_of k) (cell_of v) (answer_of result.answer) }
{
    let mut catalog = [0u16; 16449];
    let mut keys = [0u64; 4096];
    let left = run_catalogued(
        script,
        cells,
        issues,
        tables,
        &mut catalog,
        &mut keys,
        marks,
        held,
        words,
        text,
    );
    let verdict = left.verdict;
    let design = left.design;
    if let Verdict::Refused(cause, _) = verdict {
        return ProbedRun {
            run: left,
            answer: Answer::Refused(cause),
        };
    }
    let index = Index {
        catalog: &catalog,
        keys: &keys,
    };
    let answer = probe_lawful(design, &index, marks, held, k, v);
    ProbedRun { run: left, answer }
}
