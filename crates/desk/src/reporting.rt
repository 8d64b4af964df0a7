// Steps of a script and their lines, part by part of the report: each part is written into a lent buffer, and with what is still to be printed it is
// the report (specs/Printed.antt).
ghost use Rattle.std.specs.Prelude.{◌+◌, ◌*◌, ◌≤◌, ◌<◌, ◌≡◌, true, ◌&&◌, ltb, length, get_or};
ghost use Rattle.finite.specs.Writing.{Wrote};
ghost use Rattle.model.specs.Answers.{has_lists};
ghost use Rattle.state.specs.Cells.{cells_in};
ghost use Rattle.state.specs.HeldWords.{words_held, Whole};
ghost use Rattle.state.specs.Meaning.{answer_of, database_of, scheme_of};
ghost use Rattle.state.specs.Lent.{lent, sound};
ghost use Rattle.catalog.specs.Catalog.{Catalogued};
ghost use Rattle.script.specs.Step.{outputs};
ghost use Rattle.desk.specs.Printed.{lists_in, lists_text, positions_at, Printed};

use report::{put_command_line, put_list_lines};
use script::step_lawful;
use state::{Answer, Design, Shown, has_lists, show};

// How far the desk has come with a design: the place of the next command and its number, whether there is one, and where the buffer's text ends.
#[derive(Clone, Copy)]
pub struct Progress {
    pub design: Design,
    pub at: usize,
    pub number: usize,
    pub more: bool,
    pub end: usize,
}

// How many positions the QUERY at a place has; 1 past the script's end. Constant time.
fn positions_at(script: &[u8], at: usize) -> usize
    requires { at < length script.now }
    ensures { result ≡ positions_at script.now at }
{
    script.get(at + 7).map_or(0, |b| usize::from(*b)) + 1
}

// The first number behind an answer's word; 0 where there is none. Constant time.
fn first_number(shown: Shown) -> u64
    ensures { result ≡ get_or shown.numbers 0 0 }
{
    shown.numbers[0]
}

// Writes the lists that go with an answer, p row numbers to a line. At most 11 bytes for each number.
fn put_lists(out: &mut [u8], at: usize, answer: Answer, words: &[u32], p: usize) -> usize
    requires { (1 ≤ p) × (has_lists (answer_of answer) ≡ true → (lists_in (answer_of answer) * p ≤ length words.now)
        × (at + 11 * (lists_in (answer_of answer) * p) + 9 ≤ length out.old)) }
    ensures { Wrote out.old out.new at result (lists_text (answer_of answer) words.now p) }
{
    if !has_lists(answer) {
        return at;
    }
    let n = first_number(show(answer));
    put_list_lines(out, at, words, n as usize, p)
}

// Whether a command follows, at place `after`. Constant time.
fn goes_on(script: &[u8], more: bool, after: usize) -> bool
    ensures { result ≡ (more && ltb after (length script.now)) }
{
    more && after < script.len()
}

// One step, and its lines: at most 391 bytes, 16,384 of text, and 11 for each of 4,096 words; there must be 9 more. The cost of the operation, and of its lines.
fn report_step(
    script: &[u8],
    from: Progress,
    cells: &mut [u32],
    issues: &mut [u8],
    tables: &mut [u8],
    catalog: &mut [u16; 16449],
    keys: &mut [u64; 4096],
    marks: &mut [u8],
    held: &mut [u32; 358],
    words: &mut [u32],
    text: &mut [u8],
    counts: &mut [u64; 5120],
    places: &mut [u16; 5120],
    out: &mut [u8],
) -> Progress
    requires held_value { (sound (lent from.design (cells_in cells.old issues.old) tables.old marks.old (words_held held.old)) ≡ true)
        × Catalogued (scheme_of from.design) (database_of (cells_in cells.old issues.old) tables.old) catalog.old keys.old × Whole held.old }
    requires more_value { (from.more ≡ true) × (from.at < length script.now) × (from.number ≤ from.at) × (length words.old ≤ 4096)
        × (length text.old ≤ 16384) × (from.end + 61840 ≤ length out.old) }
    ensures printed { Printed script.now (lent from.design (cells_in cells.old issues.old) tables.old marks.old (words_held held.old))
        (outputs words.old text.old) from out.old out.new
        (lent result.design (cells_in cells.new issues.new) tables.new marks.new (words_held held.new))
        (outputs words.new text.new) result }
    ensures end_bound { (result.end ≤ from.end + 61831)
        × (result.more ≡ true → (from.at < result.at) × (result.at < length script.now) × (result.number ≤ result.at)) }
    ensures catalogued { Catalogued (scheme_of result.design) (database_of (cells_in cells.new issues.new) tables.new) catalog.new keys.new
        × Whole held.new }
{
    let at = from.at;
    let design = from.design;
    let step = step_lawful(
        script, at, design, cells, issues, tables, catalog, keys, marks, held, words, text, counts,
        places,
    );
    let answer = step.answer;
    let z = put_command_line(out, from.end, from.number, answer, step.place, text);
    let p = positions_at(script, at);
    let end = put_lists(out, z, answer, words, p);
    let more = goes_on(script, step.more, step.next);
    Progress {
        design,
        at: step.next,
        number: from.number + 1,
        more,
        end,
    }
}

// A buffer of 81,920 bytes is full where its text has more than these: up to here a step's lines fit behind it.
const FULL: usize = 16384;

// Steps and their lines until there is no command left or the buffer is full. The cost of the operations, and of the text.
pub(crate) fn fill(
    script: &[u8],
    from: Progress,
    cells: &mut [u32],
    issues: &mut [u8],
    tables: &mut [u8],
    catalog: &mut [u16; 16449],
    keys: &mut [u64; 4096],
    marks: &mut [u8],
    held: &mut [u32; 358],
    words: &mut [u32],
    text: &mut [u8],
    counts: &mut [u64; 5120],
    places: &mut [u16; 5120],
    out: &mut [u8],
) -> Progress
    requires held_value { (sound (lent from.design (cells_in cells.old issues.old) tables.old marks.old (words_held held.old)) ≡ true)
        × Catalogued (scheme_of from.design) (database_of (cells_in cells.old issues.old) tables.old) catalog.old keys.old × Whole held.old }
    requires at_in_bounds { (from.more ≡ true → (from.at < length script.now) × (from.number ≤ from.at)) × (length words.old ≤ 4096)
        × (length text.old ≤ 16384) × (from.end ≤ 16384) × (length out.old ≡ 81920) }
    ensures printed { Printed script.now (lent from.design (cells_in cells.old issues.old) tables.old marks.old (words_held held.old))
        (outputs words.old text.old) from out.old out.new
        (lent result.design (cells_in cells.new issues.new) tables.new marks.new (words_held held.new))
        (outputs words.new text.new) result }
    ensures end_bound { (result.end ≤ 81920) × (result.more ≡ true → (from.at < result.at) × (result.at < length script.now) × (result.number ≤ result.at)) }
    ensures catalogued { Catalogued (scheme_of result.design) (database_of (cells_in cells.new issues.new) tables.new) catalog.new keys.new
        × Whole held.new }
{
    let mut p = from;
    while p.more && p.end <= FULL {
        p = report_step(
            script, p, cells, issues, tables, catalog, keys, marks, held, words, text, counts,
            places, out,
        );
    }
    p
}
