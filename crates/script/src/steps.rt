// One step of a script: the command at a place, read and carried out on a lent state.
ghost use Rattle.std.specs.Prelude.{◌≡◌, true, ◌+◌, ◌≤◌, min, length};
ghost use Rattle.state.specs.Cells.{cells_in};
ghost use Rattle.state.specs.declared.answer.Answer.TheVariants as Answers;
ghost use Rattle.state.specs.Meaning.{answer_of, database_of, scheme_of};
ghost use Rattle.state.specs.HeldWords.{words_held, Whole};
ghost use Rattle.state.specs.Lent.{lent, sound};
ghost use Rattle.state.specs.Changes.{put, remove};
ghost use Rattle.catalog.specs.Catalog.{Catalogued};
ghost use Rattle.command.specs.Bytes.{byte_at};
ghost use Rattle.command.specs.Commands.{width_of, put_row_at, command_at};
ghost use Rattle.script.specs.Step.{Outputs, place_of, outputs, changing, carried, step_at, Does, DoesWords};

use crate::outcome::Step;
use catalog::Index;
use change::{put_lawful, remove_lawful};
use command::{Command, command_at, row_at, width_of};
use format::MOST_BYTES;
use guard::cause;
use operate::perform_lawful;
use state::{Answer, Design, Operation, Rows, first_words, is_refusal, store_words};

// A refusal, with nothing changed. Constant time.
fn refusing(cause: u8, place: usize, after: usize, more: bool) -> Step
    ensures { result ≡ record { answer = Answers.Refused cause; place = place; next = after; more = more } }
{
    Step {
        answer: Answer::Refused(cause),
        place,
        next: after,
        more,
    }
}

// The place that goes with an answer: the command's if it is refused, else 0. Constant time.
fn place_of(answer: Answer, at: usize) -> usize
    ensures { result ≡ place_of (answer_of answer) at }
{
    if is_refusal(answer) { at } else { 0 }
}

// The answer of an operation that stood at place `at`, before place `after`. Constant time.
fn answering(answer: Answer, at: usize, after: usize) -> Step
    ensures { result ≡ record { answer = answer; place = place_of (answer_of answer) at; next = after; more = true } }
{
    let place = place_of(answer, at);
    Step {
        answer,
        place,
        next: after,
        more: true,
    }
}

// The place after the command at a place; the place itself where no command begins. Constant time.
fn place_after(script: &[u8], at: usize) -> usize
    ensures { result ≡ at + width_of (byte_at script.now at) }
{
    if script.len() <= at {
        return at;
    }
    at + width_of(script[at])
}

// Puts in the row that stands at place `at`, followed by place `after`. The cost is `put_lawful`'s.
fn put_at(
    script: &[u8],
    at: usize,
    after: usize,
    r: u16,
    design: Design,
    cells: &mut [u32],
    issues: &mut [u8],
    tables: &mut [u8],
    catalog: &mut [u16; 16449],
    keys: &mut [u64; 4096],
    marks: &mut [u8],
    held: &[u32; 358],
) -> Step
    requires held_value { (sound (lent design (cells_in cells.old issues.old) tables.old marks.old (words_held held.now)) ≡ true)
        × Catalogued (scheme_of design) (database_of (cells_in cells.old issues.old) tables.old) catalog.old keys.old }
    requires at_in_bounds { at + 44 ≤ length script.now }
    ensures does { (out : Outputs) → Does
        (changing (lent design (cells_in cells.old issues.old) tables.old marks.old (words_held held.now)) out (put r (put_row_at script.now at)) at after)
        result (lent design (cells_in cells.new issues.new) tables.new marks.new (words_held held.now)) out }
    ensures catalogued { Catalogued (scheme_of design) (database_of (cells_in cells.new issues.new) tables.new) catalog.new keys.new }
{
    let x = row_at(script, at);
    let a = put_lawful(
        design, cells, issues, tables, catalog, keys, marks, held, r, x,
    );
    answering(a, at, after)
}

// Removes row r, by the command that stands at place `at`, followed by place `after`. The cost is `remove_lawful`'s.
fn remove_at(
    at: usize,
    after: usize,
    r: u16,
    design: Design,
    cells: &mut [u32],
    issues: &mut [u8],
    tables: &mut [u8],
    catalog: &mut [u16; 16449],
    keys: &mut [u64; 4096],
    marks: &mut [u8],
    held: &[u32; 358],
) -> Step
    requires { (sound (lent design (cells_in cells.old issues.old) tables.old marks.old (words_held held.now)) ≡ true)
        × Catalogued (scheme_of design) (database_of (cells_in cells.old issues.old) tables.old) catalog.old keys.old }
    ensures does { (out : Outputs) → Does
        (changing (lent design (cells_in cells.old issues.old) tables.old marks.old (words_held held.now)) out (remove r) at after)
        result (lent design (cells_in cells.new issues.new) tables.new marks.new (words_held held.now)) out }
    ensures catalogued { Catalogued (scheme_of design) (database_of (cells_in cells.new issues.new) tables.new) catalog.new keys.new }
{
    let a = remove_lawful(design, cells, issues, tables, catalog, keys, marks, held, r);
    answering(a, at, after)
}

// Carries out the command that stands at place `at`. The cost is that of its operation.
fn carry_out(
    script: &[u8],
    at: usize,
    design: Design,
    cells: &mut [u32],
    issues: &mut [u8],
    tables: &mut [u8],
    catalog: &mut [u16; 16449],
    keys: &mut [u64; 4096],
    marks: &mut [u8],
    held: &mut [u32; 358],
    words: &mut [u32],
    text: &mut [u8],
    counts: &mut [u64; 5120],
    places: &mut [u16; 5120],
) -> Step
    requires { (sound (lent design (cells_in cells.old issues.old) tables.old marks.old (words_held held.old)) ≡ true)
        × Catalogued (scheme_of design) (database_of (cells_in cells.old issues.old) tables.old) catalog.old keys.old × Whole held.old }
    ensures does { Does
        (carried (lent design (cells_in cells.old issues.old) tables.old marks.old (words_held held.old))
        (outputs words.old text.old)
        script.now at (at + width_of (byte_at script.now at)) (command_at script.now at))
        result (lent design (cells_in cells.new issues.new) tables.new marks.new (words_held held.new))
        (outputs words.new text.new) }
    ensures catalogued { Catalogued (scheme_of design) (database_of (cells_in cells.new issues.new) tables.new) catalog.new keys.new
        × Whole held.new }
{
    let after = place_after(script, at);
    let command = command_at(script, at);
    match command {
        Command::Operate(op) => {
            let rows = Rows {
                cells,
                issues,
                tables,
            };
            let a = perform_lawful(
                op,
                design,
                &rows,
                &Index { catalog, keys },
                marks,
                held,
                words,
                text,
                counts,
                places,
            );
            answering(a, at, after)
        }
        Command::Put(r, _) => put_at(
            script, at, after, r, design, cells, issues, tables, catalog, keys, marks, held,
        ),
        Command::Remove(r) => remove_at(
            at, after, r, design, cells, issues, tables, catalog, keys, marks, held,
        ),
        Command::Table(_)
        | Command::Constraint(_)
        | Command::Filling(_)
        | Command::Row(_)
        | Command::End => refusing(3, at, after, true),
        Command::Unknown => refusing(2, at, at, false),
        Command::Short => refusing(1, at.min(script.len()), at, false),
    }
}

// The step at place `at` on a state known sound, with the catalog of its rows: no test for causes 7 and 12. The last two arrays are working memory,
// whatever stands in them. The cost is that of the command's operation.
pub fn step_lawful(
    script: &[u8],
    at: usize,
    design: Design,
    cells: &mut [u32],
    issues: &mut [u8],
    tables: &mut [u8],
    catalog: &mut [u16; 16449],
    keys: &mut [u64; 4096],
    marks: &mut [u8],
    held: &mut [u32; 358],
    words: &mut [u32],
    text: &mut [u8],
    counts: &mut [u64; 5120],
    places: &mut [u16; 5120],
) -> Step
    requires { (sound (lent design (cells_in cells.old issues.old) tables.old marks.old (words_held held.old)) ≡ true)
        × Catalogued (scheme_of design) (database_of (cells_in cells.old issues.old) tables.old) catalog.old keys.old × Whole held.old }
    ensures does { Does
        (step_at (lent design (cells_in cells.old issues.old) tables.old marks.old (words_held held.old))
        (outputs words.old text.old) script.now at)
        result (lent design (cells_in cells.new issues.new) tables.new marks.new (words_held held.new))
        (outputs words.new text.new) }
    ensures catalogued { Catalogued (scheme_of design) (database_of (cells_in cells.new issues.new) tables.new) catalog.new keys.new
        × Whole held.new }
{
    if MOST_BYTES < script.len() {
        return refusing(4, 0, at, false);
    }
    carry_out(
        script, at, design, cells, issues, tables, catalog, keys, marks, held, words, text, counts,
        places,
    )
}

// The step at place `at` on whatever is lent: causes 7 and 12 first. The test for cause 12 (one look at the design, at each cell and at each held
// value, the catalog, and a reload), then the cost of the command's operation, by that catalog.
pub fn step(
    script: &[u8],
    at: usize,
    design: Design,
    cells: &mut [u32],
    issues: &mut [u8],
    tables: &mut [u8],
    marks: &mut [u8],
    held: &mut [u32],
    words: &mut [u32],
    text: &mut [u8],
) -> Step
    ensures { DoesWords (lent design (cells_in cells.old issues.old) tables.old marks.old (words_held held.old))
        held.old (outputs words.old text.old) script.now at
        result (lent design (cells_in cells.new issues.new) tables.new marks.new (words_held held.new)) held.new
        (outputs words.new text.new) }
{
    let mut catalog = [0u16; 16449];
    let mut keys = [0u64; 4096];
    let rows = Rows {
        cells,
        issues,
        tables,
    };
    let why = cause(design, &rows, &mut catalog, &mut keys, marks, held);
    if why != 0 {
        return refusing(why, 0, at, false);
    }
    let mut own = first_words(held);
    let mut counts = [0u64; 5120];
    let mut places = [0u16; 5120];
    let step = step_lawful(
        script,
        at,
        design,
        cells,
        issues,
        tables,
        &mut catalog,
        &mut keys,
        marks,
        &mut own,
        words,
        text,
        &mut counts,
        &mut places,
    );
    store_words(&own, held);
    step
}
