// One step of a script on lent memory.
ghost use Rattle.state.specs.Cells.{cells_in};
ghost use Rattle.script.specs.Step.{outputs};
ghost use Rattle.wurzsige.specs.Calls.{memory, arrays, Trusts, PlainStep, TrustedStep};

use crate::REFUSED;
use crate::causes::memory_cause;
use crate::telling::{tell, tell_places};
use script::step_lawful;
use state::{Answer, Rows, first_words, store_words};
use words::lawful_design_from;

// The step at place `at` of a script on memory that is ready: the number of the answer's word, with what is told beside it; the arrays behind `text` are
// working memory, whatever stands in them before, and nothing is said of them after. A reason's sentence stands in `text`, from its first byte on. The cost of
// the command's operation, and a copy of the design's words.
pub fn wurzsige_parts_step_trusted(
    script: &[u8],
    at: usize,
    cells: &mut [u32],
    issues: &mut [u8],
    tables: &mut [u8],
    catalog: &mut [u16; 16449],
    keys: &mut [u64; 4096],
    marks: &mut [u8],
    design: &[u32],
    held: &mut [u32; 358],
    words: &mut [u32],
    text: &mut [u8],
    counts: &mut [u64; 5120],
    places: &mut [u16; 5120],
    numbers: &mut [u64; 16],
    count: &mut u8,
    place: &mut usize,
    after: &mut usize,
    more: &mut u8,
) -> u8
    requires { Trusts (memory design.now held.old (cells_in cells.old issues.old) tables.old marks.old) (arrays catalog.old keys.old) }
    ensures { TrustedStep
        (memory design.now held.old (cells_in cells.old issues.old) tables.old marks.old)
        (outputs words.old text.old) script.now at
        result numbers.new count.new place.new after.new more.new
        (memory design.now held.new (cells_in cells.new issues.new) tables.new marks.new)
        (arrays catalog.new keys.new)
        (outputs words.new text.new) }
{
    let d = lawful_design_from(design);
    let t = step_lawful(
        script, at, d, cells, issues, tables, catalog, keys, marks, held, words, text, counts,
        places,
    );
    let a = t.answer;
    tell_places(t.place, t.next, t.more, place, after, more);
    tell(a, numbers, count)
}

// The same on whatever is lent: causes 7 and 12 first. A refusal leaves everything as it was; with any other answer the arrays get the catalog of the rows, so
// that the memory is ready afterwards. The cost of `memory_cause`, and of the step.
pub fn wurzsige_parts_step(
    script: &[u8],
    at: usize,
    cells: &mut [u32],
    issues: &mut [u8],
    tables: &mut [u8],
    catalog: &mut [u16; 16449],
    keys: &mut [u64; 4096],
    marks: &mut [u8],
    design: &[u32],
    held: &mut [u32],
    words: &mut [u32],
    text: &mut [u8],
    numbers: &mut [u64; 16],
    count: &mut u8,
    place: &mut usize,
    after: &mut usize,
    more: &mut u8,
) -> u8
    ensures { PlainStep
        (memory design.now held.old (cells_in cells.old issues.old) tables.old marks.old)
        (arrays catalog.old keys.old)
        (outputs words.old text.old) script.now at
        result numbers.new count.new place.new after.new more.new
        (memory design.now held.new (cells_in cells.new issues.new) tables.new marks.new)
        (arrays catalog.new keys.new)
        (outputs words.new text.new) }
{
    let mut c = [0u16; 16449];
    let mut k = [0u64; 4096];
    let rows = Rows {
        cells,
        issues,
        tables,
    };
    let why = memory_cause(&rows, &mut c, &mut k, marks, design, held);
    if why != 0 {
        tell_places(0, at, false, place, after, more);
        return tell(Answer::Refused(why), numbers, count);
    }
    let mut own = first_words(held);
    let mut counts = [0u64; 5120];
    let mut places = [0u16; 5120];
    let word = wurzsige_parts_step_trusted(
        script,
        at,
        cells,
        issues,
        tables,
        &mut c,
        &mut k,
        marks,
        design,
        &mut own,
        words,
        text,
        &mut counts,
        &mut places,
        numbers,
        count,
        place,
        after,
        more,
    );
    if word == REFUSED {
        return word;
    }
    store_words(&own, held);
    *catalog = c;
    *keys = k;
    word
}
