// Opening a design: it is read into lent memory, with nothing held and the catalog of its rows.
ghost use Rattle.std.specs.Prelude.{◌≡◌};
ghost use Rattle.state.specs.Cells.{cells_in};
ghost use Rattle.state.specs.Design.{empty_design};
ghost use Rattle.format.specs.declared.verdict.Verdict.TheVariants as Verdicts;
ghost use Rattle.wurzsige.specs.Calls.{memory, arrays, opening, Opened, OpenTaken};

use crate::telling::tell_reading;
use format::{DesignReading, Verdict, read_catalogued};
use state::{Design, HELD_WORDS, store_words};
use words::{DESIGN_WORDS, put_design};

// A refusal with cause 7. Constant time.
fn short() -> DesignReading
    ensures { result ≡ record { verdict = Verdicts.Refused 7 0; design = empty_design; rows = 0 } }
{
    let design = Design::empty();
    DesignReading {
        verdict: Verdict::Refused(7, 0),
        design,
        rows: 0,
    }
}

// Reads the design at the start of a script into lent memory; a refusal leaves all of it as it was. The cost of `read_catalogued`.
fn open_memory(
    script: &[u8],
    cells: &mut [u32],
    issues: &mut [u8],
    tables: &mut [u8],
    catalog: &mut [u16; 16449],
    keys: &mut [u64; 4096],
    marks: &mut [u8],
    design: &mut [u32],
    held: &mut [u32],
) -> DesignReading
    ensures { Opened
        (opening script.now (memory design.old held.old (cells_in cells.old issues.old) tables.old marks.old)) result
        (memory design.old held.old (cells_in cells.old issues.old) tables.old marks.old)
        (memory design.new held.new (cells_in cells.new issues.new) tables.new marks.new)
        (arrays catalog.old keys.old)
        (arrays catalog.new keys.new) }
{
    if design.len() < DESIGN_WORDS {
        return short();
    }
    if held.len() < HELD_WORDS {
        return short();
    }
    let reading = read_catalogued(script, cells, issues, tables, marks, catalog, keys);
    let verdict = reading.verdict;
    let Verdict::Accepted(_) = verdict else {
        return reading;
    };
    let d = reading.design;
    put_design(d, design);
    let none = [0u32; 358];
    store_words(&none, held);
    reading
}

// Opens the design at the start of a script and tells of it: the number of the word, 19 with the counts of an accepted design and the place behind END, or 7
// with the cause of a refusal and its place, which leaves all memory as it was. What stood in the memory before is free. The cost of `read_catalogued`.
pub fn wurzsige_parts_open(
    script: &[u8],
    cells: &mut [u32],
    issues: &mut [u8],
    tables: &mut [u8],
    catalog: &mut [u16; 16449],
    keys: &mut [u64; 4096],
    marks: &mut [u8],
    design: &mut [u32],
    held: &mut [u32],
    numbers: &mut [u64; 16],
    count: &mut u8,
    place: &mut usize,
    after: &mut usize,
    more: &mut u8,
) -> u8
    ensures { OpenTaken
        (opening script.now (memory design.old held.old (cells_in cells.old issues.old) tables.old marks.old))
        result numbers.new count.new place.new after.new more.new
        (memory design.old held.old (cells_in cells.old issues.old) tables.old marks.old)
        (memory design.new held.new (cells_in cells.new issues.new) tables.new marks.new)
        (arrays catalog.old keys.old)
        (arrays catalog.new keys.new) }
{
    let r = open_memory(
        script, cells, issues, tables, catalog, keys, marks, design, held,
    );
    let verdict = r.verdict;
    let d = r.design;
    tell_reading(verdict, d, r.rows, numbers, count, place, after, more)
}
