// Opening a design, for C.
ghost use Rattle.state.specs.Cells.{cells_in};
ghost use Rattle.wurzsige.specs.Calls.{memory, arrays, opening, OpenTaken};

// Opens the design at the start of a script and tells of it: the number of the word, 19 with the counts of an accepted design and the place behind END, or 7
// with the cause of a refusal and its place, which leaves all memory as it was. What stood in the memory before is free. The cost of `read_catalogued`.
#[unsafe(no_mangle)]
pub extern "C" fn wurzsige_parts_open(
    script: &[u8],
    cells: &mut [u32],
    issues: &mut [u8],
    tables: &mut [u8],
    catalog: &mut [u16; 16449],
    keys: &mut [u64; 4096],
    marks: &mut [u8],
    design: &mut [u32],
    held: &mut [u32],
    numbers: &mut [u64; 16],
    count: &mut u8,
    place: &mut usize,
    after: &mut usize,
    more: &mut u8,
) -> u8
    ensures { OpenTaken
        (opening script.now (memory design.old held.old (cells_in cells.old issues.old) tables.old marks.old))
        result numbers.new count.new place.new after.new more.new
        (memory design.old held.old (cells_in cells.old issues.old) tables.old marks.old)
        (memory design.new held.new (cells_in cells.new issues.new) tables.new marks.new)
        (arrays catalog.old keys.old)
        (arrays catalog.new keys.new) }
{
    wurzsige::wurzsige_parts_open(
        script, cells, issues, tables, catalog, keys, marks, design, held, numbers, count, place,
        after, more,
    )
}
