// How much is to be lent, before it is, for C.
ghost use Rattle.state.specs.Cells.{cells_in};
ghost use Rattle.wurzsige.specs.Calls.{memory, SizesTold};

// Stores the three numbers: 0, or cause 7 or 12, which leaves them as they were; nothing else changes. The cost of `memory_cause`, of counting a query's lists
// without writing them, or of composing a reason, and of a look at each row.
#[unsafe(no_mangle)]
pub extern "C" fn wurzsige_parts_sizes(
    script: &[u8],
    at: usize,
    cells: &[u32],
    issues: &[u8],
    tables: &[u8],
    marks: &[u8],
    design: &[u32],
    held: &[u32],
    sizes: &mut [u64; 3],
) -> u8
    ensures { SizesTold
        (memory design.now held.now (cells_in cells.now issues.now) tables.now marks.now)
        script.now at result sizes.old sizes.new }
{
    wurzsige::wurzsige_parts_sizes(
        script, at, cells, issues, tables, marks, design, held, sizes,
    )
}
