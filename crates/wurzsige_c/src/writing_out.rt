// Writing a design out from lent memory, for C.
ghost use Rattle.state.specs.Cells.{cells_in};
ghost use Rattle.wurzsige.specs.Calls.{memory, DesignWritten};

// Writes the design with its rows from the first byte of `out` on, and how many bytes it has: 0, or cause 7 or 12 of the memory, or cause 7 for `out`, which
// write nothing. The cost of `memory_cause`, then one step for each table, constraint and filling and eight for each row.
#[unsafe(no_mangle)]
pub extern "C" fn wurzsige_parts_write(
    cells: &[u32],
    issues: &[u8],
    tables: &[u8],
    marks: &[u8],
    design: &[u32],
    held: &[u32],
    out: &mut [u8],
    written: &mut usize,
) -> u8
    ensures { DesignWritten
        (memory design.now held.now (cells_in cells.now issues.now) tables.now marks.now) result
        out.old out.new written.old written.new }
{
    wurzsige::wurzsige_parts_write(cells, issues, tables, marks, design, held, out, written)
}
