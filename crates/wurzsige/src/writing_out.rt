// Writing a design out from lent memory.
ghost use Rattle.state.specs.Cells.{cells_in};
ghost use Rattle.wurzsige.specs.Calls.{memory, DesignWritten};

use crate::causes::memory_cause;
use state::Rows;
use words::design_from;
use writing::{design_length, write_design};

// Writes the design with its rows from the first byte of `out` on, and how many bytes it has: 0, or cause 7 or 12 of the memory, or cause 7 for `out`, which
// write nothing. The cost of `memory_cause`, then one step for each table, constraint and filling and eight for each row.
pub fn wurzsige_parts_write(
    cells: &[u32],
    issues: &[u8],
    tables: &[u8],
    marks: &[u8],
    design: &[u32],
    held: &[u32],
    out: &mut [u8],
    written: &mut usize,
) -> u8
    ensures { DesignWritten
        (memory design.now held.now (cells_in cells.now issues.now) tables.now marks.now) result
        out.old out.new written.old written.new }
{
    let mut c = [0u16; 16449];
    let mut k = [0u64; 4096];
    let rows = Rows {
        cells,
        issues,
        tables,
    };
    let why = memory_cause(&rows, &mut c, &mut k, marks, design, held);
    if why != 0 {
        return why;
    }
    let d = design_from(design);
    let n = design_length(d, issues, tables);
    if out.len() < n {
        return 7;
    }
    let rows = Rows {
        cells,
        issues,
        tables,
    };
    write_design(d, &rows, out);
    *written = n;
    0
}
