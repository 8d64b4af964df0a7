// Writing a lent design with its rows out, as a script that reads as it.
ghost use Rattle.state.specs.HeldWords.{words_held};
ghost use Rattle.state.specs.Lent.{lent};
ghost use Rattle.writing.specs.Writing.{WritesWords};
ghost use Rattle.state.specs.Rows.{cells_of};

use crate::commands::write_design;
use crate::lengths::design_length;
use crate::outcome::Written;
use guard::cause;
use state::{Design, Rows};

// Writes the design and its rows from the first byte of `out` on: causes 7 (rows), 12 and 7 (written design) first. The test for cause 12 (one look at
// the design, at each cell and at each held value, the catalog, and a reload), then one step for each table, constraint and filling and eight for each row.
pub fn write(design: Design, rows: &Rows, marks: &[u8], held: &[u32], out: &mut [u8]) -> Written
    ensures { WritesWords (lent design (cells_of rows.now) rows.now.tables.now marks.now (words_held held.now))
        held.now result out.old out.new }
{
    let mut catalog = [0u16; 16449];
    let mut keys = [0u64; 4096];
    let why = cause(design, rows, &mut catalog, &mut keys, marks, held);
    if why != 0 {
        return Written::Refused(why);
    }
    let n = design_length(design, rows.issues, rows.tables);
    if out.len() < n {
        return Written::Refused(7);
    }
    write_design(design, rows, out);
    Written::Bytes(n)
}
