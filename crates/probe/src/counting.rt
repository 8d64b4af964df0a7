// Counting the cached rows that have a value.
ghost use Rattle.std.specs.Prelude.{◌<◌, ◌≤◌, ◌≡◌, length};
ghost use Rattle.model.specs.Database.{Database};
ghost use Rattle.model.specs.Probe as Probe;
ghost use Rattle.model.specs.Runs.{marked};
ghost use Rattle.state.specs.Meaning.{cell_of, column_of};
ghost use Rattle.catalog.specs.Index.{IsIndexed};

use catalog::{Index, next_row};
use state::{Cell, Column, Design};

// How many cached rows have the value in the column. A search of the directory, and one step for each row that has the value.
pub(crate) fn rows_with(index: &Index, marks: &[u8], k: Column, v: Cell) -> usize
    requires table_bound { (k.table < 8) × (k.place < 8) × (512 ≤ length marks.now) }
    requires indexed { (D : Database) × IsIndexed D index.now }
    ensures { (D : Database) → IsIndexed D index.now
        → result ≡ Probe.cached_rows D (marked marks.now) (column_of k) (cell_of v) }
{
    let mut n = 0;
    let mut r = index.find(k, v);
    // along the links: each is the next row that has the value, as the catalog has it, or 512, which ends the walk
    while r < Design::ROWS {
        if marks[r] == 1 {
            n += 1;
        }
        r = next_row(index.catalog, r, k.place as usize);
    }
    n
}
