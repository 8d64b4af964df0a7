// Storing a row among the lent rows. One step for each of its cells.
ghost use Rattle.std.specs.Prelude.{◌≡◌, ◌*◌, ◌≤◌, ◌<◌, length};
ghost use Rattle.std.proofs.lemmas.List.Edits.{sets};
ghost use Rattle.state.specs.Cells.{cells_in};
ghost use Rattle.state.specs.Design.{Backed};
ghost use Rattle.state.specs.Changes.{free_row, rows_in, stored};

use state::{Design, Row};

// What stands at a free number.
pub(crate) fn free_row() -> Row
    ensures { result ≡ free_row }
{
    Row {
        table: Design::FREE,
        numbers: [0; 8],
        issues: [0; 8],
    }
}

// All of row r.
pub(crate) fn store_row(cells: &mut [u32], issues: &mut [u8], tables: &mut [u8], r: usize, x: Row)
    requires { (r < 512) × Backed (cells_in cells.old issues.old) tables.old }
    ensures { rows_in (cells_in cells.new issues.new) tables.new
        ≡ stored (rows_in (cells_in cells.old issues.old) tables.old) r x }
{
    cells[8 * r..8 * r + 8].copy_from_slice(&x.numbers);
    issues[8 * r..8 * r + 8].copy_from_slice(&x.issues);
    tables[r] = x.table;
}
