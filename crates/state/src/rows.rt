// Reading lent rows: row r's table is at place r of `tables`, its cells' numbers at 8 times r of `cells`, and their issues at 8 times r of `issues`. A row as
// an operand, by value. Constant time.
ghost use Rattle.std.specs.Prelude.{◌≡◌, ◌≤◌, ◌<◌, ◌&&◌, length, eqb, get_or, ℕ, ◌^◌};
ghost use Rattle.model.specs.Database.{has};
ghost use Rattle.state.specs.Cells.{Cells};
ghost use Rattle.state.specs.Meaning.{cell_of, column_of, database_of};
ghost use Rattle.state.specs.Rows.{database_in, IsBacked};

use crate::cell::{Cell, cell_at, same_cell};
use crate::design::{Column, Design};

// Lent rows: the numbers and the issues of their cells, and the table of each.
#[derive(Clone, Copy)]
pub struct Rows<'a> {
    pub cells: &'a [u32],
    pub issues: &'a [u8],
    pub tables: &'a [u8],
}

// A row's table, and the numbers and the issues of its eight cells.
#[derive(Clone, Copy)]
pub struct Row {
    pub table: u8,
    pub numbers: [u32; 8],
    pub issues: [u8; 8],
}

// Whether number r has a row.
pub fn is_live(tables: &[u8], r: usize) -> bool
    requires { (r < 512) × (512 ≤ length tables.now) }
    ensures { (cells : Cells) → result ≡ (database_of cells tables.now).live r }
{
    tables[r] != Design::FREE
}

// Whether row r is a row of table t.
pub(crate) fn is_row_of(tables: &[u8], t: u8, r: usize) -> bool
    requires { (r < 512) × (512 ≤ length tables.now) }
    ensures { (cells : Cells) → result ≡ ((database_of cells tables.now).live r && eqb (get_or tables.now r 0) t) }
{
    is_live(tables, r) && tables[r] == t
}

// That the numbers are u32, which a field's type doesn't say by itself. Constant time, as are the next two.
fn note_numbers(cells: &[u32])
    ensures { (i : ℕ) → get_or cells.now i 0 < 2 ^ 32 }
{
    let _n = cells.len();
}

// That the issues are u8.
fn note_issues(issues: &[u8])
    ensures { (i : ℕ) → get_or issues.now i 0 < 2 ^ 8 }
{
    let _n = issues.len();
}

impl Rows<'_> {
    // Whether row r is a row of the column's table and has the value there.
    pub fn has(&self, k: Column, v: Cell, r: usize) -> bool
        requires { (r < 512) × (k.place < 8) × IsBacked self.now }
        ensures { result ≡ has (database_in self.now) (column_of k) (cell_of v) r }
    {
        is_row_of(self.tables, k.table, r)
            && same_cell(cell_at(self.cells, self.issues, r, usize::from(k.place)), v)
    }

    // Both, for a contract that speaks of the values of all rows.
    pub fn note_types(&self)
        ensures numbers { (i : ℕ) → get_or self.now.cells.now i 0 < 2 ^ 32 }
        ensures issues { (i : ℕ) → get_or self.now.issues.now i 0 < 2 ^ 8 }
    {
        note_numbers(self.cells);
        note_issues(self.issues);
    }
}
