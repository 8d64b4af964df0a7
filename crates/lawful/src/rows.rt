// Rows: whether a row can stand at its number, lent or as an operand, and whether all lent rows stand as a script leaves them. Whether unique columns have a
// value twice is read off a catalog of the rows, by those who have one.
ghost use Rattle.std.specs.Prelude.{List, ◌≡◌, ℕ, ◌≤◌, ◌<◌, length};
ghost use Rattle.model.specs.Cell as Model;
ghost use Rattle.state.specs.Cells.{cells_in};
ghost use Rattle.state.specs.Meaning.{cell_of, database_of, scheme_of};
ghost use Rattle.state.specs.Lawful.{cell_fits, fits_table, row_fits, blank_row};
ghost use Rattle.state.specs.Changes.{row_cell};
ghost use Rattle.lawful.specs.Parts.{row_stands, rows_stand};
ghost use Rattle.state.specs.Rows.{database_in, cells_of, IsBacked};

use state::{Cell, Design, Row, Rows, cell_at, is_blank, is_live, is_numberless, table_at};

// Whether cell c of a row, which `cell` reads, fits a table of n columns: a blank does anywhere, an issue without a number nowhere, a number in one of them.
// One look at the cell.
#[tactic(auto, unfolding(state::specs::Lawful::cell_fits))]
fn cell_fits<F: Fn(usize) -> Cell>(cell: &F, n: u8, c: usize) -> bool
    requires { F.pre cell.now c }
    ensures { (a : Model.Cell) → ((x : _) → F.post cell.now c x → cell_of x ≡ a) → result ≡ cell_fits n c a }
{
    let a = cell(c);
    if is_numberless(a) {
        is_blank(a)
    } else {
        c < usize::from(n)
    }
}

// Whether a row, lent or an operand, belongs to a table and its cells fit that table's columns. The design is lent: by value, its 200 bytes would be copied for
// each row. One look at each of its 8 cells.
fn fits_table<F: Fn(usize) -> Cell>(d: &Design, table: u8, cell: F) -> bool
    requires { (c : ℕ) → c < 8 → F.pre cell c }
    ensures { (a : ℕ → Model.Cell) → ((c : ℕ) (x : _) → F.post cell c x → cell_of x ≡ a c) → result ≡ fits_table (scheme_of d.now) table a }
{
    let t = usize::from(table);
    let n = table_at(*d, t).columns;
    t < d.tables && (0..Design::COLUMNS).all(|c| cell_fits(&cell, n, c))
}

// Whether row r fits so.
fn fits_at(d: &Design, rows: &Rows, r: usize) -> bool
    requires { (r < 512) × IsBacked rows.now }
    ensures { result ≡ row_fits (scheme_of d.now) (database_in rows.now) r }
{
    fits_table(
        d,
        rows.tables[r],
        |c| cell_at(rows.cells, rows.issues, r, c),
    )
}

// The same, for a design by value.
pub fn row_fits(d: Design, rows: &Rows, r: usize) -> bool
    requires { (r < 512) × IsBacked rows.now }
    ensures { result ≡ row_fits (scheme_of d) (database_in rows.now) r }
{
    fits_at(&d, rows, r)
}

// Cell c of a row that is an operand. Constant time.
pub fn operand_cell(x: Row, c: usize) -> Cell
    requires { c < 8 }
    ensures { cell_of result ≡ row_cell x c }
{
    Cell {
        number: x.numbers[c],
        issue: x.issues[c],
    }
}

// Whether a row that is an operand fits so.
pub fn operands_fit(d: Design, x: Row) -> bool
    ensures { result ≡ fits_table (scheme_of d) x.table (row_cell x) }
{
    fits_table(&d, x.table, |c| operand_cell(x, c))
}

// Whether there is no cell at number r, as where there is no row. One look at each of its 8 cells.
fn blank_row(cells: &[u32], issues: &[u8], r: usize) -> bool
    requires { (r < 512) × (4096 ≤ length cells.now) × (4096 ≤ length issues.now) }
    ensures { (tables : List ℕ) → result ≡ blank_row (database_of (cells_in cells.now issues.now) tables) r }
{
    (0..Design::COLUMNS).all(|c| is_blank(cell_at(cells, issues, r, c)))
}

// Whether number r stands as a script would leave it, other rows apart: a row that fits, or none and no cell. One look at each of its 8 cells.
fn row_stands(d: &Design, rows: &Rows, r: usize) -> bool
    requires { (r < 512) × IsBacked rows.now }
    ensures { result ≡ row_stands d.now (cells_of rows.now) rows.now.tables.now r }
{
    if is_live(rows.tables, r) {
        fits_at(d, rows, r)
    } else {
        blank_row(rows.cells, rows.issues, r)
    }
}

// Whether all rows stand so. What a script asks of them besides, that unique columns have no value twice, is read off a catalog of them. One look at each
// of the 4,096 cells.
pub fn rows_stand(d: Design, rows: &Rows) -> bool
    requires { IsBacked rows.now }
    ensures { result ≡ rows_stand d (cells_of rows.now) rows.now.tables.now }
{
    (0..Design::ROWS).all(|r| row_stands(&d, rows, r))
}
