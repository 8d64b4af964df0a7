// Why a change of the rows is refused: causes 5 and 6.
ghost use Rattle.std.specs.Prelude.{◌≡◌, ◌≤◌, ◌<◌, length};
ghost use Rattle.model.specs.Database.{Database};
ghost use Rattle.state.specs.Cells.{Cells};
ghost use Rattle.state.specs.Design.{InRange};
ghost use Rattle.state.specs.Lawful.{stood_below};
ghost use Rattle.state.specs.Meaning.{scheme_of};
ghost use Rattle.state.specs.Changes.{put, remove, row_cell, rows_in, tables_of, change_cause};
ghost use Rattle.finite.specs.Finite.{any};
ghost use Rattle.change.specs.Replacing.{unless_zero};
ghost use Rattle.catalog.specs.Index.{IsIndexed};

use catalog::Index;
use lawful::{is_unique, operand_cell, operands_fit};
use state::{Column, Design, Row, is_live};

// Whether column c of x's table is unique and a row has x's value there. The search of a column's values.
fn stands_at(d: Design, index: &Index, x: Row, c: u8) -> bool
    requires { (x.table < 8) × (c < 8) }
    ensures { (D : Database) → IsIndexed D index.now
        → result ≡ stood_below (scheme_of d) D 512 (record { table = x.table; place = c }) (row_cell x c) }
{
    let k = Column {
        table: x.table,
        place: c,
    };
    let v = operand_cell(x, usize::from(c));
    is_unique(d, k) && index.find(k, v) < Design::ROWS
}

// Whether a row has one of x's values in a unique column. Eight such searches at the most.
fn stands(d: Design, index: &Index, x: Row) -> bool
    requires { x.table < 8 }
    ensures { (D : Database) → IsIndexed D index.now
        → result ≡ any 8 (λ c. stood_below (scheme_of d) D 512 (record { table = x.table; place = c }) (row_cell x c)) }
{
    (0..8).any(|c| stands_at(d, index, x, c))
}

// The cause for which x isn't put in at number r, if there is one. One look at each of its cells, and eight searches at the most.
pub(crate) fn put_cause(d: Design, tables: &[u8], index: &Index, r: usize, x: Row) -> Option<u8>
    requires { InRange d × (512 ≤ length tables.now) }
    ensures { (cells : Cells) → IsIndexed (tables_of (rows_in cells tables.now)) index.now
        → result ≡ unless_zero (change_cause (scheme_of d) (rows_in cells tables.now) (put r x)) }
{
    if Design::ROWS <= r || is_live(tables, r) || !operands_fit(d, x) {
        return Some(5);
    }
    if stands(d, index, x) {
        return Some(6);
    }
    None
}

// The cause for which no row is removed at number r, if there is one. Constant time.
pub(crate) fn remove_cause(d: Design, tables: &[u8], r: usize) -> Option<u8>
    requires { 512 ≤ length tables.now }
    ensures { (cells : Cells) → result ≡ unless_zero (change_cause (scheme_of d) (rows_in cells tables.now) (remove r)) }
{
    if Design::ROWS <= r || !is_live(tables, r) {
        return Some(5);
    }
    None
}
