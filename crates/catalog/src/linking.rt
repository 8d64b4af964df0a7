// The next rows of all cells.
ghost use Rattle.std.specs.Prelude.{◌≡◌, true, ◌/◌, ◌%◌, ◌<◌, length, get_or};
ghost use Rattle.catalog.specs.Catalog.{next_of, nexts};
ghost use Rattle.catalog.specs.Columns.{Linked};
ghost use Rattle.state.specs.Rows.{database_in, IsBacked};

use crate::scanning::scan;
use state::{Column, Design, Rows, cell_at, is_blank, is_live};

// The next row of cell number x, where it is known for the rows of the first 8 tables. Constant time for those.
fn settled(rows: &Rows, x: usize, known: u16) -> u16
    requires { (x < 4096) × IsBacked rows.now }
    ensures { ((database_in rows.now).live (x / 8) ≡ true
        → get_or rows.now.tables.now (x / 8) 0 < 8
        → known ≡ next_of (database_in rows.now) (x / 8) (x % 8))
        → result ≡ next_of (database_in rows.now) (x / 8) (x % 8) }
{
    let r = x / 8;
    let c = x % 8;
    if !is_live(rows.tables, r) {
        return 512;
    }
    let t = rows.tables[r];
    if t < 8 {
        return known;
    }
    let v = cell_at(rows.cells, rows.issues, r, c);
    if is_blank(v) {
        return 512;
    }
    let k = Column {
        table: t,
        place: c as u8,
    };
    scan(rows, k, v, r + 1) as u16
}

// Sets the next rows of the cells that are in no column of the directory. One step for each cell.
pub(crate) fn settle(rows: &Rows, next: &mut [u16; 4096])
    requires backed { IsBacked rows.now × (length next.old ≡ 4096) }
    requires linked { Linked (database_in rows.now) 64 next.old }
    ensures { next.new ≡ nexts (database_in rows.now) }
{
    // by index, in place: in a closure of `array::from_fn` the promise of `settled`, which rests on what was known, gave no proof
    for x in 0..Design::CELLS {
        next[x] = settled(rows, x, next[x]);
    }
}
