// Listing the values of one column.
ghost use Rattle.std.specs.Prelude.{◌≡◌, ◌+◌, ◌≤◌, ◌<◌, length};
ghost use Rattle.finite.specs.Finite.{count};
ghost use Rattle.state.specs.Meaning.{column_of};
ghost use Rattle.catalog.specs.Catalog.{Falls, Listed};
ghost use Rattle.catalog.specs.Listing.{Moved, Entered, in_table, Put, Added};
ghost use Rattle.state.specs.Rows.{database_in, IsBacked};

use crate::finding::{key_of, seat, stands};
use state::{Column, Design, Rows, cell_at, is_blank};

// Moves the elements from place a to place m one place on. A step for each.
pub fn make_room(keys: &mut [u64; 4096], heads: &mut [u16; 4096], a: usize, m: usize)
    requires { (a ≤ m) × (m < 4096) × (length keys.old ≡ 4096) × (length heads.old ≡ 4096) }
    ensures { Moved a m keys.old keys.new × Moved a m heads.old heads.new }
{
    keys.copy_within(a..m, a + 1);
    heads.copy_within(a..m, a + 1);
}

// Where the column's values end after one is entered, and the value's first row before.
#[derive(Clone, Copy)]
pub(crate) struct Entry {
    pub to: usize,
    pub next: u16,
}

// Enters row r, before all rows that are in, at its key x, which is new or not. A binary search, and a step for each value below a new one.
fn enter(
    keys: &mut [u64; 4096],
    heads: &mut [u16; 4096],
    from: usize,
    m: usize,
    x: u64,
    r: usize,
) -> Entry
    requires { (from ≤ m) × (m < 4096) × (r < 512) × (length keys.old ≡ 4096) × (length heads.old ≡ 4096) × Falls from m keys.old }
    ensures { Entered x r from m keys.old heads.old keys.new heads.new result.to result.next }
{
    let a = seat(keys, from, m, x);
    if stands(keys, m, a, x) {
        let next = heads[a];
        heads[a] = r as u16;
        return Entry { to: m, next };
    }
    make_room(keys, heads, a, m);
    keys[a] = x;
    heads[a] = r as u16;
    Entry {
        to: m + 1,
        next: 512,
    }
}

// Puts row r in, if there is one and it is a row of the column's table, and sets the next row of its cell there; where the column's values end then. The cost is that
// of `enter`.
fn put(
    rows: &Rows,
    k: Column,
    from: usize,
    m: usize,
    keys: &mut [u64; 4096],
    heads: &mut [u16; 4096],
    next: &mut [u16; 4096],
    r: usize,
) -> usize
    requires backed { IsBacked rows.now }
    requires place_bound { (k.place < 8) × (k.table < 8) × (r < 512)
        × (length keys.old ≡ 4096) × (length heads.old ≡ 4096) × (length next.old ≡ 4096) }
    requires listed { Listed (database_in rows.now) (column_of k) (r + 1) from m keys.old heads.old }
    requires table_bound { m + count (r + 1) (in_table (database_in rows.now) k.table) ≤ 4096 }
    ensures { Put (database_in rows.now) (column_of k) r from m
        keys.old heads.old next.old result keys.new heads.new next.new }
{
    if rows.tables[r] != k.table {
        return m;
    }
    let c = k.place as usize;
    let v = cell_at(rows.cells, rows.issues, r, c);
    let i = 8 * r + c;
    if is_blank(v) {
        next[i] = 512;
        return m;
    }
    let e = enter(keys, heads, from, m, key_of(v), r);
    next[i] = e.next;
    e.to
}

// Lists the values of column k from place `from` on, and sets the next rows of its cells; where the values end. One turn for each row number, from the last
// to the first.
pub(crate) fn add_column(
    rows: &Rows,
    k: Column,
    from: usize,
    keys: &mut [u64; 4096],
    heads: &mut [u16; 4096],
    next: &mut [u16; 4096],
) -> usize
    requires backed { IsBacked rows.now }
    requires place_bound { (k.place < 8) × (k.table < 8) × (length keys.old ≡ 4096) × (length heads.old ≡ 4096) × (length next.old ≡ 4096) }
    requires table_bound { from + count 512 (in_table (database_in rows.now) k.table) ≤ 4096 }
    ensures { Added (database_in rows.now) (column_of k) 0 from
        keys.old heads.old next.old result keys.new heads.new next.new }
{
    let mut m = from;
    for r in (0..Design::ROWS).rev() {
        m = put(rows, k, from, m, keys, heads, next, r);
    }
    m
}
