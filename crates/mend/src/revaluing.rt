// The directory, where a row comes or goes: its eight values, column by column. The row is read among the lent rows, which have it.
ghost use Rattle.std.specs.Prelude.{◌≡◌, ◌+◌, ◌*◌, ◌≤◌, ◌<◌, length, get_or};
ghost use Rattle.model.specs.Database.{Database};
ghost use Rattle.catalog.specs.Catalog.{Directory, Links};
ghost use Rattle.mend.specs.Changing.{Without};
ghost use Rattle.mend.specs.Values.{Changing};
ghost use Rattle.state.specs.Rows.{database_in, IsBacked};

use crate::values::{drop_value, put_value};
use catalog::key_of;
use state::{Rows, cell_at, is_blank};

// Row r comes: its cell c. The cost is that of `put_value`.
fn put_cell(
    rows: &Rows,
    keys: &mut [u64; 4096],
    heads: &mut [u16; 4096],
    starts: &mut [u16; 65],
    r: usize,
    c: usize,
)
    requires r_bound { (r < 512) × (c < 8) × IsBacked rows.now × (get_or rows.now.tables.now r 0 < 8) × (get_or starts.old 64 0 < 4096) }
    requires without { (E : Database) × Without E (database_in rows.now) r
        × Changing E (database_in rows.now) (8 * get_or rows.now.tables.now r 0 + c) keys.old heads.old starts.old }
    ensures { (get_or starts.new 64 0 ≤ get_or starts.old 64 0 + 1) × ((E : Database)
        → Without E (database_in rows.now) r
        → Changing E (database_in rows.now) (8 * get_or rows.now.tables.now r 0 + c)
        keys.old heads.old starts.old
        → Changing E (database_in rows.now) (8 * get_or rows.now.tables.now r 0 + (c + 1))
        keys.new heads.new starts.new) }
{
    let v = cell_at(rows.cells, rows.issues, r, c);
    if is_blank(v) {
        return;
    }
    let n = 8 * rows.tables[r] as usize + c;
    put_value(keys, heads, starts, n, key_of(v), r);
}

// Row r goes: its cell c, whose next row the catalog has. The cost is that of `drop_value`.
fn drop_cell(
    rows: &Rows,
    catalog: &[u16; 16449],
    keys: &mut [u64; 4096],
    heads: &mut [u16; 4096],
    starts: &mut [u16; 65],
    r: usize,
    c: usize,
)
    requires r_bound { (r < 512) × (c < 8) × IsBacked rows.now × (get_or rows.now.tables.now r 0 < 8) }
    requires links { Links (database_in rows.now) catalog.now }
    requires without { (E : Database) × Without E (database_in rows.now) r
        × Changing (database_in rows.now) E (8 * get_or rows.now.tables.now r 0 + c) keys.old heads.old starts.old }
    ensures { (E : Database)
        → Without E (database_in rows.now) r
        → Changing (database_in rows.now) E (8 * get_or rows.now.tables.now r 0 + c)
        keys.old heads.old starts.old
        → Changing (database_in rows.now) E (8 * get_or rows.now.tables.now r 0 + (c + 1))
        keys.new heads.new starts.new }
{
    rows.note_types();
    let v = cell_at(rows.cells, rows.issues, r, c);
    if is_blank(v) {
        return;
    }
    let n = 8 * rows.tables[r] as usize + c;
    drop_value(keys, heads, starts, n, key_of(v), r, catalog[8 * r + c]);
}

// Row r comes: the directory of the rows without it becomes that of the lent rows. A binary search for each of its values, and for each that is new in its
// column a step for every value behind it.
pub(crate) fn put_cells(
    rows: &Rows,
    keys: &mut [u64; 4096],
    heads: &mut [u16; 4096],
    starts: &mut [u16; 65],
    r: usize,
)
    requires r_bound { (r < 512) × IsBacked rows.now × (get_or rows.now.tables.now r 0 < 8) × (get_or starts.old 64 0 ≤ 4088) }
    requires without { (E : Database) × Without E (database_in rows.now) r × Directory E keys.old heads.old starts.old }
    ensures { (E : Database)
        → Without E (database_in rows.now) r
        → Directory E keys.old heads.old starts.old
        → Directory (database_in rows.now) keys.new heads.new starts.new }
{
    for c in 0..8usize {
        put_cell(rows, keys, heads, starts, r, c);
    }
}

// Row r goes: the directory of the lent rows becomes that of the rows without it. A binary search for each of its values, and for each that no other row has
// in its column a step for every value behind it.
pub(crate) fn drop_cells(
    rows: &Rows,
    catalog: &[u16; 16449],
    keys: &mut [u64; 4096],
    heads: &mut [u16; 4096],
    starts: &mut [u16; 65],
    r: usize,
)
    requires r_bound { (r < 512) × IsBacked rows.now × (get_or rows.now.tables.now r 0 < 8) }
    requires links { Links (database_in rows.now) catalog.now }
    requires without { (E : Database) × Without E (database_in rows.now) r }
    requires directory { Directory (database_in rows.now) keys.old heads.old starts.old }
    ensures { (E : Database) → Without E (database_in rows.now) r
        → Directory E keys.new heads.new starts.new }
{
    for c in 0..8usize {
        drop_cell(rows, catalog, keys, heads, starts, r, c);
    }
}
