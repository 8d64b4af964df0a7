// The next rows of all eight places, where a row comes or goes. The row is read among the lent rows, which have it: as they are after it came, and before it goes.
ghost use Rattle.std.specs.Prelude.{◌≡◌, ◌<◌, length, get_or};
ghost use Rattle.model.specs.Database.{Database};
ghost use Rattle.catalog.specs.Catalog.{heads_in, starts_in, Directory, Links};
ghost use Rattle.mend.specs.Changing.{Chained, Place, Relinked, Without};
ghost use Rattle.state.specs.Rows.{database_in, IsBacked};

use crate::chaining::{link_in, link_out};
use state::{Column, Rows, cell_at, is_blank};

// Row r comes: place c. The cost is that of `link_in`.
fn add_link(rows: &Rows, catalog: &mut [u16; 16449], keys: &[u64; 4096], r: usize, c: u8)
    requires r_bound { (r < 512) × (c < 8) × IsBacked rows.now × (get_or rows.now.tables.now r 0 < 8) × (length catalog.old ≡ 16449) }
    requires without { (E : Database) × Without E (database_in rows.now) r
        × Directory E keys.now (heads_in catalog.old) (starts_in catalog.old) × Chained E c catalog.old }
    ensures { Place c catalog.old catalog.new × ((E : Database)
        → Without E (database_in rows.now) r
        → Directory E keys.now (heads_in catalog.old) (starts_in catalog.old) → Chained E c catalog.old
        → Chained (database_in rows.now) c catalog.new) }
{
    let v = cell_at(rows.cells, rows.issues, r, c as usize);
    if is_blank(v) {
        return;
    }
    let k = Column {
        table: rows.tables[r],
        place: c,
    };
    link_in(catalog, keys, k, v, r);
}

// Row r goes: place c. The cost is that of `link_out`.
fn drop_link(rows: &Rows, catalog: &mut [u16; 16449], keys: &[u64; 4096], r: usize, c: u8)
    requires r_bound { (r < 512) × (c < 8) × IsBacked rows.now × (get_or rows.now.tables.now r 0 < 8) × (length catalog.old ≡ 16449) }
    requires without { (E : Database) × Without E (database_in rows.now) r
        × Directory E keys.now (heads_in catalog.old) (starts_in catalog.old) × Chained (database_in rows.now) c catalog.old }
    ensures { Place c catalog.old catalog.new × ((E : Database)
        → Without E (database_in rows.now) r
        → Directory E keys.now (heads_in catalog.old) (starts_in catalog.old)
        → Chained (database_in rows.now) c catalog.old
        → Chained E c catalog.new) }
{
    let v = cell_at(rows.cells, rows.issues, r, c as usize);
    if is_blank(v) {
        return;
    }
    let k = Column {
        table: rows.tables[r],
        place: c,
    };
    link_out(catalog, keys, k, v, r);
}

// Row r comes: the next rows of the rows without it become those of the lent rows. A search and a walk to the row before it for each of its values.
pub(crate) fn add_links(rows: &Rows, catalog: &mut [u16; 16449], keys: &[u64; 4096], r: usize)
    requires r_bound { (r < 512) × IsBacked rows.now × (get_or rows.now.tables.now r 0 < 8) }
    requires without { (E : Database) × Without E (database_in rows.now) r
        × Directory E keys.now (heads_in catalog.old) (starts_in catalog.old) × Links E catalog.old }
    ensures { (E : Database)
        → Without E (database_in rows.now) r
        → Directory E keys.now (heads_in catalog.old) (starts_in catalog.old) → Links E catalog.old
        → Relinked (database_in rows.now) catalog.old catalog.new }
{
    for c in 0..8u8 {
        add_link(rows, catalog, keys, r, c);
    }
}

// Row r goes: the next rows of the lent rows become those of the rows without it. The directory is that of the rows without it. The cost is that of `add_links`.
pub(crate) fn drop_links(rows: &Rows, catalog: &mut [u16; 16449], keys: &[u64; 4096], r: usize)
    requires r_bound { (r < 512) × IsBacked rows.now × (get_or rows.now.tables.now r 0 < 8) }
    requires without { (E : Database) × Without E (database_in rows.now) r
        × Directory E keys.now (heads_in catalog.old) (starts_in catalog.old) × Links (database_in rows.now) catalog.old }
    ensures { (E : Database)
        → Without E (database_in rows.now) r
        → Directory E keys.now (heads_in catalog.old) (starts_in catalog.old)
        → Links (database_in rows.now) catalog.old
        → Relinked E catalog.old catalog.new }
{
    for c in 0..8u8 {
        drop_link(rows, catalog, keys, r, c);
    }
}
