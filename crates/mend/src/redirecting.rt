// The directory inside the catalog, where a row comes or goes: its first rows and starts are worked on in arrays of their own, then stored.
ghost use Rattle.std.specs.Prelude.{◌≡◌, ◌+◌, ◌≤◌, ◌<◌, length, get_or};
ghost use Rattle.model.specs.Database.{Database};
ghost use Rattle.catalog.specs.Catalog.{heads_in, starts_in, Directory, Links};
ghost use Rattle.mend.specs.Changing.{Without};
ghost use Rattle.mend.specs.Values.{Redirected};
ghost use Rattle.state.specs.Rows.{database_in, IsBacked};

use crate::revaluing::{drop_cells, put_cells};
use catalog::{HEADS, STARTS, store};
use state::Rows;

// Row r comes: the directory of the rows without it becomes that of the lent rows. The cost is that of `put_cells`, and of copying the first rows twice.
pub(crate) fn add_values(rows: &Rows, catalog: &mut [u16; 16449], keys: &mut [u64; 4096], r: usize)
    requires r_bound { (r < 512) × IsBacked rows.now × (get_or rows.now.tables.now r 0 < 8)
        × (get_or (starts_in catalog.old) 64 0 ≤ 4088) × (length catalog.old ≡ 16449) }
    requires without { (E : Database) × Without E (database_in rows.now) r
        × Directory E keys.old (heads_in catalog.old) (starts_in catalog.old) }
    ensures { (E : Database)
        → Without E (database_in rows.now) r
        → Directory E keys.old (heads_in catalog.old) (starts_in catalog.old)
        → Redirected (database_in rows.now) keys.new catalog.old catalog.new }
{
    let mut heads = [0u16; 4096];
    let mut starts = [0u16; 65];
    heads.copy_from_slice(&catalog[HEADS..STARTS]);
    starts.copy_from_slice(&catalog[STARTS..]);
    put_cells(rows, keys, &mut heads, &mut starts, r);
    store(catalog, HEADS, &heads);
    store(catalog, STARTS, &starts);
}

// Row r goes: the directory of the lent rows becomes that of the rows without it. The cost is that of `drop_cells`, and of copying the first rows twice.
pub(crate) fn drop_values(rows: &Rows, catalog: &mut [u16; 16449], keys: &mut [u64; 4096], r: usize)
    requires r_bound { (r < 512) × IsBacked rows.now × (get_or rows.now.tables.now r 0 < 8) }
    requires links { Links (database_in rows.now) catalog.old
        × Directory (database_in rows.now) keys.old (heads_in catalog.old) (starts_in catalog.old) }
    requires without { (E : Database) × Without E (database_in rows.now) r }
    ensures { (E : Database)
        → Without E (database_in rows.now) r
        → Redirected E keys.new catalog.old catalog.new }
{
    let mut heads = [0u16; 4096];
    let mut starts = [0u16; 65];
    heads.copy_from_slice(&catalog[HEADS..STARTS]);
    starts.copy_from_slice(&catalog[STARTS..]);
    drop_cells(rows, catalog, keys, &mut heads, &mut starts, r);
    store(catalog, HEADS, &heads);
    store(catalog, STARTS, &starts);
}
