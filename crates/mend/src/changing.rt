// The catalog where one row comes or goes, changed in place: the row's own values, the links of the rows that share one with it, and what the constraints that
// start or end at its table demand. Nothing else is touched.
ghost use Rattle.std.specs.Prelude.{◌≡◌, ◌<◌, get_or};
ghost use Rattle.model.specs.Database.{Database};
ghost use Rattle.state.specs.Design.{InRange};
ghost use Rattle.state.specs.Meaning.{scheme_of};
ghost use Rattle.catalog.specs.Catalog.{Catalogued};
ghost use Rattle.mend.specs.Changing.{Without};
ghost use Rattle.state.specs.Rows.{database_in, IsBacked};

use crate::redirecting::{add_values, drop_values};
use crate::relinking::{add_links, drop_links};
use crate::resetting::{demands_in, demands_out};
use catalog::{build, start_at};
use state::{Design, Rows};

// Row r came: the catalog of the rows without it becomes that of the lent rows, which have it. For each of its values a search, a walk to the row before it, and
// where the value is new in its column a step for every value behind it; for each constraint three searches at most, and where row r is the first that it
// demands of some rows, a step for each of these. Where the directory has no room for eight values more, the catalog is made anew.
pub fn put_in(d: Design, rows: &Rows, catalog: &mut [u16; 16449], keys: &mut [u64; 4096], r: usize)
    requires in_range { InRange d × (r < 512) × IsBacked rows.now × (get_or rows.now.tables.now r 0 < 8) }
    requires without { (E : Database) × Without E (database_in rows.now) r × Catalogued (scheme_of d) E catalog.old keys.old }
    ensures { Catalogued (scheme_of d) (database_in rows.now) catalog.new keys.new }
{
    if 4088 < start_at(catalog, 64) {
        build(d, rows, catalog, keys);
        return;
    }
    add_links(rows, catalog, keys, r);
    add_values(rows, catalog, keys, r);
    demands_in(d, rows, catalog, keys, r);
}

// Row r is to go: the catalog of the lent rows, which have it, becomes that of the rows without it. The cost is that of `put_in`, the steps for values being those
// that no other row has.
pub fn take_out(
    d: Design,
    rows: &Rows,
    catalog: &mut [u16; 16449],
    keys: &mut [u64; 4096],
    r: usize,
)
    requires in_range { InRange d × (r < 512) × IsBacked rows.now × (get_or rows.now.tables.now r 0 < 8) }
    requires catalogued { Catalogued (scheme_of d) (database_in rows.now) catalog.old keys.old }
    requires without { (E : Database) × Without E (database_in rows.now) r }
    ensures { (E : Database) → Without E (database_in rows.now) r
        → Catalogued (scheme_of d) E catalog.new keys.new }
{
    drop_values(rows, catalog, keys, r);
    drop_links(rows, catalog, keys, r);
    demands_out(d, rows, catalog, keys, r);
}
