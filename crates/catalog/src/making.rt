// Building the catalog.
ghost use Rattle.state.specs.Design.{InRange};
ghost use Rattle.state.specs.Meaning.{scheme_of};
ghost use Rattle.catalog.specs.Catalog.{Catalogued};
ghost use Rattle.state.specs.Rows.{database_in, IsBacked};

use crate::columns::add_columns;
use crate::firsts::make_firsts;
use crate::linking::settle;
use crate::reading::{HEADS, STARTS};
use crate::storing::store;
use state::{Design, Rows};

// Makes the catalog of the design's rows, whatever stood in the arrays: in arrays of its own, then stored part by part. One turn for each column and row number, one step for each cell, and a
// search for each constraint and row.
pub fn build(d: Design, rows: &Rows, catalog: &mut [u16; 16449], keys: &mut [u64; 4096])
    requires { InRange d × IsBacked rows.now }
    ensures { Catalogued (scheme_of d) (database_in rows.now)
        catalog.new keys.new }
{
    let mut next = [512u16; 4096];
    let mut heads = [512u16; 4096];
    let mut starts = [0u16; 65];
    *keys = [0; 4096];
    add_columns(rows, keys, &mut heads, &mut starts, &mut next);
    settle(rows, &mut next);
    *catalog = [512; 16449];
    store(catalog, 0, &next);
    store(catalog, HEADS, &heads);
    store(catalog, STARTS, &starts);
    make_firsts(d, rows, catalog, keys);
}
