// The first value that lacks of those that constraints demand of cached rows.
ghost use Rattle.std.specs.Prelude.{◌<◌, ◌≤◌, ◌≡◌, length, take};
ghost use Rattle.model.specs.Missing as Model;
ghost use Rattle.model.specs.Runs.{marked};
ghost use Rattle.finite.specs.Finite.{tab};
ghost use Rattle.state.specs.Design.{InRange, constraint_at};
ghost use Rattle.state.specs.Meaning.{column_of, scheme_of};
ghost use Rattle.catalog.specs.Catalog.{Demands};
ghost use Rattle.slice.specs.Fetches.{fetches_in, as_lack, Ends, Ordered};
ghost use Rattle.state.specs.Rows.{database_in, IsBacked};

use crate::fetch::Fetch;
use crate::near::{near_lack, others_whole};
use lawful::is_unique;
use state::{Constraint, Design, Rows, cell_at};

// Whether the column at which each constraint ends is unique. One look at each of the 16.
fn sole_targets(d: Design) -> [bool; 16]
    ensures { result ≡ tab 16 (λ i. (scheme_of d).unique (column_of (constraint_at d i).target)) }
{
    d.constraint.map(|c| is_unique(d, c.target))
}

// Of what constraint i, which is c, demands of row r. `sole` says that it ends at a unique column. The design is there for the contract alone, here and in the next two,
// so that it isn't copied for each constraint.
fn link_lack(
    d: Design,
    c: Constraint,
    sole: bool,
    rows: &Rows,
    catalog: &[u16; 16449],
    words: &[u32],
    n: usize,
    places: &mut [usize; 16],
    r: usize,
    i: usize,
) -> Option<Fetch>
    requires in_range { InRange d × IsBacked rows.now × Ordered words.now n × (r < 512) × (i < d.constraints) }
    requires c_value { (c ≡ constraint_at d i) × (sole ≡ (scheme_of d).unique (column_of c.target)) }
    ensures { Demands (scheme_of d) (database_in rows.now) catalog.now
        → as_lack result ≡ Model.link_lack (scheme_of d) (database_in rows.now) (fetches_in words.now n) r i }
{
    let source = c.source;
    if rows.tables[r] != source.table {
        return None;
    }
    let v = cell_at(rows.cells, rows.issues, r, source.place as usize);
    let only = others_whole(sole, catalog, r, i);
    near_lack(only, words, n, c.target, v, places, i)
}

// Of what the constraints demand of row r.
fn links_lack(
    d: Design,
    constraint: [Constraint; 16],
    soles: &[bool; 16],
    rows: &Rows,
    catalog: &[u16; 16449],
    words: &[u32],
    n: usize,
    places: &mut [usize; 16],
    r: usize,
) -> Option<Fetch>
    requires { InRange d × IsBacked rows.now × Ordered words.now n × (r < 512) × Ends d constraint soles.now }
    ensures { Demands (scheme_of d) (database_in rows.now) catalog.now
        → as_lack result ≡ Model.lack_below (scheme_of d).constraints
        (Model.link_lack (scheme_of d) (database_in rows.now) (fetches_in words.now n) r) }
{
    let m = d.constraints;
    // a loop: each look notes a place, and no chain is proved through a closure that changes what it captures
    for i in 0..m {
        let c = constraint[i];
        if let Some(f) = link_lack(d, c, soles[i], rows, catalog, words, n, places, r, i) {
            return Some(f);
        }
    }
    None
}

// The same, if row r is cached.
fn row_lack(
    d: Design,
    constraint: [Constraint; 16],
    soles: &[bool; 16],
    rows: &Rows,
    catalog: &[u16; 16449],
    marks: &[u8],
    words: &[u32],
    n: usize,
    places: &mut [usize; 16],
    r: usize,
) -> Option<Fetch>
    requires { InRange d × IsBacked rows.now × Ordered words.now n × (512 ≤ length marks.now) × (r < 512) × Ends d constraint soles.now }
    ensures { Demands (scheme_of d) (database_in rows.now) catalog.now
        → as_lack result ≡ Model.row_lack (scheme_of d) (database_in rows.now) (fetches_in words.now n)
        (marked (take 512 marks.now)) r }
{
    if marks[r] != 1 {
        return None;
    }
    links_lack(d, constraint, soles, rows, catalog, words, n, places, r)
}

// Of what they demand of the cached rows, rising. For each cached row and constraint from its table a look at up to three fetches, and a search by
// halves where none of them has the value.
pub(crate) fn rows_lack(
    d: Design,
    rows: &Rows,
    catalog: &[u16; 16449],
    marks: &[u8],
    words: &[u32],
    n: usize,
) -> Option<Fetch>
    requires { InRange d × IsBacked rows.now × Ordered words.now n × (512 ≤ length marks.now) }
    ensures { Demands (scheme_of d) (database_in rows.now) catalog.now
        → as_lack result ≡ Model.lack_below 512 (Model.row_lack (scheme_of d) (database_in rows.now)
        (fetches_in words.now n) (marked (take 512 marks.now))) }
{
    let constraint = d.constraint;
    let soles = sole_targets(d);
    let mut places = [0usize; 16];
    // a loop for the same reason
    for r in 0..Design::ROWS {
        if let Some(f) = row_lack(
            d,
            constraint,
            &soles,
            rows,
            catalog,
            marks,
            words,
            n,
            &mut places,
            r,
        ) {
            return Some(f);
        }
    }
    None
}
