// The first rows that constraints demand, where a row comes or goes, after the links and the directory: the row's own, and those of the rows that have the value
// by which the constraint demands the row.
ghost use Rattle.std.specs.Prelude.{◌≡◌, ◌<◌, length, get_or};
ghost use Rattle.model.specs.Database.{Database};
ghost use Rattle.state.specs.Design.{InRange};
ghost use Rattle.state.specs.Meaning.{cell_of, constraint_of, scheme_of};
ghost use Rattle.catalog.specs.Catalog.{firsts, first_in, Indexed};
ghost use Rattle.mend.specs.Changing.{Without};
ghost use Rattle.mend.specs.Resetting.{Firsts, Leads, Only, Redemanded, Reset};
ghost use Rattle.state.specs.Rows.{database_in, IsBacked};

use catalog::{FIRSTS, Index, demanded, next_row};
use state::{Cell, Constraint, Design, Rows, cell_at};

// Stores the first row that has v in the target column of constraint j, number i, with each row that has it in the source column, unless it stands before r: then
// it was the first before row r came, or went. Two searches, and a step for each such row.
fn reset_firsts(
    catalog: &mut [u16; 16449],
    keys: &[u64; 4096],
    j: Constraint,
    i: usize,
    v: Cell,
    r: usize,
)
    requires i_bound { (i < 16) × (j.source.table < 8) × (j.source.place < 8) × (j.target.table < 8) × (j.target.place < 8) }
    requires indexed { (D : Database) × Indexed D catalog.old keys.now }
    ensures { Only i catalog.old catalog.new × ((D : Database) → Indexed D catalog.old keys.now
        → Reset D (constraint_of j) i (cell_of v) r catalog.old catalog.new) }
{
    let t = j.target;
    let h = Index { catalog, keys }.find(t, v);
    if h < r {
        return;
    }
    let first = h as u16;
    let k = j.source;
    let c = k.place as usize;
    // Along the links of the array that the loop writes, which no iterator over them can lend.
    let mut s = Index { catalog, keys }.find(k, v);
    while s < Design::ROWS {
        let n = next_row(catalog, s, c);
        catalog[FIRSTS + 512 * i + s] = first;
        s = n;
    }
}

// The rows by whose value constraint j, number i, demands row r, which the lent rows have: what it demands of them. The cost is that of `reset_firsts`.
fn reset_for(
    rows: &Rows,
    catalog: &mut [u16; 16449],
    keys: &[u64; 4096],
    j: Constraint,
    i: usize,
    r: usize,
)
    requires r_bound { (r < 512) × IsBacked rows.now }
    requires i_bound { (i < 16) × (j.source.table < 8) × (j.source.place < 8) × (j.target.table < 8) × (j.target.place < 8) }
    requires indexed { (D : Database) × Indexed D catalog.old keys.now }
    ensures { Only i catalog.old catalog.new × ((D : Database) → Indexed D catalog.old keys.now
        → Leads D (database_in rows.now) (constraint_of j) i r catalog.old catalog.new) }
{
    let t = j.target;
    if rows.tables[r] != t.table {
        return;
    }
    let v = cell_at(rows.cells, rows.issues, r, t.place as usize);
    reset_firsts(catalog, keys, j, i, v, r);
}

// Row r comes: what constraint j, number i, demands of the rows without it becomes what it demands of the lent rows. Three searches at most, and where row r is the
// first that it demands of some rows, a step for each of these.
fn demand_in(
    rows: &Rows,
    catalog: &mut [u16; 16449],
    keys: &[u64; 4096],
    j: Constraint,
    i: usize,
    r: usize,
)
    requires r_bound { (r < 512) × IsBacked rows.now }
    requires i_bound { (i < 16) × (j.source.table < 8) × (j.source.place < 8) × (j.target.table < 8) × (j.target.place < 8) }
    requires indexed { Indexed (database_in rows.now) catalog.old keys.now }
    ensures { Only i catalog.old catalog.new × ((E : Database)
        → Without E (database_in rows.now) r → Firsts E (constraint_of j) i catalog.old
        → Firsts (database_in rows.now) (constraint_of j) i catalog.new) }
{
    reset_for(rows, catalog, keys, j, i, r);
    catalog[FIRSTS + 512 * i + r] = demanded(rows, &Index { catalog, keys }, j, r);
}

// Row r goes: what constraint j, number i, demands of the lent rows becomes what it demands of the rows without it. Two searches at most, and where row r was the
// first that it demanded of some rows, a step for each of these.
fn demand_out(
    rows: &Rows,
    catalog: &mut [u16; 16449],
    keys: &[u64; 4096],
    j: Constraint,
    i: usize,
    r: usize,
)
    requires r_bound { (r < 512) × IsBacked rows.now }
    requires i_bound { (i < 16) × (j.source.table < 8) × (j.source.place < 8) × (j.target.table < 8) × (j.target.place < 8) }
    requires without { (E : Database) × Without E (database_in rows.now) r × Indexed E catalog.old keys.now }
    ensures { Only i catalog.old catalog.new × ((E : Database)
        → Without E (database_in rows.now) r → Indexed E catalog.old keys.now
        → Firsts (database_in rows.now) (constraint_of j) i catalog.old
        → Firsts E (constraint_of j) i catalog.new) }
{
    reset_for(rows, catalog, keys, j, i, r);
    catalog[FIRSTS + 512 * i + r] = 512;
}

// Row r comes: all constraints.
pub(crate) fn demands_in(
    d: Design,
    rows: &Rows,
    catalog: &mut [u16; 16449],
    keys: &[u64; 4096],
    r: usize,
)
    requires in_range { InRange d × (r < 512) × IsBacked rows.now }
    requires indexed { Indexed (database_in rows.now) catalog.old keys.now }
    ensures { (E : Database)
        → Without E (database_in rows.now) r
        → first_in catalog.old ≡ firsts (scheme_of d) E
        → Redemanded (scheme_of d) (database_in rows.now) catalog.old catalog.new }
{
    for i in 0..d.constraints {
        let j = d.constraint[i];
        demand_in(rows, catalog, keys, j, i, r);
    }
}

// Row r goes: all constraints.
pub(crate) fn demands_out(
    d: Design,
    rows: &Rows,
    catalog: &mut [u16; 16449],
    keys: &[u64; 4096],
    r: usize,
)
    requires in_range { InRange d × (r < 512) × IsBacked rows.now }
    requires without { (E : Database) × Without E (database_in rows.now) r × Indexed E catalog.old keys.now }
    ensures { (E : Database)
        → Without E (database_in rows.now) r → Indexed E catalog.old keys.now
        → first_in catalog.old ≡ firsts (scheme_of d) (database_in rows.now)
        → Redemanded (scheme_of d) E catalog.old catalog.new }
{
    for i in 0..d.constraints {
        let j = d.constraint[i];
        demand_out(rows, catalog, keys, j, i, r);
    }
}
