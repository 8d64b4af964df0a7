// The first rows that constraints demand.
ghost use Rattle.std.specs.Prelude.{◌≡◌, ◌*◌, ◌<◌, length};
ghost use Rattle.std.proofs.lemmas.List.Edits.{sets};
ghost use Rattle.finite.specs.Finite.{tab, first_from};
ghost use Rattle.model.specs.Rounds.{leads};
ghost use Rattle.state.specs.Design.{InRange};
ghost use Rattle.state.specs.Meaning.{constraint_of, scheme_of};
ghost use Rattle.catalog.specs.Catalog.{Directory, firsts, heads_in, starts_in, Stored};
ghost use Rattle.state.specs.Rows.{database_in, IsBacked};
ghost use Rattle.catalog.specs.Index.{IsDirectory};

use crate::index::Index;
use crate::reading::FIRSTS;
use crate::storing::store;
use state::{Constraint, Design, Rows, cell_at, is_live};
use std::array;

// The first row that constraint j demands of row s; 512 if there is none. The cost is that of `find`.
pub fn demanded(rows: &Rows, index: &Index, j: Constraint, s: usize) -> u16
    requires backed { IsBacked rows.now }
    requires s_bound { (s < 512) × (j.source.place < 8) × (j.target.table < 8) × (j.target.place < 8) }
    requires directory { IsDirectory (database_in rows.now) index.now }
    ensures { result ≡ first_from 512 (leads (database_in rows.now)
        (constraint_of j) s) 0 }
{
    if !is_live(rows.tables, s) {
        return 512;
    }
    let k = j.source;
    if rows.tables[s] != k.table {
        return 512;
    }
    let v = cell_at(rows.cells, rows.issues, s, k.place as usize);
    let t = j.target;
    index.find(t, v) as u16
}

// Stores the first rows that constraint j, number i, demands of each row. One step for each row number.
fn add_firsts(rows: &Rows, index: &Index, j: Constraint, i: usize, first: &mut [u16; 8192])
    requires backed { IsBacked rows.now }
    requires i_bound { (i < 16) × (j.source.place < 8) × (j.target.table < 8) × (j.target.place < 8) }
    requires directory { IsDirectory (database_in rows.now) index.now }
    ensures { first.new ≡ sets first.old (512 * i)
        (tab 512 (λ s. first_from 512 (leads (database_in rows.now)
        (constraint_of j) s) 0)) }
{
    let at = 512 * i;
    let rows: [u16; 512] = array::from_fn(|s| demanded(rows, index, j, s));
    first[at..at + 512].copy_from_slice(&rows);
}

// Stores the first rows that the constraints demand of each row into the catalog, whatever stood there. One step for each constraint and row number.
pub fn make_firsts(d: Design, rows: &Rows, catalog: &mut [u16; 16449], keys: &[u64; 4096])
    requires in_range { InRange d × IsBacked rows.now × (length catalog.old ≡ 16449) }
    requires directory { Directory (database_in rows.now) keys.now
        (heads_in catalog.old) (starts_in catalog.old) }
    ensures { Stored 4096 (firsts (scheme_of d) (database_in rows.now))
        catalog.old catalog.new }
{
    let mut first = [512u16; 8192];
    for i in 0..d.constraints {
        let j = d.constraint[i];
        add_firsts(rows, &Index { catalog, keys }, j, i, &mut first);
    }
    store(catalog, FIRSTS, &first);
}
