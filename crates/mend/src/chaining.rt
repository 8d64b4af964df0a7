// The next rows, where a row comes or goes: its own, and that of the row before it in the chain of its value.
ghost use Rattle.std.specs.Prelude.{◌≡◌, ◌+◌, ◌*◌, ◌<◌, length, get_or};
ghost use Rattle.finite.specs.Finite.{first_from};
ghost use Rattle.model.specs.Cell as Model·cell;
ghost use Rattle.model.specs.Database.{Database, has};
ghost use Rattle.model.specs.Scheme as Model;
ghost use Rattle.state.specs.Meaning.{cell_of, column_of};
ghost use Rattle.mend.specs.Changing.{Chained, Last, Linking, Place};

use catalog::{Index, wide};
use state::{Cell, Column};

// What stands as the next row of row r's cell c. Constant time.
fn link(catalog: &[u16; 16449], r: usize, c: usize) -> usize
    requires { (r < 512) × (c < 8) }
    ensures { result ≡ get_or catalog.now (8 * r + c) 0 }
{
    wide(catalog[8 * r + c])
}

// The last row before r of those that have a value in place c, the first of which, h, stands before r. One step for each of them.
fn row_before(catalog: &[u16; 16449], c: usize, h: usize, r: usize) -> usize
    requires c_bound { (c < 8) × (h < r) × (r < 512) }
    requires chained { (D : Database) × Chained D c catalog.now }
    ensures { (result < r) × ((D : Database) (k : Model.Column) (v : Model·cell.Cell) → Chained D c catalog.now → k.place ≡ c
        → h ≡ first_from 512 (has D k v) 0 → Last (has D k v) r result) }
{
    // Along the links, not by a count: `successors(..).last()` would ask for a default, where there is always a row.
    let mut p = h;
    let mut n = link(catalog, h, c);
    while n < r {
        p = n;
        n = link(catalog, p, c);
    }
    p
}

// Row r comes with the value v in column k: its next row is that of the row before it, or the first that has the value, and the row before it leads to it.
// The cost is that of `find` and `row_before`.
pub(crate) fn link_in(catalog: &mut [u16; 16449], keys: &[u64; 4096], k: Column, v: Cell, r: usize)
    requires r_bound { (r < 512) × (k.table < 8) × (k.place < 8) × (length catalog.old ≡ 16449) }
    requires linking { (E : Database) × (F : Database) × Linking E E F r (column_of k) (cell_of v) catalog.old keys.now }
    ensures { Place k.place catalog.old catalog.new × ((E : Database) (F : Database)
        → Linking E E F r (column_of k) (cell_of v) catalog.old keys.now → Chained F k.place catalog.new) }
{
    let c = k.place as usize;
    let h = Index { catalog, keys }.find(k, v);
    if r <= h {
        catalog[8 * r + c] = h as u16;
        return;
    }
    let p = row_before(catalog, c, h, r);
    catalog[8 * r + c] = catalog[8 * p + c];
    catalog[8 * p + c] = r as u16;
}

// Row r, which has the value v in column k, goes: the row before it leads to its next row. The cost is that of `find` and `row_before`.
pub(crate) fn link_out(catalog: &mut [u16; 16449], keys: &[u64; 4096], k: Column, v: Cell, r: usize)
    requires r_bound { (r < 512) × (k.table < 8) × (k.place < 8) × (length catalog.old ≡ 16449) }
    requires linking { (E : Database) × (F : Database) × Linking F E F r (column_of k) (cell_of v) catalog.old keys.now }
    ensures { Place k.place catalog.old catalog.new × ((E : Database) (F : Database)
        → Linking F E F r (column_of k) (cell_of v) catalog.old keys.now → Chained E k.place catalog.new) }
{
    let c = k.place as usize;
    let h = Index { catalog, keys }.find(k, v);
    if r <= h {
        catalog[8 * r + c] = 512;
        return;
    }
    let p = row_before(catalog, c, h, r);
    catalog[8 * p + c] = catalog[8 * r + c];
    catalog[8 * r + c] = 512;
}
