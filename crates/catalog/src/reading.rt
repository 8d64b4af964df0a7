// What stands where in the catalog's array: nothing but this crate, `mend`, which changes it, and `demanding`, which turns a copy of it round, indexes it.
ghost use Rattle.std.specs.Prelude.{◌≡◌, ◌+◌, ◌*◌, ◌<◌, get_or};
ghost use Rattle.finite.specs.Finite.{first_from};
ghost use Rattle.model.specs.Database.{Database};
ghost use Rattle.model.specs.Rounds.{leads};
ghost use Rattle.model.specs.Scheme.{Scheme};
ghost use Rattle.catalog.specs.Catalog.{next_of, heads_in, starts_in, Links, Demands};

use state::Column;

// The next rows come first; where the other parts begin.
pub const FIRSTS: usize = 4096;

pub const HEADS: usize = 12288;

pub const STARTS: usize = 16384;

// A u16 as a usize.
pub fn wide(x: u16) -> usize
    ensures { result ≡ x }
{
    usize::from(x)
}

// The next row after r that has the value of r's cell c in the same column, in any database whose links these are; 512 if there is none. Constant time.
pub fn next_row(catalog: &[u16; 16449], r: usize, c: usize) -> usize
    requires { (r < 512) × (c < 8) }
    ensures { (D : Database) → Links D catalog.now → result ≡ next_of D r c }
{
    wide(catalog[8 * r + c])
}

// The first row that constraint i demands of row s, in any database and scheme whose demands these are; 512 if there is none. Constant time.
pub fn first_row(catalog: &[u16; 16449], i: usize, s: usize) -> usize
    requires { (i < 16) × (s < 512) }
    ensures { (S : Scheme) (D : Database) → Demands S D catalog.now → i < S.constraints
        → result ≡ first_from 512 (leads D (S.constraint i) s) 0 }
{
    wide(catalog[FIRSTS + 512 * i + s])
}

// The first row that has the value at place i of the directory. Constant time.
pub(crate) fn head_at(catalog: &[u16; 16449], i: usize) -> usize
    requires { i < 4096 }
    ensures { result ≡ get_or (heads_in catalog.now) i 0 }
{
    wide(catalog[HEADS + i])
}

// The number of column k, of 64. Constant time.
pub(crate) fn number_of(k: Column) -> usize
    requires { (k.table < 8) × (k.place < 8) }
    ensures { result ≡ 8 * k.table + k.place }
{
    8 * usize::from(k.table) + usize::from(k.place)
}

// The place of the directory at which column i begins, and the one before it ends. Constant time.
pub fn start_at(catalog: &[u16; 16449], i: usize) -> usize
    requires { i < 65 }
    ensures { result ≡ get_or (starts_in catalog.now) i 0 }
{
    wide(catalog[STARTS + i])
}
