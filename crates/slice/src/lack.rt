// Whether one value must still be fetched where it is needed. A search by halves of the fetches, and one of the directory.
ghost use Rattle.std.specs.Prelude.{◌<◌, ◌&&◌, ◌≡◌};
ghost use Rattle.finite.specs.Finite.{any};
ghost use Rattle.model.specs.Database.{Database, has};
ghost use Rattle.model.specs.Missing as Model;
ghost use Rattle.state.specs.Meaning.{cell_of, column_of, scheme_of};
ghost use Rattle.slice.specs.Fetches.{fetches_in, as_lack, Ordered};
ghost use Rattle.catalog.specs.Index.{IsIndexed};

use crate::fetch::{Fetch, value_fetch};
use crate::fetched::is_fetched;
use catalog::Index;
use lawful::is_unique;
use state::{Cell, Column, Design, is_blank};

// Whether the column is unique and a row has the value there: then no other row of the database does. A search of the directory.
fn is_only(d: Design, index: &Index, k: Column, v: Cell) -> bool
    requires { (k.table < 8) × (k.place < 8) }
    ensures { (D : Database) → IsIndexed D index.now
        → result ≡ (scheme_of d).unique (column_of k) && any D.size (has D (column_of k) (cell_of v)) }
{
    is_unique(d, k) && index.find(k, v) < Design::ROWS
}

// Whether the value is known to be whole: it is the only one, or was fetched.
fn is_known(d: Design, index: &Index, words: &[u32], n: usize, k: Column, v: Cell) -> bool
    requires { (k.table < 8) × (k.place < 8) × Ordered words.now n }
    ensures { (D : Database) → IsIndexed D index.now
        → result ≡ Model.known (scheme_of d) D (fetches_in words.now n) (column_of k) (cell_of v) }
{
    is_only(d, index, k, v) || is_fetched(words, n, k, v)
}

// Whether it must still be fetched: it is neither blank nor known.
pub(crate) fn is_open(d: Design, index: &Index, words: &[u32], n: usize, k: Column, v: Cell) -> bool
    requires { (k.table < 8) × (k.place < 8) × Ordered words.now n }
    ensures { (D : Database) → IsIndexed D index.now
        → result ≡ Model.is_open (scheme_of d) D (fetches_in words.now n) (column_of k) (cell_of v) }
{
    !is_blank(v) && !is_known(d, index, words, n, k, v)
}

// Its fetch, if it must.
pub(crate) fn lack_of(
    d: Design,
    index: &Index,
    words: &[u32],
    n: usize,
    k: Column,
    v: Cell,
) -> Option<Fetch>
    requires { (k.table < 8) × (k.place < 8) × Ordered words.now n }
    ensures { (D : Database) → IsIndexed D index.now
        → as_lack result ≡ Model.lack_of (scheme_of d) D (fetches_in words.now n) (column_of k) (cell_of v) }
{
    is_open(d, index, words, n, k, v).then_some(value_fetch(k, v))
}
