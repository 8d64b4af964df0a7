// Which lent fetches are accepted: each names a column of the design and a value or a span there, and they rise. Else cause 5.
ghost use Rattle.std.specs.Prelude.{◌+◌, ◌*◌, ◌<◌, ◌≤◌, ◌&&◌, ◌≡◌, length};
ghost use Rattle.model.specs.Scheme.{is_column};
ghost use Rattle.state.specs.Meaning.{scheme_of};
ghost use Rattle.slice.specs.Fetches.{column_in, fetch_at, fetch_fits, is_behind, fetches_fit};

use crate::fetch::{Fetch, fetch_at, fetch_before};
use state::{Design, table_at};

// Whether the fetch's column is one of the design. Constant time.
fn names_column(d: Design, f: Fetch) -> bool
    ensures { result ≡ is_column (scheme_of d) (column_in f) }
{
    let t = f.table as usize;
    t < d.tables && f.column < u32::from(table_at(d, t).columns)
}

// Whether the words are those of a fetch. Constant time.
fn fetch_fits(d: Design, f: Fetch) -> bool
    ensures { result ≡ fetch_fits (scheme_of d) f }
{
    if 1 < f.kind {
        return false;
    }
    if !names_column(d, f) {
        return false;
    }
    if f.number < 1 {
        return false;
    }
    if f.kind == 0 {
        return f.end < 256;
    }
    f.number <= f.end
}

// Whether fetch i stands behind the one before it. Constant time.
fn is_behind(words: &[u32], i: usize) -> bool
    requires { 5 * i + 4 < length words.now }
    ensures { result ≡ is_behind words.now i }
{
    i == 0 || fetch_before(fetch_at(words, i - 1), fetch_at(words, i))
}

// Whether fetch i is accepted behind the one before it. Constant time.
fn fits_at(d: Design, words: &[u32], i: usize) -> bool
    requires { 5 * i + 4 < length words.now }
    ensures { result ≡ fetch_fits (scheme_of d) (fetch_at words.now i) && is_behind words.now i }
{
    fetch_fits(d, fetch_at(words, i)) && is_behind(words, i)
}

// Whether the first n are accepted. One look at each.
pub(crate) fn fetches_fit(d: Design, words: &[u32], n: usize) -> bool
    requires { 5 * n ≤ length words.now }
    ensures { result ≡ fetches_fit (scheme_of d) words.now n }
{
    (0..n).all(|i| fits_at(d, words, i))
}
