// Whether a value was fetched, found by halving.
ghost use Rattle.std.specs.Prelude.{◌*◌, ◌<◌, ◌≤◌, ◌&&◌, ◌≡◌, eqb, leb, ltb, length};
ghost use Rattle.model.specs.Cell.{equal, issued};
ghost use Rattle.model.specs.Missing.{covers, is_fetched};
ghost use Rattle.state.specs.Meaning.{cell_of, column_of};
ghost use Rattle.slice.specs.Fetches.{fetch_of, fetch_at, fetches_in, Ordered, Sought};

use crate::fetch::{Fetch, fetch_at, fetch_before, span_fetch, value_fetch};
use catalog::turning_point;
use state::{Cell, Column, is_blank};

// The first fetch that doesn't stand before q. A step for each halving: at most 1 + log2(n).
// It is made part of its callers, where the kind of q is known, and most of a comparison with it goes.
#[inline(always)]
pub(crate) fn seek(words: &[u32], n: usize, q: Fetch) -> usize
    requires { 5 * n ≤ length words.now }
    ensures { Ordered words.now n → Sought words.now n q result }
{
    turning_point(0, n, |i| fetch_before(fetch_at(words, i), q))
}

// Whether the value of number a and issue b is v: the two are equal, and not blank. Constant time.
fn is_value(a: u32, b: u32, v: Cell) -> bool
    ensures { result ≡ equal (issued a b) (cell_of v) }
{
    if is_blank(v) {
        return false;
    }
    if a != v.number {
        return false;
    }
    b == u32::from(v.issue)
}

// Whether v is at issue 0 and its number lies from a to b. Constant time.
fn is_between(a: u32, b: u32, v: Cell) -> bool
    ensures { result ≡ eqb v.issue 0 && (leb a v.number && leb v.number b) }
{
    v.issue == 0 && a <= v.number && v.number <= b
}

// Whether the fetch has the value v of column k. Constant time.
fn covers_value(f: Fetch, k: Column, v: Cell) -> bool
    ensures { result ≡ covers (fetch_of f) (column_of k) (cell_of v) }
{
    if f.table != u32::from(k.table) {
        return false;
    }
    if f.column != u32::from(k.place) {
        return false;
    }
    if f.kind == 0 {
        return is_value(f.number, f.end, v);
    }
    is_between(f.number, f.end, v)
}

// Whether there is a fetch number i among the n, and it has the value. Constant time.
pub(crate) fn covers_at(words: &[u32], n: usize, i: usize, k: Column, v: Cell) -> bool
    requires { 5 * n ≤ length words.now }
    ensures { result ≡ ltb i n && covers (fetch_of (fetch_at words.now i)) (column_of k) (cell_of v) }
{
    i < n && covers_value(fetch_at(words, i), k, v)
}

// Whether one of the first n fetches has the value v of column k: the first that doesn't stand before it does, of the values or of the spans.
pub(crate) fn is_fetched(words: &[u32], n: usize, k: Column, v: Cell) -> bool
    requires { Ordered words.now n }
    ensures { result ≡ is_fetched (fetches_in words.now n) (column_of k) (cell_of v) }
{
    covers_at(words, n, seek(words, n, value_fetch(k, v)), k, v)
        || covers_at(
            words,
            n,
            seek(words, n, span_fetch(k, v.number, v.number)),
            k,
            v,
        )
}
