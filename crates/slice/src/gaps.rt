// The spans of a column: the next from a number on, and where the gap ends in which a number lies. A search by halves each.
ghost use Rattle.std.specs.Prelude.{◌≤◌, false, ◌≡◌};
ghost use Rattle.model.specs.Missing.{is_spanned, gap_end};
ghost use Rattle.state.specs.Meaning.{column_of};
ghost use Rattle.slice.specs.Fetches.{span_of, fetches_in, Ordered, NextSpan};

use crate::fetch::{Fetch, fetch_at, span_fetch};
use crate::fetched::seek;
use state::Column;

// Whether the fetch is a span of the column. Constant time.
fn is_span_of(f: Fetch, k: Column) -> bool
    ensures { result ≡ span_of f (column_of k) }
{
    f.kind != 0 && f.table == u32::from(k.table) && f.column == u32::from(k.place)
}

// The first span of column k that has x or a later number.
pub(crate) fn next_span(words: &[u32], n: usize, k: Column, x: u32) -> Option<Fetch>
    requires { Ordered words.now n }
    ensures { NextSpan (fetches_in words.now n) (column_of k) x result }
{
    let i = seek(words, n, span_fetch(k, x, x));
    if n <= i {
        return None;
    }
    let f = fetch_at(words, i);
    is_span_of(f, k).then_some(f)
}

// The last number from x to `high` before the first that a span has, where none has x; `high` if none has any, or one has x.
pub(crate) fn gap_end(words: &[u32], n: usize, k: Column, x: u32, high: u32) -> u32
    requires { Ordered words.now n }
    ensures { x ≤ high → is_spanned (fetches_in words.now n) (column_of k) x ≡ false → result ≡ gap_end (fetches_in words.now n) (column_of k) high x }
{
    let Some(f) = next_span(words, n, k, x) else {
        return high;
    };
    if f.number <= x {
        return high;
    }
    if high < f.number {
        return high;
    }
    f.number - 1
}
