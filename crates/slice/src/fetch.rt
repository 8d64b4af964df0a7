// A fetch as a value, read from the lent words, and the order of fetches. Constant time.
ghost use Rattle.std.specs.Prelude.{◌+◌, ◌*◌, ◌<◌, ◌≡◌, length};
ghost use Rattle.state.specs.Meaning.{cell_of, column_of};
ghost use Rattle.slice.specs.Fetches.{value_fetch, span_fetch, fetch_at, end_before, fetch_before};

use state::{Cell, Column};

// All rows with a value in a column (kind 0), or with a number of a span there, at issue 0 (kind 1): `number` and `end` are the value's number and issue, or the
// span's first and last number.
#[derive(Clone, Copy)]
pub struct Fetch {
    pub kind: u32,
    pub table: u32,
    pub column: u32,
    pub number: u32,
    pub end: u32,
}

// Fetch number i.
pub(crate) fn fetch_at(words: &[u32], i: usize) -> Fetch
    requires { 5 * i + 4 < length words.now }
    ensures { result ≡ fetch_at words.now i }
{
    let j = 5 * i;
    Fetch {
        kind: words[j],
        table: words[j + 1],
        column: words[j + 2],
        number: words[j + 3],
        end: words[j + 4],
    }
}

// Whether the value or span of f ends before that of g, which is of the same kind and column.
fn ends_before(f: Fetch, g: Fetch) -> bool
    ensures { result ≡ end_before f g }
{
    if f.kind != 0 {
        return f.end < g.number;
    }
    if f.number != g.number {
        return f.number < g.number;
    }
    f.end < g.end
}

// Whether f stands before g.
pub(crate) fn fetch_before(f: Fetch, g: Fetch) -> bool
    ensures { result ≡ fetch_before f g }
{
    if f.kind != g.kind {
        return f.kind < g.kind;
    }
    if f.table != g.table {
        return f.table < g.table;
    }
    if f.column != g.column {
        return f.column < g.column;
    }
    ends_before(f, g)
}

// The fetch of one value, and of a span.
pub(crate) fn value_fetch(k: Column, v: Cell) -> Fetch
    ensures { result ≡ value_fetch (column_of k) (cell_of v) }
{
    Fetch {
        kind: 0,
        table: u32::from(k.table),
        column: u32::from(k.place),
        number: v.number,
        end: u32::from(v.issue),
    }
}

pub(crate) fn span_fetch(k: Column, low: u32, high: u32) -> Fetch
    ensures { result ≡ span_fetch (column_of k) low high }
{
    Fetch {
        kind: 1,
        table: u32::from(k.table),
        column: u32::from(k.place),
        number: low,
        end: high,
    }
}
