// The first gap in the held ranges.
ghost use Rattle.std.specs.Prelude.{IfSome, ◌<◌, ◌≡◌};
ghost use Rattle.model.specs.Database.{Database};
ghost use Rattle.model.specs.Holding.{all_ranges};
ghost use Rattle.model.specs.Missing as Model;
ghost use Rattle.state.specs.Design.{InRange};
ghost use Rattle.state.specs.Held.{Bounded, range_at, ranges_at};
ghost use Rattle.state.specs.HeldWords.{words_held};
ghost use Rattle.state.specs.Meaning.{column_of, range_of, scheme_of, list_of, lists_of};
ghost use Rattle.slice.specs.Fetches.{fetches_in, as_lack, FirstOpen, Ordered, Shut};
ghost use Rattle.catalog.specs.Index.{IsIndexed};

use crate::fetch::{Fetch, span_fetch};
use crate::gaps::{gap_end, next_span};
use crate::lack::is_open;
use catalog::Index;
use state::{Cell, Column, Design, filling_at, range_at, range_count};

// The number behind the numbers from x on that are known not to lack: behind the span that has x, or behind x; none if x itself lacks.
fn shut_past(d: Design, index: &Index, words: &[u32], n: usize, k: Column, x: u32) -> Option<u64>
    requires { (k.table < 8) × (k.place < 8) × Ordered words.now n }
    ensures { IfSome result (λ y. x < y) × ((D : Database) → IsIndexed D index.now
        → Shut (scheme_of d) D (fetches_in words.now n) (column_of k) x result) }
{
    let v = Cell {
        number: x,
        issue: 0,
    };
    if is_open(d, index, words, n, k, v) {
        return None;
    }
    let Some(f) = next_span(words, n, k, x) else {
        return Some(x as u64 + 1);
    };
    if x < f.number {
        return Some(x as u64 + 1);
    }
    Some(f.end as u64 + 1)
}

// The first number from `low` to `high` that lacks. A step for each span and each value that was fetched there, and for each row that
// has one of the numbers in a unique column.
fn first_open(
    d: Design,
    index: &Index,
    words: &[u32],
    n: usize,
    k: Column,
    low: u32,
    high: u32,
) -> Option<u32>
    requires { (k.table < 8) × (k.place < 8) × Ordered words.now n }
    ensures { (D : Database) → IsIndexed D index.now
        → FirstOpen (scheme_of d) D (fetches_in words.now n) (column_of k) high low result }
{
    let mut x = low as u64;
    // no count: a span that was fetched is passed in one step
    while x <= high as u64 {
        let y = x as u32;
        let Some(z) = shut_past(d, index, words, n, k, y) else {
            return Some(y);
        };
        x = z;
    }
    None
}

// The first gap of desk e's range i: all of its numbers are held, and the first lacks.
fn range_lack(
    d: Design,
    index: &Index,
    held: &[u32; 358],
    words: &[u32],
    n: usize,
    e: usize,
    i: usize,
) -> Option<Fetch>
    requires { InRange d × (e < 4) × (i < 8) × Ordered words.now n }
    ensures { (D : Database) → IsIndexed D index.now
        → as_lack result ≡ Model.range_lack (scheme_of d) D (fetches_in words.now n) (range_of (range_at (ranges_at (words_held held.now) e) i)) }
{
    let q = range_at(held, e, i);
    let k = filling_at(d, q.filling as usize).column;
    let x = first_open(d, index, words, n, k, q.low, q.high)?;
    Some(span_fetch(k, x, gap_end(words, n, k, x, q.high)))
}

// Of desk e's ranges.
fn desk_lack(
    d: Design,
    index: &Index,
    held: &[u32; 358],
    words: &[u32],
    n: usize,
    e: usize,
) -> Option<Fetch>
    requires { InRange d × Bounded (words_held held.now) × Ordered words.now n × (e < 4) }
    ensures { (D : Database) → IsIndexed D index.now
        → as_lack result ≡ Model.lack_in (Model.range_lack (scheme_of d) D (fetches_in words.now n)) (list_of (ranges_at (words_held held.now) e)) }
{
    (0..range_count(held, e)).find_map(|i| range_lack(d, index, held, words, n, e, i))
}

// Of all desks' ranges.
pub(crate) fn ranges_lack(
    d: Design,
    index: &Index,
    held: &[u32; 358],
    words: &[u32],
    n: usize,
) -> Option<Fetch>
    requires { InRange d × Bounded (words_held held.now) × Ordered words.now n }
    ensures { (D : Database) → IsIndexed D index.now
        → as_lack result ≡ Model.lack_in (Model.range_lack (scheme_of d) D (fetches_in words.now n)) (all_ranges (lists_of (words_held held.now))) }
{
    (0..4).find_map(|e| desk_lack(d, index, held, words, n, e))
}
