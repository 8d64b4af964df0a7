// The lowest of what is held that a row has, whatever its desk: values and ranges.
ghost use Rattle.std.specs.Prelude.{true, ◌≡◌, ℕ, ◌≤◌, ◌<◌};
ghost use Rattle.finite.specs.Finite.{any};
ghost use Rattle.model.specs.Reason.{by_range, by_value, has_origin, lower_origin, lowest_held, origin_at, origin_count};
ghost use Rattle.state.specs.Design.{InRange};
ghost use Rattle.state.specs.Held.{Bounded, held_at, range_at};
ghost use Rattle.state.specs.HeldWords.{words_held};
ghost use Rattle.state.specs.Meaning.{holding_of, pair_of, range_of, scheme_of};
ghost use Rattle.reason.specs.Lowest.{lower_of, lowest_of_desks, lowest_of_ranges, lowest_of_values, none_found, origin_of};
ghost use Rattle.state.specs.Rows.{database_in, IsBacked};

use state::{
    Cell, Design, DeskRanges, HeldValue, Range, Rows, lower_cell, ranges_at, value_at, value_count,
};

// What a chain ends with.
#[derive(Clone, Copy)]
pub(crate) enum Origin {
    Value(HeldValue),
    Range(Range),
}

// Whether one was found, and the lowest so far.
#[derive(Clone, Copy)]
pub(crate) struct Lowest {
    pub found: bool,
    pub origin: Origin,
}

// Whether a is the lower: by filling, then by value. Constant time, as are the next five.
fn is_lower_value(a: HeldValue, b: HeldValue) -> bool
    ensures { result ≡ lower_origin (by_value (pair_of a)) (by_value (pair_of b)) }
{
    if a.filling != b.filling {
        return a.filling < b.filling;
    }
    lower_cell(a.value, b.value)
}

// Whether a is the lower: by filling, low, then high.
fn is_lower_range(a: Range, b: Range) -> bool
    ensures { result ≡ lower_origin (by_range (range_of a)) (by_range (range_of b)) }
{
    if a.filling != b.filling {
        return a.filling < b.filling;
    }
    if a.low != b.low {
        return a.low < b.low;
    }
    a.high < b.high
}

// Whether the value is lower than b: in one filling values go before ranges.
fn value_is_lower(a: HeldValue, b: Origin) -> bool
    ensures { result ≡ lower_origin (by_value (pair_of a)) (origin_of b) }
{
    match b {
        Origin::Value(y) => is_lower_value(a, y),
        Origin::Range(y) => a.filling <= y.filling,
    }
}

// Whether the range is.
fn range_is_lower(a: Range, b: Origin) -> bool
    ensures { result ≡ lower_origin (by_range (range_of a)) (origin_of b) }
{
    match b {
        Origin::Value(y) => a.filling < y.filling,
        Origin::Range(y) => is_lower_range(a, y),
    }
}

// Whether a is the lower.
fn is_lower(a: Origin, b: Origin) -> bool
    ensures { result ≡ lower_origin (origin_of a) (origin_of b) }
{
    match a {
        Origin::Value(x) => value_is_lower(x, b),
        Origin::Range(x) => range_is_lower(x, b),
    }
}

// The lowest so far, with one more, which the row has or not.
fn lower_of(low: Lowest, o: Origin, has: bool) -> Lowest
    ensures { result ≡ lower_of low o has }
{
    if !has {
        return low;
    }
    if low.found {
        let q = low.origin;
        if !is_lower(o, q) {
            return low;
        }
    }
    Lowest {
        found: true,
        origin: o,
    }
}

// The lowest value that row r has. One look at each held value.
fn lowest_value(d: Design, rows: &Rows, held: &[u32; 358], r: usize) -> Lowest
    requires { (r < 512) × InRange d × IsBacked rows.now × ((words_held held.now).count ≤ 64)
        × ((i : ℕ) → (held_at (words_held held.now) i).pair.filling < 8) }
    ensures { result ≡ lowest_of_values (scheme_of d) (database_in rows.now) r (words_held held.now)
        none_found }
{
    let filling = d.filling;
    let mut low = Lowest {
        found: false,
        origin: Origin::Value(HeldValue {
            filling: 0,
            value: Cell {
                number: 0,
                issue: 0,
            },
        }),
    };
    let n = value_count(held);
    for i in 0..n {
        let o = value_at(held, i);
        let v = o.pair;
        let f = filling[v.filling as usize];
        let k = f.column;
        let has = rows.has(k, v.value, r);
        low = lower_of(low, Origin::Value(v), has);
    }
    low
}

// The lowest so far, with a desk's ranges. One look at each.
fn lowest_range(d: Design, rows: &Rows, ranges: DeskRanges, r: usize, start: Lowest) -> Lowest
    requires { (r < 512) × InRange d × IsBacked rows.now × (ranges.count ≤ 8)
        × ((i : ℕ) → (range_at ranges i).filling < 8) }
    ensures { result ≡ lowest_of_ranges (scheme_of d) (database_in rows.now) r ranges
        start }
{
    let list = ranges.list;
    let filling = d.filling;
    let mut low = start;
    for i in 0..ranges.count {
        let q = list[i];
        let f = filling[q.filling as usize];
        let k = f.column;
        let has = rows.has_range(k, q, r);
        low = lower_of(low, Origin::Range(q), has);
    }
    low
}

// The lowest so far, with the ranges of all desks. One look at each.
fn lowest_ranges(d: Design, rows: &Rows, held: &[u32; 358], r: usize, start: Lowest) -> Lowest
    requires { (r < 512) × InRange d × IsBacked rows.now × Bounded (words_held held.now) }
    ensures { result ≡ lowest_of_desks (scheme_of d) (database_in rows.now) r
        (words_held held.now).ranges 4 start }
{
    let mut low = start;
    for e in 0..4usize {
        let ranges = ranges_at(held, e);
        low = lowest_range(d, rows, ranges, r, low);
    }
    low
}

// The lowest that row r has and some desk holds; there is one. One look at each held value and range.
pub(crate) fn lowest_held(d: Design, rows: &Rows, held: &[u32; 358], r: usize) -> Origin
    requires r_bound { (r < 512) × InRange d × IsBacked rows.now × Bounded (words_held held.now) }
    requires i_value { any (origin_count (holding_of (words_held held.now))) (λ i. has_origin (scheme_of d) (database_in rows.now) r
        (origin_at (holding_of (words_held held.now)) i)) ≡ true }
    ensures { origin_of result ≡ lowest_held (scheme_of d) (database_in rows.now)
        (holding_of (words_held held.now)) r }
{
    let value = lowest_value(d, rows, held, r);
    let low = lowest_ranges(d, rows, held, r, value);
    low.origin
}
