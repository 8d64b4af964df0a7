// The ranges of one desk, as a record by value: whether a range lies inside one of them or is one of them, the ranges with one joined to them, and without one.
// One look at each of at most 8 ranges, where no other cost is named.
ghost use Rattle.std.specs.Prelude.{◌+◌, ◌≤◌, ◌<◌, not, ◌&&◌, List, [], ◌∷◌, ◌++◌, ◌≡◌, drop};
ghost use Rattle.finite.specs.Sameness.{listed, remove};
ghost use Rattle.model.specs.Ranges as Model;
ghost use Rattle.state.specs.Held.{ranges_at};
ghost use Rattle.state.specs.HeldWords.{words_held, Whole, Holds, with_ranges_at};
ghost use Rattle.state.specs.Meaning.{list_back, list_of, range_of};

use state::{
    DeskRanges, Held, Range, named_desk, ranges_at, same_range, set_ranges, stands_before,
};

// Whether r lies inside q. Constant time.
#[tactic(auto, unfolding(model::specs::Ranges::contains))]
fn contains(q: Range, r: Range) -> bool
    ensures { result ≡ Model.contains (range_of q) (range_of r) }
{
    q.filling == r.filling && q.low <= r.low && r.high <= q.high
}

// Whether the range lies inside one of the desk's.
pub(crate) fn covers(s: DeskRanges, r: Range) -> bool
    requires { s.count ≤ 8 }
    ensures { result ≡ listed Model.contains (range_of r) (list_of s) }
{
    (0..s.count).any(|i| contains(s.list[i], r))
}

// Whether the range is one of the desk's.
pub(crate) fn has_range(s: DeskRanges, r: Range) -> bool
    requires { s.count ≤ 8 }
    ensures { result ≡ listed Model.same_range (range_of r) (list_of s) }
{
    (0..s.count).any(|i| same_range(s.list[i], r))
}

// The ranges with one more at the end; a ninth is counted and not kept. Constant time.
fn put(s: DeskRanges, q: Range) -> DeskRanges
    requires { s.count ≤ 8 }
    ensures { (result.count ≡ s.count + 1) × ((rs : List Model.Range) → s ≡ list_back rs → result ≡ list_back (rs ++ (range_of q ∷ []))) }
{
    let mut t = DeskRanges {
        count: s.count + 1,
        ..s
    };
    if s.count < Held::RANGES {
        t.list[s.count] = q;
    }
    t
}

// The ranges of `out`, and behind them those of s from place i on.
fn with_rest(out: DeskRanges, s: DeskRanges, i: usize) -> DeskRanges
    requires { (s.count ≤ 8) × (i ≤ s.count) × (out.count ≤ i + 1) }
    ensures { (rs : List Model.Range) → out ≡ list_back rs → result ≡ list_back (rs ++ drop i (list_of s)) }
{
    let mut t = out;
    for &q in &s.list[i..s.count] {
        t = put(t, q);
    }
    t
}

// The range from the lower low to the higher high. Constant time, as is the next.
#[tactic(auto, unfolding(model::specs::Ranges::hull))]
fn hull(r: Range, q: Range) -> Range
    ensures { range_of result ≡ Model.hull (range_of r) (range_of q) }
{
    Range {
        filling: r.filling,
        low: r.low.min(q.low),
        high: r.high.max(q.high),
    }
}

// Whether r stands before q, and q not before r.
fn is_behind(q: Range, r: Range) -> bool
    ensures { result ≡ not (Model.stands_before (range_of q) (range_of r)) && Model.stands_before (range_of r) (range_of q) }
{
    !stands_before(q, r) && stands_before(r, q)
}

// The desk's ranges with one joined to them. They may be nine, of which the last is counted and not kept.
pub(crate) fn joined(s: DeskRanges, r: Range) -> DeskRanges
    requires { s.count ≤ 8 }
    ensures { result ≡ list_back (Model.joined (range_of r) (list_of s)) }
{
    let list = s.list;
    let mut out = DeskRanges::none();
    let mut whole = r;
    for i in 0..s.count {
        let q = list[i];
        if is_behind(q, whole) {
            let t = put(out, whole);
            return with_rest(t, s, i);
        }
        if stands_before(q, whole) {
            out = put(out, q);
        } else {
            whole = hull(whole, q);
        }
    }
    put(out, whole)
}

// The desk's ranges without one.
pub(crate) fn removed(s: DeskRanges, r: Range) -> DeskRanges
    requires { s.count ≤ 8 }
    ensures { result ≡ list_back (remove Model.same_range (range_of r) (list_of s)) }
{
    let list = s.list;
    let mut out = DeskRanges::none();
    for i in 0..s.count {
        let q = list[i];
        if same_range(q, r) {
            return with_rest(out, s, i + 1);
        }
        out = put(out, q);
    }
    out
}

// The named desk's ranges. A copy of them.
pub(crate) fn own_ranges(held: &[u32; 358]) -> DeskRanges
    requires { (words_held held.now).desk < 4 }
    ensures { result ≡ ranges_at (words_held held.now) (words_held held.now).desk }
{
    ranges_at(held, named_desk(held) as usize)
}

// Stores other ranges for the named desk. One step for each place.
pub(crate) fn set_own(held: &mut [u32; 358], s: DeskRanges)
    requires { ((words_held held.old).desk < 4) × (s.count ≤ 8) × Whole held.old }
    ensures { Holds held.new (with_ranges_at (words_held held.old) (words_held held.old).desk s) }
{
    let d = named_desk(held) as usize;
    set_ranges(held, d, s);
}
