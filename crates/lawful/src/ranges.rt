// A desk's ranges: whether one is a range of a filling, wholly of its candidates, whether one can stand at its place, and whether all of them are lawful.
ghost use Rattle.std.specs.Prelude.{◌≡◌, ◌<◌};
ghost use Rattle.model.specs.Ranges.{is_range, only_candidates};
ghost use Rattle.state.specs.Meaning.{range_of, scheme_of};
ghost use Rattle.state.specs.Lawful.{lawful_ranges, range_fits};

use crate::fillings::is_candidate;
use crate::places::places_lawful;
use state::{Cell, Design, DeskRanges, Held, Range, filling_at, stands_before};

// Whether the filling exists, and low is neither 0 nor above high. Constant time, as are the next two.
#[tactic(auto, unfolding(model::specs::Ranges::is_range, state::specs::Meaning::scheme_of))]
pub fn is_range(d: Design, r: Range) -> bool
    ensures { result ≡ is_range (scheme_of d) (range_of r) }
{
    usize::from(r.filling) < d.fillings && 1 <= r.low && r.low <= r.high
}

// Whether the range is wholly of its filling's candidates: whether its ends are.
#[tactic(auto, unfolding(model::specs::Ranges::only_candidates, state::specs::Meaning::scheme_of))]
pub fn only_candidates(d: Design, r: Range) -> bool
    ensures { result ≡ only_candidates (scheme_of d) (range_of r) }
{
    let f = filling_at(d, usize::from(r.filling));
    let candidate = |number| is_candidate(f, Cell { number, issue: 0 });
    candidate(r.low) && candidate(r.high)
}

// Whether the range at place i can stand there: a range of a filling, wholly of candidates, and behind the one before it.
#[tactic(auto, unfolding(state::specs::Lawful::range_fits))]
fn range_fits(d: Design, s: DeskRanges, i: usize) -> bool
    requires { i < 8 }
    ensures { result ≡ range_fits d s i }
{
    let r = s.list[i];
    is_range(d, r) && only_candidates(d, r) && (i == 0 || stands_before(s.list[i - 1], r))
}

// Whether a desk has at most 8 ranges, each wholly of candidates, rising and with gaps, unused places 0. One look at each place.
pub(crate) fn lawful_ranges(d: Design, s: DeskRanges) -> bool
    ensures { result ≡ lawful_ranges d s }
{
    s.count <= Held::RANGES
        && places_lawful(
            Held::RANGES,
            s.count,
            |i| range_fits(d, s, i),
            |i| s.list[i] == Range::default(),
        )
}
