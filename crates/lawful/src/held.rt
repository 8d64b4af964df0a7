// What is held: how many values each desk has, whether one can stand at its place, and whether all of them, and the ranges of each desk, are lawful.
ghost use Rattle.std.specs.Prelude.{◌≡◌, ◌≤◌, ◌&&◌};
ghost use Rattle.finite.specs.Finite.{any, all};
ghost use Rattle.model.specs.Holding.{same_owned};
ghost use Rattle.state.specs.Held.{held_at};
ghost use Rattle.state.specs.HeldWords.{words_held, narrow_held};
ghost use Rattle.state.specs.Meaning.{owned_of};
ghost use Rattle.state.specs.Lawful.{held_fits, lawful_held, own_count};
ghost use Rattle.lawful.specs.Parts.{held_lawful, ranges_lawful, shares_kept};

use crate::fillings::is_candidate;
use crate::places::places_lawful;
use crate::ranges::lawful_ranges;
use state::{
    Design, Held, OwnedValue, filling_at, held_narrow, named_desk, ranges_at, same_owned, value_at,
    value_count,
};

// How many values the desk holds. One look at each.
pub fn own_count(held: &[u32; 358], desk: u8) -> usize
    requires { (words_held held.now).count ≤ 64 }
    ensures { result ≡ own_count (words_held held.now) desk }
{
    // a sum, and no `filter` with a `count`: the compiler makes a loop of this that takes many at a time
    (0..value_count(held))
        .map(|i| usize::from(value_at(held, i).desk == desk))
        .sum()
}

// Whether no desk has more than its share. One look at each held value for each desk.
fn shares_kept(held: &[u32; 358]) -> bool
    requires { (words_held held.now).count ≤ 64 }
    ensures { result ≡ shares_kept (words_held held.now) }
{
    (0..Held::DESKS).all(|desk| own_count(held, desk) <= Held::SHARE)
}

// Whether one of the first n held values is v. One look at each.
fn held_before(held: &[u32; 358], n: usize, v: OwnedValue) -> bool
    requires { n ≤ 64 }
    ensures { result ≡ any n (λ i. same_owned (owned_of (held_at (words_held held.now) i)) (owned_of v)) }
{
    (0..n).any(|i| same_owned(value_at(held, i), v))
}

// Whether v can stand as held value n: its desk and its filling exist, it is a candidate, and its desk doesn't hold it before. One look at each held
// value before it.
#[tactic(auto, unfolding(state::specs::Lawful::held_fits))]
fn held_fits(d: Design, held: &[u32; 358], n: usize, v: OwnedValue) -> bool
    requires { n ≤ 64 }
    ensures { result ≡ held_fits d (words_held held.now) n v }
{
    let f = usize::from(v.pair.filling);
    v.desk < Held::DESKS
        && f < d.fillings
        && is_candidate(filling_at(d, f), v.pair.value)
        && !held_before(held, n, v)
}

// Whether all places of the held values are lawful: values that fit there, or unused and 0. Half the held values squared.
fn values_lawful(d: Design, held: &[u32; 358]) -> bool
    ensures { result ≡ all 64 (held_lawful d (words_held held.now)) }
{
    places_lawful(
        Held::PLACES,
        value_count(held),
        |i| held_fits(d, held, i, value_at(held, i)),
        |i| value_at(held, i) == OwnedValue::default(),
    )
}

// Whether the ranges of every desk are lawful. One look at each of their places.
fn ranges_lawful(d: Design, held: &[u32; 358]) -> bool
    ensures { result ≡ ranges_lawful d (words_held held.now) }
{
    (0..4).all(|e| lawful_ranges(d, ranges_at(held, e)))
}

// Whether the words are words of what is held, a desk is named that exists, and each desk holds at most 16 values, each a candidate and none twice, and lawful ranges, unused places 0. Half the
// held values squared.
#[tactic(auto, unfolding(state::specs::Lawful::lawful_held))]
pub fn lawful_held(d: Design, held: &[u32; 358]) -> bool
    ensures { result ≡ narrow_held held.now && lawful_held d (words_held held.now) }
{
    held_narrow(held)
        && named_desk(held) < Held::DESKS
        && value_count(held) <= Held::PLACES
        && shares_kept(held)
        && values_lawful(d, held)
        && ranges_lawful(d, held)
}
