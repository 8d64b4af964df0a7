// The held values as lent words: looking for a pair of the named desk, whether that has room, putting one at the end, and taking one out so that
// the gap closes.
ghost use Rattle.std.specs.Prelude.{◌<◌, ◌≤◌, ◌≡◌};
ghost use Rattle.model.specs.Holding.{has_room, holds, with_pair};
ghost use Rattle.state.specs.Held.{Tidy};
ghost use Rattle.state.specs.HeldWords.{words_held, Whole, Holds};
ghost use Rattle.state.specs.Meaning.{pair_of, holding_of, held_of};
ghost use Rattle.cache.specs.Places.{Placed, without};

use lawful::own_count;
use state::{
    Cell, Held, HeldValue, OwnedValue, named_desk, same_owned, set_count, set_value, value_at,
    value_count,
};

// The place of the named desk's value, if the desk holds it. One look at each held value.
pub(crate) fn place(held: &[u32; 358], v: HeldValue) -> Option<usize>
    requires { (words_held held.now).count ≤ 64 }
    ensures { Placed (words_held held.now) (pair_of v) result }
{
    let own = OwnedValue {
        desk: named_desk(held),
        pair: v,
    };
    (0..value_count(held)).find(|&i| same_owned(value_at(held, i), own))
}

// Whether the named desk holds the value. One look at each held value.
pub(crate) fn listed(held: &[u32; 358], v: HeldValue) -> bool
    requires { (words_held held.now).count ≤ 64 }
    ensures { result ≡ holds (holding_of (words_held held.now)) (pair_of v) }
{
    place(held, v).is_some()
}

// Whether the named desk has room for one value more. One look at each held value.
pub(crate) fn has_room(held: &[u32; 358]) -> bool
    requires { (words_held held.now).count ≤ 64 }
    ensures { result ≡ has_room (holding_of (words_held held.now)) }
{
    own_count(held, named_desk(held)) < Held::SHARE
}

// Puts the named desk's value at the end. Constant time.
pub(crate) fn append(held: &mut [u32; 358], v: HeldValue)
    requires { Tidy (words_held held.old) × ((words_held held.old).count < 64) × Whole held.old }
    ensures { Holds held.new (held_of (with_pair (holding_of (words_held held.old)) (pair_of v))) }
{
    let n = value_count(held);
    let own = OwnedValue {
        desk: named_desk(held),
        pair: v,
    };
    set_value(held, n, own);
    set_count(held, n + 1);
}

// Takes the value at place `gap` out: those behind it move up. One step for each place behind it.
pub(crate) fn close_gap(held: &mut [u32; 358], gap: usize)
    requires { (0 < (words_held held.old).count) × ((words_held held.old).count ≤ 64) × (gap < 64) × Whole held.old }
    ensures { Holds held.new (without (words_held held.old) gap) }
{
    let n = value_count(held);
    for i in gap..Held::PLACES - 1 {
        set_value(held, i, value_at(held, i + 1));
    }
    let none = OwnedValue {
        desk: 0,
        pair: HeldValue {
            filling: 0,
            value: Cell {
                number: 0,
                issue: 0,
            },
        },
    };
    set_value(held, Held::PLACES - 1, none);
    set_count(held, n - 1);
}
