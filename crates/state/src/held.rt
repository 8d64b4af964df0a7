// What is held: a small record with the desk named last, the values of all desks, in order of reference, and the ranges of each desk, rising. Unused
// places are 0.
ghost use Rattle.std.specs.Prelude.{◌≡◌};
ghost use Rattle.state.specs.Held.{empty_ranges, none_held};

use crate::cell::Cell;

// A filling's number and a value. `==` takes blanks for equal, as a cell's does, and `same_pair` doesn't.
#[derive(Clone, Copy, Default, PartialEq, Eq)]
pub struct HeldValue {
    pub filling: u8,
    pub value: Cell,
}

// A held value with the desk that it belongs to; compared by `same_owned`, as pairs are by `same_pair`.
#[derive(Clone, Copy, Default, PartialEq, Eq)]
pub struct OwnedValue {
    pub desk: u8,
    pub pair: HeldValue,
}

// A range of a filling's values, both ends counted.
#[derive(Clone, Copy, Default, PartialEq, Eq)]
pub struct Range {
    pub filling: u8,
    pub low: u32,
    pub high: u32,
}

// A desk's ranges: how many, and these.
#[derive(Clone, Copy)]
pub struct DeskRanges {
    pub count: usize,
    pub list: [Range; 8],
}

impl DeskRanges {
    #[tactic(auto, unfolding(finite::specs::Finite::tab))]
    pub fn none() -> DeskRanges
        ensures { result ≡ empty_ranges }
    {
        DeskRanges {
            count: 0,
            list: [Range::default(); Held::RANGES],
        }
    }
}

#[derive(Clone, Copy)]
pub struct Held {
    pub desk: u8,
    pub count: usize,
    pub values: [OwnedValue; 64],
    pub ranges: [DeskRanges; 4],
}

impl Held {
    pub const DESKS: u8 = 4;
    // for each desk, and for all of them
    pub const SHARE: usize = 16;

    pub const PLACES: usize = 64;
    // for each desk
    pub const RANGES: usize = 8;

    #[tactic(auto, unfolding(crate::specs::Held::none_held, finite::specs::Finite::tab))]
    pub fn none() -> Held
        ensures { result ≡ none_held }
    {
        Held {
            desk: 0,
            count: 0,
            values: [OwnedValue::default(); Held::PLACES],
            ranges: [DeskRanges::none(); 4],
        }
    }
}
