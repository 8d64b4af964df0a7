// The rows that demand others, read off the catalog without a search: for each constraint and row, of the rows that demand it, the lowest of the lowest level. With one level
// for all rows they are the first rows that the constraints demand when they are turned round, along which openers load.
#![tactic(auto)]

mod nearest;

pub use nearest::turn_firsts;
