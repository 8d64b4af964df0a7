// The values that everything above works on: cells, the design, the held values and ranges, an operation and its answer; and the leaves that compare them and
// read their places and lent rows.
// What they mean as the model's scheme, database and cache is in specs/Meaning.antt, when a lent state is lawful in specs/Lawful.antt, and what
// an operation answers and leaves in specs/Lent.antt.
#![tactic(auto)]

mod answer;
mod cell;
mod design;
mod equality;
mod held;
mod held_words;
mod lookup;
mod narrow;
mod operation;
mod ranges;
mod rows;

pub use answer::{Answer, Shown, has_lists, is_refusal, show};
pub use cell::{Cell, amount_of, cell_at, is_blank, is_numberless, lower_cell, same_cell};
pub use design::{Column, Constraint, Design, Filling, Table};
pub use equality::{same_column, same_owned, same_pair};
pub use held::{DeskRanges, Held, HeldValue, OwnedValue, Range};
pub use held_words::{
    HELD_WORDS, byte_at, count_at, first_words, named_desk, range_at, range_count, ranges_at,
    set_count, set_desk, set_ranges, set_value, store_words, value_at, value_count,
};
pub use lookup::{filling_at, table_at};
pub use narrow::{held_narrow, is_byte, two_narrow};
pub use operation::{Join, Operation, Query, Total};
pub use ranges::{in_range, same_range, stands_before};
pub use rows::{Row, Rows, is_live};
