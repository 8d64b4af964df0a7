// The tests behind causes 5, 6 and 12: whether a table, a constraint, a filling, a row, a held value or range can stand where it is put, whether a whole design
// and its held values are lawful, and its rows, but for the values of unique columns. Each function decides a definition of state's specs/Lawful.antt, or
// a part of one (specs/Parts.antt).
#![tactic(auto)]

mod constraints;
mod designs;
mod fillings;
mod held;
mod places;
mod ranges;
mod rows;
mod tables;

pub use constraints::constraint_fits;
pub use designs::lawful_design;
pub use fillings::{filling_fits, is_candidate};
pub use held::{lawful_held, own_count};
pub use ranges::{is_range, only_candidates};
pub use rows::{operand_cell, operands_fit, row_fits, rows_stand};
pub use tables::{has_bit, is_column, is_unique, table_fits};
