// Loading in rounds, level by level: whole loads, of one value or range more and of all that is held or given rows from nothing, and what a load leaves.
// The levels are the model's (crates/model/specs/Rounds.antt): 0 a row not reached, 1 a row cached before, 2 + n a row that round n adds.
// A load follows the links of the catalog, and compares no cells: from a row to the first row that a constraint demands of it, and from there to the
// next row that has the same value. Beside the levels it keeps a queue of the rows that it has added, from round 0 on, so that a row is looked at once for
// each constraint, and which values it has walked, and walks none again: a load costs one step for each added row and constraint, and one walk for each
// value and target column. It may stop before its rounds do, once as many rows are reached as can be.
#![tactic(auto)]

mod expanding;
mod loading;
mod outcome;
mod queue;
mod ranging;
mod reached;
mod rounds;
mod seeding;
mod start;
mod walking;

pub use loading::{load_held, load_range, load_value};
pub use outcome::{Growth, marks_agree, rows_marked, settle};
pub use seeding::load_rows;
