// The catalog of a design's rows, built once when a design is read, so that loads, probes and queries walk just the rows they are about; `mend` changes it in place
// where a row comes or goes.
// It is two arrays. `catalog` has four parts: for each cell the next row that has the same value in the same column, for each constraint and row the first
// row that the constraint demands of it, and of the directory the first row of each value and where each column's values begin; `keys` has the keys of the
// directory's values, falling in each column. They are read by `next_row` and `first_row`, and lent together (`Index`) by `find`, `find_range` and `first_of`, and by nothing else; the rest of what is public here is for `mend`, `demanding` and, of `turning_point`, `slice`.
#![tactic(auto)]

mod columns;
mod finding;
mod firsts;
mod halving;
mod index;
mod linking;
mod listing;
mod making;
mod reading;
mod scanning;
mod spanning;
mod storing;

pub use finding::{key_of, seat, stands};
pub use firsts::demanded;
pub use halving::turning_point;
pub use index::Index;
pub use listing::make_room;
pub use making::build;
pub use reading::{FIRSTS, HEADS, STARTS, first_row, next_row, start_at, wide};
pub use spanning::Span;
pub use storing::store;
