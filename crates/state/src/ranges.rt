// Ranges of a filling's values: which values one has, whether two are the same, whether one stands before another, and whether a row has a value of one.
// Constant time.
ghost use Rattle.std.specs.Prelude.{◌<◌, ◌≡◌};
ghost use Rattle.model.specs.Ranges.{has_range, in_range, same_range, stands_before};
ghost use Rattle.state.specs.Meaning.{cell_of, column_of, range_of};
ghost use Rattle.state.specs.Rows.{database_in, IsBacked};

use crate::cell::{Cell, cell_at, is_blank};
use crate::design::Column;
use crate::held::Range;
use crate::rows::{Rows, is_row_of};

// Whether the two are one range.
#[tactic(auto, unfolding(model::specs::Ranges::same_range))]
pub fn same_range(a: Range, b: Range) -> bool
    ensures { result ≡ same_range (range_of a) (range_of b) }
{
    a == b
}

// Whether the range has the value.
#[tactic(auto, unfolding(model::specs::Ranges::in_range))]
pub fn in_range(r: Range, v: Cell) -> bool
    ensures { result ≡ in_range (range_of r) (cell_of v) }
{
    !is_blank(v) && v.issue == 0 && (r.low..=r.high).contains(&v.number)
}

// Whether a stands before b, and the two neither overlap nor touch.
#[tactic(auto, unfolding(model::specs::Ranges::stands_before, finite::specs::Finite::lower_then))]
pub fn stands_before(a: Range, b: Range) -> bool
    ensures { result ≡ stands_before (range_of a) (range_of b) }
{
    // in u64, since a range can end with the highest number that there is
    (a.filling, u64::from(a.high) + 1) < (b.filling, u64::from(b.low))
}

impl Rows<'_> {
    // Whether row r is a row of the column's table and has one of the range's values there.
    pub fn has_range(&self, k: Column, q: Range, r: usize) -> bool
        requires { (r < 512) × (k.place < 8) × IsBacked self.now }
        ensures { result ≡ has_range (database_in self.now) (column_of k) (range_of q) r }
    {
        is_row_of(self.tables, k.table, r)
            && in_range(q, cell_at(self.cells, self.issues, r, usize::from(k.place)))
    }
}
