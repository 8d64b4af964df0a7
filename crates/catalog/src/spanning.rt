// The values of a range in the directory: a column's values stand in order, so those of a range stand side by side, and as many places are looked at as
// rows have such values, however wide the range is.
ghost use Rattle.std.specs.Prelude.{◌≡◌, ◌<◌, get_or};
ghost use Rattle.model.specs.Database.{Database, has};
ghost use Rattle.model.specs.Scheme as Model;
ghost use Rattle.state.specs.Meaning.{column_of, range_of};
ghost use Rattle.finite.specs.Finite.{first_from};
ghost use Rattle.catalog.specs.Catalog.{value_of, heads_in};
ghost use Rattle.catalog.specs.Spans.{plain_value, Spanned};
ghost use Rattle.catalog.specs.Index.{IsDirectory};

use crate::finding::{key_of, seat};
use crate::index::Index;
use crate::reading::{head_at, number_of, start_at};
use state::{Cell, Column, Design, Range};

// Some places of the directory: from which on, and how many.
#[derive(Clone, Copy)]
pub struct Span {
    pub from: usize,
    pub count: usize,
}

impl Index<'_, '_> {
    // The places among which the range's values in column k stand, in any database whose directory this is; values of their numbers with another issue stand
    // there too. A step for each halving of the column's values, twice: at most 20.
    pub fn find_range(&self, k: Column, q: Range) -> Span
        requires { (k.table < 8) × (k.place < 8) }
        ensures { (D : Database) → IsDirectory D self.now
            → Spanned D (column_of k) (range_of q) self.now.keys.now (heads_in self.now.catalog.now) result.from result.count }
    {
        let i = number_of(k);
        let to = start_at(self.catalog, i + 1);
        if Design::CELLS < to {
            return Span { from: 0, count: 0 };
        }
        let from = start_at(self.catalog, i);
        let high = Cell {
            number: q.high,
            issue: 0,
        };
        let a = seat(self.keys, from, to, key_of(high));
        let low = Cell {
            number: q.low,
            issue: 0,
        };
        let e = seat(self.keys, from, to, key_of(low).saturating_sub(1));
        if e < a {
            return Span { from: 0, count: 0 };
        }
        Span {
            from: a,
            count: e - a,
        }
    }

    // The first row that has the value at place i, if its issue is 0; else 512. Constant time.
    pub fn first_of(&self, i: usize) -> usize
        requires { i < 4096 }
        ensures { (D : Database) (k : Model.Column) → get_or (heads_in self.now.catalog.now) i 0 ≡ first_from 512 (has D k (value_of (get_or self.now.keys.now i 0))) 0
            → result ≡ first_from 512 (has D k (plain_value (get_or self.now.keys.now i 0))) 0 }
    {
        if self.keys[i] % 256 != 0 {
            return Design::ROWS;
        }
        head_at(self.catalog, i)
    }
}
