// Round 0 of ranges.
ghost use Rattle.std.specs.Prelude.{◌≡◌, ◌≤◌, ◌<◌};
ghost use Rattle.model.specs.Database.{Database};
ghost use Rattle.model.specs.Ranges.{has_range};
ghost use Rattle.state.specs.Design.{InRange};
ghost use Rattle.state.specs.Held.{Bounded, ranges_at};
ghost use Rattle.state.specs.HeldWords.{words_held};
ghost use Rattle.state.specs.Meaning.{column_of, range_of, scheme_of};
ghost use Rattle.load.specs.Grows.{Grows};
ghost use Rattle.load.specs.Ranges.{desk_wants, desks_want};
ghost use Rattle.catalog.specs.Index.{IsIndexed};

use crate::reached::Load;
use catalog::Index;
use state::{Column, Design, Range, range_at, range_count};

impl Load {
    // Gives level 2 and a place in the queue to the rows without a level that have a value of the range in column k. A search of the
    // directory, and the walk of each value there whose number lies in the range.
    pub(crate) fn add_range(&mut self, index: &Index, k: Column, q: Range)
        requires table_bound { (k.table < 8) × (k.place < 8) }
        requires indexed { (D : Database) × IsIndexed D index.now }
        ensures { (D : Database) → IsIndexed D index.now → Grows 2 (has_range D (column_of k) (range_of q)) self.old self.new }
    {
        let span = index.find_range(k, q);
        let from = span.from;
        for j in 0..span.count {
            let r = index.first_of(from + j);
            self.walk(index.catalog, usize::from(k.place), r, 2);
        }
    }

    // The same for the ranges of a desk. For each range its cost.
    fn add_ranges(&mut self, d: Design, index: &Index, held: &[u32; 358], desk: usize)
        requires in_range { InRange d × (desk < 4) × Bounded (words_held held.now) }
        requires indexed { (D : Database) × IsIndexed D index.now }
        ensures { (D : Database) → IsIndexed D index.now
            → Grows 2 (desk_wants (scheme_of d) D (ranges_at (words_held held.now) desk)) self.old self.new }
    {
        // read from here, so that the compiler copies a filling and not all of them
        let filling = d.filling;
        for i in 0..range_count(held, desk) {
            let q = range_at(held, desk, i);
            let f = filling[q.filling as usize];
            self.add_range(index, f.column, q);
        }
    }

    // The same for the ranges of all desks. For each range its cost.
    pub(crate) fn add_all_ranges(&mut self, d: Design, index: &Index, held: &[u32; 358])
        requires in_range { InRange d × Bounded (words_held held.now) }
        requires indexed { (D : Database) × IsIndexed D index.now }
        ensures { (D : Database) → IsIndexed D index.now → Grows 2 (desks_want (scheme_of d) D (words_held held.now)) self.old self.new }
    {
        for desk in 0..4usize {
            self.add_ranges(d, index, held, desk);
        }
    }
}
