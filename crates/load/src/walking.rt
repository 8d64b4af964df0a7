// One step of a load: the rows that have a value and no level yet get one, by a walk along the links.
ghost use Rattle.std.specs.Prelude.{◌≡◌, ◌<◌};
ghost use Rattle.model.specs.Database.{Database};
ghost use Rattle.catalog.specs.Catalog.{Links};
ghost use Rattle.load.specs.Grows.{Grows};
ghost use Rattle.load.specs.Walked.{Begins, along, Walked};

use crate::reached::Load;
use catalog::next_row;
use state::Design;

impl Load {
    // Gives level `to` and a place in the queue to the rows without a level that have the value of row `from` at this place.
    // `from` is the first of them, or 512. One step for each of them.
    pub(crate) fn walk(&mut self, catalog: &[u16; 16449], place: usize, from: usize, to: u16)
        requires place_bound { (place < 8) × (1 < to) }
        requires links { (D : Database) × Links D catalog.now × Begins D place from }
        ensures { (D : Database) → Links D catalog.now → Begins D place from → Grows to (along D place from) self.old self.new }
    {
        let mut r = from;
        // along the links: each is the next row that has the value, as the catalog has it, or 512, which ends the walk
        while r < Design::ROWS {
            self.reach(r, to);
            r = next_row(catalog, r, place);
        }
    }

    // The same, unless the value has been walked before: then its rows have levels. `walked` has a place for each cell; a value's is its first row's.
    // Constant time, and the first time the walk.
    pub(crate) fn walk_once(
        &mut self,
        catalog: &[u16; 16449],
        place: usize,
        from: usize,
        walked: &mut [bool; 4096],
        to: u16,
    )
        requires place_bound { (place < 8) × (1 < to) }
        requires links { (D : Database) × Links D catalog.now × Begins D place from × Walked D walked.old self.old.levels }
        ensures { (D : Database) → Links D catalog.now → Begins D place from → Walked D walked.old self.old.levels
            → Grows to (along D place from) self.old self.new × Walked D walked.new self.new.levels }
    {
        if Design::ROWS <= from {
            return;
        }
        let at = Design::COLUMNS * from + place;
        if walked[at] {
            return;
        }
        self.walk(catalog, place, from, to);
        walked[at] = true;
    }
}
