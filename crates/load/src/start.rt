// Round 0 of all that is held.
ghost use Rattle.std.specs.Prelude.{◌≡◌, false, replicate};
ghost use Rattle.model.specs.Database.{Database};
ghost use Rattle.model.specs.Rounds.{start};
ghost use Rattle.model.specs.Holding.{wanted};
ghost use Rattle.state.specs.Design.{InRange};
ghost use Rattle.state.specs.Held.{Bounded};
ghost use Rattle.state.specs.HeldWords.{words_held};
ghost use Rattle.state.specs.Meaning.{scheme_of, holding_of};
ghost use Rattle.catalog.specs.Index.{IsIndexed};

use crate::reached::Load;
use catalog::Index;
use state::{Design, value_at, value_count};

impl Load {
    // Round 0 of a load of all that is held, from no row: the rows that have a held value, or one of a held range, in its filling's column. For each held value a
    // search of the directory and the walk of its rows, and the cost of each range.
    pub(crate) fn begin_held(&mut self, d: Design, index: &Index, held: &[u32; 358])
        requires fresh { self.old.levels ≡ replicate 512 0 }
        requires in_range { InRange d × Bounded (words_held held.now) }
        requires indexed { (D : Database) × IsIndexed D index.now }
        ensures { (D : Database) → IsIndexed D index.now
            → self.new.levels ≡ start D (λ _. false) (wanted (scheme_of d) D (holding_of (words_held held.now))) }
    {
        // read from here, so that the compiler copies a filling and not all of them
        let filling = d.filling;
        for i in 0..value_count(held) {
            let v = value_at(held, i).pair;
            let f = filling[v.filling as usize];
            let k = f.column;
            let r = index.find(k, v.value);
            self.walk(index.catalog, usize::from(k.place), r, 2);
        }
        self.add_all_ranges(d, index, held);
    }
}
