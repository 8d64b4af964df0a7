// Loads of given rows from nothing.
ghost use Rattle.std.specs.Prelude.{◌≡◌, false, ◌&&◌, ◌<◌, eqb, get_or, replicate};
ghost use Rattle.model.specs.Database.{Database};
ghost use Rattle.model.specs.Rounds as Rounds;
ghost use Rattle.model.specs.Rounds.{start};
ghost use Rattle.state.specs.Design.{InRange};
ghost use Rattle.state.specs.Meaning.{scheme_of};
ghost use Rattle.catalog.specs.Catalog.{Demands};
ghost use Rattle.load.specs.Grows.{Grows};

use crate::reached::Load;
use state::Design;

impl Load {
    // Gives row r level 2 and the queue's next place, if it is wanted and has no level. Constant time.
    fn reach_if(&mut self, wanted: bool, r: usize)
        requires { r < 512 }
        ensures { Grows 2 (λ s. wanted && eqb s r) self.old self.new }
    {
        if !wanted {
            return;
        }
        self.reach(r, 2);
    }

    // Round 0: the rows of the seed. One pass over the row numbers.
    fn begin_rows(&mut self, seed: &[bool; 512])
        requires { self.old.levels ≡ replicate 512 0 }
        ensures { (D : Database) → D.size ≡ 512 → self.new.levels ≡ start D (λ _. false) (λ r. get_or seed.now r false) }
    {
        for r in 0..Design::ROWS {
            self.reach_if(seed[r], r);
        }
    }
}

// The load of the rows of the seed from nothing: its levels. One pass over the row numbers, then a step for each row that is added and each constraint.
pub fn load_rows(d: Design, catalog: &[u16; 16449], seed: &[bool; 512], levels: &mut [u16; 512])
    requires in_range { InRange d }
    requires demands { (D : Database) × Demands (scheme_of d) D catalog.now }
    ensures { (D : Database) → Demands (scheme_of d) D catalog.now
        → levels.new ≡ Rounds.load (scheme_of d) D (λ _. false) (λ r. get_or seed.now r false) }
{
    let mut load = Load::none();
    load.begin_rows(seed);
    load.close(d, catalog, Design::ROWS + 1);
    *levels = load.levels;
}
