// The later rounds.
ghost use Rattle.std.specs.Prelude.{◌≡◌, ℕ, ◌+◌, ◌≤◌, ◌<◌, get_or};
ghost use Rattle.model.specs.Database.{Database};
ghost use Rattle.model.specs.Rounds as Rounds;
ghost use Rattle.state.specs.Design.{InRange};
ghost use Rattle.state.specs.Meaning.{scheme_of};
ghost use Rattle.catalog.specs.Catalog.{Demands};
ghost use Rattle.load.specs.Queue.{Front};
ghost use Rattle.load.specs.Walked.{Walked};
ghost use Rattle.load.specs.Targets.{target_places};
ghost use Rattle.load.specs.Ended.{Ended};

use crate::expanding::target_places;
use crate::outcome::Growth;
use crate::reached::Load;
use state::Design;

impl Load {
    // Round n + 1: expands the rows of round n, which stand in the queue from `from` on. The cost is that of expanding them.
    fn round(
        &mut self,
        d: Design,
        catalog: &[u16; 16449],
        places: &[usize; 16],
        walked: &mut [bool; 4096],
        n: u16,
        from: usize,
    )
        requires in_range { InRange d × (n < 512) }
        requires places_value { (places.now ≡ target_places d) × Front (n + 2) self.old.levels self.old.queue from self.old.end }
        requires demands { (D : Database) × Demands (scheme_of d) D catalog.now × Walked D walked.old self.old.levels }
        ensures { (D : Database) → Demands (scheme_of d) D catalog.now → Walked D walked.old self.old.levels
            → (self.new.levels ≡ Rounds.next (scheme_of d) D n self.old.levels)
            × Front (n + 3) self.new.levels self.new.queue self.old.end self.new.end × Walked D walked.new self.new.levels }
    {
        for i in from..self.end {
            let s = usize::from(self.queue[i]);
            self.expand(d, catalog, places, s, walked, n + 3);
        }
    }

    // The later rounds, until one adds nothing or `most` rows have been added; how many have been, and how many rounds added one. Round 0 has added the rows
    // that stand in the queue. The cost is that of expanding each row that is added once.
    fn run(
        &mut self,
        d: Design,
        catalog: &[u16; 16449],
        places: &[usize; 16],
        walked: &mut [bool; 4096],
        most: usize,
    ) -> Growth
        requires in_range { InRange d × ((r : ℕ) → get_or self.old.levels r 0 ≤ 2) }
        requires places_value { places.now ≡ target_places d }
        requires demands { (D : Database) × Demands (scheme_of d) D catalog.now × Walked D walked.old self.old.levels }
        ensures { (D : Database) → Demands (scheme_of d) D catalog.now → Walked D walked.old self.old.levels
            → Ended (scheme_of d) D self.old.levels most self.new.levels result.rows result.rounds }
    {
        let mut from: usize = 0;
        for n in 0..512u16 {
            let rows = self.end;
            let rounds = usize::from(n);
            if most <= rows {
                return Growth { rows, rounds };
            }
            self.round(d, catalog, places, walked, n, from);
            if self.end == rows {
                return Growth { rows, rounds };
            }
            from = rows;
        }
        Growth {
            rows: self.end,
            rounds: 512,
        }
    }

    // The later rounds, after round 0 has put its rows into the queue: one step for each row that is added and each constraint, and one walk of the
    // rows that have a value for each value and target column: no row is walked twice in a column. If round 0 added nothing, neither does any other, and
    // nothing is set up.
    pub(crate) fn close(&mut self, d: Design, catalog: &[u16; 16449], most: usize) -> Growth
        requires in_range { InRange d × ((r : ℕ) → get_or self.old.levels r 0 ≤ 2) }
        requires demands { (D : Database) × Demands (scheme_of d) D catalog.now }
        ensures { (D : Database) → Demands (scheme_of d) D catalog.now
            → Ended (scheme_of d) D self.old.levels most self.new.levels result.rows result.rounds }
    {
        if self.end == 0 {
            return Growth { rows: 0, rounds: 0 };
        }
        let places = target_places(d);
        let mut walked = [false; 4096];
        self.run(d, catalog, &places, &mut walked, most)
    }
}
