// What a row demands.
ghost use Rattle.std.specs.Prelude.{◌≡◌, ◌<◌};
ghost use Rattle.model.specs.Database.{Database};
ghost use Rattle.model.specs.Rounds.{demands};
ghost use Rattle.state.specs.Design.{InRange};
ghost use Rattle.state.specs.Meaning.{scheme_of};
ghost use Rattle.catalog.specs.Catalog.{Demands};
ghost use Rattle.load.specs.Grows.{Grows};
ghost use Rattle.load.specs.Walked.{Walked};
ghost use Rattle.load.specs.Targets.{target_places};

use crate::reached::Load;
use catalog::first_row;
use state::Design;
use std::array;

// The places at which the constraints end, so that a row is expanded without the design. One pass over the 16 places.
pub(crate) fn target_places(d: Design) -> [usize; 16]
    ensures { result ≡ target_places d }
{
    let constraint = d.constraint;
    array::from_fn(|i| usize::from(constraint[i].target.place))
}

impl Load {
    // Gives level `to` and a place in the queue to the rows without a level that row s demands.
    // One step for each constraint, and the walk of the rows that it demands if their value is new.
    pub(crate) fn expand(
        &mut self,
        d: Design,
        catalog: &[u16; 16449],
        places: &[usize; 16],
        s: usize,
        walked: &mut [bool; 4096],
        to: u16,
    )
        requires in_range { InRange d × (s < 512) × (1 < to) }
        requires places_value { places.now ≡ target_places d }
        requires demands { (D : Database) × Demands (scheme_of d) D catalog.now × Walked D walked.old self.old.levels }
        ensures { (D : Database) → Demands (scheme_of d) D catalog.now → Walked D walked.old self.old.levels
            → Grows to (demands (scheme_of d) D s) self.old self.new × Walked D walked.new self.new.levels }
    {
        for i in 0..d.constraints {
            self.walk_once(catalog, places[i], first_row(catalog, i, s), walked, to);
        }
    }
}
