// The rows that lead on to one which would give a ground.
ghost use Rattle.std.specs.Prelude.{◌≡◌, false, ◌<◌};
ghost use Rattle.model.specs.Database.{Database};
ghost use Rattle.model.specs.Rounds as Rounds;
ghost use Rattle.model.specs.Turned as Turned;
ghost use Rattle.state.specs.Design.{InRange};
ghost use Rattle.state.specs.Meaning.{cell_of, column_of, scheme_of};
ghost use Rattle.catalog.specs.Index.{IsCatalogued};

use crate::giving::giving_rows;
use crate::turning::turned;
use catalog::Index;
use demanding::turn_firsts;
use load::load_rows;
use state::{Cell, Column, Design};

// The load along the constraints turned round, from the rows that would give v in column k a ground: its levels. A copy of the catalog
// serves the turned design, in which the first rows that its constraints demand are those that demand a row. Three steps for each constraint and row number, the
// searches of `giving_rows`, and one load.
pub(crate) fn leading_rows(d: Design, index: &Index, k: Column, v: Cell, levels: &mut [u16; 512])
    requires in_range { InRange d × (k.table < 8) × (k.place < 8) }
    requires catalogued { (D : Database) × IsCatalogued (scheme_of d) D index.now }
    ensures { (D : Database) → IsCatalogued (scheme_of d) D index.now
        → levels.new ≡ Rounds.load (Turned.turned (scheme_of d)) D (λ _. false) (Turned.gives (scheme_of d) D (column_of k) (cell_of v)) }
{
    // copied before anything else is stored, so that the compiler needn't lay it down as zeros first
    let mut own = *index.catalog;
    let t = turned(d);
    turn_firsts(d, &mut own);
    let mut seed = [false; 512];
    giving_rows(d, index, k, v, &mut seed);
    load_rows(t, &own, &seed, levels);
}
