// Whole loads: of one value or range more, and of all that is held from nothing. Round 0 and the later rounds share one queue.
ghost use Rattle.std.specs.Prelude.{◌≡◌, ◌≤◌, ◌<◌, length};
ghost use Rattle.model.specs.Database.{Database, has};
ghost use Rattle.model.specs.Ranges.{has_range};
ghost use Rattle.model.specs.Rounds as Rounds;
ghost use Rattle.model.specs.Rounds.{added_rows, later_rounds};
ghost use Rattle.model.specs.Holding.{wanted};
ghost use Rattle.model.specs.Runs.{marked, reload_levels};
ghost use Rattle.state.specs.Design.{InRange};
ghost use Rattle.state.specs.Held.{Bounded};
ghost use Rattle.state.specs.HeldWords.{words_held};
ghost use Rattle.state.specs.Meaning.{cell_of, column_of, range_of, scheme_of, holding_of};
ghost use Rattle.load.specs.Ended.{Within, Reaches};
ghost use Rattle.catalog.specs.Index.{IsCatalogued};

use crate::outcome::Growth;
use crate::reached::Load;
use catalog::Index;
use state::{Cell, Column, Design, Range};

// The load of the value v in column k beside the marked rows: its levels. One pass over the marks, a search of the directory, the walk of the value's
// rows, then a step for each row that is added and each constraint.
pub fn load_value(
    d: Design,
    index: &Index,
    marks: &[u8],
    k: Column,
    v: Cell,
    levels: &mut [u16; 512],
) -> Growth
    requires in_range { InRange d × (k.table < 8) × (k.place < 8) × (512 ≤ length marks.now) × (length levels.old ≡ 512) }
    requires catalogued { (D : Database) × IsCatalogued (scheme_of d) D index.now }
    ensures { (D : Database) → IsCatalogued (scheme_of d) D index.now
        → (levels.new ≡ Rounds.load (scheme_of d) D (marked marks.now) (has D (column_of k) (cell_of v))) × (result.rows ≡ added_rows D levels.new) × (result.rounds ≡ later_rounds D levels.new) }
{
    let mut load = Load::none();
    load.begin_beside(marks);
    load.walk(index.catalog, usize::from(k.place), index.find(k, v), 2);
    let growth = load.close(d, index.catalog, Design::ROWS + 1);
    *levels = load.levels;
    growth
}

// The load of the values of range q in column k beside the marked rows: its levels. One pass over the marks, a search of the directory, the walk of the range's
// values, then a step for each row that is added and each constraint.
pub fn load_range(
    d: Design,
    index: &Index,
    marks: &[u8],
    k: Column,
    q: Range,
    levels: &mut [u16; 512],
) -> Growth
    requires in_range { InRange d × (k.table < 8) × (k.place < 8) × (512 ≤ length marks.now) × (length levels.old ≡ 512) }
    requires catalogued { (D : Database) × IsCatalogued (scheme_of d) D index.now }
    ensures { (D : Database) → IsCatalogued (scheme_of d) D index.now
        → (levels.new ≡ Rounds.load (scheme_of d) D (marked marks.now) (has_range D (column_of k) (range_of q))) × (result.rows ≡ added_rows D levels.new) × (result.rounds ≡ later_rounds D levels.new) }
{
    let mut load = Load::none();
    load.begin_beside(marks);
    load.add_range(index, k, q);
    let growth = load.close(d, index.catalog, Design::ROWS + 1);
    *levels = load.levels;
    growth
}

// The levels of a load of all that is held from nothing; how many rows have one. It stops once `most` rows are reached,
// if no more can be. For each held value a search of the directory and the walk of its rows, the same for each held range, then a step for each row that is
// reached and each constraint.
pub fn load_held(
    d: Design,
    index: &Index,
    held: &[u32; 358],
    most: usize,
    levels: &mut [u16; 512],
) -> usize
    requires in_range { InRange d × Bounded (words_held held.now) }
    requires catalogued { (D : Database) × IsCatalogued (scheme_of d) D index.now }
    ensures { (D : Database) → IsCatalogued (scheme_of d) D index.now
        → Within (scheme_of d) D (wanted (scheme_of d) D (holding_of (words_held held.now))) most → Reaches levels.new (reload_levels (scheme_of d) D (holding_of (words_held held.now))) result }
{
    let mut load = Load::none();
    load.begin_held(d, index, held);
    let growth = load.close(d, index.catalog, most);
    *levels = load.levels;
    growth.rows
}
