// The search behind every yes: the ground, and the cached rows behind it.
ghost use Rattle.std.specs.Prelude.{◌<◌, ◌≤◌, ◌≡◌, length, take};
ghost use Rattle.model.specs.Database.{Database};
ghost use Rattle.model.specs.Probe as Probe;
ghost use Rattle.model.specs.Holding.{held_in};
ghost use Rattle.model.specs.Runs.{marked};
ghost use Rattle.state.specs.Design.{InRange};
ghost use Rattle.state.specs.Held.{Bounded};
ghost use Rattle.state.specs.HeldWords.{words_held};
ghost use Rattle.state.specs.Meaning.{cell_of, column_of, holding_of, scheme_of};
ghost use Rattle.catalog.specs.Index.{IsIndexed};

use crate::counting::rows_with;
use crate::grounds::ground;
use catalog::Index;
use state::{Cell, Column, Design};

// The lowest ground, 0 if none applies; and how many cached rows of the column's table have the value there, 0 if no ground applies.
#[derive(Clone, Copy)]
pub struct Found {
    pub ground: u8,
    pub rows: usize,
}

// The ground for the value in the column, and the rows behind it. The cost of `ground` and, with a yes, a search of the directory and a step for each
// row that has the value; a "sent" counts nothing.
pub fn search(
    d: Design,
    index: &Index,
    marks: &[u8],
    held: &[u32; 358],
    k: Column,
    v: Cell,
) -> Found
    requires in_range { InRange d × (512 ≤ length marks.now) × Bounded (words_held held.now) × (k.table < 8) × (k.place < 8) }
    requires indexed { (D : Database) × IsIndexed D index.now }
    ensures { (D : Database) → IsIndexed D index.now
        → (result.ground ≡ Probe.probe (scheme_of d) D (held_in (scheme_of d) (holding_of (words_held held.now))) (marked (take 512 marks.now)) (column_of k) (cell_of v)) × (result.rows ≡ Probe.rows_behind result.ground D (marked (take 512 marks.now)) (column_of k) (cell_of v)) }
{
    let g = ground(d, index, marks, held, k, v);
    if g == 0 {
        return Found { ground: g, rows: 0 };
    }
    let n = rows_with(index, marks, k, v);
    Found { ground: g, rows: n }
}
