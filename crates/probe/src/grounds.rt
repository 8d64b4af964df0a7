// Grounds 2 and 3, and the lowest of the three.
ghost use Rattle.std.specs.Prelude.{◌<◌, ◌≤◌, ◌&&◌, ◌≡◌, length, take};
ghost use Rattle.model.specs.Database.{Database};
ghost use Rattle.model.specs.Probe as Probe;
ghost use Rattle.model.specs.Holding.{held_in};
ghost use Rattle.model.specs.Runs.{marked};
ghost use Rattle.model.specs.Scheme.{same_column};
ghost use Rattle.state.specs.Design.{InRange};
ghost use Rattle.state.specs.Held.{Bounded};
ghost use Rattle.state.specs.HeldWords.{words_held};
ghost use Rattle.state.specs.Meaning.{cell_of, column_of, constraint_of, holding_of, scheme_of};
ghost use Rattle.catalog.specs.Index.{IsIndexed};

use crate::cached::seen;
use crate::held::is_held;
use catalog::Index;
use lawful::is_unique;
use state::{Cell, Column, Constraint, Design, same_column};

// Whether the constraint ends at the column and a cached row has the value in its source column. If it ends there, the cost
// of looking for the value.
fn is_demanded_by(index: &Index, marks: &[u8], c: Constraint, k: Column, v: Cell) -> bool
    requires table_bound { (c.source.table < 8) × (c.source.place < 8) × (512 ≤ length marks.now) }
    requires indexed { (D : Database) × IsIndexed D index.now }
    ensures { (D : Database) → IsIndexed D index.now
        → result ≡ same_column (constraint_of c).target (column_of k) && Probe.seen D (marked marks.now) (constraint_of c).source (cell_of v) }
{
    same_column(c.target, k) && seen(index, marks, c.source, v)
}

// Ground 2: whether a constraint ends at the column and a cached row has the value in its source column. The cost of looking for the value, for each
// constraint that ends there.
fn is_demanded(d: Design, index: &Index, marks: &[u8], k: Column, v: Cell) -> bool
    requires in_range { InRange d × (512 ≤ length marks.now) }
    requires indexed { (D : Database) × IsIndexed D index.now }
    ensures { (D : Database) → IsIndexed D index.now
        → result ≡ Probe.demanded (scheme_of d) D (marked marks.now) (column_of k) (cell_of v) }
{
    // read from here, so that the compiler copies 64 bytes and not the whole design
    let constraint = d.constraint;
    (0..d.constraints).any(|i| is_demanded_by(index, marks, constraint[i], k, v))
}

// Ground 3: whether the column is unique and a cached row has the value there. The cost of looking for it, if the column is unique.
#[tactic(auto, unfolding(model::specs::Probe::uniquely_seen))]
fn is_uniquely_seen(d: Design, index: &Index, marks: &[u8], k: Column, v: Cell) -> bool
    requires table_bound { (k.table < 8) × (k.place < 8) × (512 ≤ length marks.now) }
    requires indexed { (D : Database) × IsIndexed D index.now }
    ensures { (D : Database) → IsIndexed D index.now
        → result ≡ Probe.uniquely_seen (scheme_of d) D (marked marks.now) (column_of k) (cell_of v) }
{
    is_unique(d, k) && seen(index, marks, k, v)
}

// The lowest ground that says the value is complete in the column, by number as `Found` and the answer carry it on, 0 if none does. Held values, and a look for the value for each
// constraint that ends at the column and once more if it is unique.
pub(crate) fn ground(
    d: Design,
    index: &Index,
    marks: &[u8],
    held: &[u32; 358],
    k: Column,
    v: Cell,
) -> u8
    requires in_range { InRange d × (512 ≤ length marks.now) × Bounded (words_held held.now) × (k.table < 8) × (k.place < 8) }
    requires indexed { (D : Database) × IsIndexed D index.now }
    ensures { (D : Database) → IsIndexed D index.now
        → result ≡ Probe.probe (scheme_of d) D (held_in (scheme_of d) (holding_of (words_held held.now))) (marked (take 512 marks.now)) (column_of k) (cell_of v) }
{
    if is_held(d, held, k, v) {
        return 1;
    }
    if is_demanded(d, index, marks, k, v) {
        return 2;
    }
    if is_uniquely_seen(d, index, marks, k, v) {
        return 3;
    }
    0
}
