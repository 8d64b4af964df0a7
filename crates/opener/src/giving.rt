// The rows that would give a ground, were they cached.
ghost use Rattle.std.specs.Prelude.{◌≡◌, ◌&&◌, false, ℕ, ◌<◌, get_or, length};
ghost use Rattle.finite.specs.Finite.{any, tab};
ghost use Rattle.model.specs.Database.{Database, has};
ghost use Rattle.model.specs.Scheme.{same_column};
ghost use Rattle.model.specs.Turned as Turned;
ghost use Rattle.state.specs.Design.{InRange, constraint_at};
ghost use Rattle.state.specs.Meaning.{cell_of, column_of, constraint_of, scheme_of};
ghost use Rattle.opener.specs.Marking.{Marked};
ghost use Rattle.catalog.specs.Index.{IsIndexed};

use catalog::{Index, next_row};
use lawful::is_unique;
use state::{Cell, Column, Design, same_column};

// Marks the rows that have the value v in column k, beside those that are marked. A search of the directory, and a step for each of them.
fn mark_having(index: &Index, k: Column, v: Cell, seed: &mut [bool; 512])
    requires { (k.table < 8) × (k.place < 8) × ((D : Database) × IsIndexed D index.now) }
    ensures { (D : Database) → IsIndexed D index.now → length seed.old ≡ 512
        → Marked (has D (column_of k) (cell_of v)) seed.old seed.new }
{
    // Along the links, not by a count: `successors` asks for an Option at the end, which `find` and `next_row` say by 512.
    let mut r = index.find(k, v);
    while r < Design::ROWS {
        seed[r] = true;
        r = next_row(index.catalog, r, k.place as usize);
    }
}

// The rows that would be ground 2, whatever stood in the array. A search of the directory for each constraint that ends at the column, and a step for each row
// that has the value.
fn source_rows(d: Design, index: &Index, k: Column, v: Cell, seed: &mut [bool; 512])
    requires { InRange d × ((D : Database) × IsIndexed D index.now) }
    ensures { (length seed.new ≡ 512) × ((D : Database) → IsIndexed D index.now
        → (r : ℕ) → r < 512 → get_or seed.new r false ≡ any d.constraints (λ i. same_column (constraint_of (constraint_at d i)).target (column_of k)
        && has D (constraint_of (constraint_at d i)).source (cell_of v) r)) }
{
    *seed = [false; 512];
    for i in 0..d.constraints {
        let j = d.constraint[i];
        if same_column(j.target, k) {
            mark_having(index, j.source, v, seed);
        }
    }
}

// The rows that would be ground 2 or 3, whatever stood in the array. The cost of `source_rows`.
pub(crate) fn giving_rows(d: Design, index: &Index, k: Column, v: Cell, seed: &mut [bool; 512])
    requires { InRange d × (k.table < 8) × (k.place < 8) × ((D : Database) × IsIndexed D index.now) }
    ensures { (D : Database) → IsIndexed D index.now
        → seed.new ≡ tab 512 (Turned.gives (scheme_of d) D (column_of k) (cell_of v)) }
{
    source_rows(d, index, k, v, seed);
    if is_unique(d, k) {
        mark_having(index, k, v, seed);
    }
}
