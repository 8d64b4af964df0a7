// PROBE over a sound state.
ghost use Rattle.std.specs.Prelude.{ℕ, true, List, ◌≡◌};
ghost use Rattle.model.specs.Runs as Runs;
ghost use Rattle.state.specs.Cells.{Cells};
ghost use Rattle.state.specs.HeldWords.{words_held};
ghost use Rattle.state.specs.Meaning.{answer_of, cell_of, column_of, database_of};
ghost use Rattle.state.specs.Lent.{lent, sound, answer_at};
ghost use Rattle.catalog.specs.Index.{IsIndexed};

use catalog::Index;
use lawful::is_column;
use probe::search;
use state::{Answer, Cell, Column, Design, is_numberless};

// A yes is the lowest ground. Held values, and a look for the value for each constraint that ends at the column and once more if it
// is unique; with a yes a step for each row that has the value, too.
pub fn probe_lawful(
    design: Design,
    index: &Index,
    marks: &[u8],
    held: &[u32; 358],
    k: Column,
    v: Cell,
) -> Answer
    requires { (cells : Cells) × (tables : List ℕ) × (sound (lent design cells tables marks.now (words_held held.now)) ≡ true)
        × IsIndexed (database_of cells tables) index.now }
    ensures { (cells : Cells) (tables : List ℕ) → sound (lent design cells tables marks.now (words_held held.now)) ≡ true
        → IsIndexed (database_of cells tables) index.now
        → answer_of result ≡ answer_at (lent design cells tables marks.now (words_held held.now)) (Runs.ask (Runs.probe (column_of k) (cell_of v))) }
{
    if !is_column(design, k) {
        return Answer::Refused(5);
    }
    if is_numberless(v) {
        return Answer::Refused(9);
    }
    let found = search(design, index, marks, held, k, v);
    if found.ground == 0 {
        return Answer::Sent;
    }
    Answer::Ground(found.ground, found.rows)
}
