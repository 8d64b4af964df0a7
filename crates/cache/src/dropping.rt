// DROP over a sound state.
ghost use Rattle.std.specs.Prelude.{ℕ, List};
ghost use Rattle.model.specs.Runs as Runs;
ghost use Rattle.state.specs.Cells.{Cells};
ghost use Rattle.state.specs.HeldWords.{words_held, Whole};
ghost use Rattle.state.specs.Meaning.{pair_of, answer_of};
ghost use Rattle.state.specs.Lent.{lent, Answered};
ghost use Rattle.cache.specs.Ready.{Ready};

use crate::loads::mark_held;
use crate::values::{close_gap, place};
use catalog::Index;
use state::{Answer, Design, HeldValue, is_numberless};

// Lets the named desk's value go, and the cached rows become the smallest set for the values left. One look at each held value, and a search of the directory:
// where no row has the value, the cached rows stay. Else one reload: a step for each row that is reached and each constraint.
pub fn drop_lawful(
    design: Design,
    index: &Index,
    marks: &mut [u8],
    held: &mut [u32; 358],
    v: HeldValue,
) -> Answer
    requires whole { Whole held.old }
    requires by_index { (cells : Cells) × (tables : List ℕ) × Ready design cells tables marks.old (words_held held.old) index.now.catalog.now index.now.keys.now }
    ensures { Whole held.new
        × ((cells : Cells) (tables : List ℕ) → Ready design cells tables marks.old (words_held held.old) index.now.catalog.now index.now.keys.now
        → Answered (lent design cells tables marks.old (words_held held.old)) (Runs.drop (pair_of v)) (answer_of result)
        (lent design cells tables marks.new (words_held held.new))) }
{
    let f = v.filling as usize;
    if design.fillings <= f {
        return Answer::Refused(5);
    }
    if is_numberless(v.value) {
        return Answer::Refused(9);
    }
    let Some(gap) = place(held, v) else {
        return Answer::Refused(10);
    };
    close_gap(held, gap);
    let filling = design.filling[f];
    let first = index.find(filling.column, v.value);
    if Design::ROWS <= first {
        return Answer::Dropped(0);
    }
    mark_held(design, index, marks, held)
}
