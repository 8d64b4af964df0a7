// REFER over a sound state.
ghost use Rattle.std.specs.Prelude.{ℕ, List};
ghost use Rattle.model.specs.Runs as Runs;
ghost use Rattle.state.specs.Cells.{Cells};
ghost use Rattle.state.specs.HeldWords.{words_held, Whole};
ghost use Rattle.state.specs.Meaning.{pair_of, answer_of};
ghost use Rattle.state.specs.Lent.{lent, Answered};
ghost use Rattle.cache.specs.Ready.{Ready};

use crate::loads::mark_value;
use crate::values::{append, has_room, listed};
use catalog::Index;
use lawful::is_candidate;
use state::{Answer, Design, HeldValue, is_numberless};

// Holds the value for the named desk from now on and loads it, unless it is refused, no candidate, or held already. Two looks at each held value, then one load:
// a step for each row that is added and each constraint.
pub fn refer_lawful(
    design: Design,
    index: &Index,
    marks: &mut [u8],
    held: &mut [u32; 358],
    v: HeldValue,
) -> Answer
    requires whole { Whole held.old }
    requires by_index { (cells : Cells) × (tables : List ℕ) × Ready design cells tables marks.old (words_held held.old) index.now.catalog.now index.now.keys.now }
    ensures { Whole held.new
        × ((cells : Cells) (tables : List ℕ) → Ready design cells tables marks.old (words_held held.old) index.now.catalog.now index.now.keys.now
        → Answered (lent design cells tables marks.old (words_held held.old)) (Runs.refer (pair_of v)) (answer_of result)
        (lent design cells tables marks.new (words_held held.new))) }
{
    let f = v.filling as usize;
    if design.fillings <= f {
        return Answer::Refused(5);
    }
    if is_numberless(v.value) {
        return Answer::Refused(9);
    }
    let candidates = design.filling[f];
    if !is_candidate(candidates, v.value) {
        return Answer::NoCandidate;
    }
    if listed(held, v) {
        return Answer::Held;
    }
    if !has_room(held) {
        return Answer::Refused(8);
    }
    let column = candidates.column;
    let answer = mark_value(design, index, marks, column, v.value);
    append(held, v);
    answer
}
