// Holding and dropping a range for the named desk, over a sound state.
ghost use Rattle.std.specs.Prelude.{ℕ, List};
ghost use Rattle.model.specs.Runs as Runs;
ghost use Rattle.state.specs.Cells.{Cells};
ghost use Rattle.state.specs.HeldWords.{words_held, Whole};
ghost use Rattle.state.specs.Meaning.{range_of, answer_of};
ghost use Rattle.state.specs.Lent.{lent, Answered};
ghost use Rattle.cache.specs.Ready.{Ready};

use crate::loads::{mark_held, mark_range};
use crate::ranges::{covers, has_range, joined, own_ranges, removed, set_own};
use catalog::Index;
use lawful::{is_range, only_candidates};
use state::{Answer, Design, Held, Range};

// Holds the range for the named desk from now on and loads it, unless it is refused, not wholly of candidates, or inside a range of the desk. Two looks at each of
// the desk's ranges, then one load: the walk of the range's values, and a step for each row that is added and each constraint.
pub fn refer_range_lawful(
    design: Design,
    index: &Index,
    marks: &mut [u8],
    held: &mut [u32; 358],
    r: Range,
) -> Answer
    requires whole { Whole held.old }
    requires by_index { (cells : Cells) × (tables : List ℕ) × Ready design cells tables marks.old (words_held held.old) index.now.catalog.now index.now.keys.now }
    ensures { Whole held.new
        × ((cells : Cells) (tables : List ℕ) → Ready design cells tables marks.old (words_held held.old) index.now.catalog.now index.now.keys.now
        → Answered (lent design cells tables marks.old (words_held held.old)) (Runs.refer_range (range_of r)) (answer_of result)
        (lent design cells tables marks.new (words_held held.new))) }
{
    if !is_range(design, r) {
        return Answer::Refused(5);
    }
    if !only_candidates(design, r) {
        return Answer::NoCandidate;
    }
    let own = own_ranges(held);
    if covers(own, r) {
        return Answer::Held;
    }
    let more = joined(own, r);
    if Held::RANGES < more.count {
        return Answer::Refused(8);
    }
    let f = r.filling as usize;
    let filling = design.filling[f];
    let column = filling.column;
    let answer = mark_range(design, index, marks, column, r);
    set_own(held, more);
    answer
}

// Lets a range of the named desk go, and the cached rows become the smallest set for what is left. Two looks at each of the desk's ranges, and a search of the
// directory: where no row has a value of the range, the cached rows stay. Else one reload: a step for each row that is reached and each constraint.
pub fn drop_range_lawful(
    design: Design,
    index: &Index,
    marks: &mut [u8],
    held: &mut [u32; 358],
    r: Range,
) -> Answer
    requires whole { Whole held.old }
    requires by_index { (cells : Cells) × (tables : List ℕ) × Ready design cells tables marks.old (words_held held.old) index.now.catalog.now index.now.keys.now }
    ensures { Whole held.new
        × ((cells : Cells) (tables : List ℕ) → Ready design cells tables marks.old (words_held held.old) index.now.catalog.now index.now.keys.now
        → Answered (lent design cells tables marks.old (words_held held.old)) (Runs.drop_range (range_of r)) (answer_of result)
        (lent design cells tables marks.new (words_held held.new))) }
{
    if !is_range(design, r) {
        return Answer::Refused(5);
    }
    let own = own_ranges(held);
    if !has_range(own, r) {
        return Answer::Refused(10);
    }
    let left = removed(own, r);
    set_own(held, left);
    let filling = design.filling[r.filling as usize];
    let span = index.find_range(filling.column, r);
    if span.count == 0 {
        return Answer::Dropped(0);
    }
    mark_held(design, index, marks, held)
}
