// The held values lent by `&mut`: REFER and DROP over a sound state, as thin functions that store the record whole.
ghost use Rattle.std.specs.Prelude.{ℕ, List};
ghost use Rattle.model.specs.Runs as Runs;
ghost use Rattle.state.specs.Cells.{Cells};
ghost use Rattle.state.specs.Meaning.{pair_of, answer_of};
ghost use Rattle.state.specs.Lent.{lent, Answered};
ghost use Rattle.cache.specs.Ready.{Ready};

use crate::records::{drop_record, refer_record};
use catalog::Index;
use state::{Answer, Design, Held, HeldValue};

// REFER with the held values lent. The cost of `refer_record`.
pub fn refer(
    design: Design,
    index: &Index,
    marks: &mut [u8],
    held: &mut Held,
    v: HeldValue,
) -> Answer
    requires { (cells : Cells) × (tables : List ℕ) × Ready design cells tables marks.old held.old index.now.catalog.now index.now.keys.now }
    ensures { (cells : Cells) (tables : List ℕ) → Ready design cells tables marks.old held.old index.now.catalog.now index.now.keys.now
        → Answered (lent design cells tables marks.old held.old) (Runs.refer (pair_of v)) (answer_of result)
        (lent design cells tables marks.new held.new) }
{
    let o = refer_record(design, index, marks, *held, v);
    *held = o.held;
    o.answer
}

// DROP with the held values lent. The cost of `drop_record`.
pub fn drop(
    design: Design,
    index: &Index,
    marks: &mut [u8],
    held: &mut Held,
    v: HeldValue,
) -> Answer
    requires { (cells : Cells) × (tables : List ℕ) × Ready design cells tables marks.old held.old index.now.catalog.now index.now.keys.now }
    ensures { (cells : Cells) (tables : List ℕ) → Ready design cells tables marks.old held.old index.now.catalog.now index.now.keys.now
        → Answered (lent design cells tables marks.old held.old) (Runs.drop (pair_of v)) (answer_of result)
        (lent design cells tables marks.new held.new) }
{
    let o = drop_record(design, index, marks, *held, v);
    *held = o.held;
    o.answer
}
