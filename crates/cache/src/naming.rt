// Naming the desk for what follows, over a sound state.
ghost use Rattle.std.specs.Prelude.{true, List, ◌≡◌, ℕ};
ghost use Rattle.model.specs.Runs as Runs;
ghost use Rattle.state.specs.Cells.{Cells};
ghost use Rattle.state.specs.declared.design.Design.{Design};
ghost use Rattle.state.specs.HeldWords.{words_held, Whole};
ghost use Rattle.state.specs.Meaning.{answer_of};
ghost use Rattle.state.specs.Lent.{lent, sound, Answered};

use state::{Answer, Held, set_desk};

// Names the desk, unless it is above 3: the design, the rows and the marks don't matter. Constant time.
pub fn name_lawful(held: &mut [u32; 358], desk: u8) -> Answer
    requires { Whole held.old }
    ensures { ((d : Design) (cells : Cells) (tables marks : List ℕ) → sound (lent d cells tables marks (words_held held.old)) ≡ true →
        Answered (lent d cells tables marks (words_held held.old)) (Runs.name desk) (answer_of result) (lent d cells tables marks (words_held held.new)))
        × Whole held.new }
{
    if Held::DESKS <= desk {
        return Answer::Refused(5);
    }
    set_desk(held, desk);
    Answer::Named(desk)
}
