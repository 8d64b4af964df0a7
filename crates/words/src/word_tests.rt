// Whether lent words are words of a design: those that stand for a u8 are below 256 (specs/Words.antt).
ghost use Rattle.std.specs.Prelude.{◌+◌, ◌*◌, ◌≤◌, ◌≡◌, length};
ghost use Rattle.finite.specs.Finite.{all};
ghost use Rattle.state.specs.HeldWords.{narrow_two};
ghost use Rattle.words.specs.Words.{narrow_constraint, narrow_design};

use state::two_narrow;

// Constant time.
#[tactic(auto, unfolding(crate::specs::Words::narrow_constraint))]
fn constraint_narrow(words: &[u32], at: usize) -> bool
    requires { at + 4 ≤ length words.now }
    ensures { result ≡ narrow_constraint words.now at }
{
    two_narrow(words, at) && two_narrow(words, at + 2)
}

// Whether the first two words of each of eight places are bytes; a place takes w words, and the first one begins at word `at`. One look at each place, as the
// next.
fn pairs_narrow(words: &[u32], at: usize, w: usize) -> bool
    requires { (at + 8 * w ≤ length words.now) × (2 ≤ w) × (w ≤ 4) }
    ensures { result ≡ all 8 (λ i. narrow_two words.now (at + w * i)) }
{
    (0..8).all(|i| two_narrow(words, at + w * i))
}

fn constraints_narrow(words: &[u32]) -> bool
    requires { 115 ≤ length words.now }
    ensures { result ≡ all 16 (λ i. narrow_constraint words.now (19 + 4 * i)) }
{
    (0..16).all(|i| constraint_narrow(words, 19 + 4 * i))
}

// Whether the words are words of a design. One look at each.
#[tactic(auto, unfolding(crate::specs::Words::narrow_design))]
pub fn design_narrow(words: &[u32]) -> bool
    requires { 115 ≤ length words.now }
    ensures { result ≡ narrow_design words.now }
{
    pairs_narrow(words, 3, 2) && constraints_narrow(words) && pairs_narrow(words, 83, 4)
}
