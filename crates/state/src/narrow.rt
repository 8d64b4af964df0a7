// Whether lent words are words of what is held: those that stand for a u8 are below 256 (specs/HeldWords.antt).
ghost use Rattle.std.specs.Prelude.{◌+◌, ◌*◌, ◌≤◌, ◌<◌, ◌≡◌, length};
ghost use Rattle.finite.specs.Finite.{all};
ghost use Rattle.state.specs.HeldWords.{is_byte, narrow_two, narrow_value, narrow_ranges, narrow_held};

// Constant time, as are the next two.
pub fn is_byte(words: &[u32], i: usize) -> bool
    requires { i < length words.now }
    ensures { result ≡ is_byte words.now i }
{
    words[i] < 256
}

#[tactic(auto, unfolding(crate::specs::HeldWords::narrow_two))]
pub fn two_narrow(words: &[u32], at: usize) -> bool
    requires { at + 2 ≤ length words.now }
    ensures { result ≡ narrow_two words.now at }
{
    is_byte(words, at) && is_byte(words, at + 1)
}

#[tactic(auto, unfolding(crate::specs::HeldWords::narrow_value))]
fn value_narrow(words: &[u32], at: usize) -> bool
    requires { at + 4 ≤ length words.now }
    ensures { result ≡ narrow_value words.now at }
{
    two_narrow(words, at) && is_byte(words, at + 3)
}

// One look at each place, as the next three.
fn values_narrow(words: &[u32]) -> bool
    requires { 358 ≤ length words.now }
    ensures { result ≡ all 64 (λ i. narrow_value words.now (2 + 4 * i)) }
{
    (0..64).all(|i| value_narrow(words, 2 + 4 * i))
}

fn ranges_narrow(words: &[u32], at: usize) -> bool
    requires { at + 25 ≤ length words.now }
    ensures { result ≡ narrow_ranges words.now at }
{
    (0..8).all(|j| is_byte(words, at + 1 + 3 * j))
}

fn desks_narrow(words: &[u32]) -> bool
    requires { 358 ≤ length words.now }
    ensures { result ≡ all 4 (λ e. narrow_ranges words.now (258 + 25 * e)) }
{
    (0..4).all(|e| ranges_narrow(words, 258 + 25 * e))
}

// Whether the words are words of what is held. One look at each.
#[tactic(auto, unfolding(crate::specs::HeldWords::narrow_held))]
pub fn held_narrow(held: &[u32; 358]) -> bool
    ensures { result ≡ narrow_held held.now }
{
    is_byte(held, 0) && values_narrow(held) && desks_narrow(held)
}
