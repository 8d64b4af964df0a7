// The places of an array, or of lent words: the first of them are used, and the others are 0.
ghost use Rattle.std.specs.Prelude.{ℕ, Bool, ◌≡◌, ◌<◌};
ghost use Rattle.finite.specs.Finite.{all};
ghost use Rattle.state.specs.Lawful.{used_or};

// Whether place i is lawful: one of the first `count`, and what stands there fits, or unused.
fn place_lawful<F: Fn(usize) -> bool, G: Fn(usize) -> bool>(
    i: usize,
    count: usize,
    fits: &F,
    unused: &G,
) -> bool
    requires { F.pre fits.now i × G.pre unused.now i }
    ensures { (p q : Bool) → ((b : Bool) → F.post fits.now i b → b ≡ p) → ((b : Bool) → G.post unused.now i b → b ≡ q) → result ≡ used_or i count p q }
{
    if i < count { fits(i) } else { unused(i) }
}

// Whether each of `places` places is lawful so. One look at each.
pub(crate) fn places_lawful<F: Fn(usize) -> bool, G: Fn(usize) -> bool>(
    places: usize,
    count: usize,
    fits: F,
    unused: G,
) -> bool
    requires fits { (i : ℕ) → i < places → F.pre fits i }
    requires unused { (i : ℕ) → i < places → G.pre unused i }
    ensures { (p q : ℕ → Bool) → ((i : ℕ) (b : Bool) → F.post fits i b → b ≡ p i) → ((i : ℕ) (b : Bool) → G.post unused i b → b ≡ q i) → result ≡ all places (λ i. used_or i count (p i) (q i)) }
{
    (0..places).all(|i| place_lawful(i, count, &fits, &unused))
}
