// Searching by halves.
ghost use Rattle.std.specs.Prelude.{ℕ, Bool, ◌+◌, ◌^◌, ◌≡◌, ◌≤◌, ◌<◌};
ghost use Rattle.catalog.specs.Halving.{Falling, Halved};

// The first place from `from` on, and before `to`, at which the test fails, where it fails at each place behind one at which it fails; `to`, if it fails at none.
// A test for each halving: at most 1 + log2(to - from).
// It is a loop of its own: the library's `partition_point`, which goes over a slice, takes a test more, and half as many instructions again for each.
pub fn turning_point<F: Fn(usize) -> bool>(from: usize, to: usize, holds: F) -> usize
    requires small { to + to < 2 ^ 64 }
    requires holds { (k : ℕ) → from ≤ k → k < to → F.pre holds k }
    ensures { (p : ℕ → Bool) → ((k : ℕ) (b : Bool) → F.post holds k b → b ≡ p k)
        → from ≤ to → Falling from to p → Halved from to p result result }
{
    let mut a = from;
    let mut e = to;
    while a < e {
        let k = (a + e) / 2;
        if holds(k) {
            a = k + 1;
        } else {
            e = k;
        }
    }
    a
}
