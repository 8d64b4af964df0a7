// The queue of the rows that a load has added.
ghost use Rattle.std.specs.Prelude.{◌≡◌, ◌<◌, ◌≤◌, eqb, cond, length, replicate};
ghost use Rattle.finite.specs.Finite.{tab};
ghost use Rattle.model.specs.Runs.{marked};
ghost use Rattle.load.specs.Grows.{Grows};

use crate::reached::Load;

// The level of a row with this mark before a load: 1 if it is cached. Constant time.
fn cached_level(mark: u8) -> u16
    ensures { result ≡ cond (eqb mark 1) 1 0 }
{
    u16::from(mark == 1)
}

// Stores the levels of the rows with these marks before a load, where they lie. One pass over the marks.
fn cached_levels(marks: &[u8], levels: &mut [u16; 512])
    requires { (512 ≤ length marks.now) × (length levels.old ≡ 512) }
    ensures { levels.new ≡ tab 512 (λ r. cond (marked marks.now r) 1 0) }
{
    // no array from `from_fn`: that is made apart, and copied
    for (r, &mark) in marks[..512].iter().enumerate() {
        levels[r] = cached_level(mark);
    }
}

impl Load {
    // No row is reached.
    pub(crate) fn none() -> Self
        ensures { (result.levels ≡ replicate 512 0) × (result.end ≡ 0) }
    {
        Load {
            levels: [0; 512],
            queue: [0; 512],
            end: 0,
        }
    }

    // The marked rows are cached, in a load that has added none. It changes the load where it lies, so that nothing of it is copied. One pass over the marks.
    pub(crate) fn begin_beside(&mut self, marks: &[u8])
        requires { (512 ≤ length marks.now) × (self.old.end ≡ 0) }
        ensures { (self.new.levels ≡ tab 512 (λ r. cond (marked marks.now r) 1 0)) × (self.new.end ≡ 0) }
    {
        cached_levels(marks, &mut self.levels);
    }

    // Gives row r level `to` and the queue's next place, if it has no level. Constant time.
    pub(crate) fn reach(&mut self, r: usize, to: u16)
        requires { (r < 512) × (1 < to) }
        ensures { Grows to (λ s. eqb s r) self.old self.new }
    {
        if self.levels[r] != 0 {
            return;
        }
        self.levels[r] = to;
        self.queue[self.end] = r as u16;
        self.end += 1;
    }
}
