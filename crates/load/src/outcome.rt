// What a load answers and leaves, read off its levels.
ghost use Rattle.std.specs.Prelude.{◌≡◌, cond, ◌++◌, ◌≤◌, eqb, ltb, length, get_or, drop};
ghost use Rattle.finite.specs.Finite.{count, all, tab};
ghost use Rattle.model.specs.Rounds.{reached};
ghost use Rattle.model.specs.Runs.{marked};

// How many rows a load added, and how many of its later rounds added one.
#[derive(Clone, Copy)]
pub struct Growth {
    pub rows: usize,
    pub rounds: usize,
}

// The mark of a row of this level: 1 if it is reached. Constant time.
fn settled_mark(l: u16) -> u8
    ensures { result ≡ cond (ltb 0 l) 1 0 }
{
    u8::from(0 < l)
}

// Marks the rows that are reached and no others; what lies past the 512 marks stays. One pass over the row numbers.
pub fn settle(marks: &mut [u8], levels: &[u16; 512])
    requires { (512 ≤ length marks.old) × (length levels.now ≡ 512) }
    ensures { marks.new ≡ tab 512 (λ r. cond (reached levels.now r) 1 0) ++ drop 512 marks.old }
{
    for (r, &level) in levels.iter().enumerate() {
        marks[r] = settled_mark(level);
    }
}

// How many rows are marked. One pass over the row numbers.
pub fn rows_marked(marks: &[u8]) -> usize
    requires { 512 ≤ length marks.now }
    ensures { result ≡ count 512 (marked marks.now) }
{
    let mut n: usize = 0;
    // no filter and count: the compiler makes one loop of this that takes many marks at a time, and of those one that takes them one by one
    for &mark in &marks[..512] {
        if mark == 1 {
            n += 1;
        }
    }
    n
}

// Whether the marks are 1 on the reached rows and 0 on the others. One pass over the row numbers.
pub fn marks_agree(marks: &[u8], levels: &[u16; 512]) -> bool
    requires { (512 ≤ length marks.now) × (length levels.now ≡ 512) }
    ensures { result ≡ all 512 (λ r. eqb (get_or marks.now r 0) (cond (reached levels.now r) 1 0)) }
{
    (0..512usize).all(|r| marks[r] == settled_mark(levels[r]))
}
