// How many rows come and how many go, where the marks become those of a load. One pass over the row numbers each.
ghost use Rattle.std.specs.Prelude.{◌≡◌, not, ◌&&◌, ◌≤◌, length};
ghost use Rattle.finite.specs.Finite.{count};
ghost use Rattle.model.specs.Rounds.{reached};
ghost use Rattle.model.specs.Runs.{marked};

// The rows that come: they are reached and weren't marked.
pub(crate) fn rows_came(marks: &[u8], levels: &[u16; 512]) -> usize
    requires { 512 ≤ length marks.now }
    ensures { result ≡ count 512 (λ r. reached levels.now r && not (marked marks.now r)) }
{
    (0..512).filter(|&r| 0 < levels[r] && marks[r] != 1).count()
}

// The rows that go: they were marked and aren't reached.
pub(crate) fn rows_went(marks: &[u8], levels: &[u16; 512]) -> usize
    requires { 512 ≤ length marks.now }
    ensures { result ≡ count 512 (λ r. marked marks.now r && not (reached levels.now r)) }
{
    (0..512)
        .filter(|&r| marks[r] == 1 && levels[r] == 0)
        .count()
}
