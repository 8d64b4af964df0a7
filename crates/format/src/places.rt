// Where a row's command begins in the script of a design, and whether it has issues. Reading needs them to name the row that repeats a value, writing to tell how
// much it will write.
ghost use Rattle.std.specs.Prelude.{◌≡◌, List, ℕ, ◌≤◌, ◌<◌, length};
ghost use Rattle.finite.specs.Finite.{count};
ghost use Rattle.state.specs.Cells.{cells_in};
ghost use Rattle.state.specs.Design.{InRange};
ghost use Rattle.format.specs.Writing.{is_issued, place_after, row_place};

use state::Design;

// Whether one of row r's issues isn't 0. One look at each.
pub fn is_issued(issues: &[u8], r: usize) -> bool
    requires { (r < 512) × (4096 ≤ length issues.now) }
    ensures { (numbers : List ℕ) → result ≡ is_issued (cells_in numbers issues.now) r }
{
    (0..Design::COLUMNS).any(|c| issues[8 * r + c] != 0)
}

// How many of the first n rows have an issue that isn't 0. Eight looks at each.
fn issued_rows(issues: &[u8], n: usize) -> usize
    requires { (n ≤ 512) × (4096 ≤ length issues.now) }
    ensures { (numbers : List ℕ) → result ≡ count n (is_issued (cells_in numbers issues.now)) }
{
    (0..n).filter(|&r| is_issued(issues, r)).count()
}

// Where the written design goes on behind m rows, k of them with issues. Constant time.
pub fn place_after(d: Design, m: usize, k: usize) -> usize
    requires { InRange d × (m ≤ 512) × (k ≤ 512) }
    ensures { result ≡ place_after d m k }
{
    3 * d.tables + 5 * d.constraints + 11 * d.fillings + 34 * m + 8 * k
}

// Where row r's command begins in the written design if all numbers before r have a row. The cost of `issued_rows`.
pub(crate) fn row_place(d: Design, issues: &[u8], r: usize) -> usize
    requires { InRange d × (r ≤ 512) × (4096 ≤ length issues.now) }
    ensures { (numbers : List ℕ) → result ≡ row_place d (cells_in numbers issues.now) r }
{
    place_after(d, r, issued_rows(issues, r))
}
