// How many bytes a design is written in.
ghost use Rattle.std.specs.Prelude.{◌≡◌, ◌&&◌, List, ℕ, ◌≤◌, ◌<◌, length};
ghost use Rattle.finite.specs.Finite.{count};
ghost use Rattle.state.specs.Cells.{Cells, cells_in};
ghost use Rattle.state.specs.Design.{InRange};
ghost use Rattle.state.specs.Meaning.{database_of};
ghost use Rattle.format.specs.Writing.{design_bytes, is_issued};

use format::{is_issued, place_after};
use state::{Design, is_live};

// How many numbers have a row, and how many a row that has an issue. One look at each number, and eight at each row.
fn live_rows(tables: &[u8]) -> usize
    requires { 512 ≤ length tables.now }
    ensures { (cells : Cells) → result ≡ count 512 (database_of cells tables.now).live }
{
    (0..Design::ROWS).filter(|&r| is_live(tables, r)).count()
}

fn is_live_issued(issues: &[u8], tables: &[u8], r: usize) -> bool
    requires { (r < 512) × (4096 ≤ length issues.now) × (512 ≤ length tables.now) }
    ensures { (numbers : List ℕ) → result ≡ (database_of (cells_in numbers issues.now) tables.now).live r && is_issued (cells_in numbers issues.now) r }
{
    is_live(tables, r) && is_issued(issues, r)
}

fn live_issued_rows(issues: &[u8], tables: &[u8]) -> usize
    requires { (4096 ≤ length issues.now) × (512 ≤ length tables.now) }
    ensures { (numbers : List ℕ) → result ≡ count 512 (λ r. (database_of (cells_in numbers issues.now) tables.now).live r && is_issued (cells_in numbers issues.now) r) }
{
    (0..Design::ROWS)
        .filter(|&r| is_live_issued(issues, tables, r))
        .count()
}

// How many bytes the design is written in: at most 21,697. The cost of `live_issued_rows`.
pub fn design_length(d: Design, issues: &[u8], tables: &[u8]) -> usize
    requires { InRange d × (4096 ≤ length issues.now) × (512 ≤ length tables.now) }
    ensures { (numbers : List ℕ) → result ≡ length (design_bytes d (cells_in numbers issues.now) tables.now) }
{
    place_after(d, live_rows(tables), live_issued_rows(issues, tables)) + 1
}
