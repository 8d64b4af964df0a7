// What stands at a place of the design. A number past the last place reads as an unused one, so that nothing is asked of it. Constant time.
ghost use Rattle.std.specs.Prelude.{◌≡◌};
ghost use Rattle.state.specs.Design.{filling_at, table_at};

use crate::design::{Design, Filling, Table};

// Table number t, or one without columns.
pub fn table_at(d: Design, t: usize) -> Table
    ensures { result ≡ table_at d t }
{
    d.table.get(t).copied().unwrap_or_default()
}

// Filling number f, or one that is all 0.
pub fn filling_at(d: Design, f: usize) -> Filling
    ensures { result ≡ filling_at d f }
{
    d.filling.get(f).copied().unwrap_or_default()
}
