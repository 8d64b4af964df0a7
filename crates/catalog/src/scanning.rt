// Finding a value row by row: for rows and columns of tables that no design has.
ghost use Rattle.std.specs.Prelude.{◌≡◌, ◌≤◌, ◌<◌};
ghost use Rattle.model.specs.Database.{has};
ghost use Rattle.state.specs.Meaning.{cell_of, column_of};
ghost use Rattle.finite.specs.Finite.{first_from};
ghost use Rattle.state.specs.Rows.{database_in, IsBacked};

use state::{Cell, Column, Rows};

// The first row from `from` on that has the value v in column k; 512 if none has. One step for each row.
pub(crate) fn scan(rows: &Rows, k: Column, v: Cell, from: usize) -> usize
    requires { (from ≤ 512) × (k.place < 8) × IsBacked rows.now }
    ensures { (result ≡ first_from 512 (has (database_in rows.now) (column_of k)
        (cell_of v)) from) × (result ≤ 512) }
{
    (from..512).find(|&r| rows.has(k, v, r)).unwrap_or(512)
}
