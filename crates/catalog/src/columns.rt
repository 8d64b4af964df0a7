// Listing all columns.
ghost use Rattle.std.specs.Prelude.{◌≡◌, ℕ, length};
ghost use Rattle.catalog.specs.Columns.{Columns};
ghost use Rattle.state.specs.Rows.{database_in, IsBacked};

use crate::listing::add_column;
use state::{Column, Rows};

// Lists the values of the 64 columns one after the other, and sets the next rows of their cells. One turn for each column and row number.
pub(crate) fn add_columns(
    rows: &Rows,
    keys: &mut [u64; 4096],
    heads: &mut [u16; 4096],
    starts: &mut [u16; 65],
    next: &mut [u16; 4096],
)
    requires backed { IsBacked rows.now }
    requires keys_len { (length keys.old ≡ 4096) × (length heads.old ≡ 4096) × (length starts.old ≡ 65) × (length next.old ≡ 4096) }
    ensures { (m : ℕ) × Columns (database_in rows.now) 64 m
        keys.new heads.new starts.new next.new }
{
    starts[0] = 0;
    let mut m: usize = 0;
    for n in 0..64usize {
        let k = Column {
            table: (n / 8) as u8,
            place: (n % 8) as u8,
        };
        m = add_column(rows, k, m, keys, heads, next);
        starts[n + 1] = m as u16;
    }
}
