// Cause 6 through the catalog: a row repeats an earlier row's value in a column exactly if it is the next row of some row there, so the lowest next
// row in a unique column is the first row that repeats a value.
ghost use Rattle.std.specs.Prelude.{◌≡◌, ◌*◌, ◌≤◌, ◌<◌, length};
ghost use Rattle.std.specs.Option.{MatchOption};
ghost use Rattle.model.specs.Database.{Database};
ghost use Rattle.catalog.specs.Catalog.{nexts, Links};
ghost use Rattle.format.specs.Admitting.{unique_next, lowest};

use state::{Column, Design};

// The next row of cell number x in its column, if the column is unique; 512 if it isn't or there is none, as `next_row` tells it. Constant time.
fn unique_next(d: Design, tables: &[u8], catalog: &[u16; 16449], x: usize) -> usize
    requires { (x < 4096) × (512 ≤ length tables.now) }
    ensures { (D : Database) → Links D catalog.now → result ≡ unique_next d tables.now (nexts D) x }
{
    let k = Column {
        table: tables[x / 8],
        place: (x % 8) as u8,
    };
    if !lawful::is_unique(d, k) {
        return 512;
    }
    catalog::next_row(catalog, x / 8, x % 8)
}

// The lowest next row of a cell of the first rows in a unique column; 512 if there is none. One look at each cell of the rows.
fn lowest_next(d: Design, rows: usize, tables: &[u8], catalog: &[u16; 16449]) -> usize
    requires { (rows ≤ 512) × (512 ≤ length tables.now) }
    ensures { (D : Database) → Links D catalog.now → result ≡ lowest (8 * rows) (unique_next d tables.now (nexts D)) }
{
    (0..8 * rows).fold(Design::ROWS, |r, x| {
        r.min(unique_next(d, tables, catalog, x))
    })
}

// The first of so many rows that repeats a value of an earlier row in a unique column. One look at each cell of the rows.
pub(crate) fn first_repeat(
    d: Design,
    rows: usize,
    tables: &[u8],
    catalog: &[u16; 16449],
) -> Option<usize>
    requires { (rows ≤ 512) × (512 ≤ length tables.now) }
    ensures { (D : Database) → Links D catalog.now → MatchOption result (rows ≤ lowest (8 * rows) (unique_next d tables.now (nexts D)))
        (λ r. (r ≡ lowest (8 * rows) (unique_next d tables.now (nexts D))) × (r < rows)) }
{
    let r = lowest_next(d, rows, tables, catalog);
    if r < rows { Some(r) } else { None }
}
