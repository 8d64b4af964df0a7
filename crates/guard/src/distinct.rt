// Whether unique columns have no value twice, read off the catalog: one has exactly if some row has a next row there.
ghost use Rattle.std.specs.Prelude.{◌<◌, ◌≤◌, ◌≡◌, length};
ghost use Rattle.finite.specs.Finite.{any};
ghost use Rattle.model.specs.Database.{Database};
ghost use Rattle.catalog.specs.Catalog.{Links};
ghost use Rattle.guard.specs.Distinct.{linked_at, distinct};

use catalog::next_row;
use lawful::has_bit;
use state::{Design, table_at};

// Whether column c is unique, by the bits of its table, and row r has a next row there. Constant time.
fn links_at(unique: u8, catalog: &[u16; 16449], r: usize, c: u8) -> bool
    requires { (r < 512) × (c < 8) }
    ensures { (D : Database) → Links D catalog.now → result ≡ linked_at unique D r c }
{
    has_bit(unique, c) && next_row(catalog, r, usize::from(c)) < 512
}

// Whether row r has a next row in one of the unique columns. One look at each of its 8 cells.
fn row_links(unique: u8, catalog: &[u16; 16449], r: usize) -> bool
    requires { r < 512 }
    ensures { (D : Database) → Links D catalog.now → result ≡ any 8 (linked_at unique D r) }
{
    (0..8).any(|c| links_at(unique, catalog, r, c))
}

// Whether no row has a next row in a unique column; a number without a row has no table, and so no unique column. One look at each of the 4,096 cells.
pub(crate) fn is_distinct(d: Design, tables: &[u8], catalog: &[u16; 16449]) -> bool
    requires { 512 ≤ length tables.now }
    ensures { (D : Database) → Links D catalog.now → result ≡ distinct d tables.now D }
{
    (0..Design::ROWS).all(|r| !row_links(table_at(d, usize::from(tables[r])).unique, catalog, r))
}
