// Causes 7 and 12: whether the lent buffers are long enough, and whether the lent state is lawful.
ghost use Rattle.std.specs.Prelude.{◌≤◌, true, ◌&&◌, ◌≡◌, length};
ghost use Rattle.state.specs.declared.design.Design.{Design};
ghost use Rattle.state.specs.declared.held.Held.{Held};
ghost use Rattle.state.specs.HeldWords.{words_held, narrow_held};
ghost use Rattle.state.specs.Lent.{lent, long_enough, lawful, cause_of};
ghost use Rattle.state.specs.Meaning.{scheme_of};
ghost use Rattle.catalog.specs.Catalog.{Catalogued};
ghost use Rattle.state.specs.Rows.{database_in, cells_of, IsBacked};

use crate::distinct::is_distinct;
use catalog::{Index, build};
use lawful::{lawful_design, lawful_held, rows_stand};
use load::{load_held, marks_agree};
use state::{Design, HELD_WORDS, Rows, first_words};

// Whether the buffers have room for 512 rows. Constant time.
#[tactic(auto, unfolding(state::specs::Lent::long_enough))]
fn is_long_enough(rows: &Rows, marks: &[u8]) -> bool
    ensures { (d : Design) (h : Held) → result ≡ long_enough (lent d (cells_of rows.now) rows.now.tables.now marks.now h) }
{
    Design::CELLS <= rows.cells.len()
        && Design::CELLS <= rows.issues.len()
        && Design::ROWS <= rows.tables.len()
        && Design::ROWS <= marks.len()
}

// Whether cause 12 does not apply; where it does not, the arrays have the catalog of the rows then, whatever stood there. One look at the design, at each
// cell and at each held value, then the catalog, off which it is read whether unique columns have a value twice, and one load of all held values.
fn is_lawful_catalog(
    design: Design,
    rows: &Rows,
    catalog: &mut [u16; 16449],
    keys: &mut [u64; 4096],
    marks: &[u8],
    held: &[u32; 358],
) -> bool
    requires { IsBacked rows.now × (512 ≤ length marks.now) }
    ensures { (result ≡ narrow_held held.now && lawful (lent design (cells_of rows.now) rows.now.tables.now marks.now (words_held held.now)))
        × (result ≡ true → Catalogued (scheme_of design) (database_in rows.now)
        catalog.new keys.new) }
{
    if !lawful_design(design) {
        return false;
    }
    if !rows_stand(design, rows) {
        return false;
    }
    if !lawful_held(design, held) {
        return false;
    }
    build(design, rows, catalog, keys);
    if !is_distinct(design, rows.tables, catalog) {
        return false;
    }
    let mut levels = [0u16; 512];
    load_held(
        design,
        &Index { catalog, keys },
        held,
        Design::ROWS,
        &mut levels,
    );
    marks_agree(marks, &levels)
}

// Cause 7 or 12, whichever keeps the lent state from being worked on, and 0 if neither applies; then the arrays have the catalog of the rows. The cost of
// `is_lawful_catalog`.
pub fn cause(
    design: Design,
    rows: &Rows,
    catalog: &mut [u16; 16449],
    keys: &mut [u64; 4096],
    marks: &[u8],
    held: &[u32],
) -> u8
    ensures { (result ≡ cause_of (lent design (cells_of rows.now) rows.now.tables.now marks.now (words_held held.now)) held.now)
        × (result ≡ 0 → Catalogued (scheme_of design) (database_in rows.now)
        catalog.new keys.new) }
{
    if held.len() < HELD_WORDS {
        return 7;
    }
    if !is_long_enough(rows, marks) {
        return 7;
    }
    let own = first_words(held);
    if !is_lawful_catalog(design, rows, catalog, keys, marks, &own) {
        return 12;
    }
    0
}
