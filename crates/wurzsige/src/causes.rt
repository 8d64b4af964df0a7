// Causes 7 and 12 of lent memory: too few words or rows, words that are no design's or of no record of what is held, and a state that is unlawful.
ghost use Rattle.std.specs.Prelude.{◌≡◌};
ghost use Rattle.words.specs.Words.{words_design};
ghost use Rattle.wurzsige.specs.Calls.{memory, memory_cause, arrays, CatalogIn};
ghost use Rattle.state.specs.Rows.{cells_of};

use guard::cause;
use state::Rows;
use words::{DESIGN_WORDS, design_from, design_narrow};

// Cause 7 or 12, and 0 if neither applies; then the arrays have the catalog of the rows, whatever stood there. One look at each word, and the cost of
// `guard::cause`.
pub(crate) fn memory_cause(
    rows: &Rows,
    catalog: &mut [u16; 16449],
    keys: &mut [u64; 4096],
    marks: &[u8],
    design: &[u32],
    held: &[u32],
) -> u8
    ensures { (result ≡ memory_cause (memory design.now held.now (cells_of rows.now) rows.now.tables.now marks.now))
        × (result ≡ 0 → CatalogIn (arrays catalog.new keys.new)
        (words_design design.now) (cells_of rows.now) rows.now.tables.now) }
{
    if design.len() < DESIGN_WORDS {
        return 7;
    }
    let d = design_from(design);
    let why = cause(d, rows, catalog, keys, marks, held);
    if why != 0 {
        return why;
    }
    if !design_narrow(design) {
        return 12;
    }
    0
}
