// Putting a row in and removing one, for whatever is lent: causes 7 and 12 first. The test for cause 12 (one look at the design, at each cell and at all that
// is held, the catalog, and a reload), then the cost of the change.
ghost use Rattle.state.specs.Cells.{cells_in};
ghost use Rattle.state.specs.HeldWords.{words_held};
ghost use Rattle.state.specs.Meaning.{answer_of};
ghost use Rattle.state.specs.Lent.{lent};
ghost use Rattle.state.specs.Changes.{put, remove};
ghost use Rattle.change.specs.Replacing.{ChangedWords};

use crate::changing::{put_lawful, remove_lawful};
use guard::cause;
use state::{Answer, Design, Row, Rows, first_words};

// Puts the row x in at number r.
pub fn put_row(
    design: Design,
    cells: &mut [u32],
    issues: &mut [u8],
    tables: &mut [u8],
    marks: &mut [u8],
    held: &[u32],
    r: u16,
    x: Row,
) -> Answer
    ensures { ChangedWords (lent design (cells_in cells.old issues.old) tables.old marks.old (words_held held.now)) held.now
        (put r x) (answer_of result)
        (lent design (cells_in cells.new issues.new) tables.new marks.new (words_held held.now)) }
{
    let mut catalog = [0u16; 16449];
    let mut keys = [0u64; 4096];
    let rows = Rows {
        cells,
        issues,
        tables,
    };
    let why = cause(design, &rows, &mut catalog, &mut keys, marks, held);
    if why != 0 {
        return Answer::Refused(why);
    }
    let own = first_words(held);
    put_lawful(
        design,
        cells,
        issues,
        tables,
        &mut catalog,
        &mut keys,
        marks,
        &own,
        r,
        x,
    )
}

// Removes the row at number r.
pub fn remove_row(
    design: Design,
    cells: &mut [u32],
    issues: &mut [u8],
    tables: &mut [u8],
    marks: &mut [u8],
    held: &[u32],
    r: u16,
) -> Answer
    ensures { ChangedWords (lent design (cells_in cells.old issues.old) tables.old marks.old (words_held held.now)) held.now
        (remove r) (answer_of result)
        (lent design (cells_in cells.new issues.new) tables.new marks.new (words_held held.now)) }
{
    let mut catalog = [0u16; 16449];
    let mut keys = [0u64; 4096];
    let rows = Rows {
        cells,
        issues,
        tables,
    };
    let why = cause(design, &rows, &mut catalog, &mut keys, marks, held);
    if why != 0 {
        return Answer::Refused(why);
    }
    let own = first_words(held);
    remove_lawful(
        design,
        cells,
        issues,
        tables,
        &mut catalog,
        &mut keys,
        marks,
        &own,
        r,
    )
}
