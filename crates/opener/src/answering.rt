// The question over a sound state.
ghost use Rattle.std.specs.Prelude.{true, ◌≡◌};
ghost use Rattle.model.specs.Runs as Runs;
ghost use Rattle.state.specs.HeldWords.{words_held};
ghost use Rattle.state.specs.Meaning.{answer_of, cell_of, column_of, scheme_of};
ghost use Rattle.state.specs.Lent.{lent, sound, answer_at};
ghost use Rattle.state.specs.Rows.{database_in, cells_of};
ghost use Rattle.catalog.specs.Index.{IsCatalogued};

use crate::leading::leading_rows;
use crate::reading::lowest_opener;
use catalog::Index;
use lawful::is_column;
use probe::search;
use state::{Answer, Cell, Column, Design, Rows, is_numberless};

// Whether the probe has a ground, or else the lowest filling, number and issue whose reference would give it one. The probe's cost, and without a ground
// three steps for each constraint and row number, one load, and one pass over the row numbers for each filling.
pub fn opener_lawful(
    design: Design,
    rows: &Rows,
    index: &Index,
    marks: &[u8],
    held: &[u32; 358],
    k: Column,
    v: Cell,
) -> Answer
    requires held_value { sound (lent design (cells_of rows.now) rows.now.tables.now marks.now (words_held held.now)) ≡ true }
    requires catalogued { IsCatalogued (scheme_of design) (database_in rows.now) index.now }
    ensures { answer_of result ≡ answer_at (lent design (cells_of rows.now) rows.now.tables.now marks.now (words_held held.now))
        (Runs.ask (Runs.opener (column_of k) (cell_of v))) }
{
    rows.note_types();
    if !is_column(design, k) {
        return Answer::Refused(5);
    }
    if is_numberless(v) {
        return Answer::Refused(9);
    }
    let found = search(design, index, marks, held, k, v);
    if found.ground != 0 {
        return Answer::Open;
    }
    let mut levels = [0u16; 512];
    leading_rows(design, index, k, v, &mut levels);
    lowest_opener(design, rows, &levels, k, v)
}
