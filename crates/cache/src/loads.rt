// Loads on lent rows, by their catalog, and the marks that they leave: of one value or range more, and of all that is held from nothing.
ghost use Rattle.std.specs.Prelude.{◌<◌, ◌≤◌, ◌≡◌, length};
ghost use Rattle.model.specs.Answers as Answers;
ghost use Rattle.model.specs.Database.{Database};
ghost use Rattle.model.specs.Rounds.{added_rows, later_rounds};
ghost use Rattle.model.specs.Holding.{wanted};
ghost use Rattle.model.specs.Runs.{marked};
ghost use Rattle.state.specs.Design.{InRange};
ghost use Rattle.state.specs.Held.{Bounded};
ghost use Rattle.state.specs.HeldWords.{words_held};
ghost use Rattle.state.specs.Meaning.{answer_of, scheme_of, holding_of};
ghost use Rattle.load.specs.Ended.{Covers};
ghost use Rattle.cache.specs.Loads.{value_levels, span_levels, held_levels, settled, gone_rows};
ghost use Rattle.catalog.specs.Index.{IsCatalogued};

use catalog::Index;
use load::{load_held, load_range, load_value, rows_marked, settle};
use state::{Answer, Cell, Column, Design, Range};

// Loads one value more and marks the rows. Two passes over the marks, a search of the directory, then a step for each row that is added and each
// constraint.
pub(crate) fn mark_value(
    design: Design,
    index: &Index,
    marks: &mut [u8],
    column: Column,
    value: Cell,
) -> Answer
    requires in_range { InRange design × (512 ≤ length marks.old) × (column.table < 8) × (column.place < 8) }
    requires catalogued { (D : Database) × IsCatalogued (scheme_of design) D index.now }
    ensures { (D : Database) → IsCatalogued (scheme_of design) D index.now
        → (answer_of result ≡ Answers.loaded (added_rows D (value_levels design D marks.old column value)) (later_rounds D (value_levels design D marks.old column value)))
        × (marks.new ≡ settled D (value_levels design D marks.old column value) marks.old) }
{
    let mut levels = [0u16; 512];
    let grown = load_value(design, index, marks, column, value, &mut levels);
    settle(marks, &levels);
    Answer::Loaded(grown.rows, grown.rounds)
}

// Loads one range more and marks the rows. Two passes over the marks, a search of the directory and the walk of the range's values, then a step for each row that
// is added and each constraint. Beside `mark_value`, and not one function of a closure that loads: the clause of that closure would be longer than what the two share.
pub(crate) fn mark_range(
    design: Design,
    index: &Index,
    marks: &mut [u8],
    column: Column,
    range: Range,
) -> Answer
    requires in_range { InRange design × (512 ≤ length marks.old) × (column.table < 8) × (column.place < 8) }
    requires catalogued { (D : Database) × IsCatalogued (scheme_of design) D index.now }
    ensures { (D : Database) → IsCatalogued (scheme_of design) D index.now
        → (answer_of result ≡ Answers.loaded (added_rows D (span_levels design D marks.old column range)) (later_rounds D (span_levels design D marks.old column range)))
        × (marks.new ≡ settled D (span_levels design D marks.old column range) marks.old) }
{
    let mut levels = [0u16; 512];
    let grown = load_range(design, index, marks, column, range, &mut levels);
    settle(marks, &levels);
    Answer::Loaded(grown.rows, grown.rounds)
}

// Loads the held values from nothing, marks the rows that they reach, and counts those that were marked and went: no row is reached that was not marked,
// so that the load stops once as many are reached as were. Two passes over the marks, a search of the directory for each held value, then a step for each
// row that is reached and each constraint.
pub(crate) fn mark_held(
    design: Design,
    index: &Index,
    marks: &mut [u8],
    held: &[u32; 358],
) -> Answer
    requires in_range { InRange design × (512 ≤ length marks.old) × Bounded (words_held held.now) }
    requires catalogued { (D : Database) × IsCatalogued (scheme_of design) D index.now
        × Covers (scheme_of design) D (wanted (scheme_of design) D (holding_of (words_held held.now))) (marked marks.old) }
    ensures { (D : Database) → IsCatalogued (scheme_of design) D index.now
        → Covers (scheme_of design) D (wanted (scheme_of design) D (holding_of (words_held held.now))) (marked marks.old)
        → (answer_of result ≡ Answers.dropped (gone_rows D (held_levels design D (words_held held.now)) marks.old))
        × (marks.new ≡ settled D (held_levels design D (words_held held.now)) marks.old) }
{
    let cached = rows_marked(marks);
    let mut levels = [0u16; 512];
    let rows = load_held(design, index, held, cached, &mut levels);
    settle(marks, &levels);
    Answer::Dropped(cached - rows)
}
