// Putting a row in and removing one, over a sound state with the catalog of its rows. A change that is refused costs its tests; any other mends the catalog in
// place. A row that comes loads what it leads to, if it is held or demanded. A row that goes and wasn't cached, or led to no other row, leaves the other marks as they
// are; else all that is held is loaded from nothing.
ghost use Rattle.std.specs.Prelude.{true, false, ◌≡◌, ℕ, ◌≤◌, ◌<◌, MatchOption, ltb, length, get_or, take};
ghost use Rattle.model.specs.Database.{Database};
ghost use Rattle.state.specs.Cells.{cells_in};
ghost use Rattle.state.specs.Design.{Backed, InRange};
ghost use Rattle.state.specs.Held.{Bounded};
ghost use Rattle.state.specs.HeldWords.{words_held};
ghost use Rattle.state.specs.Meaning.{answer_of, database_of, holding_of, scheme_of};
ghost use Rattle.state.specs.Lent.{lent, sound};
ghost use Rattle.state.specs.Changes.{free_row, put, remove, Changed};
ghost use Rattle.model.specs.Rounds.{leads};
ghost use Rattle.model.specs.Runs.{marked};
ghost use Rattle.finite.specs.Finite.{any, first_from};
ghost use Rattle.catalog.specs.Catalog.{Catalogued, Demands};
ghost use Rattle.change.specs.Replacing.{Coming, Leaving, Marking, Remarked, Replaced, called_at};
ghost use Rattle.catalog.specs.Index.{IsIndexed, IsCatalogued};

use crate::causes::{put_cause, remove_cause};
use crate::counting::{rows_came, rows_went};
use crate::storing::{free_row, store_row};
use catalog::{Index, first_row};
use lawful::operand_cell;
use load::{load_held, load_value, settle};
use mend::{put_in, take_out};
use probe::search;
use state::{Answer, Column, Design, Row, Rows, is_blank};

// Marks the smallest set for the tables as they now are, and counts the rows that come and go. A load of all that is held from nothing, and three passes over
// the marks.
fn remark(design: Design, index: &Index, marks: &mut [u8], held: &[u32; 358]) -> Answer
    requires in_range { InRange design × Bounded (words_held held.now) × (512 ≤ length marks.old) }
    requires catalogued { (D : Database) × IsCatalogued (scheme_of design) D index.now }
    ensures { (D : Database) → IsCatalogued (scheme_of design) D index.now
        → Remarked (scheme_of design) D (words_held held.now) marks.old (answer_of result) marks.new }
{
    let mut levels = [0u16; 512];
    load_held(design, index, held, Design::ROWS, &mut levels);
    let came = rows_came(marks, &levels);
    let went = rows_went(marks, &levels);
    settle(marks, &levels);
    Answer::Changed(came, went)
}

// Whether a constraint demands a row of row r. One look for each constraint.
fn leads_on(d: Design, catalog: &[u16; 16449], r: usize) -> bool
    requires { InRange d × (r < 512) }
    ensures { (D : Database) → Demands (scheme_of d) D catalog.now
        → result ≡ any d.constraints (λ i. ltb (first_from 512 (leads D ((scheme_of d).constraint i) r) 0) 512) }
{
    (0..d.constraints).any(|i| first_row(catalog, i, r) < Design::ROWS)
}

// Marks the smallest set after row r went. Where it wasn't cached, all marks stay; where it led to no other row, all but its own. Else the cost is that of `remark`.
fn unmark(
    design: Design,
    index: &Index,
    marks: &mut [u8],
    held: &[u32; 358],
    r: usize,
    on: bool,
) -> Answer
    requires r_bound { (r < 512) × InRange design × Bounded (words_held held.now) × (512 ≤ length marks.old) }
    requires catalogued { (D : Database) × IsCatalogued (scheme_of design) D index.now }
    ensures { (E : Database) (F : Database) → IsCatalogued (scheme_of design) E index.now
        → Leaving (scheme_of design) E F (words_held held.now) r on marks.old
        → Remarked (scheme_of design) E (words_held held.now) marks.old (answer_of result) marks.new }
{
    if marks[r] != 1 {
        return Answer::Changed(0, 0);
    }
    if on {
        return remark(design, index, marks, held);
    }
    marks[r] = 0;
    Answer::Changed(0, 1)
}

// Whether x's value in column c is held there, or a cached row demands the rows that have it there: by the lowest ground that a probe of it has, 1 or 2. The cost is
// that of the probe.
fn is_called(design: Design, index: &Index, marks: &[u8], held: &[u32; 358], x: Row, c: u8) -> bool
    requires table_bound { (x.table < 8) × (c < 8) × InRange design × Bounded (words_held held.now) × (512 ≤ length marks.now) }
    requires indexed { (D : Database) × IsIndexed D index.now }
    ensures { (D : Database) → IsIndexed D index.now
        → result ≡ called_at (scheme_of design) D (holding_of (words_held held.now)) (marked (take 512 marks.now)) x c }
{
    let v = operand_cell(x, usize::from(c));
    if is_blank(v) {
        return false;
    }
    let k = Column {
        table: x.table,
        place: c,
    };
    let found = search(design, index, marks, held, k, v);
    found.ground == 1 || found.ground == 2
}

// The first column in which x is called for. Eight such looks at the most.
fn call_at(design: Design, index: &Index, marks: &[u8], held: &[u32; 358], x: Row) -> Option<u8>
    requires table_bound { (x.table < 8) × InRange design × Bounded (words_held held.now) × (512 ≤ length marks.now) }
    requires indexed { (D : Database) × IsIndexed D index.now }
    ensures { (D : Database) → IsIndexed D index.now
        → let p = called_at (scheme_of design) D (holding_of (words_held held.now)) (marked (take 512 marks.now)) x in
        MatchOption result ((c : ℕ) → c < 8 → p c ≡ false) (λ c. (c < 8) × (p c ≡ true) × ((a : ℕ) → a < c → p a ≡ false)) }
{
    (0..8).find(|&c| is_called(design, index, marks, held, x, c))
}

// Marks the smallest set after x came. Where nothing calls for it, all marks stay. Else the value for which it is called for is loaded beside the cached rows, of
// which no other row is missing: the walk of its rows, and a step for each row that comes and each constraint.
fn mark_new(design: Design, index: &Index, marks: &mut [u8], held: &[u32; 358], x: Row) -> Answer
    requires table_bound { (x.table < 8) × InRange design × Bounded (words_held held.now) × (512 ≤ length marks.old) }
    requires catalogued { (D : Database) × IsCatalogued (scheme_of design) D index.now }
    ensures { (E : Database) (F : Database) (r : ℕ) → IsCatalogued (scheme_of design) F index.now
        → Coming (scheme_of design) E F (words_held held.now) r x marks.old
        → Remarked (scheme_of design) F (words_held held.now) marks.old (answer_of result) marks.new }
{
    let Some(c) = call_at(design, index, marks, held, x) else {
        return Answer::Changed(0, 0);
    };
    let k = Column {
        table: x.table,
        place: c,
    };
    let v = operand_cell(x, usize::from(c));
    let mut levels = [0u16; 512];
    let grown = load_value(design, index, marks, k, v, &mut levels);
    settle(marks, &levels);
    Answer::Changed(grown.rows, 0)
}

// Stores x at the free number r, mends the catalog, and marks the smallest set. The cost is that of `put_in` and `mark_new`.
fn come(
    design: Design,
    cells: &mut [u32],
    issues: &mut [u8],
    tables: &mut [u8],
    catalog: &mut [u16; 16449],
    keys: &mut [u64; 4096],
    marks: &mut [u8],
    held: &[u32; 358],
    r: usize,
    x: Row,
) -> Answer
    requires r_bound { (r < 512) × InRange design × Bounded (words_held held.now) × Backed (cells_in cells.old issues.old) tables.old × (512 ≤ length marks.old) }
    requires table_bound { (x.table < 8) × ((database_of (cells_in cells.old issues.old) tables.old).live r ≡ false)
        × Marking (scheme_of design) (database_of (cells_in cells.old issues.old) tables.old) (words_held held.now) marks.old
        × Catalogued (scheme_of design) (database_of (cells_in cells.old issues.old) tables.old) catalog.old keys.old }
    ensures replaced { Replaced (lent design (cells_in cells.old issues.old) tables.old marks.old (words_held held.now))
        r x (answer_of result)
        (lent design (cells_in cells.new issues.new) tables.new marks.new (words_held held.now)) }
    ensures catalogued { Catalogued (scheme_of design) (database_of (cells_in cells.new issues.new) tables.new) catalog.new keys.new }
{
    store_row(cells, issues, tables, r, x);
    let rows = Rows {
        cells,
        issues,
        tables,
    };
    put_in(design, &rows, catalog, keys, r);
    mark_new(design, &Index { catalog, keys }, marks, held, x)
}

// Mends the catalog for the rows without row r, frees its number, and marks the smallest set. The cost is that of `take_out` and `unmark`.
fn go(
    design: Design,
    cells: &mut [u32],
    issues: &mut [u8],
    tables: &mut [u8],
    catalog: &mut [u16; 16449],
    keys: &mut [u64; 4096],
    marks: &mut [u8],
    held: &[u32; 358],
    r: usize,
) -> Answer
    requires r_bound { (r < 512) × InRange design × Bounded (words_held held.now) × Backed (cells_in cells.old issues.old) tables.old × (512 ≤ length marks.old) }
    requires r_bound_2 { (get_or tables.old r 0 < 8) × Marking (scheme_of design) (database_of (cells_in cells.old issues.old) tables.old) (words_held held.now) marks.old
        × Catalogued (scheme_of design) (database_of (cells_in cells.old issues.old) tables.old) catalog.old keys.old }
    ensures replaced { Replaced (lent design (cells_in cells.old issues.old) tables.old marks.old (words_held held.now))
        r free_row (answer_of result)
        (lent design (cells_in cells.new issues.new) tables.new marks.new (words_held held.now)) }
    ensures catalogued { Catalogued (scheme_of design) (database_of (cells_in cells.new issues.new) tables.new) catalog.new keys.new }
{
    let on = leads_on(design, catalog, r);
    let rows = Rows {
        cells,
        issues,
        tables,
    };
    take_out(design, &rows, catalog, keys, r);
    store_row(cells, issues, tables, r, free_row());
    unmark(design, &Index { catalog, keys }, marks, held, r, on)
}

// Puts the row x in at number r.
pub fn put_lawful(
    design: Design,
    cells: &mut [u32],
    issues: &mut [u8],
    tables: &mut [u8],
    catalog: &mut [u16; 16449],
    keys: &mut [u64; 4096],
    marks: &mut [u8],
    held: &[u32; 358],
    r: u16,
    x: Row,
) -> Answer
    requires { (sound (lent design (cells_in cells.old issues.old) tables.old marks.old (words_held held.now)) ≡ true)
        × Catalogued (scheme_of design) (database_of (cells_in cells.old issues.old) tables.old) catalog.old keys.old }
    ensures changed { Changed (lent design (cells_in cells.old issues.old) tables.old marks.old (words_held held.now))
        (put r x) (answer_of result)
        (lent design (cells_in cells.new issues.new) tables.new marks.new (words_held held.now)) }
    ensures catalogued { Catalogued (scheme_of design) (database_of (cells_in cells.new issues.new) tables.new) catalog.new keys.new }
{
    let n = r as usize;
    if let Some(why) = put_cause(design, tables, &Index { catalog, keys }, n, x) {
        return Answer::Refused(why);
    }
    come(
        design, cells, issues, tables, catalog, keys, marks, held, n, x,
    )
}

// Removes the row at number r.
pub fn remove_lawful(
    design: Design,
    cells: &mut [u32],
    issues: &mut [u8],
    tables: &mut [u8],
    catalog: &mut [u16; 16449],
    keys: &mut [u64; 4096],
    marks: &mut [u8],
    held: &[u32; 358],
    r: u16,
) -> Answer
    requires { (sound (lent design (cells_in cells.old issues.old) tables.old marks.old (words_held held.now)) ≡ true)
        × Catalogued (scheme_of design) (database_of (cells_in cells.old issues.old) tables.old) catalog.old keys.old }
    ensures changed { Changed (lent design (cells_in cells.old issues.old) tables.old marks.old (words_held held.now))
        (remove r) (answer_of result)
        (lent design (cells_in cells.new issues.new) tables.new marks.new (words_held held.now)) }
    ensures catalogued { Catalogued (scheme_of design) (database_of (cells_in cells.new issues.new) tables.new) catalog.new keys.new }
{
    let n = r as usize;
    if let Some(why) = remove_cause(design, tables, n) {
        return Answer::Refused(why);
    }
    go(design, cells, issues, tables, catalog, keys, marks, held, n)
}
