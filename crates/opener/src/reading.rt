// The lowest value that would open a query, read off the levels of the load along the constraints turned round.
ghost use Rattle.std.specs.Prelude.{◌≡◌, ℕ, ◌≤◌, ◌<◌};
ghost use Rattle.model.specs.Cell as Model·cell;
ghost use Rattle.model.specs.Rounds.{reached};
ghost use Rattle.state.specs.Design.{InRange, filling_at};
ghost use Rattle.state.specs.Meaning.{answer_of, cell_of, column_of, database_of, filling_of, scheme_of};
ghost use Rattle.opener.specs.Reading as Reading;
ghost use Rattle.state.specs.Rows.{database_in, cells_of, IsBacked};

use lawful::is_candidate;
use state::{Answer, Cell, Column, Design, Filling, Rows, cell_at, same_column};

// Whether a stands before b, by number, then issue. Constant time, as are the next three.
fn is_before(a: Cell, b: Cell) -> bool
    ensures { result ≡ Reading.is_before (cell_of a) (cell_of b) }
{
    (a.number, a.issue) < (b.number, b.issue)
}

// The lower of the two, or the one that there is.
fn lower(a: Option<Cell>, b: Option<Cell>) -> Option<Cell>
    ensures { (x y : Model·cell.Cell) → Reading.Reads a x → Reading.Reads b y → Reading.Reads result (Reading.lower x y) }
{
    let Some(x) = a else {
        return b;
    };
    let Some(y) = b else {
        return a;
    };
    if is_before(y, x) {
        return b;
    }
    a
}

// The probed value, if the filling is of its column and it is a candidate.
fn own_value(f: Filling, k: Column, v: Cell) -> Option<Cell>
    requires { 1 ≤ f.low }
    ensures { Reading.Reads result (Reading.own_value (column_of k) (cell_of v) (filling_of f)) }
{
    if !same_column(f.column, k) {
        return None;
    }
    is_candidate(f, v).then_some(v)
}

// Row r's value in the filling's column, if the row has a level and the value is a candidate.
fn value_in(rows: &Rows, levels: &[u16; 512], f: Filling, r: usize) -> Option<Cell>
    requires { (r < 512) × (f.column.place < 8) × IsBacked rows.now × (1 ≤ f.low) }
    ensures { Reading.Reads result (Reading.value_in (database_in rows.now)
        (reached levels.now) (filling_of f) r) }
{
    if levels[r] == 0 {
        return None;
    }
    let k = f.column;
    if rows.tables[r] != k.table {
        return None;
    }
    let w = cell_at(rows.cells, rows.issues, r, k.place as usize);
    is_candidate(f, w).then_some(w)
}

// The lowest of the filling's values. One pass over the row numbers.
fn lowest_value(rows: &Rows, levels: &[u16; 512], f: Filling, k: Column, v: Cell) -> Option<Cell>
    requires { (f.column.place < 8) × IsBacked rows.now × (1 ≤ f.low) }
    ensures { Reading.Reads result (Reading.lowest_value (database_of (cells_of rows.now)
        rows.now.tables.now) (reached levels.now) (column_of k) (cell_of v) (filling_of f)) }
{
    let mut w = own_value(f, k, v);
    for r in 0..Design::ROWS {
        let u = value_in(rows, levels, f, r);
        w = lower(w, u);
    }
    w
}

// The lowest filling that has a value, and its lowest. One pass over the row numbers for each filling.
pub(crate) fn lowest_opener(
    d: Design,
    rows: &Rows,
    levels: &[u16; 512],
    k: Column,
    v: Cell,
) -> Answer
    requires { InRange d × IsBacked rows.now × ((i : ℕ) → i < d.fillings → 1 ≤ (filling_at d i).low) }
    ensures { answer_of result ≡ Reading.reading (scheme_of d) (database_of (cells_of rows.now)
        rows.now.tables.now) (reached levels.now) (column_of k) (cell_of v) }
{
    for i in 0..d.fillings {
        let f = d.filling[i];
        if let Some(w) = lowest_value(rows, levels, f, k, v) {
            return Answer::OpenedBy(i as u8, w.number, w.issue);
        }
    }
    Answer::NoOpener
}
