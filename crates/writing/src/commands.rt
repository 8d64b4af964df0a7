// Writing a design with its rows: its tables, constraints and fillings in order of their numbers, the rows in rising number, then END. Numbers without a row
// are skipped.
ghost use Rattle.std.specs.Prelude.{◌≡◌, List, ◌∷◌, ℕ, ◌+◌, ◌≤◌, ◌<◌, length, get_or};
ghost use Rattle.std.proofs.lemmas.List.Edits.{sets};
ghost use Rattle.finite.specs.Writing.{Wrote};
ghost use Rattle.state.specs.Cells.{cells_in};
ghost use Rattle.state.specs.Design.{InRange};
ghost use Rattle.format.specs.Kinds.{count_of};
ghost use Rattle.format.specs.Writing.{table_bytes, constraint_bytes, filling_bytes, cells_bytes, issues_bytes, row_bytes, row_at, design_bytes, item_bytes, kind_bytes};
ghost use Rattle.state.specs.Rows.{cells_of, IsBacked};

use crate::numbers::put_u32;
use format::{count_of, is_issued};
use state::{Constraint, Design, Filling, Rows, Table, is_live};

// One command each, from place `at` on, and the place after it. Constant time.
fn put_table(out: &mut [u8], at: usize, t: Table) -> usize
    requires { at + 3 ≤ length out.old }
    ensures { Wrote out.old out.new at result (table_bytes t) }
{
    out[at] = 0x01;
    out[at + 1] = t.columns;
    out[at + 2] = t.unique;
    at + 3
}

fn put_constraint(out: &mut [u8], at: usize, c: Constraint) -> usize
    requires { at + 5 ≤ length out.old }
    ensures { Wrote out.old out.new at result (constraint_bytes c) }
{
    out[at] = 0x02;
    out[at + 1] = c.source.table;
    out[at + 2] = c.source.place;
    out[at + 3] = c.target.table;
    out[at + 4] = c.target.place;
    at + 5
}

fn put_filling(out: &mut [u8], at: usize, f: Filling) -> usize
    requires { at + 11 ≤ length out.old }
    ensures { Wrote out.old out.new at result (filling_bytes f) }
{
    out[at] = 0x03;
    out[at + 1] = f.column.table;
    out[at + 2] = f.column.place;
    put_u32(out, at + 3, f.low);
    put_u32(out, at + 7, f.high);
    at + 11
}

// The numbers of the eight cells of row r, and their issues.
fn put_cells(out: &mut [u8], at: usize, cells: &[u32], r: usize)
    requires { (r < 512) × (4096 ≤ length cells.now) × (at + 32 ≤ length out.old) }
    ensures { (issues : List ℕ) → out.new ≡ sets out.old at (cells_bytes (cells_in cells.now issues) r) }
{
    for c in 0..Design::COLUMNS {
        put_u32(out, at + 4 * c, cells[8 * r + c]);
    }
}

fn put_issues(out: &mut [u8], at: usize, issues: &[u8], r: usize)
    requires { (r < 512) × (4096 ≤ length issues.now) × (at + 8 ≤ length out.old) }
    ensures { (numbers : List ℕ) → out.new ≡ sets out.old at (issues_bytes (cells_in numbers issues.now) r) }
{
    out[at..at + 8].copy_from_slice(&issues[8 * r..8 * r + 8]);
}

// A row's command up to its cells: the byte b, the table, the numbers.
fn put_front(out: &mut [u8], at: usize, b: u8, cells: &[u32], tables: &[u8], r: usize)
    requires { (r < 512) × (4096 ≤ length cells.now) × (512 ≤ length tables.now) × (at + 34 ≤ length out.old) }
    ensures { (issues : List ℕ) → out.new ≡ sets out.old at
        (b ∷ get_or tables.now r 0 ∷ cells_bytes (cells_in cells.now issues) r) }
{
    out[at] = b;
    out[at + 1] = tables[r];
    put_cells(out, at + 2, cells, r);
}

// A row as 0x04, or as 0x07 if it has an issue.
fn put_row(out: &mut [u8], at: usize, rows: &Rows, r: usize) -> usize
    requires { (r < 512) × IsBacked rows.now
        × (at + length (row_bytes (cells_of rows.now) rows.now.tables.now r) ≤ length out.old) }
    ensures { Wrote out.old out.new at result (row_bytes (cells_of rows.now) rows.now.tables.now r) }
{
    if !is_issued(rows.issues, r) {
        put_front(out, at, 0x04, rows.cells, rows.tables, r);
        return at + 34;
    }
    put_front(out, at, 0x07, rows.cells, rows.tables, r);
    put_issues(out, at + 34, rows.issues, r);
    at + 42
}

// The row at number r, if there is one.
fn put_live(out: &mut [u8], at: usize, rows: &Rows, r: usize) -> usize
    requires { (r < 512) × IsBacked rows.now
        × (at + length (row_at (cells_of rows.now) rows.now.tables.now r) ≤ length out.old) }
    ensures { Wrote out.old out.new at result (row_at (cells_of rows.now) rows.now.tables.now r) }
{
    if !is_live(rows.tables, r) {
        return at;
    }
    put_row(out, at, rows, r)
}

// The command of kind b that has number i among them.
fn put_item(d: Design, rows: &Rows, b: u8, i: usize, out: &mut [u8], at: usize) -> usize
    requires { (i < count_of d 512 b) × InRange d × IsBacked rows.now
        × (at + length (item_bytes d (cells_of rows.now) rows.now.tables.now b i) ≤ length out.old) }
    ensures { Wrote out.old out.new at result (item_bytes d (cells_of rows.now) rows.now.tables.now b i) }
{
    match b {
        0x01 => put_table(out, at, d.table[i]),
        0x02 => put_constraint(out, at, d.constraint[i]),
        0x03 => put_filling(out, at, d.filling[i]),
        _ => put_live(out, at, rows, i),
    }
}

// All commands of kind b. One step for each, and for each number of a row.
fn put_kind(d: Design, rows: &Rows, b: u8, out: &mut [u8], at: usize) -> usize
    requires { InRange d × IsBacked rows.now × (at + length (kind_bytes d (cells_of rows.now) rows.now.tables.now b) ≤ length out.old) }
    ensures { Wrote out.old out.new at result (kind_bytes d (cells_of rows.now) rows.now.tables.now b) }
{
    let mut place = at;
    for i in 0..count_of(d, Design::ROWS, b) {
        place = put_item(d, rows, b, i, out, place);
    }
    place
}

// Writes the design with its rows from the first byte on; how many bytes that took. One step for each table, constraint, filling and
// number of a row, eight for each row.
pub fn write_design(d: Design, rows: &Rows, out: &mut [u8]) -> usize
    requires { InRange d × IsBacked rows.now × (length (design_bytes d (cells_of rows.now) rows.now.tables.now) ≤ length out.old) }
    ensures { (result ≡ length (design_bytes d (cells_of rows.now) rows.now.tables.now)) × (out.new ≡ sets out.old 0 (design_bytes d (cells_of rows.now) rows.now.tables.now)) }
{
    let a = put_kind(d, rows, 0x01, out, 0);
    let b = put_kind(d, rows, 0x02, out, a);
    let c = put_kind(d, rows, 0x03, out, b);
    let e = put_kind(d, rows, 0x04, out, c);
    out[e] = 0x05;
    e + 1
}
