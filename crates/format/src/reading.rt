// The first pass over a design with its rows: command by command into a draft, which is a design, a number of rows and three arrays that are lent. Causes 1 to
// 5 are tested in document 01's order; cause 6 is left aside, and opening.rt finds it through the catalog of the rows read.
ghost use Rattle.std.specs.Prelude.{◌≡◌, List, ℕ, suc, ◌+◌, ◌*◌, ◌≤◌, ◌<◌, eqb, length};
ghost use Rattle.std.proofs.lemmas.List.Edits.{sets};
ghost use Rattle.finite.specs.Finite.{all, tab};
ghost use Rattle.state.specs.Cells.{Cells, cells_in};
ghost use Rattle.state.specs.Design.{empty_design};
ghost use Rattle.command.specs.declared.command.Command.TheVariants as C;
ghost use Rattle.command.specs.Bytes.{byte_at};
ghost use Rattle.command.specs.Commands.{command_at, row_cell_at, row_issue_at};
ghost use Rattle.format.specs.Reading.{with_table, with_constraint, with_filling, needless, draft, read_from};
ghost use Rattle.format.specs.Admitting.{Advances, Stopped};

use crate::kinds::in_order;
use crate::verdict::Verdict;
use command::{Command, command_at, row_cell, row_issue, width_of};
use state::{Constraint, Design, Filling, Rows, Table};

// What a command that isn't refused gives: the reading goes on behind it, or the design is complete.
#[derive(Clone, Copy)]
pub enum Progress {
    On,
    Complete,
}

// A design as far as it has been read, and how many of its rows.
#[derive(Clone, Copy)]
pub struct SoFar {
    pub design: Design,
    pub rows: usize,
}

// Where the first pass stops: at the END, or at the first command that is refused. The verdict holds if no row read repeats a value; with it the
// design read so far, and how many rows.
#[derive(Clone, Copy)]
pub struct Stop {
    pub verdict: Verdict,
    pub design: Design,
    pub rows: usize,
}

// ---- one more table, constraint or filling. Constant time.

fn with_table(mut d: Design, t: Table) -> Design
    requires { d.tables < 8 }
    ensures { result ≡ with_table d t }
{
    let n = d.tables;
    d.table[n] = t;
    d.tables = n + 1;
    d
}

fn with_constraint(mut d: Design, c: Constraint) -> Design
    requires { d.constraints < 16 }
    ensures { result ≡ with_constraint d c }
{
    let n = d.constraints;
    d.constraint[n] = c;
    d.constraints = n + 1;
    d
}

fn with_filling(mut d: Design, f: Filling) -> Design
    requires { d.fillings < 8 }
    ensures { result ≡ with_filling d f }
{
    let n = d.fillings;
    d.filling[n] = f;
    d.fillings = n + 1;
    d
}

// ---- the parts of a row

// The numbers and the issues of the cells of the ROW at place `at`, stored as row r's. One step for each cell.
fn store_cells(script: &[u8], at: usize, cells: &mut [u32], r: usize)
    requires { (r < 512) × (at + 34 ≤ length script.now) × (length cells.old ≡ 4096) }
    ensures { cells.new ≡ sets cells.old (8 * r) (tab 8 (row_cell_at script.now at)) }
{
    for c in 0..Design::COLUMNS {
        cells[8 * r + c] = row_cell(script, at, c);
    }
}

fn store_issues(script: &[u8], at: usize, issues: &mut [u8], r: usize)
    requires { (r < 512) × (at < length script.now) × (byte_at script.now at ≡ 0x07 → at + 42 ≤ length script.now) × (length issues.old ≡ 4096) }
    ensures { issues.new ≡ sets issues.old (8 * r) (tab 8 (row_issue_at script.now at)) }
{
    for c in 0..Design::COLUMNS {
        issues[8 * r + c] = row_issue(script, at, c);
    }
}

// Whether all issues of the ROW at place `at` are 0. One look at each.
fn is_plain(script: &[u8], at: usize) -> bool
    requires { (at < length script.now) × (byte_at script.now at ≡ 0x07 → at + 42 ≤ length script.now) }
    ensures { result ≡ all 8 (λ c. eqb (row_issue_at script.now at c) 0) }
{
    (0..Design::COLUMNS).all(|c| row_issue(script, at, c) == 0)
}

// Whether the ROW at place `at` has issue bytes, and no issue.
fn is_needless(script: &[u8], at: usize) -> bool
    requires { (at < length script.now) × (byte_at script.now at ≡ 0x07 → at + 42 ≤ length script.now) }
    ensures { result ≡ needless script.now at }
{
    script[at] == 0x07 && is_plain(script, at)
}

// ---- one command: it is read into the draft, or refused by its cause, which leaves the draft as it was

// A TABLE. Constant time.
fn take_table(d: &mut SoFar, t: Table) -> Result<Progress, u8>
    ensures { (s : List ℕ) (cells : Cells) (tables : List ℕ) (i : ℕ) → Advances (draft d.old.design d.old.rows cells tables) s i (C.Table t) result d.new cells tables }
{
    in_order(d.design, d.rows, 0x01)?;
    if !lawful::table_fits(t) {
        return Err(5);
    }
    d.design = with_table(d.design, t);
    Ok(Progress::On)
}

// A CONSTRAINT. One look at each constraint before it.
fn take_constraint(d: &mut SoFar, c: Constraint) -> Result<Progress, u8>
    ensures { (s : List ℕ) (cells : Cells) (tables : List ℕ) (i : ℕ) → Advances (draft d.old.design d.old.rows cells tables) s i (C.Constraint c) result d.new cells tables }
{
    in_order(d.design, d.rows, 0x02)?;
    if !lawful::constraint_fits(d.design, d.design.constraints, c) {
        return Err(5);
    }
    d.design = with_constraint(d.design, c);
    Ok(Progress::On)
}

// A FILLING. One look at each filling before it.
fn take_filling(d: &mut SoFar, f: Filling) -> Result<Progress, u8>
    ensures { (s : List ℕ) (cells : Cells) (tables : List ℕ) (i : ℕ) → Advances (draft d.old.design d.old.rows cells tables) s i (C.Filling f) result d.new cells tables }
{
    in_order(d.design, d.rows, 0x03)?;
    if !lawful::filling_fits(d.design, d.design.fillings, f) {
        return Err(5);
    }
    d.design = with_filling(d.design, f);
    Ok(Progress::On)
}

// The ROW at place `at`, of table t. One look at each of its cells.
fn take_row(
    d: &mut SoFar,
    script: &[u8],
    at: usize,
    t: u8,
    cells: &mut [u32],
    issues: &mut [u8],
    tables: &mut [u8],
) -> Result<Progress, u8>
    requires { (at + 34 ≤ length script.now) × (byte_at script.now at ≡ 0x07 → at + 42 ≤ length script.now) × (length cells.old ≡ 4096) × (length issues.old ≡ 4096) × (length tables.old ≡ 512) }
    ensures { Advances (draft d.old.design d.old.rows (cells_in cells.old issues.old) tables.old) script.now at (C.Row t) result d.new (cells_in cells.new issues.new) tables.new }
{
    in_order(d.design, d.rows, 0x04)?;
    if is_needless(script, at) {
        return Err(5);
    }
    let rows = d.rows;
    store_cells(script, at, cells, rows);
    store_issues(script, at, issues, rows);
    tables[rows] = t;
    let lent = Rows {
        cells,
        issues,
        tables,
    };
    if !lawful::row_fits(d.design, &lent, rows) {
        return Err(5);
    }
    d.rows = rows + 1;
    Ok(Progress::On)
}

// Any command, which stands at place `at`.
fn take(
    d: &mut SoFar,
    script: &[u8],
    at: usize,
    c: Command,
    cells: &mut [u32],
    issues: &mut [u8],
    tables: &mut [u8],
) -> Result<Progress, u8>
    requires { (c ≡ command_at script.now at) × (length cells.old ≡ 4096) × (length issues.old ≡ 4096) × (length tables.old ≡ 512) }
    ensures { Advances (draft d.old.design d.old.rows (cells_in cells.old issues.old) tables.old) script.now at c result d.new (cells_in cells.new issues.new) tables.new }
{
    match c {
        Command::Table(t) => take_table(d, t),
        Command::Constraint(k) => take_constraint(d, k),
        Command::Filling(f) => take_filling(d, f),
        Command::Row(t) => take_row(d, script, at, t, cells, issues, tables),
        Command::End => Ok(Progress::Complete),
        Command::Operate(_) | Command::Put(_, _) | Command::Remove(_) => Err(3),
        Command::Unknown => Err(2),
        Command::Short => Err(1),
    }
}

// ---- the whole design

// Reads from the first command to the END, or to the first that is refused, cause 6 left aside. Each command is read once.
pub(crate) fn read_commands(
    script: &[u8],
    cells: &mut [u32],
    issues: &mut [u8],
    tables: &mut [u8],
) -> Stop
    requires { (length cells.old ≡ 4096) × (length issues.old ≡ 4096) × (length tables.old ≡ 512) }
    ensures { Stopped (read_from (suc (length script.now)) script.now
        (draft empty_design 0 (cells_in cells.old issues.old) tables.old) 0) result (cells_in cells.new issues.new) tables.new }
{
    let mut d = SoFar {
        design: Design::empty(),
        rows: 0,
    };
    let mut at = 0usize;
    // no iterator: where the next command begins, this one says
    let verdict = loop {
        let c = command_at(script, at);
        match take(&mut d, script, at, c, cells, issues, tables) {
            Ok(Progress::On) => at += width_of(script[at]),
            Ok(Progress::Complete) => break Verdict::Accepted(at + 1),
            Err(cause) => break Verdict::Refused(cause, at),
        }
    };
    Stop {
        verdict,
        design: d.design,
        rows: d.rows,
    }
}
