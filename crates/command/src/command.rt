// A command of a script, and the command that stands at a place of the lent bytes: its byte is looked at first, then how many bytes are left.
ghost use Rattle.std.specs.Prelude.{◌≡◌, ◌+◌, ◌-◌, ◌≤◌, ◌<◌, length};
ghost use Rattle.state.specs.declared.operation.Operation.TheVariants as O;
ghost use Rattle.command.specs.Bytes.{byte_at, u32_at};
ghost use Rattle.command.specs.Opcodes.{byte_of};
ghost use Rattle.command.specs.Commands.{width_of, column_at, value_at, join_at, held_value_at, range_at, query_at, total_at, operands_at, command_at, row_cell_at, row_issue_at, put_row_at};

use crate::bytes::{u16_at, u32_at};
use crate::opcode::Opcode;
use state::{
    Cell, Column, Constraint, Filling, HeldValue, Join, Operation, Query, Range, Row, Table, Total,
};
use std::array::from_fn;

// The cells and issues of a ROW and of a Put are read from the bytes by place (an enum holds no array).
#[derive(Clone, Copy)]
pub enum Command {
    Table(Table),
    Constraint(Constraint),
    Filling(Filling),
    // the row's table
    Row(u8),
    End,
    Operate(Operation),
    // 0x1D: the number and the table of a row that is put in
    Put(u16, u8),
    // 0x1E: the number of a row that is removed
    Remove(u16),
    // cause 2: no command has this byte
    Unknown,
    // cause 1: too few bytes, or none
    Short,
}

// How many bytes the command with this byte takes; 0 if no command has it. Constant time, as everything in this file.
pub fn width_of(b: u8) -> usize
    ensures { result ≡ width_of b }
{
    match Opcode::try_from(b) {
        Ok(opcode) => opcode.width(),
        Err(_) => 0,
    }
}

// ---- operands

// The column, the value with this issue and the join that stand at place i.
fn column_at(script: &[u8], i: usize) -> Column
    requires { i + 2 ≤ length script.now }
    ensures { result ≡ column_at script.now i }
{
    Column {
        table: script[i],
        place: script[i + 1],
    }
}

fn value_at(script: &[u8], issue: u8, i: usize) -> Cell
    requires { i + 4 ≤ length script.now }
    ensures { result ≡ value_at script.now issue i }
{
    Cell {
        number: u32_at(script, i),
        issue,
    }
}

fn join_at(script: &[u8], i: usize) -> Join
    requires { i + 2 ≤ length script.now }
    ensures { result ≡ join_at script.now i }
{
    Join {
        position: script[i],
        constraint: script[i + 1],
    }
}

// The operands of a TABLE, a CONSTRAINT and a FILLING whose byte stands at place i.
fn table_operands(script: &[u8], i: usize) -> Table
    requires { i + 3 ≤ length script.now }
    ensures { result ≡ record { columns = byte_at script.now (i + 1); unique = byte_at script.now (i + 2) } }
{
    Table {
        columns: script[i + 1],
        unique: script[i + 2],
    }
}

fn constraint_operands(script: &[u8], i: usize) -> Constraint
    requires { i + 5 ≤ length script.now }
    ensures { result ≡ record { source = column_at script.now (i + 1); target = column_at script.now (i + 3) } }
{
    Constraint {
        source: column_at(script, i + 1),
        target: column_at(script, i + 3),
    }
}

fn filling_operands(script: &[u8], i: usize) -> Filling
    requires { i + 11 ≤ length script.now }
    ensures { result ≡ record { column = column_at script.now (i + 1); low = u32_at script.now (i + 3); high = u32_at script.now (i + 7) } }
{
    Filling {
        column: column_at(script, i + 1),
        low: u32_at(script, i + 3),
        high: u32_at(script, i + 7),
    }
}

// The operands of a REFER or DROP, whose value has this issue, of a range, and of a QUERY.
fn held_value_at(script: &[u8], issue: u8, i: usize) -> HeldValue
    requires { i + 6 ≤ length script.now }
    ensures { result ≡ held_value_at script.now issue i }
{
    HeldValue {
        filling: script[i + 1],
        value: value_at(script, issue, i + 2),
    }
}

fn range_at(script: &[u8], i: usize) -> Range
    requires { i + 10 ≤ length script.now }
    ensures { result ≡ range_at script.now i }
{
    Range {
        filling: script[i + 1],
        low: u32_at(script, i + 2),
        high: u32_at(script, i + 6),
    }
}

fn query_at(script: &[u8], issue: u8, i: usize) -> Query
    requires { i + 16 ≤ length script.now }
    ensures { result ≡ query_at script.now issue i }
{
    Query {
        column: column_at(script, i + 1),
        value: value_at(script, issue, i + 3),
        joins: script[i + 7],
        first: join_at(script, i + 8),
        second: join_at(script, i + 10),
        third: join_at(script, i + 12),
        fourth: join_at(script, i + 14),
    }
}

// A PROBE, whose value has this issue.
fn probe_at(script: &[u8], issue: u8, i: usize) -> Operation
    requires { i + 7 ≤ length script.now }
    ensures { result ≡ O.Probe (column_at script.now (i + 1)) (value_at script.now issue (i + 3)) }
{
    Operation::Probe(column_at(script, i + 1), value_at(script, issue, i + 3))
}

// The operands of a total: a QUERY's, then its position and its column.
fn total_at(script: &[u8], issue: u8, i: usize) -> Total
    requires { i + 18 ≤ length script.now }
    ensures { result ≡ total_at script.now issue i }
{
    Total {
        query: query_at(script, issue, i),
        position: script[i + 16],
        column: script[i + 17],
    }
}

// The number of cell c of the ROW at place `at`, and its issue.
#[tactic(auto, unfolding(crate::specs::Commands::row_cell_at))]
pub fn row_cell(script: &[u8], at: usize, c: usize) -> u32
    requires { (c < 8) × (at + 34 ≤ length script.now) }
    ensures { result ≡ row_cell_at script.now at c }
{
    u32_at(script, at + 2 + 4 * c)
}

#[tactic(auto, unfolding(crate::specs::Commands::row_issue_at))]
pub fn row_issue(script: &[u8], at: usize, c: usize) -> u8
    requires { (c < 8) × (at < length script.now) × (byte_at script.now at ≡ 0x07 → at + 42 ≤ length script.now) }
    ensures { result ≡ row_issue_at script.now at c }
{
    if script[at] != 0x07 {
        return 0;
    }
    script[at + 34 + c]
}

// The row of the 0x1D at place `at`, behind its number.
pub fn row_at(script: &[u8], at: usize) -> Row
    requires { at + 44 ≤ length script.now }
    ensures { result ≡ put_row_at script.now at }
{
    Row {
        table: script[at + 3],
        numbers: from_fn(|c| u32_at(script, at + 4 + 4 * c)),
        issues: from_fn(|c| script[at + 36 + c]),
    }
}

// ---- the command at a place

// The command with this opcode, whose byte stands at place i. An operation whose opcode has no issue has issue 0; Opener has one of its own behind PROBE's
// operands.
#[tactic(auto, unfolding(crate::specs::Opcodes::byte_of, crate::specs::Commands::width_of, crate::specs::Commands::design_width, crate::specs::Commands::operation_width, crate::specs::Commands::operands_at, crate::specs::Commands::design_command_at, crate::specs::Commands::operation_at, crate::specs::Commands::issued_at,))]
fn operands_at(opcode: Opcode, script: &[u8], i: usize) -> Command
    requires { i + width_of (byte_of opcode) ≤ length script.now }
    ensures { result ≡ operands_at (byte_of opcode) script.now i }
{
    match opcode {
        Opcode::Table => Command::Table(table_operands(script, i)),
        Opcode::Constraint => Command::Constraint(constraint_operands(script, i)),
        Opcode::Filling => Command::Filling(filling_operands(script, i)),
        Opcode::Row | Opcode::IssuedRow => Command::Row(script[i + 1]),
        Opcode::End => Command::End,
        Opcode::Put => Command::Put(u16_at(script, i + 1), script[i + 3]),
        Opcode::Remove => Command::Remove(u16_at(script, i + 1)),
        Opcode::Refer => Command::Operate(Operation::Refer(held_value_at(script, 0, i))),
        Opcode::Drop => Command::Operate(Operation::Drop(held_value_at(script, 0, i))),
        Opcode::Probe => Command::Operate(probe_at(script, 0, i)),
        Opcode::Query => Command::Operate(Operation::Query(query_at(script, 0, i))),
        Opcode::Evenness => Command::Operate(Operation::Evenness),
        Opcode::Total => Command::Operate(Operation::Total(total_at(script, 0, i))),
        Opcode::Name => Command::Operate(Operation::Name(script[i + 1])),
        Opcode::Reason => Command::Operate(Operation::Reason(u16_at(script, i + 1))),
        Opcode::Opener => Command::Operate(Operation::Opener(
            column_at(script, i + 1),
            value_at(script, script[i + 7], i + 3),
        )),
        Opcode::ReferRange => Command::Operate(Operation::ReferRange(range_at(script, i))),
        Opcode::DropRange => Command::Operate(Operation::DropRange(range_at(script, i))),
        Opcode::SmallestKnot => Command::Operate(Operation::SmallestKnot),
        Opcode::IssuedRefer => {
            Command::Operate(Operation::Refer(held_value_at(script, script[i + 6], i)))
        }
        Opcode::IssuedDrop => {
            Command::Operate(Operation::Drop(held_value_at(script, script[i + 6], i)))
        }
        Opcode::IssuedProbe => Command::Operate(probe_at(script, script[i + 7], i)),
        Opcode::IssuedQuery => {
            Command::Operate(Operation::Query(query_at(script, script[i + 16], i)))
        }
        Opcode::IssuedTotal => {
            Command::Operate(Operation::Total(total_at(script, script[i + 18], i)))
        }
    }
}

// The command at a place.
#[tactic(auto, unfolding(crate::specs::Commands::command_at))]
pub(crate) fn read_at(script: &[u8], at: usize) -> Command
    ensures { result ≡ command_at script.now at }
{
    let Some(&b) = script.get(at) else {
        return Command::Short;
    };
    let Ok(opcode) = Opcode::try_from(b) else {
        return Command::Unknown;
    };
    let w = opcode.width();
    if script.len() - at < w {
        return Command::Short;
    }
    operands_at(opcode, script, at)
}
