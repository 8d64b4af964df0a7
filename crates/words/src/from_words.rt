// A design from its u32 words (specs/Words.antt): from all of them, or, where it is known to be lawful, from those of the places in use.
ghost use Rattle.std.specs.Prelude.{◌+◌, ◌≤◌, ◌<◌, ◌≡◌, true, length};
ghost use Rattle.state.specs.Design.{no_table, no_constraint, no_filling};
ghost use Rattle.state.specs.Lawful.{lawful_design};
ghost use Rattle.words.specs.Words.{table_from, column_from, constraint_from, filling_from, EmptyFrom, tables_from, constraints_from, fillings_from, words_design};

use state::{Column, Constraint, Design, Filling, Table, byte_at, count_at};
use std::array::from_fn;

// One place each, from word `at` on. Constant time.
fn table_from(words: &[u32], at: usize) -> Table
    requires { at + 2 ≤ length words.now }
    ensures { result ≡ table_from words.now at }
{
    let columns = byte_at(words, at);
    let unique = byte_at(words, at + 1);
    Table { columns, unique }
}

fn column_from(words: &[u32], at: usize) -> Column
    requires { at + 2 ≤ length words.now }
    ensures { result ≡ column_from words.now at }
{
    let table = byte_at(words, at);
    let place = byte_at(words, at + 1);
    Column { table, place }
}

fn constraint_from(words: &[u32], at: usize) -> Constraint
    requires { at + 4 ≤ length words.now }
    ensures { result ≡ constraint_from words.now at }
{
    let source = column_from(words, at);
    let target = column_from(words, at + 2);
    Constraint { source, target }
}

fn filling_from(words: &[u32], at: usize) -> Filling
    requires { at + 4 ≤ length words.now }
    ensures { result ≡ filling_from words.now at }
{
    let column = column_from(words, at);
    let low = words[at + 2];
    let high = words[at + 3];
    Filling { column, low, high }
}

// All places of an array, of which those from place n on are empty. One step for each of the others.
fn tables_from(words: &[u32], n: usize) -> [Table; 8]
    requires { (115 ≤ length words.now) × (n ≤ 8) × EmptyFrom 8 3 2 no_table table_from words.now n }
    ensures { result ≡ tables_from words.now }
{
    let empty = Table {
        columns: 0,
        unique: 0,
    };
    from_fn(|i| {
        if i < n {
            table_from(words, 3 + 2 * i)
        } else {
            empty
        }
    })
}

fn constraints_from(words: &[u32], n: usize) -> [Constraint; 16]
    requires { (115 ≤ length words.now) × (n ≤ 16) × EmptyFrom 16 19 4 no_constraint constraint_from words.now n }
    ensures { result ≡ constraints_from words.now }
{
    let k = Column { table: 0, place: 0 };
    let empty = Constraint {
        source: k,
        target: k,
    };
    from_fn(|i| {
        if i < n {
            constraint_from(words, 19 + 4 * i)
        } else {
            empty
        }
    })
}

fn fillings_from(words: &[u32], n: usize) -> [Filling; 8]
    requires { (115 ≤ length words.now) × (n ≤ 8) × EmptyFrom 8 83 4 no_filling filling_from words.now n }
    ensures { result ≡ fillings_from words.now }
{
    let k = Column { table: 0, place: 0 };
    let empty = Filling {
        column: k,
        low: 0,
        high: 0,
    };
    from_fn(|i| {
        if i < n {
            filling_from(words, 83 + 4 * i)
        } else {
            empty
        }
    })
}

// The design that the first 115 words stand for, where all its places but the first so many tables, constraints and fillings are empty. One step for each of
// these.
fn design_with(words: &[u32], m: usize, n: usize, l: usize) -> Design
    requires { (115 ≤ length words.now) × (m ≤ 8) × (n ≤ 16) × (l ≤ 8) × EmptyFrom 8 3 2 no_table table_from words.now m
        × EmptyFrom 16 19 4 no_constraint constraint_from words.now n × EmptyFrom 8 83 4 no_filling filling_from words.now l }
    ensures { result ≡ words_design words.now }
{
    let tables = count_at(words, 0);
    let table = tables_from(words, m);
    let constraints = count_at(words, 1);
    let constraint = constraints_from(words, n);
    let fillings = count_at(words, 2);
    let filling = fillings_from(words, l);
    Design {
        tables,
        table,
        constraints,
        constraint,
        fillings,
        filling,
    }
}

// The design that the first 115 words stand for, whatever they are. One step for each of its 32 places.
pub fn design_from(words: &[u32]) -> Design
    requires { 115 ≤ length words.now }
    ensures { result ≡ words_design words.now }
{
    design_with(words, 8, 16, 8)
}

// The same of a lawful design. One step for each of its places that is in use.
pub fn lawful_design_from(words: &[u32]) -> Design
    requires { (115 ≤ length words.now) × (lawful_design (words_design words.now) ≡ true) }
    ensures { result ≡ words_design words.now }
{
    let m = count_at(words, 0);
    let n = count_at(words, 1);
    let l = count_at(words, 2);
    design_with(words, m, n, l)
}
