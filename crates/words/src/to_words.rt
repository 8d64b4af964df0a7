// A design stored as its u32 words (specs/Words.antt), from the first word on.
ghost use Rattle.std.specs.Prelude.{◌+◌, ◌≤◌, ◌≡◌, length};
ghost use Rattle.std.proofs.lemmas.List.Edits.{sets};
ghost use Rattle.words.specs.Words.{table_words, constraint_words, filling_words, counts_words, tables_words, constraints_words, fillings_words, design_words};

use state::{Constraint, Design, Filling, Table};

// One place each, from word `at` on. Constant time, as is the next.
fn put_table(words: &mut [u32], at: usize, t: Table)
    requires { at + 2 ≤ length words.old }
    ensures { words.new ≡ sets words.old at (table_words t) }
{
    words[at..at + 2].copy_from_slice(&[u32::from(t.columns), u32::from(t.unique)]);
}

fn put_constraint(words: &mut [u32], at: usize, c: Constraint)
    requires { at + 4 ≤ length words.old }
    ensures { words.new ≡ sets words.old at (constraint_words c) }
{
    words[at..at + 4].copy_from_slice(&[
        u32::from(c.source.table),
        u32::from(c.source.place),
        u32::from(c.target.table),
        u32::from(c.target.place),
    ]);
}

fn put_filling(words: &mut [u32], at: usize, f: Filling)
    requires { at + 4 ≤ length words.old }
    ensures { words.new ≡ sets words.old at (filling_words f) }
{
    words[at..at + 4].copy_from_slice(&[
        u32::from(f.column.table),
        u32::from(f.column.place),
        f.low,
        f.high,
    ]);
}

// The three counts of a design.
fn put_counts(d: Design, words: &mut [u32])
    requires { (3 ≤ length words.old) × (d.tables ≤ 8) × (d.constraints ≤ 16) × (d.fillings ≤ 8) }
    ensures { words.new ≡ sets words.old 0 (counts_words d) }
{
    words[..3].copy_from_slice(&[d.tables as u32, d.constraints as u32, d.fillings as u32]);
}

// All places of an array. One step for each. (One loop for the three would need a clause on what a place's encoder gives, which is longer than they are.)
fn put_tables(ts: [Table; 8], words: &mut [u32])
    requires { 115 ≤ length words.old }
    ensures { words.new ≡ sets words.old 3 (tables_words ts) }
{
    for (i, &t) in ts.iter().enumerate() {
        put_table(words, 3 + 2 * i, t);
    }
}

fn put_constraints(cs: [Constraint; 16], words: &mut [u32])
    requires { 115 ≤ length words.old }
    ensures { words.new ≡ sets words.old 19 (constraints_words cs) }
{
    for (i, &c) in cs.iter().enumerate() {
        put_constraint(words, 19 + 4 * i, c);
    }
}

fn put_fillings(fs: [Filling; 8], words: &mut [u32])
    requires { 115 ≤ length words.old }
    ensures { words.new ≡ sets words.old 83 (fillings_words fs) }
{
    for (i, &f) in fs.iter().enumerate() {
        put_filling(words, 83 + 4 * i, f);
    }
}

// The design as the first 115 words. One step for each of its 32 places.
pub fn put_design(d: Design, words: &mut [u32])
    requires { (115 ≤ length words.old) × (d.tables ≤ 8) × (d.constraints ≤ 16) × (d.fillings ≤ 8) }
    ensures { words.new ≡ sets words.old 0 (design_words d) }
{
    put_counts(d, words);
    let table = d.table;
    put_tables(table, words);
    let constraint = d.constraint;
    put_constraints(constraint, words);
    let filling = d.filling;
    put_fillings(filling, words);
}
