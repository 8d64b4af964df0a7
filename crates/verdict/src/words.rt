// The verdicts as words, one for each of the 64 columns that there can be (specs/Words.antt says what each number means).
ghost use Rattle.std.specs.Prelude.{◌+◌, ◌*◌, ◌≤◌, ◌<◌, not, ◌&&◌, ◌||◌, ◌≡◌, is_some, unwrap_or, IfSome};
ghost use Rattle.finite.specs.Finite.{tab};
ghost use Rattle.model.specs.Verdict.{can_cache};
ghost use Rattle.state.specs.Design.{InRange};
ghost use Rattle.state.specs.Meaning.{column_of, scheme_of};
ghost use Rattle.verdict.specs.Words.{column_at, flag, verdict_of, verdict_words, design_cause, words_after};

use crate::columns::{is_filled, is_once_unique, is_one_column, lowest_link};
use crate::reached::cached_tables;
use lawful::{is_column, lawful_design};
use state::{Column, Design};
use std::array::from_fn;

fn flag_of(b: bool, n: u32) -> u32
    ensures { (result ≡ flag b n) × (result ≤ n) }
{
    if b { n } else { 0 }
}

// The word of a column that is filled (f), once linked by constraint l, once unique (u), and of which seeing is enough (o), or not. Constant time.
fn word_with(f: bool, l: Option<usize>, u: bool, o: bool) -> u32
    requires { IfSome l (λ i. i ≤ 16) }
    ensures { result ≡ flag f 1 + flag (is_some l) 2 + flag u 4 + flag (not f && not (is_some l || u)) 8 + flag o 16 + 256 * unwrap_or l 0 }
{
    let linked = l.is_some();
    let never = !(f || linked || u);
    let link = l.unwrap_or(0) as u32;
    flag_of(f, 1)
        + flag_of(linked, 2)
        + flag_of(u, 4)
        + flag_of(never, 8)
        + flag_of(o, 16)
        + 256 * link
}

// A column's word. One look at each constraint and filling.
fn word_of(d: Design, can: [bool; 8], k: Column) -> u32
    requires { InRange d × (k.table < 8) × (can ≡ tab 8 (can_cache (scheme_of d))) }
    ensures { result ≡ verdict_of (scheme_of d) (column_of k) }
{
    if !is_column(d, k) {
        return 0;
    }
    let f = is_filled(d, k);
    let l = lowest_link(d, can, k);
    let u = is_once_unique(d, can, k);
    let o = is_one_column(d, k);
    word_with(f, l, u, o)
}

// Column number i of the 64. Constant time.
fn column_at(i: usize) -> Column
    requires { i < 64 }
    ensures { (column_of result ≡ column_at i) × (result.table < 8) }
{
    Column {
        table: (i / 8) as u8,
        place: (i % 8) as u8,
    }
}

// All 64. Tables cubed, then one look at each constraint and filling for each column.
fn words_of(d: Design) -> [u32; 64]
    requires { InRange d }
    ensures { result ≡ verdict_words (scheme_of d) }
{
    let can = cached_tables(d);
    from_fn(|i| word_of(d, can, column_at(i)))
}

// Fills the lent words with the verdicts on the design's columns and returns 0; returns 12 and leaves them as they were where no script gives the design.
pub fn verdicts(d: Design, out: &mut [u32; 64]) -> u8
    ensures { (result ≡ design_cause d) × (out.new ≡ words_after d out.old) }
{
    if !lawful_design(d) {
        return 12;
    }
    *out = words_of(d);
    0
}
