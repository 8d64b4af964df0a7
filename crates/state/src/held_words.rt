// What is held as 358 lent u32 words: each part read, and each part stored. No other file knows at which word what stands (specs/HeldWords.antt).
// Constant time, where no other cost is named.
ghost use Rattle.std.specs.Prelude.{◌+◌, ◌≤◌, ◌<◌, ◌≡◌, length};
ghost use Rattle.std.proofs.lemmas.List.Edits.{sets};
ghost use Rattle.state.specs.Held.{held_at, range_at, ranges_at};
ghost use Rattle.state.specs.HeldWords.{word_at, byte_of, range_words};
ghost use Rattle.state.specs.HeldWords.{words_held, Whole, Holds, with_named, with_count, with_value_at, with_ranges_at, first_words};

use crate::cell::Cell;
use crate::held::{DeskRanges, HeldValue, OwnedValue, Range};
use std::array::from_fn;

// How many words there are.
pub const HELD_WORDS: usize = 358;

// The words of a record, of lent words that may be more. One step for each.
pub fn first_words(words: &[u32]) -> [u32; 358]
    requires { 358 ≤ length words.now }
    ensures { result ≡ first_words words.now }
{
    let mut held = [0; HELD_WORDS];
    held.copy_from_slice(&words[..HELD_WORDS]);
    held
}

// Stores the words of a record in lent words, of which those past them stay. One step for each.
pub fn store_words(held: &[u32; 358], words: &mut [u32])
    requires { (length held.now ≡ 358) × (358 ≤ length words.old) }
    ensures { words.new ≡ sets words.old 0 held.now }
{
    words[..HELD_WORDS].copy_from_slice(held);
}

// A word where a u8 is kept.
pub fn byte_at(words: &[u32], i: usize) -> u8
    requires { i < length words.now }
    ensures { result ≡ byte_of words.now i }
{
    (words[i] % 256) as u8
}

// A word where a count is kept.
pub fn count_at(words: &[u32], i: usize) -> usize
    requires { i < length words.now }
    ensures { result ≡ word_at words.now i }
{
    words[i] as usize
}

// The desk named last.
pub fn named_desk(held: &[u32; 358]) -> u8
    ensures { result ≡ (words_held held.now).desk }
{
    byte_at(held, 0)
}

// How many values are held.
pub fn value_count(held: &[u32; 358]) -> usize
    ensures { result ≡ (words_held held.now).count }
{
    count_at(held, 1)
}

// The value at place i.
pub fn value_at(held: &[u32; 358], i: usize) -> OwnedValue
    requires { i < 64 }
    ensures { result ≡ held_at (words_held held.now) i }
{
    let at = 2 + 4 * i;
    OwnedValue {
        desk: byte_at(held, at),
        pair: HeldValue {
            filling: byte_at(held, at + 1),
            value: Cell {
                number: held[at + 2],
                issue: byte_at(held, at + 3),
            },
        },
    }
}

// How many ranges desk e has.
pub fn range_count(held: &[u32; 358], e: usize) -> usize
    requires { e < 4 }
    ensures { result ≡ (ranges_at (words_held held.now) e).count }
{
    count_at(held, 258 + 25 * e)
}

// The range at place i of desk e.
pub fn range_at(held: &[u32; 358], e: usize, i: usize) -> Range
    requires { (e < 4) × (i < 8) }
    ensures { result ≡ range_at (ranges_at (words_held held.now) e) i }
{
    let at = 258 + 25 * e + 1 + 3 * i;
    Range {
        filling: byte_at(held, at),
        low: held[at + 1],
        high: held[at + 2],
    }
}

// The ranges of desk e. One step for each of their 8 places.
pub fn ranges_at(held: &[u32; 358], e: usize) -> DeskRanges
    requires { e < 4 }
    ensures { result ≡ ranges_at (words_held held.now) e }
{
    DeskRanges {
        count: range_count(held, e),
        list: from_fn(|i| range_at(held, e, i)),
    }
}

// Names a desk.
pub fn set_desk(held: &mut [u32; 358], desk: u8)
    requires { Whole held.old }
    ensures { Holds held.new (with_named (words_held held.old) desk) }
{
    held[0] = u32::from(desk);
}

// Stores how many values are held.
pub fn set_count(held: &mut [u32; 358], n: usize)
    requires { (n ≤ 64) × Whole held.old }
    ensures { Holds held.new (with_count (words_held held.old) n) }
{
    held[1] = n as u32;
}

// Stores a value at place i.
pub fn set_value(held: &mut [u32; 358], i: usize, v: OwnedValue)
    requires { (i < 64) × Whole held.old }
    ensures { Holds held.new (with_value_at (words_held held.old) i v) }
{
    let at = 2 + 4 * i;
    held[at] = u32::from(v.desk);
    held[at + 1] = u32::from(v.pair.filling);
    held[at + 2] = v.pair.value.number;
    held[at + 3] = u32::from(v.pair.value.issue);
}

// Three words from word `at` on; the filling is a byte, as its type says.
fn put_range(held: &mut [u32; 358], at: usize, r: Range)
    requires { at + 3 ≤ 358 }
    ensures { (held.new ≡ sets held.old at (range_words r)) × (r.filling < 256) }
{
    held[at] = u32::from(r.filling);
    held[at + 1] = r.low;
    held[at + 2] = r.high;
}

// Stores the ranges of desk e. One step for each of their 8 places.
pub fn set_ranges(held: &mut [u32; 358], e: usize, s: DeskRanges)
    requires { (e < 4) × (s.count ≤ 8) × Whole held.old }
    ensures { Holds held.new (with_ranges_at (words_held held.old) e s) }
{
    held[258 + 25 * e] = s.count as u32;
    for (i, r) in s.list.iter().enumerate() {
        put_range(held, 258 + 25 * e + 1 + 3 * i, *r);
    }
}
