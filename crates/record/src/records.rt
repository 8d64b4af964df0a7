// What is held as a record by value, for callers that have it so: the record that words hold, a record stored as words, and REFER and DROP over them.
ghost use Rattle.std.specs.Prelude.{ℕ, ◌<◌, ◌≤◌, List, ◌≡◌, get_or};
ghost use Rattle.finite.specs.Finite.{tab};
ghost use Rattle.model.specs.Runs as Runs;
ghost use Rattle.state.specs.Cells.{Cells};
ghost use Rattle.state.specs.Held.{no_value, no_ranges, Tidy};
ghost use Rattle.state.specs.HeldWords.{words_held, Whole, Holds};
ghost use Rattle.state.specs.Meaning.{pair_of, answer_of};
ghost use Rattle.state.specs.Lent.{lent, Answered};
ghost use Rattle.cache.specs.Ready.{Ready};

use crate::outcome::Outcome;
use cache::{drop_lawful, refer_lawful};
use catalog::Index;
use state::{
    Design, DeskRanges, Held, HeldValue, OwnedValue, named_desk, ranges_at, set_count, set_desk,
    set_ranges, set_value, value_at, value_count,
};
use std::array::from_fn;

// The record that words hold. One step for each place.
fn record_in(held: &[u32; 358]) -> Held
    ensures { result ≡ words_held held.now }
{
    Held {
        desk: named_desk(held),
        count: value_count(held),
        values: from_fn(|i| value_at(held, i)),
        ranges: from_fn(|e| ranges_at(held, e)),
    }
}

// Stores all values, and the ranges of each desk. One step for each place.
fn put_values(vs: [OwnedValue; 64], held: &mut [u32; 358])
    requires { Whole held.old }
    ensures { Holds held.new (record {
      desk = (words_held held.old).desk;
      count = (words_held held.old).count;
      values = tab 64 (λ i. get_or vs i no_value);
      ranges = (words_held held.old).ranges;
    }) }
{
    for i in 0..64usize {
        set_value(held, i, vs[i]);
    }
}

fn put_desks(ss: [DeskRanges; 4], held: &mut [u32; 358])
    requires { Whole held.old × ((e : ℕ) → e < 4 → (get_or ss e no_ranges).count ≤ 8) }
    ensures { Holds held.new (record {
      desk = (words_held held.old).desk;
      count = (words_held held.old).count;
      values = (words_held held.old).values;
      ranges = tab 4 (λ e. get_or ss e no_ranges);
    }) }
{
    for e in 0..4usize {
        set_ranges(held, e, ss[e]);
    }
}

// Stores a record. One step for each place.
fn put_record(h: Held, held: &mut [u32; 358])
    requires { Tidy h × Whole held.old }
    ensures { Holds held.new h }
{
    set_desk(held, h.desk);
    set_count(held, h.count);
    put_values(h.values, held);
    put_desks(h.ranges, held);
}

// REFER with a record by value. The cost of `refer_lawful`, and two copies of the record.
pub(crate) fn refer_record(
    design: Design,
    index: &Index,
    marks: &mut [u8],
    held: Held,
    v: HeldValue,
) -> Outcome
    requires { (cells : Cells) × (tables : List ℕ) × Ready design cells tables marks.old held index.now.catalog.now index.now.keys.now }
    ensures { (cells : Cells) (tables : List ℕ) → Ready design cells tables marks.old held index.now.catalog.now index.now.keys.now
        → Answered (lent design cells tables marks.old held) (Runs.refer (pair_of v)) (answer_of result.answer)
        (lent design cells tables marks.new result.held) }
{
    let mut words = [0u32; 358];
    put_record(held, &mut words);
    let answer = refer_lawful(design, index, marks, &mut words, v);
    Outcome {
        held: record_in(&words),
        answer,
    }
}

// DROP with a record by value. The cost of `drop_lawful`, and two copies of the record.
// Beside `refer_record`, and not one function of a closure for the step: its clauses would speak of the references passed, in more lines than the two share.
pub(crate) fn drop_record(
    design: Design,
    index: &Index,
    marks: &mut [u8],
    held: Held,
    v: HeldValue,
) -> Outcome
    requires { (cells : Cells) × (tables : List ℕ) × Ready design cells tables marks.old held index.now.catalog.now index.now.keys.now }
    ensures { (cells : Cells) (tables : List ℕ) → Ready design cells tables marks.old held index.now.catalog.now index.now.keys.now
        → Answered (lent design cells tables marks.old held) (Runs.drop (pair_of v)) (answer_of result.answer)
        (lent design cells tables marks.new result.held) }
{
    let mut words = [0u32; 358];
    put_record(held, &mut words);
    let answer = drop_lawful(design, index, marks, &mut words, v);
    Outcome {
        held: record_in(&words),
        answer,
    }
}
