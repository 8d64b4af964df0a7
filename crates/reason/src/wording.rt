// The words of a sentence. What each writes is in crates/model/specs/Sentence.antt, and takes time in proportion to its bytes.
ghost use Rattle.std.specs.Prelude.{◌+◌, ◌≤◌, ◌<◌, length};
ghost use Rattle.finite.specs.Writing.{Wrote};
ghost use Rattle.model.specs.Reason.{by_range, by_value};
ghost use Rattle.model.specs.Sentence.{issue_text, link_text, origin_text};
ghost use Rattle.state.specs.Meaning.{pair_of, range_of};
ghost use Rattle.reason.specs.Lowest.{origin_of};

use crate::lowest::Origin;
use state::{HeldValue, Range};
use text::{put_bytes, put_spaced};

// Writes by which constraint, and from which row: at most 30 bytes.
pub(crate) fn put_link(out: &mut [u8], at: usize, i: usize, s: usize) -> usize
    requires { (i < 16) × (s < 512) × (at + 47 ≤ length out.old) }
    ensures { Wrote out.old out.new at result (link_text i s) }
{
    let z = put_bytes(out, at, b" by constraint", 14);
    let y = put_spaced(out, z, i as u64);
    let x = put_bytes(out, y, b" from row", 9);
    put_spaced(out, x, s as u64)
}

// Writes the issue of a value, if it isn't 0: at most 27 bytes.
fn put_issue(out: &mut [u8], at: usize, issue: u8) -> usize
    requires { at + 27 ≤ length out.old }
    ensures { Wrote out.old out.new at result (issue_text issue) }
{
    if issue == 0 {
        return at;
    }
    let z = put_bytes(out, at, b" issue", 6);
    put_spaced(out, z, issue as u64)
}

// Writes by which value of which filling: at most 89 bytes.
fn put_value(out: &mut [u8], at: usize, v: HeldValue) -> usize
    requires { at + 89 ≤ length out.old }
    ensures { Wrote out.old out.new at result (origin_text (by_value (pair_of v))) }
{
    let value = v.value;
    let z = put_bytes(out, at, b" by value", 9);
    let y = put_spaced(out, z, value.number as u64);
    let x = put_issue(out, y, value.issue);
    let w = put_bytes(out, x, b" of filling", 11);
    put_spaced(out, w, v.filling as u64)
}

// Writes by which range of which filling: at most 86 bytes.
fn put_range(out: &mut [u8], at: usize, q: Range) -> usize
    requires { at + 86 ≤ length out.old }
    ensures { Wrote out.old out.new at result (origin_text (by_range (range_of q))) }
{
    let z = put_bytes(out, at, b" by range", 9);
    let y = put_spaced(out, z, q.low as u64);
    let x = put_bytes(out, y, b" to", 3);
    let w = put_spaced(out, x, q.high as u64);
    let u = put_bytes(out, w, b" of filling", 11);
    put_spaced(out, u, q.filling as u64)
}

// Writes what a chain ends with: at most 89 bytes.
pub(crate) fn put_origin(out: &mut [u8], at: usize, o: Origin) -> usize
    requires { at + 89 ≤ length out.old }
    ensures { Wrote out.old out.new at result (origin_text (origin_of o)) }
{
    match o {
        Origin::Value(v) => put_value(out, at, v),
        Origin::Range(q) => put_range(out, at, q),
    }
}
