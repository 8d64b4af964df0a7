// What a call tells a caller in C or Rust (specs/Told.antt). Constant time.
ghost use Rattle.std.specs.Prelude.{◌≡◌, cond, [], ◌∷◌};
ghost use Rattle.model.specs.Answers.{shown};
ghost use Rattle.state.specs.Meaning.{answer_of};
ghost use Rattle.format.specs.Reading.{DesignRead, verdict_of, design_of, rows_read};
ghost use Rattle.wurzsige.specs.Told.{design_word, Told, Placed, OpenTold};

use format::Verdict;
use state::{Answer, Design, show};

// Stores the answer's numbers and how many there are, and gives the number of its word.
pub(crate) fn tell(answer: Answer, numbers: &mut [u64; 16], count: &mut u8) -> u8
    ensures { Told (shown (answer_of answer)) result numbers.new count.new }
{
    let s = show(answer);
    let ns = s.numbers;
    *numbers = ns;
    *count = s.count;
    s.word
}

// 1 for true and 0 for false.
fn flag(b: bool) -> u8
    ensures { result ≡ cond b 1 0 }
{
    if b { 1 } else { 0 }
}

// Stores the place, the place after it and whether reading goes on.
pub(crate) fn tell_places(
    at: usize,
    end: usize,
    going: bool,
    place: &mut usize,
    after: &mut usize,
    more: &mut u8,
)
    ensures { Placed at end going place.new after.new more.new }
{
    *place = at;
    *after = end;
    *more = flag(going);
}

// Stores how many tables, constraints, fillings and rows there are.
fn tell_counts(d: Design, rows: usize, numbers: &mut [u64; 16], count: &mut u8) -> u8
    ensures { Told (record { word = design_word; numbers = d.tables ∷ d.constraints ∷ d.fillings ∷ rows ∷ [] }) result numbers.new count.new }
{
    let mut ns = [0u64; 16];
    ns[0] = d.tables as u64;
    ns[1] = d.constraints as u64;
    ns[2] = d.fillings as u64;
    ns[3] = rows as u64;
    *numbers = ns;
    *count = 4;
    19
}

// Tells of a reading: the counts of an accepted design and the place behind its END, or the cause of a refusal and its place.
pub(crate) fn tell_reading(
    verdict: Verdict,
    d: Design,
    rows: usize,
    numbers: &mut [u64; 16],
    count: &mut u8,
    place: &mut usize,
    after: &mut usize,
    more: &mut u8,
) -> u8
    ensures { (w : DesignRead) → verdict ≡ verdict_of w → d ≡ design_of w → rows ≡ rows_read w →
        OpenTold w result numbers.new count.new place.new after.new more.new }
{
    match verdict {
        Verdict::Accepted(end) => {
            tell_places(0, end, true, place, after, more);
            tell_counts(d, rows, numbers, count)
        }
        Verdict::Refused(cause, at) => {
            tell_places(at, 0, false, place, after, more);
            tell(Answer::Refused(cause), numbers, count)
        }
    }
}
