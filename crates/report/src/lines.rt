// The report's lines. A number has at most 20 digits, a word of a list at most 10; each stands behind a space or begins a line.
ghost use Rattle.std.specs.Prelude.{◌≡◌, ◌+◌, ◌*◌, ◌≤◌, ◌∷◌, length, take};
ghost use Rattle.finite.specs.Writing.{Wrote};
ghost use Rattle.finite.specs.Decimal.{space};
ghost use Rattle.state.specs.Meaning.{answer_of};
ghost use Rattle.report.specs.Report.{word_text, numbers_text, shown_text, answer_text, command_line, design_line, refusal_line, list_line, list_lines};

use state::{Answer, Design, Shown, show};
use text::{put_byte, put_bytes, put_decimal, put_spaced};

// The word of an answer, by its number, behind a space. Two have none: 14, three numbers alone, and 17, a sentence, which put_answer writes.
#[tactic(auto, unfolding(crate::specs::Report::word_text))]
fn word_of(word: u8) -> &'static [u8]
    ensures { result.now ≡ word_text word }
{
    match word {
        0 => b" loaded",
        1 => b" held",
        2 => b" no candidate",
        3 => b" dropped",
        4 => b" ground",
        5 => b" sent",
        6 => b" answer",
        7 => b" refused",
        8 => b" even",
        9 => b" uneven",
        10 => b" total",
        11 => b" knot",
        12 => b" desk",
        13 => b" open",
        15 => b" none",
        16 => b" absent",
        18 => b" rows",
        _ => b"",
    }
}

// Writes the word of an answer: at most 13 bytes.
fn put_word(out: &mut [u8], at: usize, word: u8) -> usize
    requires { at + 13 ≤ length out.old }
    ensures { Wrote out.old out.new at result (word_text word) }
{
    let text = word_of(word);
    put_bytes(out, at, text, text.len())
}

// Writes numbers, each behind a space: at most 21 bytes for each.
fn put_numbers(out: &mut [u8], at: usize, numbers: &[u64]) -> usize
    requires { at + 21 * length numbers.now ≤ length out.old }
    ensures { Wrote out.old out.new at result (numbers_text numbers.now) }
{
    let mut z = at;
    for &number in numbers {
        z = put_spaced(out, z, number);
    }
    z
}

// Writes what is shown of an answer: its word, its numbers, and the place behind a refusal. At most 370 bytes.
fn put_shown(out: &mut [u8], at: usize, shown: Shown, place: usize) -> usize
    requires { (shown.count ≤ 16) × (at + 370 ≤ length out.old) }
    ensures { Wrote out.old out.new at result (shown_text shown place) }
{
    let z = put_word(out, at, shown.word);
    let y = put_numbers(out, z, &shown.numbers[..shown.count as usize]);
    if shown.word != 7 {
        return y;
    }
    put_spaced(out, y, place as u64)
}

// Writes the first n bytes of a text, or all of them where it has fewer, behind a space.
fn put_text(out: &mut [u8], at: usize, text: &[u8], n: u64) -> usize
    requires { at + 1 + length text.now ≤ length out.old }
    ensures { Wrote out.old out.new at result (space ∷ take n text.now) }
{
    let z = put_byte(out, at, b' ');
    put_bytes(out, z, text, text.len().min(n as usize))
}

// Writes an answer, with the text that was written with it where it has one. At most 370 bytes, and those of the text.
fn put_answer(out: &mut [u8], at: usize, answer: Answer, place: usize, text: &[u8]) -> usize
    requires { at + 370 + length text.now ≤ length out.old }
    ensures { Wrote out.old out.new at result (answer_text (answer_of answer) place text.now) }
{
    let s = show(answer);
    if s.word != 17 {
        return put_shown(out, at, s, place);
    }
    put_text(out, at, text, s.numbers[0])
}

// Writes a command's line: its number, and its answer, where `text` is lent. At most 391 bytes, and those of the text.
pub fn put_command_line(
    out: &mut [u8],
    at: usize,
    number: usize,
    answer: Answer,
    place: usize,
    text: &[u8],
) -> usize
    requires { at + 391 + length text.now ≤ length out.old }
    ensures { Wrote out.old out.new at result (command_line number (answer_of answer) place text.now) }
{
    let z = put_decimal(out, at, number as u64);
    let y = put_answer(out, z, answer, place, text);
    put_byte(out, y, b'\n')
}

// Writes an accepted design's line: its counts, and that of the rows that it was read with. At most 91 bytes.
pub fn put_design_line(out: &mut [u8], at: usize, d: Design, rows: usize) -> usize
    requires { at + 91 ≤ length out.old }
    ensures { Wrote out.old out.new at result (design_line d rows) }
{
    let z = put_bytes(out, at, b"design", 6);
    let y = put_spaced(out, z, d.tables as u64);
    let x = put_spaced(out, y, d.constraints as u64);
    let w = put_spaced(out, x, d.fillings as u64);
    let v = put_spaced(out, w, rows as u64);
    put_byte(out, v, b'\n')
}

// Writes a refused design's line: the cause's number and the place. At most 50 bytes.
pub fn put_refusal_line(out: &mut [u8], at: usize, cause: u8, place: usize) -> usize
    requires { at + 50 ≤ length out.old }
    ensures { Wrote out.old out.new at result (refusal_line cause place) }
{
    let z = put_bytes(out, at, b"refused", 7);
    let y = put_spaced(out, z, u64::from(cause));
    let x = put_spaced(out, y, place as u64);
    put_byte(out, x, b'\n')
}

// Writes words, each behind a space: at most 11 bytes for each, which is why they aren't written as numbers.
fn put_words(out: &mut [u8], at: usize, words: &[u32]) -> usize
    requires { at + 11 * length words.now + 10 ≤ length out.old }
    ensures { Wrote out.old out.new at result (numbers_text words.now) }
{
    let mut z = at;
    for &word in words {
        z = put_spaced(out, z, u64::from(word));
    }
    z
}

// Writes one list's line: its row numbers. At most 11 bytes for each.
fn put_list_line(out: &mut [u8], at: usize, list: &[u32]) -> usize
    requires { (1 ≤ length list.now) × (at + 11 * length list.now + 9 ≤ length out.old) }
    ensures { Wrote out.old out.new at result (list_line list.now 0 (length list.now)) }
{
    let z = put_decimal(out, at, u64::from(list[0]));
    let y = put_words(out, z, &list[1..]);
    put_byte(out, y, b'\n')
}

// Writes n lists of p row numbers, a line for each. At most 11 bytes for each number; there must be 9 bytes more, since every number asks for the
// room of 20 digits.
pub fn put_list_lines(out: &mut [u8], at: usize, words: &[u32], n: usize, p: usize) -> usize
    requires { (1 ≤ p) × (n * p ≤ length words.now) × (at + 11 * (n * p) + 9 ≤ length out.old) }
    ensures { Wrote out.old out.new at result (list_lines words.now n p) }
{
    let mut z = at;
    for i in 0..n {
        z = put_list_line(out, z, &words[p * i..p * i + p]);
    }
    z
}
