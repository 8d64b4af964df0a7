// What an operation answers. specs/Meaning.antt sets out document 01's word, number and values for each case (`answer_of`).
ghost use Rattle.std.specs.Prelude.{◌≡◌, ◌+◌, ◌-◌, ◌≤◌, ◌<◌, length, set};
ghost use Rattle.model.specs.Answers as Model;
ghost use Rattle.state.specs.Meaning.{answer_of, bit, mask_members, shown_of};

use crate::design::Design;

#[derive(Clone, Copy)]
pub enum Answer {
    // rows added, later rounds that added a row
    Loaded(usize, usize),
    Held,
    NoCandidate,
    // rows that went
    Dropped(usize),
    // the lowest ground, and how many cached rows have the value
    Ground(u8, usize),
    Sent,
    // how many lists were written
    Lists(usize),
    // the cause's number
    Refused(u8),
    Even,
    // the two constraints that make a design uneven
    Uneven(u8, u8),
    // the sum of a cell over all lists
    Total(u64),
    // the constraints of the smallest knot, as a mask: constraint 0 has the highest of sixteen bits
    Knot(u16),
    // the desk that was named
    Named(u8),
    Open,
    // the filling, the number and the issue whose reference would give a ground
    OpenedBy(u8, u32, u8),
    NoOpener,
    // a row that isn't cached
    Absent,
    // the length of the text that says why a row is cached
    Explained(usize),
    // rows that came and rows that went, where the rows themselves have changed
    Changed(usize, usize),
}

// An answer as the report shows it: its word, by number, how many numbers stand behind it, and these, 0 behind the last.
#[derive(Clone, Copy)]
pub struct Shown {
    pub word: u8,
    pub count: u8,
    pub numbers: [u64; 16],
}

impl Shown {
    // One more number behind the others.
    fn push(&mut self, number: u64)
        requires { self.old.count < 16 }
        ensures { self.new ≡ record { word = self.old.word; count = self.old.count + 1; numbers = set self.old.numbers self.old.count number } }
    {
        self.numbers[usize::from(self.count)] = number;
        self.count += 1;
    }
}

// A word with its numbers. Constant time, as are the other functions but `members`.
fn words(word: u8, numbers: &[u64]) -> Shown
    requires { length numbers.now ≤ 16 }
    ensures { result ≡ shown_of (record { word = word; numbers = numbers.now }) }
{
    let mut all = [0u64; 16];
    all[..numbers.len()].copy_from_slice(numbers);
    Shown {
        word,
        count: numbers.len() as u8,
        numbers: all,
    }
}

// Whether the mask has constraint e.
fn has_constraint(mask: u16, e: usize) -> bool
    requires { e < 16 }
    ensures { result ≡ bit mask (15 - e) }
{
    (mask >> (15 - e)) % 2 == 1
}

// A word with the constraints of a mask. One step for each of sixteen.
fn members(word: u8, mask: u16) -> Shown
    ensures { result ≡ shown_of (record { word = word; numbers = mask_members mask }) }
{
    let mut s = words(word, &[]);
    for e in 0..Design::CONSTRAINTS {
        if has_constraint(mask, e) {
            s.push(e as u64);
        }
    }
    s
}

// The one function by cases: a new answer has one line here.
#[tactic(auto, unfolding(model::specs::Answers::shown))]
pub fn show(answer: Answer) -> Shown
    ensures { result ≡ shown_of (Model.shown (answer_of answer)) }
{
    match answer {
        Answer::Loaded(rows, rounds) => words(0, &[rows as u64, rounds as u64]),
        Answer::Held => words(1, &[]),
        Answer::NoCandidate => words(2, &[]),
        Answer::Dropped(rows) => words(3, &[rows as u64]),
        Answer::Ground(g, rows) => words(4, &[u64::from(g), rows as u64]),
        Answer::Sent => words(5, &[]),
        Answer::Lists(n) => words(6, &[n as u64]),
        Answer::Refused(cause) => words(7, &[u64::from(cause)]),
        Answer::Even => words(8, &[]),
        Answer::Uneven(i, j) => words(9, &[u64::from(i), u64::from(j)]),
        Answer::Total(n) => words(10, &[n]),
        Answer::Knot(mask) => members(11, mask),
        Answer::Named(desk) => words(12, &[u64::from(desk)]),
        Answer::Open => words(13, &[]),
        Answer::OpenedBy(f, n, i) => words(14, &[u64::from(f), u64::from(n), u64::from(i)]),
        Answer::NoOpener => words(15, &[]),
        Answer::Absent => words(16, &[]),
        Answer::Explained(n) => words(17, &[n as u64]),
        Answer::Changed(came, went) => words(18, &[came as u64, went as u64]),
    }
}

// Whether an answer is a refusal.
#[tactic(auto, unfolding(model::specs::Answers::is_refusal, model::specs::Answers::shown))]
pub fn is_refusal(answer: Answer) -> bool
    ensures { result ≡ Model.is_refusal (answer_of answer) }
{
    matches!(answer, Answer::Refused(_))
}

// Whether an answer has lists.
#[tactic(auto, unfolding(model::specs::Answers::has_lists, model::specs::Answers::shown))]
pub fn has_lists(answer: Answer) -> bool
    ensures { result ≡ Model.has_lists (answer_of answer) }
{
    matches!(answer, Answer::Lists(_))
}
