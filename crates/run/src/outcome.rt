// What a whole run of a script, and a probe behind one, give back.
use format::Verdict;
use state::{Answer, Design};

// What a run gives: whether the design was accepted, and the design (empty where it was not).
#[derive(Clone, Copy)]
pub struct Run {
    pub verdict: Verdict,
    pub design: Design,
}

// What a run gives, and the answer of a probe behind it.
#[derive(Clone, Copy)]
pub struct ProbedRun {
    pub run: Run,
    pub answer: Answer,
}
