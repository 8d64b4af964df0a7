// What a step of a script gives back.
use state::Answer;

// What a step gives: the answer, the place of a refusal (0 with any other answer), the place after the command, and whether
// reading goes on.
#[derive(Clone, Copy)]
pub struct Step {
    pub answer: Answer,
    pub place: usize,
    pub next: usize,
    pub more: bool,
}
