// What an operation gives back.
use state::{Answer, Held};

// The held values afterwards, and the answer.
#[derive(Clone, Copy)]
pub struct Outcome {
    pub held: Held,
    pub answer: Answer,
}
