// What reading a design answers: accepted, with the place after its END, or refused, with the cause and the place of the faulty command.
use state::Design;

#[derive(Clone, Copy)]
pub enum Verdict {
    Accepted(usize),
    Refused(u8, usize),
}

// The verdict with the design, which is empty where it is refused, and how many rows it has, 0 where it is refused. (An enum holds no array.)
#[derive(Clone, Copy)]
pub struct DesignReading {
    pub verdict: Verdict,
    pub design: Design,
    pub rows: usize,
}
