// Whether a design is even: the lowest pair of constraints that makes it uneven, if there is one.
ghost use Rattle.std.specs.Prelude.{◌≡◌, not, ◌&&◌, ◌<◌, eqb};
ghost use Rattle.model.specs.Answers.{even_answer};
ghost use Rattle.model.specs.Even.{reaches, square, uneven_from};
ghost use Rattle.state.specs.Design.{InRange};
ghost use Rattle.state.specs.Meaning.{answer_of, scheme_of};

use crate::reaching::reachable;
use state::{Answer, Constraint, Design};

// Whether constraints a and b make the design uneven, where `back` says whether b's target table reaches a's source table. Constant time.
fn is_uneven(a: Constraint, b: Constraint, back: bool) -> bool
    ensures { result ≡ eqb a.target.table b.source.table && (not (eqb a.target.place b.source.place) && back) }
{
    a.target.table == b.source.table && (a.target.place != b.source.place && back)
}

// The lowest j with which constraint i makes the design uneven; the number of constraints if there is none. One look at each constraint.
fn uneven_from(d: Design, m: [[bool; 8]; 8], i: usize) -> usize
    requires { InRange d × (i < 16) × (m ≡ square (reaches (scheme_of d))) }
    ensures { result ≡ uneven_from (scheme_of d) i }
{
    let n = d.constraints;
    let constraint = d.constraint;
    let a = constraint[i];
    (0..n)
        .find(|&j| {
            let b = constraint[j];
            is_uneven(a, b, m[b.target.table as usize][a.source.table as usize])
        })
        .unwrap_or(n)
}

// Whether the design is even, or the lowest i and then the lowest j that make it uneven. Tables cubed, and constraints squared.
pub fn evenness(d: Design) -> Answer
    requires { InRange d }
    ensures { answer_of result ≡ even_answer (scheme_of d) }
{
    let m = reachable(d);
    let n = d.constraints;
    for i in 0..n {
        let j = uneven_from(d, m, i);
        if j < n {
            return Answer::Uneven(i as u8, j as u8);
        }
    }
    Answer::Even
}
