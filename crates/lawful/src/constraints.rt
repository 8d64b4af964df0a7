// Constraints: whether one can stand at a number, and whether all places are lawful.
ghost use Rattle.std.specs.Prelude.{◌≡◌, ◌≤◌};
ghost use Rattle.finite.specs.Finite.{any};
ghost use Rattle.state.specs.Design.{constraint_at};
ghost use Rattle.state.specs.Lawful.{constraint_fits, same_constraint};
ghost use Rattle.lawful.specs.Parts.{constraints_lawful};

use crate::places::places_lawful;
use crate::tables::is_column;
use state::{Constraint, Design};

// Whether one of the first n constraints is c. One look at each.
fn constraint_before(d: Design, n: usize, c: Constraint) -> bool
    requires { n ≤ 16 }
    ensures { result ≡ any n (λ i. same_constraint (constraint_at d i) c) }
{
    d.constraint[..n].contains(&c)
}

// Whether c can stand as constraint n: both columns exist, and none before it is the same. One look at each constraint before it.
#[tactic(auto, unfolding(state::specs::Lawful::constraint_fits))]
pub fn constraint_fits(d: Design, n: usize, c: Constraint) -> bool
    requires { n ≤ 16 }
    ensures { result ≡ constraint_fits d n c }
{
    is_column(d, c.source) && is_column(d, c.target) && !constraint_before(d, n, c)
}

// Whether all places of the constraints are lawful: constraints that fit there, or unused and 0. Half the constraints squared.
pub(crate) fn constraints_lawful(d: Design) -> bool
    ensures { result ≡ constraints_lawful d }
{
    places_lawful(
        Design::CONSTRAINTS,
        d.constraints,
        |i| constraint_fits(d, i, d.constraint[i]),
        |i| d.constraint[i] == Constraint::default(),
    )
}
