// The design with its constraints turned round.
ghost use Rattle.std.specs.Prelude.{◌≡◌};
ghost use Rattle.opener.specs.Turning.{turned_constraint, turned_design};

use state::{Constraint, Design};

// From target to source. Constant time.
fn turned_round(j: Constraint) -> Constraint
    ensures { result ≡ turned_constraint j }
{
    let source = j.target;
    let target = j.source;
    Constraint { source, target }
}

// The design with each constraint turned round. One pass over the 16 places.
pub(crate) fn turned(d: Design) -> Design
    ensures { result ≡ turned_design d }
{
    Design {
        constraint: d.constraint.map(turned_round),
        ..d
    }
}
