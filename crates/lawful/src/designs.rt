// The whole design.
ghost use Rattle.std.specs.Prelude.{◌≡◌};
ghost use Rattle.state.specs.Lawful.{counts_fit, lawful_design};

use crate::constraints::constraints_lawful;
use crate::fillings::fillings_lawful;
use crate::tables::tables_lawful;
use state::Design;

// Whether the counts are at most the largest. Constant time.
#[tactic(auto, unfolding(state::specs::Lawful::counts_fit))]
fn counts_fit(d: Design) -> bool
    ensures { result ≡ counts_fit d }
{
    d.tables <= Design::TABLES
        && d.constraints <= Design::CONSTRAINTS
        && d.fillings <= Design::FILLINGS
}

// Whether a script gives this design: counts, tables, constraints and fillings, each place used or 0. Constraints squared.
#[tactic(auto, unfolding(state::specs::Lawful::lawful_design))]
pub fn lawful_design(d: Design) -> bool
    ensures { result ≡ lawful_design d }
{
    counts_fit(d) && tables_lawful(d) && constraints_lawful(d) && fillings_lawful(d)
}
