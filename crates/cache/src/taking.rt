// Which filling a query's value is referred by, and whether a REFER takes a pair.
ghost use Rattle.std.specs.Prelude.{◌≡◌, ◌≤◌};
ghost use Rattle.model.specs.Runs.{filling_for, taken};
ghost use Rattle.state.specs.HeldWords.{words_held};
ghost use Rattle.state.specs.Meaning.{column_of, holding_of, pair_of, scheme_of};

use crate::values::{has_room, listed};
use lawful::is_candidate;
use state::{Column, Design, HeldValue, same_column};

// The filling of the column; the number of fillings where it has none. One look at each filling.
pub fn filling_for(design: Design, k: Column) -> usize
    requires { design.fillings ≤ 8 }
    ensures { result ≡ filling_for (scheme_of design) (column_of k) }
{
    (0..design.fillings)
        .find(|&f| same_column(design.filling[f].column, k))
        .unwrap_or(design.fillings)
}

// Whether a REFER takes the pair: the filling exists, the value is a candidate, and the named desk doesn't hold it already and has room. Two looks at each
// held value.
#[tactic(auto, unfolding(model::specs::Runs::taken, state::specs::Meaning::scheme_of))]
pub fn takes(design: Design, held: &[u32; 358], v: HeldValue) -> bool
    requires { (design.fillings ≤ 8) × ((words_held held.now).count ≤ 64) }
    ensures { result ≡ taken (scheme_of design) (holding_of (words_held held.now)) (pair_of v) }
{
    let f = usize::from(v.filling);
    f < design.fillings
        && is_candidate(design.filling[f], v.value)
        && !listed(held, v)
        && has_room(held)
}
