// Whether two columns, two pairs, or two held values are the same. Constant time.
ghost use Rattle.std.specs.Prelude.{◌≡◌};
ghost use Rattle.model.specs.Holding.{same_owned, same_pair};
ghost use Rattle.model.specs.Scheme.{same_column};
ghost use Rattle.state.specs.Meaning.{column_of, owned_of, pair_of};

use crate::cell::same_cell;
use crate::design::Column;
use crate::held::{HeldValue, OwnedValue};

// Whether the two are one column.
#[tactic(auto, unfolding(model::specs::Scheme::same_column))]
pub fn same_column(j: Column, k: Column) -> bool
    ensures { result ≡ same_column (column_of j) (column_of k) }
{
    j == k
}

// Whether the two are one pair of filling and value.
#[tactic(auto, unfolding(model::specs::Holding::same_pair))]
pub fn same_pair(a: HeldValue, b: HeldValue) -> bool
    ensures { result ≡ same_pair (pair_of a) (pair_of b) }
{
    a.filling == b.filling && same_cell(a.value, b.value)
}

// Whether the two are one desk's one pair.
#[tactic(auto, unfolding(model::specs::Holding::same_owned))]
pub fn same_owned(a: OwnedValue, b: OwnedValue) -> bool
    ensures { result ≡ same_owned (owned_of a) (owned_of b) }
{
    a.desk == b.desk && same_pair(a.pair, b.pair)
}
