// Fillings: their candidates, whether one can stand at a number, and whether all places are lawful.
ghost use Rattle.std.specs.Prelude.{◌≡◌, ◌≤◌};
ghost use Rattle.finite.specs.Finite.{any};
ghost use Rattle.model.specs.Scheme.{candidate, same_column};
ghost use Rattle.state.specs.Design.{filling_at};
ghost use Rattle.state.specs.Meaning.{cell_of, column_of, filling_of};
ghost use Rattle.state.specs.Lawful.{filling_fits};
ghost use Rattle.lawful.specs.Parts.{fillings_lawful};

use crate::places::places_lawful;
use crate::tables::is_column;
use state::{Cell, Column, Design, Filling};

// Whether the value is a candidate of the filling. Constant time.
#[tactic(auto, unfolding(model::specs::Scheme::candidate))]
pub fn is_candidate(f: Filling, v: Cell) -> bool
    ensures { result ≡ candidate (filling_of f) (cell_of v) }
{
    (f.low..=f.high).contains(&v.number)
}

// Whether one of the first n fillings has the column. One look at each.
fn column_filled(d: Design, n: usize, k: Column) -> bool
    requires { n ≤ 8 }
    ensures { result ≡ any n (λ i. same_column (column_of (filling_at d i).column) (column_of k)) }
{
    d.filling[..n].iter().any(|f| f.column == k)
}

// Whether f can stand as filling n: the column exists, low is neither 0 nor above high, and no filling before it has the column. One look at each
// filling before it.
#[tactic(auto, unfolding(state::specs::Lawful::filling_fits))]
pub fn filling_fits(d: Design, n: usize, f: Filling) -> bool
    requires { n ≤ 8 }
    ensures { result ≡ filling_fits d n f }
{
    is_column(d, f.column) && 1 <= f.low && f.low <= f.high && !column_filled(d, n, f.column)
}

// Whether all places of the fillings are lawful: fillings that fit there, or unused and 0. Half the fillings squared.
pub(crate) fn fillings_lawful(d: Design) -> bool
    ensures { result ≡ fillings_lawful d }
{
    places_lawful(
        Design::FILLINGS,
        d.fillings,
        |i| filling_fits(d, i, d.filling[i]),
        |i| d.filling[i] == Filling::default(),
    )
}
