// The parts of a column's verdict, each one look at the design's constraints or fillings. `can` tells which tables can have a cached row.
ghost use Rattle.std.specs.Prelude.{◌<◌, ◌≡◌, unwrap_or, IfSome};
ghost use Rattle.finite.specs.Finite.{all, tab};
ghost use Rattle.model.specs.Verdict.{fetches, can_cache, links_to, lowest_link, once_unique, elsewhere_or, is_one_column};
ghost use Rattle.state.specs.Design.{InRange};
ghost use Rattle.state.specs.Meaning.{column_of, scheme_of};

use lawful::is_unique;
use state::{Column, Constraint, Design, same_column};

// Whether a filling has the column.
pub(crate) fn is_filled(d: Design, k: Column) -> bool
    requires { InRange d }
    ensures { result ≡ fetches (scheme_of d) (column_of k) }
{
    (0..d.fillings).any(|i| same_column(d.filling[i].column, k))
}

// Whether constraint i ends at the column and starts from a table that can have a cached row. Constant time.
fn links_to(d: Design, can: [bool; 8], k: Column, i: usize) -> bool
    requires { InRange d × (i < 16) × (can ≡ tab 8 (can_cache (scheme_of d))) }
    ensures { result ≡ links_to (scheme_of d) (column_of k) i }
{
    let c = d.constraint[i];
    same_column(c.target, k) && can[usize::from(c.source.table)]
}

// The lowest such constraint, if there is one.
pub(crate) fn lowest_link(d: Design, can: [bool; 8], k: Column) -> Option<usize>
    requires { InRange d × (can ≡ tab 8 (can_cache (scheme_of d))) }
    ensures { (unwrap_or result d.constraints ≡ lowest_link (scheme_of d) (column_of k)) × IfSome result (λ i. i < d.constraints) }
{
    (0..d.constraints).find(|&i| links_to(d, can, k, i))
}

// Whether the column is unique in a table that can have a cached row. Constant time.
pub(crate) fn is_once_unique(d: Design, can: [bool; 8], k: Column) -> bool
    requires { (k.table < 8) × (can ≡ tab 8 (can_cache (scheme_of d))) }
    ensures { result ≡ once_unique (scheme_of d) (column_of k) }
{
    is_unique(d, k) && can[usize::from(k.table)]
}

// Whether column j is k, or lies in another table. Constant time.
#[tactic(auto, unfolding(model::specs::Verdict::elsewhere_or))]
fn elsewhere_or(k: Column, j: Column) -> bool
    ensures { result ≡ elsewhere_or (column_of k) (column_of j) }
{
    j.table != k.table || same_column(j, k)
}

// Whether all constraints that end at the column's table end at the column.
fn constraints_end_at(d: Design, k: Column) -> bool
    requires { InRange d }
    ensures { result ≡ all (scheme_of d).constraints (λ i. elsewhere_or (column_of k) ((scheme_of d).constraint i).target) }
{
    (0..d.constraints).all(|i| elsewhere_or(k, d.constraint[i].target))
}

// Whether all fillings of the column's table have the column.
fn fillings_end_at(d: Design, k: Column) -> bool
    requires { InRange d }
    ensures { result ≡ all (scheme_of d).fillings (λ f. elsewhere_or (column_of k) ((scheme_of d).filling f).column) }
{
    (0..d.fillings).all(|f| elsewhere_or(k, d.filling[f].column))
}

// Whether seeing a value in the column is enough: Req 13's condition.
#[tactic(auto, unfolding(model::specs::Verdict::is_one_column))]
pub(crate) fn is_one_column(d: Design, k: Column) -> bool
    requires { InRange d }
    ensures { result ≡ is_one_column (scheme_of d) (column_of k) }
{
    constraints_end_at(d, k) && fillings_end_at(d, k)
}
