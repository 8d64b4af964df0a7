// Which tables can ever have a cached row: those that a filling's table reaches along constraints.
ghost use Rattle.std.specs.Prelude.{◌<◌, ◌≡◌};
ghost use Rattle.finite.specs.Finite.{tab};
ghost use Rattle.model.specs.Even.{reaches, square};
ghost use Rattle.model.specs.Verdict.{can_cache};
ghost use Rattle.state.specs.Design.{InRange};
ghost use Rattle.state.specs.Meaning.{scheme_of};

use even::reachable;
use state::Design;
use std::array::from_fn;

// Whether a filling's table reaches table t, where m tells which tables reach which. One look at each filling.
fn can_cache(d: Design, m: [[bool; 8]; 8], t: usize) -> bool
    requires { InRange d × (t < 8) × (m ≡ square (reaches (scheme_of d))) }
    ensures { result ≡ can_cache (scheme_of d) t }
{
    (0..d.fillings).any(|f| m[usize::from(d.filling[f].column.table)][t])
}

// The same of each table. Tables cubed.
pub(crate) fn cached_tables(d: Design) -> [bool; 8]
    requires { InRange d }
    ensures { result ≡ tab 8 (can_cache (scheme_of d)) }
{
    let m = reachable(d);
    from_fn(|t| can_cache(d, m, t))
}
