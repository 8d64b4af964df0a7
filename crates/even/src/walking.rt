// The costs of the cheapest walks from each table to each, in rounds: at 8 times the table where a walk begins and the one where it ends.
ghost use Rattle.std.specs.Prelude.{ℕ, ◌+◌, ◌*◌, ◌≤◌, ◌<◌, ◌≡◌, length, get_or};
ghost use Rattle.model.specs.Scheme.{Scheme};
ghost use Rattle.state.specs.Design.{InRange};
ghost use Rattle.state.specs.Meaning.{scheme_of};
ghost use Rattle.even.specs.Walks.{Cheap, Stepped, far, most_steps};

use crate::weighing::{FAR, weight_of};
use state::Design;

// Where the cost of the walk from table t to table u stands. Constant time.
pub(crate) fn cost_at(t: u8, u: u8) -> usize
    requires { (t < 8) × (u < 8) }
    ensures { result ≡ 8 * t + u }
{
    Design::TABLES * t as usize + u as usize
}

// The costs of walks of no step, whatever stood there. One step for each table.
fn no_steps(costs: &mut [u32; 64])
    ensures { (S : Scheme) → Cheap S 0 costs.new }
{
    *costs = [FAR; 64];
    for t in 0..Design::TABLES {
        costs[9 * t] = 0;
    }
}

// Lets the walks from table s begin with a step that weighs w, to table t, where that is cheaper: `costs` has the costs from there on. One step for each table.
fn step_to(costs: &[u32; 64], next: &mut [u32; 64], s: usize, t: usize, w: u32)
    requires { (s < 8) × (t < 8) × (w ≤ 65536) × (length costs.now ≡ 64) × (length next.old ≡ 64) × ((x : ℕ) → get_or costs.now x 0 ≤ far) }
    ensures { Stepped costs.now next.old s t w 8 next.new }
{
    for u in 0..Design::TABLES {
        let at = 8 * s + u;
        let onward = w + costs[8 * t + u];
        next[at] = next[at].min(onward);
    }
}

// The costs of walks of one step more. One step for each constraint and table.
fn round(d: Design, costs: &mut [u32; 64])
    requires { InRange d × ((m : ℕ) × Cheap (scheme_of d) m costs.old) }
    ensures { (m : ℕ) → Cheap (scheme_of d) m costs.old → Cheap (scheme_of d) (m + 1) costs.new }
{
    let old = *costs;
    let n = d.constraints;
    let constraint = d.constraint;
    for e in 0..n {
        let c = constraint[e];
        let w = weight_of(e);
        step_to(
            &old,
            costs,
            c.source.table as usize,
            c.target.table as usize,
            w,
        );
    }
}

// The costs of the cheapest walks, whatever stood there. Seven rounds.
pub(crate) fn walk_costs(d: Design, costs: &mut [u32; 64])
    requires { InRange d }
    ensures { Cheap (scheme_of d) most_steps costs.new }
{
    no_steps(costs);
    for _ in 1..Design::TABLES {
        round(d, costs);
    }
}
