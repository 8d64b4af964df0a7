// The smallest knot: the fewest constraints that are still uneven. Each constraint weighs so much that the lightest uneven set is the one asked for, and its weight
// tells its members (specs/Walks.antt); it is a pair that makes the design uneven, with the cheapest walk back. No set is tried on its own.
ghost use Rattle.std.specs.Prelude.{◌≡◌, cond, ◌+◌, ◌≤◌, ◌<◌};
ghost use Rattle.model.specs.Answers.{knot_answer};
ghost use Rattle.state.specs.Design.{InRange};
ghost use Rattle.state.specs.Meaning.{answer_of, constraint_of, scheme_of};
ghost use Rattle.even.specs.Walks.{Cheap, far, knot_weight, most_steps, pair_weight, turns_off, weight_from};

use crate::walking::{cost_at, walk_costs};
use crate::weighing::{FAR, pair_weight};
use state::{Answer, Constraint, Design};

// The weight of constraints i and j, which are a and b, with the cheapest walk back, which costs `back`, where b turns off at a's end. Constant time.
fn weight_with(a: Constraint, b: Constraint, i: usize, j: usize, back: u32) -> u32
    requires { (i < 16) × (j < 16) × (back ≤ far) }
    ensures { result ≡ cond (turns_off (constraint_of a) (constraint_of b)) (pair_weight i j + back) far }
{
    if a.target.table != b.source.table {
        return FAR;
    }
    if a.target.place == b.source.place {
        return FAR;
    }
    pair_weight(i, j) + back
}

// The least weight with constraint i as the first of a pair. A look at each constraint.
fn weight_from(d: Design, costs: &[u32; 64], i: usize) -> u32
    requires { InRange d × (i < 16) × Cheap (scheme_of d) most_steps costs.now }
    ensures { result ≡ weight_from (scheme_of d) i }
{
    let n = d.constraints;
    let constraint = d.constraint;
    let a = constraint[i];
    let mut least = FAR;
    for j in 0..n {
        let b = constraint[j];
        let at = cost_at(b.target.table, a.source.table);
        let w = weight_with(a, b, i, j, costs[at]);
        least = least.min(w);
    }
    least
}

// The least weight of an uneven set of constraints. Seven times the constraints and tables, and the constraints squared.
fn knot_weight(d: Design) -> u32
    requires { InRange d }
    ensures { result ≡ knot_weight (scheme_of d) }
{
    let mut costs = [0u32; 64];
    walk_costs(d, &mut costs);
    let n = d.constraints;
    let mut least = FAR;
    for i in 0..n {
        let w = weight_from(d, &costs, i);
        least = least.min(w);
    }
    least
}

// The constraints of the smallest knot, or that the design is even. The cost of `knot_weight`.
pub fn smallest_knot(d: Design) -> Answer
    requires { InRange d }
    ensures { answer_of result ≡ knot_answer (scheme_of d) }
{
    let w = knot_weight(d);
    if FAR <= w {
        return Answer::Even;
    }
    Answer::Knot(((65536 - w % 65536) % 65536) as u16)
}
