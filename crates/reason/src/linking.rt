// The links of a row's chain: each by the lowest constraint that demands the row of a row one nearer to what is held, and of the lowest such row.
ghost use Rattle.std.specs.Prelude.{◌≡◌, ℕ, ◌+◌, ◌≤◌, ◌<◌, get_or};
ghost use Rattle.finite.specs.Finite.{first};
ghost use Rattle.model.specs.Rounds.{leads, level};
ghost use Rattle.model.specs.Reason.{last_constraint, last_row};
ghost use Rattle.state.specs.Design.{InRange, no_constraint};
ghost use Rattle.state.specs.Meaning.{constraint_of, scheme_of};
ghost use Rattle.reason.specs.Links.{Chained, Graded, Ranked, lower_link};
ghost use Rattle.state.specs.Rows.{database_in, IsBacked};

use state::{Constraint, Design, Rows, cell_at, is_live};

// A constraint's number, and the row that it demands another of.
#[derive(Clone, Copy)]
pub(crate) struct Link {
    pub constraint: usize,
    pub row: usize,
}

// Whether the constraint demands row r of row s. Most often the numbers of the two cells tell that it doesn't. Constant time.
fn demands_row(rows: &Rows, j: Constraint, s: usize, r: usize) -> bool
    requires { (s < 512) × (r < 512) × (j.source.place < 8) × (j.target.place < 8) × IsBacked rows.now }
    ensures { result ≡ leads (database_in rows.now) (constraint_of j) s r }
{
    let a = cell_at(rows.cells, rows.issues, s, j.source.place as usize);
    let b = cell_at(rows.cells, rows.issues, r, j.target.place as usize);
    if a.number != b.number {
        return false;
    }
    if !is_live(rows.tables, s) {
        return false;
    }
    if rows.tables[s] != j.source.table {
        return false;
    }
    rows.has(j.target, a, r)
}

// The lowest of the first `most` constraints that demands row r of row s; `most` if none does. A look at each of them, up to the one that is found.
fn first_constraint(
    constraint: [Constraint; 16],
    most: usize,
    rows: &Rows,
    s: usize,
    r: usize,
) -> usize
    requires most_bound { (most ≤ 16) × (s < 512) × (r < 512) × IsBacked rows.now }
    requires by_index { (i : ℕ) → ((get_or constraint i no_constraint).source.place < 8) × ((get_or constraint i no_constraint).target.place < 8) }
    ensures { result ≡ first most (λ x. leads (database_in rows.now)
        (constraint_of (get_or constraint x no_constraint)) s r) }
{
    (0..most)
        .find(|&i| demands_row(rows, constraint[i], s, r))
        .unwrap_or(most)
}

// The link by constraint i from row s, if i is lower than that of the lowest so far. Constant time.
#[tactic(auto, unfolding(crate::specs::Links::lower_link))]
fn lower_link(best: Link, i: usize, s: usize) -> Link
    ensures { result ≡ lower_link best i s }
{
    if i < best.constraint {
        Link {
            constraint: i,
            row: s,
        }
    } else {
        best
    }
}

// The last link of the chain of row r, which is n + 1 constraints away from what is held. A look at each constraint for each row that is n away. The levels
// are there for the contract alone; the constraints stand beside the design so that it isn't copied.
fn last_link(
    d: Design,
    constraint: [Constraint; 16],
    rows: &Rows,
    levels: &[u16; 512],
    heads: &[u16; 514],
    next: &[u16; 512],
    r: usize,
    n: usize,
) -> Link
    requires in_range { InRange d × (constraint ≡ d.constraint) × (r < 512) × (n < 511) × IsBacked rows.now }
    requires ranked { Ranked levels.now (n + 3) heads.now next.now
        × Graded (scheme_of d) (database_in rows.now) levels.now × (level levels.now r ≡ n + 3) }
    ensures { (result.constraint ≡ last_constraint (scheme_of d) (database_in rows.now) levels.now n r)
        × (result.row ≡ last_row (scheme_of d) (database_in rows.now) levels.now n r) }
{
    let mut best = Link {
        constraint: d.constraints,
        row: Design::ROWS,
    };
    let mut s = usize::from(heads[n + 2]);
    // each row's entry names the next row of its level
    while s < Design::ROWS {
        let i = first_constraint(constraint, best.constraint, rows, s, r);
        best = lower_link(best, i, s);
        s = usize::from(next[s]);
    }
    best
}

// Notes the links of the chain of row r, which is n constraints away from what is held: behind each distance from 1 on the constraint and the row of the link
// there. A look at each constraint for each row that is nearer to what is held than row r.
pub(crate) fn find_links(
    d: Design,
    rows: &Rows,
    levels: &[u16; 512],
    heads: &[u16; 514],
    next: &[u16; 512],
    r: usize,
    n: usize,
    by: &mut [u16; 512],
    from: &mut [u16; 512],
)
    requires in_range { InRange d × (r < 512) × (n < 512) × IsBacked rows.now }
    requires ranked { Ranked levels.now (n + 2) heads.now next.now
        × Graded (scheme_of d) (database_in rows.now) levels.now × (level levels.now r ≡ n + 2) }
    ensures { Chained (scheme_of d) (database_in rows.now) levels.now
        by.new from.new n r }
{
    *by = [0u16; 512];
    *from = [0u16; 512];
    let constraint = d.constraint;
    let mut s = r;
    for k in (1..=n).rev() {
        let link = last_link(d, constraint, rows, levels, heads, next, s, k - 1);
        by[k] = link.constraint as u16;
        from[k] = link.row as u16;
        s = link.row;
    }
}
