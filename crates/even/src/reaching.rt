// Which tables reach which along constraints: one table for all designs, closed by passing through each of the eight tables in turn.
ghost use Rattle.std.specs.Prelude.{◌≡◌, ◌≤◌, ◌<◌, false, ◌&&◌, ◌||◌, eqb, get_or};
ghost use Rattle.finite.specs.Finite.{tab};
ghost use Rattle.model.specs.Even.{linked, reaches, square};
ghost use Rattle.state.specs.Meaning.{scheme_of};
ghost use Rattle.even.specs.Reading.{through_at, with_link};

use state::Design;

// The row of table t by itself: it reaches itself. Constant time, as are the next and the one after `alone`.
fn own_row(t: usize) -> [bool; 8]
    requires { t < 8 }
    ensures { result ≡ tab 8 (eqb t) }
{
    let mut row = [false; 8];
    row[t] = true;
    row
}

// Each table reaches itself, and no other.
fn alone() -> [[bool; 8]; 8]
    ensures { result ≡ square eqb }
{
    let mut m = [[false; 8]; 8];
    for t in 0..Design::TABLES {
        m[t] = own_row(t);
    }
    m
}

// With a link from table s to table t, where both are among the eight.
fn with_link(m: [[bool; 8]; 8], s: usize, t: usize) -> [[bool; 8]; 8]
    ensures { result ≡ with_link m s t }
{
    let mut n = m;
    if s < Design::TABLES && t < Design::TABLES {
        n[s][t] = true;
    }
    n
}

// Which tables are linked. One step for each constraint.
fn linked_tables(d: Design) -> [[bool; 8]; 8]
    requires { d.constraints ≤ 16 }
    ensures { result ≡ square (linked (scheme_of d)) }
{
    let n = d.constraints;
    let constraint = d.constraint;
    let mut m = alone();
    for i in 0..n {
        let c = constraint[i];
        // named first, as in `reachable`: no proof is made of a call whose result is laid straight into a variable that holds an array
        let next = with_link(m, c.source.table as usize, c.target.table as usize);
        m = next;
    }
    m
}

// Whether a table reaches another directly, or a third one `there` from which it is reached. Constant time.
fn is_through(direct: bool, there: bool, onward: bool) -> bool
    ensures { result ≡ direct || (there && onward) }
{
    direct || (there && onward)
}

// The row `own` of a table, with what it reaches through table k, whose row is `way`.
fn through_row(own: [bool; 8], way: [bool; 8], k: usize) -> [bool; 8]
    requires { k < 8 }
    ensures { result ≡ tab 8 (λ u. get_or own u false || (get_or own k false && get_or way u false)) }
{
    let there = own[k];
    let mut row = [false; 8];
    for u in 0..Design::TABLES {
        row[u] = is_through(own[u], there, way[u]);
    }
    row
}

fn through_tables(m: [[bool; 8]; 8], k: usize) -> [[bool; 8]; 8]
    requires { k < 8 }
    ensures { result ≡ square (through_at m k) }
{
    let way = m[k];
    let mut n = [[false; 8]; 8];
    for t in 0..Design::TABLES {
        n[t] = through_row(m[t], way, k);
    }
    n
}

// Which tables reach which, closed under the constraints. Tables cubed.
pub fn reachable(d: Design) -> [[bool; 8]; 8]
    requires { d.constraints ≤ 16 }
    ensures { result ≡ square (reaches (scheme_of d)) }
{
    let mut m = linked_tables(d);
    for k in 0..Design::TABLES {
        let n = through_tables(m, k);
        m = n;
    }
    m
}
