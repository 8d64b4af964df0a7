// Whether a value that a constraint demands of a row must still be fetched. Values mostly come in the order of the fetches, or again and again, or their numbers have few
// gaps, so each is first looked for where the constraint's last one was found, behind it, and as far from it as the numbers are apart.
ghost use Rattle.std.specs.Prelude.{◌*◌, ◌<◌, ◌≤◌, ◌&&◌, ◌≡◌, ltb, length};
ghost use Rattle.finite.specs.Finite.{any, first_from};
ghost use Rattle.model.specs.Database.{Database, has};
ghost use Rattle.model.specs.Missing as Model;
ghost use Rattle.model.specs.Missing.{is_fetched};
ghost use Rattle.model.specs.Rounds.{leads};
ghost use Rattle.model.specs.Scheme.{Scheme};
ghost use Rattle.state.specs.Meaning.{cell_of, column_of};
ghost use Rattle.catalog.specs.Catalog.{Demands};
ghost use Rattle.slice.specs.Fetches.{fetches_in, as_lack, Ordered};

use crate::fetch::{Fetch, fetch_at, span_fetch, value_fetch};
use crate::fetched::{covers_at, seek};
use catalog::first_row;
use state::{Cell, Column, Design, is_blank};

// Whether constraint i, which ends at a unique column if `sole`, does so and demands a row of row r: then the database has no other. Constant time.
pub(crate) fn others_whole(sole: bool, catalog: &[u16; 16449], r: usize, i: usize) -> bool
    requires { (r < 512) × (i < 16) }
    ensures { (S : Scheme) (D : Database) → Demands S D catalog.now → i < S.constraints
        → result ≡ sole && ltb (first_from 512 (leads D (S.constraint i) r) 0) 512 }
{
    sole && first_row(catalog, i, r) < Design::ROWS
}

// The place behind h; the first one behind the last. Constant time.
fn next_place(h: usize, n: usize) -> usize
    ensures { result ≤ n }
{
    if h < n { h + 1 } else { 0 }
}

// Where a value of this number would stand if the numbers between it and the one at place h had no gaps. Constant time.
fn guessed_place(words: &[u32], n: usize, h: usize, number: u32) -> usize
    requires { 5 * n ≤ length words.now }
    ensures { result ≤ n }
{
    if n <= h {
        return 0;
    }
    let f = fetch_at(words, h);
    if number < f.number {
        h.saturating_sub((f.number - number) as usize)
    } else {
        h.saturating_add((number - f.number) as usize).min(n)
    }
}

// Whether one of the first n fetches has the value v of column k, which constraint i demands. `places[i]` is where its last one was found, and what stands there decides
// the cost alone: a look there, at the next and at the place that the numbers make likely, else a search by halves. Where it was found is noted.
fn is_fetched_near(
    words: &[u32],
    n: usize,
    k: Column,
    v: Cell,
    places: &mut [usize; 16],
    i: usize,
) -> bool
    requires { Ordered words.now n × (i < 16) }
    ensures { result ≡ is_fetched (fetches_in words.now n) (column_of k) (cell_of v) }
{
    let h = places[i];
    if covers_at(words, n, h, k, v) {
        return true;
    }
    let g = next_place(h, n);
    if covers_at(words, n, g, k, v) {
        places[i] = g;
        return true;
    }
    let e = guessed_place(words, n, h, v.number);
    if covers_at(words, n, e, k, v) {
        places[i] = e;
        return true;
    }
    let a = seek(words, n, value_fetch(k, v));
    places[i] = a;
    covers_at(words, n, a, k, v)
        || covers_at(
            words,
            n,
            seek(words, n, span_fetch(k, v.number, v.number)),
            k,
            v,
        )
}

// Whether the value must still be fetched: it is neither blank nor known. `only` says that a row has it and no other of the database does.
fn is_open_near(
    only: bool,
    words: &[u32],
    n: usize,
    k: Column,
    v: Cell,
    places: &mut [usize; 16],
    i: usize,
) -> bool
    requires { Ordered words.now n × (i < 16) }
    ensures { (S : Scheme) (D : Database) → only ≡ S.unique (column_of k) && any D.size (has D (column_of k) (cell_of v))
        → result ≡ Model.is_open S D (fetches_in words.now n) (column_of k) (cell_of v) }
{
    if is_blank(v) {
        return false;
    }
    if only {
        return false;
    }
    !is_fetched_near(words, n, k, v, places, i)
}

// Its fetch, if it must.
pub(crate) fn near_lack(
    only: bool,
    words: &[u32],
    n: usize,
    k: Column,
    v: Cell,
    places: &mut [usize; 16],
    i: usize,
) -> Option<Fetch>
    requires { Ordered words.now n × (i < 16) }
    ensures { (S : Scheme) (D : Database) → only ≡ S.unique (column_of k) && any D.size (has D (column_of k) (cell_of v))
        → as_lack result ≡ Model.lack_of S D (fetches_in words.now n) (column_of k) (cell_of v) }
{
    is_open_near(only, words, n, k, v, places, i).then_some(value_fetch(k, v))
}
