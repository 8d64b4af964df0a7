// One value of a row that comes or goes, in the directory: a place is opened or closed, or the value's first row is another.
ghost use Rattle.std.specs.Prelude.{◌≡◌, cond, ◌&&◌, ℕ, ◌-◌, ◌≤◌, ◌<◌, eqb, ltb, length, get_or};
ghost use Rattle.catalog.specs.Listing.{Moved};
ghost use Rattle.mend.specs.Values.{Comes, Goes, Raised, Seats, Stands};

use catalog::{make_room, seat, stands, wide};

// Moves the elements behind place a, up to place m, one place back. A step for each.
fn close_room(keys: &mut [u64; 4096], heads: &mut [u16; 4096], a: usize, m: usize)
    requires { (a < m) × (m ≤ 4096) × (length keys.old ≡ 4096) × (length heads.old ≡ 4096) }
    ensures { Moved a (m - 1) keys.new keys.old × Moved a (m - 1) heads.new heads.old }
{
    keys.copy_within(a + 1..m, a);
    heads.copy_within(a + 1..m, a);
}

// The columns behind number n begin one place on. A step for each.
fn raise(starts: &mut [u16; 65], n: usize)
    requires { (n < 64) × (length starts.old ≡ 65) × ((j : ℕ) → j < 65 → get_or starts.old j 0 < 4096) }
    ensures { Raised n starts.old starts.new }
{
    for j in n + 1..65 {
        starts[j] += 1;
    }
}

// The columns behind number n begin one place back. A step for each.
fn sink(starts: &mut [u16; 65], n: usize)
    requires { (n < 64) × (length starts.old ≡ 65) × ((j : ℕ) → n < j → j < 65 → 0 < get_or starts.old j 0) }
    ensures { Raised n starts.new starts.old }
{
    for j in n + 1..65 {
        starts[j] -= 1;
    }
}

// Row r comes with the key x in column n. A binary search; where x is new, a step for each value behind it.
pub(crate) fn put_value(
    keys: &mut [u64; 4096],
    heads: &mut [u16; 4096],
    starts: &mut [u16; 65],
    n: usize,
    x: u64,
    r: usize,
)
    requires { (n < 64) × (r < 512) × Seats n keys.old heads.old starts.old × (get_or starts.old 64 0 < 4096) }
    ensures { Comes x r n keys.old heads.old starts.old keys.new heads.new starts.new }
{
    let to = wide(starts[n + 1]);
    let a = seat(keys, wide(starts[n]), to, x);
    if stands(keys, to, a, x) {
        heads[a] = heads[a].min(r as u16);
        return;
    }
    make_room(keys, heads, a, wide(starts[64]));
    keys[a] = x;
    heads[a] = r as u16;
    raise(starts, n);
}

// The first row of a value whose first row was h, where row r goes, whose next row is `next`. Constant time.
fn first_without(h: u16, r: u16, next: u16) -> u16
    ensures { result ≡ cond (eqb h r) next h }
{
    if h == r { next } else { h }
}

// Row r goes, which has the key x in column n, and the next row `next` there. A binary search; where no other row has x, a step for each value behind it.
pub(crate) fn drop_value(
    keys: &mut [u64; 4096],
    heads: &mut [u16; 4096],
    starts: &mut [u16; 65],
    n: usize,
    x: u64,
    r: usize,
    next: u16,
)
    requires { (n < 64) × (r < 512) × Seats n keys.old heads.old starts.old × ((i : ℕ) × Stands x n i keys.old starts.old) }
    ensures { Goes x r n next keys.old heads.old starts.old keys.new heads.new starts.new }
{
    let a = seat(keys, wide(starts[n]), wide(starts[n + 1]), x);
    if alone(heads[a], r as u16, next) {
        close_room(keys, heads, a, wide(starts[64]));
        sink(starts, n);
        return;
    }
    heads[a] = first_without(heads[a], r as u16, next);
}

// Whether row r alone has a value whose first row is h, where its next row is `next`. Constant time.
fn alone(h: u16, r: u16, next: u16) -> bool
    ensures { result ≡ eqb h r && ltb 511 next }
{
    h == r && 512 <= next
}
