// Ground 1: looking for a value among the held values and ranges. What looks at one of them is lent the design: by value, its 200 bytes would be copied at each turn.
ghost use Rattle.std.specs.Prelude.{ℕ, ◌<◌, ◌≤◌, ◌≡◌};
ghost use Rattle.finite.specs.Finite.{any};
ghost use Rattle.model.specs.Ranges.{range_holds};
ghost use Rattle.model.specs.Holding.{all_ranges, one, pairs_hold, ranges_hold, held_in};
ghost use Rattle.state.specs.Held.{Bounded, held_at, range_at, ranges_at};
ghost use Rattle.state.specs.HeldWords.{words_held};
ghost use Rattle.state.specs.Meaning.{cell_of, column_of, range_of, scheme_of, values_of, lists_of, holding_of};

use state::{
    Cell, Column, Design, HeldValue, Range, in_range, range_at, range_count, same_cell,
    same_column, value_at, value_count,
};

// Whether the held value h is v and its filling's column is k. The value is compared first, which tells most held values apart. Constant time.
fn is_held_by(d: &Design, h: HeldValue, k: Column, v: Cell) -> bool
    requires { h.filling < 8 }
    ensures { result ≡ one ((scheme_of d.now).filling h.filling).column (cell_of h.value) (column_of k) (cell_of v) }
{
    same_cell(h.value, v) && same_column(d.filling[h.filling as usize].column, k)
}

// Whether a filling of the column holds the value as a pair, for whatever desk. One comparison for each held value that is another.
fn is_held_value(d: Design, held: &[u32; 358], k: Column, v: Cell) -> bool
    requires { ((words_held held.now).count ≤ 64) × ((i : ℕ) → (held_at (words_held held.now) i).pair.filling < 8) }
    ensures { result ≡ pairs_hold (scheme_of d) (values_of (words_held held.now)) (column_of k) (cell_of v) }
{
    (0..value_count(held)).any(|i| is_held_by(&d, value_at(held, i).pair, k, v))
}

// Whether the range has v and its filling's column is k. Constant time.
fn is_held_in(d: &Design, r: Range, k: Column, v: Cell) -> bool
    requires { r.filling < 8 }
    ensures { result ≡ range_holds (scheme_of d.now) (range_of r) (column_of k) (cell_of v) }
{
    in_range(r, v) && same_column(d.filling[r.filling as usize].column, k)
}

// Whether one of desk e's ranges of the column has the value. One look at each.
fn is_held_at(d: &Design, held: &[u32; 358], e: usize, k: Column, v: Cell) -> bool
    requires { (e < 4) × Bounded (words_held held.now) }
    ensures { result ≡ any (ranges_at (words_held held.now) e).count
        (λ i. range_holds (scheme_of d.now) (range_of (range_at (ranges_at (words_held held.now) e) i)) (column_of k) (cell_of v)) }
{
    (0..range_count(held, e)).any(|i| is_held_in(d, range_at(held, e, i), k, v))
}

// Whether a range of the column has the value, for whatever desk. One look at each range.
fn is_held_range(d: Design, held: &[u32; 358], k: Column, v: Cell) -> bool
    requires { Bounded (words_held held.now) }
    ensures { result ≡ ranges_hold (scheme_of d) (all_ranges (lists_of (words_held held.now))) (column_of k) (cell_of v) }
{
    (0..4).any(|e| is_held_at(&d, held, e, k, v))
}

// Whether a filling of the column holds the value, as a pair or in a range, for whatever desk. One look at each held value and range.
pub(crate) fn is_held(d: Design, held: &[u32; 358], k: Column, v: Cell) -> bool
    requires { Bounded (words_held held.now) }
    ensures { result ≡ held_in (scheme_of d) (holding_of (words_held held.now)) (column_of k) (cell_of v) }
{
    is_held_value(d, held, k, v) || is_held_range(d, held, k, v)
}
