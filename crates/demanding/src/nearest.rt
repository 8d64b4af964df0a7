// The rows that demand a row, without a search of the directory: rows of which a constraint demands rows with the same first one demand the same rows, those
// along the links from that first one. So one pass over the rows that have a level finds the nearest for each first row, and one walk hands it on.
ghost use Rattle.std.specs.Prelude.{◌≡◌, cond, ◌+◌, ◌≤◌, ◌<◌, eqb, length};
ghost use Rattle.finite.specs.Finite.{first_from};
ghost use Rattle.model.specs.Cell.{Cell};
ghost use Rattle.model.specs.Database.{Database, has};
ghost use Rattle.model.specs.Scheme.{Column, Scheme};
ghost use Rattle.model.specs.Turned.{turned};
ghost use Rattle.state.specs.Design.{InRange};
ghost use Rattle.state.specs.Meaning.{scheme_of};
ghost use Rattle.catalog.specs.Catalog.{Demands, Links, Stored, firsts};
ghost use Rattle.demanding.specs.Demanding.{ByFirst, Demanding, Rising, Spread, chosen_at, nearer_of};

use catalog::{FIRSTS, first_row, next_row, store, wide};
use state::Design;

// Row s in place of `best`, if it has a level, and there was none or the level is lower. None is 512, as in the catalog, which takes the rows that are
// found as they stand. Constant time.
#[tactic(auto, unfolding(crate::specs::Demanding::nearer_of))]
fn nearer(levels: &[u16; 512], best: u16, s: usize) -> u16
    requires { s < 512 }
    ensures { result ≡ nearer_of levels.now best s }
{
    let l = levels[s];
    let replaces = l != 0 && (512 <= best || l < levels[usize::from(best)]);
    if replaces { s as u16 } else { best }
}

// What stands at row f; 512 for 512. Constant time.
#[tactic(auto, unfolding(crate::specs::Demanding::chosen_at))]
fn chosen(best: &[u16; 512], f: usize) -> u16
    ensures { result ≡ chosen_at best.now f }
{
    best.get(f).copied().unwrap_or(512)
}

// The rows that have a level, rising: the first `count`, with 512 behind them.
#[derive(Drop)]
struct Reached {
    rows: [u16; 513],
    count: usize,
}

// Those of these levels. One step for each row number.
fn reached_rows(levels: &[u16; 512]) -> Reached
    ensures { Rising levels.now result.count result.rows }
{
    let mut rows = [512u16; 513];
    let mut m: usize = 0;
    for s in 0..Design::ROWS {
        // the next one takes its place if it has no level
        rows[m] = s as u16;
        m += usize::from(levels[s] != 0);
    }
    rows[m] = 512;
    Reached { rows, count: m }
}

// For each row, the nearest of those of which constraint i demands rows with this one as the first, whatever stood there. One step for each of the rows
// that have a level.
fn nearest_by_first(
    catalog: &[u16; 16449],
    levels: &[u16; 512],
    reached: &Reached,
    i: usize,
    best: &mut [u16; 512],
)
    requires { (i < 16) × Rising levels.now reached.now.count reached.now.rows }
    ensures { (S : Scheme) (D : Database) → Demands S D catalog.now → i < S.constraints
        → ByFirst S D levels.now i best.new }
{
    *best = [512u16; 512];
    for &row in &reached.rows[..reached.count] {
        let s = wide(row);
        let f = first_row(catalog, i, s);
        if f < Design::ROWS {
            best[f] = nearer(levels, best[f], s);
        }
    }
}

// Notes row b, behind place a, for each of the rows that have a value at this place, the first of which is `from`. One step for each of them.
fn spread(
    catalog: &[u16; 16449],
    place: usize,
    from: usize,
    b: u16,
    a: usize,
    near: &mut [u16; 8192],
)
    requires { (place < 8) × (a + 512 ≤ 8192) × ((D : Database) × Links D catalog.now) }
    ensures { (D : Database) → Links D catalog.now → (k : Column) (v : Cell) → k.place ≡ place
        → from ≡ first_from 512 (has D k v) 0 → length near.old ≡ 8192 → Spread (has D k v) b a near.old near.new }
{
    let mut t = from;
    // along the links: each is the next row, as the catalog has it, or 512, which ends the walk
    while t < Design::ROWS {
        near[a + t] = b;
        t = next_row(catalog, t, place);
    }
}

// Notes for each row the nearest of those of which constraint i, which ends at this place, demands it. Two steps for each of the rows that have a level, and
// one for each row that they demand.
fn note_nearest(
    catalog: &[u16; 16449],
    levels: &[u16; 512],
    reached: &Reached,
    i: usize,
    place: usize,
    near: &mut [u16; 8192],
)
    requires { (i < 16) × (place < 8) × Rising levels.now reached.now.count reached.now.rows × ((D : Database) × Links D catalog.now) }
    ensures { (S : Scheme) (D : Database) → Demands S D catalog.now → i < S.constraints → (S.constraint i).target.place ≡ place
        → Demanding S D levels.now i near.old → Demanding S D levels.now (i + 1) near.new }
{
    let mut best = [512u16; 512];
    nearest_by_first(catalog, levels, reached, i, &mut best);
    for &s in &reached.rows[..reached.count] {
        let f = first_row(catalog, i, wide(s));
        if chosen(&best, f) == s {
            spread(catalog, place, f, s, 512 * i, near);
        }
    }
}

// For each constraint and row the nearest, by levels, of the rows of which the constraint demands it; 512 if none of these has a level. One step for each row
// number, and for each constraint two for each row that has a level and one for each row that it demands of them.
fn demanding_rows(d: Design, catalog: &[u16; 16449], levels: &[u16; 512], near: &mut [u16; 8192])
    requires { InRange d × ((D : Database) × Links D catalog.now) }
    ensures { (D : Database) → Demands (scheme_of d) D catalog.now
        → Demanding (scheme_of d) D levels.now d.constraints near.new }
{
    *near = [512u16; 8192];
    let reached = reached_rows(levels);
    for i in 0..d.constraints {
        let j = d.constraint[i];
        note_nearest(
            catalog,
            levels,
            &reached,
            i,
            usize::from(j.target.place),
            near,
        );
    }
}

// Stores the first rows that the constraints demand when they are turned round, which are the first that demand a row, in place of those that they demand.
// Three steps for each constraint and row number.
pub fn turn_firsts(d: Design, catalog: &mut [u16; 16449])
    requires { InRange d × ((D : Database) × Demands (scheme_of d) D catalog.old) }
    ensures { (D : Database) → Demands (scheme_of d) D catalog.old
        → Stored 4096 (firsts (turned (scheme_of d)) D) catalog.old catalog.new }
{
    let levels = [1u16; 512];
    let mut near = [512u16; 8192];
    demanding_rows(d, catalog, &levels, &mut near);
    store(catalog, FIRSTS, &near);
}
