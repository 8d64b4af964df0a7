// What a slice lacks, over a sound state with its catalog, and for whatever is lent.
ghost use Rattle.std.specs.Prelude.{◌*◌, ◌≤◌, true, ◌≡◌, length};
ghost use Rattle.state.specs.HeldWords.{words_held};
ghost use Rattle.state.specs.Lent.{lent, sound};
ghost use Rattle.state.specs.Meaning.{scheme_of};
ghost use Rattle.slice.specs.Fetches.{fetches_in, fetches_fit, as_lack};
ghost use Rattle.slice.specs.Replies.{missing_at, reply_of, reply_in, reply_at};
ghost use Rattle.state.specs.Rows.{database_in, cells_of};
ghost use Rattle.catalog.specs.Index.{IsCatalogued};

use crate::accepted::fetches_fit;
use crate::fetch::Fetch;
use crate::held::pairs_lack;
use crate::ranges::ranges_lack;
use crate::rows::rows_lack;
use catalog::Index;
use guard::cause;
use state::{Design, Rows, first_words};

// What must be fetched next: nothing, this, or it isn't said since what is lent is refused.
#[derive(Clone, Copy)]
pub enum Next {
    Nothing,
    Lacks(Fetch),
    Refused(u8),
}

// The first fetch that is needed and wasn't made: of the held values, of the held ranges, and of what the constraints demand of cached rows. `words` are the n fetches
// that were made. At most 64 + 512 * 16 searches by halves, and the walks along the held ranges.
pub fn missing_lawful(
    design: Design,
    rows: &Rows,
    index: &Index,
    marks: &[u8],
    held: &[u32; 358],
    words: &[u32],
    n: usize,
) -> Option<Fetch>
    requires { (sound (lent design (cells_of rows.now) rows.now.tables.now marks.now (words_held held.now)) ≡ true)
        × IsCatalogued (scheme_of design) (database_in rows.now) index.now
        × (5 * n ≤ length words.now) × (fetches_fit (scheme_of design) words.now n ≡ true) }
    ensures { as_lack result ≡ missing_at (lent design (cells_of rows.now) rows.now.tables.now marks.now (words_held held.now))
        (fetches_in words.now n) }
{
    if let Some(f) = pairs_lack(design, index, held, words, n) {
        return Some(f);
    }
    if let Some(f) = ranges_lack(design, index, held, words, n) {
        return Some(f);
    }
    rows_lack(design, rows, index.catalog, marks, words, n)
}

// The same for whatever fetches are lent, over a sound state with its catalog: 7 where the words are fewer than five for each fetch, 5 where a fetch
// names no column, value or span of the design, or they don't rise. One look at each fetch, and the cost of `missing_lawful`.
pub fn missing_catalogued(
    design: Design,
    rows: &Rows,
    index: &Index,
    marks: &[u8],
    held: &[u32; 358],
    words: &[u32],
    n: usize,
) -> Next
    requires { (sound (lent design (cells_of rows.now) rows.now.tables.now marks.now (words_held held.now)) ≡ true)
        × IsCatalogued (scheme_of design) (database_in rows.now) index.now }
    ensures { reply_of result ≡ reply_in (lent design (cells_of rows.now) rows.now.tables.now marks.now (words_held held.now))
        words.now n }
{
    if words.len() / 5 < n {
        return Next::Refused(7);
    }
    if !fetches_fit(design, words, n) {
        return Next::Refused(5);
    }
    match missing_lawful(design, rows, index, marks, held, words, n) {
        Some(f) => Next::Lacks(f),
        None => Next::Nothing,
    }
}

// The same for whatever is lent: 7 for buffers too short for rows or for what is held, 12 for an unlawful state, then as above. The cost of `cause`, besides.
pub fn missing(
    design: Design,
    rows: &Rows,
    marks: &[u8],
    held: &[u32],
    words: &[u32],
    n: usize,
) -> Next
    ensures { reply_of result ≡ reply_at (lent design (cells_of rows.now) rows.now.tables.now marks.now (words_held held.now))
        held.now words.now n }
{
    let mut catalog = [0u16; 16449];
    let mut keys = [0u64; 4096];
    let c = cause(design, rows, &mut catalog, &mut keys, marks, held);
    if c != 0 {
        return Next::Refused(c);
    }
    let own = first_words(held);
    let index = Index {
        catalog: &catalog,
        keys: &keys,
    };
    missing_catalogued(design, rows, &index, marks, &own, words, n)
}
