// The sentence of a row, link by link back to a held value or range, and the answer.
ghost use Rattle.std.specs.Prelude.{true, List, ◌≡◌, ℕ, ◌+◌, ◌*◌, ◌≤◌, ◌<◌, get_or, length};
ghost use Rattle.std.proofs.lemmas.List.Edits.{sets};
ghost use Rattle.finite.specs.Writing.{Wrote};
ghost use Rattle.model.specs.Database.{Database};
ghost use Rattle.model.specs.Scheme.{Scheme};
ghost use Rattle.model.specs.Rounds.{level};
ghost use Rattle.model.specs.Runs as Runs;
ghost use Rattle.model.specs.Runs.{cached_for};
ghost use Rattle.model.specs.Sentence.{reason_text};
ghost use Rattle.state.specs.Cells.{cells_in};
ghost use Rattle.state.specs.Design.{InRange};
ghost use Rattle.state.specs.Held.{Bounded};
ghost use Rattle.state.specs.HeldWords.{words_held};
ghost use Rattle.state.specs.Lent.{answer_at, lent, sound, text_at};
ghost use Rattle.state.specs.Meaning.{answer_of, database_of, holding_of, scheme_of};
ghost use Rattle.reason.specs.Links.{Graded, Traceable, links_text, root_by};
ghost use Rattle.state.specs.Rows.{database_in, cells_of, IsBacked};
ghost use Rattle.catalog.specs.Index.{IsCatalogued};

use crate::linking::find_links;
use crate::lowest::lowest_held;
use crate::nearing::{levels_below, list_levels};
use crate::wording::{put_link, put_origin};
use catalog::Index;
use load::load_held;
use state::{Answer, Design, Rows, is_live};
use text::{put_bytes, put_spaced};

// The row that the links lead back to, and where the text ends.
#[derive(Clone, Copy)]
struct Traced {
    row: usize,
    at: usize,
}

// Writes the links of row r, which is n constraints away from what is held, the last one first. Document 01 has this by recursion: the distance falls. The
// links were noted behind their distances.
fn put_links(
    by: &[u16; 512],
    from: &[u16; 512],
    r: usize,
    n: usize,
    out: &mut [u8],
    at: usize,
) -> Traced
    requires { (n < 512) × (at + 30 * n + 47 ≤ length out.old) × ((S : Scheme) × (D : Database) × (L : List ℕ) × Traceable S D L by.now from.now n r) }
    ensures { (S : Scheme) (D : Database) (L : List ℕ) → Traceable S D L by.now from.now n r
        → (result.row ≡ root_by S D L n r) × (result.at ≤ at + 30 * n) × Wrote out.old out.new at result.at (links_text S D L n r) }
{
    if n == 0 {
        return Traced { row: r, at };
    }
    let s = usize::from(from[n]);
    let i = usize::from(by[n]);
    let z = put_link(out, at, i, s);
    put_links(by, from, s, n - 1, out, z)
}

// The same from the rows and their levels. Constant time for a row that has something held, else a few steps for each row number, a look at each constraint
// for each row that is nearer to what is held, and the links.
fn put_chain(
    d: Design,
    rows: &Rows,
    levels: &[u16; 512],
    r: usize,
    n: u16,
    out: &mut [u8],
    at: usize,
) -> Traced
    requires in_range { InRange d × (r < 512) × (n < 512) × IsBacked rows.now × (at + 30 * n + 47 ≤ length out.old) }
    requires graded { Graded (scheme_of d) (database_in rows.now) levels.now × (level levels.now r ≡ n + 2) }
    ensures { (result.row ≡ root_by (scheme_of d) (database_in rows.now) levels.now n r)
        × (result.at ≤ at + 30 * n) × Wrote out.old out.new at result.at
        (links_text (scheme_of d) (database_in rows.now) levels.now n r) }
{
    if n == 0 {
        return Traced { row: r, at };
    }
    let low = levels_below(levels, n + 2);
    let mut heads = [512u16; 514];
    let mut next = [512u16; 512];
    list_levels(&low, &mut heads, &mut next);
    let mut by = [0u16; 512];
    let mut from = [0u16; 512];
    let k = n as usize;
    find_links(d, rows, levels, &heads, &next, r, k, &mut by, &mut from);
    put_links(&by, &from, r, k, out, at)
}

// Writes the reason for row r, which is cached; how long it is. One reload, the search of the links, and one look at each held value and range.
fn put_reason(
    d: Design,
    rows: &Rows,
    index: &Index,
    held: &[u32; 358],
    r: usize,
    out: &mut [u8],
) -> usize
    requires r_bound { (r < 512) × InRange d × IsBacked rows.now × Bounded (words_held held.now)
        × (length out.old ≡ 16384) }
    requires catalogued { IsCatalogued (scheme_of d) (database_in rows.now) index.now
        × (cached_for (scheme_of d) (database_in rows.now) (holding_of (words_held held.now)) r ≡ true) }
    ensures { (result ≤ 16384)
        × Wrote out.old out.new 0 result (reason_text (scheme_of d) (database_of (cells_in rows.now.cells.now
        rows.now.issues.now) rows.now.tables.now) (holding_of (words_held held.now)) r) }
{
    let mut levels = [0u16; 512];
    load_held(d, index, held, Design::ROWS, &mut levels);
    let z = put_bytes(out, 0, b"row", 3);
    let y = put_spaced(out, z, r as u64);
    let n = levels[r] - 2;
    let t = put_chain(d, rows, &levels, r, n, out, y);
    let o = lowest_held(d, rows, held, t.row);
    put_origin(out, t.at, o)
}

// The answer for a cached row: the lent text is written from its first byte on, if it is long enough for the whole sentence. The sentence is composed in memory of its
// own, so that cause 11 leaves the text as it was. It stands apart, since that memory is laid down as zeros: a row that has no reason would pay for it too. The cost
// of `put_reason`, and a step for each byte of the sentence.
fn explained(
    design: Design,
    rows: &Rows,
    index: &Index,
    held: &[u32; 358],
    r: usize,
    text: &mut [u8],
) -> Answer
    requires r_bound { (r < 512) × InRange design × IsBacked rows.now × Bounded (words_held held.now) }
    requires catalogued { IsCatalogued (scheme_of design) (database_in rows.now) index.now
        × (cached_for (scheme_of design) (database_in rows.now) (holding_of (words_held held.now)) r ≡ true) }
    ensures { (marks : List ℕ) → sound (lent design (cells_of rows.now) rows.now.tables.now marks (words_held held.now)) ≡ true
        → (database_in rows.now).live r ≡ true → get_or marks r 0 ≡ 1
        → (answer_of result ≡ answer_at (lent design (cells_of rows.now) rows.now.tables.now marks (words_held held.now))
        (Runs.ask (Runs.reason r (length text.old))))
        × (text.new ≡ sets text.old 0 (text_at (lent design (cells_of rows.now) rows.now.tables.now
        marks (words_held held.now)) (Runs.ask (Runs.reason r (length text.old))))) }
{
    let mut out = [0u8; 16384];
    let n = put_reason(design, rows, index, held, r, &mut out);
    if text.len() < n {
        return Answer::Refused(11);
    }
    put_bytes(text, 0, &out, n);
    Answer::Explained(n)
}

// Why row number `row` is cached, in words: the lent text is written from its first byte on, if it is long enough for the whole sentence, and cause 11 leaves
// the text as it was. Constant time for a number that names nothing and for a row that isn't
// cached; else no more than a reload and the chain's own links: one reload, a few steps for each row number, a look at each constraint for each row that is nearer to
// what is held, one look at each held value and range, and two steps for each byte of the sentence.
pub fn reason_lawful(
    design: Design,
    rows: &Rows,
    index: &Index,
    marks: &[u8],
    held: &[u32; 358],
    row: u16,
    text: &mut [u8],
) -> Answer
    requires { (sound (lent design (cells_of rows.now) rows.now.tables.now marks.now (words_held held.now)) ≡ true)
        × IsCatalogued (scheme_of design) (database_in rows.now) index.now }
    ensures { (answer_of result ≡ answer_at (lent design (cells_of rows.now) rows.now.tables.now marks.now (words_held held.now))
        (Runs.ask (Runs.reason row (length text.old))))
        × (text.new ≡ sets text.old 0 (text_at (lent design (cells_of rows.now) rows.now.tables.now
        marks.now (words_held held.now)) (Runs.ask (Runs.reason row (length text.old))))) }
{
    let r = row as usize;
    if Design::ROWS <= r {
        return Answer::Refused(5);
    }
    if !is_live(rows.tables, r) {
        return Answer::Refused(5);
    }
    if marks[r] != 1 {
        return Answer::Absent;
    }
    explained(design, rows, index, held, r, text)
}
