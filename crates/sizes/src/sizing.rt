// How much an operation would write, before anything is lent for it: the answer words of a QUERY's lists, and the bytes of a reason. The marks are lent
// to be read alone, and a query that would be referred first is, on a copy of them, so nothing changes.
ghost use Rattle.std.specs.Prelude.{◌≡◌, true, ◌≤◌, ◌<◌, length};
ghost use Rattle.model.specs.Database.{Database};
ghost use Rattle.model.specs.Query.{fitting, full_lists, joins_of, operands_fit, words_of};
ghost use Rattle.model.specs.Runs as Runs;
ghost use Rattle.model.specs.Runs.{marked};
ghost use Rattle.state.specs.Design.{InRange};
ghost use Rattle.state.specs.Meaning.{answer_of, cell_of, column_of, query_of, scheme_of};
ghost use Rattle.state.specs.HeldWords.{words_held, Whole};
ghost use Rattle.state.specs.Lent.{lent, sound, text_at, words_at};
ghost use Rattle.operate.specs.Queries.{Referring};
ghost use Rattle.sizes.specs.Sizes.{ample, bytes_in, text_taken, words_taken};
ghost use Rattle.state.specs.Rows.{database_in, cells_of};
ghost use Rattle.catalog.specs.Index.{IsCatalogued};

use cache::{filling_for, refer_lawful, takes};
use catalog::Index;
use probe::search;
use query::{count_fitting, operands_fit};
use reason::reason_lawful;
use state::{Answer, Design, HeldValue, Operation, Query, Rows, is_numberless};

// The answer words and the bytes of text that an operation takes.
#[derive(Clone, Copy)]
pub struct Sizes {
    pub words: u64,
    pub text: usize,
}

// The words of the lists of marked rows, whatever stands in the others: one for each position of each list. The cost of `count_fitting`.
fn listed_words(
    d: Design,
    index: &Index,
    marks: &[u8],
    q: Query,
    counts: &mut [u64; 5120],
    places: &mut [u16; 5120],
) -> u64
    requires { InRange d × (q.column.place < 8) × (operands_fit (scheme_of d) (query_of q) ≡ true) × (512 ≤ length marks.now)
        × ((D : Database) × IsCatalogued (scheme_of d) D index.now) }
    ensures { (D : Database) → IsCatalogued (scheme_of d) D index.now
        → result ≡ length (words_of (fitting (scheme_of d) D (marked marks.now) (column_of q.column) (cell_of q.value) (joins_of (query_of q)))) }
{
    let lists = count_fitting(d, index, marks, q, counts, places);
    lists * (u64::from(q.joins) + 1)
}

// The words of a query that is referred first: its pair v is referred on a copy of the marks, and the lists are those of the copy. One copy of the marks,
// one load, and the cost of `listed_words`.
fn referred_words(
    design: Design,
    rows: &Rows,
    index: &Index,
    marks: &[u8],
    held: &[u32; 358],
    q: Query,
    v: HeldValue,
    counts: &mut [u64; 5120],
    places: &mut [u16; 5120],
) -> u64
    requires held_value { (sound (lent design (cells_of rows.now) rows.now.tables.now marks.now (words_held held.now)) ≡ true)
        × IsCatalogued (scheme_of design) (database_in rows.now) index.now × Whole held.now }
    requires referring { Referring (lent design (cells_of rows.now) rows.now.tables.now marks.now (words_held held.now)) q (Runs.as_lists ample) v }
    ensures { result ≡ length (words_of (full_lists (scheme_of design) (database_in rows.now)
        (query_of q))) }
{
    rows.note_types();
    let mut copy = [0u8; 512];
    copy.copy_from_slice(&marks[..Design::ROWS]);
    let mut more = *held;
    refer_lawful(design, index, &mut copy, &mut more, v);
    listed_words(design, index, &copy, q, counts, places)
}

// The words that a QUERY takes: none where causes 5 and 9 refuse it or it is sent; else those of its lists, on the cache after the reference. The last
// two arrays are working memory, whatever stands there before. The cost of the probe, a load if that has no ground and its value is taken, and the
// cost of `count_fitting`.
fn query_words(
    design: Design,
    rows: &Rows,
    index: &Index,
    marks: &[u8],
    held: &[u32; 358],
    q: Query,
    counts: &mut [u64; 5120],
    places: &mut [u16; 5120],
) -> u64
    requires { (sound (lent design (cells_of rows.now) rows.now.tables.now marks.now (words_held held.now)) ≡ true)
        × IsCatalogued (scheme_of design) (database_in rows.now) index.now × Whole held.now }
    ensures { result ≡ length (words_at (lent design (cells_of rows.now) rows.now.tables.now marks.now (words_held held.now))
        (Runs.query (query_of q) (Runs.as_lists ample))) }
{
    rows.note_types();
    if !operands_fit(design, q) || is_numberless(q.value) {
        return 0;
    }
    let k = q.column;
    let found = search(design, index, marks, held, k, q.value);
    let g = found.ground;
    if g != 0 {
        return listed_words(design, index, marks, q, counts, places);
    }
    let v = HeldValue {
        filling: filling_for(design, k) as u8,
        value: q.value,
    };
    if !takes(design, held, v) {
        return 0;
    }
    referred_words(design, rows, index, marks, held, q, v, counts, places)
}

// The length of the text that an answer tells of: 0 with any but a reason. Constant time.
fn told_bytes(answer: Answer) -> usize
    ensures { result ≡ bytes_in (answer_of answer) }
{
    match answer {
        Answer::Explained(length) => length,
        _ => 0,
    }
}

// The bytes of text that a reason takes: none where its number names nothing or its row isn't cached. The reason is written into memory of its own, which
// has room for any, and its length is read from the answer: the cost of `reason_lawful`.
fn reason_bytes(
    design: Design,
    rows: &Rows,
    index: &Index,
    marks: &[u8],
    held: &[u32; 358],
    row: u16,
) -> usize
    requires { (sound (lent design (cells_of rows.now) rows.now.tables.now marks.now (words_held held.now)) ≡ true)
        × IsCatalogued (scheme_of design) (database_in rows.now) index.now }
    ensures { result ≡ length (text_at (lent design (cells_of rows.now) rows.now.tables.now marks.now (words_held held.now))
        (Runs.ask (Runs.reason row ample))) }
{
    let mut text = [0u8; 16384];
    let answer = reason_lawful(design, rows, index, marks, held, row, &mut text);
    told_bytes(answer)
}

// What the operation takes, on a state known sound, with the catalog of its rows: no test for causes 7 and 12. The last four arrays are working memory,
// whatever stands in them. QUERY costs its probe, a load if that has no ground and its value is taken, and the counting of its lists, a reason what it
// costs to give, and any other operation constant time: it takes nothing.
pub fn sizes_lawful(
    op: Operation,
    design: Design,
    rows: &Rows,
    index: &Index,
    marks: &[u8],
    held: &[u32; 358],
    counts: &mut [u64; 5120],
    places: &mut [u16; 5120],
) -> Sizes
    requires { (sound (lent design (cells_of rows.now) rows.now.tables.now marks.now (words_held held.now)) ≡ true)
        × IsCatalogued (scheme_of design) (database_in rows.now) index.now × Whole held.now }
    ensures { (result.words ≡ words_taken (lent design (cells_of rows.now) rows.now.tables.now marks.now (words_held held.now)) op)
        × (result.text ≡ text_taken (lent design (cells_of rows.now) rows.now.tables.now marks.now (words_held held.now)) op) }
{
    match op {
        Operation::Query(q) => {
            let words = query_words(design, rows, index, marks, held, q, counts, places);
            Sizes { words, text: 0 }
        }
        Operation::Reason(row) => {
            let text = reason_bytes(design, rows, index, marks, held, row);
            Sizes { words: 0, text }
        }
        _ => Sizes { words: 0, text: 0 },
    }
}
