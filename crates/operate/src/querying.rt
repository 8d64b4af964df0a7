// QUERY over a sound state, for its lists or for a total. Where the probe of position 0 has a ground it is answered from the cached rows; else its value is
// referred first, if a REFER would take it, and it is answered then (02, Req 02 and 03); else it is sent.
ghost use Rattle.std.specs.Prelude.{◌≡◌, true, length};
ghost use Rattle.model.specs.Runs as Runs;
ghost use Rattle.state.specs.HeldWords.{words_held, Whole};
ghost use Rattle.state.specs.Meaning.{answer_of, query_of, scheme_of};
ghost use Rattle.state.specs.Lent.{lent, sound, Worded};
ghost use Rattle.operate.specs.Queries.{output_of, Referring};
ghost use Rattle.state.specs.Rows.{database_in, cells_of};
ghost use Rattle.catalog.specs.Index.{IsCatalogued};

use crate::output::{Output, draw, output_fits};
use cache::{filling_for, refer_lawful, takes};
use catalog::Index;
use probe::search;
use state::{Answer, Design, HeldValue, Query, Rows, is_numberless, is_refusal};

// Refers the query's pair v on a copy of the marks and of what is held, and draws the answer from the copy, so that causes 11 and 13 find nothing to undo; else the copies
// take their place. Two copies of the marks and of what is held, one load, and the cost of the lists or the total.
fn refer_and_draw(
    design: Design,
    rows: &Rows,
    index: &Index,
    marks: &mut [u8],
    held: &mut [u32; 358],
    q: Query,
    output: Output,
    v: HeldValue,
    words: &mut [u32],
    counts: &mut [u64; 5120],
    places: &mut [u16; 5120],
) -> Answer
    requires held_value { (sound (lent design (cells_of rows.now) rows.now.tables.now marks.old (words_held held.old)) ≡ true)
        × IsCatalogued (scheme_of design) (database_in rows.now) index.now × Whole held.old }
    requires referring { Referring (lent design (cells_of rows.now) rows.now.tables.now marks.old (words_held held.old)) q (output_of output (length words.old)) v }
    ensures { Worded (lent design (cells_of rows.now) rows.now.tables.now marks.old (words_held held.old)) words.old
        (Runs.query (query_of q) (output_of output (length words.old))) (answer_of result)
        (lent design (cells_of rows.now) rows.now.tables.now marks.new (words_held held.new)) words.new × Whole held.new }
{
    rows.note_types();
    let mut copy = [0u8; 512];
    copy.copy_from_slice(&marks[..Design::ROWS]);
    let mut more = *held;
    refer_lawful(design, index, &mut copy, &mut more, v);
    let answer = draw(design, rows, index, &copy, q, output, words, counts, places);
    if is_refusal(answer) {
        return answer;
    }
    marks[..Design::ROWS].copy_from_slice(&copy);
    *held = more;
    answer
}

// QUERY: causes 5 and 9; with a ground the lists or the total, or cause 11 or 13; without one "sent", unless its value is taken, which costs a load before.
// The last four tables are working memory: whatever stands there before, and nothing is said of it after. The cost of the probe, and of counting the lists
// and writing their words, or of the total.
pub(crate) fn query_lawful(
    design: Design,
    rows: &Rows,
    index: &Index,
    marks: &mut [u8],
    held: &mut [u32; 358],
    q: Query,
    output: Output,
    words: &mut [u32],
    counts: &mut [u64; 5120],
    places: &mut [u16; 5120],
) -> Answer
    requires { (sound (lent design (cells_of rows.now) rows.now.tables.now marks.old (words_held held.old)) ≡ true)
        × IsCatalogued (scheme_of design) (database_in rows.now) index.now × Whole held.old }
    ensures { Worded (lent design (cells_of rows.now) rows.now.tables.now marks.old (words_held held.old)) words.old
        (Runs.query (query_of q) (output_of output (length words.old))) (answer_of result)
        (lent design (cells_of rows.now) rows.now.tables.now marks.new (words_held held.new)) words.new × Whole held.new }
{
    rows.note_types();
    if !output_fits(design, q, output) {
        return Answer::Refused(5);
    }
    if is_numberless(q.value) {
        return Answer::Refused(9);
    }
    let k = q.column;
    let found = search(design, index, marks, held, k, q.value);
    let g = found.ground;
    if g != 0 {
        return draw(design, rows, index, marks, q, output, words, counts, places);
    }
    let v = HeldValue {
        filling: filling_for(design, k) as u8,
        value: q.value,
    };
    if !takes(design, held, v) {
        return Answer::Sent;
    }
    refer_and_draw(
        design, rows, index, marks, held, q, output, v, words, counts, places,
    )
}
