// Every operation: over a state known sound with the catalog of its rows, and for whatever is lent.
ghost use Rattle.std.specs.Prelude.{◌≡◌, true, length};
ghost use Rattle.state.specs.HeldWords.{words_held, Whole};
ghost use Rattle.state.specs.Meaning.{answer_of, operation_of, scheme_of};
ghost use Rattle.state.specs.Lent.{lent, sound, Performed};
ghost use Rattle.operate.specs.Lending.{PerformedWords};
ghost use Rattle.state.specs.Rows.{database_in, cells_of};
ghost use Rattle.catalog.specs.Index.{IsCatalogued};

use crate::inspecting::inspect_lawful;
use crate::output::Output;
use crate::querying::query_lawful;
use cache::{
    drop_lawful, drop_range_lawful, name_lawful, probe_lawful, refer_lawful, refer_range_lawful,
};
use catalog::Index;
use guard::cause;
use state::{Answer, Design, Operation, Rows, first_words, store_words};

// The operation on a state known sound, with the catalog of its rows: no test for causes 7 and 12. The last two arrays are working memory, whatever
// stands in them. REFER and the holding of a range cost one load, DROP and the dropping of a range one reload unless no row has the value, PROBE a look
// for the value for each constraint that ends at the column, QUERY the probe of its first position, a load if that has no ground and its value is taken,
// the counting of its lists and the writing of their words, and a total the same with a sum by weights in place of the lists, or three where that passes
// 62 bits. The value that would open a query costs its probe and, without a ground, a pass over the rows for each constraint, one load, and a pass over
// the rows for each filling; a reason a reload and its own links.
pub fn perform_lawful(
    op: Operation,
    design: Design,
    rows: &Rows,
    index: &Index,
    marks: &mut [u8],
    held: &mut [u32; 358],
    words: &mut [u32],
    text: &mut [u8],
    counts: &mut [u64; 5120],
    places: &mut [u16; 5120],
) -> Answer
    requires { (sound (lent design (cells_of rows.now) rows.now.tables.now marks.old (words_held held.old)) ≡ true)
        × IsCatalogued (scheme_of design) (database_in rows.now) index.now × Whole held.old }
    ensures { Performed (lent design (cells_of rows.now) rows.now.tables.now marks.old (words_held held.old)) words.old
        text.old (operation_of op (length words.old) (length text.old))
        (answer_of result) (lent design (cells_of rows.now) rows.now.tables.now marks.new (words_held held.new)) words.new
        text.new × Whole held.new }
{
    match op {
        Operation::Refer(v) => refer_lawful(design, index, marks, held, v),
        Operation::Drop(v) => drop_lawful(design, index, marks, held, v),
        Operation::ReferRange(r) => refer_range_lawful(design, index, marks, held, r),
        Operation::DropRange(r) => drop_range_lawful(design, index, marks, held, r),
        Operation::Name(desk) => name_lawful(held, desk),
        Operation::Probe(k, v) => probe_lawful(design, index, marks, held, k, v),
        Operation::Query(q) => query_lawful(
            design,
            rows,
            index,
            marks,
            held,
            q,
            Output::Lists,
            words,
            counts,
            places,
        ),
        Operation::Total(t) => {
            let output = Output::Total(t.position, t.column);
            query_lawful(
                design, rows, index, marks, held, t.query, output, words, counts, places,
            )
        }
        Operation::Evenness
        | Operation::SmallestKnot
        | Operation::Opener(_, _)
        | Operation::Reason(_) => inspect_lawful(op, design, rows, index, marks, held, text),
    }
}

// The operation on whatever is lent: causes 7 and 12 first, which leave everything as it was. The test for cause 12 (one look at the design, at each
// cell and at each held value, the catalog, and a reload), then the cost of `perform_lawful`, by that catalog.
pub fn perform(
    op: Operation,
    design: Design,
    rows: &Rows,
    marks: &mut [u8],
    held: &mut [u32],
    words: &mut [u32],
    text: &mut [u8],
) -> Answer
    ensures { PerformedWords (lent design (cells_of rows.now) rows.now.tables.now marks.old (words_held held.old)) held.old words.old
        text.old (operation_of op (length words.old) (length text.old))
        (answer_of result) (lent design (cells_of rows.now) rows.now.tables.now marks.new (words_held held.new)) held.new words.new
        text.new }
{
    let mut catalog = [0u16; 16449];
    let mut keys = [0u64; 4096];
    let why = cause(design, rows, &mut catalog, &mut keys, marks, held);
    if why != 0 {
        return Answer::Refused(why);
    }
    let mut own = first_words(held);
    let mut counts = [0u64; 5120];
    let mut places = [0u16; 5120];
    let index = Index {
        catalog: &catalog,
        keys: &keys,
    };
    let answer = perform_lawful(
        op,
        design,
        rows,
        &index,
        marks,
        &mut own,
        words,
        text,
        &mut counts,
        &mut places,
    );
    store_words(&own, held);
    answer
}
