// What a query is asked for, whether its operands fit that, and what it draws from marked rows: their lists, or a total over these.
ghost use Rattle.std.specs.Prelude.{◌≡◌, true, ℕ, ◌≤◌, ◌<◌, length};
ghost use Rattle.model.specs.Query.{fitting, joins_of};
ghost use Rattle.model.specs.Runs.{marked, output_fits};
ghost use Rattle.state.specs.Design.{InRange};
ghost use Rattle.state.specs.Lawful.{lawful_design};
ghost use Rattle.state.specs.Meaning.{answer_of, cell_of, column_of, query_of, scheme_of};
ghost use Rattle.operate.specs.Queries.{output_of, Drawn};
ghost use Rattle.state.specs.Rows.{database_in, IsBacked};
ghost use Rattle.catalog.specs.Index.{IsCatalogued};

use catalog::Index;
use query::{list_fitting, operands_fit, position_fits, total_fitting};
use state::{Answer, Design, Query, Rows};

// Its lists, or the total of a position and a column. (No Option: the lists are as much a choice as the total.)
#[derive(Clone, Copy)]
pub enum Output {
    Lists,
    Total(u8, u8),
}

// Whether every operand names something, or is unused and 0. Joins.
pub(crate) fn output_fits(d: Design, q: Query, output: Output) -> bool
    requires { InRange d }
    ensures { (room : ℕ) → result ≡ output_fits (scheme_of d) (query_of q) (output_of output room) }
{
    operands_fit(d, q)
        && match output {
            Output::Lists => true,
            Output::Total(position, column) => position_fits(d, q, position, column),
        }
}

// What the query draws from marked rows, whatever stands in the others: the cost of `list_fitting`, or of `total_fitting`.
pub(crate) fn draw(
    d: Design,
    rows: &Rows,
    index: &Index,
    marks: &[u8],
    q: Query,
    output: Output,
    words: &mut [u32],
    counts: &mut [u64; 5120],
    places: &mut [u16; 5120],
) -> Answer
    requires in_range { InRange d × (q.column.place < 8) × IsBacked rows.now
        × IsCatalogued (scheme_of d) (database_in rows.now) index.now × (512 ≤ length marks.now) }
    requires d_value { (lawful_design d ≡ true) × (output_fits (scheme_of d) (query_of q) (output_of output (length words.old)) ≡ true) }
    ensures { Drawn (database_in rows.now)
        (fitting (scheme_of d) (database_in rows.now) (marked marks.now)
        (column_of q.column) (cell_of q.value) (joins_of (query_of q)))
        (output_of output (length words.old)) words.old words.new (answer_of result) }
{
    match output {
        Output::Lists => list_fitting(d, rows, index, marks, q, words, counts, places),
        Output::Total(position, column) => total_fitting(
            d,
            rows.cells,
            rows.issues,
            index,
            marks,
            q,
            position,
            column,
            counts,
            places,
        ),
    }
}
