// The operations that inspect the design and the rows and change nothing: whether a design is even, its smallest knot, the value that would open a query, and
// a reason.
ghost use Rattle.std.specs.Prelude.{◌≡◌, true, List, ℕ, length};
ghost use Rattle.state.specs.HeldWords.{words_held};
ghost use Rattle.state.specs.Meaning.{answer_of, operation_of, scheme_of};
ghost use Rattle.state.specs.Lent.{lent, sound, Performed};
ghost use Rattle.operate.specs.Inspecting.{inspects};
ghost use Rattle.state.specs.Rows.{database_in, cells_of};
ghost use Rattle.catalog.specs.Index.{IsCatalogued};

use catalog::Index;
use even::{evenness, smallest_knot};
use opener::opener_lawful;
use reason::reason_lawful;
use state::{Answer, Design, Operation, Rows};

// The operation on a state known sound, if it is one of these; any other is the caller's to perform. It stands apart, since its 36 KB of stack would else be
// part of every step of a script, at a fifth of the cost of a short one. The cost of its operation.
#[inline(never)]
pub(crate) fn inspect_lawful(
    op: Operation,
    design: Design,
    rows: &Rows,
    index: &Index,
    marks: &[u8],
    held: &[u32; 358],
    text: &mut [u8],
) -> Answer
    requires { (sound (lent design (cells_of rows.now) rows.now.tables.now marks.now (words_held held.now)) ≡ true)
        × IsCatalogued (scheme_of design) (database_in rows.now) index.now }
    ensures { (w : List ℕ) → inspects op ≡ true
        → Performed (lent design (cells_of rows.now) rows.now.tables.now marks.now (words_held held.now)) w
        text.old (operation_of op (length w) (length text.old))
        (answer_of result) (lent design (cells_of rows.now) rows.now.tables.now marks.now (words_held held.now)) w
        text.new }
{
    match op {
        Operation::Evenness => evenness(design),
        Operation::SmallestKnot => smallest_knot(design),
        Operation::Opener(k, v) => { opener_lawful(design, rows, index, marks, held, k, v) }
        Operation::Reason(row) => { reason_lawful(design, rows, index, marks, held, row, text) }
        _ => Answer::Sent,
    }
}
