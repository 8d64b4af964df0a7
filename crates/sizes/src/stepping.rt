// How much a step of a script would write, before anything is lent for it.
ghost use Rattle.std.specs.Prelude.{◌≡◌, true};
ghost use Rattle.state.specs.Meaning.{scheme_of};
ghost use Rattle.state.specs.HeldWords.{words_held, Whole};
ghost use Rattle.state.specs.Lent.{lent, sound};
ghost use Rattle.sizes.specs.StepSizes.{text_taken_at, words_taken_at};
ghost use Rattle.state.specs.Rows.{database_in, cells_of};
ghost use Rattle.catalog.specs.Index.{IsCatalogued};

use crate::sizing::{Sizes, sizes_lawful};
use catalog::Index;
use command::{Command, command_at};
use format::MOST_BYTES;
use state::{Design, Rows};

// What the step at place `at` takes, on a state known sound, with the catalog of its rows; nothing changes. The last two arrays are working memory,
// whatever stands in them. The cost of `sizes_lawful`; constant time for a command that is no operation.
pub fn step_sizes_lawful(
    script: &[u8],
    at: usize,
    design: Design,
    rows: &Rows,
    index: &Index,
    marks: &[u8],
    held: &[u32; 358],
    counts: &mut [u64; 5120],
    places: &mut [u16; 5120],
) -> Sizes
    requires { (sound (lent design (cells_of rows.now) rows.now.tables.now marks.now (words_held held.now)) ≡ true)
        × IsCatalogued (scheme_of design) (database_in rows.now) index.now × Whole held.now }
    ensures { (result.words ≡ words_taken_at (lent design (cells_of rows.now) rows.now.tables.now marks.now (words_held held.now)) script.now at)
        × (result.text ≡ text_taken_at (lent design (cells_of rows.now) rows.now.tables.now marks.now (words_held held.now)) script.now at) }
{
    if MOST_BYTES < script.len() {
        return Sizes { words: 0, text: 0 };
    }
    let command = command_at(script, at);
    let Command::Operate(op) = command else {
        return Sizes { words: 0, text: 0 };
    };
    sizes_lawful(op, design, rows, index, marks, held, counts, places)
}
