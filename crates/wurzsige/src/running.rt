// All steps of a script from a place on, on lent memory that is ready.
ghost use Rattle.std.specs.Prelude.{length};
ghost use Rattle.state.specs.Cells.{cells_in};
ghost use Rattle.script.specs.Step.{outputs};
ghost use Rattle.run.specs.Runs.{left_from};
ghost use Rattle.wurzsige.specs.Calls.{memory, arrays, state_in, Trusts, RunMade};

use run::run_lawful;
use words::lawful_design_from;

// The steps from place `at` on, until the script ends or cause 1, 2 or 4 stops it; no answer is told, the answer words are the last query's, and the text is
// the last reason's. The arrays behind `text` are working memory. The cost of the operations, and one copy of the design's words.
pub fn wurzsige_parts_run_trusted(
    script: &[u8],
    at: usize,
    cells: &mut [u32],
    issues: &mut [u8],
    tables: &mut [u8],
    catalog: &mut [u16; 16449],
    keys: &mut [u64; 4096],
    marks: &mut [u8],
    design: &[u32],
    held: &mut [u32; 358],
    words: &mut [u32],
    text: &mut [u8],
    counts: &mut [u64; 5120],
    places: &mut [u16; 5120],
)
    requires { Trusts (memory design.now held.old (cells_in cells.old issues.old) tables.old marks.old) (arrays catalog.old keys.old) }
    ensures { RunMade
        (left_from (length script.now) script.now
        (state_in (memory design.now held.old (cells_in cells.old issues.old) tables.old marks.old))
        (outputs words.old text.old) at)
        (memory design.now held.old (cells_in cells.old issues.old) tables.old marks.old)
        (memory design.now held.new (cells_in cells.new issues.new) tables.new marks.new)
        (arrays catalog.new keys.new)
        (outputs words.new text.new) }
{
    let d = lawful_design_from(design);
    run_lawful(
        script, at, d, cells, issues, tables, catalog, keys, marks, held, words, text, counts,
        places,
    );
}
