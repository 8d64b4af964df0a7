// How much is to be lent, before it is: the bytes of the written design, and the words and the bytes of text that a step takes.
ghost use Rattle.state.specs.Cells.{cells_in};
ghost use Rattle.wurzsige.specs.Calls.{memory, SizesTold};

use crate::causes::memory_cause;
use catalog::Index;
use sizes::step_sizes_lawful;
use state::{Rows, first_words};
use words::design_from;
use writing::design_length;

// Stores the three numbers: 0, or cause 7 or 12, which leaves them as they were; nothing else changes. The cost of `memory_cause`, of counting a query's lists
// without writing them, or of composing a reason, and of a look at each row.
pub fn wurzsige_parts_sizes(
    script: &[u8],
    at: usize,
    cells: &[u32],
    issues: &[u8],
    tables: &[u8],
    marks: &[u8],
    design: &[u32],
    held: &[u32],
    sizes: &mut [u64; 3],
) -> u8
    ensures { SizesTold
        (memory design.now held.now (cells_in cells.now issues.now) tables.now marks.now)
        script.now at result sizes.old sizes.new }
{
    let mut c = [0u16; 16449];
    let mut k = [0u64; 4096];
    let rows = Rows {
        cells,
        issues,
        tables,
    };
    let why = memory_cause(&rows, &mut c, &mut k, marks, design, held);
    if why != 0 {
        return why;
    }
    let d = design_from(design);
    let own = first_words(held);
    let bytes = design_length(d, issues, tables);
    let mut counts = [0u64; 5120];
    let mut places = [0u16; 5120];
    let rows = Rows {
        cells,
        issues,
        tables,
    };
    let index = Index {
        catalog: &c,
        keys: &k,
    };
    let z = step_sizes_lawful(
        script,
        at,
        d,
        &rows,
        &index,
        marks,
        &own,
        &mut counts,
        &mut places,
    );
    let told = [bytes as u64, z.words, z.text as u64];
    *sizes = told;
    0
}
