// What a desk that has a slice of a larger database still lacks, and what a design decides of each column before any row is there.
ghost use Rattle.std.specs.Prelude.{◌≡◌, cond, eqb, length};
ghost use Rattle.state.specs.Cells.{cells_in};
ghost use Rattle.state.specs.HeldWords.{held_length};
ghost use Rattle.slice.specs.Replies.{reply_of};
ghost use Rattle.wurzsige.specs.Calls.{memory, arrays, Ready};
ghost use Rattle.wurzsige.specs.Feeding.{missing_in, ReplyTold, VerdictsTold};

use crate::causes::memory_cause;
use catalog::Index;
use slice::{Next, missing_catalogued};
use state::{Rows, first_words};
use verdict::verdicts;
use words::{DESIGN_WORDS, design_from, design_narrow, lawful_design_from};

// 0 for a value, 1 for a span. Constant time.
fn kind_of(kind: u32) -> u32
    ensures { result ≡ cond (eqb kind 0) 0 1 }
{
    if kind == 0 { 0 } else { 1 }
}

// Tells what must be fetched next: 0 for nothing; 1 for a fetch, which is stored as five words; else the cause of a refusal. Constant time.
fn tell_next(next: Next, fetch: &mut [u32; 5]) -> u8
    ensures { ReplyTold (reply_of next) result fetch.old fetch.new }
{
    match next {
        Next::Nothing => 0,
        Next::Lacks(f) => {
            let told = [kind_of(f.kind), f.table, f.column, f.number, f.end];
            *fetch = told;
            1
        }
        Next::Refused(cause) => cause,
    }
}

// What must be fetched next for a desk that is ready, of which `fetches` has the `count` fetches that were made: told as `tell_next` does; too few words are cause 7, and
// words of no fetch, or out of order, cause 5. Nothing else changes. The cost of `missing_lawful`, and one look at each fetch.
pub fn wurzsige_parts_missing_trusted(
    cells: &[u32],
    issues: &[u8],
    tables: &[u8],
    catalog: &[u16; 16449],
    keys: &[u64; 4096],
    marks: &[u8],
    design: &[u32],
    held: &[u32; 358],
    fetches: &[u32],
    count: usize,
    fetch: &mut [u32; 5],
) -> u8
    requires ready { Ready (memory design.now held.now (cells_in cells.now issues.now) tables.now marks.now) (arrays catalog.now keys.now) }
    requires held_len { length held.now ≡ held_length }
    ensures { ReplyTold
        (missing_in (memory design.now held.now (cells_in cells.now issues.now) tables.now marks.now)
        fetches.now count)
        result fetch.old fetch.new }
{
    let d = lawful_design_from(design);
    let rows = Rows {
        cells,
        issues,
        tables,
    };
    let next = missing_catalogued(
        d,
        &rows,
        &Index { catalog, keys },
        marks,
        held,
        fetches,
        count,
    );
    tell_next(next, fetch)
}

// The same for whatever is lent: causes 7 and 12 of the memory first. The cost of `memory_cause`, besides.
pub fn wurzsige_parts_missing(
    cells: &[u32],
    issues: &[u8],
    tables: &[u8],
    marks: &[u8],
    design: &[u32],
    held: &[u32],
    fetches: &[u32],
    count: usize,
    fetch: &mut [u32; 5],
) -> u8
    ensures { ReplyTold
        (missing_in (memory design.now held.now (cells_in cells.now issues.now) tables.now marks.now)
        fetches.now count)
        result fetch.old fetch.new }
{
    let mut c = [0u16; 16449];
    let mut k = [0u64; 4096];
    let rows = Rows {
        cells,
        issues,
        tables,
    };
    let why = memory_cause(&rows, &mut c, &mut k, marks, design, held);
    if why != 0 {
        return why;
    }
    let own = first_words(held);
    wurzsige_parts_missing_trusted(
        cells, issues, tables, &c, &k, marks, design, &own, fetches, count, fetch,
    )
}

// Stores the verdicts on the columns of a design, one word for each of the 64 that there can be: 0, or cause 7 or 12 of the design's words, which leaves `out` as it
// was. The cost of `verdicts`, and a look at each word of the design.
pub fn wurzsige_parts_verdicts(design: &[u32], out: &mut [u32; 64]) -> u8
    ensures { VerdictsTold design.now result out.old out.new }
{
    if design.len() < DESIGN_WORDS {
        return 7;
    }
    if !design_narrow(design) {
        return 12;
    }
    let d = design_from(design);
    verdicts(d, out)
}
