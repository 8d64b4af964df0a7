// What a desk that has a slice of a larger database still lacks, and what a design decides of each column, for C.
ghost use Rattle.std.specs.Prelude.{◌≡◌, length};
ghost use Rattle.state.specs.Cells.{cells_in};
ghost use Rattle.state.specs.HeldWords.{held_length};
ghost use Rattle.wurzsige.specs.Calls.{memory, arrays, Ready};
ghost use Rattle.wurzsige.specs.Feeding.{missing_in, ReplyTold, VerdictsTold};

// What must be fetched next for a desk that is ready, of which `fetches` has the `count` fetches that were made: told as wurzsige's `tell_next` does; too few words are cause 7, and
// words of no fetch, or out of order, cause 5. Nothing else changes. The cost of `missing_lawful`, and one look at each fetch.
#[unsafe(no_mangle)]
pub extern "C" fn wurzsige_parts_missing_trusted(
    cells: &[u32],
    issues: &[u8],
    tables: &[u8],
    catalog: &[u16; 16449],
    keys: &[u64; 4096],
    marks: &[u8],
    design: &[u32],
    held: &[u32; 358],
    fetches: &[u32],
    count: usize,
    fetch: &mut [u32; 5],
) -> u8
    requires ready { Ready (memory design.now held.now (cells_in cells.now issues.now) tables.now marks.now) (arrays catalog.now keys.now) }
    requires held_len { length held.now ≡ held_length }
    ensures { ReplyTold
        (missing_in (memory design.now held.now (cells_in cells.now issues.now) tables.now marks.now)
        fetches.now count)
        result fetch.old fetch.new }
{
    wurzsige::wurzsige_parts_missing_trusted(
        cells, issues, tables, catalog, keys, marks, design, held, fetches, count, fetch,
    )
}

// The same for whatever is lent: causes 7 and 12 of the memory first. The cost of `memory_cause`, besides.
#[unsafe(no_mangle)]
pub extern "C" fn wurzsige_parts_missing(
    cells: &[u32],
    issues: &[u8],
    tables: &[u8],
    marks: &[u8],
    design: &[u32],
    held: &[u32],
    fetches: &[u32],
    count: usize,
    fetch: &mut [u32; 5],
) -> u8
    ensures { ReplyTold
        (missing_in (memory design.now held.now (cells_in cells.now issues.now) tables.now marks.now)
        fetches.now count)
        result fetch.old fetch.new }
{
    wurzsige::wurzsige_parts_missing(
        cells, issues, tables, marks, design, held, fetches, count, fetch,
    )
}

// Stores the verdicts on the columns of a design, one word for each of the 64 that there can be: 0, or cause 7 or 12 of the design's words, which leaves `out` as it
// was. The cost of `verdicts`, and a look at each word of the design.
#[unsafe(no_mangle)]
pub extern "C" fn wurzsige_parts_verdicts(design: &[u32], out: &mut [u32; 64]) -> u8
    ensures { VerdictsTold design.now result out.old out.new }
{
    wurzsige::wurzsige_parts_verdicts(design, out)
}
