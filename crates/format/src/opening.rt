// Reading a design with its rows into lent buffers, with the catalog of the rows: the first pass, then cause 6 through the catalog, and nothing is
// stored until the whole design is accepted.
ghost use Rattle.std.specs.Prelude.{◌≡◌, ◌++◌, suc, ◌≤◌, length, drop};
ghost use Rattle.state.specs.Cells.{cells_in};
ghost use Rattle.state.specs.Design.{empty_design};
ghost use Rattle.format.specs.declared.verdict.Verdict.TheVariants as Answer;
ghost use Rattle.format.specs.Reading.{empty_draft, draft, Read, Leaves, read_from, read_into};
ghost use Rattle.format.specs.Admitting.{Opens, Keeps};

use crate::places::row_place;
use crate::reading::read_commands;
use crate::repeating::first_repeat;
use crate::verdict::{DesignReading, Verdict};
use state::{Design, Rows};

pub const MOST_BYTES: usize = 65536;

// A reading that is refused: its design is empty, without rows.
fn refusal(cause: u8, at: usize) -> DesignReading
    ensures { result ≡ record { verdict = Answer.Refused cause at; design = empty_design; rows = 0 } }
{
    DesignReading {
        verdict: Verdict::Refused(cause, at),
        design: Design::empty(),
        rows: 0,
    }
}

// Reads a whole design and makes the catalog of the rows read. A row that repeats a value comes before the command at which the first pass stopped, and
// its command begins where it would be written. The cost of the catalog, and one look at each command and cell.
fn read_rows(
    script: &[u8],
    cells: &mut [u32],
    issues: &mut [u8],
    tables: &mut [u8],
    catalog: &mut [u16; 16449],
    keys: &mut [u64; 4096],
) -> DesignReading
    requires { (length cells.old ≡ 4096) × (length issues.old ≡ 4096) × (length tables.old ≡ 512) }
    ensures read { Read (read_from (suc (length script.now)) script.now
        (draft empty_design 0 (cells_in cells.old issues.old) tables.old) 0) result (cells_in cells.new issues.new) tables.new }
    ensures opens { Opens result (cells_in cells.new issues.new) tables.new catalog.new keys.new }
{
    let stop = read_commands(script, cells, issues, tables);
    let d = stop.design;
    let rows = Rows {
        cells,
        issues,
        tables,
    };
    catalog::build(d, &rows, catalog, keys);
    let n = stop.rows;
    if let Some(r) = first_repeat(d, n, tables, catalog) {
        return refusal(6, row_place(d, issues, r));
    }
    match stop.verdict {
        Verdict::Accepted(_) => DesignReading {
            verdict: stop.verdict,
            design: d,
            rows: n,
        },
        Verdict::Refused(cause, at) => refusal(cause, at),
    }
}

// ---- into lent buffers

// Reads into buffers that are long enough. No row is written until the whole design is accepted; the catalog's arrays are written in any case.
fn read_into(
    script: &[u8],
    cells: &mut [u32],
    issues: &mut [u8],
    tables: &mut [u8],
    marks: &mut [u8],
    catalog: &mut [u16; 16449],
    keys: &mut [u64; 4096],
) -> DesignReading
    requires { (4096 ≤ length cells.old) × (4096 ≤ length issues.old) × (512 ≤ length tables.old) × (512 ≤ length marks.old) }
    ensures leaves { Leaves (read_from (suc (length script.now)) script.now empty_draft 0) result (cells_in cells.old issues.old) (cells_in cells.new issues.new)
        tables.old tables.new marks.old marks.new }
    ensures opens { Opens result (cells_in cells.new issues.new) tables.new catalog.new keys.new }
{
    let mut x = [0u32; 4096];
    let mut v = [0u8; 4096];
    let mut y = [Design::FREE; 512];
    let reading = read_rows(script, &mut x, &mut v, &mut y, catalog, keys);
    let Verdict::Accepted(_) = reading.verdict else {
        return reading;
    };
    cells[..Design::CELLS].copy_from_slice(&x);
    issues[..Design::CELLS].copy_from_slice(&v);
    tables[..Design::ROWS].copy_from_slice(&y);
    marks[..Design::ROWS].fill(0);
    reading
}

// Reads into whatever buffers are lent. Where the design is refused, the catalog's arrays are left anyhow.
fn read_lent(
    script: &[u8],
    cells: &mut [u32],
    issues: &mut [u8],
    tables: &mut [u8],
    marks: &mut [u8],
    catalog: &mut [u16; 16449],
    keys: &mut [u64; 4096],
) -> DesignReading
    ensures leaves { Leaves (read_into script.now (cells_in cells.old issues.old) tables.old marks.old) result (cells_in cells.old issues.old)
        (cells_in cells.new issues.new) tables.old tables.new marks.old marks.new }
    ensures opens { Opens result (cells_in cells.new issues.new) tables.new catalog.new keys.new }
{
    if cells.len() < Design::CELLS
        || issues.len() < Design::CELLS
        || tables.len() < Design::ROWS
        || marks.len() < Design::ROWS
    {
        return refusal(7, 0);
    }
    if MOST_BYTES < script.len() {
        return refusal(4, 0);
    }
    read_into(script, cells, issues, tables, marks, catalog, keys)
}

// Reads a design with its rows into lent buffers, and leaves the catalog of the rows: the verdict, with the place after the END or the cause and
// place of the refusal, and the design with its number of rows, empty and 0 where it is refused. The buffers and the catalog's arrays are written only where it is
// accepted: the rows, no row marked, and the catalog. The cost of the catalog, and one look at each command and cell.
pub fn read_catalogued(
    script: &[u8],
    cells: &mut [u32],
    issues: &mut [u8],
    tables: &mut [u8],
    marks: &mut [u8],
    catalog: &mut [u16; 16449],
    keys: &mut [u64; 4096],
) -> DesignReading
    ensures leaves { Leaves (read_into script.now (cells_in cells.old issues.old) tables.old marks.old) result (cells_in cells.old issues.old)
        (cells_in cells.new issues.new) tables.old tables.new marks.old marks.new }
    ensures opens { Opens result (cells_in cells.new issues.new) tables.new catalog.new keys.new }
    ensures keeps { Keeps result catalog.old catalog.new keys.old keys.new }
{
    let mut a = [0u16; 16449];
    let mut k = [0u64; 4096];
    let r = read_lent(script, cells, issues, tables, marks, &mut a, &mut k);
    if let Verdict::Accepted(_) = r.verdict {
        *catalog = a;
        *keys = k;
    }
    r
}

// The same for those who need no catalog.
pub fn read_design(
    script: &[u8],
    cells: &mut [u32],
    issues: &mut [u8],
    tables: &mut [u8],
    marks: &mut [u8],
) -> DesignReading
    ensures { Leaves (read_into script.now (cells_in cells.old issues.old) tables.old marks.old) result (cells_in cells.old issues.old)
        (cells_in cells.new issues.new) tables.old tables.new marks.old marks.new }
{
    let mut a = [0u16; 16449];
    let mut k = [0u64; 4096];
    read_lent(script, cells, issues, tables, marks, &mut a, &mut k)
}
