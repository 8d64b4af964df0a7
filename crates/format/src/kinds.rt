// The four kinds of commands before a design's END, each by its byte: 0x01 TABLE, 0x02 CONSTRAINT, 0x03 FILLING, 0x04 ROW. How many of a kind a
// design with so many rows has and can have, and the causes of refusal that a command has whatever its operands. Constant time.
ghost use Rattle.std.specs.Prelude.{◌≡◌, ℕ, Ok, Err};
ghost use Rattle.format.specs.Reading.{after_tables, after_constraints};
ghost use Rattle.format.specs.Kinds.{count_of, most_of, is_late, order_cause};

use state::Design;

pub fn count_of(d: Design, rows: usize, b: u8) -> usize
    ensures { result ≡ count_of d rows b }
{
    match b {
        0x01 => d.tables,
        0x02 => d.constraints,
        0x03 => d.fillings,
        _ => rows,
    }
}

fn most_of(b: u8) -> usize
    ensures { result ≡ most_of b }
{
    match b {
        0x01 => Design::TABLES,
        0x02 => Design::CONSTRAINTS,
        0x03 => Design::FILLINGS,
        _ => Design::ROWS,
    }
}

// Whether something of a later kind has been read: than a table, than a constraint, and than a kind.
fn after_tables(d: Design, rows: usize) -> bool
    ensures { result ≡ after_tables d rows }
{
    0 < d.constraints || after_constraints(d, rows)
}

fn after_constraints(d: Design, rows: usize) -> bool
    ensures { result ≡ after_constraints d rows }
{
    0 < d.fillings || 0 < rows
}

fn is_late(d: Design, rows: usize, b: u8) -> bool
    ensures { result ≡ is_late d rows b }
{
    match b {
        0x01 => after_tables(d, rows),
        0x02 => after_constraints(d, rows),
        0x03 => 0 < rows,
        _ => false,
    }
}

// Cause 3 or 4 of one more command of a kind, if one applies.
pub(crate) fn in_order(d: Design, rows: usize, b: u8) -> Result<(), u8>
    ensures ordered { result ≡ Ok tt → 0 ≡ order_cause d rows b }
    ensures refused { (n : ℕ) → result ≡ Err n → (n ≡ order_cause d rows b) × (n ≡ 0 → ⊥) }
{
    if is_late(d, rows, b) {
        return Err(3);
    }
    if most_of(b) <= count_of(d, rows, b) {
        return Err(4);
    }
    Ok(())
}
