// Lent buffers of several lengths, each filled with 9: one place too short, just long enough, and longer.
use crate::lent::{Buffers, HELD_3, Lengths, Room, State};
use format::Verdict;
use state::{Design, Operation};
use std::alloc::{AllocError, Global};

// Buffers longer than the library asks for, but that for what is held.
const LONGER: Lengths = Lengths {
    cells: 4100,
    issues: 4101,
    tables: 514,
    marks: 514,
    held: 361,
};

// One place too short: 0 the cells, 1 the row tables, 2 the marks, 4 the issues, 5 what is held.
fn shortened(kind: usize) -> Option<Lengths> {
    let whole = Lengths::WHOLE;
    match kind {
        0 => Some(Lengths {
            cells: 4095,
            ..whole
        }),
        1 => Some(Lengths {
            tables: 511,
            ..whole
        }),
        2 => Some(Lengths {
            marks: 511,
            ..whole
        }),
        4 => Some(Lengths {
            issues: 4095,
            ..whole
        }),
        5 => Some(Lengths { held: 357, ..whole }),
        _ => None,
    }
}

// Reads a design into buffers, one of them too short, or longer (3), or just long enough. The cause, 0 for none; and whether everything past what an
// accepted design stores, or everything, was left.
pub(crate) fn reading(alloc: Global, script: &[u8], kind: usize) -> Result<(u8, bool), AllocError> {
    let lengths = match kind {
        3 => LONGER,
        _ => shortened(kind).unwrap_or(Lengths::WHOLE),
    };
    let mut rows = Buffers::filled(alloc, lengths, 9)?;
    match rows.read(script).verdict {
        Verdict::Accepted(_) => Ok((0, rows.are_left(Lengths::WHOLE))),
        Verdict::Refused(cause, _) => Ok((cause, rows.are_left(Lengths::NONE))),
    }
}

// The seven operations with one buffer too short, and unlawful besides: their causes, and whether everything was left.
fn try_short(
    alloc: Global,
    design: Design,
    lengths: Lengths,
) -> Result<([u8; 7], bool), AllocError> {
    let rows = Buffers::filled(alloc, lengths, 9)?;
    let mut state = State { design, rows };
    let mut room = Room::nines(alloc)?;
    let causes = state.causes(alloc, &mut room)?;
    let is_left = state.rows.are_left(Lengths::NONE) && room.is_left();
    Ok((causes, is_left))
}

// The script's design in longer buffers, with REFER 0 3.
fn load_3(alloc: Global, script: &[u8]) -> Result<State, AllocError> {
    let mut rows = Buffers::filled(alloc, LONGER, 9)?;
    for word in rows.held.iter_mut().take(Lengths::WHOLE.held) {
        *word = 0;
    }
    let design = rows.read(script).design;
    let mut state = State { design, rows };
    let mut room = Room::nines(alloc)?;
    state.cause(Operation::Refer(HELD_3), &mut room);
    Ok(state)
}

// The seven operations on a lawful state in longer buffers: past the sizes they leave everything.
fn try_longer(alloc: Global, script: &[u8]) -> Result<([u8; 7], bool), AllocError> {
    let mut state = load_3(alloc, script)?;
    let mut room = Room::nines(alloc)?;
    let causes = state.causes(alloc, &mut room)?;
    Ok((causes, state.rows.are_left(Lengths::WHOLE)))
}

// The seven operations with one buffer too short; else with longer ones.
pub(crate) fn operations(
    alloc: Global,
    script: &[u8],
    design: Design,
    kind: usize,
) -> Result<([u8; 7], bool), AllocError> {
    match shortened(kind) {
        Some(lengths) => try_short(alloc, design, lengths),
        None => try_longer(alloc, script),
    }
}
