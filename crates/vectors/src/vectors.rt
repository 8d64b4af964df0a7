// One vector: what it gives, beside what was expected.
use crate::buffers::{operations, reading};
use crate::lent::{Buffers, Change, Lengths, Room, State, state_after};
use crate::list::{Fields, number, numbers};
use format::Verdict;
use report::{put_command_line, put_refusal_line};
use script::Step;
use std::alloc::{AllocError, Global};

// The script, and the words and bytes of text that are lent for its answers.
#[derive(Drop)]
pub struct Setting {
    pub script: Vec<u8>,
    pub words: usize,
    pub bytes: usize,
}

// ---- a command's line

// The line, without its end, of a command with this number.
fn command_line(
    alloc: Global,
    number: usize,
    step: Step,
    text: &[u8],
) -> Result<Vec<u8>, AllocError> {
    let mut line = vec![in alloc; 0u8; text.len() + 391]?;
    let n = put_command_line(&mut line, 0, number, step.answer, step.place, text);
    line.truncate(n.saturating_sub(1));
    Ok(line)
}

fn refusal_line(alloc: Global, cause: u8, place: usize) -> Result<Vec<u8>, AllocError> {
    let mut line = vec![in alloc; 0u8; 50]?;
    let n = put_refusal_line(&mut line, 0, cause, place);
    line.truncate(n.saturating_sub(1));
    Ok(line)
}

// What is lent behind a command: words of 9, and a text of full stops, of 512 bytes at the most.
fn room_of(alloc: Global, words: usize, bytes: usize) -> Result<Room, AllocError> {
    let words = vec![in alloc; 9u32; words]?;
    let text = vec![in alloc; b'.'; bytes.min(512)]?;
    Ok(Room {
        words,
        text,
        out: Vec::new(alloc),
    })
}

// The line of the command with this number, or of the refused design; the room has its words and text then. The cost of the operations.
fn line_at(
    alloc: Global,
    script: &[u8],
    number: usize,
    room: &mut Room,
) -> Result<Vec<u8>, AllocError> {
    let mut rows = Buffers::filled(alloc, Lengths::WHOLE, 0)?;
    let reading = rows.read(script);
    let mut state = State {
        design: reading.design,
        rows,
    };
    match reading.verdict {
        Verdict::Accepted(at) => {
            let step = state.step_of(script, at, number, room);
            command_line(alloc, number, step, &room.text)
        }
        Verdict::Refused(cause, place) => refusal_line(alloc, cause, place),
    }
}

// ---- what is got, as text

// Two digits and a space. Constant time.
fn put_cause(line: &mut Vec<u8>, cause: u8) -> Result<(), AllocError> {
    line.extend_from_slice(&[b'0' + cause / 10 % 10, b'0' + cause % 10, b' '])
}

// Causes, then l if everything was left as it was, and c if something was changed.
fn causes_line(alloc: Global, causes: &[u8], is_left: bool) -> Result<Vec<u8>, AllocError> {
    let mut line = Vec::new(alloc);
    for cause in causes {
        put_cause(&mut line, *cause)?;
    }
    line.push(if is_left { b'l' } else { b'c' })?;
    Ok(line)
}

// The last two digits of each word.
fn words_line(alloc: Global, words: &[u32]) -> Result<Vec<u8>, AllocError> {
    let mut line = Vec::new(alloc);
    for word in words {
        put_cause(&mut line, (*word % 100) as u8)?;
    }
    Ok(line)
}

// The seven operations on a state, and whether they left it, the answer words, the text and the buffer to write into as they were.
fn state_line(alloc: Global, mut state: State) -> Result<Vec<u8>, AllocError> {
    let before = state.rows.clone()?;
    let mut room = Room::nines(alloc)?;
    let causes = state.causes(alloc, &mut room)?;
    let is_left = state.rows == before && room.is_left();
    causes_line(alloc, &causes, is_left)
}

// How many words are lent: 5, 6, else so many.
fn words_lent(words: usize, most: usize) -> usize {
    match words {
        5 | 6 => words,
        _ => most,
    }
}

impl Setting {
    // The line of the command whose number the expected line begins with; a refused design's begins with no number.
    fn line(&self, alloc: Global, f: Fields<'_>) -> Result<Vec<u8>, AllocError> {
        let at = if f.behind_name.starts_with(b"r") {
            0
        } else {
            number(f.behind_name).0
        };
        let mut room = room_of(alloc, words_lent(self.words, 4096), self.bytes)?;
        line_at(alloc, &self.script, at, &mut room)
    }

    // The answer words behind a command.
    fn words_behind(&self, alloc: Global, at: usize) -> Result<Vec<u8>, AllocError> {
        let mut room = room_of(alloc, words_lent(self.words, 7), 512)?;
        line_at(alloc, &self.script, at, &mut room)?;
        words_line(alloc, &room.words)
    }

    // The text behind a command, as much of it as was lent.
    fn text_behind(&self, alloc: Global, at: usize) -> Result<Vec<u8>, AllocError> {
        let mut room = room_of(alloc, 4096, self.bytes)?;
        line_at(alloc, &self.script, at, &mut room)?;
        Ok(room.text)
    }

    // The state behind a command, with two changes.
    fn spoilt(&self, alloc: Global, text: &[u8]) -> Result<Vec<u8>, AllocError> {
        let [n, k, i, v, l, j, w] = numbers::<7>(text);
        let mut state = state_after(alloc, &self.script, n)?;
        Change {
            kind: k,
            at: i,
            to: v,
        }
        .apply(&mut state);
        Change {
            kind: l,
            at: j,
            to: w,
        }
        .apply(&mut state);
        state_line(alloc, state)
    }

    fn reading(&self, alloc: Global, kind: usize) -> Result<Vec<u8>, AllocError> {
        let (cause, is_left) = reading(alloc, &self.script, kind)?;
        causes_line(alloc, &[cause], is_left)
    }

    fn operations(&self, alloc: Global, kind: usize) -> Result<Vec<u8>, AllocError> {
        let design = state_after(alloc, &self.script, 0)?.design;
        let (causes, is_left) = operations(alloc, &self.script, design, kind)?;
        causes_line(alloc, &causes, is_left)
    }

    // What the vector of this kind gives; nothing where the line is none.
    pub(crate) fn got(
        &self,
        alloc: Global,
        kind: u8,
        f: Fields<'_>,
    ) -> Result<Option<Vec<u8>>, AllocError> {
        let line = match kind {
            b'?' => self.line(alloc, f)?,
            b'!' => self.spoilt(alloc, f.rest)?,
            b'a' => self.words_behind(alloc, number(f.rest).0)?,
            b't' => self.text_behind(alloc, number(f.rest).0)?,
            b'r' => self.reading(alloc, number(f.rest).0)?,
            b'b' => self.operations(alloc, number(f.rest).0)?,
            _ => return Ok(None),
        };
        Ok(Some(line))
    }
}
