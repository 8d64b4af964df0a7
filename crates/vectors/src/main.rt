// Holds the library to a list of vectors, which it reads on standard input: for each vector one line, with what was expected and what was got; then
// how many there were, and how many were wrong. A line of the list begins with what it is:
//   = BYTES              the script from here on, in hexadecimal; spaces don't count
//   + TIMES BYTES        more of it, so many times over
//   w WORDS              how many answer words are lent from here on: 5, 6, else 4,096
//   x BYTES              how many bytes of text are lent from here on, 512 at the most
//   ? NAME|LINE          the line that the desk prints for the command of that number, or for the refused design
//   a NAME|WORDS|NUMBER  the words lent (5, 6, else 7), 9 each before, behind the command of that number
//   t NAME|TEXT|NUMBER   the text lent, full stops before, behind the command of that number
//   ! NAME|CAUSES|NUMBER CHANGE CHANGE
//                        the state behind the command of that number, with two changes (lent.rt): the causes with which REFER, DROP, PROBE, QUERY,
//                        a step, writing and a reason refuse it, and whether everything was left as it was
//   r NAME|CAUSE|KIND    reading the script's design into buffers (buffers.rt): the cause, and whether what had to stay untouched did
//   b NAME|CAUSES|KIND   the seven operations on buffers of which one is too short, or on longer ones, and the same
// Any other line is a comment.
#![tactic(auto)]

mod buffers;
mod lent;
mod list;
mod vectors;

use crate::list::{fields_of, first, from_hex, number};
use crate::vectors::Setting;
use std::alloc::{AllocError, Global};
use std::io;
use std::io::{Read, Stdin, Stdout, Write};

// A list has no more bytes, and no more lines, than these.
const MOST_TEXT: u64 = 65536;

const MOST_LINES: usize = 4096;

// More bytes than a script may have: what is longer is cut there, and so is how often bytes are written.
const MOST_SCRIPT: usize = 65600;

const MOST_TIMES: usize = 65537;

// How far the list has been read: what is lent from here on, how many vectors there were, and how many of them were wrong.
#[derive(Drop)]
struct Progress {
    setting: Setting,
    vectors: u64,
    wrong: u64,
}

// More of the script. One step for each byte.
fn append(script: &mut Vec<u8>, bytes: &[u8]) -> Result<(), AllocError> {
    let room = MOST_SCRIPT.saturating_sub(script.len());
    script.extend_from_slice(first(room, bytes))
}

// A part of a line, 256 bytes of it at the most.
fn say(mut output: Stdout, text: &[u8]) -> io::Result<()> {
    output.write_all(first(256, text))
}

// A vector's line: what was expected and what was got.
fn say_vector(output: Stdout, name: &[u8], expected: &[u8], got: &[u8]) -> io::Result<()> {
    say(output, name)?;
    say(output, b": expected ")?;
    say(output, expected)?;
    say(output, b", got ")?;
    say(output, got)?;
    say(output, b"\n")
}

impl Progress {
    fn new(alloc: Global) -> Progress {
        let setting = Setting {
            script: Vec::new(alloc),
            words: 4096,
            bytes: 512,
        };
        Progress {
            setting,
            vectors: 0,
            wrong: 0,
        }
    }

    // A new script, which begins with these bytes.
    fn begin(&mut self, alloc: Global, text: &[u8]) -> Result<(), AllocError> {
        let bytes = from_hex(alloc, text)?;
        self.setting.script.clear();
        append(&mut self.setting.script, &bytes)
    }

    // More of the script, so many times over.
    fn extend(&mut self, alloc: Global, text: &[u8]) -> Result<(), AllocError> {
        let (times, rest) = number(text);
        let bytes = from_hex(alloc, rest)?;
        for _ in 0..times.min(MOST_TIMES) {
            append(&mut self.setting.script, &bytes)?;
        }
        Ok(())
    }

    // A vector, or a line of another kind, which is passed over.
    fn judge(&mut self, alloc: Global, output: Stdout, kind: u8, text: &[u8]) -> io::Result<()> {
        let f = fields_of(text);
        if let Some(got) = self.setting.got(alloc, kind, f)? {
            self.vectors = self.vectors.saturating_add(1);
            self.wrong = self
                .wrong
                .saturating_add(u64::from(got.as_slice() != f.expected));
            say_vector(output, f.name, f.expected, &got)?;
        }
        Ok(())
    }

    // One line of the list.
    fn read_line(&mut self, alloc: Global, output: Stdout, line: &[u8]) -> io::Result<()> {
        let Some((kind, text)) = line.split_first() else {
            return Ok(());
        };
        match *kind {
            b'=' => self.begin(alloc, text)?,
            b'+' => self.extend(alloc, text)?,
            b'w' => self.setting.words = number(text).0,
            b'x' => self.setting.bytes = number(text).0,
            kind => self.judge(alloc, output, kind, text)?,
        }
        Ok(())
    }
}

// Standard input, as far as a list may go.
fn read_all(alloc: Global, from: Stdin) -> io::Result<Vec<u8>> {
    let mut text = Vec::new(alloc);
    from.take(MOST_TEXT).read_to_end(&mut text)?;
    Ok(text)
}

fn main(rt: HostRuntime) -> io::Result<()> {
    let alloc = rt.alloc();
    let text = read_all(alloc, rt.stdin())?;
    let mut p = Progress::new(alloc);
    for line in text.split(|b| *b == b'\n').take(MOST_LINES) {
        p.read_line(alloc, rt.stdout(), line)?;
    }
    println!(rt; "{} vectors, {} wrong", p.vectors, p.wrong)
}
