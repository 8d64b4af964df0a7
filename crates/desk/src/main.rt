// The desk program: reads a script on standard input and writes its report on standard output, a full buffer at a time. Each part that is handed to
// standard output is proved to be the report's bytes behind those handed over before it, and where every write goes well all of them are. Not proved,
// since no contract can say it, is that the C functions below `std::io` read standard input and write standard output. A script of more than 65,536 bytes
// is read only so far that it is known to be too long. The first read or write that fails ends the program, with a line on standard error and exit
// status 1.
#![tactic(auto)]

ghost use Rattle.std.specs.Prelude.{◌+◌, ◌*◌, ◌≤◌, cond, ◌≡◌, length, take, IfOk};
ghost use Rattle.desk.specs.Parts.{desk_report, Stands, HandedOver};

mod parts;
mod reporting;

use crate::parts::{begin, next_part};
use std::io;
use std::io::{Read, Stderr, Stdin, Stdout, Write};
use std::process::ExitCode;

// ---- writing

// How many bytes of the report have been handed over, and whether all went well. No Result: the count is promised (specs/Parts.antt `HandedOver`) of a write that
// failed as well.
#[derive(Clone, Copy)]
pub struct Handed {
    pub bytes: usize,
    pub well: bool,
}

// Hands the part of the script's report that stands from byte `done` on to standard output. Its bytes count only where all of them were taken. The
// script is there for the contract alone, and so is the bound, of 65,540 full buffers: a sum below it fits.
fn write_part(mut output: Stdout, script: &[u8], done: usize, part: &[u8]) -> Handed
    requires stands { Stands (desk_report script.now) done part.now }
    requires done_bound { done ≤ 81920 * 65540 }
    ensures { result.bytes ≡ cond result.well (done + length part.now) done }
{
    match output.write_all(part) {
        Ok(()) => Handed {
            bytes: done + part.len(),
            well: true,
        },
        Err(_) => Handed {
            bytes: done,
            well: false,
        },
    }
}

// Lends the buffers, the catalog's arrays and the working memory, and hands the script's report over, part by part, up to the first write that fails.
// The cost of reading the design, of the operations, and of the text.
fn write_report(output: Stdout, script: &[u8]) -> Handed
    requires { length script.now ≤ 65537 }
    ensures { HandedOver (desk_report script.now) result }
{
    let mut cells = [0u32; 4096];
    let mut issues = [0u8; 4096];
    let mut tables = [0u8; 512];
    let mut marks = [0u8; 512];
    let mut words = [0u32; 4096];
    let mut text = [0u8; 16384];
    let mut out = [0u8; 81920];
    let mut catalog = [0u16; 16449];
    let mut keys = [0u64; 4096];
    let mut held = [0u32; 358];
    let mut counts = [0u64; 5120];
    let mut places = [0u16; 5120];
    let mut p = begin(
        script,
        &mut cells,
        &mut issues,
        &mut tables,
        &mut catalog,
        &mut keys,
        &mut marks,
        &mut out,
    );
    let mut done: usize = 0;
    // no iterator: whether a part follows, the part says, and a write that fails ends it
    loop {
        let n = p.end;
        let handed = write_part(output, script, done, &out[..n]);
        if !handed.well {
            return handed;
        }
        if !p.more {
            return handed;
        }
        done = handed.bytes;
        let q = next_part(
            script,
            p,
            &mut cells,
            &mut issues,
            &mut tables,
            &mut catalog,
            &mut keys,
            &mut marks,
            &mut held,
            &mut words,
            &mut text,
            &mut counts,
            &mut places,
            &mut out,
        );
        p = q;
    }
}

// ---- reading

// One read of standard input into the room behind the first n bytes, which stay. How many bytes came, which fit that room; 0 where the input ends.
fn read_behind(mut from: Stdin, input: &mut [u8], n: usize) -> io::Result<usize>
    requires { n ≤ length input.old }
    ensures stays { take n input.new ≡ take n input.old }
    ensures fits { IfOk result (λ k. n + k ≤ length input.new) }
{
    from.read(&mut input[n..])
}

// Reads standard input until it ends or the buffer is full, or up to the first read that fails. How many bytes there were.
fn read_script(from: Stdin, input: &mut [u8]) -> io::Result<usize>
    ensures { IfOk result (λ n. n ≤ length input.new) }
{
    let mut n: usize = 0;
    // no count: a read gives as many bytes as it has, and a desk has no heap to read to the end into
    while n < input.len() {
        let k = read_behind(from, input, n)?;
        if k == 0 {
            break;
        }
        n += k;
    }
    Ok(n)
}

// Says why on standard error, as far as that can be written, and fails.
fn failed(mut errors: Stderr, why: &[u8]) -> ExitCode {
    let _ = errors.write_all(why);
    ExitCode::FAILURE
}

fn main(rt: HostRuntime) -> ExitCode {
    let mut input = [0u8; 65537];
    let Ok(n) = read_script(rt.stdin(), &mut input) else {
        return failed(rt.stderr(), b"desk: standard input could not be read\n");
    };
    let report = write_report(rt.stdout(), &input[..n]);
    if !report.well {
        return failed(rt.stderr(), b"desk: standard output could not be written\n");
    }
    ExitCode::SUCCESS
}
