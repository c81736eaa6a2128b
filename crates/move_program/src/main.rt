// The program that moves a record: reads one byte that says where to, and then one record, from standard input. The
// moved record goes to standard output, the one line of a refusal to standard error; so does a line where the record
// couldn't be written. Thin over `moving`, which says how much is read and what is handed on, and over `filling`, which
// reads it. A read that fails, or a write to standard error, ends it with that error.
#![tactic(auto)]

use filling::fill;
use moving::{ENOUGH_BYTES, LONGEST_RECORD, hand_on};
use std::io;
use std::io::Write;

fn main(rt: HostRuntime) -> io::Result<()> {
    let mut way = [0u8; 1];
    fill(&mut rt.stdin(), &mut way)?;
    let mut input = [0u8; ENOUGH_BYTES];
    let n = fill(&mut rt.stdin(), &mut input)?;
    let mut out = [0u8; LONGEST_RECORD];
    match hand_on(way[0], &input, n, &mut out) {
        Ok(size) => match rt.stdout().write_all(&out[..size]) {
            Ok(()) => Ok(()),
            Err(_) => rt.stderr().write_all(b"not written\n"),
        },
        Err(size) => rt.stderr().write_all(&out[..size]),
    }
}
