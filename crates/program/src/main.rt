// The program: reads one record, of either form, from standard input and prints the trees, or the one line of a
// refusal. Thin over `printing`, which says how much is read and what is printed, and over `filling`, which reads it. A
// read or a write that fails ends it with that error.
#![tactic(auto)]

use filling::fill;
use printing::{ENOUGH_BYTES, MOST_TEXT, print};
use std::io;
use std::io::Write;

fn main(rt: HostRuntime) -> io::Result<()> {
    let mut input = [0u8; ENOUGH_BYTES];
    let n = fill(&mut rt.stdin(), &mut input)?;
    let mut out = [0u8; MOST_TEXT];
    let r = print(&input, n, &mut out);
    rt.stdout().write_all(&out[..r])
}
