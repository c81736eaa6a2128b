// What the program prints, for a record of either form. The program reads at most 15,372 bytes, "which is enough for a
// last segment of three four-byte numbers, so its answer is the reader's answer on the whole input." Thin over
// `on_records` and `lines`; the program reads into the room that is named here, and prints what is put here.
#![tactic(auto)]

ghost use Rattle.std.specs.Prelude.{◌≤◌, length as size};
ghost use Rattle.lines.specs.Putting.{Put, most_text};
ghost use Rattle.printing.specs.Printed.{printed, Prints};

use net::POST_PLACES;
use on_records::plan;

// The room for what is read, in bytes.
// Also in moving: neither program's crate stands on the other.
pub const ENOUGH_BYTES: usize = 15372;

// The room for what is printed, in bytes.
pub const MOST_TEXT: usize = 8192;

// Puts what is printed for the bytes of a record at the front of the room for it, and answers how many bytes that is.
fn text(bytes: &[u8], out: &mut [u8]) -> usize
    requires { most_text ≤ size out.old }
    ensures { Put (printed bytes.now) 0 out.old out.new result }
{
    let mut lightest = [0u16; POST_PLACES];
    let mut shortest = [0u16; POST_PLACES];
    let mut between = [0u16; POST_PLACES];
    match plan(bytes, &mut lightest, &mut shortest, &mut between) {
        Ok(planned) => lines::put_built(planned, &lightest, &shortest, &between, out),
        Err(refusal) => lines::put_refused(refusal, out),
    }
}

// PRINT, for every input: puts what is printed for the first n bytes that were read, or for all where n is more, at the
// front of the room for the text, and answers how many bytes that is. The rooms' sizes stand in their types, so that
// the program can hand over no others; n stands beside its room for that.
pub fn print(input: &[u8; ENOUGH_BYTES], n: usize, out: &mut [u8; MOST_TEXT]) -> usize
    ensures prints { Prints input.now n out.old result out.new }
{
    text(&input[..n.min(input.len())], out)
}
