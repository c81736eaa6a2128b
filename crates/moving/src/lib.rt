// What the program that moves records hands on: a record in the form that is wanted, or the line of a refusal. It reads
// at most 15,372 bytes of a record, which is enough: its answer is that on the whole input. The room for what is handed
// on takes the longest good record, so that 18 is never given. Thin over `moves` and `lines`; the program reads into
// the room that is named here, and hands on what is put here.
#![tactic(auto)]

ghost use Rattle.std.specs.Prelude.{◌≡◌, length as size};
ghost use Rattle.reading.specs.Reading.{longest_record};
ghost use Rattle.moving.specs.Handing.{the_wanted_by, handing, Hands, HandsOn};

use lines::put_refused;
use moves::move_to;
use net::Form;

// The room for what is read of a record, in bytes.
// Also in printing: neither program's crate stands on the other.
pub const ENOUGH_BYTES: usize = 15372;

// The room for what is handed on, in bytes.
pub const LONGEST_RECORD: usize = 15367;

// The form that the byte before a record says: the digit 1 is the first, every other byte the second.
// No From: Form is net's, and this byte is the program's.
fn wanted_by(way: u8) -> Form
    ensures { result ≡ the_wanted_by way }
{
    match way {
        b'1' => Form::First,
        _ => Form::Second,
    }
}

// Puts what is handed on for the bytes of a record at the front of the room for it, and answers how many bytes that is:
// those of a record that was moved, or as an error the line of a refusal.
fn hand(wanted: Form, bytes: &[u8], out: &mut [u8]) -> Result<usize, usize>
    requires { size out.old ≡ longest_record }
    ensures { Hands (handing wanted bytes.now) out.old result out.new }
{
    match move_to(wanted, bytes, out) {
        Ok(length) => Ok(length as usize),
        Err(refusal) => Err(put_refused(refusal, out)),
    }
}

// HAND ON, for every input: puts what is handed on for the first n bytes of a record that were read, or for all where n
// is more, at the front of the room for it, and answers how many bytes that is: those of a record that was moved, for
// standard output, or as an error the line of a refusal, for standard error.
pub fn hand_on(
    way: u8,
    input: &[u8; ENOUGH_BYTES],
    n: usize,
    out: &mut [u8; LONGEST_RECORD],
) -> Result<usize, usize>
    ensures handed { HandsOn way input.now n out.old result out.new }
{
    let wanted = wanted_by(way);
    hand(wanted, &input[..n.min(input.len())], out)
}
