// "The reader carries the lent record and its place in it from number to number." A number is read at its place by
// `number_at`. These stay functions beside the struct, and no methods: the theorems of `promises` name them here.
ghost use Rattle.std.specs.Prelude.{◌≡◌};
ghost use Rattle.numbers.specs.Numbers.{number};
ghost use Rattle.numbers.specs.Answers.{numbered_of, behind_of};

use crate::{Misread, Number, number_at};

// The lent record, and a place in it.
#[derive(Clone, Copy)]
pub struct Reader<'a> {
    pub bytes: &'a [u8],
    pub at: usize,
}

// Where a reader goes on: the place after a number; where it was refused, it stays at its place.
pub fn behind(n: Result<Number, Misread>) -> usize
    ensures placed { result ≡ behind_of n }
{
    match n {
        Ok(read) => read.next,
        Err(misread) => misread.place,
    }
}

// A reader at the record's first byte.
pub fn new<'a>(bytes: &'a [u8]) -> Reader<'a>
    ensures made { result ≡ record { bytes = bytes.entry; at = 0 } }
{
    Reader { bytes, at: 0 }
}

// The number at the reader's place, or 10 or 11.
pub fn number<'a>(r: Reader<'a>) -> Result<Number, Misread>
    ensures read { result ≡ numbered_of (number r.entry.bytes.now r.entry.at) }
{
    number_at(r.bytes, r.at)
}

// The reader at another place of its record.
pub fn moved<'a>(r: Reader<'a>, at: usize) -> Reader<'a>
    ensures moved { result ≡ record { bytes = r.entry.bytes; at = at } }
{
    Reader { at, ..r }
}
