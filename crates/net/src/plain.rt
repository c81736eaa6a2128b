// Small steps that several crates take: a refusal as an answer, and an entry of a list where it has one.
ghost use Rattle.std.specs.Prelude.{◌≡◌, get_or, set};

use crate::Refusal;

// A refusal, with its number and its place, as the answer.
pub fn refuse<T>(number: u32, place: u32) -> Result<T, Refusal>
    ensures refused { result ≡ Err (record { number = number; place = place }) }
{
    Err(Refusal { number, place })
}

// What a list says at i, or `beyond` behind its end.
pub fn at<T: Copy>(list: &[T], i: usize, beyond: T) -> T
    ensures read { result ≡ get_or list.now i beyond }
{
    if i < list.len() { list[i] } else { beyond }
}

// x becomes entry i of a list, if it has one.
pub fn put<T: Copy>(list: &mut [T], i: usize, x: T)
    ensures put { list.new ≡ set list.old i x }
{
    if i < list.len() {
        list[i] = x;
    }
}
