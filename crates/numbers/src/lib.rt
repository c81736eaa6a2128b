// A number in the record: "written in groups of seven bits, lowest group first; 128 is added to every byte but the
// last." Reading one at a place, putting one into a room, and a reader that carries the record and its place from
// number to number. What each function promises is an equation with a definition of specs/; that a number's bytes read
// as that number, and no others do, stands in proofs/. Relies on `net` for what a refusal is, and on `by_hand` for the
// laws of walks over a reader. The crates `writing` and `reading` stand on it; `fill_number`, `put_part` and `put_at`
// ask that the number fits, and nothing else here asks anything.
#![tactic(auto)]

pub mod reader;

ghost use Rattle.std.specs.Prelude.{◌≡◌, ◌+◌, ◌<◌, ◌≤◌, length};
ghost use Rattle.numbers.specs.Numbers.{number, written, most_numbers};
ghost use denote.Ref.{at_last};
ghost use Rattle.numbers.specs.Putting.{onto, put, part_of, Fits};
ghost use Rattle.numbers.specs.Answers.{numbered_of};

// The largest number of four groups.
const MOST_NUMBER: u32 = 268435455;

// A number, and the place after it.
#[derive(Clone, Copy, PartialEq, Eq)]
pub struct Number {
    pub value: u32,
    pub next: usize,
}

// No number: document 01's number of the refusal, 10 or 11, and the place of the number's first byte. Not net's
// Refusal, whose place has 32 bits: these bytes may be more, and `reading` narrows the place where they aren't.
#[derive(Clone, Copy, PartialEq, Eq)]
pub struct Misread {
    pub number: u32,
    pub place: usize,
}

// The number that begins at `at`: 10 where the bytes end before it or inside it, 11 where its last group is zero or a
// fourth says that more follow.
pub fn number_at(bytes: &[u8], at: usize) -> Result<Number, Misread>
    ensures read { result ≡ numbered_of (number bytes.now at) }
{
    let place = at;
    let mut low = 0;
    let mut unit = 1;
    for k in 0..4 {
        let i = at + k;
        if bytes.len() <= i {
            return Err(Misread { number: 10, place });
        }
        let b = u32::from(bytes[i]);
        if b < 128 {
            if b == 0 && at < i {
                return Err(Misread { number: 11, place });
            }
            let value = low + unit * b;
            let next = i + 1;
            return Ok(Number { value, next });
        }
        low += unit * (b - 128);
        unit *= 128;
    }
    Err(Misread { number: 11, place })
}

// How many bytes a number takes.
pub fn number_size(n: u32) -> usize
    ensures sized { (result ≡ length (written n)) × (result ≤ 4) }
{
    if n < 128 {
        return 1;
    }
    if n < 16384 {
        return 2;
    }
    if n < 2097152 {
        return 3;
    }
    4
}

// Writes a number from the first byte of `room` on: how many bytes it took. What stands behind them is unchanged. k is
// counted here: only the last group says how many there are.
fn fill_number(room: &mut [u8], n: u32) -> usize
    requires { (n < most_numbers) × (length (written n) ≤ length room.old) }
    ensures { (result ≡ length (written n)) × (room.new ≡ onto (written n) room.old) }
{
    let mut rest = n;
    let mut k = 0;
    while 128 <= rest {
        room[k] = (128 + rest % 128) as u8;
        rest /= 128;
        k += 1;
    }
    room[k] = rest as u8;
    k + 1
}

// Writes a number from the first byte of `room` on, and hands back the part that it wrote: the number's bytes. Where
// the number has more than four groups or the room is too short, nothing is written and the part is empty. Where the
// room is as long as the number, the part is the room itself, so that its lender knows every byte afterwards. An empty
// part and no Option: its `handed` says that it "hands back the part it wrote" (document 01).
pub fn put_number<'a>(room: &'a mut [u8], n: u32) -> &'a mut [u8]
    ensures handed { (result.now ≡ part_of n room.old)
        × (Fits n room.old → result ≡ at_last room.entry (written n)) }
{
    if MOST_NUMBER < n {
        return &mut room[..0];
    }
    let size = number_size(n);
    if room.len() < size {
        return &mut room[..0];
    }
    fill_number(room, n);
    if room.len() == size {
        return room;
    }
    &mut room[..size]
}

// Writes a number into a part that is as long as the number: the length of the part that `put_number` hands back.
fn put_part(part: &mut [u8], n: u32) -> usize
    requires { Fits n part.old }
    ensures { (result ≡ length (written n)) × (part.new ≡ written n) }
{
    let written = put_number(part, n);
    written.len()
}

// Writes a number into the rest of the room, into the part that starts at the byte `at`: the next free byte, behind the
// part that was written.
pub fn put_at(room: &mut [u8], at: usize, n: u32) -> usize
    requires { (n < most_numbers) × (at + length (written n) ≤ length room.old) }
    ensures put { (result ≡ at + length (written n)) × (room.new ≡ put at (written n) room.old) }
{
    let end = at + number_size(n);
    let size = put_part(&mut room[at..end], n);
    at + size
}
