// Lent room filled from a reader: what the programs do with standard input.
#![tactic(auto)]

ghost use Rattle.std.specs.Prelude.{◌<◌, ◌≤◌, length as size, take, IfOk};
ghost use Rattle.std.specs.Io.KnownBytes.{Consumes, IsAtEnd};

use std::io;
use std::io::Read;

// Reads until the room is full or the input ends, and answers how many bytes it put at the room's front. Those bytes
// are what the reader has lost, and where they don't fill the room it has none left. A read that fails ends it. Counted
// here, and not by `read_exact`: to that an input that ends early is an error, and how far it came isn't said.
pub fn fill<R: Read>(reader: &mut R, room: &mut [u8]) -> io::Result<usize>
    ensures within { IfOk result (λ n. n ≤ size room.new) }
    ensures taken { IfOk result (λ n. Consumes (R.remaining reader.old) (R.remaining reader.new) (take n room.new)) }
    ensures ended { IfOk result (λ n. n < size room.new → IsAtEnd (R.remaining reader.new)) }
{
    let mut done = 0;
    while done < room.len() {
        let n = reader.read(&mut room[done..])?;
        if n == 0 {
            break;
        }
        done += n;
    }
    Ok(done)
}

#[cfg(test)]
mod tests {
    use super::*;

    #[test]
    fn goes_on_after_a_short_read(rt: HostRuntime) -> io::Result<()> {
        let front: &[u8] = b"ab";
        let back: &[u8] = b"cde";
        let mut reader = front.chain(back);
        let mut room = [0u8; 4];
        assert_eq!(rt; fill(&mut reader, &mut room)?, 4);
        assert_eq!(rt; room, *b"abcd");
        assert_eq!(rt; fill(&mut reader, &mut room)?, 1);
        assert_eq!(rt; room, *b"ebcd");
        assert_eq!(rt; fill(&mut reader, &mut room)?, 0);
        Ok(())
    }
}
