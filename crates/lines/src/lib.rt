// What the program prints, as bytes in lent room. Each function puts its text behind what stands there, and leaves all
// other bytes as they are. Nothing is refused: each asks that its text fits, and 8,192 bytes are room for the longest.
#![tactic(auto)]

ghost use Rattle.std.specs.Prelude.{◌≡◌, ◌∷◌, [], ◌+◌, ◌≤◌, ◌<◌, length as size};
ghost use Rattle.net.specs.Net.{most_posts};
ghost use Rattle.net.specs.Building.{built as answered};
ghost use Rattle.lines.specs.Text.{decimal, spaced, ratio_text, net_line, entry_text, entries_text, tree_line};
ghost use Rattle.lines.specs.Text.{laid_line, refused_line, program_text};
ghost use Rattle.lines.specs.Putting.{Put, Wrote, HasRoom, most_text};

use net::{Head, Measured, Plan, Refusal};

// A text in lent room, which ends before the place `at`. How much room is left stays a clause of each method: each puts
// another text. Not one struct with writing's `Page`: both are private, and neither crate stands on the other.
#[derive(Drop)]
struct Text<'a> {
    room: &'a mut [u8],
    at: usize,
}

// The byte of a digit.
fn digit(d: u32) -> u8
    requires { d < 10 }
    ensures { result ≡ 48 + d }
{
    48 + d as u8
}

impl Text<'_> {
    // One byte.
    fn put_byte(&mut self, byte: u8)
        requires { HasRoom (byte ∷ []) self.old }
        ensures { Wrote (byte ∷ []) self.old self.new }
    {
        self.room[self.at] = byte;
        self.at += 1;
    }

    // A word.
    fn put_bytes(&mut self, word: &[u8])
        requires { HasRoom word.now self.old }
        ensures { Wrote word.now self.old self.new }
    {
        let next = self.at + word.len();
        self.room[self.at..next].copy_from_slice(word);
        self.at = next;
    }

    // A number in base ten: what stands before its last digit, and that digit. Not by std's `write!`: that may answer
    // an error, whatever room there is, and its contract says nothing of the room then.
    fn put_decimal(&mut self, n: u32)
        requires { HasRoom (decimal n) self.old }
        ensures { Wrote (decimal n) self.old self.new }
    {
        if n < 10 {
            return self.put_byte(digit(n));
        }
        self.put_decimal(n / 10);
        self.put_byte(digit(n % 10));
    }

    // A space and a number.
    fn put_spaced(&mut self, n: u32)
        requires { HasRoom (spaced n) self.old }
        ensures { Wrote (spaced n) self.old self.new }
    {
        self.put_byte(b' ');
        self.put_decimal(n);
    }

    // The ratio, p/q.
    fn put_ratio(&mut self, p: u32, q: u32)
        requires { HasRoom (ratio_text p q) self.old }
        ensures { Wrote (ratio_text p q) self.old self.new }
    {
        self.put_spaced(p);
        self.put_byte(b'/');
        self.put_decimal(q);
    }

    // "First line: posts, segments, source, ratio."
    fn put_net_line(&mut self, head: Head, segments: u32)
        requires { HasRoom (net_line head.posts segments head.source head.p head.q) self.old }
        ensures { Wrote (net_line head.posts segments head.source head.p head.q) self.old self.new }
    {
        self.put_bytes(b"net");
        self.put_spaced(head.posts);
        self.put_spaced(segments);
        self.put_spaced(head.source);
        self.put_ratio(head.p, head.q);
        self.put_byte(b'\n');
    }

    // The entry of post v, and nothing for the source.
    fn put_entry(&mut self, source: usize, v: usize, entry: u16)
        requires { HasRoom (entry_text source v entry) self.old }
        ensures { Wrote (entry_text source v entry) self.old self.new }
    {
        if v != source {
            self.put_spaced(u32::from(entry));
        }
    }

    // "the entries of all posts but the source in rising order": of so many posts, as lent lists may be longer.
    fn put_entries(&mut self, posts: usize, source: usize, entries: &[u16])
        requires posts_bound { posts ≤ size entries.now }
        requires posts_bound_2 { HasRoom (entries_text source entries.now posts) self.old }
        ensures { Wrote (entries_text source entries.now posts) self.old self.new }
    {
        for (v, &entry) in entries[..posts].iter().enumerate() {
            self.put_entry(source, v, entry);
        }
    }

    // "Tree lines: length, radius, then the entries"
    fn put_tree_line(&mut self, name: &[u8], measured: Measured, head: Head, entries: &[u16])
        requires posts_bound { head.posts ≤ size entries.now }
        requires entries_bound { HasRoom (tree_line name.now measured.length measured.radius head.posts head.source
            entries.now) self.old }
        ensures { Wrote (tree_line name.now measured.length measured.radius head.posts head.source
            entries.now) self.old self.new }
    {
        self.put_bytes(name);
        self.put_spaced(measured.length);
        self.put_spaced(measured.radius);
        self.put_entries(head.posts as usize, head.source as usize, entries);
        self.put_byte(b'\n');
    }

    // "Last line: count of laid paths."
    fn put_laid_line(&mut self, laid: u32)
        requires { HasRoom (laid_line laid) self.old }
        ensures { Wrote (laid_line laid) self.old self.new }
    {
        self.put_bytes(b"laid");
        self.put_spaced(laid);
        self.put_byte(b'\n');
    }
}

// What the program prints for a plan, at the front of the room: five lines. The answer is how many bytes they are. The
// three tree lists stay parameters: the caller has them so, and one line is printed of each.
pub fn put_built(
    plan: Plan,
    lightest: &[u16],
    shortest: &[u16],
    between: &[u16],
    out: &mut [u8],
) -> usize
    requires posts_le_most_posts { plan.head.posts ≤ most_posts }
    requires posts_bound { (plan.head.posts ≤ size lightest.now) × (plan.head.posts ≤ size shortest.now)
        × (plan.head.posts ≤ size between.now) }
    requires most_text_bound { most_text ≤ size out.old }
    ensures put { Put (program_text plan.head plan.count
        (answered plan.built.lightest plan.built.shortest plan.built.between plan.built.laid) lightest.now
        shortest.now between.now) 0 out.old out.new result }
{
    let Plan { head, count, built } = plan;
    let mut text = Text { room: out, at: 0 };
    text.put_net_line(head, count);
    text.put_tree_line(b"mst", built.lightest, head, lightest);
    text.put_tree_line(b"spt", built.shortest, head, shortest);
    text.put_tree_line(b"last", built.between, head, between);
    text.put_laid_line(built.laid);
    text.at
}

// What the program prints for a refusal, at the front of the room: "the single line `refused`, number and place, parted
// by spaces". The answer is how many bytes it is.
pub fn put_refused(refusal: Refusal, out: &mut [u8]) -> usize
    requires { most_text ≤ size out.old }
    ensures put { Put (refused_line refusal.number refusal.place) 0 out.old out.new result }
{
    let mut text = Text { room: out, at: 0 };
    text.put_bytes(b"refused");
    text.put_spaced(refusal.number);
    text.put_spaced(refusal.place);
    text.put_byte(b'\n');
    text.at
}
