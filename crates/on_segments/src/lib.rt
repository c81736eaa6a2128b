// The entries over lent lists: "The segments stand as a lent list of records, two posts and a length each." The posts'
// own ratios stand in two plain lists beside it, their p and their q. `build` plans the net of what is lent, `margin`
// and `write` take the ratios and the segments from there, and `read` lays them there. Each is a crossing of the crate
// `crossings` and the function over plain lists that does the work; none asks anything of what is lent, and a list of
// segments that is too long is refused with 4.
#![tactic(auto)]

ghost use Rattle.std.specs.Prelude.{◌≡◌, length, replicate};
ghost use Rattle.crossings.specs.Lists.{net_on, TakenIn};
ghost use Rattle.net.specs.Net.{every, most_segments, ratios_of};
ghost use Rattle.net.specs.Ready.{ratio_count_in, net_in};
ghost use Rattle.net.specs.Building.{margin_of};
ghost use Rattle.building.specs.Answers.{Leaves};
ghost use Rattle.margins.specs.Answers.{margin_answer_of};
ghost use Rattle.writing.specs.Answers.{Writes};
ghost use Rattle.reading.specs.Reading.{net_read};
ghost use Rattle.on_segments.specs.Reading.{ReadsFront, Reads};

use building::build_sound;
use crossings::{put_out, take_in};
use margins::margin_sound;
use net::{
    Built, Counted, Head, MOST_SEGMENTS, NetLists, POST_PLACES, RatioLists, Refusal, Segment,
    SegmentLists, SoundNet, Tree,
};
use reading::{lay_ratios, read_in};
use writing::write_sound;

// Three lists to work in: a place in each for every segment that a net may have. Not on_records' `Places`: the ratios
// are lent here, and arrays for them would stand unused.
#[derive(Drop)]
struct Lists {
    a: [u16; MOST_SEGMENTS],
    b: [u16; MOST_SEGMENTS],
    lengths: [u32; MOST_SEGMENTS],
}

impl Lists {
    // With nothing in them.
    fn new() -> Lists
        ensures empty { (result.a ≡ replicate most_segments 0) × (result.b ≡ replicate most_segments 0)
            × (result.lengths ≡ replicate most_segments 0) }
    {
        Lists {
            a: [0; MOST_SEGMENTS],
            b: [0; MOST_SEGMENTS],
            lengths: [0; MOST_SEGMENTS],
        }
    }

    // Takes a lent list in, or refuses it by 1 to 7.
    fn take(&mut self, head: Head, own: RatioLists<'_>, list: &[Segment]) -> Result<(), Refusal>
        ensures taken { TakenIn head own.entry.p.now own.entry.q.now list.now
            result self.new.a self.new.b self.new.lengths }
    {
        take_in(head, own, list, &mut self.a, &mut self.b, &mut self.lengths)
    }

    // The net of a list that was taken in.
    fn net<'a>(&'a self, head: Head, own: RatioLists<'a>, list: &[Segment]) -> SoundNet<'a>
        requires { TakenIn head own.p.now own.q.now list.now
            (Ok tt) self.now.a self.now.b self.now.lengths }
        ensures net { net_in result.lists ≡ net_on head own.entry.p.now own.entry.q.now list.now }
        ensures own { result.lists.own ≡ own.entry }
    {
        let m = list.len();
        let segments = SegmentLists {
            a: &self.a[..m],
            b: &self.b[..m],
            lengths: &self.lengths[..m],
        };
        SoundNet {
            lists: NetLists {
                head,
                own,
                segments,
            },
        }
    }
}

// Building: the trees' entries go into the three lent lists, and the answer has their lengths and radii and the count
// of laid paths, or the refusal. The three tree lists stay parameters: callers lend them so (document 01), and `Leaves`
// speaks of each.
pub fn build(
    head: Head,
    own: RatioLists<'_>,
    segments: &[Segment],
    lightest: &mut [u16],
    shortest: &mut [u16],
    between: &mut [u16],
) -> Result<Built, Refusal>
    ensures built { Leaves
        (net_on head own.entry.p.now own.entry.q.now segments.now) (length segments.now)
        (ratio_count_in own.entry) lightest.old shortest.old between.old
        result lightest.new shortest.new between.new }
{
    let mut lists = Lists::new();
    lists.take(head, own, segments)?;
    let net = lists.net(head, own, segments);
    build_sound(net, lightest, shortest, between)
}

// The margin of a post in the named tree, worked out afresh, or the refusal. No list is lent but the ratios and the
// segments.
pub fn margin(
    head: Head,
    own: RatioLists<'_>,
    segments: &[Segment],
    tree: Tree,
    post: u32,
) -> Result<i64, Refusal>
    ensures answers { result ≡ margin_answer_of
        (margin_of every (net_on head own.entry.p.now own.entry.q.now segments.now)
        (length segments.now) (ratio_count_in own.entry) tree post) }
{
    let mut lists = Lists::new();
    lists.take(head, own, segments)?;
    margin_sound(lists.net(head, own, segments), tree, post)
}

// Writing: the record goes to the front of the room, and bytes beyond it are unchanged; after a refusal the whole room
// is.
pub fn write(
    head: Head,
    own: RatioLists<'_>,
    segments: &[Segment],
    room: &mut [u8],
) -> Result<u32, Refusal>
    ensures written { Writes (net_on head own.entry.p.now own.entry.q.now segments.now)
        (length segments.now) (ratio_count_in own.entry)
        room.old result room.new }
{
    let mut lists = Lists::new();
    lists.take(head, own, segments)?;
    write_sound(lists.net(head, own, segments), room)
}

// Reads a record of at most `room` segments: those of a good one stand at the fronts of the three lists, and its posts'
// own ratios are laid over p and q. These stay parameters here and in `read`: callers lend them so (document 02), and
// each is filled.
fn read_front(
    bytes: &[u8],
    room: usize,
    p: &mut [u32],
    q: &mut [u32],
    lists: &mut Lists,
) -> Result<Counted, Refusal>
    ensures { ReadsFront (net_read bytes.now room (length (ratios_of p.old q.old)) 0)
        p.old q.old result p.new q.new
        lists.new.a lists.new.b lists.new.lengths }
{
    let ratios = p.len().min(q.len());
    let mut x = [0u32; POST_PLACES];
    let mut y = [0u32; POST_PLACES];
    let counted = read_in(
        bytes,
        room,
        ratios,
        &mut x,
        &mut y,
        &mut lists.a,
        &mut lists.b,
        &mut lists.lengths,
    )?;
    lay_ratios(counted.head, RatioLists { p: &x, q: &y }, p, q);
    Ok(counted)
}

// Reading: the segments of a good record go to the front of the lent list, and in the second form the posts' own ratios
// to their places of p and q; all other entries, the source's place among them, are unchanged, and after a refusal
// every entry is.
pub fn read(
    bytes: &[u8],
    p: &mut [u32],
    q: &mut [u32],
    segments: &mut [Segment],
) -> Result<Counted, Refusal>
    ensures read { Reads bytes.now p.old q.old segments.old
        result p.new q.new segments.new }
{
    let mut lists = Lists::new();
    let counted = read_front(bytes, segments.len(), p, q, &mut lists)?;
    let places = SegmentLists {
        a: &lists.a,
        b: &lists.b,
        lengths: &lists.lengths,
    };
    put_out(segments, counted.count as usize, places);
    Ok(counted)
}
