// What is asked of a record of either form: plan it, write it again, the margin of a post, or only whether it is good.
// Each but the last reads the record into places of its own (`Places`), as many as a net may have posts and segments,
// and goes on with the net that was read, which is checked as it is read and not again; a refusal of reading is the
// answer, and then nothing lent is changed. None asks anything of what is lent.
// Thin over `reading`, `writing`, `building` and `margins`; the program and the library for C stand on it.
#![tactic(auto)]

ghost use Rattle.std.specs.Prelude.{◌≡◌, IfOk};
ghost use Rattle.net.specs.Net.{most_posts};
ghost use Rattle.net.specs.Ready.{net_in, ratio_count_in, count_in};
ghost use Rattle.reading.specs.Answers.{ReadIn, check_read};
ghost use Rattle.on_records.specs.Asked.{record_read, front_of, Empty, Front};
ghost use Rattle.on_records.specs.Asked.{Plans, Rewrites, margin_read};

use net::{
    Counted, Head, MOST_SEGMENTS, NetLists, POST_PLACES, Plan, RatioLists, Refusal, SegmentLists,
    SoundNet, Tree,
};
use reading::{check_record, read_in};

// Places for what is read of a record: for as many posts and segments as a net may have.
#[derive(Drop)]
pub struct Places {
    pub p: [u32; POST_PLACES],
    pub q: [u32; POST_PLACES],
    pub a: [u16; MOST_SEGMENTS],
    pub b: [u16; MOST_SEGMENTS],
    pub lengths: [u32; MOST_SEGMENTS],
}

impl Places {
    // With nothing in them.
    pub fn new() -> Places
        ensures empty { Empty result.p result.q result.a result.b result.lengths }
    {
        Places {
            p: [0; POST_PLACES],
            q: [0; POST_PLACES],
            a: [0; MOST_SEGMENTS],
            b: [0; MOST_SEGMENTS],
            lengths: [0; MOST_SEGMENTS],
        }
    }

    // Reads a record into them.
    pub fn read(&mut self, bytes: &[u8]) -> Result<Counted, Refusal>
        ensures read { ReadIn (record_read bytes.now) result self.new.p self.new.q
            self.new.a self.new.b self.new.lengths }
        ensures front { IfOk result (λ c. Front c.head c.count self.new.p self.new.q
            self.new.a self.new.b self.new.lengths) }
    {
        read_in(
            bytes,
            MOST_SEGMENTS,
            POST_PLACES,
            &mut self.p,
            &mut self.q,
            &mut self.a,
            &mut self.b,
            &mut self.lengths,
        )
    }

    // The net that was read: its ratios, and the first so many segments.
    pub fn net(&self, counted: Counted) -> SoundNet<'_>
        requires { Front counted.head counted.count self.now.p self.now.q self.now.a self.now.b self.now.lengths }
        ensures net { net_in result.lists ≡ front_of counted.head counted.count self.now.p self.now.q
            self.now.a self.now.b self.now.lengths }
        ensures ratios { ratio_count_in result.lists.own ≡ most_posts }
        ensures segments { count_in result.lists.segments ≡ counted.count }
    {
        let m = counted.count as usize;
        let own = RatioLists {
            p: &self.p,
            q: &self.q,
        };
        let segments = SegmentLists {
            a: &self.a[..m],
            b: &self.b[..m],
            lengths: &self.lengths[..m],
        };
        let head = counted.head;
        SoundNet {
            lists: NetLists {
                head,
                own,
                segments,
            },
        }
    }
}

// PLAN, for every input: reads the record and builds its trees into the three lent lists. They stay parameters: C lends
// them, and `Plans` speaks of each.
pub fn plan(
    bytes: &[u8],
    lightest: &mut [u16],
    shortest: &mut [u16],
    between: &mut [u16],
) -> Result<Plan, Refusal>
    ensures planned { Plans bytes.now
        lightest.old shortest.old between.old result
        lightest.new shortest.new between.new }
{
    let mut places = Places::new();
    let counted = places.read(bytes)?;
    let net = places.net(counted);
    let built = building::build_sound(net, lightest, shortest, between)?;
    Ok(Plan {
        head: counted.head,
        count: counted.count,
        built,
    })
}

// REWRITE, for every input: reads the record and writes its net's record to the front of the room; bytes beyond it are
// unchanged.
pub fn rewrite(bytes: &[u8], room: &mut [u8]) -> Result<u32, Refusal>
    ensures rewritten { Rewrites bytes.now room.old result room.new }
{
    let mut places = Places::new();
    let read = places.read(bytes)?;
    writing::write_sound(places.net(read), room)
}

// MARGIN, for every input: reads the record and says what margin a post has in the named tree, worked out afresh.
pub fn margin(bytes: &[u8], tree: Tree, post: u32) -> Result<i64, Refusal>
    ensures measured { result ≡ margin_read bytes.now tree post }
{
    let mut places = Places::new();
    let found = places.read(bytes)?;
    margins::margin_sound(places.net(found), tree, post)
}

// CHECK, for every input: reads the record, and keeps nothing of it.
pub fn check(bytes: &[u8]) -> Result<(), Refusal>
    ensures checked { result ≡ check_read (record_read bytes.now) }
{
    check_record(bytes)
}
