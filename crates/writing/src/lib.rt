// Writing a net's record, a row of the numbers of the crate `numbers`, in either form. "Writing: 1 to 7", then 8 of the
// ratios that are lent, "then 18": nothing is written before the whole net is found sound and the room long enough. A
// net's own ratios stand in two slices side by side, its segments in three; the source's place is not read. What each
// function promises is an equation with a definition of specs/; `write` asks nothing, and `write_sound` nothing but its
// `SoundNet`. Relies on `checks` for 1 to 7 and on `numbers`; `reading`, which reads a record and has the laws
// about both ways, stands above it.
#![tactic(auto)]

ghost use Rattle.std.specs.Prelude.{◌≡◌, ◌*◌, ◌≤◌, ◌<◌, length};
ghost use Rattle.net.specs.Net.{most_posts, most_segments, own_of};
ghost use Rattle.net.specs.Ready.{ratios_in, ratio_count_in, segments_in, count_in, net_in};
ghost use Rattle.net.specs.declared.Form.TheVariants.{Second};
ghost use Rattle.numbers.specs.Numbers.{written, most_numbers};
ghost use Rattle.numbers.specs.Putting.{onto};
ghost use Rattle.writing.specs.Writing.{form_written, numbers_written, head_written, post_written, posts_written};
ghost use Rattle.writing.specs.Writing.{own_written, segment_written, segments_written, net_written};
ghost use Rattle.writing.specs.Putting.{HasRoom, Wrote};
ghost use Rattle.writing.specs.Answers.{Writes};

use checks::{rated, segment_at, segment_count, sound};
use net::plain::refuse;
use net::{Form, Head, NetLists, RatedNet, Refusal, Segment, SoundNet};
use numbers::{number_size, put_at};

// A record in lent room, which ends before the place `at`. Each method puts its bytes there, and leaves all others as
// they are. How much room is left stays a clause of each, which puts other bytes. Not one struct with lines' `Text`:
// both are private, and neither crate stands on the other.
#[derive(Drop)]
struct Page<'a> {
    room: &'a mut [u8],
    at: usize,
}

// How many bytes "a first number 0" takes, which only the second form has.
fn form_size(head: Head) -> usize
    ensures { (result ≡ length (form_written head.form)) × (result ≤ 4) }
{
    match head.form {
        Form::First => 0,
        Form::Second => number_size(0),
    }
}

// How many bytes the five numbers of a head take.
fn numbers_size(head: Head, count: u32) -> usize
    ensures { (result ≡ length (numbers_written head count)) × (result ≤ 20) }
{
    number_size(head.posts)
        + number_size(head.source)
        + number_size(head.p)
        + number_size(head.q)
        + number_size(count)
}

// How many bytes a head takes.
fn head_size(head: Head, count: u32) -> usize
    ensures { (result ≡ length (head_written head count)) × (result ≤ 24) }
{
    form_size(head) + numbers_size(head, count)
}

// How many bytes a post's own ratio takes: none for the source.
fn post_size(net: RatedNet<'_>, post: u32) -> usize
    requires { post < net.lists.head.posts }
    ensures { (result ≡ length (post_written net.entry.lists.head.source (ratios_in net.entry.lists.own) post))
        × (result ≤ 8) }
{
    if post == net.lists.head.source {
        return 0;
    }
    let v = post as usize;
    number_size(net.lists.own.p[v]) + number_size(net.lists.own.q[v])
}

// How many bytes the own ratios of the posts take.
fn posts_size(net: RatedNet<'_>) -> usize
    ensures { (result ≡ length (posts_written net.entry.lists.head.source (ratios_in net.entry.lists.own) 0
        net.entry.lists.head.posts)) × (result ≤ 8 * most_posts) }
{
    let mut size = 0;
    for post in 0..net.lists.head.posts {
        size += post_size(net, post);
    }
    size
}

// How many bytes the own ratios of a net take.
fn own_size(net: RatedNet<'_>) -> usize
    ensures { (result ≡ length (own_written net.entry.lists.head
        (own_of net.entry.lists.head (ratios_in net.entry.lists.own)))) × (result ≤ 8 * most_posts) }
{
    match net.lists.head.form {
        Form::First => 0,
        Form::Second => posts_size(net),
    }
}

// How many bytes a segment takes.
fn segment_size(s: Segment) -> usize
    ensures { (result ≡ length (segment_written s)) × (result ≤ 12) }
{
    number_size(u32::from(s.a)) + number_size(u32::from(s.b)) + number_size(s.length)
}

// How many bytes the segments of a net take.
fn segments_size(net: RatedNet<'_>) -> usize
    ensures { (result ≡ length (segments_written (segments_in net.entry.lists.segments)))
        × (result ≤ 12 * most_segments) }
{
    let segments = net.lists.segments;
    let mut size = 0;
    for i in 0..segment_count(segments) {
        size += segment_size(segment_at(segments, i));
    }
    size
}

impl Page<'_> {
    // A number.
    fn put_number(&mut self, n: u32)
        requires { (n < most_numbers) × HasRoom (written n) self.old }
        ensures { Wrote (written n) self.old self.new }
    {
        self.at = put_at(self.room, self.at, n);
    }

    // "A first number 0" of the second form.
    fn put_form(&mut self, form: Form)
        requires { HasRoom (form_written form) self.old }
        ensures { Wrote (form_written form) self.old self.new }
    {
        match form {
            Form::First => {}
            Form::Second => self.put_number(0),
        }
    }

    // "post count, source, p, q, segment count"
    fn put_head(&mut self, net: RatedNet<'_>)
        requires { HasRoom (numbers_written net.lists.head (length net.lists.segments.a.now)) self.old }
        ensures { Wrote (numbers_written net.entry.lists.head (length net.entry.lists.segments.a.now))
            self.old self.new }
    {
        let NetLists { head, segments, .. } = net.lists;
        self.put_number(head.posts);
        self.put_number(head.source);
        self.put_number(head.p);
        self.put_number(head.q);
        self.put_number(segments.a.len() as u32);
    }

    // "p and q" of a post, and nothing of the source.
    fn put_post(&mut self, net: RatedNet<'_>, post: u32)
        requires { (net.lists.head.form ≡ Second) × (post < net.lists.head.posts)
            × HasRoom (post_written net.lists.head.source (ratios_in net.lists.own) post) self.old }
        ensures { Wrote (post_written net.entry.lists.head.source (ratios_in net.entry.lists.own) post)
            self.old self.new }
    {
        if post == net.lists.head.source {
            return;
        }
        let v = post as usize;
        self.put_number(net.lists.own.p[v]);
        self.put_number(net.lists.own.q[v]);
    }

    // "p and q for each post but the source in rising order"
    fn put_posts(&mut self, net: RatedNet<'_>)
        requires { (net.lists.head.form ≡ Second)
            × HasRoom (posts_written net.lists.head.source (ratios_in net.lists.own) 0 net.lists.head.posts) self.old }
        ensures { Wrote (posts_written net.entry.lists.head.source (ratios_in net.entry.lists.own) 0
            net.entry.lists.head.posts) self.old self.new }
    {
        for post in 0..net.lists.head.posts {
            self.put_post(net, post);
        }
    }

    // The own ratios of a net: none in the first form.
    fn put_own(&mut self, net: RatedNet<'_>)
        requires { HasRoom (own_written net.lists.head (own_of net.lists.head (ratios_in net.lists.own))) self.old }
        ensures { Wrote (own_written net.entry.lists.head
            (own_of net.entry.lists.head (ratios_in net.entry.lists.own))) self.old self.new }
    {
        match net.lists.head.form {
            Form::First => {}
            Form::Second => self.put_posts(net),
        }
    }

    // "its two posts in the order given and its length"
    fn put_segment(&mut self, s: Segment)
        requires { (s.length < most_numbers) × HasRoom (segment_written s) self.old }
        ensures { Wrote (segment_written s) self.old self.new }
    {
        self.put_number(u32::from(s.a));
        self.put_number(u32::from(s.b));
        self.put_number(s.length);
    }

    // The segments of a net.
    fn put_segments(&mut self, net: RatedNet<'_>)
        requires { HasRoom (segments_written (segments_in net.lists.segments)) self.old }
        ensures { Wrote (segments_written (segments_in net.entry.lists.segments)) self.old self.new }
    {
        let segments = net.lists.segments;
        for i in 0..segment_count(segments) {
            self.put_segment(segment_at(segments, i));
        }
    }
}

// Writes the record of a net that is not refused by 1 to 8 into a room that is long enough.
fn put_net(net: RatedNet<'_>, room: &mut [u8])
    requires { length (net_written (net_in net.lists)) ≤ length room.old }
    ensures { room.new ≡ onto (net_written (net_in net.entry.lists)) room.old }
{
    let mut page = Page { room, at: 0 };
    page.put_form(net.lists.head.form);
    page.put_head(net);
    page.put_own(net);
    page.put_segments(net);
}

// Writes the record of a net that is not refused by 1 to 7 into `room`, whose bytes beyond the record are unchanged:
// its length, or 8 of the ratios that are lent, or 18.
pub fn write_sound(net: SoundNet<'_>, room: &mut [u8]) -> Result<u32, Refusal>
    ensures writes { Writes (net_in net.entry.lists) (count_in net.entry.lists.segments)
        (ratio_count_in net.entry.lists.own) room.old result room.new }
{
    let net = rated(net)?;
    let whole = head_size(net.lists.head, net.lists.segments.a.len() as u32)
        + own_size(net)
        + segments_size(net);
    if room.len() < whole {
        return refuse(18, 0);
    }
    put_net(net, room);
    Ok(whole as u32)
}

// Writes the record of a net of lists of any lengths into `room`: its length, or the refusal, 1 to 7, then 8, then 18.
pub fn write(net: NetLists<'_>, room: &mut [u8]) -> Result<u32, Refusal>
    ensures writes { Writes (net_in net.entry) (count_in net.entry.segments) (ratio_count_in net.entry.own)
        room.old result room.new }
{
    write_sound(sound(net)?, room)
}
