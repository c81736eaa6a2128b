// The checks 1 to 7 of a net: of a head and a count of segments (`check_head`), of a post's own ratio (`check_ratio`)
// and of all of them (`check_own`), of one segment (`check_segment`, and by its numbers `check_numbers`), of a whole
// net (`check`), which `sound` hands on where nothing refuses it. Each answers what the table of `net` gives (its
// specs/Refusals), and asks nothing of what is lent to it. `segment_count` and `segment_at` say what three slices side
// by side stand for, the second of a segment that is there: functions here and no methods, as `net` has none but small
// steps on lists and refusals. `rated` is 8 of the posts' own ratios. Relies on `net` alone; reading, writing, building
// and margin stand above it.
#![tactic(auto)]

ghost use Rattle.std.specs.Prelude.{◌≡◌, ◌<◌, ◌≤◌, not, eqb, length as size, IfOk};
ghost use Rattle.net.specs.Net.{ratio_at, own_of, nth_segment, most_segments, every};
ghost use Rattle.net.specs.Ready.{ratios_in, segments_in, count_in, ratio_count_in};
ghost use Rattle.net.specs.Refusals.{first, head_lines, ratio_lines, present_lines, own_lines, room_of_ratios};
ghost use Rattle.net.specs.Refusals.{segment_lines, all_segment_lines, checked_of, check_of, passed_of};
ghost use Rattle.net.specs.declared.Form.TheVariants.{Second};

use net::plain::refuse;
use net::{
    Form, Head, LONGEST, MOST_POSTS, MOST_RATIO, MOST_SEGMENTS, NetLists, RatedNet, RatioLists,
    Refusal, Segment, SegmentLists, SoundNet,
};

// 3 of a ratio p/q: of a post's own, which is the place, or of the house ratio, at place 0.
pub fn check_ratio(p: u32, q: u32, place: u32) -> Result<(), Refusal>
    ensures checked { result ≡ checked_of (first (ratio_lines place (record { p = p; q = q }))) }
{
    if q == 0 || p > MOST_RATIO || q > MOST_RATIO {
        return refuse(3, place);
    }
    Ok(())
}

// 1 to 4, for a net that claims `count` segments.
pub fn check_head(head: Head, count: usize) -> Result<(), Refusal>
    ensures checked { result ≡ checked_of (first (head_lines head count)) }
{
    if head.posts == 0 || head.posts > MOST_POSTS {
        return refuse(1, 0);
    }
    if head.source >= head.posts {
        return refuse(2, 0);
    }
    check_ratio(head.p, head.q, 0)?;
    if count > MOST_SEGMENTS {
        return refuse(4, 0);
    }
    Ok(())
}

// 3 of the own ratio of one post. "the source's place in their lent list is neither read nor written".
fn check_post(source: u32, own: RatioLists<'_>, post: u32) -> Result<(), Refusal>
    requires { (post < size own.p.now) × (post < size own.q.now) }
    ensures { result ≡ checked_of (first (present_lines (not (eqb post source))
        (ratio_lines post (ratio_at (ratios_in own.entry) post)))) }
{
    if post == source {
        return Ok(());
    }
    let v = post as usize;
    check_ratio(own.p[v], own.q[v], post)
}

// 3 of each post but the source in turn, as far as both slices go, in a net of the second form. The lesser of the two
// lengths is taken here and in `rated`: one line, so that a function is no plainer.
fn check_posts(head: Head, own: RatioLists<'_>) -> Result<(), Refusal>
    requires { head.form ≡ Second }
    ensures { result ≡ checked_of (first (own_lines head (own_of head (ratios_in own.entry)))) }
{
    let count = (head.posts as usize).min(own.p.len().min(own.q.len())) as u32;
    for post in 0..count {
        check_post(head.source, own, post)?;
    }
    Ok(())
}

// 3 of the posts' own ratios. "The house ratio, kept and checked, rules only nets of the first form": there no own
// ratio is read.
pub fn check_own(head: Head, own: RatioLists<'_>) -> Result<(), Refusal>
    ensures checked { result ≡ checked_of (first (own_lines head (own_of head (ratios_in own.entry)))) }
{
    match head.form {
        Form::First => Ok(()),
        Form::Second => check_posts(head, own),
    }
}

// 5, 6 and 7 of one segment, whose number is the place, given by its numbers: as they are read they may be larger than
// any post's.
pub fn check_numbers(posts: u32, a: u32, b: u32, length: u32, place: u32) -> Result<(), Refusal>
    ensures checked { result
        ≡ checked_of (first (segment_lines posts (record { a = a; b = b; length = length }) place)) }
{
    if a >= posts || b >= posts {
        return refuse(5, place);
    }
    if a == b {
        return refuse(6, place);
    }
    if length == 0 || length > LONGEST {
        return refuse(7, place);
    }
    Ok(())
}

// 5, 6 and 7 of one segment, whose number is the place.
pub fn check_segment(posts: u32, segment: Segment, number: u32) -> Result<(), Refusal>
    ensures checked { result ≡ checked_of (first (segment_lines posts segment number)) }
{
    check_numbers(
        posts,
        u32::from(segment.a),
        u32::from(segment.b),
        segment.length,
        number,
    )
}

// Three slices side by side stand for as many segments as the shortest has places.
pub fn segment_count(segments: SegmentLists<'_>) -> usize
    ensures counted { result ≡ count_in segments.entry }
{
    let ends = segments.a.len().min(segments.b.len());
    ends.min(segments.lengths.len())
}

// Segment i of three slices side by side, by value.
pub fn segment_at(segments: SegmentLists<'_>, i: usize) -> Segment
    requires { (i < size segments.a.now) × (i < size segments.b.now) × (i < size segments.lengths.now) }
    ensures fetched { result ≡ nth_segment (segments_in segments.entry) i }
{
    Segment {
        a: segments.a[i],
        b: segments.b[i],
        length: segments.lengths[i],
    }
}

// "for each segment in turn 5, 6, 7", of which there are as many as the three slices stand for.
fn check_segments(posts: u32, segments: SegmentLists<'_>) -> Result<(), Refusal>
    requires { count_in segments ≤ most_segments }
    ensures { result ≡ checked_of (first (all_segment_lines every posts (segments_in segments.entry))) }
{
    for i in 0..segment_count(segments) {
        check_segment(posts, segment_at(segments, i), i as u32)?;
    }
    Ok(())
}

// 1 to 7 of a net.
pub fn check(net: NetLists<'_>) -> Result<(), Refusal>
    ensures checked { result ≡ check_of net.entry.head (ratios_in net.entry.own) (segments_in net.entry.segments) }
{
    check_head(net.head, segment_count(net.segments))?;
    check_own(net.head, net.own)?;
    check_segments(net.head.posts, net.segments)
}

// 1 to 7 of a net, and the net itself where nothing refuses it, its lists of segments cut to as many as they stand for.
pub fn sound<'a>(net: NetLists<'a>) -> Result<SoundNet<'a>, Refusal>
    ensures answers { passed_of result
        ≡ check_of net.entry.head (ratios_in net.entry.own) (segments_in net.entry.segments) }
    ensures same { IfOk result (λ n. (n.lists.head ≡ net.entry.head) × (n.lists.own ≡ net.entry.own)
        × (segments_in n.lists.segments ≡ segments_in net.entry.segments)) }
{
    check(net)?;
    let count = segment_count(net.segments);
    let segments = SegmentLists {
        a: &net.segments.a[..count],
        b: &net.segments.b[..count],
        lengths: &net.segments.lengths[..count],
    };
    Ok(SoundNet {
        lists: NetLists {
            head: net.head,
            own: net.own,
            segments,
        },
    })
}

// 8 of the posts' own ratios, whatever the form, and the net itself where they have a place for each post.
pub fn rated<'a>(net: SoundNet<'a>) -> Result<RatedNet<'a>, Refusal>
    ensures answers { passed_of result
        ≡ checked_of (first (room_of_ratios net.entry.lists.head.posts (ratio_count_in net.entry.lists.own))) }
    ensures same { IfOk result (λ n. n.lists ≡ net.entry.lists) }
{
    let own = net.lists.own;
    if own.p.len().min(own.q.len()) < net.lists.head.posts as usize {
        return refuse(8, 0);
    }
    Ok(RatedNet { lists: net.lists })
}
