// The crossings between a lent list of segments, of any length, and three plain lists of 2,048 places, the form in
// which the segments of a net are worked on.
//
// `take_in` fetches the segments of a lent list one by one, hands each to a covered check, and puts its fields side by
// side into the three lists: its answer is 1 to 7, for a list that is too long 4. The posts' own ratios are lent as two
// plain lists and stay there; their 3 is given before anything of a segment. `put_out` puts the first segments of three
// lists into the front of a lent list.
//
// The contracts speak of lists (specs/Lists.antt). Relies on `net` for what a segment is and how many a net has, and on
// `checks` for 1 to 7.
#![tactic(auto)]

ghost use Rattle.net.specs.Ready.{segments_in};
ghost use Rattle.crossings.specs.Lists.{Places, TakenIn, PutOut};

use checks::{check_head, check_own, check_segment, segment_at, segment_count};
use net::{Head, RatioLists, Refusal, Segment, SegmentLists};

// 1 to 7 of the net of a head, the posts' own ratios and a lent list, whose segments go side by side into the three
// lists. These stay parameters: callers lend their own arrays, and `TakenIn` speaks of each.
pub fn take_in(
    head: Head,
    own: RatioLists<'_>,
    list: &[Segment],
    a: &mut [u16],
    b: &mut [u16],
    lengths: &mut [u32],
) -> Result<(), Refusal>
    requires places { Places a.old b.old lengths.old }
    ensures taken { TakenIn head own.entry.p.now own.entry.q.now list.now
        result a.new b.new lengths.new }
{
    check_head(head, list.len())?;
    check_own(head, own)?;
    for (i, segment) in list.iter().enumerate() {
        a[i] = segment.a;
        b[i] = segment.b;
        lengths[i] = segment.length;
        check_segment(head.posts, *segment, i as u32)?;
    }
    Ok(())
}

// The first n segments of three lists take the first n places of a lent list, or as many as there are; the rest of the
// list stays as it is. n stands beside the lists: it may be more than they have.
pub fn put_out(list: &mut [Segment], n: usize, segments: SegmentLists<'_>)
    ensures put { PutOut n (segments_in segments.entry)
        list.old list.new }
{
    let m = n.min(list.len()).min(segment_count(segments));
    for (i, place) in list[..m].iter_mut().enumerate() {
        *place = segment_at(segments, i);
    }
}
