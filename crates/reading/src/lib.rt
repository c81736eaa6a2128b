// The record of a net, a row of the numbers of the crate `numbers`, in either form: its reader. Everything is refused
// as document 01's table says, in its order: the first number, which is 0 in the second form, and the head's five (10,
// 11), 1 to 4, 8, then in the second form for each post but the source 10, 11, 3, then for each segment 10, 11, 5, 6,
// 7, then 12. One reader carries the bytes from number to number through the whole record: each step hands on what it
// read and the reader behind it, or the refusal, which is the answer. What is read stands in plain lists side by side,
// two for the posts' own ratios and three for the segments. `read_in` reads into lists to work in; `read` lays a good
// record's ratios and segments over lent lists, and nothing before the whole record is found good; `check_record` only
// says whether it is. Relies on `checks` and `numbers`; for the laws about both ways, in proofs/, on `writing`.
#![tactic(auto)]

ghost use Rattle.std.specs.Prelude.{◌≡◌, ◌≤◌, ◌++◌, length, drop};
ghost use Rattle.net.specs.Net.{most_posts, most_segments, own_of};
ghost use Rattle.net.specs.Ready.{ratios_in};
ghost use Rattle.numbers.specs.Numbers.{number};
ghost use Rattle.numbers.specs.Answers.{numbered_of};
ghost use Rattle.reading.specs.Reading.{formed, headed, ratio, posts, segment, segments, net_read};
ghost use Rattle.reading.specs.Answers.{read_of, counted, the_own_posts, OwnStored, SegmentsStored};
ghost use Rattle.reading.specs.Answers.{laid_in, ReadIn, ReadsLists, check_read};
ghost use Rattle.reading.specs.Carrying.{carried_on};

use checks::{check_head, check_numbers, check_ratio};
use net::plain::refuse;
use net::{
    Counted, Form, Head, MOST_SEGMENTS, POST_PLACES, RatioLists, Refusal, Segment, SegmentLists,
};
use numbers::reader::{Reader, behind, moved, new, number};

// The number at the reader's place, and the reader behind it; or 10 or 11.
fn next<'a>(r: Reader<'a>) -> Result<(u32, Reader<'a>), Refusal>
    requires { r.at ≤ 2000000 }
    ensures reads { result ≡ read_of (λ n at. (n, record { bytes = r.entry.bytes; at = at }))
        (number r.entry.bytes.now r.entry.at) }
    ensures carries { result ≡ carried_on r.entry (numbered_of (number r.entry.bytes.now r.entry.at)) }
{
    let read = number(r);
    let on = moved(r, behind(read));
    match read {
        Ok(n) => Ok((n.value, on)),
        Err(misread) => refuse(misread.number, misread.place as u32),
    }
}

// "a first number 0" says the second form, and the head begins behind it; any other is the head's first.
fn form_at<'a>(r: Reader<'a>) -> Result<(Form, Reader<'a>), Refusal>
    requires { r.at ≤ 1000000 }
    ensures { result ≡ read_of (λ form at. (form, record { bytes = r.entry.bytes; at = at }))
        (formed r.entry.bytes.now r.entry.at) }
{
    let (n, behind) = next(r)?;
    if n == 0 {
        return Ok((Form::Second, behind));
    }
    Ok((Form::First, r))
}

// "post count, source, p, q, segment count".
fn head_at<'a>(r: Reader<'a>, form: Form) -> Result<(Counted, Reader<'a>), Refusal>
    requires { r.at ≤ 1000000 }
    ensures { result ≡ read_of (λ h at. (counted h, record { bytes = r.entry.bytes; at = at }))
        (headed r.entry.bytes.now form r.entry.at) }
{
    let (posts, r) = next(r)?;
    let (source, r) = next(r)?;
    let (p, r) = next(r)?;
    let (q, r) = next(r)?;
    let (count, r) = next(r)?;
    let head = Head {
        posts,
        source,
        p,
        q,
        form,
    };
    Ok((Counted { head, count }, r))
}

// The own ratio of a post: "p and q", then its 3.
fn ratio_at<'a>(r: Reader<'a>, post: u32) -> Result<(u32, u32, Reader<'a>), Refusal>
    requires { r.at ≤ 1000000 }
    ensures { result ≡ read_of (λ o at. (o.p, o.q, record { bytes = r.entry.bytes; at = at }))
        (ratio r.entry.bytes.now post r.entry.at) }
{
    let (p, r) = next(r)?;
    let (q, r) = next(r)?;
    check_ratio(p, q, post)?;
    Ok((p, q, r))
}

// Segment `i`: "its two posts in the order given and its length", then 5, 6, 7.
fn segment_at<'a>(r: Reader<'a>, posts: u32, i: u32) -> Result<(Segment, Reader<'a>), Refusal>
    requires { (r.at ≤ 1000000) × (posts ≤ most_posts) }
    ensures { result ≡ read_of (λ s at. (s, record { bytes = r.entry.bytes; at = at }))
        (segment r.entry.bytes.now posts i r.entry.at) }
{
    let (a, r) = next(r)?;
    let (b, r) = next(r)?;
    let (length, r) = next(r)?;
    check_numbers(posts, a, b, length, i)?;
    let segment = Segment {
        a: a as u16,
        b: b as u16,
        length,
    };
    Ok((segment, r))
}

// How many posts of a net have a place for an own ratio: none in the first form.
pub fn own_count(head: Head) -> u32
    ensures counted { result ≡ the_own_posts head.form head.posts }
{
    match head.form {
        Form::First => 0,
        Form::Second => head.posts,
    }
}

// Reads the own ratios of `count` posts into lists to work in, of 256 places each. Of the source nothing is read. Here
// and below the lists stay parameters: what callers lend comes so (documents 01 and 02), and each clause says of each
// what stands in it afterwards.
fn own_in<'a>(
    start: Reader<'a>,
    source: u32,
    count: u32,
    p: &mut [u32],
    q: &mut [u32],
) -> Result<Reader<'a>, Refusal>
    requires { (start.at ≤ 900000) × (count ≤ most_posts) × (length p.old ≡ most_posts) × (length q.old ≡ most_posts) }
    ensures answers { result ≡ read_of (λ own at. record { bytes = start.entry.bytes; at = at })
        (posts start.entry.bytes.now source 0 count start.entry.at) }
    ensures stored { OwnStored source count (posts start.entry.bytes.now source 0 count start.entry.at) p.new q.new }
{
    let mut r = start;
    for post in 0..count {
        if post == source {
            continue;
        }
        let (x, y, behind) = ratio_at(r, post)?;
        p[post as usize] = x;
        q[post as usize] = y;
        r = behind;
    }
    Ok(r)
}

// Reads `count` segments of a net that has `posts` posts into lists to work in, of 2,048 places each.
fn segments_in<'a>(
    start: Reader<'a>,
    posts: u32,
    count: usize,
    a: &mut [u16],
    b: &mut [u16],
    lengths: &mut [u32],
) -> Result<Reader<'a>, Refusal>
    requires { (start.at ≤ 900000) × (posts ≤ most_posts) × (count ≤ most_segments)
        × (length a.old ≡ most_segments) × (length b.old ≡ most_segments) × (length lengths.old ≡ most_segments) }
    ensures answers { result ≡ read_of (λ ss at. record { bytes = start.entry.bytes; at = at })
        (segments start.entry.bytes.now posts 0 count start.entry.at) }
    ensures stored { SegmentsStored count (segments start.entry.bytes.now posts 0 count start.entry.at)
        a.new b.new lengths.new }
{
    let mut r = start;
    for i in 0..count {
        let (segment, on) = segment_at(r, posts, i as u32)?;
        a[i] = segment.a;
        b[i] = segment.b;
        lengths[i] = segment.length;
        r = on;
    }
    Ok(r)
}

// Reads a record whose net has at most `room` segments and `ratios` posts into lists to work in, of 2,048 places
// each for the segments and of 256 each for the posts' own ratios: what was read stands at their fronts, or the answer
// is the refusal. The reader goes from the record's first byte through the head, from post to post and from segment to
// segment, and at the end its place says whether bytes are left.
pub fn read_in(
    bytes: &[u8],
    room: usize,
    ratios: usize,
    p: &mut [u32],
    q: &mut [u32],
    a: &mut [u16],
    b: &mut [u16],
    lengths: &mut [u32],
) -> Result<Counted, Refusal>
    requires { (length p.old ≡ most_posts) × (length q.old ≡ most_posts)
        × (length a.old ≡ most_segments) × (length b.old ≡ most_segments)
        × (length lengths.old ≡ most_segments) }
    ensures reads { ReadIn (net_read bytes.now room ratios 0) result p.new q.new
        a.new b.new lengths.new }
{
    let (form, r) = form_at(new(bytes))?;
    let (counted, r) = head_at(r, form)?;
    let head = counted.head;
    let count = counted.count as usize;
    check_head(head, count)?;
    if room < count || ratios < head.posts as usize {
        return refuse(8, 0);
    }
    let r = own_in(r, head.source, own_count(head), p, q)?;
    let r = segments_in(r, head.posts, count, a, b, lengths)?;
    if r.at < bytes.len() {
        let place = r.at as u32;
        return refuse(12, place);
    }
    Ok(counted)
}

// Lays three lists over the fronts of three lent ones; the entries beyond stay as they were.
fn lay(from: SegmentLists<'_>, a: &mut [u16], b: &mut [u16], lengths: &mut [u32])
    requires { (length from.b.now ≡ length from.a.now) × (length from.lengths.now ≡ length from.a.now)
        × (length from.a.now ≤ length a.old) × (length from.a.now ≤ length b.old)
        × (length from.a.now ≤ length lengths.old) }
    ensures a_after { a.new ≡ from.entry.a.now ++ drop (length from.entry.a.now) a.old }
    ensures b_after { b.new ≡ from.entry.b.now ++ drop (length from.entry.b.now) b.old }
    ensures lengths_after { lengths.new ≡ from.entry.lengths.now ++ drop (length from.entry.lengths.now) lengths.old }
{
    let count = from.a.len();
    a[..count].copy_from_slice(from.a);
    b[..count].copy_from_slice(from.b);
    lengths[..count].copy_from_slice(from.lengths);
}

// Lays the posts' own ratios of a net over two lent lists, which a net of the first form leaves as they were. The
// source's place and the places beyond the posts stay as they were in either form.
pub fn lay_ratios(head: Head, own: RatioLists<'_>, p: &mut [u32], q: &mut [u32])
    requires { (head.posts ≤ length own.p.now) × (head.posts ≤ length own.q.now)
        × (head.posts ≤ length p.old) × (head.posts ≤ length q.old) }
    ensures p_laid { p.new ≡ laid_in head.form (λ o. o.p) head.source (own_of head (ratios_in own.entry)) p.old }
    ensures q_laid { q.new ≡ laid_in head.form (λ o. o.q) head.source (own_of head (ratios_in own.entry)) q.old }
{
    for post in 0..own_count(head) {
        if post != head.source {
            let v = post as usize;
            p[v] = own.p[v];
            q[v] = own.q[v];
        }
    }
}

// Reads a record whose net has as many segments as the lent lists have places, or fewer, and as many posts as p and q
// have places, or fewer. The segments of a good record stand at the fronts of the lists, and in the second form the
// posts' own ratios at their places of p and q; all other entries, and after a refusal all entries, are as they were.
pub fn read(
    bytes: &[u8],
    p: &mut [u32],
    q: &mut [u32],
    a: &mut [u16],
    b: &mut [u16],
    lengths: &mut [u32],
) -> Result<Counted, Refusal>
    ensures reads { ReadsLists bytes.now p.old q.old
        a.old b.old lengths.old
        result p.new q.new a.new b.new lengths.new }
{
    let room = a.len().min(b.len()).min(lengths.len());
    let ratios = p.len().min(q.len());
    let mut u = [0u32; POST_PLACES];
    let mut v = [0u32; POST_PLACES];
    let mut x = [0u16; MOST_SEGMENTS];
    let mut y = [0u16; MOST_SEGMENTS];
    let mut z = [0u32; MOST_SEGMENTS];
    let counted = read_in(bytes, room, ratios, &mut u, &mut v, &mut x, &mut y, &mut z)?;
    let count = counted.count as usize;
    lay_ratios(counted.head, RatioLists { p: &u, q: &v }, p, q);
    let segments = SegmentLists {
        a: &x[..count],
        b: &y[..count],
        lengths: &z[..count],
    };
    lay(segments, a, b, lengths);
    Ok(counted)
}

// Nothing refuses a record, read with places for as many segments and posts as a net may have; or the refusal. The five
// lists stand here, in `read` and in on_records' `Places`, which is above and makes a sound net of them.
pub fn check_record(bytes: &[u8]) -> Result<(), Refusal>
    ensures checks { result ≡ check_read (net_read bytes.now most_segments most_posts 0) }
{
    let mut p = [0u32; POST_PLACES];
    let mut q = [0u32; POST_PLACES];
    let mut a = [0u16; MOST_SEGMENTS];
    let mut b = [0u16; MOST_SEGMENTS];
    let mut lengths = [0u32; MOST_SEGMENTS];
    read_in(
        bytes,
        MOST_SEGMENTS,
        POST_PLACES,
        &mut p,
        &mut q,
        &mut a,
        &mut b,
        &mut lengths,
    )?;
    Ok(())
}
