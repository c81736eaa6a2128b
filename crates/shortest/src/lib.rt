// Least lengths over the present segments of a net, the tree hung by them, and which post is not joined. Each is proved
// equal to the definition of `net`. Segments come as slices side by side: two ends and what a segment counts for, and
// beside them whether it is present. An index of the ends is made once (`index`) and lent to each search.
// Posts are settled one after the other, the nearest first; a ladder of the open posts says which is nearest: at 256
// posts and 2,048 segments some 10,000 steps for a search. Relies on `hanging`, which hangs the posts by the lengths
// found here.
#![tactic(auto)]

ghost use Rattle.std.specs.Prelude.{◌≡◌, ◌++◌, ◌*◌, ◌<◌, ◌≤◌, length, drop};
ghost use Rattle.net.specs.Net.{most_posts, most_segments, every};
ghost use Rattle.net.specs.Ready.{segments_in};
ghost use Rattle.net.specs.Trees.{none_yet, least, the_least_lengths, shortest};
ghost use Rattle.hanging.specs.Lists.{flag, note, Ends, Sides};
ghost use Rattle.shortest.specs.Notes.{Cleared, Lowered, Offered, Relaxed, LowestApart};
ghost use Rattle.shortest.specs.Ladder.{Ladder, OpenPosts, Written, NearestOn};
ghost use Rattle.shortest.specs.Rows.{IndexOf, IndexIn, push_of, rows_of, no_rows};
ghost use Rattle.shortest.specs.OneProof.{index_prop};

use net::plain::at;
use net::{MOST_SEGMENTS, NONE_YET, POST_PLACES, SegmentLists};

// Two rungs of a ladder for each post.
pub const MOST_RUNGS: usize = 2 * POST_PLACES;

// The codes of an index: 0, and one for each end.
pub const MOST_CODES: usize = 2 * MOST_SEGMENTS + 1;

// THE LADDER OF THE OPEN POSTS. c is written at the rung of v, and what follows from it up the ladder, until nothing
// changes. In this file the flags, the notes and the ladder stay parameters of their own: a struct is no plainer, as
// its fact is broken between two stores. No BinaryHeap: no heap, and a note that falls is changed in place.
fn write_up(posts: usize, v: usize, c: u64, ladder: &mut [u64])
    requires v_lt_posts { (v < posts) × (2 * posts ≤ length ladder.old) }
    requires ladder { Ladder posts (note ladder.old) }
    ensures { Written posts v c (note ladder.old) (note ladder.new) }
{
    let mut p = posts + v;
    ladder[p] = c;
    while p > 1 {
        p /= 2;
        let least = ladder[2 * p].min(ladder[2 * p + 1]);
        if ladder[p] == least {
            return;
        }
        ladder[p] = least;
    }
}

// The open post of the least note below "none yet", if there is one: down the ladder, to where the note of rung 1
// stands.
fn nearest(posts: usize, ladder: &[u64]) -> Option<usize>
    requires posts_nonzero { (0 < posts) × (2 * posts ≤ length ladder.now) }
    requires ladder { Ladder posts (note ladder.now) }
    ensures { NearestOn posts (note ladder.now) result }
{
    let least = ladder[1];
    if least >= NONE_YET {
        return None;
    }
    let mut p = 1;
    while p < posts {
        p *= 2;
        if least < ladder[p] {
            p += 1;
        }
    }
    Some(p - posts)
}

// LEAST LENGTHS. 0 at the source, "none yet" at the other posts. On the ladder, where "none yet" stands at every
// rung, 0 is written for the source.
fn clear(posts: usize, source: usize, dist: &mut [u64], ladder: &mut [u64])
    requires source_lt_posts { (source < posts) × (posts ≤ length dist.old) × (2 * posts ≤ length ladder.old) }
    requires ladder { Ladder posts (note ladder.old) }
    ensures cleared { Cleared posts source (note dist.old) (note dist.new) }
    ensures written { Written posts source 0 (note ladder.old) (note ladder.new) }
{
    dist[..posts].fill(NONE_YET);
    dist[source] = 0;
    write_up(posts, source, 0, ladder);
}

// The note of v falls to c, unless it is that low; on the ladder too, if v is open.
fn lower(posts: usize, v: usize, c: u64, settled: &[bool], dist: &mut [u64], ladder: &mut [u64])
    requires v_lt_posts { (v < posts) × (posts ≤ length settled.now) × (posts ≤ length dist.old)
        × (2 * posts ≤ length ladder.old) }
    requires open_posts { OpenPosts posts (note dist.old) (flag settled.now) (note ladder.old) }
    ensures lowered { Lowered v c (note dist.old) (note dist.new) }
    ensures open_posts_2 { OpenPosts posts (note dist.new) (flag settled.now)
        (note ladder.new) }
{
    if c < dist[v] {
        dist[v] = c;
        if !settled[v] {
            write_up(posts, v, c, ladder);
        }
    }
}

// c is offered across a segment of the ends x and y, from u.
fn offer(
    posts: usize,
    u: usize,
    x: usize,
    y: usize,
    c: u64,
    settled: &[bool],
    dist: &mut [u64],
    ladder: &mut [u64],
)
    requires x_lt_posts { (x < posts) × (y < posts) × (posts ≤ length settled.now) × (posts ≤ length dist.old)
        × (2 * posts ≤ length ladder.old) }
    requires open_posts { OpenPosts posts (note dist.old) (flag settled.now) (note ladder.old) }
    ensures offered { Offered u x y c (note dist.old) (note dist.new) }
    ensures open_posts_2 { OpenPosts posts (note dist.new) (flag settled.now)
        (note ladder.new) }
{
    if x == u {
        lower(posts, y, c, settled, dist, ladder);
    }
    if y == u {
        lower(posts, x, c, settled, dist, ladder);
    }
}

// Code c goes before the row of x, if x is a post. The two lists stay parameters here and below: they are filled, and
// `IndexedNet` has them once they are.
fn push(posts: usize, x: usize, c: usize, first: &mut [u16], next: &mut [u16])
    requires { (posts ≤ length first.old) × (c < length next.old) × (c < 65536) }
    ensures { (first.new, next.new)
        ≡ push_of posts x c (first.old, next.old) }
{
    if x < posts {
        next[c] = first[x];
        first[x] = c as u16;
    } else {
        next[c] = 0;
    }
}

// The index of a net: the ends of its segments in rows, a row for each post. Made once, it serves every search,
// whichever segments are present. The rows are linked by code, as there is no heap: 0 ends a row, 2i + 1 and 2i + 2 are
// the two ends of segment i.
pub fn index(posts: usize, segments: SegmentLists<'_>, first: &mut [u16], next: &mut [u16])
    requires { (posts ≤ length first.old) × (2 * length segments.a.now < length next.old)
        × (length segments.a.now ≤ most_segments) }
    ensures indexed { IndexOf posts segments.entry.a.now segments.entry.b.now
        first.new next.new }
    ensures rows { (first.new, next.new)
        ≡ rows_of posts segments.entry.a.now segments.entry.b.now (length segments.entry.a.now)
        (no_rows posts first.old next.old) }
{
    first[..posts].fill(0);
    for i in 0..segments.a.len() {
        let x = usize::from(segments.a[i]);
        let y = usize::from(at(segments.b, i, 0));
        push(posts, x, 2 * i + 1, first, next);
        push(posts, y, 2 * i + 2, first, next);
    }
}

// A net with its index.
#[derive(Clone, Copy)]
pub struct IndexedNet<'a> {
    pub posts: usize,
    pub segments: SegmentLists<'a>,
    pub first: &'a [u16],
    pub next: &'a [u16],
    ghost index_of: { IndexIn posts segments first next } by { index_prop posts segments first next },
}

// Every present segment at u is offered, from u's note.
fn relax(
    net: IndexedNet<'_>,
    u: usize,
    present: &[bool],
    settled: &[bool],
    dist: &mut [u64],
    ladder: &mut [u64],
)
    requires sides { Sides net.posts net.segments.a.now net.segments.b.now net.segments.lengths.now present.now }
    requires u_lt_posts { (u < net.posts) × (note dist.old u < none_yet) × (net.posts ≤ length settled.now)
        × (net.posts ≤ length dist.old) × (2 * net.posts ≤ length ladder.old) }
    requires open_posts { OpenPosts net.posts (note dist.old) (flag settled.now) (note ladder.old) }
    ensures relaxed { Relaxed net.entry.segments.a.now net.entry.segments.b.now net.entry.segments.lengths.now
        present.now u (note dist.old u) (note dist.old) (note dist.new) }
    ensures open_posts_2 { OpenPosts net.entry.posts (note dist.new) (flag settled.now)
        (note ladder.new) }
{
    let segments = net.segments;
    let du = dist[u];
    let mut c = usize::from(at(net.first, u, 0));
    while c > 0 {
        let i = (c - 1) / 2;
        if present[i] {
            let x = usize::from(segments.a[i]);
            let y = usize::from(segments.b[i]);
            let far = du + u64::from(segments.lengths[i]);
            offer(net.posts, u, x, y, far, settled, dist, ladder);
        }
        c = usize::from(at(net.next, c, 0));
    }
}

// The least lengths from `source` over the present segments, by the net's index: the nearest post is settled, one after
// the other.
pub fn search(net: IndexedNet<'_>, source: usize, present: &[bool], dist: &mut [u64])
    requires sides { Sides net.posts net.segments.a.now net.segments.b.now net.segments.lengths.now present.now }
    requires source_lt_posts { (source < net.posts) × (net.posts ≤ most_posts) × (net.posts ≤ length dist.old) }
    ensures least_lengths { dist.new ≡ least (segments_in net.entry.segments)
        (flag present.now) (note net.entry.segments.lengths.now) net.entry.posts source
        ++ drop net.entry.posts dist.old }
{
    let mut settled = [false; POST_PLACES];
    let mut ladder = [NONE_YET; MOST_RUNGS];
    clear(net.posts, source, dist, &mut ladder);
    while let Some(u) = nearest(net.posts, &ladder) {
        settled[u] = true;
        write_up(net.posts, u, NONE_YET, &mut ladder);
        relax(net, u, present, &settled, dist, &mut ladder);
    }
}

// THE TREE. D in `dist`, and the shortest tree, over all segments.
pub fn shortest_tree(net: IndexedNet<'_>, source: usize, dist: &mut [u64], tree: &mut [u16])
    requires ends { Ends net.posts net.segments.a.now net.segments.b.now every }
    requires source_lt_posts { (source < net.posts) × (net.posts ≤ most_posts)
        × (length net.segments.lengths.now ≡ length net.segments.a.now)
        × (net.posts ≤ length dist.old) × (net.posts ≤ length tree.old) }
    ensures least_lengths { dist.new
        ≡ the_least_lengths (segments_in net.entry.segments) every net.entry.posts source
        ++ drop net.entry.posts dist.old }
    ensures hung { tree.new
        ≡ shortest (segments_in net.entry.segments) every net.entry.posts source
        ++ drop net.entry.posts tree.old }
{
    let all = [true; MOST_SEGMENTS];
    let present = &all[..net.segments.a.len()];
    search(net, source, present, dist);
    hanging::hang(net.posts, net.segments, present, dist, tree);
}

// The lowest post whose note is "none yet", if there is one: a note stands for each post.
pub fn lowest_apart(dist: &[u64]) -> Option<usize>
    ensures lowest { LowestApart (length dist.now) (note dist.now) result }
{
    dist.iter().position(|d| *d >= NONE_YET)
}
