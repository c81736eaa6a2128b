// Between: the third tree, made by a walk over a tree that is given (document 01, "The three trees"): try, lay, enter
// and the walk itself, each proved equal to its definition in `net`. Segments come as three slices side by side. Where
// little is asked, a read behind a slice's end gives what stands for nothing, and a store there is none.
#![tactic(auto)]

ghost use Rattle.std.specs.Prelude.{◌≡◌, ℕ, ◌+◌, ◌≤◌, ◌<◌, ltb, ◌++◌, length, replicate, drop};
ghost use Rattle.net.specs.Words.{no_segment};
ghost use Rattle.net.specs.Net.{length_at, most_ratio};
ghost use Rattle.net.specs.Trees.{none_yet};
ghost use Rattle.net.specs.Walk.{Given, try, lay, enter};
ghost use Rattle.between.specs.Given.{notes_of, Shows, Level, EndsIn, Low, Ratios};
ghost use Rattle.between.specs.Given.{the_end_beyond, parents_by, limit_by, limits_by};
ghost use Rattle.between.specs.Laying.{depth, Late, Layable, Direct, Entering};
ghost use Rattle.between.specs.Children.{Indexed, adopted, adopted_both};
ghost use Rattle.between.specs.Asked.{Walking, Walked, Walkable, Tabled, ThirdTabled, ThirdTree};

use net::plain::{at, put};
use net::{NONE_YET, POST_PLACES, RatioLists, SegmentLists};

// The entry of a post that hangs by no segment, and the link where there is no further child. The children are linked
// by their numbers, as there is no heap; the end of a row is a number too, as an entry's is: both are read alike.
const NONE: u16 = net::NO_SEGMENT;

// All that the walk looks at and leaves as it is: the tree walked with its children linked, the limits, the segments'
// lengths, the shortest tree with its parents, and the least lengths. Lists side by side, an entry for each post or
// each segment: the trees and the least lengths are lent so. Lent on whole: the walk and a laid path go as deep as there
// are posts, and a copy at each step would have to lie on the stack.
#[derive(Clone, Copy)]
struct Ground<'a> {
    walked: &'a [u16],
    first: &'a [u16],
    after: &'a [u16],
    limits: &'a [u64],
    lengths: &'a [u32],
    shortest: &'a [u16],
    up: &'a [u16],
    dist: &'a [u64],
}

// The other end of segment i, which has an end at v. Not hanging's `across`: this takes the number of a segment, even
// of one that isn't there, and this crate stands on `net` alone.
fn end_beyond(segments: SegmentLists<'_>, i: usize, v: usize) -> u16
    ensures { result ≡ the_end_beyond segments.entry.a.now segments.entry.b.now i v }
{
    let x = at(segments.a, i, 0);
    if usize::from(x) == v {
        at(segments.b, i, 0)
    } else {
        x
    }
}

// TRY, LAY, ENTER
// Whether from + long is less than to, with no sum that could wrap.
fn is_less(from: u64, long: u64, to: u64) -> bool
    ensures { result ≡ ltb (from + long) to }
{
    from < to && long < to - from
}

// Tries v from u by segment i, of length `long`. Here and below the notes and the entries stay two parameters: the
// entries are the caller's list and the notes this crate's own, and the clauses speak of both apart.
fn try_from(u: usize, i: u16, v: usize, long: u64, d: &mut [u64], entries: &mut [u16])
    ensures { (g : Given) → length_at g.segments i ≡ long → notes_of d.new entries.new
        ≡ try g u i v (notes_of d.old entries.old) }
{
    let from = at(d, u, NONE_YET);
    let to = at(d, v, NONE_YET);
    if is_less(from, long, to) {
        put(d, v, from + long);
        put(entries, v, i);
    }
}

// Lays the direct path of v: the recursion goes up the shortest tree, whose parents are `up`, and falls in v's depth
// there.
fn lay_path(v: usize, on: &Ground<'_>, d: &mut [u64], entries: &mut [u16])
    requires { Layable on.now.shortest.now on.now.up.now on.now.dist.now d.old }
    ensures { (g : Given) (k : ℕ) → Direct g on.now.lengths.now on.now.shortest.now on.now.up.now
        on.now.dist.now → (Late on.now.dist.now d.old v
        → depth on.now.shortest.now on.now.up.now (length on.now.up.now) v < k)
        → notes_of d.new entries.new
        ≡ lay g k v (notes_of d.old entries.old) }
{
    if at(on.dist, v, NONE_YET) < at(d, v, NONE_YET) {
        let i = at(on.shortest, v, NONE);
        let u = usize::from(at(on.up, v, 0));
        lay_path(u, on, d, entries);
        let long = u64::from(at(on.lengths, usize::from(i), 0));
        try_from(u, i, v, long, d, entries);
    }
}

// On entering v: lays its direct path where its note is over its limit, and answers how many paths that counts.
fn enter_post(v: usize, on: &Ground<'_>, d: &mut [u64], entries: &mut [u16]) -> u32
    requires { Layable on.now.shortest.now on.now.up.now on.now.dist.now d.old }
    ensures { (g : Given) → Entering g v on.now.limits.now on.now.lengths.now on.now.shortest.now
        on.now.up.now on.now.dist.now
        → Shows (enter g v (notes_of d.old entries.old))
        d.new entries.new result }
{
    if at(on.limits, v, NONE_YET) < at(d, v, NONE_YET) {
        lay_path(v, on, d, entries);
        1
    } else {
        0
    }
}

// CHILDREN
// c becomes the first child of v, if it hangs by segment i. The two lists of links stay parameters: they are filled
// here and only read afterwards, where `Ground` has them.
fn adopt(i: usize, v: u16, c: u16, walked: &[u16], first: &mut [u16], after: &mut [u16])
    ensures { (first.new, after.new) ≡ adopted i v c walked.now
        (first.old, after.old) }
{
    if usize::from(at(walked, usize::from(c), NONE)) == i {
        let next = at(first, usize::from(v), NONE);
        put(first, usize::from(v), c);
        put(after, usize::from(c), next);
    }
}

// Each end of segment i adopts the other, if that hangs by it.
fn adopt_both(i: usize, x: u16, y: u16, walked: &[u16], first: &mut [u16], after: &mut [u16])
    ensures { (first.new, after.new) ≡ adopted_both i x y walked.now
        (first.old, after.old) }
{
    adopt(i, x, y, walked, first, after);
    if x != y {
        adopt(i, y, x, walked, first, after);
    }
}

// Links the children of every post in the tree `walked`, into two lists without a link: one look at each segment, from
// the highest number down.
fn link_children(segments: SegmentLists<'_>, walked: &[u16], first: &mut [u16], after: &mut [u16])
    requires level { Level segments.a.now segments.b.now segments.lengths.now }
    requires bare { EndsIn (length first.old) segments.a.now segments.b.now × (length first.old ≤ length after.old)
        × (first.old ≡ replicate (length first.old) no_segment) }
    ensures { Indexed segments.entry.a.now segments.entry.b.now walked.now (length first.old) 0
        first.new after.new }
{
    for i in (0..segments.a.len()).rev() {
        adopt_both(i, segments.a[i], segments.b[i], walked, first, after);
    }
}

// THE WALK
// Walks v and all below it, at most `left` posts deep, and answers how many direct paths were laid.
fn walk_from(left: usize, v: usize, on: &Ground<'_>, d: &mut [u64], entries: &mut [u16]) -> u32
    requires { Walking left v on.now.walked.now on.now.first.now on.now.after.now on.now.limits.now on.now.lengths.now
        on.now.shortest.now on.now.up.now on.now.dist.now d.old entries.old }
    ensures { Walked left v on.now.walked.now on.now.first.now on.now.after.now on.now.limits.now
        on.now.lengths.now on.now.shortest.now on.now.up.now on.now.dist.now
        d.old entries.old result d.new entries.new }
{
    if left == 0 {
        return 0;
    }
    let mut laid = enter_post(v, on, d, entries);
    let mut c = at(on.first, v, NONE);
    while c != NONE {
        let w = usize::from(c);
        let i = at(on.walked, w, NONE);
        let far = u64::from(at(on.lengths, usize::from(i), 0));
        try_from(v, i, w, far, d, entries);
        laid += walk_from(left - 1, w, on, d, entries);
        try_from(w, i, v, far, d, entries);
        c = at(on.after, w, NONE);
    }
    laid
}

// THE TABLES OF THE WALK. The parents of all posts in the shortest tree, into the front of a list.
fn put_parents(segments: SegmentLists<'_>, shortest: &[u16], up: &mut [u16])
    requires { length shortest.now ≤ length up.old }
    ensures { up.new ≡ parents_by segments.entry.a.now segments.entry.b.now shortest.now
        ++ drop (length shortest.now) up.old }
{
    for (v, i) in shortest.iter().enumerate() {
        up[v] = end_beyond(segments, usize::from(*i), v);
    }
}

// The greatest note that is within the ratio: (p + q) × least, divided by q.
fn limit_of(p: u32, q: u32, least: u64) -> u64
    requires { (p ≤ most_ratio) × (q ≤ most_ratio) × (0 < q) × (least ≤ none_yet) }
    ensures { result ≡ limit_by p q least }
{
    u64::from(p + q) * least / u64::from(q)
}

// The limits of all posts by their ratios, into the front of a list.
fn put_limits(ratios: RatioLists<'_>, dist: &[u64], limits: &mut [u64])
    requires ratios { Ratios (length dist.now) ratios.p.now ratios.q.now × Low dist.now }
    requires dist_in_bounds { length dist.now ≤ length limits.old }
    ensures { limits.new ≡ limits_by ratios.entry.p.now ratios.entry.q.now dist.now
        ++ drop (length dist.now) limits.old }
{
    for (v, least) in dist.iter().enumerate() {
        limits[v] = limit_of(ratios.p[v], ratios.q[v], *least);
    }
}

// The whole walk, over the parents and the limits: the children are linked, the notes are set to the start, and the
// source is walked. The tables stay parameters: `Ground` takes the children with them, which are linked only here.
fn walk_net(
    source: usize,
    segments: SegmentLists<'_>,
    walked: &[u16],
    shortest: &[u16],
    dist: &[u64],
    limits: &[u64],
    up: &[u16],
    entries: &mut [u16],
) -> u32
    requires { Tabled source segments.a.now segments.b.now segments.lengths.now shortest.now dist.now
        limits.now up.now × (length entries.old ≡ length dist.now) }
    ensures { ThirdTabled source segments.entry.a.now segments.entry.b.now segments.entry.lengths.now walked.now
        shortest.now dist.now limits.now up.now result entries.new }
{
    let posts = dist.len();
    let mut first = [NONE; POST_PLACES];
    let mut after = [NONE; POST_PLACES];
    let mut d = [NONE_YET; POST_PLACES];
    link_children(segments, walked, &mut first, &mut after);
    d[source] = 0;
    entries.fill(NONE);
    let on = Ground {
        walked,
        first: &first,
        after: &after,
        limits,
        lengths: segments.lengths,
        shortest,
        up,
        dist,
    };
    walk_from(posts, source, &on, &mut d[..posts], entries)
}

// The third tree of a net, by a walk over the tree `walked` from the source: puts its entries into the lent list, one
// for each post, and answers how many direct paths were laid. Each post has its ratio in the two lists, as it rules: no
// `RatedNet`, whose ratios are the posts' own.
pub fn third_tree(
    source: usize,
    ratios: RatioLists<'_>,
    segments: SegmentLists<'_>,
    walked: &[u16],
    shortest: &[u16],
    dist: &[u64],
    entries: &mut [u16],
) -> u32
    requires { Walkable source ratios.p.now ratios.q.now segments.a.now segments.b.now segments.lengths.now
        shortest.now dist.now × (length entries.old ≡ length dist.now) }
    ensures walked { ThirdTree source ratios.entry.p.now ratios.entry.q.now segments.entry.a.now
        segments.entry.b.now segments.entry.lengths.now walked.now shortest.now dist.now result
        entries.new }
{
    let mut up = [0u16; POST_PLACES];
    let mut limits = [0u64; POST_PLACES];
    put_parents(segments, shortest, &mut up);
    put_limits(ratios, dist, &mut limits);
    walk_net(
        source, segments, walked, shortest, dist, &limits, &up, entries,
    )
}
