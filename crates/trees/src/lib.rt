// The three trees of a net that nothing from 1 to 8 refuses: the one preparation that building and margin share
// (`all_trees`). The segments that belong come from `lightest`, and a walk along them hangs the lightest tree; the
// other two trees come from `shortest` and `between`. Which ratio is a post's is said here (`number_for`). Stands below
// `building` and `margins`; asks what `checks` has shown, and a ratio for each post (`net::RatedNet`).
#![tactic(auto)]

ghost use Rattle.std.specs.Prelude.{◌≡◌, true, false, ℕ, ◌<◌, ◌≤◌, length as size};
ghost use Rattle.net.specs.Net.{every, most_posts};
ghost use Rattle.net.specs.Building.{lightest_of, between_of, laid_of};
ghost use Rattle.net.specs.Ready.{net_in};
ghost use Rattle.hanging.specs.Lists.{flag, Ends};
ghost use Rattle.trees.specs.Worked.{AllThere, Worked, Prepares};
ghost use Rattle.trees.specs.Ratios.{Plain, plain_in, the_number_for, numbers_for};
ghost use Rattle.trees.specs.Along.{Across, Begun, Crossed, ReachingIn, SteppedIn, GrowsIn};

use net::plain::{at, refuse};
use net::{
    Form, Head, MOST_SEGMENTS, NO_SEGMENT, NetLists, POST_PLACES, RatedNet, RatioLists, Refusal,
};
use shortest::{IndexedNet, MOST_CODES};

// THE LIGHTEST TREE, hung along its own segments. Where a segment of the ends x and y leads from u, or u itself where
// neither end is u: not hanging's `across`, so that nothing is asked of the ends.
fn across(x: usize, y: usize, u: usize) -> usize
    ensures { Across x y u result }
{
    if x == u {
        y
    } else if y == u {
        x
    } else {
        u
    }
}

// The posts that a walk has reached: how many, whether each is one, and these in a queue in the order in which they
// were reached. The count stands beside the queue, which is lent: no heap, so no Vec.
#[derive(Drop)]
struct Reached<'a> {
    count: usize,
    flags: &'a mut [bool],
    queue: &'a mut [u16],
}

// No post is reached but the source, which is the first in the queue; every post hangs by none.
fn begin(source: usize, walk: &mut Reached<'_>, tree: &mut [u16])
    requires source_in { (source < size tree.old) × (size tree.old ≤ most_posts)
        × (size tree.old ≤ size walk.old.flags.now) × (size tree.old ≤ size walk.old.queue.now) }
    requires none_reached { (v : ℕ) → flag walk.old.flags.now v ≡ false }
    ensures begun { Begun (size tree.old) source walk.new.flags.now walk.new.queue.now tree.new }
    ensures one { walk.new.count ≡ 1 }
{
    tree.fill(NO_SEGMENT);
    walk.flags[source] = true;
    walk.queue[0] = source as u16;
    walk.count = 1;
}

// Unless w is reached, it is now: it hangs by segment i and is last in the queue.
fn reach(w: usize, i: usize, walk: &mut Reached<'_>, tree: &mut [u16])
    requires reaching { ReachingIn (size tree.old) walk.old tree.old }
    requires w_bound { (w < size tree.old) × (i < 65536) }
    ensures { SteppedIn w i walk.old tree.old walk.new tree.new }
{
    if !walk.flags[w] {
        walk.flags[w] = true;
        walk.queue[walk.count] = w as u16;
        walk.count += 1;
        tree[w] = i as u16;
    }
}

// Every post to which a marked segment leads from u is reached, by u's row of the index. The way along a row stands
// here and in `shortest::relax`: the fact that holds on the way is about the lists that each fills, and a closure that
// is lent would have to carry it.
fn reach_from(
    u: usize,
    net: IndexedNet<'_>,
    marks: &[bool],
    walk: &mut Reached<'_>,
    tree: &mut [u16],
)
    requires ends { Ends net.posts net.segments.a.now net.segments.b.now every
        × (size marks.now ≡ size net.segments.a.now) }
    requires reaching { ReachingIn net.posts walk.old tree.old }
    requires u_reached { (u < net.posts) × (flag walk.old.flags.now u ≡ true) }
    ensures still_reaching { ReachingIn net.entry.posts walk.new tree.new }
    ensures grows { GrowsIn net.entry.segments marks.now u walk.old tree.old walk.new tree.new }
    ensures crossed { Crossed net.entry.segments.a.now net.entry.segments.b.now marks.now u walk.new.flags.now }
{
    let segments = net.segments;
    let mut c = usize::from(at(net.first, u, 0));
    while c > 0 {
        let i = (c - 1) / 2;
        let marked = marks[i];
        if marked {
            let w = across(usize::from(segments.a[i]), usize::from(segments.b[i]), u);
            reach(w, i, walk, tree);
        }
        c = usize::from(at(net.next, c, 0));
    }
}

// The lightest tree of a net: the segments that belong, hung from the source by one walk along them. `present` says of
// each segment that it is there; `marks` is lent to work in. k is counted here: the queue grows while it is walked.
fn lightest_by(
    head: Head,
    net: IndexedNet<'_>,
    present: &[bool],
    marks: &mut [bool],
    tree: &mut [u16],
)
    requires plain { Plain head net.segments.a.now net.segments.b.now net.segments.lengths.now }
    requires posts_are { net.posts ≡ head.posts }
    requires all_there { AllThere present.now (size net.segments.a.now)
        × (size marks.old ≡ size net.segments.a.now) × (size tree.old ≡ head.posts) }
    ensures { tree.new ≡ lightest_of every (plain_in head net.entry.segments) }
{
    let source = head.source as usize;
    lightest::belonging(net.posts, net.segments, present, marks);
    let mut flags = [false; POST_PLACES];
    let mut queue = [0u16; POST_PLACES];
    let mut walk = Reached {
        count: 0,
        flags: &mut flags,
        queue: &mut queue,
    };
    begin(source, &mut walk, tree);
    let mut k = 0;
    while k < walk.count {
        let u = usize::from(walk.queue[k]);
        reach_from(u, net, marks, &mut walk, tree);
        k += 1;
    }
}

// The lightest tree, with marks of its own.
fn lightest_tree(head: Head, net: IndexedNet<'_>, tree: &mut [u16])
    requires plain { Plain head net.segments.a.now net.segments.b.now net.segments.lengths.now }
    requires posts_are { net.posts ≡ head.posts }
    requires tree_value { size tree.old ≡ head.posts }
    ensures { tree.new ≡ lightest_of every (plain_in head net.entry.segments) }
{
    let m = net.segments.a.len();
    let present = [true; MOST_SEGMENTS];
    let mut marks = [false; MOST_SEGMENTS];
    lightest_by(head, net, &present[..m], &mut marks[..m], tree);
}

// THE RATIO OF A POST. One of its two numbers, p or q: `house` is that of the house ratio, `own` has the posts' own.
// "The house ratio, kept and checked, rules only nets of the first form"; the source's place in `own` is not read.
pub fn number_for(head: Head, house: u32, own: &[u32], v: usize) -> u32
    requires { v < size own.now }
    ensures ruling { result ≡ the_number_for head house own.now v }
{
    match head.form {
        Form::First => house,
        Form::Second => {
            if v == head.source as usize {
                house
            } else {
                own[v]
            }
        }
    }
}

// That number for each post, into a list with a place for each.
fn put_numbers(head: Head, house: u32, own: &[u32], list: &mut [u32])
    requires { (head.posts ≤ size own.now) × (size list.old ≡ head.posts) }
    ensures { list.new ≡ numbers_for head house own.now }
{
    for (v, number) in list.iter_mut().enumerate() {
        *number = number_for(head, house, own, v);
    }
}

// The third tree of a net, at each post's ratio, from its least lengths and its other two trees; answers how many
// direct paths were laid.
fn third_tree(
    net: RatedNet<'_>,
    dist: &[u64],
    light: &[u16],
    short: &[u16],
    tree: &mut [u16],
) -> u32
    requires tree_value { size tree.old ≡ net.lists.head.posts }
    requires worked { Worked (net_in net.lists) dist.now short.now
        × (light.now ≡ lightest_of every (net_in net.lists)) }
    ensures value { result ≡ size (laid_of every (net_in net.entry.lists)) }
    ensures tree_after { tree.new ≡ between_of every (net_in net.entry.lists) }
{
    let NetLists {
        head,
        own,
        segments,
    } = net.lists;
    let posts = head.posts as usize;
    let mut each_p = [0u32; POST_PLACES];
    let mut each_q = [0u32; POST_PLACES];
    let p = &mut each_p[..posts];
    let q = &mut each_q[..posts];
    put_numbers(head, head.p, own.p, p);
    put_numbers(head, head.q, own.q, q);
    let each = RatioLists { p, q };
    between::third_tree(
        head.source as usize,
        each,
        segments,
        light,
        short,
        dist,
        tree,
    )
}

// THE PREPARATION. The least lengths and the three trees of a net, each into a lent list with one entry for each post,
// and the count of laid paths; or 9 with the lowest post that isn't joined, and then only `dist` and `short` are
// written. The four lists stay parameters: what is filled here is lent on one list at a time.
pub fn all_trees(
    net: RatedNet<'_>,
    dist: &mut [u64],
    light: &mut [u16],
    short: &mut [u16],
    third: &mut [u16],
) -> Result<u32, Refusal>
    requires dist_value { (size dist.old ≡ net.lists.head.posts) × (size light.old ≡ net.lists.head.posts)
        × (size short.old ≡ net.lists.head.posts) × (size third.old ≡ net.lists.head.posts) }
    ensures prepared { Prepares (net_in net.entry.lists) light.old third.old result
        dist.new light.new short.new third.new }
{
    let head = net.lists.head;
    let posts = head.posts as usize;
    let source = head.source as usize;
    let segments = net.lists.segments;
    let mut first = [0u16; POST_PLACES];
    let mut next = [0u16; MOST_CODES];
    shortest::index(posts, segments, &mut first, &mut next);
    let indexed = IndexedNet {
        posts,
        segments,
        first: &first,
        next: &next,
    };
    shortest::shortest_tree(indexed, source, dist, short);
    match shortest::lowest_apart(dist) {
        Some(v) => refuse(9, v as u32),
        None => {
            lightest_tree(head, indexed, light);
            Ok(third_tree(net, dist, light, short, third))
        }
    }
}
