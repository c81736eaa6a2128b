// Hanging posts by least lengths that are given, and the measures of a tree list: its whole length, the path of a post
// or of each, the radius. Each is proved equal to the definition of `net`. Segments come as slices side by side: two
// ends and what a segment counts for, its length, and beside them whether it is present. Relies on `net` alone.
// Below `shortest`, which finds the least lengths.
#![tactic(auto)]

ghost use Rattle.std.specs.Prelude.{◌≡◌, cond, List, ◌++◌, ℕ, ◌<◌, ◌≤◌, length, get_or, take, drop, eqb, map};
ghost use Rattle.net.specs.Words.{tab, largest};
ghost use Rattle.net.specs.Net.{most_posts, most_segments, segments_of};
ghost use Rattle.net.specs.Ready.{segments_in};
ghost use Rattle.net.specs.Trees.{none_yet, hung, whole, the_path_in, radius};
ghost use Rattle.hanging.specs.Lists.{flag, note, Short, Sides, Low};
ghost use Rattle.hanging.specs.Hooks.{Hooked, Hooks};
ghost use Rattle.hanging.specs.Paths.{the_first_path, Known, Learnt, ListedIn};
ghost use Rattle.hanging.specs.OneProof.{listed_prop};

use net::plain::at;
use net::{NO_SEGMENT, SegmentLists};

// The end of a segment that lies across from v.
fn across(x: u16, y: u16, v: usize) -> usize
    ensures { result ≡ cond (eqb x v) y x }
{
    let x = usize::from(x);
    if x == v { usize::from(y) } else { x }
}

// HANGING. v hangs by segment i if it hangs by none, and the note of u and c come to its own. The ends, the number and
// the length stay parameters here and below: each end is u once and v once.
fn hook(u: usize, v: usize, i: u16, c: u32, dist: &[u64], tree: &mut [u16])
    requires { (u < length dist.now) × (v < length dist.now) × (v < length tree.old)
        × (get_or dist.now u 0 ≤ none_yet) }
    ensures { Hooked u v i c (note dist.now) tree.old tree.new }
{
    if dist[u] + u64::from(c) == dist[v] && tree[v] == NO_SEGMENT {
        tree[v] = i;
    }
}

// Each end of segment i hangs by it if it hangs by none and the segment fits.
fn hook_both(x: usize, y: usize, i: u16, c: u32, dist: &[u64], tree: &mut [u16])
    requires x_in_bounds { (x < length dist.now) × (y < length dist.now)
        × (x < length tree.old) × (y < length tree.old) }
    requires x_bound { (get_or dist.now x 0 ≤ none_yet) × (get_or dist.now y 0 ≤ none_yet) }
    ensures { Hooks x y i c (note dist.now) tree.old tree.new }
{
    hook(y, x, i, c, dist, tree);
    hook(x, y, i, c, dist, tree);
}

// The tree of the notes `dist`: each post by the lowest-numbered present segment that fits. The flags stay beside the
// segments and not in one struct with them: one index serves a search over any flags.
pub fn hang(
    posts: usize,
    segments: SegmentLists<'_>,
    present: &[bool],
    dist: &[u64],
    tree: &mut [u16],
)
    requires sides { Sides posts segments.a.now segments.b.now segments.lengths.now present.now }
    requires low { Low posts dist.now }
    requires posts_in_bounds { posts ≤ length tree.old }
    ensures hung { tree.new ≡ hung (segments_in segments.entry)
        (flag present.now) (note segments.entry.lengths.now) posts (take posts dist.now)
        ++ drop posts tree.old }
{
    tree[..posts].fill(NO_SEGMENT);
    for i in 0..segments.a.len() {
        if present[i] {
            let x = usize::from(segments.a[i]);
            let y = usize::from(segments.b[i]);
            hook_both(x, y, i as u16, segments.lengths[i], dist, tree);
        }
    }
}

// MEASURES OF A TREE LIST, of which the first `posts` entries are looked at. The whole length of the tree: the entry of
// no segment counts for nothing, as there is no segment 65,535. `posts` stays beside the lists here and below: a list
// may be longer, and the clauses say `take posts`.
pub fn whole_of(posts: usize, lengths: &[u32], tree: &[u16]) -> u32
    requires posts_le_most_posts { (posts ≤ most_posts) × (posts ≤ length tree.now)
        × (length lengths.now ≤ most_segments) }
    requires short { Short lengths.now }
    ensures measured { (a b : List ℕ) → length a ≡ length lengths.now → length b
        ≡ length lengths.now → result ≡ whole (segments_of a b lengths.now) posts
        (take posts tree.now) }
{
    let mut total = 0;
    for &e in &tree[..posts] {
        total += at(lengths, usize::from(e), 0);
    }
    total
}

// The length of the path from `post` up, of at most as many segments as there are posts. No `TreeList`: nothing is
// asked of the ways up, which may go in a ring.
pub fn path_of(posts: usize, segments: SegmentLists<'_>, tree: &[u16], post: usize) -> u32
    requires posts_le_most_posts { (posts ≤ most_posts) × (posts ≤ length tree.now)
        × (length segments.b.now ≡ length segments.a.now) × (length segments.lengths.now ≡ length segments.a.now) }
    requires short { Short segments.lengths.now }
    ensures measured { result ≡ the_path_in (segments_in segments.entry) posts (take posts tree.now) post }
{
    let mut total = 0;
    let mut v = post;
    for _ in 0..posts {
        let e = at(&tree[..posts], v, NO_SEGMENT);
        if e == NO_SEGMENT {
            return total;
        }
        let i = usize::from(e);
        total += at(segments.lengths, i, 0);
        v = across(at(segments.a, i, 0), at(segments.b, i, 0), v);
    }
    total
}

// PATHS, EACH ONCE, of a tree list whose ways up all end: its first `posts` entries are looked at.
#[derive(Clone, Copy)]
pub struct TreeList<'a> {
    pub posts: usize,
    pub segments: SegmentLists<'a>,
    pub tree: &'a [u16],
    ghost listed: { ListedIn posts segments tree } by { listed_prop posts segments tree },
}

// What stands for a post whose path isn't known yet. It stays a number, as the list that is lent becomes the answer in
// place: a list of `Option`s would be a second one (fixed memory).
const UNKNOWN: u32 = 4294967295;

// No path is known but those of the posts that hang by none.
fn begin_paths(tree: &[u16], paths: &mut [u32])
    requires { length paths.old ≡ length tree.now }
    ensures begun { paths.new ≡ map the_first_path tree.now }
{
    for (v, path) in paths.iter_mut().enumerate() {
        *path = if tree[v] == NO_SEGMENT { 0 } else { UNKNOWN };
    }
}

// The path of `post`: up to the nearest post whose path is known, and from there as it says.
fn find_path(tree: TreeList<'_>, paths: &[u32], post: usize) -> u32
    requires listed { (tree.posts ≤ length paths.now) × (post < tree.posts) }
    requires known { Known (segments_in tree.segments) tree.posts (take tree.posts tree.tree.now) paths.now }
    ensures { result ≡ the_path_in (segments_in tree.entry.segments) tree.entry.posts
        (take tree.entry.posts tree.entry.tree.now) post }
{
    let segments = tree.segments;
    let mut total = 0;
    let mut v = post;
    while paths[v] == UNKNOWN {
        let e = usize::from(tree.tree[v]);
        total += segments.lengths[e];
        v = across(segments.a[e], segments.b[e], v);
    }
    total + paths[v]
}

// The path of `post` is `path`: the same way again, and what is left of it is the path of each post on it.
fn note_path(tree: TreeList<'_>, post: usize, path: u32, paths: &mut [u32])
    requires listed { (tree.posts ≤ length paths.old) × (post < tree.posts) }
    requires known { Known (segments_in tree.segments) tree.posts (take tree.posts tree.tree.now) paths.old }
    requires path_value { path ≡ the_path_in (segments_in tree.segments) tree.posts
        (take tree.posts tree.tree.now) post }
    ensures { Learnt (segments_in tree.entry.segments) tree.entry.posts
        (take tree.entry.posts tree.entry.tree.now) post paths.old paths.new }
{
    let segments = tree.segments;
    let mut left = path;
    let mut v = post;
    while paths[v] == UNKNOWN {
        paths[v] = left;
        let e = usize::from(tree.tree[v]);
        left -= segments.lengths[e];
        v = across(segments.a[e], segments.b[e], v);
    }
}

// The path of each post, at the front of a list; 0 for a post that hangs by none. Each segment of the tree is passed
// twice.
pub fn paths_of(tree: TreeList<'_>, paths: &mut [u32])
    requires { tree.posts ≤ length paths.old }
    ensures measured { paths.new
        ≡ tab tree.entry.posts (the_path_in (segments_in tree.entry.segments) tree.entry.posts
        (take tree.entry.posts tree.entry.tree.now)) ++ drop tree.entry.posts paths.old }
{
    begin_paths(&tree.tree[..tree.posts], &mut paths[..tree.posts]);
    for v in 0..tree.posts {
        let path = find_path(tree, paths, v);
        note_path(tree, v, path, paths);
    }
}

// The largest number of a list, and 0 where it has none.
fn largest_of(list: &[u32]) -> u32
    ensures { result ≡ largest (length list.now) (note list.now) }
{
    list.iter().copied().max().unwrap_or(0)
}

// The longest path of the tree.
pub fn radius_of(tree: TreeList<'_>) -> u32
    ensures measured { result ≡ radius (segments_in tree.entry.segments) tree.entry.posts
        (take tree.entry.posts tree.entry.tree.now) }
{
    let mut paths = [0u32; net::POST_PLACES];
    paths_of(tree, &mut paths[..tree.posts]);
    largest_of(&paths[..tree.posts])
}
