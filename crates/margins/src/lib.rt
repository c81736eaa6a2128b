// The margin of a post in a tree of a net: "(p + q) × D minus q × path in the tree", at the post's own ratio.
// A net is checked once on its way in (`margin`), or comes as one that nothing from 1 to 7 refuses (`margin_sound`).
// Relies on `checks`, `trees` and `hanging`.
#![tactic(auto)]

ghost use Rattle.std.specs.Prelude.{◌≡◌, ◌*◌, ◌≤◌, ◌<◌, length as size};
ghost use Rattle.std.proofs.Math.IntN.{sub_ℕ};
ghost use Rattle.net.specs.Net.{every, most_ratio};
ghost use Rattle.net.specs.Trees.{none_yet, the_path_in, the_margin_by};
ghost use Rattle.net.specs.Building.{the_margin_in, margin_of};
ghost use Rattle.net.specs.Ready.{segments_in, net_in, count_in, ratio_count_in};
ghost use Rattle.trees.specs.Worked.{Worked, ThreeTrees};
ghost use Rattle.margins.specs.Answers.{margin_answer_of, named};

use checks::{rated, sound};
use net::plain::refuse;
use net::{NetLists, POST_PLACES, RatedNet, Refusal, SoundNet, Tree};

// A product that fits 64 bits: of at most p + q, and at most "none yet". A function of its own, for its bound.
fn product(a: u64, b: u64) -> u64
    requires { (a ≤ 20000) × (b ≤ none_yet) }
    ensures { (result ≡ a * b) × (result < 9223372036854775808) }
{
    a * b
}

// The difference of two numbers, with its sign.
fn minus(a: u64, b: u64) -> i64
    requires { (a < 9223372036854775808) × (b < 9223372036854775808) }
    ensures { result ≡ sub_ℕ a b }
{
    (a as i64) - (b as i64)
}

// "(p + q) × D minus q × path in the tree. It is signed"
fn margin_by(p: u32, q: u32, dist: u64, path: u32) -> i64
    requires { (p ≤ most_ratio) × (q ≤ most_ratio) × (dist ≤ none_yet) }
    ensures { result ≡ the_margin_by p q dist path }
{
    let limit = product(u64::from(p) + u64::from(q), dist);
    let taken = product(u64::from(q), u64::from(path));
    minus(limit, taken)
}

// The length of a post's path in the one of three trees that is named. The trees stay parameters here and below:
// `trees::all_trees` fills them, and each is lent on alone.
fn path_in(
    net: SoundNet<'_>,
    light: &[u16],
    short: &[u16],
    third: &[u16],
    tree: Tree,
    post: usize,
) -> u32
    requires { (size light.now ≡ net.lists.head.posts) × (size short.now ≡ net.lists.head.posts)
        × (size third.now ≡ net.lists.head.posts) }
    ensures { result ≡ the_path_in (segments_in net.entry.lists.segments) net.entry.lists.head.posts
        (named tree light.now short.now third.now) post }
{
    let posts = net.lists.head.posts as usize;
    let entries = match tree {
        Tree::Lightest => light,
        Tree::Shortest => short,
        Tree::Between => third,
    };
    hanging::path_of(posts, net.lists.segments, entries, post)
}

// The margin of a post of a net of which nothing is refused, at the post's own ratio.
fn margin_joined(
    net: RatedNet<'_>,
    dist: &[u64],
    light: &[u16],
    short: &[u16],
    third: &[u16],
    tree: Tree,
    post: usize,
) -> i64
    requires worked { Worked (net_in net.lists) dist.now short.now
        × ThreeTrees (net_in net.lists) light.now short.now third.now }
    requires one_each { (size light.now ≡ net.lists.head.posts) × (size short.now ≡ net.lists.head.posts)
        × (size third.now ≡ net.lists.head.posts) }
    requires post_bound { post < size dist.now }
    ensures { result ≡ the_margin_in every (net_in net.entry.lists) tree post }
{
    let head = net.lists.head;
    let path = path_in(
        SoundNet { lists: net.lists },
        light,
        short,
        third,
        tree,
        post,
    );
    let own_p = trees::number_for(head, head.p, net.lists.own.p, post);
    let own_q = trees::number_for(head, head.q, net.lists.own.q, post);
    margin_by(own_p, own_q, dist[post], path)
}

// A net that nothing from 1 to 8 refuses: 9, then 19, or the margin. The four slices are lent to work in.
fn margin_in(
    net: RatedNet<'_>,
    dist: &mut [u64],
    light: &mut [u16],
    short: &mut [u16],
    third: &mut [u16],
    tree: Tree,
    post: u32,
) -> Result<i64, Refusal>
    requires { (size dist.old ≡ net.lists.head.posts) × (size light.old ≡ net.lists.head.posts)
        × (size short.old ≡ net.lists.head.posts) × (size third.old ≡ net.lists.head.posts) }
    ensures { result ≡ margin_answer_of (margin_of every (net_in net.entry.lists)
        (count_in net.entry.lists.segments) (ratio_count_in net.entry.lists.own) tree post) }
{
    if let Err(apart) = trees::all_trees(net, dist, light, short, third) {
        return Err(apart);
    }
    if post >= net.lists.head.posts {
        return refuse(19, 0);
    }
    Ok(margin_joined(net, dist, light, short, third, tree, post as usize))
}

// MARGIN of a net that nothing from 1 to 7 refuses: 8 of the lists of ratios, whatever the form, then 9, then 19, or
// the margin, with lists of its own to work in. They stand here and in building: one function for both would take a
// closure with each entry's contract.
pub fn margin_sound(net: SoundNet<'_>, tree: Tree, post: u32) -> Result<i64, Refusal>
    ensures answered { result ≡ margin_answer_of (margin_of every (net_in net.entry.lists)
        (count_in net.entry.lists.segments) (ratio_count_in net.entry.lists.own) tree post) }
{
    let net = rated(net)?;
    let posts = net.lists.head.posts as usize;
    let mut dist = [0u64; POST_PLACES];
    let mut light = [0u16; POST_PLACES];
    let mut short = [0u16; POST_PLACES];
    let mut third = [0u16; POST_PLACES];
    margin_in(
        net,
        &mut dist[..posts],
        &mut light[..posts],
        &mut short[..posts],
        &mut third[..posts],
        tree,
        post,
    )
}

// MARGIN, for every input: "1 to 7, then 9, then 19", with the posts' 3 after the head's 4, and 8 of the lists of
// ratios after 7. The tree is worked out afresh, and no tree list is lent. The net's segments are as many as the
// shortest of their three slices has places; the posts' own ratios are read as far as both their lists go, and only in
// the second form.
pub fn margin(net: NetLists<'_>, tree: Tree, post: u32) -> Result<i64, Refusal>
    ensures answered { result ≡ margin_answer_of (margin_of every (net_in net.entry)
        (count_in net.entry.segments) (ratio_count_in net.entry.own) tree post) }
{
    margin_sound(sound(net)?, tree, post)
}
