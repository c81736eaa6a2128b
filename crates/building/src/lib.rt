// Building: the three trees of a net, with their lengths and radii and the count of laid paths.
// A net is checked once on its way in (`build`), or comes as one that nothing from 1 to 7 refuses (`build_sound`).
// Relies on `checks`, `trees` and `hanging`.
#![tactic(auto)]

ghost use Rattle.std.specs.Prelude.{◌≡◌, ◌≤◌, length as size};
ghost use Rattle.net.specs.Ready.{net_in, count_in, ratio_count_in};
ghost use Rattle.building.specs.Answers.{measured_in, TreeOf, Leaves, measures};

use checks::{rated, sound};
use hanging::TreeList;
use net::plain::refuse;
use net::{Built, Measured, NetLists, POST_PLACES, RatedNet, Refusal, SoundNet};

// Length and radius of a tree of a net.
fn measure(net: SoundNet<'_>, tree: &[u16]) -> Measured
    requires { TreeOf (net_in net.lists) tree.now }
    ensures { result ≡ measured_in (net_in net.entry.lists) tree.now }
{
    let posts = net.lists.head.posts as usize;
    let segments = net.lists.segments;
    let length = hanging::whole_of(posts, segments.lengths, tree);
    let radius = hanging::radius_of(TreeList {
        posts,
        segments,
        tree,
    });
    Measured { length, radius }
}

// The answer for three trees of a net and a count of laid paths.
fn answer_for(net: SoundNet<'_>, light: &[u16], short: &[u16], third: &[u16], laid: u32) -> Built
    requires { TreeOf (net_in net.lists) light.now × TreeOf (net_in net.lists) short.now
        × TreeOf (net_in net.lists) third.now }
    ensures { result ≡ measures (measured_in (net_in net.entry.lists) light.now)
        (measured_in (net_in net.entry.lists) short.now) (measured_in (net_in net.entry.lists) third.now) laid }
{
    Built {
        lightest: measure(net, light),
        shortest: measure(net, short),
        between: measure(net, third),
        laid,
    }
}

// A net that nothing from 1 to 8 refuses: 9, or the answer, and the three trees put into the lent lists. "Entries
// beyond the post count stay as they were." `dist`, `light`, `short` and `third` are lent to work in. Here and below
// the three lists that a caller lends stay parameters: C lends them, and `Leaves` speaks of each; the four to work in
// stay so as in `trees`.
fn build_in(
    net: RatedNet<'_>,
    dist: &mut [u64],
    light: &mut [u16],
    short: &mut [u16],
    third: &mut [u16],
    lightest: &mut [u16],
    shortest: &mut [u16],
    between: &mut [u16],
) -> Result<Built, Refusal>
    requires worked_in { (size dist.old ≡ net.lists.head.posts) × (size light.old ≡ net.lists.head.posts)
        × (size short.old ≡ net.lists.head.posts) × (size third.old ≡ net.lists.head.posts) }
    requires posts_bound { (net.lists.head.posts ≤ size lightest.old) × (net.lists.head.posts ≤ size shortest.old)
        × (net.lists.head.posts ≤ size between.old) }
    ensures { Leaves (net_in net.entry.lists) (count_in net.entry.lists.segments)
        (ratio_count_in net.entry.lists.own) lightest.old shortest.old between.old result
        lightest.new shortest.new between.new }
{
    let laid = trees::all_trees(net, dist, light, short, third)?;
    lightest[..light.len()].copy_from_slice(light);
    shortest[..short.len()].copy_from_slice(short);
    between[..third.len()].copy_from_slice(third);
    let sound = SoundNet { lists: net.lists };
    Ok(answer_for(sound, light, short, third, laid))
}

// The same for lists that are long enough, with lists of its own to work in. They stand here and in margins: one
// function for both would take a closure with each entry's contract.
fn build_long(
    net: RatedNet<'_>,
    lightest: &mut [u16],
    shortest: &mut [u16],
    between: &mut [u16],
) -> Result<Built, Refusal>
    requires { (net.lists.head.posts ≤ size lightest.old) × (net.lists.head.posts ≤ size shortest.old)
        × (net.lists.head.posts ≤ size between.old) }
    ensures { Leaves (net_in net.entry.lists) (count_in net.entry.lists.segments)
        (ratio_count_in net.entry.lists.own) lightest.old shortest.old between.old result
        lightest.new shortest.new between.new }
{
    let posts = net.lists.head.posts as usize;
    let mut dist = [0u64; POST_PLACES];
    let mut light = [0u16; POST_PLACES];
    let mut short = [0u16; POST_PLACES];
    let mut third = [0u16; POST_PLACES];
    build_in(
        net,
        &mut dist[..posts],
        &mut light[..posts],
        &mut short[..posts],
        &mut third[..posts],
        lightest,
        shortest,
        between,
    )
}

// BUILDING of a net that nothing from 1 to 7 refuses: 8 of the three tree lists and of the lists of ratios, whatever
// the form, then 9, or the answer.
pub fn build_sound(
    net: SoundNet<'_>,
    lightest: &mut [u16],
    shortest: &mut [u16],
    between: &mut [u16],
) -> Result<Built, Refusal>
    ensures built { Leaves (net_in net.entry.lists) (count_in net.entry.lists.segments)
        (ratio_count_in net.entry.lists.own) lightest.old shortest.old between.old result
        lightest.new shortest.new between.new }
{
    let posts = net.lists.head.posts as usize;
    if lightest.len() < posts || shortest.len() < posts || between.len() < posts {
        return refuse(8, 0);
    }
    build_long(rated(net)?, lightest, shortest, between)
}

// BUILDING, for every input. "1, 2, 3, 4; then for each segment in turn 5, 6, 7; then 8; then 9", with the posts' 3
// after the head's 4. The trees' entries go into the three lent lists; after a refusal they hold what they held before.
// The net's segments are as many as the shortest of their three slices has places; the posts' own ratios are read as
// far as both their lists go, and only in the second form.
pub fn build(
    net: NetLists<'_>,
    lightest: &mut [u16],
    shortest: &mut [u16],
    between: &mut [u16],
) -> Result<Built, Refusal>
    ensures built { Leaves (net_in net.entry) (count_in net.entry.segments) (ratio_count_in net.entry.own)
        lightest.old shortest.old between.old result
        lightest.new shortest.new between.new }
{
    build_sound(sound(net)?, lightest, shortest, between)
}
