// "Old records onto the new bench, and home again": a record of the first form into one of the second, in which every
// post but the source has the house ratio, and back. Each reads the record into `on_records::Places` and writes its net
// in the form that is wanted; "all of the reader's first, then 30, place 0, for a record already of the form wanted,
// then 20, place the lowest post with another ratio, then 18". A move looks at the record and not at a loom: a net that
// isn't joined moves too. None asks anything of what is lent, and after a refusal nothing lent is changed.
// Thin over `on_records` and `writing`; the library for C stands on it.
#![tactic(auto)]

ghost use Rattle.std.specs.Prelude.{◌≡◌, ◌<◌, ◌≤◌, length};
ghost use Rattle.net.specs.Ready.{net_in, ratios_in, ratio_count_in};
ghost use Rattle.moves.specs.Moves.{the_other_ratio, the_other_at, LowestOther};
ghost use Rattle.moves.specs.Moves.{MovesNet, Moves, ToSecond, ToFirst};

use net::plain::refuse;
use net::{Form, Head, NetLists, POST_PLACES, RatioLists, Refusal, SoundNet};
use on_records::Places;
use reading::own_count;
use writing::write_sound;

// Another ratio than the head's: another p or another q.
fn other_ratio(head: Head, p: u32, q: u32) -> bool
    ensures { result ≡ the_other_ratio head (record { p = p; q = q }) }
{
    p != head.p || q != head.q
}

// The post isn't the source, and it has another ratio than the head's.
fn other_at(head: Head, own: RatioLists<'_>, post: u32) -> bool
    requires { (post < length own.p.now) × (post < length own.q.now) }
    ensures { result ≡ the_other_at head (ratios_in own.entry) post }
{
    if post == head.source {
        return false;
    }
    let v = post as usize;
    other_ratio(head, own.p[v], own.q[v])
}

// The lowest of the first `count` posts with another ratio than the head's.
fn lowest_other(head: Head, count: u32, own: RatioLists<'_>) -> Option<u32>
    requires { (count ≤ length own.p.now) × (count ≤ length own.q.now) }
    ensures { LowestOther head (ratios_in own.entry) count result }
{
    for post in 0..count {
        if other_at(head, own, post) {
            return Some(post);
        }
    }
    None
}

// Writes a net in the form that is wanted: its length, or 30, 20 or 18. No `RatedNet`: what is read has a ratio for
// each post by the clause of `Places::net`, and `rated` would refuse what can't be.
fn move_net(wanted: Form, net: SoundNet<'_>, room: &mut [u8]) -> Result<u32, Refusal>
    requires { net.lists.head.posts ≤ ratio_count_in net.lists.own }
    ensures { MovesNet wanted (net_in net.entry.lists) room.old result room.new }
{
    let head = net.lists.head;
    if head.form == wanted {
        return refuse(30, 0);
    }
    if let Some(post) = lowest_other(head, own_count(head), net.lists.own) {
        return refuse(20, post);
    }
    let house_p = [head.p; POST_PLACES];
    let house_q = [head.q; POST_PLACES];
    let moved = NetLists {
        head: Head {
            form: wanted,
            ..head
        },
        own: RatioLists {
            p: &house_p,
            q: &house_q,
        },
        segments: net.lists.segments,
    };
    write_sound(SoundNet { lists: moved }, room)
}

// TO THE FORM THAT IS WANTED, a value, for every input: reads a record of the other form and writes its net in this one
// to the front of the room, as `to_second` and `to_first` do; bytes beyond it are unchanged. The length written, or the
// refusal, 30 for a record that is of the form wanted already.
pub fn move_to(wanted: Form, bytes: &[u8], room: &mut [u8]) -> Result<u32, Refusal>
    ensures moved { Moves wanted bytes.now room.old result room.new }
{
    let mut places = Places::new();
    let counted = places.read(bytes)?;
    move_net(wanted, places.net(counted), room)
}

// TO THE SECOND FORM, for every input: reads a record of the first form and writes it to the front of the room with the
// house ratio for each post but the source; bytes beyond it are unchanged. The length written, or the refusal.
pub fn to_second(bytes: &[u8], room: &mut [u8]) -> Result<u32, Refusal>
    ensures moved { ToSecond bytes.now room.old result room.new }
{
    move_to(Form::Second, bytes, room)
}

// TO THE FIRST FORM, for every input: reads a record of the second form, in which every post but the source has the
// house p and q, and writes it to the front of the room without them; bytes beyond it are unchanged. The length
// written, or the refusal.
pub fn to_first(bytes: &[u8], room: &mut [u8]) -> Result<u32, Refusal>
    ensures moved { ToFirst bytes.now room.old result room.new }
{
    move_to(Form::First, bytes, room)
}
