// The library for C and Rust: functions on numbers and lent lists, each list a pointer and a length. Records are of
// either form. A refusal is number × 2^32 + place; the place of 3 is 0 for the house ratio, and the post for a post's
// own. After one nothing that is lent is changed, and no function asks anything of what is lent. Thin over
// `on_records`, `moves` and `drawn`, whose answers `c_numbers` puts into numbers. `c_calls_c` exports each function
// under its name.
#![tactic(auto)]

ghost use Rattle.std.specs.Prelude.{◌≡◌};
ghost use Rattle.net.specs.declared.Form.TheVariants.{First, Second};
ghost use Rattle.drawn.specs.Drawn.{drawn_of};
ghost use Rattle.reading.specs.Answers.{check_read};
ghost use Rattle.on_records.specs.Asked.{record_read};
ghost use Rattle.c_numbers.specs.Named.{the_run_named};
ghost use Rattle.c_calls.specs.Numbers.{zero_or_packed, length_or_marked, Markable, check_number, drawn_number};
ghost use Rattle.c_calls.specs.Left.{PlanLeaves, RewriteLeaves, MoveLeaves, MarginLeaves};

use c_numbers::{mark, pack, put_front, run_named, summary_of, tree_named};
use net::Refusal;

// What checking, planning or measuring answers, in a number, which is 0, or the refusal.
fn refused_number<T: Copy>(answer: Result<T, Refusal>) -> u64
    ensures { result ≡ zero_or_packed answer }
{
    match answer {
        Ok(_) => 0,
        Err(refusal) => pack(refusal),
    }
}

// What writing or drawing answers, in a number, which is the length, or 2^63 + the refusal.
fn length_number(answer: Result<u32, Refusal>) -> u64
    requires { Markable answer }
    ensures { result ≡ length_or_marked answer }
{
    match answer {
        Ok(length) => u64::from(length),
        Err(refusal) => mark(refusal),
    }
}

// CHECK, for every input: reads the record, and no more. 0, or the refusal.
pub fn drover_check(bytes: &[u8]) -> u64
    ensures checked { result ≡ check_number (check_read (record_read bytes.now)) }
{
    refused_number(on_records::check(bytes))
}

// PLAN, for every input: reads the record, builds its trees into the three lent lists and puts the twelve numbers of
// its plan, among them the house ratio in both forms, at the front of the summary. 0, or the refusal.
pub fn drover_plan(
    bytes: &[u8],
    lightest: &mut [u16],
    shortest: &mut [u16],
    between: &mut [u16],
    summary: &mut [u32],
) -> u64
    ensures planned { PlanLeaves bytes.now lightest.old shortest.old
        between.old summary.old result lightest.new shortest.new
        between.new summary.new }
{
    let answer = on_records::plan(bytes, lightest, shortest, between);
    if let Ok(plan) = answer {
        put_front(&summary_of(plan), summary);
    }
    refused_number(answer)
}

// REWRITE, for every input: reads the record and writes it to the front of the room. The length written, or 2^63 + the
// refusal.
pub fn drover_rewrite(bytes: &[u8], room: &mut [u8]) -> u64
    ensures rewritten { RewriteLeaves bytes.now room.old result room.new }
{
    length_number(on_records::rewrite(bytes, room))
}

// TO THE SECOND FORM, for every input: reads a record of the first form and writes it to the front of the room with the
// house ratio for each post but the source. The length written, or 2^63 + the refusal, 30 for a record of the second
// form.
pub fn drover_to_second(bytes: &[u8], room: &mut [u8]) -> u64
    ensures moved { MoveLeaves Second bytes.now room.old result room.new }
{
    length_number(moves::to_second(bytes, room))
}

// TO THE FIRST FORM, for every input: reads a record of the second form, in which every post but the source has the
// house p and q, and writes it to the front of the room without them. The length written, or 2^63 + the refusal, 30 for
// a record of the first form, 20 for a post with another ratio.
pub fn drover_to_first(bytes: &[u8], room: &mut [u8]) -> u64
    ensures moved { MoveLeaves First bytes.now room.old result room.new }
{
    length_number(moves::to_first(bytes, room))
}

// MARGIN, for every input: reads the record and puts the margin of a post, in the tree that the number names and by the
// post's own ratio in the second form, into the first entry of the list. 0, or the refusal.
pub fn drover_margin(bytes: &[u8], tree: u32, post: u32, out: &mut [i64]) -> u64
    ensures measured { MarginLeaves bytes.now tree post out.old result out.new }
{
    let answer = on_records::margin(bytes, tree_named(tree), post);
    if let Ok(margin) = answer {
        put_front(&[margin], out);
    }
    refused_number(answer)
}

// A DRAWN RUN, for every input, by the bits of its lengths: 0 for `corner` is a straight run, which has the first
// alone. Its length in sixteenths, or 2^63 + the refusal.
pub fn drover_drawn(corner: u32, first: u64, second: u64) -> u64
    ensures drawn { result ≡ drawn_number (drawn_of (the_run_named corner first second)) }
{
    length_number(drawn::drawn(run_named(corner, first, second)))
}
