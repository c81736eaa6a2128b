// How the library for C says things in numbers: a refusal in one number, the twelve numbers of a plan, a tree and a
// drawn run by the numbers that name them, and numbers put at the front of a lent list. What each function promises is
// an equation with a definition of specs/. Relies on `net` for a refusal, a head, a tree, and length and radius, and on
// `drawn` for a run. The crate `c_calls` stands on it; `mark` asks for a number of the table of refusals, and nothing
// else here asks anything. A refusal, a tree and a run are types of other crates, so that no `From` for them can stand
// here (the orphan rule), and the numbers are C's, which those crates don't know: each conversion is a function.
#![tactic(auto)]

ghost use Rattle.std.specs.Prelude.{◌≡◌, ◌≤◌};
ghost use Rattle.std.specs.Float.{binary64};
ghost use Rattle.std.specs.Float.Ieee.{of_bits};
ghost use Rattle.c_numbers.specs.Named.{most_number, packed, marked, the_tree_named, the_run_named};
ghost use Rattle.c_numbers.specs.Lists.{front, twelve};

use drawn::Run;
use net::{Plan, Refusal, Tree};

// 2^63, which is added to a refusal where the answer may be a length.
const MARK: u64 = 0x8000_0000_0000_0000;

// The bits of an f64 under its sign. Also in drawn, where it is private: a public constant for one use is no plainer.
const SIZE: u64 = 0x7fff_ffff_ffff_ffff;

// The bits of an infinity. Those of a not-a-number, under the sign, are above them.
const INFINITY: u64 = 0x7ff0_0000_0000_0000;

// A refusal in one number.
pub fn pack(r: Refusal) -> u64
    ensures packed { result ≡ packed r }
{
    u64::from(r.number) * 4_294_967_296 + u64::from(r.place)
}

// The same where the answer may be a length.
pub fn mark(r: Refusal) -> u64
    requires { r.number ≤ most_number }
    ensures marked { result ≡ marked r }
{
    MARK + pack(r)
}

// Puts some numbers at the front of a list, as far as it goes.
pub fn put_front<T: Copy>(values: &[T], list: &mut [T])
    ensures put { list.new ≡ front values.now list.old }
{
    let n = values.len().min(list.len());
    list[..n].copy_from_slice(&values[..n]);
}

// The twelve numbers of a plan.
pub fn summary_of(plan: Plan) -> [u32; 12]
    ensures summed { result ≡ twelve plan }
{
    [
        plan.head.posts,
        plan.count,
        plan.head.source,
        plan.head.p,
        plan.head.q,
        plan.built.lightest.length,
        plan.built.lightest.radius,
        plan.built.shortest.length,
        plan.built.shortest.radius,
        plan.built.between.length,
        plan.built.between.radius,
        plan.built.laid,
    ]
}

// The tree that a number names.
pub fn tree_named(tree: u32) -> Tree
    ensures named { result ≡ the_tree_named tree }
{
    match tree {
        0 => Tree::Lightest,
        1 => Tree::Shortest,
        _ => Tree::Between,
    }
}

// The f64 of some bits. Every pattern of a not-a-number stands for the one.
fn float_of(bits: u64) -> f64
    ensures { result ≡ of_bits binary64 bits }
{
    if bits & SIZE <= INFINITY {
        f64::from_bits(bits)
    } else {
        f64::NAN
    }
}

// The drawn run that some numbers name: whether it is a corner, and the bits of its lengths.
pub fn run_named(corner: u32, first: u64, second: u64) -> Run
    ensures named { result ≡ the_run_named corner first second }
{
    match corner {
        0 => Run::Straight(float_of(first)),
        _ => Run::Corner(float_of(first), float_of(second)),
    }
}
