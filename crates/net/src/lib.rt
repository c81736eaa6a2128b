// A net: "a number of posts, a source post, a ratio p/q and a list of segments", and in the second form a ratio of its
// own for every post but the source. What it is made of, and what an answer about it is made of. The definitions that
// every other crate's contracts cite stand in specs/, in the words of documents 01 and 02; the laws up to demand 3 in
// proofs/. The only functions are small steps that several crates take (`plain`); the checks 1 to 7 are those of
// `checks`.

#![tactic(auto)]

pub mod plain;

ghost use Rattle.std.specs.Prelude.{◌≤◌};
ghost use Rattle.net.specs.Ready.{ReadyIn, ratio_count_in};

// THE NUMBERS THAT BOUND A NET, each only here.
// "Posts 1 to 256, numbered from 0."
pub const MOST_POSTS: u32 = 256;

// As many places of a list, one for each post that a net may have. Between 32 bits and a place's usize, and to a
// narrower or a signed type, every crate goes by `as`: std has no From there, and TryFrom has a case that the bounds
// exclude.
pub const POST_PLACES: usize = MOST_POSTS as usize;

// "Segments 0 to 2,048, numbered from 0 in list order."
pub const MOST_SEGMENTS: usize = 2048;

// "Length 1 to 1,048,575."
pub const LONGEST: u32 = 1048575;

// "p 0 to 10,000, q 1 to 10,000."
pub const MOST_RATIO: u32 = 10000;

// The entry of a post that hangs by no segment: "65,535 for the source". It stays a number: the lists that callers and
// C lend hold it (document 01).
pub const NO_SEGMENT: u16 = 65535;

// "none yet", which is larger than any length: 2^48. It stays a number, as the rules compare it with lengths: of two
// `Option`s, None would be the less.
pub const NONE_YET: u64 = 281_474_976_710_656;

// WHAT A NET IS MADE OF.

// "A segment joins two posts and has a length in sixteenths of a millimetre."
#[derive(Clone, Copy, PartialEq, Eq)]
pub struct Segment {
    pub a: u16,
    pub b: u16,
    pub length: u32,
}

// "the form belongs to the net". In the first form the house ratio rules every post; in the second "every post but the
// source now has its own p and q", and the house ratio is kept and checked.
#[derive(Clone, Copy, PartialEq, Eq)]
pub enum Form {
    First,
    Second,
}

// All of a net but its segments and its posts' own ratios: the number of posts, the source, the house ratio p/q, and
// the form. A ratio stays two numbers: the posts' own are lent as two lists (document 02), so that a pair would be put
// together at each read only to be taken apart.
#[derive(Clone, Copy, PartialEq, Eq)]
pub struct Head {
    pub posts: u32,
    pub source: u32,
    pub p: u32,
    pub q: u32,
    pub form: Form,
}

// HOW THE CODE HOLDS A NET. The posts' own ratios as two lists side by side, their p and their q, as callers lend them
// (document 02): as many as the shorter has places.
#[derive(Clone, Copy)]
pub struct RatioLists<'a> {
    pub p: &'a [u32],
    pub q: &'a [u32],
}

// The segments as three lists side by side, "two posts and a length each", as callers lend them (document 01): as many
// as the shortest has places. The entries over a list of `Segment`s are those of `on_segments`.
#[derive(Clone, Copy)]
pub struct SegmentLists<'a> {
    pub a: &'a [u16],
    pub b: &'a [u16],
    pub lengths: &'a [u32],
}

// A net: its head, its posts' own ratios and its segments.
#[derive(Clone, Copy)]
pub struct NetLists<'a> {
    pub head: Head,
    pub own: RatioLists<'a>,
    pub segments: SegmentLists<'a>,
}

// A net that nothing from 1 to 7 refuses, its three lists of segments equally long.
#[derive(Clone, Copy)]
pub struct SoundNet<'a> {
    pub lists: NetLists<'a>,
    ghost sound: { ReadyIn lists },
}

// One whose lists of ratios have a place for each post, so that 8 is not given for them. Its lists make a `SoundNet` in
// one line, so that a From is no plainer.
#[derive(Clone, Copy)]
pub struct RatedNet<'a> {
    pub lists: NetLists<'a>,
    ghost sound: { ReadyIn lists },
    ghost rated: { lists.head.posts ≤ ratio_count_in lists.own },
}

// "a refusal with its number and its place". Its number stays one: the table of document 01, the theorems, the printed
// line and C all say it, and an enum would name each row twice.
#[derive(Clone, Copy, PartialEq, Eq)]
pub struct Refusal {
    pub number: u32,
    pub place: u32,
}

// Length and radius of a tree.
#[derive(Clone, Copy, PartialEq, Eq)]
pub struct Measured {
    pub length: u32,
    pub radius: u32,
}

// One of the three trees, by its name.
#[derive(Clone, Copy, PartialEq, Eq)]
pub enum Tree {
    Lightest,
    Shortest,
    Between,
}

// "length and radius of each tree and the count of laid paths"
#[derive(Clone, Copy, PartialEq, Eq)]
pub struct Built {
    pub lightest: Measured,
    pub shortest: Measured,
    pub between: Measured,
    pub laid: u32,
}

// The head of a net and how many segments it has.
#[derive(Clone, Copy, PartialEq, Eq)]
pub struct Counted {
    pub head: Head,
    pub count: u32,
}

// What planning answers of a net: its head, the number of its segments, and what building answers.
#[derive(Clone, Copy, PartialEq, Eq)]
pub struct Plan {
    pub head: Head,
    pub count: u32,
    pub built: Built,
}
