// The static library for C and Rust: each function of `c_calls` under its name, with its clauses. A crate is a library
// or a static library, so the exports stand here and what they call there.
#![tactic(auto)]

ghost use Rattle.std.specs.Prelude.{◌≡◌};
ghost use Rattle.net.specs.declared.Form.TheVariants.{First, Second};
ghost use Rattle.drawn.specs.Drawn.{drawn_of};
ghost use Rattle.reading.specs.Answers.{check_read};
ghost use Rattle.on_records.specs.Asked.{record_read};
ghost use Rattle.c_numbers.specs.Named.{the_run_named};
ghost use Rattle.c_calls.specs.Numbers.{check_number, drawn_number};
ghost use Rattle.c_calls.specs.Left.{PlanLeaves, RewriteLeaves, MoveLeaves, MarginLeaves};

// CHECK: `c_calls::drover_check`.
#[unsafe(no_mangle)]
pub extern "C" fn drover_check(bytes: &[u8]) -> u64
    ensures checked { result ≡ check_number (check_read (record_read bytes.now)) }
{
    c_calls::drover_check(bytes)
}

// PLAN: `c_calls::drover_plan`.
#[unsafe(no_mangle)]
pub extern "C" fn drover_plan(
    bytes: &[u8],
    lightest: &mut [u16],
    shortest: &mut [u16],
    between: &mut [u16],
    summary: &mut [u32],
) -> u64
    ensures planned { PlanLeaves bytes.now lightest.old shortest.old
        between.old summary.old result lightest.new shortest.new
        between.new summary.new }
{
    c_calls::drover_plan(bytes, lightest, shortest, between, summary)
}

// REWRITE: `c_calls::drover_rewrite`.
#[unsafe(no_mangle)]
pub extern "C" fn drover_rewrite(bytes: &[u8], room: &mut [u8]) -> u64
    ensures rewritten { RewriteLeaves bytes.now room.old result room.new }
{
    c_calls::drover_rewrite(bytes, room)
}

// TO THE SECOND FORM: `c_calls::drover_to_second`.
#[unsafe(no_mangle)]
pub extern "C" fn drover_to_second(bytes: &[u8], room: &mut [u8]) -> u64
    ensures moved { MoveLeaves Second bytes.now room.old result room.new }
{
    c_calls::drover_to_second(bytes, room)
}

// TO THE FIRST FORM: `c_calls::drover_to_first`.
#[unsafe(no_mangle)]
pub extern "C" fn drover_to_first(bytes: &[u8], room: &mut [u8]) -> u64
    ensures moved { MoveLeaves First bytes.now room.old result room.new }
{
    c_calls::drover_to_first(bytes, room)
}

// MARGIN: `c_calls::drover_margin`.
#[unsafe(no_mangle)]
pub extern "C" fn drover_margin(bytes: &[u8], tree: u32, post: u32, out: &mut [i64]) -> u64
    ensures measured { MarginLeaves bytes.now tree post out.old result out.new }
{
    c_calls::drover_margin(bytes, tree, post, out)
}

// A DRAWN RUN: `c_calls::drover_drawn`.
#[unsafe(no_mangle)]
pub extern "C" fn drover_drawn(corner: u32, first: u64, second: u64) -> u64
    ensures drawn { result ≡ drawn_number (drawn_of (the_run_named corner first second)) }
{
    c_calls::drover_drawn(corner, first, second)
}
