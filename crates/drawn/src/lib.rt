// Drawn runs: a run drawn in millimetres becomes a length in sixteenths of a millimetre.
//
// A run is straight, with one length, or a corner, with two legs, each an `f64`. `drawn` answers 16
// times the length, rounded up to a whole number, or that of each leg, added as whole numbers. Or it
// refuses, with a number:
//   13 not finite, 14 below zero, 15 zero, of either sign,
//   17 above 1,048,575 sixteenths (65,535.9375 mm) once rounded, or the legs together;
// and a place: 0 for the length or the first leg, 1 for the second leg, 2 for the legs together.
// The first leg is looked at before the second, and the second before the sum. Every `f64` has an
// answer; 16 is a number of the table that no run is refused with.
//
// The contracts speak of the float's value (specs/Drawn.antt, and rule by rule specs/Rules.antt).
// The code works it out from the bits. Relies on `net` for the refusal and the greatest length.
#![tactic(auto)]

ghost use Rattle.std.specs.Prelude.{◌≡◌};
ghost use Rattle.std.specs.Float.{binary64};
ghost use Rattle.std.specs.Float.Ieee.{of_bits};
ghost use Rattle.drawn.specs.Drawn.{the_leg_of, at_place, corner_of, drawn_of};

use net::plain::refuse;
use net::{LONGEST, Refusal};

// A run as it is drawn: lengths in millimetres.
#[derive(Clone, Copy)]
pub enum Run {
    Straight(f64),
    Corner(f64, f64),
}

// The sign of an f64. Minus zero is the sign alone; what is below zero is more.
const SIGN: u64 = 0x8000_0000_0000_0000;

// The bits under the sign: a field of 11 bits for the exponent, and 52 digits.
const SIZE: u64 = 0x7fff_ffff_ffff_ffff;

// The digits. With a field from 1 to 2046 the length is significand * 2 ^ (field - 1075), where the
// significand is the digits with a leading one before them.
const DIGITS: u64 = 0xf_ffff_ffff_ffff;

// The significand's leading one.
const LEADING_ONE: u64 = 0x10_0000_0000_0000;

// The field of the infinities and of a not-a-number.
const TOP_FIELD: u64 = 2047;

// The field at which the significand itself counts sixteenths: 16 * 2 ^ (1071 - 1075) is 1.
const SIXTEENTHS_FIELD: u64 = 1071;

// The field of 1/16 = 2 ^ (1019 - 1023) mm. A length with a smaller field is below that.
const ONE_FIELD: u64 = 1019;

// The field of 65,536 = 2 ^ (1039 - 1023) mm, the least multiple of 1/16 mm above 65,535.9375.
const LONG_FIELD: u64 = 1039;

// The leg whose bit pattern is `bits`, refused at `place`. In sixteenths it is significand * 2 ^ (field - 1071), so
// the zeros at the significand's end together with the field say whether that is a whole number; where it isn't, one
// more than the whole part is. A length below 1/16 mm is rounded up to it: a subnormal too, which has the field 0 and
// no leading one.
fn leg_of_bits(bits: u64, place: u32) -> Result<u32, Refusal>
    ensures { result ≡ at_place place (the_leg_of (of_bits binary64 bits)) }
{
    let size = bits & SIZE;
    let field = size >> 52;
    if field == TOP_FIELD {
        return refuse(13, place);
    }
    if bits > SIGN {
        return refuse(14, place);
    }
    if size == 0 {
        return refuse(15, place);
    }
    if field >= LONG_FIELD {
        return refuse(17, place);
    }
    if field < ONE_FIELD {
        return Ok(1);
    }
    let significand = LEADING_ONE + (bits & DIGITS);
    let zeros = u64::from(significand.trailing_zeros());
    let whole = (significand >> (SIXTEENTHS_FIELD - field)) as u32;
    if field + zeros >= SIXTEENTHS_FIELD {
        return Ok(whole);
    }
    if whole >= LONGEST {
        return refuse(17, place);
    }
    Ok(whole + 1)
}

// The leg that is drawn as `x`, refused at `place`.
fn leg_of(x: f64, place: u32) -> Result<u32, Refusal>
    ensures { result ≡ at_place place (the_leg_of x) }
{
    if x.is_nan() {
        return refuse(13, place);
    }
    leg_of_bits(x.to_bits(), place)
}

// A corner, by its two legs: the first leg's refusal, then the second's, then the sum's.
fn corner(x: f64, y: f64) -> Result<u32, Refusal>
    ensures { result ≡ corner_of (the_leg_of x) (the_leg_of y) }
{
    let sum = leg_of(x, 0)? + leg_of(y, 1)?;
    if sum > LONGEST {
        return refuse(17, 2);
    }
    Ok(sum)
}

// The length of a drawn run in sixteenths, or its refusal.
pub fn drawn(run: Run) -> Result<u32, Refusal>
    ensures drawn { result ≡ drawn_of run }
{
    match run {
        Run::Straight(x) => leg_of(x, 0),
        Run::Corner(x, y) => corner(x, y),
    }
}
