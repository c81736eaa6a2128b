// Worked examples of drawn runs, the borders of rounding and the edges of the f64s, on the compiled
// code. One line each: the run as drawn, then `length` and its sixteenths, or `refused`, the number
// and the place. The file `stdout` beside src/ has what must be written. Relies on `drawn`.
#![tactic(auto)]

use drawn::Run;
use std::io;
use std::io::{Stdout, Write};

// The straight runs of document 01 and of change request 04.
const STRAIGHT_RUNS: [(&str, f64); 12] = [
    ("12.5", 12.5),
    ("65535.9375", 65535.9375),
    ("65536", 65536.0),
    ("0.0625", 0.0625),
    ("0.03125", 0.03125),
    ("0.1", 0.1),
    ("0/0", 0.0 / 0.0),
    ("1/0", 1.0 / 0.0),
    ("-1/0", -1.0 / 0.0),
    ("-1", -1.0),
    ("-0", -0.0),
    ("0", 0.0),
];

// Lengths that are rounded up: decimals, the f64s next to 1/16, to 1 and to 65,535.9375, and what is
// too long only once it is rounded. Below zero nothing is rounded.
const ROUNDED: [(&str, f64); 12] = [
    ("0.2", 0.2),
    ("0.3", 0.3),
    ("0.065", 0.065),
    ("100.1", 100.1),
    ("0.06250000000000001", 0.06250000000000001),
    ("0.06249999999999999", 0.06249999999999999),
    ("1.0000000000000002", 1.0000000000000002),
    ("65535.9", 65535.9),
    ("65535.93749999999", 65535.93749999999),
    ("65535.93750000001", 65535.93750000001),
    ("65535.95", 65535.95),
    ("-0.1", -0.1),
];

// The f64s of least and of largest size, of either sign, one that is small, and two whole numbers:
// one power of two, and one that is none.
const EDGES: [(&str, f64); 7] = [
    ("5e-324", 5e-324),
    ("-5e-324", -5e-324),
    ("1e-300", 1e-300),
    ("1.7976931348623157e308", 1.7976931348623157e308),
    ("-1.7976931348623157e308", -1.7976931348623157e308),
    ("32768", 32768.0),
    ("65535", 65535.0),
];

// Corners: those of document 01, legs that are rounded each by itself, and sums at the border.
const CORNERS: [(&str, f64, f64); 10] = [
    ("10, 2.5", 10.0, 2.5),
    ("65535.9375, 0.0625", 65535.9375, 0.0625),
    ("65535.875, 0.0625", 65535.875, 0.0625),
    ("65535.9375, 65535.9375", 65535.9375, 65535.9375),
    ("0.1, 0.1", 0.1, 0.1),
    ("0.03125, 0.03125", 0.03125, 0.03125),
    ("65535.8, 0.1", 65535.8, 0.1),
    ("65535.9375, 0.01", 65535.9375, 0.01),
    ("65535.9, 0.01", 65535.9, 0.01),
    ("32768, 32767.95", 32768.0, 32767.95),
];

// Corners refused for a leg, at either place.
const LEGS_REFUSED: [(&str, f64, f64); 10] = [
    ("0.1, 0/0", 0.1, 0.0 / 0.0),
    ("0.1, -1", 0.1, -1.0),
    ("0.1, 0", 0.1, 0.0),
    ("0.1, -0", 0.1, -0.0),
    ("0.1, 65535.95", 0.1, 65535.95),
    ("1, 65536", 1.0, 65536.0),
    ("65535.95, 0/0", 65535.95, 0.0 / 0.0),
    ("0, 0.1", 0.0, 0.1),
    ("-1, 0/0", -1.0, 0.0 / 0.0),
    ("0/0, 0/0", 0.0 / 0.0, 0.0 / 0.0),
];

// Writes a run's name and its answer as one line.
fn show(mut out: Stdout, name: &str, run: Run) -> io::Result<()> {
    match drawn::drawn(run) {
        Ok(sixteenths) => println!(out; "{name}: length {sixteenths}"),
        Err(refusal) => println!(out; "{name}: refused {} {}", refusal.number, refusal.place),
    }
}

// Writes straight runs and their answers.
fn show_straight(out: Stdout, rows: &[(&str, f64)]) -> io::Result<()> {
    for &(name, x) in rows {
        show(out, name, Run::Straight(x))?;
    }
    Ok(())
}

// Writes corners and their answers.
fn show_corners(out: Stdout, rows: &[(&str, f64, f64)]) -> io::Result<()> {
    for &(name, x, y) in rows {
        show(out, name, Run::Corner(x, y))?;
    }
    Ok(())
}

fn main(rt: HostRuntime) -> io::Result<()> {
    let out = rt.stdout();
    show_straight(out, &STRAIGHT_RUNS)?;
    show_straight(out, &ROUNDED)?;
    show_straight(out, &EDGES)?;
    show_corners(out, &CORNERS)?;
    show_corners(out, &LEGS_REFUSED)
}
