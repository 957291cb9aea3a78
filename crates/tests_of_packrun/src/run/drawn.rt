//! Runs of lines that are drawn by chance, from a fixed seed, and what they print, counted.

use super::counting::is_right;
use crate::support::{Ended, run};
use packrun_lines::stop::Stop;
use std::alloc::{AllocError, Global};
use std::process::Abort;
use std::str;
use tests_support::dice::Dice;

// In a line `@` is a name from 1 to 3, `#` a digit, `!` the side of a bin, `%` that of a box, and
// `*` the number of the round.
//
// Each round adds two bins 6x6x6 and packs at most three entries of sides up to 2, so no packing is
// refused. A box of sides up to 2 leaves of the section that it is put into a piece that is as
// large on two axes, and smaller by at most 2 on the third; so a new bin takes three such boxes in
// a row. The pairs keep group 2 apart from the groups 1 and 3, and no other groups. These two go
// into the first bin that takes them, so of the new bins they need one, and the other is left for
// group 2.
const CUBES: &str = "bin 1* 6 6 6\nbin 2* 6 6 6\n";

// At most two entries.
const TWO: [&str; 8] = [
    "rect # % % %",
    "rect # % % 1",
    "rect # % 1 1",
    "rect # 0 % 1",
    "rect # % % % @",
    "rect # % % 1 @ @",
    "rect # 1 % % @ @",
    "rect # % % % @ @",
];

// At most one.
const ONE: [&str; 6] = [
    "rect # % % %",
    "rect # 1 % %",
    "rect # % % % @",
    "rect # % % 1 @",
    "rect # % 1 1 @",
    "",
];

const PAIRS: [&str; 5] = ["exclude 1 2", "exclude 2 3", "exclude 3 2", "", ""];

const LINES: [&str; 21] = [
    "bin @ ! ! !",
    "bin @ ! ! 1",
    "pack",
    "release #",
    "release #",
    "release #",
    "release 1#",
    "release 1#",
    "release 2#",
    "coalesce @ 0 0 9",
    "coalesce 1@ 0 0 9",
    "coalesce 2@ # # #",
    "coalesce @ # # #",
    "sweep @",
    "sweep 1@",
    "sections @",
    "sections @",
    "sections 1@",
    "sections 2@",
    "",
    " \t\r",
];

// Nothing after a bad line is done.
const ENDS: [&str; 8] = [
    "",
    "bin @ ! !\nsections 1",
    "bin 1 4294967296 1 1\npack",
    "rect # % % -1 @\npack",
    "exclude @",
    "release +#\nrelease #",
    "coalesce @ # #\nsweep @",
    "\u{7f}\nsections @",
];

const FIRST: &str = "bin 1 ! ! !\nbin 2 ! ! 1\n";

const LAST: &str = "\nbin 3 ! ! !\nsections 1\nsections 2\nsections 3\nsections 10\nsections 26\n";

const ROUNDS: u8 = 7;

// How many lines a round has.
const ROUND: usize = 2 + 2 + 2 + 1 + 5;

// The line after `LAST`.
const END: usize = 2 + ROUNDS as usize * ROUND + 7 + 1;

fn byte_for(at: u8, drawn: u8) -> u8 {
    match at {
        b'@' => b'1' + drawn % 3,
        b'#' => b'0' + drawn % 10,
        b'!' => b'3' + drawn % 4,
        b'%' => b'1' + drawn % 2,
        other => other,
    }
}

fn write_text(input: &mut Vec<u8>, dice: &mut Dice, text: &str) -> Result<(), AllocError> {
    for at in text.bytes() {
        input.push(byte_for(at, dice.byte()))?;
    }
    Ok(())
}

// The two new bins of a round.
fn write_cubes(input: &mut Vec<u8>, round: u8) -> Result<(), AllocError> {
    for at in CUBES.bytes() {
        input.push(if at == b'*' { b'0' + round % 10 } else { at })?;
    }
    Ok(())
}

fn write_one(input: &mut Vec<u8>, dice: &mut Dice, texts: &[&str]) -> Result<(), AllocError> {
    let at = dice.index(texts.len());
    write_text(input, dice, texts.get(at).copied().unwrap_or(""))?;
    write_text(input, dice, "\n")
}

// At most three entries, and pairs.
fn write_boxes(input: &mut Vec<u8>, dice: &mut Dice) -> Result<(), AllocError> {
    write_one(input, dice, &TWO)?;
    write_one(input, dice, &ONE)?;
    write_one(input, dice, &PAIRS)?;
    write_one(input, dice, &PAIRS)
}

fn write_five(input: &mut Vec<u8>, dice: &mut Dice) -> Result<(), AllocError> {
    for _ in 0..5 {
        write_one(input, dice, &LINES)?;
    }
    Ok(())
}

// New bins, what is packed, and five lines after it.
fn write_round(input: &mut Vec<u8>, dice: &mut Dice, round: u8) -> Result<(), AllocError> {
    write_cubes(input, round)?;
    write_boxes(input, dice)?;
    write_text(input, dice, "pack\n")?;
    write_five(input, dice)
}

fn write_rounds(input: &mut Vec<u8>, dice: &mut Dice) -> Result<(), AllocError> {
    for round in 0..ROUNDS {
        write_round(input, dice, round)?;
    }
    Ok(())
}

fn write_lines(input: &mut Vec<u8>, dice: &mut Dice) -> Result<(), AllocError> {
    write_text(input, dice, FIRST)?;
    write_rounds(input, dice)?;
    write_text(input, dice, LAST)?;
    write_one(input, dice, &ENDS)
}

// How lines end that end so.
fn end_of(input: &[u8]) -> Ended {
    if input.ends_with(b"\n\n") {
        Ok(())
    } else {
        Err(Stop::BadLine(END as u64))
    }
}

// Whether these lines end as they should, and print what may be.
fn runs_right(alloc: Global, input: &[u8]) -> Result<bool, AllocError> {
    let mut output = Vec::new(alloc);
    let outcome = run(alloc, &mut &*input, &mut output);
    if outcome != end_of(input) {
        return Ok(false);
    }
    is_right(alloc, text_of(input), END, text_of(output.as_slice()))
}

fn text_of(bytes: &[u8]) -> &str {
    str::from_utf8(bytes).unwrap_or("")
}

// The next lines run right.
fn run_drawn(rt: &impl Abort, alloc: Global, dice: &mut Dice, input: &mut Vec<u8>) {
    input.clear();
    write_lines(input, dice).expect(rt, "no memory");
    let is_right = runs_right(alloc, input.as_slice()).expect(rt, "no memory");
    assert!(rt; is_right, "{}", text_of(input.as_slice()));
}

#[test]
fn drawn_runs(rt: HostRuntime) {
    let mut dice = Dice::new(20240607);
    let mut input = Vec::new(rt.alloc());
    for _ in 0..300 {
        run_drawn(&rt, rt.alloc(), &mut dice, &mut input);
    }
}
