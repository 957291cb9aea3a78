//! How many bins the boxes need, whatever packer places them.

use crate::packing::{Bins, Boxes};
use rectangle_pack::{Turns, least_bins};
use std::alloc::AllocError;
use std::collections::BTreeMap;
use std::io;
use std::time::{Duration, Instant};

// The boxes that may be turned, by their indices.
pub type AllTurns = BTreeMap<u32, Turns>;

// `turn I X Y Z`: a box that may be turned, or one less where it may not.
pub fn add_turns(turns: &mut AllTurns, numbers: [u32; 4]) -> Result<(), AllocError> {
    let [index, x, y, z] = numbers;
    let about = Turns {
        about_x: x != 0,
        about_y: y != 0,
        about_z: z != 0,
    };
    turns.insert(index, about)?;
    Ok(())
}

// `least`: how many of the bins the boxes need at least.
pub fn print_least(
    rt: &HostRuntime,
    session: &Bins,
    boxes: &Boxes,
    turns: &AllTurns,
) -> io::Result<()> {
    match least_bins(rt.alloc(), boxes, session.bins(), turns)? {
        Some(least) => println!(rt; "{least}")?,
        None => println!(rt; "-1")?,
    }
    Ok(())
}

// `least_time`: the microseconds that this takes, the best of five.
pub fn print_least_time(
    rt: &HostRuntime,
    session: &Bins,
    boxes: &Boxes,
    turns: &AllTurns,
) -> io::Result<()> {
    let mut best = Duration::MAX;
    for _run in 0..5 {
        let start = Instant::now(rt)?;
        let _ = least_bins(rt.alloc(), boxes, session.bins(), turns)?;
        best = best.min(start.elapsed(rt)?);
    }
    println!(rt; "{}", best.as_micros())?;
    Ok(())
}
