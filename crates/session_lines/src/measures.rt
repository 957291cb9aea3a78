//! How small a bin takes boxes, how few bins take them, and how long a packing or a plan takes. Where
//! there is no space or no plan, each number is 0.

use crate::packing::{Bins, Boxes, pack};
use rectangle_pack::{Heuristic, Session};
use std::alloc::Global;
use std::collections::BTreeSet;
use std::io;
use std::time::{Duration, Instant};

// So many bins of one size, by numbers.
fn equal_bins(alloc: Global, count: u32, size: [u32; 3]) -> io::Result<Bins> {
    let [width, height, depth] = size;
    let mut session = Session::new(alloc, 0);
    for id in 0..count {
        session.add_bin(id, width, height, depth)?;
    }
    Ok(session)
}

// Whether one bin of the size takes all boxes.
fn takes(alloc: Global, boxes: &Boxes, size: [u32; 3], number: u32) -> io::Result<bool> {
    let mut bin = equal_bins(alloc, 1, size)?;
    Ok(pack(&mut bin, boxes, number)?.is_some())
}

// `first W H D`: the first depth, from D to four times D, at which a bin W x H takes all boxes. Where
// W is 0: the first side of a square.
fn first(alloc: Global, boxes: &Boxes, size: [u32; 3], number: u32) -> io::Result<u128> {
    let [width, height, least] = size;
    for side in least..=least.saturating_mul(4) {
        let size = if width == 0 {
            [side, side, 1]
        } else {
            [width, height, side]
        };
        if takes(alloc, boxes, size, number)? {
            return Ok(side as u128);
        }
    }
    Ok(0)
}

// How many bins have an outstanding placement.
fn used(alloc: Global, session: &Bins) -> io::Result<usize> {
    let mut used: BTreeSet<u32> = BTreeSet::new(alloc);
    for placed in session.outstanding() {
        used.insert(placed.bin)?;
    }
    Ok(used.len())
}

// `pages W H`: how many of as many bins as there are boxes are used.
fn pages(alloc: Global, boxes: &Boxes, size: [u32; 3], number: u32) -> io::Result<u128> {
    let [width, height, _] = size;
    let count = u32::try_from(boxes.rects().len()).unwrap_or(u32::MAX);
    let mut session = equal_bins(alloc, count, [width, height, 1])?;
    let _ = pack(&mut session, boxes, number)?;
    Ok(used(alloc, &session)? as u128)
}

// How long a packing takes.
fn time_pack(
    rt: &HostRuntime,
    session: &mut Bins,
    boxes: &Boxes,
    number: u32,
) -> io::Result<Duration> {
    let start = Instant::now(rt)?;
    let packed = pack(session, boxes, number)?.is_some();
    let taken = start.elapsed(rt)?;
    Ok(if packed { taken } else { Duration::ZERO })
}

// `times S N`: the microseconds of a packing into N squares of side S, the best of seven.
fn times(rt: &HostRuntime, boxes: &Boxes, size: [u32; 3], number: u32) -> io::Result<u128> {
    let [side, count, _] = size;
    let mut best = Duration::MAX;
    for _run in 0..7 {
        let mut session = equal_bins(rt.alloc(), count, [side, side, 1])?;
        best = best.min(time_pack(rt, &mut session, boxes, number)?);
    }
    Ok(best.as_micros())
}

// How long a packing of what fits takes, by volumes, where all fits.
fn time_fitting(rt: &HostRuntime, session: &mut Bins, boxes: &Boxes) -> io::Result<Duration> {
    let start = Instant::now(rt)?;
    let (_, fitted) = session.pack_fitting_best(boxes, &[Heuristic::Volume])?;
    let taken = start.elapsed(rt)?;
    let all_fit = fitted.left.is_empty();
    Ok(if all_fit { taken } else { Duration::ZERO })
}

// `beside S N`: the microseconds of a packing by volumes into N squares of side S, and of what fits of
// the same boxes, in turn, the best of seven each.
pub fn print_beside(rt: &HostRuntime, boxes: &Boxes, side: u32, count: u32) -> io::Result<()> {
    let mut all = Duration::MAX;
    let mut fitting = Duration::MAX;
    for _run in 0..7 {
        let mut session = equal_bins(rt.alloc(), count, [side, side, 1])?;
        all = all.min(time_pack(rt, &mut session, boxes, 0)?);
        let mut session = equal_bins(rt.alloc(), count, [side, side, 1])?;
        fitting = fitting.min(time_fitting(rt, &mut session, boxes)?);
    }
    println!(rt; "{} {}", all.as_micros(), fitting.as_micros())?;
    Ok(())
}

fn measured(
    rt: &HostRuntime,
    boxes: &Boxes,
    word: &str,
    size: [u32; 3],
    number: u32,
) -> io::Result<u128> {
    match word {
        "first" => first(rt.alloc(), boxes, size, number),
        "pages" => pages(rt.alloc(), boxes, size, number),
        _ => times(rt, boxes, size, number),
    }
}

// Prints a number for each of the eight heuristics, and one for the best of all.
pub fn measure(rt: &HostRuntime, boxes: &Boxes, word: &str, size: [u32; 3]) -> io::Result<()> {
    for number in 0..9 {
        let answer = measured(rt, boxes, word, size, number)?;
        print!(rt; "{answer} ")?;
    }
    println!(rt; "")?;
    Ok(())
}

// How long a plan takes.
fn time_plan(rt: &HostRuntime, session: &Bins, bin: u32) -> io::Result<Duration> {
    let start = Instant::now(rt)?;
    let planned = session.cut_plan(&bin)?.is_some();
    let taken = start.elapsed(rt)?;
    Ok(if planned { taken } else { Duration::ZERO })
}

pub fn print_time(rt: &HostRuntime, session: &Bins, bin: u32) -> io::Result<()> {
    let mut best = Duration::MAX;
    for _run in 0..5 {
        best = best.min(time_plan(rt, session, bin)?);
    }
    println!(rt; "{}", best.as_micros())?;
    Ok(())
}
