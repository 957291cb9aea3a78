//! Packs twenty boxes with the best of the library's heuristics, and shows that no packer needs fewer
//! bins.
#![tactic(auto)]

use rectangle_pack::{
    GroupedRectsToPlace, Heuristic, PackedLocation, Placement, RectToInsert, RectanglePackOk,
    TargetBin, Turns, bins_used, least_bins, pack_rects_best, uses_fewest_bins,
};
use std::alloc::{AllocError, Global};
use std::collections::BTreeMap;
use std::io;

// How many bins there are, and how long each of their sides is.
const BINS: u32 = 12;

const SIDE: u32 = 10;

// Boxes with equal sides: how many, and how long a side is.
const BOXES: [(u32, u32); 2] = [(7, 6), (13, 4)];

type Boxes = GroupedRectsToPlace<u32, u32>;

type Bins = BTreeMap<u32, TargetBin>;

type Packed = RectanglePackOk<u32, u32>;

fn boxes(alloc: Global) -> Result<Boxes, AllocError> {
    let mut boxes = GroupedRectsToPlace::new(alloc);
    let mut id = 0u32;
    for (count, side) in BOXES {
        for _ in 0..count {
            boxes.push_rect(id, None, RectToInsert::new(side, side, side))?;
            id = id.saturating_add(1);
        }
    }
    Ok(boxes)
}

fn bins(alloc: Global) -> Result<Bins, AllocError> {
    let mut bins = BTreeMap::new(alloc);
    for id in 0..BINS {
        bins.insert(id, TargetBin::new(alloc, SIDE, SIDE, SIDE)?)?;
    }
    Ok(bins)
}

// Whether a box is longer than half of a bin, on each axis.
fn is_large(at: &PackedLocation) -> bool {
    at.width() > SIDE / 2 && at.height() > SIDE / 2 && at.depth() > SIDE / 2
}

fn large(placements: &[Placement<u32, u32>]) -> usize {
    placements
        .iter()
        .filter(|placed| is_large(&placed.location))
        .count()
}

fn print_packing(rt: &HostRuntime, packed: &Packed) -> io::Result<()> {
    let used = bins_used(rt.alloc(), packed.placements())?;
    let count = packed.placements().len();
    println!(rt; "{count} boxes are in {used} bins.")
}

fn print_bound(rt: &HostRuntime, packed: &Packed, least: Option<usize>) -> io::Result<()> {
    if !uses_fewest_bins(rt.alloc(), packed.placements(), least)? {
        return println!(rt; "It is not shown that these are the fewest.");
    }
    let large = large(packed.placements());
    println!(rt; "No packer needs fewer: of {large} boxes no two go into one bin,")?;
    println!(rt; "since each is longer than half of it on all three axes.")
}

fn main(rt: HostRuntime) -> io::Result<()> {
    let alloc = rt.alloc();
    let boxes = boxes(alloc)?;
    let mut bins = bins(alloc)?;
    let turns: BTreeMap<u32, Turns> = BTreeMap::new(alloc);
    let least = least_bins(alloc, &boxes, &bins, &turns)?;
    match pack_rects_best(alloc, &boxes, &mut bins, &Heuristic::ALL) {
        Ok((_, packed)) => {
            print_packing(&rt, &packed)?;
            print_bound(&rt, &packed, least)
        }
        Err(error) => println!(rt; "{error}"),
    }
}
