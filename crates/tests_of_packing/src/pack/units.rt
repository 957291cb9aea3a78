//! Boxes of one cell that fill their bins, packed by volume, and by the best of nine heuristics.

use super::{Answer, add_bin, pack_numbered, plenty};
use rectangle_pack::{Heuristic, Placement, RectanglePackError, pack_rects_best};
use std::alloc::AllocError;
use tests_support::all_match;
use tests_support::boxes::{Bins, Rects, push_units};
use tests_support::refusing::Refusing;
use tests_support::units::{Units, cases};

// All that have a name, and the first once more.
fn nine() -> [Heuristic; 9] {
    let [a, b, c, d, e, f, g, h] = Heuristic::ALL;
    [a, b, c, d, e, f, g, h, a]
}

// How boxes are packed.
#[derive(Clone, Copy)]
enum By {
    // By volume.
    Volume,
    // By the best of nine heuristics.
    Nine,
}

// With each heuristic the packing is the same, so the first is the best.
fn pack_best(alloc: Refusing, rects: &Rects, bins: &mut Bins) -> Answer<Refusing> {
    match pack_rects_best(alloc, rects, bins, &nine()) {
        Ok((Heuristic::Volume, packed)) => Ok(packed),
        Ok(_) => Err(RectanglePackError::NotEnoughBinSpace),
        Err(error) => Err(error),
    }
}

fn pack(alloc: Refusing, rects: &Rects, bins: &mut Bins, by: By) -> Answer<Refusing> {
    match by {
        By::Volume => pack_numbered(alloc, rects, bins),
        By::Nine => pack_best(alloc, rects, bins),
    }
}

// Whether each box is placed in its bin.
fn are_in_turn(placements: &[Placement<u32, u32>], units: &Units) -> bool {
    all_match!(placements.iter(), 0..units.boxes, placed, number =>
        placed.id == number && placed.bin == units.bin_of(number))
}

// Whether no cell of a bin is free.
fn are_full(bins: &Bins) -> bool {
    for bin in bins.values() {
        if !bin.available_bin_sections().is_empty() {
            return false;
        }
    }
    true
}

fn fill(alloc: Refusing, rects: &Rects, bins: &mut Bins, units: &Units, by: By) -> bool {
    match pack(alloc, rects, bins, by) {
        Ok(packed) => are_in_turn(packed.placements(), units) && are_full(bins),
        Err(_) => false,
    }
}

fn add_bins(alloc: Refusing, bins: &mut Bins, units: &Units) -> Result<(), AllocError> {
    for id in 0..units.bins {
        add_bin(alloc, bins, id, [units.width, units.height, 1])?;
    }
    Ok(())
}

// Whether the boxes fill new bins.
fn fill_new(alloc: Refusing, units: &Units, by: By) -> bool {
    let mut rects = Rects::new(alloc);
    let mut bins = Bins::new(alloc);
    push_units(&mut rects, units.boxes).is_ok()
        && add_bins(alloc, &mut bins, units).is_ok()
        && fill(alloc, &rects, &mut bins, units, by)
}

// All memory is given back.
#[test]
fn units_fill_their_bins(rt: HostRuntime) {
    let alloc = plenty(&rt, rt.alloc());
    for by in [By::Volume, By::Nine] {
        for units in cases() {
            let is_right = fill_new(alloc, units, by) && alloc.taken() == 0;
            assert!(rt; is_right, "{} bins of {} cells", units.bins, units.cells());
        }
    }
}
