//! Answers of packings, compared.

use super::{Answer, Bins, Packed, Rects, add_bin, pack_numbered};
use rectangle_pack::{RectToInsert, RectanglePackError, TargetBin};
use std::alloc::{AllocError, Global};
use tests_support::shapes::{named, section};

// A box 4x4x1 in each of these groups.
fn push(alloc: Global, rects: &mut Rects<Global>, groups: &[u32]) -> Result<(), AllocError> {
    rects.push_rect(1, named(alloc, groups)?, RectToInsert::new(4, 4, 1))
}

// The box in each of these groups, packed into the bins.
fn pack_box(alloc: Global, groups: &[u32], bins: &mut Bins<Global>) -> Answer<Global> {
    let mut rects = Rects::new(alloc);
    match push(alloc, &mut rects, groups) {
        Ok(()) => pack_numbered(alloc, &rects, bins),
        Err(_) => Err(RectanglePackError::OutOfMemory),
    }
}

// The box goes into a new bin twice, and is found at its second place, beside the first.
fn pack_twice(alloc: Global) -> Answer<Global> {
    let mut bins = Bins::new(alloc);
    match add_bin(alloc, &mut bins, 0, [8, 8, 1]) {
        Ok(()) => pack_box(alloc, &[0, 1], &mut bins),
        Err(_) => Err(RectanglePackError::OutOfMemory),
    }
}

// Adds a bin 8x8x1 of which that place alone is free.
fn add_one_place(alloc: Global, bins: &mut Bins<Global>) -> Result<(), AllocError> {
    let mut bin = TargetBin::new(alloc, 8, 8, 1)?;
    bin.remove_filled_section(0);
    let place = section(4, 0, 0, 4, 4, 1);
    if bin.push_available_bin_section(place).is_err() {
        return Err(AllocError);
    }
    bins.insert(0, bin)?;
    Ok(())
}

// It goes once into a bin of which that place alone is free.
fn pack_once(alloc: Global) -> Answer<Global> {
    let mut bins = Bins::new(alloc);
    match add_one_place(alloc, &mut bins) {
        Ok(()) => pack_box(alloc, &[0], &mut bins),
        Err(_) => Err(RectanglePackError::OutOfMemory),
    }
}

// Whether the two find the box at the same place, and yet are not equal, since it is placed twice
// in one of them.
fn differ_by_placements(twice: &Packed<Global>, once: &Packed<Global>) -> bool {
    twice.placements().len() == 2
        && once.placements().len() == 1
        && twice.packed_locations() == once.packed_locations()
        && twice != once
}

fn are_different(twice: &Answer<Global>, once: &Answer<Global>) -> bool {
    match (twice, once) {
        (Ok(twice), Ok(once)) => differ_by_placements(twice, once),
        _ => false,
    }
}

#[test]
fn answers_differ_by_their_placements(rt: HostRuntime) {
    let twice = pack_twice(rt.alloc());
    let once = pack_once(rt.alloc());
    assert!(rt; are_different(&twice, &once));
}
