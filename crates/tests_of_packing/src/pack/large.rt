//! Packings past small sizes: fifty bins, and fifty pairs of groups.

use super::{Answer, Bins, Rects, add_bin, pack_numbered};
use rectangle_pack::{Group, Placement, RectToInsert, RectanglePackError};
use std::alloc::{AllocError, Global};
use tests_support::all_match;
use tests_support::boxes::push_units;
use tests_support::shapes::named;

const COUNT: u32 = 50;

fn add_cells(alloc: Global, bins: &mut Bins<Global>) -> Result<(), AllocError> {
    for id in 0..COUNT {
        add_bin(alloc, bins, id, [1, 1, 1])?;
    }
    Ok(())
}

// Whether `count` boxes are placed in the order of their numbers, each in the bin of its number,
// but those of greater numbers in the last bin.
fn are_in_turn(placements: &[Placement<u32, u32>], count: u32, last: u32) -> bool {
    all_match!(placements.iter(), 0..count, placed, number =>
        placed.id == number && placed.bin == number.min(last))
}

// Packs as many boxes of one cell.
fn pack_cells(alloc: Global, bins: &mut Bins<Global>) -> Answer<Global> {
    let mut rects = Rects::new(alloc);
    match push_units(&mut rects, COUNT) {
        Ok(()) => pack_numbered(alloc, &rects, bins),
        Err(_) => Err(RectanglePackError::OutOfMemory),
    }
}

// Whether each is placed in the bin of its number.
fn fill_cells(alloc: Global, bins: &mut Bins<Global>) -> bool {
    match pack_cells(alloc, bins) {
        Ok(packed) => are_in_turn(packed.placements(), COUNT, COUNT),
        Err(_) => false,
    }
}

// Each bin holds one cell, and there are as many boxes of one cell.
#[test]
fn fifty_bins(rt: HostRuntime) {
    let mut bins = Bins::new(rt.alloc());
    assert!(rt; add_cells(rt.alloc(), &mut bins).is_ok());
    assert!(rt; fill_cells(rt.alloc(), &mut bins));
}

// Excludes group 0 and another one.
fn exclude(rects: &mut Rects<Global>, other: u32) -> Result<(), AllocError> {
    let (zero, other) = (Group::Grouped(0), Group::Grouped(other));
    if zero == other {
        return Ok(());
    }
    rects.exclude(zero, other)
}

// Group 0 goes first, since its box is the largest. Each of fifty others is excluded with it.
fn push_apart(alloc: Global, rects: &mut Rects<Global>) -> Result<(), AllocError> {
    rects.push_rect(0, named(alloc, &[0])?, RectToInsert::new(2, 1, 1))?;
    for id in 1..=COUNT {
        rects.push_rect(id, named(alloc, &[id])?, RectToInsert::new(1, 1, 1))?;
        exclude(rects, id)?;
    }
    Ok(())
}

fn are_excluded(rects: &Rects<Global>) -> bool {
    for id in 1..=COUNT {
        if !rects.excluded(&Group::Grouped(id), &Group::Grouped(0)) {
            return false;
        }
    }
    true
}

// Either bin has room for all.
fn add_two(alloc: Global, bins: &mut Bins<Global>) -> Result<(), AllocError> {
    add_bin(alloc, bins, 0, [52, 1, 1])?;
    add_bin(alloc, bins, 1, [53, 1, 1])
}

// Whether box 0 alone is in the first bin.
fn are_apart(alloc: Global, rects: &Rects<Global>, bins: &mut Bins<Global>) -> bool {
    match pack_numbered(alloc, rects, bins) {
        Ok(packed) => are_in_turn(packed.placements(), COUNT + 1, 1),
        Err(_) => false,
    }
}

fn pack_apart(alloc: Global, rects: &Rects<Global>) -> bool {
    let mut bins = Bins::new(alloc);
    add_two(alloc, &mut bins).is_ok() && are_apart(alloc, rects, &mut bins)
}

// Box 0 alone is in the first bin.
#[test]
fn fifty_pairs(rt: HostRuntime) {
    let mut rects = Rects::new(rt.alloc());
    assert!(rt; push_apart(rt.alloc(), &mut rects).is_ok() && are_excluded(&rects));
    assert!(rt; pack_apart(rt.alloc(), &rects));
}
