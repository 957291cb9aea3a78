//! Packings into lists of more than a thousand free sections, which stand in slots.

use super::{Answer, Bins, Rects, pack_counted};
use rectangle_pack::{FitTests, Placement, RectToInsert, RectanglePackError};
use std::alloc::{AllocError, Allocator};
use std::process::Abort;
use tests_support::all_match;
use tests_support::combs::{BOXES, TESTS, WIDE_BOXES, box_of, comb, free_at, has_left, index_of};
use tests_support::each_request::End;
use tests_support::refusing::Refusing;

// Pushes each box alone under its number.
fn push_all<A: Allocator + Copy>(rects: &mut Rects<A>) -> Result<(), AllocError> {
    for number in 0..BOXES {
        rects.push_rect(number, None, box_of(number))?;
    }
    Ok(())
}

// Pushes all boxes. One that is too tall has as many cells as a wide one, and so comes after the
// wide ones.
fn push_boxes<A: Allocator + Copy>(rects: &mut Rects<A>, too_tall: bool) -> Result<(), AllocError> {
    push_all(rects)?;
    if too_tall {
        rects.push_rect(BOXES, None, RectToInsert::new(1, 2, 1))?;
    }
    Ok(())
}

// The wide boxes' tests, and those of the box that is too tall in the sections that are left.
const REFUSED_TESTS: u128 = 4955 + 1190;

fn add_comb<A: Allocator + Copy>(alloc: A, bins: &mut Bins<A>) -> Result<(), AllocError> {
    bins.insert(0, comb(alloc)?)?;
    Ok(())
}

// Whether the box of this number stands at the section that it went into.
fn is_in_place(placed: &Placement<u32, u32>, number: u32) -> bool {
    placed.id == number && placed.location.x() == free_at(index_of(number)).x()
}

// Whether each box stands at the section that it went into.
fn are_in_place(placements: &[Placement<u32, u32>]) -> bool {
    all_match!(placements.iter(), 0..BOXES, placed, number => is_in_place(placed, number))
}

// Whether the bin has the sections that `placed` boxes left.
fn has_left_in<A: Allocator + Copy>(bins: &Bins<A>, placed: u32) -> bool {
    match bins.get(&0) {
        Some(bin) => has_left(bin, placed),
        None => false,
    }
}

// Whether the answer is as it has to be, after `tests` tests: where a box finds no space, those
// before it stay; where memory is refused, all sections do.
fn is_right<A: Allocator + Copy>(
    answer: &Answer<A>,
    bins: &Bins<A>,
    too_tall: bool,
    tests: u128,
) -> bool {
    match answer {
        Ok(packed) => {
            !too_tall
                && tests == TESTS
                && are_in_place(packed.placements())
                && has_left_in(bins, BOXES)
        }
        Err(RectanglePackError::NotEnoughBinSpace) => {
            too_tall && tests == REFUSED_TESTS && has_left_in(bins, WIDE_BOXES)
        }
        Err(RectanglePackError::OutOfMemory) => has_left_in(bins, 0),
    }
}

fn end_of<A: Allocator + Copy>(answer: &Answer<A>) -> End {
    match answer {
        Err(RectanglePackError::OutOfMemory) => End::Refused,
        _ => End::Done,
    }
}

fn packs_into<A: Allocator + Copy>(
    rt: &impl Abort,
    alloc: A,
    rects: &Rects<A>,
    bins: &mut Bins<A>,
    too_tall: bool,
) -> End {
    let mut tests = FitTests::new();
    let answer = pack_counted(alloc, rects, bins, &mut tests);
    assert!(rt; is_right(&answer, bins, too_tall, tests.count()));
    end_of(&answer)
}

// Packs these boxes into a new bin.
fn packs_rects(rt: &impl Abort, alloc: Refusing, rects: &Rects<Refusing>, too_tall: bool) -> End {
    let mut bins = Bins::new(alloc);
    match add_comb(alloc, &mut bins) {
        Ok(()) => packs_into(rt, alloc, rects, &mut bins, too_tall),
        Err(_) => End::Before,
    }
}

/// Packs all boxes.
pub fn packs(rt: &impl Abort, alloc: Refusing, too_tall: bool) -> End {
    let mut rects = Rects::new(alloc);
    match push_boxes(&mut rects, too_tall) {
        Ok(()) => packs_rects(rt, alloc, &rects, too_tall),
        Err(_) => End::Before,
    }
}
