//! Packings into sixteen bins and more, most of which a box passes over.

use super::{Answer, Bins, Rects, add_bin, pack_counted, plenty};
use rectangle_pack::{FitTests, Placement, RectToInsert, RectanglePackError};
use std::alloc::{AllocError, Allocator};
use std::process::Abort;
use tests_support::all_match;
use tests_support::each_request::End;
use tests_support::refusing::Refusing;
use tests_support::shapes::are_new;

// A number n of boxes that leave a strip, and the tests of the packing. The box that fills its bin
// makes one. Each that leaves a strip makes one in its bin, and one for the strip in each bin
// before, but for the first: 1 + 2 + .. + n in all. Each that fills a strip makes one, since the
// bins before have no section, and so does the last: n + 1.
const HUNDRED: (u32, u128) = (100, 1 + 5050 + 101);

const FEW: (u32, u128) = (14, 1 + 105 + 15);

fn boxes(count: u32) -> u32 {
    count.saturating_mul(2).saturating_add(2)
}

// A box and the bin that it goes into, in the order in which boxes go: one that fills its bin, some
// that leave a strip, as many that fill these strips, and one of one cell.
fn sized(count: u32, number: u32) -> (RectToInsert, u32) {
    if number == 0 {
        (RectToInsert::new(3, 2, 1), 0)
    } else if number <= count {
        (RectToInsert::new(2, 2, 1), number)
    } else if number <= count.saturating_mul(2) {
        (RectToInsert::new(1, 2, 1), number - count)
    } else {
        (RectToInsert::new(1, 1, 1), count.saturating_add(1))
    }
}

// Pushes each box alone under its number.
fn push_all<A: Allocator + Copy>(rects: &mut Rects<A>, count: u32) -> Result<(), AllocError> {
    for number in 0..boxes(count) {
        let (size, _) = sized(count, number);
        rects.push_rect(number, None, size)?;
    }
    Ok(())
}

fn add_all<A: Allocator + Copy>(
    alloc: A,
    bins: &mut Bins<A>,
    count: u32,
) -> Result<(), AllocError> {
    for id in 0..count.saturating_add(2) {
        add_bin(alloc, bins, id, [3, 2, 1])?;
    }
    Ok(())
}

fn is_in_its_bin(placed: &Placement<u32, u32>, count: u32, number: u32) -> bool {
    let (_, bin) = sized(count, number);
    placed.id == number && placed.bin == bin
}

// Whether each box is in its bin.
fn are_in_their_bins(placements: &[Placement<u32, u32>], count: u32) -> bool {
    all_match!(placements.iter(), 0..boxes(count), placed, number =>
        is_in_its_bin(placed, count, number))
}

// Where a request was refused, the bins are as they were new.
fn ends<A: Allocator + Copy>(
    rt: &impl Abort,
    answer: &Answer<A>,
    bins: &Bins<A>,
    tests: u128,
    case: (u32, u128),
) -> End {
    let (count, wanted) = case;
    match answer {
        Ok(packed) => {
            assert!(rt; are_in_their_bins(packed.placements(), count) && tests == wanted);
            End::Done
        }
        Err(error) => {
            assert!(rt; *error == RectanglePackError::OutOfMemory && are_new(bins));
            End::Refused
        }
    }
}

fn packs_into<A: Allocator + Copy>(
    rt: &impl Abort,
    alloc: A,
    rects: &Rects<A>,
    bins: &mut Bins<A>,
    case: (u32, u128),
) -> End {
    let mut tests = FitTests::new();
    let answer = pack_counted(alloc, rects, bins, &mut tests);
    ends(rt, &answer, bins, tests.count(), case)
}

fn packs_rects(
    rt: &impl Abort,
    alloc: Refusing,
    rects: &Rects<Refusing>,
    case: (u32, u128),
) -> End {
    let mut bins = Bins::new(alloc);
    match add_all(alloc, &mut bins, case.0) {
        Ok(()) => packs_into(rt, alloc, rects, &mut bins, case),
        Err(_) => End::Before,
    }
}

fn packs(rt: &impl Abort, alloc: Refusing, case: (u32, u128)) -> End {
    let mut rects = Rects::new(alloc);
    match push_all(&mut rects, case.0) {
        Ok(()) => packs_rects(rt, alloc, &rects, case),
        Err(_) => End::Before,
    }
}

/// Packs into sixteen bins.
pub fn packs_few(rt: &impl Abort, alloc: Refusing) -> End {
    packs(rt, alloc, FEW)
}

#[test]
fn a_hundred_bins(rt: HostRuntime) {
    assert!(rt; packs(&rt, plenty(&rt, rt.alloc()), HUNDRED) == End::Done);
}
