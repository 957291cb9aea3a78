//! Trials in lists of more than a thousand free sections, which stand in slots.

use rectangle_pack::{
    FitTests, PackedLocation, RectToInsert, TargetBin, contains_smallest_box, volume_heuristic,
};
use std::alloc::{AllocError, Global};
use std::test::Fail;
use tests_support::all_match;
use tests_support::combs::{BOXES, TESTS, box_of, comb, free_at, has_left, index_of};

// Whether each box stands at the section that it went into.
fn are_in_place(locations: &[PackedLocation]) -> bool {
    all_match!(locations.iter(), 0..BOXES, location, number =>
        location.x() == free_at(index_of(number)).x())
}

// All boxes, and one that is too wide.
fn members(alloc: Global) -> Result<Vec<RectToInsert>, AllocError> {
    let mut members = Vec::new(alloc);
    for number in 0..BOXES {
        members.push(box_of(number))?;
    }
    members.push(RectToInsert::new(3, 1, 1))?;
    Ok(members)
}

// Whether a trial of these takes `wanted` tests, and is done or leaves all sections.
fn tries(
    bin: &mut TargetBin,
    members: &[RectToInsert],
    wanted: u128,
    is_done: bool,
) -> Result<bool, AllocError> {
    let mut tests = FitTests::new();
    let placed = bin.place_all(
        members,
        &volume_heuristic,
        &contains_smallest_box,
        &mut tests,
    )?;
    let is_right = match placed {
        None => !is_done && has_left(bin, 0),
        Some(locations) => is_done && are_in_place(locations.as_slice()),
    };
    Ok(is_right && tests.count() == wanted)
}

// A trial that is stuck at its last member asks those that are left once more, and leaves all; one
// that is done leaves the other sections in their order.
fn tries_all(bin: &mut TargetBin, members: &mut Vec<RectToInsert>) -> Result<bool, AllocError> {
    let is_stuck = tries(bin, members.as_slice(), TESTS + 1100, false)?;
    members.truncate(BOXES as usize);
    let is_done = tries(bin, members.as_slice(), TESTS, true)?;
    Ok(is_stuck && is_done && has_left(bin, BOXES))
}

#[test]
fn trials_in_long_lists(rt: HostRuntime) -> Result<(), Fail> {
    let mut bin = comb(rt.alloc())?;
    let mut members = members(rt.alloc())?;
    assert!(rt; tries_all(&mut bin, &mut members)?);
    Ok(())
}
