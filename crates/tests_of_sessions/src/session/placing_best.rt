//! `Session::place_best`, by volume and smallest boxes.

use super::{BIN, NOWHERE, ONE_NEW_BIN, OTHER, State, TestSession, is_in, plenty};
use rectangle_pack::{
    PackedLocation, RectToInsert, SessionError, WidthHeightDepth, contains_smallest_box,
    volume_heuristic,
};
use std::process::Abort;
use std::test::Fail;
use tests_support::each_request::{End, is_refused};
use tests_support::refusing::Refusing;

const KNOT: u32 = 7;

const SHELF: u32 = 8;

// A knot parts the sheet 20x10x1. The box 6x4x1 leaves nothing beside it on the left of the knot,
// and 6 above; on the right, where the newest section is, it leaves 7 beside and 6 above.
const BEST_IS_OLDER: State = state!(
    [held!(BIN, [[7, 0, 0, 13, 10, 1], [0, 4, 0, 6, 6, 1]]; 200 = 166 + 34; 2 free, 2 placed)],
    [(0, KNOT, BIN, [6, 0, 0, 1, 10, 1]), (1, SHELF, BIN, [0, 0, 0, 6, 4, 1])], next 2);

// Two sections 6x10x1. The box 4x8x1 leaves 2 of each, and goes into the newest. The cut that has
// 20 and 8 cells is better than that with 16 and 12.
const NEWEST_OF_TWO: State = state!(
    [held!(BIN, [[0, 0, 0, 6, 10, 1], [11, 0, 0, 2, 10, 1], [7, 8, 0, 4, 2, 1]];
           130 = 88 + 42; 3 free, 2 placed)],
    [(0, KNOT, BIN, [6, 0, 0, 1, 10, 1]), (1, SHELF, BIN, [7, 0, 0, 4, 8, 1])], next 2);

// A shelf parts a bin 10x10x10 into 10x10x3 before it and 10x10x6 behind it. The box 9x8x3 leaves
// nothing of the first on z, and 1 of the second on x.
const DEPTH_COUNTS: State = state!(
    [held!(BIN, [[0, 0, 4, 10, 10, 6], [0, 8, 0, 10, 2, 3], [9, 0, 0, 1, 8, 3]];
           1000 = 684 + 316; 3 free, 2 placed)],
    [(0, KNOT, BIN, [0, 0, 3, 10, 10, 1]), (1, SHELF, BIN, [0, 0, 0, 9, 8, 3])], next 2);

// Of 20x20x1 the box 9x5x1 leaves 11, of 10x8x1 it leaves 1.
const LAST_BIN: State = state!(
    [held!(BIN, [[0, 0, 0, 20, 20, 1]]; 400 = 400 + 0; 1 free, 0 placed),
     held!(OTHER, [[0, 5, 0, 10, 3, 1], [9, 0, 0, 1, 5, 1]]; 80 = 35 + 45; 2 free, 1 placed)],
    [(0, SHELF, OTHER, [0, 0, 0, 9, 5, 1])], next 1);

const FIRST_BIN: State = state!(
    [held!(BIN, [[0, 5, 0, 10, 3, 1], [9, 0, 0, 1, 5, 1]]; 80 = 35 + 45; 2 free, 1 placed),
     held!(OTHER, [[0, 0, 0, 20, 20, 1]]; 400 = 400 + 0; 1 free, 0 placed)],
    [(0, SHELF, BIN, [0, 0, 0, 9, 5, 1])], next 1);

// Of two new bins 10x10x1 the box 9x8x1 leaves 1 each.
const FIRST_OF_TWO: State = state!(
    [held!(BIN, [[0, 8, 0, 10, 2, 1], [9, 0, 0, 1, 8, 1]]; 100 = 28 + 72; 2 free, 1 placed),
     held!(OTHER, [[0, 0, 0, 10, 10, 1]]; 100 = 100 + 0; 1 free, 0 placed)],
    [(0, SHELF, BIN, [0, 0, 0, 9, 8, 1])], next 1);

// The same, where the box 10x8x1 leaves nothing.
const FIRST_OF_TWO_FILLED: State = state!(
    [held!(BIN, [[0, 8, 0, 10, 2, 1]]; 100 = 20 + 80; 1 free, 1 placed),
     held!(OTHER, [[0, 0, 0, 10, 10, 1]]; 100 = 100 + 0; 1 free, 0 placed)],
    [(0, SHELF, BIN, [0, 0, 0, 10, 8, 1])], next 1);

// The box 9x5x1 goes into the bin that is named, though it fits another better.
const NAMED: State = state!(
    [held!(BIN, [[0, 0, 0, 10, 8, 1]]; 80 = 80 + 0; 1 free, 0 placed),
     held!(OTHER, [[0, 5, 0, 20, 15, 1], [9, 0, 0, 11, 5, 1]]; 400 = 355 + 45; 2 free, 1 placed)],
    [(0, SHELF, OTHER, [0, 0, 0, 9, 5, 1])], next 1);

// The sheet with the box 10x4x1.
const PLACED: State = state!(
    [held!(BIN, [[0, 4, 0, 10, 6, 1]]; 100 = 60 + 40; 1 free, 1 placed)],
    [(0, SHELF, BIN, [0, 0, 0, 10, 4, 1])], next 1);

// Places a box of this size, in the bin that is named or in any.
fn place(session: &mut TestSession, bin: Option<u32>, size: [u32; 3]) -> Result<u64, SessionError> {
    let [width, height, depth] = size;
    let size = RectToInsert::new(width, height, depth);
    let bin = bin.as_ref();
    session.place_best(bin, SHELF, size, &volume_heuristic, &contains_smallest_box)
}

// A new session with the bin of most scripts, of this size, and with the other where it is given.
fn with_bins(
    alloc: Refusing,
    first: u64,
    size: [u32; 3],
    other: Option<[u32; 3]>,
) -> Result<TestSession, SessionError> {
    let mut session = TestSession::new(alloc, first);
    let [width, height, depth] = size;
    session.add_bin(BIN, width, height, depth)?;
    if let Some(size) = other {
        let [width, height, depth] = size;
        session.add_bin(OTHER, width, height, depth)?;
    }
    Ok(session)
}

// A new session with one bin of this size, which is parted by a knot.
fn parted(
    alloc: Refusing,
    size: [u32; 3],
    knot: PackedLocation,
) -> Result<TestSession, SessionError> {
    let mut session = with_bins(alloc, 0, size, None)?;
    session.place_at(BIN, KNOT, knot)?;
    Ok(session)
}

#[test]
fn best_is_not_the_newest(rt: HostRuntime) -> Result<(), Fail> {
    let knot = PackedLocation::new(6, 0, 0, WidthHeightDepth::new(1, 10, 1));
    let mut session = parted(plenty(&rt, rt.alloc()), [20, 10, 1], knot)?;
    assert!(rt; place(&mut session, None, [6, 4, 1])? == 1 && is_in(&session, &BEST_IS_OLDER));
    Ok(())
}

#[test]
fn newest_of_equal_ones(rt: HostRuntime) -> Result<(), Fail> {
    let knot = PackedLocation::new(6, 0, 0, WidthHeightDepth::new(1, 10, 1));
    let mut session = parted(plenty(&rt, rt.alloc()), [13, 10, 1], knot)?;
    assert!(rt; place(&mut session, Some(BIN), [4, 8, 1])? == 1);
    assert!(rt; is_in(&session, &NEWEST_OF_TWO));
    Ok(())
}

#[test]
fn depth_counts_where_there_is_some(rt: HostRuntime) -> Result<(), Fail> {
    let shelf = PackedLocation::new(0, 0, 3, WidthHeightDepth::new(10, 10, 1));
    let mut session = parted(plenty(&rt, rt.alloc()), [10, 10, 10], shelf)?;
    assert!(rt; place(&mut session, None, [9, 8, 3])? == 1 && is_in(&session, &DEPTH_COUNTS));
    Ok(())
}

// The sizes of two bins, a box, whether the other bin is named, and the state afterwards.
type InTwoBins = ([u32; 3], [u32; 3], [u32; 3], Option<u32>, State);

const IN_TWO_BINS: &[InTwoBins] = &[
    ([20, 20, 1], [10, 8, 1], [9, 5, 1], None, LAST_BIN),
    ([10, 8, 1], [20, 20, 1], [9, 5, 1], None, FIRST_BIN),
    ([10, 10, 1], [10, 10, 1], [9, 8, 1], None, FIRST_OF_TWO),
    (
        [10, 10, 1],
        [10, 10, 1],
        [10, 8, 1],
        None,
        FIRST_OF_TWO_FILLED,
    ),
    ([10, 8, 1], [20, 20, 1], [9, 5, 1], Some(OTHER), NAMED),
];

#[test]
fn in_two_bins(rt: HostRuntime) -> Result<(), Fail> {
    for (size, other, rect, named, after) in IN_TWO_BINS {
        let alloc = plenty(&rt, rt.alloc());
        let mut session = with_bins(alloc, 0, *size, Some(*other))?;
        assert!(rt; place(&mut session, *named, *rect)? == 0 && is_in(&session, after));
    }
    Ok(())
}

// Places the box first of all, and is then in this state; where memory is refused, nothing changed.
fn places(rt: &impl Abort, alloc: Refusing) -> End {
    let Ok(mut session) = with_bins(alloc, 0, [10, 10, 1], None) else {
        return End::Before;
    };
    match place(&mut session, None, [10, 4, 1]) {
        Ok(number) => {
            assert!(rt; number == 0 && is_in(&session, &PLACED));
            End::Done
        }
        Err(error) => {
            assert!(rt; error == SessionError::OutOfMemory && is_in(&session, &ONE_NEW_BIN));
            End::Refused
        }
    }
}

#[test]
fn each_request_refused(rt: HostRuntime) -> Result<(), Fail> {
    let refused = is_refused(rt.alloc(), |refusing| Ok(places(&rt, refusing)))?;
    assert!(rt; refused);
    Ok(())
}

// Bins that are named, and boxes that they do not hold: too wide, too high and too deep, and one
// that only the other bin holds.
const TOO_LARGE: &[(Option<u32>, [u32; 3])] = &[
    (None, [21, 1, 1]),
    (None, [1, 21, 1]),
    (None, [1, 1, 2]),
    (None, [u32::MAX, u32::MAX, u32::MAX]),
    (Some(BIN), [11, 1, 1]),
    (Some(BIN), [9, 9, 1]),
];

const TWO_NEW_BINS: State = state!(
    [held!(BIN, [[0, 0, 0, 10, 8, 1]]; 80 = 80 + 0; 1 free, 0 placed),
     held!(OTHER, [[0, 0, 0, 20, 20, 1]]; 400 = 400 + 0; 1 free, 0 placed)],
    [], next 0);

#[test]
fn boxes_that_no_section_holds(rt: HostRuntime) -> Result<(), Fail> {
    let alloc = plenty(&rt, rt.alloc());
    let mut session = with_bins(alloc, 0, [10, 8, 1], Some([20, 20, 1]))?;
    for (named, size) in TOO_LARGE {
        let answer = place(&mut session, *named, *size);
        assert!(rt; answer == Err(SessionError::NotEnoughBinSpace));
        assert!(rt; is_in(&session, &TWO_NEW_BINS));
    }
    Ok(())
}

#[test]
fn without_bins(rt: HostRuntime) -> Result<(), Fail> {
    let mut session = TestSession::new(plenty(&rt, rt.alloc()), 0);
    let answer = place(&mut session, None, [1, 1, 1]);
    assert!(rt; answer == Err(SessionError::NotEnoughBinSpace));
    Ok(())
}

// An unknown bin comes before used up numbers, and these before a box that is too large.
#[test]
fn refusals_in_order(rt: HostRuntime) -> Result<(), Fail> {
    let mut session = with_bins(plenty(&rt, rt.alloc()), u64::MAX, [10, 10, 1], None)?;
    let large = [11, 1, 1];
    assert!(rt; place(&mut session, Some(NOWHERE), large) == Err(SessionError::UnknownBin));
    assert!(rt; place(&mut session, Some(BIN), large) == Err(SessionError::NumbersUsedUp));
    assert!(rt; place(&mut session, None, large) == Err(SessionError::NumbersUsedUp));
    Ok(())
}

// Its cells are free again once it is released.
#[test]
fn released(rt: HostRuntime) -> Result<(), Fail> {
    let mut session = with_bins(plenty(&rt, rt.alloc()), 0, [10, 10, 1], None)?;
    let number = place(&mut session, None, [10, 10, 1])?;
    assert!(rt; place(&mut session, None, [1, 1, 1]) == Err(SessionError::NotEnoughBinSpace));
    session.release(number)?;
    assert!(rt; place(&mut session, Some(BIN), [10, 10, 1])? == 1);
    Ok(())
}
