//! `Session::place_at`.

use super::{BIN, ONE_NEW_BIN, OTHER, State, TestSession, is_in, plenty};
use rectangle_pack::{PackedLocation, RectToInsert, SessionError, WidthHeightDepth};
use std::process::Abort;
use std::test::Fail;
use tests_support::each_request::{End, is_refused};
use tests_support::refusing::Refusing;

const KNOT: u32 = 7;

// In the middle of the sheet 10x10x1.
const MIDDLE: [u32; 6] = [4, 3, 0, 2, 2, 1];

// The sheet with the knot: what is left of it, right of it, below it and above it is free.
const PLACED: State = state!(
    [held!(BIN, [[0, 0, 0, 4, 10, 1], [6, 0, 0, 4, 10, 1], [4, 0, 0, 2, 3, 1], [4, 5, 0, 2, 5, 1]];
           100 = 96 + 4; 4 free, 1 placed)],
    [(0, KNOT, BIN, MIDDLE)], next 1);

// A cell in the middle of a bin 3x3x3, with a piece on each of its six sides.
const INNER: State = state!(
    [held!(BIN, [[0, 0, 0, 1, 3, 3], [2, 0, 0, 1, 3, 3], [1, 0, 0, 1, 1, 3], [1, 2, 0, 1, 1, 3],
                 [1, 1, 0, 1, 1, 1], [1, 1, 2, 1, 1, 1]];
           27 = 26 + 1; 6 free, 1 placed)],
    [(0, KNOT, BIN, [1, 1, 1, 1, 1, 1])], next 1);

// A box without cells parts the sheet.
const PARTED: State = state!(
    [held!(BIN, [[0, 0, 0, 4, 10, 1], [4, 0, 0, 6, 10, 1]]; 100 = 100 + 0; 2 free, 1 placed)],
    [(0, KNOT, BIN, [4, 0, 0, 0, 10, 1])], next 1);

fn at(place: [u32; 6]) -> PackedLocation {
    let [x, y, z, width, height, depth] = place;
    let size = WidthHeightDepth::from(RectToInsert::new(width, height, depth));
    PackedLocation::new(x, y, z, size)
}

fn place(session: &mut TestSession, location: [u32; 6]) -> Result<u64, SessionError> {
    session.place_at(BIN, KNOT, at(location))
}

// A new session with the bin of most scripts, of this size.
fn with_bin(alloc: Refusing, size: [u32; 3], first: u64) -> Result<TestSession, SessionError> {
    let [width, height, depth] = size;
    let mut session = TestSession::new(alloc, first);
    session.add_bin(BIN, width, height, depth)?;
    Ok(session)
}

// Places the box first of all, and is then in this state; where memory is refused, nothing changed.
fn places(rt: &impl Abort, alloc: Refusing) -> End {
    let Ok(mut session) = with_bin(alloc, [10, 10, 1], 0) else {
        return End::Before;
    };
    match place(&mut session, MIDDLE) {
        Ok(number) => {
            assert!(rt; number == 0 && is_in(&session, &PLACED));
            End::Done
        }
        Err(error) => {
            assert!(rt; error == SessionError::OutOfMemory && is_in(&session, &ONE_NEW_BIN));
            End::Refused
        }
    }
}

#[test]
fn in_the_middle(rt: HostRuntime) -> Result<(), Fail> {
    let refused = is_refused(rt.alloc(), |refusing| Ok(places(&rt, refusing)))?;
    assert!(rt; refused);
    Ok(())
}

#[test]
fn on_six_sides(rt: HostRuntime) -> Result<(), Fail> {
    let mut session = with_bin(plenty(&rt, rt.alloc()), [3, 3, 3], 0)?;
    assert!(rt; place(&mut session, [1, 1, 1, 1, 1, 1])? == 0 && is_in(&session, &INNER));
    Ok(())
}

#[test]
fn without_cells(rt: HostRuntime) -> Result<(), Fail> {
    let mut session = with_bin(plenty(&rt, rt.alloc()), [10, 10, 1], 0)?;
    assert!(rt; place(&mut session, [4, 0, 0, 0, 10, 1])? == 0 && is_in(&session, &PARTED));
    Ok(())
}

// Places that no free section holds: on the box, over its side, over free cells of three sections,
// and beyond the bin, with numbers that add up to more than 32 bits too.
const TAKEN: &[[u32; 6]] = &[
    MIDDLE,
    [5, 3, 0, 2, 2, 1],
    [0, 0, 0, 10, 3, 1],
    [0, 0, 0, 4, 10, 2],
    [u32::MAX, 0, 0, 2, 1, 1],
];

#[test]
fn where_it_is_not_free(rt: HostRuntime) -> Result<(), Fail> {
    let mut session = with_bin(plenty(&rt, rt.alloc()), [10, 10, 1], 0)?;
    place(&mut session, MIDDLE)?;
    for location in TAKEN {
        assert!(rt; place(&mut session, *location) == Err(SessionError::NotFree));
        assert!(rt; is_in(&session, &PLACED));
    }
    Ok(())
}

// An unknown bin comes before used up numbers, and these before a place that is not free.
#[test]
fn refusals_in_order(rt: HostRuntime) -> Result<(), Fail> {
    let mut session = with_bin(plenty(&rt, rt.alloc()), [10, 10, 1], u64::MAX)?;
    let beyond = at([10, 0, 0, 1, 1, 1]);
    assert!(rt; session.place_at(OTHER, KNOT, beyond) == Err(SessionError::UnknownBin));
    assert!(rt; session.place_at(BIN, KNOT, beyond) == Err(SessionError::NumbersUsedUp));
    Ok(())
}

// Its cells are free again once it is released.
#[test]
fn released(rt: HostRuntime) -> Result<(), Fail> {
    let mut session = with_bin(plenty(&rt, rt.alloc()), [10, 10, 1], 0)?;
    let number = place(&mut session, MIDDLE)?;
    session.release(number)?;
    assert!(rt; place(&mut session, MIDDLE)? == 1);
    Ok(())
}
