//! `Session::recut`.

use super::{
    BIN, Held, NEW, NOWHERE, ONE_NEW_BIN, State, TestSession, free_sections, is_in, plenty,
};
use rectangle_pack::{PackedLocation, RectToInsert, SessionError, WidthHeightDepth};
use std::process::Abort;
use std::test::Fail;
use tests_support::each_request::{End, is_refused};
use tests_support::refusing::Refusing;

const BOX: u32 = 7;

const WHOLE: [u32; 6] = [0, 0, 0, 10, 10, 1];

// A box in a corner of the sheet 10x10x1. What is right of it is one free section at first, and once
// the sheet is cut anew, what is above it.
const CORNER: [u32; 6] = [0, 0, 0, 4, 2, 1];

const PLACED: State = state!(
    [held!(BIN, [[4, 0, 0, 6, 10, 1], [0, 2, 0, 4, 8, 1]]; 100 = 92 + 8; 2 free, 1 placed)],
    [(0, BOX, BIN, CORNER)], next 1);

const RECUT: State = state!(
    [held!(BIN, [[0, 2, 0, 10, 8, 1], [4, 0, 0, 6, 2, 1]]; 100 = 92 + 8; 2 free, 1 placed)],
    [(0, BOX, BIN, CORNER)], next 1);

// A box with free cells on four sides: 4 cells beyond it right and below, 3 left and above. So the
// strip at the right is cut off first, over all of the sheet's height, then the one below, the one at
// the left and the one above. Two sections are 4 thick, of 24 and of 40 cells, and two are 3 thick, of
// 9 and of 18.
const MIDDLE: [u32; 6] = [3, 4, 0, 3, 3, 1];

const IN_ORDER: State = state!(
    [held!(BIN, [[0, 0, 0, 6, 4, 1], [6, 0, 0, 4, 10, 1], [3, 7, 0, 3, 3, 1], [0, 4, 0, 3, 6, 1]];
           100 = 91 + 9; 4 free, 1 placed)],
    [(0, BOX, BIN, MIDDLE)], next 1);

// A sheet 20x8x1 with a long box below two others, which leave no cell of their stretches free but
// one section 2 thick each: right of the long box 2x2, of the room 20x2, and between the others 2x6,
// of the room 4x6. That room is smaller, so the larger section stands first.
const LONG: [u32; 6] = [0, 0, 0, 18, 2, 1];

const POST: [u32; 6] = [0, 2, 0, 2, 6, 1];

const WIDE: [u32; 6] = [4, 2, 0, 16, 6, 1];

const BY_ROOM: State = state!(
    [held!(BIN, [[2, 2, 0, 2, 6, 1], [18, 0, 0, 2, 2, 1]]; 160 = 16 + 144; 2 free, 3 placed)],
    [(0, BOX, BIN, LONG), (1, BOX, BIN, POST), (2, BOX, BIN, WIDE)], next 3);

// The sheet is whole, and one number was given.
const EMPTIED: State = state!([NEW], [], next 1);

const REFILLED: State = state!(
    [held!(BIN, []; 100 = 0 + 100; 0 free, 1 placed)], [(1, BOX, BIN, WHOLE)], next 2);

// A box without cells parts the sheet, and does not once it is cut anew.
const EMPTY: [u32; 6] = [4, 0, 0, 0, 10, 1];

const UNPARTED: State = state!(
    [held!(BIN, [WHOLE]; 100 = 100 + 0; 1 free, 1 placed)], [(0, BOX, BIN, EMPTY)], next 1);

fn at(place: [u32; 6]) -> PackedLocation {
    let [x, y, z, width, height, depth] = place;
    let size = WidthHeightDepth::from(RectToInsert::new(width, height, depth));
    PackedLocation::new(x, y, z, size)
}

fn place(session: &mut TestSession, location: [u32; 6]) -> Result<u64, SessionError> {
    session.place_at(BIN, BOX, at(location))
}

// A new session with the bin of most scripts, in which this box is placed.
fn with_box(alloc: Refusing, location: [u32; 6]) -> Result<TestSession, SessionError> {
    let mut session = TestSession::new(alloc, 0);
    session.add_bin(BIN, 10, 10, 1)?;
    place(&mut session, location)?;
    Ok(session)
}

// Cuts the sheet anew, and is then in this state; where memory is refused, nothing changed.
fn recuts(rt: &impl Abort, alloc: Refusing) -> End {
    let Ok(mut session) = with_box(alloc, CORNER) else {
        return End::Before;
    };
    assert!(rt; is_in(&session, &PLACED));
    match session.recut(&BIN) {
        Ok(()) => {
            assert!(rt; is_in(&session, &RECUT));
            End::Done
        }
        Err(error) => {
            assert!(rt; error == SessionError::OutOfMemory && is_in(&session, &PLACED));
            End::Refused
        }
    }
}

#[test]
fn round_a_corner(rt: HostRuntime) -> Result<(), Fail> {
    let refused = is_refused(rt.alloc(), |refusing| Ok(recuts(&rt, refusing)))?;
    assert!(rt; refused);
    Ok(())
}

#[test]
fn the_thickest_first(rt: HostRuntime) -> Result<(), Fail> {
    let mut session = with_box(plenty(&rt, rt.alloc()), MIDDLE)?;
    session.recut(&BIN)?;
    assert!(rt; is_in(&session, &IN_ORDER));
    Ok(())
}

#[test]
fn of_equally_thick_ones_that_of_the_smallest_room_first(rt: HostRuntime) -> Result<(), Fail> {
    let mut session = TestSession::new(plenty(&rt, rt.alloc()), 0);
    session.add_bin(BIN, 20, 8, 1)?;
    place(&mut session, LONG)?;
    session.recut(&BIN)?;
    for location in [POST, WIDE] {
        place(&mut session, location)?;
    }
    session.recut(&BIN)?;
    assert!(rt; is_in(&session, &BY_ROOM));
    Ok(())
}

#[test]
fn after_a_release(rt: HostRuntime) -> Result<(), Fail> {
    let mut session = with_box(plenty(&rt, rt.alloc()), MIDDLE)?;
    session.release(0)?;
    assert!(rt; place(&mut session, WHOLE) == Err(SessionError::NotFree));
    session.recut(&BIN)?;
    assert!(rt; is_in(&session, &EMPTIED));
    assert!(rt; place(&mut session, WHOLE)? == 1 && is_in(&session, &REFILLED));
    session.recut(&BIN)?;
    assert!(rt; is_in(&session, &REFILLED));
    Ok(())
}

#[test]
fn round_a_box_without_cells(rt: HostRuntime) -> Result<(), Fail> {
    let mut session = with_box(plenty(&rt, rt.alloc()), EMPTY)?;
    assert!(rt; free_sections(&session).len() == 2);
    session.recut(&BIN)?;
    assert!(rt; is_in(&session, &UNPARTED));
    Ok(())
}

#[test]
fn unknown_bin(rt: HostRuntime) -> Result<(), Fail> {
    let mut session = TestSession::new(plenty(&rt, rt.alloc()), 0);
    session.add_bin(BIN, 10, 10, 1)?;
    assert!(rt; session.recut(&NOWHERE) == Err(SessionError::UnknownBin));
    assert!(rt; is_in(&session, &ONE_NEW_BIN));
    Ok(())
}

// The cells of a sheet 3x3x1: two of each box round the middle, and the one in it.
const CELLS: &[[u32; 2]] = &[
    [0, 0],
    [1, 0],
    [2, 0],
    [2, 1],
    [1, 2],
    [2, 2],
    [0, 1],
    [0, 2],
    [1, 1],
];

// Four boxes of two cells, round the one in the middle.
const LOW: [u32; 6] = [0, 0, 0, 2, 1, 1];

const RIGHT: [u32; 6] = [2, 0, 0, 1, 2, 1];

const HIGH: [u32; 6] = [1, 2, 0, 2, 1, 1];

const LEFT: [u32; 6] = [0, 1, 0, 1, 2, 1];

const INNER: [u32; 6] = [1, 1, 0, 1, 1, 1];

const JOINED: Held = Held {
    coalesced: true,
    ..held!(BIN, [LOW, RIGHT, HIGH, LEFT, INNER]; 9 = 9 + 0; 5 free, 0 placed)
};

const WINDMILL: State = state!([JOINED], [], next 9);

const FULL: Held = Held {
    coalesced: true,
    ..held!(BIN, [INNER]; 9 = 1 + 8; 1 free, 4 placed)
};

const UNCUT: State = state!(
    [FULL],
    [(9, BOX, BIN, LOW), (10, BOX, BIN, RIGHT),
     (11, BOX, BIN, HIGH), (12, BOX, BIN, LEFT)],
    next 13);

const WHOLE_AGAIN: Held = Held {
    coalesced: true,
    ..held!(BIN, [[0, 0, 0, 3, 3, 1]]; 9 = 9 + 0; 1 free, 0 placed)
};

const ONE_WHOLE: State = state!([WHOLE_AGAIN], [], next 9);

const CUT: Held = Held {
    coalesced: true,
    ..held!(BIN, [[0, 1, 0, 3, 2, 1], [2, 0, 0, 1, 1, 1]]; 9 = 7 + 2; 2 free, 1 placed)
};

const ONE_PLACED: State = state!([CUT], [(9, BOX, BIN, LOW)], next 10);

// A sheet without boxes whose free sections no straight cuts part: its cells were free one by one,
// and were joined two by two.
fn windmill(alloc: Refusing) -> Result<TestSession, SessionError> {
    let mut session = TestSession::new(alloc, 0);
    session.add_bin(BIN, 3, 3, 1)?;
    for [x, y] in CELLS {
        place(&mut session, [*x, *y, 0, 1, 1, 1])?;
    }
    for number in 0..9 {
        session.release(number)?;
    }
    for idx in 0..4usize {
        session.coalesce(&BIN, idx, idx..idx.wrapping_add(2))?;
    }
    Ok(session)
}

#[test]
fn after_a_sweep(rt: HostRuntime) -> Result<(), Fail> {
    let mut session = windmill(plenty(&rt, rt.alloc()))?;
    session.coalesce_all(&BIN)?;
    assert!(rt; is_in(&session, &WINDMILL));
    session.recut(&BIN)?;
    assert!(rt; is_in(&session, &ONE_WHOLE));
    Ok(())
}

#[test]
fn straight_cuts_come_back(rt: HostRuntime) -> Result<(), Fail> {
    let mut session = windmill(plenty(&rt, rt.alloc()))?;
    place(&mut session, LOW)?;
    assert!(rt; session.cut_plan(&BIN)?.is_none());
    session.recut(&BIN)?;
    assert!(rt; is_in(&session, &ONE_PLACED) && session.cut_plan(&BIN)?.is_some());
    Ok(())
}

#[test]
fn boxes_that_are_from_no_cuts(rt: HostRuntime) -> Result<(), Fail> {
    let mut session = windmill(plenty(&rt, rt.alloc()))?;
    for location in [LOW, RIGHT, HIGH, LEFT] {
        place(&mut session, location)?;
    }
    assert!(rt; session.recut(&BIN) == Err(SessionError::NotFromCuts));
    assert!(rt; is_in(&session, &UNCUT));
    Ok(())
}
