//! `Session::release_all`.

use super::{BIN, Held, NEW, OTHER, PlacedBox, State, TestSession, has_free, is_in, plenty};
use rectangle_pack::{PackedLocation, RectToInsert, SessionError, WidthHeightDepth};
use std::process::Abort;
use std::test::Fail;
use tests_support::each_request::{End, is_refused};
use tests_support::refusing::Refusing;

// Two boxes fill the first bin, and one the second, where one without cells stands too.
const P: PlacedBox = (0, 10, BIN, [0, 0, 0, 4, 10, 1]);

const EMPTY: PlacedBox = (1, 11, OTHER, [0, 0, 0, 0, 10, 1]);

const R: PlacedBox = (2, 12, OTHER, [0, 0, 0, 10, 10, 1]);

const Q: PlacedBox = (3, 13, BIN, [4, 0, 0, 6, 10, 1]);

const FULL: Held = held!(BIN, []; 100 = 0 + 100; 0 free, 2 placed);

const OTHER_FULL: Held = held!(OTHER, []; 100 = 0 + 100; 0 free, 2 placed);

const OTHER_NEW: Held = Held { id: OTHER, ..NEW };

// The first bin with both boxes given back, that of `P` first.
const P_FIRST: Held =
    held!(BIN, [[0, 0, 0, 4, 10, 1], [4, 0, 0, 6, 10, 1]]; 100 = 100 + 0; 2 free, 0 placed);

// And that of `Q` first.
const Q_FIRST: Held =
    held!(BIN, [[4, 0, 0, 6, 10, 1], [0, 0, 0, 4, 10, 1]]; 100 = 100 + 0; 2 free, 0 placed);

const FILLED: State = state!([FULL, OTHER_FULL], [P, EMPTY, R, Q], next 4);

fn place(session: &mut TestSession, placed: PlacedBox) -> Result<(), SessionError> {
    let (_, id, bin, [x, y, z, width, height, depth]) = placed;
    let size = WidthHeightDepth::from(RectToInsert::new(width, height, depth));
    session.place_at(bin, id, PackedLocation::new(x, y, z, size))?;
    Ok(())
}

fn filled(alloc: Refusing) -> Result<TestSession, SessionError> {
    let mut session = TestSession::new(alloc, 0);
    session.add_bin(BIN, 10, 10, 1)?;
    session.add_bin(OTHER, 10, 10, 1)?;
    for placed in [P, EMPTY, R, Q] {
        place(&mut session, placed)?;
    }
    Ok(session)
}

// What becomes of the filled bins: the numbers that are released, and the state then.
const RELEASES: &[(&[u64], State)] = &[
    (&[], FILLED),
    (
        &[1],
        state!([FULL, Held { counts: [0, 1], ..OTHER_FULL }], [P, R, Q], next 4),
    ),
    (&[0, 3], state!([P_FIRST, OTHER_FULL], [EMPTY, R], next 4)),
    (
        &[3, 1, 0],
        state!([Q_FIRST, Held { counts: [0, 1], ..OTHER_FULL }], [R], next 4),
    ),
    (
        &[3, 2, 0],
        state!([Q_FIRST,
            Held { counts: [1, 1], ..OTHER_NEW }],
        [EMPTY], next 4),
    ),
    (&[2, 0, 1, 3], state!([P_FIRST, OTHER_NEW], [], next 4)),
];

#[test]
fn in_the_order_of_the_list(rt: HostRuntime) -> Result<(), Fail> {
    let plenty = plenty(&rt, rt.alloc());
    for (numbers, after) in RELEASES {
        let mut session = filled(plenty)?;
        session.release_all(numbers)?;
        assert!(rt; is_in(&session, after));
    }
    assert!(rt; plenty.taken() == 0);
    Ok(())
}

// The same as releases one by one.
#[test]
fn one_by_one(rt: HostRuntime) -> Result<(), Fail> {
    for (numbers, after) in RELEASES {
        let mut session = filled(plenty(&rt, rt.alloc()))?;
        for number in *numbers {
            session.release(*number)?;
        }
        assert!(rt; is_in(&session, after));
    }
    Ok(())
}

// Numbers of which one is not outstanding, or stands twice.
const REFUSED: &[&[u64]] = &[
    &[4],
    &[0, 4],
    &[3, u64::MAX, 0],
    &[0, 0],
    &[1, 2, 1],
    &[3, 2, 1, 0, 3],
];

#[test]
fn refusals(rt: HostRuntime) -> Result<(), Fail> {
    let mut session = filled(plenty(&rt, rt.alloc()))?;
    for numbers in REFUSED {
        assert!(rt; session.release_all(numbers) == Err(SessionError::UnknownPlacement));
        assert!(rt; is_in(&session, &FILLED));
    }
    session.release_all(&[1, 0])?;
    assert!(rt; session.release_all(&[3, 0]) == Err(SessionError::UnknownPlacement));
    assert!(rt; session.release_all(&[3, 2]).is_ok());
    assert!(rt; session.outstanding().is_empty());
    Ok(())
}

// Nothing is left to give back, and no memory is asked for.
#[test]
fn no_numbers(rt: HostRuntime) -> Result<(), Fail> {
    let refusing = Refusing::new(rt.alloc(), 0)?;
    let mut session = TestSession::new(refusing, 0);
    assert!(rt; session.release_all(&[]).is_ok());
    assert!(rt; session.release_all(&[0]) == Err(SessionError::UnknownPlacement));
    assert!(rt; refusing.refused() == 0);
    Ok(())
}

// The numbers of the boxes in two strips of nine cells, which fill all but the last of each. The
// first strip has the even ones.
const NUMBERS: [u64; 16] = [10, 11, 0, 1, 14, 15, 6, 7, 2, 3, 12, 13, 4, 5, 8, 9];

const LAST: [u32; 6] = [8, 0, 0, 1, 1, 1];

// The last cell was free before, and the others follow it.
const FREE: [[u32; 6]; 9] = [
    LAST,
    [5, 0, 0, 1, 1, 1],
    [0, 0, 0, 1, 1, 1],
    [7, 0, 0, 1, 1, 1],
    [3, 0, 0, 1, 1, 1],
    [1, 0, 0, 1, 1, 1],
    [6, 0, 0, 1, 1, 1],
    [2, 0, 0, 1, 1, 1],
    [4, 0, 0, 1, 1, 1],
];

fn strips(alloc: Refusing) -> Result<TestSession, SessionError> {
    let mut session = TestSession::new(alloc, 0);
    session.add_bin(BIN, 9, 1, 1)?;
    session.add_bin(OTHER, 9, 1, 1)?;
    for x in 0..8u32 {
        for bin in [BIN, OTHER] {
            place(&mut session, (0, x, bin, [x, 0, 0, 1, 1, 1]))?;
        }
    }
    Ok(session)
}

// Releases all boxes of the strips. Where memory is refused, nothing changed.
fn empties_strips(rt: &impl Abort, alloc: Refusing) -> End {
    let Ok(mut session) = strips(alloc) else {
        return End::Before;
    };
    match session.release_all(&NUMBERS) {
        Ok(()) => {
            assert!(rt; session.outstanding().is_empty());
            assert!(rt; has_free(&session, BIN, &FREE) && has_free(&session, OTHER, &FREE));
            End::Done
        }
        Err(error) => {
            assert!(rt; error == SessionError::OutOfMemory);
            assert!(rt; session.outstanding().len() == NUMBERS.len());
            assert!(rt; has_free(&session, BIN, &[LAST]) && has_free(&session, OTHER, &[LAST]));
            End::Refused
        }
    }
}

#[test]
fn strips_of_boxes(rt: HostRuntime) -> Result<(), Fail> {
    let refused = is_refused(rt.alloc(), |refusing| Ok(empties_strips(&rt, refusing)))?;
    assert!(rt; refused);
    Ok(())
}
