//! `Session::pack_searched`.

use super::best::{FIRST, is_unused};
use super::fitting::with_bins;
use super::{TestSession, plenty};
use rectangle_pack::{Packed, SearchOptions, SessionError, Turns};
use std::alloc::AllocError;
use std::collections::BTreeMap;
use std::process::Abort;
use std::test::Fail;
use tests_support::boxes::{Rects, SizedBin, SizedBox, collect};
use tests_support::each_request::{End, is_refused};
use tests_support::refusing::Refusing;

// A box that stands, of 9 x 2, and one of the bin's width.
const BOXES: &[SizedBox] = &[(1, [9, 2, 1], &[]), (2, [1, 9, 1], &[])];

const STANDING: &[SizedBin] = &[(0, [3, 9, 1], &[])];

type Turning = BTreeMap<u32, Turns, Refusing>;

// Box 1 may be turned about z.
fn turning(alloc: Refusing) -> Result<Turning, AllocError> {
    let mut turns = BTreeMap::new(alloc);
    let about_z = Turns {
        about_x: false,
        about_y: false,
        about_z: true,
    };
    turns.insert(1, about_z)?;
    Ok(turns)
}

// What is packed and how many groups are left, in 200 tries.
fn search(
    alloc: Refusing,
    session: &mut TestSession,
    rects: &Rects,
    turns: &Turning,
    may_leave: bool,
) -> Result<(Packed, usize), SessionError> {
    let costs = BTreeMap::new(alloc);
    let options = SearchOptions {
        tries: 200,
        seed: 1,
        may_leave,
        turns,
        costs: &costs,
    };
    let found = session.pack_searched(rects, &options, |_| true)?;
    Ok((found.packed, found.left.len()))
}

// Both boxes find space, where the first is turned.
#[test]
fn boxes_get_the_next_numbers(rt: HostRuntime) -> Result<(), Fail> {
    let alloc = plenty(&rt, rt.alloc());
    let rects = collect(alloc, BOXES, &[])?;
    let turns = turning(alloc)?;
    let mut session = with_bins(alloc, 5, STANDING)?;
    let (packed, left) = search(alloc, &mut session, &rects, &turns, false)?;
    assert!(rt; packed == Packed { first: 5, count: 2 } && left == 0);
    assert!(rt; session.next_number() == 7 && session.outstanding().len() == 2);
    for placed in session.outstanding() {
        assert!(rt; placed.location.height() == 9);
    }
    Ok(())
}

// As it is the first finds none: then it is left, or nothing is packed.
#[test]
fn boxes_that_find_no_space(rt: HostRuntime) -> Result<(), Fail> {
    let alloc = plenty(&rt, rt.alloc());
    let rects = collect(alloc, BOXES, &[])?;
    let none = BTreeMap::new(alloc);
    let mut session = with_bins(alloc, FIRST, STANDING)?;
    let refused = search(alloc, &mut session, &rects, &none, false);
    assert!(rt; matches!(refused, Err(SessionError::NotEnoughBinSpace)) && is_unused(&session));
    let (packed, left) = search(alloc, &mut session, &rects, &none, true)?;
    assert!(rt; packed.count == 1 && left == 1);
    Ok(())
}

// The entries of all groups are counted, also of those that would be left.
#[test]
fn numbers_are_asked_for_all(rt: HostRuntime) -> Result<(), Fail> {
    let alloc = plenty(&rt, rt.alloc());
    let rects = collect(alloc, BOXES, &[])?;
    let none = BTreeMap::new(alloc);
    let mut session = with_bins(alloc, u64::MAX - 1, STANDING)?;
    let answer = search(alloc, &mut session, &rects, &none, true);
    assert!(rt; matches!(answer, Err(SessionError::NumbersUsedUp)));
    assert!(rt; session.outstanding().is_empty() && session.next_number() == u64::MAX - 1);
    Ok(())
}

// Searches, each request for memory refused in turn: then the session is as it was.
fn searches(rt: &impl Abort, alloc: Refusing) -> End {
    let (Ok(rects), Ok(turns)) = (collect(alloc, BOXES, &[]), turning(alloc)) else {
        return End::Before;
    };
    let Ok(mut session) = with_bins(alloc, FIRST, STANDING) else {
        return End::Before;
    };
    match search(alloc, &mut session, &rects, &turns, false) {
        Ok((packed, left)) => {
            assert!(rt; packed.count == 2 && left == 0);
            End::Done
        }
        Err(error) => {
            assert!(rt; matches!(error, SessionError::OutOfMemory) && is_unused(&session));
            End::Refused
        }
    }
}

#[test]
fn memory_is_refused(rt: HostRuntime) -> Result<(), Fail> {
    assert!(rt; is_refused(rt.alloc(), |refusing| Ok(searches(&rt, refusing)))?);
    Ok(())
}
