//! `Session::pack_fitting` and `Session::pack_fitting_best`.

use super::best::{FIRST, are_placed, is_unused};
use super::{TestSession, has_free, plenty};
use rectangle_pack::{
    Fitted, Heuristic, Packed, SessionError, contains_smallest_box, volume_heuristic,
};
use std::process::Abort;
use std::test::Fail;
use tests_support::best_cases::{BIN, Placed};
use tests_support::boxes::{GroupName, Rects, SizedBin, SizedBox, collect};
use tests_support::each_request::{End, is_refused};
use tests_support::fit_cases::{BestFit, FitCase, are_left, best_fits, fit_cases};
use tests_support::refusing::Refusing;

/// What fits of boxes by numbers.
pub type FittedNumbers<'a> = Fitted<'a, Packed, GroupName, Refusing>;

/// A session with these bins, each new.
pub fn with_bins(
    alloc: Refusing,
    first: u64,
    bins: &[SizedBin],
) -> Result<TestSession, SessionError> {
    let mut session = TestSession::new(alloc, first);
    for bin in bins {
        let [width, height, depth] = bin.1;
        session.add_bin(bin.0, width, height, depth)?;
    }
    Ok(session)
}

/// Whether each of these bins has these free sections.
pub fn are_free(session: &TestSession, bins: &[SizedBin]) -> bool {
    for (id, _, list) in bins {
        if !has_free(session, *id, list) {
            return false;
        }
    }
    true
}

/// Whether these are the only placements, and the answer and the session have their numbers.
pub fn is_packed(packed: Packed, session: &TestSession, placed: &[Placed]) -> bool {
    let count = placed.len() as u64;
    packed
        == Packed {
            first: FIRST,
            count,
        }
        && are_placed(session.outstanding(), placed)
        && session.next_number() == FIRST.wrapping_add(count)
}

// Whether the case came out so.
fn is_fitted(fitted: &FittedNumbers, session: &TestSession, case: &FitCase) -> bool {
    is_packed(fitted.packed, session, case.placed)
        && are_left(fitted.left.as_slice(), case.left)
        && are_free(session, case.bins)
}

fn pack<'a>(
    session: &mut TestSession,
    rects: &'a Rects,
) -> Result<FittedNumbers<'a>, SessionError> {
    session.pack_fitting(rects, &volume_heuristic, &contains_smallest_box)
}

// Packs what fits of the boxes of the case.
fn packs(rt: &impl Abort, alloc: Refusing, case: &FitCase) -> End {
    let Ok(mut session) = with_bins(alloc, FIRST, case.bins) else {
        return End::Before;
    };
    let Ok(rects) = collect(alloc, case.boxes, case.excluded) else {
        return End::Before;
    };
    match pack(&mut session, &rects) {
        Ok(fitted) => {
            assert!(rt; is_fitted(&fitted, &session, case), "{:?}", case.boxes);
            End::Done
        }
        Err(error) => {
            assert!(rt; error == SessionError::OutOfMemory && is_unused(&session));
            End::Refused
        }
    }
}

#[test]
fn groups_that_no_bin_takes_are_left(rt: HostRuntime) -> Result<(), Fail> {
    for case in fit_cases() {
        assert!(rt; is_refused(rt.alloc(), |refusing| Ok(packs(&rt, refusing, case)))?);
    }
    Ok(())
}

// The bins of the best of several.
const TWO_BINS: &[SizedBin] = &[(0, BIN, &[]), (1, BIN, &[])];

// Packs what fits by the best heuristic of the case.
fn packs_best(rt: &impl Abort, alloc: Refusing, case: &BestFit) -> End {
    let Ok(mut session) = with_bins(alloc, FIRST, TWO_BINS) else {
        return End::Before;
    };
    let Ok(rects) = collect(alloc, case.boxes, &[]) else {
        return End::Before;
    };
    assert!(rt; !case.heuristics.is_empty());
    match session.pack_fitting_best(&rects, case.heuristics) {
        Ok((best, fitted)) => {
            assert!(rt; best == case.best && is_packed(fitted.packed, &session, case.placed));
            assert!(rt; are_left(fitted.left.as_slice(), case.left));
            End::Done
        }
        Err(error) => {
            assert!(rt; error == SessionError::OutOfMemory && is_unused(&session));
            End::Refused
        }
    }
}

#[test]
fn fewest_cells_are_left(rt: HostRuntime) -> Result<(), Fail> {
    for case in best_fits() {
        let refused = is_refused(rt.alloc(), |refusing| Ok(packs_best(&rt, refusing, case)))?;
        assert!(rt; refused == case.takes_memory);
    }
    Ok(())
}

// Two boxes, of which one is too large for the bin.
const ONE_FITS: &[SizedBox] = &[(1, [5, 5, 1], &[]), (2, [1, 1, 1], &[])];

// All entries count, also those of groups that would be left: with one number less than that the
// numbers are used up, which is looked at before anything is tried.
#[test]
fn numbers_are_asked_for_all_entries(rt: HostRuntime) -> Result<(), Fail> {
    let limited = Refusing::new(rt.alloc(), 100)?;
    let rects = collect(limited, ONE_FITS, &[])?;
    let mut session = with_bins(limited, u64::MAX - 1, TWO_BINS)?;
    let left = limited.left();
    assert!(rt; matches!(pack(&mut session, &rects), Err(SessionError::NumbersUsedUp)));
    let best = session.pack_fitting_best(&rects, &Heuristic::ALL);
    assert!(rt; matches!(best, Err(SessionError::NumbersUsedUp)));
    assert!(rt; limited.left() == left && session.next_number() == u64::MAX - 1);
    assert!(rt; session.outstanding().is_empty());
    Ok(())
}

// Numbers are given to placements alone: a group that is left takes none.
#[test]
fn groups_that_are_left_take_no_numbers(rt: HostRuntime) -> Result<(), Fail> {
    let alloc = plenty(&rt, rt.alloc());
    let rects = collect(alloc, ONE_FITS, &[])?;
    let mut session = with_bins(alloc, u64::MAX - 2, TWO_BINS)?;
    let fitted = pack(&mut session, &rects)?;
    let first = u64::MAX - 2;
    assert!(rt; fitted.packed == Packed { first, count: 1 });
    assert!(rt; session.next_number() == u64::MAX - 1);
    // Both entries would need the numbers MAX - 1 and MAX, of which the last is never given.
    assert!(rt; matches!(pack(&mut session, &rects), Err(SessionError::NumbersUsedUp)));
    let one = collect(alloc, &[(3, [1, 1, 1], &[])], &[])?;
    let fitted = pack(&mut session, &one)?;
    assert!(rt;
        fitted.packed
            == Packed {
                first: u64::MAX - 1,
                count: 1
            }
    );
    assert!(rt; session.next_number() == u64::MAX);
    Ok(())
}

// What is left now fits once a placement is released.
#[test]
fn what_was_left_fits_after_a_release(rt: HostRuntime) -> Result<(), Fail> {
    let alloc = plenty(&rt, rt.alloc());
    let mut session = with_bins(alloc, 0, &[(0, BIN, &[])])?;
    let rects = collect(alloc, &[(1, BIN, &[]), (2, [3, 4, 1], &[])], &[])?;
    let fitted = pack(&mut session, &rects)?;
    assert!(rt; are_left(fitted.left.as_slice(), &[GroupName::Ungrouped(2)]));
    session.release(0)?;
    let rest = collect(alloc, &[(2, [3, 4, 1], &[])], &[])?;
    let fitted = pack(&mut session, &rest)?;
    assert!(rt; fitted.left.is_empty() && fitted.packed == Packed { first: 1, count: 1 });
    Ok(())
}
