//! `Session::pack_told`.

use super::best::{FIRST, is_unused};
use super::fitting::{are_free, is_packed, with_bins};
use super::{TestSession, plenty};
use rectangle_pack::{Group, Heuristic, Packed, ToldError};
use std::alloc::AllocError;
use std::process::Abort;
use std::test::Fail;
use tests_support::boxes::{GroupName, Rects, SizedBin, SizedBox, collect};
use tests_support::each_request::{End, is_refused};
use tests_support::refusing::Refusing;
use tests_support::told_cases::{NumberedStep, ToldCase, done, is_refusal, refused, steps_of};

// Whether the answer is that of the case. Where it is a refusal the session is as it was.
fn is_right(answer: Result<Packed, ToldError>, session: &TestSession, case: &ToldCase) -> bool {
    match answer {
        Ok(packed) => match case.answer {
            Ok(placed) => is_packed(packed, session, placed) && are_free(session, case.bins),
            Err(_) => false,
        },
        Err(ToldError::OutOfMemory) => is_unused(session),
        Err(error) => is_refusal(&error, case) && is_unused(session),
    }
}

// The boxes and the steps of the case.
fn collect_told(
    alloc: Refusing,
    case: &ToldCase,
) -> Result<(Rects, Vec<NumberedStep, Refusing>), AllocError> {
    Ok((
        collect(alloc, case.boxes, case.excluded)?,
        steps_of(alloc, case)?,
    ))
}

// Packs as the case tells.
fn packs(rt: &impl Abort, alloc: Refusing, case: &ToldCase) -> End {
    let Ok(mut session) = with_bins(alloc, FIRST, case.bins) else {
        return End::Before;
    };
    let Ok((rects, steps)) = collect_told(alloc, case) else {
        return End::Before;
    };
    let answer = session.pack_told(&rects, steps.as_slice());
    assert!(rt; is_right(answer, &session, case), "{:?}", case.boxes);
    match answer {
        Err(ToldError::OutOfMemory) => End::Refused,
        _ => End::Done,
    }
}

#[test]
fn steps_that_are_done(rt: HostRuntime) -> Result<(), Fail> {
    for case in done() {
        assert!(rt; is_refused(rt.alloc(), |refusing| Ok(packs(&rt, refusing, case)))?);
    }
    Ok(())
}

#[test]
fn steps_that_are_refused(rt: HostRuntime) -> Result<(), Fail> {
    for case in refused() {
        assert!(rt; is_refused(rt.alloc(), |refusing| Ok(packs(&rt, refusing, case)))?);
    }
    Ok(())
}

const UNIT: [u32; 3] = [1, 1, 1];

const UNITS: &[SizedBox] = &[(1, UNIT, &[]), (2, UNIT, &[]), (3, UNIT, &[])];

const ONE_BIN: &[SizedBin] = &[(0, [4, 4, 1], &[])];

// A step that puts the box of this id alone into the bin.
fn step(id: u32) -> NumberedStep {
    NumberedStep {
        group: Group::Ungrouped(id),
        bin: 0,
        heuristic: Heuristic::Volume,
    }
}

// Entries of groups that no step names take no number; the greatest number is never given.
#[test]
fn numbers_are_asked_for_the_steps(rt: HostRuntime) -> Result<(), Fail> {
    let alloc = plenty(&rt, rt.alloc());
    let rects = collect(alloc, UNITS, &[])?;
    let mut session = with_bins(alloc, u64::MAX - 1, ONE_BIN)?;
    let two = session.pack_told(&rects, &[step(1), step(2)]);
    assert!(rt; two == Err(ToldError::NumbersUsedUp) && session.outstanding().is_empty());
    let first = u64::MAX - 1;
    assert!(rt; session.pack_told(&rects, &[step(2)]) == Ok(Packed { first, count: 1 }));
    assert!(rt; session.next_number() == u64::MAX);
    assert!(rt; session.pack_told(&rects, &[step(3)]) == Err(ToldError::NumbersUsedUp));
    let first = u64::MAX;
    assert!(rt; session.pack_told(&rects, &[]) == Ok(Packed { first, count: 0 }));
    Ok(())
}

// Numbers are looked at before the steps: the entries of a group count for each step that names it,
// and a group that is not there has none.
#[test]
fn numbers_come_before_steps(rt: HostRuntime) -> Result<(), Fail> {
    let limited = Refusing::new(rt.alloc(), 100)?;
    let rects = collect(limited, UNITS, &[])?;
    let mut session = with_bins(limited, u64::MAX - 1, ONE_BIN)?;
    let left = limited.left();
    let twice = session.pack_told(&rects, &[step(1), step(1)]);
    assert!(rt; twice == Err(ToldError::NumbersUsedUp) && limited.left() == left);
    let unknown = session.pack_told(&rects, &[step(9), step(8), step(7)]);
    let wanted = rectangle_pack::StepFault::UnknownGroup;
    assert!(rt; unknown == Err(ToldError::StepRefused(0, wanted)));
    assert!(rt; session.outstanding().is_empty() && session.next_number() == u64::MAX - 1);
    Ok(())
}

// Groups that are excluded are kept apart within one call.
#[test]
fn exclusions_hold_within_a_call(rt: HostRuntime) -> Result<(), Fail> {
    let alloc = plenty(&rt, rt.alloc());
    let pair = (GroupName::Ungrouped(1), GroupName::Ungrouped(2));
    let rects = collect(alloc, UNITS, &[pair])?;
    let mut session = with_bins(alloc, 0, ONE_BIN)?;
    assert!(rt; session.pack_told(&rects, &[step(1)]) == Ok(Packed { first: 0, count: 1 }));
    assert!(rt; session.pack_told(&rects, &[step(2)]) == Ok(Packed { first: 1, count: 1 }));
    Ok(())
}
