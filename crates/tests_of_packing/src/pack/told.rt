//! `pack_rects_told`: packings by steps, and why a step is refused.

use super::memory::{Run, takes_memory};
use super::{Bins, Packed, Rects, add_sized, finds_last, has_placements, have_lists};
use rectangle_pack::{StepFault, ToldError, pack_rects_told};
use std::alloc::{AllocError, Allocator};
use std::process::Abort;
use std::test::Fail;
use tests_support::boxes::collect;
use tests_support::each_request::End;
use tests_support::refusing::Refusing;
use tests_support::shapes::are_new;
use tests_support::told_cases::{NumberedStep, ToldCase, done, is_refusal, refused, steps_of};

// Whether the answer is that of the case. Where it is a refusal the bins are as they were.
fn is_right(
    answer: &Result<Packed<Refusing>, ToldError>,
    bins: &Bins<Refusing>,
    case: &ToldCase,
) -> bool {
    match answer {
        Ok(packed) => match case.answer {
            Ok(placed) => has_placements(packed, placed) && finds_last(packed, placed),
            Err(_) => false,
        },
        Err(ToldError::OutOfMemory) => are_new(bins),
        Err(error) => is_refusal(error, case) && are_new(bins),
    }
}

fn ends(
    rt: &impl Abort,
    answer: &Result<Packed<Refusing>, ToldError>,
    bins: &Bins<Refusing>,
    case: &ToldCase,
) -> End {
    assert!(rt; is_right(answer, bins, case), "{:?}", case.boxes);
    if let Err(ToldError::OutOfMemory) = answer {
        return End::Refused;
    }
    assert!(rt; have_lists(bins, case.bins));
    End::Done
}

// The boxes and the steps of the case.
fn collect_told(
    alloc: Refusing,
    case: &ToldCase,
) -> Result<(Rects<Refusing>, Vec<NumberedStep, Refusing>), AllocError> {
    Ok((
        collect(alloc, case.boxes, case.excluded)?,
        steps_of(alloc, case)?,
    ))
}

/// Packs as the case tells.
pub fn packs(rt: &impl Abort, alloc: Refusing, case: &ToldCase) -> End {
    let mut bins = Bins::new(alloc);
    if add_sized(alloc, case.bins, &mut bins).is_err() {
        return End::Before;
    }
    let Ok((rects, steps)) = collect_told(alloc, case) else {
        return End::Before;
    };
    let answer = pack_rects_told(alloc, &rects, &mut bins, steps.as_slice());
    ends(rt, &answer, &bins, case)
}

/// Whether nothing is placed without steps.
pub fn places_nothing<A: Allocator + Copy>(alloc: A, rects: &Rects<A>, bins: &mut Bins<A>) -> bool {
    match pack_rects_told(alloc, rects, bins, &[]) {
        Ok(packed) => packed.placements().is_empty() && packed.packed_locations().is_empty(),
        Err(_) => false,
    }
}

#[test]
fn steps_that_are_done(rt: HostRuntime) {
    for case in done() {
        assert!(rt; takes_memory(&rt, rt.alloc(), Run::Told(case)));
    }
}

#[test]
fn steps_that_are_refused(rt: HostRuntime) {
    for case in refused() {
        assert!(rt; takes_memory(&rt, rt.alloc(), Run::Told(case)));
    }
}

const TEXTS: &[(ToldError, &str)] = &[
    (
        ToldError::StepRefused(0, StepFault::UnknownGroup),
        "A step names a group that is not in the collection.",
    ),
    (
        ToldError::StepRefused(1, StepFault::UnknownBin),
        "A step names a bin that is not there.",
    ),
    (
        ToldError::StepRefused(2, StepFault::NamedTwice),
        "Two steps name one group.",
    ),
    (
        ToldError::StepRefused(3, StepFault::Excluded),
        "A step puts a group into a bin that is excluded for it.",
    ),
    (
        ToldError::StepRefused(4, StepFault::NoRoom),
        "The bin of a step does not take all boxes of its group.",
    ),
    (
        ToldError::NumbersUsedUp,
        "The numbers of placements are used up.",
    ),
    (ToldError::OutOfMemory, "Out of memory."),
];

#[test]
fn texts_of_errors(rt: HostRuntime) -> Result<(), Fail> {
    let alloc = rt.alloc();
    for (error, text) in TEXTS {
        assert!(rt; format!(in alloc; "{error}")?.as_str() == *text);
    }
    Ok(())
}
