//! `pack_rects_fitting`: what is placed, and the groups that are left.
ghost use Rattle.rectangle_pack.specs.Closures.{AreCallable};

use super::exclusions::TWO_BINS;
use super::memory::{Run, takes_memory};
use super::{
    Bins, Case, FULL_BIN, Packed, Rects, TWO_IN_A_GROUP, add_bins, add_sized, finds_last,
    has_placements, have_lists, pack_numbered, plenty,
};
use rectangle_pack::{
    Fitted, RectanglePackError, WidthHeightDepth, contains_smallest_box, pack_rects_fitting,
    volume_heuristic,
};
use std::alloc::{AllocError, Allocator};
use std::cmp::Ordering;
use std::process::Abort;
use tests_support::boxes::{GroupName, collect};
use tests_support::each_request::End;
use tests_support::fit_cases::{FitCase, are_left, fit_cases};
use tests_support::refusing::Refusing;
use tests_support::shapes::are_new;

/// What fits, of boxes and groups by numbers.
pub type FittedNumbers<'a, A> = Fitted<'a, Packed<A>, GroupName, A>;

// Whether the case came out so.
fn is_fitted<A: Allocator + Copy>(
    fitted: &FittedNumbers<A>,
    bins: &Bins<A>,
    case: &FitCase,
) -> bool {
    has_placements(&fitted.packed, case.placed)
        && finds_last(&fitted.packed, case.placed)
        && are_left(fitted.left.as_slice(), case.left)
        && have_lists(bins, case.bins)
}

// Where memory was refused the bins are as they were new, and else the case came out.
fn ends<A: Allocator + Copy>(
    rt: &impl Abort,
    answer: &Result<FittedNumbers<A>, AllocError>,
    bins: &Bins<A>,
    case: &FitCase,
) -> End {
    match answer {
        Ok(fitted) => {
            assert!(rt; is_fitted(fitted, bins, case), "{:?}", case.boxes);
            End::Done
        }
        Err(_) => {
            assert!(rt; are_new(bins));
            End::Refused
        }
    }
}

/// Packs what fits of the boxes of the case, by closures that are handed on.
pub fn packs_by<H, C>(
    rt: &impl Abort,
    alloc: Refusing,
    case: &FitCase,
    heuristic: &H,
    comparison: &C,
) -> End
where
    H: Fn(WidthHeightDepth) -> u128,
    C: Fn([WidthHeightDepth; 3], [WidthHeightDepth; 3], &H) -> Ordering,
    requires { AreCallable H.Fn C.Fn heuristic.now comparison.now }
{
    let mut bins = Bins::new(alloc);
    if add_sized(alloc, case.bins, &mut bins).is_err() {
        return End::Before;
    }
    let Ok(rects) = collect(alloc, case.boxes, case.excluded) else {
        return End::Before;
    };
    let answer = pack_rects_fitting(alloc, &rects, &mut bins, heuristic, comparison);
    ends(rt, &answer, &bins, case)
}

/// The same, by volumes and smallest boxes.
pub fn packs(rt: &impl Abort, alloc: Refusing, case: &FitCase) -> End {
    packs_by(rt, alloc, case, &volume_heuristic, &contains_smallest_box)
}

/// Whether nothing is placed and nothing is left of no boxes.
pub fn fits_nothing<A: Allocator + Copy>(alloc: A, rects: &Rects<A>, bins: &mut Bins<A>) -> bool {
    let answer = pack_rects_fitting(
        alloc,
        rects,
        bins,
        &volume_heuristic,
        &contains_smallest_box,
    );
    match answer {
        Ok(fitted) => fitted.packed.placements().is_empty() && fitted.left.is_empty(),
        Err(_) => false,
    }
}

#[test]
fn groups_that_no_bin_takes_are_left(rt: HostRuntime) {
    for case in fit_cases() {
        assert!(rt; takes_memory(&rt, rt.alloc(), Run::Fitting(case)));
    }
}

// Whether nothing is left of the boxes, and all is as after the packing of the case.
fn fits_as_packed(
    alloc: Refusing,
    rects: &Rects<Refusing>,
    bins: &mut Bins<Refusing>,
    case: &Case,
) -> bool {
    let answer = pack_rects_fitting(
        alloc,
        rects,
        bins,
        &volume_heuristic,
        &contains_smallest_box,
    );
    match (answer, case.placements) {
        (Ok(fitted), Some(placed)) => {
            fitted.left.is_empty()
                && has_placements(&fitted.packed, placed)
                && have_lists(bins, case.bins)
        }
        _ => false,
    }
}

#[test]
fn none_left_is_as_pack_rects(rt: HostRuntime) {
    let alloc = plenty(&rt, rt.alloc());
    for case in [TWO_IN_A_GROUP, TWO_BINS] {
        let mut bins = Bins::new(alloc);
        assert!(rt; add_bins(alloc, &case, &mut bins).is_ok());
        let rects = collect(alloc, case.boxes, case.excluded).expect(&rt, "no memory");
        assert!(rt; fits_as_packed(alloc, &rects, &mut bins, &case));
    }
}

// `pack_rects` is refused where something is left, and keeps what went before the first that is.
#[test]
fn something_left_is_refused_by_pack_rects(rt: HostRuntime) {
    let alloc = plenty(&rt, rt.alloc());
    let mut bins = Bins::new(alloc);
    let mut others = Bins::new(alloc);
    assert!(rt; add_bins(alloc, &FULL_BIN, &mut bins).is_ok());
    assert!(rt; add_bins(alloc, &FULL_BIN, &mut others).is_ok());
    let rects = collect(alloc, FULL_BIN.boxes, &[]).expect(&rt, "no memory");
    let refused = pack_numbered(alloc, &rects, &mut bins);
    assert!(rt; matches!(refused, Err(RectanglePackError::NotEnoughBinSpace)));
    let fitted = pack_rects_fitting(
        alloc,
        &rects,
        &mut others,
        &volume_heuristic,
        &contains_smallest_box,
    );
    let fitted = fitted.expect(&rt, "no memory");
    assert!(rt; are_left(fitted.left.as_slice(), &[GroupName::Ungrouped(2)]));
    assert!(rt; have_lists(&bins, FULL_BIN.bins) && have_lists(&others, FULL_BIN.bins));
}
