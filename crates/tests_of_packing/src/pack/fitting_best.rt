//! `pack_rects_fitting_best`.

use super::fitting::FittedNumbers;
use super::memory::{Run, takes_memory};
use super::{Bins, add_bin, has_placements};
use rectangle_pack::{Heuristic, pack_rects_fitting_best};
use std::alloc::AllocError;
use std::process::Abort;
use tests_support::best_cases::BIN;
use tests_support::boxes::collect;
use tests_support::each_request::End;
use tests_support::fit_cases::{BestFit, are_left, best_fits};
use tests_support::refusing::Refusing;
use tests_support::shapes::are_new;

fn add_bins(alloc: Refusing, bins: &mut Bins<Refusing>) -> Result<(), AllocError> {
    for id in 0..2 {
        add_bin(alloc, bins, id, BIN)?;
    }
    Ok(())
}

// Whether this heuristic, and what fits with it, is the best of the case.
fn is_best(best: Heuristic, fitted: &FittedNumbers<Refusing>, case: &BestFit) -> bool {
    best == case.best
        && has_placements(&fitted.packed, case.placed)
        && are_left(fitted.left.as_slice(), case.left)
}

/// Packs what fits of the boxes of the case.
pub fn packs(rt: &impl Abort, alloc: Refusing, case: &BestFit) -> End {
    let mut bins = Bins::new(alloc);
    if add_bins(alloc, &mut bins).is_err() {
        return End::Before;
    }
    let Ok(rects) = collect(alloc, case.boxes, &[]) else {
        return End::Before;
    };
    assert!(rt; !case.heuristics.is_empty());
    match pack_rects_fitting_best(alloc, &rects, &mut bins, case.heuristics) {
        Ok((best, fitted)) => {
            assert!(rt; is_best(best, &fitted, case), "{:?}", case.boxes);
            End::Done
        }
        Err(_) => {
            assert!(rt; are_new(&bins));
            End::Refused
        }
    }
}

#[test]
fn fewest_cells_are_left(rt: HostRuntime) {
    for case in best_fits() {
        let run = Run::FittingBest(case);
        assert!(rt; takes_memory(&rt, rt.alloc(), run) == case.takes_memory);
    }
}
