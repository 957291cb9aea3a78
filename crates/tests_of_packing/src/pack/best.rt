//! `pack_rects_best`.

use super::add_bin;
use super::memory::{Run, takes_memory};
use rectangle_pack::{Heuristic, Placement, RectanglePackError, RectanglePackOk, pack_rects_best};
use std::alloc::AllocError;
use std::process::Abort;
use tests_support::all_match;
use tests_support::best_cases::{BIN, Case, Placed, cases, is_placed};
use tests_support::boxes::{Bins, Rects, collect};
use tests_support::each_request::End;
use tests_support::refusing::Refusing;
use tests_support::shapes::are_new;

// What is answered.
type Answer = Result<(Heuristic, RectanglePackOk<u32, u32, Refusing>), RectanglePackError>;

fn add_bins(alloc: Refusing, bins: &mut Bins) -> Result<(), AllocError> {
    for id in 0..2 {
        add_bin(alloc, bins, id, BIN)?;
    }
    Ok(())
}

// Whether these are the placements, in order.
fn are_placed(placements: &[Placement<u32, u32>], wanted: &[Placed]) -> bool {
    all_match!(placements.iter(), wanted, placed, row =>
        is_placed(placed.id, placed.bin, &placed.location, row))
}

// Whether this heuristic and these placements are the best of the case.
fn is_best(heuristic: Heuristic, placements: &[Placement<u32, u32>], case: &Case) -> bool {
    match case.best {
        Some((best, wanted)) => heuristic == best && are_placed(placements, wanted),
        None => false,
    }
}

// Whether the answer is that of the case. Where it is a refusal the bins are as they were.
fn is_right(answer: &Answer, bins: &Bins, case: &Case) -> bool {
    match answer {
        Ok((heuristic, packed)) => is_best(*heuristic, packed.placements(), case),
        Err(RectanglePackError::NotEnoughBinSpace) => case.best.is_none() && are_new(bins),
        Err(RectanglePackError::OutOfMemory) => are_new(bins),
    }
}

fn ends(rt: &impl Abort, answer: &Answer, bins: &Bins, case: &Case) -> End {
    assert!(rt; is_right(answer, bins, case));
    match answer {
        Err(RectanglePackError::OutOfMemory) => End::Refused,
        _ => End::Done,
    }
}

fn packs_into(
    rt: &impl Abort,
    alloc: Refusing,
    rects: &Rects,
    bins: &mut Bins,
    case: &Case,
) -> End {
    assert!(rt; !case.heuristics.is_empty());
    let answer = pack_rects_best(alloc, rects, bins, case.heuristics);
    ends(rt, &answer, bins, case)
}

/// Packs the boxes of the case.
pub fn packs(rt: &impl Abort, alloc: Refusing, case: &Case) -> End {
    let mut bins = Bins::new(alloc);
    if add_bins(alloc, &mut bins).is_err() {
        return End::Before;
    }
    match collect(alloc, case.boxes, &[]) {
        Ok(rects) => packs_into(rt, alloc, &rects, &mut bins, case),
        Err(_) => End::Before,
    }
}

#[test]
fn into_bins(rt: HostRuntime) {
    for case in cases() {
        assert!(rt; takes_memory(&rt, rt.alloc(), Run::Best(case)) == case.takes_memory);
    }
}
