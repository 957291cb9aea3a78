//! How often a packing asks the heuristic and the comparison of a user.
ghost use Rattle.rectangle_pack.specs.Closures.{CanRate};

use super::closures::FIRST_CUTS;
use super::{Case, packs, plenty};
use rectangle_pack::WidthHeightDepth;
use std::cell::Cell;
use std::cmp::Ordering;
use std::process::Abort;
use tests_support::counts::{Counts, add};
use tests_support::each_request::End;
use tests_support::refusing::Refusing;

// Group 0 goes first, and its first box fits into neither bin.
const TOO_LARGE: Case = case!(bins 0: [4, 4, 1] => &[[0, 0, 0, 4, 4, 1]],
        1: [4, 4, 1] => &[[0, 0, 0, 4, 4, 1]];
    boxes 0: [5, 4, 1] in [0], 1: [1, 1, 1] in [0], 2: [1, 1, 1]; refused);

// One rate for each entry of a group and for each bin, and then, for each box that is placed, one
// for each of the three pieces that are left, and five comparisons of two of its six cuts.
const PACKINGS: &[(Case, Counts)] = &[
    (FIRST_CUTS, (2 + 1 + 2 * 3, 2 * 5)),
    (TOO_LARGE, (3 + 2, 0)),
];

// Packs the case by cuts of which the first is always better, and counts the comparisons.
fn packs_counting<H>(
    rt: &impl Abort,
    alloc: Refusing,
    case: &Case,
    heuristic: &H,
    compared: &Cell<u64>,
) -> End
where
    H: Fn(WidthHeightDepth) -> u128,
    requires { CanRate H.Fn heuristic.now }
{
    let comparison = |_: [WidthHeightDepth; 3], _: [WidthHeightDepth; 3], _: &H| {
        add(compared, 1);
        Ordering::Greater
    };
    packs(rt, alloc, case, heuristic, &comparison)
}

// How often the packing of the case asks either.
fn asks(rt: &impl Abort, alloc: Refusing, case: &Case) -> Counts {
    let (rated, compared) = (Cell::new(0), Cell::new(0));
    let heuristic = |size: WidthHeightDepth| {
        add(&rated, 1);
        size.volume()
    };
    let end = packs_counting(rt, alloc, case, &heuristic, &compared);
    assert!(rt; end == End::Done);
    (rated.get(), compared.get())
}

#[test]
fn packings(rt: HostRuntime) {
    let refusing = plenty(&rt, rt.alloc());
    for (case, counts) in PACKINGS {
        assert!(rt; asks(&rt, refusing, case) == *counts);
    }
}
