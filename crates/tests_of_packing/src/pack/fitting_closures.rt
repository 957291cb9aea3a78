//! Closures of users, in packings of what fits.
ghost use Rattle.rectangle_pack.specs.Closures.{AreCallable};

use super::fitting::packs_by;
use super::plenty;
use rectangle_pack::Group::Ungrouped;
use rectangle_pack::{WidthHeightDepth, contains_smallest_box, volume_heuristic};
use std::cmp::Ordering;
use tests_support::box_list;
use tests_support::each_request::End;
use tests_support::fit_cases::FitCase;

// By the longest side the long box goes first, and leaves no room for the square. By volume the
// square would go first, and leave none for the long box.
const LONG_BEFORE_SQUARE: FitCase = FitCase {
    bins: &[(0, [4, 4, 1], &[[0, 2, 0, 4, 2, 1]])],
    boxes: box_list!(1: [3, 3, 1], 2: [4, 2, 1]),
    excluded: &[],
    placed: &[(2, 0, [0, 0, 0, 4, 2, 1])],
    left: &[Ungrouped(1)],
};

// The first cut leaves 1x4 beside the box and 3x2 above it, 6 cells, so that no box of 4x1 fits. The
// smallest box would be left where 4x2 is above.
const FIRST_CUT: FitCase = FitCase {
    bins: &[(0, [4, 4, 1], &[[0, 2, 0, 3, 2, 1], [3, 0, 0, 1, 4, 1]])],
    boxes: box_list!(1: [3, 2, 1], 2: [4, 1, 1]),
    excluded: &[],
    placed: &[(1, 0, [0, 0, 0, 3, 2, 1])],
    left: &[Ungrouped(2)],
};

#[test]
fn heuristic_of_a_user(rt: HostRuntime) {
    let alloc = plenty(&rt, rt.alloc());
    let least = 1u128;
    let longest = move |size: WidthHeightDepth| {
        u128::from(size.width().max(size.height()).max(size.depth())).max(least)
    };
    let end = packs_by(
        &rt,
        alloc,
        &LONG_BEFORE_SQUARE,
        &longest,
        &contains_smallest_box,
    );
    assert!(rt; end == End::Done);
}

fn always_greater<H>(
    _one: [WidthHeightDepth; 3],
    _other: [WidthHeightDepth; 3],
    _heuristic: &H,
) -> Ordering {
    Ordering::Greater
}

#[test]
fn comparison_of_a_user(rt: HostRuntime) {
    let alloc = plenty(&rt, rt.alloc());
    let end = packs_by(&rt, alloc, &FIRST_CUT, &volume_heuristic, &always_greater);
    assert!(rt; end == End::Done);
}
