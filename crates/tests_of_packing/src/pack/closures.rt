//! Heuristics and comparisons of users.
ghost use Rattle.rectangle_pack.specs.Closures.{AreCallable, CanRate};

use super::{Case, TWO_IN_A_GROUP, packs, plenty};
use rectangle_pack::{
    Heuristic, WidthHeightDepth, contains_smallest_box, longest_side_heuristic,
    named_packing_has_one_result, volume_heuristic, volume_packing_has_one_result,
};
use std::alloc::Global;
use std::cmp::Ordering;
use std::process::Abort;
use tests_support::each_request::End;
use tests_support::refusing::Refusing;

// By the longest side the long box goes first; by volume the square would.
const LONG_BEFORE_SQUARE: Case = case!(bins 0: [10, 10, 1] => &[[4, 1, 0, 6, 9, 1],
        [0, 5, 0, 4, 5, 1]];
    boxes 1: [4, 4, 1], 2: [10, 1, 1];
    placed (2, 0, [0, 0, 0, 10, 1, 1]), (1, 0, [0, 1, 0, 4, 4, 1]));

// By volumes up to 20 the boxes are worth the same and go by id; by volume 2 would go first.
const EQUAL_ABOVE_20: Case = case!(bins 0: [12, 6, 1] => &[[0, 5, 0, 5, 1, 1], [11, 0, 0, 1, 6, 1]];
    boxes 2: [6, 6, 1], 1: [5, 5, 1];
    placed (1, 0, [0, 0, 0, 5, 5, 1]), (2, 0, [5, 0, 0, 6, 6, 1]));

/// Where every key is the greatest number, the group's sum stays there, and boxes alone go first.
pub const EQUAL_KEYS: Case = case!(bins 0: [8, 8, 1] => &[[2, 0, 0, 6, 2, 1], [0, 6, 0, 8, 2, 1]];
    boxes 3: [2, 2, 1], 1: [4, 4, 1] in [0], 2: [4, 4, 1] in [0];
    placed (3, 0, [0, 0, 0, 2, 2, 1]), (1, 0, [0, 2, 0, 4, 4, 1]), (2, 0, [4, 2, 0, 4, 4, 1]));

// All cuts are equal, so the last is taken, and its pieces stay in their order.
const RATED_AS_NOTHING: Case = case!(bins 0: [8, 8, 1] => &[[4, 0, 0, 4, 4, 1], [0, 4, 0, 8, 4, 1]];
    boxes 1: [4, 4, 1]; placed (1, 0, [0, 0, 0, 4, 4, 1]));

/// Where the first cut is always better, it is the one that is taken.
pub const FIRST_CUTS: Case = case!(bins 0: [4, 4, 4] => &[[2, 0, 0, 2, 4, 4], [0, 2, 0, 2, 2, 4],
        [1, 0, 2, 1, 2, 2], [0, 1, 2, 1, 1, 2], [0, 0, 3, 1, 1, 1]];
    boxes 1: [2, 2, 2], 2: [1, 1, 1];
    placed (1, 0, [0, 0, 0, 2, 2, 2]), (2, 0, [0, 0, 2, 1, 1, 1]));

/// Packs the case where a size is rated at its volume, but at least and at most so much.
pub fn packs_between(
    rt: &impl Abort,
    alloc: Refusing,
    case: &Case,
    least: u128,
    most: u128,
) -> End {
    let heuristic = move |size: WidthHeightDepth| size.volume().max(least).min(most);
    packs(rt, alloc, case, &heuristic, &contains_smallest_box)
}

fn between() -> &'static [(u128, u128, Case)] {
    const BETWEEN: &[(u128, u128, Case)] = &[
        (0, 20, EQUAL_ABOVE_20),
        (u128::MAX, u128::MAX, EQUAL_KEYS),
        (0, 0, RATED_AS_NOTHING),
    ];
    BETWEEN
}

#[test]
fn heuristic_that_captures(rt: HostRuntime) {
    let refusing = plenty(&rt, rt.alloc());
    for (least, most, case) in between() {
        let end = packs_between(&rt, refusing, case, *least, *most);
        assert!(rt; end == End::Done);
    }
}

// The case comes out by these closures.
fn comes_out<H, C>(rt: &impl Abort, alloc: Global, case: &Case, heuristic: &H, comparison: &C)
where
    H: Fn(WidthHeightDepth) -> u128,
    C: Fn([WidthHeightDepth; 3], [WidthHeightDepth; 3], &H) -> Ordering,
    requires { AreCallable H.Fn C.Fn heuristic.now comparison.now }
{
    let end = packs(rt, plenty(rt, alloc), case, heuristic, comparison);
    assert!(rt; end == End::Done);
}

// The case comes out by a heuristic that is callable on every size.
fn comes_out_by<H>(rt: &impl Abort, alloc: Global, case: &Case, heuristic: &H)
where
    H: Fn(WidthHeightDepth) -> u128,
    requires { H.IsAlwaysCallable heuristic.now }
{
    comes_out(rt, alloc, case, heuristic, &contains_smallest_box);
}

#[test]
fn heuristic_that_borrows(rt: HostRuntime) {
    let most = 20u128;
    let heuristic = |size: WidthHeightDepth| size.volume().min(most);
    comes_out_by(&rt, rt.alloc(), &EQUAL_ABOVE_20, &heuristic);
}

fn longest_side(size: WidthHeightDepth) -> u128 {
    u128::from(size.width().max(size.height()).max(size.depth()))
}

#[test]
fn heuristic_written_by_hand(rt: HostRuntime) {
    comes_out_by(&rt, rt.alloc(), &LONG_BEFORE_SQUARE, &longest_side);
}

fn always_greater<H>(
    _one: [WidthHeightDepth; 3],
    _other: [WidthHeightDepth; 3],
    _heuristic: &H,
) -> Ordering {
    Ordering::Greater
}

#[test]
fn comparison_written_by_hand(rt: HostRuntime) {
    comes_out(
        &rt,
        rt.alloc(),
        &FIRST_CUTS,
        &volume_heuristic,
        &always_greater,
    );
}

// A closure over a name is a heuristic. The law takes one beside the function of that name.
#[test]
fn heuristic_with_a_name(rt: HostRuntime) {
    let named = Heuristic::LongestSide;
    let heuristic = move |size: WidthHeightDepth| named.rate(size);
    comes_out_by(&rt, rt.alloc(), &LONG_BEFORE_SQUARE, &heuristic);
    let longest = |size: WidthHeightDepth| Heuristic::LongestSide.rate(size);
    named_packing_has_one_result::<u32, u32, u32, _, _, _, _>(
        Heuristic::LongestSide,
        &longest,
        &contains_smallest_box,
        &longest_side_heuristic,
        &contains_smallest_box,
    );
}

// The law takes a closure that answers as `volume_heuristic` does beside that one.
#[test]
fn closure_that_rates_by_volume(rt: HostRuntime) {
    let volume = |size: WidthHeightDepth| size.volume();
    comes_out_by(&rt, rt.alloc(), &TWO_IN_A_GROUP, &volume);
    volume_packing_has_one_result::<u32, u32, u32, _, _, _, _>(
        &volume,
        &contains_smallest_box,
        &volume_heuristic,
        &contains_smallest_box,
    );
}

fn is_wide(sizes: &[WidthHeightDepth; 3]) -> bool {
    for size in sizes {
        if size.width() > 4096 {
            return true;
        }
    }
    false
}

// As `contains_smallest_box` where each size is at most 4096 wide; else `Greater`, whichever way
// round.
fn odd_where_wide<H>(
    one: [WidthHeightDepth; 3],
    other: [WidthHeightDepth; 3],
    heuristic: &H,
) -> Ordering
where
    H: Fn(WidthHeightDepth) -> u128,
    requires { CanRate H.Fn heuristic.now }
{
    if is_wide(&one) || is_wide(&other) {
        return Ordering::Greater;
    }
    contains_smallest_box(one, other, heuristic)
}

#[test]
fn comparison_is_odd_where_wide(rt: HostRuntime) {
    let wide = [WidthHeightDepth::new(5000, 1, 1); 3];
    let wider = [WidthHeightDepth::new(6000, 1, 1); 3];
    let one_way = odd_where_wide(wide, wider, &volume_heuristic);
    let other_way = odd_where_wide(wider, wide, &volume_heuristic);
    let smallest = contains_smallest_box(wider, wide, &volume_heuristic);
    assert!(rt; one_way == Ordering::Greater && other_way == Ordering::Greater);
    assert!(rt; smallest == Ordering::Less);
}

// No section of these bins is wider than 4096, so its answers on wider ones are never asked.
#[test]
fn comparison_that_is_odd_on_what_is_not_met(rt: HostRuntime) {
    comes_out(
        &rt,
        rt.alloc(),
        &TWO_IN_A_GROUP,
        &volume_heuristic,
        &odd_where_wide,
    );
}
