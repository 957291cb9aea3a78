//! Boxes of a part in order along an axis, and up to which place they leave no plane open.
ghost use Rattle.std.specs.Prelude.{◌≡◌, ◌+◌, ◌<◌, ◌≤◌, ◌⊎◌, ◌++◌, true, length, List, Contains, MatchBool};
ghost use Rattle.std.specs.Bool.{OnTrue};
ghost use Rattle.std.specs.List.Sorted.{IsPermutation, IsNonDecreasingBy};
ghost use Rattle.rectangle_pack_sections.specs.Boxes.{Cuboid, FitsU32, has_cells, start};
ghost use Rattle.rectangle_pack_plans.specs.private.CutPlans.{HaveCellsAndFit, IsFilled, AreOrdered, IsClosedBelow, IsClosedOn};

use rectangle_pack_sections::axis::Axis;
use rectangle_pack_sections::bin_section::BinSection;
use rectangle_pack_sections::span::Span;

// Puts boxes in order of their starts on an axis. Takes no memory. There is a sort for each axis, so
// that no comparison asks for the axis.
pub(crate) fn order_on(axis: Axis, boxes: &mut [BinSection])
    ensures permutation { IsPermutation boxes.old boxes.new }
    ensures ordered { IsNonDecreasingBy (start axis) boxes.new }
{
    match axis {
        Axis::X => boxes.sort_unstable_by_key(|b| b.x()),
        Axis::Y => boxes.sort_unstable_by_key(|b| b.y()),
        Axis::Z => boxes.sort_unstable_by_key(|b| b.z()),
    }
}

// Puts boxes back in order on an axis, if one is named. Takes no memory.
fn restore_order(ordered: Option<Axis>, boxes: &mut [BinSection])
    ensures permutation { IsPermutation boxes.old boxes.new }
    ensures ordered { AreOrdered ordered boxes.new }
{
    if let Some(axis) = ordered {
        order_on(axis, boxes);
    }
}

// Where no plane is open below `place`, none is below what this answers: the end of the next box,
// if that is farther and the box starts before `place`, or where the whole does.
fn go_on(whole: &BinSection, axis: Axis, place: u32, next: &BinSection) -> u32
    requires fits { FitsU32 next.now }
    requires cells { has_cells next.now ≡ true }
    ensures { (boxes : List Cuboid) → Contains boxes next.now →
        IsClosedBelow axis place whole.now boxes → IsClosedBelow axis result whole.now boxes }
{
    let span = Span::of(next, axis);
    if (span.start <= Span::of(whole, axis).start) | (span.start < place) {
        place.max(span.end())
    } else {
        place
    }
}

// Whether the next box of two lists, each in order on an axis, is that of the first.
fn is_first_next(
    axis: Axis,
    first: &[BinSection],
    i: usize,
    second: &[BinSection],
    j: usize,
) -> bool
    requires { (i < length first.now) ⊎ (j < length second.now) }
    ensures { MatchBool result (i < length first.now) (j < length second.now) }
{
    match (first.get(i), second.get(j)) {
        (Some(a), Some(b)) => Span::of(a, axis).start <= Span::of(b, axis).start,
        (Some(_), None) => true,
        (None, _) => false,
    }
}

// Goes through the boxes of two lists, each in order on the axis, as through those of one. No plane
// is open below the place that this answers.
fn reach(whole: &BinSection, axis: Axis, first: &[BinSection], second: &[BinSection]) -> u32
    requires first { HaveCellsAndFit first.now }
    requires second { HaveCellsAndFit second.now }
    ensures { IsClosedBelow axis result whole.now (first.now ++ second.now) }
{
    let mut place = Span::of(whole, axis).start;
    let (mut i, mut j) = (0, 0);
    while i < first.len() || j < second.len() {
        if is_first_next(axis, first, i, second, j) {
            place = go_on(whole, axis, place, &first[i]);
            i += 1;
        } else {
            place = go_on(whole, axis, place, &second[j]);
            j += 1;
        }
    }
    place
}

// Whether `count` boxes at either end already leave no plane on the axis open. Puts them in order
// on it, and then back in order on the axis on which all boxes are in order, if any.
fn is_blocked(
    whole: &BinSection,
    axis: Axis,
    ordered: Option<Axis>,
    boxes: &mut [BinSection],
    count: usize,
) -> bool
    requires filled { IsFilled whole.now boxes.old }
    requires ordered { AreOrdered ordered boxes.old }
    requires some { count + count ≤ length boxes.old }
    ensures permutation { IsPermutation boxes.old boxes.new }
    ensures ordered { AreOrdered ordered boxes.new }
    ensures closed { OnTrue result (IsClosedOn axis whole.now boxes.new) }
{
    let (front, rest) = boxes.split_at_mut(count);
    let between = rest.len() - count;
    let (_, back) = rest.split_at_mut(between);
    order_on(axis, front);
    order_on(axis, back);
    let blocked = Span::of(whole, axis).end() <= reach(whole, axis, front, back);
    restore_order(ordered, front);
    restore_order(ordered, back);
    blocked
}

// How many boxes at either end are looked at first; four times as many each time after that.
const FEW: usize = 16;

// Whether the boxes at both ends already leave no plane on the axis open. They stay in order on the
// axis on which they are, if any.
pub(crate) fn is_closed_at_ends(
    whole: &BinSection,
    axis: Axis,
    ordered: Option<Axis>,
    boxes: &mut [BinSection],
) -> bool
    requires filled { IsFilled whole.now boxes.old }
    requires ordered { AreOrdered ordered boxes.old }
    ensures permutation { IsPermutation boxes.old boxes.new }
    ensures ordered { AreOrdered ordered boxes.new }
    ensures closed { OnTrue result (IsClosedOn axis whole.now boxes.new) }
{
    let mut count = FEW;
    while count < boxes.len() / 4 {
        if is_blocked(whole, axis, ordered, boxes, count) {
            return true;
        }
        count = count.saturating_mul(4);
    }
    false
}
