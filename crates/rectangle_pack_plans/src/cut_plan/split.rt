//! The first open plane of a box that others fill.
ghost use Rattle.std.specs.Prelude.{◌+◌, ◌<◌, length, MatchOption};
ghost use Rattle.std.specs.List.Sorted.{IsPermutation, IsNonDecreasingBy};
ghost use Rattle.rectangle_pack_sections.specs.Boxes.{start};
ghost use Rattle.rectangle_pack_plans.specs.CutPlans.{axis_rank};
ghost use Rattle.rectangle_pack_plans.specs.private.CutPlans.{IsFilled, AreOrdered, IsClosedOn, AreClosed, IsFirstOpen, IsSplit};

use crate::cut_plan::order::{is_closed_at_ends, order_on};
use crate::cut_plan::strip::{last_strip, put_strips_last};
use rectangle_pack_sections::axis::Axis;
use rectangle_pack_sections::bin_section::BinSection;
use rectangle_pack_sections::span::Span;

// Where a part is cut, how many of its boxes are below the cut, on which axis they are in order, if
// that is known, and whether they had to be put in order anew.
#[derive(Clone, Copy)]
pub(crate) struct Split {
    pub axis: Axis,
    pub place: u32,
    pub below: usize,
    pub ordered: Option<Axis>,
    pub is_anew: bool,
}

// The first open plane on an axis, where the boxes stand in order on it: its place, and how many
// boxes are below it. It is where all earlier boxes have ended.
fn first_open_plane(whole: &BinSection, axis: Axis, boxes: &[BinSection]) -> Option<(u32, usize)>
    requires filled { IsFilled whole.now boxes.now }
    requires ordered { IsNonDecreasingBy (start axis) boxes.now }
    requires some { 0 < length boxes.now }
    ensures { MatchOption result (IsClosedOn axis whole.now boxes.now)
        (λ found. IsFirstOpen axis whole.now boxes.now found.0 found.1) }
{
    let mut reach = Span::of(whole, axis).start;
    for (i, next) in boxes.iter().enumerate() {
        let span = Span::of(next, axis);
        if i > 0 && reach <= span.start {
            return Some((reach, i));
        }
        reach = reach.max(span.end());
    }
    None
}

// The first open plane, where none is open on the axes before this one, on which the boxes stand in
// order; `None` where none is open on this one.
fn plane_on(whole: &BinSection, axis: Axis, boxes: &[BinSection]) -> Option<Split>
    requires filled { IsFilled whole.now boxes.now }
    requires ordered { IsNonDecreasingBy (start axis) boxes.now }
    requires some { 0 < length boxes.now }
    requires closed { AreClosed (axis_rank axis) whole.now boxes.now }
    ensures { MatchOption result (AreClosed (axis_rank axis + 1) whole.now boxes.now)
        (IsSplit whole.now boxes.now) }
{
    let (place, below) = first_open_plane(whole, axis, boxes)?;
    Some(Split {
        axis,
        place,
        below,
        ordered: Some(axis),
        is_anew: false,
    })
}

// The same, where the boxes have to be put in order first. It may be a plane on another axis.
fn split_on(
    whole: &BinSection,
    axis: Axis,
    ordered: &mut Option<Axis>,
    boxes: &mut [BinSection],
) -> Option<Split>
    requires filled { IsFilled whole.now boxes.old }
    requires ordered { AreOrdered ordered.old boxes.old }
    requires some { 0 < length boxes.old }
    requires closed { AreClosed (axis_rank axis) whole.now boxes.old }
    ensures permutation { IsPermutation boxes.old boxes.new }
    ensures ordered { AreOrdered ordered.new boxes.new }
    ensures split { MatchOption result (AreClosed (axis_rank axis + 1) whole.now boxes.new)
        (IsSplit whole.now boxes.new) }
{
    if *ordered == Some(axis) {
        return plane_on(whole, axis, boxes);
    }
    if is_closed_at_ends(whole, axis, *ordered, boxes) {
        return None;
    }
    let strip = put_strips_last(whole, *ordered, boxes);
    *ordered = None;
    if strip.is_some() {
        return strip;
    }
    order_on(axis, boxes);
    *ordered = Some(axis);
    plane_on(whole, axis, boxes)
}

// The first open plane, by axis x, y, z and then by the least place. Puts the boxes below it in
// front of those above it.
pub(crate) fn first_split(
    whole: &BinSection,
    ordered: Option<Axis>,
    boxes: &mut [BinSection],
) -> Option<Split>
    requires filled { IsFilled whole.now boxes.old }
    requires ordered { AreOrdered ordered boxes.old }
    requires some { 0 < length boxes.old }
    ensures permutation { IsPermutation boxes.old boxes.new }
    ensures split { MatchOption result (AreClosed 3 whole.now boxes.new)
        (IsSplit whole.now boxes.new) }
{
    if ordered.is_none() {
        if let Some(split) = last_strip(whole, boxes) {
            return Some(split);
        }
    }
    let mut ordered = ordered;
    let mut is_anew = false;
    for axis in [Axis::X, Axis::Y, Axis::Z] {
        let before = ordered;
        let found = split_on(whole, axis, &mut ordered, boxes);
        is_anew |= before != ordered;
        if let Some(split) = found {
            return Some(Split { is_anew, ..split });
        }
    }
    None
}
