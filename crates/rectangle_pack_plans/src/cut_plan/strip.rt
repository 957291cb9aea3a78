//! A part whose last box is all that is above its first open plane: a strip.
ghost use Rattle.std.specs.Prelude.{◌≢◌, ◌≤◌, IfSome};
ghost use Rattle.std.specs.Bool.{OnTrue};
ghost use Rattle.std.specs.List.Sorted.{IsPermutation};
ghost use Rattle.rectangle_pack_sections.specs.declared.axis.Axis.{Axis};
ghost use Rattle.rectangle_pack_sections.specs.Boxes.{FitsU32, start, end};
ghost use Rattle.rectangle_pack_plans.specs.private.CutPlans.{IsFilled, IsStrip, IsSplit, RunsOver};

use crate::cut_plan::split::Split;
use rectangle_pack_sections::axis::Axis;
use rectangle_pack_sections::bin_section::BinSection;
use rectangle_pack_sections::span::Span;

// The axis on which a box does not run over all of a part, if that is one alone.
fn across(part: &BinSection, section: &BinSection) -> Option<Axis>
    ensures { IfSome result (λ a. (e : Axis) → a ≢ e → RunsOver e section.now part.now) }
{
    let on_x = Span::of(section, Axis::X) == Span::of(part, Axis::X);
    let on_y = Span::of(section, Axis::Y) == Span::of(part, Axis::Y);
    let on_z = Span::of(section, Axis::Z) == Span::of(part, Axis::Z);
    match (on_x, on_y, on_z) {
        (false, true, true) => Some(Axis::X),
        (true, false, true) => Some(Axis::Y),
        (true, true, false) => Some(Axis::Z),
        _ => None,
    }
}

// The axis on which a box is all of a part that is above its start.
fn strip_on(part: &BinSection, section: &BinSection) -> Option<Axis>
    requires part { FitsU32 part.now }
    requires section { FitsU32 section.now }
    ensures { IfSome result (λ a. IsStrip a part.now section.now) }
{
    let axis = across(part, section)?;
    let (whole, strip) = (Span::of(part, axis), Span::of(section, axis));
    if whole.start < strip.start && strip.end() == whole.end() {
        Some(axis)
    } else {
        None
    }
}

// Whether a box runs from the start of a part up to a strip.
fn runs_up_to(part: &BinSection, axis: Axis, strip: &BinSection, section: &BinSection) -> bool
    requires { FitsU32 section.now }
    ensures from { OnTrue result (start axis section.now ≤ start axis part.now) }
    ensures to { OnTrue result (start axis strip.now ≤ end axis section.now) }
{
    let span = Span::of(section, axis);
    (span.start <= Span::of(part, axis).start) & (Span::of(strip, axis).start <= span.end())
}

// The first open plane, where the last box is a strip above it, and the one before it shows that no
// lower one is open.
pub(crate) fn last_strip(part: &BinSection, boxes: &[BinSection]) -> Option<Split>
    requires { IsFilled part.now boxes.now }
    ensures { IfSome result (IsSplit part.now boxes.now) }
{
    if boxes.len() < 2 {
        return None;
    }
    let below = boxes.len() - 1;
    let (next, last) = (&boxes[below - 1], &boxes[below]);
    let axis = strip_on(part, last)?;
    if !runs_up_to(part, axis, last, next) {
        return None;
    }
    Some(Split {
        axis,
        place: Span::of(last, axis).start,
        below,
        ordered: None,
        is_anew: false,
    })
}

// The box that is a strip, if one is, and its axis.
fn find_strip(part: &BinSection, boxes: &[BinSection]) -> Option<(Axis, BinSection)>
    requires { IsFilled part.now boxes.now }
{
    for next in boxes {
        if let Some(axis) = strip_on(part, next) {
            return Some((axis, *next));
        }
    }
    None
}

// Whether one of the boxes is a strip, and another shows that no plane below it is open.
fn has_strip(part: &BinSection, boxes: &[BinSection]) -> bool
    requires { IsFilled part.now boxes.now }
{
    let Some((axis, strip)) = find_strip(part, boxes) else {
        return false;
    };
    for next in boxes {
        if runs_up_to(part, axis, &strip, next) {
            return true;
        }
    }
    false
}

// The sum of the places where a box ends.
fn end_sum(section: &BinSection) -> u64 {
    let mut sum = 0u64;
    for axis in [Axis::X, Axis::Y, Axis::Z] {
        let span = Span::of(section, axis);
        sum = sum
            .wrapping_add(u64::from(span.start))
            .wrapping_add(u64::from(span.length));
    }
    sum
}

// Among how many boxes at least strips are looked for: fewer are soon put in order anew.
const MANY: usize = 1000;

// Where one of the boxes is a strip, puts them in order, so that strips that can be cut off one after
// another are last: each ends beyond all that is then left. The first open plane, if that shows.
// A few boxes, or such as are in no order, are left alone.
pub(crate) fn put_strips_last(
    part: &BinSection,
    ordered: Option<Axis>,
    boxes: &mut [BinSection],
) -> Option<Split>
    requires { IsFilled part.now boxes.old }
    ensures permutation { IsPermutation boxes.old boxes.new }
    ensures split { IfSome result (IsSplit part.now boxes.new) }
{
    if boxes.len() < MANY || ordered.is_none() || !has_strip(part, boxes) {
        return None;
    }
    boxes.sort_unstable_by_key(end_sum);
    last_strip(part, boxes)
}
