//! Lower parts that are cut off a part one after another, while its boxes stay in order on x and y.
ghost use Rattle.std.specs.Prelude.{◌≡◌, ◌<◌, ◌≤◌, ◌++◌, Some, List, [], length, take, drop, reverse, IfOk, IfSome, MatchBool};
ghost use Rattle.std.specs.List.Sorted.{IsPermutation, IsNonDecreasingBy};
ghost use Rattle.rectangle_pack_sections.specs.declared.axis.Axis.TheVariants.{Z};
ghost use Rattle.rectangle_pack_sections.specs.Boxes.{start};
ghost use Rattle.rectangle_pack_sections.specs.CutTrees.{upper, HaveSameBoxes};
ghost use Rattle.rectangle_pack_plans.specs.declared.cut_plan.Part.{Part};
ghost use Rattle.rectangle_pack_plans.specs.private.Pending.{IsPeeled};
ghost use Rattle.rectangle_pack_plans.specs.private.CutPlans.{IsFilled, is_left, left_in, IsLeftIn, FindsPlane, start_rank, along, AreInOrder, IsKeptSplit, IsKeptAbove};

use crate::cut_plan::split::Split;
use crate::cut_plan::{Part, cut};
use rectangle_pack_sections::axis::Axis;
use rectangle_pack_sections::bin_section::BinSection;
use rectangle_pack_sections::span::Span;
use std::alloc::{AllocError, Allocator};

// What a look along an axis finds: the first open plane, and how many boxes are below it; that none
// is open; or nothing in the steps that it had.
#[derive(Clone, Copy)]
enum Look {
    Open(u32, usize),
    Closed,
    Unknown,
}

// Whether a box of a part is left, once lower parts were cut off it: none stands before its corner.
#[tactic(auto, unfolding(rectangle_pack_sections::specs::Boxes::start, crate::specs::private::CutPlans::is_left))]
fn is_left(part: &BinSection, next: &BinSection) -> bool
    ensures { result ≡ is_left part.now next.now }
{
    (part.x() <= next.x()) & (part.y() <= next.y()) & (part.z() <= next.z())
}

// By which boxes stand in order of their starts on an axis, the longest first.
fn rank(section: &BinSection, axis: Axis) -> u64
    ensures { result ≡ start_rank axis section.now }
{
    let span = Span::of(section, axis);
    u64::from(span.start) * 4294967296 + u64::from(u32::MAX - span.length)
}

// Copies of boxes, in order of their starts on an axis, and the longest first.
fn in_order<A: Allocator>(
    alloc: A,
    axis: Axis,
    boxes: &[BinSection],
) -> Result<Vec<BinSection, A>, AllocError>
    ensures permutation { IfOk result (λ copies. IsPermutation boxes.now copies.items) }
    ensures ordered { IfOk result (λ copies. IsNonDecreasingBy (start axis) copies.items) }
{
    let mut copies = Vec::from_slice(alloc, boxes)?;
    copies.sort_unstable_by_key(|b| rank(b, axis));
    Ok(copies)
}

// The first open plane on an axis among the boxes that are left, which stand in order on it.
fn look_along(part: &BinSection, axis: Axis, order: &[BinSection], steps: &mut usize) -> Look
    requires filled { IsFilled part.now (left_in part.now order.now) }
    requires ordered { IsNonDecreasingBy (start axis) order.now }
    requires some { 0 < length (left_in part.now order.now) }
    ensures { FindsPlane axis part.now (left_in part.now order.now) result }
{
    let whole = Span::of(part, axis);
    let mut reach = whole.start;
    let mut below = 0;
    for next in order {
        if *steps == 0 {
            return Look::Unknown;
        }
        *steps -= 1;
        if !is_left(part, next) {
            continue;
        }
        let span = Span::of(next, axis);
        if below > 0 && reach <= span.start {
            return Look::Open(reach, below);
        }
        reach = reach.max(span.end());
        if whole.end() <= reach {
            return Look::Closed;
        }
        below += 1;
    }
    Look::Closed
}

// The boxes of an order from the first on that is left.
fn skip<'a>(part: &BinSection, order: &'a [BinSection]) -> &'a [BinSection]
    ensures { IsLeftIn part.now 0 order.now result.now }
{
    for (i, next) in order.iter().enumerate() {
        if is_left(part, next) {
            return &order[i..];
        }
    }
    &[]
}

// Puts the first boxes of an order that are left into `to`, as many as it takes. The boxes behind
// them.
fn take_off<'a>(
    part: &BinSection,
    order: &'a [BinSection],
    to: &mut [BinSection],
) -> &'a [BinSection]
    requires enough { length to.old ≤ length (left_in part.now order.now) }
    ensures taken { to.new ≡ take (length to.old) (left_in part.now order.now) }
    ensures rest { IsLeftIn part.now (length to.old) order.now result.now }
{
    let mut count = 0;
    for (i, next) in order.iter().enumerate() {
        if count == to.len() {
            return &order[i..];
        }
        if is_left(part, next) {
            to[count] = *next;
            count += 1;
        }
    }
    &[]
}

// The boxes that are left of a part, in order along each axis, with others among them that were cut
// off. Where the part is flat, the last may be in any order.
#[derive(Clone, Copy)]
struct Orders<'a> {
    x: &'a [BinSection],
    y: &'a [BinSection],
    z: &'a [BinSection],
}

fn along<'a>(orders: &Orders<'a>, axis: Axis) -> &'a [BinSection]
    ensures { result.now ≡ along axis orders.now.x.now orders.now.y.now orders.now.z.now }
{
    match axis {
        Axis::X => orders.x,
        Axis::Y => orders.y,
        Axis::Z => orders.z,
    }
}

// Whether this is z, and no plane across it can be open.
fn is_flat_along(part: &BinSection, axis: Axis) -> bool
    ensures { MatchBool result (part.now.whd.depth ≤ 1) (axis ≡ Z → 1 < part.now.whd.depth) }
{
    axis == Axis::Z && part.whd().depth() <= 1
}

// The first open plane, by axis x, y, z and then by the least place, if the looks are enough.
fn next_cut(part: &BinSection, orders: &Orders, looks: &mut usize) -> Option<Split>
    requires ordered { AreInOrder part.now orders.now.x.now orders.now.y.now orders.now.z.now }
    requires some { 0 < length (left_in part.now orders.now.x.now) }
    ensures { IfSome result
        (IsKeptSplit part.now orders.now.x.now orders.now.y.now orders.now.z.now) }
{
    for axis in [Axis::X, Axis::Y, Axis::Z] {
        if is_flat_along(part, axis) {
            return None;
        }
        match look_along(part, axis, along(orders, axis), looks) {
            Look::Open(place, below) => return Some(split_at(axis, place, below)),
            Look::Unknown => return None,
            Look::Closed => {}
        }
    }
    None
}

fn split_at(axis: Axis, place: u32, below: usize) -> Split
    ensures axis { result.axis ≡ axis }
    ensures place { result.place ≡ place }
    ensures below { result.below ≡ below }
    ensures ordered { result.ordered ≡ Some axis }
{
    Split {
        axis,
        place,
        below,
        ordered: Some(axis),
        is_anew: false,
    }
}

// Puts the boxes below a split into `to`. The orders of those above it.
fn advance<'a>(
    part: &BinSection,
    above: &BinSection,
    split: &Split,
    orders: &Orders<'a>,
    to: &mut [BinSection],
) -> Orders<'a>
    requires ordered { AreInOrder part.now orders.now.x.now orders.now.y.now orders.now.z.now }
    requires split { IsKeptSplit part.now orders.now.x.now orders.now.y.now orders.now.z.now
        split.now }
    requires above { above.now ≡ upper split.now.axis split.now.place part.now }
    requires room { length to.old ≡ split.now.below }
    ensures taken { to.new ≡ take split.now.below (left_in part.now
        (along split.now.axis orders.now.x.now orders.now.y.now orders.now.z.now)) }
    ensures kept { IsKeptAbove part.now split.now (left_in part.now
        (along split.now.axis orders.now.x.now orders.now.y.now orders.now.z.now))
        result.x.now result.y.now result.z.now }
{
    let rest = take_off(part, along(orders, split.axis), to);
    let rest = skip(above, rest);
    match split.axis {
        Axis::X => Orders {
            x: rest,
            y: skip(above, orders.y),
            z: skip(above, orders.z),
        },
        Axis::Y => Orders {
            x: skip(above, orders.x),
            y: rest,
            z: skip(above, orders.z),
        },
        Axis::Z => Orders {
            x: skip(above, orders.x),
            y: skip(above, orders.y),
            z: rest,
        },
    }
}

// So often the boxes of a part are put in order anew before its orders are kept.
pub(crate) const TURNS: u32 = 2;

// How many looks at boxes there are for each box of a part, and how many are left out for each cut:
// the cuts of one go are a quarter as many as the boxes at most.
const LOOKS: usize = 8;

const LOOKS_OF_CUT: usize = 32;

// Cuts lower parts off a part, as long as planes are soon found, and puts them behind the pending
// parts, and behind them what is left. Puts the boxes in the order of these parts. Whether one was
// cut off.
fn cut_off<A: Allocator>(
    part: &Part,
    orders: Orders,
    boxes: &mut [BinSection],
    pending: &mut Vec<Part, A>,
) -> Result<bool, AllocError>
    requires ordered { AreInOrder part.now.whole orders.x.now orders.y.now orders.z.now }
    requires same { HaveSameBoxes boxes.old (left_in part.now.whole orders.x.now) }
    requires length { length (left_in part.now.whole orders.x.now) ≡ length boxes.old }
    requires count { part.now.count ≡ length boxes.old }
    requires some { 0 < length boxes.old }
    ensures { IfOk result (λ is_cut. (parts : List Part) ×
        (pending.new.items ≡ pending.old.items ++ parts) ×
        MatchBool is_cut (IsPeeled part.now boxes.old boxes.new parts)
        ((boxes.new ≡ boxes.old) × (parts ≡ []))) }
{
    let mut orders = orders;
    let mut rest = Part {
        ordered: None,
        before: None,
        ..*part
    };
    let mut looks = boxes.len().saturating_mul(LOOKS);
    let mut done = 0;
    while let Some(split) = next_cut(&rest.whole, &orders, &mut looks) {
        let (below, above) = cut(&rest, &split);
        let end = done + split.below;
        let to = &mut boxes[done..end];
        orders = advance(&rest.whole, &above.whole, &split, &orders, to);
        pending.push(below)?;
        rest = Part {
            ordered: None,
            ..above
        };
        done = end;
        looks = looks.saturating_sub(LOOKS_OF_CUT);
    }
    if done == 0 {
        return Ok(false);
    }
    let turns = if done < boxes.len() / 8 {
        0
    } else {
        part.turns
    };
    take_off(&rest.whole, orders.x, &mut boxes[done..]);
    pending.push(Part {
        ordered: Some(Axis::X),
        turns,
        ..rest
    })?;
    Ok(true)
}

// Puts the parts from one on in reverse order.
fn reverse_from(parts: &mut [Part], first: usize)
    requires { first ≤ length parts.old }
    ensures { parts.new ≡ take first parts.old ++ reverse (drop first parts.old) }
{
    parts[first..].reverse();
}

// The same, but that the first of the parts is put behind the pending ones as the last.
fn peel_in<A: Allocator>(
    part: &Part,
    orders: Orders,
    boxes: &mut [BinSection],
    pending: &mut Vec<Part, A>,
) -> Result<bool, AllocError>
    requires ordered { AreInOrder part.now.whole orders.x.now orders.y.now orders.z.now }
    requires same { HaveSameBoxes boxes.old (left_in part.now.whole orders.x.now) }
    requires length { length (left_in part.now.whole orders.x.now) ≡ length boxes.old }
    requires count { part.now.count ≡ length boxes.old }
    requires some { 0 < length boxes.old }
    ensures { IfOk result (λ is_cut. (parts : List Part) ×
        (pending.new.items ≡ pending.old.items ++ reverse parts) ×
        MatchBool is_cut (IsPeeled part.now boxes.old boxes.new parts)
        ((boxes.new ≡ boxes.old) × (parts ≡ []))) }
{
    let first = pending.len();
    let is_cut = cut_off(part, orders, boxes, pending)?;
    reverse_from(pending.as_mut_slice(), first);
    Ok(is_cut)
}

// Cuts lower parts off a part, as long as planes are soon found, and puts them behind the pending
// parts, the first one last, and before them what is left. Puts the boxes in the order of these
// parts. Whether one was cut off.
fn peel_all<A: Allocator + Copy>(
    alloc: A,
    part: &Part,
    boxes: &mut [BinSection],
    pending: &mut Vec<Part, A>,
) -> Result<bool, AllocError>
    requires filled { IsFilled part.now.whole boxes.old }
    requires count { part.now.count ≡ length boxes.old }
    requires some { 0 < length boxes.old }
    ensures { IfOk result (λ is_cut. (parts : List Part) ×
        (pending.new.items ≡ pending.old.items ++ reverse parts) ×
        MatchBool is_cut (IsPeeled part.now boxes.old boxes.new parts)
        ((boxes.new ≡ boxes.old) × (parts ≡ []))) }
{
    let x_order = in_order(alloc, Axis::X, boxes)?;
    let y_order = in_order(alloc, Axis::Y, boxes)?;
    let (x, y) = (x_order.as_slice(), y_order.as_slice());
    if is_flat_along(&part.whole, Axis::Z) {
        return peel_in(part, Orders { x, y, z: x }, boxes, pending);
    }
    let z_order = in_order(alloc, Axis::Z, boxes)?;
    let z = z_order.as_slice();
    peel_in(part, Orders { x, y, z }, boxes, pending)
}

// The same, but only where the boxes of the part were put in order anew too often.
pub(crate) fn peel<A: Allocator + Copy>(
    alloc: A,
    part: &Part,
    boxes: &mut [BinSection],
    pending: &mut Vec<Part, A>,
) -> Result<bool, AllocError>
    requires filled { IsFilled part.now.whole boxes.old }
    requires count { part.now.count ≡ length boxes.old }
    requires some { 0 < length boxes.old }
    ensures { IfOk result (λ is_cut. (parts : List Part) ×
        (pending.new.items ≡ pending.old.items ++ reverse parts) ×
        MatchBool is_cut (IsPeeled part.now boxes.old boxes.new parts)
        ((boxes.new ≡ boxes.old) × (parts ≡ []))) }
{
    if part.turns < TURNS {
        return Ok(false);
    }
    peel_all(alloc, part, boxes, pending)
}
