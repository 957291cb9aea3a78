//! Cutting plans: the straight cuts that part a box into given boxes.
ghost use Rattle.std.specs.Prelude.{◌≡◌, ◌≤◌, ◌++◌, ◌∷◌, [], List, length, reverse, IfOk, OnOk, MatchOption};
ghost use Rattle.std.specs.Option.{option_to_list};
ghost use Rattle.rectangle_pack_sections.specs.Boxes.{FitsU32};
ghost use Rattle.rectangle_pack_sections.specs.CutTrees.{IsPlaceOf, IsFromCuts};
ghost use Rattle.rectangle_pack_plans.specs.CutPlans.{IsCutPlan};
ghost use Rattle.rectangle_pack_plans.specs.declared.cut_plan.Part.{Part};
ghost use Rattle.rectangle_pack_plans.specs.declared.cut_plan.CutStep.{CutStep};
ghost use Rattle.rectangle_pack_plans.specs.declared.cut_plan.CutStep.TheVariants.{Leaf};
ghost use Rattle.rectangle_pack_plans.specs.private.CutPlans.{IsFilled, AreOrdered, lower_part, upper_part};
ghost use Rattle.rectangle_pack_plans.specs.private.Pending.{IsCutUp};

pub mod laws;
pub(crate) mod order;
pub(crate) mod parts;
mod peel;
mod split;
mod strip;

use crate::cut_plan::parts::{lower, upper};
use crate::cut_plan::peel::{TURNS, peel};
use crate::cut_plan::split::{Split, first_split};
use rectangle_pack_sections::axis::Axis;
use rectangle_pack_sections::bin_section::BinSection;
use std::alloc::{AllocError, Allocator};

/// A step of a cutting plan. The plan of a part is a `Leaf`, where it is not cut, or a `Cut`
/// followed by the plan of its lower and then the plan of its upper part.
#[derive(Debug, Clone, Copy, PartialEq)]
pub enum CutStep {
    /// A straight cut across the whole part.
    Cut {
        /// The axis that the cut stands across.
        axis: Axis,
        /// Where it stands: how many cells from the corner of the bin, not of the part.
        place: u32,
    },
    /// The part is one box, or has no cells.
    Leaf,
}

// A part that is still to be planned: how many boxes fill it, on which axis they stand in order of
// their starts, if that is known, and the cut that comes before its plan, if any. `turns` says how
// often its boxes were put in order anew since they were few.
#[derive(Clone, Copy)]
struct Part {
    whole: BinSection,
    count: usize,
    ordered: Option<Axis>,
    before: Option<CutStep>,
    turns: u32,
}

// The lower and the upper part of a part that is split.
fn cut(part: &Part, split: &Split) -> (Part, Part)
    requires fits { FitsU32 part.now.whole }
    requires place { IsPlaceOf split.now.axis split.now.place part.now.whole }
    requires some { split.now.below ≤ part.now.count }
    ensures lower { result.0 ≡ lower_part part.now split.now }
    ensures upper { result.1 ≡ upper_part part.now split.now result.1.turns }
{
    let (axis, place) = (split.axis, split.place);
    let below = Part {
        whole: lower(&part.whole, axis, place),
        count: split.below,
        ordered: split.ordered,
        before: Some(CutStep::Cut { axis, place }),
        turns: 0,
    };
    let count = part.count - split.below;
    let turns = if count < split.below || part.turns >= TURNS {
        0
    } else {
        part.turns.saturating_add(u32::from(split.is_anew))
    };
    let above = Part {
        whole: upper(&part.whole, axis, place),
        count,
        ordered: split.ordered,
        before: None,
        turns,
    };
    (below, above)
}

// Puts the cut that comes before a part at the end of the plan.
fn push_before<A: Allocator>(plan: &mut Vec<CutStep, A>, part: &Part) -> Result<(), AllocError>
    ensures { OnOk result (plan.new.items ≡ plan.old.items ++ option_to_list part.now.before) }
{
    if let Some(step) = part.before {
        plan.push(step)?;
    }
    Ok(())
}

// Puts the cut before a part of one box, and the leaf that it is, at the end of the plan.
fn push_leaf<A: Allocator>(plan: &mut Vec<CutStep, A>, part: &Part) -> Result<(), AllocError>
    ensures { OnOk result
        (plan.new.items ≡ (plan.old.items ++ option_to_list part.now.before) ++ Leaf ∷ []) }
{
    push_before(plan, part)?;
    plan.push(CutStep::Leaf)?;
    Ok(())
}

// Cuts a part with two boxes or more at its first open plane, and perhaps what is above it at further
// ones, and puts the parts behind the pending ones, the first one last. Puts the boxes in the order
// of these parts. The first part is planned at once where it is one box: how many boxes are planned;
// `None` where no plane is open.
fn cut_up<A: Allocator + Copy>(
    alloc: A,
    part: &Part,
    boxes: &mut [BinSection],
    pending: &mut Vec<Part, A>,
    plan: &mut Vec<CutStep, A>,
) -> Result<Option<usize>, AllocError>
    requires filled { IsFilled part.now.whole boxes.old }
    requires ordered { AreOrdered part.now.ordered boxes.old }
    requires count { part.now.count ≡ length boxes.old }
    requires many { 2 ≤ length boxes.old }
    ensures { IfOk result (λ cut.
        MatchOption cut (¬ IsFromCuts boxes.old part.now.whole)
        (λ planned. (parts : List Part) × (text : List CutStep)
        × (pending.new.items ≡ pending.old.items ++ reverse parts)
        × (plan.new.items ≡ plan.old.items ++ text)
        × IsCutUp part.now boxes.old boxes.new parts planned text)) }
{
    if peel(alloc, part, boxes, pending)? {
        return Ok(Some(0));
    }
    let Some(split) = first_split(&part.whole, part.ordered, boxes) else {
        return Ok(None);
    };
    let (below, above) = cut(part, &split);
    pending.push(above)?;
    if below.count == 1 {
        push_leaf(plan, &below)?;
        return Ok(Some(1));
    }
    pending.push(below)?;
    Ok(Some(0))
}

/// The plan of the whole, which the boxes fill: a cut at the first open plane of each part with two
/// boxes or more; `None` where such a part has no open plane. Puts the boxes in another order,
/// so that those of each part stand together, those of the next pending part from `done` on.
pub fn plan_of<A: Allocator + Copy>(
    alloc: A,
    whole: BinSection,
    boxes: &mut [BinSection],
) -> Result<Option<Vec<CutStep, A>>, AllocError>
    requires filled { IsFilled whole boxes.old }
    ensures { IfOk result
        (λ found.
        MatchOption found (¬ IsFromCuts boxes.old whole)
        (λ plan. IsCutPlan boxes.old whole plan.items)) }
{
    let mut plan = Vec::new(alloc);
    let mut pending = Vec::new(alloc);
    pending.push(Part {
        whole,
        count: boxes.len(),
        ordered: None,
        before: None,
        turns: 0,
    })?;
    let mut done = 0;
    while let Some(part) = pending.pop() {
        let end = done + part.count;
        if part.count <= 1 {
            push_leaf(&mut plan, &part)?;
            done = end;
            continue;
        }
        push_before(&mut plan, &part)?;
        let filling = &mut boxes[done..end];
        let Some(planned) = cut_up(alloc, &part, filling, &mut pending, &mut plan)? else {
            return Ok(None);
        };
        done += planned;
    }
    Ok(Some(plan))
}
