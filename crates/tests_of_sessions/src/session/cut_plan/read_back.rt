//! Plans by their definition, and plans read back into boxes.

use rectangle_pack::{Axis, CutStep};
use std::alloc::{AllocError, Global};

/// A box with cells, by its numbers: x, y, z, width, height, depth.
pub type Cuboid = [u32; 6];

const AXES: [Axis; 3] = [Axis::X, Axis::Y, Axis::Z];

// Where a box starts on an axis, and how far it runs.
fn extent(cuboid: &Cuboid, axis: Axis) -> (u32, u32) {
    let [x, y, z, width, height, depth] = *cuboid;
    match axis {
        Axis::X => (x, width),
        Axis::Y => (y, height),
        Axis::Z => (z, depth),
    }
}

// Whether a box has this place strictly inside it on the axis.
fn is_inside(cuboid: &Cuboid, axis: Axis, place: u32) -> bool {
    let (start, size) = extent(cuboid, axis);
    start < place && place - start < size
}

// Whether both boxes run over some place of the axis.
fn meets(one: &Cuboid, other: &Cuboid, axis: Axis) -> bool {
    let (start, size) = extent(one, axis);
    let (other_start, other_size) = extent(other, axis);
    other_start.saturating_sub(start) < size && start.saturating_sub(other_start) < other_size
}

fn shares_cell(one: &Cuboid, other: &Cuboid) -> bool {
    meets(one, other, Axis::X) && meets(one, other, Axis::Y) && meets(one, other, Axis::Z)
}

// Whether no box has this place strictly inside it, of those that fill the part.
fn is_open(part: &Cuboid, boxes: &[Cuboid], axis: Axis, place: u32) -> bool {
    for filling in boxes {
        if shares_cell(filling, part) && is_inside(filling, axis, place) {
            return false;
        }
    }
    true
}

// The cut at the least place on the axis, strictly inside the part, that goes through no box.
fn cut_on(part: &Cuboid, boxes: &[Cuboid], axis: Axis) -> Option<CutStep> {
    let (start, size) = extent(part, axis);
    for below in 1..size {
        let place = start.saturating_add(below);
        if is_open(part, boxes, axis, place) {
            return Some(CutStep::Cut { axis, place });
        }
    }
    None
}

// How many of the boxes fill the part.
fn count_filling(part: &Cuboid, boxes: &[Cuboid]) -> usize {
    let mut count = 0usize;
    for cuboid in boxes {
        if shares_cell(cuboid, part) {
            count = count.saturating_add(1);
        }
    }
    count
}

// What the plan of a part begins with, by the definition; `None` where there is no plan of it.
fn first_step(part: &Cuboid, boxes: &[Cuboid]) -> Option<CutStep> {
    if count_filling(part, boxes) <= 1 {
        return Some(CutStep::Leaf);
    }
    for axis in AXES {
        if let Some(step) = cut_on(part, boxes, axis) {
            return Some(step);
        }
    }
    None
}

// The two parts of a box on both sides of a place that it has strictly inside it.
fn parts_at(cuboid: &Cuboid, axis: Axis, place: u32) -> (Cuboid, Cuboid) {
    let [x, y, z, width, height, depth] = *cuboid;
    let (start, size) = extent(cuboid, axis);
    let below = place.saturating_sub(start);
    let above = size.saturating_sub(below);
    match axis {
        Axis::X => (
            [x, y, z, below, height, depth],
            [place, y, z, above, height, depth],
        ),
        Axis::Y => (
            [x, y, z, width, below, depth],
            [x, place, z, width, above, depth],
        ),
        Axis::Z => (
            [x, y, z, width, height, below],
            [x, y, place, width, height, above],
        ),
    }
}

// Puts the parts of a box that is cut on the pending ones, the lower part last.
fn push_parts(
    pending: &mut Vec<Cuboid>,
    cuboid: &Cuboid,
    axis: Axis,
    place: u32,
) -> Result<(), AllocError> {
    let (lower, upper) = parts_at(cuboid, axis, place);
    pending.push(upper)?;
    pending.push(lower)?;
    Ok(())
}

// Puts the steps of the pending parts into the plan. It is `false` where there is no plan of one.
fn plan_parts(
    plan: &mut Vec<CutStep>,
    pending: &mut Vec<Cuboid>,
    boxes: &[Cuboid],
) -> Result<bool, AllocError> {
    // Each box has one leaf, and there is one cut less than there are leaves.
    for _step in 0..boxes.len().saturating_mul(2).max(1) {
        let Some(part) = pending.pop() else {
            return Ok(true);
        };
        let Some(step) = first_step(&part, boxes) else {
            return Ok(false);
        };
        plan.push(step)?;
        if let CutStep::Cut { axis, place } = step {
            push_parts(pending, &part, axis, place)?;
        }
    }
    Ok(true)
}

/// The plan of a box that these fill, by the definition: at each part each place of each axis is
/// tried against each box.
pub fn defined_plan(
    alloc: Global,
    whole: Cuboid,
    boxes: &[Cuboid],
) -> Result<Option<Vec<CutStep>>, AllocError> {
    let mut pending = [whole].to_vec(alloc)?;
    let mut plan = Vec::new(alloc);
    let is_planned = plan_parts(&mut plan, &mut pending, boxes)?;
    Ok(if is_planned { Some(plan) } else { None })
}

// Takes a step of a plan: a leaf, or a cut strictly inside the next part. Otherwise it is `false`.
fn read_step(
    leaves: &mut Vec<Cuboid>,
    pending: &mut Vec<Cuboid>,
    step: &CutStep,
) -> Result<bool, AllocError> {
    let Some(part) = pending.pop() else {
        return Ok(false);
    };
    match step {
        CutStep::Leaf => leaves.push(part)?,
        CutStep::Cut { axis, place } => {
            if !is_inside(&part, *axis, *place) {
                return Ok(false);
            }
            push_parts(pending, &part, *axis, *place)?;
        }
    }
    Ok(true)
}

// Takes each step of a plan. It is `false` where the plan goes on too long or not long enough, or
// cuts a part at its end or beyond.
fn read_steps(
    leaves: &mut Vec<Cuboid>,
    pending: &mut Vec<Cuboid>,
    plan: &[CutStep],
) -> Result<bool, AllocError> {
    for step in plan {
        if !read_step(leaves, pending, step)? {
            return Ok(false);
        }
    }
    Ok(pending.is_empty())
}

/// Whether a plan parts a box into these, which are in order.
pub fn parts_into(
    alloc: Global,
    whole: Cuboid,
    plan: &[CutStep],
    boxes: &[Cuboid],
) -> Result<bool, AllocError> {
    let mut pending = [whole].to_vec(alloc)?;
    let mut leaves = Vec::new(alloc);
    let is_whole = read_steps(&mut leaves, &mut pending, plan)?;
    leaves.sort_unstable();
    Ok(is_whole && leaves.as_slice() == boxes)
}
