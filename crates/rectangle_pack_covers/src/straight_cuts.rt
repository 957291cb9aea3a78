//! Whether straight cuts part a bin into boxes that stand in it, and how.
ghost use Rattle.std.specs.Prelude.{◌≡◌, ◌++◌, true, filter, All, IfOk};
ghost use Rattle.rectangle_pack_sections.specs.Bins.{whole};
ghost use Rattle.rectangle_pack_sections.specs.Boxes.{has_cells};
ghost use Rattle.rectangle_pack_sections.specs.CutTrees.{IsFromCuts};
ghost use Rattle.rectangle_pack_plans.specs.CutPlans.{IsCutPlan};
ghost use Rattle.rectangle_pack_covers.specs.StraightCuts.{IsCutsAnswer};

use crate::parts::{add_with_cells, all_of, with_cells};
use crate::sections::{SectionsError, check_sections};
use rectangle_pack_plans::cut_anew::cut_anew;
use rectangle_pack_plans::cut_plan::{CutStep, plan_of};
use rectangle_pack_sections::bin_section::BinSection;
use rectangle_pack_sections::width_height_depth::WidthHeightDepth;
use std::alloc::{AllocError, Allocator, Global};

/// Straight cuts that part a bin into boxes and what is free beside them.
#[derive(Drop)]
pub struct StraightCuts<A: Allocator + Copy = Global> {
    /// What is free, in sections, the thickest first.
    pub free: Vec<BinSection, A>,
    /// The cutting plan of the boxes and of what is free, boxes without cells aside.
    pub steps: Vec<CutStep, A>,
}

/// How straight cuts, each across the whole of its part, part a bin of this size into these boxes,
/// which stand in it, and what is free beside them; `None` where none do, whatever is left over.
/// Boxes without cells have no part in it, but are to be inside too.
///
/// The error names the first box that is outside the bin; or, where none is, the first that shares
/// a cell with an earlier one. Fails with `OutOfMemory` when memory is refused.
///
/// The time is about that of a sort of the boxes, but for boxes that were laid to defy it, which
/// may take the square.
///
/// ```
/// let size = WidthHeightDepth::new(10, 10, 1);
/// let left = BinSection::new(0, 0, 0, WidthHeightDepth::new(4, 10, 1));
/// let cuts = straight_cuts(alloc, size, &[left])?.ok_or("no such cuts")?;
/// let right = BinSection::new(4, 0, 0, WidthHeightDepth::new(6, 10, 1));
/// assert_eq!(rt; cuts.free.as_slice(), [right].as_slice());
/// let cut = CutStep::Cut {
///     axis: Axis::X,
///     place: 4,
/// };
/// assert_eq!(rt;
///     cuts.steps.as_slice(),
///     [cut, CutStep::Leaf, CutStep::Leaf].as_slice()
/// );
/// ```
pub fn straight_cuts<A: Allocator + Copy>(
    alloc: A,
    size: WidthHeightDepth,
    boxes: &[BinSection],
) -> Result<Option<StraightCuts<A>>, SectionsError>
    // Cuts: the boxes are inside the bin and share no cell. The free sections are those to which
    //   `Session::recut` parts what is free round them, and the plan is that of
    //   `Session::cut_plan`. [all_parts.free_sections_are_left_out]
    // `None`: the boxes are inside the bin and share no cell, and there are no free sections with
    //   which they are from straight cuts of it.
    // `Outside`, `SharesCell`: the first box that is outside, or, where none is, the first two that
    //   share a cell.
    ensures { IsCutsAnswer size boxes.now result }
{
    check_sections(alloc, size, boxes)?;
    let mut standing = with_cells(alloc, boxes)?;
    let Some(free) = cut_anew(alloc, all_of(size), standing.as_mut_slice())? else {
        return Ok(None);
    };
    let steps = planned(alloc, size, free.as_slice(), boxes)?;
    Ok(Some(StraightCuts { free, steps }))
}

// These free sections, and behind them the boxes that have cells.
fn all_parts<A: Allocator>(
    alloc: A,
    free: &[BinSection],
    boxes: &[BinSection],
) -> Result<Vec<BinSection, A>, AllocError>
    ensures { IfOk result (λ all. all.items ≡ free.now ++ filter has_cells boxes.now) }
{
    let mut all = Vec::new(alloc);
    all.extend_from_slice(free)?;
    add_with_cells(&mut all, boxes)?;
    Ok(all)
}

// The plan of free sections and boxes that are from cuts of the bin.
fn planned<A: Allocator + Copy>(
    alloc: A,
    size: WidthHeightDepth,
    free: &[BinSection],
    boxes: &[BinSection],
) -> Result<Vec<CutStep, A>, AllocError>
    requires cells { All (λ s. has_cells s ≡ true) free.now }
    requires from_cuts { IsFromCuts (free.now ++ filter has_cells boxes.now) (whole size) }
    ensures { IfOk result
        (λ steps. IsCutPlan (free.now ++ filter has_cells boxes.now) (whole size) steps.items) }
{
    let mut parts = all_parts(alloc, free, boxes)?;
    match plan_of(alloc, all_of(size), parts.as_mut_slice())? {
        Some(steps) => Ok(steps),
        None => unreachable!(),
    }
}
