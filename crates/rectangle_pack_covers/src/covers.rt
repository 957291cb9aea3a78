//! Boxes that are to be all of a bin: whether each is inside, no two share a cell, no cell is in
//! none, and straight cuts leave them.
ghost use Rattle.std.specs.Prelude.{◌≡◌, ◌↔◌, IfOk, IsTrue, MatchBool};
ghost use Rattle.rectangle_pack_sections.specs.Bins.{IsSound, whole};
ghost use Rattle.rectangle_pack_sections.specs.Boxes.{volume_of};
ghost use Rattle.rectangle_pack_sections.specs.Counting.{total_volume};
ghost use Rattle.rectangle_pack_sections.specs.Covering.{CoverBin};
ghost use Rattle.rectangle_pack_sections.specs.CutTrees.{IsFromCuts};
ghost use Rattle.rectangle_pack_covers.specs.Covers.{IsBinAnswer};

use crate::parts::{all_of, with_cells};
use crate::sections::{SectionsError, check_sections};
use rectangle_pack_plans::cut_plan::plan_of;
use rectangle_pack_sections::bin_section::BinSection;
use rectangle_pack_sections::width_height_depth::WidthHeightDepth;
use std::alloc::{AllocError, Allocator};

/// What may be wrong with the boxes of a bin, in the order in which it is looked for. Boxes are
/// named by their places in the list.
#[derive(Debug, Clone, Copy, PartialEq, Eq)]
pub enum BinFault {
    /// A box is not inside the bin.
    Outside {
        /// The box.
        index: usize,
    },
    /// Two boxes share a cell.
    SharesCell {
        /// The earlier box.
        first: usize,
        /// The later one.
        second: usize,
    },
    /// Some cell of the bin is in none of the boxes.
    CellInNone,
    /// No straight cuts of the bin leave all boxes whole.
    NotFromCuts,
}

/// What is wrong first with boxes that are to be all of a bin of this size: as `check_sections`
/// says it; or that some cell is in none of them; or, where that is asked, that no straight cuts
/// leave them, those without cells aside. Fails only when memory is refused.
pub fn first_fault_in_bin<A: Allocator + Copy>(
    alloc: A,
    size: WidthHeightDepth,
    boxes: &[BinSection],
    from_cuts: bool,
) -> Result<Option<BinFault>, AllocError>
    // `None`: each box is inside the bin, and each cell of the bin is in exactly one of them; and
    //   they are from straight cuts of it, where that is asked.
    //   [first_fault_in_bin.cuts_are_asked_where_they_are_not]
    // Else the first box that is outside; or the first two that share a cell; or, where the boxes
    //   are inside and share none, that they do not have all cells; or that they have, and no
    //   straight cuts leave them. [fill.cell_may_be_left, are_from_cuts.no_plan_is_a_plan]
    ensures { IfOk result (IsBinAnswer size from_cuts boxes.now) }
{
    match check_sections(alloc, size, boxes) {
        Ok(()) => first_fault_of_sound(alloc, size, boxes, from_cuts),
        Err(SectionsError::Outside { index }) => Ok(Some(BinFault::Outside { index })),
        Err(SectionsError::SharesCell { first, second }) => {
            Ok(Some(BinFault::SharesCell { first, second }))
        }
        Err(SectionsError::OutOfMemory) => Err(AllocError),
    }
}

// What is wrong first with boxes that are inside the bin and share no cell.
fn first_fault_of_sound<A: Allocator + Copy>(
    alloc: A,
    size: WidthHeightDepth,
    boxes: &[BinSection],
    from_cuts: bool,
) -> Result<Option<BinFault>, AllocError>
    requires { IsSound size boxes.now }
    ensures { IfOk result (IsBinAnswer size from_cuts boxes.now) }
{
    if !fill(size, boxes) {
        return Ok(Some(BinFault::CellInNone));
    }
    if from_cuts && !are_from_cuts(alloc, size, boxes)? {
        return Ok(Some(BinFault::NotFromCuts));
    }
    Ok(None)
}

// Whether the boxes have as many cells as the bin, together.
fn fill(size: WidthHeightDepth, boxes: &[BinSection]) -> bool
    ensures { IsTrue result ↔ (total_volume boxes.now ≡ volume_of size) }
{
    let mut left = size.volume();
    for section in boxes {
        match left.checked_sub(section.whd().volume()) {
            Some(rest) => left = rest,
            None => return false,
        }
    }
    left == 0
}

// Whether straight cuts leave boxes that cover the bin.
fn are_from_cuts<A: Allocator + Copy>(
    alloc: A,
    size: WidthHeightDepth,
    boxes: &[BinSection],
) -> Result<bool, AllocError>
    requires { CoverBin boxes.now size }
    ensures { IfOk result (λ they_are. MatchBool they_are (IsFromCuts boxes.now (whole size))
        (¬ IsFromCuts boxes.now (whole size))) }
{
    let mut parts = with_cells(alloc, boxes)?;
    match plan_of(alloc, all_of(size), parts.as_mut_slice())? {
        Some(_) => Ok(true),
        None => Ok(false),
    }
}
