//! The cutting plan of a bin of a session.
ghost use Rattle.std.specs.Prelude.{◌≡◌, ◌++◌, ◌∷◌, [], filter, IfOk, OnOk};
ghost use Rattle.rectangle_pack_sections.specs.Bins.{whole};
ghost use Rattle.rectangle_pack_sections.specs.Boxes.{FitsU32, has_cells};
ghost use Rattle.rectangle_pack.specs.Session.{outstanding_in, boxes_of};
ghost use Rattle.rectangle_pack.specs.PlanAnswers.{IsPlanAnswer};

use crate::session::Session;
use crate::session::command::{Outstanding, SessionError};
use rectangle_pack_bins::target_bin::TargetBin;
use rectangle_pack_covers::parts::{add_with_cells, all_of};
use rectangle_pack_plans::cut_plan::{CutStep, plan_of};
use rectangle_pack_sections::bin_section::{BinSection, has_cells};
use rectangle_pack_sections::packed_location::section_at;
use std::alloc::{AllocError, Allocator};

// Puts a box at the end of the list, if it has cells.
fn gather<A: Allocator>(
    boxes: &mut Vec<BinSection, A>,
    section: BinSection,
) -> Result<(), AllocError>
    ensures { OnOk result
        (boxes.new.items ≡ boxes.old.items ++ filter has_cells (section ∷ [])) }
{
    if has_cells(&section) {
        boxes.push(section)?;
    }
    Ok(())
}

// Puts the outstanding boxes with cells of the bin at the end of the list.
pub(crate) fn gather_outstanding<Id, B: Ord, A: Allocator>(
    boxes: &mut Vec<BinSection, A>,
    outstanding: &[Outstanding<Id, B>],
    id: &B,
) -> Result<(), AllocError>
    ensures { OnOk result
        (boxes.new.items ≡
        boxes.old.items ++ filter has_cells (outstanding_in B.cmp outstanding.now id.now)) }
{
    for placement in outstanding {
        if placement.bin == *id {
            gather(boxes, section_at(&placement.location))?;
        }
    }
    Ok(())
}

// All of a bin.
pub(crate) fn whole<A: Allocator + Copy>(bin: &TargetBin<A>) -> BinSection
    ensures whole { result ≡ whole bin.now.bin.size }
    ensures fits { FitsU32 result }
{
    all_of(bin.max_size())
}

// The boxes with cells of a bin: its free sections, and the outstanding ones.
fn boxes_of<Id, B: Ord, A: Allocator + Copy>(
    alloc: A,
    bin: &TargetBin<A>,
    outstanding: &[Outstanding<Id, B>],
    id: &B,
) -> Result<Vec<BinSection, A>, AllocError>
    ensures { IfOk result
        (λ v. v.items ≡ filter has_cells (boxes_of B.cmp outstanding.now id.now bin.now.bin)) }
{
    let mut boxes = Vec::new(alloc);
    add_with_cells(&mut boxes, bin.available_bin_sections().as_slice())?;
    gather_outstanding(&mut boxes, outstanding, id)?;
    Ok(boxes)
}

impl<Id, BinId, A> Session<Id, BinId, A>
where
    Id: Ord + Clone + Drop,
    BinId: Ord + Clone + Drop,
    A: Allocator + Copy,
{
    /// The cutting plan of a bin: the straight cuts, each across the whole of its part, that part
    /// the bin into its free sections and outstanding placements, boxes without cells aside. A part
    /// with two boxes or more is cut on the first axis of x, y and z on which it can be, at the
    /// least place strictly inside it that is strictly inside none of its boxes. `None` where no
    /// straight cuts leave all boxes whole, which is so only where the bin was coalesced.
    ///
    /// `UnknownBin` says that there is no such bin; this is looked at first. `OutOfMemory` says
    /// that a growth was refused.
    ///
    /// Once the box of the first example of `Session` is packed, it stands at (0, 0, 0), and what is
    /// right of it is free.
    ///
    /// ```
    /// let plan = session.cut_plan(&"sheet")?.ok_or("no such cuts")?;
    /// let cut = CutStep::Cut {
    ///     axis: Axis::X,
    ///     place: 4,
    /// };
    /// assert_eq!(rt;
    ///     plan.as_slice(),
    ///     [cut, CutStep::Leaf, CutStep::Leaf].as_slice()
    /// );
    /// ```
    pub fn cut_plan(&self, id: &BinId) -> Result<Option<Vec<CutStep, A>>, SessionError>
        // A plan: the bin is there, its free sections and outstanding placements are from cuts of
        //   it, and the plan lists a tree of straight cuts that has them as its leaves, those
        //   without cells aside. A cut stands before its lower and then its upper part.
        // A plan: a part with two boxes or more that have cells is cut, and any other part is not.
        //   The cut stands at the first open plane of the part: by axis x, y, z, and then by the
        //   least place. [look_along.plane_at_the_reach_is_passed_over,
        //   take_off.first_box_is_taken_each_time]
        // `None`: the bin is there, and no tree of straight cuts of it has these boxes as its
        //   leaves, those without cells aside. [first_split.one_axis_is_tried,
        //   cut_plan.coalesced_bin_has_no_plan]
        // `UnknownBin`: there is no such bin.
        // `OutOfMemory`: the bin is there. No other error is answered.
        ensures planned { IsPlanAnswer BinId.cmp self.now id.now result }
    {
        let Some(bin) = self.bins.get(id) else {
            return Err(SessionError::UnknownBin);
        };
        let alloc = *self.outstanding.allocator();
        let mut boxes = boxes_of(alloc, bin, self.outstanding.as_slice(), id)?;
        let plan = plan_of(alloc, whole(bin), boxes.as_mut_slice())?;
        Ok(plan)
    }
}
