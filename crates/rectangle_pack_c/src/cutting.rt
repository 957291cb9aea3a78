//! The straight cuts that part a bin into boxes that stand in it, for C.
ghost use Rattle.std.specs.Prelude.{map};
ghost use Rattle.rectangle_pack.specs.StraightCuts.{IsCutsAnswer};
ghost use Rattle.rectangle_pack_c.specs.Arguments.{bin_size};
ghost use Rattle.rectangle_pack_c.specs.Cutting.{TellsCuts};
ghost use Rattle.rectangle_pack_c.specs.Reading.{cuboid_of};

use super::reading::{RpCutStep, RpSection, tell};
use super::restoring::{RpWrong, sections_of, wrong_in_sections};
use super::{RP_NO_PLAN, RP_OUT_OF_MEMORY, RP_WRONG_BOXES, RpBin};
use rectangle_pack::{RectToInsert, SectionsError, StraightCuts, straight_cuts};
use std::alloc::Global;

/// Writes the steps of the cutting plan of a bin in which these boxes stand, and how many they are:
/// straight cuts, each across a whole part, that leave the boxes and what is free beside them.
/// Boxes without cells have no part in it, but are to be inside too. `RP_DONE`; `RP_SHORT_ARRAY`
/// where there are more steps than the array holds, and then only their number is written;
/// `RP_NO_PLAN` where no such cuts leave the boxes, whatever is free; `RP_WRONG_BOXES` where a box
/// is outside the bin, or two share a cell, and then only that is written to `wrong`; or
/// `RP_OUT_OF_MEMORY`. But for the first two no step is written, nor how many there are.
///
/// The time is about that of a sort of the boxes, but for boxes that were laid to defy it, which
/// may take the square.
#[unsafe(no_mangle)]
pub extern "C" fn rectangle_pack_straight_cuts(
    alloc: Global,
    bin: &RpBin,
    boxes: &[RpSection],
    steps: &mut [RpCutStep],
    count: &mut usize,
    wrong: &mut RpWrong,
) -> u32
    // `RP_DONE` and `RP_SHORT_ARRAY`: the boxes are inside the bin and share no cell. How many
    //   steps the plan has is written, and they stand in the array exactly where it holds as many.
    //   The plan is that of the boxes with cells and of what is free, in the sections to which
    //   `Session::recut` parts it. [tell.count_is_the_length_of_the_array]
    // `RP_NO_PLAN`: the boxes are inside the bin and share no cell, and there are no free sections
    //   with which they are from straight cuts of it.
    //   [rectangle_pack_straight_cuts.no_cuts_are_done]
    // `RP_WRONG_BOXES`: the first box that is outside is written, or, where none is, the first two
    //   that share a cell. [wrong_in.boxes_are_exchanged]
    // No other status is answered but `RP_OUT_OF_MEMORY`. But for what is said nothing is written.
    ensures { TellsCuts bin.now boxes.now result
        (record { steps = steps.old; count = count.old; wrong = wrong.old })
        (record { steps = steps.new; count = count.new; wrong = wrong.new }) }
{
    let error = match cuts_of(alloc, bin, boxes) {
        Ok(Some(cuts)) => return tell(cuts.steps.as_slice(), steps, count),
        Ok(None) => return RP_NO_PLAN,
        Err(error) => error,
    };
    match wrong_in_sections(0, error) {
        Some(found) => {
            *wrong = found;
            RP_WRONG_BOXES
        }
        None => RP_OUT_OF_MEMORY,
    }
}

// The straight cuts that part a bin into boxes.
fn cuts_of(
    alloc: Global,
    bin: &RpBin,
    boxes: &[RpSection],
) -> Result<Option<StraightCuts>, SectionsError>
    ensures { IsCutsAnswer (bin_size bin.now) (map cuboid_of boxes.now) result }
{
    let size = RectToInsert::new(bin.width, bin.height, bin.depth);
    let sections = sections_of(alloc, boxes)?;
    straight_cuts(alloc, size.into(), sections.as_slice())
}
