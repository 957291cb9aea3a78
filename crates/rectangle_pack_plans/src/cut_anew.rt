//! Free sections cut anew: what boxes leave of a box is parted by straight cuts, from the boxes
//! alone.
ghost use Rattle.std.specs.Prelude.{◌≡◌, ◌++◌, ◌∷◌, true, [], List, filter, All, IfOk, MatchBool, MatchOption};
ghost use Rattle.rectangle_pack_sections.specs.Boxes.{Cuboid, FitsU32, IsPartOf, has_cells};
ghost use Rattle.rectangle_pack_sections.specs.CutTrees.{IsFromCuts};
ghost use Rattle.rectangle_pack_plans.specs.CuttingAnew.{sections_alone, AreFreeInSomeOrder, IsCutAnew};
ghost use Rattle.rectangle_pack_plans.specs.private.CuttingAnew.{AreInRoom, CanBeCut, HaveBothFit};

mod bounds;
mod order;
mod slabs;
mod strips;

use crate::cut_anew::bounds::bounds_of;
use crate::cut_anew::order::in_order;
use crate::cut_anew::slabs::{Room, cut_slabs};
use crate::cut_anew::strips::{FreeSection, cut_strips};
use rectangle_pack_sections::bin_section::{BinSection, has_cells};
use std::alloc::{AllocError, Allocator};

// A list of this section, if it has cells.
fn filled<A: Allocator>(alloc: A, section: BinSection) -> Result<Vec<BinSection, A>, AllocError>
    ensures { IfOk result (λ v. v.items ≡ filter has_cells (section ∷ [])) }
{
    let mut free = Vec::new(alloc);
    if has_cells(&section) {
        free.push(section)?;
    }
    Ok(free)
}

// Parts the whole round its boxes into free sections. Answers false where no straight cuts do. The
// boxes of the last room are the last of those that are left.
fn cut_rooms<A: Allocator + Copy>(
    alloc: A,
    whole: &BinSection,
    boxes: &mut [BinSection],
    free: &mut Vec<FreeSection, A>,
) -> Result<bool, AllocError>
    requires fits { FitsU32 whole.now }
    requires filling { AreInRoom whole.now boxes.old }
    requires none { free.old.items ≡ [] }
    ensures { IfOk result (λ found. MatchBool found
        (IsFromCuts (sections_alone free.new.items ++ boxes.old) whole.now
        × All (λ s. has_cells s ≡ true) (sections_alone free.new.items)
        × All HaveBothFit free.new.items
        × AreFreeInSomeOrder whole.now boxes.old free.new.items)
        (¬ CanBeCut boxes.old whole.now)) }
{
    let mut rooms = Vec::new(alloc);
    rooms.push(Room {
        section: *whole,
        count: boxes.len(),
        closed: None,
    })?;
    let mut left = boxes.len();
    while let Some(room) = rooms.pop() {
        let start = left - room.count;
        let inside = &mut boxes[start..left];
        let bounds = bounds_of(inside);
        cut_strips(&room.section, &bounds, free)?;
        if room.count == 1 {
            left = start;
            continue;
        }
        if !cut_slabs(&bounds, room.closed, inside, &mut rooms)? {
            return Ok(false);
        }
    }
    Ok(true)
}

/// Free sections round boxes in the whole, parted by straight cuts: the thickest first, of equally
/// thick ones that of the smallest room, and of those that tie then the smallest. `None` where no
/// straight cuts part the whole. Puts the boxes in another order.
pub fn cut_anew<A: Allocator + Copy>(
    alloc: A,
    whole: BinSection,
    boxes: &mut [BinSection],
) -> Result<Option<Vec<BinSection, A>>, AllocError>
    requires fits { FitsU32 whole }
    requires cells { All (λ b. has_cells b ≡ true) boxes.old }
    requires inside { All (λ b. IsPartOf b whole) boxes.old }
    ensures { IfOk result (λ found. MatchOption found
        ((free : List Cuboid) → ¬ IsFromCuts (free ++ boxes.old) whole)
        (λ v. IsCutAnew whole boxes.old v.items)) }
{
    if boxes.is_empty() {
        return Ok(Some(filled(alloc, whole)?));
    }
    let mut free = Vec::new(alloc);
    if !cut_rooms(alloc, &whole, boxes, &mut free)? {
        return Ok(None);
    }
    let sections = in_order(alloc, &whole.whd(), free.as_slice())?;
    Ok(Some(sections))
}
