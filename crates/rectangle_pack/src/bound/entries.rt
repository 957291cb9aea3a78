//! The boxes of the entries of a collection, and the sizes of bins.
ghost use Rattle.std.specs.Prelude.{◌≡◌, ◌++◌, map, IfOk, OnOk};
ghost use Rattle.std.specs.Map.{values_of};
ghost use Rattle.rectangle_pack_sections.specs.Bins.{bins_of};
ghost use Rattle.rectangle_pack_sections.specs.Groups.{lists_of};
ghost use Rattle.rectangle_pack.specs.Needed.{box_of as box_of_id, entries, sizes_of as sizes_of_bins};

use rectangle_pack_bins::target_bin::TargetBin;
use rectangle_pack_bounds::turning::{TurningBox, Turns};
use rectangle_pack_sections::rect_to_insert::RectToInsert;
use rectangle_pack_sections::width_height_depth::{WidthHeightDepth, any_size};
use std::alloc::{AllocError, Allocator};
use std::collections::BTreeMap;

/// The box of an id, with its turns.
pub(crate) fn box_of<Id: Ord, A: Allocator>(
    id: &Id,
    rects: &BTreeMap<Id, RectToInsert, A>,
    turns: &BTreeMap<Id, Turns, A>,
) -> TurningBox
    ensures { result ≡ box_of_id Id.cmp rects.now.entries turns.now.entries id.now }
{
    let whd = match rects.get(id) {
        Some(rect) => WidthHeightDepth::from(*rect),
        None => any_size(0, 0, 0),
    };
    let turns = match turns.get(id) {
        Some(turns) => *turns,
        None => Turns {
            about_x: false,
            about_y: false,
            about_z: false,
        },
    };
    TurningBox { whd, turns }
}

// Appends the boxes of the ids.
fn add_boxes<Id: Ord, A: Allocator>(
    boxes: &mut Vec<TurningBox, A>,
    ids: &[Id],
    rects: &BTreeMap<Id, RectToInsert, A>,
    turns: &BTreeMap<Id, Turns, A>,
) -> Result<(), AllocError>
    ensures { OnOk result
        (boxes.new.items ≡ boxes.old.items
        ++ map (box_of_id Id.cmp rects.now.entries turns.now.entries) ids.now) }
{
    for id in ids {
        boxes.push(box_of(id, rects, turns))?;
    }
    Ok(())
}

/// The boxes of all entries of the groups, in order.
pub(crate) fn boxes_of<Id: Ord, K: Ord, A: Allocator + Copy>(
    alloc: A,
    groups: &BTreeMap<K, Vec<Id, A>, A>,
    rects: &BTreeMap<Id, RectToInsert, A>,
    turns: &BTreeMap<Id, Turns, A>,
) -> Result<Vec<TurningBox, A>, AllocError>
    ensures { IfOk result
        (λ boxes. boxes.items ≡
        map (λ entry. box_of_id Id.cmp rects.now.entries turns.now.entries entry.1)
        (entries (lists_of groups.now.entries))) }
{
    let mut boxes = Vec::new(alloc);
    for (_, ids) in groups {
        add_boxes(&mut boxes, ids.as_slice(), rects, turns)?;
    }
    Ok(boxes)
}

/// The sizes of the bins, in the order of ids.
pub(crate) fn sizes_of<B: Ord, A: Allocator + Copy>(
    alloc: A,
    bins: &BTreeMap<B, TargetBin<A>, A>,
) -> Result<Vec<WidthHeightDepth, A>, AllocError>
    ensures { IfOk result
        (λ sizes. sizes.items ≡ values_of (sizes_of_bins (bins_of bins.now.entries))) }
{
    let mut sizes = Vec::with_capacity(alloc, bins.len())?;
    for (_, bin) in bins {
        sizes.push(bin.max_size())?;
    }
    Ok(sizes)
}
