//! Sections, locations and bins by their numbers (x, y, z, width, height, depth), and groups by
//! theirs.
ghost use Rattle.std.specs.Prelude.{◌≡◌, ◌<◌, IfOk, vec_len};
ghost use Rattle.std.specs.Option.{ForSome};
ghost use Rattle.rectangle_pack_sections.specs.Boxes.{Size};

use crate::all_match;
use rectangle_pack_bins::target_bin::TargetBin;
use rectangle_pack_sections::bin_section::BinSection;
use rectangle_pack_sections::packed_location::PackedLocation;
use rectangle_pack_sections::rect_to_insert::RectToInsert;
use rectangle_pack_sections::width_height_depth::WidthHeightDepth;
use std::alloc::{AllocError, Allocator};
use std::collections::BTreeMap;

/// A section with this corner and size; any of the numbers may be 0.
pub fn section(x: u32, y: u32, z: u32, width: u32, height: u32, depth: u32) -> BinSection
    ensures { let size : Size = record { width = width; height = height; depth = depth } in
        result ≡ record { x = x; y = y; z = z; whd = size } }
{
    let whd = WidthHeightDepth::from(RectToInsert::new(width, height, depth));
    BinSection::new(x, y, z, whd)
}

/// The section of these numbers.
pub fn section_of(numbers: [u32; 6]) -> BinSection {
    let [x, y, z, width, height, depth] = numbers;
    section(x, y, z, width, height, depth)
}

/// The numbers of a section.
pub fn numbers(section: &BinSection) -> [u32; 6] {
    let whd = section.whd();
    [
        section.x(),
        section.y(),
        section.z(),
        whd.width(),
        whd.height(),
        whd.depth(),
    ]
}

/// The numbers of a location.
pub fn place(location: &PackedLocation) -> [u32; 6] {
    [
        location.x(),
        location.y(),
        location.z(),
        location.width(),
        location.height(),
        location.depth(),
    ]
}

// Whether the sections have these numbers, in this order.
fn are_these(sections: &[BinSection], list: &[[u32; 6]]) -> bool {
    all_match!(sections.iter(), list, section, wanted => numbers(section) == *wanted)
}

/// Whether these are the bin's free sections, in this order.
pub fn has_list<A: Allocator + Copy>(bin: &TargetBin<A>, list: &[[u32; 6]]) -> bool {
    are_these(bin.available_bin_sections().as_slice(), list)
}

/// Whether all of the bin is free, in one section, as when it was new.
pub fn is_new<A: Allocator + Copy>(bin: &TargetBin<A>) -> bool {
    let size = bin.max_size();
    has_list(bin, &[[0, 0, 0, size.width(), size.height(), size.depth()]])
}

/// Whether each bin is as it was when it was new.
pub fn are_new<BinId: Ord, A: Allocator + Copy>(bins: &BTreeMap<BinId, TargetBin<A>, A>) -> bool {
    for bin in bins.values() {
        if !is_new(bin) {
            return false;
        }
    }
    true
}

/// The groups of a push. A list without groups is `None`: the box is pushed alone.
pub fn named<A: Allocator + Copy>(
    alloc: A,
    groups: &[u32],
) -> Result<Option<Vec<u32, A>>, AllocError>
    ensures { IfOk result (λ groups. ForSome groups (λ named. 0 < vec_len named)) }
{
    if groups.is_empty() {
        return Ok(None);
    }
    Ok(Some(groups.to_vec(alloc)?))
}
