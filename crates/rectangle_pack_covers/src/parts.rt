//! The boxes of a bin that have cells, and all of a bin.
ghost use Rattle.std.specs.Prelude.{◌≡◌, ◌++◌, OnOk, filter, IfOk};
ghost use Rattle.rectangle_pack_sections.specs.Bins.{whole};
ghost use Rattle.rectangle_pack_sections.specs.Boxes.{FitsU32, has_cells};

use rectangle_pack_sections::bin_section::{BinSection, has_cells};
use rectangle_pack_sections::width_height_depth::WidthHeightDepth;
use std::alloc::{AllocError, Allocator};

/// Puts the boxes that have cells at the end of the list.
pub fn add_with_cells<A: Allocator>(
    all: &mut Vec<BinSection, A>,
    boxes: &[BinSection],
) -> Result<(), AllocError>
    ensures { OnOk result (all.new.items ≡ all.old.items ++ filter has_cells boxes.now) }
{
    for section in boxes {
        if has_cells(section) {
            all.push(*section)?;
        }
    }
    Ok(())
}

/// The boxes that have cells.
pub(crate) fn with_cells<A: Allocator>(
    alloc: A,
    boxes: &[BinSection],
) -> Result<Vec<BinSection, A>, AllocError>
    ensures { IfOk result (λ all. all.items ≡ filter has_cells boxes.now) }
{
    let mut all = Vec::new(alloc);
    add_with_cells(&mut all, boxes)?;
    Ok(all)
}

/// All of a bin of this size.
pub fn all_of(size: WidthHeightDepth) -> BinSection
    ensures whole { result ≡ whole size }
    ensures fits { FitsU32 result }
{
    BinSection::new(0, 0, 0, size)
}
