//! The least side of a size in a bin, and what a box leaves of a section on its tightest side.
ghost use Rattle.std.specs.Prelude.{◌≡◌};
ghost use Rattle.rectangle_pack_sections.specs.LeastSides.{side_that_counts, least_side, least_rest};

use crate::bin_section::BinSection;
use crate::width_height_depth::{WidthHeightDepth, any_size};

// The side, where the bin has more than one cell along it, else the greatest number.
fn side_that_counts(cells: u32, side: u32) -> u32
    ensures { result ≡ side_that_counts cells side }
{
    if cells > 1 { side } else { u32::MAX }
}

/// The least side of a size, on axes on which the bin has more than one cell; the greatest number
/// where there are none.
pub fn least_side(bin: &WidthHeightDepth, size: &WidthHeightDepth) -> u32
    ensures { result ≡ least_side bin.now size.now }
{
    let width = side_that_counts(bin.width(), size.width());
    let height = side_that_counts(bin.height(), size.height());
    let depth = side_that_counts(bin.depth(), size.depth());
    width.min(height.min(depth))
}

/// What a box leaves of a section that holds it on the tightest of the axes on which the bin has
/// more than one cell; the greatest number where there are none.
pub fn least_rest(bin: &WidthHeightDepth, section: &BinSection, size: &WidthHeightDepth) -> u32
    ensures { result ≡ least_rest bin.now section.now size.now }
{
    let whd = section.whd();
    let rests = any_size(
        whd.width().saturating_sub(size.width()),
        whd.height().saturating_sub(size.height()),
        whd.depth().saturating_sub(size.depth()),
    );
    least_side(bin, &rests)
}
