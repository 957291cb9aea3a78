//! The bounds of boxes.
ghost use Rattle.std.specs.Prelude.{◌<◌, length, All};
ghost use Rattle.rectangle_pack_sections.specs.Boxes.{FitsU32};
ghost use Rattle.rectangle_pack_plans.specs.CuttingAnew.{AreBounds};
ghost use Rattle.rectangle_pack_plans.specs.private.CuttingAnew.{IsHullOn, IsHull};

use rectangle_pack_sections::axis::Axis;
use rectangle_pack_sections::bin_section::BinSection;
use rectangle_pack_sections::span::Span;
use rectangle_pack_sections::width_height_depth::any_size;

// From the lower start to the higher end of two boxes on an axis.
fn hull_on(first: &BinSection, second: &BinSection, axis: Axis) -> Span
    requires first { FitsU32 first.now }
    requires second { FitsU32 second.now }
    ensures { IsHullOn axis first.now second.now result }
{
    Span::of(first, axis).hull(Span::of(second, axis))
}

// The least box of which both are parts.
fn hull_of(first: &BinSection, second: &BinSection) -> BinSection
    requires first { FitsU32 first.now }
    requires second { FitsU32 second.now }
    ensures { IsHull first.now second.now result }
{
    let x = hull_on(first, second, Axis::X);
    let y = hull_on(first, second, Axis::Y);
    let z = hull_on(first, second, Axis::Z);
    let whd = any_size(x.length, y.length, z.length);
    BinSection::new(x.start, y.start, z.start, whd)
}

// The least box of which all are parts.
pub(crate) fn bounds_of(boxes: &[BinSection]) -> BinSection
    requires some { 0 < length boxes.now }
    requires fit { All FitsU32 boxes.now }
    ensures { AreBounds boxes.now result }
{
    let mut bounds = boxes[0];
    for next in boxes {
        bounds = hull_of(&bounds, next);
    }
    bounds
}
