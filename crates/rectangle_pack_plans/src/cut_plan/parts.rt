//! The two parts of a box at a place on an axis.
ghost use Rattle.std.specs.Prelude.{◌≡◌};
ghost use Rattle.rectangle_pack_sections.specs.Boxes.{FitsU32};
ghost use Rattle.rectangle_pack_sections.specs.CutTrees.{IsPlaceOf, lower, upper};

use rectangle_pack_sections::axis::Axis;
use rectangle_pack_sections::bin_section::BinSection;
use rectangle_pack_sections::span::Span;
use rectangle_pack_sections::width_height_depth::any_size;

// The part of a box below a place on an axis.
#[tactic(auto, unfolding(rectangle_pack_sections::specs::Boxes::start, rectangle_pack_sections::specs::CutTrees::lower))]
pub(crate) fn lower(whole: &BinSection, axis: Axis, place: u32) -> BinSection
    requires { IsPlaceOf axis place whole.now }
    ensures { result ≡ lower axis place whole.now }
{
    let (x, y, z) = (whole.x(), whole.y(), whole.z());
    let size = whole.whd();
    let (width, height, depth) = (size.width(), size.height(), size.depth());
    let whd = match axis {
        Axis::X => any_size(place - x, height, depth),
        Axis::Y => any_size(width, place - y, depth),
        Axis::Z => any_size(width, height, place - z),
    };
    BinSection::new(x, y, z, whd)
}

// The part from there on.
#[tactic(auto, unfolding(rectangle_pack_sections::specs::Boxes::start, rectangle_pack_sections::specs::Boxes::extent, rectangle_pack_sections::specs::Boxes::end, rectangle_pack_sections::specs::CutTrees::upper))]
pub(crate) fn upper(whole: &BinSection, axis: Axis, place: u32) -> BinSection
    requires fits { FitsU32 whole.now }
    requires place { IsPlaceOf axis place whole.now }
    ensures { result ≡ upper axis place whole.now }
{
    let (x, y, z) = (whole.x(), whole.y(), whole.z());
    let size = whole.whd();
    let (width, height, depth) = (size.width(), size.height(), size.depth());
    let rest = Span::of(whole, axis).end() - place;
    match axis {
        Axis::X => BinSection::new(place, y, z, any_size(rest, height, depth)),
        Axis::Y => BinSection::new(x, place, z, any_size(width, rest, depth)),
        Axis::Z => BinSection::new(x, y, place, any_size(width, height, rest)),
    }
}
