//! Sizes.
ghost use Rattle.std.specs.Prelude.{◌≡◌, ◌<◌};
ghost use Rattle.rectangle_pack_sections.specs.Boxes.{Size, volume_of};

mod laws;

pub use laws::sizes_are_ordered;
use std::marker::Model;

/// The size of a box: its width, height and depth, in cells.
///
/// Sizes are ordered by width, then by height, then by depth.
#[derive(Debug, Clone, Copy, PartialEq, Eq, Default, PartialOrd, Ord)]
pub struct WidthHeightDepth {
    width: u32,
    height: u32,
    depth: u32,
}

impl Model for WidthHeightDepth {
    ghost use Rattle.rectangle_pack_sections.specs.Boxes.{Size};

    ghost Value = { Size };

    ghost view = { λ a. record { width = a.width; height = a.height; depth = a.depth } };

    ghost inverse = { λ s. record { width = s.width; height = s.height; depth = s.depth } };
}

impl WidthHeightDepth {
    /// A size with cells. The caller sees to it that none of the three is 0.
    pub fn new(width: u32, height: u32, depth: u32) -> Self
        // The width is not 0.
        requires wide { 0 < width }
        // The height is not 0.
        requires high { 0 < height }
        // The depth is not 0.
        requires deep { 0 < depth }
        // The size has this width, height and depth.
        ensures { result ≡ record { width = width; height = height; depth = depth } }
    {
        any_size(width, height, depth)
    }

    /// The extent on the x axis, in cells.
    pub fn width(&self) -> u32
        ensures { result ≡ self.now.width }
    {
        self.width
    }

    /// The extent on the y axis, in cells.
    pub fn height(&self) -> u32
        ensures { result ≡ self.now.height }
    {
        self.height
    }

    /// The extent on the z axis, in cells.
    pub fn depth(&self) -> u32
        ensures { result ≡ self.now.depth }
    {
        self.depth
    }

    /// The number of cells.
    pub fn volume(&self) -> u128
        ensures { result ≡ volume_of self.now }
    {
        self.width as u128 * self.height as u128 * self.depth as u128
    }
}

/// A size that may be empty.
pub fn any_size(width: u32, height: u32, depth: u32) -> WidthHeightDepth
    ensures { result ≡ record { width = width; height = height; depth = depth } }
{
    WidthHeightDepth {
        width,
        height,
        depth,
    }
}
