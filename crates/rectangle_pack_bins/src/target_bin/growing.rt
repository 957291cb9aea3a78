//! Bins that become larger.
ghost use Rattle.std.specs.Prelude.{◌≡◌, ◌+◌, ◌≤◌, ◌<◌, ◌^◌, ◌↔◌, IsTrue, OnOk, OnErr, length};
ghost use Rattle.rectangle_pack_sections.specs.Boxes.{extent};
ghost use Rattle.rectangle_pack_bins.specs.GrownBins.{grown, new_part, grown_bin};

use crate::target_bin::TargetBin;
use rectangle_pack_sections::axis::Axis;
use rectangle_pack_sections::bin_section::{BinSection, has_cells};
use rectangle_pack_sections::width_height_depth::{WidthHeightDepth, any_size};
use std::alloc::{AllocError, Allocator};

impl<A: Allocator + Copy> TargetBin<A> {
    /// Whether the bin can grow by so many cells on the axis: its side there and `by` add up to at
    /// most the greatest `u32`.
    pub fn can_grow(&self, axis: Axis, by: u32) -> bool
        // The answer is true exactly where the side and `by` add up to less than 2^32.
        //   [can_grow.growth_by_nothing_is_refused]
        ensures { IsTrue result ↔ (extent axis self.now.bin.size + by < 2 ^ 32) }
    {
        extent(&self.max_size, axis).checked_add(by).is_some()
    }

    /// Makes the bin larger by so many cells on one axis. What is new is one more free section, the
    /// newest, where it has cells; all other sections stay where they are. Fails only when memory
    /// is refused, where the list has no room for one more, and leaves the bin as it was.
    ///
    /// The caller sees to it that the bin can grow so far (`can_grow`).
    pub fn grow(&mut self, axis: Axis, by: u32) -> Result<(), AllocError>
        // The side on the axis and `by` add up to less than 2^32.
        requires { extent axis self.old.bin.size + by < 2 ^ 32 }
        // Where it succeeds, the bin is larger by so many cells on the axis. The part at the old
        //   end and beyond it stands as a free section at the end of the list, where it has cells.
        //   The other sections stay, and the bin counts as coalesced where it did before.
        //   [grow.new_cells_overlap]
        ensures ok { OnOk result (self.new.bin ≡ grown_bin axis by self.old.bin) }
        // An error leaves the bin as it was.
        ensures err { OnErr result (self.new.bin ≡ self.old.bin) }
        // An error is answered only where the list has no room for one section more.
        ensures full { OnErr result (self.old.room ≤ length self.old.bin.sections) }
    {
        let part = new_part(&self.max_size, axis, by);
        if has_cells(&part) {
            self.available_bin_sections.push(part)?;
        }
        self.max_size = grown(&self.max_size, axis, by);
        Ok(())
    }
}

// The extent of a size on an axis.
#[tactic(auto, unfolding(rectangle_pack_sections::specs::Boxes::extent))]
fn extent(size: &WidthHeightDepth, axis: Axis) -> u32
    ensures { result ≡ extent axis size.now }
{
    match axis {
        Axis::X => size.width(),
        Axis::Y => size.height(),
        Axis::Z => size.depth(),
    }
}

// The size that is larger by so many cells on the axis.
#[tactic(auto, unfolding(rectangle_pack_sections::specs::Boxes::extent, crate::specs::GrownBins::grown))]
fn grown(size: &WidthHeightDepth, axis: Axis, by: u32) -> WidthHeightDepth
    requires { extent axis size.now + by < 2 ^ 32 }
    ensures { result ≡ grown axis by size.now }
{
    let (width, height, depth) = (size.width(), size.height(), size.depth());
    match axis {
        Axis::X => any_size(width + by, height, depth),
        Axis::Y => any_size(width, height + by, depth),
        Axis::Z => any_size(width, height, depth + by),
    }
}

// What is new of a bin of this size that grows by so many cells on the axis.
#[tactic(auto, unfolding(rectangle_pack_sections::specs::Boxes::extent, rectangle_pack_sections::specs::CutTrees::upper, crate::specs::GrownBins::grown))]
fn new_part(size: &WidthHeightDepth, axis: Axis, by: u32) -> BinSection
    ensures { result ≡ new_part axis by size.now }
{
    let (width, height, depth) = (size.width(), size.height(), size.depth());
    match axis {
        Axis::X => BinSection::new(width, 0, 0, any_size(by, height, depth)),
        Axis::Y => BinSection::new(0, height, 0, any_size(width, by, depth)),
        Axis::Z => BinSection::new(0, 0, depth, any_size(width, height, by)),
    }
}
