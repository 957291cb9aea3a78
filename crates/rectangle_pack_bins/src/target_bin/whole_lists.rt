//! Bins that give or take their whole list of free sections, in packings that are under way and
//! where sessions are restored.
ghost use Rattle.std.specs.Prelude.{◌≡◌, [], All};
ghost use Rattle.std.specs.Vec.{vec_capacity};
ghost use Rattle.rectangle_pack_sections.specs.Bins.{IsSound};
ghost use Rattle.rectangle_pack_sections.specs.Boxes.{FitsU32};

use crate::target_bin::TargetBin;
use rectangle_pack_sections::bin_section::BinSection;
use rectangle_pack_sections::width_height_depth::{WidthHeightDepth, any_size};
use std::alloc::Allocator;
use std::mem;

/// A bin that stands in a map for one that is out of it. Takes no memory.
pub fn stand_in<A: Allocator + Copy>(alloc: A) -> TargetBin<A> {
    TargetBin::without_sections(alloc, any_size(0, 0, 0))
}

/// Takes the sections of a bin out. Takes no memory.
pub fn take_sections<A: Allocator + Copy>(bin: &mut TargetBin<A>) -> Vec<BinSection, A>
    ensures items { result.items ≡ bin.old.bin.sections }
    ensures room { vec_capacity result ≡ bin.old.room }
    ensures bin { bin.new.bin ≡ record bin.old.bin { sections = [] } }
    ensures sound { IsSound bin.old.bin.size bin.old.bin.sections }
    ensures fits { All FitsU32 bin.old.bin.sections }
{
    let none = Vec::new(*bin.available_bin_sections.allocator());
    mem::replace(&mut bin.available_bin_sections, none)
}

/// A bin of this size with these free sections, which counts as coalesced where that is said. Takes
/// no memory.
pub fn bin_of_sections<A: Allocator + Copy>(
    max_size: WidthHeightDepth,
    available_bin_sections: Vec<BinSection, A>,
    was_coalesced: bool,
) -> TargetBin<A>
    requires { IsSound max_size available_bin_sections.items }
    ensures { result.bin ≡ record {
      size = max_size;
      sections = available_bin_sections.items;
      coalesced = was_coalesced;
    } }
{
    TargetBin {
        max_size,
        available_bin_sections,
        was_coalesced,
    }
}

/// Gives a bin the sections of this list.
pub fn put_sections<A: Allocator + Copy>(bin: &mut TargetBin<A>, sections: Vec<BinSection, A>)
    requires { IsSound bin.old.bin.size sections.items }
    ensures bin { bin.new.bin ≡ record bin.old.bin { sections = sections.items } }
    ensures room { bin.new.room ≡ vec_capacity sections }
{
    bin.available_bin_sections = sections;
}
