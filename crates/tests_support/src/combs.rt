//! A bin of more than a thousand free sections, and the boxes that go into them.

use crate::shapes::section;
use rectangle_pack_bins::target_bin::TargetBin;
use rectangle_pack_sections::bin_section::BinSection;
use rectangle_pack_sections::rect_to_insert::RectToInsert;
use std::alloc::{AllocError, Allocator};

// How many free sections there are.
const COUNT: u32 = 1200;

/// How many boxes are placed: ten that are two cells wide, and then those of one cell.
pub const BOXES: u32 = 100;

/// How many of these are two cells wide.
pub const WIDE_BOXES: u32 = 10;

// Every hundredth free section, from the fiftieth on, is two cells wide, and the others one.
fn width_at(index: u32) -> u32 {
    if index % 100 == 50 { 2 } else { 1 }
}

/// The free section of this index: one at every third cell.
pub fn free_at(index: u32) -> BinSection {
    section(index.wrapping_mul(3), 0, 0, width_at(index), 1, 1)
}

/// A bin with all these free sections.
pub fn comb<A: Allocator + Copy>(alloc: A) -> Result<TargetBin<A>, AllocError> {
    let mut bin = TargetBin::new(alloc, 3 * COUNT, 1, 1)?;
    bin.remove_filled_section(0);
    for index in 0..COUNT {
        if bin.push_available_bin_section(free_at(index)).is_err() {
            return Err(AllocError);
        }
    }
    Ok(bin)
}

/// The box of this number.
pub fn box_of(number: u32) -> RectToInsert {
    RectToInsert::new(if number < WIDE_BOXES { 2 } else { 1 }, 1, 1)
}

/// The index of the section that it goes into. A wide box goes into the last wide section that is
/// left, from 1150 down; a box of one cell into the last section, from 1199 down, but 1150.
pub fn index_of(number: u32) -> u32 {
    if number < WIDE_BOXES {
        1150 - 100 * number
    } else if number < WIDE_BOXES + 49 {
        1199 - (number - WIDE_BOXES)
    } else {
        1198u32.saturating_sub(number - WIDE_BOXES)
    }
}

/// How many fit tests that takes. A wide box asks the sections from its own on, of which one in a
/// hundred is gone: 50, 149, 248, .., 941. A box of one cell asks one.
pub const TESTS: u128 = 5045;

// Whether none of the `placed` boxes went into the section of this index.
fn is_left(index: u32, placed: u32) -> bool {
    for number in 0..placed {
        if index_of(number) == index {
            return false;
        }
    }
    true
}

/// Whether the bin has the sections that are left, in their order.
pub fn has_left<A: Allocator + Copy>(bin: &TargetBin<A>, placed: u32) -> bool {
    let sections = bin.available_bin_sections().as_slice();
    let mut position = 0usize;
    for index in 0..COUNT {
        if is_left(index, placed) {
            if sections.get(position) != Some(&free_at(index)) {
                return false;
            }
            position = position.wrapping_add(1);
        }
    }
    position == sections.len()
}
