//! Boxes, groups and bins by their numbers.

use super::refusing::Refusing;
use super::shapes::named;
use rectangle_pack_bins::target_bin::TargetBin;
use rectangle_pack_groups::grouped_rects_to_place::GroupedRectsToPlace;
use rectangle_pack_sections::group::Group;
use rectangle_pack_sections::rect_to_insert::RectToInsert;
use std::alloc::{AllocError, Allocator};
use std::collections::BTreeMap;

/// A box by id, size and groups; without groups it is pushed alone.
pub type SizedBox = (u32, [u32; 3], &'static [u32]);

/// A bin by id and size, and its free sections.
pub type SizedBin = (u32, [u32; 3], &'static [[u32; 6]]);

/// A named group, or the box of this id alone.
pub type GroupName = Group<u32, u32>;

/// Boxes to place, whose memory may be refused.
pub type Rects = GroupedRectsToPlace<u32, u32, Refusing>;

/// Bins, whose memory may be refused.
pub type Bins = BTreeMap<u32, TargetBin<Refusing>, Refusing>;

/// Boxes by id and size, as `1: [4, 4, 1]` for one alone and `2: [4, 4, 1] in [0, 1]` for one in two
/// groups.
#[macro_export]
macro_rules! box_list {
    ($($id:tt: $size:tt $(in $groups:tt)?),*) => {
        &[$(($id, $size, $crate::groups!($($groups)?))),*]
    };
}

/// The groups of a box, if any are named.
#[macro_export]
macro_rules! groups {
    () => {
        &[]
    };
    ($groups:tt) => {
        &$groups
    };
}

/// Pushes the boxes.
pub fn push_boxes<A: Allocator + Copy>(
    alloc: A,
    rects: &mut GroupedRectsToPlace<u32, u32, A>,
    boxes: &[SizedBox],
) -> Result<(), AllocError> {
    for sized in boxes {
        let (id, [width, height, depth], groups) = *sized;
        let groups = named(alloc, groups)?;
        rects.push_rect(id, groups, RectToInsert::new(width, height, depth))?;
    }
    Ok(())
}

/// Pushes `count` boxes of one cell, each alone under its number, from 0 on.
pub fn push_units<A: Allocator + Copy>(
    rects: &mut GroupedRectsToPlace<u32, u32, A>,
    count: u32,
) -> Result<(), AllocError> {
    for id in 0..count {
        rects.push_rect(id, None, RectToInsert::new(1, 1, 1))?;
    }
    Ok(())
}

/// Excludes the groups of each pair, which differ.
pub fn exclude_all(rects: &mut Rects, pairs: &[(GroupName, GroupName)]) -> Result<(), AllocError> {
    for (one, other) in pairs {
        let (one, other) = (one.clone()?, other.clone()?);
        if one != other {
            rects.exclude(one, other)?;
        }
    }
    Ok(())
}

/// These boxes, and the pairs of groups that are excluded.
pub fn collect(
    alloc: Refusing,
    boxes: &[SizedBox],
    excluded: &[(GroupName, GroupName)],
) -> Result<Rects, AllocError> {
    let mut rects = Rects::new(alloc);
    push_boxes(alloc, &mut rects, boxes)?;
    exclude_all(&mut rects, excluded)?;
    Ok(rects)
}
