//! Sizes: their numbers, their volumes and their order.

use rectangle_pack::{RectToInsert, WidthHeightDepth};
use tests_support::shapes::section;

const MOST: u32 = u32::MAX;

/// Sizes and their volumes.
pub const VOLUMES: &[([u32; 3], u128)] = &[
    ([2, 3, 5], 30),
    ([MOST, MOST, MOST], 79228162458924105385300197375),
    ([2, 2, 1], 4),
    ([0, 0, 0], 0),
];

/// The size of these numbers, any of which may be 0.
pub fn sized(size: [u32; 3]) -> WidthHeightDepth {
    let [width, height, depth] = size;
    section(0, 0, 0, width, height, depth).whd()
}

#[test]
fn volumes(rt: HostRuntime) {
    for (size, volume) in VOLUMES {
        assert!(rt; sized(*size).volume() == *volume, "{size:?}");
    }
    assert!(rt; WidthHeightDepth::default().volume() == 0);
}

#[test]
fn size_of_a_box(rt: HostRuntime) {
    let rect = RectToInsert::new(1, 2, 3);
    assert!(rt; WidthHeightDepth::from(rect) == WidthHeightDepth::new(1, 2, 3));
}

#[test]
fn default_is_zero(rt: HostRuntime) {
    let whd = WidthHeightDepth::default();
    assert!(rt; [whd.width(), whd.height(), whd.depth()] == [0, 0, 0]);
}

// The first number that differs decides.
#[test]
fn order(rt: HostRuntime) {
    assert!(rt; WidthHeightDepth::new(1, 9, 9) < WidthHeightDepth::new(2, 1, 1));
}
