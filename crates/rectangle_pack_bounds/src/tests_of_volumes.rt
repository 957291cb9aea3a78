//! Which bins boxes fit in, what volumes show, and what is shown in all. The numbers are found by
//! hand.
use crate::least_bins::{enclosing, least_bins_shown};
use crate::turning::{TurningBox, Turns};
use crate::volumes::shown_by_volumes;
use rectangle_pack_sections::width_height_depth::{WidthHeightDepth, any_size};
use std::alloc::{AllocError, Global};
use std::test::Fail;

const AS_IT_IS: Turns = Turns {
    about_x: false,
    about_y: false,
    about_z: false,
};

fn turned(x: bool, y: bool, z: bool) -> Turns {
    Turns {
        about_x: x,
        about_y: y,
        about_z: z,
    }
}

// A box of this size that is not turned.
fn straight(width: u32, height: u32, depth: u32) -> TurningBox {
    TurningBox {
        whd: any_size(width, height, depth),
        turns: AS_IT_IS,
    }
}

// The orders of 1, 2 and 3 in which a bin is of these extents, as digits.
const ORDERS: [(u32, u32, u32); 6] = [
    (1, 2, 3),
    (1, 3, 2),
    (3, 2, 1),
    (2, 1, 3),
    (2, 3, 1),
    (3, 1, 2),
];

// In which of the orders a bin has room for 1x2x3, turned so.
fn fitting(turns: Turns) -> [bool; 6] {
    let b = TurningBox {
        whd: any_size(1, 2, 3),
        turns,
    };
    ORDERS.map(|(width, height, depth)| b.fits_in_bin(any_size(width, height, depth)))
}

#[test]
fn turns_change_places_of_two_extents(rt: HostRuntime) {
    let none = fitting(AS_IT_IS);
    assert_eq!(rt; none, [true, false, false, false, false, false]);
    let about_x = fitting(turned(true, false, false));
    assert_eq!(rt; about_x, [true, true, false, false, false, false]);
    let about_y = fitting(turned(false, true, false));
    assert_eq!(rt; about_y, [true, false, true, false, false, false]);
    let about_z = fitting(turned(false, false, true));
    assert_eq!(rt; about_z, [true, false, false, true, false, false]);
    assert_eq!(rt; fitting(turned(true, true, false)), [true; 6]);
    assert_eq!(rt; fitting(turned(true, false, true)), [true; 6]);
    assert_eq!(rt; fitting(turned(false, true, true)), [true; 6]);
    assert_eq!(rt; fitting(turned(true, true, true)), [true; 6]);
}

#[test]
fn a_box_fits_where_no_extent_is_greater(rt: HostRuntime) {
    let b = straight(5, 4, 3);
    assert!(rt; b.fits_in_bin(any_size(5, 4, 3)));
    assert!(rt; !b.fits_in_bin(any_size(4, 9, 9)));
    assert!(rt; !b.fits_in_bin(any_size(9, 3, 9)));
    assert!(rt; !b.fits_in_bin(any_size(9, 9, 2)));
    assert!(rt; !b.has_bin(&[]));
    assert!(rt; b.has_bin(&[any_size(4, 9, 9), any_size(6, 4, 3)]));
}

#[test]
fn an_enclosing_size_is_greatest_on_each_axis(rt: HostRuntime) {
    let sizes = [any_size(10, 2, 1), any_size(3, 8, 1), any_size(4, 4, 1)];
    assert_eq!(rt; enclosing(&sizes), any_size(10, 8, 1));
    assert_eq!(rt; enclosing(&[]), any_size(0, 0, 0));
}

// What volumes show of bins of 100, 200 and 100 cells, and one box of so many.
fn shown_of(alloc: Global, cells: u32) -> Result<usize, AllocError> {
    let bins = [
        any_size(10, 10, 1),
        any_size(10, 10, 2),
        any_size(10, 10, 1),
    ];
    shown_by_volumes(alloc, &bins, &[straight(cells, 1, 1)])
}

#[test]
fn volumes_take_the_largest_bins_first(rt: HostRuntime) -> Result<(), Fail> {
    let cells_and_bins = [
        (0, 0),
        (1, 1),
        (200, 1),
        (201, 2),
        (250, 2),
        (300, 2),
        (301, 3),
        (400, 3),
        (401, 4),
    ];
    for (cells, bins) in cells_and_bins {
        assert_eq!(rt; shown_of(rt.alloc(), cells)?, bins, "of {cells} cells");
    }
    Ok(())
}

#[test]
fn volumes_without_bins_or_boxes(rt: HostRuntime) -> Result<(), Fail> {
    assert_eq!(rt; shown_by_volumes(rt.alloc(), &[], &[])?, 0);
    assert_eq!(rt; shown_by_volumes(rt.alloc(), &[any_size(5, 5, 5)], &[])?, 0);
    assert_eq!(rt; shown_by_volumes(rt.alloc(), &[], &[straight(1, 1, 1)])?, 1);
    Ok(())
}

#[test]
fn volumes_of_all_boxes_are_added_up(rt: HostRuntime) -> Result<(), Fail> {
    let boxes = [straight(5, 5, 2), straight(1, 1, 50), straight(1, 1, 1)];
    let bins = [any_size(10, 10, 1); 3];
    assert_eq!(rt; shown_by_volumes(rt.alloc(), &bins, &boxes[..2])?, 1);
    assert_eq!(rt; shown_by_volumes(rt.alloc(), &bins, &boxes)?, 2);
    Ok(())
}

#[test]
fn whole_bins_are_counted(rt: HostRuntime) -> Result<(), Fail> {
    let boxes = [straight(10, 10, 1); 3];
    let bins = [any_size(10, 10, 1); 4];
    assert_eq!(rt; least_bins_shown(rt.alloc(), &bins, &boxes, 0)?, Some(3));
    assert_eq!(rt;
        least_bins_shown(rt.alloc(), &bins[..3], &boxes, 0)?,
        Some(3)
    );
    assert_eq!(rt; least_bins_shown(rt.alloc(), &bins[..2], &boxes, 0)?, None);
    assert_eq!(rt; least_bins_shown(rt.alloc(), &bins, &[], 0)?, Some(0));
    assert_eq!(rt; least_bins_shown(rt.alloc(), &[], &[], 0)?, Some(0));
    assert_eq!(rt; least_bins_shown(rt.alloc(), &[], &boxes, 0)?, None);
    Ok(())
}

#[test]
fn what_else_is_known_counts(rt: HostRuntime) -> Result<(), Fail> {
    let boxes = [straight(1, 1, 1); 2];
    let bins = [any_size(10, 10, 1); 2];
    assert_eq!(rt; least_bins_shown(rt.alloc(), &bins, &boxes, 0)?, Some(1));
    assert_eq!(rt; least_bins_shown(rt.alloc(), &bins, &boxes, 2)?, Some(2));
    assert_eq!(rt; least_bins_shown(rt.alloc(), &bins[..1], &boxes, 2)?, None);
    Ok(())
}

#[test]
fn each_box_has_a_bin(rt: HostRuntime) -> Result<(), Fail> {
    let bins = [
        any_size(9, 2, 1),
        any_size(2, 9, 1),
        any_size(9, 2, 1),
        any_size(4, 4, 1),
    ];
    let long = straight(9, 1, 1);
    let high = straight(1, 9, 1);
    let wide = straight(4, 3, 1);
    let fitting = [long, high, wide];
    let too_large = [long, high, straight(9, 3, 1)];
    assert_eq!(rt; least_bins_shown(rt.alloc(), &bins, &fitting, 3)?, Some(3));
    assert_eq!(rt; least_bins_shown(rt.alloc(), &bins, &too_large, 3)?, None);
    Ok(())
}
