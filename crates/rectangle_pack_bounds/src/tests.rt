//! Bounds on boxes that were found by hand.

use crate::ratings_tried::shown_by_ratings;
use crate::turning::{TurningBox, Turns};
use rectangle_pack_sections::width_height_depth::any_size;
use std::alloc::{AllocError, Global};

const ALL_TURNS: Turns = Turns {
    about_x: true,
    about_y: true,
    about_z: false,
};

fn one(turns: Turns, width: u32, height: u32, depth: u32) -> TurningBox {
    TurningBox {
        whd: any_size(width, height, depth),
        turns,
    }
}

fn bins(alloc: Global, bin: [u32; 3], boxes: &[TurningBox]) -> Result<usize, AllocError> {
    let [width, height, depth] = bin;
    shown_by_ratings(alloc, any_size(width, height, depth), boxes)
}

// Five of 6x6x6 have 1080 cells, so two bins by the cells. No two share a bin.
#[test]
fn five_that_are_more_than_half(rt: HostRuntime) {
    let boxes = [one(Turns::NONE, 6, 6, 6); 5];
    assert!(rt; bins(rt.alloc(), [10, 10, 10], &boxes) == Ok(5));
    let turning = [one(ALL_TURNS, 6, 6, 6); 5];
    assert!(rt; bins(rt.alloc(), [10, 10, 10], &turning) == Ok(5));
}

// Of 4x10x10 two go into a bin, so seven need four; by the cells they need three.
#[test]
fn seven_of_which_two_fit(rt: HostRuntime) {
    let boxes = [one(Turns::NONE, 4, 10, 10); 7];
    assert!(rt; bins(rt.alloc(), [10, 10, 10], &boxes) == Ok(4));
}

// Three of 8x10x10 and one of 3x10x10: what is beside an 8 is too little for a 3.
#[test]
fn no_room_beside(rt: HostRuntime) {
    let boxes = [
        one(Turns::NONE, 8, 10, 10),
        one(Turns::NONE, 8, 10, 10),
        one(Turns::NONE, 8, 10, 10),
        one(Turns::NONE, 3, 10, 10),
    ];
    assert!(rt; bins(rt.alloc(), [10, 10, 10], &boxes) == Ok(4));
}

// Of 2x1x1 four go into 9x1x1, so nine need three; by the cells they need two.
#[test]
fn nine_of_which_four_fit(rt: HostRuntime) {
    let boxes = [one(Turns::NONE, 2, 1, 1); 9];
    assert!(rt; bins(rt.alloc(), [9, 1, 1], &boxes) == Ok(3));
}

// Of 6x2x1 as they are five go into 10x10x1, one on another, so six need two. Where they may be
// turned, the sixth stands beside the five.
#[test]
fn turns_save_a_bin(rt: HostRuntime) {
    let upright = [one(Turns::NONE, 6, 2, 1); 6];
    assert!(rt; bins(rt.alloc(), [10, 10, 1], &upright) == Ok(2));
    let turning = [one(Turns::FLAT, 6, 2, 1); 6];
    assert!(rt; bins(rt.alloc(), [10, 10, 1], &turning) == Ok(1));
}

// A box of 4x9x1 fits into 10x5x1 only when it is turned. Two of them: 72 cells of 50.
#[test]
fn boxes_that_have_to_be_turned(rt: HostRuntime) {
    let boxes = [one(Turns::FLAT, 4, 9, 1); 2];
    assert!(rt; bins(rt.alloc(), [10, 5, 1], &boxes) == Ok(2));
}

// No boxes need no bin. A box that fits in no way counts 0, and so does one without cells.
#[test]
fn nothing(rt: HostRuntime) {
    assert!(rt; bins(rt.alloc(), [10, 10, 10], &[]) == Ok(0));
    assert!(rt; bins(rt.alloc(), [10, 10, 10], &[one(Turns::NONE, 11, 1, 1)]) == Ok(0));
    assert!(rt; bins(rt.alloc(), [0, 10, 10], &[one(Turns::NONE, 0, 5, 5)]) == Ok(0));
}
