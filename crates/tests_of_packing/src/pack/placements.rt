//! Packings of single boxes: where each is placed, and what is free afterwards.

use super::{Bins, Case, FULL_BIN, add_bins, pack_by_volume, packs_into, plenty};
use rectangle_pack::{RectanglePackError, contains_smallest_box, volume_heuristic};
use std::alloc::{AllocError, Global};
use std::process::Abort;
use tests_support::each_request::End;
use tests_support::refusing::Refusing;

const MAX: u32 = u32::MAX;

/// The larger box fills the first bin, which then has no section to test.
pub const FULL_AND_EMPTY: Case = case!(bins 3: [20, 20, 1] => &[],
        2: [50, 50, 1] => &[[0, 15, 0, 50, 35, 1], [15, 0, 0, 35, 15, 1]];
    boxes 1: [15, 15, 1], 2: [20, 20, 1];
    placed (2, 3, [0, 0, 0, 20, 20, 1]), (1, 2, [0, 0, 0, 15, 15, 1]));

/// Three boxes in one bin: the hole of 60x5 is smaller, and is not taken.
pub const THREE_BOXES: Case = case!(bins 0: [100, 100, 1] => &[[0, 95, 0, 60, 5, 1],
        [60, 11, 0, 40, 89, 1], [61, 10, 0, 39, 1, 1]];
    boxes 1: [60, 95, 1], 3: [40, 10, 1], 2: [1, 1, 1];
    placed (1, 0, [0, 0, 0, 60, 95, 1]), (3, 0, [60, 0, 0, 40, 10, 1]),
        (2, 0, [60, 10, 0, 1, 1, 1]));

fn one_box() -> &'static [Case] {
    const ONE_BOX: &[Case] = &[
        case!(bins 3: [5, 5, 1] => &[[1, 0, 0, 4, 5, 1], [0, 2, 0, 1, 3, 1]]; boxes 1: [1, 2, 1];
            placed (1, 3, [0, 0, 0, 1, 2, 1])),
        // The smallest bin goes first, whatever its number.
        case!(bins 3: [5, 5, 1] => &[[0, 2, 0, 5, 3, 1], [2, 0, 0, 3, 2, 1]],
                2: [5, 5, 2] => &[[0, 0, 0, 5, 5, 2]];
            boxes 1: [2, 2, 1]; placed (1, 3, [0, 0, 0, 2, 2, 1])),
        // An empty box leaves the whole section.
        case!(bins 0: [10, 10, 1] => &[[0, 0, 0, 10, 10, 1]]; boxes 1: [0, 5, 1];
            placed (1, 0, [0, 0, 0, 0, 5, 1])),
        // So does a box without any size.
        case!(bins 0: [10, 10, 1] => &[[0, 0, 0, 10, 10, 1]]; boxes 1: [0, 0, 0];
            placed (1, 0, [0, 0, 0, 0, 0, 0])),
    ];
    ONE_BOX
}

fn largest_first() -> &'static [Case] {
    const LARGEST_FIRST: &[Case] = &[
        case!(bins 0: [20, 20, 2] => &[[0, 0, 1, 20, 20, 1], [0, 10, 0, 20, 10, 1],
                [10, 5, 0, 10, 5, 1], [15, 0, 0, 5, 5, 1]];
            boxes 1: [10, 10, 1], 2: [5, 5, 1];
            placed (1, 0, [0, 0, 0, 10, 10, 1]), (2, 0, [10, 0, 0, 5, 5, 1])),
        FULL_AND_EMPTY,
    ];
    LARGEST_FIRST
}

fn newest_first() -> &'static [Case] {
    const NEWEST_FIRST: &[Case] = &[
        case!(bins 0: [100, 100, 1] => &[[50, 0, 0, 50, 100, 1], [1, 90, 0, 49, 10, 1],
                [0, 91, 0, 1, 9, 1]];
            boxes 1: [50, 90, 1], 2: [1, 1, 1];
            placed (1, 0, [0, 0, 0, 50, 90, 1]), (2, 0, [0, 90, 0, 1, 1, 1])),
        case!(bins 0: [100, 100, 1] => &[[60, 10, 0, 40, 90, 1], [0, 98, 0, 60, 2, 1]];
            boxes 1: [60, 95, 1], 3: [40, 10, 1], 2: [60, 3, 1];
            placed (1, 0, [0, 0, 0, 60, 95, 1]), (3, 0, [60, 0, 0, 40, 10, 1]),
                (2, 0, [0, 95, 0, 60, 3, 1])),
        THREE_BOXES,
    ];
    NEWEST_FIRST
}

const TILE: [u32; 3] = [4, 4, 1];

const BIN: [u32; 3] = [8, 8, 1];

const WHOLE: &[[u32; 6]] = &[[0, 0, 0, 8, 8, 1]];

const FIVE_TILES: Case = case!(bins 0: BIN => &[],
        1: BIN => &[[0, 4, 0, 8, 4, 1], [4, 0, 0, 4, 4, 1]], 2: BIN => WHOLE, 3: BIN => WHOLE,
        4: BIN => WHOLE;
    boxes 0: TILE, 1: TILE, 2: TILE, 3: TILE, 4: TILE;
    placed (0, 0, [0, 0, 0, 4, 4, 1]), (1, 0, [4, 0, 0, 4, 4, 1]), (2, 0, [0, 4, 0, 4, 4, 1]),
        (3, 0, [4, 4, 0, 4, 4, 1]), (4, 1, [0, 0, 0, 4, 4, 1]));

const NOTHING: Case = case!(bins; boxes; placed);

fn several_and_none() -> &'static [Case] {
    const SEVERAL_AND_NONE: &[Case] = &[FIVE_TILES, NOTHING];
    SEVERAL_AND_NONE
}

fn without_room() -> &'static [Case] {
    const WITHOUT_ROOM: &[Case] = &[
        FULL_BIN,
        case!(bins 0: [2, 100, 1] => &[[0, 0, 0, 2, 100, 1]]; boxes 1: [3, 1, 1]; refused),
        case!(bins; boxes 1: [1, 1, 1]; refused),
    ];
    WITHOUT_ROOM
}

#[test]
fn single_boxes(rt: HostRuntime) {
    let alloc = rt.alloc();
    pack_by_volume(&rt, alloc, one_box());
    pack_by_volume(&rt, alloc, largest_first());
    pack_by_volume(&rt, alloc, newest_first());
    pack_by_volume(&rt, alloc, several_and_none());
    pack_by_volume(&rt, alloc, without_room());
}

const CELL: Case = case!(bins 0: [MAX, MAX, MAX] => &[[0, 0, 1, MAX, MAX, MAX - 1],
        [0, 1, 0, MAX, MAX - 1, 1], [1, 0, 0, MAX - 1, 1, 1]];
    boxes 1: [1, 1, 1]; placed (1, 0, [0, 0, 0, 1, 1, 1]));

const BEHIND_CELL: Case = case!(bins 0: [MAX, MAX, MAX] => &[[0, 1, 0, MAX, MAX - 1, 1],
        [1, 0, 0, MAX - 1, 1, 1]];
    boxes 2: [MAX, MAX, MAX - 1]; placed (2, 0, [0, 0, 1, MAX, MAX, MAX - 1]));

// Packs into the bins that are there.
fn packs_rest(rt: &impl Abort, alloc: Refusing, case: &Case, bins: &mut Bins<Refusing>) -> End {
    packs_into(
        rt,
        alloc,
        case,
        bins,
        &volume_heuristic,
        &contains_smallest_box,
    )
}

// One cell of the largest bin, and then all that is behind it.
const IN_TURN: &[Case] = &[CELL, BEHIND_CELL];

// Whether these packings are done.
fn packs_in_turn(rt: &impl Abort, alloc: Refusing, bins: &mut Bins<Refusing>) -> bool {
    for case in IN_TURN {
        if packs_rest(rt, alloc, case, bins) != End::Done {
            return false;
        }
    }
    true
}

#[test]
fn rest_of_the_largest_bin(rt: HostRuntime) {
    let refusing = plenty(&rt, rt.alloc());
    let mut bins = Bins::new(refusing);
    assert!(rt; add_bins(refusing, &CELL, &mut bins).is_ok());
    assert!(rt; packs_in_turn(&rt, refusing, &mut bins));
}

const TEXTS: &[(RectanglePackError, &str)] = &[
    (
        RectanglePackError::NotEnoughBinSpace,
        "Not enough space to place all of the rectangles.",
    ),
    (RectanglePackError::OutOfMemory, "Out of memory."),
];

// Whether the error's text is this.
fn prints(alloc: Global, error: &RectanglePackError, text: &str) -> Result<bool, AllocError> {
    let printed = format!(in alloc; "{error}")?;
    Ok(printed.as_str() == text)
}

#[test]
fn texts_of_errors(rt: HostRuntime) {
    for (error, text) in TEXTS {
        assert!(rt;
            matches!(prints(rt.alloc(), error, text), Ok(true)),
            "{text}"
        );
    }
}
