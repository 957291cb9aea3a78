//! What fits, as data, with the groups that are left. The comments say why.

use crate::best_cases::Placed;
use crate::boxes::{GroupName, SizedBin, SizedBox};
use crate::{all_match, box_list};
use rectangle_pack_sections::box_size_heuristics::Heuristic::{self, Height, Volume, Width};
use rectangle_pack_sections::group::Group::{Grouped, Ungrouped};

/// A packing of what fits, by volumes and smallest boxes, and what comes of it.
#[derive(Clone, Copy)]
pub struct FitCase {
    /// The bins, with the free sections that are left afterwards.
    pub bins: &'static [SizedBin],
    pub boxes: &'static [SizedBox],
    /// The groups that are excluded.
    pub excluded: &'static [(GroupName, GroupName)],
    /// The placements, in order.
    pub placed: &'static [Placed],
    /// The groups that are left, in order.
    pub left: &'static [GroupName],
}

/// What fits into two bins of 4x4x1, 0 and 1, by the best of several heuristics.
#[derive(Clone, Copy)]
pub struct BestFit {
    pub boxes: &'static [SizedBox],
    pub heuristics: &'static [Heuristic],
    /// The best of these.
    pub best: Heuristic,
    /// The placements with it, in order.
    pub placed: &'static [Placed],
    /// The groups that are left with it, in order.
    pub left: &'static [GroupName],
    /// Whether the packing asks for memory.
    pub takes_memory: bool,
}

/// Bins, each with the free sections that are left afterwards, boxes, pairs of groups that are
/// excluded, what is placed, and what is left.
macro_rules! fits {
    (bins $($bin:literal: $size:tt => $free:expr),*;
        boxes $($id:literal: $rect:tt $(in $groups:tt)?),*;
        $(apart $($pair:expr),*;)? placed $($placed:expr),*; left $($left:expr),*) => {
        FitCase {
            bins: &[$(($bin, $size, $free)),*],
            boxes: box_list!($($id: $rect $(in $groups)?),*),
            excluded: &[$($($pair),*)?],
            placed: &[$($placed),*],
            left: &[$($left),*],
        }
    };
}

/// Boxes, heuristics, the best of these, what is placed with it, and what is left.
macro_rules! best {
    ($boxes:expr, $heuristics:expr => $best:ident: $placed:expr; left $($left:expr),*) => {
        BestFit {
            boxes: $boxes,
            heuristics: $heuristics,
            best: $best,
            placed: $placed,
            left: &[$($left),*],
            takes_memory: true,
        }
    };
    ($boxes:expr, $heuristics:expr => $best:ident, no memory) => {
        BestFit {
            takes_memory: false,
            ..best!($boxes, $heuristics => $best: &[]; left)
        }
    };
}

const BIN: [u32; 3] = [10, 10, 1];

const TILE: [u32; 3] = [4, 4, 1];

// What a box of 3x3 leaves of a bin of 4x4: the pieces have 4 and 3 cells if the upper one runs over
// the whole width, and else as many; the last of cuts that are as good is taken.
const BESIDE_A_SQUARE: &[[u32; 6]] = &[[0, 3, 0, 4, 1, 1], [3, 0, 0, 1, 3, 1]];

/// All cases in which there are boxes.
pub fn fit_cases() -> &'static [FitCase] {
    const CASES: &[FitCase] = &[
        // Beside the box of 3x3 none of 2x2 fits. The one after it goes into the newest section, of
        // 1x3.
        fits!(bins 0: [4, 4, 1] => &[[0, 3, 0, 4, 1, 1], [3, 1, 0, 1, 2, 1]];
            boxes 1: [3, 3, 1], 2: [2, 2, 1], 3: [1, 1, 1];
            placed (1, 0, [0, 0, 0, 3, 3, 1]), (3, 0, [3, 0, 0, 1, 1, 1]); left Ungrouped(2)),
        // Of the group box 1 fits, and leaves 4x2 and 1x2, into which box 2 does not. So both are
        // left, and box 3 finds the bin as it was.
        fits!(bins 0: [4, 4, 1] => &[[2, 0, 0, 2, 4, 1]];
            boxes 1: [3, 2, 1] in [5], 2: [3, 3, 1] in [5], 3: [2, 4, 1];
            placed (3, 0, [0, 0, 0, 2, 4, 1]); left Grouped(5)),
        // The group that is left goes into no bin, so that it excludes none for the other.
        fits!(bins 0: [4, 4, 1] => &[]; boxes 1: [5, 4, 1] in [1], 2: TILE in [2];
            apart (Grouped(1), Grouped(2)); placed (2, 0, [0, 0, 0, 4, 4, 1]); left Grouped(1)),
        // Group 2 may not go where group 1 is. It is left, and so group 3 may.
        fits!(bins 0: BIN => &[[0, 4, 0, 10, 6, 1], [8, 0, 0, 2, 4, 1]];
            boxes 1: TILE in [1], 2: TILE in [2], 3: TILE in [3];
            apart (Grouped(1), Grouped(2)), (Grouped(2), Grouped(3));
            placed (1, 0, [0, 0, 0, 4, 4, 1]), (3, 0, [4, 0, 0, 4, 4, 1]); left Grouped(2)),
        // The first box is too large for each bin, the second for the smaller one; the third finds
        // the smaller one empty, and the last finds none.
        fits!(bins 8: [5, 4, 1] => &[], 9: TILE => &[];
            boxes 1: [5, 4, 1], 2: TILE, 3: [1, 1, 1], 4: [6, 6, 1];
            placed (1, 8, [0, 0, 0, 5, 4, 1]), (2, 9, [0, 0, 0, 4, 4, 1]);
            left Ungrouped(4), Ungrouped(3)),
        // Of equal keys the box that is alone goes first, then groups by their numbers.
        fits!(bins 0: [1, 1, 1] => &[[0, 0, 0, 1, 1, 1]];
            boxes 1: [2, 2, 1] in [7], 2: [2, 2, 1] in [6], 3: [2, 2, 1];
            placed; left Ungrouped(3), Grouped(6), Grouped(7)),
        // A box that is in two groups is placed for one of them.
        fits!(bins 0: [4, 4, 1] => BESIDE_A_SQUARE; boxes 1: [3, 3, 1] in [1, 2];
            placed (1, 0, [0, 0, 0, 3, 3, 1]); left Grouped(2)),
        // A box without cells is held by sizes too.
        fits!(bins 0: [4, 4, 1] => &[[0, 0, 0, 4, 4, 1]]; boxes 1: [0, 5, 1], 2: [0, 4, 1];
            placed (2, 0, [0, 0, 0, 0, 4, 1]); left Ungrouped(1)),
        fits!(bins; boxes 1: [1, 1, 1], 2: [2, 1, 1]; placed; left Ungrouped(2), Ungrouped(1)),
        // None is left.
        fits!(bins 0: [4, 4, 1] => BESIDE_A_SQUARE; boxes 1: [3, 3, 1];
            placed (1, 0, [0, 0, 0, 3, 3, 1]); left),
    ];
    CASES
}

// By volume, and by width, the boxes of 4x3 and 3x2 go first, one into each bin, and leave no column
// of four cells: box 2 is left, 4 cells. By height that one goes first, and none is left. Then 12
// cells are in the last bin, by volume 6: cells that are left count before the use of bins.
const ONE_COLUMN: &[SizedBox] = box_list!(1: [3, 2, 1], 2: [1, 4, 1], 3: [4, 3, 1]);

const COLUMN_BY_HEIGHT: &[Placed] = &[
    (2, 0, [0, 0, 0, 1, 4, 1]),
    (3, 1, [0, 0, 0, 4, 3, 1]),
    (1, 0, [1, 0, 0, 3, 2, 1]),
];

// Box 9 is too wide, 5 cells. The others are all in one bin by height, and in both by volume.
const ONE_TOO_WIDE: &[SizedBox] = box_list!(1: [1, 3, 1], 2: [3, 2, 1], 3: [3, 1, 1], 9: [5, 1, 1]);

const UPRIGHT_BY_HEIGHT: &[Placed] = &[
    (1, 0, [0, 0, 0, 1, 3, 1]),
    (2, 0, [1, 0, 0, 3, 2, 1]),
    (3, 0, [1, 2, 0, 3, 1, 1]),
];

// No two of them fit into one bin. The smallest is left, 9 cells, and 12 cells are in each bin.
const TOO_MANY: &[SizedBox] = box_list!(1: [4, 3, 1], 2: [3, 4, 1], 3: [3, 3, 1]);

// By volume the first two are equal, and go by their numbers.
const MANY_BY_VOLUME: &[Placed] = &[(1, 0, [0, 0, 0, 4, 3, 1]), (2, 1, [0, 0, 0, 3, 4, 1])];

// By height the higher one goes first.
const MANY_BY_HEIGHT: &[Placed] = &[(2, 0, [0, 0, 0, 3, 4, 1]), (1, 1, [0, 0, 0, 4, 3, 1])];

/// All cases of the best of several.
pub fn best_fits() -> &'static [BestFit] {
    const CASES: &[BestFit] = &[
        // The one that leaves fewer cells is the best, wherever it stands in the list.
        best!(ONE_COLUMN, &[Volume, Height] => Height: COLUMN_BY_HEIGHT; left),
        best!(ONE_COLUMN, &[Height, Volume] => Height: COLUMN_BY_HEIGHT; left),
        best!(ONE_COLUMN, &[Volume, Width, Volume, Width, Height] => Height: COLUMN_BY_HEIGHT; left),
        // Of two that leave as many, the one that uses fewer bins.
        best!(ONE_TOO_WIDE, &[Volume, Height] => Height: UPRIGHT_BY_HEIGHT; left Ungrouped(9)),
        best!(ONE_TOO_WIDE, &[Height, Volume] => Height: UPRIGHT_BY_HEIGHT; left Ungrouped(9)),
        // Of two that are as good, the first of the list.
        best!(TOO_MANY, &[Volume, Height] => Volume: MANY_BY_VOLUME; left Ungrouped(3)),
        best!(TOO_MANY, &[Height, Volume] => Height: MANY_BY_HEIGHT; left Ungrouped(3)),
        // One that is alone in the list.
        best!(TOO_MANY, &[Height] => Height: MANY_BY_HEIGHT; left Ungrouped(3)),
        // Without boxes the first of the list is the best, and no memory is asked for.
        best!(&[], &[Width] => Width, no memory),
        best!(&[], &[Width, Volume] => Width, no memory),
    ];
    CASES
}

/// Whether these are the groups that are left, in order.
pub fn are_left(left: &[&GroupName], wanted: &[GroupName]) -> bool {
    all_match!(left.iter(), wanted, name, other => **name == *other)
}
