//! Packings by the best of several heuristics as data. All are into two bins of 4x4x1, 0 and 1.

use crate::box_list;
use crate::boxes::SizedBox;
use crate::shapes::place;
use rectangle_pack_sections::box_size_heuristics::Heuristic::{self, Height, Volume, Width};
use rectangle_pack_sections::packed_location::PackedLocation;

/// A placement: box, bin and place.
pub type Placed = (u32, u32, [u32; 6]);

/// A packing, and what comes of it.
#[derive(Clone, Copy)]
pub struct Case {
    pub boxes: &'static [SizedBox],
    pub heuristics: &'static [Heuristic],
    /// The best of these and its placements, in order; `None` where by each it is refused.
    pub best: Option<(Heuristic, &'static [Placed])>,
    /// Whether the packing asks for memory.
    pub takes_memory: bool,
}

/// Boxes, heuristics, and which of these is the best with its placements, if one is not refused.
macro_rules! case {
    ($boxes:expr, $heuristics:expr => $best:expr) => {
        Case {
            boxes: $boxes,
            heuristics: $heuristics,
            best: $best,
            takes_memory: true,
        }
    };
    ($boxes:expr, $heuristics:expr => $best:expr, no memory) => {
        Case {
            takes_memory: false,
            ..case!($boxes, $heuristics => $best)
        }
    };
}

// A heuristic, and its placements.
macro_rules! by {
    ($heuristic:ident: $($placed:expr),*) => {
        ($heuristic, &[$($placed),*])
    };
}

/// The size of each bin.
pub const BIN: [u32; 3] = [4, 4, 1];

// By height the upright box goes first, and 3x4 cells are left beside it for the two others, so all
// are in one bin. By volume the box of 3x2 goes first. Then the cut with the smaller piece leaves
// 4x2 cells above it and 1x2 beside it, and the upright box goes into the other bin.
const ONE_UPRIGHT: &[SizedBox] = box_list!(1: [1, 3, 1], 2: [3, 2, 1], 3: [3, 1, 1]);

// Both use two bins. By volume the first bin gets the box of 3x3, so that 12 cells are in the
// second, and by height the second gets this one alone, so that 9 cells are there.
const ONE_TALL: &[SizedBox] = box_list!(1: [3, 3, 1], 2: [2, 4, 1], 3: [2, 2, 1]);

// By volume and by width the boxes of 4x3 and 3x2 go first, one into each bin, and leave no column
// of four cells that the upright one would need; by height that one goes first.
const ONE_COLUMN: &[SizedBox] = box_list!(1: [3, 2, 1], 2: [1, 4, 1], 3: [4, 3, 1]);

// No two of them fit into one bin.
const TOO_MANY: &[SizedBox] = box_list!(1: [4, 3, 1], 2: [3, 4, 1], 3: [3, 3, 1]);

const UPRIGHT_BY_HEIGHT: (Heuristic, &[Placed]) =
    by!(Height: (1, 0, [0, 0, 0, 1, 3, 1]), (2, 0, [1, 0, 0, 3, 2, 1]),
        (3, 0, [1, 2, 0, 3, 1, 1]));

const UPRIGHT_BY_VOLUME: (Heuristic, &[Placed]) =
    by!(Volume: (2, 0, [0, 0, 0, 3, 2, 1]), (1, 1, [0, 0, 0, 1, 3, 1]),
        (3, 0, [0, 2, 0, 3, 1, 1]));

const COLUMN_BY_HEIGHT: (Heuristic, &[Placed]) =
    by!(Height: (2, 0, [0, 0, 0, 1, 4, 1]), (3, 1, [0, 0, 0, 4, 3, 1]),
        (1, 0, [1, 0, 0, 3, 2, 1]));

/// All cases.
pub fn cases() -> &'static [Case] {
    const CASES: &[Case] = &[
        // The one that uses fewer bins is the best, wherever it stands in the list.
        case!(ONE_UPRIGHT, &[Volume, Height] => Some(UPRIGHT_BY_HEIGHT)),
        case!(ONE_UPRIGHT, &[Height, Volume] => Some(UPRIGHT_BY_HEIGHT)),
        case!(ONE_UPRIGHT, &Heuristic::ALL => Some(UPRIGHT_BY_HEIGHT)),
        // Of two that use as many bins, the one with fewer cells in the last.
        case!(ONE_TALL, &[Volume, Height] =>
            Some(by!(Height: (2, 0, [0, 0, 0, 2, 4, 1]), (1, 1, [0, 0, 0, 3, 3, 1]),
                (3, 0, [2, 0, 0, 2, 2, 1])))),
        // Of two that are as good, the first of the list.
        case!(ONE_UPRIGHT, &[Volume, Width] => Some(UPRIGHT_BY_VOLUME)),
        case!(ONE_UPRIGHT, &[Width, Volume] =>
            Some(by!(Width: (2, 0, [0, 0, 0, 3, 2, 1]), (3, 0, [0, 2, 0, 3, 1, 1]),
                (1, 1, [0, 0, 0, 1, 3, 1])))),
        // The others are refused.
        case!(ONE_COLUMN, &[Volume, Height, Width] => Some(COLUMN_BY_HEIGHT)),
        // Of nine, the ninth.
        case!(ONE_COLUMN, &[Volume, Width, Volume, Width, Volume, Width, Volume, Width, Height] =>
            Some(COLUMN_BY_HEIGHT)),
        case!(TOO_MANY, &Heuristic::ALL => None),
        // One that is alone in the list. Where it is refused, two boxes find space before the third.
        case!(ONE_UPRIGHT, &[Volume] => Some(UPRIGHT_BY_VOLUME)),
        case!(ONE_COLUMN, &[Volume] => None),
        // Without boxes the first of the list is the best, and no memory is asked for.
        case!(&[], &[Width] => Some(by!(Width:)), no memory),
        case!(&[], &[Width, Volume] => Some(by!(Width:)), no memory),
        case!(&[], &Heuristic::ALL => Some(by!(Volume:)), no memory),
    ];
    CASES
}

/// Whether a box that was placed so is this placement.
pub fn is_placed(id: u32, bin: u32, location: &PackedLocation, wanted: &Placed) -> bool {
    (id, bin, place(location)) == *wanted
}
