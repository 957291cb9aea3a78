//! Free sections that share a whole face, joined.

use super::Call::{Coalesce, CoalesceAll, Push};
use super::Pushed::Accepted;
use super::{Script, runs};

// The pieces of a square of 3x2 and of a strip of 2x1, in a bin 7x2x1.
const PIECES: &[[u32; 6]] = &[
    [2, 0, 0, 1, 2, 1],
    [0, 1, 0, 2, 1, 1],
    [0, 0, 0, 1, 1, 1],
    [1, 0, 0, 1, 1, 1],
    [5, 0, 0, 1, 1, 1],
    [6, 0, 0, 1, 1, 1],
];

// That list once the pieces of the square are one section.
const SQUARE: &[[u32; 6]] = &[[0, 0, 0, 3, 2, 1], [5, 0, 0, 1, 1, 1], [6, 0, 0, 1, 1, 1]];

// That list once the two small pieces of the square are one section.
const TWO: &[[u32; 6]] = &[
    [2, 0, 0, 1, 2, 1],
    [0, 1, 0, 2, 1, 1],
    [0, 0, 0, 2, 1, 1],
    [5, 0, 0, 1, 1, 1],
    [6, 0, 0, 1, 1, 1],
];

// That list once all is joined.
const SWEPT: &[[u32; 6]] = &[[0, 0, 0, 3, 2, 1], [5, 0, 0, 2, 1, 1]];

const LAYERS: &[[u32; 6]] = &[[0, 0, 0, 2, 2, 1], [0, 0, 1, 2, 2, 1]];

const SHELVES: &[[u32; 6]] = &[[0, 1, 0, 2, 1, 2], [0, 0, 0, 2, 1, 2]];

const HALVES: &[[u32; 6]] = &[[0, 0, 0, 4, 10, 1], [4, 0, 0, 6, 10, 1]];

const SHEET: &[[u32; 6]] = &[[0, 0, 0, 10, 10, 1]];

const CUBE: &[[u32; 6]] = &[[0, 0, 0, 2, 2, 2]];

// The right one is half as high, so they meet in part of a face.
const IN_PART: &[[u32; 6]] = &[[0, 0, 0, 4, 10, 1], [4, 0, 0, 6, 5, 1]];

const WITH_EMPTY: &[[u32; 6]] = &[[0, 0, 0, 10, 10, 1], [10, 0, 0, 0, 10, 1]];

const MOST: u32 = u32::MAX;

const LARGE: &[[u32; 6]] = &[[1, 0, 0, MOST - 1, MOST, MOST], [0, 0, 0, 1, MOST, MOST]];

const LARGEST: &[[u32; 6]] = &[[0, 0, 0, MOST, MOST, MOST]];

// What joining leaves. Upward over the whole list, the strip is not joined: its pieces move down
// while the square is.
fn scripts() -> &'static [Script] {
    const SCRIPTS: &[Script] = &[
        script!("upward over the whole list"; Pushed [7, 2, 1] => PIECES;
            Coalesce(0, 0, 6) => PIECES, Coalesce(1, 0, 6) => PIECES, Coalesce(2, 0, 6) => SQUARE,
            Coalesce(3, 0, 3) => SQUARE, Coalesce(4, 0, 3) => SQUARE, Coalesce(5, 0, 3) => SQUARE),
        script!("a sweep joins all"; Pushed [7, 2, 1] => PIECES; CoalesceAll => SWEPT),
        script!("the whole list"; Pushed [7, 2, 1] => PIECES; Coalesce(3, 0, 6) => SQUARE),
        script!("the range has the index 2 alone"; Pushed [7, 2, 1] => PIECES;
            Coalesce(3, 2, 3) => TWO),
        script!("after the join the range is 2..3 and has the joined section alone";
            Pushed [7, 2, 1] => PIECES; Coalesce(3, 2, 4) => TWO, CoalesceAll => SWEPT),
        script!("the index is past the end"; Pushed [7, 2, 1] => PIECES;
            Coalesce(6, 0, 6) => PIECES),
        script!("the range ends before it starts"; Pushed [7, 2, 1] => PIECES;
            Coalesce(3, 4, 2) => PIECES),
        script!("the range is empty"; Pushed [7, 2, 1] => PIECES; Coalesce(3, 2, 2) => PIECES),
        script!("the range goes past the end"; Pushed [7, 2, 1] => PIECES;
            Coalesce(3, 0, 100) => SQUARE),
        script!("an empty section is joined"; New [10, 10, 1] => SHEET;
            Push([10, 0, 0, 0, 10, 1], Accepted) => WITH_EMPTY, Coalesce(0, 0, 2) => SHEET),
        script!("faces in depth"; Pushed [2, 2, 2] => LAYERS; Coalesce(0, 0, 2) => CUBE),
        script!("faces in height"; Pushed [2, 2, 2] => SHELVES; Coalesce(0, 0, 2) => CUBE),
        script!("two halves"; Pushed [10, 10, 1] => HALVES; Coalesce(1, 0, 2) => SHEET),
        script!("the range has the index alone"; Pushed [10, 10, 1] => HALVES;
            Coalesce(1, 1, 2) => HALVES),
        script!("the index is the length"; Pushed [10, 10, 1] => HALVES;
            Coalesce(2, 0, 2) => HALVES),
        script!("faces that meet in part"; Pushed [10, 10, 1] => IN_PART; CoalesceAll => IN_PART),
        script!("ends at the greatest number of 32 bits"; Pushed [MOST, MOST, MOST] => LARGE;
            CoalesceAll => LARGEST),
    ];
    SCRIPTS
}

// Each request for memory is refused in turn. The last run of a script has no memory left once the
// list is given, so joining takes none.
#[test]
fn joins(rt: HostRuntime) {
    let alloc = rt.alloc();
    for script in scripts() {
        runs(&rt, alloc, script);
    }
}
