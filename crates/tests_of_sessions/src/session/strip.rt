//! A strip of nine cells, full of boxes 1x1x1 that are numbered from its start on, and the release
//! of each. A release that is refused memory changes nothing.

use super::{BIN, Line, Order, Script, State, come_out};
use rectangle_pack::Reply;
use std::test::Fail;

const UNIT: [u32; 3] = [1, 1, 1];

const ADD_STRIP: Line = line!(Order::AddBin(BIN, [9, 1, 1]), Asked => Reply::Done,
    state!([held!(BIN, [[0, 0, 0, 9, 1, 1]]; 9 = 9 + 0; 1 free, 0 placed)], [], next 0));

const PACK_UNITS: Line = line!(
    Order::Pack(&[(0, UNIT, &[]), (1, UNIT, &[]), (2, UNIT, &[]), (3, UNIT, &[]), (4, UNIT, &[]),
            (5, UNIT, &[]), (6, UNIT, &[]), (7, UNIT, &[]), (8, UNIT, &[])]),
    Asked => packed!(0, 9), FULL);

// The cell of this number.
macro_rules! cell {
    ($number:expr) => {
        [$number, 0, 0, 1, 1, 1]
    };
}

// The box of this number, in the cell of that number.
macro_rules! unit {
    ($number:expr) => {
        ($number, $number, BIN, cell!($number))
    };
}

const FULL: State = state!([held!(BIN, []; 9 = 0 + 9; 0 free, 9 placed)],
    [unit!(0), unit!(1), unit!(2), unit!(3), unit!(4), unit!(5), unit!(6), unit!(7), unit!(8)],
    next 9);

// The box of this number is released. Then these cells are free, and these boxes are left.
macro_rules! released {
    ($number:expr, [$($cell:expr),*], [$($left:expr),*]) => {
        line!(Order::Release($number), Either => Reply::Done,
            state!([held!(BIN, [$(cell!($cell)),*]; 9 = ($number + 1) + (8 - $number);
                    ($number + 1) free, (8 - $number) placed)],
                [$(unit!($left)),*], next 9))
    };
}

const RELEASES: &[Line] = &[
    ADD_STRIP,
    PACK_UNITS,
    released!(0, [0], [1, 2, 3, 4, 5, 6, 7, 8]),
    released!(1, [0, 1], [2, 3, 4, 5, 6, 7, 8]),
    released!(2, [0, 1, 2], [3, 4, 5, 6, 7, 8]),
    released!(3, [0, 1, 2, 3], [4, 5, 6, 7, 8]),
    released!(4, [0, 1, 2, 3, 4], [5, 6, 7, 8]),
    released!(5, [0, 1, 2, 3, 4, 5], [6, 7, 8]),
    released!(6, [0, 1, 2, 3, 4, 5, 6], [7, 8]),
    released!(7, [0, 1, 2, 3, 4, 5, 6, 7], [8]),
    released!(8, [0, 1, 2, 3, 4, 5, 6, 7, 8], []),
];

// The bin, the packing and at least one of the releases are refused memory.
fn scripts() -> &'static [Script] {
    const SCRIPTS: &[Script] = &[script!(from 0, RELEASES, refused 3)];
    SCRIPTS
}

#[test]
fn releases_of_units(rt: HostRuntime) -> Result<(), Fail> {
    come_out(&rt, rt.alloc(), scripts())
}
