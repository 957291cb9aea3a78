//! Statistics of bins, which each state of a session has.

use super::{ADD_BIN, BIN, FIRST, Held, Line, NEW, OTHER, Order, PlacedBox, Script, come_out};
use rectangle_pack::{Group, Reply};
use std::test::Fail;

// Two boxes, each alone, or in a group of its own.
const P: u32 = 1;

const Q: u32 = 2;

// The second box is placed in the section above the first, which is the newer one.
const THREE_SECTIONS: &[Line] = &[
    line!(Order::AddBin(BIN, [100, 100, 1]), Asked => Reply::Done,
        state!([held!(BIN, [[0, 0, 0, 100, 100, 1]]; 10000 = 10000 + 0; 1 free, 0 placed)], [],
            next 0)),
    line!(Order::Pack(&[(P, [50, 90, 1], &[]), (Q, [1, 1, 1], &[])]), Asked => packed!(0, 2),
        state!([held!(BIN, [[50, 0, 0, 50, 100, 1], [1, 90, 0, 49, 10, 1], [0, 91, 0, 1, 9, 1]];
                    10000 = 5499 + 4501; 3 free, 2 placed)],
            [(0, P, BIN, [0, 0, 0, 50, 90, 1]), (1, Q, BIN, [0, 90, 0, 1, 1, 1])], next 2)),
];

const NEW_OTHER: Held = Held { id: OTHER, ..NEW };

// The other bin, in which the second box stands.
const OTHER_IN_USE: Held = held!(OTHER, [[0, 2, 0, 10, 8, 1], [2, 0, 0, 8, 2, 1]]; 100 = 96 + 4;
    2 free, 1 placed);

const PLACED_Q: PlacedBox = (1, Q, OTHER, [0, 0, 0, 2, 2, 1]);

// What stands in another bin is not counted.
const TWO_BINS: &[Line] = &[
    ADD_BIN,
    line!(Order::AddBin(OTHER, [10, 10, 1]), Asked => Reply::Done,
        state!([NEW, NEW_OTHER], [], next 0)),
    line!(Order::PackApart(&[(P, [4, 4, 1], &[P]), (Q, [2, 2, 1], &[Q])],
            &[(Group::Grouped(P), Group::Grouped(Q))]),
        Asked => packed!(0, 2),
        state!(
            [held!(BIN, [[0, 4, 0, 10, 6, 1], [4, 0, 0, 6, 4, 1]]; 100 = 84 + 16; 2 free, 1 placed),
                OTHER_IN_USE],
            [(0, P, BIN, FIRST), PLACED_Q], next 2)),
    line!(Order::Release(0), Either => Reply::Done,
        state!([held!(BIN, [[0, 4, 0, 10, 6, 1], [4, 0, 0, 6, 4, 1], FIRST]; 100 = 100 + 0;
                    3 free, 0 placed),
                OTHER_IN_USE],
            [PLACED_Q], next 2)),
];

const MOST: u32 = u32::MAX;

// The largest bin, and a box of one layer.
const LARGEST: &[Line] = &[
    line!(Order::AddBin(BIN, [MOST, MOST, MOST]), Asked => Reply::Done,
        state!([held!(BIN, [[0, 0, 0, MOST, MOST, MOST]];
                    79228162458924105385300197375 = 79228162458924105385300197375 + 0;
                    1 free, 0 placed)],
            [], next 0)),
    line!(Order::Pack(&[(P, [MOST, MOST, 1], &[])]), Asked => packed!(0, 1),
        state!([held!(BIN, [[0, 0, 1, MOST, MOST, MOST - 1]];
                    79228162458924105385300197375
                        = 79228162440477361320180580350 + 18446744065119617025;
                    1 free, 1 placed)],
            [(0, P, BIN, [0, 0, 0, MOST, MOST, 1])], next 1)),
];

fn scripts() -> &'static [Script] {
    const SCRIPTS: &[Script] = &[
        script!(from 0, THREE_SECTIONS, refused 2),
        script!(from 0, TWO_BINS, refused 3),
        script!(from 0, LARGEST, refused 2),
    ];
    SCRIPTS
}

#[test]
fn sums(rt: HostRuntime) -> Result<(), Fail> {
    come_out(&rt, rt.alloc(), scripts())
}
