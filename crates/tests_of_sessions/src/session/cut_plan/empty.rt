//! Plans of bins, and of boxes, without cells.

use super::PlanStep::{Leaf, X};
use super::Step::{self, Call, NoBin};
use super::come_out;
use crate::session::Order::{AddBin, Release};

const SQUARE: [u32; 3] = [10, 10, 1];

// A box without cells gets no leaf.
const BOXES: &[&[Step]] = &[
    &[
        Call(AddBin(0, SQUARE)),
        NoBin(1),
        packs!(0: [0, 5, 1]),
        plans!(0 => &[Leaf]),
        Call(Release(0)),
        plans!(0 => &[Leaf]),
    ],
    &[
        Call(AddBin(0, SQUARE)),
        packs!(0: [0, 0, 0]),
        plans!(0 => &[Leaf]),
    ],
    // The second box is on both sides of the second cut, and keeps no cut from going through.
    &[
        Call(AddBin(0, SQUARE)),
        packs!(0: [4, 10, 1]),
        packs!(1: [3, 0, 1]),
        packs!(2: [1, 10, 1]),
        plans!(0 => &[X(4), Leaf, X(5), Leaf, Leaf]),
    ],
];

// A bin without cells is not cut.
const BINS: &[&[Step]] = &[
    &[Call(AddBin(0, [0, 0, 0])), plans!(0 => &[Leaf])],
    &[Call(AddBin(0, [10, 0, 1])), plans!(0 => &[Leaf])],
    &[
        Call(AddBin(0, [0, 5, 1])),
        packs!(0: [0, 5, 1]),
        plans!(0 => &[Leaf]),
        Call(Release(0)),
        // The release adds no section, so there is none for the next box.
        refuses!(0: [0, 5, 1]),
        plans!(0 => &[Leaf]),
    ],
];

#[test]
fn plans_without_cells(rt: HostRuntime) {
    let alloc = rt.alloc();
    come_out(&rt, alloc, "bins without cells", BINS);
    come_out(&rt, alloc, "boxes without cells", BOXES);
}
