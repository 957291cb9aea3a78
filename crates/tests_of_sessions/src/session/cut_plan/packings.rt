//! Plans of the bins that packings into one bin leave.

use super::PlanStep::{Leaf, X, Y, Z};
use super::Rule::{Compares, Rates};
use super::Step::{self, Call, PackBy};
use super::{PlanStep, Scripts, come_out};
use crate::session::Order::{AddBin, Pack};
use std::cmp::Ordering;
use tests_support::box_list;
use tests_support::boxes::SizedBox;

const SHEET: [u32; 3] = [100, 100, 1];

const CUBE: [u32; 3] = [100, 100, 100];

const LARGEST_CUBE: [u32; 3] = [u32::MAX; 3];

const TILE: [u32; 3] = [4, 4, 1];

const LARGE: &[SizedBox] = box_list!(0: [50, 90, 1]);

// Boxes on sheets.
fn flat() -> Scripts {
    const FLAT: &[&[Step]] = &[
        // A small box in the strip that a large one leaves: the sheet is cut on the first axis first,
        // and the part with two boxes at its least place.
        &[
            Call(AddBin(0, SHEET)),
            packs!(0: [50, 90, 1], 1: [1, 1, 1]),
            plans!(0 => &[X(50), Y(90), Leaf, X(1), Y(91), Leaf, Leaf, Leaf, Leaf]),
        ],
        &[
            Call(AddBin(0, SHEET)),
            Call(Pack(LARGE)),
            plans!(0 => &[X(50), Y(90), Leaf, Leaf, Leaf]),
        ],
        &[
            Call(AddBin(0, SHEET)),
            packs!(0: [60, 95, 1], 2: [40, 10, 1], 1: [1, 1, 1]),
            plans!(0 => &[X(60), Y(95), Leaf, Leaf, Y(10), Leaf, Y(11), X(61), Leaf, Leaf, Leaf]),
        ],
        &[
            Call(AddBin(0, SHEET)),
            packs!(0: [60, 95, 1], 2: [40, 10, 1], 1: [60, 3, 1]),
            plans!(0 => &[X(60), Y(95), Leaf, Y(98), Leaf, Leaf, Y(10), Leaf, Leaf]),
        ],
        &[
            Call(AddBin(0, [5, 5, 1])),
            packs!(0: [1, 2, 1]),
            plans!(0 => &[X(1), Y(2), Leaf, Leaf, Leaf]),
        ],
        // The box fills the bin.
        &[
            Call(AddBin(0, [5, 20, 1])),
            packs!(0: [5, 20, 1]),
            plans!(0 => &[Leaf]),
        ],
    ];
    FLAT
}

// The six orders in which a box is cut off on three axes, and two boxes on a layer.
fn deep() -> Scripts {
    const DEEP: &[&[Step]] = &[
        &[
            Call(AddBin(0, CUBE)),
            packs!(0: [50, 25, 10]),
            plans!(0 => &[Z(10), Y(25), X(50), Leaf, Leaf, Leaf, Leaf]),
        ],
        &[
            Call(AddBin(0, CUBE)),
            packs!(0: [50, 10, 25]),
            plans!(0 => &[Y(10), Z(25), X(50), Leaf, Leaf, Leaf, Leaf]),
        ],
        &[
            Call(AddBin(0, CUBE)),
            packs!(0: [25, 50, 10]),
            plans!(0 => &[Z(10), X(25), Y(50), Leaf, Leaf, Leaf, Leaf]),
        ],
        &[
            Call(AddBin(0, CUBE)),
            packs!(0: [10, 50, 25]),
            plans!(0 => &[X(10), Z(25), Y(50), Leaf, Leaf, Leaf, Leaf]),
        ],
        &[
            Call(AddBin(0, CUBE)),
            packs!(0: [25, 10, 50]),
            plans!(0 => &[Y(10), X(25), Z(50), Leaf, Leaf, Leaf, Leaf]),
        ],
        &[
            Call(AddBin(0, CUBE)),
            packs!(0: [10, 25, 50]),
            plans!(0 => &[X(10), Y(25), Z(50), Leaf, Leaf, Leaf, Leaf]),
        ],
        // Nothing is above the layer.
        &[
            Call(AddBin(0, [20, 20, 2])),
            packs!(0: [10, 10, 1], 1: [5, 5, 1]),
            plans!(0 => &[Z(1), Y(10), X(10), Leaf, Y(5), X(15), Leaf, Leaf, Leaf, Leaf, Leaf]),
        ],
    ];
    DEEP
}

// One unit in a bin of the greatest size, and a box that takes all that lies behind it.
fn largest() -> Scripts {
    const LARGEST: &[&[Step]] = &[&[
        Call(AddBin(0, LARGEST_CUBE)),
        packs!(0: [1, 1, 1]),
        plans!(0 => &[Z(1), Y(1), X(1), Leaf, Leaf, Leaf, Leaf]),
        packs!(1: [u32::MAX, u32::MAX, u32::MAX - 1]),
        plans!(0 => &[Z(1), Y(1), X(1), Leaf, Leaf, Leaf, Leaf]),
    ]];
    LARGEST
}

const FIRST_CUT: &[PlanStep] = &[X(50), Y(90), Leaf, Leaf, Leaf];

const LAST_CUT: &[PlanStep] = &[Y(90), X(50), Leaf, Leaf, Leaf];

// The first cut stays where it is always better; else the last one is taken.
fn comparisons() -> Scripts {
    const COMPARISONS: &[&[Step]] = &[
        &[
            Call(AddBin(0, SHEET)),
            PackBy(Compares(Ordering::Greater), LARGE),
            plans!(0 => FIRST_CUT),
        ],
        &[
            Call(AddBin(0, SHEET)),
            PackBy(Compares(Ordering::Less), LARGE),
            plans!(0 => LAST_CUT),
        ],
        &[
            Call(AddBin(0, SHEET)),
            PackBy(Compares(Ordering::Equal), LARGE),
            plans!(0 => LAST_CUT),
        ],
    ];
    COMPARISONS
}

// Each size has the least rate, or the greatest.
fn heuristics() -> Scripts {
    const HEURISTICS: &[&[Step]] = &[
        &[
            Call(AddBin(0, [8, 8, 1])),
            PackBy(Rates(0), &[(0, TILE, &[])]),
            plans!(0 => &[Y(4), X(4), Leaf, Leaf, Leaf]),
        ],
        &[
            Call(AddBin(0, [8, 8, 1])),
            PackBy(
                Rates(u128::MAX),
                &[(0, [2, 2, 1], &[]), (1, TILE, &[0]), (2, TILE, &[0])],
            ),
            plans!(0 => &[Y(2), X(2), Leaf, Leaf, Y(6), X(4), Leaf, Leaf, Leaf]),
        ],
    ];
    HEURISTICS
}

#[test]
fn plans_of_packings(rt: HostRuntime) {
    let alloc = rt.alloc();
    come_out(&rt, alloc, "flat bins", flat());
    come_out(&rt, alloc, "deep bins", deep());
    come_out(&rt, alloc, "largest bins", largest());
    come_out(&rt, alloc, "constant comparisons", comparisons());
    come_out(&rt, alloc, "constant heuristics", heuristics());
}
