//! Plans of bins in which boxes are apart: in several bins, in groups, or refused.

use super::PlanStep::{Leaf, X, Y, Z};
use super::Step::{self, Call, Replies};
use super::{PlanStep, Scripts, come_out};
use crate::session::Order::AddBin;
use rectangle_pack::{Group, Reply, SessionError};
use tests_support::boxes::GroupName;

const SQUARE: [u32; 3] = [10, 10, 1];

const TILE: [u32; 3] = [4, 4, 1];

// A tile in the corner of a square.
const ONE_TILE: &[PlanStep] = &[Y(4), X(4), Leaf, Leaf, Leaf];

// Two tiles there, one beside the other.
const TWO_TILES: &[PlanStep] = &[Y(4), X(4), Leaf, X(8), Leaf, Leaf, Leaf];

const DUPLICATE: Reply = Reply::Refused(SessionError::DuplicateBin);

const A: GroupName = Group::Grouped(0);

const B: GroupName = Group::Grouped(1);

const C: GroupName = Group::Grouped(2);

// Boxes in some of several bins.
fn several_bins() -> Scripts {
    const SEVERAL_BINS: &[&[Step]] = &[
        &[
            Call(AddBin(0, [2048, 2048, 255])),
            Call(AddBin(1, [4096, 4096, 1020])),
            packs!(0: [10, 20, 255] in [0], 2: [5, 50, 255] in [0], 1: [30, 30, 255]),
            plans!(
                0 => &[Y(30), X(30), Leaf, X(40), Y(20), Leaf, Leaf, Leaf, X(5), Y(80), Leaf, Leaf,
                    Leaf],
                1 => &[Leaf]),
        ],
        &[
            Call(AddBin(0, [5, 5, 2])),
            Call(AddBin(1, [5, 5, 1])),
            packs!(0: [2, 2, 1]),
            plans!(1 => &[Y(2), X(2), Leaf, Leaf, Leaf], 0 => &[Leaf]),
        ],
        &[
            Call(AddBin(1, [20, 20, 1])),
            Call(AddBin(0, [50, 50, 1])),
            packs!(0: [15, 15, 1], 1: [20, 20, 1]),
            plans!(1 => &[Leaf], 0 => &[Y(15), X(15), Leaf, Leaf, Leaf]),
        ],
        &[
            Call(AddBin(0, [8, 8, 1])),
            Call(AddBin(1, [8, 8, 1])),
            Call(AddBin(2, [8, 8, 1])),
            Call(AddBin(3, [8, 8, 1])),
            Call(AddBin(4, [8, 8, 1])),
            packs!(0: TILE, 1: TILE, 2: TILE, 3: TILE, 4: TILE),
            plans!(0 => &[X(4), Y(4), Leaf, Leaf, Y(4), Leaf, Leaf], 1 => ONE_TILE, 2 => &[Leaf],
                3 => &[Leaf], 4 => &[Leaf]),
        ],
        // At the second packing the new bin is tried first, and takes the smaller box.
        &[
            Call(AddBin(0, TILE)),
            Replies(AddBin(0, [9, 9, 1]), DUPLICATE),
            refuses!(0: TILE, 1: [2, 2, 1]),
            Call(AddBin(1, [3, 3, 1])),
            packs!(0: TILE, 1: [2, 2, 1]),
            plans!(0 => &[Leaf], 1 => &[Y(2), X(2), Leaf, Leaf, Leaf]),
        ],
    ];
    SEVERAL_BINS
}

// Boxes in groups.
fn groups() -> Scripts {
    const GROUPS: &[&[Step]] = &[
        &[
            Call(AddBin(0, [8, 8, 1])),
            packs!(0: TILE in [0, 1]),
            plans!(0 => ONE_TILE),
        ],
        // The box is pushed again, into a group twice.
        &[
            Call(AddBin(0, TILE)),
            packs!(0: [2, 2, 1], 0: [2, 2, 1] in [0, 0]),
            plans!(0 => &[X(2), Y(2), Leaf, Leaf, Y(2), Leaf, Leaf]),
        ],
        &[
            Call(AddBin(0, SQUARE)),
            Call(AddBin(1, SQUARE)),
            packs!(0: TILE in [0], 1: TILE in [1]),
            plans!(0 => TWO_TILES, 1 => &[Leaf]),
        ],
    ];
    GROUPS
}

// Boxes in groups of which some are excluded.
fn excluded() -> Scripts {
    const EXCLUDED: &[&[Step]] = &[
        &[
            Call(AddBin(0, SQUARE)),
            Call(AddBin(1, SQUARE)),
            packs!(0: TILE in [0], 1: TILE in [1]; (A, B)),
            plans!(0 => ONE_TILE, 1 => ONE_TILE),
        ],
        &[
            Call(AddBin(0, SQUARE)),
            Call(AddBin(1, SQUARE)),
            packs!(0: TILE in [0], 1: TILE in [1], 2: TILE in [2]; (A, B), (B, C)),
            plans!(0 => TWO_TILES, 1 => ONE_TILE),
        ],
        &[
            Call(AddBin(0, SQUARE)),
            Call(AddBin(1, SQUARE)),
            packs!(0: TILE in [0, 1]; (A, B)),
            plans!(0 => ONE_TILE, 1 => ONE_TILE),
        ],
        // The pair is excluded within one packing.
        &[
            Call(AddBin(0, SQUARE)),
            packs!(0: TILE in [0]; (A, B)),
            packs!(1: TILE in [1]; (A, B)),
            plans!(0 => TWO_TILES),
        ],
        // No box is in the other group.
        &[
            Call(AddBin(0, SQUARE)),
            packs!(0: TILE in [0]; (A, Group::Grouped(25))),
            plans!(0 => ONE_TILE),
        ],
    ];
    EXCLUDED
}

// What is refused leaves the bin as it was.
fn refused() -> Scripts {
    const REFUSED: &[&[Step]] = &[
        &[
            Call(AddBin(0, [2, 100, 1])),
            refuses!(0: [3, 1, 1]),
            plans!(0 => &[Leaf]),
        ],
        &[
            Call(AddBin(1, [100, 100, 1])),
            Call(AddBin(0, [100, 100, 1])),
            refuses!(0: [100, 100, 1] in [0], 1: [100, 100, 1] in [0]),
            plans!(1 => &[Leaf], 0 => &[Leaf]),
        ],
        &[
            Call(AddBin(0, [5, 20, 1])),
            refuses!(0: [6, 20, 1]),
            plans!(0 => &[Leaf]),
        ],
        &[
            Call(AddBin(0, TILE)),
            refuses!(0: TILE, 1: [2, 2, 1]),
            plans!(0 => &[Leaf]),
        ],
        &[
            Call(AddBin(0, [10, 10, 10])),
            refuses!(0: [1, 1, 1] in [0], 1: [10, 10, 10] in [0]),
            plans!(0 => &[Leaf]),
        ],
        // Two boxes go into the layers, and the third one fits nowhere.
        &[
            Call(AddBin(0, [20, 20, 2])),
            packs!(0: [10, 10, 1]),
            refuses!(0: [10, 10, 1] in [0], 1: [20, 10, 1] in [0], 2: [20, 20, 2] in [0]),
            plans!(0 => &[Z(1), Y(10), X(10), Leaf, Leaf, Leaf, Leaf]),
        ],
    ];
    REFUSED
}

// The same where groups are excluded.
fn refused_apart() -> Scripts {
    const REFUSED_APART: &[&[Step]] = &[
        &[
            Call(AddBin(0, SQUARE)),
            refuses!(0: TILE in [0], 1: TILE in [1]; (A, B)),
            plans!(0 => &[Leaf]),
        ],
        // A box alone and a group.
        &[
            Call(AddBin(0, SQUARE)),
            refuses!(0: TILE, 1: TILE in [0]; (Group::Ungrouped(0), A)),
            plans!(0 => &[Leaf]),
        ],
    ];
    REFUSED_APART
}

#[test]
fn plans_of_boxes_apart(rt: HostRuntime) {
    let alloc = rt.alloc();
    come_out(&rt, alloc, "several bins", several_bins());
    come_out(&rt, alloc, "groups", groups());
    come_out(&rt, alloc, "excluded groups", excluded());
    come_out(&rt, alloc, "refused packings", refused());
    come_out(
        &rt,
        alloc,
        "refused packings of excluded groups",
        refused_apart(),
    );
}
