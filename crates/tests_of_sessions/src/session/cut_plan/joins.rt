//! Plans of bins in which boxes were released and sections joined.

use super::PlanStep::{Leaf, X, Y, Z};
use super::Step::{self, Call, Free, NoPlan};
use super::{Scripts, come_out};
use crate::session::Order::{AddBin, Coalesce, CoalesceAll, Pack, Release};
use tests_support::box_list;
use tests_support::boxes::SizedBox;

const SQUARE: [u32; 3] = [10, 10, 1];

const UNIT: [u32; 3] = [1, 1, 1];

const FOUR: &[SizedBox] = box_list!(0: UNIT, 1: UNIT, 2: UNIT, 3: UNIT);

const NINE: &[SizedBox] = box_list!(0: UNIT, 1: UNIT, 2: UNIT, 3: UNIT, 4: UNIT, 5: UNIT, 6: UNIT,
    7: UNIT, 8: UNIT);

const LAYER: &[SizedBox] = box_list!(0: [2, 2, 1]);

// Releases leave the plan, and a bin that is joined is one leaf.
fn released() -> Scripts {
    const RELEASED: &[&[Step]] = &[
        // Two boxes that fill a bin.
        &[
            Call(AddBin(0, SQUARE)),
            packs!(0: [4, 10, 1]),
            plans!(0 => &[X(4), Leaf, Leaf]),
            packs!(1: [6, 10, 1]),
            plans!(0 => &[X(4), Leaf, Leaf]),
            Call(Release(0)),
            plans!(0 => &[X(4), Leaf, Leaf]),
            Call(Release(1)),
            plans!(0 => &[X(4), Leaf, Leaf]),
            Call(Coalesce(0, 1, 0, 2)),
            plans!(0 => &[Leaf]),
        ],
        // Two layers, one behind the other.
        &[
            Call(AddBin(0, [2, 2, 2])),
            Call(Pack(LAYER)),
            Call(Pack(LAYER)),
            Call(Release(0)),
            Call(Release(1)),
            plans!(0 => &[Z(1), Leaf, Leaf]),
            Call(Coalesce(0, 0, 0, 2)),
            plans!(0 => &[Leaf]),
        ],
    ];
    RELEASED
}

// Joins after which there is still a plan.
fn still_planned() -> Scripts {
    const STILL_PLANNED: &[&[Step]] = &[
        // Nothing is joined.
        &[
            Call(AddBin(0, [4, 1, 1])),
            Call(Pack(FOUR)),
            Call(CoalesceAll(0)),
            Call(Coalesce(0, 0, 0, 4)),
            plans!(0 => &[X(1), Leaf, X(2), Leaf, X(3), Leaf, Leaf]),
        ],
        // Two of four boxes in a row are released and joined.
        &[
            Call(AddBin(0, [4, 1, 1])),
            Call(Pack(FOUR)),
            Call(Release(1)),
            Call(Release(2)),
            Call(CoalesceAll(0)),
            plans!(0 => &[X(1), Leaf, X(3), Leaf, Leaf]),
        ],
        // Four boxes in a square: the two on the left are joined, over the cut that parted them.
        &[
            Call(AddBin(0, [2, 2, 1])),
            Call(Pack(FOUR)),
            Call(Release(0)),
            Call(Release(2)),
            Call(CoalesceAll(0)),
            plans!(0 => &[X(1), Leaf, Y(1), Leaf, Leaf]),
        ],
        // The same for the two at the bottom.
        &[
            Call(AddBin(0, [2, 2, 1])),
            Call(Pack(FOUR)),
            Call(Release(0)),
            Call(Release(1)),
            Call(CoalesceAll(0)),
            plans!(0 => &[Y(1), Leaf, X(1), Leaf, Leaf]),
        ],
    ];
    STILL_PLANNED
}

// Nine boxes, of which all but one are released, and joins that leave four strips round that one:
// each straight cut would go through one of the strips.
fn strips_round_a_box() -> Scripts {
    const STRIPS_ROUND_A_BOX: &[&[Step]] = &[&[
        Call(AddBin(0, [3, 3, 1])),
        Call(Pack(NINE)),
        Call(Release(0)),
        Call(Release(1)),
        Call(Release(2)),
        Call(Release(6)),
        Call(Release(7)),
        Call(Release(8)),
        Call(Release(3)),
        Call(Release(4)),
        plans!(0 => &[X(1), Y(1), Leaf, Y(2), Leaf, Leaf, X(2), Y(1), Leaf, Y(2), Leaf, Leaf, Y(1),
                Leaf, Y(2), Leaf, Leaf]),
        Call(Coalesce(0, 0, 0, 2)),
        Call(Coalesce(0, 1, 1, 3)),
        Call(Coalesce(0, 2, 2, 4)),
        Call(Coalesce(0, 3, 3, 5)),
        Free(
            0,
            &[
                [0, 0, 0, 2, 1, 1],
                [2, 0, 0, 1, 2, 1],
                [1, 2, 0, 2, 1, 1],
                [0, 1, 0, 1, 2, 1],
            ],
        ),
        NoPlan(0),
    ]];
    STRIPS_ROUND_A_BOX
}

#[test]
fn plans_after_joins(rt: HostRuntime) {
    let alloc = rt.alloc();
    come_out(&rt, alloc, "releases and a join", released());
    come_out(&rt, alloc, "joins that leave a plan", still_planned());
    come_out(&rt, alloc, "strips round a box", strips_round_a_box());
}
