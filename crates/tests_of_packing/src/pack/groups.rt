//! Packings of boxes in groups.

use super::{Case, TWO_IN_A_GROUP, pack_by_volume};

const GROUPS: &[Case] = &[
    // Groups go whole into a bin.
    TWO_IN_A_GROUP,
    case!(bins 1: [100, 100, 1] => &[[0, 0, 0, 100, 100, 1]],
            2: [100, 100, 1] => &[[0, 0, 0, 100, 100, 1]];
        boxes 1: [100, 100, 1] in [0], 2: [100, 100, 1] in [0]; refused),
    // A box is placed once for each time that it is in a group; it is found at the last place.
    case!(bins 0: [8, 8, 1] => &[[0, 4, 0, 8, 4, 1]]; boxes 1: [4, 4, 1] in [0, 1];
        placed (1, 0, [0, 0, 0, 4, 4, 1]), (1, 0, [4, 0, 0, 4, 4, 1])),
    case!(bins 0: [4, 4, 1] => &[[2, 2, 0, 2, 2, 1]]; boxes 1: [2, 2, 1], 1: [2, 2, 1] in [0, 0];
        placed (1, 0, [0, 0, 0, 2, 2, 1]), (1, 0, [2, 0, 0, 2, 2, 1]), (1, 0, [0, 2, 0, 2, 2, 1])),
];

#[test]
fn packings_of_groups(rt: HostRuntime) {
    pack_by_volume(&rt, rt.alloc(), GROUPS);
}
