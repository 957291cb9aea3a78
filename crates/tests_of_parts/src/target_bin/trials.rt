//! Trials: members placed in order into one bin, and their fit tests.

use super::Call::{self, Clone, Place};
use super::{Script, runs};

// The list of a bin 20x20x2 once a box of 10x10x1 is placed there.
const LAYERS: &[[u32; 6]] = &[
    [0, 0, 1, 20, 20, 1],
    [0, 10, 0, 20, 10, 1],
    [10, 0, 0, 10, 10, 1],
];

const WHOLE: [u32; 3] = [20, 20, 2];

const WIDE: [u32; 3] = [20, 10, 1];

const SQUARE: [u32; 3] = [10, 10, 1];

const SMALL: [u32; 3] = [5, 5, 1];

// Without members.
const NOTHING: Call = Place(&[], tried!(Some(&[]), 0 of 0));

fn scripts() -> &'static [Script] {
    const SCRIPTS: &[Script] = &[
        // A member that is stuck asks each section once; the list is again as it was, in its order.
        script!("stuck trials are undone"; New WHOLE => &[[0, 0, 0, 20, 20, 2]];
            Place(&[[10, 10, 1]], tried!(Some(&[[0, 0, 0, 10, 10, 1]]), 1 of 1)) => LAYERS,
            Place(&[WIDE, WHOLE], tried!(None, 4 of 8)) => LAYERS,
            Place(&[SQUARE, WIDE, WHOLE], tried!(None, 3 of 15)) => LAYERS,
            Place(&[SMALL, WHOLE], tried!(None, 5 of 8)) => LAYERS,
            Place(&[WHOLE], tried!(None, 3 of 3)) => LAYERS, NOTHING => LAYERS, Clone => LAYERS),
        script!("stuck in a fresh bin"; New [10, 10, 10] => &[[0, 0, 0, 10, 10, 10]];
            Place(&[[1, 1, 1], [10, 10, 10]], tried!(None, 4 of 4)) => &[[0, 0, 0, 10, 10, 10]]),
        // The third box goes into the newest section, though an older one is smaller.
        script!("the newest section comes first"; New [100, 100, 1] => &[[0, 0, 0, 100, 100, 1]];
            Place(&[[60, 95, 1], [40, 10, 1], [1, 1, 1]],
                tried!(Some(&[[0, 0, 0, 60, 95, 1], [60, 0, 0, 40, 10, 1], [60, 10, 0, 1, 1, 1]]),
                    4 of 9)) => &[[0, 95, 0, 60, 5, 1],
                [60, 11, 0, 40, 89, 1], [61, 10, 0, 39, 1, 1]]),
    ];
    SCRIPTS
}

const WITHOUT_SECTIONS: Script = script!("a bin without sections"; Pushed [10, 10, 1] => &[];
    Place(&[[1, 1, 1]], tried!(None, 0 of 0)) => &[], NOTHING => &[]);

// Each request for memory is refused in turn, and some in the trials.
#[test]
fn trials(rt: HostRuntime) {
    let alloc = rt.alloc();
    runs(&rt, alloc, &WITHOUT_SECTIONS);
    for script in scripts() {
        assert!(rt; runs(&rt, alloc, script), "{}", script.subject);
    }
}
