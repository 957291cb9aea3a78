//! Boxes where they fit best, in one bin.

use super::Call::PlaceBest;
use super::{Script, runs};

fn scripts() -> &'static [Script] {
    const SCRIPTS: &[Script] = &[
        // The first box leaves nothing of the second section, and 6 of the third. The next one is
        // too high for each. The last one fills what the first left.
        script!("the best is older than others";
            Pushed [21, 10, 1]
                => &[[20, 0, 0, 1, 10, 1], [0, 0, 0, 6, 10, 1], [6, 0, 0, 14, 10, 1]];
            PlaceBest([6, 4, 1], Some([0, 0, 0, 6, 4, 1]))
                => &[[20, 0, 0, 1, 10, 1], [6, 0, 0, 14, 10, 1], [0, 4, 0, 6, 6, 1]],
            PlaceBest([1, 11, 1], None)
                => &[[20, 0, 0, 1, 10, 1], [6, 0, 0, 14, 10, 1], [0, 4, 0, 6, 6, 1]],
            PlaceBest([6, 6, 1], Some([0, 4, 0, 6, 6, 1]))
                => &[[20, 0, 0, 1, 10, 1], [6, 0, 0, 14, 10, 1]]),
        // The box leaves 2 of the second and of the third.
        script!("of equal ones the newest";
            Pushed [14, 10, 1] => &[[13, 0, 0, 1, 10, 1], [0, 0, 0, 6, 10, 1], [7, 0, 0, 6, 10, 1]];
            PlaceBest([4, 8, 1], Some([7, 0, 0, 4, 8, 1]))
                => &[[13, 0, 0, 1, 10, 1], [0, 0, 0, 6, 10, 1], [11, 0, 0, 2, 10, 1],
                     [7, 8, 0, 4, 2, 1]]),
    ];
    SCRIPTS
}

// Each request for memory is refused in turn, and some where a box is placed.
#[test]
fn boxes_where_they_fit_best(rt: HostRuntime) {
    let alloc = rt.alloc();
    for script in scripts() {
        assert!(rt; runs(&rt, alloc, script), "{}", script.subject);
    }
}
