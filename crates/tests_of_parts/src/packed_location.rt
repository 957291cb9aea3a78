//! Where a box was placed.

use rectangle_pack::{RectToInsert, contains_smallest_box, volume_heuristic};
use tests_support::shapes::{place, section};

// A box is placed at the corner of its section, wherever that is.
#[test]
fn corner_and_size(rt: HostRuntime) {
    let rect = RectToInsert::new(1, 2, 3);
    let placed = section(4, 5, 6, 7, 8, 9).try_place(
        &rect,
        &contains_smallest_box,
        &volume_heuristic,
    );
    assert!(rt; matches!(placed, Ok((location, _)) if place(&location) == [4, 5, 6, 1, 2, 3]));
}
