//! Boxes that are to be placed.

use rectangle_pack::RectToInsert;

#[test]
fn numbers_are_kept(rt: HostRuntime) {
    let rect = RectToInsert::new(1, 2, 3);
    assert!(rt; [rect.width(), rect.height(), rect.depth()] == [1, 2, 3]);
}
