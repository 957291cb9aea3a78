//! Faults that are known by hand.

use crate::covers::{BinFault, first_fault_in_bin};
use crate::sections::{SectionsError, check_sections};
use crate::straight_cuts::straight_cuts;
use rectangle_pack_plans::cut_plan::CutStep;
use rectangle_pack_sections::axis::Axis;
use rectangle_pack_sections::bin_section::BinSection;
use rectangle_pack_sections::width_height_depth::{WidthHeightDepth, any_size};
use std::test::Fail;

fn flat(x: u32, y: u32, width: u32, height: u32) -> BinSection {
    BinSection::new(x, y, 0, any_size(width, height, 1))
}

fn board() -> WidthHeightDepth {
    any_size(10, 10, 1)
}

#[test]
fn boxes_that_cover(rt: HostRuntime) {
    let alloc = rt.alloc();
    let halves = [flat(0, 0, 4, 10), flat(4, 0, 6, 10)];
    assert!(rt; check_sections(alloc, board(), &halves) == Ok(()));
    assert!(rt; first_fault_in_bin(alloc, board(), &halves, true) == Ok(None));
    let with_empty = [flat(4, 0, 6, 10), flat(10, 3, 0, 2), flat(0, 0, 4, 10)];
    assert!(rt; first_fault_in_bin(alloc, board(), &with_empty, true) == Ok(None));
    let side = u32::MAX;
    let most = any_size(side, side, side);
    let all = [BinSection::new(0, 0, 0, most)];
    assert!(rt; first_fault_in_bin(alloc, most, &all, true) == Ok(None));
    assert!(rt; first_fault_in_bin(alloc, any_size(0, 7, 7), &[], true) == Ok(None));
}

#[test]
fn boxes_that_are_outside(rt: HostRuntime) {
    let alloc = rt.alloc();
    let wide = [flat(0, 0, 4, 10), flat(4, 0, 7, 10), flat(0, 1, 4, 10)];
    let outside = Ok(Some(BinFault::Outside { index: 1 }));
    assert!(rt; check_sections(alloc, board(), &wide) == Err(SectionsError::Outside { index: 1 }));
    assert!(rt; first_fault_in_bin(alloc, board(), &wide, false) == outside);
    let far = [flat(0, 0, 4, 10), flat(u32::MAX, 0, 6, 10)];
    assert!(rt; first_fault_in_bin(alloc, board(), &far, true) == outside);
}

#[test]
fn boxes_that_share_a_cell(rt: HostRuntime) {
    let alloc = rt.alloc();
    let three = [flat(0, 0, 4, 10), flat(4, 0, 6, 5), flat(4, 4, 6, 6)];
    let shares = Ok(Some(BinFault::SharesCell {
        first: 1,
        second: 2,
    }));
    let unsound = Err(SectionsError::SharesCell {
        first: 1,
        second: 2,
    });
    assert!(rt; check_sections(alloc, board(), &three) == unsound);
    assert!(rt; first_fault_in_bin(alloc, board(), &three, false) == shares);
    // As many cells as the bin has.
    let twice = [flat(0, 0, 5, 5), flat(5, 0, 5, 10), flat(5, 0, 5, 5)];
    assert!(rt; first_fault_in_bin(alloc, board(), &twice, false) == shares);
}

#[test]
fn cell_in_none(rt: HostRuntime) {
    let alloc = rt.alloc();
    let none = Ok(Some(BinFault::CellInNone));
    let two = [flat(0, 0, 4, 10), flat(4, 0, 6, 9)];
    assert!(rt; check_sections(alloc, board(), &two) == Ok(()));
    assert!(rt; first_fault_in_bin(alloc, board(), &two, false) == none);
    assert!(rt; first_fault_in_bin(alloc, board(), &[], true) == none);
}

// Four boxes round a middle one, which no straight cuts leave whole.
#[test]
fn pinwheel(rt: HostRuntime) {
    let alloc = rt.alloc();
    let size = any_size(3, 3, 1);
    let boxes = [
        flat(0, 0, 2, 1),
        flat(2, 0, 1, 2),
        flat(1, 2, 2, 1),
        flat(0, 1, 1, 2),
        flat(1, 1, 1, 1),
    ];
    let not_from_cuts = Ok(Some(BinFault::NotFromCuts));
    assert!(rt; first_fault_in_bin(alloc, size, &boxes, true) == not_from_cuts);
    assert!(rt; first_fault_in_bin(alloc, size, &boxes, false) == Ok(None));
    let cells = Ok(Some(BinFault::CellInNone));
    assert!(rt; first_fault_in_bin(alloc, size, &boxes[..4], true) == cells);
}

// Two boxes in a corner: what is right of both is thicker than what is above them.
#[test]
fn cuts_round_boxes(rt: HostRuntime) -> Result<(), Fail> {
    let alloc = rt.alloc();
    let two = [flat(0, 0, 3, 8), flat(3, 0, 1, 8), flat(5, 5, 0, 2)];
    let cuts = straight_cuts(alloc, board(), &two)?.ok_or("no cuts")?;
    assert_eq!(rt;
        cuts.free.as_slice(),
        [flat(4, 0, 6, 10), flat(0, 8, 4, 2)].as_slice()
    );
    let right = CutStep::Cut {
        axis: Axis::X,
        place: 4,
    };
    let above = CutStep::Cut {
        axis: Axis::Y,
        place: 8,
    };
    let between = CutStep::Cut {
        axis: Axis::X,
        place: 3,
    };
    let leaf = CutStep::Leaf;
    assert_eq!(rt;
        cuts.steps.as_slice(),
        [right, above, between, leaf, leaf, leaf, leaf].as_slice()
    );
    Ok(())
}

#[test]
fn no_cuts_round_boxes(rt: HostRuntime) -> Result<(), Fail> {
    let alloc = rt.alloc();
    let round = [
        flat(0, 0, 6, 4),
        flat(6, 0, 4, 6),
        flat(4, 6, 6, 4),
        flat(0, 4, 4, 6),
    ];
    assert!(rt; straight_cuts(alloc, board(), &round)?.is_none());
    let outside = straight_cuts(alloc, board(), &[flat(0, 0, 4, 4), flat(9, 0, 2, 2)]).err();
    assert!(rt; outside == Some(SectionsError::Outside { index: 1 }));
    Ok(())
}
