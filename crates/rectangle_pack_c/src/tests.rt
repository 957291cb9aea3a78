//! Each answer of the calls for C, on a few boxes. What they say of all lists is proved; that they
//! say `RP_DONE` where boxes fit is seen here.
use super::{
    RP_BAD_LENGTHS, RP_DONE, RP_NOT_ENOUGH_SPACE, RpBin, RpBox, RpPlacement, rectangle_pack_boxes,
};
use std::alloc::Global;
use std::test::Fail;

mod bounding;
mod collection;
mod cutting;
mod fitting;
mod judging;
mod large;
mod memory;
mod pieces;
mod placing;
mod reading;
mod restoring;
mod searching;
mod session;
mod telling;
mod turning;
mod upkeep;

const NOWHERE: RpPlacement = RpPlacement {
    bin: 9,
    x: 9,
    y: 9,
    z: 9,
};

const SHEET: RpBin = RpBin {
    width: 10,
    height: 10,
    depth: 1,
};

const STRIP: RpBox = RpBox {
    width: 4,
    height: 10,
    depth: 1,
    group: 0,
};

// Where a box is: its bin and its corner.
fn place(placement: &RpPlacement) -> [u32; 4] {
    [placement.bin, placement.x, placement.y, placement.z]
}

// What is answered to a strip: the status, and where the strip is.
fn strip_in(alloc: Global, bins: &[RpBin]) -> (u32, [u32; 4]) {
    let mut placements = [NOWHERE];
    let status = rectangle_pack_boxes(alloc, bins, [STRIP].as_slice(), placements.as_mut_slice());
    (status, place(&placements[0]))
}

#[test]
fn a_box_stands_in_the_corner_of_the_smaller_bin(rt: HostRuntime) -> Result<(), Fail> {
    let bins = [RpBin { width: 20, ..SHEET }, SHEET];
    let answer = strip_in(rt.alloc(), bins.as_slice());
    assert_eq!(rt; answer, (RP_DONE, [1, 0, 0, 0]));
    Ok(())
}

// A box of group 7 that is so wide.
fn grouped(width: u32) -> RpBox {
    RpBox {
        width,
        group: 7,
        ..STRIP
    }
}

// What is answered to two boxes and two bins, a sheet and one that is wider: the status, and the
// bins of the boxes.
fn bins_of(alloc: Global, boxes: [RpBox; 2]) -> (u32, [u32; 2]) {
    let bins = [SHEET, RpBin { width: 20, ..SHEET }];
    let mut placements = [NOWHERE, NOWHERE];
    let status = rectangle_pack_boxes(
        alloc,
        bins.as_slice(),
        boxes.as_slice(),
        placements.as_mut_slice(),
    );
    (status, [placements[0].bin, placements[1].bin])
}

#[test]
fn a_group_stays_together(rt: HostRuntime) -> Result<(), Fail> {
    let answer = bins_of(rt.alloc(), [grouped(10), grouped(1)]);
    assert_eq!(rt; answer, (RP_DONE, [1, 1]));
    Ok(())
}

// The status of a packing into one sheet.
fn status_in_sheet(alloc: Global, boxes: &[RpBox], placements: &mut [RpPlacement]) -> u32 {
    rectangle_pack_boxes(alloc, [SHEET].as_slice(), boxes, placements)
}

// What is answered to three strips and three placements, and to one strip and three placements.
fn refusals(alloc: Global, placements: &mut [RpPlacement]) -> [u32; 2] {
    let boxes = [STRIP, STRIP, STRIP];
    [
        status_in_sheet(alloc, boxes.as_slice(), placements),
        status_in_sheet(alloc, [STRIP].as_slice(), placements),
    ]
}

#[test]
fn refusals_write_nothing(rt: HostRuntime) -> Result<(), Fail> {
    let mut placements = [NOWHERE, NOWHERE, NOWHERE];
    let answers = refusals(rt.alloc(), placements.as_mut_slice());
    assert_eq!(rt; answers, [RP_NOT_ENOUGH_SPACE, RP_BAD_LENGTHS]);
    for placement in placements.as_slice() {
        assert_eq!(rt; place(placement), place(&NOWHERE));
    }
    Ok(())
}
