//! How many bins are needed: numbers that are known by hand, and each other status. A sheet has 10
//! by 10 cells.
use super::SHEET;
use crate::bounding::rectangle_pack_least_bins;
use crate::collection::{RpCollection, RpExclusion, RpMember};
use crate::{RP_DONE, RP_EQUAL_GROUPS, RP_NOT_ENOUGH_SPACE, RP_UNKNOWN_BOX, RpBin, RpBox};
use std::alloc::Global;
use std::test::Fail;

// What stands where nothing is written.
const UNWRITTEN: usize = 99;

// A flat box of a group.
fn flat(width: u32, height: u32, group: u32) -> RpBox {
    RpBox {
        width,
        height,
        depth: 1,
        group,
    }
}

// What is answered to a collection in so many of four sheets: the status, and what is written.
fn in_sheets(
    alloc: Global,
    collection: &RpCollection<'_>,
    sheets: usize,
    turns: &[u32],
) -> (u32, usize) {
    let bins: [RpBin; 4] = [SHEET; 4];
    let mut least = UNWRITTEN;
    let list = &bins.as_slice()[..sheets.min(4)];
    let status = rectangle_pack_least_bins(alloc, list, collection, turns, &mut least);
    (status, least)
}

// No two of three squares of 6 by 6 cells go onto one sheet, though they have 108 cells.
#[test]
fn squares_need_a_sheet_each(rt: HostRuntime) -> Result<(), Fail> {
    let squares = [flat(6, 6, 0); 3];
    let all = RpCollection::of(squares.as_slice());
    let answers = [
        in_sheets(rt.alloc(), &all, 4, &[]),
        in_sheets(rt.alloc(), &all, 3, &[]),
        in_sheets(rt.alloc(), &all, 2, &[]),
        in_sheets(rt.alloc(), &RpCollection::of(&[]), 4, &[]),
    ];
    let want = [
        (RP_DONE, 3),
        (RP_DONE, 3),
        (RP_NOT_ENOUGH_SPACE, UNWRITTEN),
        (RP_DONE, 0),
    ];
    assert_eq!(rt; answers, want);
    Ok(())
}

// What is answered to one box in a bin of 12 by 4 cells.
pub(super) fn in_strip(alloc: Global, one: RpBox, turns: &[u32]) -> (u32, usize) {
    let bins = [RpBin {
        width: 12,
        height: 4,
        depth: 1,
    }];
    let boxes = [one];
    let all = RpCollection::of(boxes.as_slice());
    let mut least = UNWRITTEN;
    let status = rectangle_pack_least_bins(alloc, bins.as_slice(), &all, turns, &mut least);
    (status, least)
}

#[test]
fn a_box_fits_only_turned(rt: HostRuntime) -> Result<(), Fail> {
    let answers = [
        in_strip(rt.alloc(), flat(3, 12, 0), [4].as_slice()),
        in_strip(rt.alloc(), flat(3, 12, 0), &[]),
        // About x its height and its depth change places.
        in_strip(rt.alloc(), flat(3, 12, 0), [1].as_slice()),
        // Nowhere, however it is turned.
        in_strip(rt.alloc(), flat(5, 5, 0), [7].as_slice()),
    ];
    let none = (RP_NOT_ENOUGH_SPACE, UNWRITTEN);
    assert_eq!(rt; answers, [(RP_DONE, 1), none, none, none]);
    Ok(())
}

// What is answered to two small boxes of the groups 1 and 2 on sheets.
fn two_small(
    alloc: Global,
    sheets: usize,
    members: &[RpMember],
    exclusions: &[RpExclusion],
) -> (u32, usize) {
    let boxes = [flat(1, 1, 1), flat(2, 2, 2)];
    let collection = RpCollection {
        boxes: boxes.as_slice(),
        members,
        exclusions,
    };
    in_sheets(alloc, &collection, sheets, &[])
}

#[test]
fn excluded_groups_need_two_bins(rt: HostRuntime) -> Result<(), Fail> {
    let pair = [RpExclusion { one: 2, other: 1 }];
    let answers = [
        two_small(rt.alloc(), 4, &[], &[]),
        two_small(rt.alloc(), 4, &[], pair.as_slice()),
        two_small(rt.alloc(), 1, &[], pair.as_slice()),
    ];
    let want = [(RP_DONE, 1), (RP_DONE, 2), (RP_NOT_ENOUGH_SPACE, UNWRITTEN)];
    assert_eq!(rt; answers, want);
    Ok(())
}

// A member is placed once more, and is turned as its box: two strips of 4 by 12 cells, turned, go
// into three bins of 12 by 4 cells, one each; and if none may be turned, there is no packing.
#[test]
fn members_count_as_boxes(rt: HostRuntime) -> Result<(), Fail> {
    let bins = [RpBin {
        width: 12,
        height: 4,
        depth: 1,
    }; 3];
    let strips = [flat(4, 12, 0)];
    let members = [RpMember { index: 0, group: 5 }];
    let all = RpCollection {
        members: members.as_slice(),
        ..RpCollection::of(strips.as_slice())
    };
    let mut least = UNWRITTEN;
    let turned = rectangle_pack_least_bins(
        rt.alloc(),
        bins.as_slice(),
        &all,
        [4].as_slice(),
        &mut least,
    );
    assert_eq!(rt; (turned, least), (RP_DONE, 2));
    let straight = rectangle_pack_least_bins(rt.alloc(), bins.as_slice(), &all, &[], &mut least);
    assert_eq!(rt; (straight, least), (RP_NOT_ENOUGH_SPACE, 2));
    Ok(())
}

#[test]
fn faults_write_nothing(rt: HostRuntime) -> Result<(), Fail> {
    let (unknown, equal) = (
        [RpMember { index: 2, group: 1 }],
        [RpExclusion { one: 3, other: 3 }],
    );
    let answers = [
        two_small(rt.alloc(), 4, unknown.as_slice(), equal.as_slice()),
        two_small(rt.alloc(), 4, &[], equal.as_slice()),
    ];
    let want = [(RP_UNKNOWN_BOX, UNWRITTEN), (RP_EQUAL_GROUPS, UNWRITTEN)];
    assert_eq!(rt; answers, want);
    Ok(())
}
