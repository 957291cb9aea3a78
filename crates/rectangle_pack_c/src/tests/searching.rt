//! Searches in one call: what stands where, what is left, and each fault. A sheet has 10 by 10
//! cells.

use super::{SHEET, STRIP, reading};
use crate::collection::{RpCollection, RpExclusion, RpMember};
use crate::fitting::RP_LEFT_BIN;
use crate::reading::RpSection;
use crate::searching::{
    RP_NO_PACKING, RpCost, RpLocation, RpSearchOptions, RpSearched, rectangle_pack_searched,
};
use crate::{
    RP_BAD_LENGTHS, RP_DONE, RP_EQUAL_GROUPS, RP_NOT_ENOUGH_SPACE, RP_UNKNOWN_BOX,
    RP_UNKNOWN_OPTIONS, RpBin, RpBox,
};
use std::alloc::Global;
use std::test::Fail;

pub(super) const OPTIONS: RpSearchOptions<'static> = RpSearchOptions {
    size: 64,
    tries: 500,
    seed: 1,
    may_leave: 0,
    turns: &[],
    costs: &[],
};

pub(super) const UNSET: RpLocation = RpLocation {
    bin: 99,
    section: reading::UNSET,
};

pub(super) const NOT_SEARCHED: RpSearched = RpSearched {
    left: 99,
    used: 99,
    least: 99,
    is_optimal: 99,
    tries: 99,
};

// A flat box of a group.
fn flat(width: u32, height: u32, group: u32) -> RpBox {
    RpBox {
        width,
        height,
        group,
        ..STRIP
    }
}

// What is answered: the status, how many are left, how many bins are used and needed, and whether
// that is optimal.
pub(super) type Answer = (u32, usize, usize, usize, u32);

pub(super) fn answer(status: u32, told: &RpSearched) -> Answer {
    (status, told.left, told.used, told.least, told.is_optimal)
}

const NO_ANSWER: (usize, usize, usize, u32) = (99, 99, 99, 99);

// The answer that is a status alone, with which nothing is written.
pub(super) fn refused(status: u32) -> Answer {
    let (left, used, least, is_optimal) = NO_ANSWER;
    (status, left, used, least, is_optimal)
}

// Where a box is: its bin, and the corner and the sides of its section.
pub(super) fn place(location: &RpLocation) -> (u32, [u32; 4]) {
    let at = location.section;
    (location.bin, [at.x, at.y, at.width, at.height])
}

// What is answered to two boxes, and where they are.
pub(super) fn two_in(
    alloc: Global,
    bins: &[RpBin],
    collection: &RpCollection<'_>,
    options: &RpSearchOptions<'_>,
) -> (Answer, [RpLocation; 2]) {
    let mut placements = [UNSET, UNSET];
    let mut told = NOT_SEARCHED;
    let status = rectangle_pack_searched(
        alloc,
        bins,
        collection,
        options,
        placements.as_mut_slice(),
        &mut told,
    );
    (answer(status, &told), placements)
}

// Whether two sections are one above the other, without a cell of both.
fn are_stacked(one: RpSection, other: RpSection) -> bool {
    one.y.saturating_add(one.height) <= other.y || other.y.saturating_add(other.height) <= one.y
}

const PANELS: [RpBox; 2] = [
    RpBox {
        width: 4,
        height: 9,
        depth: 1,
        group: 0,
    },
    RpBox {
        width: 9,
        height: 6,
        depth: 1,
        group: 0,
    },
];

const BOARD: RpBin = RpBin {
    width: 9,
    height: 10,
    depth: 1,
};

// The first has to lie down beside the second, which fills the board's width.
#[test]
fn a_box_is_turned(rt: HostRuntime) -> Result<(), Fail> {
    let turns = [4u32];
    let options = RpSearchOptions {
        turns: turns.as_slice(),
        ..OPTIONS
    };
    let collection = RpCollection::of(PANELS.as_slice());
    let (told, places) = two_in(rt.alloc(), [BOARD].as_slice(), &collection, &options);
    assert_eq!(rt; told, (RP_DONE, 0, 1, 1, 1));
    let [one, other] = [places[0].section, places[1].section];
    assert_eq!(rt; [one.width, one.height, one.depth], [9, 4, 1]);
    assert_eq!(rt; [other.width, other.height, other.depth], [9, 6, 1]);
    assert!(rt; are_stacked(one, other));
    assert_eq!(rt; [places[0].bin, places[1].bin], [0, 0]);
    Ok(())
}

// Without turns only one of them fits. The first has 36 cells, the second 54.
#[test]
fn fewer_cells_are_left(rt: HostRuntime) -> Result<(), Fail> {
    let some = RpSearchOptions {
        may_leave: 1,
        ..OPTIONS
    };
    let collection = RpCollection::of(PANELS.as_slice());
    let all_or_none = two_in(rt.alloc(), [BOARD].as_slice(), &collection, &OPTIONS);
    assert_eq!(rt; all_or_none.0, refused(RP_NOT_ENOUGH_SPACE));
    assert_eq!(rt; place(&all_or_none.1[1]), place(&UNSET));
    let (told, places) = two_in(rt.alloc(), [BOARD].as_slice(), &collection, &some);
    // No packing places both in one board.
    assert_eq!(rt; told, (RP_DONE, 1, 1, RP_NO_PACKING, 0));
    assert_eq!(rt; place(&places[0]), (RP_LEFT_BIN, [0, 0, 0, 0]));
    assert_eq!(rt; place(&places[1]), (0, [0, 0, 9, 6]));
    Ok(())
}

// Two small bins for 3 each are cheaper than the large one for 10. Of two costs the first counts.
#[test]
fn cheap_bins_are_used(rt: HostRuntime) -> Result<(), Fail> {
    let small = RpBin {
        width: 5,
        height: 5,
        depth: 1,
    };
    let bins = [RpBin { width: 10, ..small }, small, small];
    let costs = [
        RpCost { bin: 0, cost: 10 },
        RpCost { bin: 1, cost: 3 },
        RpCost { bin: 2, cost: 3 },
        RpCost { bin: 0, cost: 1 },
    ];
    let options = RpSearchOptions {
        costs: costs.as_slice(),
        ..OPTIONS
    };
    let boxes = [flat(5, 5, 0), flat(5, 5, 0)];
    let collection = RpCollection::of(boxes.as_slice());
    let (told, places) = two_in(rt.alloc(), bins.as_slice(), &collection, &options);
    // One bin is enough, and two are used.
    assert_eq!(rt; told, (RP_DONE, 0, 2, 1, 0));
    assert!(rt; places[0].bin != 0 && places[1].bin != 0);
    assert!(rt; places[0].bin != places[1].bin);
    Ok(())
}

// What is answered to two boxes of a collection with these members and exclusions.
fn with_lists(
    alloc: Global,
    boxes: &[RpBox],
    members: &[RpMember],
    exclusions: &[RpExclusion],
    options: &RpSearchOptions<'_>,
) -> (Answer, [(u32, [u32; 4]); 2]) {
    let collection = RpCollection {
        boxes,
        members,
        exclusions,
    };
    let (told, places) = two_in(alloc, [SHEET].as_slice(), &collection, options);
    (told, [place(&places[0]), place(&places[1])])
}

#[test]
fn faults_write_nothing(rt: HostRuntime) -> Result<(), Fail> {
    let boxes = [flat(1, 1, 1), flat(1, 1, 2)];
    let (unknown, equal) = (
        [RpMember { index: 1, group: 1 }],
        [RpExclusion { one: 3, other: 3 }],
    );
    let short = RpSearchOptions {
        size: 63,
        ..OPTIONS
    };
    let one = &boxes.as_slice()[..1];
    let answers = [
        with_lists(rt.alloc(), one, &[], &[], &short),
        with_lists(rt.alloc(), one, &[], &[], &OPTIONS),
        with_lists(rt.alloc(), one, unknown.as_slice(), &[], &OPTIONS),
        with_lists(
            rt.alloc(),
            boxes.as_slice(),
            &[],
            equal.as_slice(),
            &OPTIONS,
        ),
    ];
    let nothing = [place(&UNSET), place(&UNSET)];
    let want = [
        (refused(RP_UNKNOWN_OPTIONS), nothing),
        (refused(RP_BAD_LENGTHS), nothing),
        (refused(RP_UNKNOWN_BOX), nothing),
        (refused(RP_EQUAL_GROUPS), nothing),
    ];
    assert_eq!(rt; answers, want);
    Ok(())
}

// A member is turned as its box, and is a box of its own.
#[test]
fn a_member_is_turned(rt: HostRuntime) -> Result<(), Fail> {
    let (boxes, members) = ([flat(5, 10, 1)], [RpMember { index: 0, group: 2 }]);
    let turns = [4u32];
    let options = RpSearchOptions {
        turns: turns.as_slice(),
        ..OPTIONS
    };
    let collection = RpCollection {
        boxes: boxes.as_slice(),
        members: members.as_slice(),
        exclusions: &[],
    };
    let low = RpBin {
        width: 10,
        height: 5,
        depth: 1,
    };
    let (told, places) = two_in(rt.alloc(), [low, low].as_slice(), &collection, &options);
    assert_eq!(rt; told, (RP_DONE, 0, 2, 2, 1));
    assert_eq!(rt; place(&places[0]).1, [0, 0, 10, 5]);
    assert_eq!(rt; place(&places[1]).1, [0, 0, 10, 5]);
    assert!(rt; places[0].bin != places[1].bin);
    Ok(())
}
