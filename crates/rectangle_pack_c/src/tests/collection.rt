//! Collections: boxes in two groups, groups that are excluded, heuristics by number, and each fault.
use super::{NOWHERE, SHEET, STRIP};
use crate::collection::{RP_BEST, RP_HEIGHT, RP_VOLUME, RpCollection, RpExclusion, RpMember};
use crate::{
    RP_BAD_LENGTHS, RP_DONE, RP_EQUAL_GROUPS, RP_NOT_ENOUGH_SPACE, RP_UNKNOWN_BOX,
    RP_UNKNOWN_HEURISTIC, RpBin, RpBox, rectangle_pack_collection,
};
use std::alloc::Global;
use std::test::Fail;

// What is answered to a collection of three entries: the status, the heuristic that was chosen, or
// 99, and the bins of the placements.
fn answer(
    alloc: Global,
    bins: &[RpBin],
    collection: &RpCollection<'_>,
    heuristic: u32,
) -> (u32, u32, [u32; 3]) {
    let mut placements = [NOWHERE, NOWHERE, NOWHERE];
    let mut chosen = 99;
    let status = rectangle_pack_collection(
        alloc,
        bins,
        collection,
        heuristic,
        placements.as_mut_slice(),
        &mut chosen,
    );
    let [a, b, c] = placements;
    (status, chosen, [a.bin, b.bin, c.bin])
}

// What is answered to two strips of the groups 1 and 2, of which the first is in another group
// too, with two groups that are excluded, in two sheets.
pub(super) fn two_strips(
    alloc: Global,
    member: RpMember,
    pair: RpExclusion,
) -> (u32, u32, [u32; 3]) {
    let boxes = [RpBox { group: 1, ..STRIP }, RpBox { group: 2, ..STRIP }];
    let (members, exclusions) = ([member], [pair]);
    let collection = RpCollection {
        boxes: boxes.as_slice(),
        members: members.as_slice(),
        exclusions: exclusions.as_slice(),
    };
    answer(alloc, [SHEET, SHEET].as_slice(), &collection, RP_VOLUME)
}

#[test]
fn excluded_groups_are_apart(rt: HostRuntime) -> Result<(), Fail> {
    let member = RpMember { index: 0, group: 2 };
    let answer = two_strips(rt.alloc(), member, RpExclusion { one: 2, other: 1 });
    // The group 2 has two strips, and so it goes first.
    assert_eq!(rt; answer, (RP_DONE, RP_VOLUME, [1, 0, 0]));
    Ok(())
}

#[test]
fn members_name_boxes_and_groups_differ(rt: HostRuntime) -> Result<(), Fail> {
    let (known, unknown) = (
        RpMember { index: 1, group: 1 },
        RpMember { index: 2, group: 1 },
    );
    let (equal, other) = (
        RpExclusion { one: 3, other: 3 },
        RpExclusion { one: 3, other: 4 },
    );
    let answers = [
        two_strips(rt.alloc(), unknown, equal),
        two_strips(rt.alloc(), known, equal),
        two_strips(rt.alloc(), known, other),
    ];
    let want = [
        (RP_UNKNOWN_BOX, 99, [9, 9, 9]),
        (RP_EQUAL_GROUPS, 99, [9, 9, 9]),
        // The group 1 has two strips of the width 4, and leaves too little of its sheet for a third.
        (RP_DONE, RP_VOLUME, [0, 1, 0]),
    ];
    assert_eq!(rt; answers, want);
    Ok(())
}

// A box alone.
fn alone(width: u32, height: u32) -> RpBox {
    RpBox {
        width,
        height,
        depth: 1,
        group: 0,
    }
}

// What is answered to three boxes that only by height find space in a bin of 4 by 4.
fn three_boxes(alloc: Global, heuristic: u32) -> (u32, u32, [u32; 3]) {
    let boxes = [alone(1, 3), alone(3, 2), alone(3, 1)];
    let bin = RpBin {
        width: 4,
        height: 4,
        depth: 1,
    };
    answer(
        alloc,
        [bin].as_slice(),
        &RpCollection::of(boxes.as_slice()),
        heuristic,
    )
}

#[test]
fn the_best_heuristic_is_said(rt: HostRuntime) -> Result<(), Fail> {
    let answers = [
        three_boxes(rt.alloc(), RP_VOLUME),
        three_boxes(rt.alloc(), RP_BEST),
        three_boxes(rt.alloc(), 8),
    ];
    let want = [
        (RP_NOT_ENOUGH_SPACE, 99, [9, 9, 9]),
        (RP_DONE, RP_HEIGHT, [0, 0, 0]),
        (RP_UNKNOWN_HEURISTIC, 99, [9, 9, 9]),
    ];
    assert_eq!(rt; answers, want);
    Ok(())
}

#[test]
fn there_is_a_place_for_each_member(rt: HostRuntime) -> Result<(), Fail> {
    let boxes = [STRIP, STRIP];
    let members = [
        RpMember { index: 0, group: 0 },
        RpMember { index: 1, group: 0 },
    ];
    let collection = RpCollection {
        members: members.as_slice(),
        ..RpCollection::of(boxes.as_slice())
    };
    let answer = answer(rt.alloc(), [SHEET].as_slice(), &collection, RP_VOLUME);
    assert_eq!(rt; answer, (RP_BAD_LENGTHS, 99, [9, 9, 9]));
    Ok(())
}
