//! Packing what fits, in bins of one call and in a session: what is placed, what is left, and each
//! fault. A sheet has 10 by 10 cells.
ghost use Rattle.std.specs.Prelude.{IsSome};

use super::session::{UNSET, opens};
use super::{NOWHERE, SHEET, place};
use crate::collection::{RP_BEST, RP_HEIGHT, RP_VOLUME, RpCollection, RpExclusion, RpMember};
use crate::fitting::{
    RP_LEFT_BIN, RP_LEFT_NUMBER, RpFitted, rectangle_pack_fitting,
    rectangle_pack_session_pack_fitting,
};
use crate::handle::RpSession;
use crate::session::{RpOutstanding, rectangle_pack_session_free};
use crate::{
    RP_BAD_LENGTHS, RP_DONE, RP_EQUAL_GROUPS, RP_UNKNOWN_BOX, RP_UNKNOWN_HEURISTIC, RpBox,
};
use std::alloc::Global;
use std::test::Fail;

const NOT_FITTED: RpFitted = RpFitted {
    heuristic: 99,
    left: 99,
};

pub(super) const LEFT: [u32; 4] = [RP_LEFT_BIN, 0, 0, 0];

pub(super) const UNWRITTEN: [u32; 4] = [9, 9, 9, 9];

// What is answered: the status, the heuristic, and how many boxes are left.
pub(super) type Answer = (u32, u32, usize);

// A flat box of a group.
pub(super) fn flat(width: u32, height: u32, group: u32) -> RpBox {
    RpBox {
        width,
        height,
        depth: 1,
        group,
    }
}

// What is answered to a collection of two entries in one sheet, and where they stand.
fn two_in_sheet(
    alloc: Global,
    collection: &RpCollection<'_>,
    heuristic: u32,
) -> (Answer, [[u32; 4]; 2]) {
    let mut placements = [NOWHERE, NOWHERE];
    let mut fitted = NOT_FITTED;
    let status = rectangle_pack_fitting(
        alloc,
        [SHEET].as_slice(),
        collection,
        heuristic,
        placements.as_mut_slice(),
        &mut fitted,
    );
    let places = [place(&placements[0]), place(&placements[1])];
    ((status, fitted.heuristic, fitted.left), places)
}

// The same of a square of 6 by 6 cells and a box of 10 by 5, of which only one fits.
pub(super) fn square_and_strip(alloc: Global, heuristic: u32) -> (Answer, [[u32; 4]; 2]) {
    let boxes = [flat(6, 6, 0), flat(10, 5, 0)];
    two_in_sheet(alloc, &RpCollection::of(boxes.as_slice()), heuristic)
}

#[test]
fn the_fewest_cells_are_left(rt: HostRuntime) -> Result<(), Fail> {
    let answers = [
        square_and_strip(rt.alloc(), RP_HEIGHT),
        square_and_strip(rt.alloc(), RP_BEST),
        square_and_strip(rt.alloc(), 8),
    ];
    let want = [
        ((RP_DONE, RP_HEIGHT, 1), [[0, 0, 0, 0], LEFT]),
        // 36 cells are left in place of 50. Of those that leave so few, by volume comes first.
        ((RP_DONE, RP_VOLUME, 1), [LEFT, [0, 0, 0, 0]]),
        ((RP_UNKNOWN_HEURISTIC, 99, 99), [UNWRITTEN, UNWRITTEN]),
    ];
    assert_eq!(rt; answers, want);
    Ok(())
}

// What is answered to two boxes of a collection with these members and exclusions.
fn with_lists(
    alloc: Global,
    boxes: &[RpBox],
    members: &[RpMember],
    exclusions: &[RpExclusion],
) -> (Answer, [[u32; 4]; 2]) {
    let collection = RpCollection {
        boxes,
        members,
        exclusions,
    };
    two_in_sheet(alloc, &collection, RP_VOLUME)
}

#[test]
fn groups_are_left_whole(rt: HostRuntime) -> Result<(), Fail> {
    let (together, apart) = (
        [flat(6, 6, 3), flat(5, 5, 3)],
        [flat(4, 4, 1), flat(2, 2, 2)],
    );
    let pair = [RpExclusion { one: 2, other: 1 }];
    let answers = [
        with_lists(rt.alloc(), together.as_slice(), &[], &[]),
        with_lists(rt.alloc(), apart.as_slice(), &[], pair.as_slice()),
    ];
    let want = [
        ((RP_DONE, RP_VOLUME, 2), [LEFT, LEFT]),
        // The greater group goes first, and the sheet is excluded for the other.
        ((RP_DONE, RP_VOLUME, 1), [[0, 0, 0, 0], LEFT]),
    ];
    assert_eq!(rt; answers, want);
    Ok(())
}

#[test]
fn faults_write_nothing(rt: HostRuntime) -> Result<(), Fail> {
    let boxes = [flat(1, 1, 1), flat(1, 1, 2)];
    let (unknown, equal) = (
        [RpMember { index: 1, group: 1 }],
        [RpExclusion { one: 3, other: 3 }],
    );
    let one = &boxes.as_slice()[..1];
    let answers = [
        with_lists(rt.alloc(), one, &[], &[]),
        with_lists(rt.alloc(), one, unknown.as_slice(), &[]),
        with_lists(rt.alloc(), boxes.as_slice(), &[], equal.as_slice()),
    ];
    let nothing = [UNWRITTEN, UNWRITTEN];
    let want = [
        ((RP_BAD_LENGTHS, 99, 99), nothing),
        ((RP_UNKNOWN_BOX, 99, 99), nothing),
        ((RP_EQUAL_GROUPS, 99, 99), nothing),
    ];
    assert_eq!(rt; answers, want);
    Ok(())
}

// What is answered to squares of 6, 5 and 4 cells a side in a session, and the numbers and bins
// that are written.
fn three_squares(alloc: Global, session: &mut RpSession) -> (Answer, [u64; 3], [u32; 3])
    requires { IsSome session.old.state }
    ensures { IsSome session.new.state }
{
    let boxes = [flat(6, 6, 0), flat(5, 5, 0), flat(4, 4, 0)];
    let mut placements: [RpOutstanding; 3] = [UNSET, UNSET, UNSET];
    let mut fitted = NOT_FITTED;
    let status = rectangle_pack_session_pack_fitting(
        alloc,
        session,
        &RpCollection::of(boxes.as_slice()),
        RP_VOLUME,
        placements.as_mut_slice(),
        &mut fitted,
    );
    let [a, b, c] = placements;
    let numbers = [a.number, b.number, c.number];
    let bins = [a.placement.bin, b.placement.bin, c.placement.bin];
    ((status, fitted.heuristic, fitted.left), numbers, bins)
}

// Beside the square of 6 there is room for that of 4 alone. In what is then free none of 6 or 5 has
// room, but one more of 4.
#[test]
fn a_session_takes_what_fits(rt: HostRuntime) -> Result<(), Fail> {
    let alloc = rt.alloc();
    let mut session = RpSession::none(alloc);
    assert!(rt; opens(alloc, &mut session));
    let answers = [
        three_squares(alloc, &mut session),
        three_squares(alloc, &mut session),
    ];
    let (left, number) = (RP_LEFT_BIN, RP_LEFT_NUMBER);
    let want = [
        ((RP_DONE, RP_VOLUME, 1), [0, number, 1], [7, left, 7]),
        (
            (RP_DONE, RP_VOLUME, 2),
            [number, number, 2],
            [left, left, 7],
        ),
    ];
    assert_eq!(rt; answers, want);
    rectangle_pack_session_free(alloc, &mut session);
    Ok(())
}
