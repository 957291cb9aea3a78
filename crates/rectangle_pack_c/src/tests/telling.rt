//! Packings as they are told, in bins of one call and in a session: what is placed, what is left,
//! each step that is refused, and each fault. A sheet has 10 by 10 cells.
ghost use Rattle.std.specs.Prelude.{IsSome};

use super::fitting::{LEFT, UNWRITTEN, flat};
use super::session::{UNSET, opens};
use super::{NOWHERE, SHEET, place};
use crate::collection::{RP_BEST, RP_HEIGHT, RP_VOLUME, RpCollection, RpExclusion, RpMember};
use crate::fitting::RP_LEFT_NUMBER;
use crate::handle::RpSession;
use crate::session::{RpOutstanding, rectangle_pack_session_free};
use crate::telling::{
    RP_STEP_EXCLUDED, RP_STEP_NAMED_TWICE, RP_STEP_NO_ROOM, RP_STEP_UNKNOWN_BIN, RpRefused, RpStep,
    rectangle_pack_session_pack_told, rectangle_pack_told,
};
use crate::{
    RP_BAD_LENGTHS, RP_DONE, RP_EQUAL_GROUPS, RP_STEP_REFUSED, RP_UNKNOWN_BOX, RP_UNKNOWN_HEURISTIC,
};
use std::alloc::Global;
use std::test::Fail;

const NOT_REFUSED: RpRefused = RpRefused {
    step: 99,
    fault: 99,
};

// What is answered: the status, the step that is refused, and why.
type Answer = (u32, usize, u32);

// A step by the heuristic of this number.
fn with(heuristic: u32, index: u32, bin: u32) -> RpStep {
    RpStep {
        index,
        bin,
        heuristic,
    }
}

// A step by volume.
fn step(index: u32, bin: u32) -> RpStep {
    with(RP_VOLUME, index, bin)
}

// What is answered to a collection of three entries in two sheets, and where they stand.
fn three_told(
    alloc: Global,
    collection: &RpCollection<'_>,
    steps: &[RpStep],
) -> (Answer, [[u32; 4]; 3]) {
    let mut placements = [NOWHERE, NOWHERE, NOWHERE];
    let mut refused = NOT_REFUSED;
    let status = rectangle_pack_told(
        alloc,
        [SHEET, SHEET].as_slice(),
        collection,
        steps,
        placements.as_mut_slice(),
        &mut refused,
    );
    let places = [
        place(&placements[0]),
        place(&placements[1]),
        place(&placements[2]),
    ];
    ((status, refused.step, refused.fault), places)
}

// The same of a strip of 4 by 10 cells and of squares of 6 and 5 cells a side, each alone.
fn strip_and_squares(alloc: Global, steps: &[RpStep]) -> (Answer, [[u32; 4]; 3]) {
    let boxes = [flat(4, 10, 0), flat(6, 6, 0), flat(5, 5, 0)];
    three_told(alloc, &RpCollection::of(boxes.as_slice()), steps)
}

// The strip leaves 6 by 10 cells beside it, in whose corner the square of 6 stands.
#[test]
fn steps_are_done_and_the_rest_is_left(rt: HostRuntime) -> Result<(), Fail> {
    let by_height = with(RP_HEIGHT, 1, 1);
    let answers = [
        strip_and_squares(rt.alloc(), [step(0, 1), by_height].as_slice()),
        strip_and_squares(rt.alloc(), [step(2, 0), step(0, 1)].as_slice()),
        strip_and_squares(rt.alloc(), &[]),
    ];
    let done = (RP_DONE, 99, 99);
    let want = [
        (done, [[1, 0, 0, 0], [1, 4, 0, 0], LEFT]),
        (done, [[1, 0, 0, 0], LEFT, [0, 0, 0, 0]]),
        (done, [LEFT, LEFT, LEFT]),
    ];
    assert_eq!(rt; answers, want);
    Ok(())
}

// A box of the group, or a member of it, names all of the group: 4 and 6 cells fill the width.
#[test]
fn groups_go_whole(rt: HostRuntime) -> Result<(), Fail> {
    let boxes = [flat(4, 10, 3), flat(6, 10, 0)];
    let members = [RpMember { index: 1, group: 3 }];
    let collection = RpCollection {
        members: members.as_slice(),
        ..RpCollection::of(boxes.as_slice())
    };
    let answers = [
        three_told(rt.alloc(), &collection, [step(0, 1)].as_slice()),
        three_told(rt.alloc(), &collection, [step(2, 1)].as_slice()),
        three_told(rt.alloc(), &collection, [step(1, 1)].as_slice()),
    ];
    let done = (RP_DONE, 99, 99);
    let want = [
        (done, [[1, 0, 0, 0], LEFT, [1, 4, 0, 0]]),
        (done, [[1, 0, 0, 0], LEFT, [1, 4, 0, 0]]),
        (done, [LEFT, [1, 0, 0, 0], LEFT]),
    ];
    assert_eq!(rt; answers, want);
    Ok(())
}

// What is answered to three small boxes, of which those of the groups 1 and 2 are excluded.
fn excluded(alloc: Global, steps: &[RpStep]) -> (Answer, [[u32; 4]; 3]) {
    let boxes = [flat(1, 1, 1), flat(1, 1, 2), flat(1, 1, 0)];
    let pairs = [RpExclusion { one: 2, other: 1 }];
    let collection = RpCollection {
        exclusions: pairs.as_slice(),
        ..RpCollection::of(boxes.as_slice())
    };
    three_told(alloc, &collection, steps)
}

// Beside a square of 6 none of 5 has room.
#[test]
fn the_first_step_that_is_refused_is_written(rt: HostRuntime) -> Result<(), Fail> {
    let alloc = rt.alloc();
    let answers = [
        strip_and_squares(alloc, [step(0, 0), step(1, 1), step(2, 2)].as_slice()),
        strip_and_squares(alloc, [step(0, 0), step(0, 1)].as_slice()),
        excluded(alloc, [step(2, 1), step(1, 1), step(0, 1)].as_slice()),
        strip_and_squares(alloc, [step(1, 1), step(2, 1), step(0, 2)].as_slice()),
    ];
    let nothing = [UNWRITTEN, UNWRITTEN, UNWRITTEN];
    let want = [
        ((RP_STEP_REFUSED, 2, RP_STEP_UNKNOWN_BIN), nothing),
        ((RP_STEP_REFUSED, 1, RP_STEP_NAMED_TWICE), nothing),
        ((RP_STEP_REFUSED, 2, RP_STEP_EXCLUDED), nothing),
        ((RP_STEP_REFUSED, 1, RP_STEP_NO_ROOM), nothing),
    ];
    assert_eq!(rt; answers, want);
    Ok(())
}

// What is answered to steps with the heuristic of this number, and to one of the fourth of three
// boxes.
fn faults_of_steps(alloc: Global) -> [Answer; 3] {
    [
        strip_and_squares(alloc, [step(1, 0), with(8, 0, 0)].as_slice()).0,
        strip_and_squares(alloc, [with(RP_BEST, 0, 0)].as_slice()).0,
        strip_and_squares(alloc, [step(3, 0)].as_slice()).0,
    ]
}

// What is answered to two boxes with a member of a third, to two boxes for three placements, and to
// three of which a group is excluded with itself.
fn faults_of_collections(alloc: Global) -> [Answer; 3] {
    let boxes = [flat(1, 1, 1), flat(1, 1, 2), flat(1, 1, 0)];
    let (members, pairs) = (
        [RpMember { index: 2, group: 0 }],
        [RpExclusion { one: 3, other: 3 }],
    );
    let two = RpCollection::of(&boxes.as_slice()[..2]);
    let member = RpCollection {
        members: members.as_slice(),
        ..two
    };
    let pair = RpCollection {
        exclusions: pairs.as_slice(),
        ..RpCollection::of(boxes.as_slice())
    };
    [
        three_told(alloc, &member, &[]).0,
        three_told(alloc, &two, &[]).0,
        three_told(alloc, &pair, &[]).0,
    ]
}

#[test]
fn faults_are_answered_first(rt: HostRuntime) -> Result<(), Fail> {
    let steps = faults_of_steps(rt.alloc());
    let unknown = (RP_UNKNOWN_HEURISTIC, 99, 99);
    assert_eq!(rt; steps, [unknown, unknown, (RP_UNKNOWN_BOX, 99, 99)]);
    let collections = faults_of_collections(rt.alloc());
    let want = [
        (RP_UNKNOWN_BOX, 99, 99),
        (RP_BAD_LENGTHS, 99, 99),
        (RP_EQUAL_GROUPS, 99, 99),
    ];
    assert_eq!(rt; collections, want);
    Ok(())
}

// What is answered in a session to a box and a square of 5 cells a side, of which the box alone is
// told into the bin, and the numbers and places that are written.
fn told_in(
    alloc: Global,
    session: &mut RpSession,
    size: [u32; 2],
) -> (Answer, [u64; 2], [[u32; 4]; 2])
    requires { IsSome session.old.state }
    ensures { IsSome session.new.state }
{
    let boxes = [flat(5, 5, 0), flat(size[0], size[1], 0)];
    let mut placements: [RpOutstanding; 2] = [UNSET, UNSET];
    let mut refused = NOT_REFUSED;
    let status = rectangle_pack_session_pack_told(
        alloc,
        session,
        &RpCollection::of(boxes.as_slice()),
        [step(1, 7)].as_slice(),
        placements.as_mut_slice(),
        &mut refused,
    );
    let [a, b] = placements;
    let answer = (status, refused.step, refused.fault);
    let places = [place(&a.placement), place(&b.placement)];
    (answer, [a.number, b.number], places)
}

// Beside a strip of 4 cells no second one of 7 has room, and nothing is taken for it.
#[test]
fn a_session_is_told(rt: HostRuntime) -> Result<(), Fail> {
    let alloc = rt.alloc();
    let mut session = RpSession::none(alloc);
    assert!(rt; opens(alloc, &mut session));
    let answers = [
        told_in(alloc, &mut session, [4, 10]),
        told_in(alloc, &mut session, [7, 10]),
        told_in(alloc, &mut session, [6, 10]),
    ];
    let done = (RP_DONE, 99, 99);
    let refused = (RP_STEP_REFUSED, 0, RP_STEP_NO_ROOM);
    let want = [
        (done, [RP_LEFT_NUMBER, 0], [LEFT, [7, 0, 0, 0]]),
        (refused, [99, 99], [UNWRITTEN, UNWRITTEN]),
        (done, [RP_LEFT_NUMBER, 1], [LEFT, [7, 4, 0, 0]]),
    ];
    assert_eq!(rt; answers, want);
    rectangle_pack_session_free(alloc, &mut session);
    Ok(())
}
