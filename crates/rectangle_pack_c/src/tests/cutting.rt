//! The straight cuts round boxes, on a few of them. What the call says of all boxes is proved; that
//! it says `RP_DONE` where cuts leave them is seen here.

use super::SHEET;
use super::restoring::{NOTHING, section_at};
use crate::cutting::rectangle_pack_straight_cuts;
use crate::reading::{RP_LEAF, RpCutStep, RpSection};
use crate::restoring::{RP_WRONG_OUTSIDE, RP_WRONG_SHARED_CELL};
use crate::{RP_DONE, RP_NO_PLAN, RP_SHORT_ARRAY, RP_WRONG_BOXES};
use std::alloc::Global;
use std::test::Fail;

const NO_STEP: RpCutStep = RpCutStep { axis: 9, place: 9 };

const LEAF: [u32; 2] = [RP_LEAF, 0];

const UNWRITTEN: [u32; 2] = [9, 9];

const NOT_WRONG: [usize; 4] = [9; 4];

// What is answered: the status, how many steps there are, the first three of them, and what is
// wrong.
#[derive(Drop)]
struct Answer {
    status: u32,
    count: usize,
    steps: [[u32; 2]; 3],
    wrong: [usize; 4],
}

fn cuts(alloc: Global, boxes: &[RpSection], room: usize) -> Answer {
    let mut told = [NO_STEP; 9];
    let mut count = 99;
    let mut wrong = NOTHING;
    let array = &mut told[..room.min(9)];
    let status = rectangle_pack_straight_cuts(alloc, &SHEET, boxes, array, &mut count, &mut wrong);
    let [one, two, three, ..] = told;
    Answer {
        status,
        count,
        steps: [
            [one.axis, one.place],
            [two.axis, two.place],
            [three.axis, three.place],
        ],
        wrong: [wrong.kind as usize, wrong.bin, wrong.first, wrong.second],
    }
}

// The sheet 10x10x1 is cut at the right side of the strip.
#[test]
fn one_cut_leaves_a_strip(rt: HostRuntime) -> Result<(), Fail> {
    let answer = cuts(rt.alloc(), &[section_at(0, 0, 4, 10)], 9);
    assert_eq!(rt; (answer.status, answer.count), (RP_DONE, 3));
    assert_eq!(rt; answer.steps, [[0, 4], LEAF, LEAF]);
    assert_eq!(rt; answer.wrong, NOT_WRONG);
    Ok(())
}

#[test]
fn array_is_too_short(rt: HostRuntime) -> Result<(), Fail> {
    let answer = cuts(rt.alloc(), &[section_at(0, 0, 4, 10)], 2);
    assert_eq!(rt; (answer.status, answer.count), (RP_SHORT_ARRAY, 3));
    assert_eq!(rt; answer.steps, [UNWRITTEN; 3]);
    Ok(())
}

// An empty bin is one leaf, and so is one with a box without cells.
#[test]
fn nothing_is_cut(rt: HostRuntime) -> Result<(), Fail> {
    let empty = cuts(rt.alloc(), &[], 9);
    assert_eq!(rt; (empty.status, empty.count), (RP_DONE, 1));
    assert_eq!(rt; empty.steps, [LEAF, UNWRITTEN, UNWRITTEN]);
    let flat = cuts(rt.alloc(), &[section_at(3, 3, 0, 2)], 9);
    assert_eq!(rt; (flat.status, flat.count), (RP_DONE, 1));
    Ok(())
}

// Four boxes round a middle that is free.
#[test]
fn pinwheel_has_no_cuts(rt: HostRuntime) -> Result<(), Fail> {
    let round = [
        section_at(0, 0, 6, 4),
        section_at(6, 0, 4, 6),
        section_at(4, 6, 6, 4),
        section_at(0, 4, 4, 6),
    ];
    let answer = cuts(rt.alloc(), &round, 9);
    assert_eq!(rt; (answer.status, answer.count), (RP_NO_PLAN, 99));
    assert_eq!(rt; answer.steps, [UNWRITTEN; 3]);
    assert_eq!(rt; answer.wrong, NOT_WRONG);
    Ok(())
}

#[test]
fn boxes_are_wrong(rt: HostRuntime) -> Result<(), Fail> {
    let alloc = rt.alloc();
    let strip = section_at(0, 0, 4, 10);
    let outside = cuts(alloc, &[strip, section_at(4, 0, 7, 1), strip], 9);
    assert_eq!(rt; (outside.status, outside.count), (RP_WRONG_BOXES, 99));
    assert_eq!(rt; outside.wrong, [RP_WRONG_OUTSIDE as usize, 0, 1, 0]);
    let shares = cuts(
        alloc,
        &[section_at(4, 0, 6, 1), strip, section_at(3, 9, 2, 1)],
        9,
    );
    assert_eq!(rt; shares.status, RP_WRONG_BOXES);
    assert_eq!(rt; shares.wrong, [RP_WRONG_SHARED_CELL as usize, 0, 1, 2]);
    assert_eq!(rt; shares.steps, [UNWRITTEN; 3]);
    Ok(())
}
