//! What fits where heuristic and comparison answer without sense, and otherwise from call to call:
//! what is placed keeps cells and groups, and of what is left nothing is placed.
ghost use Rattle.rectangle_pack.specs.Closures.{CanRate};

use super::fitting::{FittedNumbers, with_bins};
use super::hostile::{Answers, MOODS, Mood, Three, are_whole, compare, rate};
use super::{BIN, OTHER, TestSession, plenty};
use rectangle_pack::{Group, Outstanding, SessionError, WidthHeightDepth};
use std::process::Abort;
use std::test::Fail;
use tests_support::box_list;
use tests_support::boxes::{GroupName, Rects, SizedBin, SizedBox, collect};
use tests_support::refusing::Refusing;

const BINS: &[SizedBin] = &[(BIN, [6, 6, 3], &[]), (OTHER, [5, 4, 2], &[])];

// In all 232 cells, where the bins have 148: the box of 7x1x1 is too wide for each, and of those of
// 4x4x2 each bin takes one at most.
const BOXES: &[SizedBox] = box_list!(
    1: [4, 4, 2] in [1], 2: [2, 1, 1] in [1], 3: [4, 4, 2] in [2], 4: [1, 3, 2] in [2],
    5: [4, 4, 2] in [3], 6: [2, 2, 2] in [3], 7: [7, 1, 1] in [4], 8: [1, 1, 1] in [4],
    9: [3, 3, 3] in [5], 10: [5, 4, 2] in [6], 11: [0, 3, 1] in [6], 12: [2, 2, 1] in [7],
    13: [1, 1, 3] in [8], 14: [3, 2, 1] in [8], 15: [2, 3, 2] in [8], 16: [6, 1, 1] in [9],
    17: [1, 6, 1] in [9], 18: [2, 2, 2] in [10]
);

// How many of the boxes are in this group.
fn members(group: u32) -> usize {
    let mut count = 0usize;
    for (_, _, groups) in BOXES {
        if groups.contains(&group) {
            count = count.wrapping_add(1);
        }
    }
    count
}

// Whether the box is in this group.
fn is_in(id: u32, group: u32) -> bool {
    for (other, _, groups) in BOXES {
        if *other == id {
            return groups.contains(&group);
        }
    }
    false
}

// How many boxes of this group stand in the bin.
fn standing(outstanding: &[Outstanding<u32, u32>], group: u32, bin: u32) -> usize {
    let mut count = 0usize;
    for placed in outstanding {
        if placed.bin == bin && is_in(placed.id, group) {
            count = count.wrapping_add(1);
        }
    }
    count
}

fn is_left(left: &[&GroupName], group: u32) -> bool {
    for name in left {
        if **name == Group::Grouped(group) {
            return true;
        }
    }
    false
}

// Whether the group is left, and none of its boxes stands anywhere; or it is not, and all stand in one
// bin.
fn is_whole(session: &TestSession, left: &[&GroupName], group: u32) -> bool {
    let outstanding = session.outstanding();
    let here = standing(outstanding, group, BIN);
    let there = standing(outstanding, group, OTHER);
    if is_left(left, group) {
        return here == 0 && there == 0;
    }
    here.max(there) == members(group) && here.min(there) == 0
}

fn are_groups_whole(session: &TestSession, left: &[&GroupName]) -> bool {
    for group in 1..11 {
        if !is_whole(session, left, group) {
            return false;
        }
    }
    true
}

fn pack_comparing<'a, H>(
    session: &mut TestSession,
    rects: &'a Rects,
    answers: &Answers,
    heuristic: &H,
) -> Result<FittedNumbers<'a>, SessionError>
where
    H: Fn(WidthHeightDepth) -> u128,
    requires { CanRate H.Fn heuristic.now }
{
    let comparison = |one: Three, other: Three, _: &H| compare(answers, one, other);
    session.pack_fitting(rects, heuristic, &comparison)
}

// Packs what fits by these answers.
fn pack<'a>(
    session: &mut TestSession,
    rects: &'a Rects,
    answers: &Answers,
) -> Result<FittedNumbers<'a>, SessionError> {
    let heuristic = |size: WidthHeightDepth| rate(answers, size);
    pack_comparing(session, rects, answers, &heuristic)
}

// Packs in this mood. Group 4 is always left, and one of the groups 1 to 3. Some group is placed:
// until one is, the bins are whole, and then the larger one takes group 10.
fn packs(rt: &impl Abort, alloc: Refusing, rects: &Rects, mood: Mood) -> Result<(), Fail> {
    let mut session = with_bins(alloc, 0, BINS)?;
    let fitted = pack(&mut session, rects, &Answers::new(mood, false))?;
    let left = fitted.left.as_slice();
    assert!(rt; are_whole(&session) && are_groups_whole(&session, left));
    assert!(rt; is_left(left, 4) && left.len() > 1 && left.len() < 10);
    assert!(rt; fitted.packed.count == session.outstanding().len() as u64);
    Ok(())
}

#[test]
fn answers_without_sense(rt: HostRuntime) -> Result<(), Fail> {
    let alloc = plenty(&rt, rt.alloc());
    let rects = collect(alloc, BOXES, &[])?;
    for mood in MOODS {
        packs(&rt, alloc, &rects, mood)?;
    }
    Ok(())
}
