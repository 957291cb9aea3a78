//! `least_bins`: how many bins boxes need, by cases found by hand, and packings that use as few.

use rectangle_pack::{
    Group, Heuristic, Placement, RectanglePackError, RectanglePackOk, TargetBin, Turns, bins_used,
    least_bins, pack_rects_best, uses_fewest_bins,
};
use std::alloc::AllocError;
use std::collections::BTreeMap;
use std::process::Abort;
use std::test::Fail;
use tests_support::boxes::{Bins, GroupName, Rects, SizedBox, collect};
use tests_support::each_request::{End, is_refused};
use tests_support::refusing::Refusing;

/// Bins by their sizes, boxes, those that may be turned about z, pairs of groups that are excluded,
/// and the answer.
struct Case {
    bins: &'static [[u32; 3]],
    boxes: &'static [SizedBox],
    turned: &'static [u32],
    excluded: &'static [(GroupName, GroupName)],
    least: Option<usize>,
}

macro_rules! case {
    (bins $bins:expr; boxes $($id:literal: $rect:tt $(in $groups:tt)?),*;
        $(turned $turned:expr;)? $(apart $($pair:expr),*;)? least $least:expr) => {
        Case {
            bins: &$bins,
            boxes: tests_support::box_list!($($id: $rect $(in $groups)?),*),
            turned: case!(@turned $($turned)?),
            excluded: &[$($($pair),*)?],
            least: $least,
        }
    };
    (@turned) => { &[] };
    (@turned $turned:expr) => { &$turned };
}

const SHEET: [u32; 3] = [10, 10, 1];

const A: GroupName = Group::Grouped(1);

const B: GroupName = Group::Grouped(2);

const C: GroupName = Group::Grouped(3);

// Nothing needs no bin.
const NOTHING: Case = case!(bins [SHEET]; boxes; least Some(0));

// No two of these go into one bin.
const LARGE: Case = case!(bins [SHEET, SHEET, SHEET, SHEET];
    boxes 1: [6, 6, 1], 2: [6, 6, 1], 3: [6, 6, 1]; least Some(3));

const TOO_FEW_BINS: Case = case!(bins [SHEET, SHEET];
    boxes 1: [6, 6, 1], 2: [6, 6, 1], 3: [6, 6, 1]; least None);

const TOO_LARGE: Case = case!(bins [SHEET, SHEET]; boxes 1: [11, 1, 1]; least None);

// Too wide for the one, and too high for the other.
const TOO_LARGE_FOR_EACH: Case = case!(bins [[4, 10, 1], [10, 4, 1]]; boxes 1: [6, 6, 1];
    least None);

const NO_BINS: Case = case!(bins []; boxes 1: [1, 1, 1]; least None);

// 9x4x1, where they are turned: 36 cells each, in bins of 50.
const TURNED: Case = case!(bins [[10, 5, 1], [10, 5, 1], [10, 5, 1]];
    boxes 1: [4, 9, 1], 2: [4, 9, 1]; turned [1, 2]; least Some(2));

const NOT_ALL_TURNED: Case = case!(bins [[10, 5, 1], [10, 5, 1], [10, 5, 1]];
    boxes 1: [4, 9, 1], 2: [4, 9, 1]; turned [1]; least None);

// 250 cells, in bins of 100, 200 and 100 cells.
const SEVERAL_SIZES: Case = case!(bins [SHEET, [10, 20, 1], SHEET];
    boxes 1: [10, 5, 1], 2: [10, 5, 1], 3: [10, 5, 1], 4: [10, 5, 1], 5: [10, 5, 1];
    least Some(2));

// Each of the three is excluded with the other two.
const THREE_APART: Case = case!(bins [SHEET, SHEET, SHEET, SHEET];
    boxes 1: [1, 1, 1] in [1], 2: [1, 1, 1] in [2], 3: [1, 1, 1] in [3];
    apart (A, B), (B, C), (A, C); least Some(3));

// The second is excluded with the other two, and these may share a bin.
const CHAIN: Case = case!(bins [SHEET, SHEET, SHEET, SHEET];
    boxes 1: [1, 1, 1] in [1], 2: [1, 1, 1] in [2], 3: [1, 1, 1] in [3];
    apart (A, B), (B, C); least Some(2));

const THREE_APART_IN_TWO: Case = case!(bins [SHEET, SHEET];
    boxes 1: [1, 1, 1] in [1], 2: [1, 1, 1] in [2], 3: [1, 1, 1] in [3];
    apart (A, B), (B, C), (A, C); least None);

// No box is in the third group.
const ABSENT_GROUP: Case = case!(bins [SHEET, SHEET, SHEET];
    boxes 1: [1, 1, 1] in [1], 2: [1, 1, 1] in [2];
    apart (A, B), (B, C), (A, C); least Some(2));

// A box in two groups is two boxes.
const IN_TWO_GROUPS: Case = case!(bins [SHEET, SHEET, SHEET]; boxes 1: [6, 6, 1] in [1, 2];
    least Some(2));

fn cases() -> &'static [Case] {
    const CASES: &[Case] = &[
        NOTHING,
        LARGE,
        TOO_FEW_BINS,
        TOO_LARGE,
        TOO_LARGE_FOR_EACH,
        NO_BINS,
        TURNED,
        NOT_ALL_TURNED,
        SEVERAL_SIZES,
        THREE_APART,
        CHAIN,
        THREE_APART_IN_TWO,
        ABSENT_GROUP,
        IN_TWO_GROUPS,
    ];
    CASES
}

fn bins_of(alloc: Refusing, sizes: &[[u32; 3]]) -> Result<Bins, AllocError> {
    let mut bins = Bins::new(alloc);
    for (id, size) in sizes.iter().enumerate() {
        let [width, height, depth] = *size;
        let id = u32::try_from(id).unwrap_or(u32::MAX);
        bins.insert(id, TargetBin::new(alloc, width, height, depth)?)?;
    }
    Ok(bins)
}

fn turns_of(alloc: Refusing, turned: &[u32]) -> Result<BTreeMap<u32, Turns, Refusing>, AllocError> {
    let mut turns = BTreeMap::new(alloc);
    for id in turned {
        let about_z = Turns {
            about_x: false,
            about_y: false,
            about_z: true,
        };
        turns.insert(*id, about_z)?;
    }
    Ok(turns)
}

#[derive(Drop)]
struct Made {
    rects: Rects,
    bins: Bins,
    turns: BTreeMap<u32, Turns, Refusing>,
}

fn make(alloc: Refusing, case: &Case) -> Result<Made, AllocError> {
    Ok(Made {
        rects: collect(alloc, case.boxes, case.excluded)?,
        bins: bins_of(alloc, case.bins)?,
        turns: turns_of(alloc, case.turned)?,
    })
}

fn bounds(rt: &impl Abort, alloc: Refusing, case: &Case) -> End {
    let Ok(made) = make(alloc, case) else {
        return End::Before;
    };
    match least_bins(alloc, &made.rects, &made.bins, &made.turns) {
        Ok(least) => {
            assert!(rt; least == case.least);
            End::Done
        }
        Err(_) => End::Refused,
    }
}

#[test]
fn least_bins_of_cases(rt: HostRuntime) -> Result<(), Fail> {
    for case in cases() {
        is_refused(rt.alloc(), |refusing| Ok(bounds(&rt, refusing, case)))?;
    }
    Ok(())
}

#[test]
fn least_bins_take_memory(rt: HostRuntime) -> Result<(), Fail> {
    let case = &THREE_APART;
    let refused = is_refused(rt.alloc(), |refusing| Ok(bounds(&rt, refusing, case)))?;
    assert!(rt; refused);
    Ok(())
}

// Packs the boxes of the case with the best of two heuristics.
fn packed(
    alloc: Refusing,
    made: &mut Made,
) -> Result<RectanglePackOk<u32, u32, Refusing>, RectanglePackError> {
    let heuristics = [Heuristic::Volume, Heuristic::LongestSide];
    let (_, packed) = pack_rects_best(alloc, &made.rects, &mut made.bins, &heuristics)?;
    Ok(packed)
}

// How many bins the boxes of the case are packed into, and whether these are the fewest.
fn reads(alloc: Refusing, case: &Case) -> Result<(usize, bool), Fail> {
    let mut made = make(alloc, case)?;
    let least = least_bins(alloc, &made.rects, &made.bins, &made.turns)?;
    let packed = packed(alloc, &mut made)?;
    let used = bins_used(alloc, packed.placements())?;
    let fewest = uses_fewest_bins(alloc, packed.placements(), least)?;
    Ok((used, fewest))
}

#[test]
fn packings_with_the_fewest_bins(rt: HostRuntime) -> Result<(), Fail> {
    let alloc = Refusing::new(rt.alloc(), 1000)?;
    for case in [&LARGE, &THREE_APART, &CHAIN, &IN_TWO_GROUPS] {
        let (used, fewest) = reads(alloc, case)?;
        assert!(rt; fewest && Some(used) == case.least);
    }
    Ok(())
}

// The same placements, where more is asked for than is so, and where nothing is.
fn against(rt: &impl Abort, alloc: Refusing, placements: &[Placement<u32, u32>]) -> End {
    let Ok(used) = bins_used(alloc, placements) else {
        return End::Refused;
    };
    assert!(rt; used == 3);
    for (least, wanted) in [
        (Some(2), false),
        (Some(3), true),
        (Some(4), true),
        (None, false),
    ] {
        match uses_fewest_bins(alloc, placements, least) {
            Ok(fewest) => assert!(rt; fewest == wanted),
            Err(_) => return End::Refused,
        }
    }
    End::Done
}

fn reads_three(rt: &impl Abort, alloc: Refusing) -> End {
    let Ok(mut made) = make(alloc, &LARGE) else {
        return End::Before;
    };
    match packed(alloc, &mut made) {
        Ok(packed) => against(rt, alloc, packed.placements()),
        Err(_) => End::Before,
    }
}

#[test]
fn readers_take_memory(rt: HostRuntime) -> Result<(), Fail> {
    let refused = is_refused(rt.alloc(), |refusing| Ok(reads_three(&rt, refusing)))?;
    assert!(rt; refused);
    Ok(())
}
