//! `pack_rects_searched`: what is found, by cases whose best end is known by hand.

use rectangle_pack::{
    Group, Progress, RectanglePackError, RectanglePackOk, SearchOptions, Searched, TargetBin,
    Turns, pack_rects_searched,
};
use std::alloc::AllocError;
use std::collections::BTreeMap;
use std::process::Abort;
use std::test::Fail;
use tests_support::boxes::{Bins, GroupName, Rects, SizedBox, collect};
use tests_support::each_request::{End, is_refused};
use tests_support::refusing::Refusing;

/// What is found: how many boxes are placed, how many groups are left, how many bins are used, and
/// whether it is proved that no packer uses fewer.
#[derive(Clone, Copy, PartialEq)]
struct Wanted {
    placed: usize,
    left: usize,
    used: usize,
    is_optimal: bool,
}

/// Bins by their sizes, boxes, those that may be turned about z, pairs of groups that are excluded,
/// what bins cost, whether something may be left, and what is found: `None` where there is not enough
/// space.
#[derive(Drop)]
struct Case {
    bins: &'static [[u32; 3]],
    boxes: &'static [SizedBox],
    turned: &'static [u32],
    excluded: &'static [(GroupName, GroupName)],
    costs: &'static [(u32, u64)],
    may_leave: bool,
    wanted: Option<Wanted>,
}

const SHEET: [u32; 3] = [10, 10, 1];

const A: GroupName = Group::Grouped(1);

const B: GroupName = Group::Grouped(2);

const PLAIN: Case = Case {
    bins: &[],
    boxes: &[],
    turned: &[],
    excluded: &[],
    costs: &[],
    may_leave: false,
    wanted: None,
};

macro_rules! all_in {
    ($placed:expr, $used:expr, $is_optimal:expr) => {
        Some(Wanted {
            placed: $placed,
            left: 0,
            used: $used,
            is_optimal: $is_optimal,
        })
    };
}

// Four squares of half a side fill a sheet.
const FOUR: Case = Case {
    bins: &[SHEET, SHEET],
    boxes: tests_support::box_list!(1: [5, 5, 1], 2: [5, 5, 1], 3: [5, 5, 1], 4: [5, 5, 1]),
    wanted: all_in!(4, 1, true),
    ..PLAIN
};

// Lying it is too wide, standing it fits.
const TURNED: Case = Case {
    bins: &[[3, 9, 1]],
    boxes: tests_support::box_list!(1: [9, 2, 1]),
    turned: &[1],
    wanted: all_in!(1, 1, true),
    ..PLAIN
};

const NOT_TURNED: Case = Case {
    bins: &[[3, 9, 1]],
    boxes: tests_support::box_list!(1: [9, 2, 1]),
    ..PLAIN
};

// No bin takes it, so no number of bins is enough.
const LEFT: Case = Case {
    bins: &[[3, 9, 1]],
    boxes: tests_support::box_list!(1: [9, 2, 1], 2: [3, 1, 1]),
    may_leave: true,
    wanted: Some(Wanted {
        placed: 1,
        left: 1,
        used: 1,
        is_optimal: false,
    }),
    ..PLAIN
};

// A box in two groups stands as it is, in both.
const TWICE: Case = Case {
    bins: &[[3, 9, 1], [3, 9, 1]],
    boxes: tests_support::box_list!(1: [9, 2, 1] in [1, 2]),
    turned: &[1],
    ..PLAIN
};

// Of three groups of two such boxes one is alone, as four of them fill a sheet.
const WHOLE: Case = Case {
    bins: &[SHEET, SHEET, SHEET],
    boxes: tests_support::box_list!(1: [5, 5, 1] in [1], 2: [5, 5, 1] in [1], 3: [5, 5, 1] in [2],
        4: [5, 5, 1] in [2], 5: [5, 5, 1] in [3], 6: [5, 5, 1] in [3]),
    wanted: all_in!(6, 2, true),
    ..PLAIN
};

const APART: Case = Case {
    bins: &[SHEET, SHEET],
    boxes: tests_support::box_list!(1: [2, 2, 1] in [1], 2: [2, 2, 1] in [2]),
    excluded: &[(A, B)],
    wanted: all_in!(2, 2, true),
    ..PLAIN
};

// The two small bins cost less than the large one, in which both boxes fit.
const CHEAP: Case = Case {
    bins: &[[10, 5, 1], [5, 5, 1], [5, 5, 1]],
    boxes: tests_support::box_list!(1: [5, 5, 1], 2: [5, 5, 1]),
    costs: &[(0, 10), (1, 3), (2, 3)],
    wanted: all_in!(2, 2, false),
    ..PLAIN
};

const DEAR: Case = Case {
    costs: &[(1, 6), (2, 6), (0, 10)],
    wanted: all_in!(2, 1, true),
    ..CHEAP
};

fn cases() -> &'static [Case] {
    const CASES: &[Case] = &[
        PLAIN_OF_NOTHING,
        FOUR,
        TURNED,
        NOT_TURNED,
        LEFT,
        TWICE,
        WHOLE,
        APART,
        CHEAP,
        DEAR,
    ];
    CASES
}

// Nothing needs no bin.
const PLAIN_OF_NOTHING: Case = Case {
    wanted: all_in!(0, 0, true),
    ..PLAIN
};

type Turning = BTreeMap<u32, Turns, Refusing>;

type Costs = BTreeMap<u32, u64, Refusing>;

#[derive(Drop)]
struct Made {
    rects: Rects,
    bins: Bins,
    turns: Turning,
    costs: Costs,
}

fn bins_of(alloc: Refusing, sizes: &[[u32; 3]]) -> Result<Bins, AllocError> {
    let mut bins = Bins::new(alloc);
    for (id, size) in sizes.iter().enumerate() {
        let [width, height, depth] = *size;
        let id = u32::try_from(id).unwrap_or(u32::MAX);
        bins.insert(id, TargetBin::new(alloc, width, height, depth)?)?;
    }
    Ok(bins)
}

fn turns_of(alloc: Refusing, turned: &[u32]) -> Result<Turning, AllocError> {
    let mut turns = BTreeMap::new(alloc);
    for id in turned {
        let about_z = Turns {
            about_x: false,
            about_y: false,
            about_z: true,
        };
        turns.insert(*id, about_z)?;
    }
    Ok(turns)
}

fn costs_of(alloc: Refusing, listed: &[(u32, u64)]) -> Result<Costs, AllocError> {
    let mut costs = BTreeMap::new(alloc);
    for (id, cost) in listed {
        costs.insert(*id, *cost)?;
    }
    Ok(costs)
}

fn make(alloc: Refusing, case: &Case) -> Result<Made, AllocError> {
    Ok(Made {
        rects: collect(alloc, case.boxes, case.excluded)?,
        bins: bins_of(alloc, case.bins)?,
        turns: turns_of(alloc, case.turned)?,
        costs: costs_of(alloc, case.costs)?,
    })
}

type Found<'a> = Searched<'a, RectanglePackOk<u32, u32, Refusing>, GroupName, Refusing>;

fn search<'a>(
    alloc: Refusing,
    made: &'a mut Made,
    may_leave: bool,
    tries: u64,
) -> Result<Found<'a>, RectanglePackError> {
    let options = SearchOptions {
        tries,
        seed: 1,
        may_leave,
        turns: &made.turns,
        costs: &made.costs,
    };
    pack_rects_searched(alloc, &made.rects, &mut made.bins, &options, |_| true)
}

fn read(found: &Found<'_>) -> Wanted {
    Wanted {
        placed: found.packed.placements().len(),
        left: found.left.len(),
        used: found.used,
        is_optimal: found.is_optimal,
    }
}

// Searches, and looks at what is found; refused for want of memory, all is as before.
fn searches(rt: &impl Abort, alloc: Refusing, case: &Case, tries: u64) -> End {
    let Ok(mut made) = make(alloc, case) else {
        return End::Before;
    };
    match search(alloc, &mut made, case.may_leave, tries) {
        Ok(found) => {
            assert!(rt; Some(read(&found)) == case.wanted);
            End::Done
        }
        Err(RectanglePackError::NotEnoughBinSpace) => {
            assert!(rt; case.wanted.is_none());
            End::Done
        }
        Err(RectanglePackError::OutOfMemory) => End::Refused,
    }
}

#[test]
fn searches_of_cases(rt: HostRuntime) -> Result<(), Fail> {
    let alloc = Refusing::new(rt.alloc(), u64::MAX)?;
    for case in cases() {
        assert!(rt; searches(&rt, alloc, case, 500) == End::Done);
    }
    Ok(())
}

// Each request for memory is refused in turn.
#[test]
fn searches_take_memory(rt: HostRuntime) -> Result<(), Fail> {
    let case = &TURNED;
    let refused = is_refused(
        rt.alloc(),
        |refusing| Ok(searches(&rt, refusing, case, 200)),
    )?;
    assert!(rt; refused);
    Ok(())
}

// Twenty shelves of 800 x 600 on sheets of 2780 x 2050, with 3.2 for the saw, in tenths: nine fit in
// three rows of three, ten where a row of four stands.
fn shelves(alloc: Refusing) -> Result<Made, AllocError> {
    let mut rects = Rects::new(alloc);
    for id in 0..20 {
        let shelf = rectangle_pack::RectToInsert::new(8032, 6032, 1);
        rects.push_rect(id, None, shelf)?;
    }
    let ids = [
        0, 1, 2, 3, 4, 5, 6, 7, 8, 9, 10, 11, 12, 13, 14, 15, 16, 17, 18, 19,
    ];
    Ok(Made {
        rects,
        bins: bins_of(alloc, &[[27832, 20532, 1]; 3])?,
        turns: turns_of(alloc, &ids)?,
        costs: BTreeMap::new(alloc),
    })
}

#[test]
fn shelves_on_two_sheets(rt: HostRuntime) -> Result<(), Fail> {
    let alloc = Refusing::new(rt.alloc(), u64::MAX)?;
    let mut made = shelves(alloc)?;
    let found = search(alloc, &mut made, false, 20_000)?;
    assert!(rt; Some(read(&found)) == all_in!(20, 2, true));
    assert!(rt; found.least == Some(2));
    Ok(())
}

// A search that is stopped at once keeps the best of the heuristics.
#[test]
fn stopped_search_keeps_a_guess(rt: HostRuntime) -> Result<(), Fail> {
    let alloc = Refusing::new(rt.alloc(), u64::MAX)?;
    let Made {
        rects,
        mut bins,
        turns,
        costs,
    } = make(alloc, &WHOLE)?;
    let options = SearchOptions {
        tries: 1000,
        seed: 1,
        may_leave: false,
        turns: &turns,
        costs: &costs,
    };
    let mut asked = 0u64;
    let stop = |_: &Progress| {
        asked = asked.saturating_add(1);
        false
    };
    let found = pack_rects_searched(alloc, &rects, &mut bins, &options, stop)?;
    assert!(rt; found.tries == 0);
    assert!(rt; Some(read(&found)) == all_in!(6, 2, true));
    assert!(rt; asked == 1);
    Ok(())
}
