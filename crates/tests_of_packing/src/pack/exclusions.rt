//! Groups that are excluded, and the fit tests of whole packings.

use super::placements::{FULL_AND_EMPTY, THREE_BOXES};
use super::{Bins, Case, add_bins, ends, pack_by_volume, pack_counted, packs_by_volume, plenty};
use rectangle_pack::{FitTests, Group};
use std::process::Abort;
use tests_support::boxes::{GroupName, collect};
use tests_support::each_request::End;
use tests_support::refusing::Refusing;

const BIN: [u32; 3] = [10, 10, 1];

const BOX: [u32; 3] = [4, 4, 1];

const FIRST: [u32; 6] = [0, 0, 0, 4, 4, 1];

const SECOND: [u32; 6] = [4, 0, 0, 4, 4, 1];

const WHOLE: &[[u32; 6]] = &[[0, 0, 0, 10, 10, 1]];

const AFTER_ONE: &[[u32; 6]] = &[[0, 4, 0, 10, 6, 1], [4, 0, 0, 6, 4, 1]];

const AFTER_TWO: &[[u32; 6]] = &[[0, 4, 0, 10, 6, 1], [8, 0, 0, 2, 4, 1]];

const A: GroupName = Group::Grouped(1);

const B: GroupName = Group::Grouped(2);

const C: GroupName = Group::Grouped(3);

// The box of this id alone, which is no group of this name.
const ALONE: GroupName = Group::Ungrouped(1);

/// Two groups of one box each, and two bins; the groups are excluded.
pub const TWO_BINS: Case = case!(bins 1: BIN => AFTER_ONE, 2: BIN => AFTER_ONE;
    boxes 1: BOX in [1], 2: BOX in [2]; apart (A, B); placed (1, 1, FIRST), (2, 2, FIRST));

/// The same groups and one bin.
pub const ONE_BIN: Case = case!(bins 1: BIN => AFTER_ONE; boxes 1: BOX in [1], 2: BOX in [2];
    apart (A, B); refused);

// Without the pair both groups go into one bin.
const NOT_EXCLUDED: &[Case] = &[case!(bins 1: BIN => AFTER_TWO, 2: BIN => WHOLE;
    boxes 1: BOX in [1], 2: BOX in [2]; placed (1, 1, FIRST), (2, 1, SECOND))];

const NOTHING: Case = case!(bins 1: BIN => WHOLE; boxes; apart (A, B); placed);

// The third group goes where the first did, with which it is not excluded.
const CHAIN: Case = case!(bins 1: BIN => AFTER_TWO, 2: BIN => AFTER_ONE;
    boxes 1: BOX in [1], 2: BOX in [2], 3: BOX in [3]; apart (A, B), (B, C);
    placed (1, 1, FIRST), (2, 2, FIRST), (3, 1, SECOND));

const IN_BOTH: Case = case!(bins 1: BIN => AFTER_ONE, 2: BIN => AFTER_ONE; boxes 1: BOX in [1, 2];
    apart (A, B); placed (1, 1, FIRST), (1, 2, FIRST));

const ALONE_AND_GROUP: Case = case!(bins 1: BIN => AFTER_ONE; boxes 1: BOX, 2: BOX in [1];
    apart (ALONE, A); refused);

// No box is in the group 9.
const ONE_GROUP: Case = case!(bins 1: BIN => AFTER_ONE; boxes 1: BOX in [1];
    apart (A, Group::Grouped(9)); placed (1, 1, FIRST));

// The count after each packing, from none before the first.
fn counted() -> &'static [(Case, u128)] {
    const COUNTED: &[(Case, u128)] = &[
        (THREE_BOXES, 4),
        (FULL_AND_EMPTY, 4 + 2),
        (TWO_BINS, 6 + 2),
        (ONE_BIN, 8 + 1),
        (NOTHING, 9),
        (CHAIN, 9 + 3),
        (IN_BOTH, 12 + 2),
        (ALONE_AND_GROUP, 14 + 1),
        (ONE_GROUP, 15 + 1),
    ];
    COUNTED
}

// Packs the case into these bins.
fn counts_into(
    rt: &impl Abort,
    alloc: Refusing,
    case: &Case,
    bins: &mut Bins<Refusing>,
    tests: &mut FitTests,
) -> End {
    let Ok(rects) = collect(alloc, case.boxes, case.excluded) else {
        return End::Before;
    };
    let answer = pack_counted(alloc, &rects, bins, tests);
    ends(rt, &answer, bins, case)
}

/// Packs the case by volume, and adds its fit tests to a counter.
pub fn counts(rt: &impl Abort, alloc: Refusing, case: &Case, tests: &mut FitTests) -> End {
    let mut bins = Bins::new(alloc);
    if add_bins(alloc, case, &mut bins).is_err() {
        return End::Before;
    }
    counts_into(rt, alloc, case, &mut bins, tests)
}

// The packing of the case is done, and leaves the counter at this count.
fn counts_up_to(rt: &impl Abort, alloc: Refusing, case: &Case, count: u128, tests: &mut FitTests) {
    let end = counts(rt, alloc, case, tests);
    assert!(rt; end == End::Done && tests.count() == count, "{count}");
}

// Each packing adds its tests to those of the ones before; without groups none is added.
#[test]
fn counted_packings(rt: HostRuntime) {
    let refusing = plenty(&rt, rt.alloc());
    let mut tests = FitTests::new();
    for (case, count) in counted() {
        counts_up_to(&rt, refusing, case, *count, &mut tests);
    }
}

// The same packings, without a counter.
#[test]
fn packings(rt: HostRuntime) {
    let refusing = plenty(&rt, rt.alloc());
    for (case, _) in counted() {
        assert!(rt; packs_by_volume(&rt, refusing, case) == End::Done);
    }
}

#[test]
fn groups_that_are_not_excluded(rt: HostRuntime) {
    pack_by_volume(&rt, rt.alloc(), NOT_EXCLUDED);
}
