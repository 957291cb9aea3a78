//! Packings whose memory is refused, and packings of nothing, which take none.

use super::closures::{EQUAL_KEYS, packs_between};
use super::exclusions::{ONE_BIN, TWO_BINS, counts};
use super::{
    Answer, Bins, Case, FULL_BIN, Rects, TWO_IN_A_GROUP, add_bin, best, fitting, fitting_best,
    long_lists, many_bins, pack_counted, pack_numbered, told,
};
use rectangle_pack::FitTests;
use std::alloc::{Allocator, Global};
use std::process::Abort;
use tests_support::best_cases;
use tests_support::each_request::End;
use tests_support::fit_cases::{BestFit, FitCase};
use tests_support::refusing::Refusing;
use tests_support::told_cases::ToldCase;

/// What is run with each request for memory refused in turn. Whichever is refused, bins stay as they
/// were; at the end the case comes out.
#[derive(Clone, Copy)]
pub enum Run {
    /// A packing where a size is rated at its volume, but at least and at most so much.
    Between(&'static Case, u128, u128),
    /// A packing with its fit tests, and the most that a refused one may add: n entries in the
    /// groups make n tests for each free section and n * (n - 1) for each bin.
    Counted(&'static Case, u128, u128),
    /// Packings of nothing into a bin.
    Nothing,
    SixteenBins,
    /// A packing into a long list, with a box that is too tall or without.
    LongList(bool),
    /// The best of several packings.
    Best(&'static best_cases::Case),
    /// What fits.
    Fitting(&'static FitCase),
    /// What fits by the best of several heuristics.
    FittingBest(&'static BestFit),
    /// A packing as it is told.
    Told(&'static ToldCase),
}

fn end(rt: &impl Abort, alloc: Refusing, run: Run) -> End {
    match run {
        Run::Between(case, least, most) => packs_between(rt, alloc, case, least, most),
        Run::Counted(case, count, bound) => counts_or_stays(rt, alloc, case, count, bound),
        Run::Nothing => packs_into_new(rt, alloc),
        Run::SixteenBins => many_bins::packs_few(rt, alloc),
        Run::LongList(too_tall) => long_lists::packs(rt, alloc, too_tall),
        Run::Best(case) => best::packs(rt, alloc, case),
        Run::Fitting(case) => fitting::packs(rt, alloc, case),
        Run::FittingBest(case) => fitting_best::packs(rt, alloc, case),
        Run::Told(case) => told::packs(rt, alloc, case),
    }
}

// The end of a run for which `granted` requests are granted. It gives back all that it takes, and
// is done where no request was refused but to make a block smaller, and only there.
fn end_of(rt: &impl Abort, alloc: Global, granted: u64, run: Run) -> End {
    let refusing = Refusing::new(alloc, granted).expect(rt, "no memory for the counts");
    let end = end(rt, refusing, run);
    assert!(rt; refusing.taken() == 0);
    assert!(rt; (refusing.refused() == refusing.not_shrunk()) == (end == End::Done));
    end
}

/// Whether some request is refused in the packing itself, where each is refused in turn, until none
/// is.
pub fn takes_memory(rt: &impl Abort, alloc: Global, run: Run) -> bool {
    let mut refused = false;
    for granted in 0..1000u64 {
        match end_of(rt, alloc, granted, run) {
            End::Before => {}
            End::Refused => refused = true,
            End::Done => return refused,
        }
    }
    assert!(rt; false, "requests were refused to the end");
    refused
}

fn runs() -> &'static [Run] {
    const RUNS: &[Run] = &[
        Run::Between(&TWO_IN_A_GROUP, 0, u128::MAX),
        Run::Between(&EQUAL_KEYS, u128::MAX, u128::MAX),
        Run::Between(&FULL_BIN, 0, u128::MAX),
        Run::Counted(&TWO_BINS, 2, 8),
        Run::Counted(&ONE_BIN, 1, 4),
        Run::SixteenBins,
        Run::LongList(false),
        Run::LongList(true),
    ];
    RUNS
}

#[test]
fn packings(rt: HostRuntime) {
    for run in runs() {
        assert!(rt; takes_memory(&rt, rt.alloc(), *run));
    }
}

// Whether the counter grew by no more than the bound where a request was refused, and else by the
// count.
fn is_counted(end: End, grown: u128, count: u128, bound: u128) -> bool {
    match end {
        End::Before => grown == 0,
        End::Refused => grown <= bound,
        End::Done => grown == count,
    }
}

fn counts_or_stays(
    rt: &impl Abort,
    refusing: Refusing,
    case: &Case,
    count: u128,
    bound: u128,
) -> End {
    let mut tests = FitTests::new();
    let end = counts(rt, refusing, case, &mut tests);
    assert!(rt; is_counted(end, tests.count(), count, bound), "{count}");
    end
}

// Whether a packing of nothing is done.
fn is_empty<A: Allocator + Copy>(answer: &Answer<A>) -> bool {
    match answer {
        Ok(packed) => packed.placements().is_empty() && packed.packed_locations().is_empty(),
        Err(_) => false,
    }
}

// Whether one into these bins is.
fn packs_nothing<A: Allocator + Copy>(alloc: A, bins: &mut Bins<A>) -> bool {
    let rects = Rects::new(alloc);
    is_empty(&pack_numbered(alloc, &rects, bins))
}

// The same with a counter, which stays at 0.
fn counts_nothing<A: Allocator + Copy>(alloc: A, bins: &mut Bins<A>) -> bool {
    let rects = Rects::new(alloc);
    let mut tests = FitTests::new();
    is_empty(&pack_counted(alloc, &rects, bins, &mut tests)) && tests.count() == 0
}

// Nothing is asked for without groups and without steps.
fn fits_nothing<A: Allocator + Copy>(alloc: A, bins: &mut Bins<A>) -> bool {
    let rects = Rects::new(alloc);
    fitting::fits_nothing(alloc, &rects, bins) && told::places_nothing(alloc, &rects, bins)
}

// Adds a bin and packs into it. The bin is made before, and all that was granted is used up.
fn packs_into_a_bin(rt: &impl Abort, alloc: Refusing, bins: &mut Bins<Refusing>) -> End {
    if add_bin(alloc, bins, 7, [4, 4, 1]).is_err() {
        return End::Before;
    }
    assert!(rt; alloc.left() == 0);
    assert!(rt; packs_nothing(alloc, bins) && counts_nothing(alloc, bins));
    assert!(rt; fits_nothing(alloc, bins));
    End::Done
}

fn packs_into_new(rt: &impl Abort, alloc: Refusing) -> End {
    let mut bins = Bins::new(alloc);
    packs_into_a_bin(rt, alloc, &mut bins)
}

// Packs into no bins, without memory.
fn packs_into_none(rt: &impl Abort, alloc: Global) -> bool {
    let refusing = Refusing::new(alloc, 0).expect(rt, "no memory for the counts");
    let mut bins = Bins::new(refusing);
    packs_nothing(refusing, &mut bins)
        && counts_nothing(refusing, &mut bins)
        && fits_nothing(refusing, &mut bins)
}

#[test]
fn packings_of_nothing(rt: HostRuntime) {
    assert!(rt; packs_into_none(&rt, rt.alloc()));
    assert!(rt; !takes_memory(&rt, rt.alloc(), Run::Nothing));
}
