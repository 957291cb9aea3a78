//! Packings of what fits, and as they are told, where ids refuse to be cloned: each clone in turn
//! until none is refused.

use super::{TWO_IN_A_GROUP, add_bin, plenty};
use rectangle_pack::{
    Fitted, Group, Heuristic, RectanglePackOk, Step, ToldError, contains_smallest_box,
    pack_rects_fitting, pack_rects_fitting_best, pack_rects_told, volume_heuristic,
};
use std::alloc::{AllocError, Global};
use std::process::Abort;
use tests_support::boxes::SizedBox;
use tests_support::names::{Bins, Clones, Name, Rects, have_lists, push_all};
use tests_support::refusing::Refusing;
use tests_support::shapes::{are_new, place};
use tests_support::{all_match, box_list};

type Packed = RectanglePackOk<Name, Name, Refusing>;

type Left<'a> = Fitted<'a, Packed, Group<u32, Name>, Refusing>;

// Which call is made.
#[derive(Clone, Copy)]
enum Call {
    Fitting,
    FittingBest,
    Told,
}

// The boxes of the case, and one that is wider than each bin.
const BOXES: &[SizedBox] =
    box_list!(1: [10, 20, 255] in [1], 2: [5, 50, 255] in [1], 3: [30, 30, 255], 4: [5000, 1, 1]);

const WIDE: u32 = 4;

// Adds the bins of the case.
fn add_bins(bins: &mut Bins, alloc: Refusing, clones: Clones) -> Result<(), AllocError> {
    for row in TWO_IN_A_GROUP.bins {
        let (number, size, _) = *row;
        add_bin(alloc, bins, Name { number, clones }, size)?;
    }
    Ok(())
}

// Whether the case came out.
fn has_come_out(packed: &Packed, bins: &Bins) -> bool {
    let wanted = TWO_IN_A_GROUP.placements.unwrap_or(&[]);
    have_lists(bins, TWO_IN_A_GROUP.bins)
        && packed.packed_locations().len() == 3
        && all_match!(packed.placements().iter(), wanted, placed, row =>
            (placed.id.number, placed.bin.number, place(&placed.location)) == *row)
}

fn is_wide(group: &Group<u32, Name>) -> bool {
    match group {
        Group::Ungrouped(name) => name.number == WIDE,
        Group::Grouped(_) => false,
    }
}

// Whether the wide box alone is left.
fn is_left(fitted: &Left) -> bool {
    fitted.left.len() == 1 && fitted.left.iter().all(|group| is_wide(*group))
}

// Whether no clone was refused. Then the case came out; else the bins are as they were.
fn fits(rt: &impl Abort, answer: Result<Left, AllocError>, bins: &Bins) -> bool {
    match answer {
        Ok(fitted) => {
            assert!(rt; is_left(&fitted) && has_come_out(&fitted.packed, bins));
            true
        }
        Err(_) => {
            assert!(rt; are_new(bins));
            false
        }
    }
}

// The same of a packing as it is told.
fn is_told(rt: &impl Abort, answer: Result<Packed, ToldError>, bins: &Bins) -> bool {
    match answer {
        Ok(packed) => {
            assert!(rt; has_come_out(&packed, bins));
            true
        }
        Err(error) => {
            assert!(rt; error == ToldError::OutOfMemory && are_new(bins));
            false
        }
    }
}

fn step(clones: Clones, group: Group<u32, Name>) -> Step<Name, u32, Name> {
    Step {
        group,
        bin: Name { number: 1, clones },
        heuristic: Heuristic::Volume,
    }
}

// Makes the call. Whether no clone was refused.
fn packs(
    rt: &impl Abort,
    alloc: Refusing,
    clones: Clones,
    rects: &Rects,
    bins: &mut Bins,
    call: Call,
) -> bool {
    match call {
        Call::Fitting => {
            let answer = pack_rects_fitting(
                alloc,
                rects,
                bins,
                &volume_heuristic,
                &contains_smallest_box,
            );
            fits(rt, answer, bins)
        }
        Call::FittingBest => {
            let heuristics = [Heuristic::Volume, Heuristic::Volume];
            let answer = pack_rects_fitting_best(alloc, rects, bins, &heuristics);
            match answer {
                Ok((_, fitted)) => fits(rt, Ok(fitted), bins),
                Err(error) => fits(rt, Err(error), bins),
            }
        }
        Call::Told => {
            let square = Group::Ungrouped(Name { number: 3, clones });
            let steps = [step(clones, square), step(clones, Group::Grouped(1))];
            is_told(rt, pack_rects_told(alloc, rects, bins, &steps), bins)
        }
    }
}

// Whether `count` clones were enough for the call.
fn is_packed(rt: &impl Abort, alloc: Refusing, clones: Clones, count: u64, call: Call) -> bool {
    let mut bins = Bins::new(alloc);
    let mut rects = Rects::new(alloc);
    clones.set(u64::MAX);
    assert!(rt; add_bins(&mut bins, alloc, clones).is_ok());
    assert!(rt; push_all(&mut rects, alloc, clones, BOXES).is_ok());
    clones.set(count);
    packs(rt, alloc, clones, &rects, &mut bins, call)
}

// How many clones are enough for the call. All memory is given back.
fn enough(rt: &impl Abort, alloc: Global, call: Call) -> Result<u64, AllocError> {
    let clones = Clones::new(alloc, 0)?;
    let refusing = plenty(rt, alloc);
    for count in 0..100u64 {
        let is_done = is_packed(rt, refusing, clones, count, call);
        assert!(rt; refusing.taken() == 0);
        if is_done {
            return Ok(count);
        }
    }
    Ok(0)
}

// Both lists of an answer own three ids of boxes and three of bins.
#[test]
fn clones_that_are_refused(rt: HostRuntime) {
    for call in [Call::Fitting, Call::FittingBest, Call::Told] {
        assert!(rt; matches!(enough(&rt, rt.alloc(), call), Ok(count) if count >= 12));
    }
}
