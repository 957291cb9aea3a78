//! Packings whose ids refuse to be cloned, each clone in turn until none is refused.

use super::{Placed, TWO_IN_A_GROUP, add_bin, pack, plenty};
use rectangle_pack::{Placement, RectanglePackError, RectanglePackOk};
use std::alloc::{AllocError, Global};
use std::process::Abort;
use tests_support::all_match;
use tests_support::names::{Bins, Clones, Name, Rects, have_lists, push_all};
use tests_support::refusing::Refusing;
use tests_support::shapes::{are_new, place};

// What a packing placed.
type Packed = RectanglePackOk<Name, Name, Refusing>;

// Adds the bins of the case.
fn add_bins(bins: &mut Bins, alloc: Refusing, clones: Clones) -> Result<(), AllocError> {
    for row in TWO_IN_A_GROUP.bins {
        let (number, size, _) = *row;
        add_bin(alloc, bins, Name { number, clones }, size)?;
    }
    Ok(())
}

// Whether the placement is this one.
fn is_placed(placement: &Placement<Name, Name>, wanted: &Placed) -> bool {
    let Placement { id, bin, location } = placement;
    (id.number, bin.number, place(location)) == *wanted
}

// Whether these are the placements.
fn are_placed(placements: &[Placement<Name, Name>], all: &[Placed]) -> bool {
    all_match!(placements.iter(), all, placement, wanted => is_placed(placement, wanted))
}

// Whether the case came out.
fn has_come_out(packed: &Packed, bins: &Bins) -> bool {
    let wanted = TWO_IN_A_GROUP.placements.unwrap_or(&[]);
    are_placed(packed.placements(), wanted)
        && packed.packed_locations().len() == 3
        && have_lists(bins, TWO_IN_A_GROUP.bins)
}

// Whether the bins may be so after this answer. If a clone was refused, they are as they were.
fn is_right(answer: &Result<Packed, RectanglePackError>, bins: &Bins) -> bool {
    match answer {
        Ok(packed) => has_come_out(packed, bins),
        Err(error) => *error == RectanglePackError::OutOfMemory && are_new(bins),
    }
}

// Whether no clone was refused.
fn packs(rt: &impl Abort, alloc: Refusing, rects: &Rects, bins: &mut Bins) -> bool {
    let answer = pack(alloc, rects, bins);
    assert!(rt; is_right(&answer, bins));
    answer.is_ok()
}

// Packs the case into these bins. Whether `count` clones were enough.
fn packs_with(
    rt: &impl Abort,
    alloc: Refusing,
    clones: Clones,
    count: u64,
    bins: &mut Bins,
) -> bool {
    let mut rects = Rects::new(alloc);
    let is_pushed = push_all(&mut rects, alloc, clones, TWO_IN_A_GROUP.boxes).is_ok();
    clones.set(count);
    is_pushed && packs(rt, alloc, &rects, bins)
}

// Whether `count` clones were enough for a packing.
fn is_packed(rt: &impl Abort, alloc: Refusing, clones: Clones, count: u64) -> bool {
    let mut bins = Bins::new(alloc);
    clones.set(u64::MAX);
    add_bins(&mut bins, alloc, clones).is_ok() && packs_with(rt, alloc, clones, count, &mut bins)
}

// How many clones are enough for a packing. All memory is given back.
fn enough(rt: &impl Abort, alloc: Global) -> Result<u64, AllocError> {
    let clones = Clones::new(alloc, 0)?;
    let refusing = plenty(rt, alloc);
    for count in 0..100u64 {
        let is_done = is_packed(rt, refusing, clones, count);
        assert!(rt; refusing.taken() == 0);
        if is_done {
            return Ok(count);
        }
    }
    Ok(0)
}

// Both lists of the answer own three ids of boxes and three of bins.
#[test]
fn packings(rt: HostRuntime) {
    assert!(rt; matches!(enough(&rt, rt.alloc()), Ok(count) if count >= 12));
}
