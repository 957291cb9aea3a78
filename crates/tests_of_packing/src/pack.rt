//! `pack_rects` and `pack_rects_counted`: packings as data, and what comes of them. Other calls that
//! pack are in modules of their own.
ghost use Rattle.rectangle_pack.specs.Closures.{AreCallable};
ghost use Rattle.rectangle_pack.specs.Clones.{ClonesEqual};

/// Bins, each with the free sections that are left afterwards, boxes, pairs of groups that are
/// excluded, and what is placed, in order, or that the packing is refused.
macro_rules! case {
    (bins $($bin:literal: $size:tt => $free:expr),*;
        boxes $($id:literal: $rect:tt $(in $groups:tt)?),*;
        $(apart $($pair:expr),*;)? refused) => {
        $crate::pack::Case {
            bins: &[$(($bin, $size, $free)),*],
            boxes: tests_support::box_list!($($id: $rect $(in $groups)?),*),
            excluded: &[$($($pair),*)?],
            placements: None,
        }
    };
    (bins $($bin:literal: $size:tt => $free:expr),*;
        boxes $($id:literal: $rect:tt $(in $groups:tt)?),*;
        $(apart $($pair:expr),*;)? placed $($placed:expr),*) => {
        $crate::pack::Case {
            placements: Some(&[$($placed),*]),
            ..case!(bins $($bin: $size => $free),*; boxes $($id: $rect $(in $groups)?),*;
                $(apart $($pair),*;)? refused)
        }
    };
}

mod answers;
mod asked;
mod best;
mod clones;
mod closures;
mod exclusions;
mod fitting;
mod fitting_best;
mod fitting_clones;
mod fitting_closures;
mod groups;
mod large;
mod long_lists;
mod many_bins;
pub mod memory;
mod placements;
mod texts;
mod told;
mod units;

use rectangle_pack::{
    FitTests, GroupedRectsToPlace, Placement, RectanglePackError, RectanglePackOk, TargetBin,
    WidthHeightDepth, contains_smallest_box, pack_rects, pack_rects_counted, volume_heuristic,
};
use std::alloc::{AllocError, Allocator, Global};
use std::cmp::Ordering;
use std::collections::BTreeMap;
use std::process::Abort;
use tests_support::all_match;
use tests_support::boxes::{GroupName, SizedBin, SizedBox, collect};
use tests_support::each_request::End;
use tests_support::refusing::Refusing;
use tests_support::shapes::{are_new, has_list, place};

/// Boxes to place, by numbers.
pub type Rects<A> = GroupedRectsToPlace<u32, u32, A>;

/// Bins by numbers.
pub type Bins<A> = BTreeMap<u32, TargetBin<A>, A>;

/// What a packing placed.
pub type Packed<A> = RectanglePackOk<u32, u32, A>;

/// A packing that is done or refused.
pub type Answer<A> = Result<Packed<A>, RectanglePackError>;

/// A placement: box, bin and place.
pub type Placed = (u32, u32, [u32; 6]);

/// A packing, and what comes of it.
#[derive(Clone, Copy)]
pub struct Case {
    /// The bins, with the free sections that are left afterwards.
    pub bins: &'static [SizedBin],
    pub boxes: &'static [SizedBox],
    /// The groups that are excluded.
    pub excluded: &'static [(GroupName, GroupName)],
    /// The placements in order. `None` where the packing is refused.
    pub placements: Option<&'static [Placed]>,
}

/// A group of two, and a larger box alone, which goes first.
pub const TWO_IN_A_GROUP: Case = case!(bins 1: [2048, 2048, 255] => &[[40, 0, 0, 2008, 30, 255],
        [30, 20, 0, 10, 10, 255], [5, 30, 0, 2043, 2018, 255], [0, 80, 0, 5, 1968, 255]],
        2: [4096, 4096, 1020] => &[[0, 0, 0, 4096, 4096, 1020]];
    boxes 1: [10, 20, 255] in [1], 2: [5, 50, 255] in [1], 3: [30, 30, 255];
    placed (3, 1, [0, 0, 0, 30, 30, 255]), (1, 1, [30, 0, 0, 10, 20, 255]),
        (2, 1, [0, 30, 0, 5, 50, 255]));

/// The first box fills the bin, the second is refused, and the first stays.
pub const FULL_BIN: Case = case!(bins 0: [4, 4, 1] => &[]; boxes 1: [4, 4, 1], 2: [2, 2, 1];
    refused);

/// Puts in a new bin of this size.
pub fn add_bin<BinId: Ord + Drop, A: Allocator + Copy>(
    alloc: A,
    bins: &mut BTreeMap<BinId, TargetBin<A>, A>,
    id: BinId,
    size: [u32; 3],
) -> Result<(), AllocError> {
    let [width, height, depth] = size;
    bins.insert(id, TargetBin::new(alloc, width, height, depth)?)?;
    Ok(())
}

/// Puts in these bins, each new.
pub fn add_sized<A: Allocator + Copy>(
    alloc: A,
    rows: &[SizedBin],
    bins: &mut Bins<A>,
) -> Result<(), AllocError> {
    for (id, size, _) in rows {
        add_bin(alloc, bins, *id, *size)?;
    }
    Ok(())
}

/// Puts in the bins of the case, each new.
pub fn add_bins<A: Allocator + Copy>(
    alloc: A,
    case: &Case,
    bins: &mut Bins<A>,
) -> Result<(), AllocError> {
    add_sized(alloc, case.bins, bins)
}

// Whether the bin of this id is there and has this list.
fn has_bin<A: Allocator + Copy>(bins: &Bins<A>, id: u32, list: &[[u32; 6]]) -> bool {
    match bins.get(&id) {
        Some(bin) => has_list(bin, list),
        None => false,
    }
}

/// Whether these are the bins, with these lists.
pub fn have_lists<A: Allocator + Copy>(bins: &Bins<A>, rows: &[SizedBin]) -> bool {
    for (id, _, list) in rows {
        if !has_bin(bins, *id, list) {
            return false;
        }
    }
    bins.len() == rows.len()
}

// Bin and place of the last of these placements of the box.
fn last_of(placed: &[Placed], id: u32) -> Option<(u32, [u32; 6])> {
    let mut last = None;
    for (of, bin, at) in placed {
        if *of == id {
            last = Some((*bin, *at));
        }
    }
    last
}

// Whether the box of the placement is found, and the placement is this one.
fn is_placed<A: Allocator + Copy>(
    packed: &Packed<A>,
    placed: &Placement<u32, u32>,
    wanted: &Placed,
) -> bool {
    packed.packed_locations().contains_key(&placed.id)
        && (placed.id, placed.bin, place(&placed.location)) == *wanted
}

/// Whether the placements are these, in order, and the box of each is found.
pub fn has_placements<A: Allocator + Copy>(packed: &Packed<A>, wanted: &[Placed]) -> bool {
    all_match!(packed.placements().iter(), wanted, placed, row => is_placed(packed, placed, row))
}

/// Whether each box that is found is found at the last of these placements of it.
pub fn finds_last<A: Allocator + Copy>(packed: &Packed<A>, wanted: &[Placed]) -> bool {
    for (id, (bin, location)) in packed.packed_locations() {
        if last_of(wanted, *id) != Some((*bin, place(location))) {
            return false;
        }
    }
    true
}

// Whether the answer is that of the case.
fn is_answer<A: Allocator + Copy>(answer: &Answer<A>, case: &Case) -> bool {
    match (answer, case.placements) {
        (Ok(packed), Some(wanted)) => {
            has_placements(packed, wanted) && finds_last(packed, wanted)
        }
        (Err(_), None) => true,
        _ => false,
    }
}

/// Where a request was refused the bins are as they were new, and else the case came out.
pub fn ends<A: Allocator + Copy>(
    rt: &impl Abort,
    answer: &Answer<A>,
    bins: &Bins<A>,
    case: &Case,
) -> End {
    if let Err(RectanglePackError::OutOfMemory) = answer {
        assert!(rt; are_new(bins));
        return End::Refused;
    }
    assert!(rt; is_answer(answer, case) && have_lists(bins, case.bins));
    End::Done
}

/// Packs the boxes by volumes and smallest boxes.
pub fn pack<Id, GroupId, A>(
    alloc: A,
    rects: &GroupedRectsToPlace<Id, GroupId, A>,
    bins: &mut BTreeMap<Id, TargetBin<A>, A>,
) -> Result<RectanglePackOk<Id, Id, A>, RectanglePackError>
where
    Id: Ord + Clone + Drop,
    GroupId: Ord + Clone + Drop,
    A: Allocator + Copy,
    requires { ClonesEqual Id.is_clone Id.eq }
{
    pack_rects(
        alloc,
        rects,
        bins,
        &volume_heuristic,
        &contains_smallest_box,
    )
}

/// The same, of boxes and groups by numbers.
pub fn pack_numbered<A: Allocator + Copy>(
    alloc: A,
    rects: &Rects<A>,
    bins: &mut Bins<A>,
) -> Answer<A> {
    pack(alloc, rects, bins)
}

/// The same, and adds the fit tests to a counter.
pub fn pack_counted<A: Allocator + Copy>(
    alloc: A,
    rects: &Rects<A>,
    bins: &mut Bins<A>,
    tests: &mut FitTests,
) -> Answer<A> {
    pack_rects_counted(
        alloc,
        rects,
        bins,
        &volume_heuristic,
        &contains_smallest_box,
        tests,
    )
}

// Packs these boxes, which are those of the case, by closures that are handed on.
fn packs_rects<H, C>(
    rt: &impl Abort,
    alloc: Refusing,
    rects: &Rects<Refusing>,
    case: &Case,
    bins: &mut Bins<Refusing>,
    heuristic: &H,
    comparison: &C,
) -> End
where
    H: Fn(WidthHeightDepth) -> u128,
    C: Fn([WidthHeightDepth; 3], [WidthHeightDepth; 3], &H) -> Ordering,
    requires { AreCallable H.Fn C.Fn heuristic.now comparison.now }
{
    let answer = pack_rects(alloc, rects, bins, heuristic, comparison);
    ends(rt, &answer, bins, case)
}

/// Packs the boxes of the case into these bins, by closures that are handed on.
pub fn packs_into<H, C>(
    rt: &impl Abort,
    alloc: Refusing,
    case: &Case,
    bins: &mut Bins<Refusing>,
    heuristic: &H,
    comparison: &C,
) -> End
where
    H: Fn(WidthHeightDepth) -> u128,
    C: Fn([WidthHeightDepth; 3], [WidthHeightDepth; 3], &H) -> Ordering,
    requires { AreCallable H.Fn C.Fn heuristic.now comparison.now }
{
    match collect(alloc, case.boxes, case.excluded) {
        Ok(rects) => packs_rects(rt, alloc, &rects, case, bins, heuristic, comparison),
        Err(_) => End::Before,
    }
}

/// The same, into the bins of the case.
pub fn packs<H, C>(
    rt: &impl Abort,
    alloc: Refusing,
    case: &Case,
    heuristic: &H,
    comparison: &C,
) -> End
where
    H: Fn(WidthHeightDepth) -> u128,
    C: Fn([WidthHeightDepth; 3], [WidthHeightDepth; 3], &H) -> Ordering,
    requires { AreCallable H.Fn C.Fn heuristic.now comparison.now }
{
    let mut bins = BTreeMap::new(alloc);
    if add_bins(alloc, case, &mut bins).is_err() {
        return End::Before;
    }
    packs_into(rt, alloc, case, &mut bins, heuristic, comparison)
}

/// The same, by volumes and smallest boxes.
pub fn packs_by_volume(rt: &impl Abort, alloc: Refusing, case: &Case) -> End {
    packs(rt, alloc, case, &volume_heuristic, &contains_smallest_box)
}

/// An allocator that refuses nothing, and counts.
pub fn plenty(rt: &impl Abort, alloc: Global) -> Refusing {
    Refusing::new(alloc, u64::MAX).expect(rt, "no memory for the counts")
}

/// Each case comes out, by volume.
pub fn pack_by_volume(rt: &impl Abort, alloc: Global, cases: &[Case]) {
    let refusing = plenty(rt, alloc);
    for case in cases {
        let end = packs_by_volume(rt, refusing, case);
        assert!(rt; end == End::Done, "{:?}", case.boxes);
    }
}
