//! The best of several packings: by which of some heuristics it uses the bins best.
ghost use Rattle.std.specs.Prelude.{◌≡◌, ◌<◌, ◌∷◌, [], length, All, IfOk, IsOk, MatchOption, filter, map, nat_lt};
ghost use Rattle.std.specs.Map.{keys_of};
ghost use Rattle.rectangle_pack_sections.specs.Clones.{ClonesEqual};
ghost use Rattle.rectangle_pack_packing.specs.Best.{IsBestAnswer, IsBestOf, PacksWith, IsRefusedWith, use_of};
ghost use Rattle.rectangle_pack_packing.specs.private.Cells.{cells_in};
ghost use Rattle.rectangle_pack_sections.specs.Bins.{bins_of};

use crate::answer::{Placement, RectanglePackError, RectanglePackOk};
use crate::pack::attempt::try_packing;
use crate::pack::pack_by;
use crate::uses::{Use, better_of, count_cells};
use rectangle_pack_bins::target_bin::TargetBin;
use rectangle_pack_groups::grouped_rects_to_place::GroupedRectsToPlace;
use rectangle_pack_groups::grouped_rects_to_place::multimap::number_after;
use rectangle_pack_lists::free_list::End;
use rectangle_pack_lists::trial::FitTests;
use rectangle_pack_sections::box_size_heuristics::Heuristic;
use rectangle_pack_sections::closures::Named;
use rectangle_pack_sections::group::Group;
use std::alloc::{AllocError, Allocator};
use std::collections::BTreeMap;

// The counts of the bins that get cells, in the order of ids. Fails only when memory is refused.
fn counts_by_id<'a, B: Ord, A: Allocator + Copy>(
    alloc: A,
    bins: &'a BTreeMap<B, TargetBin<A>, A>,
    cells: &BTreeMap<&'a B, u128, A>,
) -> Result<Vec<u128, A>, AllocError>
    ensures { IfOk result
        (λ v.
        v.items ≡
        filter (nat_lt 0) (map (cells_in B.cmp cells.now.entries) (keys_of bins.now.entries))) }
{
    let mut counts = Vec::new(alloc);
    for (id, _) in bins {
        let count = cells.get(&id).copied().unwrap_or(0);
        if count > 0 {
            counts.push(count)?;
        }
    }
    Ok(counts)
}

/// What use these placements make of the bins. Fails only when memory is refused.
pub fn use_made<'a, Id, B: Ord, A: Allocator + Copy>(
    alloc: A,
    bins: &'a BTreeMap<B, TargetBin<A>, A>,
    placements: &'a [Placement<Id, B>],
) -> Result<Use, AllocError>
    ensures { IfOk result
        (λ made. made ≡ use_of B.cmp placements.now (bins_of bins.now.entries)) }
{
    let cells = count_cells(alloc, placements)?;
    let counts = counts_by_id(alloc, bins, &cells)?;
    Ok(Use::by(counts.as_slice()))
}

// What use a packing with this heuristic makes of the bins, or `None` where it is refused for space.
// Fails only when memory is refused. The bins stay as they are.
fn try_with<Id, BinId, GroupId, A>(
    alloc: A,
    rects_to_place: &GroupedRectsToPlace<Id, GroupId, A>,
    target_bins: &mut BTreeMap<BinId, TargetBin<A>, A>,
    entries: usize,
    heuristic: Heuristic,
) -> Result<Option<Use>, AllocError>
where
    Id: Ord + Clone + Drop,
    BinId: Ord + Clone + Drop,
    GroupId: Ord + Clone + Drop,
    A: Allocator + Copy,
    requires ids { ClonesEqual Id.is_clone Id.eq }
    requires bin_ids { ClonesEqual BinId.is_clone BinId.eq }
    ensures tried { IfOk result
        (λ found.
        let order = ⟦<Group<GroupId, Id> as Ord>⟧.cmp in
        let old = bins_of target_bins.old.entries in
        MatchOption found
        (IsRefusedWith order Id.cmp BinId.cmp rects_to_place.now old heuristic)
        (PacksWith order Id.cmp BinId.cmp rects_to_place.now old heuristic)) }
    ensures same { bins_of target_bins.new.entries ≡ bins_of target_bins.old.entries }
{
    match try_packing(
        alloc,
        rects_to_place,
        target_bins,
        entries,
        &Named(heuristic),
        false,
    )? {
        Some(placements) => Ok(Some(use_made(alloc, target_bins, placements.as_slice())?)),
        None => Ok(None),
    }
}

/// The heuristic of the list with which a packing of these groups makes the best use of the bins,
/// the first of those with which it is as good, and this use; `None` where with each the packing is
/// refused for space. The bins stay as they are. Room is made for `entries` entries.
pub fn best_of<Id, BinId, GroupId, A>(
    alloc: A,
    rects_to_place: &GroupedRectsToPlace<Id, GroupId, A>,
    target_bins: &mut BTreeMap<BinId, TargetBin<A>, A>,
    entries: usize,
    heuristics: &[Heuristic],
) -> Result<Option<(Heuristic, Use)>, AllocError>
where
    Id: Ord + Clone + Drop,
    BinId: Ord + Clone + Drop,
    GroupId: Ord + Clone + Drop,
    A: Allocator + Copy,
    requires ids { ClonesEqual Id.is_clone Id.eq }
    requires bin_ids { ClonesEqual BinId.is_clone BinId.eq }
    ensures best { IfOk result
        (λ found.
        let order = ⟦<Group<GroupId, Id> as Ord>⟧.cmp in
        let all = rects_to_place.now in
        let old = bins_of target_bins.old.entries in
        MatchOption found
        (All (IsRefusedWith order Id.cmp BinId.cmp all old) heuristics.now)
        (λ best. IsBestOf order Id.cmp BinId.cmp all old heuristics.now best.0 best.1)) }
    ensures same { bins_of target_bins.new.entries ≡ bins_of target_bins.old.entries }
{
    let mut best = None;
    for heuristic in heuristics {
        let made = try_with(alloc, rects_to_place, target_bins, entries, *heuristic)?;
        if let Some(made) = made {
            best = Some(better_of(best, (*heuristic, made)));
        }
    }
    Ok(best)
}

/// Packs all groups into the bins with each heuristic of a list in turn, and keeps the packing that
/// uses the fewest bins: those in which it places cells. At a tie it keeps the one that places the
/// fewest cells in the last of these bins, in the order of ids, and then the one whose heuristic
/// comes first in the list. Answers this heuristic and what the packing placed: what `pack_rects`
/// would place with it and `contains_smallest_box`.
///
/// Each packing is rolled back before the next begins, and the best is made once more, but where
/// the list has one heuristic alone. Cells are counted after each.
///
/// The caller sees to it that the list is not empty, and that clones of ids equal their originals.
///
/// `NotEnoughBinSpace` says that the packing is refused for space with each heuristic of the list.
/// `OutOfMemory` may come though a packing with another heuristic was done. On either error the bins
/// are as they were: other than with `pack_rects`, no group stays placed.
///
/// ```
/// let mut rects: GroupedRectsToPlace<u32, u32> = GroupedRectsToPlace::new(alloc);
/// for (id, width, height) in [(1, 6, 2), (2, 3, 3), (3, 2, 5), (4, 1, 5)] {
///     rects.push_rect(id, None, RectToInsert::new(width, height, 1))?;
/// }
/// ```
///
/// The bin is six cells wide and seven high:
///
/// ```
/// let mut bins = BTreeMap::new(alloc);
/// bins.insert(0u32, TargetBin::new(alloc, 6, 7, 1)?)?;
/// let (best, packed) = pack_rects_best(alloc, &rects, &mut bins, &Heuristic::ALL)?;
/// ```
///
/// By volume there would be no space for all four. By width there is:
///
/// ```
/// assert_eq!(rt; (best, packed.placements().len()), (Heuristic::Width, 4));
/// ```
pub fn pack_rects_best<Id, BinId, GroupId, A>(
    alloc: A,
    rects_to_place: &GroupedRectsToPlace<Id, GroupId, A>,
    target_bins: &mut BTreeMap<BinId, TargetBin<A>, A>,
    heuristics: &[Heuristic],
) -> Result<(Heuristic, RectanglePackOk<Id, BinId, A>), RectanglePackError>
where
    Id: Ord + Clone + Drop,
    BinId: Ord + Clone + Drop,
    GroupId: Ord + Clone + Drop,
    A: Allocator + Copy,
    requires ids { ClonesEqual Id.is_clone Id.eq }
    requires bin_ids { ClonesEqual BinId.is_clone BinId.eq }
    // There is a heuristic in the list.
    requires some { 0 < length heuristics.now }
    // Done: the answer names a heuristic of the list, and all that `pack_rects` says of a packing
    //   that is done is so of one with this heuristic and `contains_smallest_box`.
    // Done: no packing that is done with a heuristic of the list places cells in fewer bins; of
    //   those that place cells in as many, none places fewer cells in the last of these bins, in
    //   the order of ids; and each with a heuristic that stands before the one of the answer is
    //   worse. Cells in one bin are counted up to the greatest `u128`.
    //   [best_of.first_that_is_done_is_kept]
    // `NotEnoughBinSpace`: with each heuristic of the list the packing is refused for space. The
    //   bins are as they were, the order of their lists included.
    //   [pack_rects_best.last_heuristic_is_left_out]
    // `OutOfMemory`: the bins are as they were, the order of their lists included.
    ensures answer { let groups = ⟦<Group<GroupId, Id> as Ord>⟧.cmp in
        IsBestAnswer groups Id.cmp BinId.cmp rects_to_place.now
        (bins_of target_bins.old.entries) heuristics.now result
        (bins_of target_bins.new.entries) }
    // Without groups it succeeds.
    ensures no_groups { rects_to_place.now.groups ≡ [] → IsOk result }
{
    if heuristics.len() == 1 || rects_to_place.groups().is_empty() {
        return pack_named(alloc, rects_to_place, target_bins, heuristics[0]);
    }
    let entries = number_after(0, rects_to_place.groups()).unwrap_or(u64::MAX) as usize;
    match best_of(alloc, rects_to_place, target_bins, entries, heuristics) {
        Ok(Some((best, _))) => pack_named(alloc, rects_to_place, target_bins, best),
        Ok(None) => Err(RectanglePackError::NotEnoughBinSpace),
        Err(_) => Err(RectanglePackError::OutOfMemory),
    }
}

// Packs all groups into the bins with this heuristic. Errors are those of `pack_rects_best`: on
// either the bins are as they were.
fn pack_named<Id, BinId, GroupId, A>(
    alloc: A,
    rects_to_place: &GroupedRectsToPlace<Id, GroupId, A>,
    target_bins: &mut BTreeMap<BinId, TargetBin<A>, A>,
    heuristic: Heuristic,
) -> Result<(Heuristic, RectanglePackOk<Id, BinId, A>), RectanglePackError>
where
    Id: Ord + Clone + Drop,
    BinId: Ord + Clone + Drop,
    GroupId: Ord + Clone + Drop,
    A: Allocator + Copy,
    requires ids { ClonesEqual Id.is_clone Id.eq }
    requires bin_ids { ClonesEqual BinId.is_clone BinId.eq }
    ensures answer { IsBestAnswer ⟦<Group<GroupId, Id> as Ord>⟧.cmp Id.cmp BinId.cmp
        rects_to_place.now (bins_of target_bins.old.entries) (heuristic ∷ []) result
        (bins_of target_bins.new.entries) }
    ensures no_groups { rects_to_place.now.groups ≡ [] → IsOk result }
{
    let policy = Named(heuristic);
    let packed = pack_by(
        alloc,
        rects_to_place,
        target_bins,
        &policy,
        End::Undo,
        &mut FitTests::new(),
    )?;
    Ok((heuristic, packed))
}
