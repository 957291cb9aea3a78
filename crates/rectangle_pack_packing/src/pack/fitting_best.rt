//! What fits by the best of several heuristics.
ghost use Rattle.std.specs.Prelude.{◌≡◌, ◌<◌, ◌⊎◌, [], length, map, IfOk, IfSome, IsOk, MatchOption, Some};
ghost use Rattle.std.specs.List.{sum_by};
ghost use Rattle.rectangle_pack_sections.specs.Bins.{bins_of};
ghost use Rattle.rectangle_pack_sections.specs.Clones.{ClonesEqual};
ghost use Rattle.rectangle_pack_lists.specs.Numbers.{saturated};
ghost use Rattle.rectangle_pack_packing.specs.Fitting.{FitsWith, IsBestFit, IsBestFitAnswer, IsBetterFit, cells_of_box, cells_in_group, cells_in_groups};
ghost use Rattle.rectangle_pack_packing.specs.private.Choices.{IsBestChoice};

use crate::answer::{Fitted, RectanglePackOk};
use crate::pack::best::use_made;
use crate::pack::fitting::{fit_by, try_fitting};
use crate::uses::FitUse;
use rectangle_pack_bins::target_bin::TargetBin;
use rectangle_pack_groups::grouped_rects_to_place::GroupedRectsToPlace;
use rectangle_pack_groups::grouped_rects_to_place::multimap::number_after;
use rectangle_pack_sections::box_size_heuristics::Heuristic;
use rectangle_pack_sections::closures::Named;
use rectangle_pack_sections::group::Group;
use rectangle_pack_sections::width_height_depth::WidthHeightDepth;
use std::alloc::{AllocError, Allocator};
use std::collections::BTreeMap;

// The cells of the box that is listed under this id.
fn cells_of_box<Id, GroupId, A>(
    rects_to_place: &GroupedRectsToPlace<Id, GroupId, A>,
    id: &Id,
) -> u128
where
    Id: Ord + Clone + Drop,
    GroupId: Ord + Clone + Drop,
    A: Allocator + Copy,
    ensures { result ≡ cells_of_box Id.cmp rects_to_place.now id.now }
{
    match rects_to_place.rects().get(id) {
        Some(size) => WidthHeightDepth::from(*size).volume(),
        None => 0,
    }
}

// The cells of the boxes of these ids.
fn cells_of_boxes<Id, GroupId, A>(
    rects_to_place: &GroupedRectsToPlace<Id, GroupId, A>,
    ids: &[Id],
) -> u128
where
    Id: Ord + Clone + Drop,
    GroupId: Ord + Clone + Drop,
    A: Allocator + Copy,
    ensures { result ≡ saturated (sum_by (cells_of_box Id.cmp rects_to_place.now) ids.now) }
{
    let mut cells = 0u128;
    for id in ids {
        cells = cells.saturating_add(cells_of_box(rects_to_place, id));
    }
    cells
}

// The cells of the boxes of a group, one for each entry.
fn cells_of_group<Id, GroupId, A>(
    rects_to_place: &GroupedRectsToPlace<Id, GroupId, A>,
    name: &Group<GroupId, Id>,
) -> u128
where
    Id: Ord + Clone + Drop,
    GroupId: Ord + Clone + Drop,
    A: Allocator + Copy,
    ensures { result ≡ saturated (cells_in_group Id.cmp ⟦<Group<GroupId, Id> as Ord>⟧.cmp
        rects_to_place.now name.now) }
{
    match rects_to_place.groups().get(name) {
        Some(ids) => cells_of_boxes(rects_to_place, ids.as_slice()),
        None => 0,
    }
}

/// The cells of the boxes of these groups, one for each entry; at most the greatest `u128`.
pub fn cells_left<Id, GroupId, A>(
    rects_to_place: &GroupedRectsToPlace<Id, GroupId, A>,
    left: &[&Group<GroupId, Id>],
) -> u128
where
    Id: Ord + Clone + Drop,
    GroupId: Ord + Clone + Drop,
    A: Allocator + Copy,
    ensures { result ≡ cells_in_groups Id.cmp ⟦<Group<GroupId, Id> as Ord>⟧.cmp
        rects_to_place.now (map (λ k. k.now) left.now) }
{
    let mut cells = 0u128;
    for name in left {
        cells = cells.saturating_add(cells_of_group(rects_to_place, name));
    }
    cells
}

// What a packing of what fits with this heuristic is compared by. Fails only when memory is refused.
// The bins stay as they are.
fn fit_with<Id, BinId, GroupId, A>(
    alloc: A,
    rects_to_place: &GroupedRectsToPlace<Id, GroupId, A>,
    target_bins: &mut BTreeMap<BinId, TargetBin<A>, A>,
    entries: usize,
    heuristic: Heuristic,
) -> Result<FitUse, AllocError>
where
    Id: Ord + Clone + Drop,
    BinId: Ord + Clone + Drop,
    GroupId: Ord + Clone + Drop,
    A: Allocator + Copy,
    requires ids { ClonesEqual Id.is_clone Id.eq }
    requires bin_ids { ClonesEqual BinId.is_clone BinId.eq }
    ensures fits { IfOk result
        (FitsWith ⟦<Group<GroupId, Id> as Ord>⟧.cmp Id.cmp BinId.cmp rects_to_place.now
        (bins_of target_bins.old.entries) heuristic) }
    ensures same { bins_of target_bins.new.entries ≡ bins_of target_bins.old.entries }
{
    let policy = Named(heuristic);
    let fitted = try_fitting(alloc, rects_to_place, target_bins, entries, &policy, false)?;
    Ok(FitUse {
        left: cells_left(rects_to_place, fitted.left.as_slice()),
        made: use_made(alloc, target_bins, fitted.packed.as_slice())?,
    })
}

// The better of the best so far and the next one; the former where both are as good.
fn better_fit(best: Option<(Heuristic, FitUse)>, next: (Heuristic, FitUse)) -> (Heuristic, FitUse)
    ensures { ((result ≡ next) × IfSome best (λ b. IsBetterFit next.1 b.1)) ⊎
        ((best ≡ Some result) × ¬ IsBetterFit next.1 result.1) }
{
    match best {
        Some(best) if !next.1.is_better(&best.1) => best,
        _ => next,
    }
}

/// The heuristic of the list with which a packing of what fits leaves the fewest cells, and, of those
/// with which it leaves as many, makes the best use of the bins; the first of those with which it is
/// as good. With it, what it is compared by; `None` only where the list is empty. The bins stay as
/// they are. Room is made for `entries` entries.
pub fn best_fit_of<Id, BinId, GroupId, A>(
    alloc: A,
    rects_to_place: &GroupedRectsToPlace<Id, GroupId, A>,
    target_bins: &mut BTreeMap<BinId, TargetBin<A>, A>,
    entries: usize,
    heuristics: &[Heuristic],
) -> Result<Option<(Heuristic, FitUse)>, AllocError>
where
    Id: Ord + Clone + Drop,
    BinId: Ord + Clone + Drop,
    GroupId: Ord + Clone + Drop,
    A: Allocator + Copy,
    requires ids { ClonesEqual Id.is_clone Id.eq }
    requires bin_ids { ClonesEqual BinId.is_clone BinId.eq }
    ensures best { IfOk result
        (λ found.
        MatchOption found
        (heuristics.now ≡ [])
        (λ best.
        IsBestFit ⟦<Group<GroupId, Id> as Ord>⟧.cmp Id.cmp BinId.cmp rects_to_place.now
        (bins_of target_bins.old.entries) heuristics.now best.0 best.1)) }
    ensures same { bins_of target_bins.new.entries ≡ bins_of target_bins.old.entries }
{
    let mut best = None;
    for heuristic in heuristics {
        let made = fit_with(alloc, rects_to_place, target_bins, entries, *heuristic)?;
        best = Some(better_fit(best, (*heuristic, made)));
    }
    Ok(best)
}

// The heuristic of the list with which what fits is the best, found where there are several and
// groups to pack. Fails only when memory is refused. The bins stay as they are.
fn choose<Id, BinId, GroupId, A>(
    alloc: A,
    rects_to_place: &GroupedRectsToPlace<Id, GroupId, A>,
    target_bins: &mut BTreeMap<BinId, TargetBin<A>, A>,
    heuristics: &[Heuristic],
) -> Result<Heuristic, AllocError>
where
    Id: Ord + Clone + Drop,
    BinId: Ord + Clone + Drop,
    GroupId: Ord + Clone + Drop,
    A: Allocator + Copy,
    requires ids { ClonesEqual Id.is_clone Id.eq }
    requires bin_ids { ClonesEqual BinId.is_clone BinId.eq }
    requires some { 0 < length heuristics.now }
    ensures best { IfOk result
        (IsBestChoice ⟦<Group<GroupId, Id> as Ord>⟧.cmp Id.cmp BinId.cmp rects_to_place.now
        (bins_of target_bins.old.entries) heuristics.now) }
    ensures same { bins_of target_bins.new.entries ≡ bins_of target_bins.old.entries }
    ensures no_groups { rects_to_place.now.groups ≡ [] → IsOk result }
{
    if heuristics.len() == 1 || rects_to_place.groups().is_empty() {
        return Ok(heuristics[0]);
    }
    let entries = number_after(0, rects_to_place.groups()).unwrap_or(u64::MAX) as usize;
    match best_fit_of(alloc, rects_to_place, target_bins, entries, heuristics)? {
        Some((best, _)) => Ok(best),
        None => Ok(heuristics[0]),
    }
}

/// Packs what fits into the bins with each heuristic of a list in turn, and keeps the packing that
/// leaves the fewest cells: the volumes of the boxes of the groups that are left, one for each entry.
/// At a tie it keeps the one that uses the bins best, by the rule of `pack_rects_best`, and then the
/// one whose heuristic comes first in the list. Answers this heuristic, and what
/// `pack_rects_fitting` would answer with it and `contains_smallest_box`.
///
/// The caller sees to it that the list is not empty, and that clones of ids equal their originals.
/// An error says that a growth or a clone was refused; the bins are then as they were.
pub fn pack_rects_fitting_best<'a, Id, BinId, GroupId, A>(
    alloc: A,
    rects_to_place: &'a GroupedRectsToPlace<Id, GroupId, A>,
    target_bins: &mut BTreeMap<BinId, TargetBin<A>, A>,
    heuristics: &[Heuristic],
) -> Result<
    (
        Heuristic,
        Fitted<'a, RectanglePackOk<Id, BinId, A>, Group<GroupId, Id>, A>,
    ),
    AllocError,
>
where
    Id: Ord + Clone + Drop,
    BinId: Ord + Clone + Drop,
    GroupId: Ord + Clone + Drop,
    A: Allocator + Copy,
    requires ids { ClonesEqual Id.is_clone Id.eq }
    requires bin_ids { ClonesEqual BinId.is_clone BinId.eq }
    // There is a heuristic in the list.
    requires some { 0 < length heuristics.now }
    // Done: the answer names a heuristic of the list, and all that `pack_rects_fitting` says of what
    //   fits is so with this heuristic and `contains_smallest_box`.
    // Done: with no heuristic of the list fewer cells are left. Of those with which as many are left,
    //   none uses the bins better, in the words of `pack_rects_best`; and each that stands before the
    //   one of the answer is worse. Cells that are left are counted up to the greatest `u128`.
    //   [better_fit.fuller_bins_go_first, cells_of_boxes.first_box_alone_counts]
    // Error: the bins are as they were, the order of their lists included.
    ensures answer { IsBestFitAnswer ⟦<Group<GroupId, Id> as Ord>⟧.cmp Id.cmp BinId.cmp
        rects_to_place.now (bins_of target_bins.old.entries) heuristics.now result
        (bins_of target_bins.new.entries) }
    // Without groups it succeeds.
    ensures no_groups { rects_to_place.now.groups ≡ [] → IsOk result }
{
    let best = choose(alloc, rects_to_place, target_bins, heuristics)?;
    let fitted = fit_by(alloc, rects_to_place, target_bins, &Named(best))?;
    Ok((best, fitted))
}
