//! Packing what fits: a group that no bin takes is left out.
ghost use Rattle.std.specs.Prelude.{◌≡◌, ◌≤◌, List, [], length, true, false, IfOk, IsOk, OnErr};
ghost use Rattle.rectangle_pack_sections.specs.Bins.{Bin, bins_of};
ghost use Rattle.rectangle_pack_sections.specs.Clones.{ClonesEqual};
ghost use Rattle.rectangle_pack_sections.specs.Closures.{AreCallable, answers};
ghost use Rattle.rectangle_pack_sections.specs.Groups.{entries_of};
ghost use Rattle.rectangle_pack_packing.specs.Fitting.{PackingFits, IsFittedAnswer, names_left};
ghost use Rattle.rectangle_pack_packing.specs.Packing.{rules_by};

use crate::answer::{Fitted, Placement, RectanglePackOk, answer_of};
use crate::order::bin_order;
use crate::pack::attempt::end_packing;
use crate::pack::packing::{OnRefusal, Packing};
use rectangle_pack_bins::target_bin::TargetBin;
use rectangle_pack_groups::grouped_rects_to_place::GroupedRectsToPlace;
use rectangle_pack_groups::grouped_rects_to_place::multimap::number_after;
use rectangle_pack_lists::free_list::End;
use rectangle_pack_sections::closures::{Closures, Policy};
use rectangle_pack_sections::group::Group;
use rectangle_pack_sections::width_height_depth::WidthHeightDepth;
use std::alloc::{AllocError, Allocator};
use std::cmp::Ordering;
use std::collections::BTreeMap;
use std::mem;

/// Places what fits of groups, in which there are `entries` entries; the placements, and the groups
/// that are left. The packing is kept where `keeps` asks for it; else it is undone. Fails only when
/// memory is refused.
pub fn try_fitting<'a, Id, BinId, GroupId, R, A>(
    alloc: A,
    groups: &'a GroupedRectsToPlace<Id, GroupId, A>,
    bins: &mut BTreeMap<BinId, TargetBin<A>, A>,
    entries: usize,
    policy: &R,
    keeps: bool,
) -> Result<Fitted<'a, Vec<Placement<Id, BinId>, A>, Group<GroupId, Id>, A>, AllocError>
where
    Id: Ord + Clone + Drop,
    BinId: Ord + Clone + Drop,
    GroupId: Ord + Clone + Drop,
    R: Policy,
    A: Allocator + Copy,
    requires ids { ClonesEqual Id.is_clone Id.eq }
    requires bin_ids { ClonesEqual BinId.is_clone BinId.eq }
    requires callable { R.is_callable policy.now }
    ensures fits { IfOk result
        (λ fitted.
        let order = ⟦<Group<GroupId, Id> as Ord>⟧.cmp in
        let by = rules_by Id.cmp BinId.cmp (R.may policy.now) in
        (packed : List (BinId × Bin)) ×
        PackingFits order by groups.now (bins_of bins.old.entries) fitted.packed.items
        (names_left fitted.left) packed ×
        (length fitted.packed.items ≤ entries_of groups.now) ×
        (keeps ≡ true → bins_of bins.new.entries ≡ packed)) }
    ensures undone { keeps ≡ false → bins_of bins.new.entries ≡ bins_of bins.old.entries }
    ensures stopped { OnErr result (bins_of bins.new.entries ≡ bins_of bins.old.entries) }
{
    let order = bin_order(alloc, bins, policy)?;
    let before = mem::replace(bins, BTreeMap::new(alloc));
    let mut packing = Packing::new(before, order.as_slice(), policy, alloc);
    let mut left = Vec::new(alloc);
    let tried = packing.place_all(groups, entries, OnRefusal::Leave, &mut left);
    let is_kept = keeps && tried.is_ok();
    let (after, packed) = packing.end(if is_kept { End::Keep } else { End::Undo });
    *bins = after;
    tried?;
    Ok(Fitted { packed, left })
}

/// Packs what fits into the bins: each group whole into the first bin that takes all of its boxes,
/// in the orders of `pack_rects`. A group that no bin takes is left, and the next one is tried.
/// Answers what was placed, and the groups that are left, in the order in which they were tried.
///
/// Space is no reason to fail. The caller sees to it that clones of ids equal their originals, and
/// that both closures may be called on every size. An error says that a growth or a clone was
/// refused; the bins are then as they were.
///
/// ```
/// let mut rects: GroupedRectsToPlace<u32, u32> = GroupedRectsToPlace::new(alloc);
/// for (id, side) in [(1, 6), (2, 5), (3, 4)] {
///     rects.push_rect(id, None, RectToInsert::new(side, side, 1))?;
/// }
/// ```
///
/// The bin has no room for box 2 beside box 1:
///
/// ```
/// let mut bins = BTreeMap::new(alloc);
/// bins.insert(0u32, TargetBin::new(alloc, 10, 10, 1)?)?;
/// let fitted = pack_rects_fitting(
///     alloc,
///     &rects,
///     &mut bins,
///     &volume_heuristic,
///     &contains_smallest_box,
/// )?;
/// let ids = fitted.packed.placements().iter().map(|placed| placed.id);
/// assert!(rt; ids.eq([1, 3]));
/// assert_eq!(rt; fitted.left.len(), 1);
/// ```
pub fn pack_rects_fitting<'a, Id, BinId, GroupId, H, C, A>(
    alloc: A,
    rects_to_place: &'a GroupedRectsToPlace<Id, GroupId, A>,
    target_bins: &mut BTreeMap<BinId, TargetBin<A>, A>,
    box_size_heuristic: &H,
    more_suitable_containers_fn: &C,
) -> Result<Fitted<'a, RectanglePackOk<Id, BinId, A>, Group<GroupId, Id>, A>, AllocError>
where
    Id: Ord + Clone + Drop,
    BinId: Ord + Clone + Drop,
    GroupId: Ord + Clone + Drop,
    H: Fn(WidthHeightDepth) -> u128,
    C: Fn([WidthHeightDepth; 3], [WidthHeightDepth; 3], &H) -> Ordering,
    A: Allocator + Copy,
    requires ids { ClonesEqual Id.is_clone Id.eq }
    requires bin_ids { ClonesEqual BinId.is_clone BinId.eq }
    requires callable { AreCallable H.Fn C.Fn box_size_heuristic.now
        more_suitable_containers_fn.now }
    // Done: groups are taken and bins are tried in the orders of `pack_rects`. Each group goes whole
    //   into the first bin that is not excluded for it and in which its trial is done, as
    //   `pack_rects` says it, in the bins as the groups before it left them.
    //   [place_groups.packing_ends_at_the_first_that_is_left]
    // Done: a group is left exactly where each bin is excluded for it or its trial is stuck there,
    //   as the groups before it left the bins. It changes no bin, and excludes none.
    //   [place_group.one_bin_only_is_tried, place_groups.group_that_is_left_has_a_home]
    // Done: the answer has the placements in the order in which they were made, and the groups that
    //   are left, in the order in which they were tried. Each id that was placed is found with its
    //   last placement.
    //   [place_groups.left_groups_turn_round]
    // Error: the bins are as they were, the order of their lists included.
    //   [end_packing.kept_without_memory]
    ensures answer { let groups = ⟦<Group<GroupId, Id> as Ord>⟧.cmp in
        let may = answers H.Fn C.Fn box_size_heuristic.now more_suitable_containers_fn.now in
        IsFittedAnswer groups (rules_by Id.cmp BinId.cmp may) rects_to_place.now
        (bins_of target_bins.old.entries) result (bins_of target_bins.new.entries) }
    // Without groups it succeeds.
    ensures no_groups { rects_to_place.now.groups ≡ [] → IsOk result }
{
    let policy = Closures {
        heuristic: box_size_heuristic,
        comparison: more_suitable_containers_fn,
    };
    fit_by(alloc, rects_to_place, target_bins, &policy)
}

/// The same by a policy.
pub fn fit_by<'a, Id, BinId, GroupId, R, A>(
    alloc: A,
    rects_to_place: &'a GroupedRectsToPlace<Id, GroupId, A>,
    target_bins: &mut BTreeMap<BinId, TargetBin<A>, A>,
    policy: &R,
) -> Result<Fitted<'a, RectanglePackOk<Id, BinId, A>, Group<GroupId, Id>, A>, AllocError>
where
    Id: Ord + Clone + Drop,
    BinId: Ord + Clone + Drop,
    GroupId: Ord + Clone + Drop,
    R: Policy,
    A: Allocator + Copy,
    requires ids { ClonesEqual Id.is_clone Id.eq }
    requires bin_ids { ClonesEqual BinId.is_clone BinId.eq }
    requires callable { R.is_callable policy.now }
    ensures answer { IsFittedAnswer ⟦<Group<GroupId, Id> as Ord>⟧.cmp
        (rules_by Id.cmp BinId.cmp (R.may policy.now)) rects_to_place.now
        (bins_of target_bins.old.entries) result (bins_of target_bins.new.entries) }
    ensures no_groups { rects_to_place.now.groups ≡ [] → IsOk result }
{
    let mut left = Vec::new(alloc);
    if rects_to_place.groups().is_empty() {
        let packed = answer_of(BTreeMap::new(alloc), Vec::new(alloc));
        return Ok(Fitted { packed, left });
    }
    let entries = number_after(0, rects_to_place.groups()).unwrap_or(u64::MAX) as usize;
    let order = bin_order(alloc, target_bins, policy)?;
    let bins = mem::replace(target_bins, BTreeMap::new(alloc));
    let mut packing = Packing::new(bins, order.as_slice(), policy, alloc);
    let tried = packing.place_all(rects_to_place, entries, OnRefusal::Leave, &mut left);
    let (bins, answer) = end_packing(alloc, packing, tried, End::Undo);
    *target_bins = bins;
    match answer {
        Ok(packed) => Ok(Fitted { packed, left }),
        Err(_) => Err(AllocError),
    }
}
