//! Packing groups of boxes into bins.
ghost use Rattle.std.specs.Prelude.{◌≡◌, [], All, map, IsOk, IsSome};
ghost use Rattle.std.specs.BTreeMap.{get};
ghost use Rattle.std.specs.List.{IsDistinct};
ghost use Rattle.std.specs.Map.{keys_of};
ghost use Rattle.std.specs.Ordering.{eq_by_cmp};
ghost use Rattle.rectangle_pack_sections.specs.Clones.{ClonesEqual};
ghost use Rattle.rectangle_pack_sections.specs.Bins.{bins_of};
ghost use Rattle.rectangle_pack_sections.specs.Closures.{AreCallable, answers};
ghost use Rattle.rectangle_pack_packing.specs.Orders.{IsBinOrder};
ghost use Rattle.rectangle_pack_packing.specs.Packing.{rules_by};
ghost use Rattle.rectangle_pack_packing.specs.PackAnswers.{IsPackAnswer, IsCountedAnswer};
ghost use Rattle.rectangle_pack_packing.specs.private.Ends.{IsUndoneAnswer};

pub mod attempt;
pub mod best;
pub mod fitting;
pub mod fitting_best;
pub mod packing;
pub mod told;

use crate::answer::{RectanglePackError, RectanglePackOk, answer_of};
use crate::order::bin_order;
use crate::pack::attempt::end_packing;
use crate::pack::packing::{OnRefusal, Packing};
pub use best::pack_rects_best;
pub use fitting::pack_rects_fitting;
pub use fitting_best::pack_rects_fitting_best;
use rectangle_pack_bins::target_bin::TargetBin;
use rectangle_pack_groups::grouped_rects_to_place::GroupedRectsToPlace;
use rectangle_pack_groups::grouped_rects_to_place::multimap::number_after;
use rectangle_pack_lists::free_list::End;
use rectangle_pack_lists::trial::{FitTests, add};
use rectangle_pack_sections::closures::{Closures, Policy};
use rectangle_pack_sections::group::Group;
use rectangle_pack_sections::width_height_depth::WidthHeightDepth;
use std::alloc::{AllocError, Allocator};
use std::cmp::Ordering;
use std::collections::BTreeMap;

/// Packs all groups into the bins: each group whole into the first bin that takes all of its boxes.
/// A bin is excluded for a group where a group that is excluded with it went there in this call.
///
/// Groups go in falling order of the sum of their boxes' rates, and at equal sums in the order of
/// groups. Bins are tried in rising order of the rate of their whole size, and at equal rates by
/// id. A box goes to the corner of the newest free section that holds it; of the six ways to cut up
/// the rest of the section, `more_suitable_containers_fn` chooses one. Sizes and corners are
/// counted in cells, and boxes are never turned.
///
/// The caller sees to it that clones of ids equal their originals, and that both closures may be
/// called on every size.
///
/// After `NotEnoughBinSpace` the groups before the one that found no bin stay placed. After
/// `OutOfMemory`, which may come first, the bins are as they were.
///
/// ```
/// let mut rects: GroupedRectsToPlace<u32, u32> = GroupedRectsToPlace::new(alloc);
/// for (id, width, height) in [(7, 2, 3), (8, 4, 4)] {
///     rects.push_rect(id, None, RectToInsert::new(width, height, 1))?;
/// }
/// ```
///
/// Both boxes go into one bin:
///
/// ```
/// let mut bins = BTreeMap::new(alloc);
/// bins.insert(1u32, TargetBin::new(alloc, 10, 10, 1)?)?;
/// let packed = pack_rects(
///     alloc,
///     &rects,
///     &mut bins,
///     &volume_heuristic,
///     &contains_smallest_box,
/// )?;
/// ```
///
/// The larger box goes first:
///
/// ```
/// let ids = packed.placements().iter().map(|placed| placed.id);
/// assert!(rt; ids.eq([8, 7]));
/// ```
///
/// The other one stands beside it, in bin 1:
///
/// ```
/// let (bin, location) = packed.packed_locations().get(&7).ok_or("not placed")?;
/// let (x, y, z) = (location.x(), location.y(), location.z());
/// assert_eq!(rt; (*bin, x, y, z), (1, 4, 0, 0));
/// ```
pub fn pack_rects<Id, BinId, GroupId, H, C, A>(
    alloc: A,
    rects_to_place: &GroupedRectsToPlace<Id, GroupId, A>,
    target_bins: &mut BTreeMap<BinId, TargetBin<A>, A>,
    box_size_heuristic: &H,
    more_suitable_containers_fn: &C,
) -> Result<RectanglePackOk<Id, BinId, A>, RectanglePackError>
where
    Id: Ord + Clone + Drop,
    BinId: Ord + Clone + Drop,
    GroupId: Ord + Clone + Drop,
    H: Fn(WidthHeightDepth) -> u128,
    C: Fn([WidthHeightDepth; 3], [WidthHeightDepth; 3], &H) -> Ordering,
    A: Allocator + Copy,
    requires ids { ClonesEqual Id.is_clone Id.eq }
    // Clones of bin ids equal their originals.
    requires bin_ids { ClonesEqual BinId.is_clone BinId.eq }
    // The heuristic may be called on every size, those with sides of 0 among them, and the
    //   comparison on every two triples of sizes with this heuristic.
    requires callable { AreCallable H.Fn C.Fn box_size_heuristic.now
        more_suitable_containers_fn.now }
    // Done: all groups are placed, by falling key, and at equal keys in the order of groups. The
    //   key of a group is the sum of one rate for each of its entries; it stays at the greatest
    //   `u128`.
    // Done: if there is a group, bins are tried by rising rate of their whole size, and at equal
    //   rates by id. Each bin has one rate.
    // Done: each group goes whole into one bin, which is not excluded for it and in which its trial
    //   is done, as the groups before it left that bin. In each bin before that one in the order,
    //   it is excluded or its trial is stuck. [run_trial.group_goes_on_into_the_next_bin]
    // Done: a bin is excluded for a group exactly where a group that is excluded with it went there
    //   earlier in the same packing. [place_groups.first_groups_exclusions_are_used]
    // Done: in a trial each member in turn goes to the corner of the newest section that holds it.
    //   [newest.first_section_is_taken]
    // Done: that section is taken out of the list. The pieces of an allowed cut, as `pieces` of
    //   `try_place` says it, stand at the end of the list, by falling rate, at equal rates in the
    //   order right, above, behind; those without cells are left out.
    //   [into_sections.sections_are_joined]
    // Done: the list of the bin that takes a group becomes the list of that trial. All else in the
    //   bins stays. [end.kept_packing_is_undone]
    // Done: there is one placement for each entry of each group, group after group. It has an id
    //   that equals the entry's, the bin of the group, and the location of the entry in that trial.
    // Done: each id that was placed is found with the bin and the location of its last placement.
    //   No other id is found, and the ids are in strictly rising order.
    // `NotEnoughBinSpace`: the groups before some group are placed so, and for that group each bin
    //   is excluded or its trial is stuck there. The bins are as the groups before it left them.
    //   No placement is answered. [pack_rects.is_always_refused]
    // `OutOfMemory`: the bins are as they were, the order of their lists included.
    //   [undo_one.undone_section_goes_last]
    ensures answer { let groups = ⟦<Group<GroupId, Id> as Ord>⟧.cmp in
        let may = answers H.Fn C.Fn box_size_heuristic.now more_suitable_containers_fn.now in
        IsPackAnswer groups (rules_by Id.cmp BinId.cmp may) rects_to_place.now
        (bins_of target_bins.old.entries) result (bins_of target_bins.new.entries) }
    // Without groups it succeeds.
    ensures no_groups { rects_to_place.now.groups ≡ [] → IsOk result }
{
    let mut tests = FitTests::new();
    pack_rects_counted(
        alloc,
        rects_to_place,
        target_bins,
        box_size_heuristic,
        more_suitable_containers_fn,
        &mut tests,
    )
}

/// `pack_rects`, with its fit tests added to `tests`: for a group that is placed those of its
/// trials in the bins up to its own, for a group that is refused those of its trials in all bins.
/// In a bin that is excluded no trial is made. `OutOfMemory` adds some number of tests.
///
/// With n entries in the groups it is never more than n tests for each free section of before and
/// n * (n - 1) for each bin, also where memory is refused. The counter stays at the greatest
/// `u128`. Conditions and errors are those of `pack_rects`.
pub fn pack_rects_counted<Id, BinId, GroupId, H, C, A>(
    alloc: A,
    rects_to_place: &GroupedRectsToPlace<Id, GroupId, A>,
    target_bins: &mut BTreeMap<BinId, TargetBin<A>, A>,
    box_size_heuristic: &H,
    more_suitable_containers_fn: &C,
    tests: &mut FitTests,
) -> Result<RectanglePackOk<Id, BinId, A>, RectanglePackError>
where
    Id: Ord + Clone + Drop,
    BinId: Ord + Clone + Drop,
    GroupId: Ord + Clone + Drop,
    H: Fn(WidthHeightDepth) -> u128,
    C: Fn([WidthHeightDepth; 3], [WidthHeightDepth; 3], &H) -> Ordering,
    A: Allocator + Copy,
    requires ids { ClonesEqual Id.is_clone Id.eq }
    requires bin_ids { ClonesEqual BinId.is_clone BinId.eq }
    requires callable { AreCallable H.Fn C.Fn box_size_heuristic.now
        more_suitable_containers_fn.now }
    // Done, `NotEnoughBinSpace` and `OutOfMemory` say of the answer and of the bins what they say
    //   in `pack_rects`. [place_group.one_bin_only_is_tried]
    // Done or `NotEnoughBinSpace`: exactly the fit tests of this packing are added to the counter,
    //   which stays at the greatest `u128`. They are those of the trials of each group, in the bins
    //   up to its own, or in all bins where it is refused; in an excluded bin there are none.
    //   [pack_in_order.tests_are_not_counted]
    // In a trial, a member that is placed counts one test for its section and one for each section
    //   after it in the list; a member that is stuck counts one for each section.
    //   [last_of.tests_are_one_short]
    // With n entries in the groups, the fit tests are at most n for each free section of before,
    //   and n * (n - 1) for each bin. `OutOfMemory` adds at most that number.
    ensures answer { let groups = ⟦<Group<GroupId, Id> as Ord>⟧.cmp in
        let may = answers H.Fn C.Fn box_size_heuristic.now more_suitable_containers_fn.now in
        IsCountedAnswer groups (rules_by Id.cmp BinId.cmp may) rects_to_place.now
        (bins_of target_bins.old.entries) tests.old result (bins_of target_bins.new.entries)
        tests.new }
    ensures no_groups { rects_to_place.now.groups ≡ [] → IsOk result }
{
    let policy = Closures {
        heuristic: box_size_heuristic,
        comparison: more_suitable_containers_fn,
    };
    pack_by(
        alloc,
        rects_to_place,
        target_bins,
        &policy,
        End::Keep,
        tests,
    )
}

// Packs all groups into the bins by a policy. Errors are those of `pack_rects_counted`; but where it
// is refused for space, `refused` says what becomes of what was placed.
fn pack_by<Id, BinId, GroupId, R, A>(
    alloc: A,
    rects_to_place: &GroupedRectsToPlace<Id, GroupId, A>,
    target_bins: &mut BTreeMap<BinId, TargetBin<A>, A>,
    policy: &R,
    refused: End,
    tests: &mut FitTests,
) -> Result<RectanglePackOk<Id, BinId, A>, RectanglePackError>
where
    Id: Ord + Clone + Drop,
    BinId: Ord + Clone + Drop,
    GroupId: Ord + Clone + Drop,
    R: Policy,
    A: Allocator + Copy,
    requires ids { ClonesEqual Id.is_clone Id.eq }
    requires bin_ids { ClonesEqual BinId.is_clone BinId.eq }
    requires callable { R.is_callable policy.now }
    ensures answer { IsUndoneAnswer ⟦<Group<GroupId, Id> as Ord>⟧.cmp
        (rules_by Id.cmp BinId.cmp (R.may policy.now)) refused rects_to_place.now
        (bins_of target_bins.old.entries) tests.old result (bins_of target_bins.new.entries)
        tests.new }
    ensures no_groups { rects_to_place.now.groups ≡ [] → IsOk result }
{
    // Only the proof asks for it: a count is less than 2^128.
    let _count = tests.count();
    if rects_to_place.groups().is_empty() {
        return Ok(answer_of(BTreeMap::new(alloc), Vec::new(alloc)));
    }
    let Ok(order) = bin_order(alloc, target_bins, policy) else {
        return Err(RectanglePackError::OutOfMemory);
    };
    pack_in_order(
        alloc,
        rects_to_place,
        target_bins,
        order.as_slice(),
        policy,
        refused,
        tests,
    )
}

// The same, with the order in which bins are tried.
fn pack_in_order<Id, BinId, GroupId, R, A>(
    alloc: A,
    rects_to_place: &GroupedRectsToPlace<Id, GroupId, A>,
    target_bins: &mut BTreeMap<BinId, TargetBin<A>, A>,
    order: &[(u128, BinId)],
    policy: &R,
    refused: End,
    tests: &mut FitTests,
) -> Result<RectanglePackOk<Id, BinId, A>, RectanglePackError>
where
    Id: Ord + Clone + Drop,
    BinId: Ord + Clone + Drop,
    GroupId: Ord + Clone + Drop,
    R: Policy,
    A: Allocator + Copy,
    requires ids { ClonesEqual Id.is_clone Id.eq }
    requires bin_ids { ClonesEqual BinId.is_clone BinId.eq }
    requires callable { R.is_callable policy.now }
    requires order { IsBinOrder (R.may policy.now).rate BinId.cmp
        (bins_of target_bins.old.entries) order.now }
    requires found { All (λ o. IsSome (get BinId.cmp target_bins.old o.1)) order.now }
    requires distinct { IsDistinct (eq_by_cmp BinId.cmp) (map (λ o. o.1) order.now) }
    requires distinct_bins { IsDistinct (eq_by_cmp BinId.cmp)
        (keys_of (bins_of target_bins.old.entries)) }
    ensures answer { IsUndoneAnswer ⟦<Group<GroupId, Id> as Ord>⟧.cmp
        (rules_by Id.cmp BinId.cmp (R.may policy.now)) refused rects_to_place.now
        (bins_of target_bins.old.entries) tests.old result (bins_of target_bins.new.entries)
        tests.new }
{
    let entries = number_after(0, rects_to_place.groups()).unwrap_or(u64::MAX) as usize;
    let bins = std::mem::replace(target_bins, BTreeMap::new(alloc));
    let mut packing = Packing::new(bins, order, policy, alloc);
    let mut left = Vec::new(alloc);
    let packed = packing.place_all(rects_to_place, entries, OnRefusal::Stop, &mut left);
    let counted = packing.count();
    let (bins, answer) = end_packing(alloc, packing, packed, refused);
    *target_bins = bins;
    let made = match answer {
        Ok(_) => counted,
        Err(RectanglePackError::NotEnoughBinSpace) => counted,
        Err(RectanglePackError::OutOfMemory) => 0,
    };
    add(tests, made);
    answer
}
