//! Laws of what fits.
ghost use Rattle.std.specs.Prelude.{List};
ghost use Rattle.std.specs.Map.{values_of};
ghost use Rattle.rectangle_pack_sections.specs.Alike.{AreCollectionsAlike};
ghost use Rattle.rectangle_pack_sections.specs.Bins.{Bin};
ghost use Rattle.rectangle_pack_sections.specs.Closures.{answers};
ghost use Rattle.rectangle_pack_sections.specs.Groups.{Collection};
ghost use Rattle.rectangle_pack_packing.specs.Best.{named_rules};
ghost use Rattle.rectangle_pack_packing.specs.FittingLaws.{DoneIsNoneLeft, FirstLeftIsRefused, FittingsKeepApart, FittingsKeepCells, FittingsPlaceWhole, HaveOneFit, LeftBoxesAreHeldNowhere};
ghost use Rattle.rectangle_pack_packing.specs.Packing.{rules_by};
ghost use Rattle.rectangle_pack_packing.specs.Results.{AreBinsAlike, ClosuresDecide};

use rectangle_pack_sections::box_size_heuristics::Heuristic;
use rectangle_pack_sections::group::Group;
use rectangle_pack_sections::width_height_depth::WidthHeightDepth;
use std::cmp::Ordering;

/// A law: where groups are left, a packing of the same groups into the same bins is refused for
/// space at the first of them.
pub fn first_left_is_refused<Id: Ord, BinId: Ord, GroupId: Ord, H, C>(heuristic: &H, comparison: &C)
where
    H: Fn(WidthHeightDepth) -> u128,
    C: Fn([WidthHeightDepth; 3], [WidthHeightDepth; 3], &H) -> Ordering,
    // With these closures some groups fit, and some are left. Then a packing of the same collection
    //   into the same bins, in the same orders, is refused for space at the first group that is left.
    // What it placed before it is what was placed here before this group.
    ensures closures { let groups = ⟦<Group<GroupId, Id> as Ord>⟧.cmp in
        let may = answers H.Fn C.Fn heuristic.now comparison.now in
        FirstLeftIsRefused groups (rules_by Id.cmp BinId.cmp may) }
    // The same is so of a heuristic that has a name, as `pack_rects_fitting_best` takes it.
    ensures by_name { let groups = ⟦<Group<GroupId, Id> as Ord>⟧.cmp in
        (named : Heuristic) → FirstLeftIsRefused groups (named_rules Id.cmp BinId.cmp named) }
{}

/// A law: no two groups that are excluded share a bin, of those that fit. `homes` has the bin of
/// each, in which it is placed whole (`fitted_groups_are_placed_whole`).
pub fn fitted_groups_are_apart<Id: Ord, BinId: Ord, GroupId: Ord, H, C>(
    heuristic: &H,
    comparison: &C,
)
where
    H: Fn(WidthHeightDepth) -> u128,
    C: Fn([WidthHeightDepth; 3], [WidthHeightDepth; 3], &H) -> Ordering,
    // With these closures two groups that are excluded, of those that fit, have different bins.
    ensures closures { let groups = ⟦<Group<GroupId, Id> as Ord>⟧.cmp in
        let may = answers H.Fn C.Fn heuristic.now comparison.now in
        FittingsKeepApart groups (rules_by Id.cmp BinId.cmp may) }
    // The same is so of a heuristic that has a name, as `pack_rects_fitting_best` takes it.
    ensures by_name { let groups = ⟦<Group<GroupId, Id> as Ord>⟧.cmp in
        (named : Heuristic) → FittingsKeepApart groups (named_rules Id.cmp BinId.cmp named) }
{}

/// A law: a group that fits is placed whole, in one bin: one placement for each entry, in the size
/// of its id. Each group fits or is left. `homes` has the bin of each group that fits, the last one
/// first.
pub fn fitted_groups_are_placed_whole<Id: Ord, BinId: Ord, GroupId: Ord, H, C>(
    heuristic: &H,
    comparison: &C,
)
where
    H: Fn(WidthHeightDepth) -> u128,
    C: Fn([WidthHeightDepth; 3], [WidthHeightDepth; 3], &H) -> Ordering,
    // With these closures the placements are those of the groups that fit, one after another. Of
    //   each such group every entry is placed once, in the size of its id, and all in one bin.
    // The groups that fit, together with those that are left, are all groups of the order, each
    //   once.
    ensures closures { let groups = ⟦<Group<GroupId, Id> as Ord>⟧.cmp in
        let may = answers H.Fn C.Fn heuristic.now comparison.now in
        FittingsPlaceWhole groups (rules_by Id.cmp BinId.cmp may) }
    // The same is so of a heuristic that has a name, as `pack_rects_fitting_best` takes it.
    ensures by_name { let groups = ⟦<Group<GroupId, Id> as Ord>⟧.cmp in
        (named : Heuristic) → FittingsPlaceWhole groups (named_rules Id.cmp BinId.cmp named) }
{}

/// A law: where the heuristic has one answer on each size that may be rated, and the comparison is a
/// total preorder on the cuts that may be met, what fits has one result: of equal collections into
/// equal bins equal groups are left, with equal bins and placements. With a heuristic that has a
/// name it always has.
pub fn fitting_has_one_result<Id: Ord, BinId: Ord, GroupId: Ord, H, C>(
    heuristic: &H,
    comparison: &C,
)
where
    H: Fn(WidthHeightDepth) -> u128,
    C: Fn([WidthHeightDepth; 3], [WidthHeightDepth; 3], &H) -> Ordering,
    // With closures that decide (`ClosuresDecide`), what fits of equal collections into equal bins
    //   leaves equal groups, one by one. The bins at the end and the placements are equal too, as
    //   `packing_has_one_result` says it.
    ensures closures { let groups = ⟦<Group<GroupId, Id> as Ord>⟧.cmp in
        let may = answers H.Fn C.Fn heuristic.now comparison.now in
        (all others : Collection Id GroupId) (bins other_bins : List (BinId × Bin)) →
        AreCollectionsAlike groups Id.cmp all others →
        AreBinsAlike BinId.cmp bins other_bins →
        ClosuresDecide (values_of all.sizes) (values_of bins) may →
        HaveOneFit groups (rules_by Id.cmp BinId.cmp may) all others bins other_bins }
    // The same is so of a heuristic that has a name, as `pack_rects_fitting_best` takes it, whatever
    //   the boxes and the bins are.
    ensures by_name { let groups = ⟦<Group<GroupId, Id> as Ord>⟧.cmp in
        (named : Heuristic) (all others : Collection Id GroupId)
        (bins other_bins : List (BinId × Bin)) →
        AreCollectionsAlike groups Id.cmp all others →
        AreBinsAlike BinId.cmp bins other_bins →
        HaveOneFit groups (named_rules Id.cmp BinId.cmp named) all others bins other_bins }
{}

/// A law: what fits keeps the cells of each bin whose free sections share no cell. The bin's size
/// stays, its free cells of before are its free cells of after and the cells of the boxes placed in
/// it, and no two of these share one.
pub fn fitting_keeps_cells<Id: Ord, BinId: Ord, GroupId: Ord, H, C>(heuristic: &H, comparison: &C)
where
    H: Fn(WidthHeightDepth) -> u128,
    C: Fn([WidthHeightDepth; 3], [WidthHeightDepth; 3], &H) -> Ordering,
    // With these closures what fits is placed. Then each bin whose free sections shared no cell is
    //   still there, in its size. A cell was in a free section of it exactly where it now is in a
    //   free section or in a box that was placed there, and no two of these share a cell. No bin is
    //   added.
    ensures closures { let groups = ⟦<Group<GroupId, Id> as Ord>⟧.cmp in
        let may = answers H.Fn C.Fn heuristic.now comparison.now in
        FittingsKeepCells groups (rules_by Id.cmp BinId.cmp may) }
    // The same is so of a heuristic that has a name, as `pack_rects_fitting_best` takes it.
    ensures by_name { let groups = ⟦<Group<GroupId, Id> as Ord>⟧.cmp in
        (named : Heuristic) → FittingsKeepCells groups (named_rules Id.cmp BinId.cmp named) }
{}

/// A law: where a group with one entry is left, no free section of a bin that is not excluded for it
/// holds its box, as the bins are at the end.
pub fn left_box_is_held_nowhere<Id: Ord, BinId: Ord, GroupId: Ord, H, C>(
    heuristic: &H,
    comparison: &C,
)
where
    H: Fn(WidthHeightDepth) -> u128,
    C: Fn([WidthHeightDepth; 3], [WidthHeightDepth; 3], &H) -> Ordering,
    // With these closures a group with one entry is left. Then no free section, as the bins are when
    //   all groups were tried, holds its box, but in bins where a group went that is excluded with
    //   it.
    ensures closures { let groups = ⟦<Group<GroupId, Id> as Ord>⟧.cmp in
        let may = answers H.Fn C.Fn heuristic.now comparison.now in
        LeftBoxesAreHeldNowhere groups (rules_by Id.cmp BinId.cmp may) }
    // The same is so of a heuristic that has a name, as `pack_rects_fitting_best` takes it.
    ensures by_name { let groups = ⟦<Group<GroupId, Id> as Ord>⟧.cmp in
        (named : Heuristic) →
        LeftBoxesAreHeldNowhere groups (named_rules Id.cmp BinId.cmp named) }
{}

/// A law: a packing is done exactly where all groups fit, and none is left.
pub fn packing_leaves_none<Id: Ord, BinId: Ord, GroupId: Ord, H, C>(heuristic: &H, comparison: &C)
where
    H: Fn(WidthHeightDepth) -> u128,
    C: Fn([WidthHeightDepth; 3], [WidthHeightDepth; 3], &H) -> Ordering,
    // With these closures a packing is done, with n fit tests, exactly where what fits of the same
    //   collection leaves no group, with the same bins, placements and n fit tests.
    ensures closures { let groups = ⟦<Group<GroupId, Id> as Ord>⟧.cmp in
        let may = answers H.Fn C.Fn heuristic.now comparison.now in
        DoneIsNoneLeft groups (rules_by Id.cmp BinId.cmp may) }
    // The same is so of a heuristic that has a name, as `pack_rects_fitting_best` takes it.
    ensures by_name { let groups = ⟦<Group<GroupId, Id> as Ord>⟧.cmp in
        (named : Heuristic) → DoneIsNoneLeft groups (named_rules Id.cmp BinId.cmp named) }
{}
