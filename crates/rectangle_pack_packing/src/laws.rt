//! Laws of packings.
ghost use Rattle.std.specs.Prelude.{ℕ, ◌≡◌, List};
ghost use Rattle.std.specs.Map.{values_of};
ghost use Rattle.rectangle_pack_packing.specs.declared.answer.Placement.{Placement};
ghost use Rattle.rectangle_pack_sections.specs.Boxes.{Size, Cuboid, volume_of};
ghost use Rattle.rectangle_pack_sections.specs.Bins.{Bin};
ghost use Rattle.rectangle_pack_sections.specs.Heuristics.{rate_of};
ghost use Rattle.rectangle_pack_sections.specs.Closures.{MayRateBy, MayCompare, answers};
ghost use Rattle.rectangle_pack_sections.specs.Choice.{IsFunction, IsTotalPreorder};
ghost use Rattle.rectangle_pack_sections.specs.Groups.{Collection};
ghost use Rattle.rectangle_pack_packing.specs.Best.{named_rules};
ghost use Rattle.rectangle_pack_packing.specs.Packing.{rules_by};
ghost use Rattle.rectangle_pack_packing.specs.PackingLaws.{PackingsKeepApart, PackingsPlaceWhole, PackingsKeepCells, PackingsExcludeNone, RefusedBoxesAreHeldNowhere};
ghost use Rattle.rectangle_pack_packing.specs.Placed.{AreLastPlacements};
ghost use Rattle.rectangle_pack_sections.specs.SmallestBox.{IsSmallestOrder};
ghost use Rattle.rectangle_pack_packing.specs.Results.{ClosuresDecide, either_of, AreBinsAlike, ArePlacementsAlike, AreLocationsAlike, HaveOneResult};
ghost use Rattle.rectangle_pack_sections.specs.Alike.{AreCollectionsAlike};

pub mod fitting;
pub mod told;

use rectangle_pack_sections::box_size_heuristics::Heuristic;
use rectangle_pack_sections::group::Group;
use rectangle_pack_sections::width_height_depth::WidthHeightDepth;
use std::cmp::Ordering;

/// A law: no two groups that are excluded share a bin, of those that one packing placed. `homes`
/// has the bin of each, in which it is placed whole (`groups_are_placed_whole`).
pub fn excluded_groups_are_apart<Id: Ord, BinId: Ord, GroupId: Ord, H, C>(
    heuristic: &H,
    comparison: &C,
)
where
    H: Fn(WidthHeightDepth) -> u128,
    C: Fn([WidthHeightDepth; 3], [WidthHeightDepth; 3], &H) -> Ordering,
    // In a packing with these closures that is done, two groups that are excluded have different
    //   bins.
    // In one that is refused for space, two groups that are excluded, of those that it placed, have
    //   different bins.
    ensures closures { let groups = ⟦<Group<GroupId, Id> as Ord>⟧.cmp in
        let may = answers H.Fn C.Fn heuristic.now comparison.now in
        PackingsKeepApart groups (rules_by Id.cmp BinId.cmp may) }
    // The same is so of packings with a heuristic that has a name, as `pack_rects_best` makes them.
    ensures by_name { let groups = ⟦<Group<GroupId, Id> as Ord>⟧.cmp in
        (named : Heuristic) → PackingsKeepApart groups (named_rules Id.cmp BinId.cmp named) }
{}

/// A law: a packing that is done places each group whole, in one bin: one placement for each entry,
/// in the size of its id. `homes` has the bin of each group, the last one first.
pub fn groups_are_placed_whole<Id: Ord, BinId: Ord, GroupId: Ord, H, C>(
    heuristic: &H,
    comparison: &C,
)
where
    H: Fn(WidthHeightDepth) -> u128,
    C: Fn([WidthHeightDepth; 3], [WidthHeightDepth; 3], &H) -> Ordering,
    // In a packing with these closures that is done, the placements are those of its groups one
    //   after another. Of each group every entry is placed once, in the size of its id, and all in
    //   one bin.
    // The groups that are placed so are all groups of the packing's order, in that order.
    ensures closures { let groups = ⟦<Group<GroupId, Id> as Ord>⟧.cmp in
        let may = answers H.Fn C.Fn heuristic.now comparison.now in
        PackingsPlaceWhole groups (rules_by Id.cmp BinId.cmp may) }
    // The same is so of packings with a heuristic that has a name, as `pack_rects_best` makes them.
    ensures by_name { let groups = ⟦<Group<GroupId, Id> as Ord>⟧.cmp in
        (named : Heuristic) → PackingsPlaceWhole groups (named_rules Id.cmp BinId.cmp named) }
{}

/// A law: where two packings made equal placements, the locations that they answer by id are equal.
pub fn locations_follow_placements<Id: Ord, BinId: Ord>()
    // Two lists of placements are equal one by one. Then the last placements by id that are found
    //   in them are equal too.
    ensures { (placements others : List (Placement Id BinId)) →
        (found other_found : List (Id × (BinId × Cuboid))) →
        ArePlacementsAlike Id.cmp BinId.cmp placements others →
        AreLastPlacements Id.cmp BinId.cmp placements found →
        AreLastPlacements Id.cmp BinId.cmp others other_found →
        AreLocationsAlike Id.cmp BinId.cmp found other_found }
{}

/// A law: with a heuristic that has a name and `contains_smallest_box`, or closures that answer as
/// they do, two packings have one result; and this is the one of a packing with this heuristic, as
/// `pack_rects_best` makes it.
pub fn named_packing_has_one_result<Id, BinId, GroupId, H, C, I, D>(
    named: Heuristic,
    heuristic: &H,
    comparison: &C,
    other_heuristic: &I,
    other_comparison: &D,
)
where
    Id: Ord,
    BinId: Ord,
    GroupId: Ord,
    H: Fn(WidthHeightDepth) -> u128,
    C: Fn([WidthHeightDepth; 3], [WidthHeightDepth; 3], &H) -> Ordering,
    I: Fn(WidthHeightDepth) -> u128,
    D: Fn([WidthHeightDepth; 3], [WidthHeightDepth; 3], &I) -> Ordering,
    // The only answer of the heuristic on a size is the rate of the heuristic of this name
    //   (`rate_of`).
    requires rates { (size : Size) (rate : ℕ) → MayRateBy H.Fn heuristic.now size rate →
        rate ≡ rate_of named size }
    // Each answer that the comparison may give is one that `contains_smallest_box` may give with
    //   this heuristic.
    requires smallest { (a b : List Size) (r : Ordering) →
        MayCompare C.Fn comparison.now heuristic.now a b r →
        IsSmallestOrder (H.post heuristic.now) a b r }
    // The only answer of the other heuristic on a size is the same rate.
    requires other_rates { (size : Size) (rate : ℕ) →
        MayRateBy I.Fn other_heuristic.now size rate →
        rate ≡ rate_of named size }
    // Each answer that the other comparison may give is one that `contains_smallest_box` may give
    //   with the other heuristic.
    requires other_smallest { (a b : List Size) (r : Ordering) →
        MayCompare D.Fn other_comparison.now other_heuristic.now a b r →
        IsSmallestOrder (I.post other_heuristic.now) a b r }
    // Two packings with these closures, of equal collections into equal bins, have one result, as
    //   `packing_has_one_result` says it.
    ensures closures { let groups = ⟦<Group<GroupId, Id> as Ord>⟧.cmp in
        let rules = rules_by Id.cmp BinId.cmp in
        let may = answers H.Fn C.Fn heuristic.now comparison.now in
        let other_may = answers I.Fn D.Fn other_heuristic.now other_comparison.now in
        (all others : Collection Id GroupId) (bins other_bins : List (BinId × Bin)) →
        AreCollectionsAlike groups Id.cmp all others →
        AreBinsAlike BinId.cmp bins other_bins →
        HaveOneResult groups (rules may) (rules other_may) all others bins other_bins }
    // A packing with the first two closures, and one with the heuristic of this name as
    //   `pack_rects_best` makes it, have one result in the same way.
    ensures by_name { let groups = ⟦<Group<GroupId, Id> as Ord>⟧.cmp in
        let rules = rules_by Id.cmp BinId.cmp (answers H.Fn C.Fn heuristic.now comparison.now) in
        (all others : Collection Id GroupId) (bins other_bins : List (BinId × Bin)) →
        AreCollectionsAlike groups Id.cmp all others →
        AreBinsAlike BinId.cmp bins other_bins →
        HaveOneResult groups rules (named_rules Id.cmp BinId.cmp named) all others bins
        other_bins }
{}

/// A law: where the heuristics of two packings have one answer on each size that may be rated, and
/// their comparisons are one total preorder on the cuts that may be met, the packings have one
/// result: of equal collections into equal bins both are done, with equal bins and placements, or
/// both are refused for space, with equal bins, unless one ends for want of memory.
pub fn packing_has_one_result<Id, BinId, GroupId, H, C, I, D>(
    heuristic: &H,
    comparison: &C,
    other_heuristic: &I,
    other_comparison: &D,
)
where
    Id: Ord,
    BinId: Ord,
    GroupId: Ord,
    H: Fn(WidthHeightDepth) -> u128,
    C: Fn([WidthHeightDepth; 3], [WidthHeightDepth; 3], &H) -> Ordering,
    I: Fn(WidthHeightDepth) -> u128,
    D: Fn([WidthHeightDepth; 3], [WidthHeightDepth; 3], &I) -> Ordering,
    // Two packings, each with its own closures, pack equal collections into equal bins. On each
    //   size that may be rated, the two heuristics together have at most one answer. On the cuts of
    //   each section that may be cut, round each box, all that the two comparisons may answer
    //   agrees with one total preorder. Then, if both are done, their bins and placements are
    //   equal; if both are refused for space, their bins are equal; and never is one done and the
    //   other refused for space. Bins are equal here where they have the same sizes and free
    //   sections under equal ids.
    ensures { let groups = ⟦<Group<GroupId, Id> as Ord>⟧.cmp in
        let rules = rules_by Id.cmp BinId.cmp in
        let may = answers H.Fn C.Fn heuristic.now comparison.now in
        let other_may = answers I.Fn D.Fn other_heuristic.now other_comparison.now in
        (all others : Collection Id GroupId) (bins other_bins : List (BinId × Bin)) →
        AreCollectionsAlike groups Id.cmp all others →
        AreBinsAlike BinId.cmp bins other_bins →
        ClosuresDecide (values_of all.sizes) (values_of bins) (either_of may other_may) →
        HaveOneResult groups (rules may) (rules other_may) all others bins other_bins }
{}

/// A law: a packing that is done keeps the cells of each bin whose free sections share no cell. The
/// bin's size stays, its free cells of before are its free cells of after and the cells of the
/// boxes placed in it, and no two of these share one.
pub fn packing_keeps_cells<Id: Ord, BinId: Ord, GroupId: Ord, H, C>(heuristic: &H, comparison: &C)
where
    H: Fn(WidthHeightDepth) -> u128,
    C: Fn([WidthHeightDepth; 3], [WidthHeightDepth; 3], &H) -> Ordering,
    // A packing with these closures is done. Then each bin whose free sections shared no cell is
    //   still there, in its size. A cell was in a free section of it exactly where it now is in a
    //   free section or in a box that was placed there, and no two of these share a cell. No bin is
    //   added.
    ensures closures { let groups = ⟦<Group<GroupId, Id> as Ord>⟧.cmp in
        let may = answers H.Fn C.Fn heuristic.now comparison.now in
        PackingsKeepCells groups (rules_by Id.cmp BinId.cmp may) }
    // The same is so of a packing with a heuristic that has a name, as `pack_rects_best` makes it.
    ensures by_name { let groups = ⟦<Group<GroupId, Id> as Ord>⟧.cmp in
        (named : Heuristic) → PackingsKeepCells groups (named_rules Id.cmp BinId.cmp named) }
{}

/// A law: where no two groups are excluded, a packing is one that excludes no bin, done or refused,
/// and makes as many fit tests.
pub fn packing_without_exclusions<Id: Ord, BinId: Ord, GroupId: Ord, H, C>(
    heuristic: &H,
    comparison: &C,
)
where
    H: Fn(WidthHeightDepth) -> u128,
    C: Fn([WidthHeightDepth; 3], [WidthHeightDepth; 3], &H) -> Ordering,
    // Where no two groups are excluded, a packing with these closures is done, with n fit tests,
    //   exactly where one that excludes no bin is done with the same bins, placements and n fit
    //   tests.
    // Where no two groups are excluded, such a packing is refused for space, with n fit tests,
    //   exactly where one that excludes no bin is refused with the same bins and n fit tests.
    ensures closures { let groups = ⟦<Group<GroupId, Id> as Ord>⟧.cmp in
        let may = answers H.Fn C.Fn heuristic.now comparison.now in
        PackingsExcludeNone groups (rules_by Id.cmp BinId.cmp may) }
    // The same is so of packings with a heuristic that has a name, as `pack_rects_best` makes them.
    ensures by_name { let groups = ⟦<Group<GroupId, Id> as Ord>⟧.cmp in
        (named : Heuristic) → PackingsExcludeNone groups (named_rules Id.cmp BinId.cmp named) }
{}

/// A law: a heuristic that has one answer on each size, and a comparison that is a total preorder
/// on all triples of sizes, decide each packing.
pub fn preorders_decide<H, C>(heuristic: &H, comparison: &C)
where
    H: Fn(WidthHeightDepth) -> u128,
    C: Fn([WidthHeightDepth; 3], [WidthHeightDepth; 3], &H) -> Ordering,
    requires one_rate { IsFunction (MayRateBy H.Fn heuristic.now) }
    // The comparison is a total preorder on all triples of sizes.
    requires preorder { IsTotalPreorder (MayCompare C.Fn comparison.now heuristic.now) }
    // For all boxes and bins, the heuristic then has at most one answer on each size that may be
    //   rated, and the comparison is a total preorder on the cuts of each section that may be cut,
    //   round each box (`ClosuresDecide`).
    ensures { (boxes : List Size) (bins : List Bin) →
        ClosuresDecide boxes bins (answers H.Fn C.Fn heuristic.now comparison.now) }
{}

/// A law: where the refused group has one entry, no free section of a bin that is not excluded for
/// it, as the groups before it left them, holds its box.
pub fn refused_box_is_held_nowhere<Id: Ord, BinId: Ord, GroupId: Ord, H, C>(
    heuristic: &H,
    comparison: &C,
)
where
    H: Fn(WidthHeightDepth) -> u128,
    C: Fn([WidthHeightDepth; 3], [WidthHeightDepth; 3], &H) -> Ordering,
    // A packing with these closures is refused for space at a group with one entry. Then, as the
    //   groups before it left the bins, no free section of a bin that is not excluded for the group
    //   holds its box.
    ensures closures { let groups = ⟦<Group<GroupId, Id> as Ord>⟧.cmp in
        let may = answers H.Fn C.Fn heuristic.now comparison.now in
        RefusedBoxesAreHeldNowhere groups (rules_by Id.cmp BinId.cmp may) }
    // The same is so of a packing with a heuristic that has a name, as `pack_rects_best` makes it.
    ensures by_name { let groups = ⟦<Group<GroupId, Id> as Ord>⟧.cmp in
        (named : Heuristic) →
        RefusedBoxesAreHeldNowhere groups (named_rules Id.cmp BinId.cmp named) }
{}

/// A law: with `volume_heuristic` and `contains_smallest_box`, or closures that answer as they do,
/// two packings have one result.
pub fn volume_packing_has_one_result<Id, BinId, GroupId, H, C, I, D>(
    heuristic: &H,
    comparison: &C,
    other_heuristic: &I,
    other_comparison: &D,
)
where
    Id: Ord,
    BinId: Ord,
    GroupId: Ord,
    H: Fn(WidthHeightDepth) -> u128,
    C: Fn([WidthHeightDepth; 3], [WidthHeightDepth; 3], &H) -> Ordering,
    I: Fn(WidthHeightDepth) -> u128,
    D: Fn([WidthHeightDepth; 3], [WidthHeightDepth; 3], &I) -> Ordering,
    // The only answer of the heuristic on a size is its volume.
    requires volume { (size : Size) (rate : ℕ) → MayRateBy H.Fn heuristic.now size rate →
        rate ≡ volume_of size }
    // Each answer that the comparison may give is one that `contains_smallest_box` may give with
    //   this heuristic.
    requires smallest { (a b : List Size) (r : Ordering) →
        MayCompare C.Fn comparison.now heuristic.now a b r →
        IsSmallestOrder (H.post heuristic.now) a b r }
    // The only answer of the other heuristic on a size is its volume.
    requires other_volume { (size : Size) (rate : ℕ) →
        MayRateBy I.Fn other_heuristic.now size rate →
        rate ≡ volume_of size }
    requires other_smallest { (a b : List Size) (r : Ordering) →
        MayCompare D.Fn other_comparison.now other_heuristic.now a b r →
        IsSmallestOrder (I.post other_heuristic.now) a b r }
    // Two packings with these closures, of equal collections into equal bins, have one result, as
    //   `packing_has_one_result` says it.
    ensures { let groups = ⟦<Group<GroupId, Id> as Ord>⟧.cmp in
        let rules = rules_by Id.cmp BinId.cmp in
        let may = answers H.Fn C.Fn heuristic.now comparison.now in
        let other_may = answers I.Fn D.Fn other_heuristic.now other_comparison.now in
        (all others : Collection Id GroupId) (bins other_bins : List (BinId × Bin)) →
        AreCollectionsAlike groups Id.cmp all others →
        AreBinsAlike BinId.cmp bins other_bins →
        HaveOneResult groups (rules may) (rules other_may) all others bins other_bins }
{}
