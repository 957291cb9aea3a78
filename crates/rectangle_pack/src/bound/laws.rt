//! Laws of packings as arrangements, and of the bins that they use.
ghost use Rattle.rectangle_pack_sections.specs.Closures.{answers};
ghost use Rattle.rectangle_pack_packing.specs.Best.{named_rules};
ghost use Rattle.rectangle_pack_packing.specs.Packing.{rules_by};
ghost use Rattle.rectangle_pack.specs.NeededLaws.{FewestBinsAreUsed, FittingsAreArrangements, KeptPackingsAreArrangements, PackingsAreArrangements};
ghost use Rattle.rectangle_pack.specs.NeededLaws.{OwnSizesAreWays, ToldFewestBinsAreUsed, ToldPackingsAreArrangements};

use rectangle_pack_sections::box_size_heuristics::Heuristic;
use rectangle_pack_sections::group::Group;
use rectangle_pack_sections::width_height_depth::WidthHeightDepth;
use std::cmp::Ordering;

/// A law: a packing that is done into sound bins is an arrangement of its collection, as
/// `least_bins` counts them.
pub fn packing_is_an_arrangement<Id: Ord, BinId: Ord, GroupId: Ord, H, C>(
    heuristic: &H,
    comparison: &C,
)
where
    H: Fn(WidthHeightDepth) -> u128,
    C: Fn([WidthHeightDepth; 3], [WidthHeightDepth; 3], &H) -> Ordering,
    // A packing with these closures is done, of a collection that lists no group twice, into bins
    //   whose free sections are inside them and share no cell. Then its placements have all entries
    //   of the collection, each once, in the size of its id, inside bins; no two share a cell, and
    //   groups that are excluded are in different bins.
    ensures closures { let groups = ⟦<Group<GroupId, Id> as Ord>⟧.cmp in
        let may = answers H.Fn C.Fn heuristic.now comparison.now in
        PackingsAreArrangements groups (rules_by Id.cmp BinId.cmp may) }
    // The same is so of a packing with a heuristic that has a name, as `pack_rects_best` makes it.
    ensures by_name { let groups = ⟦<Group<GroupId, Id> as Ord>⟧.cmp in
        (named : Heuristic) → PackingsAreArrangements groups (named_rules Id.cmp BinId.cmp named) }
{}

/// A law: what fits, where no group is left, is an arrangement of its collection.
pub fn fitting_is_an_arrangement<Id: Ord, BinId: Ord, GroupId: Ord, H, C>(
    heuristic: &H,
    comparison: &C,
)
where
    H: Fn(WidthHeightDepth) -> u128,
    C: Fn([WidthHeightDepth; 3], [WidthHeightDepth; 3], &H) -> Ordering,
    // With these closures all groups fit of a collection that lists no group twice, into bins whose
    //   free sections are inside them and share no cell. Then the placements are an arrangement of
    //   the collection, as `packing_is_an_arrangement` says it.
    ensures closures { let groups = ⟦<Group<GroupId, Id> as Ord>⟧.cmp in
        let may = answers H.Fn C.Fn heuristic.now comparison.now in
        FittingsAreArrangements groups (rules_by Id.cmp BinId.cmp may) }
    // The same is so of what fits with a heuristic that has a name, as `pack_rects_fitting_best`
    //   takes it.
    ensures by_name { let groups = ⟦<Group<GroupId, Id> as Ord>⟧.cmp in
        (named : Heuristic) → FittingsAreArrangements groups (named_rules Id.cmp BinId.cmp named) }
{}

/// A law: what a session packs and keeps is an arrangement of its collection.
pub fn kept_packing_is_an_arrangement<Id: Ord, BinId: Ord, GroupId: Ord, H, C>(
    heuristic: &H,
    comparison: &C,
)
where
    H: Fn(WidthHeightDepth) -> u128,
    C: Fn([WidthHeightDepth; 3], [WidthHeightDepth; 3], &H) -> Ordering,
    // A packing with these closures is done in a session and kept, of a collection that lists no
    //   group twice. Then its placements are an arrangement of the collection.
    ensures closures { let groups = ⟦<Group<GroupId, Id> as Ord>⟧.cmp in
        let may = answers H.Fn C.Fn heuristic.now comparison.now in
        KeptPackingsAreArrangements groups (rules_by Id.cmp BinId.cmp may) }
    // The same is so of a packing with a heuristic that has a name, as `Session::pack_best` makes
    //   it.
    ensures by_name { let groups = ⟦<Group<GroupId, Id> as Ord>⟧.cmp in
        (named : Heuristic) →
        KeptPackingsAreArrangements groups (named_rules Id.cmp BinId.cmp named) }
{}

/// A law: a packing that is done into sound bins, and uses no more of them than are needed, uses
/// the fewest bins: no packer places the collection into fewer.
pub fn fewest_bins_are_used<Id: Ord, BinId: Ord, GroupId: Ord, H, C>(heuristic: &H, comparison: &C)
where
    H: Fn(WidthHeightDepth) -> u128,
    C: Fn([WidthHeightDepth; 3], [WidthHeightDepth; 3], &H) -> Ordering,
    // A packing with these closures is done, as in `packing_is_an_arrangement`, and has boxes in no
    //   more bins than the collection needs, as `needed` of `least_bins` says it. Then it is an
    //   arrangement, and no arrangement of the collection uses fewer bins.
    ensures closures { let groups = ⟦<Group<GroupId, Id> as Ord>⟧.cmp in
        let may = answers H.Fn C.Fn heuristic.now comparison.now in
        FewestBinsAreUsed groups (rules_by Id.cmp BinId.cmp may) }
    // The same is so of a packing with a heuristic that has a name, as `pack_rects_best` makes it.
    ensures by_name { let groups = ⟦<Group<GroupId, Id> as Ord>⟧.cmp in
        (named : Heuristic) → FewestBinsAreUsed groups (named_rules Id.cmp BinId.cmp named) }
{}

/// A law: a packing as it is told whose steps name all groups is an arrangement of its collection,
/// where bins are sound.
pub fn told_packing_is_an_arrangement<Id: Ord, BinId: Ord, GroupId: Ord>()
where
    // A packing as it is told is done, and its steps name all groups of a collection that lists no
    //   group twice. Each box is packed in a size in which it may stand, into bins whose free
    //   sections are inside them and share no cell. Then the placements are an arrangement of the
    //   collection, as `packing_is_an_arrangement` says it, with boxes turned as they may be.
    ensures arranged { ToldPackingsAreArrangements ⟦<Group<GroupId, Id> as Ord>⟧.cmp Id.cmp BinId.cmp }
    // Each box may stand in its own size, in which `pack_rects_told` packs it, however it may be
    //   turned.
    ensures own_sizes { OwnSizesAreWays ⟦<Group<GroupId, Id> as Ord>⟧.cmp Id.cmp BinId.cmp }
{}

/// A law: a packing as it is told whose steps name all groups, and which uses no more bins than are
/// needed, uses the fewest bins: no packer places the collection into fewer.
pub fn told_fewest_bins_are_used<Id: Ord, BinId: Ord, GroupId: Ord>()
    // A packing as it is told is done, as in `told_packing_is_an_arrangement`, and has boxes in no
    //   more bins than the collection needs, as `needed` of `least_bins` says it. Then it is an
    //   arrangement, and no arrangement of the collection uses fewer bins.
    ensures { ToldFewestBinsAreUsed ⟦<Group<GroupId, Id> as Ord>⟧.cmp Id.cmp BinId.cmp }
{}
