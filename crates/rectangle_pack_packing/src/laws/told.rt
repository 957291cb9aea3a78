//! Laws of packings as they are told.
ghost use Rattle.std.specs.Prelude.{List};
ghost use Rattle.rectangle_pack_sections.specs.Bins.{Bin};
ghost use Rattle.rectangle_pack_sections.specs.Groups.{Collection};
ghost use Rattle.rectangle_pack_packing.specs.declared.pack.told.Step.{Step};
ghost use Rattle.rectangle_pack_packing.specs.ToldLaws.{FittingsCanBeTold, HaveOneTelling, PackingsCanBeTold, TellingsKeepApart, TellingsKeepCells, TellingsPlaceWhole};

use rectangle_pack_sections::group::Group;

/// A law: what fits with a heuristic that has a name can be told: each group that fits to the bin
/// that it went into, in the order in which they went there, with this heuristic.
pub fn fitting_can_be_told<Id: Ord, BinId: Ord, GroupId: Ord>()
    // With a heuristic that has a name, as `pack_rects_fitting_best` takes it, some groups fit, of a
    //   collection that lists no group twice, as each collection does. `homes` has the bin of each,
    //   the last one first. Read in order, each with this heuristic, they are the steps of a packing
    //   as it is told, which has the same placements and leaves the bins the same.
    ensures { FittingsCanBeTold ⟦<Group<GroupId, Id> as Ord>⟧.cmp Id.cmp BinId.cmp }
{}

/// A law: a packing that is done with a heuristic that has a name can be told: each group to the
/// bin that it went into, in the order in which they went there, with this heuristic.
pub fn packing_can_be_told<Id: Ord, BinId: Ord, GroupId: Ord>()
    // A packing is done with a heuristic that has a name, as `pack_rects_best` makes it, of a
    //   collection that lists no group twice, as each collection does. `homes` has the bin of each
    //   group, the last one first. Read in order, each with this heuristic, they are the steps of a
    //   packing as it is told, which has the same placements and leaves the bins the same.
    ensures { PackingsCanBeTold ⟦<Group<GroupId, Id> as Ord>⟧.cmp Id.cmp BinId.cmp }
{}

/// A law: no two groups that are excluded share a bin in a packing as it is told.
pub fn told_groups_are_apart<Id: Ord, BinId: Ord, GroupId: Ord>()
    // In a packing as it is told the steps of two groups that are excluded have different bins.
    ensures { TellingsKeepApart ⟦<Group<GroupId, Id> as Ord>⟧.cmp Id.cmp BinId.cmp }
{}

/// A law: a packing as it is told places the group of each step whole, in the bin of the step: one
/// placement for each entry, in the size of its id.
pub fn told_groups_are_placed_whole<Id: Ord, BinId: Ord, GroupId: Ord>()
    // In a packing as it is told the placements are those of the steps one after another. Of the
    //   group of each step every entry is placed once, in the size of its id, and all in the bin of
    //   the step.
    // No two steps name one group.
    ensures { TellingsPlaceWhole ⟦<Group<GroupId, Id> as Ord>⟧.cmp Id.cmp BinId.cmp }
{}

/// A law: a packing as it is told keeps the cells of each bin whose free sections share no cell, as
/// `packing_keeps_cells` says it.
pub fn told_packing_keeps_cells<Id: Ord, BinId: Ord, GroupId: Ord>()
    // In a packing as it is told each bin whose free sections shared no cell is still there, in its
    //   size. A cell was in a free section of it exactly where it now is in a free section or in a
    //   box that was placed there, and no two of these share a cell. No bin is added.
    ensures { TellingsKeepCells ⟦<Group<GroupId, Id> as Ord>⟧.cmp Id.cmp BinId.cmp }
{}

/// A law: a packing that is told the same steps again, of the same collection into the same bins,
/// ends the same, unless one of the two ends for want of memory.
pub fn told_packing_has_one_result<Id: Ord, BinId: Ord, GroupId: Ord>()
    // Two packings are told the same steps, of one collection and into the same bins. If both are
    //   done, their bins are the same, and so are their placements, one by one. If both are refused,
    //   they are at the same step, for the same reason. Never is one done and the other refused.
    ensures { (all : Collection Id GroupId) (steps : List (Step Id GroupId BinId)) →
        (bins : List (BinId × Bin)) →
        HaveOneTelling ⟦<Group<GroupId, Id> as Ord>⟧.cmp Id.cmp BinId.cmp all steps bins }
{}
