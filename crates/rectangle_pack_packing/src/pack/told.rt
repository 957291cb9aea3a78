//! Packing as it is told: step by step, each a group, a bin and a heuristic.
ghost use Rattle.std.specs.Prelude.{◌≡◌, List, [], min, IfOk, IsOk};
ghost use Rattle.rectangle_pack_sections.specs.Bins.{Bin, bins_of};
ghost use Rattle.rectangle_pack_sections.specs.Clones.{ClonesEqual};
ghost use Rattle.rectangle_pack_packing.specs.ToldTexts.{told_text};
ghost use Rattle.rectangle_pack_packing.specs.Told.{IsToldAnswer, ToldDone, entries_in_steps};
ghost use Rattle.rectangle_pack_packing.specs.private.ToldOnItsWay.{IsTold, IsTriedAsTold};

pub mod in_sizes;
mod telling;

use crate::answer::{Placement, RectanglePackOk, answer_of};
use crate::pack::told::in_sizes::InSizes;
use crate::pack::told::telling::{begin, ids_of, make_all};
use rectangle_pack_bins::target_bin::TargetBin;
use rectangle_pack_groups::grouped_rects_to_place::GroupedRectsToPlace;
use rectangle_pack_lists::free_list::End;
use rectangle_pack_sections::box_size_heuristics::Heuristic;
use rectangle_pack_sections::group::Group;
use std::alloc::{AllocError, Allocator};
use std::collections::BTreeMap;
use std::error::Error;
use std::{fmt, mem};

/// A step of a packing as it is told.
#[derive(Debug, PartialEq, Drop)]
pub struct Step<Id, GroupId, BinId> {
    /// The group, which goes whole into the bin.
    pub group: Group<GroupId, Id>,
    /// The id of the bin.
    pub bin: BinId,
    /// The heuristic by which sections are cut up, and the pieces put in order.
    pub heuristic: Heuristic,
}

/// Why a step is refused: the first of these that is so.
#[derive(Debug, Clone, Copy, PartialEq)]
pub enum StepFault {
    /// The group is not in the collection.
    UnknownGroup,
    /// There is no such bin.
    UnknownBin,
    /// An earlier step names the group.
    NamedTwice,
    /// A group that is excluded with this one went into the bin by an earlier step.
    Excluded,
    /// The bin does not take all boxes of the group.
    NoRoom,
}

/// Why a packing as it is told is refused. All is then as it was before.
#[derive(Debug, Clone, Copy, PartialEq)]
pub enum ToldError {
    /// The step at this index is refused, for this reason.
    StepRefused(usize, StepFault),
    /// The numbers of the placements would reach the greatest `u64`, which is never given. Only a
    /// session answers so.
    NumbersUsedUp,
    /// A growth or a clone was refused.
    OutOfMemory,
}

impl ToldError {
    // The text that it prints.
    fn text(&self) -> &'static str
        ensures { result.now ≡ told_text self.now }
    {
        match self {
            ToldError::StepRefused(_, StepFault::UnknownGroup) => {
                "A step names a group that is not in the collection."
            }
            ToldError::StepRefused(_, StepFault::UnknownBin) => {
                "A step names a bin that is not there."
            }
            ToldError::StepRefused(_, StepFault::NamedTwice) => "Two steps name one group.",
            ToldError::StepRefused(_, StepFault::Excluded) => {
                "A step puts a group into a bin that is excluded for it."
            }
            ToldError::StepRefused(_, StepFault::NoRoom) => {
                "The bin of a step does not take all boxes of its group."
            }
            ToldError::NumbersUsedUp => "The numbers of placements are used up.",
            ToldError::OutOfMemory => "Out of memory.",
        }
    }
}

impl fmt::Display for ToldError {
    ghost use Rattle.std.specs.Prelude.{Some};
    ghost use Rattle.rectangle_pack_packing.specs.ToldTexts.{told_text};

    // What is printed is the text that `told_text` lists for the error, such as "Two steps name one
    //   group." for `NamedTwice`.
    ghost output = { λ e. Some (told_text e) };

    fn fmt<W: fmt::Write>(&self, f: &mut fmt::Formatter<W>) -> fmt::Result {
        write!(f, "{}", self.text())
    }
}

impl Error for ToldError {}

impl From<AllocError> for ToldError {
    ghost use Rattle.std.specs.Prelude.{◌≡◌};
    ghost use Rattle.rectangle_pack_packing.specs.declared.pack.told.ToldError.TheVariants.{OutOfMemory};

    // The error is `OutOfMemory`.
    ghost from_gives = { λ e error. error ≡ OutOfMemory };

    fn from(_: AllocError) -> Self {
        ToldError::OutOfMemory
    }
}

/// How many entries the groups have that the steps name, one after another; at most the greatest
/// `u64`.
pub fn entries_named<Id, GroupId, BinId, A>(
    groups: &GroupedRectsToPlace<Id, GroupId, A>,
    steps: &[Step<Id, GroupId, BinId>],
) -> u64
where
    Id: Ord + Clone + Drop,
    GroupId: Ord + Clone + Drop,
    A: Allocator + Copy,
    ensures { result ≡ min (entries_in_steps ⟦<Group<GroupId, Id> as Ord>⟧.cmp groups.now steps.now)
        18446744073709551615 }
{
    let mut entries = 0u64;
    for step in steps {
        if let Some(ids) = groups.groups().get(&step.group) {
            entries = entries.saturating_add(ids.len() as u64);
        }
    }
    entries
}

/// Packs as it is told, each box in the size that it has in `collection`; the placements, and where
/// it `finds` them the last of each id. Where it is not done the bins are as they were. Room is made
/// for `entries` entries.
pub fn try_told_in_sizes<'t, Id, BinId, GroupId, A>(
    alloc: A,
    collection: &InSizes<'t, Id, GroupId, A>,
    bins: &mut BTreeMap<BinId, TargetBin<A>, A>,
    entries: usize,
    steps: &'t [Step<Id, GroupId, BinId>],
    finds: bool,
) -> Result<RectanglePackOk<Id, BinId, A>, ToldError>
where
    Id: Ord + Clone + Drop,
    BinId: Ord + Clone + Drop,
    GroupId: Ord + Clone + Drop,
    A: Allocator + Copy,
    requires ids { ClonesEqual Id.is_clone Id.eq }
    requires bin_ids { ClonesEqual BinId.is_clone BinId.eq }
    ensures { IsTold ⟦<Group<GroupId, Id> as Ord>⟧.cmp Id.cmp BinId.cmp collection.now steps.now
        (bins_of bins.old.entries) finds result (bins_of bins.new.entries) }
{
    let ids = ids_of(alloc, bins)?;
    let before = mem::replace(bins, BTreeMap::new(alloc));
    let mut telling = begin(alloc, collection, before, ids.as_slice(), entries);
    let told = make_all(&mut telling, steps);
    let last = telling.last(alloc, told, finds);
    let (after, placements) = telling.end(if last.is_ok() { End::Keep } else { End::Undo });
    *bins = after;
    Ok(answer_of(last?, placements))
}

/// What would be packed as it is told, each box in the size that it has in `collection`: the
/// placements. The bins stay as they are. Room is made for `entries` entries.
pub fn rehearse<'t, Id, BinId, GroupId, A>(
    alloc: A,
    collection: &InSizes<'t, Id, GroupId, A>,
    bins: &mut BTreeMap<BinId, TargetBin<A>, A>,
    entries: usize,
    steps: &'t [Step<Id, GroupId, BinId>],
) -> Result<Vec<Placement<Id, BinId>, A>, ToldError>
where
    Id: Ord + Clone + Drop,
    BinId: Ord + Clone + Drop,
    GroupId: Ord + Clone + Drop,
    A: Allocator + Copy,
    requires ids { ClonesEqual Id.is_clone Id.eq }
    requires bin_ids { ClonesEqual BinId.is_clone BinId.eq }
    ensures told { IfOk result
        (λ placements.
        (left : List (BinId × Bin)) ×
        ToldDone ⟦<Group<GroupId, Id> as Ord>⟧.cmp Id.cmp BinId.cmp collection.now steps.now
        (bins_of bins.old.entries) placements.items left) }
    ensures same { bins_of bins.new.entries ≡ bins_of bins.old.entries }
{
    let ids = ids_of(alloc, bins)?;
    let before = mem::replace(bins, BTreeMap::new(alloc));
    let mut telling = begin(alloc, collection, before, ids.as_slice(), entries);
    let told = make_all(&mut telling, steps);
    let (after, placements) = telling.end(End::Undo);
    *bins = after;
    told?;
    Ok(placements)
}

// The same as `try_told_in_sizes`, each box in its own size.
fn tell<Id, BinId, GroupId, A>(
    alloc: A,
    groups: &GroupedRectsToPlace<Id, GroupId, A>,
    bins: &mut BTreeMap<BinId, TargetBin<A>, A>,
    entries: usize,
    steps: &[Step<Id, GroupId, BinId>],
    finds: bool,
) -> Result<RectanglePackOk<Id, BinId, A>, ToldError>
where
    Id: Ord + Clone + Drop,
    BinId: Ord + Clone + Drop,
    GroupId: Ord + Clone + Drop,
    A: Allocator + Copy,
    requires ids { ClonesEqual Id.is_clone Id.eq }
    requires bin_ids { ClonesEqual BinId.is_clone BinId.eq }
    ensures { IsTold ⟦<Group<GroupId, Id> as Ord>⟧.cmp Id.cmp BinId.cmp groups.now steps.now
        (bins_of bins.old.entries) finds result (bins_of bins.new.entries) }
{
    let collection = InSizes::own(groups);
    try_told_in_sizes(alloc, &collection, bins, entries, steps, finds)
}

/// Packs as it is told; the placements. Where it is not done the bins are as they were. Room is made
/// for `entries` entries.
pub fn try_told<Id, BinId, GroupId, A>(
    alloc: A,
    groups: &GroupedRectsToPlace<Id, GroupId, A>,
    bins: &mut BTreeMap<BinId, TargetBin<A>, A>,
    entries: usize,
    steps: &[Step<Id, GroupId, BinId>],
) -> Result<Vec<Placement<Id, BinId>, A>, ToldError>
where
    Id: Ord + Clone + Drop,
    BinId: Ord + Clone + Drop,
    GroupId: Ord + Clone + Drop,
    A: Allocator + Copy,
    requires ids { ClonesEqual Id.is_clone Id.eq }
    requires bin_ids { ClonesEqual BinId.is_clone BinId.eq }
    ensures told { IsTriedAsTold ⟦<Group<GroupId, Id> as Ord>⟧.cmp Id.cmp BinId.cmp groups.now
        steps.now (bins_of bins.old.entries) result (bins_of bins.new.entries) }
{
    let told = tell(alloc, groups, bins, entries, steps, false)?;
    Ok(told.into_placements())
}

/// Packs as it is told: step by step each group goes whole into the bin of its step, by one trial
/// with the heuristic of the step and `contains_smallest_box`. Groups that no step names stay out.
/// A step may come from anyone: an optimiser, a person, a plan that was saved.
///
/// The caller sees to it that clones of ids equal their originals. `StepRefused` names the first
/// step that cannot be done, and why. `OutOfMemory` may come before. On each error the bins are as
/// they were.
pub fn pack_rects_told<Id, BinId, GroupId, A>(
    alloc: A,
    rects_to_place: &GroupedRectsToPlace<Id, GroupId, A>,
    target_bins: &mut BTreeMap<BinId, TargetBin<A>, A>,
    steps: &[Step<Id, GroupId, BinId>],
) -> Result<RectanglePackOk<Id, BinId, A>, ToldError>
where
    Id: Ord + Clone + Drop,
    BinId: Ord + Clone + Drop,
    GroupId: Ord + Clone + Drop,
    A: Allocator + Copy,
    requires ids { ClonesEqual Id.is_clone Id.eq }
    requires bin_ids { ClonesEqual BinId.is_clone BinId.eq }
    // Done: for each step in turn, its group is in the collection, no earlier step names it, and it
    //   goes whole into the bin of the step, which is there and is not excluded for it: its trial
    //   there is done, as `pack_rects` says it, with the heuristic of the step and
    //   `contains_smallest_box`, in the bins as the steps before it left them.
    //   [place.step_goes_into_the_first_bin, look_up.group_is_named_twice]
    // Done: the placements are those of the steps one after another. Each id that was placed is found
    //   with its last placement.
    // `StepRefused`: the steps before the one at this index are done, and the fault is the first of
    //   these that is so of it: its group is not in the collection; its bin is not there; an earlier
    //   step names its group; a group that is excluded with its group went into its bin by an earlier
    //   step; the trial of its group is stuck in its bin. The bins are as they were.
    //   [try_told_in_sizes.refused_steps_stay]
    // `OutOfMemory`: the bins are as they were, the order of their lists included. No other error is
    //   answered.
    ensures answer { IsToldAnswer ⟦<Group<GroupId, Id> as Ord>⟧.cmp Id.cmp BinId.cmp
        rects_to_place.now steps.now (bins_of target_bins.old.entries) result
        (bins_of target_bins.new.entries) }
    // Without steps it succeeds.
    ensures no_steps { steps.now ≡ [] → IsOk result }
{
    if steps.is_empty() {
        return Ok(answer_of(BTreeMap::new(alloc), Vec::new(alloc)));
    }
    let entries = entries_named(rects_to_place, steps) as usize;
    tell(alloc, rects_to_place, target_bins, entries, steps, true)
}
