//! Placing what is found, or the best that a heuristic alone finds.
ghost use Rattle.std.specs.Prelude.{◌≡◌, ◌↔◌, true, IfOk, IfSome, MatchOption};
ghost use Rattle.std.specs.List.Sorted.{IsStrictlySortedBy};
ghost use Rattle.std.specs.Map.{keys_of};
ghost use Rattle.rectangle_pack_sections.specs.Bins.{bins_of};
ghost use Rattle.rectangle_pack_sections.specs.Clones.{ClonesEqual};
ghost use Rattle.rectangle_pack_sections.specs.Groups.{MembersHaveSizes};
ghost use Rattle.rectangle_pack_sections.specs.declared.group.Group.{Group};
ghost use Rattle.rectangle_pack_packing.specs.Fitting.{names_left};
ghost use Rattle.rectangle_pack_packing.specs.private.Excluded.{are_in};
ghost use Rattle.rectangle_pack.specs.NeededLaws.{AreWaysOf};
ghost use Rattle.rectangle_pack.specs.Searched.{AreNotNamed, IsBetterOutlay, is_named};
ghost use Rattle.rectangle_pack.specs.private.Searched.{AreSettled, IsBestGuess};
ghost use Rattle.rectangle_pack.specs.private.Searched.{IsRehearsed, IsToldAgain};

use crate::searching::guess::leaves_too_many;
use crate::searching::options::SearchOptions;
use crate::searching::outlay::{Outlay, outlay_of};
use crate::searching::proposal::Proposal;
use rectangle_pack_bins::target_bin::TargetBin;
use rectangle_pack_groups::grouped_rects_to_place::GroupedRectsToPlace;
use rectangle_pack_packing::answer::{Fitted, RectanglePackOk};
use rectangle_pack_packing::pack::fitting::fit_by;
use rectangle_pack_packing::pack::told::in_sizes::InSizes;
use rectangle_pack_packing::pack::told::{
    Step, ToldError, entries_named, rehearse, try_told_in_sizes,
};
use rectangle_pack_sections::box_size_heuristics::Heuristic;
use rectangle_pack_sections::closures::Named;
use rectangle_pack_sections::group::Group;
use std::alloc::{AllocError, Allocator};
use std::collections::{BTreeMap, BTreeSet};

/// A proposal that was rehearsed.
#[derive(Drop)]
pub(crate) struct Rehearsed<'a, Id: Ord, GroupId, BinId, A: Allocator + Copy> {
    /// What is proposed.
    pub proposal: Proposal<Id, GroupId, BinId, A>,
    /// The groups that no step names.
    pub left: Vec<&'a Group<GroupId, Id>, A>,
    /// The outlay of the packing.
    pub outlay: Outlay,
}

/// A packing that is kept.
#[derive(Drop)]
pub(crate) struct Settled<'a, Id: Ord, GroupId, BinId, A: Allocator + Copy> {
    /// What was placed.
    pub packed: RectanglePackOk<Id, BinId, A>,
    /// The groups that are left.
    pub left: Vec<&'a Group<GroupId, Id>, A>,
    /// How many bins have a box.
    pub used: usize,
}

// The groups that the steps name.
fn named_by<'s, Id, GroupId, BinId, A>(
    alloc: A,
    steps: &'s [Step<Id, GroupId, BinId>],
) -> Result<BTreeSet<&'s Group<GroupId, Id>, A>, AllocError>
where
    Id: Ord,
    GroupId: Ord,
    A: Allocator + Copy,
    ensures { IfOk result
        (λ names. let order = ⟦<Group<GroupId, Id> as Ord>⟧.cmp in
        (name : Group GroupId Id) → are_in order names.keys name ≡ is_named order steps.now name) }
{
    let mut names = BTreeSet::new(alloc);
    for step in steps {
        names.insert(&step.group)?;
    }
    Ok(names)
}

// The groups that no step names, in order.
fn not_named<'a, Id, GroupId, BinId, A>(
    alloc: A,
    groups: &'a GroupedRectsToPlace<Id, GroupId, A>,
    steps: &[Step<Id, GroupId, BinId>],
) -> Result<Vec<&'a Group<GroupId, Id>, A>, AllocError>
where
    Id: Ord + Clone + Drop,
    GroupId: Ord + Clone + Drop,
    A: Allocator + Copy,
    ensures { IfOk result
        (λ left. AreNotNamed ⟦<Group<GroupId, Id> as Ord>⟧.cmp groups.now steps.now
        (names_left left)) }
{
    let names = named_by(alloc, steps)?;
    let mut left = Vec::new(alloc);
    for (name, _) in groups.groups() {
        if !names.contains(&name) {
            left.push(name)?;
        }
    }
    Ok(left)
}

/// What a proposal comes to, where it can be packed so and leaves nothing that may not be left.
/// Fails only when memory is refused. The bins stay as they are. Room is made for so many entries.
pub(crate) fn rehearsal_of<'a, Id, BinId, GroupId, A>(
    alloc: A,
    groups: &'a GroupedRectsToPlace<Id, GroupId, A>,
    bins: &mut BTreeMap<BinId, TargetBin<A>, A>,
    entries: usize,
    options: &SearchOptions<'_, Id, BinId, A>,
    proposal: Proposal<Id, GroupId, BinId, A>,
) -> Result<Option<Rehearsed<'a, Id, GroupId, BinId, A>>, AllocError>
where
    Id: Ord + Clone + Drop,
    BinId: Ord + Clone + Drop,
    GroupId: Ord + Clone + Drop,
    A: Allocator + Copy,
    requires ids { ClonesEqual Id.is_clone Id.eq }
    requires bin_ids { ClonesEqual BinId.is_clone BinId.eq }
    requires ways { AreWaysOf Id.cmp groups.now options.now.turns.now.entries
        proposal.sizes.entries }
    requires sized { MembersHaveSizes Id.cmp proposal.sizes.entries groups.now.groups }
    ensures found { IfOk result
        (λ found. IfSome found
        (λ it. IsRehearsed ⟦<Group<GroupId, Id> as Ord>⟧.cmp Id.cmp BinId.cmp groups.now
        options.now.may_leave options.now.turns.now.entries options.now.costs.now.entries
        it.proposal.sizes.entries it.proposal.steps.items (bins_of bins.old.entries)
        (names_left it.left) it.outlay)) }
    ensures sized { IfOk result
        (λ found. IfSome found
        (λ it. MembersHaveSizes Id.cmp it.proposal.sizes.entries groups.now.groups)) }
    ensures same { bins_of bins.new.entries ≡ bins_of bins.old.entries }
{
    let left = not_named(alloc, groups, proposal.steps.as_slice())?;
    if leaves_too_many(options.may_leave, left.as_slice()) {
        return Ok(None);
    }
    let collection = InSizes::new(groups, &proposal.sizes);
    let steps = proposal.steps.as_slice();
    let placements = match rehearse(alloc, &collection, bins, entries, steps) {
        Ok(placements) => placements,
        Err(ToldError::OutOfMemory) => return Err(AllocError),
        Err(_) => return Ok(None),
    };
    let placed = placements.as_slice();
    let outlay = outlay_of(alloc, groups, bins, options.costs, placed, left.as_slice())?;
    Ok(Some(Rehearsed {
        proposal,
        left,
        outlay,
    }))
}

// Packs a proposal that was rehearsed, and keeps it. Where memory is refused the bins are as they
// were.
fn keep_rehearsed<'a, Id, BinId, GroupId, A>(
    alloc: A,
    groups: &'a GroupedRectsToPlace<Id, GroupId, A>,
    bins: &mut BTreeMap<BinId, TargetBin<A>, A>,
    found: Rehearsed<'a, Id, GroupId, BinId, A>,
) -> Result<Settled<'a, Id, GroupId, BinId, A>, AllocError>
where
    Id: Ord + Clone + Drop,
    BinId: Ord + Clone + Drop,
    GroupId: Ord + Clone + Drop,
    A: Allocator + Copy,
    requires ids { ClonesEqual Id.is_clone Id.eq }
    requires bin_ids { ClonesEqual BinId.is_clone BinId.eq }
    requires sized { MembersHaveSizes Id.cmp found.proposal.sizes.entries groups.now.groups }
    ensures { IsToldAgain ⟦<Group<GroupId, Id> as Ord>⟧.cmp Id.cmp BinId.cmp groups.now found.entry
        (bins_of bins.old.entries) result (bins_of bins.new.entries) }
{
    let Rehearsed {
        proposal,
        left,
        outlay,
    } = found;
    let steps = proposal.steps.as_slice();
    let entries = entries_named(groups, steps) as usize;
    let collection = InSizes::new(groups, &proposal.sizes);
    match try_told_in_sizes(alloc, &collection, bins, entries, steps, true) {
        Ok(packed) => Ok(Settled {
            packed,
            left,
            used: outlay.used,
        }),
        // No step is refused, as it was rehearsed.
        Err(_) => Err(AllocError),
    }
}

/// Packs the proposal where it was rehearsed and is better than the guess, else what fits with the
/// heuristic of the guess, and keeps it; `None` where there is neither. Fails only when memory is
/// refused; the bins are then as they were.
pub(crate) fn settle<'a, Id, BinId, GroupId, A>(
    alloc: A,
    groups: &'a GroupedRectsToPlace<Id, GroupId, A>,
    bins: &mut BTreeMap<BinId, TargetBin<A>, A>,
    options: &SearchOptions<'_, Id, BinId, A>,
    guess: Option<(Heuristic, Outlay)>,
    found: Option<Rehearsed<'a, Id, GroupId, BinId, A>>,
) -> Result<Option<Settled<'a, Id, GroupId, BinId, A>>, AllocError>
where
    Id: Ord + Clone + Drop,
    BinId: Ord + Clone + Drop,
    GroupId: Ord + Clone + Drop,
    A: Allocator + Copy,
    requires ids { ClonesEqual Id.is_clone Id.eq }
    requires bin_ids { ClonesEqual BinId.is_clone BinId.eq }
    requires ascend { IsStrictlySortedBy ⟦<Group<GroupId, Id> as Ord>⟧.cmp
        (keys_of groups.now.groups) }
    requires guess { IsBestGuess ⟦<Group<GroupId, Id> as Ord>⟧.cmp Id.cmp BinId.cmp groups.now
        options.now.may_leave options.now.costs.now.entries (bins_of bins.old.entries)
        Heuristic.ALL guess }
    requires found { IfSome found
        (λ it. IsRehearsed ⟦<Group<GroupId, Id> as Ord>⟧.cmp Id.cmp BinId.cmp groups.now
        options.now.may_leave options.now.turns.now.entries options.now.costs.now.entries
        it.proposal.sizes.entries it.proposal.steps.items (bins_of bins.old.entries)
        (names_left it.left) it.outlay) }
    requires sized { IfSome found
        (λ it. MembersHaveSizes Id.cmp it.proposal.sizes.entries groups.now.groups) }
    ensures { AreSettled ⟦<Group<GroupId, Id> as Ord>⟧.cmp Id.cmp BinId.cmp groups.now
        options.now.may_leave options.now.turns.now.entries options.now.costs.now.entries
        (bins_of bins.old.entries) result (bins_of bins.new.entries) }
{
    if let Some(found) = found {
        if is_first_or_better(&guess, &found.outlay) {
            return Ok(Some(keep_rehearsed(alloc, groups, bins, found)?));
        }
    }
    let Some((heuristic, outlay)) = guess else {
        return Ok(None);
    };
    let Fitted { packed, left } = fit_by(alloc, groups, bins, &Named(heuristic))?;
    Ok(Some(Settled {
        packed,
        left,
        used: outlay.used,
    }))
}

// Whether there is no guess, or one that this is better than.
fn is_first_or_better(guess: &Option<(Heuristic, Outlay)>, outlay: &Outlay) -> bool
    ensures { (result ≡ true) ↔
        MatchOption guess.now (Unit {0}) (λ best. IsBetterOutlay outlay.now best.1) }
{
    match guess {
        Some((_, best)) => outlay.is_better(best),
        None => true,
    }
}
