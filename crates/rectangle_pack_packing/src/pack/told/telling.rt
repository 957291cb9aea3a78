//! A packing as it is told, on its way.
ghost use Rattle.std.specs.Prelude.{◌≡◌, All, map, true, false, IfOk, IsSome, MatchOption, Ok, Err};
ghost use Rattle.std.specs.BTreeMap.{get, is_at};
ghost use Rattle.std.specs.List.Sorted.{IsStrictlySortedBy};
ghost use Rattle.std.specs.Result.{MatchResult};
ghost use Rattle.rectangle_pack_sections.specs.Bins.{bins_of};
ghost use Rattle.rectangle_pack_sections.specs.Clones.{ClonesEqual};
ghost use Rattle.rectangle_pack_packing.specs.Placed.{AreLastPlacements};
ghost use Rattle.rectangle_pack_packing.specs.declared.pack.told.ToldError.{ToldError as ToldErrorValue};
ghost use Rattle.rectangle_pack_packing.specs.declared.pack.told.ToldError.TheVariants.{OutOfMemory};
ghost use Rattle.rectangle_pack_packing.specs.private.BinsAtWork.{left_of};
ghost use Rattle.rectangle_pack_packing.specs.private.ToldOnItsWay.{NamesAllBins, IsIndexOf, MayBeTried, HasNoHome, AreHomesNamed, IsLookedUp, IsTrialMade};
ghost use Rattle.rectangle_pack_packing.specs.private.ToldOnItsWay.{IsStepMade, IsSameTelling, IsToldBegun, AreStepsMade, collection_of};

use crate::answer::{Placement, last_placements, name_all};
use crate::bins_at_work::BinsAtWork;
use crate::homes::Homes;
use crate::order::add_sizes;
use crate::pack::told::in_sizes::InSizes;
use crate::pack::told::{Step, StepFault, ToldError};
use rectangle_pack_bins::target_bin::TargetBin;
use rectangle_pack_lists::free_list::End;
use rectangle_pack_sections::box_size_heuristics::Heuristic;
use rectangle_pack_sections::closures::Named;
use rectangle_pack_sections::group::Group;
use rectangle_pack_sections::packed_location::PackedLocation;
use rectangle_pack_sections::rect_to_insert::RectToInsert;
use std::alloc::{AllocError, Allocator};
use std::collections::{BTreeMap, BTreeSet};
use std::marker::Model;

// The ids of the bins in their order, each with the rate 0: as an order of bins, in which each is
// found by its id.
pub(crate) fn ids_of<B, A>(
    alloc: A,
    bins: &BTreeMap<B, TargetBin<A>, A>,
) -> Result<Vec<(u128, B), A>, AllocError>
where
    B: Ord + Clone + Drop,
    A: Allocator + Copy,
    requires bin_ids { ClonesEqual B.is_clone B.eq }
    ensures found { IfOk result (λ v. All (λ o. IsSome (get B.cmp bins.now o.1)) v.items) }
    ensures rising { IfOk result (λ v. IsStrictlySortedBy B.cmp (map (λ o. o.1) v.items)) }
    ensures all { IfOk result
        (λ v. NamesAllBins B.cmp v.items (bins_of bins.now.entries)) }
{
    let mut ids = Vec::with_capacity(alloc, bins.len())?;
    for (id, _) in bins {
        ids.push((0, id.clone()?))?;
    }
    Ok(ids)
}

// At which index this bin stands among ids that rise.
fn index_of<B: Ord>(ids: &[(u128, B)], bin: &B) -> Option<usize>
    requires { IsStrictlySortedBy B.cmp (map (λ o. o.1) ids.now) }
    ensures { MatchOption result
        (All (λ o. is_at (B.cmp bin.now) o.1 ≡ false) ids.now)
        (IsIndexOf B.cmp ids.now bin.now) }
{
    ids.binary_search_by(|(_, id)| id.cmp(bin)).ok()
}

// A packing as it is told, on its way: its bins, which stand in the order of their ids, what the
// steps so far placed, and the groups that they named.
#[derive(Drop)]
pub(crate) struct Telling<'t, 'b, Id: Ord + Clone, K: Ord, B: Ord + Clone, A: Allocator + Copy> {
    rects: &'t BTreeMap<Id, RectToInsert, A>,
    lists: &'t BTreeMap<K, Vec<Id, A>, A>,
    bins: BinsAtWork<'b, B, A>,
    homes: Homes<'t, 't, K, B, A>,
    named: BTreeSet<&'t K, A>,
    placements: Vec<Placement<Id, B>, A>,
    // What one step after another writes.
    sizes: Vec<RectToInsert, A>,
    locations: Vec<PackedLocation, A>,
}

// Clones of ids equal their originals, each member of a group has a size, and the ids of the bins
// rise.
impl<'t, 'b, Id: Ord + Clone, K: Ord, B: Ord + Clone, A: Allocator + Copy> Model
    for Telling<'t, 'b, Id, K, B, A> {
    ghost use Rattle.std.specs.Prelude.{map};
    ghost use Rattle.std.specs.List.Sorted.{IsStrictlySortedBy};
    ghost use Rattle.rectangle_pack_sections.specs.Clones.{ClonesEqual};
    ghost use Rattle.rectangle_pack_sections.specs.Groups.{MembersHaveSizes, lists_of};
    ghost use Rattle.rectangle_pack_packing.specs.private.ToldOnItsWay.{ToldOnItsWay, CanBeTold};

    ghost Value = { ToldOnItsWay Id K B };

    ghost view = { λ t. record {
      sizes = t.rects.now.entries;
      lists = lists_of t.lists.now.entries;
      bins = t.bins;
      homes = t.homes;
      named = t.named.keys;
      placements = t.placements.items;
    } };

    ghost invariant = { λ t. CanBeTold (ClonesEqual Id.is_clone Id.eq) (ClonesEqual B.is_clone B.eq)
        (MembersHaveSizes Id.cmp t.rects.now.entries (lists_of t.lists.now.entries))
        (IsStrictlySortedBy B.cmp (map (λ o. o.1) t.bins.order)) };
}

impl<'t, 'b, Id, K, B, A> Telling<'t, 'b, Id, K, B, A>
where
    Id: Ord + Clone + Drop,
    K: Ord,
    B: Ord + Clone + Drop,
    A: Allocator + Copy,
{
    // The ids of this group, and the index of this bin; or why a step with them is refused before
    // its trial. Fails only when memory is refused.
    fn look_up(
        &self,
        group: &'t K,
        bin: &'t B,
    ) -> Result<Result<(&'t [Id], usize), StepFault>, AllocError>
        ensures { IfOk result (IsLookedUp K.cmp Id.cmp B.cmp group.now bin.now self.now) }
    {
        let Some(ids) = self.lists.get(group) else {
            return Ok(Err(StepFault::UnknownGroup));
        };
        let Some(index) = index_of(self.bins.order(), bin) else {
            return Ok(Err(StepFault::UnknownBin));
        };
        if self.named.contains(&group) {
            return Ok(Err(StepFault::NamedTwice));
        }
        if self.homes.excluded_bins(group)?.has(bin) {
            return Ok(Err(StepFault::Excluded));
        }
        Ok(Ok((ids.as_slice(), index)))
    }

    // One trial of a group of these ids in the bin at this index; whether it is done. Fails only
    // when memory is refused.
    fn place(
        &mut self,
        group: &'t K,
        bin: &'t B,
        ids: &[Id],
        index: usize,
        heuristic: Heuristic,
    ) -> Result<bool, AllocError>
        requires free { MayBeTried K.cmp B.cmp self.old group.now bin.now ids.now index }
        requires homeless { HasNoHome K.cmp B.cmp self.old group.now }
        ensures made { IfOk result
            (λ done. IsTrialMade K.cmp Id.cmp B.cmp group.now bin.now heuristic self.old done self.new) }
        ensures same { IsSameTelling self.old self.new }
    {
        self.sizes.clear();
        add_sizes(&mut self.sizes, ids, self.rects)?;
        let sizes = self.sizes.as_slice();
        let policy = Named(heuristic);
        let trial = self
            .bins
            .run_trial(index, sizes, &policy, &mut self.locations)?;
        if trial.is_done {
            name_all(&mut self.placements, ids, bin, self.locations.as_slice())?;
            self.homes.keep(group, bin)?;
            self.named.insert(group)?;
        }
        Ok(trial.is_done)
    }

    // Makes one step; why it is refused, where it is. Fails only when memory is refused.
    fn make(
        &mut self,
        group: &'t K,
        bin: &'t B,
        heuristic: Heuristic,
    ) -> Result<Option<StepFault>, AllocError>
        requires { AreHomesNamed K.cmp B.cmp self.old }
        ensures made { IfOk result
            (λ fault. IsStepMade K.cmp Id.cmp B.cmp group.now bin.now heuristic self.old fault self.new) }
        ensures same { IsSameTelling self.old self.new }
    {
        match self.look_up(group, bin)? {
            Err(fault) => Ok(Some(fault)),
            Ok((ids, index)) => {
                let is_done = self.place(group, bin, ids, index, heuristic)?;
                Ok(if is_done {
                    None
                } else {
                    Some(StepFault::NoRoom)
                })
            }
        }
    }

    // Where the steps were `told` without an error, and it `finds` it, where each id was placed last.
    // Fails also when memory is refused.
    pub(crate) fn last(
        &self,
        alloc: A,
        told: Result<(), ToldError>,
        finds: bool,
    ) -> Result<BTreeMap<Id, (B, PackedLocation), A>, ToldError>
        ensures refused { (error : ToldErrorValue) → told ≡ Err error → result ≡ Err error }
        ensures last { told ≡ Ok tt → MatchResult result
            (λ m. finds ≡ true → AreLastPlacements Id.cmp B.cmp self.now.placements m.entries)
            (λ error. error ≡ OutOfMemory) }
    {
        told?;
        if !finds {
            return Ok(BTreeMap::new(alloc));
        }
        Ok(last_placements(alloc, self.placements.as_slice())?)
    }

    // The bins at the end, and what was placed. Takes no memory.
    pub(crate) fn end(self, end: End) -> (BTreeMap<B, TargetBin<A>, A>, Vec<Placement<Id, B>, A>)
        ensures bins { bins_of result.0.entries ≡ left_of end self.entry.bins }
        ensures placements { result.1.items ≡ self.entry.placements }
    {
        let Telling {
            bins,
            placements,
            ..
        } = self;
        (bins.end(end), placements)
    }
}

// A packing of this collection, in which there will be `entries` entries, into bins of these ids,
// before its first step. Takes no memory.
pub(crate) fn begin<'t, 'b, Id, GroupId, B, A>(
    alloc: A,
    collection: &InSizes<'t, Id, GroupId, A>,
    bins: BTreeMap<B, TargetBin<A>, A>,
    ids: &'b [(u128, B)],
    entries: usize,
) -> Telling<'t, 'b, Id, Group<GroupId, Id>, B, A>
where
    Id: Ord + Clone + Drop,
    GroupId: Ord + Clone + Drop,
    B: Ord + Clone + Drop,
    A: Allocator + Copy,
    requires ids { ClonesEqual Id.is_clone Id.eq }
    requires bin_ids { ClonesEqual B.is_clone B.eq }
    requires found { All (λ o. IsSome (get B.cmp bins o.1)) ids.now }
    requires rising { IsStrictlySortedBy B.cmp (map (λ o. o.1) ids.now) }
    requires all { NamesAllBins B.cmp ids.now (bins_of bins.entries) }
    ensures collection { collection_of result ≡ collection.now }
    ensures begun { IsToldBegun B.cmp result }
    ensures now { result.bins.now ≡ bins_of bins.entries }
    ensures start { result.bins.start ≡ bins_of bins.entries }
{
    let mut bins = BinsAtWork::new(bins, ids, alloc);
    bins.set_boxes(entries);
    Telling {
        rects: collection.sizes,
        lists: collection.lists,
        bins,
        homes: Homes::new(collection.exclusions, alloc),
        named: BTreeSet::new(alloc),
        placements: Vec::new(alloc),
        sizes: Vec::new(alloc),
        locations: Vec::new(alloc),
    }
}

// Makes all steps, up to the first that is refused. However it ends, what it did can be kept or
// undone.
pub(crate) fn make_all<'t, Id, GroupId, B, A>(
    telling: &mut Telling<'t, '_, Id, Group<GroupId, Id>, B, A>,
    steps: &'t [Step<Id, GroupId, B>],
) -> Result<(), ToldError>
where
    Id: Ord + Clone + Drop,
    GroupId: Ord + Clone + Drop,
    B: Ord + Clone + Drop,
    A: Allocator + Copy,
    requires { IsToldBegun B.cmp telling.old }
    ensures made { AreStepsMade ⟦<Group<GroupId, Id> as Ord>⟧.cmp Id.cmp B.cmp
        (collection_of telling.old) steps.now telling.old.bins.now result telling.new }
    ensures start { telling.new.bins.start ≡ telling.old.bins.start }
{
    for (index, step) in steps.iter().enumerate() {
        if let Some(fault) = telling.make(&step.group, &step.bin, step.heuristic)? {
            return Err(ToldError::StepRefused(index, fault));
        }
    }
    Ok(())
}
