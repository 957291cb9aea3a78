//! A packing from its beginning to its end, where it is kept or undone.
ghost use Rattle.std.specs.Prelude.{◌≡◌, List, length, IfOk, OnErr, MatchOption, true, false};
ghost use Rattle.rectangle_pack_sections.specs.Clones.{ClonesEqual};
ghost use Rattle.rectangle_pack_sections.specs.Groups.{entries_of};
ghost use Rattle.rectangle_pack_packing.specs.Packing.{PackingDone, PackingRefused, rules_by};
ghost use Rattle.rectangle_pack_packing.specs.private.Ends.{IsEnd};
ghost use Rattle.rectangle_pack_sections.specs.Bins.{bins_of, Bin};

use crate::answer::{Placement, RectanglePackError, RectanglePackOk, answer_of, last_placements};
use crate::order::bin_order;
use crate::pack::packing::{OnRefusal, Packing};
use rectangle_pack_bins::target_bin::TargetBin;
use rectangle_pack_groups::grouped_rects_to_place::GroupedRectsToPlace;
use rectangle_pack_lists::free_list::End;
use rectangle_pack_sections::closures::Policy;
use rectangle_pack_sections::group::Group;
use std::alloc::{AllocError, Allocator};
use std::collections::BTreeMap;
use std::mem;

/// Packs all groups, in which there are `entries` entries: what it placed, or `None` where it is
/// refused for space. Only where it is done and `keeps` asks for it, the packing is kept; else it
/// is undone. Fails only when memory is refused.
pub fn try_packing<Id, BinId, GroupId, R, A>(
    alloc: A,
    groups: &GroupedRectsToPlace<Id, GroupId, A>,
    bins: &mut BTreeMap<BinId, TargetBin<A>, A>,
    entries: usize,
    policy: &R,
    keeps: bool,
) -> Result<Option<Vec<Placement<Id, BinId>, A>>, AllocError>
where
    Id: Ord + Clone + Drop,
    BinId: Ord + Clone + Drop,
    GroupId: Ord + Clone + Drop,
    R: Policy,
    A: Allocator + Copy,
    requires ids { ClonesEqual Id.is_clone Id.eq }
    requires bin_ids { ClonesEqual BinId.is_clone BinId.eq }
    requires callable { R.is_callable policy.now }
    ensures tried { IfOk result
        (λ placed.
        let order = ⟦<Group<GroupId, Id> as Ord>⟧.cmp in
        let by = rules_by Id.cmp BinId.cmp (R.may policy.now) in
        let old = bins_of bins.old.entries in
        let new = bins_of bins.new.entries in
        MatchOption placed
        ((left : List (BinId × Bin)) ×
        PackingRefused order by groups.now old left × (new ≡ old))
        (λ placements.
        (packed : List (BinId × Bin)) ×
        PackingDone order by groups.now old placements.items packed ×
        (length placements.items ≡ entries_of groups.now) ×
        (keeps ≡ true → new ≡ packed))) }
    ensures undone { keeps ≡ false → bins_of bins.new.entries ≡ bins_of bins.old.entries }
    ensures stopped { OnErr result (bins_of bins.new.entries ≡ bins_of bins.old.entries) }
{
    let order = bin_order(alloc, bins, policy)?;
    let before = mem::replace(bins, BTreeMap::new(alloc));
    let mut packing = Packing::new(before, order.as_slice(), policy, alloc);
    let mut left = Vec::new(alloc);
    let packed = packing.place_all(groups, entries, OnRefusal::Stop, &mut left);
    let is_kept = keeps && packed == Ok(true);
    let (after, placements) = packing.end(if is_kept { End::Keep } else { End::Undo });
    *bins = after;
    Ok(if packed? { Some(placements) } else { None })
}

/// The bins of a packing that ends so, and its answer: done it is kept, where memory is refused
/// undone, and where it is refused for space what `refused` says.
pub fn end_packing<Id, BinId, R, A>(
    alloc: A,
    packing: Packing<'_, '_, Id, BinId, R, A>,
    packed: Result<bool, AllocError>,
    refused: End,
) -> (
    BTreeMap<BinId, TargetBin<A>, A>,
    Result<RectanglePackOk<Id, BinId, A>, RectanglePackError>,
)
where
    Id: Ord + Clone + Drop,
    BinId: Ord + Clone + Drop,
    R: Policy,
    A: Allocator + Copy,
    requires ids { ClonesEqual Id.is_clone Id.eq }
    requires bin_ids { ClonesEqual BinId.is_clone BinId.eq }
    ensures { IsEnd Id.cmp BinId.cmp packing.entry packed refused (bins_of result.0.entries)
        result.1 }
{
    let last = match packed {
        Ok(true) => last_placements(alloc, packing.placements()),
        Ok(false) => {
            let (bins, _) = packing.end(refused);
            return (bins, Err(RectanglePackError::NotEnoughBinSpace));
        }
        Err(error) => Err(error),
    };
    match last {
        Ok(packed_locations) => {
            let (bins, placements) = packing.end(End::Keep);
            (bins, Ok(answer_of(packed_locations, placements)))
        }
        Err(_) => {
            let (bins, _) = packing.end(End::Undo);
            (bins, Err(RectanglePackError::OutOfMemory))
        }
    }
}
