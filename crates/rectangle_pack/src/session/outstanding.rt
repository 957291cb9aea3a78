//! The outstanding placements of a session, and a box given back to its bin.
ghost use Rattle.std.specs.Prelude.{◌≡◌, ◌≢◌, ◌+◌, ◌≤◌, ◌<◌, ◌^◌, ◌++◌, length, OnOk, OnErr, IfSome, IfNone, IsSome, All, AllPairs, slice_index_or, vec_len, true};
ghost use Rattle.std.specs.BTreeMap.{get};
ghost use Rattle.rectangle_pack.specs.declared.session.command.Outstanding.{Outstanding};
ghost use Rattle.rectangle_pack_sections.specs.Bins.{IsAccepted, bins_of};
ghost use Rattle.rectangle_pack_sections.specs.Boxes.{has_cells};
ghost use Rattle.rectangle_pack.specs.Session.{GivesBack, numbered};
ghost use Rattle.rectangle_pack.specs.Upkeep.{is_in_use, outstanding_beside};

use crate::session::command::Outstanding;
use crate::session::records::Records;
use rectangle_pack_bins::target_bin::TargetBin;
use rectangle_pack_lists::corners::Corners;
use rectangle_pack_packing::answer::Placement;
use rectangle_pack_sections::bin_section::has_cells;
use rectangle_pack_sections::packed_location::{PackedLocation, section_at};
use std::alloc::{AllocError, Allocator};
use std::collections::BTreeMap;

// Where the placement of this number is; the numbers rise.
pub(crate) fn position_of<Id, B>(outstanding: &[Outstanding<Id, B>], number: u64) -> Option<usize>
    requires rising { AllPairs (λ a b. a.number < b.number) outstanding.now }
    ensures some { IfSome result
        (λ i.
        (i < length outstanding.now) ×
        ((d : Outstanding Id B) → (slice_index_or outstanding.now i d).number ≡ number)) }
    ensures none { IfNone result (All (λ o. o.number ≢ number) outstanding.now) }
{
    outstanding
        .binary_search_by_key(&number, |placement| placement.number)
        .ok()
}

// Whether some placement stands in the bin of this id.
pub(crate) fn is_in_use<Id, B: Ord>(outstanding: &[Outstanding<Id, B>], id: &B) -> bool
    ensures { result ≡ is_in_use B.cmp id.now outstanding.now }
{
    outstanding.iter().any(|placement| placement.bin == *id)
}

// Takes the placements that stand in the bin of this id out of the list.
pub(crate) fn forget<Id: Drop, B: Ord + Drop, A: Allocator>(
    outstanding: &mut Records<Outstanding<Id, B>, A>,
    id: &B,
)
    ensures { outstanding.new.items ≡ outstanding_beside B.cmp id.now outstanding.old.items }
{
    outstanding.retain(|placement| placement.bin != *id);
}

// Gives a box back to its bin, at the end of the list, and makes room for a sweep of that. A box
// without cells leaves no section.
pub(crate) fn give_back<B: Ord + Drop, A: Allocator + Copy>(
    bins: &mut BTreeMap<B, TargetBin<A>, A>,
    corners: &mut Corners<A>,
    id: &B,
    location: PackedLocation,
) -> Result<(), AllocError>
    requires accepted { IsSome (get B.cmp bins.old id.now) ×
        IfSome (get B.cmp bins.old id.now) (λ held. IsAccepted held.bin location) }
    ensures ok { OnOk result
        (GivesBack B.cmp (bins_of bins.old.entries) id.now location (bins_of bins.new.entries)) }
    ensures err { OnErr result
        ((has_cells location ≡ true) × (bins_of bins.new.entries ≡ bins_of bins.old.entries)) }
{
    let section = section_at(&location);
    if !has_cells(&section) {
        return Ok(());
    }
    match bins.get_mut(id) {
        Some(bin) => {
            corners.reserve(bin.available_bin_sections().len() + 1)?;
            bin.push_available_bin_section_unchecked(section)
        }
        None => unreachable!(),
    }
}

// Puts placements at the end of the outstanding ones, with their numbers, in the room that is
// there.
pub(crate) fn number_all<Id: Drop, B: Drop, A: Allocator>(
    outstanding: &mut Records<Outstanding<Id, B>, A>,
    placements: Vec<Placement<Id, B>, A>,
    first: u64,
)
    requires room { vec_len placements ≤ outstanding.old.spare }
    requires fits { first + vec_len placements < 2 ^ 64 }
    ensures { outstanding.new.items ≡
        outstanding.old.items ++ numbered first placements.items }
{
    let mut number = first;
    for placement in placements {
        let Placement { id, bin, location } = placement;
        outstanding.push_reserved(Outstanding {
            number,
            id,
            bin,
            location,
        });
        number += 1;
    }
}
