//! Placements that are released by one call.
ghost use Rattle.std.specs.Prelude.{◌≡◌, ℕ, ◌<◌, ◌↔◌, List, length, All, AllPairs, IsPermutation, IsTrue, OnOk, OnErr, IsSome, IfSome, eqb};
ghost use Rattle.std.specs.Bool.{OnTrue};
ghost use Rattle.std.specs.BTreeMap.{get};
ghost use Rattle.std.specs.List.{IsDistinct, list_any};
ghost use Rattle.rectangle_pack_sections.specs.Bins.{Bin, IsAccepted, bins_of};
ghost use Rattle.rectangle_pack.specs.Session.{GivesBack, IsOutstanding, IsSession, reply_of};
ghost use Rattle.rectangle_pack.specs.Releasing.{AreReleasable, ReleasesAll};
ghost use Rattle.rectangle_pack.specs.private.Releasing.{GivesBackInTurn, outstanding_but};

use crate::session::Session;
use crate::session::command::{Outstanding, SessionError};
use crate::session::outstanding::{give_back, position_of};
use crate::session::records::Records;
use rectangle_pack_bins::target_bin::TargetBin;
use rectangle_pack_lists::corners::Corners;
use rectangle_pack_sections::bin_section::has_cells;
use rectangle_pack_sections::packed_location::{PackedLocation, section_at};
use std::alloc::{AllocError, Allocator};
use std::collections::BTreeMap;

impl<Id, BinId, A> Session<Id, BinId, A>
where
    Id: Ord + Clone + Drop,
    BinId: Ord + Clone + Drop,
    A: Allocator + Copy,
{
    /// Gives placements back by their numbers, all or none. It is as if `release` were called for
    /// each, in the order of the list, but in one pass over the outstanding ones.
    ///
    /// `UnknownPlacement` says that for some number no placement is outstanding, or that some
    /// number stands twice, `OutOfMemory` that a growth was refused. The session is then as it was.
    ///
    /// ```
    /// let mut session: Session<&'static str, u32> = Session::new(alloc, 0);
    /// session.add_bin(1, 10, 10, 1)?;
    /// let size = WidthHeightDepth::new(2, 2, 1);
    /// let knot = session.place_at(1, "knot", PackedLocation::new(4, 3, 0, size))?;
    /// let hole = session.place_at(1, "hole", PackedLocation::new(0, 0, 0, size))?;
    /// session.release_all(&[hole, knot])?;
    /// assert!(rt; session.outstanding().is_empty());
    /// ```
    pub fn release_all(&mut self, numbers: &[u64]) -> Result<(), SessionError>
        // Done: the session is as after `release` of each number, in the order of the list. So the
        //   placements are no longer outstanding, their boxes that have cells stand at the ends of
        //   the lists of their bins in this order, and all else stays.
        //   [release_all.last_number_is_kept_outstanding]
        // `UnknownPlacement`: for some number no placement is outstanding, or some number stands
        //   twice. The session is as it was. [release_all.one_number_twice_is_taken]
        // `OutOfMemory`: there is a number, and for each a placement is outstanding. The session is
        //   as it was. [release_all.refused_release_keeps_the_first]
        // No other error is answered.
        ensures released { ReleasesAll BinId.cmp numbers.now
            self.old (reply_of result) self.new }
        // What always holds of a session holds afterwards.
        //   [release_all.refused_release_keeps_the_first]
        ensures always { IsSession BinId.cmp self.new }
    {
        let outstanding = self.outstanding.as_slice();
        if !are_outstanding(outstanding, numbers) {
            return Err(SessionError::UnknownPlacement);
        }
        let mut left_out = Vec::new(*self.outstanding.allocator());
        left_out.extend_from_slice(numbers)?;
        if !sort_apart(&mut left_out) {
            return Err(SessionError::UnknownPlacement);
        }
        give_back_all(&mut self.bins, &mut self.corners, outstanding, numbers)?;
        leave_out(&mut self.outstanding, left_out.as_slice());
        Ok(())
    }
}

// Whether a placement of each number is outstanding.
fn are_outstanding<Id, B>(outstanding: &[Outstanding<Id, B>], numbers: &[u64]) -> bool
    requires rising { AllPairs (λ a b. a.number < b.number) outstanding.now }
    ensures { IsTrue result ↔ All (IsOutstanding outstanding.now) numbers.now }
{
    for number in numbers {
        if position_of(outstanding, *number).is_none() {
            return false;
        }
    }
    true
}

// Sorts numbers. Answers whether none stands twice.
fn sort_apart<A: Allocator>(numbers: &mut Vec<u64, A>) -> bool
    ensures apart { IsTrue result ↔ IsDistinct eqb numbers.old.items }
    ensures rising { OnTrue result (AllPairs (λ a b. a < b) numbers.new.items) }
    ensures same { IsPermutation numbers.old.items numbers.new.items }
{
    numbers.sort_unstable();
    numbers.is_sorted_by(|a, b| a < b)
}

// Gives the boxes of these placements back to their bins, in the order of the numbers. An error
// leaves the bins as they were.
fn give_back_all<Id, B: Ord + Drop, A: Allocator + Copy>(
    bins: &mut BTreeMap<B, TargetBin<A>, A>,
    corners: &mut Corners<A>,
    outstanding: &[Outstanding<Id, B>],
    numbers: &[u64],
) -> Result<(), AllocError>
    requires session { (next : ℕ) ×
        IsSession B.cmp
        (record { bins = bins_of bins.old.entries; outstanding = outstanding.now; next = next }) }
    requires releasable { AreReleasable outstanding.now numbers.now }
    ensures ok { OnOk result
        (GivesBackInTurn B.cmp outstanding.now numbers.now (bins_of bins.old.entries)
        (bins_of bins.new.entries)) }
    ensures err { OnErr result (bins_of bins.new.entries ≡ bins_of bins.old.entries) }
    ensures some { OnErr result (0 < length numbers.now) }
{
    for (given, number) in numbers.iter().enumerate() {
        if let Err(refused) = give_back_one(bins, corners, outstanding, *number) {
            take_back_all(bins, outstanding, &numbers[..given]);
            return Err(refused);
        }
    }
    Ok(())
}

// Gives the box of the placement of this number back.
fn give_back_one<Id, B: Ord + Drop, A: Allocator + Copy>(
    bins: &mut BTreeMap<B, TargetBin<A>, A>,
    corners: &mut Corners<A>,
    outstanding: &[Outstanding<Id, B>],
    number: u64,
) -> Result<(), AllocError>
    requires rising { AllPairs (λ a b. a.number < b.number) outstanding.now }
    requires there { IsOutstanding outstanding.now number }
    requires accepted { (at : IsOutstanding outstanding.now number) →
        IsSome (get B.cmp bins.old at.found.bin) ×
        IfSome (get B.cmp bins.old at.found.bin)
        (λ held. IsAccepted held.bin at.found.location) }
    ensures ok { OnOk result
        ((at : IsOutstanding outstanding.now number) ×
        GivesBack B.cmp (bins_of bins.old.entries) at.found.bin at.found.location
        (bins_of bins.new.entries)) }
    ensures err { OnErr result (bins_of bins.new.entries ≡ bins_of bins.old.entries) }
{
    match position_of(outstanding, number) {
        Some(index) => {
            let placement = &outstanding[index];
            give_back(bins, corners, &placement.bin, placement.location)
        }
        None => unreachable!(),
    }
}

// Takes the boxes that were given back last out of their bins again, the last of them first.
fn take_back_all<Id, B: Ord + Drop, A: Allocator + Copy>(
    bins: &mut BTreeMap<B, TargetBin<A>, A>,
    outstanding: &[Outstanding<Id, B>],
    numbers: &[u64],
)
    requires rising { AllPairs (λ a b. a.number < b.number) outstanding.now }
    requires given { (before : List (B × Bin)) ×
        GivesBackInTurn B.cmp outstanding.now numbers.now before (bins_of bins.old.entries) }
    ensures { (before : List (B × Bin)) →
        GivesBackInTurn B.cmp outstanding.now numbers.now before (bins_of bins.old.entries) →
        bins_of bins.new.entries ≡ before }
{
    for i in (0..numbers.len()).rev() {
        take_back_one(bins, outstanding, numbers[i]);
    }
}

// Takes the box of the placement of this number out of its bin again, where it was given back last.
fn take_back_one<Id, B: Ord + Drop, A: Allocator + Copy>(
    bins: &mut BTreeMap<B, TargetBin<A>, A>,
    outstanding: &[Outstanding<Id, B>],
    number: u64,
)
    requires rising { AllPairs (λ a b. a.number < b.number) outstanding.now }
    requires given { (before : List (B × Bin)) × (at : IsOutstanding outstanding.now number) ×
        GivesBack B.cmp before at.found.bin at.found.location (bins_of bins.old.entries) }
    ensures { (before : List (B × Bin)) → (at : IsOutstanding outstanding.now number) →
        GivesBack B.cmp before at.found.bin at.found.location (bins_of bins.old.entries) →
        bins_of bins.new.entries ≡ before }
{
    match position_of(outstanding, number) {
        Some(index) => {
            let placement = &outstanding[index];
            take_back(bins, &placement.bin, placement.location);
        }
        None => unreachable!(),
    }
}

// Takes a box that was given back last out of its bin again.
fn take_back<B: Ord + Drop, A: Allocator + Copy>(
    bins: &mut BTreeMap<B, TargetBin<A>, A>,
    id: &B,
    location: PackedLocation,
)
    requires given { (before : List (B × Bin)) ×
        GivesBack B.cmp before id.now location (bins_of bins.old.entries) }
    ensures { (before : List (B × Bin)) →
        GivesBack B.cmp before id.now location (bins_of bins.old.entries) →
        bins_of bins.new.entries ≡ before }
{
    if !has_cells(&section_at(&location)) {
        return;
    }
    match bins.get_mut(id) {
        Some(bin) => {
            let last = bin.available_bin_sections().len() - 1;
            bin.remove_filled_section(last);
        }
        None => unreachable!(),
    }
}

// Takes the placements of these numbers, which rise, out of the list.
fn leave_out<Id: Drop, B: Drop, A: Allocator>(
    outstanding: &mut Records<Outstanding<Id, B>, A>,
    numbers: &[u64],
)
    requires rising { AllPairs (λ a b. a < b) numbers.now }
    ensures { outstanding.new.items ≡ outstanding_but numbers.now outstanding.old.items }
{
    outstanding.retain(|placement| !is_listed(numbers, placement.number));
}

// Whether the number is one of these, where they rise.
fn is_listed(numbers: &[u64], number: u64) -> bool
    ensures { AllPairs (λ a b. a < b) numbers.now →
        result ≡ list_any (eqb number) numbers.now }
{
    numbers.binary_search(&number).is_ok()
}
