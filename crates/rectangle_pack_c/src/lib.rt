//! The packer for C: one packing of lists of bins and boxes, and sessions with their cutting plans.
#![tactic(auto)]

ghost use Rattle.std.specs.Prelude.{ℕ, ◌≡◌, ◌<◌, ◌≤◌, ◌==◌, ◌↔◌, ◌≢◌, [], IfOk, IfErr, List, length, All, AllPairs, MatchBool, Err, slice_get};
ghost use Rattle.std.specs.Ordering.{nat_cmp};
ghost use Rattle.rectangle_pack_sections.specs.declared.box_size_heuristics.named.Heuristic.TheVariants.{Volume};
ghost use Rattle.rectangle_pack.specs.declared.session.command.Packed.{Packed};
ghost use Rattle.rectangle_pack.specs.declared.session.command.Reply.TheVariants.{Packed as Kept, Refused};
ghost use Rattle.rectangle_pack.specs.declared.session.command.SessionError.TheVariants.{OutOfMemory};
ghost use Rattle.rectangle_pack.specs.Session.{IsSession};
ghost use Rattle.rectangle_pack_c.specs.Arguments.{HaveLengths, new_bins};
ghost use Rattle.rectangle_pack_c.specs.Collections.{all_boxes, fault_in, fault_of};
ghost use Rattle.rectangle_pack_c.specs.Heuristics.{asked};
ghost use Rattle.rectangle_pack_c.specs.Answers.{ArePlaced, IsBestPacking, IsDonePacking, IsRefusedPacking, KeepApart};
ghost use Rattle.rectangle_pack_c.specs.Sessions.{PacksCollection};
ghost use Rattle.rectangle_pack_c.specs.private.Written.{AreWritten, NewAreWritten};

mod bounding;
mod collection;
mod cutting;
mod finding;
mod fitting;
mod handle;
mod judging;
mod pieces;
mod placing;
mod reading;
mod restoring;
mod searching;
mod session;
mod standing;
mod telling;
#[cfg(test)]
mod tests;
mod turning;
mod upkeep;

use collection::{RP_BEST, RP_VOLUME, RpCollection, collection_of, fault, number_of, pack_asked};
use rectangle_pack::{Outstanding, Session, SessionError};
use std::alloc::Global;

/// A bin, by its size in cells.
#[repr(C)]
#[derive(Clone, Copy)]
pub struct RpBin {
    /// Its width.
    pub width: u32,
    /// Its height.
    pub height: u32,
    /// Its depth, which is 1 in two dimensions.
    pub depth: u32,
}

/// A box, by its size in cells. Boxes of one group above 0 go into one bin; in group 0 each is
/// alone.
#[repr(C)]
#[derive(Clone, Copy)]
pub struct RpBox {
    /// Its width.
    pub width: u32,
    /// Its height.
    pub height: u32,
    /// Its depth, which is 1 in two dimensions.
    pub depth: u32,
    /// Its group, or 0.
    pub group: u32,
}

/// Where a box stands: its bin, and its corner there.
#[repr(C)]
#[derive(Clone, Copy)]
pub struct RpPlacement {
    /// The index of the bin in the list of bins; in a session its id.
    pub bin: u32,
    /// The distance from the bin's left side, in cells.
    pub x: u32,
    /// The distance from its bottom.
    pub y: u32,
    /// The distance from its front.
    pub z: u32,
}

/// It is done. Where boxes were packed, each has its placement.
pub const RP_DONE: u32 = 0;
/// For some group no bin takes all of its boxes, as the groups before it left the bins.
pub const RP_NOT_ENOUGH_SPACE: u32 = 1;
/// Memory was refused.
pub const RP_OUT_OF_MEMORY: u32 = 2;
/// There are not as many placements as boxes and members together, or 2^32 of these or of bins, or
/// more.
pub const RP_BAD_LENGTHS: u32 = 3;
/// A bin of this id is there already.
pub const RP_DUPLICATE_BIN: u32 = 4;
/// There is no bin of this id.
pub const RP_UNKNOWN_BIN: u32 = 5;
/// No placement of this number is outstanding.
pub const RP_UNKNOWN_PLACEMENT: u32 = 6;
/// The numbers of the placements would reach 2^64 - 1, which is never given.
pub const RP_NUMBERS_USED_UP: u32 = 7;
/// The array is shorter than the list that it is to take.
pub const RP_SHORT_ARRAY: u32 = 8;
/// The boxes of the bin are not what straight cuts leave.
pub const RP_NO_PLAN: u32 = 9;
/// There is no heuristic of this number.
pub const RP_UNKNOWN_HEURISTIC: u32 = 10;
/// A member names a box that is not there, or a step a box or a member.
pub const RP_UNKNOWN_BOX: u32 = 11;
/// A group is excluded with itself.
pub const RP_EQUAL_GROUPS: u32 = 12;
/// Placements are outstanding in the bin.
pub const RP_BIN_IN_USE: u32 = 13;
/// A side of the bin would exceed 2^32 - 1.
pub const RP_TOO_LARGE: u32 = 14;
/// No free section of the bin holds the box there.
pub const RP_NOT_FREE: u32 = 15;
/// There is no axis of this number.
pub const RP_UNKNOWN_AXIS: u32 = 16;
/// No straight cuts part the boxes that stand in the bin.
pub const RP_NOT_FROM_CUTS: u32 = 17;
/// No session has these parts.
pub const RP_WRONG_PARTS: u32 = 18;
/// A box is outside the bin, or two share a cell.
pub const RP_WRONG_BOXES: u32 = 19;
/// A step cannot be done. Which is the first, and why, is written.
pub const RP_STEP_REFUSED: u32 = 20;
/// The options have another size than `RpSearchOptions`.
pub const RP_UNKNOWN_OPTIONS: u32 = 21;

// There are fewer bins and boxes than this, so that each index and their count is of 32 bits.
const LIMIT: usize = 0x1_0000_0000;

/// Packs all boxes into the bins: placement i is where box i stands. Groups go in falling order of
/// the sum of their volumes, each whole into the first bin, by rising volume, that takes it. What
/// is answered is the status; but for `RP_DONE` no placement is written. Equal bins and boxes get
/// equal placements.
#[unsafe(no_mangle)]
pub extern "C" fn rectangle_pack_boxes(
    alloc: Global,
    bins: &[RpBin],
    boxes: &[RpBox],
    placements: &mut [RpPlacement],
) -> u32
    // The status is `RP_DONE`, `RP_NOT_ENOUGH_SPACE`, `RP_OUT_OF_MEMORY` or `RP_BAD_LENGTHS`.
    ensures status { result ≤ RP_BAD_LENGTHS }
    // `RP_BAD_LENGTHS` is answered exactly where there are not as many placements as boxes, or
    //   there are 2^32 boxes or bins, or more. [are_as_many.placements_may_be_more]
    ensures lengths { (result ≢ RP_BAD_LENGTHS) ↔
        HaveLengths bins.now boxes.now placements.old }
    // Where the status is not `RP_DONE`, no placement is written.
    ensures unchanged { result ≢ RP_DONE → placements.new ≡ placements.old }
    // `RP_DONE`: each box stands, in its size, inside the bin that its placement names.
    //   [of.bin_is_the_box]
    // `RP_DONE`: no two boxes in one bin share a cell. [write_all.bin_is_the_index]
    // `RP_DONE`: the boxes of one group above 0 are in one bin. [of.bin_is_the_box]
    ensures done { result ≡ RP_DONE → ArePlaced bins.now boxes.now placements.new }
    // `RP_DONE`: the placements are those of a done packing of these boxes, in their groups, into
    //   new bins of these sizes, by the rule of `pack_rects` and by volume.
    //   [rectangle_pack_boxes.another_heuristic]
    ensures packed { result ≡ RP_DONE →
        IsDonePacking bins.now boxes.now [] Volume placements.new }
    // `RP_DONE`: every list of placements that is that of a done packing of equal bins and boxes is
    //   this list.
    ensures one_packing { result ≡ RP_DONE → (others : List RpPlacement) →
        IsDonePacking bins.now boxes.now [] Volume others → others ≡ placements.new }
    // `RP_DONE`: no packing of equal bins and boxes is refused for space.
    ensures never_refused { result ≡ RP_DONE → ¬ IsRefusedPacking bins.now boxes.now [] Volume }
    // `RP_NOT_ENOUGH_SPACE`: for some group no bin takes all of its boxes, as the groups before it
    //   left the bins. [rectangle_pack_collection.no_memory_is_no_space]
    ensures refused { result ≡ RP_NOT_ENOUGH_SPACE →
        IsRefusedPacking bins.now boxes.now [] Volume }
    // `RP_NOT_ENOUGH_SPACE`: no list of placements is that of a done packing of equal bins and
    //   boxes. [session_of.bins_are_flat]
    ensures never_packed { result ≡ RP_NOT_ENOUGH_SPACE → (others : List RpPlacement) →
        ¬ IsDonePacking bins.now boxes.now [] Volume others }
{
    let mut chosen = RP_VOLUME;
    let collection = RpCollection::of(boxes);
    rectangle_pack_collection(alloc, bins, &collection, RP_VOLUME, placements, &mut chosen)
}

/// Packs a collection into the bins: placement i is where box i stands, and behind those of the
/// boxes stand those of the members. `heuristic` is the number of one, or `RP_BEST`; the number of
/// the one that was packed with is written to `chosen`. What is answered is the status; but for
/// `RP_DONE` nothing is written. Equal bins and collections get equal placements with the same
/// heuristic.
#[unsafe(no_mangle)]
pub extern "C" fn rectangle_pack_collection(
    alloc: Global,
    bins: &[RpBin],
    collection: &RpCollection<'_>,
    heuristic: u32,
    placements: &mut [RpPlacement],
    chosen: &mut u32,
) -> u32
    // The first thing that is wrong with the arguments is answered, looked at in this order:
    //   `RP_BAD_LENGTHS`, `RP_UNKNOWN_HEURISTIC`, `RP_UNKNOWN_BOX`, `RP_EQUAL_GROUPS`. Each of them
    //   comes only so. [rectangle_pack_collection.bad_lengths_are_done,
    //   name_no_box.one_more_is_allowed]
    // Where nothing is wrong, the status is `RP_DONE`, `RP_NOT_ENOUGH_SPACE` or `RP_OUT_OF_MEMORY`.
    ensures faults { let fault = fault_in bins.now collection.now heuristic
        (length placements.old) in
        MatchBool (fault == 0) (result ≤ RP_OUT_OF_MEMORY) (result ≡ fault) }
    // Where the status is not `RP_DONE`, nothing is written.
    ensures unchanged { result ≢ RP_DONE →
        (placements.new ≡ placements.old) × (chosen.new ≡ chosen.old) }
    // `RP_DONE`: there are as many placements as boxes and members. Each box, and each member as a
    //   box in its group, stands, in its size, inside the bin that its placement names; no two in
    //   one bin share a cell; those of one group above 0 are in one bin.
    //   [push_members.member_takes_a_box_place]
    ensures done { result ≡ RP_DONE →
        ArePlaced bins.now (all_boxes collection.now) placements.new }
    // `RP_DONE`: boxes of groups that are excluded are in different bins.
    //   [exclude_all.a_box_is_excluded]
    ensures apart { result ≡ RP_DONE →
        KeepApart (all_boxes collection.now) collection.now.exclusions.now placements.new }
    // `RP_DONE`: the placements are those of a done packing of this collection into new bins of
    //   these sizes, with the heuristic whose number is written. It is the one that was asked for,
    //   or the best of all, as `pack_rects_best` says it. [pack_asked.volume_is_the_best,
    //   number_of.width_for_height]
    ensures packed { result ≡ RP_DONE →
        IsBestPacking bins.now (all_boxes collection.now) collection.now.exclusions.now
        (asked heuristic) chosen.new placements.new }
    // `RP_DONE`: every list of placements, and every number of a heuristic, that is the answer to
    //   an equal call is this one.
    ensures one_packing { result ≡ RP_DONE → (other : ℕ) → (others : List RpPlacement) →
        IsBestPacking bins.now (all_boxes collection.now) collection.now.exclusions.now
        (asked heuristic) other others → (others ≡ placements.new) × (other ≡ chosen.new) }
    // `RP_DONE`: with some heuristic that is asked for, no packing of equal bins and collections is
    //   refused for space.
    ensures never_refused { result ≡ RP_DONE →
        ¬ All (IsRefusedPacking bins.now (all_boxes collection.now)
        collection.now.exclusions.now) (asked heuristic) }
    // `RP_NOT_ENOUGH_SPACE`: with each heuristic that is asked for, for some group each bin is
    //   excluded or does not take all of its boxes, as the groups before it left the bins.
    //   [rectangle_pack_collection.no_memory_is_no_space]
    ensures refused { result ≡ RP_NOT_ENOUGH_SPACE →
        All (IsRefusedPacking bins.now (all_boxes collection.now)
        collection.now.exclusions.now) (asked heuristic) }
    // `RP_NOT_ENOUGH_SPACE`: no list of placements is the answer to an equal call.
    ensures never_packed { result ≡ RP_NOT_ENOUGH_SPACE → (other : ℕ) →
        (others : List RpPlacement) →
        ¬ IsBestPacking bins.now (all_boxes collection.now) collection.now.exclusions.now
        (asked heuristic) other others }
{
    if bins.len() >= LIMIT {
        return RP_BAD_LENGTHS;
    }
    let fault = fault(collection, heuristic, placements.len());
    if fault != RP_DONE {
        return fault;
    }
    let Ok(mut session) = session_of(alloc, bins) else {
        return RP_OUT_OF_MEMORY;
    };
    match pack_into(alloc, &mut session, collection, heuristic, placements) {
        Ok(best) => {
            *chosen = best;
            RP_DONE
        }
        Err(SessionError::NotEnoughBinSpace) => RP_NOT_ENOUGH_SPACE,
        Err(_) => RP_OUT_OF_MEMORY,
    }
}

// A session with these bins, each under its index.
fn session_of(alloc: Global, bins: &[RpBin]) -> Result<Session<u32, u32>, SessionError>
    requires { length bins.now < LIMIT }
    ensures { IfOk result
        (λ s. s ≡ record { bins = new_bins bins.now; outstanding = []; next = 0 }) }
{
    let mut session = Session::new(alloc, 0);
    for (i, bin) in bins.iter().enumerate() {
        session.add_bin(i as u32, bin.width, bin.height, bin.depth)?;
    }
    Ok(session)
}

// Packs the collection into the session, and writes the placements: the number of the heuristic
// that was packed with.
fn pack_into<T: Written<Outstanding<u32, u32>>>(
    alloc: Global,
    session: &mut Session<u32, u32>,
    collection: &RpCollection<'_>,
    heuristic: u32,
    placements: &mut [T],
) -> Result<u32, SessionError>
    requires sound { fault_of collection.now heuristic (length placements.old) ≡ 0 }
    ensures packed { IfOk result (λ chosen. (numbers : Packed) ×
        PacksCollection heuristic (all_boxes collection.now) collection.now.exclusions.now chosen
        session.old (Kept numbers) session.new) }
    ensures refused { IfErr result (λ error.
        PacksCollection heuristic (all_boxes collection.now) collection.now.exclusions.now 0
        session.old (Refused error) session.new) }
    ensures memory { length collection.now.boxes.now ≡ 0 →
        length collection.now.exclusions.now ≡ 0 → result ≢ Err OutOfMemory }
    ensures always { IsSession nat_cmp session.new }
    ensures written { IfOk result
        (λ _. NewAreWritten T.written session.old session.new placements.new) }
    ensures unchanged { IfErr result (λ _. placements.new ≡ placements.old) }
{
    let known = session.outstanding().len();
    let rects = collection_of(alloc, collection)?;
    let (best, _) = pack_asked(session, &rects, heuristic)?;
    write_all(&session.outstanding()[known..], placements);
    Ok(number_of(best))
}

// What is written of an entry of a list.
pub(crate) trait Written<S>: Copy {
    ghost written: { S → Self };

    fn of(entry: &S) -> Self
        ensures { result ≡ written entry.now };
}

impl Written<Outstanding<u32, u32>> for RpPlacement {
    ghost use Rattle.rectangle_pack_c.specs.private.Written.{as_placement};

    ghost written = { as_placement };

    fn of(outstanding: &Outstanding<u32, u32>) -> Self {
        RpPlacement {
            bin: outstanding.bin,
            x: outstanding.location.x(),
            y: outstanding.location.y(),
            z: outstanding.location.z(),
        }
    }
}

// Writes each outstanding placement at the index of its box, and nothing else.
fn write_all<T: Written<Outstanding<u32, u32>>>(
    outstanding: &[Outstanding<u32, u32>],
    placements: &mut [T],
)
    requires within { All (λ o. o.id < length placements.old) outstanding.now }
    requires once { AllPairs (λ o p. o.id ≢ p.id) outstanding.now }
    ensures written { AreWritten T.written outstanding.now placements.new }
    ensures others { (k : ℕ) → All (λ o. o.id ≢ k) outstanding.now →
        slice_get placements.new k ≡ slice_get placements.old k }
{
    for placement in outstanding {
        placements[placement.id as usize] = T::of(placement);
    }
}
