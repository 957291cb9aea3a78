//! Packing what fits for C: groups that no bin takes are left.
ghost use Rattle.std.specs.Prelude.{◌≡◌, ◌≢◌, ◌==◌, ◌⊎◌, ◌<◌, ◌+◌, ◌^◌, ℕ, List, [], All, AllPairs, length, slice_get, count_by, Some, IfOk, IfErr, IsOk, IsSome, Err, MatchBool};
ghost use Rattle.std.specs.Ordering.{nat_cmp};
ghost use Rattle.rectangle_pack.specs.declared.session.command.SessionError.TheVariants.{OutOfMemory};
ghost use Rattle.rectangle_pack.specs.Session.{IsSession};
ghost use Rattle.rectangle_pack.specs.SessionFitting.{PacksFittingBest, FitsBestAsPromised};
ghost use Rattle.rectangle_pack_c.specs.declared.RpPlacement.{RpPlacement};
ghost use Rattle.rectangle_pack_c.specs.Collections.{all_boxes, fault_in, fault_of, group_order};
ghost use Rattle.rectangle_pack_c.specs.Fitting.{AreFitted, FitsApart, FitsCollection, FitsInto, FitsNewBins, RefusesFitting, StandFittedApart, left_outstanding, left_placement, number_says_left, says_left};
ghost use Rattle.rectangle_pack_c.specs.Heuristics.{asked};
ghost use Rattle.rectangle_pack_c.specs.Sessions.{ChangesAs};
ghost use Rattle.rectangle_pack_c.specs.private.Written.{AreWrittenAmong, NewAreWrittenAmong};

use super::collection::{RpCollection, all, collection_of, fault, heuristic_of, number_of};
use super::handle::RpSession;
use super::session::{RpOutstanding, refusal};
use super::{
    LIMIT, RP_BAD_LENGTHS, RP_DONE, RP_NOT_ENOUGH_SPACE, RP_OUT_OF_MEMORY, RpBin, RpPlacement,
    Written, session_of, write_all,
};
use rectangle_pack::{
    Fitted, Group, GroupedRectsToPlace, Heuristic, Outstanding, Packed, Session, SessionError,
};
use std::alloc::Global;

/// What is written of a packing of what fits.
#[repr(C)]
#[derive(Clone, Copy)]
pub struct RpFitted {
    /// The number of the heuristic that packed.
    pub heuristic: u32,
    /// How many boxes, and members, are left.
    pub left: usize,
}

/// In place of a bin: the box is left.
pub const RP_LEFT_BIN: u32 = 0xffff_ffff;
/// In place of the number of a placement: the box is left.
pub const RP_LEFT_NUMBER: u64 = 0xffff_ffff_ffff_ffff;

/// Packs what fits of a collection into the bins: each group that some bin takes. The others are
/// left. Placement i is where box i stands, and behind those of the boxes stand those of the
/// members; of one that is left, its bin is `RP_LEFT_BIN` and its corner (0, 0, 0). `heuristic` is
/// the number of one, or `RP_BEST`: of all, the one that leaves the fewest cells, and of several
/// such the one that uses the bins best. The number of the one that packed is written, and how many
/// boxes and members are left. `RP_DONE` or `RP_OUT_OF_MEMORY`; or, looked at first and in this
/// order, `RP_BAD_LENGTHS`, `RP_UNKNOWN_HEURISTIC`, `RP_UNKNOWN_BOX` or `RP_EQUAL_GROUPS`. But for
/// `RP_DONE` nothing is written. Equal bins and collections get equal placements with the same
/// heuristic.
#[unsafe(no_mangle)]
pub extern "C" fn rectangle_pack_fitting(
    alloc: Global,
    bins: &[RpBin],
    collection: &RpCollection<'_>,
    heuristic: u32,
    placements: &mut [RpPlacement],
    fitted: &mut RpFitted,
) -> u32
    // The first thing that is wrong with the arguments is answered, as
    //   `rectangle_pack_collection` does. Where nothing is wrong, the status is `RP_DONE` or
    //   `RP_OUT_OF_MEMORY`.
    ensures faults { let fault = fault_in bins.now collection.now heuristic
        (length placements.old) in
        MatchBool (fault == 0) ((result ≡ RP_DONE) ⊎ (result ≡ RP_OUT_OF_MEMORY))
        (result ≡ fault) }
    // Where the status is not `RP_DONE`, nothing is written.
    ensures unchanged { result ≢ RP_DONE →
        (placements.new ≡ placements.old) × (fitted.new ≡ fitted.old) }
    // `RP_DONE`: what fits of the collection is packed into a new session with these bins, each
    //   under its index, as `packed` and `promise` of `Session::pack_fitting_best` say it of the
    //   heuristics that are asked for: the one of this number, or all. The number of the best is
    //   written. [rectangle_pack_fitting.asked_is_written, fit_asked.volume_is_the_best]
    // `RP_DONE`: each box, and each member as a box in its group, is placed, in its size, in the
    //   bin and at the corner that its placement names, and its group is not left; or its group is
    //   left, and its placement says so. [write_among.left_keeps_what_was]
    // `RP_DONE`: how many placements say that their box is left is written.
    //   [rectangle_pack_fitting.left_is_one_short]
    ensures packed { result ≡ RP_DONE →
        FitsNewBins heuristic bins.now (all_boxes collection.now) collection.now.exclusions.now
        placements.new fitted.new }
    // `RP_DONE`: every list of placements, and every `RpFitted`, that is the answer to an equal
    //   call is this one.
    ensures one_packing { result ≡ RP_DONE → (other : RpFitted) → (others : List RpPlacement) →
        FitsNewBins heuristic bins.now (all_boxes collection.now) collection.now.exclusions.now
        others other → (others ≡ placements.new) × (other ≡ fitted.new) }
    // `RP_DONE`: each box that is not left stands, in its size, inside the bin that its placement
    //   names; no two in one bin share a cell; those of one group above 0 are all left, or all in
    //   one bin. [left_placement.left_is_in_bin_0]
    ensures done { result ≡ RP_DONE →
        AreFitted bins.now (all_boxes collection.now) placements.new }
    // `RP_DONE`: boxes of groups that are excluded, and not left, are in different bins.
    ensures apart { result ≡ RP_DONE →
        FitsApart (all_boxes collection.now) collection.now.exclusions.now placements.new }
{
    if bins.len() >= LIMIT {
        return RP_BAD_LENGTHS;
    }
    let fault = fault(collection, heuristic, placements.len());
    if fault != RP_DONE {
        return fault;
    }
    let Ok(mut session) = session_of(alloc, bins) else {
        return RP_OUT_OF_MEMORY;
    };
    let left = left_placement();
    match fit_into(alloc, &mut session, collection, heuristic, placements, left) {
        Ok(best) => {
            *fitted = RpFitted {
                heuristic: best,
                left: left_among(placements),
            };
            RP_DONE
        }
        Err(_) => RP_OUT_OF_MEMORY,
    }
}

/// Packs what fits of a collection into the bins of the session: each group that some bin takes.
/// The others are left. Placement i, with its number, is that of box i, and behind those of the
/// boxes stand those of the members; of one that is left, its number is `RP_LEFT_NUMBER`, its bin
/// `RP_LEFT_BIN` and its corner (0, 0, 0). `heuristic`, and what is written of it and of how many
/// are left, are as for `rectangle_pack_fitting`; what stood in the bins before does not count.
/// `RP_DONE`, `RP_OUT_OF_MEMORY` or `RP_NUMBERS_USED_UP`; or, looked at first and in this order,
/// `RP_BAD_LENGTHS`, `RP_UNKNOWN_HEURISTIC`, `RP_UNKNOWN_BOX` or `RP_EQUAL_GROUPS`. What is not
/// done leaves the session as it was, and writes nothing.
#[unsafe(no_mangle)]
pub extern "C" fn rectangle_pack_session_pack_fitting(
    alloc: Global,
    session: &mut RpSession,
    collection: &RpCollection<'_>,
    heuristic: u32,
    placements: &mut [RpOutstanding],
    fitted: &mut RpFitted,
) -> u32
    // The handle has a session.
    requires made { IsSome session.old.state }
    // The first thing that is wrong with the arguments is answered, as
    //   `rectangle_pack_session_pack_collection` does. Then the session is as it was.
    ensures faults { let fault = fault_of collection.now heuristic (length placements.old) in
        fault ≢ 0 → (result ≡ fault) × (session.new.state ≡ session.old.state) }
    // Else what fits of the collection is packed into the bins of the session, or not, as `packed`
    //   and `promise` of `Session::pack_fitting_best` say it of the heuristics that are asked for:
    //   the one of this number, or all. The status is that of the answer: `RP_DONE`,
    //   `RP_NUMBERS_USED_UP` or `RP_OUT_OF_MEMORY`; with the last two the session is as it was.
    //   What always holds of a session holds afterwards. [fit_asked.volume_is_the_best]
    // `RP_DONE`: the number of the best is written, and how many placements say that their box is
    //   left. [rectangle_pack_session_pack_fitting.asked_is_written,
    //   rectangle_pack_session_pack_fitting.left_is_one_short]
    // `RP_DONE`: each box, and each member as a box in its group, is outstanding, in its size, in
    //   the bin and at the corner that its placement names, under the number that its placement
    //   has, and its group is not left; or its group is left, and its placement says so. The
    //   numbers of those that are placed differ, and none is below the next number of before.
    //   Those of one group above 0 are all left, or all in one bin.
    //   [write_among.left_keeps_what_was, left_outstanding.left_has_number_0]
    ensures packed { fault_of collection.now heuristic (length placements.old) ≡ 0 →
        ChangesAs (FitsInto heuristic (all_boxes collection.now) collection.now.exclusions.now
        placements.new fitted.new)
        session.old.state result session.new.state }
    // `RP_DONE`: boxes of groups that are excluded, and not left, are in different bins.
    ensures apart { result ≡ RP_DONE →
        StandFittedApart (all_boxes collection.now) collection.now.exclusions.now placements.new }
    // `RP_NOT_ENOUGH_SPACE` never comes.
    ensures space { result ≢ RP_NOT_ENOUGH_SPACE }
    // `RP_OUT_OF_MEMORY`: there is a box or an exclusion.
    ensures memory { result ≡ RP_OUT_OF_MEMORY →
        0 < length collection.now.boxes.now + length collection.now.exclusions.now }
    ensures unchanged { result ≢ RP_DONE →
        (placements.new ≡ placements.old) × (fitted.new ≡ fitted.old) }
{
    let fault = fault(collection, heuristic, placements.len());
    if fault != RP_DONE {
        return fault;
    }
    let mut held = session.take(alloc);
    let left = left_outstanding();
    let answer = fit_into(alloc, &mut held, collection, heuristic, placements, left);
    *session = RpSession::of(held);
    match answer {
        Ok(chosen) => {
            *fitted = RpFitted {
                heuristic: chosen,
                left: numbers_left(placements),
            };
            RP_DONE
        }
        Err(error) => refusal(error),
    }
}

// What is written of a box that is left.
pub(crate) fn left_placement() -> RpPlacement
    ensures { result ≡ left_placement }
{
    RpPlacement {
        bin: RP_LEFT_BIN,
        x: 0,
        y: 0,
        z: 0,
    }
}

// The same in a session.
pub(crate) fn left_outstanding() -> RpOutstanding
    ensures { result ≡ left_outstanding }
{
    RpOutstanding {
        number: RP_LEFT_NUMBER,
        placement: left_placement(),
    }
}

// How many placements say that their box is left.
fn left_among(placements: &[RpPlacement]) -> usize
    ensures { result ≡ count_by says_left placements.now }
{
    placements
        .iter()
        .filter(|placement| placement.bin == RP_LEFT_BIN)
        .count()
}

// The same in a session.
fn numbers_left(placements: &[RpOutstanding]) -> usize
    ensures { result ≡ count_by number_says_left placements.now }
{
    placements
        .iter()
        .filter(|placement| placement.number == RP_LEFT_NUMBER)
        .count()
}

// Packs what fits into the session, and writes the placements, and `left` for each box that is
// left: the number of the heuristic that packed.
fn fit_into<T: Written<Outstanding<u32, u32>>>(
    alloc: Global,
    session: &mut Session<u32, u32>,
    collection: &RpCollection<'_>,
    heuristic: u32,
    placements: &mut [T],
    left: T,
) -> Result<u32, SessionError>
    requires sound { fault_of collection.now heuristic (length placements.old) ≡ 0 }
    ensures packed { IfOk result (λ chosen.
        FitsCollection heuristic (all_boxes collection.now) collection.now.exclusions.now chosen
        session.old session.new) }
    ensures refused { IfErr result (λ error.
        RefusesFitting (all_boxes collection.now) collection.now.exclusions.now
        session.old error session.new) }
    ensures memory { length collection.now.boxes.now ≡ 0 →
        length collection.now.exclusions.now ≡ 0 → result ≢ Err OutOfMemory }
    ensures always { IsSession nat_cmp session.new }
    ensures next { IfOk result (λ _. session.new.next < 2 ^ 64) }
    ensures written { IfOk result
        (λ _. NewAreWrittenAmong T.written left session.old session.new placements.new) }
    ensures unchanged { IfErr result (λ _. placements.new ≡ placements.old) }
{
    let known = session.outstanding().len();
    let rects = collection_of(alloc, collection)?;
    let (best, _fitted) = fit_asked(session, &rects, heuristic)?;
    write_among(&session.outstanding()[known..], placements, left);
    // For the proof: the next number is asked for, since it is of 64 bits.
    let _next = session.next_number();
    Ok(number_of(best))
}

// Packs what fits with the heuristic of this number, or with the best of all.
fn fit_asked<'a>(
    session: &mut Session<u32, u32>,
    rects: &'a GroupedRectsToPlace<u32, u32>,
    heuristic: u32,
) -> Result<(Heuristic, Fitted<'a, Packed, Group<u32, u32>>), SessionError>
    requires known { asked heuristic ≢ [] }
    ensures packed { PacksFittingBest group_order nat_cmp nat_cmp (asked heuristic) rects.now
        session.old result session.new }
    ensures promise { FitsBestAsPromised group_order nat_cmp nat_cmp rects.now
        session.old result session.new }
    ensures no_groups { rects.now.groups ≡ [] → IsOk result }
    ensures always { IsSession nat_cmp session.new }
{
    match heuristic_of(heuristic) {
        Some(one) => session.pack_fitting_best(rects, &[one]),
        None => session.pack_fitting_best(rects, &all()),
    }
}

// Writes each outstanding placement at the index of its box, and `left` at each other index.
pub(crate) fn write_among<T: Written<Outstanding<u32, u32>>>(
    outstanding: &[Outstanding<u32, u32>],
    placements: &mut [T],
    left: T,
)
    requires within { All (λ o. o.id < length placements.old) outstanding.now }
    requires once { AllPairs (λ o p. o.id ≢ p.id) outstanding.now }
    ensures { AreWrittenAmong T.written left outstanding.now placements.new }
{
    fill(placements, left);
    write_all(outstanding, placements);
}

// Writes this at each index.
fn fill<T: Copy>(entries: &mut [T], value: T)
    ensures { (k : ℕ) → k < length entries.new → slice_get entries.new k ≡ Some value }
{
    for entry in entries.iter_mut() {
        *entry = value;
    }
}
