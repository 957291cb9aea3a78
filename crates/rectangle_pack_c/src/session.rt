//! A session for C: bins that stay, and boxes that are packed into them and released by number.
ghost use Rattle.std.specs.Prelude.{◌≡◌, ◌≢◌, ◌↔◌, ◌⊎◌, ◌<◌, ◌+◌, [], length, None, Some, IsSome, IfSome, ℕ};
ghost use Rattle.std.specs.Ordering.{nat_cmp};
ghost use Rattle.std.specs.Map.{lookup};
ghost use Rattle.std.specs.BTreeMap.{is_at};
ghost use Rattle.rectangle_pack.specs.Bins.{Bin};
ghost use Rattle.rectangle_pack.specs.Boxes.{Size};
ghost use Rattle.rectangle_pack.specs.Joining.{IsJoined, IsSwept, ShareNoFace};
ghost use Rattle.rectangle_pack.specs.Session.{State, AddsBin, Releases, Coalesces, reply_of};
ghost use Rattle.rectangle_pack.specs.declared.session.command.Reply.TheVariants.{Refused};
ghost use Rattle.rectangle_pack_c.specs.Collections.{all_boxes, fault_of};
ghost use Rattle.rectangle_pack_c.specs.Sessions.{ChangesAs, AreAsMany, PacksCollection, ArePackedNow, StandApart, TellsStats, reply_status, volume};

use super::collection::{RP_BEST, RP_VOLUME, RpCollection, fault};
use super::handle::RpSession;
use super::{
    RP_BAD_LENGTHS, RP_BIN_IN_USE, RP_DONE, RP_DUPLICATE_BIN, RP_NOT_ENOUGH_SPACE, RP_NOT_FREE,
    RP_NOT_FROM_CUTS, RP_NUMBERS_USED_UP, RP_OUT_OF_MEMORY, RP_TOO_LARGE, RP_UNKNOWN_BIN,
    RP_UNKNOWN_PLACEMENT, RpBox, RpPlacement, Written, pack_into,
};
use rectangle_pack::{Outstanding, Session, SessionError};
use std::alloc::Global;

// What a number of 64 bits does not hold.
const WORD: u128 = 0x1_0000_0000_0000_0000;

/// A placement with its number, by which it is released.
#[repr(C)]
#[derive(Clone, Copy)]
pub struct RpOutstanding {
    /// Its number.
    pub number: u64,
    /// Where the box stands.
    pub placement: RpPlacement,
}

/// A volume in cells: `low + high * 2^64`.
#[repr(C)]
#[derive(Clone, Copy)]
pub struct RpVolume {
    /// Its lower 64 bits.
    pub low: u64,
    /// Its other bits, 0 in two dimensions.
    pub high: u64,
}

/// What is free and what is placed in a bin.
#[repr(C)]
#[derive(Clone, Copy)]
pub struct RpStats {
    /// The volume of the bin.
    pub bin_volume: RpVolume,
    /// The volumes of its free sections, added up.
    pub free_volume: RpVolume,
    /// The volumes of the outstanding placements in it, added up.
    pub placed_volume: RpVolume,
    /// How many free sections it has.
    pub free_sections: usize,
    /// How many placements are outstanding in it.
    pub placements: usize,
}

/// Makes a session without bins; the first placement gets the number 0. `RP_DONE` or
/// `RP_OUT_OF_MEMORY`, and then the handle is as before.
#[unsafe(no_mangle)]
pub extern "C" fn rectangle_pack_session_new(alloc: Global, session: &mut RpSession) -> u32
    // The handle has no session.
    requires empty { session.old.state ≡ None }
    // The status is `RP_DONE` or `RP_OUT_OF_MEMORY`.
    ensures status { (result ≡ RP_DONE) ⊎ (result ≡ RP_OUT_OF_MEMORY) }
    // `RP_DONE`: the handle has a session without bins and placements, whose next number is 0.
    //   [rectangle_pack_session_new.first_number_is_one]
    ensures made { result ≡ RP_DONE →
        session.new.state ≡ Some (record { bins = []; outstanding = []; next = 0 }) }
    // `RP_OUT_OF_MEMORY`: the handle has no session.
    ensures refused { result ≡ RP_OUT_OF_MEMORY → session.new.state ≡ None }
{
    let Ok(made) = Box::new(alloc, Session::new(alloc, 0)) else {
        return RP_OUT_OF_MEMORY;
    };
    *session = RpSession::of(made);
    RP_DONE
}

/// Frees a session with its bins. The handle is then as before `rectangle_pack_session_new`.
#[unsafe(no_mangle)]
pub extern "C" fn rectangle_pack_session_free(alloc: Global, session: &mut RpSession)
    requires made { IsSome session.old.state }
    // Afterwards the handle has no session. [rectangle_pack_session_free.nothing_is_freed]
    ensures freed { session.new.state ≡ None }
{
    drop(session.take(alloc));
}

/// Adds a bin of this size, in cells, all of it free. `RP_DONE`, `RP_DUPLICATE_BIN` where a bin of
/// this id is there, or `RP_OUT_OF_MEMORY`. What is not done leaves the session as it was.
#[unsafe(no_mangle)]
pub extern "C" fn rectangle_pack_session_add_bin(
    alloc: Global,
    session: &mut RpSession,
    bin: u32,
    width: u32,
    height: u32,
    depth: u32,
) -> u32
    requires made { IsSome session.old.state }
    // The bin is added, or not, as `added` of `Session::add_bin` says it, and the status is that of
    //   the answer: `RP_DONE`, `RP_DUPLICATE_BIN` or `RP_OUT_OF_MEMORY`. What always holds of a
    //   session holds afterwards. [rectangle_pack_session_add_bin.bin_is_turned]
    ensures added { let size : Size = record { width = width; height = height; depth = depth } in
        ChangesAs (AddsBin nat_cmp bin size) session.old.state result session.new.state }
{
    let mut held = session.take(alloc);
    let answer = held.add_bin(bin, width, height, depth);
    *session = RpSession::of(held);
    status(&answer)
}

/// Gives a placement back by its number: its cells are free again. `RP_DONE`,
/// `RP_UNKNOWN_PLACEMENT` where no placement of this number is outstanding, or `RP_OUT_OF_MEMORY`.
/// What is not done leaves the session as it was.
#[unsafe(no_mangle)]
pub extern "C" fn rectangle_pack_session_release(
    alloc: Global,
    session: &mut RpSession,
    number: u64,
) -> u32
    requires made { IsSome session.old.state }
    // The placement of this number is released, or not, as `released` of `Session::release` says
    //   it, and the status is that of the answer: `RP_DONE`, `RP_UNKNOWN_PLACEMENT` or
    //   `RP_OUT_OF_MEMORY`. What always holds of a session holds afterwards.
    //   [rectangle_pack_session_release.first_number_is_released]
    ensures released { ChangesAs (Releases nat_cmp number)
        session.old.state result session.new.state }
{
    let mut held = session.take(alloc);
    let answer = held.release(number);
    *session = RpSession::of(held);
    status(&answer)
}

/// Joins the free sections of a bin until no two share a whole face. `RP_DONE`, or
/// `RP_UNKNOWN_BIN` where there is no such bin. Takes no memory.
#[unsafe(no_mangle)]
pub extern "C" fn rectangle_pack_session_coalesce_all(
    alloc: Global,
    session: &mut RpSession,
    bin: u32,
) -> u32
    requires made { IsSome session.old.state }
    // The bin is swept, or not, as `swept` of `Session::coalesce_all` says it, and the status is
    //   that of the answer: `RP_DONE` or `RP_UNKNOWN_BIN`. What always holds of a session holds
    //   afterwards. [rectangle_pack_session_coalesce_all.another_bin_is_joined]
    ensures swept { ChangesAs (Coalesces nat_cmp IsSwept bin)
        session.old.state result session.new.state }
    // Afterwards no two free sections of that bin share a whole face.
    //   [rectangle_pack_session_coalesce_all.another_bin_is_joined]
    ensures no_face { IfSome session.new.state (λ (state : State ℕ ℕ).
        IfSome (lookup (is_at (nat_cmp bin)) state.bins) (λ (b : Bin). ShareNoFace b.sections)) }
{
    let mut held = session.take(alloc);
    let answer = held.coalesce_all(&bin);
    *session = RpSession::of(held);
    status(&answer)
}

/// Joins the free section of a bin that has this index in the bin's list with those of the range
/// from `start` to below `end` that share a whole face with it, as `Session::coalesce` does.
/// `RP_DONE`, or `RP_UNKNOWN_BIN` where there is no such bin. Takes no memory.
#[unsafe(no_mangle)]
pub extern "C" fn rectangle_pack_session_coalesce(
    alloc: Global,
    session: &mut RpSession,
    bin: u32,
    index: usize,
    start: usize,
    end: usize,
) -> u32
    requires made { IsSome session.old.state }
    // The section of this index is joined with those of the range, or not, as `joined` of
    //   `Session::coalesce` says it, and the status is that of the answer: `RP_DONE` or
    //   `RP_UNKNOWN_BIN`. What always holds of a session holds afterwards.
    //   [rectangle_pack_session_coalesce.section_is_the_start]
    ensures joined { ChangesAs (Coalesces nat_cmp (IsJoined index start end) bin)
        session.old.state result session.new.state }
{
    let mut held = session.take(alloc);
    let answer = held.coalesce(&bin, index, start..end);
    *session = RpSession::of(held);
    status(&answer)
}

/// Packs all boxes into the bins of the session: placement i, with its number, is that of box i.
/// Groups go in falling order of the sum of their volumes, each whole into the first bin, by rising
/// volume, that takes it. `RP_DONE`, `RP_NOT_ENOUGH_SPACE` where for some group no bin takes all of
/// its boxes, `RP_OUT_OF_MEMORY`, `RP_NUMBERS_USED_UP` or `RP_BAD_LENGTHS`. What is not done leaves
/// the session as it was, and writes no placement.
#[unsafe(no_mangle)]
pub extern "C" fn rectangle_pack_session_pack(
    alloc: Global,
    session: &mut RpSession,
    boxes: &[RpBox],
    placements: &mut [RpOutstanding],
) -> u32
    requires made { IsSome session.old.state }
    // `RP_BAD_LENGTHS` is answered exactly where there are not as many placements as boxes, or
    //   there are 2^32 boxes or more. [are_as_many.placements_may_be_more]
    ensures lengths { (result ≢ RP_BAD_LENGTHS) ↔ AreAsMany boxes.now placements.old }
    // `RP_BAD_LENGTHS`: the session is as it was.
    ensures bad_lengths { result ≡ RP_BAD_LENGTHS → session.new.state ≡ session.old.state }
    // `RP_DONE`, `RP_NOT_ENOUGH_SPACE` and `RP_NUMBERS_USED_UP`: the boxes, in their groups, are
    //   packed into the bins of the session by volume, or not, as `packed` and `promise` of
    //   `Session::pack_best` say it of this heuristic alone. What always holds of a session holds
    //   afterwards. [push_box.box_is_turned, rectangle_pack_session_pack.another_heuristic]
    // `RP_OUT_OF_MEMORY`: the session is as it was. What always holds of a session holds
    //   afterwards.
    // No status but these and `RP_BAD_LENGTHS` is answered.
    ensures packed { result ≢ RP_BAD_LENGTHS →
        ChangesAs (PacksCollection RP_VOLUME boxes.now [] RP_VOLUME)
        session.old.state result session.new.state }
    // `RP_DONE`: each box is outstanding, in its size, in the bin and at the corner that its
    //   placement names, under the number that its placement has. [of.number_is_the_index]
    // `RP_DONE`: these numbers differ, and none is below the next number of before.
    //   [of.number_is_the_index]
    // `RP_DONE`: the boxes of one group above 0 are in one bin. [of.bin_is_the_box]
    ensures done { result ≡ RP_DONE →
        ArePackedNow boxes.now placements.new session.old.state session.new.state }
    // `RP_OUT_OF_MEMORY`: there is a box.
    ensures memory { result ≡ RP_OUT_OF_MEMORY → 0 < length boxes.now }
    ensures unchanged { result ≢ RP_DONE → placements.new ≡ placements.old }
{
    let mut chosen = RP_VOLUME;
    let collection = RpCollection::of(boxes);
    rectangle_pack_session_pack_collection(
        alloc,
        session,
        &collection,
        RP_VOLUME,
        placements,
        &mut chosen,
    )
}

/// Packs a collection into the bins of the session: placement i, with its number, is that of box i,
/// and behind those of the boxes stand those of the members. `heuristic` is the number of one, or
/// `RP_BEST`; the number of the one that was packed with is written to `chosen`.
/// `RP_DONE`, `RP_NOT_ENOUGH_SPACE`, `RP_OUT_OF_MEMORY`, `RP_NUMBERS_USED_UP`, `RP_BAD_LENGTHS`,
/// `RP_UNKNOWN_HEURISTIC`, `RP_UNKNOWN_BOX` or `RP_EQUAL_GROUPS`. What is not done leaves the
/// session as it was, and writes nothing.
#[unsafe(no_mangle)]
pub extern "C" fn rectangle_pack_session_pack_collection(
    alloc: Global,
    session: &mut RpSession,
    collection: &RpCollection<'_>,
    heuristic: u32,
    placements: &mut [RpOutstanding],
    chosen: &mut u32,
) -> u32
    requires made { IsSome session.old.state }
    // The first thing that is wrong with the arguments is answered, looked at in this order:
    //   `RP_BAD_LENGTHS`, `RP_UNKNOWN_HEURISTIC`, `RP_UNKNOWN_BOX`, `RP_EQUAL_GROUPS`. Then the
    //   session is as it was. [name_no_box.one_more_is_allowed]
    ensures faults { let fault = fault_of collection.now heuristic (length placements.old) in
        fault ≢ 0 → (result ≡ fault) × (session.new.state ≡ session.old.state) }
    // Else the collection is packed into the bins of the session, or not, as `packed` and `promise`
    //   of `Session::pack_best` say it of the heuristics that are asked for: the one of this
    //   number, or all. The status is that of the answer: `RP_DONE`, `RP_NOT_ENOUGH_SPACE`,
    //   `RP_NUMBERS_USED_UP` or `RP_OUT_OF_MEMORY`. What always holds of a session holds
    //   afterwards. [groups_of.groups_are_one, pack_asked.volume_is_the_best]
    // `RP_DONE`: the number of the heuristic that packed is written.
    //   [rectangle_pack_session_pack_collection.asked_is_chosen]
    ensures packed { fault_of collection.now heuristic (length placements.old) ≡ 0 →
        ChangesAs (PacksCollection heuristic (all_boxes collection.now)
        collection.now.exclusions.now chosen.new)
        session.old.state result session.new.state }
    // `RP_DONE`: each box, and each member as a box in its group, is outstanding, in its size, in
    //   the bin and at the corner that its placement names, under the number that its placement
    //   has; these numbers differ, and none is below the next number of before; those of one group
    //   above 0 are in one bin. [push_members.member_takes_a_box_place]
    ensures done { result ≡ RP_DONE →
        ArePackedNow (all_boxes collection.now) placements.new
        session.old.state session.new.state }
    // `RP_DONE`: boxes of groups that are excluded are in different bins.
    //   [exclude_all.a_box_is_excluded]
    ensures apart { result ≡ RP_DONE →
        StandApart (all_boxes collection.now) collection.now.exclusions.now placements.new }
    // `RP_OUT_OF_MEMORY`: there is a box or an exclusion.
    ensures memory { result ≡ RP_OUT_OF_MEMORY →
        0 < length collection.now.boxes.now + length collection.now.exclusions.now }
    ensures unchanged { result ≢ RP_DONE →
        (placements.new ≡ placements.old) × (chosen.new ≡ chosen.old) }
{
    let fault = fault(collection, heuristic, placements.len());
    if fault != RP_DONE {
        return fault;
    }
    let mut held = session.take(alloc);
    let answer = pack_into(alloc, &mut held, collection, heuristic, placements);
    *session = RpSession::of(held);
    match answer {
        Ok(best) => {
            *chosen = best;
            RP_DONE
        }
        Err(error) => refusal(error),
    }
}

impl Written<Outstanding<u32, u32>> for RpOutstanding {
    ghost use Rattle.rectangle_pack_c.specs.private.Written.{as_outstanding};

    ghost written = { as_outstanding };

    fn of(outstanding: &Outstanding<u32, u32>) -> Self {
        RpOutstanding {
            number: outstanding.number,
            placement: RpPlacement::of(outstanding),
        }
    }
}

/// Writes the statistics of a bin. `RP_DONE`, or `RP_UNKNOWN_BIN` where there is no such bin, and
/// then nothing is written. Takes no memory, and leaves the session as it was.
#[unsafe(no_mangle)]
pub extern "C" fn rectangle_pack_session_stats(
    alloc: Global,
    session: &mut RpSession,
    bin: u32,
    stats: &mut RpStats,
) -> u32
    requires made { IsSome session.old.state }
    // `RP_DONE`: the bin is there, and what is written are its statistics, as `stats` of
    //   `Session::stats` says it. The free and the placed volume add up to that of the bin.
    //   [rectangle_pack_session_stats.free_for_placed]
    // `RP_UNKNOWN_BIN`: there is no such bin, and nothing is written. No other status is answered.
    ensures told { TellsStats session.old.state bin result stats.old stats.new }
    ensures unchanged { session.new.state ≡ session.old.state }
{
    let held = session.take(alloc);
    let answer = held.stats(&bin);
    *session = RpSession::of(held);
    let Some(found) = answer else {
        return RP_UNKNOWN_BIN;
    };
    *stats = RpStats {
        bin_volume: parted(found.bin_volume),
        free_volume: parted(found.free_volume),
        placed_volume: parted(found.placed_volume),
        free_sections: found.free_sections,
        placements: found.placements,
    };
    RP_DONE
}

// The two parts of a volume.
pub(crate) fn parted(cells: u128) -> RpVolume
    ensures { volume result ≡ cells }
{
    RpVolume {
        low: (cells % WORD) as u64,
        high: (cells / WORD) as u64,
    }
}

// The status of an answer.
pub(crate) fn status(answer: &Result<(), SessionError>) -> u32
    ensures { result ≡ reply_status (reply_of answer.now) }
{
    match answer {
        Ok(()) => RP_DONE,
        Err(error) => refusal(*error),
    }
}

// The status of a refusal.
pub(crate) fn refusal(error: SessionError) -> u32
    ensures { result ≡ reply_status (Refused error) }
{
    match error {
        SessionError::NotEnoughBinSpace => RP_NOT_ENOUGH_SPACE,
        SessionError::OutOfMemory => RP_OUT_OF_MEMORY,
        SessionError::DuplicateBin => RP_DUPLICATE_BIN,
        SessionError::UnknownBin => RP_UNKNOWN_BIN,
        SessionError::UnknownPlacement => RP_UNKNOWN_PLACEMENT,
        SessionError::NumbersUsedUp => RP_NUMBERS_USED_UP,
        SessionError::BinInUse => RP_BIN_IN_USE,
        SessionError::TooLarge => RP_TOO_LARGE,
        SessionError::NotFree => RP_NOT_FREE,
        SessionError::NotFromCuts => RP_NOT_FROM_CUTS,
    }
}
