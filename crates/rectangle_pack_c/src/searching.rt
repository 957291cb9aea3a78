//! Packings that are searched for, for C: in one call, or of a search that was made in pieces.
ghost use Rattle.std.specs.Prelude.{◌≡◌, ◌≢◌, ◌==◌, ◌≤◌, IsSome, None, MatchBool, length};
ghost use Rattle.rectangle_pack_c.specs.Collections.{all_boxes, fault_in, fault_of};
ghost use Rattle.rectangle_pack_c.specs.Searching.{AnswersSearch, AnswersSearchInto, AreLaid, IsRefusedSearch, LaidApart, SearchesInto, SearchesNewBins, StandLaidApart, fault_searching};
ghost use Rattle.rectangle_pack_c.specs.Sessions.{ChangesAs};

use super::collection::{RP_VOLUME, RpCollection};
use super::finding::{Wanted, search_into, search_new};
use super::handle::{RpSearch, RpSession};
use super::reading::RpSection;
use super::standing::RpStanding;
use super::{RP_DONE, RP_NOT_ENOUGH_SPACE, RP_OUT_OF_MEMORY, RpBin, Written};
use rectangle_pack::Outstanding;
use std::alloc::Global;

/// What it costs to use a bin.
#[repr(C)]
#[derive(Clone, Copy)]
pub struct RpCost {
    /// The index of the bin in the list of bins; in a session its id.
    pub bin: u32,
    /// What it costs.
    pub cost: u64,
}

/// How a search goes on, and what it may do.
#[repr(C)]
#[derive(Clone, Copy)]
pub struct RpSearchOptions<'a> {
    /// The size of this struct, in bytes. A later library may have a longer one.
    pub size: usize,
    /// After so many tries a search in one call ends.
    pub tries: u64,
    /// Equal seeds search alike.
    pub seed: u64,
    /// 0 where nothing may be left; else groups may be left that find no space.
    pub may_leave: u32,
    /// How each box may be turned, as `RpEntry` has it. A box behind the end of the list is not
    /// turned. A member is turned as its box.
    pub turns: &'a [u32],
    /// What bins cost; 1 where a bin is not named. Of several entries of a bin the first one counts.
    pub costs: &'a [RpCost],
}

/// Where a box stands that may be turned: its bin, its corner there, and its size as it stands.
#[repr(C)]
#[derive(Clone, Copy)]
pub struct RpLocation {
    /// The index of the bin, or `RP_LEFT_BIN`.
    pub bin: u32,
    /// Where it is in the bin.
    pub section: RpSection,
}

/// What is written of a packing that was searched for.
#[repr(C)]
#[derive(Clone, Copy)]
pub struct RpSearched {
    /// How many boxes, and members, are left.
    pub left: usize,
    /// How many bins have a box.
    pub used: usize,
    /// How many bins are needed at least, whatever packer places all boxes; `RP_NO_PACKING` where
    /// none can.
    pub least: usize,
    /// 1 where it is proved that no packer uses fewer bins, else 0.
    pub is_optimal: u32,
    /// How many tries were made.
    pub tries: u64,
}

/// In place of how many bins are needed: there is no packing of all boxes.
pub const RP_NO_PACKING: usize = 0xffff_ffff_ffff_ffff;

impl Written<Outstanding<u32, u32>> for RpLocation {
    ghost use Rattle.rectangle_pack_c.specs.private.Written.{as_location};

    ghost written = { as_location };

    fn of(outstanding: &Outstanding<u32, u32>) -> Self {
        let standing = RpStanding::of(outstanding);
        RpLocation {
            bin: standing.bin,
            section: standing.section,
        }
    }
}

/// Searches for a packing of a collection into the bins that is better than that of any heuristic:
/// it leaves fewer cells, or as many in bins that cost less, or as much with fewer bins, or as many
/// with fewer cells in the last one. Groups go whole, and boxes are turned only as the options say.
/// After the options' `tries` it ends. Placement i is where box i stands, and behind those of the
/// boxes stand those of the members; of one that is left, its bin is `RP_LEFT_BIN`, and all of its
/// section is 0. What was found is written to `searched`.
///
/// `RP_DONE`; `RP_NOT_ENOUGH_SPACE` where nothing may be left, the packing is refused with each
/// heuristic, and none was found; `RP_OUT_OF_MEMORY`; or, looked at first and in this order,
/// `RP_UNKNOWN_OPTIONS`, `RP_BAD_LENGTHS`, `RP_UNKNOWN_BOX` or `RP_EQUAL_GROUPS`. But for `RP_DONE`
/// nothing is written. Equal calls get equal answers.
#[unsafe(no_mangle)]
pub extern "C" fn rectangle_pack_searched(
    alloc: Global,
    bins: &[RpBin],
    collection: &RpCollection<'_>,
    options: &RpSearchOptions<'_>,
    placements: &mut [RpLocation],
    searched: &mut RpSearched,
) -> u32
    // The first thing that is wrong with the arguments is answered: the options have another size
    //   than `RpSearchOptions`, or what `rectangle_pack_collection` says of the others. Where
    //   nothing is wrong, the status is `RP_DONE`, `RP_NOT_ENOUGH_SPACE` or `RP_OUT_OF_MEMORY`.
    ensures faults { let fault = fault_searching options.now
        (fault_in bins.now collection.now RP_VOLUME (length placements.old)) in
        MatchBool (fault == 0) (result ≤ RP_OUT_OF_MEMORY) (result ≡ fault) }
    // Where the status is not `RP_DONE`, nothing is written.
    ensures unchanged { result ≢ RP_DONE →
        (placements.new ≡ placements.old) × (searched.new ≡ searched.old) }
    // `RP_DONE`: the collection is packed into a new session with these bins, each under its index,
    //   as `packed` and `promise` of `Session::pack_searched` say it of these turns and costs. How
    //   many bins have a box, how many are needed, and whether the packing is optimal is written as
    //   it is answered there. [told_of.each_packing_is_optimal, options_of.nothing_may_be_left,
    //   costs_in.last_cost_counts]
    // `RP_DONE`: each box, and each member as a box in its group, is placed in the bin and at the
    //   place that its placement names, in a size in which it may stand, and its group is not left;
    //   or its group is left, and its placement says so. How many say so is written.
    //   [of.location_is_in_bin_0, search_new.left_is_one_short]
    ensures packed { result ≡ RP_DONE →
        SearchesNewBins collection.now options.now bins.now placements.new searched.new }
    // `RP_DONE`: each box that is not left stands inside the bin that its placement names, in a
    //   size in which it may stand; no two in one bin share a cell; those of one group above 0 are
    //   all left, or all in one bin.
    ensures done { result ≡ RP_DONE →
        AreLaid bins.now collection.now options.now.turns.now placements.new }
    // `RP_DONE`: boxes of groups that are excluded, and not left, are in different bins.
    ensures apart { result ≡ RP_DONE →
        LaidApart (all_boxes collection.now) collection.now.exclusions.now placements.new }
    // `RP_NOT_ENOUGH_SPACE`: nothing may be left, and with each heuristic that has a number, for
    //   some group each bin is excluded or does not take all of its boxes, as the groups before it
    //   left the bins.
    ensures refused { result ≡ RP_NOT_ENOUGH_SPACE →
        IsRefusedSearch collection.now options.now bins.now }
{
    let wanted = Wanted {
        collection,
        options,
    };
    search_new(alloc, bins, &wanted, None, placements, searched)
}

/// Packs what a search found into the bins, or the best that a heuristic finds where that is as
/// good. The search was begun by `rectangle_pack_search_begin` with equal bins, collection and
/// options; where it was not, what it found may be of no use, and what is promised holds
/// nevertheless. The options' `tries` do not count. What is written, and the statuses, are those of
/// `rectangle_pack_searched`. The handle has no search afterwards, whatever the status.
#[unsafe(no_mangle)]
pub extern "C" fn rectangle_pack_found(
    alloc: Global,
    bins: &[RpBin],
    collection: &RpCollection<'_>,
    options: &RpSearchOptions<'_>,
    search: &mut RpSearch,
    placements: &mut [RpLocation],
    searched: &mut RpSearched,
) -> u32
    // The handle has a search.
    requires begun { IsSome search.old.state }
    // All that the clauses of `rectangle_pack_searched` say is so.
    ensures answer { AnswersSearch bins.now collection.now options.now result placements.old
        placements.new searched.old searched.new }
    // The handle has no search.
    ensures ended { search.new.state ≡ None }
{
    let wanted = Wanted {
        collection,
        options,
    };
    let held = search.take(alloc);
    let search = Some(Box::into_inner(held));
    search_new(alloc, bins, &wanted, search, placements, searched)
}

/// The same as `rectangle_pack_searched`, into the bins of the session: placement i, with its
/// number, is that of box i, and its index is i; of one that is left, its number is
/// `RP_LEFT_NUMBER`, its bin `RP_LEFT_BIN`, and all else is 0. The bins of `costs` are ids. What
/// stood in the bins before does not count for how many are used and needed. `RP_NUMBERS_USED_UP`
/// can come too. What is not done leaves the session as it was, and writes nothing.
#[unsafe(no_mangle)]
pub extern "C" fn rectangle_pack_session_pack_searched(
    alloc: Global,
    session: &mut RpSession,
    collection: &RpCollection<'_>,
    options: &RpSearchOptions<'_>,
    placements: &mut [RpStanding],
    searched: &mut RpSearched,
) -> u32
    // The handle has a session.
    requires made { IsSome session.old.state }
    // The first thing that is wrong with the arguments is answered: the options have another size
    //   than `RpSearchOptions`, or what `rectangle_pack_session_pack_collection` says of the others.
    //   Then the session is as it was.
    ensures faults { let fault = fault_searching options.now
        (fault_of collection.now RP_VOLUME (length placements.old)) in
        fault ≢ 0 → (result ≡ fault) × (session.new.state ≡ session.old.state) }
    // Else the collection is packed into the bins of the session, or not, as `packed` and `promise`
    //   of `Session::pack_searched` say it of these turns and costs. The status is that of the
    //   answer: `RP_DONE`, `RP_NOT_ENOUGH_SPACE`, `RP_NUMBERS_USED_UP` or `RP_OUT_OF_MEMORY`; with
    //   the last three the session is as it was. What always holds of a session holds afterwards.
    // `RP_DONE`: how many bins have a box, how many are needed, and whether the packing is optimal
    //   is written as it is answered there. [told_of.each_packing_is_optimal]
    // `RP_DONE`: each box, and each member as a box in its group, is outstanding in the bin and at
    //   the place that its placement names, in a size in which it may stand, under the number that
    //   its placement has, and its group is not left; or its group is left, and its placement says
    //   so. The numbers of those that are placed differ, and none is below the next number of
    //   before. Those of one group above 0 are all left, or all in one bin.
    //   [left_standing.left_has_number_0]
    ensures packed { fault_searching options.now
        (fault_of collection.now RP_VOLUME (length placements.old)) ≡ 0 →
        ChangesAs (SearchesInto collection.now options.now placements.new searched.new)
        session.old.state result session.new.state }
    // `RP_DONE`: boxes of groups that are excluded, and not left, are in different bins.
    ensures apart { result ≡ RP_DONE →
        StandLaidApart (all_boxes collection.now) collection.now.exclusions.now placements.new }
    // Where the status is not `RP_DONE`, nothing is written.
    ensures unchanged { result ≢ RP_DONE →
        (placements.new ≡ placements.old) × (searched.new ≡ searched.old) }
{
    let wanted = Wanted {
        collection,
        options,
    };
    search_into(alloc, session, &wanted, None, placements, searched)
}

/// The same as `rectangle_pack_found`, into the bins of the session, with a search that was begun
/// by `rectangle_pack_session_search_begin`; where the bins have changed since, what it found may
/// be of no use. What is written, and the statuses, are those of
/// `rectangle_pack_session_pack_searched`. The handle has no search afterwards, whatever the status.
#[unsafe(no_mangle)]
pub extern "C" fn rectangle_pack_session_pack_found(
    alloc: Global,
    session: &mut RpSession,
    collection: &RpCollection<'_>,
    options: &RpSearchOptions<'_>,
    search: &mut RpSearch,
    placements: &mut [RpStanding],
    searched: &mut RpSearched,
) -> u32
    requires made { IsSome session.old.state }
    requires begun { IsSome search.old.state }
    // All that the clauses of `rectangle_pack_session_pack_searched` say is so.
    ensures answer { AnswersSearchInto collection.now options.now session.old.state result
        session.new.state placements.old placements.new searched.old searched.new }
    // The handle has no search.
    ensures ended { search.new.state ≡ None }
{
    let wanted = Wanted {
        collection,
        options,
    };
    let held = search.take(alloc);
    let search = Some(Box::into_inner(held));
    search_into(alloc, session, &wanted, search, placements, searched)
}
