//! How many bins a collection needs, whatever packer places it, for C.
ghost use Rattle.std.specs.Prelude.{◌≡◌, ◌≢◌, ◌≤◌, ◌==◌, List, Some, None, IfOk, MatchBool};
ghost use Rattle.rectangle_pack_c.specs.Bounding.{IsLeast, IsPackedAnyhow, bins_claimed, fault_with};
ghost use Rattle.rectangle_pack_c.specs.declared.judging.RpClaim.{RpClaim};

use super::collection::{RP_VOLUME, RpCollection, collection_of, fault};
use super::turning::turns_in;
use super::{
    LIMIT, RP_BAD_LENGTHS, RP_DONE, RP_NOT_ENOUGH_SPACE, RP_OUT_OF_MEMORY, RpBin, session_of,
};
use rectangle_pack::{SessionError, least_bins};
use std::alloc::Global;

/// Writes how many of the bins a collection needs at least, whatever packer places it. A packing
/// here puts each box, and each member as a box, inside a bin, so that no two share a cell, and
/// groups that are excluded are in different bins; boxes of one group may be in different bins.
/// `turns` has a number for each box, which says how it may be turned, as in `RpEntry`; a member is
/// turned as its box, and a box behind the end of the list is not turned. It is a lower bound: more
/// bins may be needed.
///
/// `RP_DONE`; `RP_NOT_ENOUGH_SPACE` where it is shown that there is no packing at all;
/// `RP_OUT_OF_MEMORY`; or, looked at first and in this order, `RP_BAD_LENGTHS` where there are 2^32
/// bins or more, or boxes and members together, `RP_UNKNOWN_BOX` or `RP_EQUAL_GROUPS`. But for
/// `RP_DONE` nothing is written.
#[unsafe(no_mangle)]
pub extern "C" fn rectangle_pack_least_bins(
    alloc: Global,
    bins: &[RpBin],
    collection: &RpCollection<'_>,
    turns: &[u32],
    least: &mut usize,
) -> u32
    // The first thing that is wrong with the arguments is answered, looked at in this order:
    //   `RP_BAD_LENGTHS`, `RP_UNKNOWN_BOX`, `RP_EQUAL_GROUPS`. Each of them comes only so.
    // Where nothing is wrong, the status is `RP_DONE`, `RP_NOT_ENOUGH_SPACE` or `RP_OUT_OF_MEMORY`.
    ensures faults { let fault = fault_with bins.now collection.now in
        MatchBool (fault == 0) (result ≤ RP_OUT_OF_MEMORY) (result ≡ fault) }
    // Where the status is not `RP_DONE`, nothing is written.
    ensures unchanged { result ≢ RP_DONE → least.new ≡ least.old }
    // `RP_DONE`: each packing of these boxes into these bins, whoever made it, has boxes in at
    //   least as many bins as are written. A packing is what `rectangle_pack_check` finds no fault
    //   with; but boxes of one group may be in different bins.
    //   [rectangle_pack_least_bins.one_more_is_written, turns_in.no_box_is_turned,
    //   box_index.member_is_the_box_of_its_own_index]
    ensures placed { result ≡ RP_DONE → (claims : List RpClaim) →
        IsPackedAnyhow bins.now collection.now turns.now claims →
        least.new ≤ bins_claimed claims }
    // `RP_NOT_ENOUGH_SPACE`: there is no such packing.
    ensures never_placed { result ≡ RP_NOT_ENOUGH_SPACE → (claims : List RpClaim) →
        ¬ IsPackedAnyhow bins.now collection.now turns.now claims }
    // `RP_DONE`: what is written is the number of the collection in these bins, as `needed` and
    //   `shown` of `least_bins` say it. [rectangle_pack_least_bins.no_packing_is_no_bin]
    ensures least { result ≡ RP_DONE →
        IsLeast bins.now collection.now turns.now (Some least.new) }
    // `RP_NOT_ENOUGH_SPACE`: `least_bins` answers that there is no packing.
    ensures none { result ≡ RP_NOT_ENOUGH_SPACE →
        IsLeast bins.now collection.now turns.now None }
{
    if bins.len() >= LIMIT {
        return RP_BAD_LENGTHS;
    }
    let count = collection.boxes.len() + collection.members.len();
    let fault = fault(collection, RP_VOLUME, count);
    if fault != RP_DONE {
        return fault;
    }
    match least_of(alloc, bins, collection, turns) {
        Ok(Some(shown)) => {
            *least = shown;
            RP_DONE
        }
        Ok(None) => RP_NOT_ENOUGH_SPACE,
        Err(_) => RP_OUT_OF_MEMORY,
    }
}

// How many of the bins the collection needs at least.
fn least_of(
    alloc: Global,
    bins: &[RpBin],
    collection: &RpCollection<'_>,
    turns: &[u32],
) -> Result<Option<usize>, SessionError>
    requires { fault_with bins.now collection.now ≡ 0 }
    ensures { IfOk result (IsLeast bins.now collection.now turns.now) }
{
    let session = session_of(alloc, bins)?;
    let rects = collection_of(alloc, collection)?;
    let turned = turns_in(alloc, collection, turns)?;
    Ok(least_bins(alloc, &rects, session.bins(), &turned)?)
}
