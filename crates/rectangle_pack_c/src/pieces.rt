//! Searches that are made in pieces, for C, by their handle.
ghost use Rattle.std.specs.Prelude.{◌≡◌, ◌≢◌, ◌==◌, ◌⊎◌, IsSome, None, MatchBool};
ghost use Rattle.rectangle_pack_c.specs.Bounding.{fault_with};
ghost use Rattle.rectangle_pack_c.specs.Searching.{fault_alone, fault_searching};

use super::collection::{RpCollection, collection_of};
use super::finding::{Wanted, costs_in, fault_alone, fault_options, options_of};
use super::handle::{RpSearch, RpSession};
use super::searching::RpSearchOptions;
use super::session::{RpVolume, parted};
use super::turning::turns_in;
use super::{LIMIT, RP_BAD_LENGTHS, RP_DONE, RP_OUT_OF_MEMORY, RpBin, session_of};
use rectangle_pack::{Progress, Search, Session};
use std::alloc::{AllocError, Global};

/// How far a search is.
#[repr(C)]
#[derive(Clone, Copy)]
pub struct RpProgress {
    /// How many tries were made.
    pub tries: u64,
    /// The cells of the groups that are left.
    pub left: RpVolume,
    /// What the bins cost that are used, together.
    pub cost: RpVolume,
    /// How many bins are used.
    pub bins: usize,
    /// 1 where there is nothing to be bettered, so that no more tries are made, else 0.
    pub is_over: u32,
}

/// Begins a search for a packing of a collection into the bins, which is made in pieces by
/// `rectangle_pack_search_run`, and ends with `rectangle_pack_found` or `rectangle_pack_search_free`.
/// `RP_DONE`; `RP_OUT_OF_MEMORY`; or, looked at first and in this order, `RP_UNKNOWN_OPTIONS`,
/// `RP_BAD_LENGTHS` where there are 2^32 boxes and members or bins, or more, `RP_UNKNOWN_BOX` or
/// `RP_EQUAL_GROUPS`. But for `RP_DONE` the handle is as before.
#[unsafe(no_mangle)]
pub extern "C" fn rectangle_pack_search_begin(
    alloc: Global,
    bins: &[RpBin],
    collection: &RpCollection<'_>,
    options: &RpSearchOptions<'_>,
    search: &mut RpSearch,
) -> u32
    // The handle has no search.
    requires empty { search.old.state ≡ None }
    // The first thing that is wrong with the arguments is answered. Where nothing is wrong, the
    //   status is `RP_DONE` or `RP_OUT_OF_MEMORY`.
    ensures faults { let fault = fault_searching options.now (fault_with bins.now collection.now) in
        MatchBool (fault == 0) ((result ≡ RP_DONE) ⊎ (result ≡ RP_OUT_OF_MEMORY))
        (result ≡ fault) }
    // `RP_DONE`: the handle has a search. Of what it finds nothing is promised.
    ensures begun { result ≡ RP_DONE → IsSome search.new.state }
    // Else it has none.
    ensures refused { result ≢ RP_DONE → search.new.state ≡ None }
{
    if bins.len() >= LIMIT {
        return fault_options(options, RP_BAD_LENGTHS);
    }
    let fault = fault_options(options, fault_alone(collection));
    if fault != RP_DONE {
        return fault;
    }
    let Ok(session) = session_of(alloc, bins) else {
        return RP_OUT_OF_MEMORY;
    };
    let wanted = Wanted {
        collection,
        options,
    };
    begin(alloc, &session, &wanted, search)
}

/// The same for the bins of the session, as they are now: the search ends with
/// `rectangle_pack_session_pack_found` or `rectangle_pack_search_free`. Leaves the session as it was.
#[unsafe(no_mangle)]
pub extern "C" fn rectangle_pack_session_search_begin(
    alloc: Global,
    session: &mut RpSession,
    collection: &RpCollection<'_>,
    options: &RpSearchOptions<'_>,
    search: &mut RpSearch,
) -> u32
    requires made { IsSome session.old.state }
    requires empty { search.old.state ≡ None }
    // What is answered, and whether the handle has a search, is as `rectangle_pack_search_begin`
    //   says it.
    ensures faults { let fault = fault_searching options.now (fault_alone collection.now) in
        MatchBool (fault == 0) ((result ≡ RP_DONE) ⊎ (result ≡ RP_OUT_OF_MEMORY))
        (result ≡ fault) }
    ensures begun { result ≡ RP_DONE → IsSome search.new.state }
    ensures refused { result ≢ RP_DONE → search.new.state ≡ None }
    // The session is as it was.
    ensures same { session.new.state ≡ session.old.state }
{
    let fault = fault_options(options, fault_alone(collection));
    if fault != RP_DONE {
        return fault;
    }
    let held = session.take(alloc);
    let wanted = Wanted {
        collection,
        options,
    };
    let answer = begin(alloc, &held, &wanted, search);
    *session = RpSession::of(held);
    answer
}

/// Makes so many tries, or fewer where there is nothing to be bettered, and writes how far the
/// search is. Tries that are made in several calls find what they find in one. `RP_DONE`, or
/// `RP_OUT_OF_MEMORY`, and then nothing is written, and the handle has no search any more.
#[unsafe(no_mangle)]
pub extern "C" fn rectangle_pack_search_run(
    alloc: Global,
    search: &mut RpSearch,
    tries: u64,
    progress: &mut RpProgress,
) -> u32
    // The handle has a search.
    requires begun { IsSome search.old.state }
    // The status is `RP_DONE` or `RP_OUT_OF_MEMORY`.
    ensures status { (result ≡ RP_DONE) ⊎ (result ≡ RP_OUT_OF_MEMORY) }
    // `RP_DONE`: the handle has a search.
    ensures goes_on { result ≡ RP_DONE → IsSome search.new.state }
    // `RP_OUT_OF_MEMORY`: it has none, and nothing is written.
    ensures refused { result ≡ RP_OUT_OF_MEMORY →
        (search.new.state ≡ None) × (progress.new ≡ progress.old) }
{
    let mut held = search.take(alloc);
    if held.run(tries, |_| true).is_err() {
        return RP_OUT_OF_MEMORY;
    }
    *progress = progress_of(held.progress(), held.is_over());
    *search = RpSearch::of(held);
    RP_DONE
}

/// Frees a search. The handle is then as before `rectangle_pack_search_begin`.
#[unsafe(no_mangle)]
pub extern "C" fn rectangle_pack_search_free(alloc: Global, search: &mut RpSearch)
    // The handle has a search.
    requires begun { IsSome search.old.state }
    // Afterwards the handle has no search. [rectangle_pack_search_free.nothing_is_freed]
    ensures freed { search.new.state ≡ None }
{
    drop(search.take(alloc));
}

// Begins a search for the bins of the session, and puts it into the handle: the status.
fn begin(
    alloc: Global,
    session: &Session<u32, u32>,
    wanted: &Wanted<'_>,
    search: &mut RpSearch,
) -> u32
    requires empty { search.old.state ≡ None }
    requires sound { fault_alone wanted.now.collection.now ≡ 0 }
    ensures status { (result ≡ RP_DONE) ⊎ (result ≡ RP_OUT_OF_MEMORY) }
    ensures begun { result ≡ RP_DONE → IsSome search.new.state }
    ensures refused { result ≢ RP_DONE → search.new.state ≡ None }
{
    let Ok(begun) = begun(alloc, session, wanted) else {
        return RP_OUT_OF_MEMORY;
    };
    *search = RpSearch::of(begun);
    RP_DONE
}

// A search for the bins of the session.
fn begun(
    alloc: Global,
    session: &Session<u32, u32>,
    wanted: &Wanted<'_>,
) -> Result<Box<Search>, AllocError>
    requires sound { fault_alone wanted.now.collection.now ≡ 0 }
{
    let rects = collection_of(alloc, wanted.collection)?;
    let turns = turns_in(alloc, wanted.collection, wanted.options.turns)?;
    let costs = costs_in(alloc, wanted.options.costs)?;
    let options = options_of(wanted.options, &turns, &costs);
    let search = session.begin_search(&rects, &options)?;
    Ok(Box::new(alloc, search)?)
}

// How far a search is, as it is written.
fn progress_of(progress: Progress, is_over: bool) -> RpProgress {
    RpProgress {
        tries: progress.tries,
        left: parted(progress.left),
        cost: parted(progress.cost),
        bins: progress.bins,
        is_over: if is_over { 1 } else { 0 },
    }
}
