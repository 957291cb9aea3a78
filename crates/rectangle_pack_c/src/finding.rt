//! What a search found is packed, for C, and what is written of it.
ghost use Rattle.std.specs.Prelude.{◌≡◌, ◌≢◌, ◌==◌, ◌≤◌, ◌^◌, ◌<◌, if◌then◌else◌, IfOk, IfErr, IsSome, MatchBool, length, count_by};
ghost use Rattle.std.specs.Ordering.{nat_cmp};
ghost use Rattle.rectangle_pack.specs.Session.{IsSession};
ghost use Rattle.rectangle_pack.specs.SessionSearched.{PacksSearched, SearchedAsPromised};
ghost use Rattle.rectangle_pack_c.specs.Collections.{all_boxes, fault_in, fault_of, group_order};
ghost use Rattle.rectangle_pack_c.specs.Sessions.{ChangesAs};
ghost use Rattle.rectangle_pack_c.specs.Searching.{AreCostsOf, AreLaid, FoundCollection, IsRefusedSearch, LaidApart, RefusesSearch, SearchesInto, SearchesNewBins, StandLaidApart, fault_alone, fault_searching, least_written, left_location, left_standing, location_says_left, may_leave, no_section, standing_says_left};
ghost use Rattle.rectangle_pack_c.specs.private.Written.{NewAreWrittenAmong};

use super::collection::{RP_VOLUME, RpCollection, collection_of, fault};
use super::fitting::{RP_LEFT_BIN, RP_LEFT_NUMBER, write_among};
use super::handle::RpSession;
use super::reading::RpSection;
use super::searching::{RP_NO_PACKING, RpCost, RpLocation, RpSearchOptions, RpSearched};
use super::session::refusal;
use super::standing::RpStanding;
use super::turning::turns_in;
use super::{
    LIMIT, RP_BAD_LENGTHS, RP_DONE, RP_NOT_ENOUGH_SPACE, RP_OUT_OF_MEMORY, RP_UNKNOWN_OPTIONS,
    RpBin, Written, session_of,
};
use rectangle_pack::{
    Group, GroupedRectsToPlace, Outstanding, Packed, Search, SearchOptions, Searched, Session,
    SessionError, Turns,
};
use std::alloc::{AllocError, Global};
use std::collections::BTreeMap;

// What is to be packed, and how it is searched for.
#[derive(Clone, Copy)]
pub(crate) struct Wanted<'a> {
    pub collection: &'a RpCollection<'a>,
    pub options: &'a RpSearchOptions<'a>,
}

// The size of `RpSearchOptions`, in bytes.
const OPTIONS_SIZE: usize = 64;

// The first thing that is wrong: the size of the options, or this.
pub(crate) fn fault_options(options: &RpSearchOptions<'_>, fault: u32) -> u32
    ensures { result ≡ fault_searching options.now fault }
{
    if options.size == OPTIONS_SIZE {
        fault
    } else {
        RP_UNKNOWN_OPTIONS
    }
}

// The first thing that is wrong with a collection alone, as a status; or `RP_DONE`.
pub(crate) fn fault_alone(collection: &RpCollection<'_>) -> u32
    ensures { result ≡ fault_alone collection.now }
{
    let count = collection.boxes.len() + collection.members.len();
    fault(collection, RP_VOLUME, count)
}

// What bins cost, by their ids.
pub(crate) fn costs_in(alloc: Global, costs: &[RpCost]) -> Result<BTreeMap<u32, u64>, AllocError>
    ensures { IfOk result (λ map. AreCostsOf costs.now map.entries) }
{
    let mut map = BTreeMap::new(alloc);
    for cost in costs {
        if map.get(&cost.bin).is_none() {
            map.insert(cost.bin, cost.cost)?;
        }
    }
    Ok(map)
}

// The options of the library.
pub(crate) fn options_of<'t>(
    options: &RpSearchOptions<'_>,
    turns: &'t BTreeMap<u32, Turns>,
    costs: &'t BTreeMap<u32, u64>,
) -> SearchOptions<'t, u32, u32>
    ensures may_leave { result.may_leave ≡ may_leave options.now }
    ensures turns { result.turns.now ≡ turns.now }
    ensures costs { result.costs.now ≡ costs.now }
{
    SearchOptions {
        tries: options.tries,
        seed: options.seed,
        may_leave: options.may_leave != 0,
        turns,
        costs,
    }
}

// What is written of what was found, but how many are left.
fn told_of<K>(found: &Searched<'_, Packed, K>) -> RpSearched
    ensures used { result.used ≡ found.now.used }
    ensures least { result.least ≡ least_written found.now.least }
    ensures optimal { result.is_optimal ≡ if found.now.is_optimal then 1 else 0 }
{
    RpSearched {
        left: found.left.len(),
        used: found.used,
        least: found.least.unwrap_or(RP_NO_PACKING),
        is_optimal: if found.is_optimal { 1 } else { 0 },
        tries: found.tries,
    }
}

// What is written of a box that is left.
fn left_location() -> RpLocation
    ensures { result ≡ left_location }
{
    RpLocation {
        bin: RP_LEFT_BIN,
        section: no_section(),
    }
}

// The same in a session.
fn left_standing() -> RpStanding
    ensures { result ≡ left_standing }
{
    RpStanding {
        number: RP_LEFT_NUMBER,
        index: 0,
        bin: RP_LEFT_BIN,
        section: no_section(),
    }
}

// A section of 0 cells.
fn no_section() -> RpSection
    ensures { result ≡ no_section }
{
    RpSection {
        x: 0,
        y: 0,
        z: 0,
        width: 0,
        height: 0,
        depth: 0,
    }
}

// How many placements say that their box is left.
fn left_among(placements: &[RpLocation]) -> usize
    ensures { result ≡ count_by location_says_left placements.now }
{
    placements
        .iter()
        .filter(|placement| placement.bin == RP_LEFT_BIN)
        .count()
}

// The same in a session.
fn numbers_left(placements: &[RpStanding]) -> usize
    ensures { result ≡ count_by standing_says_left placements.now }
{
    placements
        .iter()
        .filter(|placement| placement.number == RP_LEFT_NUMBER)
        .count()
}

// Packs into the session what this search found, or what one finds now.
fn find_in(
    alloc: Global,
    session: &mut Session<u32, u32>,
    wanted: &Wanted<'_>,
    search: Option<Search>,
) -> Result<RpSearched, SessionError>
    requires sound { fault_alone wanted.now.collection.now ≡ 0 }
    requires session { IsSession nat_cmp session.old }
    ensures found { IfOk result (λ told.
        FoundCollection wanted.now.collection.now wanted.now.options.now told session.old session.new) }
    ensures refused { IfErr result (λ error.
        RefusesSearch wanted.now.collection.now wanted.now.options.now session.old error session.new) }
    ensures always { IsSession nat_cmp session.new }
{
    let rects = collection_of(alloc, wanted.collection)?;
    let turns = turns_in(alloc, wanted.collection, wanted.options.turns)?;
    let costs = costs_in(alloc, wanted.options.costs)?;
    let options = options_of(wanted.options, &turns, &costs);
    let found = find(session, &rects, &options, search)?;
    Ok(told_of(&found))
}

// What this search found is packed into the session, or what one finds now.
fn find<'a>(
    session: &mut Session<u32, u32>,
    rects: &'a GroupedRectsToPlace<u32, u32>,
    options: &SearchOptions<'_, u32, u32>,
    search: Option<Search>,
) -> Result<Searched<'a, Packed, Group<u32, u32>>, SessionError>
    ensures packed { PacksSearched group_order nat_cmp nat_cmp rects.now
        options.now.turns.now.entries options.now.may_leave options.now.costs.now.entries
        session.old result session.new }
    ensures promise { SearchedAsPromised group_order nat_cmp nat_cmp rects.now
        options.now.turns.now.entries options.now.may_leave options.now.costs.now.entries
        session.old result session.new }
    ensures always { IsSession nat_cmp session.new }
{
    match search {
        Some(search) => session.pack_found(rects, options, search),
        None => session.pack_searched(rects, options, |_| true),
    }
}

// The same, and writes the placements, and `left` for each box that is left.
fn find_and_write<T: Written<Outstanding<u32, u32>>>(
    alloc: Global,
    session: &mut Session<u32, u32>,
    wanted: &Wanted<'_>,
    search: Option<Search>,
    placements: &mut [T],
    left: T,
) -> Result<RpSearched, SessionError>
    requires sound { fault_of wanted.now.collection.now RP_VOLUME (length placements.old) ≡ 0 }
    ensures found { IfOk result (λ told.
        FoundCollection wanted.now.collection.now wanted.now.options.now told session.old session.new) }
    ensures refused { IfErr result (λ error.
        RefusesSearch wanted.now.collection.now wanted.now.options.now session.old error session.new) }
    ensures always { IsSession nat_cmp session.new }
    ensures next { IfOk result (λ _. session.new.next < 2 ^ 64) }
    ensures written { IfOk result
        (λ _. NewAreWrittenAmong T.written left session.old session.new placements.new) }
    ensures unchanged { IfErr result (λ _. placements.new ≡ placements.old) }
{
    let known = session.outstanding().len();
    let told = find_in(alloc, session, wanted, search)?;
    write_among(&session.outstanding()[known..], placements, left);
    // For the proof: the next number is asked for, since it is of 64 bits.
    let _next = session.next_number();
    Ok(told)
}

// Packs into new bins what this search found, or what one finds now: the status.
pub(crate) fn search_new(
    alloc: Global,
    bins: &[RpBin],
    wanted: &Wanted<'_>,
    search: Option<Search>,
    placements: &mut [RpLocation],
    searched: &mut RpSearched,
) -> u32
    ensures faults { let fault = fault_searching wanted.now.options.now
        (fault_in bins.now wanted.now.collection.now RP_VOLUME (length placements.old)) in
        MatchBool (fault == 0) (result ≤ RP_OUT_OF_MEMORY) (result ≡ fault) }
    ensures unchanged { result ≢ RP_DONE →
        (placements.new ≡ placements.old) × (searched.new ≡ searched.old) }
    ensures packed { result ≡ RP_DONE → SearchesNewBins wanted.now.collection.now
        wanted.now.options.now bins.now placements.new searched.new }
    ensures done { result ≡ RP_DONE → AreLaid bins.now wanted.now.collection.now
        wanted.now.options.now.turns.now placements.new }
    ensures apart { result ≡ RP_DONE → LaidApart (all_boxes wanted.now.collection.now)
        wanted.now.collection.now.exclusions.now placements.new }
    ensures refused { result ≡ RP_NOT_ENOUGH_SPACE →
        IsRefusedSearch wanted.now.collection.now wanted.now.options.now bins.now }
{
    let (collection, options) = (wanted.collection, wanted.options);
    if bins.len() >= LIMIT {
        return fault_options(options, RP_BAD_LENGTHS);
    }
    let fault = fault_options(options, fault(collection, RP_VOLUME, placements.len()));
    if fault != RP_DONE {
        return fault;
    }
    let Ok(mut session) = session_of(alloc, bins) else {
        return RP_OUT_OF_MEMORY;
    };
    let left = left_location();
    match find_and_write(alloc, &mut session, wanted, search, placements, left) {
        Ok(told) => {
            *searched = RpSearched {
                left: left_among(placements),
                ..told
            };
            RP_DONE
        }
        Err(SessionError::NotEnoughBinSpace) => RP_NOT_ENOUGH_SPACE,
        Err(_) => RP_OUT_OF_MEMORY,
    }
}

// The same in a session.
pub(crate) fn search_into(
    alloc: Global,
    session: &mut RpSession,
    wanted: &Wanted<'_>,
    search: Option<Search>,
    placements: &mut [RpStanding],
    searched: &mut RpSearched,
) -> u32
    requires made { IsSome session.old.state }
    ensures faults { let fault = fault_searching wanted.now.options.now
        (fault_of wanted.now.collection.now RP_VOLUME (length placements.old)) in
        fault ≢ 0 → (result ≡ fault) × (session.new.state ≡ session.old.state) }
    ensures packed { fault_searching wanted.now.options.now
        (fault_of wanted.now.collection.now RP_VOLUME (length placements.old)) ≡ 0 →
        ChangesAs (SearchesInto wanted.now.collection.now wanted.now.options.now placements.new
        searched.new) session.old.state result session.new.state }
    ensures apart { result ≡ RP_DONE → StandLaidApart (all_boxes wanted.now.collection.now)
        wanted.now.collection.now.exclusions.now placements.new }
    ensures unchanged { result ≢ RP_DONE →
        (placements.new ≡ placements.old) × (searched.new ≡ searched.old) }
{
    let (collection, options) = (wanted.collection, wanted.options);
    let fault = fault_options(options, fault(collection, RP_VOLUME, placements.len()));
    if fault != RP_DONE {
        return fault;
    }
    let mut held = session.take(alloc);
    let left = left_standing();
    let answer = find_and_write(alloc, &mut held, wanted, search, placements, left);
    *session = RpSession::of(held);
    match answer {
        Ok(told) => {
            *searched = RpSearched {
                left: numbers_left(placements),
                ..told
            };
            RP_DONE
        }
        Err(error) => refusal(error),
    }
}
