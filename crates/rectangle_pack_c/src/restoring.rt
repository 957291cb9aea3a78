//! A session for C that is made of saved parts.
ghost use Rattle.std.specs.Prelude.{◌≡◌, ◌≢◌, ◌⊎◌, ℕ, [], None, IfOk, IfErr, IsSomeAnd, MatchOption, map};
ghost use Rattle.std.specs.BTreeMap.{insert_entry};
ghost use Rattle.std.specs.List.{sum_by};
ghost use Rattle.std.specs.Ordering.{nat_cmp};
ghost use Rattle.rectangle_pack.specs.Session.{State};
ghost use Rattle.rectangle_pack.specs.Bins.{bins_of};
ghost use Rattle.rectangle_pack_c.specs.Restoring.{AreCounted, IdsRise, IsFirstFallen, IsSavedFault, IsSavedSession, IsWrong, wrong_in_bin, wrong_in_sections, wrong_written};
ghost use Rattle.rectangle_pack_c.specs.Reading.{cuboid_of};
ghost use Rattle.rectangle_pack_c.specs.private.Saved.{AreBinsSaved, IsBinPut, IsFaultOfBin, outstanding_of};

use super::handle::RpSession;
use super::reading::RpSection;
use super::standing::RpStanding;
use super::upkeep::location_of;
use super::{RP_DONE, RP_OUT_OF_MEMORY, RP_WRONG_PARTS, RpBin};
use rectangle_pack::{
    BinFault, BinSection, Outstanding, RectToInsert, RestoreError, SectionsError, Session,
    SessionParts, TargetBin, bin_of_free_sections,
};
use std::alloc::{AllocError, Global};
use std::collections::BTreeMap;

/// A bin of a saved session.
#[repr(C)]
#[derive(Clone, Copy)]
pub struct RpSavedBin {
    /// Its id.
    pub id: u32,
    /// Its size.
    pub size: RpBin,
    /// Whether it counts as coalesced: 0 where it does not.
    pub coalesced: u32,
    /// How many free sections it has.
    pub section_count: u32,
}

/// The parts of a session.
#[repr(C)]
#[derive(Clone, Copy)]
pub struct RpSaved<'a> {
    /// Its bins; their ids rise.
    pub bins: &'a [RpSavedBin],
    /// The free sections of all bins, one bin after another, in the order of the bins.
    pub sections: &'a [RpSection],
    /// The outstanding placements, in the order of their numbers.
    pub placements: &'a [RpStanding],
    /// The number of the next placement.
    pub next_number: u64,
}

/// What is wrong with parts.
#[repr(C)]
#[derive(Clone, Copy)]
pub struct RpWrong {
    /// Which fault it is: `RP_WRONG_SECTIONS` or one of those below it.
    pub kind: u32,
    /// The index of the bin in the list of bins, or 0.
    pub bin: usize,
    /// The index of a placement in the list of placements, or of a box among those of the bin, or
    /// 0.
    pub first: usize,
    /// The index of another box of the bin, or 0.
    pub second: usize,
}

/// The counts of the bins do not add up to the number of free sections.
pub const RP_WRONG_SECTIONS: u32 = 1;
/// The id of the bin is not above that of the bin before it.
pub const RP_WRONG_IDS: u32 = 2;
/// The number of the placement `first` is not above that of an earlier one.
pub const RP_WRONG_NUMBER: u32 = 3;
/// The number of the placement `first` is not below the next number.
pub const RP_WRONG_NEXT: u32 = 4;
/// The bin of the placement `first` is not there.
pub const RP_WRONG_UNKNOWN_BIN: u32 = 5;
/// The box `first` of the bin is not inside it.
pub const RP_WRONG_OUTSIDE: u32 = 6;
/// The boxes `first` and `second` of the bin share a cell.
pub const RP_WRONG_SHARED_CELL: u32 = 7;
/// Some cell of the bin is in none of its boxes.
pub const RP_WRONG_CELL_IN_NONE: u32 = 8;
/// The bin does not count as coalesced, and no straight cuts leave its boxes.
pub const RP_WRONG_CUTS: u32 = 9;

// Why no session is made of saved parts.
#[derive(Clone, Copy)]
pub(crate) enum SavedError {
    // The counts of the bins do not add up to the number of free sections.
    Counts,
    // The id of a bin is not above that of the bin before it.
    Ids { bin: usize },
    // The free sections of a bin are not such, or memory was refused for them.
    Sections { bin: usize, error: SectionsError },
    // What the library says of the parts, or that memory was refused.
    Parts { error: RestoreError },
}

impl From<AllocError> for SavedError {
    ghost use Rattle.std.specs.Prelude.{◌≡◌};
    ghost use Rattle.rectangle_pack.specs.declared.session.restoring.RestoreError.TheVariants.{OutOfMemory};
    ghost use Rattle.rectangle_pack_c.specs.declared.restoring.SavedError.TheVariants.{Parts};

    // The error is want of memory.
    ghost from_gives = { λ e error. error ≡ Parts OutOfMemory };

    fn from(_: AllocError) -> Self {
        SavedError::Parts {
            error: RestoreError::OutOfMemory,
        }
    }
}

/// Makes a session of saved parts. `RP_DONE`; `RP_WRONG_PARTS` where no session has these parts,
/// and what is wrong is written to `wrong`; or `RP_OUT_OF_MEMORY`. What is not done leaves the
/// handle as it was.
///
/// What is wrong is looked for in this order: the counts of the bins; their ids; bin by bin, the
/// free sections, whether each is inside, and then whether two share a cell; placement by
/// placement, the number and the bin; and bin by bin, its free sections and placements.
///
/// The time is about that of a sort of all placements and free sections, but for boxes that were
/// laid to defy it, which may take the square.
#[unsafe(no_mangle)]
pub extern "C" fn rectangle_pack_session_restore(
    alloc: Global,
    session: &mut RpSession,
    saved: &RpSaved<'_>,
    wrong: &mut RpWrong,
) -> u32
    // The handle has no session.
    requires empty { session.old.state ≡ None }
    // The status is `RP_DONE`, `RP_WRONG_PARTS` or `RP_OUT_OF_MEMORY`.
    ensures status { (result ≡ RP_DONE) ⊎ (result ≡ RP_WRONG_PARTS) ⊎ (result ≡ RP_OUT_OF_MEMORY) }
    // `RP_DONE`: the handle has a session of these parts: the calls that read it tell them again.
    //   What always holds of a session holds of it. [standing.number_is_the_index,
    //   put_bin.one_counts_as_new, put_bins.own_sections_are_the_rest]
    ensures restored { result ≡ RP_DONE →
        IsSomeAnd session.new.state (IsSavedSession saved.now) }
    // `RP_WRONG_PARTS`: what is written is wrong with these parts, and nothing that is looked for
    //   before it. [first_fallen.equal_ids_rise, wrong_in.boxes_are_exchanged]
    ensures wrong { result ≡ RP_WRONG_PARTS → IsWrong saved.now wrong.new }
    // `RP_WRONG_PARTS`: no session has these parts.
    ensures no_session { result ≡ RP_WRONG_PARTS → (state : State ℕ ℕ) →
        ¬ IsSavedSession saved.now state }
    // Where the status is not `RP_DONE`, the handle has no session.
    ensures refused { result ≢ RP_DONE → session.new.state ≡ None }
    // Where the status is not `RP_WRONG_PARTS`, nothing is written to `wrong`.
    ensures unchanged { result ≢ RP_WRONG_PARTS → wrong.new ≡ wrong.old }
{
    let error = match restored(alloc, saved) {
        Ok(made) => {
            *session = RpSession::of(made);
            return RP_DONE;
        }
        Err(error) => error,
    };
    match wrong_of(error) {
        Some(found) => {
            *wrong = found;
            RP_WRONG_PARTS
        }
        None => RP_OUT_OF_MEMORY,
    }
}

// The session of saved parts.
fn restored(alloc: Global, saved: &RpSaved<'_>) -> Result<Box<Session<u32, u32>>, SavedError>
    ensures restored { IfOk result (λ made. IsSavedSession saved.now made.value) }
    ensures refused { IfErr result (IsSavedFault saved.now) }
{
    let bins = bins_of_saved(alloc, saved)?;
    let outstanding = standing(alloc, saved.placements)?;
    let parts = SessionParts {
        bins,
        outstanding,
        next: saved.next_number,
    };
    match Session::restore(alloc, parts) {
        Ok(session) => Ok(boxed(alloc, session)?),
        Err(error) => Err(SavedError::Parts { error }),
    }
}

// A session on the heap.
fn boxed(alloc: Global, session: Session<u32, u32>) -> Result<Box<Session<u32, u32>>, AllocError>
    ensures { IfOk result (λ held. held.value ≡ session) }
{
    Ok(Box::new(alloc, session)?)
}

// The bins of saved parts, under their ids.
fn bins_of_saved(alloc: Global, saved: &RpSaved<'_>) -> Result<BTreeMap<u32, TargetBin>, SavedError>
    ensures made { IfOk result (λ bins. AreBinsSaved saved.now (bins_of bins.entries)) }
    ensures refused { IfErr result (IsSavedFault saved.now) }
{
    if sections_counted(saved.bins) != saved.sections.len() as u128 {
        return Err(SavedError::Counts);
    }
    if let Some(bin) = first_fallen(saved.bins) {
        return Err(SavedError::Ids { bin });
    }
    let mut bins = BTreeMap::new(alloc);
    put_bins(alloc, &mut bins, saved)?;
    Ok(bins)
}

// How many free sections the bins have together.
fn sections_counted(bins: &[RpSavedBin]) -> u128
    ensures { result ≡ sum_by (λ b. b.section_count) bins.now }
{
    let mut counted = 0;
    for bin in bins {
        counted += bin.section_count as u128;
    }
    counted
}

// The first bin whose id is not above that of the bin before it.
fn first_fallen(bins: &[RpSavedBin]) -> Option<usize>
    ensures { MatchOption result (IdsRise bins.now) (IsFirstFallen bins.now) }
{
    for i in 1..bins.len() {
        if bins[i].id <= bins[i - 1].id {
            return Some(i);
        }
    }
    None
}

// Puts the saved bins into a map.
fn put_bins(
    alloc: Global,
    bins: &mut BTreeMap<u32, TargetBin>,
    saved: &RpSaved<'_>,
) -> Result<(), SavedError>
    requires empty { bins.old.entries ≡ [] }
    requires counted { AreCounted saved.now }
    requires rising { IdsRise saved.now.bins.now }
    ensures put { IfOk result (λ _. AreBinsSaved saved.now (bins_of bins.new.entries)) }
    ensures refused { IfErr result (IsSavedFault saved.now) }
{
    let mut rest = saved.sections;
    for (i, bin) in saved.bins.iter().enumerate() {
        let (own, others) = rest.split_at(bin.section_count as usize);
        put_bin(alloc, bins, i, bin, own)?;
        rest = others;
    }
    Ok(())
}

// Puts a saved bin, the one of this index, into a map, with its free sections.
fn put_bin(
    alloc: Global,
    bins: &mut BTreeMap<u32, TargetBin>,
    index: usize,
    bin: &RpSavedBin,
    own: &[RpSection],
) -> Result<(), SavedError>
    ensures put { IfOk result (λ _. IsBinPut bin.now own.now
        (bins_of bins.old.entries) (bins_of bins.new.entries)) }
    ensures refused { IfErr result (IsFaultOfBin index bin.now own.now) }
{
    let size = RectToInsert::new(bin.size.width, bin.size.height, bin.size.depth);
    let sections = sections_of(alloc, own)?;
    match bin_of_free_sections(alloc, size.into(), sections, bin.coalesced != 0) {
        Ok(made) => Ok(insert(bins, bin.id, made)?),
        Err(error) => Err(SavedError::Sections { bin: index, error }),
    }
}

// Puts a bin into a map.
fn insert(bins: &mut BTreeMap<u32, TargetBin>, id: u32, made: TargetBin) -> Result<(), AllocError>
    ensures { IfOk result (λ _. bins_of bins.new.entries ≡
        insert_entry nat_cmp (bins_of bins.old.entries) id made.bin) }
{
    bins.insert(id, made)?;
    Ok(())
}

// The boxes that are saved so.
pub(crate) fn sections_of(alloc: Global, saved: &[RpSection]) -> Result<Vec<BinSection>, AllocError>
    ensures { IfOk result (λ sections. sections.items ≡ map cuboid_of saved.now) }
{
    let mut sections = Vec::new(alloc);
    for one in saved {
        sections.push(section_of(one))?;
    }
    Ok(sections)
}

// The box that is saved so.
fn section_of(saved: &RpSection) -> BinSection
    ensures { result ≡ cuboid_of saved.now }
{
    let size = RectToInsert::new(saved.width, saved.height, saved.depth);
    BinSection::new(saved.x, saved.y, saved.z, size.into())
}

// The outstanding placements.
fn standing(alloc: Global, saved: &[RpStanding]) -> Result<Vec<Outstanding<u32, u32>>, AllocError>
    ensures { IfOk result (λ placements. placements.items ≡ map outstanding_of saved.now) }
{
    let mut placements = Vec::new(alloc);
    for one in saved {
        placements.push(Outstanding {
            number: one.number,
            id: one.index,
            bin: one.bin,
            location: location_of(&one.section),
        })?;
    }
    Ok(placements)
}

// What is written of an error; nothing of want of memory.
fn wrong_of(error: SavedError) -> Option<RpWrong>
    ensures { result ≡ wrong_written error }
{
    match error {
        SavedError::Counts => Some(wrong_at(RP_WRONG_SECTIONS, 0)),
        SavedError::Ids { bin } => Some(RpWrong {
            bin,
            ..wrong_at(RP_WRONG_IDS, 0)
        }),
        SavedError::Sections { bin, error } => wrong_in_sections(bin, error),
        SavedError::Parts { error } => match error {
            RestoreError::NotRising { placement } => Some(wrong_at(RP_WRONG_NUMBER, placement)),
            RestoreError::NotBelowNext { placement } => Some(wrong_at(RP_WRONG_NEXT, placement)),
            RestoreError::UnknownBin { placement } => {
                Some(wrong_at(RP_WRONG_UNKNOWN_BIN, placement))
            }
            RestoreError::WrongBin { bin, fault } => Some(wrong_in(bin, fault)),
            RestoreError::OutOfMemory => None,
        },
    }
}

// A fault that is not of a bin's boxes.
fn wrong_at(kind: u32, first: usize) -> RpWrong
    ensures { result ≡ record { kind = kind; bin = 0; first = first; second = 0 } }
{
    RpWrong {
        kind,
        bin: 0,
        first,
        second: 0,
    }
}

// What is written of a fault of a bin's free sections; nothing of want of memory.
pub(crate) fn wrong_in_sections(bin: usize, error: SectionsError) -> Option<RpWrong>
    ensures { result ≡ wrong_in_sections bin error }
{
    let fault = match error {
        SectionsError::Outside { index } => BinFault::Outside { index },
        SectionsError::SharesCell { first, second } => BinFault::SharesCell { first, second },
        SectionsError::OutOfMemory => return None,
    };
    Some(wrong_in(bin, fault))
}

// What is written of a fault of a bin's boxes.
fn wrong_in(bin: usize, fault: BinFault) -> RpWrong
    ensures { result ≡ wrong_in_bin bin fault }
{
    let (kind, first, second) = match fault {
        BinFault::Outside { index } => (RP_WRONG_OUTSIDE, index, 0),
        BinFault::SharesCell { first, second } => (RP_WRONG_SHARED_CELL, first, second),
        BinFault::CellInNone => (RP_WRONG_CELL_IN_NONE, 0, 0),
        BinFault::NotFromCuts => (RP_WRONG_CUTS, 0, 0),
    };
    RpWrong {
        kind,
        bin,
        first,
        second,
    }
}
