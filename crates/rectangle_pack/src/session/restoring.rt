//! A session that is made of its parts, or what is wrong with these.
ghost use Rattle.std.specs.Prelude.{◌≡◌, ◌++◌, ◌∷◌, [], not, true, cond, nat_lt, IfOk, IfErr, OnOk, MatchOption};
ghost use Rattle.std.specs.BTreeMap.{is_at};
ghost use Rattle.rectangle_pack_sections.specs.Bins.{bins_of};
ghost use Rattle.rectangle_pack_covers.specs.Covers.{IsBinAnswer};
ghost use Rattle.rectangle_pack.specs.Session.{IsSession, outstanding_in};
ghost use Rattle.rectangle_pack.specs.Restoring.{IsBinOfSections, IsNoSession, IsRestored, state_of_parts};
ghost use Rattle.rectangle_pack.specs.RestoringTexts.{bin_text, restore_text};
ghost use Rattle.rectangle_pack.specs.private.Restoring.{IsRecordAnswer, IsWholeAnswer, boxes_at};

use crate::session::Session;
use crate::session::command::Outstanding;
use crate::session::records::Records;
use rectangle_pack_bins::target_bin::{TargetBin, bin_of_sections, was_coalesced};
use rectangle_pack_covers::covers::{BinFault, first_fault_in_bin};
use rectangle_pack_covers::sections::{SectionsError, check_sections};
use rectangle_pack_lists::corners::Corners;
use rectangle_pack_sections::bin_section::BinSection;
use rectangle_pack_sections::packed_location::section_at;
use rectangle_pack_sections::width_height_depth::WidthHeightDepth;
use std::alloc::{AllocError, Allocator, Global};
use std::collections::BTreeMap;
use std::error::Error;
use std::fmt;

/// The parts of a session, as values that can be saved. A bin says its size and its free sections;
/// whether it counts as coalesced, `was_coalesced` answers.
#[derive(Drop)]
pub struct SessionParts<Id, BinId: Ord, A: Allocator + Copy = Global> {
    /// The bins, each with its free sections.
    pub bins: BTreeMap<BinId, TargetBin<A>, A>,
    /// The outstanding placements, in the order of their numbers.
    pub outstanding: Vec<Outstanding<Id, BinId>, A>,
    /// The number of the next placement.
    pub next: u64,
}

/// Why parts are not those of a session, in the order in which it is looked for. Placements are
/// named by their places in the list, and bins by their places in the order of their ids.
#[derive(Debug, Clone, Copy, PartialEq, Eq)]
pub enum RestoreError {
    /// The number of a placement is not above that of an earlier one.
    NotRising {
        /// The placement.
        placement: usize,
    },
    /// The number of a placement is not below the next number.
    NotBelowNext {
        /// The placement.
        placement: usize,
    },
    /// The bin of a placement is not there.
    UnknownBin {
        /// The placement.
        placement: usize,
    },
    /// The free sections of a bin, and behind them its placements, are not all of it. They are
    /// named by their places in this list.
    WrongBin {
        /// The bin.
        bin: usize,
        /// What is wrong.
        fault: BinFault,
    },
    /// Memory was refused.
    OutOfMemory,
}

impl RestoreError {
    // The text that it prints.
    fn text(&self) -> &'static str
        ensures { result.now ≡ restore_text self.now }
    {
        match self {
            RestoreError::NotRising { .. } => {
                "The number of a placement is not above that of an earlier one."
            }
            RestoreError::NotBelowNext { .. } => {
                "The number of a placement is not below the next number."
            }
            RestoreError::UnknownBin { .. } => "The bin of a placement is not there.",
            RestoreError::WrongBin { fault, .. } => bin_text(fault),
            RestoreError::OutOfMemory => "Out of memory.",
        }
    }
}

// The text for a fault of a bin.
fn bin_text(fault: &BinFault) -> &'static str
    ensures { result.now ≡ bin_text fault.now }
{
    match fault {
        BinFault::Outside { .. } => "A free section or placement is not inside its bin.",
        BinFault::SharesCell { .. } => "Two free sections or placements share a cell.",
        BinFault::CellInNone => "A cell of a bin is in no free section or placement.",
        BinFault::NotFromCuts => "No straight cuts leave what is in a bin.",
    }
}

impl fmt::Display for RestoreError {
    ghost use Rattle.std.specs.Prelude.{Some};
    ghost use Rattle.rectangle_pack.specs.RestoringTexts.{restore_text};

    // What is printed is the text that `restore_text` lists for the error.
    ghost output = { λ e. Some (restore_text e) };

    fn fmt<W: fmt::Write>(&self, f: &mut fmt::Formatter<W>) -> fmt::Result {
        write!(f, "{}", self.text())
    }
}

impl Error for RestoreError {}

impl From<AllocError> for RestoreError {
    ghost use Rattle.std.specs.Prelude.{◌≡◌};
    ghost use Rattle.rectangle_pack.specs.declared.session.restoring.RestoreError.TheVariants.{OutOfMemory};

    // The error is `OutOfMemory`.
    ghost from_gives = { λ e error. error ≡ OutOfMemory };

    fn from(_: AllocError) -> Self {
        RestoreError::OutOfMemory
    }
}

/// A bin of this size, in cells, with these free sections, which counts as coalesced where
/// `was_coalesced` is true. The error names the first section that is outside the bin; or, where
/// none is, the first that shares a cell with an earlier one. Fails with `OutOfMemory` when memory
/// is refused.
///
/// The time is about that of a sort of the sections, but for sections that were laid to defy it,
/// which may take the square.
///
/// ```
/// let size = WidthHeightDepth::new(10, 10, 1);
/// let right = BinSection::new(4, 0, 0, WidthHeightDepth::new(6, 10, 1));
/// let free = vec![in alloc; right]?;
/// let bin = bin_of_free_sections(alloc, size, free, false)?;
/// assert_eq!(rt; bin.available_bin_sections().as_slice(), [right].as_slice());
/// ```
pub fn bin_of_free_sections<A: Allocator + Copy>(
    alloc: A,
    max_size: WidthHeightDepth,
    sections: Vec<BinSection, A>,
    was_coalesced: bool,
) -> Result<TargetBin<A>, SectionsError>
    // A bin: each section is inside it, and no two share a cell. It has this size and these free
    //   sections, in their order, and counts as coalesced where that is said.
    //   [bin_of_free_sections.bin_counts_as_new]
    // `Outside`: the first section that is not inside a bin of this size. `SharesCell`: each is
    //   inside; the first two that share a cell. So no bin has these free sections.
    //   [check_sections.later_half_is_not_looked_at, first_outside.first_box_is_not_looked_at]
    ensures { IsBinOfSections max_size sections.items was_coalesced result }
{
    check_sections(alloc, max_size, sections.as_slice())?;
    Ok(bin_of_sections(max_size, sections, was_coalesced))
}

// Whether a number is above the last one, if there is one.
fn is_above(last: Option<u64>, number: u64) -> bool
    ensures { MatchOption last (result ≡ true) (λ n. result ≡ nat_lt n number) }
{
    match last {
        Some(last) => last < number,
        None => true,
    }
}

// The first placement whose number does not rise, or is not below the next one, or whose bin is not
// there.
fn first_wrong_record<Id, B: Ord, A: Allocator + Copy>(
    bins: &BTreeMap<B, TargetBin<A>, A>,
    outstanding: &[Outstanding<Id, B>],
    next: u64,
) -> Option<RestoreError>
    ensures { IsRecordAnswer B.cmp (bins_of bins.now.entries) next outstanding.now result }
{
    let mut last = None;
    for (placement, one) in outstanding.iter().enumerate() {
        if !is_above(last, one.number) {
            return Some(RestoreError::NotRising { placement });
        }
        if one.number >= next {
            return Some(RestoreError::NotBelowNext { placement });
        }
        if !bins.contains_key(&one.bin) {
            return Some(RestoreError::UnknownBin { placement });
        }
        last = Some(one.number);
    }
    None
}

// Puts a box at the end of the list of its bin.
fn put_at<'a, B: Ord, A: Allocator + Copy>(
    piles: &mut BTreeMap<&'a B, Vec<BinSection, A>, A>,
    alloc: A,
    id: &'a B,
    section: BinSection,
) -> Result<(), AllocError>
    ensures { OnOk result ((q : B) → boxes_at B.cmp piles.new.entries q ≡
        boxes_at B.cmp piles.old.entries q ++ cond (is_at (B.cmp id.now) q) (section ∷ []) []) }
{
    match piles.get_mut(&id) {
        Some(pile) => {
            pile.push(section)?;
        }
        None => {
            let mut pile = Vec::new(alloc);
            pile.push(section)?;
            piles.insert(id, pile)?;
        }
    }
    Ok(())
}

// The boxes that stand in each bin.
fn standing_by_bin<'a, Id, B: Ord, A: Allocator + Copy>(
    alloc: A,
    outstanding: &'a [Outstanding<Id, B>],
) -> Result<BTreeMap<&'a B, Vec<BinSection, A>, A>, AllocError>
    ensures { IfOk result (λ piles. (q : B) → boxes_at B.cmp piles.entries q ≡
        outstanding_in B.cmp outstanding.now q) }
{
    let mut piles = BTreeMap::new(alloc);
    for one in outstanding {
        put_at(&mut piles, alloc, &one.bin, section_at(&one.location))?;
    }
    Ok(piles)
}

// The boxes that stand in the bin of this id.
fn standing_at<'p, 'a, B: Ord, A: Allocator + Copy>(
    piles: &'p BTreeMap<&'a B, Vec<BinSection, A>, A>,
    id: &'a B,
) -> &'p [BinSection]
    ensures { result.now ≡ boxes_at B.cmp piles.now.entries id.now }
{
    match piles.get(&id) {
        Some(pile) => pile.as_slice(),
        None => &[],
    }
}

// These free sections, and behind them these boxes.
fn joined<A: Allocator>(
    alloc: A,
    free: &[BinSection],
    standing: &[BinSection],
) -> Result<Vec<BinSection, A>, AllocError>
    ensures { IfOk result (λ all. all.items ≡ free.now ++ standing.now) }
{
    let mut all = Vec::new(alloc);
    all.extend_from_slice(free)?;
    all.extend_from_slice(standing)?;
    Ok(all)
}

// What is wrong first with the boxes of a bin, if something is.
fn fault_in<A: Allocator + Copy>(
    alloc: A,
    bin: &TargetBin<A>,
    standing: &[BinSection],
) -> Result<Option<BinFault>, AllocError>
    ensures { IfOk result (IsBinAnswer bin.now.bin.size (not bin.now.bin.coalesced)
        (bin.now.bin.sections ++ standing.now)) }
{
    let boxes = joined(alloc, bin.available_bin_sections().as_slice(), standing)?;
    first_fault_in_bin(alloc, bin.max_size(), boxes.as_slice(), !was_coalesced(bin))
}

// The first bin whose boxes are not all of it.
fn first_wrong_bin<Id, B: Ord, A: Allocator + Copy>(
    alloc: A,
    bins: &BTreeMap<B, TargetBin<A>, A>,
    outstanding: &[Outstanding<Id, B>],
) -> Result<Option<RestoreError>, AllocError>
    ensures { IfOk result (IsWholeAnswer B.cmp (bins_of bins.now.entries) outstanding.now) }
{
    let piles = standing_by_bin(alloc, outstanding)?;
    let mut left = bins.len();
    for (id, bin) in bins {
        if let Some(fault) = fault_in(alloc, bin, standing_at(&piles, id))? {
            let place = bins.len() - left;
            return Ok(Some(RestoreError::WrongBin { bin: place, fault }));
        }
        left -= 1;
    }
    Ok(None)
}

// Makes room for a sweep of each bin.
fn make_room<B: Ord, A: Allocator + Copy>(
    corners: &mut Corners<A>,
    bins: &BTreeMap<B, TargetBin<A>, A>,
) -> Result<(), AllocError> {
    let mut most = 0;
    for (_, bin) in bins {
        most = most.max(bin.available_bin_sections().len());
    }
    corners.reserve(most)
}

impl<Id, BinId, A> Session<Id, BinId, A>
where
    Id: Ord + Clone + Drop,
    BinId: Ord + Clone + Drop,
    A: Allocator + Copy,
{
    /// The session that has these parts, if they are those of one: the numbers of the placements
    /// rise, each below the next number, and their bins are there; and in each bin each cell is in
    /// exactly one free section or placement, each of these is inside it, and, unless it counts as
    /// coalesced, straight cuts part it into them. So no saved file, whoever wrote it, makes a
    /// session that gives a cell twice.
    ///
    /// The error says what is wrong first. Fails with `OutOfMemory` when memory is refused.
    ///
    /// The time is about that of a sort of all placements and free sections, but for boxes that
    /// were laid to defy it, which may take the square.
    ///
    /// ```
    /// let mut session: Session<u32, u32> = Session::new(alloc, 0);
    /// session.add_bin(1, 10, 10, 1)?;
    /// let hat = PackedLocation::new(0, 0, 0, WidthHeightDepth::new(4, 10, 1));
    /// session.place_at(1, 7, hat)?;
    /// let again = Session::restore(alloc, session.into_parts())?;
    /// assert_eq!(rt; again.outstanding().len(), 1);
    /// ```
    ///
    /// A number that is not given yet is no number of a placement.
    ///
    /// ```
    /// let mut parts = again.into_parts();
    /// parts.next = 0;
    /// let wrong = Session::restore(alloc, parts).err();
    /// assert!(rt; wrong == Some(RestoreError::NotBelowNext { placement: 0 }));
    /// ```
    pub fn restore(alloc: A, parts: SessionParts<Id, BinId, A>) -> Result<Self, RestoreError>
        // A session: it has these bins, outstanding placements and next number, and so these are
        //   those of a session. [first_wrong_bin.placements_do_not_count]
        // Else what is wrong with the first placement that no session has: its number is not above
        //   that of an earlier one; or not below the next number; or its bin is not there.
        //   [is_above.equal_numbers_rise, first_wrong_record.next_number_may_be_given]
        // Or, where that is so of none, what is wrong with the first bin, in the order of ids: a
        //   free section or placement is outside; two share a cell; some cell is in none; or, where
        //   the bin does not count as coalesced, no straight cuts leave them.
        //   [fill.cell_may_be_left, fault_in.coalesced_bins_need_cuts,
        //   are_from_cuts.no_plan_is_a_plan,
        //   first_fault_in_bin.cuts_are_asked_where_they_are_not]
        ensures restored { IsRestored BinId.cmp (state_of_parts parts) result }
        // An error other than `OutOfMemory`: these parts are those of no session.
        //   [first_wrong_bin.placements_do_not_count]
        ensures refused { IfErr result (IsNoSession BinId.cmp (state_of_parts parts)) }
        // What always holds of a session holds.
        ensures always { IfOk result (IsSession BinId.cmp) }
    {
        let SessionParts {
            bins,
            outstanding,
            next,
        } = parts;
        if let Some(error) = first_wrong_record(&bins, outstanding.as_slice(), next) {
            return Err(error);
        }
        if let Some(error) = first_wrong_bin(alloc, &bins, outstanding.as_slice())? {
            return Err(error);
        }
        let mut corners = Corners::new(alloc);
        make_room(&mut corners, &bins)?;
        Ok(Session {
            bins,
            outstanding: Records::of(outstanding),
            next,
            corners,
        })
    }

    /// The parts of the session, as values. Takes no memory.
    pub fn into_parts(self) -> SessionParts<Id, BinId, A>
        // The parts are the bins, the outstanding placements and the next number of the session.
        //   [into_items.gone_records_come_back]
        ensures { state_of_parts result ≡ self }
    {
        let Session {
            bins,
            outstanding,
            next,
            corners: _,
        } = self;
        SessionParts {
            bins,
            outstanding: outstanding.into_items(),
            next,
        }
    }
}
