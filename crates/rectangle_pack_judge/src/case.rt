//! What is to be packed, and where somebody put it.
ghost use Rattle.std.specs.Prelude.{◌≡◌, MatchBool};
ghost use Rattle.rectangle_pack_judge.specs.Judging.{IsAloneAnswer, IsConflict, IsFree, group_of};
ghost use Rattle.rectangle_pack_judge.specs.private.Apart.{AreExcludedWith};

use rectangle_pack_bounds::turning::TurningBox;
use rectangle_pack_sections::bin_section::{BinSection, is_inside};
use rectangle_pack_sections::width_height_depth::WidthHeightDepth;
use std::alloc::Allocator;
use std::collections::BTreeSet;

/// A box that is to stand in a bin, once.
#[derive(Debug, Clone, Copy, PartialEq)]
pub struct Entry {
    /// The number of its group.
    pub group: usize,
    /// Its size, and how it may be turned.
    pub turning: TurningBox,
}

/// Where somebody put a box.
#[derive(Debug, Clone, Copy, PartialEq, Eq)]
pub struct Claim {
    /// The number of the entry.
    pub entry: usize,
    /// The number of the bin.
    pub bin: usize,
    /// Where the box stands, in its size there.
    pub section: BinSection,
}

/// What is to be packed: entries and bins by their numbers, which begin at 0.
#[derive(Clone, Copy)]
pub struct Case<'c> {
    /// The sizes of the bins.
    pub bins: &'c [WidthHeightDepth],
    /// The boxes.
    pub entries: &'c [Entry],
    /// The pairs of groups that are excluded. A group that is paired with itself is not.
    pub excluded: &'c [(usize, usize)],
}

/// What may be wrong with a claim alone.
#[derive(Debug, Clone, Copy, PartialEq, Eq)]
pub enum AloneFault {
    /// There is no bin of this number.
    UnknownBin,
    /// There is no entry of this number.
    UnknownEntry,
    /// The size is not that of the box, nor one in which it may be turned.
    WrongSize,
    /// The box is not inside the bin.
    Outside,
}

/// What may be wrong with two claims, each of which may stand alone.
#[derive(Debug, Clone, Copy, PartialEq, Eq)]
pub enum Conflict {
    /// They place one entry.
    PlacedTwice,
    /// They share a cell of a bin.
    SharesCell,
    /// They are of one group, in two bins.
    GroupInTwoBins,
    /// They are of two groups that are excluded, in one bin.
    ExcludedTogether,
}

impl Conflict {
    /// All, in the order in which they are looked for.
    pub const ALL: [Conflict; 4] = [
        Conflict::PlacedTwice,
        Conflict::SharesCell,
        Conflict::GroupInTwoBins,
        Conflict::ExcludedTogether,
    ];
}

// The group of an entry; 0 where it is not there.
pub(crate) fn group_of(case: &Case<'_>, claim: &Claim) -> usize
    ensures { result ≡ group_of case.now claim.now }
{
    match case.entries.get(claim.entry) {
        Some(entry) => entry.group,
        None => 0,
    }
}

/// The first fault that a claim has alone.
pub(crate) fn alone_fault(case: &Case<'_>, claim: &Claim) -> Option<AloneFault>
    ensures { IsAloneAnswer case.now claim.now result }
{
    let Some(bin) = case.bins.get(claim.bin) else {
        return Some(AloneFault::UnknownBin);
    };
    let Some(entry) = case.entries.get(claim.entry) else {
        return Some(AloneFault::UnknownEntry);
    };
    if !entry.turning.may_stand_in(claim.section.whd()) {
        return Some(AloneFault::WrongSize);
    }
    if !is_inside(&claim.section, bin) {
        return Some(AloneFault::Outside);
    }
    None
}

/// Whether this is wrong with two claims, where these groups are excluded with that of the second.
pub(crate) fn are_in_conflict<A: Allocator>(
    case: &Case<'_>,
    apart: &BTreeSet<usize, A>,
    kind: Conflict,
    one: &Claim,
    other: &Claim,
) -> bool
    requires { AreExcludedWith case.now (group_of case.now other.now) apart.now }
    ensures { MatchBool result (IsConflict case.now kind one.now other.now)
        (IsFree case.now kind one.now other.now) }
{
    match kind {
        Conflict::PlacedTwice => one.entry == other.entry,
        Conflict::SharesCell => one.bin == other.bin && one.section.overlaps(&other.section),
        Conflict::GroupInTwoBins => {
            group_of(case, one) == group_of(case, other) && one.bin != other.bin
        }
        Conflict::ExcludedTogether => {
            one.bin == other.bin && apart.contains(&group_of(case, one))
        }
    }
}
