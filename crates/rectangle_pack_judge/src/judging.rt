//! The judge: the first fault of a packing that somebody made.
ghost use Rattle.std.specs.Prelude.{◌≡◌, ◌≢◌, ◌<◌, ℕ, Option, length, take, All, HoldsAt, IfOk, MatchOption};
ghost use Rattle.std.specs.Option.{option_map};
ghost use Rattle.rectangle_pack_judge.specs.declared.case.AloneFault.{AloneFault};
ghost use Rattle.rectangle_pack_judge.specs.declared.judging.Fault.TheVariants.{Alone};
ghost use Rattle.rectangle_pack_judge.specs.Judging.{IsAloneAnswer, StandsAlone, IsConflict, IsFree, IsVerdict, IsPlaced, group_of};
ghost use Rattle.rectangle_pack_judge.specs.private.Apart.{AreExcludedWith};
ghost use Rattle.rectangle_pack_judge.specs.private.Numbers.{HaveGroups};
ghost use Rattle.rectangle_pack_judge.specs.private.Firsts.{IsFirstAlone, IsTogetherAnswer};

use crate::apart::excluded_with;
use crate::case::{AloneFault, Case, Claim, Conflict, alone_fault, are_in_conflict, group_of};
use crate::conflicts::first_conflict;
use crate::marks::marks;
use crate::numbers::{numbers_of, renumbered, renumbered_pairs};
use std::alloc::{AllocError, Allocator};
use std::collections::BTreeSet;

/// What is wrong with a packing. Claims are named by their places in the list.
#[derive(Debug, Clone, Copy, PartialEq, Eq)]
pub enum Fault {
    /// A claim may not stand, even alone.
    Alone {
        /// The claim.
        claim: usize,
        /// What is wrong with it.
        fault: AloneFault,
    },
    /// Two claims may not stand together.
    Together {
        /// The earlier claim.
        first: usize,
        /// The later one.
        second: usize,
        /// What is wrong with them.
        conflict: Conflict,
    },
    /// An entry is placed by no claim.
    NotPlaced {
        /// The number of the entry.
        entry: usize,
    },
}

/// The first fault of a packing that somebody made; `None` where it is a packing: each claim may
/// stand alone and with each other one, and each entry is placed.
///
/// It is that of the first claim that may not stand with those before it; of this claim the first
/// of what it has alone, in the order of `AloneFault`, and then of what it has with earlier ones,
/// in the order of `Conflict`, with the first of these. Where all claims may stand it is the first
/// entry that is not placed. Fails only when memory is refused.
///
/// The time is about that of a sort of the claims and the entries, but for boxes that were laid to
/// defy it, which may take the square.
///
/// ```
/// fn entry(group: usize) -> Entry {
///     let whd = WidthHeightDepth::new(6, 10, 1);
///     let turns = Turns::FLAT;
///     let turning = TurningBox { whd, turns };
///     Entry { group, turning }
/// }
/// ```
///
/// Two such boxes do not go into the bin beside each other.
///
/// ```
/// let bins = [WidthHeightDepth::new(10, 10, 1)];
/// let entries = [entry(0), entry(1)];
/// let case = Case {
///     bins: &bins,
///     entries: &entries,
///     excluded: &[],
/// };
/// let whd = WidthHeightDepth::new(6, 10, 1);
/// let first = Claim {
///     entry: 0,
///     bin: 0,
///     section: BinSection::new(0, 0, 0, whd),
/// };
/// let second = Claim {
///     entry: 1,
///     bin: 0,
///     section: BinSection::new(4, 0, 0, whd),
/// };
/// let shares = Fault::Together {
///     first: 0,
///     second: 1,
///     conflict: Conflict::SharesCell,
/// };
/// let fault = first_fault(alloc, &case, &[first, second])?;
/// assert!(rt; fault == Some(shares));
/// ```
pub fn first_fault<A: Allocator + Copy>(
    alloc: A,
    case: &Case<'_>,
    claims: &[Claim],
) -> Result<Option<Fault>, AllocError>
    // `None`: the claims are a packing. [first_parted.group_stands_in_two_bins,
    //   first_twice.entry_may_be_placed_twice, alone_fault.wrong_size_is_told_as_outside]
    // Else the fault is that of the first claim that may not stand with those before it, or the
    //   first entry that no claim places. [later_first.first_group_alone_counts,
    //   first_left.first_claim_is_passed_over, numbers_of.groups_get_one_number,
    //   other_of.second_of_a_pair_is_not_excluded]
    ensures verdict { IfOk result (IsVerdict case.now claims.now) }
{
    let numbers = numbers_of(alloc, case.entries)?;
    let entries = renumbered(alloc, case.entries, &numbers)?;
    let excluded = renumbered_pairs(alloc, case.excluded, &numbers)?;
    let by_numbers = Case {
        bins: case.bins,
        entries: entries.as_slice(),
        excluded: excluded.as_slice(),
    };
    let fault = first_fault_among(alloc, &by_numbers, numbers.len(), claims)?;
    Ok(fault)
}

// The first fault, where the number of each group is below `groups`.
fn first_fault_among<A: Allocator + Copy>(
    alloc: A,
    case: &Case<'_>,
    groups: usize,
    claims: &[Claim],
) -> Result<Option<Fault>, AllocError>
    requires groups { HaveGroups case.now groups }
    ensures verdict { IfOk result (IsVerdict case.now claims.now) }
{
    let alone = first_alone(case, claims);
    let found = first_conflict(alloc, case, groups, &claims[..alone])?;
    if found < alone {
        return together_fault(alloc, case, &claims[..found], &claims[found]);
    }
    if let Some(claim) = claims.get(alone) {
        return Ok(fault_alone(case, alone, claim));
    }
    let Some(entry) = first_left(alloc, case, claims)? else {
        return Ok(None);
    };
    Ok(Some(Fault::NotPlaced { entry }))
}

// What is wrong with the claim at this place alone.
fn fault_alone(case: &Case<'_>, claim: usize, what: &Claim) -> Option<Fault>
    ensures { (fault : Option AloneFault) × IsAloneAnswer case.now what.now fault
        × (result ≡ option_map (Alone claim) fault) }
{
    let fault = alone_fault(case, what)?;
    Some(Fault::Alone { claim, fault })
}

// The first claim that may not stand alone; how many claims there are where each may.
fn first_alone(case: &Case<'_>, claims: &[Claim]) -> usize
    ensures { IsFirstAlone case.now claims.now result }
{
    for (i, claim) in claims.iter().enumerate() {
        if alone_fault(case, claim).is_some() {
            return i;
        }
    }
    claims.len()
}

// What is wrong with a claim beside the earlier ones.
fn together_fault<A: Allocator + Copy>(
    alloc: A,
    case: &Case<'_>,
    earlier: &[Claim],
    claim: &Claim,
) -> Result<Option<Fault>, AllocError>
    ensures { IfOk result (IsTogetherAnswer case.now earlier.now claim.now) }
{
    let apart = excluded_with(alloc, case, group_of(case, claim))?;
    for conflict in Conflict::ALL {
        if let Some(first) = first_in_conflict(case, &apart, conflict, earlier, claim) {
            return Ok(Some(Fault::Together {
                first,
                second: earlier.len(),
                conflict,
            }));
        }
    }
    Ok(None)
}

// The place of the first of these claims that is in this conflict with another one, where these
// groups are excluded with that of the other one.
fn first_in_conflict<A: Allocator>(
    case: &Case<'_>,
    apart: &BTreeSet<usize, A>,
    conflict: Conflict,
    earlier: &[Claim],
    claim: &Claim,
) -> Option<usize>
    requires { AreExcludedWith case.now (group_of case.now claim.now) apart.now }
    ensures { MatchOption result (All (λ a. IsFree case.now conflict a claim.now) earlier.now)
        (λ i. (i < length earlier.now)
        × HoldsAt (λ a. IsConflict case.now conflict a claim.now) earlier.now i
        × All (λ a. IsFree case.now conflict a claim.now) (take i earlier.now)) }
{
    earlier
        .iter()
        .position(|one| are_in_conflict(case, apart, conflict, one, claim))
}

// The first entry that no claim places.
fn first_left<A: Allocator>(
    alloc: A,
    case: &Case<'_>,
    claims: &[Claim],
) -> Result<Option<usize>, AllocError>
    requires { All (StandsAlone case.now) claims.now }
    ensures { IfOk result (λ left. MatchOption left
        ((e : ℕ) → e < length case.now.entries.now → IsPlaced case.now claims.now e)
        (λ entry. (entry < length case.now.entries.now) × All (λ c. c.entry ≢ entry) claims.now
        × ((e : ℕ) → e < entry → IsPlaced case.now claims.now e))) }
{
    let mut placed = marks(alloc, false, case.entries.len())?;
    for claim in claims {
        placed[claim.entry] = true;
    }
    Ok(placed.iter().position(|is_placed| !is_placed))
}
