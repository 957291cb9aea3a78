//! The first claim that is in conflict with an earlier one, by each kind of conflict.
ghost use Rattle.std.specs.Prelude.{◌≡◌, length, All, AllPairs, IfOk, None, map, slice_index_or};
ghost use Rattle.rectangle_pack_judge.specs.declared.case.Conflict.TheVariants.{PlacedTwice, SharesCell, GroupInTwoBins, ExcludedTogether};
ghost use Rattle.rectangle_pack_judge.specs.Judging.{IsFree, StandsAlone, GoTogether};
ghost use Rattle.rectangle_pack_judge.specs.private.Numbers.{HaveGroups};
ghost use Rattle.rectangle_pack_judge.specs.private.Firsts.{IsFirst, AreFirsts, IsLater};

use crate::case::{Case, Claim, group_of};
use crate::marks::marks;
use rectangle_pack_overlaps::overlaps::{Standing, first_overlap};
use std::alloc::{AllocError, Allocator};

/// The first claim of an entry that an earlier claim places.
pub(crate) fn first_twice<A: Allocator>(
    alloc: A,
    case: &Case<'_>,
    claims: &[Claim],
) -> Result<usize, AllocError>
    requires { All (StandsAlone case.now) claims.now }
    ensures { IfOk result (IsFirst (IsFree case.now PlacedTwice) claims.now) }
{
    let mut placed = marks(alloc, false, case.entries.len())?;
    for (i, claim) in claims.iter().enumerate() {
        if placed[claim.entry] {
            return Ok(i);
        }
        placed[claim.entry] = true;
    }
    Ok(claims.len())
}

// The boxes with their bins.
fn standing_of<A: Allocator>(alloc: A, claims: &[Claim]) -> Result<Vec<Standing, A>, AllocError>
    ensures { IfOk result
        (λ all. all.items ≡ map (λ c. record { bin = c.bin; section = c.section }) claims.now) }
{
    let mut all = Vec::new(alloc);
    for claim in claims {
        let Claim { bin, section, .. } = *claim;
        all.push(Standing { bin, section })?;
    }
    Ok(all)
}

/// The first claim that shares a cell of its bin with an earlier one.
pub(crate) fn first_shared<A: Allocator + Copy>(
    alloc: A,
    case: &Case<'_>,
    claims: &[Claim],
) -> Result<usize, AllocError>
    requires { All (StandsAlone case.now) claims.now }
    ensures { IfOk result (IsFirst (IsFree case.now SharesCell) claims.now) }
{
    let boxes = standing_of(alloc, claims)?;
    match first_overlap(alloc, boxes.as_slice(), case.bins.len())? {
        Some(overlap) => Ok(overlap.second),
        None => Ok(claims.len()),
    }
}

/// The first claim in another bin than an earlier one of its group.
pub(crate) fn first_parted<A: Allocator>(
    alloc: A,
    case: &Case<'_>,
    groups: usize,
    claims: &[Claim],
) -> Result<usize, AllocError>
    requires groups { HaveGroups case.now groups }
    requires alone { All (StandsAlone case.now) claims.now }
    ensures { IfOk result (IsFirst (IsFree case.now GroupInTwoBins) claims.now) }
{
    let mut homes = marks(alloc, None, groups)?;
    for (i, claim) in claims.iter().enumerate() {
        let group = group_of(case, claim);
        match homes[group] {
            Some(bin) if bin != claim.bin => return Ok(i),
            _ => homes[group] = Some(claim.bin),
        }
    }
    Ok(claims.len())
}

// The first claim of each group that has one.
fn firsts_of<A: Allocator>(
    alloc: A,
    case: &Case<'_>,
    groups: usize,
    claims: &[Claim],
) -> Result<Vec<Option<usize>, A>, AllocError>
    requires groups { HaveGroups case.now groups }
    requires alone { All (StandsAlone case.now) claims.now }
    ensures { IfOk result
        (λ firsts. AreFirsts case.now groups claims.now (length claims.now) firsts.items) }
{
    let mut firsts = marks(alloc, None, groups)?;
    for (i, claim) in claims.iter().enumerate() {
        let group = group_of(case, claim);
        if firsts[group].is_none() {
            firsts[group] = Some(i);
        }
    }
    Ok(firsts)
}

// The place of the first claim of a group, if it has one.
fn first_in(firsts: &[Option<usize>], group: usize) -> Option<usize>
    ensures { result ≡ slice_index_or firsts.now group None }
{
    match firsts.get(group) {
        Some(first) => *first,
        None => None,
    }
}

// Where two groups of a pair are in one bin, the later of their first claims; else how many claims
// there are.
fn later_first(
    case: &Case<'_>,
    claims: &[Claim],
    firsts: &[Option<usize>],
    pair: (usize, usize),
) -> usize
    requires groups { HaveGroups case.now (length firsts.now) }
    requires alone { All (StandsAlone case.now) claims.now }
    requires whole { AllPairs (IsFree case.now GroupInTwoBins) claims.now }
    requires firsts { AreFirsts case.now (length firsts.now) claims.now (length claims.now)
        firsts.now }
    ensures { IsLater case.now claims.now pair result }
{
    let none = claims.len();
    if pair.0 == pair.1 {
        return none;
    }
    let Some(one) = first_in(firsts, pair.0) else {
        return none;
    };
    let Some(other) = first_in(firsts, pair.1) else {
        return none;
    };
    if claims[one].bin != claims[other].bin {
        return none;
    }
    one.max(other)
}

/// The first claim in one bin with an earlier one of a group that is excluded with its own, where
/// no group is in two bins.
pub(crate) fn first_together<A: Allocator>(
    alloc: A,
    case: &Case<'_>,
    groups: usize,
    claims: &[Claim],
) -> Result<usize, AllocError>
    requires groups { HaveGroups case.now groups }
    requires alone { All (StandsAlone case.now) claims.now }
    requires whole { AllPairs (IsFree case.now GroupInTwoBins) claims.now }
    ensures { IfOk result (IsFirst (IsFree case.now ExcludedTogether) claims.now) }
{
    let firsts = firsts_of(alloc, case, groups, claims)?;
    let mut found = claims.len();
    for pair in case.excluded {
        found = found.min(later_first(case, claims, firsts.as_slice(), *pair));
    }
    Ok(found)
}

/// The first claim that is in conflict with an earlier one.
pub(crate) fn first_conflict<A: Allocator + Copy>(
    alloc: A,
    case: &Case<'_>,
    groups: usize,
    claims: &[Claim],
) -> Result<usize, AllocError>
    requires groups { HaveGroups case.now groups }
    requires alone { All (StandsAlone case.now) claims.now }
    ensures { IfOk result (IsFirst (GoTogether case.now) claims.now) }
{
    let found = first_twice(alloc, case, claims)?;
    let found = first_shared(alloc, case, &claims[..found])?;
    let found = first_parted(alloc, case, groups, &claims[..found])?;
    first_together(alloc, case, groups, &claims[..found])
}
