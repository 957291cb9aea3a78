//! Boxes that are parted by planes, until few are left to be looked at in pairs.
ghost use Rattle.std.specs.Prelude.{◌≡◌, ◌<◌, ℕ, length, All, HoldsAt, IfOk, MatchBool, filter};
ghost use Rattle.rectangle_pack_sections.specs.Boxes.{SharesCell, AreApart};
ghost use Rattle.rectangle_pack_overlaps.specs.private.Parting.{AreRising, IsFound, is_on, is_kept};

use crate::planes::{Plane, Room, ends_on, plane_in};
use rectangle_pack_sections::bin_section::BinSection;
use std::alloc::{AllocError, Allocator};

/// A box with its place in the list.
#[derive(Clone, Copy)]
pub(crate) struct Numbered {
    pub index: usize,
    pub section: BinSection,
}

/// A side of a plane.
#[derive(Clone, Copy)]
pub(crate) enum Side {
    Below,
    Above,
}

/// How often boxes may be parted, one plane after another.
pub(crate) const DEEP: u32 = 128;

// So few boxes are looked at in pairs.
const FEW: usize = 12;

// Whether a box has a place on this side of a plane.
#[tactic(auto, unfolding(crate::specs::private::Parting::is_on))]
fn is_on(section: &BinSection, plane: Plane, side: Side) -> bool
    ensures { result ≡ is_on plane side section.now }
{
    let (start, end) = ends_on(section, plane.axis);
    match side {
        Side::Below => start < plane.place,
        Side::Above => plane.place < end,
    }
}

// The boxes before the place `limit` of the list that are on this side of a plane.
fn kept_on<A: Allocator>(
    alloc: A,
    parts: &[Numbered],
    plane: Plane,
    side: Side,
    limit: usize,
) -> Result<Vec<Numbered, A>, AllocError>
    ensures { IfOk result (λ kept. kept.items ≡ filter (is_kept plane side limit) parts.now) }
{
    let mut kept = Vec::new(alloc);
    for part in parts {
        if part.index < limit && is_on(&part.section, plane, side) {
            kept.push(*part)?;
        }
    }
    Ok(kept)
}

// Whether a box shares a cell with one of these.
fn shares_with(parts: &[Numbered], section: &BinSection) -> bool
    ensures { MatchBool result
        ((k : ℕ) × (k < length parts.now)
        × HoldsAt (λ p. SharesCell p.section section.now) parts.now k)
        (All (λ p. AreApart p.section section.now) parts.now) }
{
    parts.iter().any(|part| part.section.overlaps(section))
}

// The first box that shares a cell with an earlier one, if it is before `limit`; else `limit`.
fn first_bad(parts: &[Numbered], limit: usize) -> usize
    requires { AreRising parts.now }
    ensures { IsFound limit parts.now result }
{
    for (i, part) in parts.iter().enumerate() {
        if limit <= part.index {
            return limit;
        }
        if shares_with(&parts[..i], &part.section) {
            return part.index;
        }
    }
    limit
}

/// The same: the boxes are parted by planes in the room first. What a plane cuts is looked at on
/// both sides.
pub(crate) fn first_bad_of<A: Allocator + Copy>(
    alloc: A,
    parts: &[Numbered],
    room: Room,
    deep: u32,
    limit: usize,
) -> Result<usize, AllocError>
    requires { AreRising parts.now }
    ensures { IfOk result (IsFound limit parts.now) }
{
    if parts.len() <= FEW || deep == 0 {
        return Ok(first_bad(parts, limit));
    }
    let Some(plane) = plane_in(parts, &room) else {
        return Ok(first_bad(parts, limit));
    };
    let lower = kept_on(alloc, parts, plane, Side::Below, limit)?;
    let found = first_bad_of(alloc, lower.as_slice(), room.below(plane), deep - 1, limit)?;
    drop(lower);
    let upper = kept_on(alloc, parts, plane, Side::Above, found)?;
    first_bad_of(alloc, upper.as_slice(), room.above(plane), deep - 1, found)
}
