//! The first box of a list that shares a cell with an earlier one in its bin.
ghost use Rattle.std.specs.Prelude.{◌≡◌, ◌<◌, ◌↔◌, ℕ, [], length, take, All, HoldsAt, IfOk, IsTrue, MatchOption};
ghost use Rattle.std.specs.Bool.{OnFalse};
ghost use Rattle.rectangle_pack_overlaps.specs.Overlaps.{IsOverlapAnswer, Clash, AreClear};
ghost use Rattle.rectangle_pack_overlaps.specs.private.Parting.{AreRising};
ghost use Rattle.rectangle_pack_overlaps.specs.private.Piles.{ArePiles, IsFirstBad, IsFirstBadIn};

use crate::parting::{DEEP, Numbered, first_bad_of};
use crate::planes::Room;
use rectangle_pack_sections::bin_section::BinSection;
use std::alloc::{AllocError, Allocator};

/// A box where it stands, and the number of its bin.
#[derive(Debug, Clone, Copy, PartialEq, Eq)]
pub struct Standing {
    /// The number of the bin.
    pub bin: usize,
    /// The box.
    pub section: BinSection,
}

/// Two boxes of a list that share a cell of a bin, by their places in the list.
#[derive(Debug, Clone, Copy, PartialEq, Eq)]
pub struct Overlap {
    /// The earlier one.
    pub first: usize,
    /// The later one.
    pub second: usize,
}

/// The first box that shares a cell with an earlier one in its bin, and the first of those; `None`
/// where no two boxes in one bin share a cell. Boxes may have any numbers; one without cells shares
/// none. Fails only when memory is refused.
///
/// The number of each bin is below `bins`. The time is about that of a sort of the boxes, but for
/// boxes that were laid to defy it.
pub fn first_overlap<A: Allocator + Copy>(
    alloc: A,
    boxes: &[Standing],
    bins: usize,
) -> Result<Option<Overlap>, AllocError>
    // The number of each bin is below `bins`.
    requires { All (λ b. b.bin < bins) boxes.now }
    // Two boxes: they are in one bin and share a cell. No two boxes before the second are in one
    //   bin and share a cell, and no box before the first is in the bin of the second and shares a
    //   cell with it. [overlap_at.boxes_change_places]
    // `None`: no two boxes that are in one bin share a cell.
    //   [first_bad.neighbours_alone_are_compared, is_on.box_that_starts_at_the_plane_is_lost,
    //   first_bad_of.boxes_above_are_not_looked_at, clashes.bins_do_not_count]
    ensures answer { IfOk result (IsOverlapAnswer boxes.now) }
{
    let piles = piles_of(alloc, boxes, bins)?;
    let second = first_bad_in(alloc, boxes, piles.as_slice())?;
    Ok(overlap_at(boxes, second))
}

// A list for each bin.
fn empty_piles<A: Allocator + Copy>(
    alloc: A,
    bins: usize,
) -> Result<Vec<Vec<Numbered, A>, A>, AllocError>
    ensures { IfOk result
        (λ piles. (length piles.items ≡ bins) × All (λ p. p.items ≡ []) piles.items) }
{
    let mut piles = Vec::new(alloc);
    for _ in 0..bins {
        piles.push(Vec::new(alloc))?;
    }
    Ok(piles)
}

// The boxes of each bin, with their places in the list.
fn piles_of<A: Allocator + Copy>(
    alloc: A,
    boxes: &[Standing],
    bins: usize,
) -> Result<Vec<Vec<Numbered, A>, A>, AllocError>
    requires { All (λ b. b.bin < bins) boxes.now }
    ensures { IfOk result (λ piles. ArePiles boxes.now (length boxes.now) bins piles.items) }
{
    let mut piles = empty_piles(alloc, bins)?;
    for (index, standing) in boxes.iter().enumerate() {
        let section = standing.section;
        piles[standing.bin].push(Numbered { index, section })?;
    }
    Ok(piles)
}

// The first box that shares a cell with an earlier one of its pile; where there is none, how many
// boxes there are.
fn first_bad_in<A: Allocator + Copy>(
    alloc: A,
    boxes: &[Standing],
    piles: &[Vec<Numbered, A>],
) -> Result<usize, AllocError>
    requires rising { All (λ p. AreRising p.items) piles.now }
    ensures { IfOk result (λ found. (bins : ℕ)
        → ArePiles boxes.now (length boxes.now) bins piles.now
        → IsFirstBadIn boxes.now bins found) }
{
    let mut second = boxes.len();
    for pile in piles {
        second = first_bad_of(alloc, pile.as_slice(), Room::ALL, DEEP, second)?;
    }
    Ok(second)
}

// The box at `second` with the first that shares a cell with it in its bin; `None` where there is
// no such box.
fn overlap_at(boxes: &[Standing], second: usize) -> Option<Overlap>
    requires { IsFirstBad boxes.now second }
    ensures { IsOverlapAnswer boxes.now result }
{
    let other = boxes.get(second)?;
    let first = first_clash(&boxes[..second], other)?;
    Some(Overlap { first, second })
}

// Whether two boxes are in one bin and share a cell.
fn clashes(one: &Standing, other: &Standing) -> bool
    ensures shares { IsTrue result ↔ Clash one.now other.now }
    ensures apart { OnFalse result (AreClear one.now other.now) }
{
    one.bin == other.bin && one.section.overlaps(&other.section)
}

// The place of the first of these boxes that clashes with another one.
fn first_clash(boxes: &[Standing], other: &Standing) -> Option<usize>
    ensures { MatchOption result (All (λ b. AreClear b other.now) boxes.now)
        (λ i. (i < length boxes.now) × HoldsAt (λ b. Clash b other.now) boxes.now i
        × All (λ b. AreClear b other.now) (take i boxes.now)) }
{
    boxes.iter().position(|one| clashes(one, other))
}
