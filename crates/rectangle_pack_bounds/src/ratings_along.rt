//! The ratings that are tried along an axis.
ghost use Rattle.std.specs.Prelude.{◌≡◌, ◌↔◌, ℕ, ◌*◌, ◌<◌, ◌≤◌, ◌++◌, OnOk, IfOk, Contains, map};
ghost use Rattle.std.specs.List.Sorted.{IsStrictlyIncreasing};
ghost use Rattle.rectangle_pack_sections.specs.Boxes.{extent};
ghost use Rattle.rectangle_pack_bounds.specs.Ratings.{AreTried, are_full, effort_by, last_of};
ghost use Rattle.rectangle_pack_bounds.specs.private.Tried.{meant, ratings_beside};

use crate::rating::Rating;
use rectangle_pack_sections::axis::Axis;
use rectangle_pack_sections::width_height_depth::WidthHeightDepth;
use std::alloc::{AllocError, Allocator};

/// The extent of a size on an axis.
#[tactic(auto, unfolding(rectangle_pack_sections::specs::Boxes::extent))]
pub(crate) fn extent(axis: Axis, size: &WidthHeightDepth) -> u32
    ensures { result ≡ extent axis size.now }
{
    match axis {
        Axis::X => size.width(),
        Axis::Y => size.height(),
        Axis::Z => size.depth(),
    }
}

/// Whether each size is as long as the bin along the axis, or longer.
pub(crate) fn are_full(bin: WidthHeightDepth, axis: Axis, sizes: &[WidthHeightDepth]) -> bool
    ensures { result ≡ are_full (extent axis bin) (map (extent axis) sizes.now) }
{
    let along = extent(axis, &bin);
    sizes.iter().all(|size| along <= extent(axis, size))
}

/// The ratings that are tried along the axis for boxes that may have these sizes, with more effort
/// where along some axis all boxes are as long as the bin.
pub(crate) fn ratings_along<A: Allocator + Copy>(
    alloc: A,
    bin: WidthHeightDepth,
    axis: Axis,
    sizes: &[WidthHeightDepth],
    is_flat: bool,
) -> Result<Vec<Rating, A>, AllocError>
    ensures { IfOk result (λ ratings. AreTried (effort_by is_flat) (extent axis bin)
        (map (extent axis) sizes.now) ratings.items) }
{
    let lengths = lengths_to_half(alloc, bin, axis, sizes)?;
    let mut ratings = Vec::new(alloc);
    ratings.push(Rating::Rounded(0))?;
    if !are_full(bin, axis, sizes) {
        push_ratings(&mut ratings, effort_by(is_flat), &lengths)?;
    }
    Ok(ratings)
}

// Which parts are tried along an axis, how many lengths to round at, and how many pieces.
#[derive(Debug, Clone, Copy)]
struct Effort {
    parts: &'static [u32],
    rounded: usize,
    pieces: usize,
}

// The effort, which is more where along some axis all boxes are as long as the bin.
fn effort_by(is_flat: bool) -> Effort
    ensures { meant result ≡ effort_by is_flat }
{
    if is_flat {
        Effort {
            parts: &[1, 2, 3, 4],
            rounded: 39,
            pieces: 20,
        }
    } else {
        Effort {
            parts: &[1, 2],
            rounded: 8,
            pieces: 5,
        }
    }
}

// Appends the ratings beside that of lengths as they are.
fn push_ratings<A: Allocator + Copy>(
    ratings: &mut Vec<Rating, A>,
    effort: Effort,
    lengths: &[u32],
) -> Result<(), AllocError>
    ensures { OnOk result
        (ratings.new.items ≡ ratings.old.items ++ ratings_beside (meant effort) lengths.now) }
{
    let rounded = last(effort.rounded, lengths);
    let pieces = last(effort.pieces, lengths);
    ratings.extend(effort.parts.iter().map(|parts| Rating::InParts(*parts)))?;
    ratings.extend(rounded.iter().map(|least| Rating::Rounded(*least)))?;
    ratings.extend(pieces.iter().map(|piece| Rating::InPieces(*piece)))
}

// The last elements, at most so many.
fn last(most: usize, lengths: &[u32]) -> &[u32]
    ensures { result.now ≡ last_of most lengths.now }
{
    &lengths[lengths.len().saturating_sub(most)..]
}

// The extents of the sizes on the axis, up to half of the bin and above 0, each once, the least
// first.
fn lengths_to_half<A: Allocator + Copy>(
    alloc: A,
    bin: WidthHeightDepth,
    axis: Axis,
    sizes: &[WidthHeightDepth],
) -> Result<Vec<u32, A>, AllocError>
    ensures once { IfOk result (λ lengths. IsStrictlyIncreasing lengths.items) }
    ensures listed { IfOk result (λ lengths. (l : ℕ) → Contains lengths.items l
        ↔ (Contains (map (extent axis) sizes.now) l × (0 < l) × (2 * l ≤ extent axis bin))) }
{
    let half = extent(axis, &bin) / 2;
    let mut lengths: Vec<u32, A> = sizes
        .iter()
        .map(|size| extent(axis, size))
        .filter(|length| 0 < *length && *length <= half)
        .collect(alloc)?;
    lengths.sort_unstable();
    lengths.dedup();
    Ok(lengths)
}
