//! What volumes show: how many bins have as many cells as the boxes, together.
ghost use Rattle.std.specs.Prelude.{◌≡◌, ℕ, ◌+◌, ◌<◌, ◌≤◌, IfOk, IsSorted, IsPermutation, length, map, sum};
ghost use Rattle.std.specs.Ordering.{nat_cmp};
ghost use Rattle.rectangle_pack_sections.specs.Boxes.{volume_of};
ghost use Rattle.rectangle_pack_bounds.specs.Bounds.{AreShownByVolumes, cells_of_boxes};
ghost use Rattle.rectangle_pack_bounds.specs.Ratings.{capped, last_of};

use crate::turning::TurningBox;
use rectangle_pack_sections::width_height_depth::WidthHeightDepth;
use std::alloc::{AllocError, Allocator};

/// The fewest bins whose cells add up to those of the boxes, the largest bins taken first: one more
/// than there are bins where all of them do not suffice.
pub fn shown_by_volumes<A: Allocator + Copy>(
    alloc: A,
    bins: &[WidthHeightDepth],
    boxes: &[TurningBox],
) -> Result<usize, AllocError>
    ensures { IfOk result (λ fewest. AreShownByVolumes bins.now boxes.now fewest) }
{
    let rising = rising_volumes(alloc, bins)?;
    Ok(fewest_with(rising.as_slice(), cells_of_boxes(boxes)))
}

// The volumes of the bins, the smallest first.
fn rising_volumes<A: Allocator>(
    alloc: A,
    bins: &[WidthHeightDepth],
) -> Result<Vec<u128, A>, AllocError>
    ensures each_once { IfOk result (λ rising. IsPermutation (map volume_of bins.now) rising.items) }
    ensures ordered { IfOk result (λ rising. IsSorted nat_cmp rising.items) }
{
    let mut volumes: Vec<u128, A> = bins.iter().map(|bin| bin.volume()).collect(alloc)?;
    volumes.sort_unstable();
    Ok(volumes)
}

// The cells of the boxes, capped.
fn cells_of_boxes(boxes: &[TurningBox]) -> u128
    ensures { result ≡ cells_of_boxes boxes.now }
{
    let mut cells = 0u128;
    for b in boxes {
        cells = cells.saturating_add(b.whd.volume());
    }
    cells
}

// How many volumes, from the last on, add up to so many cells: one more than there are where all
// of them do not.
fn fewest_with(rising: &[u128], cells: u128) -> usize
    ensures too_few { (n : ℕ) → n < result → capped (sum (last_of n rising.now)) < cells }
    ensures enough { result ≤ length rising.now →
        cells ≤ capped (sum (last_of result rising.now)) }
    ensures most { result ≤ length rising.now + 1 }
{
    if cells == 0 {
        return 0;
    }
    let mut sum = 0u128;
    for first in (0..rising.len()).rev() {
        sum = sum.saturating_add(rising[first]);
        if cells <= sum {
            return rising.len() - first;
        }
    }
    rising.len() + 1
}
