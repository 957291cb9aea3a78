//! How many bins boxes need, as far as it is shown.
ghost use Rattle.std.specs.Prelude.{◌≡◌, ◌↔◌, IfOk, Contains};
ghost use Rattle.std.specs.List.{list_all};
ghost use Rattle.rectangle_pack_sections.specs.Boxes.{Size};
ghost use Rattle.rectangle_pack_bounds.specs.Bounds.{IsShown, enclosing, has_bin};

use crate::ratings_tried::shown_by_ratings;
use crate::turning::TurningBox;
use crate::volumes::shown_by_volumes;
use rectangle_pack_sections::width_height_depth::{WidthHeightDepth, any_size};
use std::alloc::{AllocError, Allocator};

/// How many of the bins the boxes need at least, as far as this is shown: by ratings, by volumes,
/// and by `apart`, which is 0 where nothing else is known. `None` where a box is too large for each
/// bin, or where more bins are needed than there are.
pub fn least_bins_shown<A: Allocator + Copy>(
    alloc: A,
    bins: &[WidthHeightDepth],
    boxes: &[TurningBox],
    apart: usize,
) -> Result<Option<usize>, AllocError>
    // So many as is shown, where there are as many and each box fits in one of them; else `None`.
    //   [fewest_with.smallest_bins_come_first, each_has_bin.box_that_fits_nowhere_is_passed_over,
    //   least_bins_shown.bins_that_are_too_few_are_answered]
    ensures { IfOk result (λ least. IsShown bins.now boxes.now apart least) }
{
    let by_ratings = shown_by_ratings(alloc, enclosing(bins), boxes)?;
    let by_volumes = shown_by_volumes(alloc, bins, boxes)?;
    let most = by_ratings.max(by_volumes).max(apart);
    let have_bins = all_have_bins(alloc, bins, boxes)?;
    Ok(if have_bins && most <= bins.len() {
        Some(most)
    } else {
        None
    })
}

/// The least size in which each of the sizes fits.
pub fn enclosing(sizes: &[WidthHeightDepth]) -> WidthHeightDepth
    ensures { result ≡ enclosing sizes.now }
{
    let mut all = any_size(0, 0, 0);
    for size in sizes {
        all = any_size(
            all.width().max(size.width()),
            all.height().max(size.height()),
            all.depth().max(size.depth()),
        );
    }
    all
}

// Whether each box has a bin that is large enough for it.
fn all_have_bins<A: Allocator>(
    alloc: A,
    bins: &[WidthHeightDepth],
    boxes: &[TurningBox],
) -> Result<bool, AllocError>
    ensures { IfOk result (λ all. all ≡ list_all (has_bin bins.now) boxes.now) }
{
    let sizes = different(alloc, bins)?;
    Ok(each_has_bin(sizes.as_slice(), boxes))
}

// Whether each box has a bin among these.
fn each_has_bin(bins: &[WidthHeightDepth], boxes: &[TurningBox]) -> bool
    ensures { result ≡ list_all (has_bin bins.now) boxes.now }
{
    boxes.iter().all(|b| b.has_bin(bins))
}

// The sizes, equal ones once.
fn different<A: Allocator>(
    alloc: A,
    sizes: &[WidthHeightDepth],
) -> Result<Vec<WidthHeightDepth, A>, AllocError>
    ensures { IfOk result (λ once. (s : Size) → Contains once.items s ↔ Contains sizes.now s) }
{
    let mut once = Vec::from_slice(alloc, sizes)?;
    once.sort_unstable();
    once.dedup();
    Ok(once)
}
