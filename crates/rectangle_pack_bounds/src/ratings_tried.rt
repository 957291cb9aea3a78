//! How many bins boxes need, as the ratings show that are tried.
ghost use Rattle.std.specs.Prelude.{◌≡◌, ◌||◌, IfOk, min, sum_by, map, All};
ghost use Rattle.std.specs.Int.{div_ceil};
ghost use Rattle.rectangle_pack_sections.specs.Boxes.{extent};
ghost use Rattle.rectangle_pack_sections.specs.declared.axis.Axis.TheVariants.{X, Y, Z};
ghost use Rattle.rectangle_pack_bounds.specs.Ratings.{AreShownByRatings, AreTried, are_full, effort_by, bound_by, greatest_by, least_rate, capped};
ghost use Rattle.rectangle_pack_bounds.specs.private.Rates.{IsRow, ratings_of};
ghost use Rattle.rectangle_pack_bounds.specs.private.Ways.{IsFitting};

use crate::least_rates::least_rates;
use crate::ratings_along::{are_full, extent, ratings_along};
use crate::rows::{Row, rows};
use crate::turning::TurningBox;
use crate::ways::{FittingWays, fitting_ways, ways_of};
use rectangle_pack_sections::axis::Axis;
use rectangle_pack_sections::width_height_depth::WidthHeightDepth;
use std::alloc::{AllocError, Allocator};

/// How many bins of this size the boxes need at least, as the ratings that are tried show: along
/// each axis up to 64 where along some axis all boxes are as long as the bin, else up to 16. A box
/// counts by the way in which it may stand that counts least, and one that fits in no way counts
/// nothing. Fails only when memory is refused.
pub fn shown_by_ratings<A: Allocator + Copy>(
    alloc: A,
    bin: WidthHeightDepth,
    boxes: &[TurningBox],
) -> Result<usize, AllocError>
    ensures { IfOk result (AreShownByRatings bin boxes.now) }
{
    let sizes = ways_of(alloc, boxes)?;
    let fitting = fitting_ways(alloc, bin, boxes)?;
    let is_flat = is_flat(bin, &sizes);
    let widths = rows_along(alloc, Axis::X, &fitting, &sizes, is_flat)?;
    let heights = rows_along(alloc, Axis::Y, &fitting, &sizes, is_flat)?;
    let depths = rows_along(alloc, Axis::Z, &fitting, &sizes, is_flat)?;
    Ok(greatest(&fitting, &widths, &heights, &depths))
}

// Whether along some axis all sizes are as long as the bin.
fn is_flat(bin: WidthHeightDepth, sizes: &[WidthHeightDepth]) -> bool
    ensures { result ≡ (are_full (extent X bin) (map (extent X) sizes.now)
        || are_full (extent Y bin) (map (extent Y) sizes.now)
        || are_full (extent Z bin) (map (extent Z) sizes.now)) }
{
    are_full(bin, Axis::X, sizes) || are_full(bin, Axis::Y, sizes) || are_full(bin, Axis::Z, sizes)
}

// The rows of the ratings that are tried along an axis.
fn rows_along<A: Allocator + Copy>(
    alloc: A,
    axis: Axis,
    fitting: &FittingWays<A>,
    sizes: &[WidthHeightDepth],
    is_flat: bool,
) -> Result<Vec<Row<A>, A>, AllocError>
    ensures tried { IfOk result (λ rows. AreTried (effort_by is_flat) (extent axis fitting.now.bin)
        (map (extent axis) sizes.now) (map (λ row. row.rating) rows.items)) }
    ensures rated { IfOk result
        (λ rows. All (IsRow axis fitting.now.bin fitting.now.sizes.items) rows.items) }
{
    let ratings = ratings_along(alloc, fitting.bin, axis, sizes, is_flat)?;
    rows(alloc, axis, &ratings, fitting)
}

// The greatest number that a rating of widths, one of heights and one of depths show.
fn greatest<A: Allocator + Copy>(
    fitting: &FittingWays<A>,
    widths: &[Row<A>],
    heights: &[Row<A>],
    depths: &[Row<A>],
) -> usize
    requires fitting { IsFitting fitting.now }
    requires of_widths { All (IsRow X fitting.now.bin fitting.now.sizes.items) widths.now }
    requires of_heights { All (IsRow Y fitting.now.bin fitting.now.sizes.items) heights.now }
    requires of_depths { All (IsRow Z fitting.now.bin fitting.now.sizes.items) depths.now }
    ensures { result ≡ greatest_by (λ w. greatest_by (λ h. greatest_by (λ d.
        bound_by fitting.now.bin fitting.now.boxes.now (ratings_of w h d)) depths.now)
        heights.now) widths.now }
{
    let mut greatest: usize = 0;
    for width in widths {
        greatest = greatest.max(greatest_at(fitting, width, heights, depths));
    }
    greatest
}

// `greatest` at one rating of widths.
fn greatest_at<A: Allocator + Copy>(
    fitting: &FittingWays<A>,
    width: &Row<A>,
    heights: &[Row<A>],
    depths: &[Row<A>],
) -> usize
    requires fitting { IsFitting fitting.now }
    requires of_width { IsRow X fitting.now.bin fitting.now.sizes.items width.now }
    requires of_heights { All (IsRow Y fitting.now.bin fitting.now.sizes.items) heights.now }
    requires of_depths { All (IsRow Z fitting.now.bin fitting.now.sizes.items) depths.now }
    ensures { result ≡ greatest_by (λ h. greatest_by (λ d.
        bound_by fitting.now.bin fitting.now.boxes.now (ratings_of width.now h d)) depths.now)
        heights.now }
{
    let mut greatest: usize = 0;
    for height in heights {
        greatest = greatest.max(greatest_along(fitting, width, height, depths));
    }
    greatest
}

// `greatest` at one rating of widths and one of heights.
fn greatest_along<A: Allocator + Copy>(
    fitting: &FittingWays<A>,
    width: &Row<A>,
    height: &Row<A>,
    depths: &[Row<A>],
) -> usize
    requires fitting { IsFitting fitting.now }
    requires of_width { IsRow X fitting.now.bin fitting.now.sizes.items width.now }
    requires of_height { IsRow Y fitting.now.bin fitting.now.sizes.items height.now }
    requires of_depths { All (IsRow Z fitting.now.bin fitting.now.sizes.items) depths.now }
    ensures { result ≡ greatest_by (λ d.
        bound_by fitting.now.bin fitting.now.boxes.now (ratings_of width.now height.now d))
        depths.now }
{
    let mut greatest: usize = 0;
    for depth in depths {
        greatest = greatest.max(bound_by(fitting, width, height, depth));
    }
    greatest
}

// How many bins the boxes need by one rating for each axis.
fn bound_by<A: Allocator + Copy>(
    fitting: &FittingWays<A>,
    width: &Row<A>,
    height: &Row<A>,
    depth: &Row<A>,
) -> usize
    requires fitting { IsFitting fitting.now }
    requires of_width { IsRow X fitting.now.bin fitting.now.sizes.items width.now }
    requires of_height { IsRow Y fitting.now.bin fitting.now.sizes.items height.now }
    requires of_depth { IsRow Z fitting.now.bin fitting.now.sizes.items depth.now }
    ensures { result ≡ bound_by fitting.now.bin fitting.now.boxes.now
        (ratings_of width.now height.now depth.now) }
{
    let total = total_rate(fitting, width, height, depth);
    // A scale of 2^128 or more may count as 2^128 - 1, since no total is greater.
    let scale = (width.scale as u128 * height.scale as u128).saturating_mul(depth.scale as u128);
    quotient(total, scale, fitting.boxes.len())
}

// The least rates of the boxes, added up, or the greatest `u128` where it is more.
fn total_rate<A: Allocator + Copy>(
    fitting: &FittingWays<A>,
    width: &Row<A>,
    height: &Row<A>,
    depth: &Row<A>,
) -> u128
    requires fitting { IsFitting fitting.now }
    requires of_width { IsRow X fitting.now.bin fitting.now.sizes.items width.now }
    requires of_height { IsRow Y fitting.now.bin fitting.now.sizes.items height.now }
    requires of_depth { IsRow Z fitting.now.bin fitting.now.sizes.items depth.now }
    ensures { result ≡ capped (sum_by
        (least_rate (ratings_of width.now height.now depth.now) fitting.now.bin)
        fitting.now.boxes.now) }
{
    least_rates(
        fitting.are_first.as_slice(),
        width.rates.as_slice(),
        height.rates.as_slice(),
        depth.rates.as_slice(),
    )
}

// The quotient, rounded up, or `most` where it is more. Where the scale is 0, so is the total.
fn quotient(total: u128, scale: u128, most: usize) -> usize
    requires { scale ≡ 0 → total ≡ 0 }
    ensures { result ≡ min (div_ceil total scale) most }
{
    if scale == 0 {
        return 0;
    }
    let bins = total.div_ceil(scale);
    if bins < most as u128 {
        bins as usize
    } else {
        most
    }
}
