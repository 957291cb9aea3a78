//! The rates of boxes along an axis, by one rating.
ghost use Rattle.std.specs.Prelude.{◌≡◌, IfOk, map, All};
ghost use Rattle.rectangle_pack_sections.specs.Boxes.{extent};
ghost use Rattle.rectangle_pack_bounds.specs.Ratings.{IsUsable};
ghost use Rattle.rectangle_pack_bounds.specs.private.Rates.{IsRow};

use crate::rating::Rating;
use crate::ratings_along::extent;
use crate::ways::FittingWays;
use rectangle_pack_sections::axis::Axis;
use std::alloc::{AllocError, Allocator};

/// A rating along an axis, its scale, and the rates along that axis of the ways in which boxes fit.
/// They are computed once, as divisions are dear.
#[derive(Debug, Drop)]
pub(crate) struct Row<A: Allocator> {
    pub rating: Rating,
    pub scale: u64,
    pub rates: Vec<u64, A>,
}

/// A row for each rating along an axis.
pub(crate) fn rows<A: Allocator + Copy>(
    alloc: A,
    axis: Axis,
    ratings: &[Rating],
    fitting: &FittingWays<A>,
) -> Result<Vec<Row<A>, A>, AllocError>
    requires { All (λ rating. IsUsable rating (extent axis fitting.now.bin)) ratings.now }
    ensures of_ratings { IfOk result (λ rows. map (λ row. row.rating) rows.items ≡ ratings.now) }
    ensures rated { IfOk result
        (λ rows. All (IsRow axis fitting.now.bin fitting.now.sizes.items) rows.items) }
{
    let mut rows = Vec::with_capacity(alloc, ratings.len())?;
    for rating in ratings {
        rows.push(rated_row(alloc, axis, *rating, fitting)?)?;
    }
    Ok(rows)
}

// The row of one rating.
fn rated_row<A: Allocator + Copy>(
    alloc: A,
    axis: Axis,
    rating: Rating,
    fitting: &FittingWays<A>,
) -> Result<Row<A>, AllocError>
    requires { IsUsable rating (extent axis fitting.now.bin) }
    ensures of_rating { IfOk result (λ row. row.rating ≡ rating) }
    ensures rated { IfOk result (IsRow axis fitting.now.bin fitting.now.sizes.items) }
{
    let along = extent(axis, &fitting.bin);
    let rates = fitting
        .sizes
        .iter()
        .map(|size| rating.rate(along, extent(axis, size)))
        .collect(alloc)?;
    Ok(Row {
        rating,
        scale: rating.scale(along),
        rates,
    })
}
