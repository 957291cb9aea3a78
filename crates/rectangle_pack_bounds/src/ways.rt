//! The sizes in which boxes may stand, and which of them fit into a bin.
ghost use Rattle.std.specs.Prelude.{◌≡◌, ◌++◌, OnOk, IfOk, filter, flat_map};
ghost use Rattle.rectangle_pack_bounds.specs.Turning.{about_x, about_y, about_z, fits_in, ways};
ghost use Rattle.rectangle_pack_bounds.specs.private.Ways.{IsFitting, firsts};

use crate::turning::{TurningBox, Turns};
use rectangle_pack_sections::width_height_depth::{WidthHeightDepth, any_size};
use std::alloc::{AllocError, Allocator};

/// Boxes, a size of bins, and the ways in which the boxes fit there: the sizes, box by box, and
/// whether each is the first one of its box.
#[derive(Debug, Drop)]
pub(crate) struct FittingWays<'a, A: Allocator> {
    pub bin: WidthHeightDepth,
    pub boxes: &'a [TurningBox],
    pub sizes: Vec<WidthHeightDepth, A>,
    pub are_first: Vec<bool, A>,
}

/// The size, turned about x: height and depth change places.
pub(crate) fn about_x(size: WidthHeightDepth) -> WidthHeightDepth
    ensures { result ≡ about_x size }
{
    any_size(size.width(), size.depth(), size.height())
}

/// The size, turned about y: width and depth change places.
pub(crate) fn about_y(size: WidthHeightDepth) -> WidthHeightDepth
    ensures { result ≡ about_y size }
{
    any_size(size.depth(), size.height(), size.width())
}

/// The size, turned about z: width and height change places.
pub(crate) fn about_z(size: WidthHeightDepth) -> WidthHeightDepth
    ensures { result ≡ about_z size }
{
    any_size(size.height(), size.width(), size.depth())
}

/// Whether a size is no greater than the bin on any axis.
pub(crate) fn fits_in(bin: WidthHeightDepth, size: WidthHeightDepth) -> bool
    ensures { result ≡ fits_in bin size }
{
    size.width() <= bin.width() && size.height() <= bin.height() && size.depth() <= bin.depth()
}

/// All sizes in which some of the boxes may stand, box by box.
pub(crate) fn ways_of<A: Allocator + Copy>(
    alloc: A,
    boxes: &[TurningBox],
) -> Result<Vec<WidthHeightDepth, A>, AllocError>
    ensures { IfOk result (λ sizes. sizes.items ≡ flat_map ways boxes.now) }
{
    let mut sizes = Vec::new(alloc);
    for one in boxes {
        push_ways(&mut sizes, *one)?;
    }
    Ok(sizes)
}

/// The ways in which the boxes fit into a bin of this size.
pub(crate) fn fitting_ways<'a, A: Allocator + Copy>(
    alloc: A,
    bin: WidthHeightDepth,
    boxes: &'a [TurningBox],
) -> Result<FittingWays<'a, A>, AllocError>
    ensures given { IfOk result
        (λ fitting. (fitting.bin ≡ bin) × (fitting.boxes.now ≡ boxes.now)) }
    ensures ways { IfOk result IsFitting }
{
    let mut sizes = Vec::new(alloc);
    let mut are_first = Vec::new(alloc);
    let mut ways = Vec::new(alloc);
    for one in boxes {
        ways.clear();
        push_ways(&mut ways, *one)?;
        push_fitting(&mut sizes, &mut are_first, bin, ways.as_slice())?;
    }
    Ok(FittingWays {
        bin,
        boxes,
        sizes,
        are_first,
    })
}

// Appends those ways of one box that fit into the bin.
fn push_fitting<A: Allocator + Copy>(
    sizes: &mut Vec<WidthHeightDepth, A>,
    are_first: &mut Vec<bool, A>,
    bin: WidthHeightDepth,
    ways: &[WidthHeightDepth],
) -> Result<(), AllocError>
    ensures sizes { OnOk result
        (sizes.new.items ≡ sizes.old.items ++ filter (fits_in bin) ways.now) }
    ensures first { OnOk result
        (are_first.new.items ≡ are_first.old.items ++ firsts (filter (fits_in bin) ways.now)) }
{
    let mut is_first = true;
    for way in ways {
        if fits_in(bin, *way) {
            sizes.push(*way)?;
            are_first.push(is_first)?;
            is_first = false;
        }
    }
    Ok(())
}

// Appends the sizes in which the box may stand.
#[tactic(auto, unfolding(crate::specs::Turning::ways_by))]
fn push_ways<A: Allocator + Copy>(
    sizes: &mut Vec<WidthHeightDepth, A>,
    one: TurningBox,
) -> Result<(), AllocError>
    ensures { OnOk result (sizes.new.items ≡ sizes.old.items ++ ways one) }
{
    let size = one.whd;
    let Turns {
        about_x: x,
        about_y: y,
        about_z: z,
    } = one.turns;
    match (x, y, z) {
        (false, false, false) => Ok(sizes.push(size)?),
        (true, false, false) => sizes.extend_from_slice(&[size, about_x(size)]),
        (false, true, false) => sizes.extend_from_slice(&[size, about_y(size)]),
        (false, false, true) => sizes.extend_from_slice(&[size, about_z(size)]),
        _ => sizes.extend_from_slice(&[
            size,
            about_x(size),
            about_y(size),
            about_z(size),
            about_x(about_z(size)),
            about_z(about_x(size)),
        ]),
    }
}
