//! Boxes that are to be free sections of a bin: whether each is inside, and no two share a cell.
ghost use Rattle.std.specs.Prelude.{◌≡◌, ◌<◌, length, All, HoldsAt, IfOk, MatchOption, take};
ghost use Rattle.rectangle_pack_sections.specs.Boxes.{IsInside};
ghost use Rattle.rectangle_pack_covers.specs.CoverTexts.{sections_text};
ghost use Rattle.rectangle_pack_covers.specs.Covers.{IsSectionsAnswer, in_one_bin};

use rectangle_pack_overlaps::overlaps::{Standing, first_overlap};
use rectangle_pack_sections::bin_section::{BinSection, is_inside};
use rectangle_pack_sections::width_height_depth::WidthHeightDepth;
use std::alloc::{AllocError, Allocator};
use std::error::Error;
use std::fmt;

/// Why boxes are not free sections of a bin, or do not stand in it. They are named by their places
/// in the list.
#[derive(Debug, Clone, Copy, PartialEq, Eq)]
pub enum SectionsError {
    /// A box is not inside the bin.
    Outside {
        /// The box.
        index: usize,
    },
    /// Two boxes share a cell.
    SharesCell {
        /// The earlier box.
        first: usize,
        /// The later one.
        second: usize,
    },
    /// Memory was refused.
    OutOfMemory,
}

impl SectionsError {
    // The text that it prints.
    fn text(&self) -> &'static str
        ensures { result.now ≡ sections_text self.now }
    {
        match self {
            SectionsError::Outside { .. } => "A box is not inside the bin.",
            SectionsError::SharesCell { .. } => "Two boxes share a cell.",
            SectionsError::OutOfMemory => "Out of memory.",
        }
    }
}

impl fmt::Display for SectionsError {
    ghost use Rattle.std.specs.Prelude.{Some};
    ghost use Rattle.rectangle_pack_covers.specs.CoverTexts.{sections_text};

    // What is printed is the text that `sections_text` lists for the error.
    ghost output = { λ e. Some (sections_text e) };

    fn fmt<W: fmt::Write>(&self, f: &mut fmt::Formatter<W>) -> fmt::Result {
        write!(f, "{}", self.text())
    }
}

impl Error for SectionsError {}

impl From<AllocError> for SectionsError {
    ghost use Rattle.std.specs.Prelude.{◌≡◌};
    ghost use Rattle.rectangle_pack_covers.specs.declared.sections.SectionsError.TheVariants.{OutOfMemory};

    // The error is `OutOfMemory`.
    ghost from_gives = { λ e error. error ≡ OutOfMemory };

    fn from(_: AllocError) -> Self {
        SectionsError::OutOfMemory
    }
}

/// Whether boxes may be free sections of a bin of this size, or stand in it: each is inside, and no
/// two share a cell. The error names the first that is outside; or, where none is, the first that
/// shares a cell with an earlier one. Fails with `OutOfMemory` when memory is refused.
pub fn check_sections<A: Allocator + Copy>(
    alloc: A,
    size: WidthHeightDepth,
    boxes: &[BinSection],
) -> Result<(), SectionsError>
    // It succeeds only where each box is inside the bin, and no two share a cell.
    //   [check_sections.later_half_is_not_looked_at]
    // `Outside`: the first box that is not inside. [first_outside.first_box_is_not_looked_at]
    // `SharesCell`: each box is inside. The first that shares a cell with an earlier one, and the
    //   first of these.
    ensures { IsSectionsAnswer size boxes.now result }
{
    if let Some(index) = first_outside(size, boxes) {
        return Err(SectionsError::Outside { index });
    }
    let standing = standing_in_one(alloc, boxes)?;
    match first_overlap(alloc, standing.as_slice(), 1)? {
        None => Ok(()),
        Some(overlap) => Err(SectionsError::SharesCell {
            first: overlap.first,
            second: overlap.second,
        }),
    }
}

// The place of the first box that is not inside the bin.
fn first_outside(size: WidthHeightDepth, boxes: &[BinSection]) -> Option<usize>
    ensures { MatchOption result (All (IsInside size) boxes.now)
        (λ i. (i < length boxes.now) × HoldsAt (λ b. ¬ IsInside size b) boxes.now i
        × All (IsInside size) (take i boxes.now)) }
{
    boxes.iter().position(|one| !is_inside(one, &size))
}

// The boxes, all of one bin.
fn standing_in_one<A: Allocator>(
    alloc: A,
    boxes: &[BinSection],
) -> Result<Vec<Standing, A>, AllocError>
    ensures { IfOk result (λ all. all.items ≡ in_one_bin boxes.now) }
{
    let mut all = Vec::with_capacity(alloc, boxes.len())?;
    for section in boxes {
        all.push(Standing {
            bin: 0,
            section: *section,
        })?;
    }
    Ok(all)
}
