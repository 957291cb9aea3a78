//! Laws of trees of straight cuts, and of cutting plans: which lists of boxes come from cuts of a
//! box, and where they can be cut.
ghost use Rattle.std.specs.Prelude.{ℕ, ◌≡◌, ◌≤◌, ◌++◌, List, All, Any, filter, count_by, true};
ghost use Rattle.rectangle_pack_sections.specs.Boxes.{Size, Cuboid, end, has_cells};
ghost use Rattle.rectangle_pack_sections.specs.Bins.{whole};
ghost use Rattle.rectangle_pack_sections.specs.Covering.{CoverBin};
ghost use Rattle.rectangle_pack_sections.specs.CutTrees.{IsPlaceOf, IsFromCuts, HaveSameBoxes, lower, upper, pinwheel, pinwheel_size};
ghost use Rattle.rectangle_pack_plans.specs.CutPlans.{IsUncut, IsOpenPlane, lower_boxes, upper_boxes, IsCutPlan};

use crate::cut_plan::CutStep;
use crate::cut_plan::parts::{lower, upper};
use rectangle_pack_sections::axis::Axis;

/// A law: where boxes are from cuts of a box, any plane at a place of that box on an axis, from its
/// start to its end, splits them, if it is strictly inside none that has cells. The boxes below it
/// are from cuts of the lower part, those above it are from cuts of the upper part, and together
/// they are all the boxes, those without cells aside.
pub fn open_planes_split_cuts()
    // Boxes are from cuts of a box, and a plane stands at a place of that box, from its start to
    //   its end, and cuts none of the boxes that have cells. Then the boxes below the plane are
    //   from cuts of the lower part, those above it are from cuts of the upper part, and together
    //   they are all the boxes, those without cells aside.
    ensures { (boxes : List Cuboid) (parted : Cuboid) (a : Axis) (place : ℕ) →
        IsFromCuts boxes parted → IsPlaceOf a place parted →
        All (λ b. has_cells b ≡ true → IsUncut a place b) boxes →
        IsFromCuts (lower_boxes a place boxes) (lower a place parted)
        × IsFromCuts (upper_boxes a place boxes) (upper a place parted)
        × HaveSameBoxes (lower_boxes a place boxes ++ upper_boxes a place boxes) boxes }
{}

/// A law: where boxes are from cuts of a box and two of them have cells, some plane is strictly
/// inside that box and strictly inside none of them, at the end of one that has cells.
pub fn cuts_have_open_planes()
    ensures { (boxes : List Cuboid) (parted : Cuboid) →
        IsFromCuts boxes parted → 2 ≤ count_by has_cells boxes →
        (a : Axis) × (place : ℕ) × IsOpenPlane a place parted boxes
        × Any (λ b. (has_cells b ≡ true) × (end a b ≡ place)) boxes }
{}

/// A law: boxes that are from cuts of a bin cover it, those without cells aside: each that has
/// cells is inside the bin, and each cell of the bin is a cell of exactly one.
pub fn cuts_cover_bins()
    ensures { (boxes : List Cuboid) (size : Size) →
        IsFromCuts boxes (whole size) → CoverBin (filter has_cells boxes) size }
{}

/// A law: not all that covers a bin is from cuts. Four boxes round a fifth cover a bin 3x3x1, and
/// no straight cut across the bin leaves them whole.
pub fn pinwheel_is_not_from_cuts()
    // Five boxes, four round one in the middle, cover a bin 3x3x1.
    ensures covers { CoverBin pinwheel pinwheel_size }
    // These five boxes are not from cuts of the bin.
    ensures uncut { ¬ IsFromCuts pinwheel (whole pinwheel_size) }
{}

/// A law: boxes have at most one cutting plan of a box, in whatever order they are listed.
pub fn plans_are_unique()
    // Two lists have the same boxes with cells, each as often, and each list has a cutting plan of
    //   the same box. Then the two plans are the same.
    ensures { (boxes others : List Cuboid) (parted : Cuboid) (one other : List CutStep) →
        HaveSameBoxes boxes others → IsCutPlan boxes parted one → IsCutPlan others parted other →
        one ≡ other }
{}
