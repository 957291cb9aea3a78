//! Laws of trials and of joins.
ghost use Rattle.std.specs.Prelude.{ℕ, ◌≡◌, ◌≤◌, ◌↔◌, List, length, ◌+◌, ◌++◌, ◌⊎◌};
ghost use Rattle.rectangle_pack_sections.specs.Boxes.{Cell, Cuboid, Size};
ghost use Rattle.rectangle_pack_sections.specs.Counting.{times_filled, AreAllApart};
ghost use Rattle.rectangle_pack_lists.specs.Joining.{ShareNoFace, IsJoined, IsSwept};
ghost use Rattle.rectangle_pack_sections.specs.Closures.{answers};
ghost use Rattle.rectangle_pack_sections.specs.Keeping.{KeepCells};
ghost use Rattle.rectangle_pack_lists.specs.Steps.{IsStep, IsDone, IsStuck};
ghost use Rattle.rectangle_pack_lists.specs.Trials.{most_tests};

use rectangle_pack_sections::width_height_depth::WidthHeightDepth;
use std::cmp::Ordering;

/// A law: joining can leave one list only, and so can a sweep, for all lists.
pub fn joining_has_one_result()
    // The rule by which the section at an index is joined with those of a range leaves at most one
    //   list, for all lists, indices and ranges.
    ensures joined { (old one other : List Cuboid) (idx lo hi : ℕ) →
        IsJoined idx lo hi old one → IsJoined idx lo hi old other → one ≡ other }
    // The rule of the sweep leaves at most one list, for all lists.
    ensures swept { (old one other : List Cuboid) →
        IsSwept old one → IsSwept old other → one ≡ other }
{}

/// A law: joining leaves each cell in as many sections as it was in, for all lists.
pub fn joining_keeps_cells()
    ensures { (old new : List Cuboid) (idx lo hi : ℕ) →
        IsJoined idx lo hi old new →
        (c : Cell) → times_filled c new ≡ times_filled c old }
{}

/// A law: where the index is past the end of the list, or the range is empty, the list stays as it
/// is; a range that goes past the end of the list is the range that is cut there.
pub fn joining_stays_within_the_list()
    // An index past the end of the list leaves the list.
    ensures index { (old new : List Cuboid) (idx lo hi : ℕ) →
        length old ≤ idx → IsJoined idx lo hi old new → new ≡ old }
    // An empty range leaves the list.
    ensures empty { (old new : List Cuboid) (idx lo hi : ℕ) →
        hi ≤ lo → IsJoined idx lo hi old new → new ≡ old }
    // A range that ends at the end of the list or beyond it allows the same results as the range
    //   that ends at the end of the list.
    ensures range { (old new : List Cuboid) (idx lo hi : ℕ) →
        length old ≤ hi →
        IsJoined idx lo hi old new ↔ IsJoined idx lo (length old) old new }
{}

/// A law: a sweep from the last index of a list down to 0 leaves no two sections that share a whole
/// face, for all lists.
pub fn sweep_leaves_no_face()
    ensures { (old new : List Cuboid) → IsSwept old new → ShareNoFace new }
{}

/// A law: a step makes a list of sections longer by at most two.
pub fn step_adds_at_most_two<H, C>(heuristic: &H, comparison: &C)
where
    H: Fn(WidthHeightDepth) -> u128,
    C: Fn([WidthHeightDepth; 3], [WidthHeightDepth; 3], &H) -> Ordering,
    // A step makes a list of sections longer by at most two.
    ensures { (sections next : List Cuboid) (member : Size) (location : Cuboid) (tests : ℕ) →
        IsStep (answers H.Fn C.Fn heuristic.now comparison.now) sections member location next
        tests →
        length next ≤ length sections + 2 }
{}

/// A law: where no two sections of a list share a cell, a trial that is done keeps the cells. The
/// free cells of before are the free cells of after and the cells of the locations, and no two of
/// these boxes share one.
pub fn trial_keeps_cells<H, C>(heuristic: &H, comparison: &C)
where
    H: Fn(WidthHeightDepth) -> u128,
    C: Fn([WidthHeightDepth; 3], [WidthHeightDepth; 3], &H) -> Ordering,
    // Where no two sections of a list share a cell, a trial that is done keeps the cells. A cell is
    //   in a section of before exactly where it is in a section of after or in the location of a
    //   member, and no two of these boxes share a cell.
    ensures { (sections last locations : List Cuboid) (members : List Size) (tests : ℕ) →
        AreAllApart sections →
        IsDone (answers H.Fn C.Fn heuristic.now comparison.now) sections members locations last
        tests →
        KeepCells sections (last ++ locations) }
{}

/// A law: a trial of m members in a list of s sections makes at most m * s + m * (m - 1) fit tests,
/// whether it is done or stuck.
pub fn trial_tests_are_bounded<H, C>(heuristic: &H, comparison: &C)
where
    H: Fn(WidthHeightDepth) -> u128,
    C: Fn([WidthHeightDepth; 3], [WidthHeightDepth; 3], &H) -> Ordering,
    // A trial of m members in a list of s sections, done or stuck, makes at most m * s + m * (m -
    //   1) fit tests.
    ensures { let may = answers H.Fn C.Fn heuristic.now comparison.now in
        (sections last locations : List Cuboid) (members : List Size) (tests : ℕ) →
        IsDone may sections members locations last tests ⊎ IsStuck may sections members tests →
        tests ≤ most_tests (length members) (length sections) }
{}
