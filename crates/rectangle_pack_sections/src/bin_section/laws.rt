//! Laws of sections and of their cuts.
ghost use Rattle.std.specs.Prelude.{◌≡◌, ◌↔◌, ◌∷◌, List, All, IsTrue, true};
ghost use Rattle.std.specs.Cmp.{IsTotalOrder};
ghost use Rattle.rectangle_pack_sections.specs.Boxes.{Size, Cuboid, Cell, IsCellOf, is_cell_of, section_order, Holds, SharesCell};
ghost use Rattle.rectangle_pack_sections.specs.Closures.{MayRateBy, MayCompare};
ghost use Rattle.rectangle_pack_sections.specs.Cuts.{placed, pieces, orders};
ghost use Rattle.rectangle_pack_sections.specs.Choice.{IsFunction, IsTotalPreorder, IsPreorderOnCuts};
ghost use Rattle.rectangle_pack_sections.specs.SmallestBox.{IsSmallestOrder};
ghost use Rattle.rectangle_pack_sections.specs.CutTrees.{IsFromCuts};

use crate::bin_section::BinSection;
use crate::width_height_depth::WidthHeightDepth;
use std::cmp::Ordering;

/// A law: the test by which cells are counted is true exactly at the cells of a box.
pub fn cell_test_is_membership()
    ensures { (c : Cell) (b : Cuboid) → IsTrue (is_cell_of c b) ↔ IsCellOf c b }
{}

/// A law: the box at the corner of a section that holds it and the three pieces, in each of the six
/// orders of the axes, are from cuts of the section.
pub fn pieces_are_from_cuts()
    ensures { (section : Cuboid) (size : Size) → Holds section size →
        All (λ order. IsFromCuts (placed section size ∷ pieces section size order) section)
        orders }
{}

/// A law: sections are in a total order, by x, then by y, then by z, then by size, in which two are
/// equal where they are the same.
pub fn sections_are_ordered()
    // The order of sections is a total order.
    ensures total { IsTotalOrder ⟦<BinSection as Ord>⟧.cmp }
    // Sections are compared by x, then by y, then by z, then by width, then by height, then by
    //   depth.
    ensures by_field { (a b : Cuboid) → ⟦<BinSection as Ord>⟧.cmp a b ≡ section_order a b }
    // The order answers `Equal` exactly where the two sections are the same.
    ensures equal { (a b : Cuboid) → (⟦<BinSection as Ord>⟧.cmp a b ≡ Ordering.Equal) ↔ (a ≡ b) }
    // `==` is true exactly where the two sections are the same.
    ensures equality { (a b : Cuboid) → (⟦<BinSection as PartialEq>⟧.eq a b ≡ true) ↔ (a ≡ b) }
{}

/// A law: a box shares a cell with another where the other shares one with it.
pub fn sharing_is_symmetric()
    ensures { (a b : Cuboid) → SharesCell a b → SharesCell b a }
{}

/// A law: with a heuristic that has one answer on each size, a comparison that answers as
/// `contains_smallest_box` does is a total preorder on all triples of sizes, and so on the cuts of
/// each section: `try_place` takes a cut than which none is better.
pub fn smallest_box_is_preorder<H, C>(heuristic: &H, comparison: &C)
where
    H: Fn(WidthHeightDepth) -> u128,
    C: Fn([WidthHeightDepth; 3], [WidthHeightDepth; 3], &H) -> Ordering,
    // The heuristic has at most one answer on each size.
    requires one_rate { IsFunction (MayRateBy H.Fn heuristic.now) }
    // Each answer that the comparison may give on two triples of sizes is one that
    //   `contains_smallest_box` may give with this heuristic.
    requires smallest { (a b : List Size) (r : Ordering) →
        MayCompare C.Fn comparison.now heuristic.now a b r →
        IsSmallestOrder (H.post heuristic.now) a b r }
    // The comparison is then a total preorder on all triples of sizes: it has at most one answer on
    //   any two, the reversed one where they are swapped, and "not `Greater`" is transitive.
    ensures triples { IsTotalPreorder (MayCompare C.Fn comparison.now heuristic.now) }
    // It is a total preorder on the six cuts of each section round each size that the section
    //   holds.
    ensures cuts { IsPreorderOnCuts (λ section member. Unit {0})
        (MayCompare C.Fn comparison.now heuristic.now) }
{}
