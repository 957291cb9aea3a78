//! The law of the order of sizes.
ghost use Rattle.std.specs.Prelude.{◌≡◌, ◌<◌, ◌↔◌, true};
ghost use Rattle.std.specs.Cmp.{IsTotalOrder};
ghost use Rattle.rectangle_pack_sections.specs.Boxes.{Size, size_order};

use crate::width_height_depth::WidthHeightDepth;
use std::cmp::Ordering;

/// A law: sizes are in a total order, by width, then by height, then by depth, in which two are
/// equal where they are the same.
pub fn sizes_are_ordered()
    // The order of sizes is a total order.
    ensures total { IsTotalOrder ⟦<WidthHeightDepth as Ord>⟧.cmp }
    // Sizes are compared by width, then by height, then by depth.
    ensures by_field { (a b : Size) → ⟦<WidthHeightDepth as Ord>⟧.cmp a b ≡ size_order a b }
    // The order answers `Equal` exactly where the two sizes are the same.
    ensures equal { (a b : Size) →
        (⟦<WidthHeightDepth as Ord>⟧.cmp a b ≡ Ordering.Equal) ↔ (a ≡ b) }
    // `==` is true exactly where the two sizes are the same.
    ensures equality { (a b : Size) → (⟦<WidthHeightDepth as PartialEq>⟧.eq a b ≡ true) ↔ (a ≡ b) }
{}
