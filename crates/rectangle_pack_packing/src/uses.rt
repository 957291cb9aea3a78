//! What use packings make of the bins, by which the best of several is found.
ghost use Rattle.std.specs.Prelude.{◌≡◌, ◌⊎◌, ◌↔◌, IfOk, IfSome, Some, true};
ghost use Rattle.rectangle_pack_packing.specs.Best.{IsBetterUse, cells_placed_in, use_by};
ghost use Rattle.rectangle_pack_packing.specs.Fitting.{IsBetterFit};
ghost use Rattle.rectangle_pack_packing.specs.private.Cells.{cells_in};

use crate::answer::Placement;
use rectangle_pack_sections::box_size_heuristics::Heuristic;
use rectangle_pack_sections::packed_location::section_at;
use std::alloc::{AllocError, Allocator};
use std::collections::BTreeMap;

/// What packings are compared by.
#[derive(Clone, Copy)]
pub struct Use {
    /// How many bins get cells.
    pub bins: usize,
    /// How many cells the last of them gets, in the order of ids.
    pub last: u128,
}

impl Use {
    /// The use of `counts`, the cells in each bin that gets some, in the order of ids.
    pub fn by(counts: &[u128]) -> Self
        ensures { result ≡ use_by counts.now }
    {
        Use {
            bins: counts.len(),
            last: counts.last().copied().unwrap_or(0),
        }
    }

    /// Whether it is of fewer bins than the other, or of as many with fewer cells in the last one.
    pub fn is_better(&self, other: &Use) -> bool
        ensures { (result ≡ true) ↔ IsBetterUse self.now other.now }
    {
        self.bins < other.bins || self.bins == other.bins && self.last < other.last
    }
}

/// What packings that may leave groups are compared by.
#[derive(Clone, Copy)]
pub struct FitUse {
    /// The cells of the boxes of the groups that are left, one for each entry.
    pub left: u128,
    /// The use that the placements make of the bins.
    pub made: Use,
}

impl FitUse {
    /// Whether it leaves fewer cells than the other, or as many with a better use of the bins.
    pub fn is_better(&self, other: &FitUse) -> bool
        ensures { (result ≡ true) ↔ IsBetterFit self.now other.now }
    {
        self.left < other.left || self.left == other.left && self.made.is_better(&other.made)
    }
}

/// How many cells are placed in each bin in which a box is placed.
pub fn count_cells<'a, Id, B: Ord, A: Allocator + Copy>(
    alloc: A,
    placements: &'a [Placement<Id, B>],
) -> Result<BTreeMap<&'a B, u128, A>, AllocError>
    ensures { IfOk result
        (λ cells.
        (id : B) →
        cells_in B.cmp cells.entries id ≡ cells_placed_in B.cmp placements.now id) }
{
    let mut cells = BTreeMap::new(alloc);
    for placement in placements {
        let bin = &placement.bin;
        let volume = section_at(&placement.location).whd().volume();
        let filled = cells
            .get(&bin)
            .copied()
            .unwrap_or(0u128)
            .saturating_add(volume);
        cells.insert(bin, filled)?;
    }
    Ok(cells)
}

/// The better of the best so far and the next one; the former where both are as good.
pub fn better_of(best: Option<(Heuristic, Use)>, next: (Heuristic, Use)) -> (Heuristic, Use)
    ensures { ((result ≡ next) × IfSome best (λ b. IsBetterUse next.1 b.1)) ⊎
        ((best ≡ Some result) × ¬ IsBetterUse next.1 result.1) }
{
    match best {
        Some(best) if !next.1.is_better(&best.1) => best,
        _ => next,
    }
}
