//! What packings are compared by that were searched for.
ghost use Rattle.std.specs.Prelude.{◌≡◌, ◌↔◌, true, IfOk, map};
ghost use Rattle.rectangle_pack_sections.specs.Bins.{bins_of};
ghost use Rattle.rectangle_pack_packing.specs.private.Cells.{cells_in};
ghost use Rattle.rectangle_pack.specs.Searched.{IsBetterOutlay, cost_made};
ghost use Rattle.rectangle_pack.specs.Searched.{outlay_of as outlay_of_all};
ghost use Rattle.rectangle_pack.specs.private.Searched.{cost_by};

use crate::bound::bins_used;
use rectangle_pack_bins::target_bin::TargetBin;
use rectangle_pack_groups::grouped_rects_to_place::GroupedRectsToPlace;
use rectangle_pack_packing::answer::Placement;
use rectangle_pack_packing::pack::best::use_made;
use rectangle_pack_packing::pack::fitting_best::cells_left;
use rectangle_pack_packing::uses::{Use, count_cells};
use rectangle_pack_sections::group::Group;
use std::alloc::{AllocError, Allocator};
use std::collections::BTreeMap;

/// What packings are compared by.
#[derive(Clone, Copy)]
pub struct Outlay {
    /// The cells of the boxes of the groups that are left, one for each entry.
    pub left: u128,
    /// What the bins cost that get cells, together.
    pub cost: u128,
    /// The use that the placements make of the bins.
    pub made: Use,
    /// How many bins have a box, also one without cells. It is not compared.
    pub used: usize,
}

impl Outlay {
    /// Whether it leaves fewer cells than the other, or as many at a lower cost, or at the same
    /// cost with a better use of the bins.
    pub fn is_better(&self, other: &Outlay) -> bool
        ensures { (result ≡ true) ↔ IsBetterOutlay self.now other.now }
    {
        if self.left != other.left {
            self.left < other.left
        } else if self.cost != other.cost {
            self.cost < other.cost
        } else {
            self.made.is_better(&other.made)
        }
    }
}

// What the bins cost, together, in which cells are counted.
fn cost_of_counted<'a, B: Ord, A: Allocator + Copy>(
    bins: &'a BTreeMap<B, TargetBin<A>, A>,
    cells: &BTreeMap<&'a B, u128, A>,
    costs: &BTreeMap<B, u64, A>,
) -> u128
    ensures { result ≡ cost_by B.cmp costs.now.entries (cells_in B.cmp cells.now.entries)
        (bins_of bins.now.entries) }
{
    let mut cost = 0u128;
    for (id, _) in bins {
        if cells.get(&id).copied().unwrap_or(0) > 0 {
            let of_bin = costs.get(id).copied().unwrap_or(1);
            cost = cost.saturating_add(of_bin as u128);
        }
    }
    cost
}

/// What the bins cost, together, that get cells from these placements. Fails only when memory is
/// refused.
fn cost_made<'a, Id, B: Ord, A: Allocator + Copy>(
    alloc: A,
    bins: &'a BTreeMap<B, TargetBin<A>, A>,
    placements: &'a [Placement<Id, B>],
    costs: &BTreeMap<B, u64, A>,
) -> Result<u128, AllocError>
    ensures { IfOk result
        (λ cost. cost ≡
        cost_made B.cmp costs.now.entries placements.now (bins_of bins.now.entries)) }
{
    let cells = count_cells(alloc, placements)?;
    Ok(cost_of_counted(bins, &cells, costs))
}

/// The outlay of a packing that makes these placements and leaves these groups. Fails only when
/// memory is refused.
pub(crate) fn outlay_of<Id, BinId, GroupId, A>(
    alloc: A,
    groups: &GroupedRectsToPlace<Id, GroupId, A>,
    bins: &BTreeMap<BinId, TargetBin<A>, A>,
    costs: &BTreeMap<BinId, u64, A>,
    placements: &[Placement<Id, BinId>],
    left: &[&Group<GroupId, Id>],
) -> Result<Outlay, AllocError>
where
    Id: Ord + Clone + Drop,
    BinId: Ord + Clone + Drop,
    GroupId: Ord + Clone + Drop,
    A: Allocator + Copy,
    ensures { IfOk result
        (λ outlay. outlay ≡
        outlay_of_all ⟦<Group<GroupId, Id> as Ord>⟧.cmp Id.cmp BinId.cmp groups.now
        costs.now.entries (bins_of bins.now.entries) placements.now (map (λ k. k.now) left.now)) }
{
    Ok(Outlay {
        left: cells_left(groups, left),
        cost: cost_made(alloc, bins, placements, costs)?,
        made: use_made(alloc, bins, placements)?,
        used: bins_used(alloc, placements)?,
    })
}
