//! How many bins a packing uses, and whether these are the fewest.
ghost use Rattle.std.specs.Prelude.{◌≡◌, ◌≤◌, ◌↔◌, IfOk, IsSomeAnd, IsTrue};
ghost use Rattle.rectangle_pack.specs.Needed.{bins_filled};

use rectangle_pack_packing::answer::Placement;
use std::alloc::{AllocError, Allocator};
use std::collections::BTreeSet;

/// How many bins have a box of the packing, or more than one. Fails only when memory is refused.
pub fn bins_used<Id, BinId: Ord, A: Allocator + Copy>(
    alloc: A,
    placements: &[Placement<Id, BinId>],
) -> Result<usize, AllocError>
    // The answer is how many bins have a placement; ids that are equal count once.
    //   [bins_used.one_bin_is_forgotten]
    ensures { IfOk result (λ used. used ≡ bins_filled BinId.cmp placements.now) }
{
    let mut used = BTreeSet::new(alloc);
    for placement in placements {
        used.insert(&placement.bin)?;
    }
    Ok(used.len())
}

/// Whether a packing uses no more bins than `least`, as `least_bins` answers it: then no packer
/// uses fewer. Where there is no such number, the answer is false. Fails only when memory is
/// refused.
pub fn uses_fewest_bins<Id, BinId: Ord, A: Allocator + Copy>(
    alloc: A,
    placements: &[Placement<Id, BinId>],
    least: Option<usize>,
) -> Result<bool, AllocError>
    // The answer is true exactly where there is a number, and no more bins have a placement.
    //   [uses_fewest_bins.as_many_are_too_many]
    ensures { IfOk result
        (λ fewest. IsTrue fewest ↔
        IsSomeAnd least (λ least. bins_filled BinId.cmp placements.now ≤ least)) }
{
    let used = bins_used(alloc, placements)?;
    Ok(least.is_some_and(|least| used <= least))
}
