//! The best that a heuristic alone finds.
ghost use Rattle.std.specs.Prelude.{◌≡◌, ◌⊎◌, [], false, map, IfOk, IfSome, MatchBool};
ghost use Rattle.std.specs.Prelude.{MatchOption, Some};
ghost use Rattle.rectangle_pack_sections.specs.Bins.{bins_of};
ghost use Rattle.rectangle_pack_sections.specs.Clones.{ClonesEqual};
ghost use Rattle.rectangle_pack.specs.Searched.{GuessesWith, IsBetterOutlay};
ghost use Rattle.rectangle_pack.specs.private.Searched.{IsBestGuess, IsNoGuess};

use crate::searching::options::SearchOptions;
use crate::searching::outlay::{Outlay, outlay_of};
use rectangle_pack_bins::target_bin::TargetBin;
use rectangle_pack_groups::grouped_rects_to_place::GroupedRectsToPlace;
use rectangle_pack_packing::pack::fitting::try_fitting;
use rectangle_pack_sections::box_size_heuristics::Heuristic;
use rectangle_pack_sections::closures::Named;
use rectangle_pack_sections::group::Group;
use std::alloc::{AllocError, Allocator};
use std::collections::BTreeMap;

/// Whether groups are left where none may be.
pub(crate) fn leaves_too_many<K>(may_leave: bool, left: &[&K]) -> bool
    ensures { MatchBool result
        ((may_leave ≡ false) × ¬ (map (λ k. k.now) left.now ≡ []))
        (may_leave ≡ false → map (λ k. k.now) left.now ≡ []) }
{
    !may_leave && !left.is_empty()
}

// The outlay of what fits with this heuristic, where nothing is left that may not be. Fails only
// when memory is refused. The bins stay as they are.
fn guess_with<Id, BinId, GroupId, A>(
    alloc: A,
    groups: &GroupedRectsToPlace<Id, GroupId, A>,
    bins: &mut BTreeMap<BinId, TargetBin<A>, A>,
    entries: usize,
    options: &SearchOptions<'_, Id, BinId, A>,
    heuristic: Heuristic,
) -> Result<Option<Outlay>, AllocError>
where
    Id: Ord + Clone + Drop,
    BinId: Ord + Clone + Drop,
    GroupId: Ord + Clone + Drop,
    A: Allocator + Copy,
    requires ids { ClonesEqual Id.is_clone Id.eq }
    requires bin_ids { ClonesEqual BinId.is_clone BinId.eq }
    ensures guessed { IfOk result
        (λ outlay.
        let order = ⟦<Group<GroupId, Id> as Ord>⟧.cmp in
        let old = bins_of bins.old.entries in
        MatchOption outlay
        (IsNoGuess order Id.cmp BinId.cmp groups.now options.now.may_leave old heuristic)
        (GuessesWith order Id.cmp BinId.cmp groups.now options.now.may_leave
        options.now.costs.now.entries old heuristic)) }
    ensures same { bins_of bins.new.entries ≡ bins_of bins.old.entries }
{
    let fitted = try_fitting(alloc, groups, bins, entries, &Named(heuristic), false)?;
    let left = fitted.left.as_slice();
    if leaves_too_many(options.may_leave, left) {
        return Ok(None);
    }
    let placements = fitted.packed.as_slice();
    let outlay = outlay_of(alloc, groups, bins, options.costs, placements, left)?;
    Ok(Some(outlay))
}

// The better of the best so far and the next one; the former where both are as good.
fn better_guess(best: Option<(Heuristic, Outlay)>, next: (Heuristic, Outlay)) -> (Heuristic, Outlay)
    ensures { ((result ≡ next) × IfSome best (λ b. IsBetterOutlay next.1 b.1)) ⊎
        ((best ≡ Some result) × ¬ IsBetterOutlay next.1 result.1) }
{
    match best {
        Some(best) if !next.1.is_better(&best.1) => best,
        _ => next,
    }
}

/// The heuristic of the list with which what fits has the best outlay, the first of those with which
/// it is as good, and this outlay; `None` where nothing may be left and the packing is refused with
/// each. The bins stay as they are. Room is made for `entries` entries.
pub(crate) fn best_guess<Id, BinId, GroupId, A>(
    alloc: A,
    groups: &GroupedRectsToPlace<Id, GroupId, A>,
    bins: &mut BTreeMap<BinId, TargetBin<A>, A>,
    entries: usize,
    options: &SearchOptions<'_, Id, BinId, A>,
    heuristics: &[Heuristic],
) -> Result<Option<(Heuristic, Outlay)>, AllocError>
where
    Id: Ord + Clone + Drop,
    BinId: Ord + Clone + Drop,
    GroupId: Ord + Clone + Drop,
    A: Allocator + Copy,
    requires ids { ClonesEqual Id.is_clone Id.eq }
    requires bin_ids { ClonesEqual BinId.is_clone BinId.eq }
    ensures best { IfOk result
        (IsBestGuess ⟦<Group<GroupId, Id> as Ord>⟧.cmp Id.cmp BinId.cmp groups.now
        options.now.may_leave options.now.costs.now.entries (bins_of bins.old.entries)
        heuristics.now) }
    ensures same { bins_of bins.new.entries ≡ bins_of bins.old.entries }
{
    let mut best = None;
    for heuristic in heuristics {
        let made = guess_with(alloc, groups, bins, entries, options, *heuristic)?;
        if let Some(made) = made {
            best = Some(better_guess(best, (*heuristic, made)));
        }
    }
    Ok(best)
}
