//! Packings that are searched for: the fewest bins that are found in so many tries.
ghost use Rattle.std.specs.Prelude.{◌≡◌, ◌≤◌, ◌↔◌, [], map, IsSomeAnd, IsTrue};
ghost use Rattle.rectangle_pack_sections.specs.Bins.{bins_of};
ghost use Rattle.rectangle_pack_sections.specs.Clones.{ClonesEqual};
ghost use Rattle.rectangle_pack.specs.Searched.{IsSearchAnswer};
ghost use Rattle.rectangle_pack.specs.private.Searched.{AreSearched};

pub(crate) mod answer;
mod guess;
mod job;
pub(crate) mod options;
mod outlay;
mod proposal;
mod settling;

use crate::bound::least_bins;
use crate::searching::guess::best_guess;
use crate::searching::job::job_of;
use crate::searching::proposal::proposal_of;
use crate::searching::settling::{Settled, rehearsal_of, settle};
pub use answer::Searched;
pub use options::SearchOptions;
use rectangle_pack_bins::target_bin::TargetBin;
use rectangle_pack_groups::grouped_rects_to_place::GroupedRectsToPlace;
use rectangle_pack_groups::grouped_rects_to_place::multimap::number_after;
use rectangle_pack_packing::answer::{RectanglePackError, RectanglePackOk};
use rectangle_pack_search::job::Aim;
pub use rectangle_pack_search::job::Progress;
pub use rectangle_pack_search::search::Search;
use rectangle_pack_sections::box_size_heuristics::Heuristic;
use rectangle_pack_sections::group::Group;
use std::alloc::{AllocError, Allocator};
use std::collections::BTreeMap;

/// Searches for a packing that is better than that of any heuristic: it leaves fewer cells, or as
/// many in bins that cost less, or as much with fewer bins, or as many with fewer cells in the last
/// one. Keeps the best that is found, and says whether it is proved that no packer uses fewer bins.
///
/// Groups go whole, groups that are excluded go into different bins, and boxes are turned only as
/// the options say. `go_on` is asked from time to time whether to go on; what was found stands.
/// Equal input, tries and seed give an equal answer where `go_on` answers alike.
///
/// The caller sees to it that clones of ids equal their originals, and that `go_on` may be called
/// at any time.
///
/// `NotEnoughBinSpace` says that nothing may be left, the packing is refused with each heuristic,
/// and none was found. `OutOfMemory` says that a growth or a clone was refused. On each error the
/// bins are as they were.
pub fn pack_rects_searched<'a, Id, BinId, GroupId, A, F>(
    alloc: A,
    rects_to_place: &'a GroupedRectsToPlace<Id, GroupId, A>,
    target_bins: &mut BTreeMap<BinId, TargetBin<A>, A>,
    options: &SearchOptions<'_, Id, BinId, A>,
    go_on: F,
) -> Result<Searched<'a, RectanglePackOk<Id, BinId, A>, Group<GroupId, Id>, A>, RectanglePackError>
where
    Id: Ord + Clone + Drop,
    BinId: Ord + Clone + Drop,
    GroupId: Ord + Clone + Drop,
    A: Allocator + Copy,
    F: FnMut(&Progress) -> bool,
    requires ids { ClonesEqual Id.is_clone Id.eq }
    requires bin_ids { ClonesEqual BinId.is_clone BinId.eq }
    // The closure may be called at any time.
    requires callable { F.IsAlwaysCallable go_on }
    // Done: there are steps, each a group, a bin and a heuristic, and sizes in which the boxes may
    //   stand; packed so, as `pack_rects_told` says it, each box in its size, placements and bins
    //   are those of the answer. [may_stand_in.all_turns_are_allowed]
    // Done: the groups that are left are those that no step names. Where nothing may be left, there
    //   are none.
    // Done: with no heuristic what fits is better: leaves fewer cells, or as many in bins that cost
    //   less, or as much with a better use of the bins, in the words of `pack_rects_best`. Where
    //   nothing may be left, that is said of heuristics that leave nothing.
    //   [is_first_or_better.worse_proposal_is_kept, better_guess.last_of_equals_is_taken,
    //   leaves_too_many.no_group_is_too_many, cost_of_counted.each_bin_costs_one,
    //   is_better.cheaper_bins_do_not_count]
    // Done: the answer has how many bins have a box, and how many are needed, as `least_bins` says.
    //   The packing is optimal exactly where nothing is left and no more bins have a box than are
    //   needed. [is_proved.one_bin_more_is_optimal]
    // `NotEnoughBinSpace`: nothing may be left, and with each heuristic that has a name the packing
    //   is refused for space. The bins are as they were.
    // `OutOfMemory`: the bins are as they were, the order of their lists included.
    ensures answer { IsSearchAnswer ⟦<Group<GroupId, Id> as Ord>⟧.cmp Id.cmp BinId.cmp
        rects_to_place.now options.now.turns.now.entries options.now.may_leave
        options.now.costs.now.entries (bins_of target_bins.old.entries) result
        (bins_of target_bins.new.entries) }
{
    let Ok(search) = search_whole(alloc, rects_to_place, target_bins, options, go_on) else {
        return Err(RectanglePackError::OutOfMemory);
    };
    pack_rects_found(alloc, rects_to_place, target_bins, options, search)
}

/// A search that made the options' tries, or fewer where `go_on` ended it. Fails only when memory is
/// refused.
pub(crate) fn search_whole<Id, BinId, GroupId, A, F>(
    alloc: A,
    groups: &GroupedRectsToPlace<Id, GroupId, A>,
    bins: &BTreeMap<BinId, TargetBin<A>, A>,
    options: &SearchOptions<'_, Id, BinId, A>,
    go_on: F,
) -> Result<Search<A>, AllocError>
where
    Id: Ord + Clone + Drop,
    BinId: Ord,
    GroupId: Ord + Clone + Drop,
    A: Allocator + Copy,
    F: FnMut(&Progress) -> bool,
    requires callable { F.IsAlwaysCallable go_on }
{
    let mut search = begin_search(alloc, groups, bins, options)?;
    search.run(options.tries, go_on)?;
    Ok(search)
}

/// Begins a search for such a packing. It is made in as many calls of `Search::run` as the caller
/// likes, each of so many tries, and what it finds is packed by `pack_rects_found`. The options'
/// `tries` do not count.
///
/// Nothing is promised of what it finds: what is promised of the packing holds whatever it is. Fails
/// only when memory is refused.
///
/// ```
/// let mut rects: GroupedRectsToPlace<u32, u32> = GroupedRectsToPlace::new(alloc);
/// for id in 0..4 {
///     rects.push_rect(id, None, RectToInsert::new(5, 5, 1))?;
/// }
/// let mut bins: BTreeMap<u32, TargetBin> = BTreeMap::new(alloc);
/// for id in 0..4 {
///     bins.insert(id, TargetBin::new(alloc, 10, 10, 1)?)?;
/// }
/// let (turns, costs) = (BTreeMap::new(alloc), BTreeMap::new(alloc));
/// let options = SearchOptions {
///     tries: 0,
///     seed: 1,
///     may_leave: false,
///     turns: &turns,
///     costs: &costs,
/// };
/// ```
///
/// It is looked at how far the search is, again and again.
///
/// ```
/// let mut search = begin_search(alloc, &rects, &bins, &options)?;
/// for _ in 0..10 {
///     search.run(100, |_| true)?;
/// }
/// let found = pack_rects_found(alloc, &rects, &mut bins, &options, search)?;
/// assert!(rt; found.is_optimal);
/// ```
pub fn begin_search<Id, BinId, GroupId, A>(
    alloc: A,
    rects_to_place: &GroupedRectsToPlace<Id, GroupId, A>,
    target_bins: &BTreeMap<BinId, TargetBin<A>, A>,
    options: &SearchOptions<'_, Id, BinId, A>,
) -> Result<Search<A>, AllocError>
where
    Id: Ord + Clone + Drop,
    BinId: Ord,
    GroupId: Ord + Clone + Drop,
    A: Allocator + Copy,
{
    let least = least_bins(alloc, rects_to_place, target_bins, options.turns)?;
    let aim = Aim {
        seed: options.seed,
        enough: enough_bins(least, options),
    };
    let job = job_of(alloc, rects_to_place, target_bins, options)?;
    Search::new(alloc, job, aim)
}

/// Packs what a search found, or the best that a heuristic finds where that is as good, and keeps it,
/// as `pack_rects_searched` does. Where the search was begun with other groups, bins or options, what
/// it found may be of no use; what is promised holds nevertheless.
///
/// The caller sees to it that clones of ids equal their originals.
///
/// `NotEnoughBinSpace` says that nothing may be left, the packing is refused with each heuristic, and
/// what was found leaves groups or cannot be packed. `OutOfMemory` says that a growth or a clone was
/// refused. On each error the bins are as they were.
pub fn pack_rects_found<'a, Id, BinId, GroupId, A>(
    alloc: A,
    rects_to_place: &'a GroupedRectsToPlace<Id, GroupId, A>,
    target_bins: &mut BTreeMap<BinId, TargetBin<A>, A>,
    options: &SearchOptions<'_, Id, BinId, A>,
    search: Search<A>,
) -> Result<Searched<'a, RectanglePackOk<Id, BinId, A>, Group<GroupId, Id>, A>, RectanglePackError>
where
    Id: Ord + Clone + Drop,
    BinId: Ord + Clone + Drop,
    GroupId: Ord + Clone + Drop,
    A: Allocator + Copy,
    requires ids { ClonesEqual Id.is_clone Id.eq }
    requires bin_ids { ClonesEqual BinId.is_clone BinId.eq }
    // All that `answer` of `pack_rects_searched` says is so.
    ensures answer { IsSearchAnswer ⟦<Group<GroupId, Id> as Ord>⟧.cmp Id.cmp BinId.cmp
        rects_to_place.now options.now.turns.now.entries options.now.may_leave
        options.now.costs.now.entries (bins_of target_bins.old.entries) result
        (bins_of target_bins.new.entries) }
{
    match find(alloc, rects_to_place, target_bins, options, search) {
        Ok(Some(found)) => Ok(found),
        Ok(None) => Err(RectanglePackError::NotEnoughBinSpace),
        Err(_) => Err(RectanglePackError::OutOfMemory),
    }
}

// The same: `None` where there is not enough space.
fn find<'a, Id, BinId, GroupId, A>(
    alloc: A,
    groups: &'a GroupedRectsToPlace<Id, GroupId, A>,
    bins: &mut BTreeMap<BinId, TargetBin<A>, A>,
    options: &SearchOptions<'_, Id, BinId, A>,
    search: Search<A>,
) -> Result<Option<Searched<'a, RectanglePackOk<Id, BinId, A>, Group<GroupId, Id>, A>>, AllocError>
where
    Id: Ord + Clone + Drop,
    BinId: Ord + Clone + Drop,
    GroupId: Ord + Clone + Drop,
    A: Allocator + Copy,
    requires ids { ClonesEqual Id.is_clone Id.eq }
    requires bin_ids { ClonesEqual BinId.is_clone BinId.eq }
    ensures { AreSearched ⟦<Group<GroupId, Id> as Ord>⟧.cmp Id.cmp BinId.cmp groups.now
        options.now.may_leave options.now.turns.now.entries options.now.costs.now.entries
        (bins_of bins.old.entries) result (bins_of bins.new.entries) }
{
    let least = least_bins(alloc, groups, bins, options.turns)?;
    let entries = number_after(0, groups.groups()).unwrap_or(u64::MAX) as usize;
    let guess = best_guess(alloc, groups, bins, entries, options, &Heuristic::ALL)?;
    let proposal = proposal_of(alloc, groups, bins, options.turns, search)?;
    let tries = proposal.tries;
    let found = rehearsal_of(alloc, groups, bins, entries, options, proposal)?;
    let Some(settled) = settle(alloc, groups, bins, options, guess, found)? else {
        return Ok(None);
    };
    let Settled { packed, left, used } = settled;
    let is_optimal = is_proved(left.as_slice(), used, least);
    Ok(Some(Searched {
        packed,
        left,
        used,
        least,
        is_optimal,
        tries,
    }))
}

// Whether nothing is left, and no more bins are used than are needed.
fn is_proved<K>(left: &[&K], used: usize, least: Option<usize>) -> bool
    ensures { IsTrue result ↔
        ((map (λ k. k.now) left.now ≡ []) × IsSomeAnd least (λ least. used ≤ least)) }
{
    left.is_empty() && least.is_some_and(|least| used <= least)
}

// With how many bins a search may end: with as many as are needed, where all cost the same.
fn enough_bins<Id: Ord, BinId: Ord, A: Allocator + Copy>(
    least: Option<usize>,
    options: &SearchOptions<'_, Id, BinId, A>,
) -> usize {
    if options.costs.is_empty() {
        least.unwrap_or(0)
    } else {
        0
    }
}
