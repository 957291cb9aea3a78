//! How many bins a collection needs, whatever packer places it.
ghost use Rattle.std.specs.Prelude.{IfOk};
ghost use Rattle.rectangle_pack_sections.specs.Bins.{bins_of};
ghost use Rattle.rectangle_pack.specs.Needed.{AreNeededFor, IsShownFor};

mod apart;
pub(crate) mod entries;
mod laws;
mod reading;

use crate::bound::apart::number_apart;
use crate::bound::entries::{boxes_of, sizes_of};
pub use laws::{
    fewest_bins_are_used, fitting_is_an_arrangement, kept_packing_is_an_arrangement,
    packing_is_an_arrangement, told_fewest_bins_are_used, told_packing_is_an_arrangement,
};
pub use reading::{bins_used, uses_fewest_bins};
use rectangle_pack_bins::target_bin::TargetBin;
pub use rectangle_pack_bounds::laws::{
    bins_are_bounded, rates_are_dual_feasible, shown_bins_are_needed,
};
use rectangle_pack_bounds::least_bins::least_bins_shown;
pub use rectangle_pack_bounds::turning::Turns;
use rectangle_pack_groups::grouped_rects_to_place::{GroupedRectsToPlace, exclusions_of};
use rectangle_pack_sections::group::Group;
use std::alloc::{AllocError, Allocator};
use std::collections::BTreeMap;

/// How many of the bins a collection needs at least, whatever packer places it: no packing of all
/// its boxes uses fewer bins. `None` says that there is no packing.
///
/// A packing here puts each box inside a bin, so that no two boxes share a cell, and groups that are
/// excluded are in different bins. Boxes of one group may be in different bins, and boxes may be
/// turned as `turns` says. Bins count by their sizes, as if they were empty.
///
/// The number is a lower bound: more bins may be needed. Fails only when memory is refused.
///
/// ```
/// let mut rects: GroupedRectsToPlace<u32, u32> = GroupedRectsToPlace::new(alloc);
/// for id in 0..3 {
///     rects.push_rect(id, None, RectToInsert::new(6, 6, 1))?;
/// }
/// let mut bins: BTreeMap<u32, TargetBin> = BTreeMap::new(alloc);
/// for id in 0..4 {
///     bins.insert(id, TargetBin::new(alloc, 10, 10, 1)?)?;
/// }
/// let turns: BTreeMap<u32, Turns> = BTreeMap::new(alloc);
/// ```
///
/// No two of the boxes go into one bin.
///
/// ```
/// assert_eq!(rt; least_bins(alloc, &rects, &bins, &turns)?, Some(3));
/// ```
pub fn least_bins<Id, BinId, GroupId, A>(
    alloc: A,
    rects_to_place: &GroupedRectsToPlace<Id, GroupId, A>,
    target_bins: &BTreeMap<BinId, TargetBin<A>, A>,
    turns: &BTreeMap<Id, Turns, A>,
) -> Result<Option<usize>, AllocError>
where
    Id: Ord + Clone + Drop,
    BinId: Ord,
    GroupId: Ord + Clone + Drop,
    A: Allocator + Copy,
    // No arrangement of the boxes of all entries in bins of these sizes, in which groups that are
    //   excluded are in different bins, uses fewer bins than the answer. Where the answer is
    //   `None`, there is no arrangement. [joins.first_group_alone_is_asked]
    ensures needed { IfOk result
        (λ least.
        AreNeededFor ⟦<Group<GroupId, Id> as Ord>⟧.cmp Id.cmp BinId.cmp rects_to_place.now
        turns.now.entries (bins_of target_bins.now.entries) least) }
    // The answer is the greatest number that is shown by ratings of the boxes, by volumes, or by
    //   groups that exclude each other in pairs. [quotient.bound_is_rounded_up_twice,
    //   in_pieces.one_piece_too_many, small_sum.turned_box_counts_its_greater_value,
    //   fewest_with.smallest_bins_come_first, least_bins.groups_apart_count_once,
    //   with_more.last_of_equals_is_taken, box_of.all_may_be_turned]
    // The answer is `None` exactly where a box is too large for each bin, or where more bins are
    //   shown to be needed than there are. [each_has_bin.box_that_fits_nowhere_is_passed_over,
    //   least_bins_shown.bins_that_are_too_few_are_answered]
    ensures shown { IfOk result
        (λ least.
        IsShownFor ⟦<Group<GroupId, Id> as Ord>⟧.cmp Id.cmp BinId.cmp rects_to_place.now
        turns.now.entries (bins_of target_bins.now.entries) least) }
{
    let groups = rects_to_place.groups();
    let boxes = boxes_of(alloc, groups, rects_to_place.rects(), turns)?;
    let sizes = sizes_of(alloc, target_bins)?;
    let apart = number_apart(alloc, groups, exclusions_of(rects_to_place))?;
    least_bins_shown(alloc, sizes.as_slice(), boxes.as_slice(), apart)
}
