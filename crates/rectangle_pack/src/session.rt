//! Bins with what is placed in them: boxes are packed, and given back by number.
ghost use Rattle.std.specs.Prelude.{◌≡◌, [], IsOk};
ghost use Rattle.std.specs.List.Sorted.{IsStrictlySortedBy};
ghost use Rattle.std.specs.Map.{keys_of};
ghost use Rattle.rectangle_pack_sections.specs.Clones.{ClonesEqual};
ghost use Rattle.rectangle_pack_sections.specs.Bins.{bins_of};
ghost use Rattle.rectangle_pack_sections.specs.Boxes.{Size};
ghost use Rattle.rectangle_pack_sections.specs.Closures.{AreCallable, answers};
ghost use Rattle.rectangle_pack_packing.specs.Packing.{rules_by};
ghost use Rattle.rectangle_pack.specs.Promise.{PacksAsPromised};
ghost use Rattle.rectangle_pack.specs.Session.{State, IsSession, AddsBin, Packs, Releases, reply_of, packed_reply};

mod best;
mod bins;
mod command;
mod cut_plan;
mod fitting;
mod growing;
mod joining;
mod laws;
mod outstanding;
mod placing_at;
mod placing_best;
mod reading;
mod records;
mod recutting;
mod releasing;
mod restoring;
mod run;
mod searching;
mod stats;
mod told;
mod upkeep;

use crate::session::bins::put_bin;
use crate::session::outstanding::{give_back, number_all, position_of};
use crate::session::records::Records;
pub use command::{Command, Outstanding, Packed, Reply, SessionError};
pub use laws::{cuts_stay_until_coalesced, transitions_keep_sessions};
use rectangle_pack_bins::target_bin::TargetBin;
pub use rectangle_pack_covers::covers::BinFault;
pub use rectangle_pack_covers::sections::SectionsError;
pub use rectangle_pack_covers::straight_cuts::{StraightCuts, straight_cuts};
use rectangle_pack_groups::grouped_rects_to_place::GroupedRectsToPlace;
use rectangle_pack_groups::grouped_rects_to_place::multimap::{ascending, number_after};
use rectangle_pack_lists::corners::Corners;
use rectangle_pack_packing::pack::attempt::try_packing;
pub use rectangle_pack_plans::cut_plan::CutStep;
pub use rectangle_pack_plans::cut_plan::laws::{
    cuts_cover_bins, cuts_have_open_planes, open_planes_split_cuts, pinwheel_is_not_from_cuts,
    plans_are_unique,
};
pub use rectangle_pack_sections::axis::Axis;
use rectangle_pack_sections::closures::{Closures, Policy};
use rectangle_pack_sections::group::Group;
use rectangle_pack_sections::width_height_depth::WidthHeightDepth;
pub use restoring::{RestoreError, SessionParts, bin_of_free_sections};
pub use stats::BinStats;
use std::alloc::{AllocError, Allocator, Global};
use std::cmp::Ordering;
use std::collections::BTreeMap;
use std::marker::Model;

/// Bins, and the boxes that stand in them. Each placement has a number, by which it is released.
/// Each cell of a bin is in exactly one free section or outstanding placement, and each of these is
/// inside the bin, always. Until the bin is coalesced, they are what straight cuts leave of it, one
/// after another, boxes without cells aside.
///
/// ```
/// let mut session: Session<u32, &'static str> = Session::new(alloc, 0);
/// session.add_bin("sheet", 10, 10, 1)?;
/// ```
///
/// A box is to go in.
///
/// ```
/// let mut rects: GroupedRectsToPlace<u32, u32> = GroupedRectsToPlace::new(alloc);
/// rects.push_rect(7, None, RectToInsert::new(4, 10, 1))?;
/// ```
///
/// It is the first that is placed, and so it gets the number 0.
///
/// ```
/// let packed = session.pack(&rects, &volume_heuristic, &contains_smallest_box)?;
/// assert_eq!(rt; packed.first, 0);
/// ```
///
/// The box stands at (0, 0, 0). It is given back by its number, and free sections are joined.
///
/// ```
/// session.release(0)?;
/// session.coalesce_all(&"sheet")?;
/// ```
///
/// All of the bin is one free section again.
///
/// ```
/// let sheet = session.bins().get(&"sheet").ok_or("no such bin")?;
/// let whole = BinSection::new(0, 0, 0, WidthHeightDepth::new(10, 10, 1));
/// assert_eq!(rt;
///     sheet.available_bin_sections().as_slice(),
///     [whole].as_slice()
/// );
/// ```
#[derive(Drop)]
pub struct Session<Id, BinId: Ord, A: Allocator + Copy = Global> {
    bins: BTreeMap<BinId, TargetBin<A>, A>,
    outstanding: Records<Outstanding<Id, BinId>, A>,
    next: u64,
    // Room for sweeps, which take no memory. Releases and growths of bins make it.
    corners: Corners<A>,
}

impl<Id, BinId: Ord, A: Allocator + Copy> Model for Session<Id, BinId, A> {
    ghost use Rattle.rectangle_pack_sections.specs.Bins.{bins_of};
    ghost use Rattle.rectangle_pack.specs.Session.{State, IsSession};

    ghost Value = { State Id BinId };

    ghost view = { λ s. record {
      bins = bins_of s.bins.entries;
      outstanding = s.outstanding.items;
      next = s.next;
    } };

    ghost invariant = { λ s. IsSession BinId.cmp (record {
      bins = bins_of s.bins.entries;
      outstanding = s.outstanding.items;
      next = s.next;
    }) };
}

impl<Id, BinId, A> Session<Id, BinId, A>
where
    Id: Ord + Clone + Drop,
    BinId: Ord + Clone + Drop,
    A: Allocator + Copy,
{
    /// A session without bins, whose memory is to come from `alloc`. The first placement gets the
    /// number `first`, but for the greatest `u64`, which is never given. This takes no memory.
    pub fn new(alloc: A, first: u64) -> Self
        // The session has no bins and no outstanding placements, and `first` is its next number.
        ensures { result ≡ record { bins = []; outstanding = []; next = first } }
    {
        Session {
            bins: BTreeMap::new(alloc),
            outstanding: Records::new(alloc),
            next: first,
            corners: Corners::new(alloc),
        }
    }

    /// The bins, each with its free sections.
    pub fn bins(&self) -> &BTreeMap<BinId, TargetBin<A>, A>
        // The answer has the bins of the session: under each id the size, the free sections, and
        //   whether the bin counts as coalesced.
        ensures bins { bins_of result.now.entries ≡ self.now.bins }
        // The ids are in strictly rising order, so none stands twice.
        ensures ascend { IsStrictlySortedBy BinId.cmp (keys_of self.now.bins) }
        // What always holds of a session holds.
        ensures always { IsSession BinId.cmp self.now }
    {
        ascending(&self.bins)
    }

    /// The placements that were not released, nor their bins cleared, in the order of their numbers.
    pub fn outstanding(&self) -> &[Outstanding<Id, BinId>]
        // The answer has the outstanding placements of the session, in their order.
        ensures outstanding { result.now ≡ self.now.outstanding }
        ensures always { IsSession BinId.cmp self.now }
    {
        self.outstanding.as_slice()
    }

    /// The number of the next placement, or the greatest `u64` where numbers are used up. Each
    /// outstanding number is smaller.
    pub fn next_number(&self) -> u64
        // The answer is the next number of the session.
        ensures { result ≡ self.now.next }
    {
        self.next
    }

    /// Adds a bin of this size, in cells, all of it free; any size will do. `DuplicateBin` says
    /// that a bin of this id is there, `OutOfMemory` that a growth was refused. The session is then
    /// as it was.
    pub fn add_bin(
        &mut self,
        id: BinId,
        width: u32,
        height: u32,
        depth: u32,
    ) -> Result<(), SessionError>
        // Done: no bin had an equal id. A new bin stands under the id: it has this size, one free
        //   section, which is all of it, and does not count as coalesced. All else stays.
        //   [without_sections.new_bin_counts_as_coalesced]
        // `DuplicateBin`: a bin of an equal id is there. The session is as it was.
        // `OutOfMemory`: no bin had an equal id. The session is as it was.
        // No other error is answered.
        ensures added { let size : Size = record { width = width; height = height; depth = depth }
            in
            AddsBin BinId.cmp id size self.old (reply_of result) self.new }
        // What always holds of a session holds afterwards.
        ensures always { IsSession BinId.cmp self.new }
    {
        if self.bins.contains_key(&id) {
            return Err(SessionError::DuplicateBin);
        }
        let alloc = *self.outstanding.allocator();
        let bin = TargetBin::new(alloc, width, height, depth)?;
        put_bin(&mut self.bins, id, bin)?;
        Ok(())
    }

    /// Packs all groups into the bins, as `pack_rects` does. The placements go to the end of
    /// `outstanding` under the next numbers, in the order in which they were made. Groups that are
    /// excluded are kept apart within this call.
    ///
    /// The caller sees to it that clones of ids equal their originals, and that both closures may be
    /// called on every size.
    ///
    /// `NumbersUsedUp` says that the next number and the entries of the groups add up to more than
    /// the greatest `u64`; this is looked at first. `NotEnoughBinSpace` says that for some group
    /// each bin is excluded or does not take all of its boxes; `OutOfMemory` may come before it. On
    /// each error the session is as it was.
    pub fn pack<GroupId, H, C>(
        &mut self,
        groups: &GroupedRectsToPlace<Id, GroupId, A>,
        heuristic: &H,
        comparison: &C,
    ) -> Result<Packed, SessionError>
    where
        GroupId: Ord + Clone + Drop,
        H: Fn(WidthHeightDepth) -> u128,
        C: Fn([WidthHeightDepth; 3], [WidthHeightDepth; 3], &H) -> Ordering,
        requires ids { ClonesEqual Id.is_clone Id.eq }
        requires bin_ids { ClonesEqual BinId.is_clone BinId.eq }
        // The heuristic may be called on every size, those with sides of 0 among them, and the
        //   comparison on every two triples of sizes with this heuristic.
        requires callable { AreCallable H.Fn C.Fn heuristic.now comparison.now }
        // Packed: the groups are packed into the bins by the rule that `pack_rects` keeps where it
        //   is done. [newest.first_section_is_taken]
        // Packed: the placements, one for each entry, follow the outstanding ones under the next
        //   numbers. The answer has the first of these numbers and how many there are; the next
        //   number grows by as many.
        // `NumbersUsedUp`: exactly where the next number and the entries add up to more than the
        //   greatest `u64`. The session is as it was.
        // `NotEnoughBinSpace`: the packing is refused for space by the rule of `pack_rects`. The
        //   session is as it was, the order of its lists included.
        //   [try_packing.refused_packing_stays]
        // `OutOfMemory`: there is a group, and the numbers are not used up. The session is as it
        //   was. [undo_one.undone_section_goes_last]
        // No other error is answered.
        ensures packed { let order = ⟦<Group<GroupId, Id> as Ord>⟧.cmp in
            let may = answers H.Fn C.Fn heuristic.now comparison.now in
            Packs order (rules_by Id.cmp BinId.cmp may) groups.now
            self.old (packed_reply result) self.new }
        // Packed: every entry of every group is placed once, in the size of its id, and each group
        //   in one bin.
        // Packed: two groups of this packing that are excluded are in different bins.
        //   [place_groups.first_groups_exclusions_are_used]
        // `NotEnoughBinSpace`: for some group, each bin of the session is excluded or the group's
        //   trial is stuck there, as the groups before it left that bin.
        //   [place_group.one_bin_only_is_tried]
        ensures promise { let order = ⟦<Group<GroupId, Id> as Ord>⟧.cmp in
            let may = answers H.Fn C.Fn heuristic.now comparison.now in
            PacksAsPromised order (rules_by Id.cmp BinId.cmp may) groups.now
            self.old (packed_reply result) self.new }
        // Without groups it succeeds.
        ensures no_groups { groups.now.groups ≡ [] → IsOk result }
        // What always holds of a session holds afterwards. [pieces_round.piece_behind_is_dropped]
        ensures always { IsSession BinId.cmp self.new }
    {
        let policy = Closures {
            heuristic,
            comparison,
        };
        self.pack_by(groups, &policy)
    }

    // One packing by this policy, which is kept where it is done, and undone where it is not.
    pub(crate) fn pack_by<GroupId, R>(
        &mut self,
        groups: &GroupedRectsToPlace<Id, GroupId, A>,
        policy: &R,
    ) -> Result<Packed, SessionError>
    where
        GroupId: Ord + Clone + Drop,
        R: Policy,
        requires ids { ClonesEqual Id.is_clone Id.eq }
        requires bin_ids { ClonesEqual BinId.is_clone BinId.eq }
        requires callable { R.is_callable policy.now }
        ensures packed { let order = ⟦<Group<GroupId, Id> as Ord>⟧.cmp in
            Packs order (rules_by Id.cmp BinId.cmp (R.may policy.now)) groups.now
            self.old (packed_reply result) self.new }
        ensures no_groups { groups.now.groups ≡ [] → IsOk result }
        ensures always { IsSession BinId.cmp self.new }
    {
        let first = self.next;
        let Some(next) = number_after(first, groups.groups()) else {
            return Err(SessionError::NumbersUsedUp);
        };
        let count = next - first;
        if groups.groups().is_empty() {
            return Ok(Packed { first, count });
        }
        let entries = count as usize;
        self.outstanding.reserve(entries)?;
        let alloc = *self.outstanding.allocator();
        let bins = &mut self.bins;
        let Some(placements) = try_packing(alloc, groups, bins, entries, policy, true)? else {
            return Err(SessionError::NotEnoughBinSpace);
        };
        number_all(&mut self.outstanding, placements, first);
        self.next = next;
        Ok(Packed { first, count })
    }

    /// Gives a placement back: it is no longer outstanding, and its cells are free again, as the
    /// newest section of its bin. Its number is not given again. A box without cells adds no
    /// section and takes no memory. Its id may be dropped some time later, at the latest with the
    /// session.
    ///
    /// `UnknownPlacement` says that no placement of this number is outstanding, `OutOfMemory` that
    /// a growth was refused. The session is then as it was.
    pub fn release(&mut self, number: u64) -> Result<(), SessionError>
        // Done: a placement of this number was outstanding, and it alone is taken out of the
        //   outstanding ones. The next number stays. [release.number_is_released_twice]
        // Done: where its box has cells, the box stands as a free section at the end of the list of
        //   its bin, and all else in the bins stays. [give_back.no_section_is_given_back]
        // Done: where its box has no cells, the bins are as they were.
        //   [give_back.empty_box_is_given_back]
        // `UnknownPlacement`: no placement of this number is outstanding. The session is as it was.
        // `OutOfMemory`: a placement of this number is outstanding, and its box has cells. The
        //   session is as it was. [give_back.empty_box_is_given_back]
        // No other error is answered.
        ensures released { Releases BinId.cmp number self.old (reply_of result) self.new }
        // What always holds of a session holds afterwards. [give_back.no_section_is_given_back]
        ensures always { IsSession BinId.cmp self.new }
    {
        let outstanding = self.outstanding.as_slice();
        let Some(index) = position_of(outstanding, number) else {
            return Err(SessionError::UnknownPlacement);
        };
        let placement = &outstanding[index];
        let corners = &mut self.corners;
        give_back(&mut self.bins, corners, &placement.bin, placement.location)?;
        self.outstanding.remove(index);
        Ok(())
    }
}
