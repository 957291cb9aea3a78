//! Packing what fits into a session: groups that no bin takes are left.
ghost use Rattle.std.specs.Prelude.{◌≡◌, ◌<◌, [], length, IsOk};
ghost use Rattle.rectangle_pack_sections.specs.Clones.{ClonesEqual};
ghost use Rattle.rectangle_pack_sections.specs.Closures.{AreCallable, answers};
ghost use Rattle.rectangle_pack_packing.specs.Packing.{rules_by};
ghost use Rattle.rectangle_pack.specs.private.Fitting.{PacksFittingWith};
ghost use Rattle.rectangle_pack.specs.Session.{IsSession};
ghost use Rattle.rectangle_pack.specs.SessionFitting.{PacksFitting, FitsAsPromised, PacksFittingBest, FitsBestAsPromised};

use crate::session::Session;
use crate::session::command::{Packed, SessionError};
use crate::session::outstanding::number_all;
use rectangle_pack_groups::grouped_rects_to_place::GroupedRectsToPlace;
use rectangle_pack_groups::grouped_rects_to_place::multimap::number_after;
use rectangle_pack_packing::answer::Fitted;
use rectangle_pack_packing::pack::fitting::try_fitting;
use rectangle_pack_packing::pack::fitting_best::best_fit_of;
use rectangle_pack_sections::box_size_heuristics::Heuristic;
use rectangle_pack_sections::closures::{Closures, Named, Policy};
use rectangle_pack_sections::group::Group;
use rectangle_pack_sections::width_height_depth::WidthHeightDepth;
use std::alloc::Allocator;
use std::cmp::Ordering;

impl<Id, BinId, A> Session<Id, BinId, A>
where
    Id: Ord + Clone + Drop,
    BinId: Ord + Clone + Drop,
    A: Allocator + Copy,
{
    /// Packs what fits into the bins, as `pack_rects_fitting` does. A group that no bin takes is
    /// left, and the next one is tried. The placements go to the end of `outstanding` under the
    /// next numbers, in the order in which they were made. Answers their numbers, and the groups
    /// that are left, in the order in which they were tried. Groups that are excluded are kept
    /// apart within this call.
    ///
    /// The caller sees to it that clones of ids equal their originals, and that both closures may
    /// be called on every size.
    ///
    /// Space is no reason to fail. `NumbersUsedUp` says that the next number and the entries of all
    /// groups add up to more than the greatest `u64`; this is looked at first. `OutOfMemory` says
    /// that a growth or a clone was refused. On each error the session is as it was.
    ///
    /// ```
    /// let mut session: Session<u32, &'static str> = Session::new(alloc, 0);
    /// session.add_bin("sheet", 10, 10, 1)?;
    /// ```
    ///
    /// Beside a square of 6 cells a side there is no room for one of 5.
    ///
    /// ```
    /// let mut rects: GroupedRectsToPlace<u32, u32> = GroupedRectsToPlace::new(alloc);
    /// for (id, side) in [(1, 6), (2, 5), (3, 4)] {
    ///     rects.push_rect(id, None, RectToInsert::new(side, side, 1))?;
    /// }
    /// ```
    ///
    /// So the second box is left, and the other two get the numbers 0 and 1.
    ///
    /// ```
    /// let fitted = session.pack_fitting(&rects, &volume_heuristic, &contains_smallest_box)?;
    /// assert_eq!(rt; fitted.packed.count, 2);
    /// assert_eq!(rt; fitted.left.len(), 1);
    /// ```
    pub fn pack_fitting<'a, GroupId, H, C>(
        &mut self,
        groups: &'a GroupedRectsToPlace<Id, GroupId, A>,
        heuristic: &H,
        comparison: &C,
    ) -> Result<Fitted<'a, Packed, Group<GroupId, Id>, A>, SessionError>
    where
        GroupId: Ord + Clone + Drop,
        H: Fn(WidthHeightDepth) -> u128,
        C: Fn([WidthHeightDepth; 3], [WidthHeightDepth; 3], &H) -> Ordering,
        requires ids { ClonesEqual Id.is_clone Id.eq }
        requires bin_ids { ClonesEqual BinId.is_clone BinId.eq }
        // The heuristic may be called on every size, those with sides of 0 among them, and the
        //   comparison on every two triples of sizes with this heuristic.
        requires callable { AreCallable H.Fn C.Fn heuristic.now comparison.now }
        // Packed: what fits is packed into the bins, and the other groups are left, by the rule of
        //   `pack_rects_fitting`. The answer names them in the order in which they were tried.
        // Packed: the placements follow the outstanding ones under the next numbers. The answer has
        //   the first of these numbers and how many there are; the next number grows by as many.
        //   [fit_by.number_grows_by_all_entries]
        // `NumbersUsedUp`: exactly where the next number and the entries of all groups add up to
        //   more than the greatest `u64`. The session is as it was.
        // `OutOfMemory`: there is a group, and the numbers are not used up. The session is as it
        //   was, the order of its lists included.
        // No other error is answered.
        ensures packed { let order = ⟦<Group<GroupId, Id> as Ord>⟧.cmp in
            let may = answers H.Fn C.Fn heuristic.now comparison.now in
            PacksFitting order (rules_by Id.cmp BinId.cmp may) groups.now self.old result self.new }
        // Packed: every entry of every group that is placed is placed once, in the size of its id,
        //   and each such group in one bin. These groups and those that are left are all groups,
        //   each once.
        // Packed: two groups of this packing that are excluded are in different bins.
        // Packed: for each group that is left, each bin of the session is excluded or the group's
        //   trial is stuck there, as the groups before it left that bin.
        ensures promise { let order = ⟦<Group<GroupId, Id> as Ord>⟧.cmp in
            let may = answers H.Fn C.Fn heuristic.now comparison.now in
            FitsAsPromised order (rules_by Id.cmp BinId.cmp may) groups.now
            self.old result self.new }
        // Without groups it succeeds.
        ensures no_groups { groups.now.groups ≡ [] → IsOk result }
        // What always holds of a session holds afterwards.
        ensures always { IsSession BinId.cmp self.new }
    {
        let policy = Closures {
            heuristic,
            comparison,
        };
        self.fit_by(groups, &policy)
    }

    // What fits by this policy is packed and kept.
    fn fit_by<'a, GroupId, R>(
        &mut self,
        groups: &'a GroupedRectsToPlace<Id, GroupId, A>,
        policy: &R,
    ) -> Result<Fitted<'a, Packed, Group<GroupId, Id>, A>, SessionError>
    where
        GroupId: Ord + Clone + Drop,
        R: Policy,
        requires ids { ClonesEqual Id.is_clone Id.eq }
        requires bin_ids { ClonesEqual BinId.is_clone BinId.eq }
        requires callable { R.is_callable policy.now }
        ensures packed { let order = ⟦<Group<GroupId, Id> as Ord>⟧.cmp in
            PacksFitting order (rules_by Id.cmp BinId.cmp (R.may policy.now)) groups.now
            self.old result self.new }
        ensures no_groups { groups.now.groups ≡ [] → IsOk result }
        ensures always { IsSession BinId.cmp self.new }
    {
        let first = self.next;
        let Some(next) = number_after(first, groups.groups()) else {
            return Err(SessionError::NumbersUsedUp);
        };
        let alloc = *self.outstanding.allocator();
        if groups.groups().is_empty() {
            let packed = Packed { first, count: 0 };
            let left = Vec::new(alloc);
            return Ok(Fitted { packed, left });
        }
        let entries = (next - first) as usize;
        self.outstanding.reserve(entries)?;
        let fitted = try_fitting(alloc, groups, &mut self.bins, entries, policy, true)?;
        let Fitted { packed, left } = fitted;
        let count = packed.len() as u64;
        number_all(&mut self.outstanding, packed, first);
        self.next = first + count;
        let packed = Packed { first, count };
        Ok(Fitted { packed, left })
    }

    /// Packs what fits into the bins as `pack_fitting` does, with the heuristic of the list that
    /// leaves the fewest cells, by the rule of `pack_rects_fitting_best`: what stood in the bins
    /// before does not count. `contains_smallest_box` chooses the cuts. Answers this heuristic, the
    /// numbers of the placements, and the groups that are left.
    ///
    /// The caller sees to it that the list is not empty, and that clones of ids equal their
    /// originals.
    ///
    /// `NumbersUsedUp` comes first. `OutOfMemory` may come though a packing with another heuristic
    /// was done. On each error the session is as it was.
    pub fn pack_fitting_best<'a, GroupId>(
        &mut self,
        groups: &'a GroupedRectsToPlace<Id, GroupId, A>,
        heuristics: &[Heuristic],
    ) -> Result<(Heuristic, Fitted<'a, Packed, Group<GroupId, Id>, A>), SessionError>
    where
        GroupId: Ord + Clone + Drop,
        requires ids { ClonesEqual Id.is_clone Id.eq }
        requires bin_ids { ClonesEqual BinId.is_clone BinId.eq }
        // There is a heuristic in the list.
        requires some { 0 < length heuristics.now }
        // Packed: the answer names a heuristic of the list, and all that `packed` of
        //   `Session::pack_fitting` says where it is packed is so of a packing with this heuristic
        //   and `contains_smallest_box`.
        // Packed: this heuristic is the best of the list, in the words of `answer` of
        //   `pack_rects_fitting_best`. What stood in the bins before does not count.
        //   [pack_fitting_best.first_heuristic_is_taken]
        // `NumbersUsedUp`: exactly where the next number and the entries of all groups add up to
        //   more than the greatest `u64`. The session is as it was.
        // `OutOfMemory`: there is a group, and the numbers are not used up. The session is as it
        //   was.
        // No other error is answered.
        ensures packed { PacksFittingBest ⟦<Group<GroupId, Id> as Ord>⟧.cmp Id.cmp BinId.cmp
            heuristics.now groups.now self.old result self.new }
        // Packed: `promise` of `Session::pack_fitting` is kept with the heuristic of the answer and
        //   `contains_smallest_box`.
        ensures promise { FitsBestAsPromised ⟦<Group<GroupId, Id> as Ord>⟧.cmp Id.cmp BinId.cmp
            groups.now self.old result self.new }
        // Without groups it succeeds.
        ensures no_groups { groups.now.groups ≡ [] → IsOk result }
        ensures always { IsSession BinId.cmp self.new }
    {
        if heuristics.len() == 1 || groups.groups().is_empty() {
            return self.fit_named(groups, heuristics[0]);
        }
        let first = self.next;
        let Some(next) = number_after(first, groups.groups()) else {
            return Err(SessionError::NumbersUsedUp);
        };
        let alloc = *self.outstanding.allocator();
        let entries = (next - first) as usize;
        let best = best_fit_of(alloc, groups, &mut self.bins, entries, heuristics)?;
        let Some((best, _)) = best else {
            unreachable!()
        };
        self.fit_named(groups, best)
    }

    // What fits with this heuristic is packed and kept.
    fn fit_named<'a, GroupId>(
        &mut self,
        groups: &'a GroupedRectsToPlace<Id, GroupId, A>,
        heuristic: Heuristic,
    ) -> Result<(Heuristic, Fitted<'a, Packed, Group<GroupId, Id>, A>), SessionError>
    where
        GroupId: Ord + Clone + Drop,
        requires ids { ClonesEqual Id.is_clone Id.eq }
        requires bin_ids { ClonesEqual BinId.is_clone BinId.eq }
        ensures packed { PacksFittingWith ⟦<Group<GroupId, Id> as Ord>⟧.cmp Id.cmp BinId.cmp
            heuristic groups.now self.old result self.new }
        ensures no_groups { groups.now.groups ≡ [] → IsOk result }
        ensures always { IsSession BinId.cmp self.new }
    {
        let fitted = self.fit_by(groups, &Named(heuristic))?;
        Ok((heuristic, fitted))
    }
}
