//! Packing a session with the best of several heuristics.
ghost use Rattle.std.specs.Prelude.{◌≡◌, ◌<◌, ◌∷◌, [], length, IsOk};
ghost use Rattle.rectangle_pack_sections.specs.Clones.{ClonesEqual};
ghost use Rattle.rectangle_pack.specs.Session.{IsSession};
ghost use Rattle.rectangle_pack.specs.SessionBest.{PacksBest, PacksBestAsPromised};

use crate::session::Session;
use crate::session::command::{Packed, SessionError};
use rectangle_pack_groups::grouped_rects_to_place::GroupedRectsToPlace;
use rectangle_pack_groups::grouped_rects_to_place::multimap::number_after;
use rectangle_pack_packing::pack::best::best_of;
use rectangle_pack_sections::box_size_heuristics::Heuristic;
use rectangle_pack_sections::closures::Named;
use rectangle_pack_sections::group::Group;
use std::alloc::Allocator;

impl<Id, BinId, A> Session<Id, BinId, A>
where
    Id: Ord + Clone + Drop,
    BinId: Ord + Clone + Drop,
    A: Allocator + Copy,
{
    /// Packs all groups into the bins as `pack` does, with the heuristic of the list that uses the
    /// bins best, by the rule of `pack_rects_best`: what stood in the bins before does not count.
    /// `contains_smallest_box` chooses the cuts. Answers this heuristic, and the numbers of the
    /// placements.
    ///
    /// The caller sees to it that the list is not empty, and that clones of ids equal their
    /// originals.
    ///
    /// `NumbersUsedUp` comes first. `NotEnoughBinSpace` says that the packing is refused for space
    /// with each heuristic of the list. `OutOfMemory` may come though a packing with another
    /// heuristic was done. On each error the session is as it was.
    ///
    /// ```
    /// let mut session: Session<u32, &'static str> = Session::new(alloc, 0);
    /// session.add_bin("sheet", 4, 4, 1)?;
    /// ```
    ///
    /// Three boxes are to go in.
    ///
    /// ```
    /// let mut rects: GroupedRectsToPlace<u32, u32> = GroupedRectsToPlace::new(alloc);
    /// for (id, width, height) in [(1, 1, 3), (2, 3, 2), (3, 3, 1)] {
    ///     rects.push_rect(id, None, RectToInsert::new(width, height, 1))?;
    /// }
    /// ```
    ///
    /// With the heuristic `Height` all three find space.
    ///
    /// ```
    /// let (best, packed) = session.pack_best(&rects, &Heuristic::ALL)?;
    /// assert_eq!(rt; (best, packed.count), (Heuristic::Height, 3));
    /// ```
    pub fn pack_best<GroupId>(
        &mut self,
        groups: &GroupedRectsToPlace<Id, GroupId, A>,
        heuristics: &[Heuristic],
    ) -> Result<(Heuristic, Packed), SessionError>
    where
        GroupId: Ord + Clone + Drop,
        requires ids { ClonesEqual Id.is_clone Id.eq }
        requires bin_ids { ClonesEqual BinId.is_clone BinId.eq }
        // There is a heuristic in the list.
        requires some { 0 < length heuristics.now }
        // Packed: the answer names a heuristic of the list, and all that `packed` of
        //   `Session::pack` says where it is packed is so of a packing with this heuristic and
        //   `contains_smallest_box`.
        // Packed: this heuristic is the best of the list, in the words of `answer` of
        //   `pack_rects_best`. What stood in the bins before does not count.
        // `NumbersUsedUp`: exactly where the next number and the entries add up to more than the
        //   greatest `u64`. The session is as it was.
        // `NotEnoughBinSpace`: with each heuristic of the list the packing is refused for space.
        //   The session is as it was, the order of its lists included.
        //   [pack_best.first_heuristic_alone_is_tried]
        // `OutOfMemory`: the numbers are not used up. The session is as it was.
        // No other error is answered.
        ensures packed { PacksBest ⟦<Group<GroupId, Id> as Ord>⟧.cmp Id.cmp BinId.cmp
            heuristics.now groups.now self.old result self.new }
        // Packed: every entry of every group is placed once, in the size of its id, and each group
        //   in one bin; two groups that are excluded are in different bins.
        // `NotEnoughBinSpace`: with each heuristic of the list, for some group each bin of the
        //   session is excluded or the group's trial is stuck there, as the groups before it left
        //   that bin.
        ensures promise { PacksBestAsPromised ⟦<Group<GroupId, Id> as Ord>⟧.cmp Id.cmp BinId.cmp
            heuristics.now groups.now self.old result self.new }
        // Without groups it succeeds.
        ensures no_groups { groups.now.groups ≡ [] → IsOk result }
        ensures always { IsSession BinId.cmp self.new }
    {
        if heuristics.len() == 1 || groups.groups().is_empty() {
            return self.pack_named(groups, heuristics[0]);
        }
        let first = self.next;
        let Some(next) = number_after(first, groups.groups()) else {
            return Err(SessionError::NumbersUsedUp);
        };
        let alloc = *self.outstanding.allocator();
        let entries = (next - first) as usize;
        let best = best_of(alloc, groups, &mut self.bins, entries, heuristics)?;
        let Some((best, _)) = best else {
            return Err(SessionError::NotEnoughBinSpace);
        };
        self.pack_named(groups, best)
    }

    // Packs all groups into the bins with this heuristic.
    fn pack_named<GroupId>(
        &mut self,
        groups: &GroupedRectsToPlace<Id, GroupId, A>,
        heuristic: Heuristic,
    ) -> Result<(Heuristic, Packed), SessionError>
    where
        GroupId: Ord + Clone + Drop,
        requires ids { ClonesEqual Id.is_clone Id.eq }
        requires bin_ids { ClonesEqual BinId.is_clone BinId.eq }
        ensures packed { PacksBest ⟦<Group<GroupId, Id> as Ord>⟧.cmp Id.cmp BinId.cmp
            (heuristic ∷ []) groups.now self.old result self.new }
        ensures no_groups { groups.now.groups ≡ [] → IsOk result }
        ensures always { IsSession BinId.cmp self.new }
    {
        let packed = self.pack_by(groups, &Named(heuristic))?;
        Ok((heuristic, packed))
    }
}
