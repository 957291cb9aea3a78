//! Packing a session with what a search finds.
ghost use Rattle.rectangle_pack_sections.specs.Clones.{ClonesEqual};
ghost use Rattle.rectangle_pack.specs.Session.{IsSession};
ghost use Rattle.rectangle_pack.specs.SessionSearched.{PacksSearched, SearchedAsPromised};

use crate::searching::{
    Progress, Search, SearchOptions, Searched, begin_search, pack_rects_found, search_whole,
};
use crate::session::Session;
use crate::session::command::{Packed, SessionError};
use crate::session::outstanding::number_all;
use rectangle_pack_groups::grouped_rects_to_place::GroupedRectsToPlace;
use rectangle_pack_groups::grouped_rects_to_place::multimap::number_after;
use rectangle_pack_packing::answer::RectanglePackError;
use rectangle_pack_sections::group::Group;
use std::alloc::{AllocError, Allocator};

impl<Id, BinId, A> Session<Id, BinId, A>
where
    Id: Ord + Clone + Drop,
    BinId: Ord + Clone + Drop,
    A: Allocator + Copy,
{
    /// Searches for a packing that is better than that of any heuristic, as `pack_rects_searched`
    /// does, and keeps the best that is found. The placements go to the end of `outstanding` under
    /// the next numbers. Answers their numbers, the groups that are left, and whether it is proved
    /// that no packer uses fewer bins; what stood in the bins before does not count there.
    ///
    /// The caller sees to it that clones of ids equal their originals, and that `go_on` may be
    /// called at any time.
    ///
    /// `NumbersUsedUp` comes first. `NotEnoughBinSpace` says that nothing may be left, the packing
    /// is refused with each heuristic, and none was found. On each error the session is as it was.
    pub fn pack_searched<'a, GroupId, F>(
        &mut self,
        groups: &'a GroupedRectsToPlace<Id, GroupId, A>,
        options: &SearchOptions<'_, Id, BinId, A>,
        go_on: F,
    ) -> Result<Searched<'a, Packed, Group<GroupId, Id>, A>, SessionError>
    where
        GroupId: Ord + Clone + Drop,
        F: FnMut(&Progress) -> bool,
        requires ids { ClonesEqual Id.is_clone Id.eq }
        requires bin_ids { ClonesEqual BinId.is_clone BinId.eq }
        requires callable { F.IsAlwaysCallable go_on }
        // Packed: all that `answer` of `pack_rects_searched` says of what is done is so of the bins
        //   of the session and of the placements.
        // Packed: the placements follow the outstanding ones under the next numbers. The answer has
        //   the first of these numbers and how many there are; the next number grows by as many.
        //   [pack_found.numbers_are_given_twice]
        // `NumbersUsedUp`: exactly where the next number and the entries of all groups add up to
        //   more than the greatest `u64`. The session is as it was.
        // `NotEnoughBinSpace`: nothing may be left, and with each heuristic that has a name the
        //   packing is refused for space. The session is as it was, the order of its lists too.
        // `OutOfMemory`: the numbers are not used up. The session is as it was.
        // No other error is answered.
        ensures packed { PacksSearched ⟦<Group<GroupId, Id> as Ord>⟧.cmp Id.cmp BinId.cmp
            groups.now options.now.turns.now.entries options.now.may_leave
            options.now.costs.now.entries self.old result self.new }
        // Packed: every entry of each group that is not left is placed once, in a size in which its
        //   box may stand, all of the group in one bin; two groups that are excluded are in
        //   different bins. The groups that are left are the others.
        // `NotEnoughBinSpace`: with each heuristic that has a name, for some group each bin of the
        //   session is excluded or the group's trial is stuck there, as the groups before it left
        //   that bin.
        ensures promise { SearchedAsPromised ⟦<Group<GroupId, Id> as Ord>⟧.cmp Id.cmp BinId.cmp
            groups.now options.now.turns.now.entries options.now.may_leave
            options.now.costs.now.entries self.old result self.new }
        // What always holds of a session holds afterwards.
        ensures always { IsSession BinId.cmp self.new }
    {
        if number_after(self.next, groups.groups()).is_none() {
            return Err(SessionError::NumbersUsedUp);
        }
        let alloc = *self.outstanding.allocator();
        let search = search_whole(alloc, groups, &self.bins, options, go_on)?;
        self.pack_found(groups, options, search)
    }

    /// Begins a search for such a packing into the bins of the session, as `begin_search` does; what
    /// it finds is packed by `Session::pack_found`. Fails only when memory is refused.
    pub fn begin_search<GroupId>(
        &self,
        groups: &GroupedRectsToPlace<Id, GroupId, A>,
        options: &SearchOptions<'_, Id, BinId, A>,
    ) -> Result<Search<A>, AllocError>
    where
        GroupId: Ord + Clone + Drop,
    {
        begin_search(*self.outstanding.allocator(), groups, &self.bins, options)
    }

    /// Packs what a search found, or the best that a heuristic finds where that is as good, and keeps
    /// it, as `Session::pack_searched` does. Where the search was begun with other groups or options,
    /// or the bins have changed since, what it found may be of no use; what is promised holds
    /// nevertheless.
    ///
    /// The caller sees to it that clones of ids equal their originals.
    ///
    /// `NumbersUsedUp` comes first. `NotEnoughBinSpace` says that nothing may be left, the packing
    /// is refused with each heuristic, and what was found leaves groups or cannot be packed. On each
    /// error the session is as it was.
    pub fn pack_found<'a, GroupId>(
        &mut self,
        groups: &'a GroupedRectsToPlace<Id, GroupId, A>,
        options: &SearchOptions<'_, Id, BinId, A>,
        search: Search<A>,
    ) -> Result<Searched<'a, Packed, Group<GroupId, Id>, A>, SessionError>
    where
        GroupId: Ord + Clone + Drop,
        requires ids { ClonesEqual Id.is_clone Id.eq }
        requires bin_ids { ClonesEqual BinId.is_clone BinId.eq }
        // All that `packed` of `Session::pack_searched` says is so.
        //   [pack_found.numbers_are_given_twice]
        ensures packed { PacksSearched ⟦<Group<GroupId, Id> as Ord>⟧.cmp Id.cmp BinId.cmp
            groups.now options.now.turns.now.entries options.now.may_leave
            options.now.costs.now.entries self.old result self.new }
        // All that `promise` of it says is so.
        ensures promise { SearchedAsPromised ⟦<Group<GroupId, Id> as Ord>⟧.cmp Id.cmp BinId.cmp
            groups.now options.now.turns.now.entries options.now.may_leave
            options.now.costs.now.entries self.old result self.new }
        // What always holds of a session holds afterwards.
        ensures always { IsSession BinId.cmp self.new }
    {
        let first = self.next;
        let Some(next) = number_after(first, groups.groups()) else {
            return Err(SessionError::NumbersUsedUp);
        };
        self.outstanding.reserve((next - first) as usize)?;
        let alloc = *self.outstanding.allocator();
        let found = match pack_rects_found(alloc, groups, &mut self.bins, options, search) {
            Ok(found) => found,
            Err(RectanglePackError::NotEnoughBinSpace) => {
                return Err(SessionError::NotEnoughBinSpace);
            }
            Err(RectanglePackError::OutOfMemory) => return Err(SessionError::OutOfMemory),
        };
        let Searched {
            packed,
            left,
            used,
            least,
            is_optimal,
            tries,
        } = found;
        let placements = packed.into_placements();
        let count = placements.len() as u64;
        number_all(&mut self.outstanding, placements, first);
        self.next = first + count;
        Ok(Searched {
            packed: Packed { first, count },
            left,
            used,
            least,
            is_optimal,
            tries,
        })
    }
}
