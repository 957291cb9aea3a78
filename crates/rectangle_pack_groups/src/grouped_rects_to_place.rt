//! Boxes in groups.
ghost use Rattle.std.specs.Prelude.{◌≡◌, ◌<◌, [], true, false, map, OnOk, OnErr, IfOk, IsOk, MatchOption, vec_len};
ghost use Rattle.std.specs.Option.{ForSome};
ghost use Rattle.std.specs.List.Sorted.{IsStrictlySortedBy};
ghost use Rattle.std.specs.Map.{keys_of};
ghost use Rattle.rectangle_pack_sections.specs.Clones.{ClonesEqual};
ghost use Rattle.rectangle_pack_sections.specs.Exclusions.{are_excluded};
ghost use Rattle.rectangle_pack_sections.specs.Groups.{Collection, PushesAlone, PushesInto, Excludes, MembersHaveSizes, lists_of};
ghost use Rattle.rectangle_pack_sections.specs.declared.group.Group.TheVariants.{Grouped};

pub mod exclusions;
mod laws;
mod members;
pub mod multimap;

use crate::grouped_rects_to_place::exclusions::Exclusions;
use crate::grouped_rects_to_place::members::{add_member, put_alone, restore};
use crate::grouped_rects_to_place::multimap::ascending;
pub use laws::{equal_pushes_leave_equal_collections, groups_are_ordered};
use rectangle_pack_sections::group::Group;
use rectangle_pack_sections::rect_to_insert::RectToInsert;
use std::alloc::{AllocError, Allocator, Global};
use std::collections::BTreeMap;
use std::marker::Model;

/// Boxes that are to be placed, each under its id and in one or more groups.
#[derive(Drop)]
#[derive_where(Debug; Id, GroupId)]
pub struct GroupedRectsToPlace<Id: Ord, GroupId: Ord, A: Allocator + Copy = Global> {
    rects: BTreeMap<Id, RectToInsert, A>,
    groups: BTreeMap<Group<GroupId, Id>, Vec<Id, A>, A>,
    exclusions: Exclusions<Group<GroupId, Id>, A>,
    #[derive_where(skip)]
    alloc: A,
}

// Each group has an entry, and the id of each entry has a size.
impl<Id: Ord, GroupId: Ord, A: Allocator + Copy> Model for GroupedRectsToPlace<Id, GroupId, A> {
    ghost use Rattle.rectangle_pack_sections.specs.Groups.{Collection, MembersHaveSizes, lists_of};

    ghost Value = { Collection Id GroupId };

    ghost view = { λ s. record {
      sizes = s.rects.entries;
      groups = lists_of s.groups.entries;
      partners = s.exclusions;
    } };

    ghost invariant = { λ s. MembersHaveSizes Id.cmp s.rects.entries (lists_of s.groups.entries) };
}

impl<Id: Ord + Clone + Drop, GroupId: Ord + Clone + Drop, A: Allocator + Copy> GroupedRectsToPlace<
    Id,
    GroupId,
    A,
> {
    /// An empty collection, whose memory is to come from `alloc`. This takes no memory.
    pub fn new(alloc: A) -> Self
        // The collection has no sizes, no groups and no excluded pairs.
        ensures { result ≡ record { sizes = []; groups = []; partners = [] } }
    {
        GroupedRectsToPlace {
            rects: BTreeMap::new(alloc),
            groups: BTreeMap::new(alloc),
            exclusions: Exclusions::new(alloc),
            alloc,
        }
    }

    /// The ids of each group, in the order in which they were pushed.
    pub fn groups(&self) -> &BTreeMap<Group<GroupId, Id>, Vec<Id, A>, A>
        // The answer has the groups of the collection, each with the ids in its list, in order.
        ensures entries { lists_of result.now.entries ≡ self.now.groups }
        // The groups are in strictly rising order, so none stands twice.
        ensures ascend { IsStrictlySortedBy ⟦<Group<GroupId, Id> as Ord>⟧.cmp
            (keys_of self.now.groups) }
        // Each group has a member, and each of its members has a size in the collection.
        ensures members { MembersHaveSizes Id.cmp self.now.sizes self.now.groups }
    {
        ascending(&self.groups)
    }

    /// The box of each id.
    pub fn rects(&self) -> &BTreeMap<Id, RectToInsert, A>
        // The answer has the sizes of the collection, each under its id.
        ensures entries { result.now.entries ≡ self.now.sizes }
        // The ids are in strictly rising order, so none stands twice.
        ensures ascend { IsStrictlySortedBy Id.cmp (keys_of self.now.sizes) }
    {
        ascending(&self.rects)
    }

    /// Says that the two groups are excluded: within one packing neither goes into a bin that the
    /// other went into. The groups need not be there yet. To name a pair again, in either order,
    /// changes nothing.
    ///
    /// The caller sees to it that the two groups differ, and that clones of ids equal their
    /// originals. `AllocError` says that a growth or a clone was refused. The collection is then as
    /// it was.
    ///
    /// ```
    /// rects.exclude(Group::Grouped("menu"), Group::Grouped("game"))?;
    /// ```
    pub fn exclude(
        &mut self,
        a: Group<GroupId, Id>,
        b: Group<GroupId, Id>,
    ) -> Result<(), AllocError>
        // Clones of box ids equal their originals.
        requires ids { ClonesEqual Id.is_clone Id.eq }
        // Clones of group ids equal their originals.
        requires group_ids { ClonesEqual GroupId.is_clone GroupId.eq }
        // The two groups differ.
        requires different { ⟦<Group<GroupId, Id> as PartialEq>⟧.eq a b ≡ false }
        // Where it succeeds, the two groups are excluded, in either order; of all other pairs the
        //   same are excluded as before; sizes and groups stay. [exclude.keeps_nothing]
        ensures ok { OnOk result
            (Excludes ⟦<Group<GroupId, Id> as Ord>⟧.cmp self.old self.new a b) }
        // Where the two groups are excluded already, it succeeds and leaves the collection as it
        //   was, list order included.
        ensures again { are_excluded ⟦<Group<GroupId, Id> as Ord>⟧.cmp self.old.partners a b ≡
            true → IsOk result × (self.new ≡ self.old) }
        // An error leaves the collection as it was.
        ensures err { OnErr result (self.new ≡ self.old) }
    {
        self.exclusions.add(a, b)
    }

    /// Whether the two groups are excluded, in either order. This takes no memory.
    pub fn excluded(&self, a: &Group<GroupId, Id>, b: &Group<GroupId, Id>) -> bool
        // The answer is true exactly where the two groups are excluded, in either order.
        ensures { result ≡
            are_excluded ⟦<Group<GroupId, Id> as Ord>⟧.cmp self.now.partners a.now b.now }
    {
        self.exclusions.has(a, b)
    }

    /// Takes in the box `inbound` under the id `inbound_id`. A box that the id had before goes.
    ///
    /// With `None` the id forms a group of its own. With a list it is appended to each group of the
    /// list, once for each time that the group is in the list. It also stays in the groups that it
    /// was in before.
    ///
    /// The caller sees to it that a given list is not empty, and that clones of ids equal their
    /// originals. `AllocError` says that a growth or a clone was refused. The collection is then as
    /// it was.
    ///
    /// ```
    /// let mut rects: GroupedRectsToPlace<u32, &'static str> = GroupedRectsToPlace::new(alloc);
    /// ```
    ///
    /// Box 7 goes into two groups:
    ///
    /// ```
    /// let groups = vec![in alloc; "menu", "game"]?;
    /// rects.push_rect(7, Some(groups), RectToInsert::new(10, 20, 1))?;
    /// ```
    ///
    /// Box 8 goes into one of them, and box 9 stays alone:
    ///
    /// ```
    /// let groups = vec![in alloc; "game"]?;
    /// rects.push_rect(8, Some(groups), RectToInsert::new(5, 50, 1))?;
    /// rects.push_rect(9, None, RectToInsert::new(30, 30, 1))?;
    /// ```
    ///
    /// A group has its boxes in the order in which they came:
    ///
    /// ```
    /// let game = rects
    ///     .groups()
    ///     .get(&Group::Grouped("game"))
    ///     .ok_or("no such group")?;
    /// assert_eq!(rt; game.as_slice(), [7, 8].as_slice());
    /// ```
    pub fn push_rect(
        &mut self,
        inbound_id: Id,
        group_ids: Option<Vec<GroupId, A>>,
        inbound: RectToInsert,
    ) -> Result<(), AllocError>
        requires ids { ClonesEqual Id.is_clone Id.eq }
        requires group_ids { ClonesEqual GroupId.is_clone GroupId.eq }
        // A list of groups that is given is not empty.
        requires given { ForSome group_ids (λ named. 0 < vec_len named) }
        // Where it succeeds, the id has this size; the other sizes and the excluded pairs stay.
        // Where it succeeds without a list of groups, the list of the id's own group is the id
        //   alone, and the other groups stay.
        // Where it succeeds with a list of groups, the list of each group that is named is its old
        //   list, or the empty one, followed by the id as often as the group is named. The groups
        //   that are not named stay. [push_grouped.twice_named_is_added_once]
        ensures ok { OnOk result
            (let groups = ⟦<Group<GroupId, Id> as Ord>⟧.cmp in
            MatchOption group_ids
            (PushesAlone Id.cmp groups self.old self.new inbound_id inbound)
            (λ named. PushesInto Id.cmp groups self.old self.new inbound_id named.items inbound)) }
        ensures err { OnErr result (self.new ≡ self.old) }
    {
        match group_ids {
            None => self.push_alone(inbound_id, inbound),
            Some(group_ids) => self.push_grouped(inbound_id, group_ids, inbound),
        }
    }

    // A refused insert of the size hands the id back, which is then the key of the list to take
    // back.
    fn push_alone(&mut self, inbound_id: Id, inbound: RectToInsert) -> Result<(), AllocError>
        requires ids { ClonesEqual Id.is_clone Id.eq }
        ensures ok { OnOk result
            (PushesAlone Id.cmp ⟦<Group<GroupId, Id> as Ord>⟧.cmp self.old self.new inbound_id
            inbound) }
        ensures err { OnErr result (self.new ≡ self.old) }
    {
        let key = Group::Ungrouped(inbound_id.clone()?);
        let before = put_alone(&mut self.groups, key, &inbound_id, self.alloc)?;
        match self.rects.insert(inbound_id, inbound) {
            Ok(_) => {
                drop(before);
                Ok(())
            }
            Err(failed) => {
                restore(&mut self.groups, &Group::Ungrouped(failed.value.0), before);
                Err(AllocError)
            }
        }
    }

    fn push_grouped(
        &mut self,
        inbound_id: Id,
        group_ids: Vec<GroupId, A>,
        inbound: RectToInsert,
    ) -> Result<(), AllocError>
        requires ids { ClonesEqual Id.is_clone Id.eq }
        requires group_ids { ClonesEqual GroupId.is_clone GroupId.eq }
        requires given { 0 < vec_len group_ids }
        ensures ok { OnOk result
            (PushesInto Id.cmp ⟦<Group<GroupId, Id> as Ord>⟧.cmp self.old self.new inbound_id
            group_ids.items inbound) }
        ensures err { OnErr result (self.new ≡ self.old) }
    {
        let keys = named_groups(self.alloc, group_ids)?;
        add_member(
            &mut self.groups,
            &mut self.rects,
            inbound_id,
            inbound,
            keys,
            self.alloc,
        )
    }
}

/// The pairs of groups that are excluded.
pub fn exclusions_of<Id: Ord, GroupId: Ord, A: Allocator + Copy>(
    collection: &GroupedRectsToPlace<Id, GroupId, A>,
) -> &Exclusions<Group<GroupId, Id>, A>
    ensures { result.now ≡ collection.now.partners }
{
    &collection.exclusions
}

// The groups of these names.
fn named_groups<Id: Drop, GroupId: Drop, A: Allocator + Copy>(
    alloc: A,
    group_ids: Vec<GroupId, A>,
) -> Result<Vec<Group<GroupId, Id>, A>, AllocError>
    ensures { IfOk result (λ groups. groups.items ≡ map Grouped group_ids.items) }
{
    group_ids
        .into_iter()
        .map(|id| Group::Grouped(id))
        .collect(alloc)
}
