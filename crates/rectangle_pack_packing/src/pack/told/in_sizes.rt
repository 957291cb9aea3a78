//! A collection whose boxes are packed in sizes of the caller's choice.
ghost use Rattle.std.specs.Prelude.{◌≡◌};
ghost use Rattle.rectangle_pack_sections.specs.Groups.{MembersHaveSizes};
ghost use Rattle.rectangle_pack_packing.specs.Told.{in_sizes};

use rectangle_pack_groups::grouped_rects_to_place::exclusions::Exclusions;
use rectangle_pack_groups::grouped_rects_to_place::{GroupedRectsToPlace, exclusions_of};
use rectangle_pack_sections::group::Group;
use rectangle_pack_sections::rect_to_insert::RectToInsert;
use std::alloc::Allocator;
use std::collections::BTreeMap;
use std::marker::Model;

/// The groups of a collection, with the sizes in which their boxes are packed.
#[derive(Drop)]
pub struct InSizes<'t, Id: Ord, GroupId: Ord, A: Allocator + Copy> {
    pub(crate) sizes: &'t BTreeMap<Id, RectToInsert, A>,
    pub(crate) lists: &'t BTreeMap<Group<GroupId, Id>, Vec<Id, A>, A>,
    pub(crate) exclusions: &'t Exclusions<Group<GroupId, Id>, A>,
}

// Each group has an entry, and the id of each entry has a size.
impl<'t, Id: Ord, GroupId: Ord, A: Allocator + Copy> Model for InSizes<'t, Id, GroupId, A> {
    ghost use Rattle.rectangle_pack_sections.specs.Groups.{Collection, MembersHaveSizes, lists_of};

    ghost Value = { Collection Id GroupId };

    ghost view = { λ c. record {
      sizes = c.sizes.now.entries;
      groups = lists_of c.lists.now.entries;
      partners = c.exclusions.now;
    } };

    ghost invariant = { λ c. MembersHaveSizes Id.cmp c.sizes.now.entries (lists_of c.lists.now.entries) };
}

impl<'t, Id, GroupId, A> InSizes<'t, Id, GroupId, A>
where
    Id: Ord + Clone + Drop,
    GroupId: Ord + Clone + Drop,
    A: Allocator + Copy,
{
    /// The collection in its own sizes.
    pub fn own(groups: &'t GroupedRectsToPlace<Id, GroupId, A>) -> Self
        ensures { result ≡ groups.now }
    {
        InSizes {
            sizes: groups.rects(),
            lists: groups.groups(),
            exclusions: exclusions_of(groups),
        }
    }

    /// The collection with each box in its size in `sizes`.
    pub fn new(
        groups: &'t GroupedRectsToPlace<Id, GroupId, A>,
        sizes: &'t BTreeMap<Id, RectToInsert, A>,
    ) -> Self
        requires { MembersHaveSizes Id.cmp sizes.now.entries groups.now.groups }
        ensures { result ≡ in_sizes groups.now sizes.now.entries }
    {
        InSizes {
            sizes,
            lists: groups.groups(),
            exclusions: exclusions_of(groups),
        }
    }
}
