//! Laws of groups and of pushes.
ghost use Rattle.std.specs.Prelude.{◌≡◌, ◌<◌, ◌↔◌, List, true};
ghost use Rattle.std.specs.declared.cmp.Ordering.TheVariants.{Less, Equal, Greater};
ghost use Rattle.std.specs.List.Sorted.{IsStrictlySortedBy};
ghost use Rattle.std.specs.Map.{keys_of};
ghost use Rattle.rectangle_pack_sections.specs.Groups.{Collection, PushesAlone, PushesInto};
ghost use Rattle.rectangle_pack_sections.specs.Boxes.{Size};
ghost use Rattle.rectangle_pack_sections.specs.Alike.{AreCollectionsAlike};
ghost use Rattle.std.specs.List.{AllZip};
ghost use Rattle.rectangle_pack_sections.specs.declared.group.Group.TheVariants.{Ungrouped, Grouped};

use crate::grouped_rects_to_place::Group;

/// A law: equal pushes into equal collections leave equal collections, where ids and groups are
/// equal as their orders say.
pub fn equal_pushes_leave_equal_collections<Id: Ord, GroupId: Ord>()
    // Two collections are equal, and equal ids are pushed into them without groups, in the same
    //   size. Then the two are equal again. Collections are equal here where they have the same
    //   sizes under equal ids, lists of equal ids under equal groups, and the same excluded pairs.
    ensures alone { let groups = ⟦<Group<GroupId, Id> as Ord>⟧.cmp in
        (old new other_old other_new : Collection Id GroupId) (id other_id : Id) (size : Size) →
        AreCollectionsAlike groups Id.cmp old other_old →
        Id.cmp id other_id ≡ Equal →
        PushesAlone Id.cmp groups old new id size →
        PushesAlone Id.cmp groups other_old other_new other_id size →
        AreCollectionsAlike groups Id.cmp new other_new }
    // The same where both ids are pushed into lists of groups that are equal one by one, if the
    //   groups of both new collections are in strictly rising order.
    ensures grouped { let groups = ⟦<Group<GroupId, Id> as Ord>⟧.cmp in
        (old new other_old other_new : Collection Id GroupId) (id other_id : Id)
        (named other_named : List GroupId) (size : Size) →
        AreCollectionsAlike groups Id.cmp old other_old →
        Id.cmp id other_id ≡ Equal →
        AllZip (λ a b. GroupId.cmp a b ≡ Equal) named other_named →
        IsStrictlySortedBy groups (keys_of new.groups) →
        IsStrictlySortedBy groups (keys_of other_new.groups) →
        PushesInto Id.cmp groups old new id named size →
        PushesInto Id.cmp groups other_old other_new other_id other_named size →
        AreCollectionsAlike groups Id.cmp new other_new }
{}

/// A law: every `Ungrouped` group stands before every `Grouped` one, and within each they go by id.
/// Two groups are equal where their order says so.
pub fn groups_are_ordered<GroupId: Ord, Id: Ord>()
    // A group `Ungrouped` is less than any group `Grouped`.
    ensures ungrouped_first { (a : Id) → (b : GroupId) →
        ⟦<Group<GroupId, Id> as Ord>⟧.cmp (Ungrouped a) (Grouped b) ≡ Less }
    // A group `Grouped` is greater than any group `Ungrouped`.
    ensures grouped_last { (a : GroupId) → (b : Id) →
        ⟦<Group<GroupId, Id> as Ord>⟧.cmp (Grouped a) (Ungrouped b) ≡ Greater }
    // Two groups `Ungrouped` compare as their ids do.
    ensures ungrouped_by_id { (a b : Id) →
        ⟦<Group<GroupId, Id> as Ord>⟧.cmp (Ungrouped a) (Ungrouped b) ≡ Id.cmp a b }
    // Two groups `Grouped` compare as their group ids do.
    ensures grouped_by_id { (a b : GroupId) →
        ⟦<Group<GroupId, Id> as Ord>⟧.cmp (Grouped a) (Grouped b) ≡ GroupId.cmp a b }
    // The order answers `Equal` exactly where `==` is true.
    ensures same_where_equal { (a b : Group GroupId Id) →
        (⟦<Group<GroupId, Id> as Ord>⟧.cmp a b ≡ Equal) ↔
        (⟦<Group<GroupId, Id> as PartialEq>⟧.eq a b ≡ true) }
{}
