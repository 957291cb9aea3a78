//! Ids in the lists of their groups, whose keys are of any type here.
ghost use Rattle.std.specs.Prelude.{◌≡◌, ◌<◌, List, length, All, OnOk, OnErr, IfOk, IsSome};
ghost use Rattle.std.specs.declared.cmp.Ordering.TheVariants.{Equal};
ghost use Rattle.std.specs.List.Sorted.{IsStrictlySortedBy};
ghost use Rattle.std.specs.Map.{lookup, keys_of};
ghost use Rattle.std.specs.Cmp.{IsTotalOrder};
ghost use Rattle.std.specs.BTreeMap.{get, is_at, insert_entry, IsOrdered};
ghost use Rattle.rectangle_pack_sections.specs.Clones.{ClonesEqual};
ghost use Rattle.rectangle_pack_sections.specs.Groups.{MembersHaveSizes, SetsSize, lists_of};
ghost use Rattle.rectangle_pack_sections.specs.private.Exclusions.{AreNonempty};
ghost use Rattle.rectangle_pack_groups.specs.private.Multimaps.{CanTakeBack, PutsAlone, AppendsAtEach};

use crate::grouped_rects_to_place::multimap::{add_each, forget_empty, take_back};
use rectangle_pack_sections::rect_to_insert::RectToInsert;
use std::alloc::{AllocError, Allocator};
use std::collections::BTreeMap;

// Puts a list of a clone of the id at the key, and answers the list that was there.
pub(crate) fn put_alone<K: Ord + Drop, Id: Ord + Clone + Drop, A: Allocator + Copy>(
    groups: &mut BTreeMap<K, Vec<Id, A>, A>,
    key: K,
    id: &Id,
    alloc: A,
) -> Result<Option<Vec<Id, A>>, AllocError>
    requires ids { ClonesEqual Id.is_clone Id.eq }
    ensures put { OnOk result
        (PutsAlone K.cmp Id.cmp groups.old.entries groups.new.entries key id.now) }
    ensures found { OnOk result
        ((q : K) → K.cmp q key ≡ Equal → IsSome (get K.cmp groups.new q)) }
    ensures before { IfOk result (λ before. before ≡ get K.cmp groups.old key) }
    ensures kept { OnErr result (groups.new.entries ≡ groups.old.entries) }
    ensures ordered { OnOk result (IsOrdered K.cmp groups.old) }
{
    let list = clones(alloc, id, 1)?;
    Ok(groups.insert(key, list)?)
}

// Appends the id at each of the keys and sets its size; where memory is refused, neither. The size
// is set last; where that is refused, the entries are taken back.
pub(crate) fn add_member<K: Ord + Clone + Drop, Id: Ord + Clone + Drop, A: Allocator + Copy>(
    groups: &mut BTreeMap<K, Vec<Id, A>, A>,
    sizes: &mut BTreeMap<Id, RectToInsert, A>,
    id: Id,
    size: RectToInsert,
    keys: Vec<K, A>,
    alloc: A,
) -> Result<(), AllocError>
    requires clones_equal { ClonesEqual K.is_clone K.eq }
    requires ids { ClonesEqual Id.is_clone Id.eq }
    requires given { 0 < length keys.items }
    requires members { MembersHaveSizes Id.cmp sizes.old.entries (lists_of groups.old.entries) }
    ensures appended { OnOk result
        (AppendsAtEach K.cmp Id.cmp keys.items id (lists_of groups.old.entries)
        (lists_of groups.new.entries)) }
    ensures size { OnOk result (SetsSize Id.cmp sizes.old.entries sizes.new.entries id size) }
    ensures members { MembersHaveSizes Id.cmp sizes.new.entries (lists_of groups.new.entries) }
    ensures groups_kept { OnErr result
        (lists_of groups.new.entries ≡ lists_of groups.old.entries) }
    ensures sizes_kept { OnErr result (sizes.new.entries ≡ sizes.old.entries) }
{
    add_clones(groups, keys.as_slice(), &id, alloc)?;
    match sizes.insert(id, size) {
        Ok(_) => Ok(()),
        Err(_) => {
            take_back(groups, keys.as_slice());
            forget_empty(groups);
            Err(AllocError)
        }
    }
}

// Appends a clone of the id at each of the keys; where memory is refused, at none.
fn add_clones<K: Ord + Clone + Drop, Id: Ord + Clone + Drop, A: Allocator + Copy>(
    groups: &mut BTreeMap<K, Vec<Id, A>, A>,
    keys: &[K],
    id: &Id,
    alloc: A,
) -> Result<(), AllocError>
    requires clones_equal { ClonesEqual K.is_clone K.eq }
    requires ids { ClonesEqual Id.is_clone Id.eq }
    requires some { AreNonempty (lists_of groups.old.entries) }
    ensures appended { OnOk result
        (AppendsAtEach K.cmp Id.cmp keys.now id.now (lists_of groups.old.entries)
        (lists_of groups.new.entries)) }
    ensures back { OnOk result
        (CanTakeBack K.cmp keys.now (lists_of groups.new.entries)
        (lists_of groups.old.entries)) }
    ensures kept { OnErr result
        (lists_of groups.new.entries ≡ lists_of groups.old.entries) }
    ensures ordered { OnOk result (0 < length keys.now → IsOrdered K.cmp groups.new) }
    ensures lawful { IsTotalOrder K.cmp }
{
    let members = clones(alloc, id, keys.len())?;
    if add_each(groups, keys, members, alloc).is_err() {
        forget_empty(groups);
        return Err(AllocError);
    }
    Ok(())
}

// Takes back an insert at an equal key, where `before` is what it answered.
pub(crate) fn restore<K: Ord + Drop, V: Drop, A: Allocator + Copy>(
    map: &mut BTreeMap<K, V, A>,
    key: &K,
    before: Option<V>,
)
    requires has { IsSome (get K.cmp map.old key.now) }
    ensures { (was : List (K × V)) (k : K) (v : V) → IsStrictlySortedBy K.cmp (keys_of was) →
        K.cmp key.now k ≡ Equal →
        before ≡ lookup (is_at (K.cmp k)) was →
        map.old.entries ≡ insert_entry K.cmp was k v →
        map.new.entries ≡ was }
{
    match before {
        None => {
            map.remove(key);
        }
        Some(value) => {
            match map.get_mut(key) {
                Some(place) => *place = value,
                None => unreachable!(),
            }
        }
    }
}

// `count` clones of the id.
fn clones<Id: Ord + Clone + Drop, A: Allocator + Copy>(
    alloc: A,
    id: &Id,
    count: usize,
) -> Result<Vec<Id, A>, AllocError>
    requires ids { ClonesEqual Id.is_clone Id.eq }
    ensures count { IfOk result (λ all. length all.items ≡ count) }
    ensures clones { IfOk result (λ all. All (λ x. Id.cmp id.now x ≡ Equal) all.items) }
{
    let mut all = Vec::with_capacity(alloc, count)?;
    for _ in 0..count {
        all.push_reserved(id.clone()?);
    }
    Ok(all)
}
