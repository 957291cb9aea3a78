//! Maps from keys to lists, where a key with no items is as good as none.
ghost use Rattle.std.specs.Prelude.{◌≡◌, ◌<◌, ◌≤◌, ◌+◌, ◌^◌, ◌++◌, ◌∷◌, [], List, length, map, sum, reverse, OnOk, OnErr, IsSomeAnd, IsSome, is_some, MatchOption, Some, true, false};
ghost use Rattle.std.specs.BTreeMap.{get, is_at, IsOrdered};
ghost use Rattle.std.specs.Map.{keys_of, lookup, set_value, values_of};
ghost use Rattle.std.specs.List.Sorted.{IsStrictlySortedBy};
ghost use Rattle.std.specs.Cmp.{IsTotalOrder};
ghost use Rattle.std.specs.Ordering.{is_eq};
ghost use Rattle.rectangle_pack_sections.specs.Clones.{ClonesEqual};
ghost use Rattle.rectangle_pack_sections.specs.Groups.{lists_of};
ghost use Rattle.rectangle_pack_groups.specs.private.Multimaps.{filled, times, items_of, HasRoom, AreAppended, IsAdded, TakesBack, CanTakeBack};

use std::alloc::{AllocError, Allocator};
use std::collections::BTreeMap;

// Makes the key known, with no items where it is new.
fn ensure_key<K: Ord + Clone + Drop, T: Drop, A: Allocator + Copy>(
    map: &mut BTreeMap<K, Vec<T, A>, A>,
    key: &K,
    alloc: A,
) -> Result<(), AllocError>
    requires clones_equal { ClonesEqual K.is_clone K.eq }
    ensures kept { filled (lists_of map.new.entries) ≡ filled (lists_of map.old.entries) }
    ensures items { (q : K) → items_of (get K.cmp map.new q) ≡ items_of (get K.cmp map.old q) }
    ensures others { (q : K) → is_eq (K.cmp key.now q) ≡ false →
        get K.cmp map.new q ≡ get K.cmp map.old q }
    ensures has { OnOk result (IsSome (get K.cmp map.new key.now)) }
{
    if map.contains_key(key) {
        return Ok(());
    }
    map.insert(key.clone()?, Vec::new(alloc))?;
    Ok(())
}

// Makes each of the keys known.
fn ensure_keys<K: Ord + Clone + Drop, T: Drop, A: Allocator + Copy>(
    map: &mut BTreeMap<K, Vec<T, A>, A>,
    keys: &[K],
    alloc: A,
) -> Result<(), AllocError>
    requires clones_equal { ClonesEqual K.is_clone K.eq }
    ensures kept { filled (lists_of map.new.entries) ≡ filled (lists_of map.old.entries) }
    ensures items { (q : K) → items_of (get K.cmp map.new q) ≡ items_of (get K.cmp map.old q) }
    ensures others { (q : K) → times K.cmp keys.now q ≡ 0 →
        get K.cmp map.new q ≡ get K.cmp map.old q }
    ensures has { OnOk result
        ((q : K) → 0 < times K.cmp keys.now q → IsSome (get K.cmp map.new q)) }
{
    for key in keys {
        ensure_key(map, key, alloc)?;
    }
    Ok(())
}

/// The map. For the proof alone: its length is asked for, which says that its keys ascend.
pub fn ascending<K: Ord, X, A: Allocator>(map: &BTreeMap<K, X, A>) -> &BTreeMap<K, X, A>
    ensures same { result.now ≡ map.now }
    ensures ascend { IsStrictlySortedBy K.cmp (keys_of map.now.entries) }
{
    let _len = map.len();
    map
}

/// The number after those of all items, if there is one.
pub fn number_after<K: Ord, X, A: Allocator>(
    first: u64,
    lists: &BTreeMap<K, Vec<X, A>, A>,
) -> Option<u64>
    ensures { let entries = sum (map length (values_of (lists_of lists.now.entries))) in
        MatchOption result (2 ^ 64 ≤ first + entries) (λ n. n ≡ first + entries) }
{
    let mut number = first;
    for (_, list) in lists {
        number = number.checked_add(list.len() as u64)?;
    }
    Some(number)
}

// Forgets the keys that have no items.
pub(crate) fn forget_empty<K: Ord + Drop, T: Drop, A: Allocator + Copy>(
    map: &mut BTreeMap<K, Vec<T, A>, A>,
)
    ensures { lists_of map.new.entries ≡ filled (lists_of map.old.entries) }
{
    map.retain(|_, list| !list.is_empty());
}

// Room for one more item at the key.
fn reserve_at<K: Ord + Drop, T: Drop, A: Allocator + Copy>(
    map: &mut BTreeMap<K, Vec<T, A>, A>,
    key: &K,
) -> Result<(), AllocError>
    requires has { IsSome (get K.cmp map.old key.now) }
    ensures kept { lists_of map.new.entries ≡ lists_of map.old.entries }
    ensures items { (q : K) → items_of (get K.cmp map.new q) ≡ items_of (get K.cmp map.old q) }
    ensures known { (q : K) → is_some (get K.cmp map.new q) ≡ is_some (get K.cmp map.old q) }
    ensures others { (q : K) → is_eq (K.cmp key.now q) ≡ false →
        get K.cmp map.new q ≡ get K.cmp map.old q }
    ensures room { OnOk result (HasRoom (get K.cmp map.new key.now) 1) }
{
    match map.get_mut(key) {
        Some(list) => list.reserve(1),
        None => unreachable!(),
    }
}

// Makes the key known, with room for one more item.
pub(crate) fn make_room<K: Ord + Clone + Drop, T: Drop, A: Allocator + Copy>(
    map: &mut BTreeMap<K, Vec<T, A>, A>,
    key: &K,
    alloc: A,
) -> Result<(), AllocError>
    requires clones_equal { ClonesEqual K.is_clone K.eq }
    ensures kept { filled (lists_of map.new.entries) ≡ filled (lists_of map.old.entries) }
    ensures items { (q : K) → items_of (get K.cmp map.new q) ≡ items_of (get K.cmp map.old q) }
    ensures others { (q : K) → is_eq (K.cmp key.now q) ≡ false →
        get K.cmp map.new q ≡ get K.cmp map.old q }
    ensures room { OnOk result (HasRoom (get K.cmp map.new key.now) 1) }
{
    ensure_key(map, key, alloc)?;
    reserve_at(map, key)
}

// Appends the item within the room at the key.
pub(crate) fn append_at<K: Ord + Drop, T: Drop, A: Allocator + Copy>(
    map: &mut BTreeMap<K, Vec<T, A>, A>,
    key: &K,
    item: T,
)
    requires room { HasRoom (get K.cmp map.old key.now) 1 }
    ensures here { (q : K) → is_eq (K.cmp key.now q) ≡ true →
        IsSomeAnd (get K.cmp map.old q)
        (λ v. IsSomeAnd (get K.cmp map.new q) (λ w. w.items ≡ v.items ++ item ∷ [])) }
    ensures others { (q : K) → is_eq (K.cmp key.now q) ≡ false →
        get K.cmp map.new q ≡ get K.cmp map.old q }
    ensures back { (keys : List K) (start : List (K × List T)) →
        TakesBack K.cmp keys (lists_of map.old.entries) start →
        TakesBack K.cmp (key.now ∷ keys) (lists_of map.new.entries) start }
    ensures ordered { IsOrdered K.cmp map.new }
{
    match map.get_mut(key) {
        Some(list) => list.push_reserved(item),
        None => unreachable!(),
    }
}

// Takes the last item at the key.
fn take_last<K: Ord + Drop, T: Drop, A: Allocator + Copy>(
    map: &mut BTreeMap<K, Vec<T, A>, A>,
    key: &K,
)
    requires { IsSome (get K.cmp map.old key.now) }
    ensures { (list : List T) (last : T) →
        lookup (is_at (K.cmp key.now)) (lists_of map.old.entries) ≡ Some (list ++ last ∷ []) →
        lists_of map.new.entries ≡
        set_value (is_at (K.cmp key.now)) (lists_of map.old.entries) list }
{
    match map.get_mut(key) {
        Some(list) => {
            list.pop();
        }
        None => unreachable!(),
    }
}

// Takes the last item at each of the keys, from the last key.
pub(crate) fn take_back<K: Ord + Drop, T: Drop, A: Allocator + Copy>(
    map: &mut BTreeMap<K, Vec<T, A>, A>,
    keys: &[K],
)
    requires { (start : List (K × List T)) ×
        TakesBack K.cmp (reverse keys.now) (lists_of map.old.entries) start }
    ensures { (start : List (K × List T)) →
        TakesBack K.cmp (reverse keys.now) (lists_of map.old.entries) start →
        lists_of map.new.entries ≡ start }
{
    for i in (0..keys.len()).rev() {
        take_last(map, &keys[i]);
    }
}

// Appends an item at each of the keys, which are known; where memory is refused, at none.
fn append_each<K: Ord + Drop, T: Drop, A: Allocator + Copy>(
    map: &mut BTreeMap<K, Vec<T, A>, A>,
    keys: &[K],
    mut items: Vec<T, A>,
) -> Result<(), AllocError>
    requires known { (q : K) → 0 < times K.cmp keys.now q → IsSome (get K.cmp map.old q) }
    requires enough { length items.items ≡ length keys.now }
    ensures appended { OnOk result
        ((q : K) →
        AreAppended items.items (times K.cmp keys.now q) (get K.cmp map.old q)
        (get K.cmp map.new q)) }
    ensures back { OnOk result
        (TakesBack K.cmp (reverse keys.now) (lists_of map.new.entries)
        (lists_of map.old.entries)) }
    ensures kept { OnErr result (lists_of map.new.entries ≡ lists_of map.old.entries) }
    ensures ordered { OnOk result (0 < length keys.now → IsOrdered K.cmp map.new) }
{
    for (i, key) in keys.iter().enumerate() {
        if reserve_at(map, key).is_err() {
            take_back(map, &keys[..i]);
            return Err(AllocError);
        }
        match items.pop() {
            Some(item) => append_at(map, key, item),
            None => unreachable!(),
        }
    }
    Ok(())
}

// Appends an item at each of the keys; where memory is refused, at none. New keys that have no
// items may be left then.
pub(crate) fn add_each<K: Ord + Clone + Drop, T: Drop, A: Allocator + Copy>(
    map: &mut BTreeMap<K, Vec<T, A>, A>,
    keys: &[K],
    items: Vec<T, A>,
    alloc: A,
) -> Result<(), AllocError>
    requires clones_equal { ClonesEqual K.is_clone K.eq }
    requires enough { length items.items ≡ length keys.now }
    ensures named { OnOk result
        ((q : K) → 0 < times K.cmp keys.now q →
        let at = lookup (is_at (K.cmp q)) in
        IsAdded items.items (times K.cmp keys.now q) (at (lists_of map.old.entries))
        (at (lists_of map.new.entries))) }
    ensures others { OnOk result
        ((q : K) → times K.cmp keys.now q ≡ 0 →
        let at = lookup (is_at (K.cmp q)) in
        at (lists_of map.new.entries) ≡ at (lists_of map.old.entries)) }
    ensures back { OnOk result
        (CanTakeBack K.cmp keys.now (lists_of map.new.entries)
        (filled (lists_of map.old.entries))) }
    ensures kept { OnErr result
        (filled (lists_of map.new.entries) ≡ filled (lists_of map.old.entries)) }
    ensures ordered { OnOk result (0 < length keys.now → IsOrdered K.cmp map.new) }
    ensures lawful { IsTotalOrder K.cmp }
{
    ensure_keys(map, keys, alloc)?;
    append_each(map, keys, items)
}
