//! Pairs of groups that may not share a bin.
ghost use Rattle.std.specs.Prelude.{◌≡◌, ◌||◌, List, [], true, false, IsOk, OnOk, OnErr};
ghost use Rattle.std.specs.Ordering.{is_eq};
ghost use Rattle.std.specs.List.{list_any};
ghost use Rattle.std.specs.BTreeMap.{is_at};
ghost use Rattle.rectangle_pack_sections.specs.Clones.{ClonesEqual};
ghost use Rattle.rectangle_pack_sections.specs.Groups.{lists_of};
ghost use Rattle.rectangle_pack_groups.specs.private.Multimaps.{filled};
ghost use Rattle.rectangle_pack_sections.specs.Exclusions.{listed_at, is_listed, are_excluded, are_these};
ghost use Rattle.rectangle_pack_sections.specs.private.Exclusions.{AreMutual, AreNonempty};

use crate::grouped_rects_to_place::multimap::{append_at, forget_empty, make_room};
use std::alloc::{AllocError, Allocator};
use std::collections::BTreeMap;
use std::marker::Model;

/// A set of unordered pairs: at each key those are listed that it is paired with.
#[derive(Drop)]
#[derive_where(Debug; K)]
pub struct Exclusions<K: Ord, A: Allocator + Copy> {
    partners: BTreeMap<K, Vec<K, A>, A>,
    #[derive_where(skip)]
    alloc: A,
}

// Of two that are paired each is listed at the other, and no list is empty.
impl<K: Ord, A: Allocator + Copy> Model for Exclusions<K, A> {
    ghost use Rattle.std.specs.Prelude.{List};
    ghost use Rattle.rectangle_pack_sections.specs.Groups.{lists_of};
    ghost use Rattle.rectangle_pack_sections.specs.private.Exclusions.{AreMutual, AreNonempty};

    ghost Value = { List (K × List K) };

    ghost view = { λ s. lists_of s.partners.entries };

    ghost invariant = { λ s. let partners = lists_of s.partners.entries in
        AreMutual K.cmp partners × AreNonempty partners };
}

impl<K: Ord, A: Allocator + Copy> Exclusions<K, A> {
    /// The keys that are paired with this one.
    pub fn partners(&self, key: &K) -> &[K]
        ensures listed { result.now ≡ listed_at K.cmp self.now key.now }
        ensures mutual { AreMutual K.cmp self.now }
    {
        match self.partners.get(key) {
            Some(partners) => partners.as_slice(),
            None => &[],
        }
    }
}

impl<K: Ord + Clone + Drop, A: Allocator + Copy> Exclusions<K, A> {
    pub(crate) fn new(alloc: A) -> Self
        ensures { result ≡ [] }
    {
        Exclusions {
            partners: BTreeMap::new(alloc),
            alloc,
        }
    }

    // Whether the two are paired, by the shorter of their lists. Takes no memory.
    pub(crate) fn has(&self, a: &K, b: &K) -> bool
        ensures { result ≡ are_excluded K.cmp self.now a.now b.now }
    {
        let (of_a, of_b) = (self.partners(a), self.partners(b));
        if of_a.len() <= of_b.len() {
            is_among(of_a, b)
        } else {
            is_among(of_b, a)
        }
    }

    // Pairs the two. A pair that is there stays as it is.
    pub(crate) fn add(&mut self, a: K, b: K) -> Result<(), AllocError>
        requires clones_equal { ClonesEqual K.is_clone K.eq }
        requires different { K.eq a b ≡ false }
        ensures ok { OnOk result
            ((x y : K) → are_excluded K.cmp self.new x y ≡
            (are_excluded K.cmp self.old x y || are_these K.cmp a b x y)) }
        ensures again { are_excluded K.cmp self.old a b ≡ true →
            IsOk result × (self.new ≡ self.old) }
        ensures err { OnErr result (self.new ≡ self.old) }
    {
        if self.has(&a, &b) {
            return Ok(());
        }
        match list_both(&mut self.partners, a, b, self.alloc) {
            Ok(()) => Ok(()),
            Err(error) => {
                forget_empty(&mut self.partners);
                Err(error)
            }
        }
    }
}

// Lists each of two keys at the other.
fn list_both<K: Ord + Clone + Drop, A: Allocator + Copy>(
    map: &mut BTreeMap<K, Vec<K, A>, A>,
    a: K,
    b: K,
    alloc: A,
) -> Result<(), AllocError>
    requires clones_equal { ClonesEqual K.is_clone K.eq }
    requires different { is_eq (K.cmp a b) ≡ false }
    requires some { AreNonempty (lists_of map.old.entries) }
    ensures added { OnOk result
        ((x y : K) → is_listed K.cmp (lists_of map.new.entries) x y ≡
        (is_listed K.cmp (lists_of map.old.entries) x y || are_these K.cmp a b x y)) }
    ensures some { OnOk result (AreNonempty (lists_of map.new.entries)) }
    ensures kept { OnErr result
        (filled (lists_of map.new.entries) ≡ filled (lists_of map.old.entries)) }
{
    let partner = b.clone()?;
    make_room(map, &a, alloc)?;
    make_room(map, &b, alloc)?;
    append_at(map, &a, partner);
    append_at(map, &b, a);
    Ok(())
}

// Whether the key is among these.
fn is_among<K: Ord>(keys: &[K], key: &K) -> bool
    ensures { result ≡ list_any (is_at (K.cmp key.now)) keys.now }
{
    keys.contains(key)
}
