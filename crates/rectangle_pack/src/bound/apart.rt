//! Groups that exclude each other in pairs.
ghost use Rattle.std.specs.Prelude.{◌≡◌, ◌∷◌, ◌&&◌, [], List, length, map, not, cond, nat_lt, IfOk, OnOk, MatchOption};
ghost use Rattle.std.specs.BTreeMap.{is_at};
ghost use Rattle.std.specs.List.{list_all};
ghost use Rattle.std.specs.Map.{keys_of};
ghost use Rattle.rectangle_pack_sections.specs.Exclusions.{are_excluded, listed_at};
ghost use Rattle.rectangle_pack_packing.specs.private.Excluded.{are_in};
ghost use Rattle.rectangle_pack.specs.Needed.{AreGroupsApart, AreTakenApart, HasMostListed, joins as joins_taken, number_listed};

use rectangle_pack_groups::grouped_rects_to_place::exclusions::Exclusions;
use std::alloc::{AllocError, Allocator};
use std::collections::{BTreeMap, BTreeSet};

/// How many groups of a list exclude each other in pairs.
pub(crate) fn number_apart<K: Ord, V, A: Allocator + Copy>(
    alloc: A,
    groups: &BTreeMap<K, V, A>,
    exclusions: &Exclusions<K, A>,
) -> Result<usize, AllocError>
    ensures { IfOk result
        (λ number. (apart : List K) ×
        AreGroupsApart K.cmp exclusions.now (keys_of groups.now.entries) apart ×
        (number ≡ length apart)) }
{
    let Some(first) = most_listed(groups, exclusions) else {
        return Ok(0);
    };
    let mut taken = Vec::new(alloc);
    take_joining(&mut taken, alloc, groups, exclusions, first)?;
    Ok(taken.len())
}

// The name at which the most are listed, and the first of those at which so many are.
fn most_listed<'a, K: Ord, V, A: Allocator + Copy>(
    groups: &'a BTreeMap<K, V, A>,
    exclusions: &Exclusions<K, A>,
) -> Option<&'a K>
    ensures { MatchOption result (keys_of groups.now.entries ≡ [])
        (λ name. HasMostListed K.cmp exclusions.now (keys_of groups.now.entries) name.now) }
{
    let mut most: Option<&K> = None;
    for (name, _) in groups {
        most = match most {
            Some(best) => Some(with_more(exclusions, best, name)),
            None => Some(name),
        };
    }
    most
}

// The later of two names, where more are listed there.
fn with_more<'a, K: Ord, A: Allocator + Copy>(
    exclusions: &Exclusions<K, A>,
    best: &'a K,
    name: &'a K,
) -> &'a K
    ensures { result.now ≡
        cond (nat_lt (number_listed K.cmp exclusions.now best.now)
        (number_listed K.cmp exclusions.now name.now)) name.now best.now }
{
    if exclusions.partners(best).len() < exclusions.partners(name).len() {
        name
    } else {
        best
    }
}

// Takes the first one, and then of those that are listed there each that joins the ones before it.
fn take_joining<'a, K: Ord, V, A: Allocator + Copy>(
    taken: &mut Vec<&'a K, A>,
    alloc: A,
    groups: &BTreeMap<K, V, A>,
    exclusions: &'a Exclusions<K, A>,
    first: &'a K,
) -> Result<(), AllocError>
    requires none { taken.old.items ≡ [] }
    ensures { OnOk result
        ((others : List K) ×
        AreTakenApart K.cmp exclusions.now (keys_of groups.now.entries) (first.now ∷ [])
        (listed_at K.cmp exclusions.now first.now) others ×
        (map (λ name. name.now) taken.new.items ≡ first.now ∷ others)) }
{
    taken.push(first)?;
    for name in exclusions.partners(first) {
        if joins(alloc, groups, exclusions, taken.as_slice(), name)? {
            taken.push(name)?;
        }
    }
    Ok(())
}

// Whether a group is there, and is excluded with each of those that are taken, which are others.
fn joins<'a, K: Ord, V, A: Allocator + Copy>(
    alloc: A,
    groups: &BTreeMap<K, V, A>,
    exclusions: &'a Exclusions<K, A>,
    taken: &[&'a K],
    name: &'a K,
) -> Result<bool, AllocError>
    ensures { IfOk result
        (λ joins. joins ≡
        joins_taken K.cmp exclusions.now (keys_of groups.now.entries)
        (map (λ other. other.now) taken.now) name.now) }
{
    if !groups.contains_key(name) {
        return Ok(false);
    }
    let partners = partners_of(alloc, exclusions, name)?;
    Ok(are_all_among(&partners, taken, name))
}

// The groups that are excluded with this one.
fn partners_of<'a, K: Ord, A: Allocator + Copy>(
    alloc: A,
    exclusions: &'a Exclusions<K, A>,
    name: &K,
) -> Result<BTreeSet<&'a K, A>, AllocError>
    ensures partners { IfOk result
        (λ partners. (other : K) →
        are_in K.cmp partners.keys other ≡ are_excluded K.cmp exclusions.now name.now other) }
{
    let mut partners = BTreeSet::new(alloc);
    for partner in exclusions.partners(name) {
        partners.insert(partner)?;
    }
    Ok(partners)
}

// Whether each of those that are taken is another group, and among the partners.
fn are_all_among<'a, K: Ord, A: Allocator + Copy>(
    partners: &BTreeSet<&'a K, A>,
    taken: &[&'a K],
    name: &'a K,
) -> bool
    ensures { result ≡
        list_all
        (λ other. not (is_at (K.cmp name.now) other) && are_in K.cmp partners.now.keys other)
        (map (λ other. other.now) taken.now) }
{
    for other in taken {
        if *other == name || !partners.contains(other) {
            return false;
        }
    }
    true
}
