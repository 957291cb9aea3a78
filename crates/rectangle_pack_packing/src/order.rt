//! The orders in which a packing takes groups and tries bins.
ghost use Rattle.std.specs.Prelude.{ℕ, List, ◌≡◌, ◌++◌, ◌<◌, IfOk, IsSome, OnOk, Some, All, sum, map, length};
ghost use Rattle.std.specs.BTreeMap.{get, is_at};
ghost use Rattle.std.specs.Ordering.{eq_by_cmp};
ghost use Rattle.std.specs.declared.cmp.Ordering.TheVariants.{Less};
ghost use Rattle.std.specs.List.{AllPairs, AllZip, sum_by, IsDistinct};
ghost use Rattle.std.specs.Map.{lookup, keys_of, values_of};
ghost use Rattle.std.specs.List.Sorted.{IsPermutation, IsSorted};
ghost use Rattle.rectangle_pack_packing.specs.Orders.{IsBinOrder, IsGroupOrder, falling_then};
ghost use Rattle.rectangle_pack_packing.specs.private.Orders.{keys_of_order, entries_at, members_of, HasSizes, SizesStandAt};
ghost use Rattle.rectangle_pack_sections.specs.Bins.{bins_of};
ghost use Rattle.rectangle_pack_sections.specs.Clones.{ClonesEqual};
ghost use Rattle.rectangle_pack_sections.specs.Groups.{HaveSizes, MembersHaveSizes, lists_of};
ghost use Rattle.rectangle_pack_sections.specs.Boxes.{Size};
ghost use Rattle.rectangle_pack_lists.specs.Numbers.{saturated};

use rectangle_pack_bins::target_bin::TargetBin;
use rectangle_pack_sections::closures::Policy;
use rectangle_pack_sections::rect_to_insert::RectToInsert;
use rectangle_pack_sections::width_height_depth::WidthHeightDepth;
use std::alloc::{AllocError, Allocator};
use std::cmp::Reverse;
use std::collections::BTreeMap;

// The saturating sum of the rates of the sizes.
fn group_key<R: Policy>(sizes: &[RectToInsert], policy: &R) -> u128
    requires { R.is_callable policy.now }
    ensures { (rates : List ℕ) ×
        AllZip (R.may policy.now).rate sizes.now rates ×
        (result ≡ saturated (sum rates)) }
{
    let mut key = 0u128;
    for size in sizes {
        key = key.saturating_add(policy.rate(WidthHeightDepth::from(*size)));
    }
    key
}

/// Appends the sizes of the ids. Fails only when memory is refused.
pub fn add_sizes<Id, A>(
    sizes: &mut Vec<RectToInsert, A>,
    ids: &[Id],
    rects: &BTreeMap<Id, RectToInsert, A>,
) -> Result<(), AllocError>
where
    Id: Ord,
    A: Allocator,
    requires { HaveSizes Id.cmp rects.now.entries ids.now }
    ensures { OnOk result
        ((added : List Size) ×
        AllZip (λ id size. lookup (is_at (Id.cmp id)) rects.now.entries ≡ Some size) ids.now added ×
        (sizes.new.items ≡ sizes.old.items ++ added)) }
{
    for id in ids {
        sizes.push(*rects.get(id).unwrap())?;
    }
    Ok(())
}

/// A group in an order: its key, its name, its ids, and where their sizes begin among those of all.
#[derive(Drop)]
pub struct OrderedGroup<'a, K, Id, A: Allocator> {
    /// The sum of the rates of its boxes, of which the greater goes first.
    pub key: Reverse<u128>,
    /// Its name.
    pub name: &'a K,
    /// The ids of its boxes.
    pub ids: &'a Vec<Id, A>,
    /// Where the sizes of these begin.
    pub start: usize,
}

impl<K, Id, A: Allocator> OrderedGroup<'_, K, Id, A> {
    /// The sizes of its ids, of those of all.
    pub fn sizes_in<'s>(&self, sizes: &'s [RectToInsert]) -> &'s [RectToInsert]
        requires { HasSizes sizes.now self.now }
        ensures { result.now ≡ (members_of sizes.now self.now).1.sizes }
    {
        &sizes[self.start..self.start + self.ids.len()]
    }
}

// By falling key, and at equal keys by name. Where the sizes of a group begin rises with its name,
// so that number is compared instead, and no reference is followed.
fn sort_falling<K: Ord, Id: Ord, A: Allocator>(order: &mut Vec<OrderedGroup<'_, K, Id, A>, A>)
    requires rising { AllPairs (λ o p. (K.cmp o.name.now p.name.now ≡ Less) × (o.start < p.start))
        order.old.items }
    ensures permutation { IsPermutation (keys_of_order order.old.items)
        (keys_of_order order.new.items) }
    ensures same { IsPermutation order.old.items order.new.items }
    ensures falling { IsSorted (falling_then K.cmp) (keys_of_order order.new.items) }
{
    order.sort_unstable_by_key(|group| (group.key, group.start));
}

/// All groups, by falling key and then by name, and the sizes of the ids of each.
pub fn group_order<'a, Id, K, R, A>(
    alloc: A,
    rects: &BTreeMap<Id, RectToInsert, A>,
    lists: &'a BTreeMap<K, Vec<Id, A>, A>,
    policy: &R,
    sizes: &mut Vec<RectToInsert, A>,
) -> Result<Vec<OrderedGroup<'a, K, Id, A>, A>, AllocError>
where
    Id: Ord,
    K: Ord,
    R: Policy,
    A: Allocator + Copy,
    requires sized { MembersHaveSizes Id.cmp rects.now.entries (lists_of lists.now.entries) }
    requires callable { R.is_callable policy.now }
    ensures order { IfOk result
        (λ v.
        IsGroupOrder (R.may policy.now).rate K.cmp Id.cmp rects.now.entries
        (lists_of lists.now.entries) (keys_of_order v.items)) }
    ensures listed { IfOk result
        (λ v. All (λ o. get K.cmp lists.now o.name.now ≡ Some o.ids.now) v.items) }
    ensures sizes { IfOk result
        (λ v.
        All (λ o. SizesStandAt Id.cmp rects.now.entries sizes.new.items o.ids.now.items o.start)
        v.items) }
    ensures distinct { IfOk result
        (λ v. IsDistinct (eq_by_cmp K.cmp) (map (λ o. o.name.now) v.items)) }
    ensures counted { IfOk result
        (λ v.
        sum_by (entries_at K.cmp (lists_of lists.now.entries)) (keys_of_order v.items) ≡
        sum (map length (values_of (lists_of lists.now.entries)))) }
{
    let mut order = Vec::with_capacity(alloc, lists.len())?;
    for (group, ids) in lists {
        let start = sizes.len();
        add_sizes(sizes, ids.as_slice(), rects)?;
        let key = group_key(&sizes[start..], policy);
        order.push(OrderedGroup {
            key: Reverse(key),
            name: group,
            ids,
            start,
        })?;
    }
    sort_falling(&mut order);
    Ok(order)
}

/// All bins, by rising rate of their whole sizes and then by id.
pub fn bin_order<B, R, A>(
    alloc: A,
    bins: &BTreeMap<B, TargetBin<A>, A>,
    policy: &R,
) -> Result<Vec<(u128, B), A>, AllocError>
where
    B: Ord + Clone + Drop,
    R: Policy,
    A: Allocator + Copy,
    requires bin_ids { ClonesEqual B.is_clone B.eq }
    requires callable { R.is_callable policy.now }
    ensures order { IfOk result
        (λ v. IsBinOrder (R.may policy.now).rate B.cmp (bins_of bins.now.entries) v.items) }
    ensures found { IfOk result (λ v. All (λ o. IsSome (get B.cmp bins.now o.1)) v.items) }
    ensures ids { IfOk result (λ v. IsDistinct (eq_by_cmp B.cmp) (map (λ o. o.1) v.items)) }
    ensures distinct { OnOk result
        (IsDistinct (eq_by_cmp B.cmp) (keys_of (bins_of bins.now.entries))) }
{
    let mut order = Vec::with_capacity(alloc, bins.len())?;
    for (id, bin) in bins {
        order.push((policy.rate(bin.max_size()), id.clone()?))?;
    }
    order.sort_unstable();
    Ok(order)
}
