//! The job of a search: groups and bins as numbers.

use crate::bound::entries::boxes_of;
use crate::searching::options::SearchOptions;
use rectangle_pack_bins::target_bin::TargetBin;
use rectangle_pack_bounds::turning::{TurningBox, Turns};
use rectangle_pack_groups::grouped_rects_to_place::exclusions::Exclusions;
use rectangle_pack_groups::grouped_rects_to_place::{GroupedRectsToPlace, exclusions_of};
use rectangle_pack_search::job::{Job, OpenBin};
use rectangle_pack_sections::group::Group;
use std::alloc::{AllocError, Allocator};
use std::collections::{BTreeMap, BTreeSet};

const UPRIGHT: Turns = Turns {
    about_x: false,
    about_y: false,
    about_z: false,
};

/// The job of a search: groups and bins by their indices, in the order of their keys.
pub(crate) fn job_of<Id, BinId, GroupId, A>(
    alloc: A,
    groups: &GroupedRectsToPlace<Id, GroupId, A>,
    bins: &BTreeMap<BinId, TargetBin<A>, A>,
    options: &SearchOptions<'_, Id, BinId, A>,
) -> Result<Job<A>, AllocError>
where
    Id: Ord + Clone + Drop,
    BinId: Ord,
    GroupId: Ord + Clone + Drop,
    A: Allocator + Copy,
{
    let lists = groups.groups();
    let names = names_of(alloc, lists)?;
    let ids = entry_ids(alloc, lists)?;
    let mut boxes = boxes_of(alloc, lists, groups.rects(), options.turns)?;
    keep_upright(alloc, ids.as_slice(), &mut boxes)?;
    Ok(Job {
        boxes,
        ends: ends_of(alloc, lists)?,
        apart: pairs_apart(alloc, names.as_slice(), exclusions_of(groups))?,
        bins: open_bins(alloc, bins, options.costs)?,
    })
}

/// The keys of a map.
pub(crate) fn names_of<K: Ord, V, A: Allocator + Copy>(
    alloc: A,
    map: &BTreeMap<K, V, A>,
) -> Result<Vec<&K, A>, AllocError> {
    let mut names = Vec::with_capacity(alloc, map.len())?;
    for (name, _) in map {
        names.push(name)?;
    }
    Ok(names)
}

// Where the boxes of each group end in the list of all.
fn ends_of<K: Ord, Id, A: Allocator + Copy>(
    alloc: A,
    lists: &BTreeMap<K, Vec<Id, A>, A>,
) -> Result<Vec<usize, A>, AllocError> {
    let mut ends = Vec::with_capacity(alloc, lists.len())?;
    let mut end = 0usize;
    for (_, ids) in lists {
        end = end.saturating_add(ids.len());
        ends.push(end)?;
    }
    Ok(ends)
}

/// The ids of all entries, in order.
pub(crate) fn entry_ids<K: Ord, Id, A: Allocator + Copy>(
    alloc: A,
    lists: &BTreeMap<K, Vec<Id, A>, A>,
) -> Result<Vec<&Id, A>, AllocError> {
    let mut all = Vec::new(alloc);
    for (_, ids) in lists {
        add_ids(&mut all, ids.as_slice())?;
    }
    Ok(all)
}

// Appends these ids.
fn add_ids<'a, Id, A: Allocator>(
    all: &mut Vec<&'a Id, A>,
    ids: &'a [Id],
) -> Result<(), AllocError> {
    for id in ids {
        all.push(id)?;
    }
    Ok(())
}

// Takes the turns from the boxes whose ids have more entries than one: all of them are packed in
// one size.
fn keep_upright<'a, Id: Ord, A: Allocator + Copy>(
    alloc: A,
    ids: &[&'a Id],
    boxes: &mut Vec<TurningBox, A>,
) -> Result<(), AllocError> {
    let twice = listed_twice(alloc, ids)?;
    for (i, id) in ids.iter().enumerate() {
        if twice.contains(id) {
            stand_upright(boxes, i);
        }
    }
    Ok(())
}

// The ids that stand in a list more than once.
fn listed_twice<'a, Id: Ord, A: Allocator + Copy>(
    alloc: A,
    ids: &[&'a Id],
) -> Result<BTreeSet<&'a Id, A>, AllocError> {
    let mut seen = BTreeSet::new(alloc);
    let mut twice = BTreeSet::new(alloc);
    for id in ids {
        if !seen.insert(*id)? {
            twice.insert(*id)?;
        }
    }
    Ok(twice)
}

// Takes the turns from the box at this index.
fn stand_upright<A: Allocator>(boxes: &mut Vec<TurningBox, A>, at: usize) {
    if let Some(one) = boxes.get_mut(at) {
        one.turns = UPRIGHT;
    }
}

// The pairs of groups that are excluded, by their indices, in both orders and in rising order.
fn pairs_apart<K: Ord, A: Allocator + Copy>(
    alloc: A,
    names: &[&K],
    exclusions: &Exclusions<K, A>,
) -> Result<Vec<(usize, usize), A>, AllocError> {
    let mut pairs = Vec::new(alloc);
    for (i, name) in names.iter().enumerate() {
        add_pairs(&mut pairs, i, names, exclusions.partners(name))?;
    }
    pairs.sort_unstable();
    Ok(pairs)
}

// Adds the pairs of a group and its partners.
fn add_pairs<K: Ord, A: Allocator + Copy>(
    pairs: &mut Vec<(usize, usize), A>,
    group: usize,
    names: &[&K],
    partners: &[K],
) -> Result<(), AllocError> {
    for partner in partners {
        if let Ok(other) = names.binary_search_by(|name| name.cmp(&partner)) {
            pairs.push((group, other))?;
            pairs.push((other, group))?;
        }
    }
    Ok(())
}

// The bins as a search sees them.
fn open_bins<B: Ord, A: Allocator + Copy>(
    alloc: A,
    bins: &BTreeMap<B, TargetBin<A>, A>,
    costs: &BTreeMap<B, u64, A>,
) -> Result<Vec<OpenBin<A>, A>, AllocError> {
    let mut open = Vec::with_capacity(alloc, bins.len())?;
    for (id, bin) in bins {
        open.push(open_bin(alloc, bin, costs.get(id).copied().unwrap_or(1))?)?;
    }
    Ok(open)
}

fn open_bin<A: Allocator + Copy>(
    alloc: A,
    bin: &TargetBin<A>,
    cost: u64,
) -> Result<OpenBin<A>, AllocError> {
    let mut sections = Vec::with_capacity(alloc, bin.available_bin_sections().len())?;
    let mut cells = 0u128;
    for section in bin.available_bin_sections() {
        cells = cells.saturating_add(section.whd().volume());
        sections.push(section.whd())?;
    }
    Ok(OpenBin {
        sections,
        cells,
        cost,
    })
}
