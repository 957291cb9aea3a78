//! What a search proposes: steps, and the sizes in which the boxes stand.
ghost use Rattle.std.specs.Prelude.{Contains, IfOk};
ghost use Rattle.rectangle_pack_sections.specs.Clones.{ClonesEqual};
ghost use Rattle.rectangle_pack_sections.specs.Groups.{MembersHaveSizes};
ghost use Rattle.rectangle_pack_bounds.specs.Turning.{ways};
ghost use Rattle.rectangle_pack.specs.NeededLaws.{AreWaysOf};

use crate::bound::entries::box_of;
use crate::searching::job::{entry_ids, names_of};
use rectangle_pack_bins::target_bin::TargetBin;
use rectangle_pack_bounds::turning::{TurningBox, Turns};
use rectangle_pack_groups::grouped_rects_to_place::GroupedRectsToPlace;
use rectangle_pack_packing::pack::told::Step;
use rectangle_pack_search::job::Put;
use rectangle_pack_search::search::Search;
use rectangle_pack_sections::group::Group;
use rectangle_pack_sections::rect_to_insert::RectToInsert;
use rectangle_pack_sections::width_height_depth::WidthHeightDepth;
use std::alloc::{AllocError, Allocator};
use std::collections::BTreeMap;

/// What a search proposes.
#[derive(Drop)]
pub(crate) struct Proposal<Id: Ord, GroupId, BinId, A: Allocator + Copy> {
    /// A group, its bin and a heuristic, one after another.
    pub steps: Vec<Step<Id, GroupId, BinId>, A>,
    /// The size in which the box of each id stands.
    pub sizes: BTreeMap<Id, RectToInsert, A>,
    /// The tries that were made.
    pub tries: u64,
}

/// What a search found, as steps. Each box stands in one of its ways. Fails only when memory is refused.
pub(crate) fn proposal_of<Id, BinId, GroupId, A>(
    alloc: A,
    groups: &GroupedRectsToPlace<Id, GroupId, A>,
    bins: &BTreeMap<BinId, TargetBin<A>, A>,
    turns: &BTreeMap<Id, Turns, A>,
    search: Search<A>,
) -> Result<Proposal<Id, GroupId, BinId, A>, AllocError>
where
    Id: Ord + Clone + Drop,
    BinId: Ord + Clone + Drop,
    GroupId: Ord + Clone + Drop,
    A: Allocator + Copy,
    requires ids { ClonesEqual Id.is_clone Id.eq }
    ensures ways { IfOk result
        (λ proposal. AreWaysOf Id.cmp groups.now turns.now.entries proposal.sizes.entries) }
    ensures sized { IfOk result
        (λ proposal. MembersHaveSizes Id.cmp proposal.sizes.entries groups.now.groups) }
{
    let found = search.into_found(alloc)?;
    let entries = entry_ids(alloc, groups.groups())?;
    let places = places_by_id(alloc, entries.as_slice())?;
    let names = names_of(alloc, groups.groups())?;
    let ids = names_of(alloc, bins)?;
    Ok(Proposal {
        steps: steps_of(
            alloc,
            names.as_slice(),
            ids.as_slice(),
            found.puts.as_slice(),
        )?,
        sizes: sizes_of(alloc, groups, turns, &places, found.sizes.as_slice())?,
        tries: found.tries,
    })
}

// The puts as steps.
fn steps_of<Id, GroupId, BinId, A>(
    alloc: A,
    names: &[&Group<GroupId, Id>],
    ids: &[&BinId],
    puts: &[Put],
) -> Result<Vec<Step<Id, GroupId, BinId>, A>, AllocError>
where
    Id: Clone + Drop,
    BinId: Clone + Drop,
    GroupId: Clone + Drop,
    A: Allocator + Copy,
{
    let mut steps = Vec::with_capacity(alloc, puts.len())?;
    for put in puts {
        if let (Some(name), Some(id)) = (names.get(put.group), ids.get(put.bin)) {
            steps.push(Step {
                group: (*name).clone()?,
                bin: (*id).clone()?,
                heuristic: put.heuristic,
            })?;
        }
    }
    Ok(steps)
}

// Where in a list each id stands, the last time.
fn places_by_id<'a, Id: Ord, A: Allocator + Copy>(
    alloc: A,
    ids: &[&'a Id],
) -> Result<BTreeMap<&'a Id, usize, A>, AllocError> {
    let mut places = BTreeMap::new(alloc);
    for (place, id) in ids.iter().enumerate() {
        places.insert(*id, place)?;
    }
    Ok(places)
}

// The size that is found, if the box may stand in it, else its own.
fn way_of(turning: TurningBox, found: Option<WidthHeightDepth>) -> WidthHeightDepth
    ensures { Contains (ways turning) result }
{
    if let Some(whd) = found {
        if turning.may_stand_in(whd) {
            return whd;
        }
    }
    turning.whd
}

// The size in which the box of each id is packed: the one that is found at its place, if it may stand
// in it.
fn sizes_of<'a, Id, GroupId, A>(
    alloc: A,
    groups: &'a GroupedRectsToPlace<Id, GroupId, A>,
    turns: &BTreeMap<Id, Turns, A>,
    places: &BTreeMap<&'a Id, usize, A>,
    found: &[WidthHeightDepth],
) -> Result<BTreeMap<Id, RectToInsert, A>, AllocError>
where
    Id: Ord + Clone + Drop,
    GroupId: Ord + Clone + Drop,
    A: Allocator + Copy,
    requires ids { ClonesEqual Id.is_clone Id.eq }
    requires sized { MembersHaveSizes Id.cmp groups.now.sizes groups.now.groups }
    ensures ways { IfOk result
        (λ sizes. AreWaysOf Id.cmp groups.now turns.now.entries sizes.entries) }
    ensures sized { IfOk result
        (λ sizes. MembersHaveSizes Id.cmp sizes.entries groups.now.groups) }
{
    let rects = groups.rects();
    let mut sizes = BTreeMap::new(alloc);
    for (id, _) in rects {
        let place = places.get(&id).copied().unwrap_or(found.len());
        let whd = way_of(box_of(id, rects, turns), found.get(place).copied());
        let size = RectToInsert::new(whd.width(), whd.height(), whd.depth());
        sizes.insert(id.clone()?, size)?;
    }
    Ok(sizes)
}
