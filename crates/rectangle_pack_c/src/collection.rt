//! A collection of a C caller: boxes, some of them in several groups, and groups that are excluded;
//! and the heuristics by their numbers.
ghost use Rattle.std.specs.Prelude.{◌≡◌, ◌≢◌, ◌⊎◌, ◌<◌, ◌==◌, List, [], ◌∷◌, All, IfOk, IsOk, MatchOption, length, nat_le};
ghost use Rattle.std.specs.List.{list_any};
ghost use Rattle.std.specs.Ordering.{nat_cmp};
ghost use Rattle.std.specs.List.Sorted.{IsStrictlySortedBy};
ghost use Rattle.std.specs.Map.{keys_of};
ghost use Rattle.rectangle_pack.specs.Session.{IsSession};
ghost use Rattle.rectangle_pack.specs.SessionBest.{PacksBest, PacksBestAsPromised};
ghost use Rattle.rectangle_pack_c.specs.Collections.{IsCollected, all_boxes, fault_of, group_order, are_as_many};
ghost use Rattle.rectangle_pack_c.specs.Heuristics.{all_heuristics, asked, heuristic_number};
ghost use Rattle.rectangle_pack_c.specs.private.Pushed.{Pushes};

use super::{
    LIMIT, RP_BAD_LENGTHS, RP_DONE, RP_EQUAL_GROUPS, RP_UNKNOWN_BOX, RP_UNKNOWN_HEURISTIC, RpBox,
};
use rectangle_pack::{
    Group, GroupedRectsToPlace, Heuristic, Packed, RectToInsert, Session, SessionError,
};
use std::alloc::{AllocError, Global};

/// A box of a collection in one group more, in which it is placed once more.
#[repr(C)]
#[derive(Clone, Copy)]
pub struct RpMember {
    /// The index of the box.
    pub index: u32,
    /// The group, or 0: there it is alone.
    pub group: u32,
}

/// Two groups of a collection that are excluded: they go into different bins.
#[repr(C)]
#[derive(Clone, Copy)]
pub struct RpExclusion {
    /// The one group.
    pub one: u32,
    /// The other.
    pub other: u32,
}

/// What is to be packed.
#[repr(C)]
#[derive(Clone, Copy)]
pub struct RpCollection<'a> {
    /// The boxes.
    pub boxes: &'a [RpBox],
    /// In which groups they are besides.
    pub members: &'a [RpMember],
    /// Which groups are excluded.
    pub exclusions: &'a [RpExclusion],
}

impl<'a> RpCollection<'a> {
    // These boxes, without members and exclusions.
    pub(crate) fn of(boxes: &'a [RpBox]) -> Self
        ensures boxes { result.boxes.now ≡ boxes.now }
        ensures members { result.members.now ≡ [] }
        ensures exclusions { result.exclusions.now ≡ [] }
    {
        RpCollection {
            boxes,
            members: &[],
            exclusions: &[],
        }
    }
}

/// By volume.
pub const RP_VOLUME: u32 = 0;
/// By height; at equal heights by width, and then by depth.
pub const RP_HEIGHT: u32 = 1;
/// By width, then height, then depth.
pub const RP_WIDTH: u32 = 2;
/// By depth, then width, then height.
pub const RP_DEPTH: u32 = 3;
/// By the sum of the sides.
pub const RP_SIDE_SUM: u32 = 4;
/// By the longest side, then the middle one, then the shortest.
pub const RP_LONGEST_SIDE: u32 = 5;
/// By the shortest side, then the middle one, then the longest.
pub const RP_SHORTEST_SIDE: u32 = 6;
/// By height times depth.
pub const RP_SIDE_AREA: u32 = 7;
/// By the heuristic with which the bins are used best.
pub const RP_BEST: u32 = 0xffff;

// The heuristic of this number.
pub(crate) fn heuristic_of(number: u32) -> Option<Heuristic>
    ensures { MatchOption result ((asked number ≡ []) ⊎ (number ≡ RP_BEST))
        (λ one. (asked number ≡ one ∷ []) × (heuristic_number one ≡ number)) }
{
    match number {
        RP_VOLUME => Some(Heuristic::Volume),
        RP_HEIGHT => Some(Heuristic::Height),
        RP_WIDTH => Some(Heuristic::Width),
        RP_DEPTH => Some(Heuristic::Depth),
        RP_SIDE_SUM => Some(Heuristic::SideSum),
        RP_LONGEST_SIDE => Some(Heuristic::LongestSide),
        RP_SHORTEST_SIDE => Some(Heuristic::ShortestSide),
        RP_SIDE_AREA => Some(Heuristic::SideArea),
        _ => None,
    }
}

// Whether nothing is asked for by this number.
fn is_unknown(number: u32) -> bool
    ensures { result ≡ (length (asked number) == 0) }
{
    number != RP_BEST && heuristic_of(number).is_none()
}

// The number of a heuristic.
pub(crate) fn number_of(heuristic: Heuristic) -> u32
    ensures { result ≡ heuristic_number heuristic }
{
    match heuristic {
        Heuristic::Volume => RP_VOLUME,
        Heuristic::Height => RP_HEIGHT,
        Heuristic::Width => RP_WIDTH,
        Heuristic::Depth => RP_DEPTH,
        Heuristic::SideSum => RP_SIDE_SUM,
        Heuristic::LongestSide => RP_LONGEST_SIDE,
        Heuristic::ShortestSide => RP_SHORTEST_SIDE,
        Heuristic::SideArea => RP_SIDE_AREA,
    }
}

// The first thing that is wrong with the arguments of a packing, as a status; or `RP_DONE`.
pub(crate) fn fault(collection: &RpCollection<'_>, heuristic: u32, placement_count: usize) -> u32
    ensures { result ≡ fault_of collection.now heuristic placement_count }
{
    if !are_as_many(collection, placement_count) {
        return RP_BAD_LENGTHS;
    }
    if is_unknown(heuristic) {
        return RP_UNKNOWN_HEURISTIC;
    }
    if name_no_box(collection.members, collection.boxes.len()) {
        return RP_UNKNOWN_BOX;
    }
    if are_equal(collection.exclusions) {
        return RP_EQUAL_GROUPS;
    }
    RP_DONE
}

// Whether a member names none of the boxes, whose number is `boxes`.
pub(crate) fn name_no_box(members: &[RpMember], boxes: usize) -> bool
    ensures { result ≡ list_any (λ m. nat_le boxes m.index) members.now }
{
    members.iter().any(|member| boxes <= member.index as usize)
}

// Whether a group is excluded with itself.
pub(crate) fn are_equal(exclusions: &[RpExclusion]) -> bool
    ensures { result ≡ list_any (λ e. e.one == e.other) exclusions.now }
{
    exclusions.iter().any(|pair| pair.one == pair.other)
}

// Whether boxes and members together are `placement_count`, and fewer than 2^32.
pub(crate) fn are_as_many(collection: &RpCollection<'_>, placement_count: usize) -> bool
    ensures { result ≡ are_as_many collection.now placement_count }
{
    let (boxes, members) = (collection.boxes.len(), collection.members.len());
    let few = boxes < LIMIT && members < LIMIT && placement_count < LIMIT;
    few && placement_count == boxes + members
}

// Packs with the heuristic of this number, or with the best of all.
pub(crate) fn pack_asked(
    session: &mut Session<u32, u32>,
    rects: &GroupedRectsToPlace<u32, u32>,
    heuristic: u32,
) -> Result<(Heuristic, Packed), SessionError>
    requires known { asked heuristic ≢ [] }
    ensures packed { PacksBest group_order nat_cmp nat_cmp (asked heuristic) rects.now
        session.old result session.new }
    ensures promise { PacksBestAsPromised group_order nat_cmp nat_cmp (asked heuristic) rects.now
        session.old result session.new }
    ensures no_groups { rects.now.groups ≡ [] → IsOk result }
    ensures always { IsSession nat_cmp session.new }
{
    match heuristic_of(heuristic) {
        Some(one) => session.pack_best(rects, &[one]),
        None => session.pack_best(rects, &all()),
    }
}

// All heuristics. What names the table itself is proved more slowly.
pub(crate) fn all() -> [Heuristic; 8]
    ensures { result ≡ all_heuristics }
{
    Heuristic::ALL
}

// The collection of the library: each box under its index, and each member under the number of
// boxes and its own index.
pub(crate) fn collection_of(
    alloc: Global,
    collection: &RpCollection<'_>,
) -> Result<GroupedRectsToPlace<u32, u32>, AllocError>
    requires few { length (all_boxes collection.now) < LIMIT }
    requires known { All (λ m. m.index < length collection.now.boxes.now)
        collection.now.members.now }
    requires differ { All (λ e. e.one ≢ e.other) collection.now.exclusions.now }
    ensures collected { IfOk result (λ all.
        IsCollected (all_boxes collection.now) collection.now.exclusions.now all) }
    ensures no_boxes { length collection.now.boxes.now ≡ 0 →
        length collection.now.exclusions.now ≡ 0 → IsOk result }
{
    let mut rects = GroupedRectsToPlace::new(alloc);
    push_boxes(alloc, &mut rects, collection.boxes)?;
    push_members(alloc, &mut rects, collection)?;
    exclude_all(&mut rects, collection.exclusions)?;
    Ok(rects)
}

// Pushes each box under its index.
fn push_boxes(
    alloc: Global,
    rects: &mut GroupedRectsToPlace<u32, u32>,
    boxes: &[RpBox],
) -> Result<(), AllocError>
    requires few { length boxes.now < LIMIT }
    requires nothing { IsCollected [] [] rects.old }
    ensures collected { IfOk result (λ _. IsCollected boxes.now [] rects.new) }
    ensures no_boxes { length boxes.now ≡ 0 → IsOk result }
{
    for (i, rect) in boxes.iter().enumerate() {
        push_box(alloc, rects, i as u32, rect)?;
    }
    Ok(())
}

// Pushes each member behind the boxes: the box that it names, in its group.
fn push_members(
    alloc: Global,
    rects: &mut GroupedRectsToPlace<u32, u32>,
    collection: &RpCollection<'_>,
) -> Result<(), AllocError>
    requires few { length (all_boxes collection.now) < LIMIT }
    requires known { All (λ m. m.index < length collection.now.boxes.now)
        collection.now.members.now }
    requires boxes { IsCollected collection.now.boxes.now [] rects.old }
    ensures collected { IfOk result (λ _. IsCollected (all_boxes collection.now) [] rects.new) }
    ensures no_boxes { length collection.now.boxes.now ≡ 0 → IsOk result }
{
    let boxes = collection.boxes;
    for (i, member) in collection.members.iter().enumerate() {
        let rect = RpBox {
            group: member.group,
            ..boxes[member.index as usize]
        };
        push_box(alloc, rects, (boxes.len() + i) as u32, &rect)?;
    }
    Ok(())
}

// Says that the groups of each pair are excluded.
fn exclude_all(
    rects: &mut GroupedRectsToPlace<u32, u32>,
    exclusions: &[RpExclusion],
) -> Result<(), AllocError>
    requires differ { All (λ e. e.one ≢ e.other) exclusions.now }
    ensures excluded { IfOk result (λ _. (boxes : List RpBox) →
        IsCollected boxes [] rects.old → IsCollected boxes exclusions.now rects.new) }
    ensures none { length exclusions.now ≡ 0 → IsOk result }
{
    for pair in exclusions {
        rects.exclude(Group::Grouped(pair.one), Group::Grouped(pair.other))?;
    }
    Ok(())
}

// Pushes a box under an index, alone or into its group.
fn push_box(
    alloc: Global,
    rects: &mut GroupedRectsToPlace<u32, u32>,
    index: u32,
    rect: &RpBox,
) -> Result<(), AllocError>
    ensures pushed { IfOk result (λ _. Pushes index rect.now rects.old rects.new) }
    ensures ascend { IfOk result
        (λ _. IsStrictlySortedBy group_order (keys_of rects.new.groups)) }
{
    let size = RectToInsert::new(rect.width, rect.height, rect.depth);
    rects.push_rect(index, groups_of(alloc, rect.group)?, size)?;
    // For the proof: the groups are asked for that they ascend.
    let _ascend = rects.groups();
    Ok(())
}

// The groups of a box of this number: none where it is 0.
fn groups_of(alloc: Global, group: u32) -> Result<Option<Vec<u32>>, AllocError>
    ensures { IfOk result (λ groups. MatchOption groups (group ≡ 0)
        (λ named. (group ≢ 0) × (named.items ≡ group ∷ []))) }
{
    if group == 0 {
        return Ok(None);
    }
    Ok(Some(vec![in alloc; group]?))
}
