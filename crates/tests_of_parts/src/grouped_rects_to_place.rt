//! Collections: boxes and the groups that they are pushed into, and groups that are excluded.

mod memory;
mod no_memory;
mod owned_ids;

use rectangle_pack::{Group, GroupedRectsToPlace, RectToInsert};
use std::alloc::{AllocError, Global};
use std::collections::BTreeMap;
use tests_support::all_match;
use tests_support::boxes::{GroupName, Rects, SizedBox, exclude_all, push_boxes};
use tests_support::refusing::Refusing;
use tests_support::shapes::named;

const SIZE: [u32; 3] = [10, 10, 1];

// A box: id and size.
type Sized = (u32, [u32; 3]);

// Pushes, and what they give.
struct Pushes {
    pushes: &'static [SizedBox],
    // The groups in order, with their ids.
    groups: &'static [(GroupName, &'static [u32])],
    // The boxes in order.
    boxes: &'static [Sized],
}

// Boxes that are pushed; the groups with their ids, and the boxes.
macro_rules! pushes {
    ($($id:tt: $size:tt $(in $groups:tt)?),* => $($group:ident($name:literal) has $ids:tt),*;
        $($of:literal: $last:tt),*) => {
        Pushes {
            pushes: tests_support::box_list!($($id: $size $(in $groups)?),*),
            groups: &[$((Group::$group($name), &$ids)),*],
            boxes: &[$(($of, $last)),*],
        }
    };
}

fn all_pushes() -> &'static [Pushes] {
    const PUSHES: &[Pushes] = &[
        pushes!(1: SIZE => Ungrouped(1) has [1]; 1: SIZE),
        pushes!(1: SIZE in [0], 2: SIZE in [0] => Grouped(0) has [1, 2]; 1: SIZE, 2: SIZE),
        pushes!(7: SIZE in [0, 1] => Grouped(0) has [7], Grouped(1) has [7]; 7: SIZE),
        pushes!(1: SIZE in [0, 0] => Grouped(0) has [1, 1]; 1: SIZE),
        // At a second push the size is the last one, and the box stays where it was before.
        pushes!(1: SIZE, 1: [3, 4, 5] in [0] => Ungrouped(1) has [1], Grouped(0) has [1];
            1: [3, 4, 5]),
    ];
    PUSHES
}

// Whether the groups are these, in order, with these ids.
fn has_groups(all: &GroupedRectsToPlace<u32, u32>, wanted: &[(GroupName, &[u32])]) -> bool {
    all_match!(all.groups().iter(), wanted, (group, ids), (name, members) =>
        group == name && ids.as_slice() == *members)
}

fn size_of(rect: &RectToInsert) -> [u32; 3] {
    [rect.width(), rect.height(), rect.depth()]
}

// Whether the boxes are these, in order, with these sizes.
fn has_boxes(all: &GroupedRectsToPlace<u32, u32>, wanted: &[Sized]) -> bool {
    all_match!(all.rects().iter(), wanted, (id, rect), (name, size) =>
        id == name && size_of(rect) == *size)
}

// Whether the pushes give these groups and boxes.
fn gives(alloc: Global, row: &Pushes) -> bool {
    let mut all = GroupedRectsToPlace::new(alloc);
    push_boxes(alloc, &mut all, row.pushes).is_ok()
        && has_groups(&all, row.groups)
        && has_boxes(&all, row.boxes)
}

#[test]
fn pushes_into_groups(rt: HostRuntime) {
    for row in all_pushes() {
        assert!(rt; gives(rt.alloc(), row), "{:?}", row.groups);
    }
}

// Whether these are the boxes, in order and each of the size of the pushes.
fn have_size<T: Ord>(rects: &BTreeMap<T, RectToInsert>, ids: &[T]) -> bool {
    all_match!(rects.iter(), ids, (id, rect), wanted => id == wanted && size_of(rect) == SIZE)
}

// Whether these are all boxes, in this one group, in order and each of the size of the pushes.
fn are_in_one_group<T: Ord + Clone + Drop>(
    all: &GroupedRectsToPlace<T, T>,
    group: &Group<T, T>,
    ids: &[T],
) -> bool {
    match all.groups().get(group) {
        Some(members) if members.as_slice() == ids => {
            all.groups().len() == 1 && have_size(all.rects(), ids)
        }
        _ => false,
    }
}

// Pushes a box into the group.
fn push_text(
    alloc: Global,
    all: &mut GroupedRectsToPlace<&'static str, &'static str>,
    id: &'static str,
) -> Result<(), AllocError> {
    let groups = vec![in alloc; "group"]?;
    all.push_rect(id, Some(groups), RectToInsert::new(10, 10, 1))
}

// Whether two boxes are in one group, once they are pushed.
fn keeps_texts(
    alloc: Global,
    all: &mut GroupedRectsToPlace<&'static str, &'static str>,
) -> Result<bool, AllocError> {
    push_text(alloc, all, "One")?;
    push_text(alloc, all, "Two")?;
    Ok(are_in_one_group(all, &Group::Grouped("group"), &["One", "Two"]))
}

#[test]
fn texts_as_ids(rt: HostRuntime) {
    let mut all = GroupedRectsToPlace::new(rt.alloc());
    assert!(rt; matches!(keeps_texts(rt.alloc(), &mut all), Ok(true)));
}

// Pushes a box, each name of which is a string of its own.
fn push_string(
    alloc: Global,
    all: &mut GroupedRectsToPlace<String, String>,
    id: &str,
) -> Result<(), AllocError> {
    let groups = vec![in alloc; String::from_str(alloc, "group")?]?;
    let id = String::from_str(alloc, id)?;
    all.push_rect(id, Some(groups), RectToInsert::new(10, 10, 1))
}

// Whether these are in the group, under equal strings that lie elsewhere.
fn holds_strings(
    alloc: Global,
    all: &GroupedRectsToPlace<String, String>,
) -> Result<bool, AllocError> {
    let ids = [
        String::from_str(alloc, "One")?,
        String::from_str(alloc, "Two")?,
    ];
    let group = Group::Grouped(String::from_str(alloc, "group")?);
    Ok(are_in_one_group(all, &group, &ids))
}

// Whether two boxes are in one group, once they are pushed.
fn keeps_strings(
    alloc: Global,
    all: &mut GroupedRectsToPlace<String, String>,
) -> Result<bool, AllocError> {
    push_string(alloc, all, "One")?;
    push_string(alloc, all, "Two")?;
    holds_strings(alloc, all)
}

#[test]
fn strings_as_ids(rt: HostRuntime) {
    let mut all = GroupedRectsToPlace::new(rt.alloc());
    assert!(rt; matches!(keeps_strings(rt.alloc(), &mut all), Ok(true)));
}

#[derive(Clone, Copy, PartialEq, Eq, PartialOrd, Ord, Drop)]
enum Side {
    Front,
    Back,
}

// Pushes a box into the group.
fn push_side(
    alloc: Global,
    all: &mut GroupedRectsToPlace<Side, Side>,
    id: Side,
) -> Result<(), AllocError> {
    let groups = vec![in alloc; Side::Back]?;
    all.push_rect(id, Some(groups), RectToInsert::new(10, 10, 1))
}

// Whether two boxes are in one group, once they are pushed.
fn keeps_sides(
    alloc: Global,
    all: &mut GroupedRectsToPlace<Side, Side>,
) -> Result<bool, AllocError> {
    push_side(alloc, all, Side::Front)?;
    push_side(alloc, all, Side::Back)?;
    let ids = [Side::Front, Side::Back];
    Ok(are_in_one_group(all, &Group::Grouped(Side::Back), &ids))
}

#[test]
fn names_as_ids(rt: HostRuntime) {
    let mut all = GroupedRectsToPlace::new(rt.alloc());
    assert!(rt; matches!(keeps_sides(rt.alloc(), &mut all), Ok(true)));
}

// Whether each group has one member, and no more room than for a few.
fn have_little_room(all: &GroupedRectsToPlace<u32, u32>) -> bool {
    for members in all.groups().values() {
        if members.len() != 1 || members.capacity() > 8 {
            return false;
        }
    }
    true
}

// One box in 200 groups.
fn push_into_many(
    alloc: Global,
    all: &mut GroupedRectsToPlace<u32, u32>,
) -> Result<(), AllocError> {
    let named: Vec<u32> = (0..200).collect(alloc)?;
    let named = if named.is_empty() { None } else { Some(named) };
    all.push_rect(1, named, RectToInsert::new(1, 1, 1))
}

// A push into 200 groups with one member each leaves no list with room for more than a few.
#[test]
fn room_grows_as_the_groups_named(rt: HostRuntime) {
    let mut all = GroupedRectsToPlace::new(rt.alloc());
    assert!(rt; push_into_many(rt.alloc(), &mut all).is_ok());
    assert!(rt; all.groups().len() == 200 && have_little_room(&all));
}

// Each box is in one of four groups, and all are in group 4.
fn push_into_five(
    alloc: Global,
    rects: &mut GroupedRectsToPlace<u32, u32>,
) -> Result<(), AllocError> {
    for id in 0..200u32 {
        let groups = named(alloc, &[id % 4, 4])?;
        rects.push_rect(id, groups, RectToInsert::new(1, 1, 1))?;
    }
    Ok(())
}

// Whether the group has `count` members.
fn has_members(rects: &GroupedRectsToPlace<u32, u32>, group: u32, count: usize) -> bool {
    match rects.groups().get(&Group::Grouped(group)) {
        Some(members) => members.len() == count,
        None => false,
    }
}

// Whether these are the groups, each with its boxes.
fn are_in_five(rects: &GroupedRectsToPlace<u32, u32>) -> bool {
    for group in 0..4 {
        if !has_members(rects, group, 50) {
            return false;
        }
    }
    has_members(rects, 4, 200) && rects.groups().len() == 5 && rects.rects().len() == 200
}

#[test]
fn two_hundred_boxes_in_groups(rt: HostRuntime) {
    let mut rects = GroupedRectsToPlace::new(rt.alloc());
    assert!(rt; push_into_five(rt.alloc(), &mut rects).is_ok());
    assert!(rt; are_in_five(&rects));
}

const A: GroupName = Group::Grouped(1);

const B: GroupName = Group::Grouped(2);

const C: GroupName = Group::Grouped(3);

// The box of this id alone, which is no group of this name.
const ALONE: GroupName = Group::Ungrouped(1);

const EXCLUDED: &[(GroupName, GroupName)] = &[(A, B), (B, A), (A, B), (ALONE, C)];

// Whether two groups are excluded, once these are.
const PAIRS: &[(GroupName, GroupName, bool)] = &[
    (A, B, true),
    (B, A, true),
    (ALONE, C, true),
    (C, ALONE, true),
    (A, C, false),
    (ALONE, B, false),
    (A, A, false),
];

fn has_pairs(rects: &Rects) -> bool {
    for (one, other, wanted) in PAIRS {
        if rects.excluded(one, other) != *wanted {
            return false;
        }
    }
    true
}

fn excludes_pairs(rects: &mut Rects) -> bool {
    exclude_all(rects, EXCLUDED).is_ok() && has_pairs(rects) && rects.groups().is_empty()
}

#[test]
fn pairs(rt: HostRuntime) {
    let refusing = Refusing::new(rt.alloc(), u64::MAX).expect(&rt, "no memory for the counts");
    let mut rects = Rects::new(refusing);
    assert!(rt; excludes_pairs(&mut rects));
}
