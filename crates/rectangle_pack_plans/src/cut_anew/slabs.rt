//! The slabs of a room: it is cut at each open plane of an axis.
ghost use Rattle.std.specs.Prelude.{◌≡◌, ◌≤◌, ◌++◌, List, length, map, IfOk, MatchBool};
ghost use Rattle.std.specs.List.Sorted.{IsPermutation, IsNonDecreasingBy};
ghost use Rattle.rectangle_pack_sections.specs.Boxes.{FitsU32, start};
ghost use Rattle.rectangle_pack_plans.specs.private.CutPlans.{IsClosedOn};
ghost use Rattle.rectangle_pack_plans.specs.CuttingAnew.{AreBounds};
ghost use Rattle.rectangle_pack_plans.specs.private.CuttingAnew.{AreInRoom, AreClosedWithin, CanBeCut, Filled, counted, AreRoomsOf, HasPlaneOn, AreSlabsOn, AreFirstSlabs};

use crate::cut_plan::order::order_on;
use crate::cut_plan::parts::{lower, upper};
use rectangle_pack_sections::axis::Axis;
use rectangle_pack_sections::bin_section::BinSection;
use rectangle_pack_sections::span::Span;
use std::alloc::{AllocError, Allocator};

// A part of the whole that is still to be cut up, how many boxes stand in it, and an axis on which
// these leave no plane open, if one is known.
#[derive(Clone, Copy)]
pub(crate) struct Room {
    pub section: BinSection,
    pub count: usize,
    pub closed: Option<Axis>,
}

// Cuts a room at each open plane of an axis, where the boxes stand in order on it, and puts the
// slabs at the end of the rooms. A cut stands at the start of the next box. Answers false where no
// plane is open.
fn slabs_on<A: Allocator>(
    room: &BinSection,
    axis: Axis,
    boxes: &[BinSection],
    rooms: &mut Vec<Room, A>,
) -> Result<bool, AllocError>
    requires fits { FitsU32 room.now }
    requires filling { AreInRoom room.now boxes.now }
    requires bounds { AreBounds boxes.now room.now }
    requires ordered { IsNonDecreasingBy (start axis) boxes.now }
    ensures { IfOk result (λ found. MatchBool found
        ((fs : List Filled) × (rooms.new.items ≡ rooms.old.items ++ map counted fs)
        × (2 ≤ length fs) × AreRoomsOf room.now boxes.now fs
        × HasPlaneOn axis room.now boxes.now × AreSlabsOn axis room.now boxes.now fs)
        ((rooms.new.items ≡ rooms.old.items) × IsClosedOn axis room.now boxes.now)) }
{
    let mut rest = *room;
    let mut begun = 0;
    let mut reach = Span::of(room, axis).start;
    for (i, next) in boxes.iter().enumerate() {
        let span = Span::of(next, axis);
        if i > 0 && reach <= span.start {
            let section = lower(&rest, axis, span.start);
            rooms.push(Room {
                section,
                count: i - begun,
                closed: Some(axis),
            })?;
            rest = upper(&rest, axis, span.start);
            begun = i;
        }
        reach = reach.max(span.end());
    }
    if begun == 0 {
        return Ok(false);
    }
    rooms.push(Room {
        section: rest,
        count: boxes.len() - begun,
        closed: Some(axis),
    })?;
    Ok(true)
}

// Cuts a room that its boxes bound at each open plane of an axis, and puts the slabs at the end of
// the rooms, and the boxes in their order. Answers false where no plane is open: so it is where the
// axis is the one that was cut already, or where the room has one cell on it.
fn slabs_along<A: Allocator>(
    room: &BinSection,
    closed: Option<Axis>,
    axis: Axis,
    boxes: &mut [BinSection],
    rooms: &mut Vec<Room, A>,
) -> Result<bool, AllocError>
    requires fits { FitsU32 room.now }
    requires filling { AreInRoom room.now boxes.old }
    requires bounds { AreBounds boxes.old room.now }
    requires closed { AreClosedWithin closed boxes.old }
    ensures permutation { IsPermutation boxes.old boxes.new }
    ensures slabs { IfOk result (λ found. MatchBool found
        ((fs : List Filled) × (rooms.new.items ≡ rooms.old.items ++ map counted fs)
        × (2 ≤ length fs) × AreRoomsOf room.now boxes.new fs
        × HasPlaneOn axis room.now boxes.new × AreSlabsOn axis room.now boxes.new fs)
        ((rooms.new.items ≡ rooms.old.items) × IsClosedOn axis room.now boxes.new)) }
{
    if closed == Some(axis) || Span::of(room, axis).length <= 1 {
        return Ok(false);
    }
    order_on(axis, boxes);
    slabs_on(room, axis, boxes, rooms)
}

// Cuts a room that its boxes bound at each open plane of the first axis that has one, and puts the
// slabs at the end of the rooms, and the boxes in their order. Answers false where no axis has one.
pub(crate) fn cut_slabs<A: Allocator>(
    room: &BinSection,
    closed: Option<Axis>,
    boxes: &mut [BinSection],
    rooms: &mut Vec<Room, A>,
) -> Result<bool, AllocError>
    requires fits { FitsU32 room.now }
    requires filling { AreInRoom room.now boxes.old }
    requires bounds { AreBounds boxes.old room.now }
    requires many { 2 ≤ length boxes.old }
    requires closed { AreClosedWithin closed boxes.old }
    ensures permutation { IsPermutation boxes.old boxes.new }
    ensures slabs { IfOk result (λ found. MatchBool found
        ((fs : List Filled) × (rooms.new.items ≡ rooms.old.items ++ map counted fs)
        × (2 ≤ length fs) × AreRoomsOf room.now boxes.new fs
        × AreFirstSlabs room.now boxes.new fs)
        (¬ CanBeCut boxes.old room.now)) }
{
    for axis in [Axis::X, Axis::Y, Axis::Z] {
        if slabs_along(room, closed, axis, boxes, rooms)? {
            return Ok(true);
        }
    }
    Ok(false)
}
