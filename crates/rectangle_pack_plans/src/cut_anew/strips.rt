//! The strips of a room beyond the bounds of its boxes.
ghost use Rattle.std.specs.Prelude.{◌≡◌, ◌≢◌, ◌+◌, ◌*◌, ◌++◌, true, List, OnOk};
ghost use Rattle.rectangle_pack_sections.specs.Boxes.{Cuboid, FitsU32, IsPartOf, has_cells};
ghost use Rattle.rectangle_pack_plans.specs.CutPlans.{axis_rank};
ghost use Rattle.rectangle_pack_plans.specs.CuttingAnew.{strip_beyond, rest_beyond, thickness, IsThickest, AreStripsRound, cut_from};
ghost use Rattle.rectangle_pack_plans.specs.private.CuttingAnew.{IsThicker, IsThickestOf, AreStrips};

use crate::cut_plan::parts::{lower, upper};
use rectangle_pack_sections::axis::Axis;
use rectangle_pack_sections::bin_section::BinSection;
use rectangle_pack_sections::span::Span;
use std::alloc::{AllocError, Allocator};

// A side of bounds: where they start on an axis, or where they end.
#[derive(Clone, Copy)]
pub(crate) enum Side {
    Start(Axis),
    End(Axis),
}

// The strip of a room beyond bounds on a side, over all of the room's width: how thick it is.
#[derive(Clone, Copy)]
pub(crate) struct Strip {
    pub side: Side,
    pub thickness: u32,
}

// A free section, and the room that it was cut from.
#[derive(Clone, Copy)]
pub(crate) struct FreeSection {
    pub section: BinSection,
    pub room: BinSection,
}

// The strip of a room beyond the bounds on a side.
fn strip_on(room: &BinSection, bounds: &BinSection, side: Side) -> Strip
    requires fits { FitsU32 room.now }
    requires inside { IsPartOf bounds.now room.now }
    ensures { result ≡ record { side = side; thickness = thickness side bounds.now room.now } }
{
    let thickness = match side {
        Side::Start(axis) => Span::of(bounds, axis).start - Span::of(room, axis).start,
        Side::End(axis) => Span::of(room, axis).end() - Span::of(bounds, axis).end(),
    };
    Strip { side, thickness }
}

// The thicker strip; the first of two that are equally thick.
fn thicker(first: Strip, second: Strip) -> Strip
    ensures { IsThicker first second result }
{
    if first.thickness < second.thickness {
        second
    } else {
        first
    }
}

// The thicker strip on an axis.
fn thicker_on(room: &BinSection, bounds: &BinSection, axis: Axis) -> Strip
    requires fits { FitsU32 room.now }
    requires inside { IsPartOf bounds.now room.now }
    ensures { let rank = axis_rank axis * 2 in
        IsThickestOf rank (rank + 2) bounds.now room.now result }
{
    thicker(
        strip_on(room, bounds, Side::Start(axis)),
        strip_on(room, bounds, Side::End(axis)),
    )
}

// The side on which a room goes farthest beyond the bounds.
fn thickest_side(room: &BinSection, bounds: &BinSection) -> Side
    requires fits { FitsU32 room.now }
    requires inside { IsPartOf bounds.now room.now }
    requires beyond { room.now ≢ bounds.now }
    ensures { IsThickest result bounds.now room.now }
{
    let x = thicker_on(room, bounds, Axis::X);
    let y = thicker_on(room, bounds, Axis::Y);
    let z = thicker_on(room, bounds, Axis::Z);
    thicker(thicker(x, y), z).side
}

// The strip of a room beyond the bounds on a side, and the rest of the room.
fn cut_off(room: &BinSection, bounds: &BinSection, side: Side) -> (BinSection, BinSection)
    requires fits { FitsU32 room.now }
    requires inside { IsPartOf bounds.now room.now }
    ensures strip { result.0 ≡ strip_beyond side bounds.now room.now }
    ensures rest { result.1 ≡ rest_beyond side bounds.now room.now }
{
    match side {
        Side::Start(axis) => {
            let place = Span::of(bounds, axis).start;
            (lower(room, axis, place), upper(room, axis, place))
        }
        Side::End(axis) => {
            let place = Span::of(bounds, axis).end();
            (upper(room, axis, place), lower(room, axis, place))
        }
    }
}

// Puts the strips of a room round the bounds at the end of the free sections, the thickest first,
// each cut off what those before it left.
pub(crate) fn cut_strips<A: Allocator>(
    room: &BinSection,
    bounds: &BinSection,
    free: &mut Vec<FreeSection, A>,
) -> Result<(), AllocError>
    requires fits { FitsU32 room.now }
    requires inside { IsPartOf bounds.now room.now }
    requires cells { has_cells bounds.now ≡ true }
    ensures { OnOk result ((strips : List Cuboid)
        × (free.new.items ≡ free.old.items ++ cut_from room.now strips)
        × AreStripsRound bounds.now room.now strips
        × AreStrips room.now bounds.now strips) }
{
    let mut rest = *room;
    while rest != *bounds {
        let side = thickest_side(&rest, bounds);
        let (strip, left) = cut_off(&rest, bounds, side);
        free.push(FreeSection {
            section: strip,
            room: *room,
        })?;
        rest = left;
    }
    Ok(())
}
