//! Upkeep of a session for C: bins that are made whole again, taken out, made larger or cut anew, and
//! boxes at corners of the caller's choice.
ghost use Rattle.std.specs.Prelude.{◌≡◌, ◌<◌, ◌≤◌, IsSome, MatchOption};
ghost use Rattle.std.specs.Ordering.{nat_cmp};
ghost use Rattle.rectangle_pack.specs.CutPlans.{axis_rank};
ghost use Rattle.rectangle_pack.specs.Recutting.{Recuts};
ghost use Rattle.rectangle_pack.specs.Upkeep.{Clears, RemovesBin};
ghost use Rattle.rectangle_pack_c.specs.Sessions.{ChangesAs};
ghost use Rattle.rectangle_pack_c.specs.Upkeep.{GrowsOnAxis, PlacesSection};
ghost use Rattle.rectangle_pack_c.specs.Reading.{cuboid_of};

use super::handle::RpSession;
use super::reading::RpSection;
use super::session::{refusal, status};
use super::{RP_DONE, RP_UNKNOWN_AXIS};
use rectangle_pack::{Axis, PackedLocation, RectToInsert};
use std::alloc::Global;

/// Makes a bin whole again: it has one free section, which is all of it, and does not count as
/// coalesced. Its placements are no longer outstanding. `RP_DONE`, `RP_UNKNOWN_BIN` where there is
/// no such bin, or `RP_OUT_OF_MEMORY`. What is not done leaves the session as it was.
#[unsafe(no_mangle)]
pub extern "C" fn rectangle_pack_session_clear_bin(
    alloc: Global,
    session: &mut RpSession,
    bin: u32,
) -> u32
    // The handle has a session.
    requires made { IsSome session.old.state }
    // The bin is cleared, or not, as `cleared` of `Session::clear_bin` says it, and the status is
    //   that of the answer: `RP_DONE`, `RP_UNKNOWN_BIN` or `RP_OUT_OF_MEMORY`. What always holds of
    //   a session holds afterwards. [rectangle_pack_session_clear_bin.another_bin_is_cleared]
    ensures cleared { ChangesAs (Clears nat_cmp bin)
        session.old.state result session.new.state }
{
    let mut held = session.take(alloc);
    let answer = held.clear_bin(&bin);
    *session = RpSession::of(held);
    status(&answer)
}

/// Takes out a bin in which no placement is outstanding. `RP_DONE`, `RP_UNKNOWN_BIN` where there is
/// no such bin, or `RP_BIN_IN_USE` where placements are outstanding in it. What is not done leaves
/// the session as it was. Takes no memory.
#[unsafe(no_mangle)]
pub extern "C" fn rectangle_pack_session_remove_bin(
    alloc: Global,
    session: &mut RpSession,
    bin: u32,
) -> u32
    requires made { IsSome session.old.state }
    // The bin is taken out, or not, as `removed` of `Session::remove_bin` says it, and the status
    //   is that of the answer: `RP_DONE`, `RP_UNKNOWN_BIN` or `RP_BIN_IN_USE`. What always holds of
    //   a session holds afterwards. [rectangle_pack_session_remove_bin.another_bin_is_removed]
    ensures removed { ChangesAs (RemovesBin nat_cmp bin)
        session.old.state result session.new.state }
{
    let mut held = session.take(alloc);
    let answer = held.remove_bin(&bin);
    *session = RpSession::of(held);
    status(&answer)
}

/// Makes a bin larger by so many cells on the axis 0, 1 or 2: x, y or z. What is new is one more
/// free section, the newest, where it has cells. `RP_DONE`; or, looked at in this order,
/// `RP_UNKNOWN_AXIS`, `RP_UNKNOWN_BIN` where there is no such bin, or `RP_TOO_LARGE` where its side
/// would exceed 2^32 - 1; or `RP_OUT_OF_MEMORY`. What is not done leaves the session as it was.
#[unsafe(no_mangle)]
pub extern "C" fn rectangle_pack_session_grow_bin(
    alloc: Global,
    session: &mut RpSession,
    bin: u32,
    axis: u32,
    by: u32,
) -> u32
    requires made { IsSome session.old.state }
    // The axis is above 2: the answer is `RP_UNKNOWN_AXIS`, and the session is as it was.
    ensures unknown_axis { 2 < axis →
        (result ≡ RP_UNKNOWN_AXIS) × (session.new.state ≡ session.old.state) }
    // Else the bin grows on this axis, 0 for x, 1 for y and 2 for z, or does not, as `grown` of
    //   `Session::grow_bin` says it, and the status is that of the answer: `RP_DONE`,
    //   `RP_UNKNOWN_BIN`, `RP_TOO_LARGE` or `RP_OUT_OF_MEMORY`. What always holds of a session
    //   holds afterwards. [axis_of.axis_1_is_z]
    ensures grown { axis ≤ 2 → ChangesAs (GrowsOnAxis bin axis by)
        session.old.state result session.new.state }
{
    let Some(axis) = axis_of(axis) else {
        return RP_UNKNOWN_AXIS;
    };
    let mut held = session.take(alloc);
    let answer = held.grow_bin(&bin, axis, by);
    *session = RpSession::of(held);
    status(&answer)
}

// The axis of a number.
fn axis_of(number: u32) -> Option<Axis>
    ensures { MatchOption result (2 < number) (λ axis. axis_rank axis ≡ number) }
{
    match number {
        0 => Some(Axis::X),
        1 => Some(Axis::Y),
        2 => Some(Axis::Z),
        _ => None,
    }
}

/// Cuts the free part of a bin anew: straight cuts, each across the whole of its part, part the bin
/// into its placements and the new free sections. The section with the greatest least side stands
/// first. `RP_DONE`, `RP_UNKNOWN_BIN` where there is no such bin, `RP_NOT_FROM_CUTS` where no
/// straight cuts part its boxes, or `RP_OUT_OF_MEMORY`. What is not done leaves the session as it
/// was.
#[unsafe(no_mangle)]
pub extern "C" fn rectangle_pack_session_recut(
    alloc: Global,
    session: &mut RpSession,
    bin: u32,
) -> u32
    requires made { IsSome session.old.state }
    // The free part of the bin is cut anew, or not, as `recut` of `Session::recut` says it, and the
    //   status is that of the answer: `RP_DONE`, `RP_UNKNOWN_BIN`, `RP_NOT_FROM_CUTS` or
    //   `RP_OUT_OF_MEMORY`. What always holds of a session holds afterwards.
    //   [rectangle_pack_session_recut.another_bin_is_cut]
    ensures recut { ChangesAs (Recuts nat_cmp bin) session.old.state result session.new.state }
{
    let mut held = session.take(alloc);
    let answer = held.recut(&bin);
    *session = RpSession::of(held);
    status(&answer)
}

/// Places a box at this location of a bin: its corner and its sides. The number of the placement,
/// by which it is released, is written to `number`, and the index of its box is 0. `RP_DONE`; or,
/// looked at in this order, `RP_UNKNOWN_BIN` where there is no such bin, `RP_NUMBERS_USED_UP`, or
/// `RP_NOT_FREE` where no free section of the bin holds the box there; or `RP_OUT_OF_MEMORY`. What
/// is not done leaves the session as it was, and writes nothing.
#[unsafe(no_mangle)]
pub extern "C" fn rectangle_pack_session_place_at(
    alloc: Global,
    session: &mut RpSession,
    bin: u32,
    location: &RpSection,
    number: &mut u64,
) -> u32
    requires made { IsSome session.old.state }
    // The box, with the id 0, is placed at this location, or not, as `placed` of
    //   `Session::place_at` says it, and the status is that of the answer: `RP_DONE`,
    //   `RP_UNKNOWN_BIN`, `RP_NUMBERS_USED_UP`, `RP_NOT_FREE` or `RP_OUT_OF_MEMORY`. What always
    //   holds of a session holds afterwards.
    // `RP_DONE`: the number that is written is that of the placement. Else no number is written.
    //   [rectangle_pack_session_place_at.number_is_the_next]
    ensures placed { ChangesAs (PlacesSection bin location.now number.old number.new)
        session.old.state result session.new.state }
{
    let mut held = session.take(alloc);
    let answer = held.place_at(bin, 0, location_of(location));
    *session = RpSession::of(held);
    match answer {
        Ok(given) => {
            *number = given;
            RP_DONE
        }
        Err(error) => refusal(error),
    }
}

// The location of a section.
pub(crate) fn location_of(section: &RpSection) -> PackedLocation
    ensures { result ≡ cuboid_of section.now }
{
    let size = RectToInsert::new(section.width, section.height, section.depth);
    PackedLocation::new(section.x, section.y, section.z, size.into())
}
