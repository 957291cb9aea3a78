//! Each answer of the calls for C that make bins whole, take them out, make them larger and cut them
//! anew, and that place boxes at corners of the caller's choice. What they say of all sessions is
//! proved; that they say `RP_DONE` where there is room is seen here.
ghost use Rattle.std.specs.Prelude.{IsSome};

use super::reading::{REST, STRIP, WHOLE, outstanding, sections};
use super::session::{opens, pack};
use crate::handle::RpSession;
use crate::reading::RpSection;
use crate::session::{
    rectangle_pack_session_add_bin, rectangle_pack_session_coalesce_all,
    rectangle_pack_session_free, rectangle_pack_session_release,
};
use crate::upkeep::{
    rectangle_pack_session_clear_bin, rectangle_pack_session_grow_bin,
    rectangle_pack_session_place_at, rectangle_pack_session_recut,
    rectangle_pack_session_remove_bin,
};
use crate::{
    RP_BIN_IN_USE, RP_DONE, RP_NOT_FREE, RP_NOT_FROM_CUTS, RP_NUMBERS_USED_UP, RP_TOO_LARGE,
    RP_UNKNOWN_AXIS, RP_UNKNOWN_BIN,
};
use rectangle_pack::Session;
use std::alloc::Global;
use std::test::Fail;

// A box of 2x2x1 at the corner (4, 3, 0).
const KNOT: RpSection = RpSection {
    x: 4,
    y: 3,
    z: 0,
    width: 2,
    height: 2,
    depth: 1,
};

// A strip is packed into the bin 7, which is then in use. Once it is cleared, it is free in one
// section and may be taken out.
#[test]
fn a_bin_is_cleared_and_taken_out(rt: HostRuntime) -> Result<(), Fail> {
    let alloc = rt.alloc();
    let mut session = RpSession::none(alloc);
    assert!(rt; opens(alloc, &mut session));
    pack(alloc, &mut session, 4);
    let in_use = rectangle_pack_session_remove_bin(alloc, &mut session, 7);
    let cleared = rectangle_pack_session_clear_bin(alloc, &mut session, 7);
    let (_, count, told) = sections(alloc, &mut session, 7, 3);
    let (_, placements, _) = outstanding(alloc, &mut session, 2);
    let removed = rectangle_pack_session_remove_bin(alloc, &mut session, 7);
    let gone = [
        rectangle_pack_session_clear_bin(alloc, &mut session, 7),
        rectangle_pack_session_remove_bin(alloc, &mut session, 7),
    ];
    assert_eq!(rt;
        [in_use, cleared, removed],
        [RP_BIN_IN_USE, RP_DONE, RP_DONE]
    );
    assert_eq!(rt; (count, told[0], placements), (1, WHOLE, 0));
    assert_eq!(rt; gone, [RP_UNKNOWN_BIN, RP_UNKNOWN_BIN]);
    rectangle_pack_session_free(alloc, &mut session);
    Ok(())
}

// A bin 4x10x1 grows by 6 cells on x. The refusals are looked at in their order: the axis, the bin,
// the side.
#[test]
fn a_bin_grows(rt: HostRuntime) -> Result<(), Fail> {
    let alloc = rt.alloc();
    let mut session = RpSession::none(alloc);
    assert!(rt; opens(alloc, &mut session));
    rectangle_pack_session_add_bin(alloc, &mut session, 8, 4, 10, 1);
    let grown = rectangle_pack_session_grow_bin(alloc, &mut session, 8, 0, 6);
    let refused = [
        rectangle_pack_session_grow_bin(alloc, &mut session, 9, 3, u32::MAX),
        rectangle_pack_session_grow_bin(alloc, &mut session, 9, 2, u32::MAX),
        rectangle_pack_session_grow_bin(alloc, &mut session, 8, 1, u32::MAX - 9),
    ];
    assert_eq!(rt; grown, RP_DONE);
    assert_eq!(rt; refused, [RP_UNKNOWN_AXIS, RP_UNKNOWN_BIN, RP_TOO_LARGE]);
    assert_eq!(rt;
        sections(alloc, &mut session, 8, 3),
        (RP_DONE, 2, [STRIP, REST])
    );
    rectangle_pack_session_free(alloc, &mut session);
    Ok(())
}

// A strip is packed and released, which leaves two sections. Once it is cut anew, the bin is free in
// one section.
#[test]
fn a_bin_is_cut_anew(rt: HostRuntime) -> Result<(), Fail> {
    let alloc = rt.alloc();
    let mut session = RpSession::none(alloc);
    assert!(rt; opens(alloc, &mut session));
    pack(alloc, &mut session, 4);
    rectangle_pack_session_release(alloc, &mut session, 0);
    let before = sections(alloc, &mut session, 7, 3);
    let answers = [
        rectangle_pack_session_recut(alloc, &mut session, 7),
        rectangle_pack_session_recut(alloc, &mut session, 8),
    ];
    let (_, count, told) = sections(alloc, &mut session, 7, 3);
    assert_eq!(rt; before, (RP_DONE, 2, [REST, STRIP]));
    assert_eq!(rt; answers, [RP_DONE, RP_UNKNOWN_BIN]);
    assert_eq!(rt; (count, told[0]), (1, WHOLE));
    rectangle_pack_session_free(alloc, &mut session);
    Ok(())
}

// What is answered where a flat box is placed at this corner of the bin 8.
fn put(alloc: Global, session: &mut RpSession, corner: [u32; 2], sides: [u32; 2]) -> u32
    requires { IsSome session.old.state }
    ensures { IsSome session.new.state }
{
    let ([x, y], [width, height]) = (corner, sides);
    let location = RpSection {
        x,
        y,
        z: 0,
        width,
        height,
        depth: 1,
    };
    rectangle_pack_session_place_at(alloc, session, 8, &location, &mut 0)
}

// Four boxes stand round a fifth in a bin 3x3x1: the last goes into a section that was joined, and
// no straight cut leaves all of them.
#[test]
fn a_pinwheel_is_not_cut_anew(rt: HostRuntime) -> Result<(), Fail> {
    let alloc = rt.alloc();
    let mut session = RpSession::none(alloc);
    assert!(rt; opens(alloc, &mut session));
    rectangle_pack_session_add_bin(alloc, &mut session, 8, 3, 3, 1);
    let placed = [
        put(alloc, &mut session, [0, 0], [2, 1]),
        put(alloc, &mut session, [2, 0], [1, 2]),
        put(alloc, &mut session, [0, 1], [1, 2]),
        put(alloc, &mut session, [1, 1], [1, 1]),
    ];
    rectangle_pack_session_coalesce_all(alloc, &mut session, 8);
    let last = put(alloc, &mut session, [1, 2], [2, 1]);
    let recut = rectangle_pack_session_recut(alloc, &mut session, 8);
    assert_eq!(rt; placed, [RP_DONE; 4]);
    assert_eq!(rt; (last, recut), (RP_DONE, RP_NOT_FROM_CUTS));
    rectangle_pack_session_free(alloc, &mut session);
    Ok(())
}

// What is answered where the knot is placed in a bin: the status, and the number.
fn place(alloc: Global, session: &mut RpSession, bin: u32) -> (u32, u64)
    requires { IsSome session.old.state }
    ensures { IsSome session.new.state }
{
    let mut number = 99;
    let status = rectangle_pack_session_place_at(alloc, session, bin, &KNOT, &mut number);
    (status, number)
}

// A strip has the number 0, and a knot that is placed beside it the number 1. It is not placed
// where one stands, and a bin that is not there is named.
#[test]
fn a_box_is_placed_at_a_corner(rt: HostRuntime) -> Result<(), Fail> {
    let alloc = rt.alloc();
    let mut session = RpSession::none(alloc);
    assert!(rt; opens(alloc, &mut session));
    pack(alloc, &mut session, 4);
    let answers = [
        place(alloc, &mut session, 7),
        place(alloc, &mut session, 7),
        place(alloc, &mut session, 8),
    ];
    let want = [(RP_DONE, 1), (RP_NOT_FREE, 99), (RP_UNKNOWN_BIN, 99)];
    assert_eq!(rt; answers, want);
    let (_, count, _) = outstanding(alloc, &mut session, 2);
    assert_eq!(rt; count, 2);
    rectangle_pack_session_free(alloc, &mut session);
    Ok(())
}

// The greatest number is never given.
#[test]
fn numbers_are_used_up(rt: HostRuntime) -> Result<(), Fail> {
    let alloc = rt.alloc();
    let mut held: Session<u32, u32> = Session::new(alloc, u64::MAX);
    held.add_bin(7, 10, 10, 1)?;
    let mut session = RpSession::of(Box::new(alloc, held)?);
    assert_eq!(rt; place(alloc, &mut session, 7), (RP_NUMBERS_USED_UP, 99));
    rectangle_pack_session_free(alloc, &mut session);
    Ok(())
}
