//! Each answer of the calls for C that place boxes where they fit best, and that release placements
//! together. What they say of all sessions is proved; that they say `RP_DONE` where there is room is
//! seen here.
ghost use Rattle.std.specs.Prelude.{IsSome};

use super::reading::{REST, STRIP, outstanding, sections};
use super::session::{UNSET, opens, pack};
use super::{STRIP as STRIP_BOX, place};
use crate::collection::{RP_BEST, RP_HEIGHT, RP_SIDE_AREA};
use crate::handle::RpSession;
use crate::placing::{
    rectangle_pack_session_place_best, rectangle_pack_session_place_best_anywhere,
    rectangle_pack_session_release_all,
};
use crate::session::{RpOutstanding, rectangle_pack_session_add_bin, rectangle_pack_session_free};
use crate::{
    RP_DONE, RP_NOT_ENOUGH_SPACE, RP_NUMBERS_USED_UP, RP_UNKNOWN_BIN, RP_UNKNOWN_HEURISTIC,
    RP_UNKNOWN_PLACEMENT, RpBox,
};
use rectangle_pack::Session;
use std::alloc::Global;
use std::test::Fail;

// What is answered: the status, the number, and the bin and the corner.
type Answer = (u32, u64, [u32; 4]);

const NOTHING: (u64, [u32; 4]) = (99, [9, 9, 9, 9]);

// A box that is so wide and so high, of a group, which does not count.
fn flat(width: u32, height: u32) -> RpBox {
    RpBox {
        width,
        height,
        depth: 1,
        group: 5,
    }
}

// What is answered where a box is placed in this bin.
fn fit(alloc: Global, session: &mut RpSession, bin: u32, rect: &RpBox, heuristic: u32) -> Answer
    requires { IsSome session.old.state }
    ensures { IsSome session.new.state }
{
    let mut told = UNSET;
    let status = rectangle_pack_session_place_best(alloc, session, bin, rect, heuristic, &mut told);
    (status, told.number, place(&told.placement))
}

// What is answered where a box is placed in any bin.
fn fit_anywhere(alloc: Global, session: &mut RpSession, rect: &RpBox, heuristic: u32) -> Answer
    requires { IsSome session.old.state }
    ensures { IsSome session.new.state }
{
    let mut told = UNSET;
    let status = rectangle_pack_session_place_best_anywhere(
        alloc, session, rect, heuristic, &mut told,
    );
    (status, told.number, place(&told.placement))
}

// A strip 4x10x1 leaves 6x10x1 of the bin 7; the bin 8 is 5x4x1. A box 4x4x1 leaves 2 in the first
// and 0 in the second, on its tightest side, and then nothing but 1x4x1 is free in the bin 8.
#[test]
fn a_box_goes_where_it_fits_best(rt: HostRuntime) -> Result<(), Fail> {
    let alloc = rt.alloc();
    let mut session = RpSession::none(alloc);
    assert!(rt; opens(alloc, &mut session));
    pack(alloc, &mut session, 4);
    rectangle_pack_session_add_bin(alloc, &mut session, 8, 5, 4, 1);
    let rect = flat(4, 4);
    let answers = [
        fit_anywhere(alloc, &mut session, &rect, RP_HEIGHT),
        fit_anywhere(alloc, &mut session, &rect, RP_SIDE_AREA),
        fit(alloc, &mut session, 8, &flat(1, 1), RP_HEIGHT),
    ];
    let want = [
        (RP_DONE, 1, [8, 0, 0, 0]),
        (RP_DONE, 2, [7, 4, 0, 0]),
        (RP_DONE, 3, [8, 4, 0, 0]),
    ];
    assert_eq!(rt; answers, want);
    let (_, count, _) = outstanding(alloc, &mut session, 4);
    assert_eq!(rt; count, 4);
    rectangle_pack_session_free(alloc, &mut session);
    Ok(())
}

// The refusals are looked at in their order: the heuristic, the bin, the space. Nothing is written.
#[test]
fn refusals_are_named(rt: HostRuntime) -> Result<(), Fail> {
    let alloc = rt.alloc();
    let mut session = RpSession::none(alloc);
    assert!(rt; opens(alloc, &mut session));
    let (small, wide) = (flat(1, 1), flat(11, 1));
    let answers = [
        fit(alloc, &mut session, 9, &wide, 8),
        fit(alloc, &mut session, 7, &small, RP_BEST),
        fit(alloc, &mut session, 9, &wide, RP_HEIGHT),
        fit(alloc, &mut session, 7, &wide, RP_HEIGHT),
        fit_anywhere(alloc, &mut session, &wide, 8),
        fit_anywhere(alloc, &mut session, &wide, RP_HEIGHT),
    ];
    let (number, nowhere) = NOTHING;
    let want = [
        (RP_UNKNOWN_HEURISTIC, number, nowhere),
        (RP_UNKNOWN_HEURISTIC, number, nowhere),
        (RP_UNKNOWN_BIN, number, nowhere),
        (RP_NOT_ENOUGH_SPACE, number, nowhere),
        (RP_UNKNOWN_HEURISTIC, number, nowhere),
        (RP_NOT_ENOUGH_SPACE, number, nowhere),
    ];
    assert_eq!(rt; answers, want);
    rectangle_pack_session_free(alloc, &mut session);
    Ok(())
}

// The greatest number is never given.
#[test]
fn numbers_are_used_up(rt: HostRuntime) -> Result<(), Fail> {
    let alloc = rt.alloc();
    let mut held: Session<u32, u32> = Session::new(alloc, u64::MAX);
    held.add_bin(7, 10, 10, 1)?;
    let mut session = RpSession::of(Box::new(alloc, held)?);
    let rect = flat(1, 1);
    let (number, nowhere) = NOTHING;
    let refused = (RP_NUMBERS_USED_UP, number, nowhere);
    assert_eq!(rt; fit(alloc, &mut session, 7, &rect, RP_HEIGHT), refused);
    assert_eq!(rt;
        fit_anywhere(alloc, &mut session, &rect, RP_HEIGHT),
        refused
    );
    rectangle_pack_session_free(alloc, &mut session);
    Ok(())
}

// What is answered where placements of these numbers are released, and how many are outstanding then.
fn release(alloc: Global, session: &mut RpSession, numbers: &[u64]) -> (u32, usize)
    requires { IsSome session.old.state }
    ensures { IsSome session.new.state }
{
    let status = rectangle_pack_session_release_all(alloc, session, numbers);
    let (_, count, _) = outstanding(alloc, session, 4);
    (status, count)
}

// A strip and a box beside it fill the bin 7. They are released all or none: not where a number
// stands twice, or is not given. Then they are free in the order of the list.
#[test]
fn placements_are_released_together(rt: HostRuntime) -> Result<(), Fail> {
    let alloc = rt.alloc();
    let mut session = RpSession::none(alloc);
    assert!(rt; opens(alloc, &mut session));
    pack(alloc, &mut session, 4);
    let rest = RpBox {
        width: 6,
        ..STRIP_BOX
    };
    let filled = fit(alloc, &mut session, 7, &rest, RP_HEIGHT);
    assert_eq!(rt; filled, (RP_DONE, 1, [7, 4, 0, 0]));
    let answers = [
        release(alloc, &mut session, &[]),
        release(alloc, &mut session, &[1, 0, 1]),
        release(alloc, &mut session, &[1, 2]),
        release(alloc, &mut session, &[1, 0]),
    ];
    let want = [
        (RP_DONE, 2),
        (RP_UNKNOWN_PLACEMENT, 2),
        (RP_UNKNOWN_PLACEMENT, 2),
        (RP_DONE, 0),
    ];
    assert_eq!(rt; answers, want);
    assert_eq!(rt;
        sections(alloc, &mut session, 7, 3),
        (RP_DONE, 2, [REST, STRIP])
    );
    rectangle_pack_session_free(alloc, &mut session);
    Ok(())
}
