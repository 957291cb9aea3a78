//! A session for C, from its first bin to its end, and each of its refusals. What the calls say of
//! all sessions is proved; that they say `RP_DONE` where there is room is seen here.
ghost use Rattle.std.specs.Prelude.{◌≡◌, None, IsSome, true};

use super::{NOWHERE, SHEET, STRIP, place};
use crate::handle::RpSession;
use crate::session::{
    RpOutstanding, RpStats, RpVolume, rectangle_pack_session_add_bin,
    rectangle_pack_session_coalesce_all, rectangle_pack_session_free, rectangle_pack_session_new,
    rectangle_pack_session_pack, rectangle_pack_session_release, rectangle_pack_session_stats,
};
use crate::{
    RP_BAD_LENGTHS, RP_DONE, RP_DUPLICATE_BIN, RP_NOT_ENOUGH_SPACE, RP_UNKNOWN_BIN,
    RP_UNKNOWN_PLACEMENT, RpBox,
};
use std::alloc::Global;
use std::test::Fail;

pub(super) const UNSET: RpOutstanding = RpOutstanding {
    number: 99,
    placement: NOWHERE,
};

const NONE: RpVolume = RpVolume { low: 9, high: 9 };

const NO_STATS: RpStats = RpStats {
    bin_volume: NONE,
    free_volume: NONE,
    placed_volume: NONE,
    free_sections: 99,
    placements: 99,
};

// Makes the session, and adds the bin 7, a sheet: whether both are done.
pub(super) fn opens(alloc: Global, session: &mut RpSession) -> bool
    requires { session.old.state ≡ None }
    ensures { result ≡ true → IsSome session.new.state }
{
    let (w, h, d) = (SHEET.width, SHEET.height, SHEET.depth);
    rectangle_pack_session_new(alloc, session) == RP_DONE
        && rectangle_pack_session_add_bin(alloc, session, 7, w, h, d) == RP_DONE
}

// What is answered to a box that is so wide: the status, the number and where the box is.
pub(super) fn pack(alloc: Global, session: &mut RpSession, width: u32) -> (u32, u64, [u32; 4])
    requires { IsSome session.old.state }
    ensures { IsSome session.new.state }
{
    let boxes = [RpBox { width, ..STRIP }];
    let mut placements = [UNSET];
    let status = rectangle_pack_session_pack(
        alloc,
        session,
        boxes.as_slice(),
        placements.as_mut_slice(),
    );
    let RpOutstanding { number, placement } = placements[0];
    (status, number, place(&placement))
}

// What is answered about a bin: the status; the volumes of the bin, of what is free and of what is
// placed, and the high bits of the first; how many free sections and placements there are.
fn stats(alloc: Global, session: &mut RpSession, bin: u32) -> (u32, [u64; 4], [usize; 2])
    requires { IsSome session.old.state }
    ensures { IsSome session.new.state }
{
    let mut told = NO_STATS;
    let status = rectangle_pack_session_stats(alloc, session, bin, &mut told);
    let volumes = [
        told.bin_volume.low,
        told.free_volume.low,
        told.placed_volume.low,
        told.bin_volume.high,
    ];
    (status, volumes, [told.free_sections, told.placements])
}

// What is answered where the placement 0 is released and the sections of a bin are joined.
pub(super) fn release_and_join(alloc: Global, session: &mut RpSession, bin: u32) -> [u32; 2]
    requires { IsSome session.old.state }
    ensures { IsSome session.new.state }
{
    [
        rectangle_pack_session_release(alloc, session, 0),
        rectangle_pack_session_coalesce_all(alloc, session, bin),
    ]
}

// The bin 7 of 10x10x1 takes a box 4x10x1 at its corner, as number 0. It is released, the sections
// are joined, and all of the bin is free in one section.
#[test]
fn a_box_is_packed_and_released(rt: HostRuntime) -> Result<(), Fail> {
    let alloc = rt.alloc();
    let mut session = RpSession::none(alloc);
    assert!(rt; opens(alloc, &mut session));
    let answers = (
        pack(alloc, &mut session, 4),
        stats(alloc, &mut session, 7),
        release_and_join(alloc, &mut session, 7),
        stats(alloc, &mut session, 7),
    );
    let want = (
        (RP_DONE, 0, [7, 0, 0, 0]),
        (RP_DONE, [100, 60, 40, 0], [1, 1]),
        [RP_DONE, RP_DONE],
        (RP_DONE, [100, 100, 0, 0], [1, 0]),
    );
    assert_eq!(rt; answers, want);
    rectangle_pack_session_free(alloc, &mut session);
    Ok(())
}

// What is answered to a second bin 7, and to two boxes and one placement, which stays as it is.
fn add_again_and_pack_short(alloc: Global, session: &mut RpSession) -> ([u32; 2], u64, [u32; 4])
    requires { IsSome session.old.state }
    ensures { IsSome session.new.state }
{
    let again = rectangle_pack_session_add_bin(alloc, session, 7, 1, 1, 1);
    let mut placements = [UNSET];
    let short = rectangle_pack_session_pack(
        alloc,
        session,
        [STRIP, STRIP].as_slice(),
        placements.as_mut_slice(),
    );
    let RpOutstanding { number, placement } = placements[0];
    ([again, short], number, place(&placement))
}

// What is refused writes nothing, and the session goes on.
#[test]
fn refusals_are_named(rt: HostRuntime) -> Result<(), Fail> {
    let alloc = rt.alloc();
    let mut session = RpSession::none(alloc);
    assert!(rt; opens(alloc, &mut session));
    let refused = (
        pack(alloc, &mut session, 11),
        add_again_and_pack_short(alloc, &mut session),
        release_and_join(alloc, &mut session, 8),
        stats(alloc, &mut session, 8),
    );
    let want = (
        (RP_NOT_ENOUGH_SPACE, 99, [9, 9, 9, 9]),
        ([RP_DUPLICATE_BIN, RP_BAD_LENGTHS], 99, [9, 9, 9, 9]),
        [RP_UNKNOWN_PLACEMENT, RP_UNKNOWN_BIN],
        (RP_UNKNOWN_BIN, [9, 9, 9, 9], [99, 99]),
    );
    assert_eq!(rt; refused, want);
    rectangle_pack_session_free(alloc, &mut session);
    Ok(())
}

// Takes only what may go to another thread.
pub(super) fn sent<T: Send>(value: T) -> T
    ensures { result ≡ value }
{
    value
}

// `Send` is proved of the handle's type, so that a session may go from thread to thread.
#[test]
fn a_handle_is_sent(rt: HostRuntime) -> Result<(), Fail> {
    let alloc = rt.alloc();
    let mut made = RpSession::none(alloc);
    assert!(rt; opens(alloc, &mut made));
    let mut session = sent(made);
    let packed = pack(alloc, &mut session, 4);
    assert_eq!(rt; packed, (RP_DONE, 0, [7, 0, 0, 0]));
    rectangle_pack_session_free(alloc, &mut session);
    Ok(())
}
