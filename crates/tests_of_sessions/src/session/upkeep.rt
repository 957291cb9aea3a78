//! Bins that are made whole again, and bins that are taken out.

use super::calls::{pack, reply};
use super::releases::{P, Q};
use super::{BIN, Held, NEW, NOWHERE, OTHER, PlacedBox, State, TestSession, is_in, plenty};
use rectangle_pack::{Reply, SessionError};
use std::alloc::Global;
use std::process::Abort;
use std::test::Fail;
use tests_support::boxes::{SizedBox, collect};
use tests_support::refusing::Refusing;

// More requests than any test here makes.
const MOST_REQUESTS: u64 = 100;

// A box that fills the second bin.
const R: u32 = 3;

// Each is packed by a call of its own.
const BOXES: [SizedBox; 3] = [
    (P, [4, 10, 1], &[]),
    (R, [10, 10, 1], &[]),
    (Q, [6, 10, 1], &[]),
];

const FULL: Held = held!(BIN, []; 100 = 0 + 100; 0 free, 2 placed);

const OTHER_FULL: Held = held!(OTHER, []; 100 = 0 + 100; 0 free, 1 placed);

const OTHER_NEW: Held = Held { id: OTHER, ..NEW };

const PLACED_P: PlacedBox = (0, P, BIN, [0, 0, 0, 4, 10, 1]);

const PLACED_R: PlacedBox = (1, R, OTHER, [0, 0, 0, 10, 10, 1]);

const PLACED_Q: PlacedBox = (2, Q, BIN, [4, 0, 0, 6, 10, 1]);

const FILLED: State = state!([FULL, OTHER_FULL], [PLACED_P, PLACED_R, PLACED_Q], next 3);

const CLEARED: State = state!([NEW, OTHER_FULL], [PLACED_R], next 3);

const BOTH_CLEARED: State = state!([NEW, OTHER_NEW], [], next 3);

const NO_BIN: Reply = Reply::Refused(SessionError::UnknownBin);

const IN_USE: Reply = Reply::Refused(SessionError::BinInUse);

// Packs a box alone. Whether it gets this number.
fn packs(session: &mut TestSession, alloc: Refusing, one: SizedBox, number: u64) -> bool {
    match collect(alloc, &[one], &[]) {
        Ok(rects) => pack(session, &rects) == packed!(number, 1),
        Err(_) => false,
    }
}

// A session with two bins that three boxes fill, or none where memory is refused.
fn filled(alloc: Refusing) -> Option<TestSession> {
    let mut session = TestSession::new(alloc, 0);
    let [p, r, q] = BOXES;
    let is_filled = session.add_bin(BIN, 10, 10, 1).is_ok()
        && session.add_bin(OTHER, 10, 10, 1).is_ok()
        && packs(&mut session, alloc, p, 0)
        && packs(&mut session, alloc, r, 1)
        && packs(&mut session, alloc, q, 2);
    if is_filled { Some(session) } else { None }
}

// Clears a bin. Whether it is done, and the session is then in this state.
fn clears(session: &mut TestSession, id: u32, after: &State) -> bool {
    session.clear_bin(&id).is_ok() && is_in(session, after)
}

// Takes a bin out. Whether this is the reply, and the session is then in this state.
fn removes(session: &mut TestSession, id: u32, wanted: Reply, after: &State) -> bool {
    reply(session.remove_bin(&id)) == wanted && is_in(session, after)
}

fn is_cleared(alloc: Refusing) -> bool {
    let Some(mut session) = filled(alloc) else {
        return false;
    };
    is_in(&session, &FILLED)
        && reply(session.clear_bin(&NOWHERE)) == NO_BIN
        && is_in(&session, &FILLED)
        && clears(&mut session, BIN, &CLEARED)
        && clears(&mut session, BIN, &CLEARED)
        && clears(&mut session, OTHER, &BOTH_CLEARED)
        && packs(&mut session, alloc, (P, [10, 10, 1], &[]), 3)
}

#[test]
fn cleared_bins(rt: HostRuntime) {
    let plenty = plenty(&rt, rt.alloc());
    assert!(rt; is_cleared(plenty));
    assert!(rt; plenty.taken() == 0);
}

// The first of the placements was released before.
fn is_cleared_behind(alloc: Refusing) -> bool {
    let Some(mut session) = filled(alloc) else {
        return false;
    };
    let left = held!(BIN, [[0, 0, 0, 4, 10, 1]]; 100 = 40 + 60; 1 free, 1 placed);
    session.release(0).is_ok()
        && session.coalesce_all(&OTHER).is_ok()
        && session.clear_bin(&OTHER).is_ok()
        && session.was_coalesced(&OTHER) == Some(false)
        && session.stats(&BIN) == Some(super::stats_of(&left))
        && super::has_placed(session.outstanding(), &[PLACED_Q])
}

#[test]
fn bins_cleared_behind_a_release(rt: HostRuntime) {
    let plenty = plenty(&rt, rt.alloc());
    assert!(rt; is_cleared_behind(plenty));
    assert!(rt; plenty.taken() == 0);
}

// Whether a bin is cleared where the next request is refused, or the session is as it was.
fn is_right(session: &mut TestSession) -> bool {
    match session.clear_bin(&BIN) {
        Ok(()) => is_in(session, &CLEARED),
        Err(error) => error == SessionError::OutOfMemory && is_in(session, &FILLED),
    }
}

// Fills the bins where `granted` requests are granted, and clears one. Whether they are filled.
fn clears_granted(rt: &impl Abort, alloc: Global, granted: u64) -> Result<bool, Fail> {
    let scarce = Refusing::new(alloc, granted)?;
    let is_filled = match filled(scarce) {
        Some(mut session) => {
            assert!(rt; is_right(&mut session));
            true
        }
        None => false,
    };
    assert!(rt; scarce.taken() == 0);
    Ok(is_filled)
}

// Each request is refused in turn.
#[test]
fn bins_cleared_without_memory(rt: HostRuntime) -> Result<(), Fail> {
    let mut filled = 0usize;
    for granted in 0..MOST_REQUESTS {
        if clears_granted(&rt, rt.alloc(), granted)? {
            filled = filled.wrapping_add(1);
        }
    }
    assert!(rt; filled > 0);
    Ok(())
}

const ONE_LEFT: State = state!([OTHER_FULL], [PLACED_R], next 3);

fn is_removed(alloc: Refusing) -> bool {
    let Some(mut session) = filled(alloc) else {
        return false;
    };
    removes(&mut session, NOWHERE, NO_BIN, &FILLED)
        && removes(&mut session, BIN, IN_USE, &FILLED)
        && clears(&mut session, BIN, &CLEARED)
        && removes(&mut session, BIN, Reply::Done, &ONE_LEFT)
        && removes(&mut session, BIN, NO_BIN, &ONE_LEFT)
        && reply(session.clear_bin(&BIN)) == NO_BIN
        && session.add_bin(BIN, 10, 10, 1).is_ok()
        && is_in(&session, &CLEARED)
}

#[test]
fn removed_bins(rt: HostRuntime) {
    let plenty = plenty(&rt, rt.alloc());
    assert!(rt; is_removed(plenty));
    assert!(rt; plenty.taken() == 0);
}
