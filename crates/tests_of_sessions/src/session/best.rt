//! `Session::pack_best`.

use super::TestSession;
use rectangle_pack::{Heuristic, Outstanding, Packed, SessionError};
use std::process::Abort;
use std::test::Fail;
use tests_support::best_cases::{BIN, Case, Placed, cases, is_placed};
use tests_support::boxes::{Rects, collect};
use tests_support::each_request::{End, is_refused};
use tests_support::refusing::Refusing;
use tests_support::shapes::are_new;

/// The number of the first placement.
pub const FIRST: u64 = 5;

fn add_bins(session: &mut TestSession) -> Result<(), SessionError> {
    let [width, height, depth] = BIN;
    for id in 0..2 {
        session.add_bin(id, width, height, depth)?;
    }
    Ok(())
}

/// Whether nothing was placed in the session yet.
pub fn is_unused(session: &TestSession) -> bool {
    session.next_number() == FIRST && session.outstanding().is_empty() && are_new(session.bins())
}

fn is_best_placed(placed: &Outstanding<u32, u32>, wanted: &Placed) -> bool {
    is_placed(placed.id, placed.bin, &placed.location, wanted)
}

/// Whether these are the placements, under the next numbers.
pub fn are_placed(outstanding: &[Outstanding<u32, u32>], wanted: &[Placed]) -> bool {
    let mut found = outstanding.iter();
    let mut number = FIRST;
    for row in wanted {
        match found.next() {
            Some(placed) if placed.number == number && is_best_placed(placed, row) => {
                number = number.wrapping_add(1);
            }
            _ => return false,
        }
    }
    found.next().is_none()
}

// Whether the answer names the best heuristic of the case and the numbers of its placements, which
// are these.
fn is_best(
    answer: (Heuristic, Packed),
    outstanding: &[Outstanding<u32, u32>],
    case: &Case,
) -> bool {
    let numbers = Packed {
        first: FIRST,
        count: outstanding.len() as u64,
    };
    match case.best {
        Some((best, wanted)) => answer == (best, numbers) && are_placed(outstanding, wanted),
        None => false,
    }
}

// Whether the answer is that of the case. Where it is a refusal the session is as it was.
fn is_right(
    answer: Result<(Heuristic, Packed), SessionError>,
    session: &TestSession,
    case: &Case,
) -> bool {
    match answer {
        Ok(answer) => is_best(answer, session.outstanding(), case),
        Err(SessionError::NotEnoughBinSpace) => case.best.is_none() && is_unused(session),
        Err(error) => error == SessionError::OutOfMemory && is_unused(session),
    }
}

fn packs_into(rt: &impl Abort, session: &mut TestSession, rects: &Rects, case: &Case) -> End {
    assert!(rt; !case.heuristics.is_empty());
    let answer = session.pack_best(rects, case.heuristics);
    assert!(rt; is_right(answer, session, case));
    match answer {
        Err(SessionError::OutOfMemory) => End::Refused,
        _ => End::Done,
    }
}

// Packs the boxes of the case.
fn packs(rt: &impl Abort, alloc: Refusing, case: &Case) -> End {
    let mut session = TestSession::new(alloc, FIRST);
    if add_bins(&mut session).is_err() {
        return End::Before;
    }
    match collect(alloc, case.boxes, &[]) {
        Ok(rects) => packs_into(rt, &mut session, &rects, case),
        Err(_) => End::Before,
    }
}

#[test]
fn into_sessions(rt: HostRuntime) -> Result<(), Fail> {
    for case in cases() {
        let refused = is_refused(rt.alloc(), |refusing| Ok(packs(&rt, refusing, case)))?;
        assert!(rt; refused == case.takes_memory);
    }
    Ok(())
}

// Numbers are looked at before anything is tried, and no memory is asked for.
#[test]
fn past_the_last_number(rt: HostRuntime) {
    let plenty = Refusing::new(rt.alloc(), 100).expect(&rt, "no memory for the counts");
    let rects = collect(plenty, &[(1, [1, 1, 1], &[])], &[]).expect(&rt, "no memory");
    let mut session = TestSession::new(plenty, u64::MAX);
    let left = plenty.left();
    let answer = session.pack_best(&rects, &Heuristic::ALL);
    assert!(rt; matches!(answer, Err(SessionError::NumbersUsedUp)) && plenty.left() == left);
}
