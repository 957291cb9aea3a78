//! Calls of a session that take no memory, while every request is refused.
ghost use Rattle.std.specs.Prelude.{◌<◌, length};

use super::numbers::USED_UP;
use super::refusals::DUPLICATE;
use super::{Held, Line, Memory, NEW, OTHER, Order, Script, State, TestSession, UNKNOWN, come_out};
use rectangle_pack::Heuristic::{self, Volume, Width};
use rectangle_pack::{Packed, Reply, contains_smallest_box, volume_heuristic};
use std::alloc::Global;
use std::test::Fail;
use tests_support::boxes::Rects;
use tests_support::refusing::Refusing;

// A bin, and a box without cells that is packed into it.
const BIN: Held = Held { id: OTHER, ..NEW };

const PACKED: State = state!([Held { counts: [1, 1], ..BIN }],
    [(0, 5, OTHER, [0, 0, 0, 0, 5, 1])], next 1);

const PACK_EMPTY: Line = line!(Order::Pack(&[(5, [0, 5, 1], &[])]), Asked => packed!(0, 1), PACKED);

const CALLS: &[Line] = &[
    line!(Order::AddBin(OTHER, [10, 10, 1]), Asked => Reply::Done, state!([BIN], [], next 0)),
    PACK_EMPTY,
    line!(Order::AddBin(OTHER, [1, 1, 1]), NotAsked => DUPLICATE, PACKED),
    line!(Order::Pack(&[]), NotAsked => packed!(1, 0), PACKED),
    line!(Order::Release(1), NotAsked => UNKNOWN, PACKED),
    line!(Order::Release(0), NotAsked => Reply::Done, state!([BIN], [], next 1)),
];

// The same packing where numbers are used up.
const PAST_THE_END: &[Line] = &[Line {
    memory: Memory::NotAsked,
    reply: USED_UP,
    after: state!([], [], next u64::MAX),
    ..PACK_EMPTY
}];

const SCRIPTS: &[Script] = &[
    script!(from 0, CALLS, refused 2),
    script!(from u64::MAX, PAST_THE_END, refused 0),
];

#[test]
fn calls_that_take_none(rt: HostRuntime) -> Result<(), Fail> {
    come_out(&rt, rt.alloc(), SCRIPTS)
}

// A session with a bin, and its allocator, which grants no request any more.
fn with_a_bin(alloc: Global) -> Option<(Refusing, TestSession)> {
    for granted in 0..9u64 {
        let refusing = Refusing::new(alloc, granted).ok()?;
        let mut session = TestSession::new(refusing, 7);
        if session.add_bin(OTHER, 10, 10, 1).is_ok() {
            return Some((refusing, session));
        }
    }
    None
}

// What a packing of nothing answers there.
const NOTHING: Packed = Packed { first: 7, count: 0 };

// Whether the best of several packings of nothing is done, and with which heuristic.
fn packs_nothing(alloc: Global, heuristics: &[Heuristic], best: Heuristic) -> bool
    requires { 0 < length heuristics.now }
{
    let Some((refusing, mut session)) = with_a_bin(alloc) else {
        return false;
    };
    let nothing = Rects::new(refusing);
    match session.pack_best(&nothing, heuristics) {
        Ok(answer) => refusing.left() == 0 && answer == (best, NOTHING),
        Err(_) => false,
    }
}

// Whether the same is so of what fits of nothing.
fn fits_nothing(alloc: Global, heuristics: &[Heuristic], best: Heuristic) -> bool
    requires { 0 < length heuristics.now }
{
    let Some((refusing, mut session)) = with_a_bin(alloc) else {
        return false;
    };
    let nothing = Rects::new(refusing);
    match session.pack_fitting_best(&nothing, heuristics) {
        Ok((with, fitted)) => {
            let is_empty = fitted.left.is_empty() && fitted.packed == NOTHING;
            refusing.left() == 0 && with == best && is_empty
        }
        Err(_) => false,
    }
}

#[test]
fn best_packings_of_nothing(rt: HostRuntime) {
    assert!(rt; packs_nothing(rt.alloc(), &[Width], Width));
    assert!(rt; packs_nothing(rt.alloc(), &[Width, Volume], Width));
    assert!(rt; packs_nothing(rt.alloc(), &Heuristic::ALL, Volume));
}

#[test]
fn what_fits_of_nothing(rt: HostRuntime) {
    assert!(rt; fits_nothing(rt.alloc(), &[Width], Width));
    assert!(rt; fits_nothing(rt.alloc(), &[Width, Volume], Width));
    assert!(rt; fits_nothing(rt.alloc(), &Heuristic::ALL, Volume));
}

// Without groups and without steps, whatever is refused.
#[test]
fn fitting_and_told_of_nothing(rt: HostRuntime) {
    let (refusing, mut session) = with_a_bin(rt.alloc()).expect(&rt, "no memory");
    let nothing = Rects::new(refusing);
    match session.pack_fitting(&nothing, &volume_heuristic, &contains_smallest_box) {
        Ok(fitted) => assert!(rt; fitted.left.is_empty() && fitted.packed == NOTHING),
        Err(_) => assert!(rt; false),
    }
    assert!(rt; session.pack_told(&nothing, &[]) == Ok(NOTHING));
    assert!(rt; refusing.left() == 0 && refusing.refused() == 0);
}
