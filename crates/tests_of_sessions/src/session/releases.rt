//! Placements that are released by their numbers, and what is joined then.

use super::{
    ADD_BIN, BIN, Held, Line, NEW, OTHER, Order, PlacedBox, Script, State, UNKNOWN, come_out,
};
use rectangle_pack::{Reply, SessionError};
use std::test::Fail;

const NO_BIN: Reply = Reply::Refused(SessionError::UnknownBin);

/// Two boxes that fill the bin.
pub const P: u32 = 1;

/// The second of them.
pub const Q: u32 = 2;

const PLACED_P: PlacedBox = (0, P, BIN, [0, 0, 0, 4, 10, 1]);

const PLACED_Q: PlacedBox = (1, Q, BIN, [4, 0, 0, 6, 10, 1]);

/// Packs the first box.
pub const PACK_P: Line = line!(Order::Pack(&[(P, [4, 10, 1], &[])]), Asked => packed!(0, 1),
    P_PLACED);

/// The bin once the first box is placed.
pub const P_PLACED: State = state!(
    [held!(BIN, [[4, 0, 0, 6, 10, 1]]; 100 = 60 + 40; 1 free, 1 placed)],
    [PLACED_P], next 1);

const PACK_Q: Line = line!(Order::Pack(&[(Q, [6, 10, 1], &[])]), Asked => packed!(1, 1),
    BOTH_PLACED);

/// The bin once both boxes are placed.
pub const BOTH_PLACED: State = state!([FULL], [PLACED_P, PLACED_Q], next 2);

const FULL: Held = held!(BIN, []; 100 = 0 + 100; 0 free, 2 placed);

const RELEASE_P: Line = line!(Order::Release(0), Either => Reply::Done, P_RELEASED);

/// The bin once the first box is released.
pub const P_RELEASED: State = state!(
    [held!(BIN, [[0, 0, 0, 4, 10, 1]]; 100 = 40 + 60; 1 free, 1 placed)],
    [PLACED_Q], next 2);

const RELEASE_Q: Line = line!(Order::Release(1), Either => Reply::Done, BOTH_RELEASED);

const TWO_FREE: Held = held!(BIN, [[0, 0, 0, 4, 10, 1], [4, 0, 0, 6, 10, 1]]; 100 = 100 + 0;
    2 free, 0 placed);

/// The bin once both boxes are released.
pub const BOTH_RELEASED: State = state!([TWO_FREE], [], next 2);

/// The bin once its two free sections are joined.
pub const JOINED: State = state!([Held { coalesced: true, ..NEW }], [], next 2);

/// The same two sections, after a call that was accepted and joined nothing.
pub const NOT_JOINED: State = state!([Held { coalesced: true, ..TWO_FREE }], [], next 2);

// A bin that two boxes fill, and that is free again once both are released and the two sections are
// joined. A released number is unknown.
const TWO_RELEASES: &[Line] = &[
    ADD_BIN,
    PACK_P,
    PACK_Q,
    RELEASE_P,
    RELEASE_Q,
    JOIN,
    line!(Order::Release(0), NotAsked => UNKNOWN, JOINED),
];

// An index past the end and an empty range join nothing.
const NOTHING_JOINED: &[Line] = &[
    ADD_BIN,
    PACK_P,
    PACK_Q,
    RELEASE_P,
    RELEASE_Q,
    line!(Order::Coalesce(BIN, 2, 0, 2), NotAsked => Reply::Done, NOT_JOINED),
    line!(Order::Coalesce(BIN, 1, 1, 0), NotAsked => Reply::Done, NOT_JOINED),
    line!(Order::Coalesce(OTHER, 0, 0, 2), NotAsked => NO_BIN, NOT_JOINED),
    JOIN,
];

const JOIN: Line = line!(Order::Coalesce(BIN, 1, 0, 2), NotAsked => Reply::Done, JOINED);

const JOIN_NOTHING: Line = line!(Order::Coalesce(OTHER, 1, 0, 2), NotAsked => NO_BIN,
    BOTH_RELEASED);

const SWEEP_NOTHING: Line = line!(Order::CoalesceAll(OTHER), NotAsked => NO_BIN, BOTH_RELEASED);

const SWEEP: Line = line!(Order::CoalesceAll(BIN), NotAsked => Reply::Done, JOINED);

// A bin that is not there is refused, and both halves of the other are joined by the last line.
macro_rules! halves {
    ($last:expr) => {
        &[ADD_BIN, PACK_P, PACK_Q, RELEASE_P, RELEASE_Q, JOIN_NOTHING, SWEEP_NOTHING, $last]
    };
}

const HALVES_JOINED: &[Line] = halves!(JOIN);

const HALVES_SWEPT: &[Line] = halves!(SWEEP);

// Both boxes by one packing, the larger one first.
const SWEPT: &[Line] = &[
    ADD_BIN,
    line!(Order::Pack(&[(P, [4, 10, 1], &[]), (Q, [6, 10, 1], &[])]), Asked => packed!(0, 2),
        state!([FULL], [(0, Q, BIN, [0, 0, 0, 6, 10, 1]), (1, P, BIN, [6, 0, 0, 4, 10, 1])],
            next 2)),
    line!(Order::Release(1), Either => Reply::Done,
        state!([held!(BIN, [[6, 0, 0, 4, 10, 1]]; 100 = 40 + 60; 1 free, 1 placed)],
            [(0, Q, BIN, [0, 0, 0, 6, 10, 1])], next 2)),
    line!(Order::Release(0), Either => Reply::Done, BACKWARDS),
    Line {
        after: BACKWARDS,
        ..SWEEP_NOTHING
    },
    SWEEP,
];

const BACKWARDS: State = state!(
    [held!(BIN, [[6, 0, 0, 4, 10, 1], [0, 0, 0, 6, 10, 1]]; 100 = 100 + 0; 2 free, 0 placed)],
    [], next 2);

// A box without cells takes no section, and gives none back; it is counted.
const EMPTY_BOX: &[Line] = &[
    ADD_BIN,
    line!(Order::Pack(&[(P, [0, 5, 1], &[])]), Asked => packed!(0, 1),
        state!([held!(BIN, [[0, 0, 0, 10, 10, 1]]; 100 = 100 + 0; 1 free, 1 placed)],
            [(0, P, BIN, [0, 0, 0, 0, 5, 1])], next 1)),
    line!(Order::Release(0), NotAsked => Reply::Done, state!([NEW], [], next 1)),
];

fn two_releases() -> &'static [Script] {
    const SCRIPTS: &[Script] = &[script!(from 0, TWO_RELEASES, refused 3)];
    SCRIPTS
}

fn halves() -> &'static [Script] {
    const HALVES: &[Script] = &[
        script!(from 0, NOTHING_JOINED, refused 3),
        script!(from 0, HALVES_JOINED, refused 3),
        script!(from 0, HALVES_SWEPT, refused 3),
    ];
    HALVES
}

fn others() -> &'static [Script] {
    const OTHERS: &[Script] = &[
        script!(from 0, SWEPT, refused 2),
        script!(from 0, EMPTY_BOX, refused 2),
    ];
    OTHERS
}

#[test]
fn two_boxes_that_fill_a_bin(rt: HostRuntime) -> Result<(), Fail> {
    come_out(&rt, rt.alloc(), two_releases())
}

#[test]
fn joins_of_two_halves(rt: HostRuntime) -> Result<(), Fail> {
    come_out(&rt, rt.alloc(), halves())
}

#[test]
fn sweeps_and_an_empty_box(rt: HostRuntime) -> Result<(), Fail> {
    come_out(&rt, rt.alloc(), others())
}
