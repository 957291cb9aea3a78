//! Numbers of placements, up to the last one.

use super::releases::{P, Q};
use super::{BIN, FIRST, Line, Order, Script, State, TILE, come_out};
use rectangle_pack::{Reply, SessionError};
use std::test::Fail;

/// There is no number left.
pub const USED_UP: Reply = Reply::Refused(SessionError::NumbersUsedUp);

// The greatest number is never given.
const LAST_NUMBER: &[Line] = &[
    line!(Order::AddBin(BIN, [8, 8, 1]), Asked => Reply::Done,
        state!([held!(BIN, [[0, 0, 0, 8, 8, 1]]; 64 = 64 + 0; 1 free, 0 placed)], [],
            next u64::MAX - 1)),
    line!(Order::Pack(&[(P, TILE, &[])]), Asked => packed!(u64::MAX - 1, 1), AT_THE_END),
    line!(Order::Pack(&[(Q, TILE, &[])]), NotAsked => USED_UP, AT_THE_END),
    line!(Order::Pack(&[]), NotAsked => packed!(u64::MAX, 0), AT_THE_END),
];

const AT_THE_END: State = state!(
    [held!(BIN, [[0, 4, 0, 8, 4, 1], [4, 0, 0, 4, 4, 1]]; 64 = 48 + 16; 2 free, 1 placed)],
    [(u64::MAX - 1, P, BIN, FIRST)], next u64::MAX);

// That there is a number is asked before a bin is.
const NO_NUMBER: &[Line] = &[
    line!(Order::Pack(&[(P, [1, 1, 1], &[])]), NotAsked => USED_UP,
        state!([], [], next u64::MAX)),
];

fn scripts() -> &'static [Script] {
    const SCRIPTS: &[Script] = &[
        script!(from u64::MAX - 1, LAST_NUMBER, refused 2),
        script!(from u64::MAX, NO_NUMBER, refused 0),
    ];
    SCRIPTS
}

#[test]
fn last_numbers(rt: HostRuntime) -> Result<(), Fail> {
    come_out(&rt, rt.alloc(), scripts())
}
