//! Commands that a session refuses, which change nothing.

use super::releases::{P_PLACED, PACK_P};
use super::{
    ADD_BIN, BIN, FIRST, Line, ONE_NEW_BIN, Order, Script, State, TILE, UNKNOWN, come_out,
};
use rectangle_pack::{Group, Reply, SessionError};
use std::io;
use std::test::Fail;
use tests_support::boxes::GroupName;

const NO_SPACE: Reply = Reply::Refused(SessionError::NotEnoughBinSpace);

/// The bin is there already.
pub const DUPLICATE: Reply = Reply::Refused(SessionError::DuplicateBin);

// What is refused is replied in its place, and the commands after it are done.
const REFUSALS: &[Line] = &[
    ADD_TILE,
    line!(Order::AddBin(BIN, [1, 1, 1]), NotAsked => DUPLICATE, NEW_TILE),
    line!(Order::Release(5), NotAsked => UNKNOWN, NEW_TILE),
    line!(Order::Pack(&[]), NotAsked => packed!(0, 0), NEW_TILE),
];

// A bin that one tile fills.
const ADD_TILE: Line = line!(Order::AddBin(BIN, TILE), Asked => Reply::Done, NEW_TILE);

const NEW_TILE: State = state!([held!(BIN, [FIRST]; 16 = 16 + 0; 1 free, 0 placed)], [], next 0);

// The first box would fill the bin, the second is refused, and neither stays.
const UNDONE: &[Line] = &[
    ADD_TILE,
    line!(Order::Pack(&[(1, TILE, &[]), (2, [2, 2, 1], &[])]), Either => NO_SPACE, NEW_TILE),
];

// A box alone and a group that are excluded, and one bin.
const EXCLUDED: &[Line] = &[
    ADD_BIN,
    line!(Order::PackApart(&[(1, TILE, &[]), (2, TILE, &[0])], &[(Group::Ungrouped(1), A)]),
        Either => NO_SPACE, ONE_NEW_BIN),
];

const A: GroupName = Group::Grouped(0);

const B: GroupName = Group::Grouped(1);

// Groups of different packings do not exclude each other.
const EXCLUDED_BEFORE: &[Line] = &[
    ADD_BIN,
    line!(Order::PackApart(&[(1, TILE, &[0])], &[(A, B)]), Asked => packed!(0, 1),
        state!([held!(BIN, [[0, 4, 0, 10, 6, 1], [4, 0, 0, 6, 4, 1]]; 100 = 84 + 16;
                    2 free, 1 placed)],
            [(0, 1, BIN, FIRST)], next 1)),
    line!(Order::PackApart(&[(2, TILE, &[1])], &[(A, B)]), Asked => packed!(1, 1),
        state!([held!(BIN, [[0, 4, 0, 10, 6, 1], [8, 0, 0, 2, 4, 1]]; 100 = 68 + 32;
                    2 free, 2 placed)],
            [(0, 1, BIN, FIRST), (1, 2, BIN, [4, 0, 0, 4, 4, 1])], next 2)),
];

// A bin that is there keeps its size, its sections and what stands in it.
const BIN_IN_USE: &[Line] = &[
    ADD_BIN,
    PACK_P,
    line!(Order::AddBin(BIN, [10, 10, 1]), NotAsked => DUPLICATE, P_PLACED),
    // There is no room for this one beside the other.
    line!(Order::Pack(&[(2, [7, 10, 1], &[])]), Either => NO_SPACE, P_PLACED),
];

fn refused() -> &'static [Script] {
    const REFUSED: &[Script] = &[
        script!(from 0, REFUSALS, refused 1),
        script!(from 0, UNDONE, refused 1),
    ];
    REFUSED
}

fn in_use() -> &'static [Script] {
    const IN_USE: &[Script] = &[script!(from 0, BIN_IN_USE, refused 2)];
    IN_USE
}

fn apart() -> &'static [Script] {
    const APART: &[Script] = &[
        script!(from 0, EXCLUDED, refused 1),
        script!(from 0, EXCLUDED_BEFORE, refused 3),
    ];
    APART
}

#[test]
fn refusals(rt: HostRuntime) -> Result<(), Fail> {
    come_out(&rt, rt.alloc(), refused())?;
    come_out(&rt, rt.alloc(), in_use())?;
    come_out(&rt, rt.alloc(), apart())
}

const ERRORS: &[(SessionError, &str)] = &[
    (SessionError::DuplicateBin, "The bin is there already."),
    (
        SessionError::BinInUse,
        "Placements are outstanding in the bin.",
    ),
    (
        SessionError::TooLarge,
        "A side of the bin would exceed the greatest number of 32 bits.",
    ),
    (
        SessionError::NotFree,
        "No free section holds the box there.",
    ),
    (
        SessionError::NotFromCuts,
        "No straight cuts part the boxes that stand in the bin.",
    ),
    (SessionError::OutOfMemory, "Out of memory."),
];

// As an error of input and output a refusal keeps its text.
#[test]
fn texts_of_io_errors(rt: HostRuntime) -> Result<(), Fail> {
    let alloc = rt.alloc();
    for (error, text) in ERRORS {
        let error = io::Error::from(*error);
        assert!(rt; format!(in alloc; "{error}")?.as_str() == *text);
    }
    Ok(())
}
