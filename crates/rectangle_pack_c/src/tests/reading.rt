//! What C reads of a session, on a few lists. What the calls say of all lists is proved; that they
//! say `RP_DONE` where there is room is seen here.
ghost use Rattle.std.specs.Prelude.{IsSome};

use super::session::{opens, pack};
use crate::handle::RpSession;
use crate::reading::{
    RP_LEAF, RpCutStep, RpSection, rectangle_pack_session_bins, rectangle_pack_session_cut_plan,
    rectangle_pack_session_free_sections, rectangle_pack_session_next_number,
    rectangle_pack_session_was_coalesced,
};
use crate::session::{
    rectangle_pack_session_add_bin, rectangle_pack_session_coalesce, rectangle_pack_session_free,
    rectangle_pack_session_release,
};
use crate::standing::{
    RpStanding, rectangle_pack_session_outstanding, rectangle_pack_session_outstanding_in,
};
use crate::{RP_DONE, RP_SHORT_ARRAY, RP_UNKNOWN_BIN};
use std::alloc::Global;
use std::test::Fail;

pub(super) const UNSET: RpSection = RpSection {
    x: 9,
    y: 9,
    z: 9,
    width: 9,
    height: 9,
    depth: 9,
};

const NOBODY: RpStanding = RpStanding {
    number: 99,
    index: 99,
    bin: 99,
    section: UNSET,
};

pub(super) const NO_STEP: RpCutStep = RpCutStep { axis: 9, place: 9 };

// The numbers of a section: its corner and its sides.
fn numbers(section: &RpSection) -> [u32; 6] {
    [
        section.x,
        section.y,
        section.z,
        section.width,
        section.height,
        section.depth,
    ]
}

// What is answered where the free sections of a bin go to an array of `room` entries, at most
// three: the status, the count, and the first two.
pub(super) fn sections(
    alloc: Global,
    session: &mut RpSession,
    bin: u32,
    room: usize,
) -> (u32, usize, [[u32; 6]; 2])
    requires { IsSome session.old.state }
    ensures { IsSome session.new.state }
{
    let mut told = [UNSET; 3];
    let mut count = 99;
    let array = &mut told[..room.min(3)];
    let status = rectangle_pack_session_free_sections(alloc, session, bin, array, &mut count);
    (status, count, [numbers(&told[0]), numbers(&told[1])])
}

// What is answered where the outstanding placements go to an array of `room` entries, at most two:
// the status, the count, and the first: its number, box and bin, and where it stands.
pub(super) fn outstanding(
    alloc: Global,
    session: &mut RpSession,
    room: usize,
) -> (u32, usize, (u64, [u32; 2], [u32; 6]))
    requires { IsSome session.old.state }
    ensures { IsSome session.new.state }
{
    let mut told = [NOBODY; 2];
    let mut count = 99;
    let array = &mut told[..room.min(2)];
    let status = rectangle_pack_session_outstanding(alloc, session, array, &mut count);
    let first = &told[0];
    let at = [first.index, first.bin];
    (status, count, (first.number, at, numbers(&first.section)))
}

// What is answered where the ids of the bins go to an array of `room` entries, at most two: the
// status, the count, and the two entries.
fn bins(alloc: Global, session: &mut RpSession, room: usize) -> (u32, usize, [u32; 2])
    requires { IsSome session.old.state }
    ensures { IsSome session.new.state }
{
    let mut ids = [99; 2];
    let mut count = 99;
    let array = &mut ids[..room.min(2)];
    let status = rectangle_pack_session_bins(alloc, session, array, &mut count);
    (status, count, ids)
}

// What is answered where the plan of a bin goes to an array of `room` steps, at most four: the
// status, the count, and the axes and places of the first three.
fn plan(
    alloc: Global,
    session: &mut RpSession,
    bin: u32,
    room: usize,
) -> (u32, usize, [[u32; 2]; 3])
    requires { IsSome session.old.state }
    ensures { IsSome session.new.state }
{
    let mut told = [NO_STEP; 4];
    let mut count = 99;
    let array = &mut told[..room.min(4)];
    let status = rectangle_pack_session_cut_plan(alloc, session, bin, array, &mut count);
    let [one, two, three, _] = told;
    let steps = [
        [one.axis, one.place],
        [two.axis, two.place],
        [three.axis, three.place],
    ];
    (status, count, steps)
}

// What is answered where it is asked whether the sections of a bin were joined.
fn was_coalesced(alloc: Global, session: &mut RpSession, bin: u32) -> (u32, u32)
    requires { IsSome session.old.state }
    ensures { IsSome session.new.state }
{
    let mut was = 99;
    let status = rectangle_pack_session_was_coalesced(alloc, session, bin, &mut was);
    (status, was)
}

pub(super) const REST: [u32; 6] = [4, 0, 0, 6, 10, 1];

pub(super) const STRIP: [u32; 6] = [0, 0, 0, 4, 10, 1];

pub(super) const WHOLE: [u32; 6] = [0, 0, 0, 10, 10, 1];

const NINES: [u32; 6] = [9; 6];

// The bin 7 of 10x10x1 takes a box 4x10x1, and what is left is one free section. So one cut parts
// the bin, at x = 4.
#[test]
fn lists_are_read(rt: HostRuntime) -> Result<(), Fail> {
    let alloc = rt.alloc();
    let mut session = RpSession::none(alloc);
    assert!(rt; opens(alloc, &mut session));
    pack(alloc, &mut session, 4);
    let lists = (
        bins(alloc, &mut session, 2),
        sections(alloc, &mut session, 7, 3),
        outstanding(alloc, &mut session, 1),
        plan(alloc, &mut session, 7, 4),
    );
    let want = (
        (RP_DONE, 1, [7, 99]),
        (RP_DONE, 1, [REST, NINES]),
        (RP_DONE, 1, (0, [0, 7], STRIP)),
        (RP_DONE, 3, [[0, 4], [RP_LEAF, 0], [RP_LEAF, 0]]),
    );
    assert_eq!(rt; lists, want);
    rectangle_pack_session_free(alloc, &mut session);
    Ok(())
}

// An array that is too short stays as it is, and how long the list is is told.
#[test]
fn short_arrays_stay(rt: HostRuntime) -> Result<(), Fail> {
    let alloc = rt.alloc();
    let mut session = RpSession::none(alloc);
    assert!(rt; opens(alloc, &mut session));
    pack(alloc, &mut session, 4);
    let lists = (
        bins(alloc, &mut session, 0),
        sections(alloc, &mut session, 7, 0),
        outstanding(alloc, &mut session, 0),
        plan(alloc, &mut session, 7, 2),
    );
    let want = (
        (RP_SHORT_ARRAY, 1, [99, 99]),
        (RP_SHORT_ARRAY, 1, [NINES, NINES]),
        (RP_SHORT_ARRAY, 1, (99, [99, 99], NINES)),
        (RP_SHORT_ARRAY, 3, [[9, 9], [9, 9], [9, 9]]),
    );
    assert_eq!(rt; lists, want);
    rectangle_pack_session_free(alloc, &mut session);
    Ok(())
}

// What is answered where the outstanding placements of a bin go to an array of `room` entries, at
// most two: the status, the count, and of each entry the number, the box and the bin.
fn standing_in(
    alloc: Global,
    session: &mut RpSession,
    bin: u32,
    room: usize,
) -> (u32, usize, [(u64, u32, u32); 2])
    requires { IsSome session.old.state }
    ensures { IsSome session.new.state }
{
    let mut told = [NOBODY; 2];
    let mut count = 99;
    let array = &mut told[..room.min(2)];
    let status = rectangle_pack_session_outstanding_in(alloc, session, bin, array, &mut count);
    let entries = told.map(|one| (one.number, one.index, one.bin));
    (status, count, entries)
}

const NO_ONE: (u64, u32, u32) = (99, 99, 99);

// Strips of the widths 4, 8 and 6 are packed into two sheets. Beside the first there is no room for
// the second, but for the third.
#[test]
fn placements_of_one_bin_are_read(rt: HostRuntime) -> Result<(), Fail> {
    let alloc = rt.alloc();
    let mut session = RpSession::none(alloc);
    assert!(rt; opens(alloc, &mut session));
    let added = rectangle_pack_session_add_bin(alloc, &mut session, 8, 10, 10, 1);
    assert_eq!(rt; added, RP_DONE);
    pack(alloc, &mut session, 4);
    pack(alloc, &mut session, 8);
    pack(alloc, &mut session, 6);
    let (first, third) = ((0, 0, 7), (2, 0, 7));
    let told = [
        standing_in(alloc, &mut session, 7, 2),
        standing_in(alloc, &mut session, 7, 1),
        standing_in(alloc, &mut session, 8, 2),
        standing_in(alloc, &mut session, 9, 2),
    ];
    let want = [
        (RP_DONE, 2, [first, third]),
        (RP_SHORT_ARRAY, 2, [NO_ONE, NO_ONE]),
        (RP_DONE, 1, [(1, 0, 8), NO_ONE]),
        (RP_UNKNOWN_BIN, 99, [NO_ONE, NO_ONE]),
    ];
    assert_eq!(rt; told, want);
    rectangle_pack_session_release(alloc, &mut session, 1);
    let none = standing_in(alloc, &mut session, 8, 0);
    assert_eq!(rt; none, (RP_DONE, 0, [NO_ONE, NO_ONE]));
    rectangle_pack_session_free(alloc, &mut session);
    Ok(())
}

// Of a bin that is not there nothing is told.
#[test]
fn unknown_bins_are_named(rt: HostRuntime) -> Result<(), Fail> {
    let alloc = rt.alloc();
    let mut session = RpSession::none(alloc);
    assert!(rt; opens(alloc, &mut session));
    let told = (
        sections(alloc, &mut session, 8, 3),
        plan(alloc, &mut session, 8, 4),
        was_coalesced(alloc, &mut session, 8),
        rectangle_pack_session_coalesce(alloc, &mut session, 8, 0, 0, 1),
    );
    let want = (
        (RP_UNKNOWN_BIN, 99, [NINES, NINES]),
        (RP_UNKNOWN_BIN, 99, [[9, 9], [9, 9], [9, 9]]),
        (RP_UNKNOWN_BIN, 99),
        RP_UNKNOWN_BIN,
    );
    assert_eq!(rt; told, want);
    rectangle_pack_session_free(alloc, &mut session);
    Ok(())
}

// What is answered where the section 1 of the bin 7 is joined with those from `start` to below 2: the
// status, and the sections afterwards.
fn join(alloc: Global, session: &mut RpSession, start: usize) -> (u32, (u32, usize, [[u32; 6]; 2]))
    requires { IsSome session.old.state }
    ensures { IsSome session.new.state }
{
    let status = rectangle_pack_session_coalesce(alloc, session, 7, 1, start, 2);
    (status, sections(alloc, session, 7, 3))
}

// A strip is packed and released. Its section, the newest, stands beside the other, and joins it only
// where the range has that.
#[test]
fn one_section_is_joined(rt: HostRuntime) -> Result<(), Fail> {
    let alloc = rt.alloc();
    let mut session = RpSession::none(alloc);
    assert!(rt; opens(alloc, &mut session));
    pack(alloc, &mut session, 4);
    let answers = (
        rectangle_pack_session_next_number(alloc, &mut session),
        rectangle_pack_session_release(alloc, &mut session, 0),
        was_coalesced(alloc, &mut session, 7),
        [join(alloc, &mut session, 1), join(alloc, &mut session, 0)],
        was_coalesced(alloc, &mut session, 7),
    );
    let apart = (RP_DONE, 2, [REST, STRIP]);
    let whole = (RP_DONE, 1, [WHOLE, NINES]);
    let want = (
        1,
        RP_DONE,
        (RP_DONE, 0),
        [(RP_DONE, apart), (RP_DONE, whole)],
        (RP_DONE, 1),
    );
    assert_eq!(rt; answers, want);
    rectangle_pack_session_free(alloc, &mut session);
    Ok(())
}
