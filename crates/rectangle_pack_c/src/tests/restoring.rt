//! Sessions of saved parts, on a few boxes. What the calls say of all parts is proved; that they say
//! `RP_DONE` of those of a session, and name what is wrong, is seen here.
ghost use Rattle.std.specs.Prelude.{◌≡◌, None, IsSome};

use super::SHEET;
use super::reading::{REST, STRIP, outstanding, sections};
use super::session::{opens, pack};
use crate::handle::RpSession;
use crate::reading::{
    RpSection, rectangle_pack_session_bin_size, rectangle_pack_session_free_sections,
    rectangle_pack_session_next_number,
};
use crate::restoring::{
    RP_WRONG_CELL_IN_NONE, RP_WRONG_CUTS, RP_WRONG_IDS, RP_WRONG_NEXT, RP_WRONG_NUMBER,
    RP_WRONG_OUTSIDE, RP_WRONG_SECTIONS, RP_WRONG_SHARED_CELL, RP_WRONG_UNKNOWN_BIN, RpSaved,
    RpSavedBin, RpWrong, rectangle_pack_session_restore,
};
use crate::session::rectangle_pack_session_free;
use crate::standing::{RpStanding, rectangle_pack_session_outstanding};
use crate::{RP_DONE, RP_UNKNOWN_BIN, RP_WRONG_PARTS, RpBin};
use std::alloc::Global;
use std::test::Fail;

pub(super) const NOTHING: RpWrong = RpWrong {
    kind: 9,
    bin: 9,
    first: 9,
    second: 9,
};

// The bin 7 has one free section, right of a strip, which got the number 2.
const BIN: RpSavedBin = RpSavedBin {
    id: 7,
    size: SHEET,
    coalesced: 0,
    section_count: 1,
};

const FREE: RpSection = RpSection {
    x: 4,
    y: 0,
    z: 0,
    width: 6,
    height: 10,
    depth: 1,
};

const PLACED: RpStanding = RpStanding {
    number: 2,
    index: 5,
    bin: 7,
    section: RpSection {
        x: 0,
        width: 4,
        ..FREE
    },
};

// A section that is one cell deep.
pub(super) fn section_at(x: u32, y: u32, width: u32, height: u32) -> RpSection {
    RpSection {
        x,
        y,
        z: 0,
        width,
        height,
        depth: 1,
    }
}

// What is answered to parts whose next number is 3: the status, and what is wrong.
fn restore(
    alloc: Global,
    session: &mut RpSession,
    bins: &[RpSavedBin],
    sections: &[RpSection],
    placements: &[RpStanding],
) -> (u32, u32, [usize; 3])
    requires { session.old.state ≡ None }
    ensures { result.0 ≡ RP_DONE → IsSome session.new.state }
{
    let saved = RpSaved {
        bins,
        sections,
        placements,
        next_number: 3,
    };
    let mut wrong = NOTHING;
    let status = rectangle_pack_session_restore(alloc, session, &saved, &mut wrong);
    (status, wrong.kind, [wrong.bin, wrong.first, wrong.second])
}

// The size of a bin, where it is there.
fn size(alloc: Global, session: &mut RpSession, bin: u32) -> (u32, [u32; 3])
    requires { IsSome session.old.state }
    ensures { IsSome session.new.state }
{
    let mut told = RpBin {
        width: 99,
        height: 99,
        depth: 99,
    };
    let status = rectangle_pack_session_bin_size(alloc, session, bin, &mut told);
    (status, [told.width, told.height, told.depth])
}

// What is saved is read again, and the session goes on with its next number.
#[test]
fn parts_make_a_session(rt: HostRuntime) -> Result<(), Fail> {
    let alloc = rt.alloc();
    let mut session = RpSession::none(alloc);
    let (status, kind, at) = restore(
        alloc,
        &mut session,
        [BIN].as_slice(),
        [FREE].as_slice(),
        [PLACED].as_slice(),
    );
    assert!(rt; status == RP_DONE);
    assert_eq!(rt; (kind, at), (9, [9, 9, 9]));
    let told = (
        sections(alloc, &mut session, 7, 1),
        outstanding(alloc, &mut session, 1),
        [size(alloc, &mut session, 7), size(alloc, &mut session, 8)],
        pack(alloc, &mut session, 6),
    );
    let want = (
        (RP_DONE, 1, [REST, [9; 6]]),
        (RP_DONE, 1, (2, [5, 7], STRIP)),
        [(RP_DONE, [10, 10, 1]), (RP_UNKNOWN_BIN, [99, 99, 99])],
        (RP_DONE, 3, [7, 4, 0, 0]),
    );
    assert_eq!(rt; told, want);
    rectangle_pack_session_free(alloc, &mut session);
    Ok(())
}

// What is answered to these parts, where they are wrong: what is wrong with them.
fn wrong(
    alloc: Global,
    bins: &[RpSavedBin],
    sections: &[RpSection],
    placements: &[RpStanding],
) -> (u32, u32, [usize; 3]) {
    let mut session = RpSession::none(alloc);
    restore(alloc, &mut session, bins, sections, placements)
}

// The counts, the ids, the number, the next number and the bin.
#[test]
fn lists_that_are_wrong(rt: HostRuntime) -> Result<(), Fail> {
    let alloc = rt.alloc();
    let none: &[RpStanding] = &[];
    let two = [PLACED, PLACED];
    let high = [RpStanding {
        number: 3,
        ..PLACED
    }];
    let lost = [RpStanding { bin: 8, ..PLACED }];
    let answers = [
        wrong(alloc, [BIN].as_slice(), &[], none),
        wrong(alloc, [BIN, BIN].as_slice(), [FREE, FREE].as_slice(), none),
        wrong(alloc, [BIN].as_slice(), [FREE].as_slice(), two.as_slice()),
        wrong(alloc, [BIN].as_slice(), [FREE].as_slice(), high.as_slice()),
        wrong(alloc, [BIN].as_slice(), [FREE].as_slice(), lost.as_slice()),
    ];
    let want = [
        (RP_WRONG_PARTS, RP_WRONG_SECTIONS, [0, 0, 0]),
        (RP_WRONG_PARTS, RP_WRONG_IDS, [1, 0, 0]),
        (RP_WRONG_PARTS, RP_WRONG_NUMBER, [0, 1, 0]),
        (RP_WRONG_PARTS, RP_WRONG_NEXT, [0, 0, 0]),
        (RP_WRONG_PARTS, RP_WRONG_UNKNOWN_BIN, [0, 0, 0]),
    ];
    assert_eq!(rt; answers, want);
    Ok(())
}

// A free section and a strip in the bin 7, behind a bin without cells: what is wrong with them.
fn wrong_beside(alloc: Global, free: RpSection) -> (u32, u32, [usize; 3]) {
    let none = RpBin { width: 0, ..SHEET };
    let empty = RpSavedBin {
        id: 6,
        size: none,
        coalesced: 1,
        section_count: 0,
    };
    let bins = [empty, BIN];
    wrong(
        alloc,
        bins.as_slice(),
        [free].as_slice(),
        [PLACED].as_slice(),
    )
}

#[test]
fn boxes_that_are_wrong(rt: HostRuntime) -> Result<(), Fail> {
    let alloc = rt.alloc();
    let answers = [
        wrong_beside(alloc, section_at(4, 1, 6, 10)),
        wrong_beside(alloc, section_at(3, 0, 6, 10)),
        wrong_beside(alloc, section_at(5, 0, 5, 10)),
    ];
    let want = [
        (RP_WRONG_PARTS, RP_WRONG_OUTSIDE, [1, 0, 0]),
        (RP_WRONG_PARTS, RP_WRONG_SHARED_CELL, [1, 0, 1]),
        (RP_WRONG_PARTS, RP_WRONG_CELL_IN_NONE, [1, 0, 0]),
    ];
    assert_eq!(rt; answers, want);
    Ok(())
}

// Four strips round a square: what is answered where the bin counts as coalesced, and where it does
// not.
fn pinwheel(alloc: Global, session: &mut RpSession, coalesced: u32) -> (u32, u32, [usize; 3])
    requires { session.old.state ≡ None }
    ensures { result.0 ≡ RP_DONE → IsSome session.new.state }
{
    let bin = RpSavedBin {
        coalesced,
        section_count: 5,
        ..BIN
    };
    let strips = [
        section_at(0, 0, 9, 1),
        section_at(9, 0, 1, 9),
        section_at(1, 9, 9, 1),
        section_at(0, 1, 1, 9),
        section_at(1, 1, 8, 8),
    ];
    restore(alloc, session, [bin].as_slice(), strips.as_slice(), &[])
}

#[test]
fn pinwheels_are_from_joins(rt: HostRuntime) -> Result<(), Fail> {
    let alloc = rt.alloc();
    let mut session = RpSession::none(alloc);
    let refused = pinwheel(alloc, &mut session, 0);
    let mut session = RpSession::none(alloc);
    let (made, _, _) = pinwheel(alloc, &mut session, 1);
    assert_eq!(rt; refused, (RP_WRONG_PARTS, RP_WRONG_CUTS, [0, 0, 0]));
    assert!(rt; made == RP_DONE);
    rectangle_pack_session_free(alloc, &mut session);
    Ok(())
}

// The parts of a session with one bin, one free section and one placement, as the calls tell them,
// make it again: whether that is done.
fn again(alloc: Global, session: &mut RpSession, made: &mut RpSession) -> u32
    requires old { IsSome session.old.state }
    requires new { made.old.state ≡ None }
    ensures old { IsSome session.new.state }
    ensures new { result ≡ RP_DONE → IsSome made.new.state }
{
    let (mut free, mut placed) = ([FREE], [PLACED]);
    let (mut size, mut count) = (SHEET, 0);
    rectangle_pack_session_bin_size(alloc, session, 7, &mut size);
    rectangle_pack_session_free_sections(alloc, session, 7, &mut free, &mut count);
    rectangle_pack_session_outstanding(alloc, session, &mut placed, &mut count);
    let bins = [RpSavedBin { size, ..BIN }];
    let saved = RpSaved {
        bins: bins.as_slice(),
        sections: free.as_slice(),
        placements: placed.as_slice(),
        next_number: rectangle_pack_session_next_number(alloc, session),
    };
    rectangle_pack_session_restore(alloc, made, &saved, &mut NOTHING)
}

#[test]
fn a_session_is_made_again(rt: HostRuntime) -> Result<(), Fail> {
    let alloc = rt.alloc();
    let mut session = RpSession::none(alloc);
    assert!(rt; opens(alloc, &mut session));
    pack(alloc, &mut session, 7);
    let mut made = RpSession::none(alloc);
    assert!(rt; again(alloc, &mut session, &mut made) == RP_DONE);
    let told = [
        outstanding(alloc, &mut session, 1),
        outstanding(alloc, &mut made, 1),
    ];
    assert_eq!(rt; told, [(RP_DONE, 1, (0, [0, 7], [0, 0, 0, 7, 10, 1])); 2]);
    rectangle_pack_session_free(alloc, &mut session);
    rectangle_pack_session_free(alloc, &mut made);
    Ok(())
}
