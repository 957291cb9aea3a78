//! `Session::restore`, `Session::into_parts` and `bin_of_free_sections`.

use super::{TestSession, plenty};
use rectangle_pack::{
    BinFault, Outstanding, PackedLocation, RectToInsert, RestoreError, SectionsError, Session,
    SessionParts, TargetBin, WidthHeightDepth, bin_of_free_sections, was_coalesced,
};
use std::collections::BTreeMap;
use std::test::Fail;
use tests_support::each_request::{End, is_refused};
use tests_support::refusing::Refusing;
use tests_support::shapes::{has_list, section_of};

// A bin 10x10x1, of which one box takes the left part.
const BIN: u32 = 1;

const FREE: [u32; 6] = [4, 0, 0, 6, 10, 1];

const BOX: [u32; 6] = [0, 0, 0, 4, 10, 1];

fn size() -> WidthHeightDepth {
    WidthHeightDepth::from(RectToInsert::new(10, 10, 1))
}

fn location(at: [u32; 6]) -> PackedLocation {
    let [x, y, z, width, height, depth] = at;
    let size = WidthHeightDepth::from(RectToInsert::new(width, height, depth));
    PackedLocation::new(x, y, z, size)
}

fn placed(number: u64, bin: u32, at: [u32; 6]) -> Outstanding<u32, u32> {
    Outstanding {
        number,
        id: 7,
        bin,
        location: location(at),
    }
}

// A bin with these free sections.
fn free_bin(
    alloc: Refusing,
    free: &[[u32; 6]],
    coalesced: bool,
) -> Result<TargetBin<Refusing>, SectionsError> {
    let mut sections = Vec::new(alloc);
    for one in free {
        if sections.push(section_of(*one)).is_err() {
            return Err(SectionsError::OutOfMemory);
        }
    }
    bin_of_free_sections(alloc, size(), sections, coalesced)
}

type Parts = SessionParts<u32, u32, Refusing>;

// One bin with these free sections, without placements.
fn parts_of(
    alloc: Refusing,
    free: &[[u32; 6]],
    coalesced: bool,
    next: u64,
) -> Result<Parts, SectionsError> {
    let mut bins = BTreeMap::new(alloc);
    let bin = free_bin(alloc, free, coalesced)?;
    if bins.insert(BIN, bin).is_err() {
        return Err(SectionsError::OutOfMemory);
    }
    Ok(SessionParts {
        bins,
        outstanding: Vec::new(alloc),
        next,
    })
}

// The bin with one box, which stands there.
fn with_box(alloc: Refusing, number: u64, at: [u32; 6], next: u64) -> Result<Parts, SectionsError> {
    let mut parts = parts_of(alloc, &[FREE], false, next)?;
    match parts.outstanding.push(placed(number, BIN, at)) {
        Ok(()) => Ok(parts),
        Err(_) => Err(SectionsError::OutOfMemory),
    }
}

// What is answered of these parts, if no session is.
fn refusal(alloc: Refusing, parts: Parts) -> Option<RestoreError> {
    Session::restore(alloc, parts).err()
}

fn wrong(fault: BinFault) -> Option<RestoreError> {
    Some(RestoreError::WrongBin { bin: 0, fault })
}

fn has_box(session: &TestSession, next: u64) -> bool {
    let is_there = match session.outstanding() {
        [one] => one.number == 3 && one.bin == BIN && one.location == location(BOX),
        _ => false,
    };
    let is_free = match session.bins().get(&BIN) {
        Some(bin) => has_list(bin, &[FREE]),
        None => false,
    };
    is_there && is_free && session.next_number() == next
}

#[test]
fn parts_of_a_session(rt: HostRuntime) -> Result<(), Fail> {
    let alloc = plenty(&rt, rt.alloc());
    let session = Session::restore(alloc, with_box(alloc, 3, BOX, 9)?)?;
    assert!(rt; has_box(&session, 9));
    assert!(rt; session.was_coalesced(&BIN) == Some(false));
    let again = Session::restore(alloc, session.into_parts())?;
    assert!(rt; has_box(&again, 9));
    Ok(())
}

// What goes on after a restore goes on as before it: the box goes, and its cells are joined.
#[test]
fn session_goes_on(rt: HostRuntime) -> Result<(), Fail> {
    let alloc = plenty(&rt, rt.alloc());
    let mut session = Session::restore(alloc, with_box(alloc, 3, BOX, 9)?)?;
    session.release(3)?;
    session.coalesce_all(&BIN)?;
    let mut session = Session::restore(alloc, session.into_parts())?;
    assert!(rt; session.was_coalesced(&BIN) == Some(true));
    let number = session.place_at(BIN, 8, location([0, 0, 0, 10, 10, 1]))?;
    assert!(rt; number == 9);
    assert!(rt; Session::restore(alloc, session.into_parts()).is_ok());
    Ok(())
}

#[test]
fn numbers_that_are_wrong(rt: HostRuntime) -> Result<(), Fail> {
    let alloc = plenty(&rt, rt.alloc());
    let mut twice = with_box(alloc, 3, BOX, 9)?;
    twice.outstanding.push(placed(3, BIN, FREE))?;
    let not_rising = Some(RestoreError::NotRising { placement: 1 });
    assert!(rt; refusal(alloc, twice) == not_rising);
    let mut falling = with_box(alloc, 3, BOX, 9)?;
    falling.outstanding.push(placed(2, BIN, FREE))?;
    assert!(rt; refusal(alloc, falling) == not_rising);
    let not_below = Some(RestoreError::NotBelowNext { placement: 0 });
    assert!(rt; refusal(alloc, with_box(alloc, 3, BOX, 3)?) == not_below);
    let mut unknown = with_box(alloc, 3, BOX, 9)?;
    unknown.outstanding.push(placed(4, 2, FREE))?;
    let unknown_bin = Some(RestoreError::UnknownBin { placement: 1 });
    assert!(rt; refusal(alloc, unknown) == unknown_bin);
    Ok(())
}

// The free section is the box 0 of the bin, and the placement the box 1.
#[test]
fn boxes_that_are_wrong(rt: HostRuntime) -> Result<(), Fail> {
    let alloc = plenty(&rt, rt.alloc());
    let outside = with_box(alloc, 3, [0, 0, 0, 4, 11, 1], 9)?;
    assert!(rt; refusal(alloc, outside) == wrong(BinFault::Outside { index: 1 }));
    let shares = BinFault::SharesCell {
        first: 0,
        second: 1,
    };
    let on_one_cell = with_box(alloc, 3, [1, 0, 0, 4, 10, 1], 9)?;
    assert!(rt; refusal(alloc, on_one_cell) == wrong(shares));
    let narrow = with_box(alloc, 3, [0, 0, 0, 3, 10, 1], 9)?;
    assert!(rt; refusal(alloc, narrow) == wrong(BinFault::CellInNone));
    let without = parts_of(alloc, &[FREE], false, 9)?;
    assert!(rt; refusal(alloc, without) == wrong(BinFault::CellInNone));
    Ok(())
}

// Of two bins the second in the order of ids is wrong.
#[test]
fn second_bin(rt: HostRuntime) -> Result<(), Fail> {
    let alloc = plenty(&rt, rt.alloc());
    let mut parts = with_box(alloc, 3, BOX, 9)?;
    let other = free_bin(alloc, &[FREE], true)?;
    assert!(rt; parts.bins.insert(5, other).is_ok());
    let fault = BinFault::CellInNone;
    assert!(rt; refusal(alloc, parts) == Some(RestoreError::WrongBin { bin: 1, fault }));
    Ok(())
}

// Four sections round a middle one, which no straight cuts leave: only where the bin counts as
// coalesced.
#[test]
fn sections_from_no_cuts(rt: HostRuntime) -> Result<(), Fail> {
    let alloc = plenty(&rt, rt.alloc());
    let round = [
        [0, 0, 0, 6, 4, 1],
        [6, 0, 0, 4, 6, 1],
        [4, 6, 0, 6, 4, 1],
        [0, 4, 0, 4, 6, 1],
        [4, 4, 0, 2, 2, 1],
    ];
    let straight = parts_of(alloc, &round, false, 0)?;
    assert!(rt; refusal(alloc, straight) == wrong(BinFault::NotFromCuts));
    let coalesced = Session::restore(alloc, parts_of(alloc, &round, true, 0)?)?;
    assert!(rt; coalesced.cut_plan(&BIN)?.is_none());
    Ok(())
}

#[test]
fn free_sections_of_no_bin(rt: HostRuntime) -> Result<(), Fail> {
    let alloc = plenty(&rt, rt.alloc());
    let outside = SectionsError::Outside { index: 1 };
    assert!(rt; free_bin(alloc, &[FREE, [4, 5, 0, 7, 1, 1]], false).err() == Some(outside));
    let shares = SectionsError::SharesCell {
        first: 1,
        second: 2,
    };
    let three = [BOX, [5, 0, 0, 1, 1, 1], FREE];
    assert!(rt; free_bin(alloc, &three, false).err() == Some(shares));
    let few = free_bin(alloc, &[[9, 9, 0, 1, 1, 1], [0, 0, 0, 1, 1, 1]], true)?;
    assert!(rt; has_list(&few, &[[9, 9, 0, 1, 1, 1], [0, 0, 0, 1, 1, 1]]));
    assert!(rt; few.max_size() == size());
    assert!(rt; was_coalesced(&few));
    Ok(())
}

fn restores(alloc: Refusing) -> Result<End, Fail> {
    let parts = match with_box(alloc, 3, BOX, 9) {
        Ok(parts) => parts,
        Err(_) => return Ok(End::Before),
    };
    match Session::restore(alloc, parts) {
        Ok(session) if has_box(&session, 9) => Ok(End::Done),
        Err(RestoreError::OutOfMemory) => Ok(End::Refused),
        _ => Err(Fail::new("another answer")),
    }
}

#[test]
fn each_request_refused(rt: HostRuntime) -> Result<(), Fail> {
    let refused = is_refused(rt.alloc(), |refusing| restores(refusing))?;
    assert!(rt; refused);
    Ok(())
}
