//! `Session::outstanding_in`.

use super::fitting::with_bins;
use super::{BIN, NOWHERE, OTHER, TestSession, plenty};
use rectangle_pack::{PackedLocation, SessionError, WidthHeightDepth};
use std::process::Abort;
use std::test::Fail;
use tests_support::all_match;
use tests_support::each_request::{End, is_refused};
use tests_support::refusing::Refusing;

// Box 7 stands in both bins, box 8 in the first.
fn fill(session: &mut TestSession) -> Result<(), SessionError> {
    let unit = WidthHeightDepth::new(1, 1, 1);
    session.place_at(BIN, 7, PackedLocation::new(0, 0, 0, unit))?;
    session.place_at(OTHER, 7, PackedLocation::new(0, 0, 0, unit))?;
    session.place_at(BIN, 8, PackedLocation::new(1, 0, 0, unit))?;
    Ok(())
}

fn filled(alloc: Refusing) -> Result<TestSession, SessionError> {
    let mut session = with_bins(alloc, 3, &[(BIN, [2, 1, 1], &[]), (OTHER, [2, 1, 1], &[])])?;
    fill(&mut session)?;
    Ok(session)
}

// Whether these placements stand in the bin, by their numbers and their boxes, in order.
fn stand_in(session: &TestSession, bin: u32, wanted: &[(u64, u32)]) -> Result<bool, SessionError> {
    let found = session.outstanding_in(&bin)?;
    for placed in &found {
        if placed.bin != bin {
            return Ok(false);
        }
    }
    Ok(are_these(found.as_slice(), wanted))
}

fn are_these(found: &[&rectangle_pack::Outstanding<u32, u32>], wanted: &[(u64, u32)]) -> bool {
    all_match!(found.iter(), wanted, placed, row => (placed.number, placed.id) == *row)
}

#[test]
fn placements_of_each_bin(rt: HostRuntime) -> Result<(), Fail> {
    let mut session = filled(plenty(&rt, rt.alloc()))?;
    assert!(rt; stand_in(&session, BIN, &[(3, 7), (5, 8)])?);
    assert!(rt; stand_in(&session, OTHER, &[(4, 7)])?);
    session.release(3)?;
    assert!(rt; stand_in(&session, BIN, &[(5, 8)])?);
    session.clear_bin(&OTHER)?;
    assert!(rt; stand_in(&session, OTHER, &[])?);
    Ok(())
}

// Where nothing is found, no memory is asked for.
#[test]
fn bins_without_placements(rt: HostRuntime) -> Result<(), Fail> {
    let limited = Refusing::new(rt.alloc(), 100)?;
    let mut session = filled(limited)?;
    session.clear_bin(&OTHER)?;
    let left = limited.left();
    assert!(rt; stand_in(&session, OTHER, &[])?);
    let unknown = session.outstanding_in(&NOWHERE);
    assert!(rt; matches!(unknown, Err(SessionError::UnknownBin)) && limited.left() == left);
    Ok(())
}

// Looks at a bin. Where memory is refused, that is answered.
fn looks(rt: &impl Abort, alloc: Refusing) -> End {
    let Ok(session) = filled(alloc) else {
        return End::Before;
    };
    match stand_in(&session, BIN, &[(3, 7), (5, 8)]) {
        Ok(are_found) => {
            assert!(rt; are_found);
            End::Done
        }
        Err(error) => {
            assert!(rt; error == SessionError::OutOfMemory && session.outstanding().len() == 3);
            End::Refused
        }
    }
}

#[test]
fn each_request_refused(rt: HostRuntime) -> Result<(), Fail> {
    assert!(rt; is_refused(rt.alloc(), |refusing| Ok(looks(&rt, refusing)))?);
    Ok(())
}
