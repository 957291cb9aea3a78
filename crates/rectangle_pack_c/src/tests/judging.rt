//! The judge: each kind of fault, on a few boxes.
use super::super::collection::RpExclusion;
use super::super::judging::{
    RP_FAULT_EXCLUDED_TOGETHER, RP_FAULT_GROUP_IN_TWO_BINS, RP_FAULT_NOT_PLACED, RP_FAULT_OUTSIDE,
    RP_FAULT_PLACED_TWICE, RP_FAULT_SHARES_CELL, RP_FAULT_UNKNOWN_BIN, RP_FAULT_UNKNOWN_BOX,
    RP_FAULT_WRONG_SIZE, RP_NO_FAULT, RpClaim, RpEntry, RpFault, rectangle_pack_check,
};
use super::super::reading::RpSection;
use super::{RP_DONE, RpBin, RpBox, SHEET};
use std::alloc::Global;
use std::test::Fail;

// A box of this group, which may be turned about z where `turns` is 4.
fn entry(width: u32, height: u32, group: u32, turns: u32) -> RpEntry {
    RpEntry {
        rect: RpBox {
            width,
            height,
            depth: 1,
            group,
        },
        turns,
    }
}

fn claim(entry: u32, bin: u32, x: u32, y: u32, width: u32, height: u32) -> RpClaim {
    RpClaim {
        entry,
        bin,
        section: RpSection {
            x,
            y,
            z: 0,
            width,
            height,
            depth: 1,
        },
    }
}

// Two boxes of group 7, a strip that may be turned, and a strip that may not. Groups 7 and 9, and 0
// and 7, are excluded.
fn entries() -> [RpEntry; 4] {
    [
        entry(4, 10, 7, 0),
        entry(6, 5, 7, 0),
        entry(10, 5, 0, 4),
        entry(10, 5, 9, 0),
    ]
}

// On two sheets.
fn packing() -> [RpClaim; 4] {
    [
        claim(0, 0, 0, 0, 4, 10),
        claim(1, 0, 4, 0, 6, 5),
        claim(2, 1, 0, 5, 10, 5),
        claim(3, 1, 0, 0, 10, 5),
    ]
}

// What is written of these claims: the kind, and the two places.
fn judged(alloc: Global, claims: &[RpClaim]) -> (u32, [u32; 3]) {
    let mut fault = RpFault {
        kind: 99,
        first: 99,
        second: 99,
    };
    let bins: [RpBin; 2] = [SHEET, SHEET];
    let excluded = [
        RpExclusion { one: 9, other: 7 },
        RpExclusion { one: 0, other: 7 },
    ];
    let status = rectangle_pack_check(alloc, &bins, &entries(), &excluded, claims, &mut fault);
    (status, [fault.kind, fault.first, fault.second])
}

// The same, with another claim at this place.
fn with(alloc: Global, place: usize, other: RpClaim) -> (u32, [u32; 3]) {
    let mut claims = packing();
    if let Some(claim) = claims.get_mut(place) {
        *claim = other;
    }
    judged(alloc, &claims)
}

#[test]
fn packing_has_no_fault(rt: HostRuntime) -> Result<(), Fail> {
    let none = (RP_DONE, [RP_NO_FAULT, 0, 0]);
    assert_eq!(rt; judged(rt.alloc(), &packing()), none);
    Ok(())
}

#[test]
fn faults_of_one_claim(rt: HostRuntime) -> Result<(), Fail> {
    let alloc = rt.alloc();
    let unknown_bin = with(alloc, 1, claim(1, 2, 4, 0, 6, 5));
    assert_eq!(rt; unknown_bin, (RP_DONE, [RP_FAULT_UNKNOWN_BIN, 1, 0]));
    let unknown_box = with(alloc, 1, claim(4, 0, 4, 0, 6, 5));
    assert_eq!(rt; unknown_box, (RP_DONE, [RP_FAULT_UNKNOWN_BOX, 1, 0]));
    let wrong_size = with(alloc, 3, claim(3, 1, 0, 0, 5, 10));
    assert_eq!(rt; wrong_size, (RP_DONE, [RP_FAULT_WRONG_SIZE, 3, 0]));
    let outside = with(alloc, 1, claim(1, 0, 5, 0, 6, 5));
    assert_eq!(rt; outside, (RP_DONE, [RP_FAULT_OUTSIDE, 1, 0]));
    Ok(())
}

#[test]
fn faults_of_two_claims(rt: HostRuntime) -> Result<(), Fail> {
    let alloc = rt.alloc();
    let twice = with(alloc, 3, claim(2, 1, 0, 0, 10, 5));
    assert_eq!(rt; twice, (RP_DONE, [RP_FAULT_PLACED_TWICE, 2, 3]));
    let shares = with(alloc, 2, claim(2, 1, 0, 0, 5, 10));
    assert_eq!(rt; shares, (RP_DONE, [RP_FAULT_SHARES_CELL, 2, 3]));
    let parted = with(alloc, 1, claim(1, 1, 4, 0, 6, 5));
    assert_eq!(rt; parted, (RP_DONE, [RP_FAULT_GROUP_IN_TWO_BINS, 0, 1]));
    Ok(())
}

// A box of group 9 stands above one of group 7; one in group 0 does not count as excluded.
#[test]
fn excluded_groups(rt: HostRuntime) -> Result<(), Fail> {
    let alloc = rt.alloc();
    let above = [claim(1, 1, 0, 0, 6, 5), claim(3, 1, 0, 5, 10, 5)];
    let excluded = (RP_DONE, [RP_FAULT_EXCLUDED_TOGETHER, 0, 1]);
    assert_eq!(rt; judged(alloc, &above), excluded);
    let alone = [
        claim(1, 1, 0, 0, 6, 5),
        claim(2, 1, 0, 5, 10, 5),
        claim(3, 0, 0, 0, 10, 5),
    ];
    let left = (RP_DONE, [RP_FAULT_NOT_PLACED, 0, 0]);
    assert_eq!(rt; judged(alloc, &alone), left);
    Ok(())
}
