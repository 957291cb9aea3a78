//! Faults that are known by hand, and such as are found by a look at each pair.

use crate::case::{AloneFault, Case, Claim, Conflict, Entry};
use crate::judging::{Fault, first_fault};
use rectangle_pack_bounds::turning::{TurningBox, Turns};
use rectangle_pack_sections::bin_section::BinSection;
use rectangle_pack_sections::width_height_depth::{WidthHeightDepth, any_size};
use std::alloc::{AllocError, Global};

fn entry(group: usize, width: u32, height: u32, turns: Turns) -> Entry {
    let whd = any_size(width, height, 1);
    Entry {
        group,
        turning: TurningBox { whd, turns },
    }
}

fn claim(entry: usize, bin: usize, x: u32, y: u32, width: u32, height: u32) -> Claim {
    let section = BinSection::new(x, y, 0, any_size(width, height, 1));
    Claim {
        entry,
        bin,
        section,
    }
}

// Two bins of 10 x 10. A group of 4 x 10 and 6 x 10, a box 10 x 5 that may be turned, and another
// box 10 x 5.
fn bins() -> [WidthHeightDepth; 2] {
    [any_size(10, 10, 1); 2]
}

fn entries() -> [Entry; 4] {
    [
        entry(0, 4, 10, Turns::NONE),
        entry(0, 6, 10, Turns::NONE),
        entry(1, 10, 5, Turns::FLAT),
        entry(2, 10, 5, Turns::NONE),
    ]
}

fn packing() -> [Claim; 4] {
    [
        claim(0, 0, 0, 0, 4, 10),
        claim(1, 0, 4, 0, 6, 10),
        claim(2, 1, 0, 0, 10, 5),
        claim(3, 1, 0, 5, 10, 5),
    ]
}

// What is answered of these claims, where these groups are excluded.
fn judged(
    alloc: Global,
    excluded: &[(usize, usize)],
    claims: &[Claim],
) -> Result<Option<Fault>, AllocError> {
    let (bins, entries) = (bins(), entries());
    let case = Case {
        bins: &bins,
        entries: &entries,
        excluded,
    };
    first_fault(alloc, &case, claims)
}

// What is answered where one of these claims is another one.
fn judged_with(alloc: Global, at: usize, other: Claim) -> Result<Option<Fault>, AllocError> {
    let mut claims = packing();
    if let Some(claim) = claims.get_mut(at) {
        *claim = other;
    }
    judged(alloc, &[], &claims)
}

fn alone(claim: usize, fault: AloneFault) -> Result<Option<Fault>, AllocError> {
    Ok(Some(Fault::Alone { claim, fault }))
}

fn together(first: usize, second: usize, conflict: Conflict) -> Result<Option<Fault>, AllocError> {
    Ok(Some(Fault::Together {
        first,
        second,
        conflict,
    }))
}

#[test]
fn packing_has_no_fault(rt: HostRuntime) {
    assert!(rt; judged(rt.alloc(), &[], &packing()) == Ok(None));
    assert!(rt; judged(rt.alloc(), &[(0, 1), (2, 0)], &packing()) == Ok(None));
    assert!(rt; judged(rt.alloc(), &[(0, 0), (1, 1)], &packing()) == Ok(None));
}

#[test]
fn faults_of_one_claim(rt: HostRuntime) {
    let alloc = rt.alloc();
    let unknown_bin = judged_with(alloc, 2, claim(9, 2, 0, 0, 10, 5));
    assert!(rt; unknown_bin == alone(2, AloneFault::UnknownBin));
    let unknown_entry = judged_with(alloc, 2, claim(4, 1, 0, 0, 10, 5));
    assert!(rt; unknown_entry == alone(2, AloneFault::UnknownEntry));
    let wrong_size = judged_with(alloc, 1, claim(1, 0, 4, 0, 6, 9));
    assert!(rt; wrong_size == alone(1, AloneFault::WrongSize));
    let turned = judged_with(alloc, 3, claim(3, 1, 0, 0, 5, 10));
    assert!(rt; turned == alone(3, AloneFault::WrongSize));
    let outside = judged_with(alloc, 1, claim(1, 0, 5, 0, 6, 10));
    assert!(rt; outside == alone(1, AloneFault::Outside));
    let far = judged_with(alloc, 1, claim(1, 0, u32::MAX, 0, 6, 10));
    assert!(rt; far == alone(1, AloneFault::Outside));
}

#[test]
fn box_that_may_be_turned(rt: HostRuntime) {
    let mut claims = packing();
    claims[2] = claim(2, 1, 0, 0, 5, 10);
    let shares = together(2, 3, Conflict::SharesCell);
    assert!(rt; judged(rt.alloc(), &[], &claims) == shares);
}

#[test]
fn faults_of_two_claims(rt: HostRuntime) {
    let alloc = rt.alloc();
    let twice = judged_with(alloc, 3, claim(2, 1, 0, 5, 10, 5));
    assert!(rt; twice == together(2, 3, Conflict::PlacedTwice));
    let shares = judged_with(alloc, 3, claim(3, 1, 0, 4, 10, 5));
    assert!(rt; shares == together(2, 3, Conflict::SharesCell));
    let mut claims = packing();
    claims[1] = claim(1, 1, 4, 0, 6, 10);
    let parted = together(0, 1, Conflict::GroupInTwoBins);
    assert!(rt; judged(alloc, &[], &claims) == parted);
    let excluded = together(2, 3, Conflict::ExcludedTogether);
    assert!(rt; judged(alloc, &[(2, 1)], &packing()) == excluded);
    assert!(rt; judged(alloc, &[(0, 1), (1, 2), (1, 7)], &packing()) == excluded);
}

// Of several faults that of the first claim is told, and of this claim what it has alone.
#[test]
fn first_fault_is_told(rt: HostRuntime) {
    let mut claims = packing();
    claims[3] = claim(2, 1, 0, 6, 10, 5);
    let outside = alone(3, AloneFault::Outside);
    assert!(rt; judged(rt.alloc(), &[], &claims) == outside);
    claims[2] = claim(2, 0, 0, 0, 10, 5);
    let shares = together(0, 2, Conflict::SharesCell);
    assert!(rt; judged(rt.alloc(), &[(1, 0)], &claims) == shares);
}

// Judges claims of the same boxes, in groups of other numbers.
fn by_great_numbers(
    alloc: Global,
    excluded: &[(usize, usize)],
    claims: &[Claim],
) -> Result<Option<Fault>, AllocError> {
    let bins = bins();
    let entries = [
        entry(usize::MAX, 4, 10, Turns::NONE),
        entry(usize::MAX, 6, 10, Turns::NONE),
        entry(7, 10, 5, Turns::FLAT),
        entry(0, 10, 5, Turns::NONE),
    ];
    let case = Case {
        bins: &bins,
        entries: &entries,
        excluded,
    };
    first_fault(alloc, &case, claims)
}

#[test]
fn groups_of_great_numbers(rt: HostRuntime) {
    let alloc = rt.alloc();
    let most = usize::MAX;
    let mut claims = packing();
    assert!(rt; by_great_numbers(alloc, &[(most, 7), (0, most)], &claims) == Ok(None));
    let excluded = together(2, 3, Conflict::ExcludedTogether);
    assert!(rt; by_great_numbers(alloc, &[(5, 7), (7, 0)], &claims) == excluded);
    claims[1] = claim(1, 1, 4, 0, 6, 10);
    let parted = together(0, 1, Conflict::GroupInTwoBins);
    assert!(rt; by_great_numbers(alloc, &[], &claims) == parted);
}

#[test]
fn entry_that_is_left(rt: HostRuntime) {
    let all = packing();
    let claims = all.as_slice();
    let left = Ok(Some(Fault::NotPlaced { entry: 3 }));
    assert!(rt; judged(rt.alloc(), &[], &claims[..3]) == left);
    let first = Ok(Some(Fault::NotPlaced { entry: 0 }));
    assert!(rt; judged(rt.alloc(), &[], &claims[1..]) == first);
    assert!(rt; judged(rt.alloc(), &[], &[]) == first);
}

// A number below `most`, drawn.
fn draw(state: &mut u64, most: u32) -> u32 {
    *state = state
        .wrapping_mul(6364136223846793005)
        .wrapping_add(1442695040888963407);
    ((*state >> 33) % most.max(1) as u64) as u32
}

// Whether two squares of 2 a side share a cell.
fn meet(one: &BinSection, other: &BinSection) -> bool {
    one.x().abs_diff(other.x()) < 2 && one.y().abs_diff(other.y()) < 2
}

// What is wrong with two claims of the sixty squares, where these groups are excluded.
fn wrong(pair: (usize, usize), one: &Claim, other: &Claim) -> Option<Conflict> {
    let (a, b) = (one.entry % 5, other.entry % 5);
    let is_one_bin = one.bin == other.bin;
    if one.entry == other.entry {
        Some(Conflict::PlacedTwice)
    } else if is_one_bin && meet(&one.section, &other.section) {
        Some(Conflict::SharesCell)
    } else if a == b && !is_one_bin {
        Some(Conflict::GroupInTwoBins)
    } else if a != b && is_one_bin && (pair == (a, b) || pair == (b, a)) {
        Some(Conflict::ExcludedTogether)
    } else {
        None
    }
}

// The first claim that is wrong beside an earlier one, or because there is no such square; how many
// claims there are where none is.
fn first_wrong(pair: (usize, usize), claims: &[Claim]) -> usize {
    for (i, claim) in claims.iter().enumerate() {
        let earlier = &claims[..i];
        if claim.entry >= 60 || earlier.iter().any(|one| wrong(pair, one, claim).is_some()) {
            return i;
        }
    }
    claims.len()
}

// Whether this may be what is answered of the claims.
fn is_right(pair: (usize, usize), claims: &[Claim], answer: Option<Fault>) -> bool {
    let place = first_wrong(pair, claims);
    match answer {
        None => place == claims.len(),
        Some(Fault::NotPlaced { entry }) => {
            place == claims.len() && !claims.iter().any(|claim| claim.entry == entry)
        }
        Some(Fault::Alone { claim, fault }) => {
            let entry = claims.get(claim).map_or(0, |claim| claim.entry);
            claim == place && entry >= 60 && fault == AloneFault::UnknownEntry
        }
        Some(
            Fault::Together {
                first,
                second,
                conflict,
            },
        ) => match (claims.get(first), claims.get(second)) {
            (Some(one), Some(other)) => {
                second == place && first < place && wrong(pair, one, other) == Some(conflict)
            }
            _ => false,
        },
    }
}

// Squares of 2 a side in rows of a bin of 40 x 40, each in one of five groups, some of them moved.
fn drawn(alloc: Global, seed: u64, moved: u32) -> Result<Vec<Claim>, AllocError> {
    let mut state = seed;
    let mut claims = Vec::new(alloc);
    for i in 0u32..60 {
        let mut one = claim(
            i as usize,
            (i % 5 % 2) as usize,
            i % 20 * 2,
            i / 20 * 2,
            2,
            2,
        );
        if draw(&mut state, 60) < moved {
            let (x, y) = (draw(&mut state, 39), draw(&mut state, 39));
            one = claim(i as usize, draw(&mut state, 2) as usize, x, y, 2, 2);
        }
        if draw(&mut state, 400) < moved {
            one.entry = draw(&mut state, 62) as usize;
        }
        claims.push(one)?;
    }
    Ok(claims)
}

// Sixty squares in five groups.
fn squares(alloc: Global) -> Result<Vec<Entry>, AllocError> {
    let mut all = Vec::new(alloc);
    for i in 0usize..60 {
        all.push(entry(i % 5, 2, 2, Turns::NONE))?;
    }
    Ok(all)
}

// Whether the judge answers what a look at each pair may.
fn agrees(alloc: Global, seed: u64) -> Result<bool, AllocError> {
    let bins = [any_size(40, 40, 1); 2];
    let entries = squares(alloc)?;
    let pair = ((seed % 5) as usize, (seed / 5 % 5) as usize);
    let excluded = [pair];
    let case = Case {
        bins: &bins,
        entries: entries.as_slice(),
        excluded: &excluded,
    };
    let claims = drawn(alloc, seed, (seed % 7) as u32)?;
    let claims = claims.as_slice();
    let answer = first_fault(alloc, &case, claims)?;
    Ok(is_right(pair, claims, answer))
}

#[test]
fn drawn_claims_as_by_pairs(rt: HostRuntime) -> Result<(), AllocError> {
    for seed in 0u64..200 {
        assert!(rt; agrees(rt.alloc(), seed)?);
    }
    Ok(())
}
