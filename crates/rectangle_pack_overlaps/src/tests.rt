//! Overlaps that are known by hand, and such as are found by a look at each pair.

use crate::overlaps::{Overlap, Standing, first_overlap};
use rectangle_pack_sections::bin_section::BinSection;
use rectangle_pack_sections::width_height_depth::any_size;
use std::alloc::{AllocError, Global};

fn flat(bin: usize, x: u32, y: u32, width: u32, height: u32) -> Standing {
    let section = BinSection::new(x, y, 0, any_size(width, height, 1));
    Standing { bin, section }
}

fn pair(first: usize, second: usize) -> Option<Overlap> {
    Some(Overlap { first, second })
}

// What is found in three bins.
fn found_in(alloc: Global, boxes: &[Standing]) -> Result<Option<Overlap>, AllocError> {
    let mut known = Vec::new(alloc);
    for one in boxes {
        let Standing { bin, section } = *one;
        known.push(Standing {
            bin: bin % 3,
            section,
        })?;
    }
    first_overlap(alloc, known.as_slice(), 3)
}

// A look at each pair.
fn by_pairs(boxes: &[Standing]) -> Option<Overlap> {
    for (second, other) in boxes.iter().enumerate() {
        let first = boxes[..second].iter().position(|one| one.bin == other.bin
            && one.section.overlaps(&other.section));
        if let Some(first) = first {
            return Some(Overlap { first, second });
        }
    }
    None
}

// A number below `most`, drawn.
fn draw(state: &mut u64, most: u32) -> u32 {
    *state = state
        .wrapping_mul(6364136223846793005)
        .wrapping_add(1442695040888963407);
    ((*state >> 33) % most.max(1) as u64) as u32
}

// So many boxes in three bins, with sides below `most`.
fn drawn(alloc: Global, seed: u64, count: usize, most: u32) -> Result<Vec<Standing>, AllocError> {
    let mut state = seed;
    let mut boxes = Vec::new(alloc);
    for _ in 0..count {
        let [x, y, z, bin] = [1000, 1000, 1000, 3].map(|most| draw(&mut state, most));
        let [width, height, depth] = [most; 3].map(|most| draw(&mut state, most));
        let section = BinSection::new(x, y, z, any_size(width, height, depth));
        boxes.push(Standing {
            bin: bin as usize,
            section,
        })?;
    }
    Ok(boxes)
}

#[test]
fn first_of_two_overlaps(rt: HostRuntime) {
    let boxes = [
        flat(0, 0, 0, 1, 1),
        flat(0, 0, 0, 2, 1),
        flat(0, 1, 0, 1, 1),
    ];
    assert!(rt; found_in(rt.alloc(), &boxes) == Ok(pair(0, 1)));
    let boxes = [
        flat(0, 0, 0, 1, 1),
        flat(0, 1, 0, 2, 1),
        flat(0, 2, 0, 1, 1),
    ];
    assert!(rt; found_in(rt.alloc(), &boxes) == Ok(pair(1, 2)));
}

#[test]
fn boxes_in_two_bins(rt: HostRuntime) {
    let boxes = [
        flat(0, 0, 0, 2, 2),
        flat(1, 0, 0, 2, 2),
        flat(2, 0, 0, 9, 9),
    ];
    assert!(rt; found_in(rt.alloc(), &boxes) == Ok(None));
    let boxes = [
        flat(0, 0, 0, 2, 2),
        flat(1, 0, 0, 2, 2),
        flat(1, 1, 1, 2, 2),
        flat(0, 1, 1, 1, 1),
    ];
    assert!(rt; found_in(rt.alloc(), &boxes) == Ok(pair(1, 2)));
}

// Four round one in the middle.
#[test]
fn touching_boxes_are_apart(rt: HostRuntime) {
    let boxes = [
        flat(0, 0, 0, 2, 1),
        flat(0, 2, 0, 1, 2),
        flat(0, 1, 2, 2, 1),
        flat(0, 0, 1, 1, 2),
        flat(0, 1, 1, 1, 1),
    ];
    assert!(rt; found_in(rt.alloc(), &boxes) == Ok(None));
    assert!(rt; found_in(rt.alloc(), &[]) == Ok(None));
}

#[test]
fn boxes_without_cells_share_none(rt: HostRuntime) {
    let boxes = [
        flat(0, 0, 0, 9, 9),
        flat(0, 3, 3, 0, 5),
        flat(0, 3, 3, 5, 0),
    ];
    assert!(rt; found_in(rt.alloc(), &boxes) == Ok(None));
}

// The ends of these boxes are beyond all numbers of 32 bits.
#[test]
fn boxes_at_the_greatest_numbers(rt: HostRuntime) {
    let most = u32::MAX;
    let boxes = [
        flat(0, most, 0, 1, 1),
        flat(0, 0, 0, most, 1),
        flat(0, most - 1, 0, most, 1),
    ];
    assert!(rt; found_in(rt.alloc(), &boxes) == Ok(pair(0, 2)));
}

// Rows, columns and a diagonal of 3,000 boxes are apart; a last box lies on one of them.
#[test]
fn long_rows(rt: HostRuntime) -> Result<(), AllocError> {
    for (right, up) in [(0u32, 1u32), (1, 0), (1, 1)] {
        let mut boxes = Vec::new(rt.alloc());
        for i in 0u32..3000 {
            let width = if right == 0 { 5000 } else { 1 };
            let height = if up == 0 { 5000 } else { 1 };
            boxes.push(flat(0, i * right, i * up, width, height))?;
        }
        assert!(rt; found_in(rt.alloc(), boxes.as_slice()) == Ok(None));
        boxes.push(flat(0, right * 1234, up * 1234, 1, 1))?;
        let found = found_in(rt.alloc(), boxes.as_slice());
        assert!(rt; found == Ok(pair(1234, 3000)));
    }
    Ok(())
}

// Boxes that are drawn: few of them share cells where they are small, most where they are large.
#[test]
fn drawn_boxes_as_by_pairs(rt: HostRuntime) -> Result<(), AllocError> {
    for (seed, most) in [
        (1u64, 20u32),
        (2, 60),
        (3, 150),
        (4, 400),
        (5, 20),
        (6, 60),
        (7, 3),
    ] {
        let boxes = drawn(rt.alloc(), seed, 400, most)?;
        let boxes = boxes.as_slice();
        assert!(rt; found_in(rt.alloc(), boxes) == Ok(by_pairs(boxes)));
    }
    Ok(())
}
