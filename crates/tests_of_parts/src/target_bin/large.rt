//! Bins past small sizes: fifty free sections, and trials of boxes of one cell that fill a bin.

use super::Bin;
use rectangle_pack::{FitTests, RectToInsert, TargetBin, contains_smallest_box, volume_heuristic};
use std::alloc::AllocError;
use std::test::Fail;
use tests_support::all_match;
use tests_support::refusing::Refusing;
use tests_support::shapes::section;
use tests_support::units::{Units, cases};

// Boxes to place.
type Members = Vec<RectToInsert, Refusing>;

// Whether the free sections of the bin are `count` single cells, in a row.
fn has_row(bin: &TargetBin, count: u32) -> bool {
    all_match!(bin.available_bin_sections().iter(), 0..count, free, x =>
        *free == section(x, 0, 0, 1, 1, 1))
}

// Whether fifty cells in a row are accepted, one after another.
fn accepts_row(bin: &mut TargetBin) -> bool {
    for x in 0..50 {
        if bin
            .push_available_bin_section(section(x, 0, 0, 1, 1, 1))
            .is_err()
        {
            return false;
        }
    }
    has_row(bin, 50)
}

// Whether a new section goes to the end of the row.
fn adds_one(bin: &mut TargetBin) -> bool {
    let new = section(50, 0, 0, 1, 1, 1);
    let none = section(0, 0, 0, 0, 0, 0);
    bin.accepts(&new) && bin.add_new_sections([none, new, none]).is_ok() && has_row(bin, 51)
}

// A row of fifty free sections: its clone is the same row, and takes one more.
#[test]
fn fifty_sections(rt: HostRuntime) -> Result<(), Fail> {
    let mut bin = TargetBin::new(rt.alloc(), 60, 1, 1)?;
    bin.remove_filled_section(0);
    assert!(rt; accepts_row(&mut bin));
    let mut other = bin.clone()?;
    assert!(rt; has_row(&other, 50) && adds_one(&mut other));
    assert!(rt; has_row(&bin, 50));
    Ok(())
}

// As many boxes of one cell as the bin has.
fn push_members(members: &mut Members, units: &Units) -> Result<(), AllocError> {
    for _cell in 0..units.cells() {
        members.push(RectToInsert::new(1, 1, 1))?;
    }
    Ok(())
}

// Whether they are all placed, and no cell of the bin is free.
fn fills(bin: &mut Bin, members: &Members) -> Result<bool, AllocError> {
    let mut tests = FitTests::new();
    let placed = bin.place_all(
        members.as_slice(),
        &volume_heuristic,
        &contains_smallest_box,
        &mut tests,
    )?;
    let are_placed = matches!(&placed, Some(places) if places.len() == members.len());
    Ok(are_placed && bin.available_bin_sections().is_empty())
}

fn fills_new(alloc: Refusing, units: &Units) -> Result<bool, AllocError> {
    let mut members = Members::new(alloc);
    push_members(&mut members, units)?;
    let mut bin = TargetBin::new(alloc, units.width, units.height, 1)?;
    fills(&mut bin, &members)
}

// Boxes of one cell fill a bin. All memory is given back.
#[test]
fn units_fill_a_bin(rt: HostRuntime) -> Result<(), Fail> {
    let alloc = Refusing::new(rt.alloc(), u64::MAX)?;
    for units in cases() {
        assert!(rt; fills_new(alloc, units)?, "{} cells", units.cells());
    }
    assert_eq!(rt; alloc.taken(), 0);
    Ok(())
}
