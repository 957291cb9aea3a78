//! Sections that are given back to a bin.

use super::Call::{Clone, Push, Remove};
use super::Pushed::{Accepted, OutOfBounds, Overlaps};
use super::{Script, runs};
use rectangle_pack::{PushBinSectionError, TargetBin};
use std::alloc::Global;
use std::process::Abort;
use std::test::Fail;
use tests_support::each_request::{End, is_refused};
use tests_support::refusing::Refusing;
use tests_support::shapes::{has_list, section};

const SHEET: [u32; 6] = [0, 0, 0, 100, 100, 1];

// Which sections a bin accepts, and which is named as the first in the way.
fn scripts() -> &'static [Script] {
    const SCRIPTS: &[Script] = &[
        script!("a new bin"; New [4, 5, 6] => &[[0, 0, 0, 4, 5, 6]]),
        // An empty section shares no cell with the whole bin, also where the bin ends.
        script!("pushes into a new bin"; New [100, 100, 1] => &[SHEET];
            Push([101, 0, 0, 1, 1, 1], OutOfBounds) => &[SHEET],
            Push([0, 0, 0, 1, 1, 1], Overlaps(SHEET)) => &[SHEET],
            Push([1, 1, 0, 1, 1, 1], Overlaps(SHEET)) => &[SHEET],
            Push([100, 0, 0, 0, 1, 1], Accepted) => &[SHEET, [100, 0, 0, 0, 1, 1]]),
        script!("a push after a removal"; New [100, 100, 1] => &[SHEET];
            Remove(0) => &[], Push([1, 2, 0, 1, 1, 1], Accepted) => &[[1, 2, 0, 1, 1, 1]]),
        // The fourth one shares cells too, but the bounds are asked first.
        script!("the first overlap is named"; Pushed [10, 10, 1] => &[];
            Push([0, 0, 0, 4, 4, 1], Accepted) => &[[0, 0, 0, 4, 4, 1]],
            Push([6, 6, 0, 4, 4, 1], Accepted) => &[[0, 0, 0, 4, 4, 1], [6, 6, 0, 4, 4, 1]],
            Push([3, 3, 0, 4, 4, 1], Overlaps([0, 0, 0, 4, 4, 1])) => &[[0, 0, 0, 4, 4, 1],
                [6, 6, 0, 4, 4, 1]],
            Push([7, 7, 0, 4, 4, 1], OutOfBounds) => &[[0, 0, 0, 4, 4, 1], [6, 6, 0, 4, 4, 1]],
            Push([4, 0, 0, 6, 6, 1], Accepted) => THREE),
    ];
    SCRIPTS
}

const THREE: &[[u32; 6]] = &[[0, 0, 0, 4, 4, 1], [6, 6, 0, 4, 4, 1], [4, 0, 0, 6, 6, 1]];

// Each request for memory is refused in turn.
#[test]
fn pushes(rt: HostRuntime) {
    let alloc = rt.alloc();
    for script in scripts() {
        runs(&rt, alloc, script);
    }
}

// The cells of these numbers in a row.
macro_rules! cells {
    ($($number:literal),*) => {
        &[$([$number, 0, 0, 1, 1, 1]),*]
    };
}

const ROW: &[[u32; 6]] = cells![
    0, 1, 2, 3, 4, 5, 6, 7, 8, 9, 10, 11, 12, 13, 14, 15, 16, 17, 18, 19
];

// Scripts in which a request is refused once the bin is made.
fn refused() -> &'static [Script] {
    const REFUSED: &[Script] = &[
        script!("checked pushes"; Pushed [20, 20, 1] => ROW),
        script!("unchecked pushes"; Unchecked [20, 20, 1] => ROW),
        script!("a clone of a new bin"; New [4, 5, 6] => &[[0, 0, 0, 4, 5, 6]];
            Clone => &[[0, 0, 0, 4, 5, 6]]),
    ];
    REFUSED
}

#[test]
fn pushes_that_take_memory(rt: HostRuntime) {
    let alloc = rt.alloc();
    for script in refused() {
        assert!(rt; runs(&rt, alloc, script), "{}", script.subject);
    }
}

// The first six of a row, three at a time, in a bin 20x20x1 without free sections. Refused, the
// list stays.
fn adds_a_row(rt: &impl Abort, alloc: Refusing) -> End {
    let Ok(mut bin) = TargetBin::new(alloc, 20, 20, 1) else {
        return End::Before;
    };
    bin.remove_filled_section(0);
    let first = [
        section(0, 0, 0, 1, 1, 1),
        section(1, 0, 0, 1, 1, 1),
        section(2, 0, 0, 1, 1, 1),
    ];
    if bin.add_new_sections(first).is_err() {
        assert!(rt; has_list(&bin, &[]));
        return End::Refused;
    }
    let second = [
        section(3, 0, 0, 1, 1, 1),
        section(4, 0, 0, 1, 1, 1),
        section(5, 0, 0, 1, 1, 1),
    ];
    if bin.add_new_sections(second).is_err() {
        assert!(rt; has_list(&bin, ROW.get(..3).unwrap_or(&[])));
        return End::Refused;
    }
    assert!(rt; has_list(&bin, ROW.get(..6).unwrap_or(&[])));
    End::Done
}

#[test]
fn new_sections(rt: HostRuntime) -> Result<(), Fail> {
    let refused = is_refused(rt.alloc(), |refusing| Ok(adds_a_row(&rt, refusing)))?;
    assert!(rt; refused);
    Ok(())
}

const CHANGED: [[u32; 6]; 6] = [
    [0, 0, 0, 4, 4, 1],
    [6, 6, 0, 4, 4, 1],
    [4, 0, 0, 6, 6, 1],
    [0, 4, 0, 4, 6, 1],
    [4, 6, 0, 2, 2, 1],
    [4, 8, 0, 2, 2, 1],
];

// New sections without the empty one, and a push that is not checked, on a clone.
#[test]
fn clone_has_its_own_list(rt: HostRuntime) -> Result<(), Fail> {
    let mut bin = TargetBin::new(rt.alloc(), 10, 10, 1)?;
    bin.remove_filled_section(0);
    bin.push_available_bin_section(section(0, 0, 0, 4, 4, 1))?;
    bin.push_available_bin_section(section(6, 6, 0, 4, 4, 1))?;
    bin.push_available_bin_section(section(4, 0, 0, 6, 6, 1))?;
    let mut other = bin.clone()?;
    other.add_new_sections([
        section(0, 4, 0, 4, 6, 1),
        section(4, 6, 0, 0, 1, 1),
        section(4, 6, 0, 2, 2, 1),
    ])?;
    assert!(rt; has_list(&other, &CHANGED[..5]));
    let last = section(4, 8, 0, 2, 2, 1);
    assert!(rt; other.accepts(&last));
    other.push_available_bin_section_unchecked(last)?;
    assert!(rt; has_list(&other, &CHANGED));
    assert!(rt; has_list(&bin, &CHANGED[..3]));
    assert_eq!(rt; other.max_size(), bin.max_size());
    Ok(())
}

const OUT_OF_BOUNDS: &str = "BinSection(BinSection { x: 0, y: 0, z: 0, \
    whd: WidthHeightDepth { width: 4, height: 4, depth: 1 } })";

const OVERLAPS: &str = "Overlaps { remaining_section: BinSection { x: 0, y: 0, z: 0, \
    whd: WidthHeightDepth { width: 4, height: 4, depth: 1 } }, \
    new_section: BinSection { x: 3, y: 3, z: 0, \
    whd: WidthHeightDepth { width: 4, height: 4, depth: 1 } } }";

// The error's text is this.
fn prints(
    rt: &impl Abort,
    alloc: Global,
    error: &PushBinSectionError,
    text: &str,
) -> Result<(), Fail> {
    assert_eq!(rt; format!(in alloc; "{error}")?.as_str(), text);
    Ok(())
}

#[test]
fn texts_of_errors(rt: HostRuntime) -> Result<(), Fail> {
    let alloc = rt.alloc();
    let a = section(0, 0, 0, 4, 4, 1);
    let overlaps = PushBinSectionError::Overlaps {
        remaining_section: a,
        new_section: section(3, 3, 0, 4, 4, 1),
    };
    prints(
        &rt,
        alloc,
        &PushBinSectionError::OutOfBounds(a),
        OUT_OF_BOUNDS,
    )?;
    prints(&rt, alloc, &overlaps, OVERLAPS)?;
    prints(
        &rt,
        alloc,
        &PushBinSectionError::OutOfMemory(a),
        "Out of memory.",
    )
}
