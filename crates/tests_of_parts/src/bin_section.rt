//! Sections: their numbers and their order, one box in one section, with the six cuts, the choice
//! among them and the errors, and sections that share a cell.

mod asked;

use rectangle_pack::{
    BinSection, BinSectionError, RectToInsert, WidthHeightDepth, contains_smallest_box,
    volume_heuristic,
};
use std::alloc::{AllocError, Global};
use std::cmp::Ordering;
use tests_support::shapes::{numbers, place, section, section_of};

#[test]
fn numbers_are_kept(rt: HostRuntime) {
    let whd = WidthHeightDepth::new(1, 2, 3);
    let section = BinSection::new(4, 5, 6, whd);
    assert!(rt; numbers(&section) == [4, 5, 6, 1, 2, 3] && section.whd() == whd);
}

#[test]
fn default_is_zero(rt: HostRuntime) {
    assert!(rt; BinSection::default() == section(0, 0, 0, 0, 0, 0));
}

// The first number that differs decides.
#[test]
fn order(rt: HostRuntime) {
    assert!(rt; section(1, 9, 9, 9, 9, 9) < section(2, 0, 0, 0, 0, 0));
}

// The sizes of a section whose corner is 0, 0, 0 and of a box, and the pieces that are left right
// of the box, above it and behind it.
struct Cut {
    whole: [u32; 3],
    rect: [u32; 3],
    pieces: [[u32; 6]; 3],
}

// A box in a section, and the pieces.
macro_rules! cut {
    ($rect:tt of $whole:tt => $right:tt, $above:tt, $behind:tt) => {
        Cut {
            whole: $whole,
            rect: $rect,
            pieces: [$right, $above, $behind],
        }
    };
}

const CUBE: [u32; 3] = [100, 100, 100];

// Each order of the three sizes of a box chooses a cut of its own. The box in the strip just fits.
const CUTS: &[Cut] = &[
    cut!([50, 25, 10] of CUBE => [50, 0, 0, 50, 25, 10], [0, 25, 0, 100, 75, 10],
        [0, 0, 10, 100, 100, 90]),
    cut!([50, 10, 25] of CUBE => [50, 0, 0, 50, 10, 25], [0, 10, 0, 100, 90, 100],
        [0, 0, 25, 100, 10, 75]),
    cut!([25, 50, 10] of CUBE => [25, 0, 0, 75, 100, 10], [0, 50, 0, 25, 50, 10],
        [0, 0, 10, 100, 100, 90]),
    cut!([10, 50, 25] of CUBE => [10, 0, 0, 90, 100, 100], [0, 50, 0, 10, 50, 25],
        [0, 0, 25, 10, 100, 75]),
    cut!([25, 10, 50] of CUBE => [25, 0, 0, 75, 10, 100], [0, 10, 0, 100, 90, 100],
        [0, 0, 50, 25, 10, 50]),
    cut!([10, 25, 50] of CUBE => [10, 0, 0, 90, 100, 100], [0, 25, 0, 10, 75, 100],
        [0, 0, 50, 10, 25, 50]),
    cut!([5, 20, 1] of [5, 20, 1] => [5, 0, 0, 0, 20, 1], [0, 20, 0, 5, 0, 1], [0, 0, 1, 5, 20, 0]),
    // All six cuts are equally good.
    cut!([2, 2, 1] of [4, 4, 1] => [2, 0, 0, 2, 2, 1], [0, 2, 0, 4, 2, 1], [0, 0, 1, 4, 4, 0]),
];

// The place of the box and the pieces, by volumes and smallest boxes.
fn place_and_pieces(whole: [u32; 3], rect: [u32; 3]) -> Result<[[u32; 6]; 4], BinSectionError> {
    let ([wide, high, deep], [width, height, depth]) = (whole, rect);
    let rect = RectToInsert::new(width, height, depth);
    let (location, [right, above, behind]) = section(0, 0, 0, wide, high, deep).try_place(
        &rect,
        &contains_smallest_box,
        &volume_heuristic,
    )?;
    let pieces = [numbers(&right), numbers(&above), numbers(&behind)];
    let [right, above, behind] = pieces;
    Ok([place(&location), right, above, behind])
}

// Whether the box is placed at the corner, and leaves these pieces.
fn is_cut(cut: &Cut) -> bool {
    let ([width, height, depth], [right, above, behind]) = (cut.rect, cut.pieces);
    let wanted = [[0, 0, 0, width, height, depth], right, above, behind];
    matches!(place_and_pieces(cut.whole, cut.rect), Ok(found) if found == wanted)
}

#[test]
fn cuts(rt: HostRuntime) {
    for cut in CUTS {
        assert!(rt; is_cut(cut), "{:?}", cut.rect);
    }
}

// Boxes that do not fit into a section of 5x20x1, with the error and its text.
const ERRORS: &[([u32; 3], BinSectionError, &str)] = &[
    (
        [6, 20, 1],
        BinSectionError::PlacementWiderThanBinSection,
        "Can not place a rectangle inside of a bin that is wider than that rectangle.",
    ),
    (
        [5, 21, 1],
        BinSectionError::PlacementTallerThanBinSection,
        "Can not place a rectangle inside of a bin that is taller than that rectangle.",
    ),
    (
        [5, 20, 2],
        BinSectionError::PlacementDeeperThanBinSection,
        "Can not place a rectangle inside of a bin that is deeper than that rectangle.",
    ),
];

// Whether the box is refused with this error.
fn is_refused(
    alloc: Global,
    rect: [u32; 3],
    wanted: &BinSectionError,
    text: &str,
) -> Result<bool, AllocError> {
    match place_and_pieces([5, 20, 1], rect) {
        Ok(_) => Ok(false),
        Err(error) => Ok(error == *wanted && format!(in alloc; "{error}")?.as_str() == text),
    }
}

#[test]
fn errors(rt: HostRuntime) {
    for (rect, wanted, text) in ERRORS {
        assert!(rt;
            matches!(is_refused(rt.alloc(), *rect, wanted, text), Ok(true)),
            "{text}"
        );
    }
}

// What every comparison answers, and then the pieces of 50x90x1 in 100x100x1. The first cut stays
// where it is always better; else the last one is taken.
const CONSTANT: &[(Ordering, [[u32; 6]; 3])] = &[
    (
        Ordering::Greater,
        [
            [50, 0, 0, 50, 100, 1],
            [0, 90, 0, 50, 10, 1],
            [0, 0, 1, 50, 90, 0],
        ],
    ),
    (Ordering::Less, LAST_CUT),
    (Ordering::Equal, LAST_CUT),
];

const LAST_CUT: [[u32; 6]; 3] = [
    [50, 0, 0, 50, 90, 1],
    [0, 90, 0, 100, 10, 1],
    [0, 0, 1, 100, 100, 0],
];

// The pieces right, above and behind of 50x90x1 in 100x100x1, where every comparison answers the
// same.
fn pieces_by<H>(heuristic: &H, answer: Ordering) -> Result<[[u32; 6]; 3], BinSectionError>
where
    H: Fn(WidthHeightDepth) -> u128,
{
    let comparison = |_: [WidthHeightDepth; 3], _: [WidthHeightDepth; 3], _: &H| answer;
    let sheet = section(0, 0, 0, 100, 100, 1);
    let rect = RectToInsert::new(50, 90, 1);
    let (_, [right, above, behind]) = sheet.try_place(&rect, &comparison, heuristic)?;
    Ok([numbers(&right), numbers(&above), numbers(&behind)])
}

#[test]
fn constant_comparisons(rt: HostRuntime) {
    for (answer, wanted) in CONSTANT {
        assert!(rt;
            matches!(pieces_by(&volume_heuristic, *answer), Ok(found) if found == *wanted),
            "{answer:?}"
        );
    }
}

// The largest piece never decides.
#[test]
fn largest_piece_does_not_decide(rt: HostRuntime) {
    let (size, largest) = (
        WidthHeightDepth::new(2, 2, 1),
        WidthHeightDepth::new(4, 4, 1),
    );
    let order = contains_smallest_box([size, size, size], [largest, size, size], &volume_heuristic);
    assert!(rt; order == Ordering::Equal);
}

// Two sections, and whether they share a cell: sharing is by cells, symmetric, never with an empty
// section, and for ends past the greatest u32.
const SHARING: &[([u32; 6], [u32; 6], bool)] = &[
    ([3, 4, 5, 1, 1, 1], [2, 3, 4, 2, 3, 4], true),
    ([3, 40, 50, 1, 1, 1], [2, 3, 4, 2, 3, 4], false),
    ([30, 4, 50, 1, 1, 1], [2, 3, 4, 2, 3, 4], false),
    ([30, 40, 5, 1, 1, 1], [2, 3, 4, 2, 3, 4], false),
    ([2, 3, 4, 2, 3, 4], [3, 4, 5, 1, 1, 1], true),
    ([0, 0, 0, 4, 4, 1], [0, 0, 0, 4, 4, 1], true),
    ([3, 4, 5, 0, 1, 1], [2, 3, 4, 2, 3, 4], false),
    (
        [u32::MAX, 0, 0, u32::MAX, 1, 1],
        [u32::MAX, 0, 0, 1, 1, 1],
        true,
    ),
];

#[test]
fn sections_that_share_a_cell(rt: HostRuntime) {
    for (one, other, wanted) in SHARING {
        let shares = section_of(*one).overlaps(&section_of(*other));
        assert!(rt; shares == *wanted, "{one:?} {other:?}");
    }
}
