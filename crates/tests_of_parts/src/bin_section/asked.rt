//! How often a cut and a comparison by smallest boxes ask the closures of a user.
ghost use Rattle.rectangle_pack.specs.Closures.{CanRate};

use rectangle_pack::{RectToInsert, WidthHeightDepth, contains_smallest_box};
use std::cell::Cell;
use std::cmp::Ordering;
use tests_support::counts::{Counts, add};
use tests_support::shapes::section;

// Tries to place the box in a section 4x4x4. Whether it fits, and how often either is asked.
fn tries(rect: &RectToInsert) -> (bool, Counts) {
    let (rated, compared) = (Cell::new(0), Cell::new(0));
    let heuristic = |size: WidthHeightDepth| {
        add(&rated, 1);
        size.volume()
    };
    let fits = fits_counting(rect, &heuristic, &compared);
    (fits, (rated.get(), compared.get()))
}

fn fits_counting<H>(rect: &RectToInsert, heuristic: &H, compared: &Cell<u64>) -> bool
where
    H: Fn(WidthHeightDepth) -> u128,
    requires { CanRate H.Fn heuristic.now }
{
    let comparison = |_: [WidthHeightDepth; 3], _: [WidthHeightDepth; 3], _: &H| {
        add(compared, 1);
        Ordering::Greater
    };
    let section = section(0, 0, 0, 4, 4, 4);
    section.try_place(rect, &comparison, heuristic).is_ok()
}

// Where the box is too large on an axis, none is asked.
const TRIES: &[([u32; 3], bool, Counts)] = &[
    ([4, 4, 4], true, (0, 5)),
    ([1, 2, 3], true, (0, 5)),
    ([5, 1, 1], false, (0, 0)),
    ([1, 5, 1], false, (0, 0)),
    ([1, 1, 5], false, (0, 0)),
];

#[test]
fn boxes_in_a_section(rt: HostRuntime) {
    for ([width, height, depth], fits, counts) in TRIES {
        let rect = RectToInsert::new(*width, *height, *depth);
        assert!(rt;
            tries(&rect) == (*fits, *counts),
            "{width} {height} {depth}"
        );
    }
}

fn wide(width: u32) -> WidthHeightDepth {
    WidthHeightDepth::from(RectToInsert::new(width, 1, 1))
}

fn sized(widths: [u32; 3]) -> [WidthHeightDepth; 3] {
    let [one, two, three] = widths;
    [wide(one), wide(two), wide(three)]
}

// How many sizes are asked for, and their widths, added up.
fn asked_sizes() -> Counts {
    let (count, widths) = (Cell::new(0), Cell::new(0));
    let heuristic = |size: WidthHeightDepth| {
        add(&count, 1);
        add(&widths, u64::from(size.width()));
        size.volume()
    };
    let _ = smallest(&heuristic);
    (count.get(), widths.get())
}

fn smallest<H>(heuristic: &H) -> Ordering
where
    H: Fn(WidthHeightDepth) -> u128,
    requires { CanRate H.Fn heuristic.now }
{
    contains_smallest_box(sized([1, 2, 4]), sized([8, 16, 32]), heuristic)
}

// Six widths of which each is a power of two add up to 63 in one way alone: each once.
#[test]
fn six_sizes(rt: HostRuntime) {
    assert!(rt; asked_sizes() == (6, 63));
}
