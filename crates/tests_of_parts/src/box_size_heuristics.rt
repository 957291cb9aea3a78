//! Heuristics, and their names.

use super::width_height_depth::{VOLUMES, sized};
use rectangle_pack::{
    Heuristic, UnknownHeuristic, WidthHeightDepth, depth_heuristic, height_heuristic,
    longest_side_heuristic, shortest_side_heuristic, side_area_heuristic, side_sum_heuristic,
    volume_heuristic, width_heuristic,
};
use std::alloc::{AllocError, Global};

#[test]
fn volumes(rt: HostRuntime) {
    for (size, volume) in VOLUMES {
        assert!(rt; volume_heuristic(sized(*size)) == *volume, "{size:?}");
    }
    assert!(rt; volume_heuristic(WidthHeightDepth::default()) == 0);
}

// Each heuristic by its text, and its rate of a box 3 wide, 7 high and 5 deep. Where three numbers
// count in turn, these are 7 * 2^64 + 3 * 2^32 + 5 and the like.
fn names() -> &'static [(Heuristic, &'static str, u128)] {
    const NAMES: &[(Heuristic, &str, u128)] = &[
        (Heuristic::Volume, "volume", 105),
        (Heuristic::Height, "height", 129127208528851763205),
        (Heuristic::Width, "width", 55340232251193425925),
        (Heuristic::Depth, "depth", 92233720381432659975),
        (Heuristic::SideSum, "side-sum", 15),
        (
            Heuristic::LongestSide,
            "longest-side",
            129127208537441697795,
        ),
        (
            Heuristic::ShortestSide,
            "shortest-side",
            55340232242603491335,
        ),
        (Heuristic::SideArea, "side-area", 35),
    ];
    NAMES
}

fn box_3_7_5() -> WidthHeightDepth {
    WidthHeightDepth::new(3, 7, 5)
}

// Whether the heuristic is printed as this text, and read from it.
fn is_named(alloc: Global, heuristic: Heuristic, text: &str) -> Result<bool, AllocError> {
    let printed = heuristic.to_string(alloc)?;
    let read = text.parse::<Heuristic>();
    Ok(printed.as_str() == text && matches!(read, Ok(read) if read == heuristic))
}

#[test]
fn names_and_rates(rt: HostRuntime) {
    let mut listed = Heuristic::ALL.iter();
    for (heuristic, name, rate) in names() {
        assert!(rt;
            listed.next() == Some(heuristic)
                && heuristic.rate(box_3_7_5()) == *rate
                && matches!(is_named(rt.alloc(), *heuristic, name), Ok(true)),
            "{name}"
        );
    }
    assert!(rt; listed.next().is_none());
}

// What the functions rate the box at.
fn rates() -> [u128; 8] {
    [
        volume_heuristic(box_3_7_5()),
        height_heuristic(box_3_7_5()),
        width_heuristic(box_3_7_5()),
        depth_heuristic(box_3_7_5()),
        side_sum_heuristic(box_3_7_5()),
        longest_side_heuristic(box_3_7_5()),
        shortest_side_heuristic(box_3_7_5()),
        side_area_heuristic(box_3_7_5()),
    ]
}

#[test]
fn rates_by_functions(rt: HostRuntime) {
    let rates = rates();
    let mut found = rates.iter();
    for (_, name, rate) in names() {
        assert!(rt; found.next() == Some(rate), "{name}");
    }
}

// Texts that name no heuristic.
const OTHER_TEXTS: &[&str] = &["", "Height", "height ", "heigh", "sides"];

#[test]
fn other_texts(rt: HostRuntime) {
    for text in OTHER_TEXTS {
        assert!(rt; text.parse::<Heuristic>().is_err(), "{text}");
    }
}

#[test]
fn text_of_the_error(rt: HostRuntime) {
    let printed = UnknownHeuristic.to_string(rt.alloc());
    let wanted = "There is no heuristic of this name.";
    assert!(rt; matches!(&printed, Ok(text) if text.as_str() == wanted));
}
