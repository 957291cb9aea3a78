//! Packings of equal texts that lie elsewhere.

use super::{add_bin, pack};
use rectangle_pack::{
    GroupedRectsToPlace, Placement, RectToInsert, RectanglePackError, RectanglePackOk, TargetBin,
    contains_smallest_box, volume_heuristic, volume_packing_has_one_result,
};
use std::alloc::{AllocError, Global};
use std::collections::BTreeMap;
use std::process::Abort;
use tests_support::shapes::place;
use tests_support::{all_match, box_list};

type TextRects = GroupedRectsToPlace<String, String>;

type TextBins = BTreeMap<String, TargetBin>;

type TextPacked = RectanglePackOk<String, String>;

// A box: name, size and groups.
type TextBox = (&'static str, [u32; 3], &'static [&'static str]);

// A placement: box, bin and place.
type TextPlaced = (&'static str, &'static str, [u32; 6]);

// A packing under names, and what it places.
struct TextCase {
    bins: &'static [(&'static str, [u32; 3])],
    boxes: &'static [TextBox],
    placements: &'static [TextPlaced],
}

const TEXT_CASES: &[TextCase] = &[
    TextCase {
        bins: &[
            ("DestinationBinOne", [2048, 2048, 255]),
            ("DestinationBinTwo", [4096, 4096, 1020]),
        ],
        boxes: box_list!("RectOne": [10, 20, 255] in ["GroupIdOne"],
            "RectTwo": [5, 50, 255] in ["GroupIdOne"], "RectThree": [30, 30, 255]),
        placements: &[
            ("RectThree", "DestinationBinOne", [0, 0, 0, 30, 30, 255]),
            ("RectOne", "DestinationBinOne", [30, 0, 0, 10, 20, 255]),
            ("RectTwo", "DestinationBinOne", [0, 30, 0, 5, 50, 255]),
        ],
    },
    // The box is placed once for each of its groups.
    TextCase {
        bins: &[("bin", [8, 8, 1])],
        boxes: box_list!("One": [4, 4, 1] in ["0", "1"]),
        placements: &[
            ("One", "bin", [0, 0, 0, 4, 4, 1]),
            ("One", "bin", [4, 0, 0, 4, 4, 1]),
        ],
    },
];

// A string of its own with so much room.
fn text(alloc: Global, from: &str, room: usize) -> Result<String, AllocError> {
    let mut text = String::with_capacity(alloc, room)?;
    text.push_str(from)?;
    Ok(text)
}

fn texts(alloc: Global, from: &[&str], room: usize) -> Result<Vec<String>, AllocError> {
    let mut texts = Vec::new(alloc);
    for name in from {
        texts.push(text(alloc, name, room)?)?;
    }
    Ok(texts)
}

// A box under this name, in these groups or alone.
fn push_named(
    rects: &mut TextRects,
    id: String,
    named: Vec<String>,
    size: [u32; 3],
) -> Result<(), AllocError> {
    let [width, height, depth] = size;
    let named = if named.is_empty() { None } else { Some(named) };
    rects.push_rect(id, named, RectToInsert::new(width, height, depth))
}

// A box under a string of its own with so much room, as are its groups.
fn push_text(
    alloc: Global,
    of: &TextBox,
    room: usize,
    rects: &mut TextRects,
) -> Result<(), AllocError> {
    let (id, size, groups) = *of;
    let id = text(alloc, id, room)?;
    push_named(rects, id, texts(alloc, groups, room)?, size)
}

// The boxes of a case.
fn collect(alloc: Global, case: &TextCase, room: usize) -> Result<TextRects, AllocError> {
    let mut rects = GroupedRectsToPlace::new(alloc);
    let boxes = case.boxes;
    for of in boxes {
        push_text(alloc, of, room, &mut rects)?;
    }
    Ok(rects)
}

// The bins of a case, under strings of their own with so much room.
fn add_text_bins(
    alloc: Global,
    case: &TextCase,
    room: usize,
    bins: &mut TextBins,
) -> Result<(), AllocError> {
    let named = case.bins;
    for (name, size) in named {
        add_bin(alloc, bins, text(alloc, name, room)?, *size)?;
    }
    Ok(())
}

// The boxes and bins of a case, under strings with so much room, packed by volume.
fn pack_text(
    alloc: Global,
    case: &TextCase,
    room: usize,
    bins: &mut TextBins,
) -> Result<TextPacked, RectanglePackError> {
    if add_text_bins(alloc, case, room, bins).is_err() {
        return Err(RectanglePackError::OutOfMemory);
    }
    match collect(alloc, case, room) {
        Ok(rects) => pack(alloc, &rects, bins),
        Err(_) => Err(RectanglePackError::OutOfMemory),
    }
}

// Whether a bin and another one have equal names and the same list.
fn is_bin_alike(one: (&String, &TargetBin), other: (&String, &TargetBin)) -> bool {
    let ((id, bin), (other_id, other)) = (one, other);
    id == other_id && bin.available_bin_sections() == other.available_bin_sections()
}

// Whether equal strings stand in the same places of both maps, and the bins have the same lists.
fn are_bins_alike(bins: &TextBins, others: &TextBins) -> bool {
    all_match!(others.iter(), bins, other, one => is_bin_alike(one, other))
}

// Whether the placement is this one.
fn is_shown(placed: &Placement<String, String>, wanted: &TextPlaced) -> bool {
    let (id, bin, numbers) = *wanted;
    placed.id.as_str() == id && placed.bin.as_str() == bin && place(&placed.location) == numbers
}

// Whether the placements are those of the case, in order.
fn shows_text(packed: &TextPacked, case: &TextCase) -> bool {
    let wanted = case.placements;
    all_match!(packed.placements().iter(), wanted, placed, row => is_shown(placed, row))
}

// Whether the two are equal as a whole, and in both parts.
fn are_alike(one: &TextPacked, other: &TextPacked) -> bool {
    one == other
        && one.placements() == other.placements()
        && one.packed_locations() == other.packed_locations()
}

// Whether both came out as the case says, and alike.
fn come_out_alike(
    one: &Result<TextPacked, RectanglePackError>,
    other: &Result<TextPacked, RectanglePackError>,
    case: &TextCase,
) -> bool {
    match (one, other) {
        (Ok(one), Ok(other)) => shows_text(one, case) && are_alike(one, other),
        _ => false,
    }
}

// Packs into both bins, and answers whether it came out alike.
fn packs_alike(alloc: Global, case: &TextCase, bins: &mut TextBins, others: &mut TextBins) -> bool {
    let one = pack_text(alloc, case, 0, bins);
    let other = pack_text(alloc, case, 64, others);
    come_out_alike(&one, &other, case)
}

// Two collections, pushed alike from strings of their own, into bins under strings of their own.
fn pack_text_twice(rt: &impl Abort, alloc: Global, case: &TextCase) {
    let mut bins = BTreeMap::new(alloc);
    let mut others = BTreeMap::new(alloc);
    assert!(rt; packs_alike(alloc, case, &mut bins, &mut others));
    assert!(rt; are_bins_alike(&bins, &others));
}

#[test]
fn equal_strings_pack_alike(rt: HostRuntime) {
    for case in TEXT_CASES {
        pack_text_twice(&rt, rt.alloc(), case);
    }
    strings_have_one_result();
}

fn strings_have_one_result() {
    volume_packing_has_one_result::<String, String, String, _, _, _, _>(
        &volume_heuristic,
        &contains_smallest_box,
        &volume_heuristic,
        &contains_smallest_box,
    );
}
