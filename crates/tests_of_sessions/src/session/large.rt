//! Sessions past small sizes: fifty bins, and a bin with more than a thousand free sections, which
//! stand in slots while it packs.

use super::calls::{self, NO_MEMORY};
use super::cut_plan::NO_ROOM;
use super::{BIN, Made, TestSession, free_sections, plenty};
use rectangle_pack::{BinSection, Outstanding, Packed, RectToInsert, Reply};
use tests_support::boxes::Rects;
use tests_support::refusing::Refusing;

/// Boxes one cell high, each alone under its number, from 0 on.
#[derive(Clone, Copy)]
pub struct Boxes {
    pub count: u32,
    pub width: u32,
    /// Whether one more comes after them, which is narrower and too tall for its bin.
    pub one_is_too_tall: bool,
}

fn push_boxes(rects: &mut Rects, boxes: Boxes) -> Made<()> {
    for id in 0..boxes.count {
        rects.push_rect(id, None, RectToInsert::new(boxes.width, 1, 1))?;
    }
    if boxes.one_is_too_tall {
        rects.push_rect(boxes.count, None, RectToInsert::new(1, 2, 1))?;
    }
    Ok(())
}

fn pack(session: &mut TestSession, alloc: Refusing, boxes: Boxes) -> Reply {
    let mut rects = Rects::new(alloc);
    match push_boxes(&mut rects, boxes) {
        Ok(()) => calls::pack(session, &rects),
        Err(_) => NO_MEMORY,
    }
}

/// Whether these boxes are packed, under the numbers from `first` on.
pub fn packs(session: &mut TestSession, alloc: Refusing, boxes: Boxes, first: u64) -> bool {
    let count = u64::from(boxes.count);
    pack(session, alloc, boxes) == Reply::Packed(Packed { first, count })
}

const CELLS: Boxes = Boxes {
    count: 50,
    width: 1,
    one_is_too_tall: false,
};

fn adds_cells(session: &mut TestSession) -> bool {
    for id in 0..CELLS.count {
        if session.add_bin(id, 1, 1, 1).is_err() {
            return false;
        }
    }
    true
}

// Whether each box is in the bin of its own number.
fn are_in_turn(outstanding: &[Outstanding<u32, u32>]) -> bool {
    for placed in outstanding {
        if placed.id != placed.bin || placed.number != u64::from(placed.id) {
            return false;
        }
    }
    outstanding.len() == CELLS.count as usize
}

// Each bin holds one cell, and there are as many boxes of one cell.
#[test]
fn fifty_bins(rt: HostRuntime) {
    let alloc = plenty(&rt, rt.alloc());
    let mut session = TestSession::new(alloc, 0);
    let is_packed = adds_cells(&mut session) && packs(&mut session, alloc, CELLS, 0);
    assert!(rt; is_packed && are_in_turn(session.outstanding()));
}

// The boxes that fill the bin, and those that are packed afterwards.
const ALL: Boxes = Boxes {
    count: 1200,
    width: 2,
    one_is_too_tall: false,
};

const AGAIN: Boxes = Boxes { count: 100, ..ALL };

const TOO_TALL: Boxes = Boxes {
    one_is_too_tall: true,
    ..AGAIN
};

/// Whether the placements before this number are released, from the first on.
pub fn releases_first(session: &mut TestSession, end: u32) -> bool {
    for number in 0..u64::from(end) {
        if session.release(number).is_err() {
            return false;
        }
    }
    true
}

// Fills a new bin, and gives its boxes back, the first one first.
fn fills_and_empties(session: &mut TestSession, alloc: Refusing) -> bool {
    session.add_bin(BIN, ALL.width * ALL.count, 1, 1).is_ok()
        && packs(session, alloc, ALL, 0)
        && releases_first(session, ALL.count)
        && is_empty(session)
}

// Whether these are the first `count` free sections, in their order.
fn are_first(sections: &[BinSection], count: u32) -> bool {
    let mut x: u32 = 0;
    for section in sections {
        if section.x() != x {
            return false;
        }
        x = x.wrapping_add(ALL.width);
    }
    sections.len() == count as usize
}

// Whether the boxes stand in the last sections, from the last on.
fn are_placed(outstanding: &[Outstanding<u32, u32>]) -> bool {
    let mut id: u32 = 0;
    let mut x = ALL.width * ALL.count;
    for placed in outstanding {
        x = x.wrapping_sub(ALL.width);
        if placed.id != id || placed.location.x() != x {
            return false;
        }
        id = id.wrapping_add(1);
    }
    id == AGAIN.count
}

fn is_empty(session: &TestSession) -> bool {
    are_first(free_sections(session), ALL.count) && session.outstanding().is_empty()
}

// Whether a packing whose last box is too tall is rolled back.
fn rolls_back(session: &mut TestSession, alloc: Refusing) -> bool {
    pack(session, alloc, TOO_TALL) == NO_ROOM && is_empty(session)
}

// Whether the same without that box is kept.
fn keeps(session: &mut TestSession, alloc: Refusing) -> bool {
    packs(session, alloc, AGAIN, u64::from(ALL.count))
        && are_first(free_sections(session), ALL.count - AGAIN.count)
        && are_placed(session.outstanding())
}

#[test]
fn long_list(rt: HostRuntime) {
    let alloc = plenty(&rt, rt.alloc());
    let mut session = TestSession::new(alloc, 0);
    let is_emptied = fills_and_empties(&mut session, alloc);
    assert!(rt; is_emptied && rolls_back(&mut session, alloc) && keeps(&mut session, alloc));
}
