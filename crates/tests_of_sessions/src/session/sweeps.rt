//! Sweeps in random sessions: what is left shares no whole face, has the cells that were free, and is
//! what the sweep of an equal bin outside a session leaves, which looks at each section.

use super::calls::{pack, reply};
use super::cut_plan::NO_ROOM;
use super::{BIN, TestSession, UNKNOWN, free_sections, plenty};
use rectangle_pack::{BinSection, RectToInsert, Reply};
use tests_support::boxes::Rects;
use tests_support::dice::Dice;
use tests_support::refusing::Refusing;
use tests_support::shapes::numbers;

// A side of a box, mostly 1.
fn side(dice: &mut Dice) -> u32 {
    if dice.below(4) == 0 { 2 } else { 1 }
}

// Packs a box, if the bin has space for it.
fn packs_one(session: &mut TestSession, alloc: Refusing, dice: &mut Dice) -> bool {
    let mut rects = Rects::new(alloc);
    let rect = RectToInsert::new(side(dice), side(dice), side(dice));
    if rects.push_rect(0, None, rect).is_err() {
        return false;
    }
    let reply = pack(session, &rects);
    matches!(reply, Reply::Packed(_)) || reply == NO_ROOM
}

// Gives back the placement of this number, if it is outstanding.
fn releases_one(session: &mut TestSession, number: u64) -> bool {
    let reply = reply(session.release(number));
    reply == Reply::Done || reply == UNKNOWN
}

// Packs boxes, and gives most of them back in another order.
fn plays(session: &mut TestSession, alloc: Refusing, dice: &mut Dice) -> bool {
    for _box in 0..60u32 {
        if !packs_one(session, alloc, dice) {
            return false;
        }
    }
    for _turn in 0..90u32 {
        if !releases_one(session, dice.below(session.next_number())) {
            return false;
        }
    }
    true
}

// What sections have of each other: how many pairs of them share a whole face, each counted from
// either side, and how many cells all have.
#[derive(Drop)]
struct Counts {
    pairs: u64,
    cells: u64,
}

// The start and the length of a section on each axis.
fn stretches(section: &BinSection) -> [[u32; 2]; 3] {
    let [x, y, z, width, height, depth] = numbers(section);
    [[x, width], [y, height], [z, depth]]
}

// Whether one of two stretches ends where the other begins.
fn follow(one: [u32; 2], other: [u32; 2]) -> bool {
    one[0].checked_add(one[1]) == Some(other[0]) || other[0].checked_add(other[1]) == Some(one[0])
}

// Whether two sections share a whole face.
fn share_a_face(one: [[u32; 2]; 3], other: [[u32; 2]; 3]) -> bool {
    let same_x = one[0] == other[0];
    let same_y = one[1] == other[1];
    let same_z = one[2] == other[2];
    (same_y && same_z && follow(one[0], other[0]))
        || (same_x && same_z && follow(one[1], other[1]))
        || (same_x && same_y && follow(one[2], other[2]))
}

// How many of these sections share a whole face with this one.
fn neighbours(one: [[u32; 2]; 3], sections: &[BinSection]) -> u64 {
    let mut count = 0u64;
    for section in sections {
        if share_a_face(one, stretches(section)) {
            count = count.wrapping_add(1);
        }
    }
    count
}

fn look_at(sections: &[BinSection]) -> Counts {
    let mut counts = Counts { pairs: 0, cells: 0 };
    for section in sections {
        let one = stretches(section);
        let volume = u64::from(one[0][1]) * u64::from(one[1][1]);
        counts.pairs = counts.pairs.wrapping_add(neighbours(one, sections));
        counts.cells = counts
            .cells
            .wrapping_add(volume.wrapping_mul(u64::from(one[2][1])));
    }
    counts
}

// Sweeps the bin, and answers whether it is then as an equal bin outside the session.
fn is_swept_alike(session: &mut TestSession) -> bool {
    let Some(bin) = session.bins().get(&BIN) else {
        return false;
    };
    let Ok(mut plain) = bin.clone() else {
        return false;
    };
    plain.coalesce_all();
    session.coalesce_all(&BIN).is_ok()
        && free_sections(session) == plain.available_bin_sections().as_slice()
}

// How many faces were shared before a sweep, if it goes well: none is shared afterwards, and as
// many cells are free.
fn sweep(session: &mut TestSession) -> Option<u64> {
    let old = look_at(free_sections(session));
    if !is_swept_alike(session) {
        return None;
    }
    let new = look_at(free_sections(session));
    if new.pairs == 0 && new.cells == old.cells {
        Some(old.pairs)
    } else {
        None
    }
}

// Plays and sweeps three times. How many faces were shared, if all went well.
fn play_and_sweep(session: &mut TestSession, alloc: Refusing, dice: &mut Dice) -> Option<u64> {
    let mut joins = 0u64;
    for _sweep in 0..3u32 {
        if !plays(session, alloc, dice) {
            return None;
        }
        joins = joins.wrapping_add(sweep(session)?);
    }
    Some(joins)
}

// The same in a new session, in which some were shared.
fn sweeps(alloc: Refusing, dice: &mut Dice) -> bool {
    let mut session = TestSession::new(alloc, 0);
    session.add_bin(BIN, 4, 4, 4).is_ok()
        && matches!(play_and_sweep(&mut session, alloc, dice), Some(joins) if joins > 0)
}

#[test]
fn random_sweeps(rt: HostRuntime) {
    let alloc = plenty(&rt, rt.alloc());
    let mut dice = Dice::new(1);
    for number in 0..100u32 {
        assert!(rt; sweeps(alloc, &mut dice), "session {number}");
    }
}
