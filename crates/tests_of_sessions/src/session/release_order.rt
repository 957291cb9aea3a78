//! Placements that are released from the first on, from the last on and in between, and packings
//! among these releases.

use super::large::{Boxes, packs, releases_first};
use super::{BIN, Line, Order, Script, TestSession, come_out, plenty};
use rectangle_pack::{Outstanding, Reply, SessionError};
use std::test::Fail;
use tests_support::refusing::Refusing;

// How many boxes of one cell fill a bin of one row; each stands at its number.
const COUNT: u32 = 101;

const ROW: Boxes = Boxes {
    count: COUNT,
    width: 1,
    one_is_too_tall: false,
};

// Orders in which they are released, from the first on, from the last on and in between: the first
// number, and how far the next one is behind it in a circle. The count is a prime, so that each
// number comes once.
const ORDERS: &[(u32, u32)] = &[(0, 1), (COUNT - 1, COUNT - 1), (0, 37)];

// Whether a placement is this one of the row.
fn is_of_row(placed: &Outstanding<u32, u32>, number: u32) -> bool {
    placed.number == u64::from(number) && placed.id == number && placed.location.x() == number
}

// Whether those of the row that are left are outstanding, in order, and no others.
fn are_left(outstanding: &[Outstanding<u32, u32>], left: &[bool]) -> bool {
    let mut number: u32 = 0;
    let mut found = outstanding.iter();
    for is_left in left {
        if *is_left {
            match found.next() {
                Some(placed) if is_of_row(placed, number) => {}
                _ => return false,
            }
        }
        number = number.wrapping_add(1);
    }
    found.next().is_none()
}

// Whether this number of the row is released once, and all that are left stay in order.
fn releases_one(session: &mut TestSession, left: &mut [bool], number: u32) -> bool {
    if let Some(is_left) = left.get_mut(number as usize) {
        *is_left = false;
    }
    session.release(u64::from(number)) == Ok(())
        && session.release(u64::from(number)) == Err(SessionError::UnknownPlacement)
        && are_left(session.outstanding(), left)
}

fn releases_all(session: &mut TestSession, first: u32, step: u32) -> bool {
    let mut left = [true; COUNT as usize];
    let mut number = first;
    for _ in 0..COUNT {
        if !releases_one(session, &mut left, number) {
            return false;
        }
        number = number.wrapping_add(step) % COUNT;
    }
    session.outstanding().is_empty()
}

// Fills a new bin with the row.
fn fills(session: &mut TestSession, alloc: Refusing) -> bool {
    session.add_bin(BIN, COUNT, 1, 1) == Ok(()) && packs(session, alloc, ROW, 0)
}

#[test]
fn each_order(rt: HostRuntime) {
    let alloc = plenty(&rt, rt.alloc());
    for (first, step) in ORDERS {
        let mut session = TestSession::new(alloc, 0);
        assert!(rt; fills(&mut session, alloc) && releases_all(&mut session, *first, *step));
    }
}

// Whether these numbers are outstanding, in order, up to the one before the end.
fn are_numbers(outstanding: &[Outstanding<u32, u32>], first: u64, end: u64) -> bool {
    let mut number = first;
    for placed in outstanding {
        if placed.number != number {
            return false;
        }
        number = number.wrapping_add(1);
    }
    number == end
}

// Whether each stands at its number, less as many rows as came before it.
fn are_in_place(outstanding: &[Outstanding<u32, u32>]) -> bool {
    for placed in outstanding {
        if u64::from(placed.location.x()) != placed.number % u64::from(COUNT) {
            return false;
        }
    }
    true
}

const ONE: Boxes = Boxes { count: 1, ..ROW };

// Whether the oldest placement is released, and one more box is packed where it stood.
fn takes_a_turn(session: &mut TestSession, alloc: Refusing, oldest: u64) -> bool {
    let first = oldest.wrapping_add(1);
    let next = oldest.wrapping_add(u64::from(COUNT));
    session.release(oldest) == Ok(())
        && are_numbers(session.outstanding(), first, next)
        && packs(session, alloc, ONE, next)
        && are_numbers(session.outstanding(), first, next.wrapping_add(1))
        && are_in_place(session.outstanding())
}

#[test]
fn oldest_and_next_in_turn(rt: HostRuntime) {
    let alloc = plenty(&rt, rt.alloc());
    let mut session = TestSession::new(alloc, 0);
    assert!(rt; fills(&mut session, alloc));
    for oldest in 0..250 {
        assert!(rt; takes_a_turn(&mut session, alloc, oldest));
    }
}

// How many are released from the first on; as many are packed at once.
const SOME: Boxes = Boxes { count: 50, ..ROW };

#[test]
fn as_many_as_were_released(rt: HostRuntime) {
    let alloc = plenty(&rt, rt.alloc());
    let mut session = TestSession::new(alloc, 0);
    let is_released = fills(&mut session, alloc) && releases_first(&mut session, SOME.count);
    assert!(rt; is_released && packs(&mut session, alloc, SOME, 101));
    assert!(rt; are_numbers(session.outstanding(), 50, 151));
}

// The state of the row: its free sections, their cells and count, what is placed in it, and the next
// number.
macro_rules! row {
    ($free:expr, $cells:expr, $sections:expr, $placed:expr, $next:expr) => {
        state!([held!(BIN, $free; 4 = $cells + (4 - $cells); $sections free, (4 - $cells) placed)],
            $placed, next $next)
    };
}

// A row of four cells, where memory is refused.
const ADD_ROW: Line = line!(Order::AddBin(BIN, [4, 1, 1]), Asked => Reply::Done,
    row!([[0, 0, 0, 4, 1, 1]], 4, 1, [], 0));

// The box of this number. Each takes the cell of the one that was placed four before it.
macro_rules! unit {
    ($number:expr) => {
        ($number, 0, BIN, [$number % 4, 0, 0, 1, 1, 1])
    };
}

// One more box is packed, under the number before the next one.
macro_rules! packs {
    ($next:expr, $after:expr) => {
        line!(Order::Pack(&[(0, [1, 1, 1], &[])]), Asked => packed!($next - 1, 1), $after)
    };
}

// The oldest placement is released.
macro_rules! released {
    ($oldest:expr) => {
        line!(Order::Release($oldest), Either => Reply::Done,
            row!([[$oldest % 4, 0, 0, 1, 1, 1]], 1, 1,
                [unit!($oldest + 1), unit!($oldest + 2), unit!($oldest + 3)], $oldest + 4))
    };
}

// The row is full, and this one is the oldest.
macro_rules! filled {
    ($oldest:expr) => {
        packs!($oldest + 4, row!([], 0, 0, [unit!($oldest), unit!($oldest + 1),
            unit!($oldest + 2), unit!($oldest + 3)], $oldest + 4))
    };
}

// Four boxes are packed, and then one more in turn with the release of the oldest, of these numbers.
macro_rules! turns {
    ($($oldest:literal),*) => {
        &[
            ADD_ROW,
            packs!(1, row!([[1, 0, 0, 3, 1, 1]], 3, 1, [unit!(0)], 1)),
            packs!(2, row!([[2, 0, 0, 2, 1, 1]], 2, 1, [unit!(0), unit!(1)], 2)),
            packs!(3, row!([[3, 0, 0, 1, 1, 1]], 1, 1, [unit!(0), unit!(1), unit!(2)], 3)),
            filled!(0),
            $(released!($oldest), filled!($oldest + 1)),*
        ]
    };
}

const TURNS: &[Line] = turns!(0, 1, 2, 3, 4, 5, 6, 7, 8);

// The bin and each packing are refused memory.
fn turns() -> &'static [Script] {
    const SCRIPTS: &[Script] = &[script!(from 0, TURNS, refused 14)];
    SCRIPTS
}

#[test]
fn turns_where_memory_is_refused(rt: HostRuntime) -> Result<(), Fail> {
    come_out(&rt, rt.alloc(), turns())
}
