//! Packings of a session, and a box where it fits best, where ids refuse to be cloned: each clone in
//! turn until none is refused.

use rectangle_pack::{
    Outstanding, Packed, RectToInsert, Session, SessionError, contains_smallest_box,
    volume_heuristic,
};
use std::alloc::Global;
use std::process::Abort;
use std::test::Fail;
use tests_support::all_match;
use tests_support::boxes::{SizedBin, SizedBox};
use tests_support::names::{Clones, Name, Rects, have_lists, push_all};
use tests_support::refusing::Refusing;
use tests_support::shapes::place;

type NameSession = Session<Name, Name, Refusing>;

const FIRST: &[SizedBox] = &[(1, [4, 10, 1], &[])];

const SECOND: &[SizedBox] = &[(2, [2, 10, 1], &[]), (3, [4, 10, 1], &[])];

// What the second packing answers where it is done.
const PACKED: Packed = Packed { first: 1, count: 2 };

// A placement: number, box, bin and place.
type Placed = (u64, u32, u32, [u32; 6]);

// A session: its bins with their free sections, and the placements in the order of their numbers,
// of which the next one is theirs.
struct State {
    bins: &'static [SizedBin],
    placed: &'static [Placed],
}

const BEFORE: State = State {
    bins: &[(7, [10, 10, 1], &[[4, 0, 0, 6, 10, 1]])],
    placed: &[(0, 1, 7, [0, 0, 0, 4, 10, 1])],
};

const AFTER: State = State {
    bins: &[(7, [10, 10, 1], &[])],
    placed: &[
        (0, 1, 7, [0, 0, 0, 4, 10, 1]),
        (1, 3, 7, [4, 0, 0, 4, 10, 1]),
        (2, 2, 7, [8, 0, 0, 2, 10, 1]),
    ],
};

// Once box 2 was placed where it fits best.
const BESIDE: State = State {
    bins: &[(7, [10, 10, 1], &[[6, 0, 0, 4, 10, 1]])],
    placed: &[
        (0, 1, 7, [0, 0, 0, 4, 10, 1]),
        (1, 2, 7, [4, 0, 0, 2, 10, 1]),
    ],
};

// Whether the placement is this one.
fn is_placed(placed: &Outstanding<Name, Name>, wanted: &Placed) -> bool {
    let (number, id, bin, at) = *wanted;
    placed.number == number
        && placed.id.number == id
        && placed.bin.number == bin
        && place(&placed.location) == at
}

// Whether these placements are outstanding.
fn are_outstanding(outstanding: &[Outstanding<Name, Name>], all: &[Placed]) -> bool {
    all_match!(outstanding.iter(), all, placed, wanted => is_placed(placed, wanted))
}

fn is_in(session: &NameSession, state: &State) -> bool {
    have_lists(session.bins(), state.bins)
        && are_outstanding(session.outstanding(), state.placed)
        && session.next_number() == state.placed.len() as u64
}

// Packs the boxes where `count` clones are left.
fn pack(
    session: &mut NameSession,
    alloc: Refusing,
    clones: Clones,
    boxes: &[SizedBox],
    count: u64,
) -> Result<Packed, SessionError> {
    let mut rects = Rects::new(alloc);
    push_all(&mut rects, alloc, clones, boxes)?;
    clones.set(count);
    session.pack(&rects, &volume_heuristic, &contains_smallest_box)
}

// Whether the session may be so after this answer. If a clone was refused, it is as it was.
fn is_right(answer: Result<Packed, SessionError>, session: &NameSession) -> bool {
    match answer {
        Ok(packed) => packed == PACKED && is_in(session, &AFTER),
        Err(error) => error == SessionError::OutOfMemory && is_in(session, &BEFORE),
    }
}

// Packs beside an outstanding placement. Whether no clone was refused.
fn packs_beside(
    rt: &impl Abort,
    session: &mut NameSession,
    alloc: Refusing,
    clones: Clones,
    count: u64,
) -> bool {
    let answer = pack(session, alloc, clones, SECOND, count);
    assert!(rt; is_right(answer, session));
    answer.is_ok()
}

// The same in a new session, with a bin 10x10x1 and the first box in it.
fn is_packed_beside(rt: &impl Abort, alloc: Refusing, clones: Clones, count: u64) -> bool {
    let mut session = NameSession::new(alloc, 0);
    clones.set(u64::MAX);
    let bin = Name { number: 7, clones };
    session.add_bin(bin, 10, 10, 1).is_ok()
        && pack(&mut session, alloc, clones, FIRST, u64::MAX).is_ok()
        && packs_beside(rt, &mut session, alloc, clones, count)
}

// How many clones are enough for a packing. All memory is given back.
fn enough(rt: &impl Abort, alloc: Global) -> Result<u64, Fail> {
    let clones = Clones::new(alloc, 0)?;
    for count in 0..100u64 {
        let refusing = Refusing::new(alloc, u64::MAX)?;
        let is_done = is_packed_beside(rt, refusing, clones, count);
        assert!(rt; refusing.taken() == 0);
        if is_done {
            return Ok(count);
        }
    }
    Ok(0)
}

// Each of the two new placements owns an id of a box and one of a bin.
#[test]
fn packings(rt: HostRuntime) -> Result<(), Fail> {
    assert!(rt; enough(&rt, rt.alloc())? >= 4);
    Ok(())
}

// Places box 2 where it fits best, beside the first box in a bin 10x10x1, where `count` clones are
// left. Whether none was refused.
fn is_placed_best(rt: &impl Abort, alloc: Refusing, clones: Clones, count: u64) -> bool {
    let mut session = NameSession::new(alloc, 0);
    clones.set(u64::MAX);
    let bin = Name { number: 7, clones };
    let id = Name { number: 2, clones };
    let size = RectToInsert::new(2, 10, 1);
    assert!(rt; session.add_bin(bin, 10, 10, 1).is_ok());
    assert!(rt; pack(&mut session, alloc, clones, FIRST, u64::MAX).is_ok());
    clones.set(count);
    match session.place_best(None, id, size, &volume_heuristic, &contains_smallest_box) {
        Ok(number) => {
            assert!(rt; number == 1 && is_in(&session, &BESIDE));
            true
        }
        Err(error) => {
            assert!(rt; error == SessionError::OutOfMemory && is_in(&session, &BEFORE));
            false
        }
    }
}

// The placement owns a clone of the bin's id.
#[test]
fn boxes_that_fit_best(rt: HostRuntime) -> Result<(), Fail> {
    let clones = Clones::new(rt.alloc(), 0)?;
    for (count, is_done) in [(0, false), (1, true)] {
        let refusing = Refusing::new(rt.alloc(), u64::MAX)?;
        assert!(rt; is_placed_best(&rt, refusing, clones, count) == is_done);
        assert!(rt; refusing.taken() == 0);
    }
    Ok(())
}
