//! What fits, and packings as they are told, where ids refuse to be cloned: each clone in turn until
//! none is refused.

use rectangle_pack::{
    Group, Heuristic, Packed, Session, SessionError, Step, ToldError, contains_smallest_box,
    volume_heuristic,
};
use std::alloc::Global;
use std::process::Abort;
use std::test::Fail;
use tests_support::boxes::SizedBox;
use tests_support::names::{Clones, Name, Rects, push_all};
use tests_support::refusing::Refusing;
use tests_support::shapes::are_new;

type NameSession = Session<Name, Name, Refusing>;

const BIN: u32 = 7;

// The last one is too wide for the bin.
const BOXES: &[SizedBox] = &[
    (1, [4, 10, 1], &[]),
    (2, [2, 10, 1], &[]),
    (3, [11, 1, 1], &[]),
];

const PACKED: Packed = Packed { first: 0, count: 2 };

// Which call is made.
#[derive(Clone, Copy)]
enum Call {
    Fitting,
    FittingBest,
    Told,
}

fn step(clones: Clones, number: u32) -> Step<Name, u32, Name> {
    Step {
        group: Group::Ungrouped(Name { number, clones }),
        bin: Name {
            number: BIN,
            clones,
        },
        heuristic: Heuristic::Volume,
    }
}

// What a packing of what fits by volumes answers.
fn fit(session: &mut NameSession, rects: &Rects) -> Result<Packed, SessionError> {
    let fitted = session.pack_fitting(rects, &volume_heuristic, &contains_smallest_box)?;
    Ok(fitted.packed)
}

// What the best of two answers.
fn fit_best(session: &mut NameSession, rects: &Rects) -> Result<Packed, SessionError> {
    let heuristics = [Heuristic::Volume, Heuristic::Volume];
    let (_, fitted) = session.pack_fitting_best(rects, &heuristics)?;
    Ok(fitted.packed)
}

// What the call answers; `None` where memory was wanting.
fn answer(
    rt: &impl Abort,
    session: &mut NameSession,
    rects: &Rects,
    clones: Clones,
    call: Call,
) -> Option<Packed> {
    let fitted = match call {
        Call::Fitting => fit(session, rects),
        Call::FittingBest => fit_best(session, rects),
        Call::Told => {
            let told = session.pack_told(rects, &[step(clones, 1), step(clones, 2)]);
            assert!(rt; told.is_ok() || told == Err(ToldError::OutOfMemory));
            return told.ok();
        }
    };
    assert!(rt; fitted.is_ok() || fitted == Err(SessionError::OutOfMemory));
    fitted.ok()
}

// Whether no clone was refused. Then both boxes stand in the bin; else the session is as it was.
fn packs(
    rt: &impl Abort,
    session: &mut NameSession,
    rects: &Rects,
    clones: Clones,
    call: Call,
) -> bool {
    match answer(rt, session, rects, clones, call) {
        Some(packed) => {
            assert!(rt; packed == PACKED && session.outstanding().len() == 2);
            true
        }
        None => {
            assert!(rt; session.next_number() == 0 && session.outstanding().is_empty());
            assert!(rt; are_new(session.bins()));
            false
        }
    }
}

// Whether `count` clones were enough for the call.
fn is_packed(rt: &impl Abort, alloc: Refusing, clones: Clones, count: u64, call: Call) -> bool {
    let mut session = NameSession::new(alloc, 0);
    let mut rects = Rects::new(alloc);
    clones.set(u64::MAX);
    let bin = Name {
        number: BIN,
        clones,
    };
    assert!(rt; session.add_bin(bin, 10, 10, 1).is_ok());
    assert!(rt; push_all(&mut rects, alloc, clones, BOXES).is_ok());
    clones.set(count);
    packs(rt, &mut session, &rects, clones, call)
}

// How many clones are enough for the call. All memory is given back.
fn enough(rt: &impl Abort, alloc: Global, call: Call) -> Result<u64, Fail> {
    let clones = Clones::new(alloc, 0)?;
    for count in 0..100u64 {
        let refusing = Refusing::new(alloc, u64::MAX)?;
        let is_done = is_packed(rt, refusing, clones, count, call);
        assert!(rt; refusing.taken() == 0);
        if is_done {
            return Ok(count);
        }
    }
    Ok(0)
}

// Each of the two placements owns an id of a box and one of a bin.
#[test]
fn clones_that_are_refused(rt: HostRuntime) -> Result<(), Fail> {
    for call in [Call::Fitting, Call::FittingBest, Call::Told] {
        assert!(rt; enough(&rt, rt.alloc(), call)? >= 4);
    }
    Ok(())
}
