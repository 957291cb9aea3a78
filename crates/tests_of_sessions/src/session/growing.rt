//! `Session::grow_bin`.

use super::{BIN, OTHER, PlacedBox, State, TestSession, has_free, is_in, plenty};
use rectangle_pack::{Axis, CutStep, SessionError, contains_smallest_box, volume_heuristic};
use std::process::Abort;
use std::test::Fail;
use tests_support::boxes::collect;
use tests_support::each_request::{End, is_refused};
use tests_support::refusing::Refusing;
use tests_support::shapes::place;

// The size of a box, and of the bin that it fills.
const FULL: [u32; 3] = [4, 6, 2];

const PLACED: PlacedBox = (0, 1, BIN, [0, 0, 0, 4, 6, 2]);

const FILLED: State = state!([held!(BIN, []; 48 = 0 + 48; 0 free, 1 placed)], [PLACED], next 1);

// A growth of the bin by five cells: the axis, the old end, and the size and the place of what is
// new.
struct Growth {
    axis: Axis,
    end: u32,
    size: [u32; 3],
    new: [u32; 6],
}

const GROWTHS: &[Growth] = &[
    Growth {
        axis: Axis::X,
        end: 4,
        size: [5, 6, 2],
        new: [4, 0, 0, 5, 6, 2],
    },
    Growth {
        axis: Axis::Y,
        end: 6,
        size: [4, 5, 2],
        new: [0, 6, 0, 4, 5, 2],
    },
    Growth {
        axis: Axis::Z,
        end: 2,
        size: [4, 6, 5],
        new: [0, 0, 2, 4, 6, 5],
    },
];

fn pack(
    session: &mut TestSession,
    alloc: Refusing,
    id: u32,
    size: [u32; 3],
) -> Result<(), SessionError> {
    let rects = collect(alloc, &[(id, size, &[])], &[])?;
    session.pack(&rects, &volume_heuristic, &contains_smallest_box)?;
    Ok(())
}

fn filled(alloc: Refusing) -> Result<TestSession, SessionError> {
    let mut session = TestSession::new(alloc, 0);
    let [width, height, depth] = FULL;
    session.add_bin(BIN, width, height, depth)?;
    pack(&mut session, alloc, 1, FULL)?;
    Ok(session)
}

fn grows(rt: &impl Abort, alloc: Refusing, growth: &Growth) -> End {
    let Ok(mut session) = filled(alloc) else {
        return End::Before;
    };
    match session.grow_bin(&BIN, growth.axis, 5) {
        Ok(()) => {
            assert!(rt; has_free(&session, BIN, &[growth.new]));
            End::Done
        }
        Err(error) => {
            assert!(rt; error == SessionError::OutOfMemory && is_in(&session, &FILLED));
            End::Refused
        }
    }
}

#[test]
fn growths_of_a_full_bin(rt: HostRuntime) -> Result<(), Fail> {
    for growth in GROWTHS {
        let refused = is_refused(rt.alloc(), |refusing| Ok(grows(&rt, refusing, growth)))?;
        assert!(rt; refused);
    }
    Ok(())
}

fn is_last_placed(session: &TestSession, wanted: [u32; 6]) -> bool {
    match session.outstanding().last() {
        Some(placed) => place(&placed.location) == wanted,
        None => false,
    }
}

// A box fills what is new, and one cut parts it from the other.
fn packs_into_new(rt: &impl Abort, alloc: Refusing, growth: &Growth) -> Result<(), Fail> {
    let mut session = filled(alloc)?;
    session.grow_bin(&BIN, growth.axis, 5)?;
    pack(&mut session, alloc, 2, growth.size)?;
    assert!(rt; has_free(&session, BIN, &[]) && is_last_placed(&session, growth.new));
    let plan = session.cut_plan(&BIN)?.ok_or("no such cuts")?;
    let cut = CutStep::Cut {
        axis: growth.axis,
        place: growth.end,
    };
    assert_eq!(rt;
        plan.as_slice(),
        [cut, CutStep::Leaf, CutStep::Leaf].as_slice()
    );
    Ok(())
}

#[test]
fn boxes_in_what_is_new(rt: HostRuntime) -> Result<(), Fail> {
    for growth in GROWTHS {
        let plenty = plenty(&rt, rt.alloc());
        packs_into_new(&rt, plenty, growth)?;
    }
    Ok(())
}

// A side may reach the greatest number, and not go beyond it. No memory is asked for where it would,
// nor where there is no such bin.
#[test]
fn growths_to_the_last_number(rt: HostRuntime) -> Result<(), Fail> {
    let plenty = plenty(&rt, rt.alloc());
    let mut session = filled(plenty)?;
    let left = plenty.left();
    for (axis, end) in [(Axis::X, 4u32), (Axis::Y, 6), (Axis::Z, 2)] {
        let by = 0u32.wrapping_sub(end);
        assert_eq!(rt;
            session.grow_bin(&BIN, axis, by),
            Err(SessionError::TooLarge)
        );
        assert_eq!(rt;
            session.grow_bin(&OTHER, axis, by),
            Err(SessionError::UnknownBin)
        );
    }
    assert!(rt; is_in(&session, &FILLED) && plenty.left() == left);
    session.grow_bin(&BIN, Axis::X, u32::MAX - 4)?;
    assert!(rt; has_free(&session, BIN, &[[4, 0, 0, u32::MAX - 4, 6, 2]]));
    Ok(())
}

// What is new has no section where it has no cells.
#[test]
fn growths_without_cells(rt: HostRuntime) -> Result<(), Fail> {
    let plenty = plenty(&rt, rt.alloc());
    let mut session = TestSession::new(plenty, 0);
    session.add_bin(BIN, 4, 0, 2)?;
    session.grow_bin(&BIN, Axis::X, 5)?;
    assert!(rt; has_free(&session, BIN, &[[0, 0, 0, 4, 0, 2]]));
    session.grow_bin(&BIN, Axis::Y, 3)?;
    assert!(rt; has_free(&session, BIN, &[[0, 0, 0, 4, 0, 2], [0, 0, 0, 9, 3, 2]]));
    session.grow_bin(&BIN, Axis::Z, 0)?;
    assert!(rt; has_free(&session, BIN, &[[0, 0, 0, 4, 0, 2], [0, 0, 0, 9, 3, 2]]));
    Ok(())
}
