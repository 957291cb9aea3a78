//! Cutting plans whose memory is refused.

use super::PlanStep::{Leaf, X, Y, Z};
use super::Step::{self, Call, IsIn, NoBin, Plans, Replies};
use super::{PlanStep, play_granted};
use crate::session::Order::{AddBin, Coalesce, Pack, Release};
use crate::session::calls::set;
use crate::session::releases::{
    BOTH_PLACED, BOTH_RELEASED, JOINED, NOT_JOINED, P, P_PLACED, P_RELEASED, Q,
};
use crate::session::{BIN, Came, ONE_NEW_BIN, OTHER, UNKNOWN};
use rectangle_pack::{Reply, SessionError};
use std::alloc::Global;
use std::process::Abort;

const FIRST: Reply = packed!(0, 1);

const SECOND: Reply = packed!(1, 1);

const NO_BIN: Reply = Reply::Refused(SessionError::UnknownBin);

const ONE: &[PlanStep] = &[Leaf];

// Two boxes, one beside the other.
const TWO: &[PlanStep] = &[X(4), Leaf, Leaf];

// A bin that two boxes fill, and that is free again once both are released; its plan is asked for
// after each call, and is refused each request. That there is no such bin takes no memory.
fn script() -> &'static [Step] {
    const SCRIPT: &[Step] = &[
        NoBin(BIN),
        Replies(AddBin(BIN, [10, 10, 1]), Reply::Done),
        IsIn(ONE_NEW_BIN, ONE),
        Replies(Pack(&[(P, [4, 10, 1], &[])]), FIRST),
        IsIn(P_PLACED, TWO),
        Replies(Pack(&[(Q, [6, 10, 1], &[])]), SECOND),
        IsIn(BOTH_PLACED, TWO),
        Replies(Release(0), Reply::Done),
        IsIn(P_RELEASED, TWO),
        Replies(Release(1), Reply::Done),
        IsIn(BOTH_RELEASED, TWO),
        // An index past the end and an empty range join nothing.
        Replies(Coalesce(BIN, 2, 0, 2), Reply::Done),
        IsIn(NOT_JOINED, TWO),
        Replies(Coalesce(BIN, 1, 1, 0), Reply::Done),
        IsIn(NOT_JOINED, TWO),
        Replies(Coalesce(OTHER, 0, 0, 2), NO_BIN),
        IsIn(NOT_JOINED, TWO),
        Replies(Coalesce(BIN, 1, 0, 2), Reply::Done),
        IsIn(JOINED, ONE),
        // A released number is unknown.
        Replies(Release(0), UNKNOWN),
        IsIn(JOINED, ONE),
    ];
    SCRIPT
}

// The longest script has no more steps.
const MOST_STEPS: usize = 21;

// Whether these are among the steps that were refused memory: all that ask for plans.
fn were_all_refused(script: &[Step], refused: &[bool]) -> bool {
    if script.len() > refused.len() {
        return false;
    }
    for index in 0..script.len() {
        if matches!(script[index], IsIn(..) | Plans(..)) && !refused[index] {
            return false;
        }
    }
    true
}

// A box on the left, one at the bottom of the rest, and two in front of each other in what is left,
// whose orders are kept.
fn peeled() -> &'static [Step] {
    const PEELED: &[Step] = &[
        Call(AddBin(BIN, [2, 2, 3])),
        packs!(P: [1, 2, 3]),
        packs!(P: [1, 1, 3]),
        packs!(P: [1, 1, 1]),
        plans!(BIN => &[X(1), Leaf, Y(1), Leaf, Z(1), Leaf, Leaf]),
    ];
    PEELED
}

// Plays the script with each request refused in turn, until none is, and notes the steps that were
// refused memory. How the script came out then, and at which step.
fn refuse_each(
    rt: &impl Abort,
    alloc: Global,
    script: &[Step],
    were_refused: &mut [bool],
) -> (usize, Came) {
    for granted in 0..200u64 {
        match play_granted(rt, alloc, granted, script) {
            (step, Came::Refused) => set(were_refused, step),
            end => return end,
        }
    }
    (0, Came::Wrong)
}

fn come_out(rt: &impl Abort, alloc: Global, script: &[Step]) {
    let mut were_refused = [false; MOST_STEPS];
    let (step, came) = refuse_each(rt, alloc, script, &mut were_refused);
    assert!(rt; matches!(came, Came::Out), "step {step}");
    assert!(rt; were_all_refused(script, &were_refused));
}

#[test]
fn plans(rt: HostRuntime) {
    come_out(&rt, rt.alloc(), script());
    come_out(&rt, rt.alloc(), peeled());
}
