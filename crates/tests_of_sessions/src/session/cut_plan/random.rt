//! Plans of the bins of random sessions, beside their definition.

use super::read_back::{Cuboid, defined_plan, parts_into};
use rectangle_pack::{
    BinSection, CutStep, GroupedRectsToPlace, Outstanding, Packed, RectToInsert, Session,
    SessionError, TargetBin, contains_smallest_box, volume_heuristic,
};
use std::alloc::{AllocError, Global};
use std::test::Fail;
use tests_support::dice::Dice;
use tests_support::shapes::{numbers, place};

type Numbered = Session<u32, u32>;

type Rects = GroupedRectsToPlace<u32, u32>;

const BINS: [u32; 3] = [0, 1, 2];

// What a command of a session does.
#[derive(Clone, Copy)]
enum Kind {
    AddBin,
    Pack,
    Release,
    Coalesce,
    CoalesceAll,
}

// The commands that a session begins with, and those that it may go on with, in equal shares.
const FILLING: &[Kind] = &[
    Kind::AddBin,
    Kind::Pack,
    Kind::Pack,
    Kind::Pack,
    Kind::Release,
];

const EMPTYING: &[Kind] = &[Kind::Pack, Kind::Release, Kind::Release];

const JOINING: &[Kind] = &[Kind::Release, Kind::Coalesce, Kind::Coalesce];

const SWEEPING: &[Kind] = &[Kind::Pack, Kind::Release, Kind::Release, Kind::CoalesceAll];

// A side of a box, mostly 1 and seldom 0.
fn side(dice: &mut Dice) -> u32 {
    dice.one_of(&[0, 1, 1, 1, 1, 1, 1, 1, 1, 1, 1, 2, 2, 2, 2, 3], 1)
}

// A box alone, or in one of two groups.
fn push_one(rects: &mut Rects, alloc: Global, dice: &mut Dice, id: u32) -> Result<(), AllocError> {
    let groups = match dice.below(4) {
        0 => Some([dice.one_of(&[0, 1], 0)].to_vec(alloc)?),
        _ => None,
    };
    let rect = RectToInsert::new(side(dice), side(dice), side(dice));
    rects.push_rect(id, groups, rect)
}

fn push_some(rects: &mut Rects, alloc: Global, dice: &mut Dice) -> Result<(), AllocError> {
    for id in 0..dice.one_of(&[1, 2, 3, 4], 1) {
        push_one(rects, alloc, dice, id)?;
    }
    Ok(())
}

fn holds(section: &BinSection, rect: &RectToInsert) -> bool {
    let size = section.whd();
    rect.width() <= size.width() && rect.height() <= size.height() && rect.depth() <= size.depth()
}

// Whether one of these free sections holds the box.
fn one_holds(sections: &[BinSection], rect: &RectToInsert) -> bool {
    for section in sections {
        if holds(section, rect) {
            return true;
        }
    }
    false
}

// Whether one of these free sections holds one of these boxes.
fn holds_one(sections: &[BinSection], rects: &Rects) -> bool {
    for rect in rects.rects().values() {
        if one_holds(sections, rect) {
            return true;
        }
    }
    false
}

// Whether a free section of some bin does.
fn hold_one(session: &Numbered, rects: &Rects) -> bool {
    for bin in session.bins().values() {
        if holds_one(bin.available_bin_sections().as_slice(), rects) {
            return true;
        }
    }
    false
}

// Whether these boxes, each in one group, are placed from the next number on, or have no room. One
// box alone has none exactly where no free section holds it.
fn pack_all(session: &mut Numbered, rects: &Rects) -> bool {
    let is_one = rects.rects().len() == 1;
    let is_held = hold_one(session, rects);
    let packed = Packed {
        first: session.next_number(),
        count: rects.rects().len() as u64,
    };
    match session.pack(rects, &volume_heuristic, &contains_smallest_box) {
        Ok(answer) => answer == packed && (is_held || !is_one),
        Err(error) => error == SessionError::NotEnoughBinSpace && !(is_held && is_one),
    }
}

fn pack(session: &mut Numbered, alloc: Global, dice: &mut Dice) -> Result<bool, AllocError> {
    let mut rects: Rects = GroupedRectsToPlace::new(alloc);
    match push_some(&mut rects, alloc, dice) {
        Ok(()) => Ok(pack_all(session, &rects)),
        Err(error) => Err(error),
    }
}

fn release(session: &mut Numbered, dice: &mut Dice) -> bool {
    let index = dice.index(session.outstanding().len());
    let number = match session.outstanding().get(index) {
        Some(chosen) => chosen.number,
        None => return true,
    };
    session.release(number).is_ok()
}

// Whether this is what a call answers that names a bin which is there or not.
fn is_of_bin(answer: Result<(), SessionError>, is_there: bool) -> bool {
    match answer {
        Ok(()) => is_there,
        Err(error) => !is_there && error == SessionError::UnknownBin,
    }
}

fn coalesce(session: &mut Numbered, dice: &mut Dice) -> bool {
    let bin = dice.one_of(&BINS, 0);
    let is_there = session.bins().contains_key(&bin);
    let (idx, lo) = (dice.index(12), dice.index(12));
    let hi = lo.saturating_add(dice.index(4));
    is_of_bin(session.coalesce(&bin, idx, lo..hi), is_there)
}

fn coalesce_all(session: &mut Numbered, dice: &mut Dice) -> bool {
    let bin = dice.one_of(&BINS, 0);
    let is_there = session.bins().contains_key(&bin);
    is_of_bin(session.coalesce_all(&bin), is_there)
}

fn add_bin(session: &mut Numbered, dice: &mut Dice, id: u32) -> bool {
    let sides = [1, 2, 3, 3, 3, 4];
    let is_there = session.bins().contains_key(&id);
    let (width, height) = (dice.one_of(&sides, 1), dice.one_of(&sides, 1));
    match session.add_bin(id, width, height, dice.one_of(&[1, 2], 1)) {
        Ok(()) => !is_there,
        Err(error) => is_there && error == SessionError::DuplicateBin,
    }
}

// Whether the session answers a command as it may.
fn command(
    session: &mut Numbered,
    alloc: Global,
    dice: &mut Dice,
    kind: Kind,
) -> Result<bool, AllocError> {
    match kind {
        Kind::AddBin => Ok(add_bin(session, dice, 2)),
        Kind::Pack => pack(session, alloc, dice),
        Kind::Release => Ok(release(session, dice)),
        Kind::Coalesce => Ok(coalesce(session, dice)),
        Kind::CoalesceAll => Ok(coalesce_all(session, dice)),
    }
}

fn commands(
    session: &mut Numbered,
    alloc: Global,
    dice: &mut Dice,
    kinds: &[Kind],
) -> Result<bool, AllocError> {
    for _command in 0..40 {
        let kind = dice.one_of(kinds, Kind::Pack);
        if !command(session, alloc, dice, kind)? {
            return Ok(false);
        }
    }
    Ok(true)
}

// Gives a session two or three small bins, and commands. Whether it answers each as it may.
fn play(session: &mut Numbered, alloc: Global, dice: &mut Dice) -> Result<bool, AllocError> {
    if !add_bin(session, dice, 0) || !add_bin(session, dice, 1) {
        return Ok(false);
    }
    let is_filled = commands(session, alloc, dice, FILLING)?;
    let kinds = dice.one_of(&[EMPTYING, JOINING, SWEEPING], JOINING);
    Ok(is_filled && commands(session, alloc, dice, kinds)?)
}

// Puts a box with cells into the list.
fn push_box(boxes: &mut Vec<Cuboid>, cuboid: Cuboid) -> Result<(), AllocError> {
    let [_, _, _, width, height, depth] = cuboid;
    if width > 0 && height > 0 && depth > 0 {
        boxes.push(cuboid)?;
    }
    Ok(())
}

fn push_free(boxes: &mut Vec<Cuboid>, sections: &[BinSection]) -> Result<(), AllocError> {
    for section in sections {
        push_box(boxes, numbers(section))?;
    }
    Ok(())
}

fn push_placed(
    boxes: &mut Vec<Cuboid>,
    outstanding: &[Outstanding<u32, u32>],
    bin: u32,
) -> Result<(), AllocError> {
    for placement in outstanding {
        if placement.bin == bin {
            push_box(boxes, place(&placement.location))?;
        }
    }
    Ok(())
}

// The box that a bin is.
fn whole_of(bin: &TargetBin) -> Cuboid {
    let size = bin.max_size();
    [0, 0, 0, size.width(), size.height(), size.depth()]
}

// Whether the plan is the one by the definition, of a box that these fill, in order, and parts it
// into them.
fn is_right(
    alloc: Global,
    whole: Cuboid,
    boxes: &[Cuboid],
    plan: &[CutStep],
) -> Result<bool, AllocError> {
    match defined_plan(alloc, whole, boxes)? {
        Some(defined) if plan == defined.as_slice() => parts_into(alloc, whole, plan, boxes),
        _ => Ok(false),
    }
}

// What is found of the plan of a bin.
#[derive(Clone, Copy)]
enum Found {
    Plan,
    NoPlan,
    Wrong,
}

// The plan of a bin that these boxes fill, in order. A bin without a plan was coalesced.
fn find_plan(
    alloc: Global,
    session: &Numbered,
    id: u32,
    whole: Cuboid,
    boxes: &[Cuboid],
) -> Result<Found, SessionError> {
    let was_coalesced = session.was_coalesced(&id) == Some(true);
    let (is_right, found) = match session.cut_plan(&id)? {
        Some(plan) => (is_right(alloc, whole, boxes, plan.as_slice())?, Found::Plan),
        None => (
            was_coalesced && defined_plan(alloc, whole, boxes)?.is_none(),
            Found::NoPlan,
        ),
    };
    Ok(if is_right { found } else { Found::Wrong })
}

// Puts the boxes with cells of a bin into the list, in order.
fn gather(
    boxes: &mut Vec<Cuboid>,
    bin: &TargetBin,
    outstanding: &[Outstanding<u32, u32>],
    id: u32,
) -> Result<(), AllocError> {
    push_free(boxes, bin.available_bin_sections().as_slice())?;
    push_placed(boxes, outstanding, id)?;
    boxes.sort_unstable();
    Ok(())
}

// How many bins have a plan, how many rightly have none, and how many plans and sessions are wrong.
#[derive(Clone, Copy)]
struct Counts {
    with: u32,
    without: u32,
    wrong: u32,
}

// Counts a bin of the session.
fn count_bin(
    counts: &mut Counts,
    alloc: Global,
    session: &Numbered,
    id: u32,
    bin: &TargetBin,
) -> Result<(), SessionError> {
    let mut boxes = Vec::new(alloc);
    gather(&mut boxes, bin, session.outstanding(), id)?;
    let count = match find_plan(alloc, session, id, whole_of(bin), boxes.as_slice())? {
        Found::Plan => &mut counts.with,
        Found::NoPlan => &mut counts.without,
        Found::Wrong => &mut counts.wrong,
    };
    *count = count.saturating_add(1);
    Ok(())
}

fn count_bins(counts: &mut Counts, alloc: Global, session: &Numbered) -> Result<(), SessionError> {
    for (id, bin) in session.bins().iter() {
        count_bin(counts, alloc, session, *id, bin)?;
    }
    Ok(())
}

// Plays a session, and counts its bins.
fn count_session(counts: &mut Counts, alloc: Global, dice: &mut Dice) -> Result<(), SessionError> {
    let mut session: Numbered = Session::new(alloc, 0);
    if !play(&mut session, alloc, dice)? {
        counts.wrong = counts.wrong.saturating_add(1);
    }
    count_bins(counts, alloc, &session)
}

#[test]
fn random_sessions(rt: HostRuntime) -> Result<(), Fail> {
    let mut dice = Dice::new(1);
    let mut counts = Counts {
        with: 0,
        without: 0,
        wrong: 0,
    };
    for session in 0..400 {
        count_session(&mut counts, rt.alloc(), &mut dice)?;
        assert_eq!(rt; counts.wrong, 0, "session {session}");
    }
    assert!(rt; counts.with > 0 && counts.without > 0);
    Ok(())
}
