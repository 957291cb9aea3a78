//! Calls past small sizes: ten thousand boxes of one cell, which fill one bin or two thousand. That
//! they are answered `RP_DONE` is seen here.
ghost use Rattle.std.specs.Prelude.{IsSome};

use super::NOWHERE;
use super::reading::{NO_STEP, UNSET as UNCUT};
use super::session::UNSET;
use crate::collection::{RP_BEST, RP_VOLUME, RpCollection, RpMember};
use crate::handle::RpSession;
use crate::reading::{rectangle_pack_session_cut_plan, rectangle_pack_session_free_sections};
use crate::session::{
    RpOutstanding, rectangle_pack_session_add_bin, rectangle_pack_session_coalesce_all,
    rectangle_pack_session_free, rectangle_pack_session_new, rectangle_pack_session_pack,
    rectangle_pack_session_release,
};
use crate::{RP_DONE, RpBin, RpBox, RpPlacement, rectangle_pack_boxes, rectangle_pack_collection};
use std::alloc::{AllocError, Global};
use std::test::Fail;

// Bins of one size, and how many boxes of one cell each takes.
#[derive(Clone, Copy)]
struct Case {
    bins: u32,
    bin: RpBin,
    cells: usize,
    // How many steps the plan of a full bin has: a leaf for each box, and one cut fewer.
    steps: usize,
}

const CASES: [Case; 2] = [
    Case {
        bins: 1,
        bin: RpBin {
            width: 100,
            height: 100,
            depth: 1,
        },
        cells: 10000,
        steps: 19999,
    },
    Case {
        bins: 2000,
        bin: RpBin {
            width: 5,
            height: 1,
            depth: 1,
        },
        cells: 5,
        steps: 9,
    },
];

const BOXES: usize = 10000;

const HALF: usize = 5000;

const UNIT: RpBox = RpBox {
    width: 1,
    height: 1,
    depth: 1,
    group: 0,
};

// Whether the placements are in the bins in the order of the boxes, of which `cells` fill each bin,
// one after another.
fn are_in_turn(placements: &[RpPlacement], cells: usize) -> bool {
    for (i, placement) in placements.iter().enumerate() {
        if placement.bin as usize != i / cells.max(1) {
            return false;
        }
    }
    placements.len() == BOXES
}

fn pack_boxes(
    alloc: Global,
    bins: &[RpBin],
    placements: &mut [RpPlacement],
) -> Result<bool, AllocError> {
    let boxes = vec![in alloc; UNIT; BOXES]?;
    Ok(rectangle_pack_boxes(alloc, bins, boxes.as_slice(), placements) == RP_DONE)
}

// One more box each for half of the boxes.
fn members(alloc: Global) -> Result<Vec<RpMember>, AllocError> {
    let mut members = Vec::new(alloc);
    for index in 0..HALF as u32 {
        members.push(RpMember { index, group: 0 })?;
    }
    Ok(members)
}

// With each heuristic the packing is the same, so the first is the best.
fn is_packed_best(
    alloc: Global,
    bins: &[RpBin],
    collection: &RpCollection<'_>,
    placements: &mut [RpPlacement],
) -> bool {
    let mut chosen = RP_BEST;
    let status = rectangle_pack_collection(
        alloc,
        bins,
        collection,
        RP_BEST,
        placements,
        &mut chosen,
    );
    (status, chosen) == (RP_DONE, RP_VOLUME)
}

fn pack_members(
    alloc: Global,
    bins: &[RpBin],
    placements: &mut [RpPlacement],
) -> Result<bool, AllocError> {
    let boxes = vec![in alloc; UNIT; HALF]?;
    let members = members(alloc)?;
    let collection = RpCollection {
        members: members.as_slice(),
        ..RpCollection::of(boxes.as_slice())
    };
    Ok(is_packed_best(alloc, bins, &collection, placements))
}

// Whether the boxes fill new bins, as boxes alone, or half of them as members.
fn fills(alloc: Global, case: &Case, as_members: bool) -> Result<bool, AllocError> {
    let bins = vec![in alloc; case.bin; case.bins as usize]?;
    let mut placements = vec![in alloc; NOWHERE; BOXES]?;
    let is_done = if as_members {
        pack_members(alloc, bins.as_slice(), placements.as_mut_slice())?
    } else {
        pack_boxes(alloc, bins.as_slice(), placements.as_mut_slice())?
    };
    Ok(is_done && are_in_turn(placements.as_slice(), case.cells))
}

#[test]
fn bins_are_filled(rt: HostRuntime) -> Result<(), Fail> {
    for case in CASES {
        for as_members in [false, true] {
            let is_filled = fills(rt.alloc(), &case, as_members)?;
            assert!(rt; is_filled, "{} bins, {as_members}", case.bins);
        }
    }
    Ok(())
}

// A handle that has a session.
#[derive(Drop)]
struct Opened {
    session: RpSession,
    ghost made: { IsSome session.state },
}

fn open(alloc: Global) -> Option<Opened> {
    let mut session = RpSession::none(alloc);
    if rectangle_pack_session_new(alloc, &mut session) == RP_DONE {
        Some(Opened { session })
    } else {
        None
    }
}

fn close(alloc: Global, opened: Opened) {
    let Opened { mut session } = opened;
    rectangle_pack_session_free(alloc, &mut session);
}

// Whether all bins are added.
fn adds(alloc: Global, opened: &mut Opened, case: &Case) -> bool {
    let RpBin {
        width,
        height,
        depth,
    } = case.bin;
    for bin in 0..case.bins {
        let session = &mut opened.session;
        if rectangle_pack_session_add_bin(alloc, session, bin, width, height, depth) != RP_DONE {
            return false;
        }
    }
    true
}

// Whether the boxes are in the bins in their order, under numbers from 0 on.
fn are_numbered(placements: &[RpOutstanding], cells: usize) -> bool {
    for (i, placed) in placements.iter().enumerate() {
        if placed.number != i as u64 || placed.placement.bin as usize != i / cells.max(1) {
            return false;
        }
    }
    placements.len() == BOXES
}

// The status of a packing.
fn pack(
    alloc: Global,
    opened: &mut Opened,
    boxes: &[RpBox],
    placements: &mut [RpOutstanding],
) -> u32 {
    rectangle_pack_session_pack(alloc, &mut opened.session, boxes, placements)
}

// Whether all boxes are packed.
fn packs(alloc: Global, opened: &mut Opened, case: &Case) -> Result<bool, AllocError> {
    let boxes = vec![in alloc; UNIT; BOXES]?;
    let mut placements = vec![in alloc; UNSET; BOXES]?;
    let status = pack(alloc, opened, boxes.as_slice(), placements.as_mut_slice());
    Ok(status == RP_DONE && are_numbered(placements.as_slice(), case.cells))
}

// Whether the plan of each bin has as many steps as it is to have.
fn plans(alloc: Global, opened: &mut Opened, case: &Case) -> Result<bool, AllocError> {
    let mut steps = vec![in alloc; NO_STEP; case.steps]?;
    for bin in 0..case.bins {
        let (session, array) = (&mut opened.session, steps.as_mut_slice());
        let mut count = 0;
        let status = rectangle_pack_session_cut_plan(alloc, session, bin, array, &mut count);
        if (status, count) != (RP_DONE, case.steps) {
            return Ok(false);
        }
    }
    Ok(true)
}

// Whether all boxes are released.
fn releases(alloc: Global, opened: &mut Opened) -> bool {
    for number in 0..BOXES as u64 {
        if rectangle_pack_session_release(alloc, &mut opened.session, number) != RP_DONE {
            return false;
        }
    }
    true
}

// Whether each bin has `wanted` free sections.
fn are_free(
    alloc: Global,
    opened: &mut Opened,
    case: &Case,
    wanted: usize,
) -> Result<bool, AllocError> {
    let mut sections = vec![in alloc; UNCUT; wanted]?;
    for bin in 0..case.bins {
        let (session, array) = (&mut opened.session, sections.as_mut_slice());
        let mut count = 0;
        let status = rectangle_pack_session_free_sections(alloc, session, bin, array, &mut count);
        if (status, count) != (RP_DONE, wanted) {
            return Ok(false);
        }
    }
    Ok(true)
}

// Whether each bin is swept.
fn sweeps(alloc: Global, opened: &mut Opened, case: &Case) -> bool {
    for bin in 0..case.bins {
        if rectangle_pack_session_coalesce_all(alloc, &mut opened.session, bin) != RP_DONE {
            return false;
        }
    }
    true
}

// Whether the boxes fill the bins, each of which is one section again once they are released and it
// is swept.
fn fills_and_empties(alloc: Global, opened: &mut Opened, case: &Case) -> Result<bool, AllocError> {
    let is_filled = adds(alloc, opened, case)
        && packs(alloc, opened, case)?
        && plans(alloc, opened, case)?;
    let is_emptied = releases(alloc, opened) && are_free(alloc, opened, case, case.cells)?;
    let is_swept = sweeps(alloc, opened, case) && are_free(alloc, opened, case, 1)?;
    Ok(is_filled && is_emptied && is_swept)
}

#[test]
fn sessions_are_filled(rt: HostRuntime) -> Result<(), Fail> {
    let alloc = rt.alloc();
    for case in CASES {
        let mut opened = open(alloc).ok_or("no session")?;
        let is_right = fills_and_empties(alloc, &mut opened, &case)?;
        assert!(rt; is_right, "{} bins", case.bins);
        close(alloc, opened);
    }
    Ok(())
}
