//! The examples of the documentation of sessions. One has several blocks, and so it stands in
//! several functions.

use rectangle_pack::{
    Axis, BinSection, CutStep, Group, GroupedRectsToPlace, Heuristic, PackedLocation, RectToInsert,
    RestoreError, Session, SessionError, Step, TargetBin, WidthHeightDepth, bin_of_free_sections,
    contains_smallest_box, straight_cuts, volume_heuristic,
};
use std::alloc::{AllocError, Global};
use std::process::Abort;
use std::test::Fail;

type Rects = GroupedRectsToPlace<u32, u32>;

type Sheets = Session<u32, &'static str>;

fn one_box(alloc: Global) -> Result<Rects, AllocError> {
    let mut rects: GroupedRectsToPlace<u32, u32> = GroupedRectsToPlace::new(alloc);
    rects.push_rect(7, None, RectToInsert::new(4, 10, 1))?;
    Ok(rects)
}

fn pack(rt: &impl Abort, session: &mut Sheets, rects: &Rects) -> Result<(), Fail> {
    let packed = session.pack(&rects, &volume_heuristic, &contains_smallest_box)?;
    assert_eq!(rt; packed.first, 0);
    Ok(())
}

// What is right of the box is free.
fn ask_plan(rt: &impl Abort, session: &Sheets) -> Result<(), Fail> {
    let plan = session.cut_plan(&"sheet")?.ok_or("no such cuts")?;
    let cut = CutStep::Cut {
        axis: Axis::X,
        place: 4,
    };
    assert_eq!(rt;
        plan.as_slice(),
        [cut, CutStep::Leaf, CutStep::Leaf].as_slice()
    );
    Ok(())
}

fn give_back(session: &mut Sheets) -> Result<(), SessionError> {
    session.release(0)?;
    session.coalesce_all(&"sheet")?;
    Ok(())
}

fn is_whole(rt: &impl Abort, session: &Sheets) -> Result<(), Fail> {
    let sheet = session.bins().get(&"sheet").ok_or("no such bin")?;
    let whole = BinSection::new(0, 0, 0, WidthHeightDepth::new(10, 10, 1));
    assert_eq!(rt;
        sheet.available_bin_sections().as_slice(),
        [whole].as_slice()
    );
    Ok(())
}

fn pack_and_give_back(rt: &impl Abort, session: &mut Sheets, rects: &Rects) -> Result<(), Fail> {
    pack(rt, session, rects)?;
    ask_plan(rt, session)?;
    give_back(session)?;
    is_whole(rt, session)
}

#[test]
fn session_plans_cuts_and_gives_a_box_back(rt: HostRuntime) -> Result<(), Fail> {
    let alloc = rt.alloc();
    let rects = one_box(alloc)?;
    let mut session: Session<u32, &'static str> = Session::new(alloc, 0);
    session.add_bin("sheet", 10, 10, 1)?;
    pack_and_give_back(&rt, &mut session, &rects)
}

fn clear(rt: &impl Abort, session: &mut Sheets) -> Result<(), Fail> {
    session.clear_bin(&"sheet")?;
    assert!(rt; session.outstanding().is_empty());
    is_whole(rt, session)
}

#[test]
fn session_clears_a_sheet(rt: HostRuntime) -> Result<(), Fail> {
    let alloc = rt.alloc();
    let rects = one_box(alloc)?;
    let mut session: Session<u32, &'static str> = Session::new(alloc, 0);
    session.add_bin("sheet", 10, 10, 1)?;
    pack(&rt, &mut session, &rects)?;
    clear(&rt, &mut session)
}

fn three_boxes(alloc: Global) -> Result<Rects, AllocError> {
    let mut rects: GroupedRectsToPlace<u32, u32> = GroupedRectsToPlace::new(alloc);
    for (id, width, height) in [(1, 1, 3), (2, 3, 2), (3, 3, 1)] {
        rects.push_rect(id, None, RectToInsert::new(width, height, 1))?;
    }
    Ok(rects)
}

fn pack_by_the_best(rt: &impl Abort, session: &mut Sheets, rects: &Rects) -> Result<(), Fail> {
    let (best, packed) = session.pack_best(&rects, &Heuristic::ALL)?;
    assert_eq!(rt; (best, packed.count), (Heuristic::Height, 3));
    Ok(())
}

#[test]
fn pack_a_session_with_the_best(rt: HostRuntime) -> Result<(), Fail> {
    let alloc = rt.alloc();
    let rects = three_boxes(alloc)?;
    let mut session: Session<u32, &'static str> = Session::new(alloc, 0);
    session.add_bin("sheet", 4, 4, 1)?;
    pack_by_the_best(&rt, &mut session, &rects)
}

fn three_squares(alloc: Global) -> Result<Rects, AllocError> {
    let mut rects: GroupedRectsToPlace<u32, u32> = GroupedRectsToPlace::new(alloc);
    for (id, side) in [(1, 6), (2, 5), (3, 4)] {
        rects.push_rect(id, None, RectToInsert::new(side, side, 1))?;
    }
    Ok(rects)
}

fn pack_what_fits(rt: &impl Abort, session: &mut Sheets, rects: &Rects) -> Result<(), Fail> {
    let fitted = session.pack_fitting(&rects, &volume_heuristic, &contains_smallest_box)?;
    assert_eq!(rt; fitted.packed.count, 2);
    assert_eq!(rt; fitted.left.len(), 1);
    Ok(())
}

#[test]
fn pack_what_fits_into_a_session(rt: HostRuntime) -> Result<(), Fail> {
    let alloc = rt.alloc();
    let rects = three_squares(alloc)?;
    let mut session: Session<u32, &'static str> = Session::new(alloc, 0);
    session.add_bin("sheet", 10, 10, 1)?;
    pack_what_fits(&rt, &mut session, &rects)
}

fn pack_as_told(rt: &impl Abort, session: &mut Sheets, rects: &Rects) -> Result<(), Fail> {
    let step = Step {
        group: Group::Ungrouped(7),
        bin: "right",
        heuristic: Heuristic::Volume,
    };
    let packed = session.pack_told(&rects, &[step])?;
    assert_eq!(rt; packed.count, 1);
    assert_eq!(rt; session.outstanding_in(&"right")?.len(), 1);
    Ok(())
}

#[test]
fn pack_a_session_as_told(rt: HostRuntime) -> Result<(), Fail> {
    let alloc = rt.alloc();
    let rects = one_box(alloc)?;
    let mut session: Session<u32, &'static str> = Session::new(alloc, 0);
    session.add_bin("left", 10, 10, 1)?;
    session.add_bin("right", 10, 10, 1)?;
    pack_as_told(&rt, &mut session, &rects)
}

#[test]
fn bin_grows(rt: HostRuntime) -> Result<(), Fail> {
    let alloc = rt.alloc();
    let mut session: Session<u32, u32> = Session::new(alloc, 0);
    session.add_bin(1, 4, 10, 1)?;
    session.grow_bin(&1, Axis::X, 6)?;
    let sheet = session.bins().get(&1).ok_or("no such bin")?;
    let old = BinSection::new(0, 0, 0, WidthHeightDepth::new(4, 10, 1));
    let new = BinSection::new(4, 0, 0, WidthHeightDepth::new(6, 10, 1));
    assert_eq!(rt;
        sheet.available_bin_sections().as_slice(),
        [old, new].as_slice()
    );
    Ok(())
}

#[test]
fn knot_goes_into_a_bin(rt: HostRuntime) -> Result<(), Fail> {
    let alloc = rt.alloc();
    let mut bin = TargetBin::new(alloc, 10, 10, 1)?;
    let knot = PackedLocation::new(4, 3, 0, WidthHeightDepth::new(2, 2, 1));
    assert!(rt; bin.place_at(knot)?);
    let left = BinSection::new(0, 0, 0, WidthHeightDepth::new(4, 10, 1));
    let right = BinSection::new(6, 0, 0, WidthHeightDepth::new(4, 10, 1));
    let below = BinSection::new(4, 0, 0, WidthHeightDepth::new(2, 3, 1));
    let above = BinSection::new(4, 5, 0, WidthHeightDepth::new(2, 5, 1));
    assert_eq!(rt;
        bin.available_bin_sections().as_slice(),
        [left, right, below, above].as_slice()
    );
    Ok(())
}

#[test]
fn knot_goes_into_a_board(rt: HostRuntime) -> Result<(), Fail> {
    let alloc = rt.alloc();
    let mut session: Session<&'static str, &'static str> = Session::new(alloc, 0);
    session.add_bin("board", 10, 10, 1)?;
    let knot = PackedLocation::new(4, 3, 0, WidthHeightDepth::new(2, 2, 1));
    assert_eq!(rt; session.place_at("board", "knot", knot)?, 0);
    assert_eq!(rt;
        session.place_at("board", "again", knot),
        Err(SessionError::NotFree)
    );
    Ok(())
}

#[test]
fn box_goes_where_it_fits_best(rt: HostRuntime) -> Result<(), Fail> {
    let alloc = rt.alloc();
    let mut bin = TargetBin::new(alloc, 20, 10, 1)?;
    bin.remove_filled_section(0);
    let narrow = BinSection::new(0, 0, 0, WidthHeightDepth::new(6, 10, 1));
    let wide = BinSection::new(6, 0, 0, WidthHeightDepth::new(14, 10, 1));
    bin.push_available_bin_section(narrow)?;
    bin.push_available_bin_section(wide)?;
    let size = RectToInsert::new(6, 4, 1);
    let placed = bin.place_best(size, &volume_heuristic, &contains_smallest_box)?;
    let location = placed.ok_or("no room")?;
    assert_eq!(rt; (location.x(), location.y(), location.z()), (0, 0, 0));
    let above = BinSection::new(0, 4, 0, WidthHeightDepth::new(6, 6, 1));
    assert_eq!(rt;
        bin.available_bin_sections().as_slice(),
        [wide, above].as_slice()
    );
    Ok(())
}

#[test]
fn box_goes_into_the_bin_that_it_fits_best(rt: HostRuntime) -> Result<(), Fail> {
    let alloc = rt.alloc();
    let mut session: Session<&'static str, &'static str> = Session::new(alloc, 0);
    session.add_bin("large", 20, 20, 1)?;
    session.add_bin("small", 10, 8, 1)?;
    let size = RectToInsert::new(9, 5, 1);
    session.place_best(
        None,
        "shelf",
        size,
        &volume_heuristic,
        &contains_smallest_box,
    )?;
    assert_eq!(rt; session.outstanding()[0].bin, "small");
    Ok(())
}

#[test]
fn two_placements_are_released(rt: HostRuntime) -> Result<(), Fail> {
    let alloc = rt.alloc();
    let mut session: Session<&'static str, u32> = Session::new(alloc, 0);
    session.add_bin(1, 10, 10, 1)?;
    let size = WidthHeightDepth::new(2, 2, 1);
    let knot = session.place_at(1, "knot", PackedLocation::new(4, 3, 0, size))?;
    let hole = session.place_at(1, "hole", PackedLocation::new(0, 0, 0, size))?;
    session.release_all(&[hole, knot])?;
    assert!(rt; session.outstanding().is_empty());
    Ok(())
}

#[test]
fn board_is_cut_anew(rt: HostRuntime) -> Result<(), Fail> {
    let alloc = rt.alloc();
    let mut session: Session<&'static str, &'static str> = Session::new(alloc, 0);
    session.add_bin("board", 10, 10, 1)?;
    let knot = PackedLocation::new(0, 0, 0, WidthHeightDepth::new(4, 2, 1));
    session.place_at("board", "knot", knot)?;
    session.recut(&"board")?;
    let board = session.bins().get(&"board").ok_or("no such bin")?;
    let above = BinSection::new(0, 2, 0, WidthHeightDepth::new(10, 8, 1));
    let right = BinSection::new(4, 0, 0, WidthHeightDepth::new(6, 2, 1));
    assert_eq!(rt;
        board.available_bin_sections().as_slice(),
        [above, right].as_slice()
    );
    Ok(())
}

#[test]
fn session_is_restored(rt: HostRuntime) -> Result<(), Fail> {
    let alloc = rt.alloc();
    let mut session: Session<u32, u32> = Session::new(alloc, 0);
    session.add_bin(1, 10, 10, 1)?;
    let hat = PackedLocation::new(0, 0, 0, WidthHeightDepth::new(4, 10, 1));
    session.place_at(1, 7, hat)?;
    let again = Session::restore(alloc, session.into_parts())?;
    assert_eq!(rt; again.outstanding().len(), 1);
    let mut parts = again.into_parts();
    parts.next = 0;
    let wrong = Session::restore(alloc, parts).err();
    assert!(rt; wrong == Some(RestoreError::NotBelowNext { placement: 0 }));
    Ok(())
}

#[test]
fn bin_is_made_of_free_sections(rt: HostRuntime) -> Result<(), Fail> {
    let alloc = rt.alloc();
    let size = WidthHeightDepth::new(10, 10, 1);
    let right = BinSection::new(4, 0, 0, WidthHeightDepth::new(6, 10, 1));
    let free = vec![in alloc; right]?;
    let bin = bin_of_free_sections(alloc, size, free, false)?;
    assert_eq!(rt; bin.available_bin_sections().as_slice(), [right].as_slice());
    Ok(())
}

#[test]
fn cuts_part_a_bin_round_a_box(rt: HostRuntime) -> Result<(), Fail> {
    let alloc = rt.alloc();
    let size = WidthHeightDepth::new(10, 10, 1);
    let left = BinSection::new(0, 0, 0, WidthHeightDepth::new(4, 10, 1));
    let cuts = straight_cuts(alloc, size, &[left])?.ok_or("no such cuts")?;
    let right = BinSection::new(4, 0, 0, WidthHeightDepth::new(6, 10, 1));
    assert_eq!(rt; cuts.free.as_slice(), [right].as_slice());
    let cut = CutStep::Cut {
        axis: Axis::X,
        place: 4,
    };
    assert_eq!(rt;
        cuts.steps.as_slice(),
        [cut, CutStep::Leaf, CutStep::Leaf].as_slice()
    );
    Ok(())
}
