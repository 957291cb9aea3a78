//! The examples of the library's documentation, but those of sessions. One has several blocks, and
//! so it stands in several functions.

use rectangle_pack::{
    BinSection, Case, Claim, Conflict, Entry, Fault, FitTests, Group, GroupedRectsToPlace,
    Heuristic, RectToInsert, RectanglePackOk, SearchOptions, TargetBin, TurningBox, Turns,
    WidthHeightDepth, begin_search, contains_smallest_box, first_fault, least_bins, pack_rects,
    pack_rects_best, pack_rects_fitting, pack_rects_found, volume_heuristic,
    volume_packing_has_one_result,
};
use std::alloc::{AllocError, Global};
use std::collections::BTreeMap;
use std::process::Abort;
use std::test::Fail;

type Rects = GroupedRectsToPlace<u32, u32>;

type NamedRects = GroupedRectsToPlace<u32, &'static str>;

type Packed = RectanglePackOk<u32, u32>;

fn two_boxes(alloc: Global) -> Result<Rects, AllocError> {
    let mut rects: GroupedRectsToPlace<u32, u32> = GroupedRectsToPlace::new(alloc);
    for (id, width, height) in [(7, 2, 3), (8, 4, 4)] {
        rects.push_rect(id, None, RectToInsert::new(width, height, 1))?;
    }
    Ok(rects)
}

fn pack_two_boxes(alloc: Global, rects: &Rects) -> Result<Packed, Fail> {
    let mut bins = BTreeMap::new(alloc);
    bins.insert(1u32, TargetBin::new(alloc, 10, 10, 1)?)?;
    let packed = pack_rects(
        alloc,
        &rects,
        &mut bins,
        &volume_heuristic,
        &contains_smallest_box,
    )?;
    Ok(packed)
}

fn are_in_order(rt: &impl Abort, packed: &Packed) {
    let ids = packed.placements().iter().map(|placed| placed.id);
    assert!(rt; ids.eq([8, 7]));
}

fn is_beside(rt: &impl Abort, packed: &Packed) -> Result<(), Fail> {
    let (bin, location) = packed.packed_locations().get(&7).ok_or("not placed")?;
    let (x, y, z) = (location.x(), location.y(), location.z());
    assert_eq!(rt; (*bin, x, y, z), (1, 4, 0, 0));
    Ok(())
}

#[test]
fn pack_rects_places_boxes(rt: HostRuntime) -> Result<(), Fail> {
    let rects = two_boxes(rt.alloc())?;
    let packed = pack_two_boxes(rt.alloc(), &rects)?;
    are_in_order(&rt, &packed);
    is_beside(&rt, &packed)
}

fn four_boxes(alloc: Global) -> Result<Rects, AllocError> {
    let mut rects: GroupedRectsToPlace<u32, u32> = GroupedRectsToPlace::new(alloc);
    for (id, width, height) in [(1, 6, 2), (2, 3, 3), (3, 2, 5), (4, 1, 5)] {
        rects.push_rect(id, None, RectToInsert::new(width, height, 1))?;
    }
    Ok(rects)
}

fn pack_four_boxes(alloc: Global, rects: &Rects) -> Result<(Heuristic, Packed), Fail> {
    let mut bins = BTreeMap::new(alloc);
    bins.insert(0u32, TargetBin::new(alloc, 6, 7, 1)?)?;
    let (best, packed) = pack_rects_best(alloc, &rects, &mut bins, &Heuristic::ALL)?;
    Ok((best, packed))
}

fn three_squares(alloc: Global) -> Result<Rects, AllocError> {
    let mut rects: GroupedRectsToPlace<u32, u32> = GroupedRectsToPlace::new(alloc);
    for (id, side) in [(1, 6), (2, 5), (3, 4)] {
        rects.push_rect(id, None, RectToInsert::new(side, side, 1))?;
    }
    Ok(rects)
}

#[test]
fn pack_what_fits(rt: HostRuntime) -> Result<(), Fail> {
    let alloc = rt.alloc();
    let rects = three_squares(alloc)?;
    let mut bins = BTreeMap::new(alloc);
    bins.insert(0u32, TargetBin::new(alloc, 10, 10, 1)?)?;
    let fitted = pack_rects_fitting(
        alloc,
        &rects,
        &mut bins,
        &volume_heuristic,
        &contains_smallest_box,
    )?;
    let ids = fitted.packed.placements().iter().map(|placed| placed.id);
    assert!(rt; ids.eq([1, 3]));
    assert_eq!(rt; fitted.left.len(), 1);
    Ok(())
}

#[test]
fn pack_the_best(rt: HostRuntime) -> Result<(), Fail> {
    let rects = four_boxes(rt.alloc())?;
    let (best, packed) = pack_four_boxes(rt.alloc(), &rects)?;
    assert_eq!(rt; (best, packed.placements().len()), (Heuristic::Width, 4));
    Ok(())
}

fn push_box_7(alloc: Global, rects: &mut NamedRects) -> Result<(), AllocError> {
    let groups = vec![in alloc; "menu", "game"]?;
    rects.push_rect(7, Some(groups), RectToInsert::new(10, 20, 1))?;
    Ok(())
}

fn push_boxes_8_and_9(alloc: Global, rects: &mut NamedRects) -> Result<(), AllocError> {
    let groups = vec![in alloc; "game"]?;
    rects.push_rect(8, Some(groups), RectToInsert::new(5, 50, 1))?;
    rects.push_rect(9, None, RectToInsert::new(30, 30, 1))?;
    Ok(())
}

fn exclude_two_groups(rt: &impl Abort, rects: &mut NamedRects) -> Result<(), Fail> {
    rects.exclude(Group::Grouped("menu"), Group::Grouped("game"))?;
    let (menu, game) = (Group::Grouped("menu"), Group::Grouped("game"));
    assert!(rt; rects.excluded(&game, &menu));
    Ok(())
}

fn are_in_game(rt: &impl Abort, rects: &NamedRects) -> Result<(), Fail> {
    let game = rects
        .groups()
        .get(&Group::Grouped("game"))
        .ok_or("no such group")?;
    assert_eq!(rt; game.as_slice(), [7, 8].as_slice());
    Ok(())
}

fn push_three_boxes(rt: &impl Abort, alloc: Global, rects: &mut NamedRects) -> Result<(), Fail> {
    push_box_7(alloc, rects)?;
    push_boxes_8_and_9(alloc, rects)?;
    exclude_two_groups(rt, rects)?;
    are_in_game(rt, rects)
}

#[test]
fn push_rect_puts_a_box_into_groups(rt: HostRuntime) -> Result<(), Fail> {
    let alloc = rt.alloc();
    let mut rects: GroupedRectsToPlace<u32, &'static str> = GroupedRectsToPlace::new(alloc);
    push_three_boxes(&rt, alloc, &mut rects)
}

#[test]
fn push_available_bin_section_gives_a_box_back(rt: HostRuntime) -> Result<(), Fail> {
    let alloc = rt.alloc();
    let mut bin = TargetBin::new(alloc, 10, 10, 1)?;
    let members = [RectToInsert::new(4, 10, 1)];
    let mut tests = FitTests::new();
    let placed = bin.place_all(
        &members,
        &volume_heuristic,
        &contains_smallest_box,
        &mut tests,
    )?;
    assert!(rt; placed.is_some());
    // The box stands at (0, 0, 0). Its cells are free again once they are given back.
    let given = BinSection::new(0, 0, 0, WidthHeightDepth::new(4, 10, 1));
    bin.push_available_bin_section(given)?;
    let rest = BinSection::new(4, 0, 0, WidthHeightDepth::new(6, 10, 1));
    assert_eq!(rt;
        bin.available_bin_sections().as_slice(),
        [rest, given].as_slice()
    );
    Ok(())
}

#[test]
fn coalesce_all_joins_two_halves(rt: HostRuntime) -> Result<(), Fail> {
    let alloc = rt.alloc();
    let mut bin = TargetBin::new(alloc, 10, 10, 1)?;
    bin.remove_filled_section(0);
    let left = BinSection::new(0, 0, 0, WidthHeightDepth::new(4, 10, 1));
    let right = BinSection::new(4, 0, 0, WidthHeightDepth::new(6, 10, 1));
    bin.push_available_bin_section(left)?;
    bin.push_available_bin_section(right)?;
    bin.coalesce_all();
    let whole = BinSection::new(0, 0, 0, WidthHeightDepth::new(10, 10, 1));
    assert_eq!(rt; bin.available_bin_sections().as_slice(), [whole].as_slice());
    Ok(())
}

fn are_pieces(rt: &impl Abort, right: BinSection, above: BinSection, behind: BinSection) {
    let beside = BinSection::new(50, 0, 0, WidthHeightDepth::new(50, 100, 1));
    let over = BinSection::new(0, 90, 0, WidthHeightDepth::new(50, 10, 1));
    assert_eq!(rt; [right, above], [beside, over]);
    assert_eq!(rt; behind.whd().volume(), 0);
}

#[test]
fn try_place_cuts_a_section(rt: HostRuntime) -> Result<(), Fail> {
    let section = BinSection::new(0, 0, 0, WidthHeightDepth::new(100, 100, 1));
    let rect = RectToInsert::new(50, 90, 1);
    let (location, [right, above, behind]) = section.try_place(
        &rect,
        &contains_smallest_box,
        &volume_heuristic,
    )?;
    assert_eq!(rt; (location.x(), location.y(), location.z()), (0, 0, 0));
    are_pieces(&rt, right, above, behind);
    Ok(())
}

#[test]
fn the_law_takes_the_two_functions() {
    volume_packing_has_one_result::<u32, u32, u32, _, _, _, _>(
        &volume_heuristic,
        &contains_smallest_box,
        &volume_heuristic,
        &contains_smallest_box,
    );
}

#[test]
fn least_bins_counts(rt: HostRuntime) -> Result<(), Fail> {
    let alloc = rt.alloc();
    let mut rects: GroupedRectsToPlace<u32, u32> = GroupedRectsToPlace::new(alloc);
    for id in 0..3 {
        rects.push_rect(id, None, RectToInsert::new(6, 6, 1))?;
    }
    let mut bins: BTreeMap<u32, TargetBin> = BTreeMap::new(alloc);
    for id in 0..4 {
        bins.insert(id, TargetBin::new(alloc, 10, 10, 1)?)?;
    }
    let turns: BTreeMap<u32, Turns> = BTreeMap::new(alloc);
    assert_eq!(rt; least_bins(alloc, &rects, &bins, &turns)?, Some(3));
    Ok(())
}

#[test]
fn a_search_in_pieces(rt: HostRuntime) -> Result<(), Fail> {
    let alloc = rt.alloc();
    let mut rects: GroupedRectsToPlace<u32, u32> = GroupedRectsToPlace::new(alloc);
    for id in 0..4 {
        rects.push_rect(id, None, RectToInsert::new(5, 5, 1))?;
    }
    let mut bins: BTreeMap<u32, TargetBin> = BTreeMap::new(alloc);
    for id in 0..4 {
        bins.insert(id, TargetBin::new(alloc, 10, 10, 1)?)?;
    }
    let (turns, costs) = (BTreeMap::new(alloc), BTreeMap::new(alloc));
    let options = SearchOptions {
        tries: 0,
        seed: 1,
        may_leave: false,
        turns: &turns,
        costs: &costs,
    };
    let mut search = begin_search(alloc, &rects, &bins, &options)?;
    for _ in 0..10 {
        search.run(100, |_| true)?;
    }
    let found = pack_rects_found(alloc, &rects, &mut bins, &options, search)?;
    assert!(rt; found.is_optimal);
    Ok(())
}

fn entry(group: usize) -> Entry {
    let whd = WidthHeightDepth::new(6, 10, 1);
    let turns = Turns::FLAT;
    let turning = TurningBox { whd, turns };
    Entry { group, turning }
}

#[test]
fn fault_of_a_packing(rt: HostRuntime) -> Result<(), Fail> {
    let alloc = rt.alloc();
    let bins = [WidthHeightDepth::new(10, 10, 1)];
    let entries = [entry(0), entry(1)];
    let case = Case {
        bins: &bins,
        entries: &entries,
        excluded: &[],
    };
    let whd = WidthHeightDepth::new(6, 10, 1);
    let first = Claim {
        entry: 0,
        bin: 0,
        section: BinSection::new(0, 0, 0, whd),
    };
    let second = Claim {
        entry: 1,
        bin: 0,
        section: BinSection::new(4, 0, 0, whd),
    };
    let shares = Fault::Together {
        first: 0,
        second: 1,
        conflict: Conflict::SharesCell,
    };
    let fault = first_fault(alloc, &case, &[first, second])?;
    assert!(rt; fault == Some(shares));
    Ok(())
}
