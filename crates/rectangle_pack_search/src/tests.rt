//! Searches whose best end is known by hand.

use crate::job::{Aim, Found, Job, OpenBin};
use crate::search::Search;
use rectangle_pack_bounds::turning::{TurningBox, Turns};
use rectangle_pack_sections::width_height_depth::{WidthHeightDepth, any_size};
use std::alloc::{AllocError, Global};
use std::test::Fail;

const AIM: Aim = Aim { seed: 1, enough: 0 };

// What is found in so many tries.
fn found_in(alloc: Global, job: Job<Global>, tries: u64) -> Result<Found<Global>, AllocError> {
    let mut search = Search::new(alloc, job, AIM)?;
    search.run(tries, |_| true)?;
    search.into_found(alloc)
}

fn empty_job(alloc: Global) -> Job<Global> {
    Job {
        boxes: Vec::new(alloc),
        ends: Vec::new(alloc),
        apart: Vec::new(alloc),
        bins: Vec::new(alloc),
    }
}

// Adds a group of boxes of this size.
fn add_group(
    job: &mut Job<Global>,
    count: usize,
    whd: WidthHeightDepth,
    turns: Turns,
) -> Result<(), AllocError> {
    for _ in 0..count {
        job.boxes.push(TurningBox { whd, turns })?;
    }
    job.ends.push(job.boxes.len())?;
    Ok(())
}

// Adds a bin of this size.
fn add_bin(
    alloc: Global,
    job: &mut Job<Global>,
    whd: WidthHeightDepth,
    cost: u64,
) -> Result<(), AllocError> {
    let mut sections = Vec::new(alloc);
    sections.push(whd)?;
    job.bins.push(OpenBin {
        sections,
        cells: whd.volume(),
        cost,
    })?;
    Ok(())
}

// Groups of one box each, and bins of one size.
fn alone(
    alloc: Global,
    boxes: &[WidthHeightDepth],
    turns: Turns,
    bins: &[WidthHeightDepth],
) -> Result<Job<Global>, AllocError> {
    let mut job = empty_job(alloc);
    for whd in boxes {
        add_group(&mut job, 1, *whd, turns)?;
    }
    for whd in bins {
        add_bin(alloc, &mut job, *whd, 1)?;
    }
    Ok(job)
}

// In how many bins the groups are put, if all are.
fn bins_used(found: &Found<Global>, groups: usize) -> Option<usize> {
    if found.puts.len() != groups {
        return None;
    }
    let mut used = 0usize;
    let mut last = None;
    for put in &found.puts {
        if last != Some(put.bin) {
            used = used.saturating_add(1);
        }
        last = Some(put.bin);
    }
    Some(used)
}

// The bin of a group.
fn bin_of(found: &Found<Global>, group: usize) -> Option<usize> {
    let put = found.puts.iter().find(|put| put.group == group)?;
    Some(put.bin)
}

// A square of 10 a side holds four of 5.
#[test]
fn four_squares_in_one(rt: HostRuntime) -> Result<(), Fail> {
    let boxes = [any_size(5, 5, 1); 4];
    let bins = [any_size(10, 10, 1); 4];
    let job = alone(rt.alloc(), &boxes, Turns::NONE, &bins)?;
    let found = found_in(rt.alloc(), job, 2000)?;
    assert!(rt; bins_used(&found, 4) == Some(1));
    Ok(())
}

// Shelves of 800 x 600 with 3.2 for the saw, in tenths. Ten of them fit on a sheet: in two rows of
// three, and a row of four that are turned.
#[test]
fn twenty_shelves_on_two_sheets(rt: HostRuntime) -> Result<(), Fail> {
    let boxes = [any_size(8032, 6032, 1); 20];
    let bins = [any_size(27832, 20532, 1); 3];
    let job = alone(rt.alloc(), &boxes, Turns::FLAT, &bins)?;
    let aim = Aim { seed: 1, enough: 2 };
    let mut search = Search::new(rt.alloc(), job, aim)?;
    search.run(20000, |_| true)?;
    assert!(rt; search.is_over());
    let found = search.into_found(rt.alloc())?;
    assert!(rt; bins_used(&found, 20) == Some(2));
    Ok(())
}

// Two groups that are excluded are in two bins, though they fit into one.
#[test]
fn excluded_groups_are_apart(rt: HostRuntime) -> Result<(), Fail> {
    let mut job = alone(
        rt.alloc(),
        &[any_size(2, 2, 1); 3],
        Turns::NONE,
        &[any_size(9, 9, 1); 2],
    )?;
    job.apart.push((0, 2))?;
    job.apart.push((2, 0))?;
    let found = found_in(rt.alloc(), job, 2000)?;
    assert!(rt; bins_used(&found, 3) == Some(2));
    assert!(rt; bin_of(&found, 0) != bin_of(&found, 2));
    Ok(())
}

// Of three groups of two boxes 5 x 5 one has to be alone, as four such boxes fill a bin.
#[test]
fn groups_go_whole(rt: HostRuntime) -> Result<(), Fail> {
    let mut job = empty_job(rt.alloc());
    for _ in 0..3 {
        add_group(&mut job, 2, any_size(5, 5, 1), Turns::NONE)?;
    }
    for _ in 0..3 {
        add_bin(rt.alloc(), &mut job, any_size(10, 10, 1), 1)?;
    }
    let found = found_in(rt.alloc(), job, 2000)?;
    assert!(rt; bins_used(&found, 3) == Some(2));
    Ok(())
}

// Two bins for 3 each are cheaper than the large one for 10.
#[test]
fn cheap_bins_are_used(rt: HostRuntime) -> Result<(), Fail> {
    let mut job = alone(rt.alloc(), &[any_size(5, 5, 1); 2], Turns::NONE, &[])?;
    add_bin(rt.alloc(), &mut job, any_size(10, 5, 1), 10)?;
    add_bin(rt.alloc(), &mut job, any_size(5, 5, 1), 3)?;
    add_bin(rt.alloc(), &mut job, any_size(5, 5, 1), 3)?;
    let found = found_in(rt.alloc(), job, 2000)?;
    assert!(rt;
        (bin_of(&found, 0), bin_of(&found, 1)) == (Some(1), Some(2))
            || (bin_of(&found, 0), bin_of(&found, 1)) == (Some(2), Some(1))
    );
    Ok(())
}

// The bin that is filled first is the smaller one; the other one costs less.
#[test]
fn one_bin_gives_way_to_a_cheaper_one(rt: HostRuntime) -> Result<(), Fail> {
    let mut job = alone(rt.alloc(), &[any_size(5, 10, 1)], Turns::NONE, &[])?;
    add_bin(rt.alloc(), &mut job, any_size(5, 10, 1), 5)?;
    add_bin(rt.alloc(), &mut job, any_size(10, 10, 1), 1)?;
    let found = found_in(rt.alloc(), job, 2000)?;
    assert!(rt; bin_of(&found, 0) == Some(1));
    Ok(())
}

// With one bin that is used and none that differs there is nothing to be bettered.
#[test]
fn a_search_without_another_bin_is_over(rt: HostRuntime) -> Result<(), Fail> {
    let bins = [any_size(10, 10, 1); 3];
    let job = alone(rt.alloc(), &[any_size(6, 6, 1)], Turns::NONE, &bins)?;
    let mut search = Search::new(rt.alloc(), job, AIM)?;
    search.run(2000, |_| true)?;
    assert!(rt; search.is_over() && search.progress().tries == 64);
    Ok(())
}

// A box stands up where it does not fit lying.
#[test]
fn a_box_is_turned(rt: HostRuntime) -> Result<(), Fail> {
    let job = alone(
        rt.alloc(),
        &[any_size(9, 2, 1)],
        Turns::FLAT,
        &[any_size(3, 9, 1)],
    )?;
    let found = found_in(rt.alloc(), job, 2000)?;
    assert!(rt; bin_of(&found, 0) == Some(0));
    assert!(rt; found.sizes.as_slice() == [any_size(2, 9, 1)].as_slice());
    Ok(())
}

// It ends where it is told to: each question is followed by one try, but for the last.
#[test]
fn a_search_is_stopped(rt: HostRuntime) -> Result<(), Fail> {
    let job = alone(
        rt.alloc(),
        &[any_size(6, 6, 1); 5],
        Turns::NONE,
        &[any_size(10, 10, 1); 5],
    )?;
    let mut asked = 0u64;
    let mut search = Search::new(rt.alloc(), job, AIM)?;
    search.run(2000, |_| {
        asked = asked.saturating_add(1);
        asked < 3
    })?;
    assert!(rt; asked == 3);
    assert!(rt; search.progress().tries == 2);
    assert!(rt; !search.is_over());
    let found = search.into_found(rt.alloc())?;
    assert!(rt; found.tries == 2);
    assert!(rt; bins_used(&found, 5) == Some(5));
    Ok(())
}

// Boxes that may be turned, and bins that hold some of them.
fn turning(alloc: Global) -> Result<Job<Global>, AllocError> {
    let boxes = [
        any_size(7, 4, 1),
        any_size(4, 4, 1),
        any_size(3, 9, 1),
        any_size(6, 5, 1),
    ];
    alone(alloc, &boxes, Turns::FLAT, &[any_size(10, 10, 1); 4])
}

// Equal seeds search alike.
#[test]
fn equal_seeds_find_the_same(rt: HostRuntime) -> Result<(), Fail> {
    let one = found_in(rt.alloc(), turning(rt.alloc())?, 2000)?;
    let other = found_in(rt.alloc(), turning(rt.alloc())?, 2000)?;
    assert!(rt; one.puts.as_slice() == other.puts.as_slice());
    assert!(rt; one.sizes.as_slice() == other.sizes.as_slice());
    Ok(())
}

// Tries that are made in pieces find what they find in one go, also where a piece ends in the midst of
// a batch.
#[test]
fn pieces_find_what_one_run_finds(rt: HostRuntime) -> Result<(), Fail> {
    let whole = found_in(rt.alloc(), turning(rt.alloc())?, 700)?;
    let mut search = Search::new(rt.alloc(), turning(rt.alloc())?, AIM)?;
    for tries in [0, 1, 70, 129, 500] {
        search.run(tries, |_| true)?;
    }
    let pieces = search.into_found(rt.alloc())?;
    assert!(rt; pieces.tries == whole.tries);
    assert!(rt; pieces.puts.as_slice() == whole.puts.as_slice());
    assert!(rt; pieces.sizes.as_slice() == whole.sizes.as_slice());
    Ok(())
}

// As many tries are made as it may make, also within a batch.
#[test]
fn tries_are_counted(rt: HostRuntime) -> Result<(), Fail> {
    for tries in [0, 1, 63, 64, 65, 100] {
        let boxes = [any_size(6, 6, 1); 5];
        let job = alone(rt.alloc(), &boxes, Turns::NONE, &[any_size(10, 10, 1); 5])?;
        assert!(rt; found_in(rt.alloc(), job, tries)?.tries == tries);
    }
    Ok(())
}
