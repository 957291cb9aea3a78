//! Boxes of one cell that fill their bins: they are packed, cut apart and released, and the bins are
//! swept.

use super::{Commands, Made, TestCommand, TestSession, plenty};
use rectangle_pack::{
    Command, CutStep, Outstanding, Reply, contains_smallest_box, volume_heuristic,
};
use tests_support::all_match;
use tests_support::boxes::{Rects, push_units};
use tests_support::refusing::Refusing;
use tests_support::units::{Units, cases};

fn pack_units(alloc: Refusing, units: &Units) -> Made<TestCommand> {
    let mut rects = Rects::new(alloc);
    push_units(&mut rects, units.boxes)?;
    Ok(Command::Pack(rects))
}

fn push_bins_and_units(alloc: Refusing, commands: &mut Commands, units: &Units) -> Made<()> {
    for id in 0..units.bins {
        commands.push(Command::AddBin {
            id,
            width: units.width,
            height: units.height,
            depth: 1,
        })?;
    }
    commands.push(pack_units(alloc, units)?)?;
    Ok(())
}

fn push_releases(commands: &mut Commands, units: &Units) -> Made<()> {
    for number in 0..units.boxes {
        commands.push(Command::Release(u64::from(number)))?;
    }
    Ok(())
}

fn push_sweeps(commands: &mut Commands, units: &Units) -> Made<()> {
    for id in 0..units.bins {
        commands.push(Command::CoalesceAll(id))?;
    }
    Ok(())
}

// Whether `count` commands are done.
fn are_done(replies: &[Reply], count: u32) -> bool {
    all_match!(replies.iter(), 0..count, reply, _command => *reply == Reply::Done)
}

// Whether each bin is added and all boxes are packed.
fn are_filled(replies: &[Reply], units: &Units) -> bool {
    match replies.split_last() {
        Some((last, others)) => {
            *last == packed!(0, u64::from(units.boxes)) && are_done(others, units.bins)
        }
        None => false,
    }
}

// What the commands do.
#[derive(Clone, Copy)]
enum Part {
    // They add the bins and pack the boxes.
    Fill,
    // They release all boxes.
    Release,
    // They sweep all bins.
    Sweep,
}

fn push_part(alloc: Refusing, commands: &mut Commands, units: &Units, part: Part) -> Made<()> {
    match part {
        Part::Fill => push_bins_and_units(alloc, commands, units),
        Part::Release => push_releases(commands, units),
        Part::Sweep => push_sweeps(commands, units),
    }
}

fn are_wanted(replies: &[Reply], units: &Units, part: Part) -> bool {
    match part {
        Part::Fill => are_filled(replies, units),
        Part::Release => are_done(replies, units.boxes),
        Part::Sweep => are_done(replies, units.bins),
    }
}

fn runs_all(session: &mut TestSession, commands: &Commands, units: &Units, part: Part) -> bool {
    let commands = commands.as_slice();
    match session.run(commands, &volume_heuristic, &contains_smallest_box) {
        Ok(replies) => are_wanted(replies.as_slice(), units, part),
        Err(_) => false,
    }
}

// Whether the commands of this part are done, in one run.
fn runs(session: &mut TestSession, alloc: Refusing, units: &Units, part: Part) -> bool {
    let mut commands = Commands::new(alloc);
    push_part(alloc, &mut commands, units, part).is_ok()
        && runs_all(session, &commands, units, part)
}

fn is_in_turn(placed: &Outstanding<u32, u32>, number: u32, units: &Units) -> bool {
    placed.number == u64::from(number) && placed.id == number && placed.bin == units.bin_of(number)
}

// Whether all boxes are outstanding, each in its bin.
fn are_in_turn(outstanding: &[Outstanding<u32, u32>], units: &Units) -> bool {
    all_match!(outstanding.iter(), 0..units.boxes, placed, number =>
        is_in_turn(placed, number, units))
}

// How many leaves a plan has, and how many cuts.
fn leaves_and_cuts(plan: &[CutStep]) -> (u32, u32) {
    let (mut leaves, mut cuts) = (0u32, 0u32);
    for step in plan {
        match step {
            CutStep::Leaf => leaves = leaves.wrapping_add(1),
            CutStep::Cut { .. } => cuts = cuts.wrapping_add(1),
        }
    }
    (leaves, cuts)
}

// Whether the plan of this full bin has a leaf for each box, and one cut fewer.
fn is_cut_apart(session: &TestSession, bin: u32, units: &Units) -> bool {
    let cells = units.cells();
    match session.cut_plan(&bin) {
        Ok(Some(plan)) => leaves_and_cuts(plan.as_slice()) == (cells, cells.saturating_sub(1)),
        _ => false,
    }
}

// Whether this bin has `count` free sections.
fn has_free(session: &TestSession, bin: u32, count: u32) -> bool {
    match session.bins().get(&bin) {
        Some(bin) => bin.available_bin_sections().len() == count as usize,
        None => false,
    }
}

// Whether each bin is as it is to be once the commands of this part are done.
fn have_come(session: &TestSession, units: &Units, part: Part) -> bool {
    for bin in 0..units.bins {
        let has_come = match part {
            Part::Fill => is_cut_apart(session, bin, units),
            Part::Release => has_free(session, bin, units.cells()),
            Part::Sweep => has_free(session, bin, 1),
        };
        if !has_come {
            return false;
        }
    }
    true
}

// Whether the bins are filled, emptied and swept.
fn fills_and_empties(alloc: Refusing, units: &Units) -> bool {
    let mut session = TestSession::new(alloc, 0);
    runs(&mut session, alloc, units, Part::Fill)
        && are_in_turn(session.outstanding(), units)
        && have_come(&session, units, Part::Fill)
        && runs(&mut session, alloc, units, Part::Release)
        && session.outstanding().is_empty()
        && have_come(&session, units, Part::Release)
        && runs(&mut session, alloc, units, Part::Sweep)
        && have_come(&session, units, Part::Sweep)
}

// All memory is given back.
#[test]
fn units_fill_their_bins(rt: HostRuntime) {
    let alloc = plenty(&rt, rt.alloc());
    for units in cases() {
        let is_right = fills_and_empties(alloc, units) && alloc.taken() == 0;
        assert!(rt; is_right, "{} bins of {} cells", units.bins, units.cells());
    }
}
