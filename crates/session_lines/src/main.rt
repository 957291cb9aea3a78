//! The library by lines. It has what `packrun` has no line for, so that the library for C can be
//! compared with it, and heuristics and cutting plans can be measured.
//!
//! It reads lines from standard input. Seven of them tell of the next packing or release:
//!
//! - `box W H D GROUP` is a box more, in no group where that is 0;
//! - `member I GROUP` puts box I into one group more, as a box behind all of those;
//! - `also I GROUP` puts box I itself into one group more;
//! - `exclude A B I J` keeps the groups A and B apart; where A is 0 it is box I alone, and where B
//!   is 0 box J alone;
//! - `step GROUP I BIN N` is a step more: the group, or box I alone where that is 0, goes into the
//!   bin, by the heuristic N of `Heuristic::ALL`, or by the first where there is no such number;
//! - `turn I X Y Z` says that box I may be turned about the axes that have not 0, for `least` and
//!   `search`;
//! - `number N` is a number more.
//!
//! `again` begins with a new session. No answer comes to these.
//!
//! Each of these has a line as its answer:
//!
//! - `bin W H D` adds a bin, under the least id that no bin has: its id;
//! - `pack N` packs by the heuristic N of `Heuristic::ALL`, or by the best of all where there is no
//!   such number, and forgets the boxes: the number of the heuristic, or -1 where there is no space;
//! - `fitting N` packs what fits, by the same heuristic, and forgets the boxes: the number of the
//!   heuristic, the number of the first placement, how many there are, and two numbers for each group
//!   that is left: the group and 0, or 0 and the box that is alone;
//! - `told` packs as the steps say, and forgets these and the boxes: the number of the first placement
//!   and how many there are; or -1, the index of the step that is refused, and why, by the index in
//!   `StepFault`; or -1 alone;
//! - `place BIN X Y Z` places box 0 at this corner of the bin, and forgets the boxes: the number of
//!   its placement, or -1 where it is refused;
//! - `fit BIN N` places box 0 where it fits best in the bin, and `find N` in any, with the rest cut by
//!   the heuristic N of `Heuristic::ALL`, and forgets the boxes: the number of its placement, the bin
//!   and the corner, or -1 where it is refused;
//! - `releases`: releases the placements of the numbers, and forgets these: 1 where it is done, else 0;
//! - `release N`, `join BIN I LO HI`, `sweep BIN`, `clear BIN`, `remove BIN`, `recut BIN`, and
//!   `grow BIN AXIS N`, on axis 0 for x: 1 where it is done, else 0;
//! - `placed`: the number, index, bin and corner of each outstanding placement;
//! - `placed_in BIN`: the same of those in one bin, or -1 where there is no such bin;
//! - `free BIN`: corner and sides of each free section, or nothing where there is no such bin;
//! - `plan BIN`: axis and place of each cut, 0 for x, and 3 0 for each leaf; or -1 where there is no
//!   plan or no such bin;
//! - `time BIN`: how many microseconds the plan of the bin takes, the best of five;
//! - `first W H D`, `pages W H` and `times S N` measure the boxes, as `measures.rt` says, and forget
//!   them: a number for each heuristic, and one for the best of all;
//! - `beside S N`, as `measures.rt` says: two numbers. It forgets the boxes;
//! - `least`: how many of the bins the boxes need at least, whatever packer places them, or -1 where
//!   no packer can place them all; `least_time`: how many microseconds that takes, the best of five.
//!   Both forget the boxes;
//! - `search N S L` packs what is found in N tries with the seed S, where something may be left if L is
//!   not 0, and forgets the boxes: the number of the first placement, how many there are, the bins that
//!   are used, how many are needed, or -1, whether that is optimal, the tries, how many groups are left,
//!   and how many microseconds it took; or -1 alone where there is no space.
//!
//! A number that is not there is 0. Other lines are passed over.
#![tactic(auto)]

mod bound;
mod fitting;
mod measures;
mod packing;
mod searching;

use crate::bound::{AllTurns, add_turns, print_least, print_least_time};
use crate::fitting::{Steps, add_step, print_fitting, print_told};
use crate::measures::{measure, print_beside, print_time};
use crate::packing::{Bins, Boxes, add, fit, pack, place};
use crate::searching::print_search;
use rectangle_pack::{Axis, CutStep, GroupedRectsToPlace, Outstanding, Session, SessionError};
use std::alloc::Global;
use std::collections::BTreeMap;
use std::io::{self, BufRead, BufReader};

// 1 where it is done, 0 where it is refused.
fn is_done(answer: Result<(), SessionError>) -> u32 {
    match answer {
        Ok(()) => 1,
        Err(_) => 0,
    }
}

// What lines tell of the next packing or release.
#[derive(Drop)]
struct Told {
    boxes: Boxes,
    steps: Steps,
    turns: AllTurns,
    numbers: Vec<u64>,
}

fn print_one(rt: &HostRuntime, placed: &Outstanding<u32, u32>) -> io::Result<()> {
    let (x, y, z) = (
        placed.location.x(),
        placed.location.y(),
        placed.location.z(),
    );
    print!(rt;
        "{} {} {} {x} {y} {z} ",
        placed.number, placed.id, placed.bin
    )?;
    Ok(())
}

fn print_placed(rt: &HostRuntime, session: &Bins) -> io::Result<()> {
    for placed in session.outstanding() {
        print_one(rt, placed)?;
    }
    println!(rt; "")?;
    Ok(())
}

fn print_placed_in(rt: &HostRuntime, session: &Bins, bin: u32) -> io::Result<()> {
    match session.outstanding_in(&bin) {
        Ok(all) => {
            for placed in &all {
                print_one(rt, placed)?;
            }
        }
        Err(SessionError::UnknownBin) => print!(rt; "-1")?,
        Err(error) => return Err(io::Error::from(error)),
    }
    println!(rt; "")?;
    Ok(())
}

fn axis_number(axis: Axis) -> u32 {
    match axis {
        Axis::X => 0,
        Axis::Y => 1,
        Axis::Z => 2,
    }
}

fn print_plan(rt: &HostRuntime, session: &Bins, bin: u32) -> io::Result<()> {
    let plan = match session.cut_plan(&bin) {
        Err(SessionError::UnknownBin) => None,
        answer => answer?,
    };
    let Some(plan) = plan else {
        println!(rt; "-1")?;
        return Ok(());
    };
    for step in plan.as_slice() {
        match step {
            CutStep::Cut { axis, place } => print!(rt; "{} {place} ", axis_number(*axis))?,
            CutStep::Leaf => print!(rt; "3 0 ")?,
        }
    }
    println!(rt; "")?;
    Ok(())
}

// The four numbers behind the first word of a line.
fn numbers(line: &str) -> [u32; 4] {
    let mut numbers = [0u32; 4];
    for (number, word) in numbers.iter_mut().zip(line.split_whitespace().skip(1)) {
        *number = word.parse().unwrap_or(0);
    }
    numbers
}

// The least id that no bin has.
fn free_id(session: &Bins) -> u32 {
    for id in 0..u32::MAX {
        if !session.bins().contains_key(&id) {
            return id;
        }
    }
    u32::MAX
}

// Makes a bin larger on the axis of this number. Tells whether it is done.
fn grow(session: &mut Bins, bin: u32, axis: u32, by: u32) -> u32 {
    match axis {
        0 => is_done(session.grow_bin(&bin, Axis::X, by)),
        1 => is_done(session.grow_bin(&bin, Axis::Y, by)),
        2 => is_done(session.grow_bin(&bin, Axis::Z, by)),
        _ => 0,
    }
}

// Obeys a line that changes the session. Gives its answer, or `None` where it is another line.
fn change(session: &mut Bins, word: &str, numbers: [u32; 4]) -> io::Result<Option<u32>> {
    let [a, b, c, d] = numbers;
    match word {
        "bin" => {
            let id = free_id(session);
            session.add_bin(id, a, b, c)?;
            Ok(Some(id))
        }
        "release" => Ok(Some(is_done(session.release(a as u64)))),
        "join" => {
            let answer = session.coalesce(&a, b as usize, c as usize..d as usize);
            Ok(Some(is_done(answer)))
        }
        "sweep" => Ok(Some(is_done(session.coalesce_all(&a)))),
        "clear" => Ok(Some(is_done(session.clear_bin(&a)))),
        "remove" => Ok(Some(is_done(session.remove_bin(&a)))),
        "recut" => Ok(Some(is_done(session.recut(&a)))),
        "grow" => Ok(Some(grow(session, a, b, c))),
        _ => Ok(None),
    }
}

fn print_pack(rt: &HostRuntime, session: &mut Bins, boxes: &Boxes, number: u32) -> io::Result<()> {
    match pack(session, boxes, number)? {
        Some(best) => println!(rt; "{best}")?,
        None => println!(rt; "-1")?,
    }
    Ok(())
}

fn print_place(
    rt: &HostRuntime,
    session: &mut Bins,
    boxes: &Boxes,
    numbers: [u32; 4],
) -> io::Result<()> {
    let [bin, x, y, z] = numbers;
    match place(session, boxes, bin, [x, y, z]) {
        Some(number) => println!(rt; "{number}")?,
        None => println!(rt; "-1")?,
    }
    Ok(())
}

// Says where the box stands that was placed last.
fn print_last(rt: &HostRuntime, session: &Bins) -> io::Result<()> {
    if let Some(placed) = session.outstanding().last() {
        let (x, y, z) = (
            placed.location.x(),
            placed.location.y(),
            placed.location.z(),
        );
        println!(rt; "{} {} {x} {y} {z}", placed.number, placed.bin)?;
    }
    Ok(())
}

fn print_fit(
    rt: &HostRuntime,
    session: &mut Bins,
    boxes: &Boxes,
    bin: Option<&u32>,
    number: u32,
) -> io::Result<()> {
    if fit(session, boxes, bin, number) {
        return print_last(rt, session);
    }
    println!(rt; "-1")?;
    Ok(())
}

fn print_free(rt: &HostRuntime, session: &Bins, bin: u32) -> io::Result<()> {
    if let Some(bin) = session.bins().get(&bin) {
        for section in bin.available_bin_sections() {
            let (x, y, z) = (section.x(), section.y(), section.z());
            let whd = section.whd();
            let (w, h, d) = (whd.width(), whd.height(), whd.depth());
            print!(rt; "{x} {y} {z} {w} {h} {d} ")?;
        }
    }
    println!(rt; "")?;
    Ok(())
}

// Obeys a line that asks of the session.
fn look(rt: &HostRuntime, session: &Bins, word: &str, bin: u32) -> io::Result<()> {
    match word {
        "placed" => print_placed(rt, session),
        "placed_in" => print_placed_in(rt, session, bin),
        "free" => print_free(rt, session, bin),
        "plan" => print_plan(rt, session, bin),
        "time" => print_time(rt, session, bin),
        _ => Ok(()),
    }
}

// Obeys a line that packs, places or measures the boxes. Tells whether it is one.
fn end(
    rt: &HostRuntime,
    session: &mut Bins,
    told: &Told,
    word: &str,
    numbers: [u32; 4],
) -> io::Result<bool> {
    let [a, b, c, _] = numbers;
    let boxes = &told.boxes;
    match word {
        "pack" => print_pack(rt, session, boxes, a)?,
        "fitting" => print_fitting(rt, session, boxes, a)?,
        "told" => print_told(rt, session, boxes, &told.steps)?,
        "place" => print_place(rt, session, boxes, numbers)?,
        "fit" => print_fit(rt, session, boxes, Some(&a), b)?,
        "find" => print_fit(rt, session, boxes, None, a)?,
        "first" | "pages" | "times" => measure(rt, boxes, word, [a, b, c])?,
        "beside" => print_beside(rt, boxes, a, b)?,
        "least" => print_least(rt, session, boxes, &told.turns)?,
        "least_time" => print_least_time(rt, session, boxes, &told.turns)?,
        "search" => print_search(rt, session, boxes, &told.turns, numbers)?,
        _ => return Ok(false),
    }
    Ok(true)
}

// Obeys a line that tells of the next packing or release. Tells whether it is one.
fn tell(rt: &HostRuntime, told: &mut Told, word: &str, numbers: [u32; 4]) -> io::Result<bool> {
    match word {
        "number" => told.numbers.push(numbers[0] as u64)?,
        "step" => add_step(&mut told.steps, numbers)?,
        "turn" => add_turns(&mut told.turns, numbers)?,
        _ => return add(rt.alloc(), &mut told.boxes, word, numbers),
    }
    Ok(true)
}

// Releases the placements of these numbers.
fn release_all(rt: &HostRuntime, session: &mut Bins, numbers: &mut Vec<u64>) -> io::Result<()> {
    let answer = is_done(session.release_all(numbers.as_slice()));
    numbers.clear();
    println!(rt; "{answer}")?;
    Ok(())
}

fn obey(rt: &HostRuntime, session: &mut Bins, told: &mut Told, line: &str) -> io::Result<()> {
    let numbers = numbers(line);
    let word = line.split_whitespace().next().unwrap_or("");
    if tell(rt, told, word, numbers)? {
        return Ok(());
    }
    if end(rt, session, told, word, numbers)? {
        told.boxes = GroupedRectsToPlace::new(rt.alloc());
        told.steps.clear();
        told.turns = BTreeMap::new(rt.alloc());
        return Ok(());
    }
    match change(session, word, numbers)? {
        Some(answer) => println!(rt; "{answer}")?,
        None if word == "releases" => release_all(rt, session, &mut told.numbers)?,
        None => look(rt, session, word, numbers[0])?,
    }
    Ok(())
}

fn main(rt: HostRuntime) -> io::Result<()> {
    let alloc: Global = rt.alloc();
    let mut session = Session::new(alloc, 0);
    let mut told = Told {
        boxes: GroupedRectsToPlace::new(alloc),
        steps: Vec::new(alloc),
        turns: BTreeMap::new(alloc),
        numbers: Vec::new(alloc),
    };
    for line in BufReader::new(alloc, rt.reader())?.lines(alloc) {
        let line = line?;
        if line.trim() == "again" {
            session = Session::new(alloc, 0);
        } else {
            obey(&rt, &mut session, &mut told, &line)?;
        }
    }
    Ok(())
}
