//! Bins: their calls as data, made with each request for memory refused in turn.

/// What calls of a bin show; how the bin of this size gets which list; the calls, each with the list
/// afterwards.
macro_rules! script {
    ($subject:literal; $start:ident $size:tt => $list:expr
        $(; $($call:expr => $after:expr),*)?) => {
        $crate::target_bin::Script {
            subject: $subject,
            size: $size,
            start: $crate::target_bin::Start::$start,
            list: $list,
            steps: &[$($($crate::target_bin::Step { call: $call, list: $after }),*)?],
        }
    };
}

/// What a trial answers: the places, or `None`, with how many of at most how many fit tests.
macro_rules! tried {
    ($places:expr, $count:literal of $most:literal) => {
        $crate::target_bin::Tried {
            places: $places,
            count: $count,
            most: $most,
        }
    };
}

mod joining;
mod large;
mod long_lists;
mod no_memory;
mod placing_best;
mod pushes;
mod trials;

use rectangle_pack::{
    BinSection, FitTests, PackedLocation, PushBinSectionError, RectToInsert, TargetBin,
    contains_smallest_box, volume_heuristic,
};
use std::alloc::{AllocError, Global};
use std::process::Abort;
use tests_support::all_match;
use tests_support::refusing::Refusing;
use tests_support::shapes::{has_list, numbers, place, section_of};

/// A bin whose memory may be refused.
pub type Bin = TargetBin<Refusing>;

/// A call of a bin, and what it answers. A section is x, y, z, width, height and depth; a box is
/// width, height and depth.
#[derive(Clone, Copy)]
pub enum Call {
    /// Takes the section at this index out.
    Remove(usize),
    /// Gives this section back. The bin accepts it where the answer says so.
    Push([u32; 6], Pushed),
    /// Gives this section back, which the bin accepts, unchecked.
    PushUnchecked([u32; 6]),
    /// Joins at this index over the range from the second number to the third.
    Coalesce(usize, usize, usize),
    /// A sweep.
    CoalesceAll,
    /// A trial of at most three boxes.
    Place(&'static [[u32; 3]], Tried),
    /// A box where it fits best, and its place.
    PlaceBest([u32; 3], Option<[u32; 6]>),
    /// A clone, which has the same list and size.
    Clone,
}

/// What a checked push answers. A refusal names the pushed section.
#[derive(Clone, Copy)]
pub enum Pushed {
    Accepted,
    OutOfBounds,
    /// This free section is in the way.
    Overlaps([u32; 6]),
}

/// What a trial answers: the places, or `None`, with `count` fit tests, which are at most `most`.
#[derive(Clone, Copy)]
pub struct Tried {
    pub places: Option<&'static [[u32; 6]]>,
    pub count: u128,
    pub most: u128,
}

/// A call, and the list afterwards.
#[derive(Clone, Copy)]
pub struct Step {
    pub call: Call,
    pub list: &'static [[u32; 6]],
}

/// Calls of one bin.
#[derive(Clone, Copy)]
pub struct Script {
    /// What it shows.
    pub subject: &'static str,
    pub size: [u32; 3],
    /// How the bin gets the list.
    pub start: Start,
    /// The list before the first step.
    pub list: &'static [[u32; 6]],
    pub steps: &'static [Step],
}

/// How a bin gets its list.
#[derive(Clone, Copy)]
pub enum Start {
    /// It is new.
    New,
    /// Its first section is taken out, and those of the list are pushed.
    Pushed,
    /// The same with pushes that are not checked.
    Unchecked,
}

// How far a script comes.
#[derive(Clone, Copy)]
enum Came {
    // There was no memory for the bin.
    Unmade,
    // A call was refused memory, and left the list as it was.
    Refused,
    // A call answers, or leaves, something else than is wanted.
    Wrong(usize),
    // All is as wanted.
    Out,
}

type Answers = Result<bool, AllocError>;

fn remove(bin: &mut Bin, idx: usize) -> bool {
    let there = idx < bin.available_bin_sections().len();
    if there {
        bin.remove_filled_section(idx);
    }
    there
}

// Whether a checked push answers this. An error where the section is accepted and memory refused.
fn push(bin: &mut Bin, pushed: BinSection, wanted: Pushed) -> Answers {
    let accepted = bin.accepts(&pushed);
    let answer = bin.push_available_bin_section(pushed);
    let (named, answered) = match &answer {
        Ok(()) => (numbers(&pushed), Pushed::Accepted),
        Err(PushBinSectionError::OutOfBounds(refused)) => {
            (numbers(refused), Pushed::OutOfBounds)
        }
        Err(
            PushBinSectionError::Overlaps {
                remaining_section,
                new_section,
            },
        ) => (
            numbers(new_section),
            Pushed::Overlaps(numbers(remaining_section)),
        ),
        Err(PushBinSectionError::OutOfMemory(refused)) => {
            if accepted && numbers(refused) == numbers(&pushed) {
                return Err(AllocError);
            }
            return Ok(false);
        }
    };
    Ok(named == numbers(&pushed) && is_answer(accepted, answered, wanted))
}

// Whether a push answers as is wanted, of a section that the bin accepts or not.
fn is_answer(accepted: bool, answered: Pushed, wanted: Pushed) -> bool {
    match (answered, wanted) {
        (Pushed::Accepted, Pushed::Accepted) => accepted,
        (Pushed::OutOfBounds, Pushed::OutOfBounds) => !accepted,
        (Pushed::Overlaps(section), Pushed::Overlaps(other)) => !accepted && section == other,
        _ => false,
    }
}

fn push_unchecked(bin: &mut Bin, pushed: BinSection) -> Answers {
    if !bin.accepts(&pushed) {
        return Ok(false);
    }
    bin.push_available_bin_section_unchecked(pushed)?;
    Ok(true)
}

// The boxes of these sizes, at most three.
fn boxes(sizes: &[[u32; 3]]) -> [RectToInsert; 3] {
    let mut boxes = [RectToInsert::new(0, 0, 0); 3];
    for (rect, size) in boxes.iter_mut().zip(sizes.iter()) {
        let [width, height, depth] = *size;
        *rect = RectToInsert::new(width, height, depth);
    }
    boxes
}

// Whether these are the places, in order.
fn are_at(locations: &[PackedLocation], places: &[[u32; 6]]) -> bool {
    all_match!(locations.iter(), places, location, wanted => place(location) == *wanted)
}

// Whether a trial answers this. Refused, it counts no more than the bound.
fn trial(bin: &mut Bin, members: &[RectToInsert], wanted: Tried) -> Answers {
    let mut tests = FitTests::new();
    let answer = bin.place_all(
        members,
        &volume_heuristic,
        &contains_smallest_box,
        &mut tests,
    );
    let count = tests.count();
    match (answer, wanted.places) {
        (Err(refused), _) if count <= wanted.most => Err(refused),
        (Ok(None), None) => Ok(count == wanted.count),
        (Ok(Some(locations)), Some(places)) => {
            Ok(count == wanted.count && are_at(locations.as_slice(), places))
        }
        _ => Ok(false),
    }
}

// Whether a box where it fits best is placed here.
fn place_best(bin: &mut Bin, size: [u32; 3], wanted: Option<[u32; 6]>) -> Answers {
    let [width, height, depth] = size;
    let size = RectToInsert::new(width, height, depth);
    let placed = bin.place_best(size, &volume_heuristic, &contains_smallest_box)?;
    match (placed, wanted) {
        (Some(location), Some(numbers)) => Ok(place(&location) == numbers),
        (None, None) => Ok(true),
        _ => Ok(false),
    }
}

fn clone_is_alike(bin: &Bin) -> Answers {
    let other = bin.clone()?;
    Ok(
        other.max_size() == bin.max_size()
            && other.available_bin_sections() == bin.available_bin_sections(),
    )
}

// Whether the call answers as is wanted. An error where it is refused memory.
fn obey(bin: &mut Bin, call: Call) -> Answers {
    match call {
        Call::Remove(idx) => Ok(remove(bin, idx)),
        Call::Push(numbers, wanted) => push(bin, section_of(numbers), wanted),
        Call::PushUnchecked(numbers) => push_unchecked(bin, section_of(numbers)),
        Call::Coalesce(idx, lo, hi) => {
            bin.coalesce_available_sections(idx, lo..hi);
            Ok(true)
        }
        Call::CoalesceAll => {
            bin.coalesce_all();
            Ok(true)
        }
        Call::Place(sizes, wanted) => {
            let boxes = boxes(sizes);
            match boxes.get(..sizes.len()) {
                Some(members) => trial(bin, members, wanted),
                None => Ok(false),
            }
        }
        Call::PlaceBest(size, wanted) => place_best(bin, size, wanted),
        Call::Clone => clone_is_alike(bin),
    }
}

// Pushes the sections of the list into a bin without any. Refused, it has those that came before.
fn give(bin: &mut Bin, list: &[[u32; 6]], checked: bool) -> Answers {
    for (index, numbers) in list.iter().enumerate() {
        let call = if checked {
            Call::Push(*numbers, Pushed::Accepted)
        } else {
            Call::PushUnchecked(*numbers)
        };
        match (obey(bin, call), list.get(..index)) {
            (Ok(true), _) => {}
            (Err(refused), Some(before)) if has_list(bin, before) => return Err(refused),
            _ => return Ok(false),
        }
    }
    Ok(has_list(bin, list))
}

fn begin(bin: &mut Bin, script: &Script) -> Answers {
    match script.start {
        Start::New => Ok(has_list(bin, script.list)),
        Start::Pushed => Ok(remove(bin, 0) && give(bin, script.list, true)?),
        Start::Unchecked => Ok(remove(bin, 0) && give(bin, script.list, false)?),
    }
}

// Makes the calls, the list before the first of which is this one.
fn follow(bin: &mut Bin, list: &[[u32; 6]], steps: &[Step]) -> Came {
    let mut before = list;
    for (index, step) in steps.iter().enumerate() {
        match obey(bin, step.call) {
            Ok(true) if has_list(bin, step.list) => before = step.list,
            Err(_) if has_list(bin, before) => return Came::Refused,
            _ => return Came::Wrong(index),
        }
    }
    Came::Out
}

fn follow_all(bin: &mut Bin, script: &Script) -> Came {
    match begin(bin, script) {
        Ok(true) => {}
        Ok(false) => return Came::Wrong(0),
        Err(_) => return Came::Refused,
    }
    follow(bin, script.list, script.steps)
}

fn run(refusing: Refusing, script: &Script) -> Came {
    let [width, height, depth] = script.size;
    match TargetBin::new(refusing, width, height, depth) {
        Ok(mut bin) => {
            let max = bin.max_size();
            if [max.width(), max.height(), max.depth()] == script.size {
                follow_all(&mut bin, script)
            } else {
                Came::Wrong(0)
            }
        }
        Err(_) => Came::Unmade,
    }
}

// Whether a run may come out so, for which `granted` requests were granted. It gives back all that
// it takes, and comes out where no request was refused, and only there. Without memory there is no
// bin, and the last run has used up what was granted.
fn may_come(came: Came, granted: u64, refusing: Refusing) -> bool {
    let is_out = matches!(came, Came::Out);
    refusing.taken() == 0
        && (refusing.refused() == 0) == is_out
        && (!is_out || granted > 0 && refusing.left() == 0)
}

fn run_granted(rt: &impl Abort, alloc: Global, granted: u64, script: &Script) -> Came {
    let refusing = Refusing::new(alloc, granted).expect(rt, "no memory for the counts");
    let came = run(refusing, script);
    assert!(rt; may_come(came, granted, refusing), "{}", script.subject);
    came
}

/// Runs the script with each request refused in turn, until none is. Answers whether a request was
/// refused once the bin was made.
pub fn runs(rt: &impl Abort, alloc: Global, script: &Script) -> bool {
    let mut refused = false;
    for granted in 0..200u64 {
        match run_granted(rt, alloc, granted, script) {
            Came::Unmade => {}
            Came::Refused => refused = true,
            Came::Wrong(step) => assert!(rt; false, "{} {step}", script.subject),
            Came::Out => return refused,
        }
    }
    assert!(rt; false, "{}", script.subject);
    refused
}
