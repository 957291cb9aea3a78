//! Sessions whose heuristic and comparison answer without sense.
ghost use Rattle.rectangle_pack.specs.Closures.{AreCallable, CanRate};

use super::{BIN, OTHER, Order, TestCommand, TestSession, command, plenty};
use rectangle_pack::{
    BinSection, Outstanding, Reply, TargetBin, WidthHeightDepth, contains_smallest_box,
};
use std::cell::Cell;
use std::cmp::Ordering;
use std::process::Abort;
use std::slice;
use tests_support::box_list;
use tests_support::refusing::Refusing;
use tests_support::shapes::{numbers, place};

// Two groups.
const ONE_GROUP: u32 = 1;

const OTHER_GROUP: u32 = 2;

// Boxes that are packed: `count` entries, from the number `first` on.
macro_rules! places {
    ($($id:tt: $size:tt $(in $groups:tt)?),* => $first:literal, $count:literal) => {
        (Order::Pack(box_list!($($id: $size $(in $groups)?),*)), packed!($first, $count))
    };
}

// Whatever the closures answer, the first bin has room: of its million cells a free section that
// does not hold one of these boxes has at most 30,000, and there are never more than 30 of them.
fn orders() -> &'static [(Order, Reply)] {
    const ORDERS: &[(Order, Reply)] = &[
        (Order::AddBin(BIN, [100, 100, 100]), Reply::Done),
        (Order::AddBin(OTHER, [7, 5, 3]), Reply::Done),
        places!(1: [3, 2, 2], 2: [1, 1, 1] => 0, 2),
        places!(3: [2, 1, 1] in [ONE_GROUP], 4: [1, 2, 3] in [ONE_GROUP, OTHER_GROUP],
            5: [4, 1, 2] => 2, 4),
        (Order::Release(1), Reply::Done),
        (Order::Release(4), Reply::Done),
        places!(6: [2, 2, 2], 7: [0, 1, 1] in [OTHER_GROUP, OTHER_GROUP] => 6, 3),
        (Order::Release(0), Reply::Done),
        (Order::CoalesceAll(BIN), Reply::Done),
        (Order::CoalesceAll(OTHER), Reply::Done),
        places!(8: [3, 4, 1], 9: [1, 1, 3] => 9, 2),
        (Order::Release(10), Reply::Done),
        (Order::Release(3), Reply::Done),
    ];
    ORDERS
}

pub type Three = [WidthHeightDepth; 3];

fn volume([_, _, _, width, height, depth]: [u32; 6]) -> u64 {
    u64::from(width)
        .wrapping_mul(u64::from(height))
        .wrapping_mul(u64::from(depth))
}

fn free_volume(sections: &[BinSection]) -> u64 {
    let mut sum = 0u64;
    for section in sections {
        sum = sum.wrapping_add(volume(numbers(section)));
    }
    sum
}

fn placed_volume(outstanding: &[Outstanding<u32, u32>], bin: u32) -> u64 {
    let mut sum = 0u64;
    for placed in outstanding {
        if placed.bin == bin {
            sum = sum.wrapping_add(volume(place(&placed.location)));
        }
    }
    sum
}

// Whether what is free and what is placed in the bin make up the whole.
fn is_whole(bin: &TargetBin<Refusing>, id: u32, outstanding: &[Outstanding<u32, u32>]) -> bool {
    let size = bin.max_size();
    let whole = [0, 0, 0, size.width(), size.height(), size.depth()];
    let free = free_volume(bin.available_bin_sections().as_slice());
    free.wrapping_add(placed_volume(outstanding, id)) == volume(whole)
}

/// Whether that is so of each bin.
pub fn are_whole(session: &TestSession) -> bool {
    for (id, bin) in session.bins() {
        if !is_whole(bin, *id, session.outstanding()) {
            return false;
        }
    }
    true
}

/// How the closures answer.
#[derive(Clone, Copy)]
pub enum Mood {
    // By how often they were asked.
    Counting,
    // By hashes of the sizes.
    Hashing,
    // The heuristic by hashes; of three the first is below the second, the second below the
    // third, and the third below the first.
    InACircle,
    // The heuristic the least and the greatest number in turn.
    LeastAndGreatest,
}

pub const MOODS: [Mood; 4] = [
    Mood::Counting,
    Mood::Hashing,
    Mood::InACircle,
    Mood::LeastAndGreatest,
];

/// The closures of a session: their mood, and how often each was asked.
#[derive(Drop)]
pub struct Answers {
    mood: Mood,
    // Whether sections are compared by smallest boxes instead.
    by_smallest: bool,
    rated: Cell<u64>,
    compared: Cell<u64>,
}

impl Answers {
    /// Closures of this mood, which were not asked yet.
    pub fn new(mood: Mood, by_smallest: bool) -> Answers {
        Answers {
            mood,
            by_smallest,
            rated: Cell::new(0),
            compared: Cell::new(0),
        }
    }
}

fn count(counter: &Cell<u64>) -> u64 {
    let now = counter.get();
    counter.set(now.wrapping_add(1));
    now
}

fn any_of_three(number: u64) -> Ordering {
    match number % 3 {
        0 => Ordering::Less,
        1 => Ordering::Equal,
        _ => Ordering::Greater,
    }
}

fn hash_on(hash: u64, side: u32) -> u64 {
    (hash ^ u64::from(side)).wrapping_mul(0x100000001b3)
}

fn hash(size: WidthHeightDepth) -> u64 {
    let hash = hash_on(0xcbf29ce484222325, size.width());
    hash_on(hash_on(hash, size.height()), size.depth())
}

fn hash_of_three([right, above, behind]: Three) -> u64 {
    hash(right)
        .rotate_left(1)
        .wrapping_add(hash(above).rotate_left(2))
        .wrapping_add(hash(behind))
}

/// What the heuristic answers.
pub fn rate(answers: &Answers, size: WidthHeightDepth) -> u128 {
    match answers.mood {
        Mood::Counting => u128::from(count(&answers.rated) % 7),
        Mood::Hashing | Mood::InACircle => u128::from(hash(size)),
        Mood::LeastAndGreatest if count(&answers.rated) % 2 == 0 => 0,
        Mood::LeastAndGreatest => u128::MAX,
    }
}

/// What the comparison answers.
pub fn compare(answers: &Answers, one: Three, other: Three) -> Ordering {
    let (one, other) = (hash_of_three(one), hash_of_three(other));
    match answers.mood {
        Mood::Counting | Mood::LeastAndGreatest => any_of_three(count(&answers.compared)),
        Mood::Hashing => any_of_three(one ^ other.rotate_left(7)),
        Mood::InACircle => any_of_three((one % 3 + 4 - other % 3) % 3),
    }
}

// What a run of these commands replies first.
fn run<H, C>(
    session: &mut TestSession,
    commands: &[TestCommand],
    heuristic: &H,
    comparison: &C,
) -> Option<Reply>
where
    H: Fn(WidthHeightDepth) -> u128,
    C: Fn(Three, Three, &H) -> Ordering,
    requires { AreCallable H.Fn C.Fn heuristic.now comparison.now }
{
    match session.run(commands, heuristic, comparison) {
        Ok(replies) => replies.first().copied(),
        Err(_) => None,
    }
}

fn run_comparing<H>(
    session: &mut TestSession,
    commands: &[TestCommand],
    answers: &Answers,
    heuristic: &H,
) -> Option<Reply>
where
    H: Fn(WidthHeightDepth) -> u128,
    requires { CanRate H.Fn heuristic.now }
{
    if answers.by_smallest {
        return run(session, commands, heuristic, &contains_smallest_box);
    }
    let comparison = |one: Three, other: Three, _: &H| compare(answers, one, other);
    run(session, commands, heuristic, &comparison)
}

fn run_with(
    session: &mut TestSession,
    commands: &[TestCommand],
    answers: &Answers,
) -> Option<Reply> {
    let heuristic = |size: WidthHeightDepth| rate(answers, size);
    run_comparing(session, commands, answers, &heuristic)
}

// Whether the run of this one command replies so, and the volumes add up after it.
fn obeys(
    alloc: Refusing,
    session: &mut TestSession,
    row: &(Order, Reply),
    answers: &Answers,
) -> bool {
    let (order, wanted) = row;
    let Ok(command) = command(alloc, order) else {
        return false;
    };
    run_with(session, slice::from_ref(&command), answers) == Some(*wanted) && are_whole(session)
}

// How many commands are obeyed, up to the first that is not.
fn count_obeyed(alloc: Refusing, session: &mut TestSession, answers: &Answers) -> usize {
    let mut count = 0usize;
    for row in orders() {
        if !obeys(alloc, session, row, answers) {
            return count;
        }
        count = count.wrapping_add(1);
    }
    count
}

// In a new session all commands are obeyed.
fn obey_all(rt: &impl Abort, alloc: Refusing, mood: Mood, by_smallest: bool) {
    let mut session = TestSession::new(alloc, 0);
    let answers = Answers::new(mood, by_smallest);
    assert_eq!(rt; count_obeyed(alloc, &mut session, &answers), orders().len());
}

#[test]
fn answers_without_sense(rt: HostRuntime) {
    let alloc = plenty(&rt, rt.alloc());
    for mood in MOODS {
        obey_all(&rt, alloc, mood, false);
        obey_all(&rt, alloc, mood, true);
    }
}
