//! Cutting plans of the bins that sessions leave: scripts of calls, with the plans between them.
ghost use Rattle.rectangle_pack.specs.Closures.{CanRate};

/// A packing of these boxes is done; the pairs of groups behind a semicolon are excluded.
macro_rules! packs {
    ($($id:tt: $size:tt $(in $groups:tt)?),* $(; $($pair:expr),*)?) => {
        $crate::session::cut_plan::Step::Call(
            pack_order!([$($id: $size $(in $groups)?),*] $($($pair),*)?))
    };
}

/// The same packing has no room.
macro_rules! refuses {
    ($($id:tt: $size:tt $(in $groups:tt)?),* $(; $($pair:expr),*)?) => {
        $crate::session::cut_plan::Step::Replies(
            pack_order!([$($id: $size $(in $groups)?),*] $($($pair),*)?),
            $crate::session::cut_plan::NO_ROOM)
    };
}

macro_rules! pack_order {
    ([$($boxes:tt)*]) => {
        $crate::session::Order::Pack(tests_support::box_list!($($boxes)*))
    };
    ([$($boxes:tt)*] $($pair:expr),+) => {
        $crate::session::Order::PackApart(tests_support::box_list!($($boxes)*), &[$($pair),+])
    };
}

/// These are all bins, each with its plan.
macro_rules! plans {
    ($($bin:expr => $plan:expr),*) => {
        $crate::session::cut_plan::Step::Plans(&[$(($bin, $plan)),*])
    };
}

mod empty;
mod groups;
mod joins;
mod packings;
mod random;
mod read_back;
mod refusals;

use super::calls::{NO_MEMORY, obey, packed};
use super::{Came, Order, State, TestSession, has_free, is_in};
use rectangle_pack::{
    Axis, CutStep, Reply, SessionError, WidthHeightDepth, contains_smallest_box, volume_heuristic,
};
use std::alloc::Global;
use std::cmp::Ordering;
use std::process::Abort;
use tests_support::all_match;
use tests_support::boxes::{Rects, SizedBox, collect};
use tests_support::refusing::Refusing;

/// A step of a plan, as data: a cut at a place on an axis, or a leaf.
#[derive(Clone, Copy)]
pub enum PlanStep {
    X(u32),
    Y(u32),
    Z(u32),
    Leaf,
}

/// What the two closures of a packing answer.
#[derive(Clone, Copy)]
pub enum Rule {
    /// Volumes, and this answer to each comparison.
    Compares(Ordering),
    /// This rate of each size, and comparisons by smallest boxes.
    Rates(u128),
}

/// A step of a script: a call, or what is so between two calls.
#[derive(Clone, Copy)]
pub enum Step {
    /// This call is done: a packing places each entry of a group, from the next number on.
    Call(Order),
    /// A packing of these boxes by other closures is done.
    PackBy(Rule, &'static [SizedBox]),
    /// This call gets this reply.
    Replies(Order, Reply),
    /// These are all bins, each with its plan.
    Plans(&'static [(u32, &'static [PlanStep])]),
    /// Bin 0 has this plan, and the session is in this state, also where the plan is refused
    /// memory.
    IsIn(State, &'static [PlanStep]),
    /// No straight cuts leave the boxes of this bin whole.
    NoPlan(u32),
    /// There is no such bin.
    NoBin(u32),
    /// The free sections of this bin.
    Free(u32, &'static [[u32; 6]]),
}

/// Scripts of one subject.
pub type Scripts = &'static [&'static [Step]];

/// There is no room for the boxes.
pub const NO_ROOM: Reply = Reply::Refused(SessionError::NotEnoughBinSpace);

// Where every comparison answers the same.
fn pack_comparing<H>(
    session: &mut TestSession,
    rects: &Rects,
    heuristic: &H,
    answer: Ordering,
) -> Reply
where
    H: Fn(WidthHeightDepth) -> u128,
    requires { CanRate H.Fn heuristic.now }
{
    let comparison = |_: [WidthHeightDepth; 3], _: [WidthHeightDepth; 3], _: &H| answer;
    packed(session.pack(rects, heuristic, &comparison))
}

// Where every size has the same rate.
fn pack_rating(session: &mut TestSession, rects: &Rects, rate: u128) -> Reply {
    let heuristic = |_: WidthHeightDepth| rate;
    packed(session.pack(rects, &heuristic, &contains_smallest_box))
}

fn pack_by(session: &mut TestSession, alloc: Refusing, rule: Rule, boxes: &[SizedBox]) -> Reply {
    let Ok(rects) = collect(alloc, boxes, &[]) else {
        return NO_MEMORY;
    };
    match rule {
        Rule::Compares(answer) => pack_comparing(session, &rects, &volume_heuristic, answer),
        Rule::Rates(rate) => pack_rating(session, &rects, rate),
    }
}

fn cut_step(step: &PlanStep) -> CutStep {
    let (axis, place) = match step {
        PlanStep::X(place) => (Axis::X, *place),
        PlanStep::Y(place) => (Axis::Y, *place),
        PlanStep::Z(place) => (Axis::Z, *place),
        PlanStep::Leaf => return CutStep::Leaf,
    };
    CutStep::Cut { axis, place }
}

fn is_plan(plan: &[CutStep], wanted: &[PlanStep]) -> bool {
    all_match!(plan.iter(), wanted, step, other => *step == cut_step(other))
}

fn came_if(is_wanted: bool) -> Came {
    if is_wanted { Came::Out } else { Came::Wrong }
}

// What comes of a reply, which is to be this one.
fn come_of(reply: Reply, wanted: Reply) -> Came {
    if reply == NO_MEMORY {
        return Came::Refused;
    }
    came_if(reply == wanted)
}

// How many entries of groups these boxes make.
fn entries(boxes: &[SizedBox]) -> u64 {
    let mut count = 0u64;
    for (_, _, groups) in boxes {
        count = count.saturating_add(groups.len().max(1) as u64);
    }
    count
}

// What a packing of these boxes replies where it is done, from this next number on.
fn placed(boxes: &[SizedBox], next: u64) -> Reply {
    packed!(next, entries(boxes))
}

// What this call replies where it is done.
fn done(order: &Order, next: u64) -> Reply {
    match order {
        Order::Pack(boxes) => placed(boxes, next),
        Order::PackApart(boxes, _) => placed(boxes, next),
        _ => Reply::Done,
    }
}

fn ask_plan(session: &TestSession, bin: u32, wanted: &[PlanStep]) -> Came {
    match session.cut_plan(&bin) {
        Ok(Some(plan)) => came_if(is_plan(plan.as_slice(), wanted)),
        Err(SessionError::OutOfMemory) => Came::Refused,
        _ => Came::Wrong,
    }
}

fn ask_plans(session: &TestSession, plans: &[(u32, &'static [PlanStep])]) -> Came {
    for (bin, wanted) in plans {
        match ask_plan(session, *bin, wanted) {
            Came::Out => {}
            other => return other,
        }
    }
    came_if(session.bins().len() == plans.len())
}

// The session is in this state, and bin 0 has this plan.
fn ask_in(session: &TestSession, state: &State, plan: &[PlanStep]) -> Came {
    let answer = ask_plan(session, 0, plan);
    if is_in(session, state) {
        answer
    } else {
        Came::Wrong
    }
}

// Whether there is no plan of a bin that is there, or no such bin.
fn has_none(session: &TestSession, bin: u32, is_there: bool) -> bool {
    match session.cut_plan(&bin) {
        Ok(None) => is_there,
        Err(SessionError::UnknownBin) => !is_there,
        _ => false,
    }
}

fn play(session: &mut TestSession, alloc: Refusing, step: &Step) -> Came {
    let next = session.next_number();
    match step {
        Step::Call(order) => come_of(obey(session, alloc, order), done(order, next)),
        Step::PackBy(rule, boxes) => {
            come_of(pack_by(session, alloc, *rule, boxes), placed(boxes, next))
        }
        Step::Replies(order, wanted) => come_of(obey(session, alloc, order), *wanted),
        Step::Plans(plans) => ask_plans(session, plans),
        Step::IsIn(state, plan) => ask_in(session, state, plan),
        Step::NoPlan(bin) => came_if(has_none(session, *bin, true)),
        Step::NoBin(bin) => came_if(has_none(session, *bin, false)),
        Step::Free(bin, list) => came_if(has_free(session, *bin, list)),
    }
}

// Plays the steps until one does not come out as wanted, and says which.
fn play_each(session: &mut TestSession, alloc: Refusing, script: &[Step]) -> (usize, Came) {
    let mut index = 0usize;
    for step in script {
        match play(session, alloc, step) {
            Came::Out => {}
            other => return (index, other),
        }
        index = index.wrapping_add(1);
    }
    (index, Came::Out)
}

// Plays a script in a new session. Says how it came out, and at which step.
fn play_all(alloc: Refusing, script: &[Step]) -> (usize, Came) {
    let mut session = TestSession::new(alloc, 0);
    play_each(&mut session, alloc, script)
}

/// The same with `granted` requests granted. All that it takes is to be given back, and memory said
/// to be refused where it was, and only there.
pub fn play_granted(
    rt: &impl Abort,
    alloc: Global,
    granted: u64,
    script: &[Step],
) -> (usize, Came) {
    let refusing = Refusing::new(alloc, granted).expect(rt, "no memory for the counts");
    let (step, came) = play_all(refusing, script);
    let is_out = matches!(came, Came::Out);
    if refusing.taken() == 0 && (refusing.refused() == 0) == is_out {
        (step, came)
    } else {
        (step, Came::Wrong)
    }
}

/// Each script comes out.
pub fn come_out(rt: &impl Abort, alloc: Global, subject: &str, scripts: Scripts) {
    let mut index = 0usize;
    for script in scripts {
        let (step, came) = play_granted(rt, alloc, u64::MAX, script);
        assert!(rt;
            matches!(came, Came::Out),
            "{subject}: script {index}, step {step}"
        );
        index = index.wrapping_add(1);
    }
}
