//! Sessions: what they reply to each command, and their state after it, with all memory and where
//! it is refused. Each script of commands is obeyed by `calls`, and then by one `run`.

/// What becomes of a new session: the number of its first placement, lines, and how many calls are
/// refused memory, at least.
macro_rules! script {
    (from $first:expr, $lines:expr, refused $refusals:expr) => {
        $crate::session::Script {
            first: $first,
            lines: $lines,
            refusals: $refusals,
        }
    };
}

/// A command, whether it asks for memory, the reply, and the state of the session afterwards.
macro_rules! line {
    ($order:expr, $memory:ident => $reply:expr, $after:expr) => {
        $crate::session::Line {
            order: $order,
            memory: $crate::session::Memory::$memory,
            reply: $reply,
            after: $after,
        }
    };
}

/// Bins, placements, and the number of the next one.
macro_rules! state {
    ($bins:expr, $placed:expr, next $next:expr) => {
        $crate::session::State {
            bins: &$bins,
            placed: &$placed,
            next: $next,
        }
    };
}

/// A bin: its id and free sections, its volume as what is free and what is placed, and how many
/// sections and placements it has. It does not count as coalesced.
macro_rules! held {
    ($id:expr, $free:expr; $bin:tt = $left:tt + $placed:tt; $sections:tt free,
        $placements:tt placed) => {
        $crate::session::Held {
            id: $id,
            free: &$free,
            volumes: [$bin, $left, $placed],
            counts: [$sections, $placements],
            coalesced: false,
        }
    };
}

/// The reply to a packing: the number of its first placement, and how many there are.
macro_rules! packed {
    ($first:expr, $count:expr) => {
        rectangle_pack::Reply::Packed(rectangle_pack::Packed {
            first: $first,
            count: $count,
        })
    };
}

mod best;
mod calls;
mod clones;
mod cut_plan;
mod fitting;
mod fitting_clones;
mod fitting_hostile;
mod growing;
mod hostile;
mod large;
mod no_memory;
mod numbers;
mod outstanding_in;
mod placing_at;
mod placing_best;
mod recutting;
mod refusals;
mod release_order;
mod releases;
mod releasing;
mod restoring;
mod run;
mod searching;
mod stats;
mod strip;
mod sweeps;
mod told;
mod units;
mod upkeep;

use rectangle_pack::{BinSection, BinStats, Command, Outstanding, Reply, Session, SessionError};
use std::alloc::{AllocError, Global};
use std::process::Abort;
use std::test::Fail;
use tests_support::all_match;
use tests_support::boxes::{GroupName, SizedBox, collect};
use tests_support::refusing::Refusing;
use tests_support::shapes::{has_list, place};

/// A session whose memory may be refused.
pub type TestSession = Session<u32, u32, Refusing>;

/// A command for it.
pub type TestCommand = Command<u32, u32, u32, Refusing>;

/// Commands for it.
pub type Commands = Vec<TestCommand, Refusing>;

/// What is made where there is memory for it.
pub type Made<T> = Result<T, AllocError>;

/// A command, as data.
#[derive(Clone, Copy)]
pub enum Order {
    /// A bin of this id and size.
    AddBin(u32, [u32; 3]),
    /// Boxes.
    Pack(&'static [SizedBox]),
    /// The same, with pairs of groups that are excluded.
    PackApart(&'static [SizedBox], &'static [(GroupName, GroupName)]),
    /// The placement of this number.
    Release(u64),
    /// The section of this index in the bin of this id, joined over the range.
    Coalesce(u32, usize, usize, usize),
    /// A sweep of the bin of this id.
    CoalesceAll(u32),
}

/// The state of a bin.
#[derive(Clone, Copy)]
pub struct Held {
    pub id: u32,
    /// Its free sections.
    pub free: &'static [[u32; 6]],
    /// The volumes of the bin, of what is free and of what is placed in it.
    pub volumes: [u128; 3],
    /// The counts of free sections and of placements.
    pub counts: [usize; 2],
    /// Whether it counts as coalesced.
    pub coalesced: bool,
}

/// An outstanding placement: number, box, bin and place.
pub type PlacedBox = (u64, u32, u32, [u32; 6]);

/// The state of a session.
#[derive(Clone, Copy)]
pub struct State {
    pub bins: &'static [Held],
    /// In the order of their numbers.
    pub placed: &'static [PlacedBox],
    /// The number of the next placement.
    pub next: u64,
}

/// Whether a call asks for memory, where that is promised or plain.
#[derive(Clone, Copy)]
pub enum Memory {
    Asked,
    NotAsked,
    Either,
}

/// How a call, a run or a step came out.
#[derive(Clone, Copy)]
pub enum Came {
    /// As wanted.
    Out,
    /// Memory was refused.
    Refused,
    /// Not as wanted.
    Wrong,
}

/// A command, the reply to it, and the state of the session afterwards.
#[derive(Clone, Copy)]
pub struct Line {
    pub order: Order,
    pub memory: Memory,
    pub reply: Reply,
    pub after: State,
}

/// What becomes of a new session.
#[derive(Clone, Copy)]
pub struct Script {
    /// The number of its first placement.
    pub first: u64,
    pub lines: &'static [Line],
    /// How many calls at least are refused memory, one where each request is refused in turn.
    pub refusals: usize,
}

/// The bin of most scripts.
pub const BIN: u32 = 0;

/// A bin that is in few of them.
pub const OTHER: u32 = 1;

/// A bin that is in none.
pub const NOWHERE: u32 = 2;

/// A new bin of ten by ten cells.
pub const NEW: Held = held!(BIN, [[0, 0, 0, 10, 10, 1]]; 100 = 100 + 0; 1 free, 0 placed);

/// A session with that bin alone.
pub const ONE_NEW_BIN: State = state!([NEW], [], next 0);

/// Adds it to a session that has no bin.
pub const ADD_BIN: Line = line!(Order::AddBin(BIN, [10, 10, 1]), Asked => Reply::Done, ONE_NEW_BIN);

/// Nothing of this number is outstanding.
pub const UNKNOWN: Reply = Reply::Refused(SessionError::UnknownPlacement);

/// A size of many boxes.
pub const TILE: [u32; 3] = [4, 4, 1];

/// Where the first of them is placed.
pub const FIRST: [u32; 6] = [0, 0, 0, 4, 4, 1];

fn packing(
    alloc: Refusing,
    boxes: &[SizedBox],
    pairs: &[(GroupName, GroupName)],
) -> Made<TestCommand> {
    Ok(Command::Pack(collect(alloc, boxes, pairs)?))
}

/// The command of an order.
pub fn command(alloc: Refusing, order: &Order) -> Made<TestCommand> {
    match order {
        Order::AddBin(id, [width, height, depth]) => Ok(Command::AddBin {
            id: *id,
            width: *width,
            height: *height,
            depth: *depth,
        }),
        Order::Pack(boxes) => packing(alloc, boxes, &[]),
        Order::PackApart(boxes, pairs) => packing(alloc, boxes, pairs),
        Order::Release(number) => Ok(Command::Release(*number)),
        Order::Coalesce(bin, idx, lo, hi) => Ok(Command::Coalesce {
            bin: *bin,
            idx: *idx,
            lo: *lo,
            hi: *hi,
        }),
        Order::CoalesceAll(bin) => Ok(Command::CoalesceAll(*bin)),
    }
}

fn push_commands(alloc: Refusing, commands: &mut Commands, lines: &[Line]) -> Made<()> {
    for line in lines {
        commands.push(command(alloc, &line.order)?)?;
    }
    Ok(())
}

fn commands(alloc: Refusing, script: &Script) -> Made<Commands> {
    let mut commands = Vec::new(alloc);
    push_commands(alloc, &mut commands, script.lines)?;
    Ok(commands)
}

fn stats_of(held: &Held) -> BinStats {
    let [bin_volume, free_volume, placed_volume] = held.volumes;
    let [free_sections, placements] = held.counts;
    BinStats {
        bin_volume,
        free_volume,
        placed_volume,
        free_sections,
        placements,
    }
}

/// Whether the session has a bin of this id, with these free sections.
pub fn has_free(session: &TestSession, id: u32, list: &[[u32; 6]]) -> bool {
    match session.bins().get(&id) {
        Some(bin) => has_list(bin, list),
        None => false,
    }
}

/// The free sections of the bin of most scripts.
pub fn free_sections(session: &TestSession) -> &[BinSection] {
    match session.bins().get(&BIN) {
        Some(bin) => bin.available_bin_sections().as_slice(),
        None => &[],
    }
}

fn has_bin(session: &TestSession, held: &Held) -> bool {
    has_free(session, held.id, held.free)
        && session.stats(&held.id) == Some(stats_of(held))
        && session.was_coalesced(&held.id) == Some(held.coalesced)
}

// Whether these are the session's bins, each of an id of its own.
fn has_bins(session: &TestSession, wanted: &[Held]) -> bool {
    for held in wanted {
        if !has_bin(session, held) {
            return false;
        }
    }
    session.bins().len() == wanted.len()
}

fn is_placed(placed: &Outstanding<u32, u32>, wanted: &PlacedBox) -> bool {
    let (number, id, bin, at) = *wanted;
    placed.number == number && placed.id == id && placed.bin == bin && place(&placed.location) == at
}

// Whether these are the placements, in order.
fn has_placed(placed: &[Outstanding<u32, u32>], wanted: &[PlacedBox]) -> bool {
    all_match!(placed.iter(), wanted, one, other => is_placed(one, other))
}

fn has_id(bins: &[Held], id: u32) -> bool {
    for held in bins {
        if held.id == id {
            return true;
        }
    }
    false
}

// Whether nothing is said of the bins of scripts that are not among these.
fn are_unknown(session: &TestSession, wanted: &[Held]) -> bool {
    for id in [BIN, OTHER, NOWHERE] {
        let is_known = session.stats(&id).is_some() || session.was_coalesced(&id).is_some();
        if is_known && !has_id(wanted, id) {
            return false;
        }
    }
    true
}

/// Whether the session is in this state. Nothing is said of a bin that is not there.
pub fn is_in(session: &TestSession, wanted: &State) -> bool {
    session.next_number() == wanted.next
        && has_bins(session, wanted.bins)
        && has_placed(session.outstanding(), wanted.placed)
        && are_unknown(session, wanted.bins)
}

/// The state of a new session.
pub fn empty(first: u64) -> State {
    state!([], [], next first)
}

/// Memory that is never refused.
pub fn plenty(rt: &impl Abort, alloc: Global) -> Refusing {
    Refusing::new(alloc, u64::MAX).expect(rt, "no memory for the counts")
}

/// Each script comes out, by its calls and by one run, with each request refused in turn.
pub fn come_out(rt: &impl Abort, alloc: Global, scripts: &[Script]) -> Result<(), Fail> {
    let plenty = plenty(rt, alloc);
    for script in scripts {
        calls::come_out(rt, alloc, plenty, script)?;
        run::come_out(rt, alloc, plenty, script)?;
    }
    Ok(())
}
