//! What C reads of a session: the free sections and the cutting plan of a bin, the bins. Each list
//! goes to an array of the caller's.
ghost use Rattle.std.specs.Prelude.{◌≡◌, ℕ, IsSome, IfSome, map};
ghost use Rattle.std.specs.List.Sorted.{IsStrictlySortedBy};
ghost use Rattle.std.specs.Map.{keys_of};
ghost use Rattle.std.specs.Ordering.{nat_cmp};
ghost use Rattle.rectangle_pack.specs.Session.{State};
ghost use Rattle.rectangle_pack_c.specs.Reading.{Tells, TellsSections, TellsCoalesced, TellsPlan, TellsSize};
ghost use Rattle.rectangle_pack.specs.CutPlans.{axis_rank};

use super::handle::RpSession;
use super::session::refusal;
use super::{RP_DONE, RP_NO_PLAN, RP_SHORT_ARRAY, RP_UNKNOWN_BIN, RpBin, Written};
use rectangle_pack::{Axis, BinSection, CutStep, Session};
use std::alloc::Global;

/// A free section of a bin: its corner with the least coordinates, and its sides.
#[repr(C)]
#[derive(Clone, Copy)]
pub struct RpSection {
    /// The distance of the corner from the bin's left side, in cells.
    pub x: u32,
    /// Its distance from the bottom.
    pub y: u32,
    /// Its distance from the front.
    pub z: u32,
    /// The width, in cells.
    pub width: u32,
    /// The height.
    pub height: u32,
    /// The depth.
    pub depth: u32,
}

/// A step of a cutting plan: a cut, or that a part is not cut.
#[repr(C)]
#[derive(Clone, Copy)]
pub struct RpCutStep {
    /// The axis that the cut stands across: 0 for x, 1 for y, 2 for z. Where the part is not cut,
    /// `RP_LEAF`.
    pub axis: u32,
    /// How many cells from the bin's corner the cut stands, or 0.
    pub place: u32,
}

/// In place of an axis: the part is not cut.
pub const RP_LEAF: u32 = 3;

impl Written<BinSection> for RpSection {
    ghost use Rattle.rectangle_pack_c.specs.Reading.{section_of};

    ghost written = { section_of };

    fn of(section: &BinSection) -> Self {
        let whd = section.whd();
        RpSection {
            x: section.x(),
            y: section.y(),
            z: section.z(),
            width: whd.width(),
            height: whd.height(),
            depth: whd.depth(),
        }
    }
}

impl Written<CutStep> for RpCutStep {
    ghost use Rattle.rectangle_pack_c.specs.Reading.{step_of};

    ghost written = { step_of };

    fn of(step: &CutStep) -> Self {
        match step {
            CutStep::Cut { axis, place } => RpCutStep {
                axis: axis_number(*axis),
                place: *place,
            },
            CutStep::Leaf => RpCutStep {
                axis: RP_LEAF,
                place: 0,
            },
        }
    }
}

// The number of an axis.
fn axis_number(axis: Axis) -> u32
    ensures { result ≡ axis_rank axis }
{
    match axis {
        Axis::X => 0,
        Axis::Y => 1,
        Axis::Z => 2,
    }
}

// Writes how many entries a list has, and these to the beginning of an array, where it is long
// enough.
pub(crate) fn tell<S, T: Written<S>>(there: &[S], array: &mut [T], count: &mut usize) -> u32
    ensures { Tells (map T.written there.now) result array.old array.new count.new }
{
    *count = there.len();
    if array.len() < there.len() {
        return RP_SHORT_ARRAY;
    }
    for (i, entry) in there.iter().enumerate() {
        array[i] = T::of(entry);
    }
    RP_DONE
}

/// Writes the free sections of a bin to an array, the newest last, and how many they are.
/// `RP_DONE`, `RP_SHORT_ARRAY` where there are more than the array holds, and then only their
/// number is written, or `RP_UNKNOWN_BIN`, and then nothing is written. Takes no memory, and leaves
/// the session as it was.
#[unsafe(no_mangle)]
pub extern "C" fn rectangle_pack_session_free_sections(
    alloc: Global,
    session: &mut RpSession,
    bin: u32,
    sections: &mut [RpSection],
    count: &mut usize,
) -> u32
    // The handle has a session.
    requires made { IsSome session.old.state }
    // `RP_DONE` and `RP_SHORT_ARRAY`: the bin is there. How many free sections it has is written,
    //   and they stand in the array, in the order of its list, exactly where it holds as many.
    //   [tell_sections.another_bin_is_told]
    // `RP_UNKNOWN_BIN`: there is no such bin, and nothing is written. No other status is answered.
    ensures told { IfSome session.old.state (λ (state : State ℕ ℕ).
        TellsSections state bin result sections.old sections.new count.old count.new) }
    // The session is as it was.
    ensures unchanged { session.new.state ≡ session.old.state }
{
    let held = session.take(alloc);
    let answer = tell_sections(&held, bin, sections, count);
    *session = RpSession::of(held);
    answer
}

// Writes the free sections of a bin of a session.
fn tell_sections(
    session: &Session<u32, u32>,
    bin: u32,
    sections: &mut [RpSection],
    count: &mut usize,
) -> u32
    ensures { TellsSections session.now bin result sections.old sections.new count.old count.new }
{
    let Some(found) = session.bins().get(&bin) else {
        return RP_UNKNOWN_BIN;
    };
    tell(found.available_bin_sections().as_slice(), sections, count)
}

/// Writes 1 where a bin's sections were joined, by either call, since it was added or last cleared,
/// also where nothing was there to join, else 0. `RP_DONE`, or `RP_UNKNOWN_BIN` where there is no
/// such bin, and then nothing is written. Takes no memory, and leaves the session as it was.
#[unsafe(no_mangle)]
pub extern "C" fn rectangle_pack_session_was_coalesced(
    alloc: Global,
    session: &mut RpSession,
    bin: u32,
    coalesced: &mut u32,
) -> u32
    requires made { IsSome session.old.state }
    // `RP_DONE`: the bin is there, and 1 is written where it counts as coalesced, else 0.
    //   `RP_UNKNOWN_BIN`: it is not there, and nothing is written. No other status is answered.
    //   [rectangle_pack_session_was_coalesced.answer_is_turned]
    ensures told { IfSome session.old.state (λ (state : State ℕ ℕ).
        TellsCoalesced state bin result coalesced.old coalesced.new) }
    ensures unchanged { session.new.state ≡ session.old.state }
{
    let held = session.take(alloc);
    let answer = held.was_coalesced(&bin);
    *session = RpSession::of(held);
    let Some(was) = answer else {
        return RP_UNKNOWN_BIN;
    };
    *coalesced = if was { 1 } else { 0 };
    RP_DONE
}

/// Writes the size of a bin. `RP_DONE`, or `RP_UNKNOWN_BIN` where there is no such bin, and then
/// nothing is written. Takes no memory, and leaves the session as it was.
#[unsafe(no_mangle)]
pub extern "C" fn rectangle_pack_session_bin_size(
    alloc: Global,
    session: &mut RpSession,
    bin: u32,
    size: &mut RpBin,
) -> u32
    requires made { IsSome session.old.state }
    // `RP_DONE`: the bin is there, and its size is written. `RP_UNKNOWN_BIN`: it is not there, and
    //   nothing is written. No other status is answered. [tell_size.no_depth_is_one]
    ensures told { IfSome session.old.state (λ (state : State ℕ ℕ).
        TellsSize state bin result size.old size.new) }
    ensures unchanged { session.new.state ≡ session.old.state }
{
    let held = session.take(alloc);
    let answer = tell_size(&held, bin, size);
    *session = RpSession::of(held);
    answer
}

// Writes the size of a bin of a session.
fn tell_size(session: &Session<u32, u32>, bin: u32, size: &mut RpBin) -> u32
    ensures { TellsSize session.now bin result size.old size.new }
{
    let bins = session.bins();
    let Some(found) = bins.get(&bin) else {
        return RP_UNKNOWN_BIN;
    };
    let whole = found.max_size();
    *size = RpBin {
        width: whole.width(),
        height: whole.height(),
        depth: whole.depth(),
    };
    RP_DONE
}

/// The number of the next placement, or 2^64 - 1 where numbers are used up. Leaves the session as
/// it was.
#[unsafe(no_mangle)]
pub extern "C" fn rectangle_pack_session_next_number(alloc: Global, session: &mut RpSession) -> u64
    requires made { IsSome session.old.state }
    // The answer is the number of the next placement.
    //   [rectangle_pack_session_next_number.number_is_the_last]
    ensures number { IfSome session.old.state (λ (state : State ℕ ℕ). result ≡ state.next) }
    ensures unchanged { session.new.state ≡ session.old.state }
{
    let held = session.take(alloc);
    let number = held.next_number();
    *session = RpSession::of(held);
    number
}

// Writes the ids of the bins of a session.
fn tell_bins(session: &Session<u32, u32>, ids: &mut [u32], count: &mut usize) -> u32
    ensures told { Tells (keys_of session.now.bins) result ids.old ids.new count.new }
    ensures ascend { IsStrictlySortedBy nat_cmp (keys_of session.now.bins) }
{
    let bins = session.bins();
    *count = bins.len();
    if ids.len() < bins.len() {
        return RP_SHORT_ARRAY;
    }
    for (i, (id, _)) in bins.iter().enumerate() {
        ids[i] = *id;
    }
    RP_DONE
}

/// Writes the ids of all bins to an array, in rising order, and how many they are. `RP_DONE`, or
/// `RP_SHORT_ARRAY` where there are more than the array holds, and then only their number is
/// written. Takes no memory, and leaves the session as it was.
#[unsafe(no_mangle)]
pub extern "C" fn rectangle_pack_session_bins(
    alloc: Global,
    session: &mut RpSession,
    ids: &mut [u32],
    count: &mut usize,
) -> u32
    requires made { IsSome session.old.state }
    // How many bins there are is written. Where the array holds as many ids, the status is
    //   `RP_DONE`, the ids of all bins stand at its beginning, in the order of the session's map,
    //   and the rest of it is as before. Else the status is `RP_SHORT_ARRAY`, and the array is as
    //   before. [tell_bins.full_array_is_short]
    ensures told { IfSome session.old.state (λ (state : State ℕ ℕ).
        Tells (keys_of state.bins) result ids.old ids.new count.new) }
    // These ids rise.
    ensures ascend { IfSome session.old.state (λ (state : State ℕ ℕ).
        IsStrictlySortedBy nat_cmp (keys_of state.bins)) }
    ensures unchanged { session.new.state ≡ session.old.state }
{
    let held = session.take(alloc);
    let answer = tell_bins(&held, ids, count);
    *session = RpSession::of(held);
    answer
}

// Writes the cutting plan of a bin of a session.
fn tell_plan(
    session: &Session<u32, u32>,
    bin: u32,
    steps: &mut [RpCutStep],
    count: &mut usize,
) -> u32
    ensures { TellsPlan session.now bin result steps.old steps.new count.old count.new }
{
    match session.cut_plan(&bin) {
        Ok(Some(plan)) => tell(plan.as_slice(), steps, count),
        Ok(None) => RP_NO_PLAN,
        Err(error) => refusal(error),
    }
}

/// Writes the steps of a bin's cutting plan to an array, and how many they are: straight cuts, each
/// across a whole part, that leave the free sections and the boxes of the bin. `RP_DONE`;
/// `RP_SHORT_ARRAY` where there are more than the array holds, and then only their number is
/// written; `RP_NO_PLAN` where no such cuts leave them, which can come only after a call that joins
/// sections; `RP_UNKNOWN_BIN` or `RP_OUT_OF_MEMORY`. With the last three nothing is written. Leaves
/// the session as it was.
#[unsafe(no_mangle)]
pub extern "C" fn rectangle_pack_session_cut_plan(
    alloc: Global,
    session: &mut RpSession,
    bin: u32,
    steps: &mut [RpCutStep],
    count: &mut usize,
) -> u32
    requires made { IsSome session.old.state }
    // `RP_DONE` and `RP_SHORT_ARRAY`: the bin is there. How many steps its plan has is written, and
    //   they stand in the array exactly where it holds as many; the plan is that of the bin's free
    //   sections and outstanding placements, as `planned` of `Session::cut_plan` says it.
    //   [tell.count_is_the_length_of_the_array]
    // `RP_NO_PLAN`: the bin is there, no tree of cuts has these boxes as its leaves, and nothing is
    //   written. [tell_plan.no_plan_is_done]
    // `RP_UNKNOWN_BIN`: there is no such bin. `RP_OUT_OF_MEMORY`: the bin is there. With either,
    //   nothing is written. No other status is answered.
    ensures told { IfSome session.old.state (λ (state : State ℕ ℕ).
        TellsPlan state bin result steps.old steps.new count.old count.new) }
    ensures unchanged { session.new.state ≡ session.old.state }
{
    let held = session.take(alloc);
    let answer = tell_plan(&held, bin, steps, count);
    *session = RpSession::of(held);
    answer
}
