//! The outstanding placements of a session, which C reads: all of them, or those of one bin.
ghost use Rattle.std.specs.Prelude.{◌≡◌, ◌<◌, ◌≤◌, ◌++◌, ℕ, IsSome, IfSome, AllPairs, drop, length, map};
ghost use Rattle.rectangle_pack.specs.Session.{State};
ghost use Rattle.rectangle_pack_c.specs.Reading.{Tells, TellsStanding, standing_in, standing_of};

use super::handle::RpSession;
use super::reading::{RpSection, tell};
use super::{RP_DONE, RP_SHORT_ARRAY, RP_UNKNOWN_BIN, Written};
use rectangle_pack::{Outstanding, Session};
use std::alloc::Global;

/// An outstanding placement: its number, its box, and where it stands.
#[repr(C)]
#[derive(Clone, Copy)]
pub struct RpStanding {
    /// Its number, by which it is released.
    pub number: u64,
    /// The index of its box among those of the call that packed it; of a member, the number of
    /// boxes and its own index; of a box that was placed at a location, 0.
    pub index: u32,
    /// The id of its bin.
    pub bin: u32,
    /// Where it is in the bin.
    pub section: RpSection,
}

impl Written<Outstanding<u32, u32>> for RpStanding {
    ghost use Rattle.rectangle_pack_c.specs.Reading.{standing_of};

    ghost written = { standing_of };

    fn of(outstanding: &Outstanding<u32, u32>) -> Self {
        let location = outstanding.location;
        RpStanding {
            number: outstanding.number,
            index: outstanding.id,
            bin: outstanding.bin,
            section: RpSection {
                x: location.x(),
                y: location.y(),
                z: location.z(),
                width: location.width(),
                height: location.height(),
                depth: location.depth(),
            },
        }
    }
}

/// Writes the outstanding placements of all bins to an array, in the order of their numbers, and
/// how many they are. `RP_DONE`, or `RP_SHORT_ARRAY` where there are more than the array holds, and
/// then only their number is written. Takes no memory, and leaves the session as it was.
#[unsafe(no_mangle)]
pub extern "C" fn rectangle_pack_session_outstanding(
    alloc: Global,
    session: &mut RpSession,
    placements: &mut [RpStanding],
    count: &mut usize,
) -> u32
    requires made { IsSome session.old.state }
    // How many placements are outstanding is written, and they stand in the array, in the session's
    //   order, each with its box, its bin and where it is, exactly where it holds as many:
    //   `RP_DONE`, or else `RP_SHORT_ARRAY`. [tell.count_is_the_length_of_the_array,
    //   of.index_is_the_bin]
    ensures told { IfSome session.old.state (λ (state : State ℕ ℕ).
        Tells (map standing_of state.outstanding) result placements.old placements.new count.new) }
    // Their numbers rise.
    ensures rising { IfSome session.old.state (λ (state : State ℕ ℕ).
        AllPairs (λ a b. a.number < b.number) state.outstanding) }
    ensures unchanged { session.new.state ≡ session.old.state }
{
    let held = session.take(alloc);
    let answer = tell(held.outstanding(), placements, count);
    *session = RpSession::of(held);
    answer
}

/// Writes the outstanding placements of one bin to an array, in the order of their numbers, and how
/// many they are. `RP_DONE`, `RP_SHORT_ARRAY` where there are more than the array holds, and then
/// only their number is written, or `RP_UNKNOWN_BIN`, and then nothing is written. Looks twice at
/// each outstanding placement of the session, takes no memory, and leaves the session as it was.
#[unsafe(no_mangle)]
pub extern "C" fn rectangle_pack_session_outstanding_in(
    alloc: Global,
    session: &mut RpSession,
    bin: u32,
    placements: &mut [RpStanding],
    count: &mut usize,
) -> u32
    requires made { IsSome session.old.state }
    // `RP_DONE` and `RP_SHORT_ARRAY`: the bin is there. How many placements are outstanding in it
    //   is written, and these, and no others, stand in the array, in the session's order, exactly
    //   where it holds as many. [write_standing.other_bins_are_written, standing_count.all_are_counted]
    // `RP_UNKNOWN_BIN`: there is no such bin, and nothing is written. No other status is answered.
    ensures told { IfSome session.old.state (λ (state : State ℕ ℕ).
        TellsStanding state bin result placements.old placements.new count.old count.new) }
    // Their numbers rise.
    ensures rising { IfSome session.old.state (λ (state : State ℕ ℕ).
        AllPairs (λ a b. a.number < b.number) (standing_in bin state.outstanding)) }
    ensures unchanged { session.new.state ≡ session.old.state }
{
    let held = session.take(alloc);
    let answer = tell_standing(&held, bin, placements, count);
    *session = RpSession::of(held);
    answer
}

// Writes the outstanding placements of a bin of a session.
fn tell_standing(
    session: &Session<u32, u32>,
    bin: u32,
    placements: &mut [RpStanding],
    count: &mut usize,
) -> u32
    ensures told { TellsStanding session.now bin result
        placements.old placements.new count.old count.new }
    ensures rising { AllPairs (λ a b. a.number < b.number)
        (standing_in bin session.now.outstanding) }
{
    if !session.bins().contains_key(&bin) {
        return RP_UNKNOWN_BIN;
    }
    let outstanding = session.outstanding();
    let there = standing_count(outstanding, bin);
    *count = there;
    if placements.len() < there {
        return RP_SHORT_ARRAY;
    }
    write_standing(outstanding, bin, placements);
    RP_DONE
}

// How many of the placements stand in a bin.
fn standing_count(outstanding: &[Outstanding<u32, u32>], bin: u32) -> usize
    ensures { result ≡ length (standing_in bin outstanding.now) }
{
    outstanding
        .iter()
        .filter(|placement| placement.bin == bin)
        .count()
}

// Writes those of the placements that stand in a bin to the beginning of an array.
fn write_standing(outstanding: &[Outstanding<u32, u32>], bin: u32, placements: &mut [RpStanding])
    requires room { length (standing_in bin outstanding.now) ≤ length placements.old }
    ensures { placements.new ≡ map standing_of (standing_in bin outstanding.now)
        ++ drop (length (standing_in bin outstanding.now)) placements.old }
{
    let mut written = 0;
    for placement in outstanding {
        if placement.bin == bin {
            placements[written] = RpStanding::of(placement);
            written += 1;
        }
    }
}
