//! Boxes of a session for C that are placed where they fit best, and placements that are released
//! together.
ghost use Rattle.std.specs.Prelude.{◌≡◌, ◌<◌, ◌≤◌, Some, None, IsSome, IfErr, IfOk, Err, option_map};
ghost use Rattle.std.specs.Ordering.{nat_cmp};
ghost use Rattle.rectangle_pack.specs.Heuristics.{named_answers, rate_of};
ghost use Rattle.rectangle_pack.specs.PlacingBest.{PlacesBest};
ghost use Rattle.rectangle_pack.specs.Releasing.{ReleasesAll};
ghost use Rattle.rectangle_pack.specs.Session.{IsSession};
ghost use Rattle.rectangle_pack_c.specs.Arguments.{box_size};
ghost use Rattle.rectangle_pack_c.specs.Placing.{IsPlacedBest, PlacesBox};
ghost use Rattle.rectangle_pack_c.specs.Sessions.{ChangesAs};

use super::collection::{RP_SIDE_AREA, heuristic_of};
use super::handle::RpSession;
use super::session::{RpOutstanding, refusal, status};
use super::{RP_DONE, RP_UNKNOWN_HEURISTIC, RpBox, Written};
use rectangle_pack::{
    Heuristic, RectToInsert, Session, SessionError, WidthHeightDepth, contains_smallest_box,
};
use std::alloc::Global;

/// Places one box into the free section of a bin that it fits best: of which it leaves the least on
/// the tightest side, and of several such the newest. An axis on which the bin has one cell does
/// not count. The box's group does not count either. `heuristic` is the number of one, by which the
/// rest is cut. Where the box stands, with its number, is written to `place`; the index of the box
/// is 0. `RP_DONE`; or, looked at in this order, `RP_UNKNOWN_HEURISTIC`, also for `RP_BEST`,
/// `RP_UNKNOWN_BIN` where there is no such bin, `RP_NUMBERS_USED_UP`, or `RP_NOT_ENOUGH_SPACE`
/// where no free section of the bin holds the box; or `RP_OUT_OF_MEMORY`. What is not done leaves
/// the session as it was, and writes nothing.
#[unsafe(no_mangle)]
pub extern "C" fn rectangle_pack_session_place_best(
    alloc: Global,
    session: &mut RpSession,
    bin: u32,
    one_box: &RpBox,
    heuristic: u32,
    place: &mut RpOutstanding,
) -> u32
    // The handle has a session.
    requires made { IsSome session.old.state }
    // There is no heuristic of this number: the answer is `RP_UNKNOWN_HEURISTIC`. The session is as
    //   it was, and nothing is written.
    ensures unknown_heuristic { RP_SIDE_AREA < heuristic →
        (result ≡ RP_UNKNOWN_HEURISTIC) × (session.new.state ≡ session.old.state)
        × (place.new ≡ place.old) }
    // Else the box, with the id 0, is placed in this bin, or not, as `placed` of
    //   `Session::place_best` says it, with this heuristic and `contains_smallest_box`. The status
    //   is that of the answer: `RP_DONE`, `RP_UNKNOWN_BIN`, `RP_NUMBERS_USED_UP`,
    //   `RP_NOT_ENOUGH_SPACE` or `RP_OUT_OF_MEMORY`. What always holds of a session holds
    //   afterwards. [rectangle_pack_session_place_best.any_bin_is_taken]
    // `RP_DONE`: the number, the bin and the corner that are written are those of the placement.
    //   Else nothing is written.
    ensures placed { heuristic ≤ RP_SIDE_AREA →
        ChangesAs (PlacesBox (Some bin) one_box.now heuristic place.old place.new)
        session.old.state result session.new.state }
{
    place_box(alloc, session, Some(&bin), one_box, heuristic, place)
}

/// Places one box into the free section of any bin that it fits best, as
/// `rectangle_pack_session_place_best` does in one bin: of several such bins into the one with the
/// least id. `RP_DONE`; or, looked at in this order, `RP_UNKNOWN_HEURISTIC`, `RP_NUMBERS_USED_UP`,
/// or `RP_NOT_ENOUGH_SPACE` where no free section of any bin holds the box; or `RP_OUT_OF_MEMORY`.
/// What is not done leaves the session as it was, and writes nothing.
#[unsafe(no_mangle)]
pub extern "C" fn rectangle_pack_session_place_best_anywhere(
    alloc: Global,
    session: &mut RpSession,
    one_box: &RpBox,
    heuristic: u32,
    place: &mut RpOutstanding,
) -> u32
    requires made { IsSome session.old.state }
    // There is no heuristic of this number: the answer is `RP_UNKNOWN_HEURISTIC`. The session is as
    //   it was, and nothing is written.
    ensures unknown_heuristic { RP_SIDE_AREA < heuristic →
        (result ≡ RP_UNKNOWN_HEURISTIC) × (session.new.state ≡ session.old.state)
        × (place.new ≡ place.old) }
    // Else the box, with the id 0, is placed in one of the bins, or not, as `placed` of
    //   `Session::place_best` says it where no bin is named, with this heuristic and
    //   `contains_smallest_box`. The status is that of the answer: `RP_DONE`, `RP_NUMBERS_USED_UP`,
    //   `RP_NOT_ENOUGH_SPACE` or `RP_OUT_OF_MEMORY`. What always holds of a session holds
    //   afterwards.
    // `RP_DONE`: the number, the bin and the corner that are written are those of the placement.
    //   Else nothing is written.
    ensures placed { heuristic ≤ RP_SIDE_AREA →
        ChangesAs (PlacesBox None one_box.now heuristic place.old place.new)
        session.old.state result session.new.state }
{
    place_box(alloc, session, None, one_box, heuristic, place)
}

// Places the box, and writes where it stands.
fn place_box(
    alloc: Global,
    session: &mut RpSession,
    bin: Option<&u32>,
    one_box: &RpBox,
    heuristic: u32,
    place: &mut RpOutstanding,
) -> u32
    requires made { IsSome session.old.state }
    ensures unknown_heuristic { RP_SIDE_AREA < heuristic →
        (result ≡ RP_UNKNOWN_HEURISTIC) × (session.new.state ≡ session.old.state)
        × (place.new ≡ place.old) }
    // Where the box stands is written. [place_box.number_is_the_next]
    ensures placed { heuristic ≤ RP_SIDE_AREA →
        ChangesAs
        (PlacesBox (option_map (λ b. b.now) bin.entry) one_box.now heuristic place.old place.new)
        session.old.state result session.new.state }
{
    let Some(heuristic) = heuristic_of(heuristic) else {
        return RP_UNKNOWN_HEURISTIC;
    };
    let mut held = session.take(alloc);
    let answer = place_by(&mut held, bin, one_box, heuristic);
    *session = RpSession::of(held);
    match answer {
        Ok(placed) => {
            *place = placed;
            RP_DONE
        }
        Err(error) => refusal(error),
    }
}

// Places the box by this heuristic: what is to be written of it.
fn place_by(
    session: &mut Session<u32, u32>,
    bin: Option<&u32>,
    one_box: &RpBox,
    heuristic: Heuristic,
) -> Result<RpOutstanding, SessionError>
    // [place_by.box_is_turned]
    ensures placed { let named = option_map (λ b. b.now) bin.entry in
        IfOk result (λ place.
        IsPlacedBest named one_box.now heuristic place session.old session.new) }
    ensures refused { let named = option_map (λ b. b.now) bin.entry in
        IfErr result (λ error. PlacesBest nat_cmp (named_answers heuristic) named 0
        (box_size one_box.now) session.old (Err error) session.new) }
    ensures always { IsSession nat_cmp session.new }
{
    let size = RectToInsert::new(one_box.width, one_box.height, one_box.depth);
    let rate = |size: WidthHeightDepth| -> u128
        ensures { result ≡ rate_of heuristic size }
    { heuristic.rate(size) };
    session.place_best(bin, 0, size, &rate, &contains_smallest_box)?;
    let known = session.outstanding();
    Ok(RpOutstanding::of(&known[known.len() - 1]))
}

/// Gives placements back by their numbers, all or none: their cells are free again, in the order of
/// the list. `RP_DONE`, `RP_UNKNOWN_PLACEMENT` where for some number no placement is outstanding,
/// or one stands twice, or `RP_OUT_OF_MEMORY`. What is not done leaves the session as it was.
#[unsafe(no_mangle)]
pub extern "C" fn rectangle_pack_session_release_all(
    alloc: Global,
    session: &mut RpSession,
    numbers: &[u64],
) -> u32
    requires made { IsSome session.old.state }
    // The placements of these numbers are released, or not, as `released` of
    //   `Session::release_all` says it, and the status is that of the answer: `RP_DONE`,
    //   `RP_UNKNOWN_PLACEMENT` or `RP_OUT_OF_MEMORY`. What always holds of a session holds
    //   afterwards. [rectangle_pack_session_release_all.first_number_is_left_out]
    ensures released { ChangesAs (ReleasesAll nat_cmp numbers.now)
        session.old.state result session.new.state }
{
    let mut held = session.take(alloc);
    let answer = held.release_all(numbers);
    *session = RpSession::of(held);
    status(&answer)
}
