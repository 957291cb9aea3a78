//! Searches in pieces, and searches in a session: what stands where, and what is left. A sheet has
//! 10 by 10 cells.
ghost use Rattle.std.specs.Prelude.{◌≡◌, ◌≢◌, None, IsSome};

use super::searching::{Answer, NOT_SEARCHED, OPTIONS, UNSET, answer, place, refused, two_in};
use super::session::{opens, sent};
use super::{SHEET, reading};
use crate::collection::RpCollection;
use crate::fitting::{RP_LEFT_BIN, RP_LEFT_NUMBER};
use crate::handle::{RpSearch, RpSession};
use crate::pieces::{
    RpProgress, rectangle_pack_search_begin, rectangle_pack_search_free, rectangle_pack_search_run,
    rectangle_pack_session_search_begin,
};
use crate::searching::{
    RP_NO_PACKING, RpCost, RpSearchOptions, RpSearched, rectangle_pack_found,
    rectangle_pack_session_pack_found, rectangle_pack_session_pack_searched,
};
use crate::session::{RpVolume, rectangle_pack_session_free, rectangle_pack_session_release};
use crate::standing::RpStanding;
use crate::{RP_DONE, RP_NOT_ENOUGH_SPACE, RpBin, RpBox};
use std::alloc::Global;
use std::test::Fail;

const NOT_STANDING: RpStanding = RpStanding {
    number: 99,
    index: 99,
    bin: 99,
    section: reading::UNSET,
};

const NOTHING: RpVolume = RpVolume { low: 9, high: 9 };

const NO_PROGRESS: RpProgress = RpProgress {
    tries: 99,
    left: NOTHING,
    cost: NOTHING,
    bins: 99,
    is_over: 99,
};

// Makes so many tries, and as many again: the last status, and how far the search is then.
fn run_twice(alloc: Global, search: &mut RpSearch, tries: u64) -> (u32, RpProgress)
    requires { IsSome search.old.state }
    ensures begun { result.0 ≡ RP_DONE → IsSome search.new.state }
    ensures ended { result.0 ≢ RP_DONE → search.new.state ≡ None }
{
    let mut progress = NO_PROGRESS;
    let first = rectangle_pack_search_run(alloc, search, tries, &mut progress);
    if first != RP_DONE {
        return (first, progress);
    }
    let second = rectangle_pack_search_run(alloc, search, tries, &mut progress);
    (second, progress)
}

const COST: [RpCost; 1] = [RpCost { bin: 0, cost: 2 }];

const SHEETS: [RpBin; 2] = [SHEET, SHEET];

const SQUARES: [RpBox; 2] = [
    RpBox {
        width: 6,
        height: 6,
        depth: 1,
        group: 0,
    },
    RpBox {
        width: 5,
        height: 5,
        depth: 1,
        group: 0,
    },
];

// What 300 tries find in two pieces, and what they find in one call.
#[test]
fn pieces_find_what_one_call_finds(rt: HostRuntime) -> Result<(), Fail> {
    let alloc = rt.alloc();
    let options = RpSearchOptions {
        tries: 300,
        costs: COST.as_slice(),
        ..OPTIONS
    };
    let collection = RpCollection::of(SQUARES.as_slice());
    let whole = two_in(alloc, SHEETS.as_slice(), &collection, &options);
    let mut search = RpSearch::none(alloc);
    let begun = rectangle_pack_search_begin(
        alloc,
        SHEETS.as_slice(),
        &collection,
        &options,
        &mut search,
    );
    assert!(rt; begun == RP_DONE);
    let (status, progress) = run_twice(alloc, &mut search, 150);
    assert!(rt; status == RP_DONE);
    assert_eq!(rt;
        (progress.tries, progress.bins, progress.is_over),
        (300, 2, 0)
    );
    // One sheet costs 2, and the other 1.
    assert_eq!(rt; (progress.cost.low, progress.left.low), (3, 0));
    let mut placements = [UNSET, UNSET];
    let mut told = NOT_SEARCHED;
    let status = rectangle_pack_found(
        alloc,
        SHEETS.as_slice(),
        &collection,
        &options,
        &mut search,
        placements.as_mut_slice(),
        &mut told,
    );
    assert_eq!(rt; answer(status, &told), (RP_DONE, 0, 2, 2, 1));
    assert_eq!(rt; whole.0, (RP_DONE, 0, 2, 2, 1));
    assert_eq!(rt; place(&placements[0]), place(&whole.1[0]));
    assert_eq!(rt; place(&placements[1]), place(&whole.1[1]));
    Ok(())
}

// Two squares need two sheets, which is found at once: then no more tries are made.
#[test]
fn a_search_is_over_where_no_fewer_bins_will_do(rt: HostRuntime) -> Result<(), Fail> {
    let alloc = rt.alloc();
    let collection = RpCollection::of(SQUARES.as_slice());
    let mut search = RpSearch::none(alloc);
    let sheets = SHEETS.as_slice();
    let begun = rectangle_pack_search_begin(alloc, sheets, &collection, &OPTIONS, &mut search);
    assert!(rt; begun == RP_DONE);
    let (status, progress) = run_twice(alloc, &mut search, 400);
    assert!(rt; status == RP_DONE);
    assert_eq!(rt; (progress.bins, progress.is_over), (2, 1));
    assert!(rt; progress.tries < 800);
    rectangle_pack_search_free(alloc, &mut search);
    Ok(())
}

// `Send` is proved of the handle's type, so that a search may go from thread to thread.
#[test]
fn a_search_is_sent(rt: HostRuntime) -> Result<(), Fail> {
    let alloc = rt.alloc();
    let collection = RpCollection::of(SQUARES.as_slice());
    let mut begun = RpSearch::none(alloc);
    let sheets = SHEETS.as_slice();
    let status = rectangle_pack_search_begin(alloc, sheets, &collection, &OPTIONS, &mut begun);
    assert!(rt; status == RP_DONE);
    let mut search = sent(begun);
    let mut progress = NO_PROGRESS;
    let status = rectangle_pack_search_run(alloc, &mut search, 1, &mut progress);
    assert!(rt; status == RP_DONE);
    assert_eq!(rt; progress.tries, 1);
    rectangle_pack_search_free(alloc, &mut search);
    Ok(())
}

// What is answered in a session, and what is written: numbers, indices, bins and corners.
type Stood = (Answer, [(u64, u32, u32, [u32; 2]); 2]);

fn stood(status: u32, told: &RpSearched, placements: &[RpStanding; 2]) -> Stood {
    let of = |p: &RpStanding| (p.number, p.index, p.bin, [p.section.x, p.section.y]);
    (
        answer(status, told),
        [of(&placements[0]), of(&placements[1])],
    )
}

// What a search in one call answers to two squares, of which one fits into the sheet.
fn squares_in(alloc: Global, session: &mut RpSession) -> Stood
    requires { IsSome session.old.state }
    ensures { IsSome session.new.state }
{
    let some = RpSearchOptions {
        may_leave: 1,
        ..OPTIONS
    };
    let mut placements = [NOT_STANDING, NOT_STANDING];
    let mut told = NOT_SEARCHED;
    let status = rectangle_pack_session_pack_searched(
        alloc,
        session,
        &RpCollection::of(SQUARES.as_slice()),
        &some,
        placements.as_mut_slice(),
        &mut told,
    );
    stood(status, &told, &placements)
}

// What a search in pieces answers.
fn squares_in_pieces(alloc: Global, session: &mut RpSession) -> Stood
    requires { IsSome session.old.state }
    ensures { IsSome session.new.state }
{
    let collection = RpCollection::of(SQUARES.as_slice());
    let mut placements = [NOT_STANDING, NOT_STANDING];
    let mut told = NOT_SEARCHED;
    let mut search = RpSearch::none(alloc);
    let begun = rectangle_pack_session_search_begin(
        alloc,
        session,
        &collection,
        &OPTIONS,
        &mut search,
    );
    if begun != RP_DONE {
        return stood(begun, &told, &placements);
    }
    let status = rectangle_pack_session_pack_found(
        alloc,
        session,
        &collection,
        &OPTIONS,
        &mut search,
        placements.as_mut_slice(),
        &mut told,
    );
    stood(status, &told, &placements)
}

// The larger square is placed, and the other is left; nothing may be left when they are asked for
// once more.
#[test]
fn a_session_takes_what_is_found(rt: HostRuntime) -> Result<(), Fail> {
    let alloc = rt.alloc();
    let mut session = RpSession::none(alloc);
    assert!(rt; opens(alloc, &mut session));
    let first = squares_in(alloc, &mut session);
    let left = (RP_LEFT_NUMBER, 0, RP_LEFT_BIN, [0, 0]);
    // Both do not fit into one sheet, so there is no packing of all.
    let want = ((RP_DONE, 1, 1, RP_NO_PACKING, 0), [(0, 0, 7, [0, 0]), left]);
    assert_eq!(rt; first, want);
    let nothing = (99, 99, 99, [9, 9]);
    let refused = (refused(RP_NOT_ENOUGH_SPACE), [nothing, nothing]);
    assert_eq!(rt; squares_in_pieces(alloc, &mut session), refused);
    assert!(rt; rectangle_pack_session_release(alloc, &mut session, 0) == RP_DONE);
    rectangle_pack_session_free(alloc, &mut session);
    Ok(())
}
