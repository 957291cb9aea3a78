//! Memory: what calls take for themselves, and for a session until it is freed, is given back. How
//! much the process has is read from the system.
use super::bounding::in_strip;
use super::collection::two_strips;
use super::fitting::square_and_strip;
use super::session::{opens, pack, release_and_join};
use super::{SHEET, STRIP, strip_in};
use crate::RP_DONE;
use crate::collection::{RP_BEST, RpExclusion, RpMember};
use crate::handle::RpSession;
use crate::session::rectangle_pack_session_free;
use std::alloc::Global;
use std::fs;
use std::test::Fail;

// How many pages of data the process has.
fn data_pages(rt: &HostRuntime) -> Result<u64, Fail> {
    let text = fs::read_to_string(rt, "/proc/self/statm")?;
    let data = text.as_str().split_ascii_whitespace().nth(5);
    Ok(data.ok_or("no sixth number")?.parse::<u64>()?)
}

// Whether a session comes and goes: it takes two boxes, gives one of them back, and is freed with
// the other.
fn session_comes_and_goes(alloc: Global) -> bool {
    let mut session = RpSession::none(alloc);
    if !opens(alloc, &mut session) {
        return false;
    }
    let (first, _, _) = pack(alloc, &mut session, 4);
    let (second, _, _) = pack(alloc, &mut session, 6);
    let others = release_and_join(alloc, &mut session, 7);
    rectangle_pack_session_free(alloc, &mut session);
    (first, second, others) == (RP_DONE, RP_DONE, [RP_DONE, RP_DONE])
}

// Whether boxes and a collection are packed, and what fits of another, and whether it is said how
// many bins a box needs.
fn are_packed(alloc: Global) -> bool {
    let (boxes, _) = strip_in(alloc, [SHEET].as_slice());
    let member = RpMember { index: 0, group: 2 };
    let (collection, _, _) = two_strips(alloc, member, RpExclusion { one: 2, other: 1 });
    let ((fitting, _, _), _) = square_and_strip(alloc, RP_BEST);
    let (bound, _) = in_strip(alloc, STRIP, [4].as_slice());
    [boxes, collection, fitting, bound] == [RP_DONE; 4]
}

// Whether both are done, `times` times.
fn come_and_go(alloc: Global, times: u32) -> bool {
    for _time in 0..times {
        if !session_comes_and_goes(alloc) || !are_packed(alloc) {
            return false;
        }
    }
    true
}

// More pages than a machine has: `rt try` keeps what is freed, to see that nobody uses it.
const KEPT: u64 = 1 << 28;

// The pages, of 4096 bytes, that may be taken meanwhile. A block of 32 bytes, the least that libc
// gives, would take 156 pages, were it not given back.
const FEW: u64 = 64;

// All memory is given back: many more times take no more of it.
#[test]
fn what_is_taken_is_given_back(rt: HostRuntime) -> Result<(), Fail> {
    assert!(rt; come_and_go(rt.alloc(), 1000));
    let before = data_pages(&rt)?;
    if before < KEPT {
        assert!(rt; come_and_go(rt.alloc(), 20000));
        let after = data_pages(&rt)?;
        assert!(rt;
            after < before.saturating_add(FEW),
            "{before} and then {after} pages"
        );
    }
    Ok(())
}
