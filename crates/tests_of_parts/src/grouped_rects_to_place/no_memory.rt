//! Calls of a collection that take no memory, while every request is refused.

use rectangle_pack::Group;
use std::alloc::Global;
use std::process::Abort;
use std::test::Fail;
use tests_support::boxes::Rects;
use tests_support::each_request::{End, is_refused};
use tests_support::refusing::Refusing;

// Whether a new collection has no groups, no boxes and no pairs.
fn is_new(rects: &Rects) -> bool {
    rects.groups().is_empty()
        && rects.rects().is_empty()
        && !rects.excluded(&Group::Grouped(0), &Group::Ungrouped(0))
}

// The groups 0 and 1 are excluded, either way round, and the group 0 and the box 1 are not. To
// exclude them again changes nothing.
fn keeps_the_pair(rects: &mut Rects) -> bool {
    rects.excluded(&Group::Grouped(0), &Group::Grouped(1))
        && rects.excluded(&Group::Grouped(1), &Group::Grouped(0))
        && !rects.excluded(&Group::Grouped(0), &Group::Ungrouped(1))
        && rects.exclude(Group::Grouped(1), Group::Grouped(0)).is_ok()
        && rects.exclude(Group::Grouped(0), Group::Grouped(1)).is_ok()
}

// Excludes the pair in a collection for which one request is left, or none.
fn end_of_pair(rt: &impl Abort, alloc: Refusing, rects: &mut Rects) -> End {
    if rects.exclude(Group::Grouped(0), Group::Grouped(1)).is_err() {
        return End::Before;
    }
    assert!(rt; alloc.left() == 0 && keeps_the_pair(rects));
    End::Done
}

fn pair(rt: &impl Abort, alloc: Refusing) -> End {
    let mut rects = Rects::new(alloc);
    end_of_pair(rt, alloc, &mut rects)
}

// Whether a collection is made without memory.
fn is_made(rt: &impl Abort, alloc: Global) -> bool {
    let refusing = Refusing::new(alloc, 0).expect(rt, "no memory for the counts");
    is_new(&Rects::new(refusing))
}

// A new collection, and a pair that is there, take no memory.
#[test]
fn calls_that_take_none(rt: HostRuntime) -> Result<(), Fail> {
    assert!(rt; is_made(&rt, rt.alloc()));
    let refused = is_refused(rt.alloc(), |refusing| Ok(pair(&rt, refusing)))?;
    assert!(rt; !refused);
    Ok(())
}
