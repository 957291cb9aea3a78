//! Collections of boxes whose ids own memory, which is refused.

use rectangle_pack::{Group, GroupedRectsToPlace, RectToInsert};
use std::alloc::AllocError;
use std::process::Abort;
use std::test::Fail;
use tests_support::each_request::{End, is_refused};
use tests_support::refusing::Refusing;

// An id that owns memory, which its clones take too.
type Text = String<Refusing>;

type TextRects = GroupedRectsToPlace<Text, u32, Refusing>;

fn push_text(all: &mut TextRects, alloc: Refusing, id: &str) -> Result<(), AllocError> {
    let id = String::from_str(alloc, id)?;
    let named = [0, 1, 0].to_vec(alloc)?;
    all.push_rect(id, Some(named), RectToInsert::new(2, 3, 1))
}

// Excludes the box alone from group 0.
fn exclude_text(all: &mut TextRects, alloc: Refusing, id: &str) -> Result<(), AllocError> {
    let alone = Group::Ungrouped(String::from_str(alloc, id)?);
    all.exclude(alone, Group::Grouped(0))
}

// How many entries the groups 0 and 1 have, and how many boxes there are.
fn entries(all: &TextRects) -> (Option<(usize, usize)>, usize) {
    let zero = all.groups().get(&Group::Grouped(0)).map(Vec::len);
    let one = all.groups().get(&Group::Grouped(1)).map(Vec::len);
    (zero.zip(one), all.rects().len())
}

// Excludes the box alone, which is there under an equal text, from group 0. Refused, this changes
// nothing.
fn end_of_exclusion(
    rt: &impl Abort,
    alloc: Refusing,
    all: &mut TextRects,
    old: &Group<u32, Text>,
) -> End {
    let is_done = exclude_text(all, alloc, "old").is_ok();
    assert!(rt; all.excluded(old, &Group::Grouped(0)) == is_done);
    if is_done { End::Done } else { End::Refused }
}

// Pushes a box beside one that is there, and excludes that one. Where the push is refused, nothing
// is changed.
fn calls_by_texts(
    rt: &impl Abort,
    alloc: Refusing,
    all: &mut TextRects,
    old: &Group<u32, Text>,
) -> End {
    if push_text(all, alloc, "old").is_err() {
        return End::Before;
    }
    if push_text(all, alloc, "new").is_err() {
        assert!(rt; entries(all) == (Some((2, 1)), 1));
        return End::Refused;
    }
    assert!(rt; entries(all) == (Some((4, 2)), 2));
    end_of_exclusion(rt, alloc, all, old)
}

// The calls in a new collection.
fn end_by_texts(rt: &impl Abort, alloc: Refusing) -> End {
    match String::from_str(alloc, "old") {
        Ok(old) => {
            let mut all = TextRects::new(alloc);
            calls_by_texts(rt, alloc, &mut all, &Group::Ungrouped(old))
        }
        Err(_) => End::Before,
    }
}

// All memory of the ids and of their clones is given back.
#[test]
fn ids_that_own_memory(rt: HostRuntime) -> Result<(), Fail> {
    let refused = is_refused(rt.alloc(), |refusing| Ok(end_by_texts(&rt, refusing)))?;
    assert!(rt; refused);
    Ok(())
}
