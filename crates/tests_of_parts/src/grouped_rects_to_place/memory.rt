//! Collections of boxes whose memory, or whose ids' clones, are refused.
ghost use Rattle.std.specs.Prelude.{◌<◌, vec_len};
ghost use Rattle.std.specs.Option.{ForSome};

use rectangle_pack::{Group, RectToInsert};
use std::alloc::{AllocError, Global};
use std::process::Abort;
use tests_support::all_match;
use tests_support::each_request::End;
use tests_support::names::{Clones, Name, Rects};
use tests_support::refusing::Refusing;
use tests_support::shapes::named;

// What a collection holds: its groups with their boxes, where a box alone has the group `None`, and
// the boxes with their sizes.
struct Boxes {
    groups: &'static [(Option<u32>, &'static [u32])],
    sizes: &'static [(u32, [u32; 3])],
}

// The id 1 is new, 2 is that of the box that is there before.
const NEW: u32 = 1;

const OLD: u32 = 2;

const NONE: &Boxes = &Boxes {
    groups: &[],
    sizes: &[],
};

// A box that was pushed alone and into group 0.
const ONE: &Boxes = &Boxes {
    groups: &[(None, &[OLD]), (Some(0), &[OLD])],
    sizes: &[(OLD, [1, 1, 1])],
};

// A push of a box 2x3x1 into these groups, or alone without any; what is there before it and after.
struct Push {
    before: &'static Boxes,
    id: u32,
    named: &'static [u32],
    after: &'static Boxes,
}

// What is there before, the box in its groups, and the groups and sizes that are there after.
macro_rules! push {
    ($before:ident, $id:ident in $named:tt => $groups:expr, $sizes:expr) => {
        Push {
            before: $before,
            id: $id,
            named: &$named,
            after: &Boxes {
                groups: &$groups,
                sizes: &$sizes,
            },
        }
    };
}

fn all_pushes() -> &'static [Push] {
    const PUSHES: &[Push] = &[
        push!(NONE, NEW in [] => [(None, &[NEW])], [(NEW, [2, 3, 1])]),
        push!(NONE, NEW in [0, 1, 0] => [(Some(0), &[NEW, NEW]), (Some(1), &[NEW])],
            [(NEW, [2, 3, 1])]),
        push!(ONE, NEW in [] => [(None, &[NEW]), (None, &[OLD]), (Some(0), &[OLD])],
            [(NEW, [2, 3, 1]), (OLD, [1, 1, 1])]),
        push!(ONE,
            NEW in [0, 1, 0] => [(None, &[OLD]), (Some(0), &[OLD, NEW, NEW]), (Some(1), &[NEW])],
            [(NEW, [2, 3, 1]), (OLD, [1, 1, 1])]),
        push!(ONE, OLD in [] => [(None, &[OLD]), (Some(0), &[OLD])], [(OLD, [2, 3, 1])]),
        push!(ONE, OLD in [1, 0] => [(None, &[OLD]), (Some(0), &[OLD, OLD]), (Some(1), &[OLD])],
            [(OLD, [2, 3, 1])]),
    ];
    PUSHES
}

// A group, or a box alone.
type NamedGroup = Group<u32, Name>;

// Whether these are the boxes, in this order.
fn are(ids: &[Name], wanted: &[u32]) -> bool {
    all_match!(ids.iter(), wanted, id, number => id.number == *number)
}

// Whether this is the group's number, and `None` for the group of the list's first box alone.
fn is_group(group: &NamedGroup, number: Option<u32>, boxes: &[u32]) -> bool {
    match group {
        Group::Ungrouped(id) => number.is_none() && boxes.first() == Some(&id.number),
        Group::Grouped(group) => number == Some(*group),
    }
}

// Whether the group is this one, with these boxes.
fn has_boxes(group: &NamedGroup, ids: &[Name], number: Option<u32>, boxes: &[u32]) -> bool {
    is_group(group, number, boxes) && are(ids, boxes)
}

// Whether the collection has these groups.
fn has_groups(all: &Rects, groups: &[(Option<u32>, &[u32])]) -> bool {
    all_match!(all.groups().iter(), groups, (group, ids), (number, boxes) =>
        has_boxes(group, ids.as_slice(), *number, boxes))
}

// The number of a box, and its size.
fn sized((id, rect): (&Name, &RectToInsert)) -> (u32, [u32; 3]) {
    (id.number, [rect.width(), rect.height(), rect.depth()])
}

// Whether the collection has these boxes.
fn has_sizes(all: &Rects, sizes: &[(u32, [u32; 3])]) -> bool {
    all_match!(all.rects().iter(), sizes, entry, wanted => sized(entry) == *wanted)
}

fn has(all: &Rects, boxes: &Boxes) -> bool {
    has_groups(all, boxes.groups) && has_sizes(all, boxes.sizes)
}

// Pushes the old box alone and into group 0.
fn push_old(all: &mut Rects, alloc: Refusing, clones: Clones) -> Result<(), AllocError> {
    let rect = RectToInsert::new(1, 1, 1);
    all.push_rect(
        Name {
            number: OLD,
            clones,
        },
        None,
        rect,
    )?;
    let named = [0].to_vec(alloc)?;
    all.push_rect(
        Name {
            number: OLD,
            clones,
        },
        Some(named),
        rect,
    )
}

// Whether the box is pushed into these groups, and not refused.
fn is_pushed(all: &mut Rects, name: Name, groups: Option<Vec<u32, Refusing>>) -> bool
    requires { ForSome groups (λ named. 0 < vec_len named) }
{
    all.push_rect(name, groups, RectToInsert::new(2, 3, 1))
        .is_ok()
}

// Pushes the box into these groups. Refused, this changes nothing.
fn pushes(
    rt: &impl Abort,
    all: &mut Rects,
    groups: Option<Vec<u32, Refusing>>,
    clones: Clones,
    push: &Push,
) -> End
    requires { ForSome groups (λ named. 0 < vec_len named) }
{
    let number = push.id;
    if is_pushed(all, Name { number, clones }, groups) {
        assert!(rt; has(all, push.after));
        return End::Done;
    }
    assert!(rt; has(all, push.before));
    End::Refused
}

// A push for which `count` clones are left. Only the collection before it takes more.
fn end_of_push(
    rt: &impl Abort,
    alloc: Refusing,
    all: &mut Rects,
    clones: Clones,
    count: u64,
    push: &Push,
) -> End {
    if !push.before.sizes.is_empty() && push_old(all, alloc, clones).is_err() {
        return End::Before;
    }
    let Ok(groups) = named(alloc, push.named) else {
        return End::Before;
    };
    clones.set(count);
    pushes(rt, all, groups, clones, push)
}

// Whether the groups 0 and 1 are excluded, and the group 0 and the old box alone unless that was
// refused.
fn has_pairs(all: &Rects, old: &NamedGroup, is_done: bool) -> bool {
    let (zero, one) = (Group::Grouped(0), Group::Grouped(1));
    all.excluded(&one, &zero)
        && all.excluded(&zero, old) == is_done
        && all.excluded(old, &zero) == is_done
        && !all.excluded(old, &one)
}

// Excludes the group 0 and the old box alone. Refused, this changes no boxes and no pairs.
fn excludes(rt: &impl Abort, all: &mut Rects, clones: Clones) -> End {
    let number = OLD;
    let old = Group::Ungrouped(Name { number, clones });
    let is_done = all.exclude(Group::Grouped(0), old).is_ok();
    let old = Group::Ungrouped(Name { number, clones });
    assert!(rt; has(all, ONE) && has_pairs(all, &old, is_done));
    if is_done { End::Done } else { End::Refused }
}

// An exclusion for which `count` clones are left. Only what is before it takes more.
fn end_of_exclusion(
    rt: &impl Abort,
    alloc: Refusing,
    all: &mut Rects,
    clones: Clones,
    count: u64,
) -> End {
    if push_old(all, alloc, clones).is_err() {
        return End::Before;
    }
    if all.exclude(Group::Grouped(0), Group::Grouped(1)).is_err() {
        return End::Before;
    }
    clones.set(count);
    excludes(rt, all, clones)
}

// A push, or else an exclusion, in a new collection.
fn end_in_new(
    rt: &impl Abort,
    alloc: Refusing,
    clones: Clones,
    count: u64,
    push: Option<&Push>,
) -> End {
    let mut all = Rects::new(alloc);
    match push {
        Some(push) => end_of_push(rt, alloc, &mut all, clones, count, push),
        None => end_of_exclusion(rt, alloc, &mut all, clones, count),
    }
}

// A push, or else an exclusion, under `requests` requests and `count` clones. All memory is given
// back.
fn end(
    rt: &impl Abort,
    alloc: Global,
    requests: u64,
    (clones, count): (Clones, u64),
    push: Option<&Push>,
) -> Result<End, AllocError> {
    let refusing = Refusing::new(alloc, requests)?;
    clones.set(u64::MAX);
    let end = end_in_new(rt, refusing, clones, count, push);
    assert!(rt; refusing.taken() == 0);
    Ok(end)
}

// Whether some request, or some clone, is refused in the call, where each is refused in turn, until
// none is.
fn is_refused(
    rt: &impl Abort,
    alloc: Global,
    is_clone: bool,
    push: Option<&Push>,
) -> Result<bool, AllocError> {
    let clones = Clones::new(alloc, 0)?;
    let mut refused = false;
    for granted in 0..200u64 {
        let (requests, count) = if is_clone {
            (u64::MAX, granted)
        } else {
            (granted, u64::MAX)
        };
        match end(rt, alloc, requests, (clones, count), push)? {
            End::Before => {}
            End::Refused => refused = true,
            End::Done => return Ok(refused),
        }
    }
    Ok(false)
}

// The same for requests, and for clones.
fn are_refused(rt: &impl Abort, alloc: Global, push: Option<&Push>) -> Result<bool, AllocError> {
    Ok(is_refused(rt, alloc, false, push)? && is_refused(rt, alloc, true, push)?)
}

#[test]
fn pushes_into_collections(rt: HostRuntime) {
    for push in all_pushes() {
        assert!(rt; matches!(are_refused(&rt, rt.alloc(), Some(push)), Ok(true)));
    }
}

#[test]
fn exclusions(rt: HostRuntime) {
    assert!(rt; matches!(are_refused(&rt, rt.alloc(), None), Ok(true)));
}
