//! Joining sections that share a whole face, in a list of sections.
ghost use Rattle.std.specs.Prelude.{◌≡◌, ◌<◌, ◌↔◌, length, true, All, IfNone, IfSome, IsTrue};
ghost use Rattle.std.specs.Bool.{OnTrue};
ghost use Rattle.rectangle_pack_sections.specs.Boxes.{FitsU32, has_cells};
ghost use Rattle.rectangle_pack_lists.specs.declared.corners.Corner.TheVariants.{Near, Far};
ghost use Rattle.rectangle_pack_lists.specs.private.Corners.{full, IsFull, AreNamed, IsJoinedAt};
ghost use Rattle.rectangle_pack_lists.specs.Joining.{SharesFace, join, IsAlone, IsFirstNeighbour, IsJoined, IsSwept};

use crate::corners::Corners;
use rectangle_pack_sections::bin_section::{BinSection, has_cells};
use rectangle_pack_sections::span::spans;
use rectangle_pack_sections::width_height_depth::any_size;
use std::alloc::Allocator;
use std::ops::Range;

// Whether the two sections share a whole face.
#[tactic(auto, unfolding(rectangle_pack_sections::specs::Boxes::start, rectangle_pack_sections::specs::Boxes::extent))]
pub(crate) fn shares_face(a: &BinSection, b: &BinSection) -> bool
    requires first { FitsU32 a.now }
    requires second { FitsU32 b.now }
    ensures { IsTrue result ↔ SharesFace a.now b.now }
{
    let ((ax, ay, az), (bx, by, bz)) = (spans(a), spans(b));
    let (same_x, same_y, same_z) = (ax == bx, ay == by, az == bz);
    (ax.touches(bx) & same_y & same_z)
        | (ay.touches(by) & same_x & same_z)
        | (az.touches(bz) & same_x & same_y)
}

// The join of the two sections.
#[tactic(auto, unfolding(rectangle_pack_sections::specs::Boxes::extent, rectangle_pack_sections::specs::Boxes::start, rectangle_pack_sections::specs::Boxes::end, crate::specs::Joining::join_start, crate::specs::Joining::join_extent, crate::specs::Joining::join))]
fn join(a: &BinSection, b: &BinSection) -> BinSection
    requires first { FitsU32 a.now }
    requires second { FitsU32 b.now }
    ensures joined { result ≡ join a.now b.now }
    ensures fits { FitsU32 result }
{
    let ((ax, ay, az), (bx, by, bz)) = (spans(a), spans(b));
    let (x, y, z) = (ax.hull(bx), ay.hull(by), az.hull(bz));
    let whd = any_size(x.length, y.length, z.length);
    BinSection::new(x.start, y.start, z.start, whd)
}

// The least other index of the range whose section shares a whole face with the section at `idx`.
fn first_neighbour(sections: &[BinSection], idx: usize, range: Range<usize>) -> Option<usize>
    requires fit { All FitsU32 sections.now }
    requires inside { idx < length sections.now }
    ensures none { IfNone result (IsAlone sections.now idx range.start range.end) }
    ensures some { IfSome result (IsFirstNeighbour sections.now idx range.start range.end) }
{
    let section = sections[idx];
    for j in range.start..range.end.min(sections.len()) {
        if j != idx && shares_face(&section, &sections[j]) {
            return Some(j);
        }
    }
    None
}

/// Joins the section at `idx` with those of the range that share a whole face with it, the least
/// index first, until none does. Takes no memory.
pub fn join_at<A: Allocator>(sections: &mut Vec<BinSection, A>, idx: usize, range: Range<usize>)
    requires { All FitsU32 sections.old.items }
    ensures joined { IsJoined idx range.start range.end sections.old.items sections.new.items }
    ensures fit { All FitsU32 sections.new.items }
{
    if idx >= sections.len() {
        return;
    }
    let (mut idx, mut end) = (idx, range.end);
    while let Some(j) = first_neighbour(sections.as_slice(), idx, range.start..end) {
        end = end.min(sections.len()) - 1;
        sections[idx] = join(&sections[idx], &sections[j]);
        sections.remove(j);
        if j < idx {
            idx -= 1;
        }
    }
}

/// Joins at each index from the last down to 0, each time over the whole list. Takes no memory.
pub fn join_all<A: Allocator>(sections: &mut Vec<BinSection, A>)
    requires { All FitsU32 sections.old.items }
    ensures swept { IsSwept sections.old.items sections.new.items }
    ensures fit { All FitsU32 sections.new.items }
{
    for idx in (0..sections.len()).rev() {
        let whole = 0..sections.len();
        join_at(sections, idx, whole);
    }
}

// Joins the section in this slot with those that share a whole face with it, the least slot first,
// until none does. A section that is joined leaves its slot without cells.
fn join_slot<A: Allocator + Copy>(
    sections: &mut [BinSection],
    corners: &mut Corners<A>,
    slot: usize,
)
    requires fit { All FitsU32 sections.old }
    requires full { IsFull sections.old slot }
    requires near { AreNamed Near sections.old corners.old.near.items }
    requires far { AreNamed Far sections.old corners.old.far.items }
    ensures fit { All FitsU32 sections.new }
    ensures near { AreNamed Near sections.new corners.new.near.items }
    ensures far { AreNamed Far sections.new corners.new.far.items }
    ensures joined { IsJoinedAt slot sections.old sections.new }
{
    while let Some(other) = corners.first_beside(sections, slot) {
        corners.rename(&sections[other], slot);
        sections[slot] = join(&sections[slot], &sections[other]);
        sections[other] = BinSection::new(0, 0, 0, any_size(0, 0, 0));
    }
}

// Joins the section in each slot, from the last down to 0.
fn join_slots<A: Allocator + Copy>(sections: &mut [BinSection], corners: &mut Corners<A>)
    requires fit { All FitsU32 sections.old }
    requires near { AreNamed Near sections.old corners.old.near.items }
    requires far { AreNamed Far sections.old corners.old.far.items }
    ensures swept { IsSwept (full sections.old) (full sections.new) }
    ensures fit { All FitsU32 sections.new }
{
    for slot in (0..sections.len()).rev() {
        if has_cells(&sections[slot]) {
            join_slot(sections, corners, slot);
        }
    }
}

// Whether each section has cells.
fn have_cells(sections: &[BinSection]) -> bool
    ensures { OnTrue result (All (λ s. has_cells s ≡ true) sections.now) }
{
    sections.iter().all(|section| has_cells(section))
}

// Takes the sections without cells out of the list.
fn close_up<A: Allocator>(sections: &mut Vec<BinSection, A>)
    ensures { sections.new.items ≡ full sections.old.items }
{
    sections.retain(|section| has_cells(section));
}

/// Does what `join_all` does, and finds what to join by its corners, in the room that is lent. Where
/// that is too small, or a section has no cells, it looks at each section. Takes no memory.
pub fn join_all_in<A: Allocator + Copy>(sections: &mut Vec<BinSection, A>, corners: &mut Corners<A>)
    requires { All FitsU32 sections.old.items }
    ensures swept { IsSwept sections.old.items sections.new.items }
    ensures fit { All FitsU32 sections.new.items }
{
    if !have_cells(sections.as_slice()) || !corners.name_slots(sections.as_slice()) {
        join_all(sections);
        return;
    }
    join_slots(sections.as_mut_slice(), corners);
    close_up(sections);
}
