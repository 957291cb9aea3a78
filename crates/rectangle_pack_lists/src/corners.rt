//! Sections of a list, found by the number of a corner.
ghost use Rattle.std.specs.Prelude.{◌≡◌, ◌≢◌, ◌<◌, ◌≤◌, ◌⊎◌, ◌↔◌, ℕ, length, All, Some, IfSome, IfNone, IsOk, IsSomeAnd, IsTrue, slice_index_or};
ghost use Rattle.std.specs.Bool.{OnTrue};
ghost use Rattle.rectangle_pack_sections.specs.Boxes.{FitsU32};
ghost use Rattle.rectangle_pack_lists.specs.declared.corners.Corner.TheVariants.{Near, Far};
ghost use Rattle.rectangle_pack_lists.specs.declared.corners.Name.{Name};
ghost use Rattle.rectangle_pack_lists.specs.private.Corners.{number_of, corner_number, neighbour_number, IsFull, Rise, AreNamed, IsRenamed, IsBeside, IsLeastBeside, IsAtFace, room_of};

use crate::coalesce::shares_face;
use rectangle_pack_sections::axis::Axis;
use rectangle_pack_sections::bin_section::{BinSection, has_cells};
use rectangle_pack_sections::span::spans;
use std::alloc::{AllocError, Allocator};

/// A corner of a section: where it starts on each axis, or where it ends.
#[derive(Clone, Copy)]
pub enum Corner {
    /// Where it starts.
    Near,
    /// Where it ends.
    Far,
}

/// A slot, under the number of a corner of the section that stands in it.
#[derive(Clone, Copy)]
pub struct Name {
    corner: u128,
    slot: usize,
}

// How many places an axis has.
const PLACES: u128 = 4294967296;

// The number of a cell, counted row by row.
#[tactic(auto, unfolding(crate::specs::private::Corners::number_of))]
fn number_of(x: u32, y: u32, z: u32) -> u128
    ensures { result ≡ number_of x y z }
{
    (x as u128 * PLACES + y as u128) * PLACES + z as u128
}

// The number of a corner of the section.
#[tactic(auto, unfolding(rectangle_pack_sections::specs::Boxes::start, rectangle_pack_sections::specs::Boxes::extent, rectangle_pack_sections::specs::Boxes::end))]
fn corner_number(section: &BinSection, corner: Corner) -> u128
    requires { FitsU32 section.now }
    ensures { result ≡ corner_number corner section.now }
{
    let (x, y, z) = spans(section);
    match corner {
        Corner::Near => number_of(x.start, y.start, z.start),
        Corner::Far => number_of(x.end(), y.end(), z.end()),
    }
}

// The number of that corner in a section that shares a whole face with this one on the axis: the
// face at the end for the near corner, the face at the start for the far one.
#[tactic(auto, unfolding(rectangle_pack_sections::specs::Boxes::start, rectangle_pack_sections::specs::Boxes::extent, rectangle_pack_sections::specs::Boxes::end))]
fn neighbour_number(section: &BinSection, corner: Corner, axis: Axis) -> u128
    requires { FitsU32 section.now }
    ensures { result ≡ neighbour_number corner axis section.now }
{
    let (x, y, z) = spans(section);
    match (corner, axis) {
        (Corner::Near, Axis::X) => number_of(x.end(), y.start, z.start),
        (Corner::Near, Axis::Y) => number_of(x.start, y.end(), z.start),
        (Corner::Near, Axis::Z) => number_of(x.start, y.start, z.end()),
        (Corner::Far, Axis::X) => number_of(x.start, y.end(), z.end()),
        (Corner::Far, Axis::Y) => number_of(x.end(), y.start, z.end()),
        (Corner::Far, Axis::Z) => number_of(x.end(), y.end(), z.start),
    }
}

// Names each slot under the number of its corner, in order of the numbers. Answers whether there
// was room, and no two sections have the same corner. Takes no memory.
fn name_slots<A: Allocator>(
    names: &mut Vec<Name, A>,
    sections: &[BinSection],
    corner: Corner,
) -> bool
    requires { All FitsU32 sections.now }
    ensures { OnTrue result (AreNamed corner sections.now names.new.items) }
{
    if names.capacity() < sections.len() {
        return false;
    }
    names.clear();
    for (slot, section) in sections.iter().enumerate() {
        let number = corner_number(section, corner);
        names.push_reserved(Name {
            corner: number,
            slot,
        });
    }
    names.sort_unstable_by_key(|name| name.corner);
    names.is_sorted_by(|a, b| a.corner < b.corner)
}

// Where the name of this number is.
fn find(names: &[Name], corner: u128) -> Option<usize>
    requires { Rise names.now }
    ensures some { IfSome result
        (λ i.
        (i < length names.now) ×
        ((d : Name) → (slice_index_or names.now i d).corner ≡ corner)) }
    ensures none { IfNone result (All (λ n. n.corner ≢ corner) names.now) }
{
    names.binary_search_by_key(&corner, |name| name.corner).ok()
}

// Where a slot is named under this number, names another one in its place.
fn rename(names: &mut [Name], corner: u128, slot: usize)
    requires { Rise names.old }
    ensures { IsRenamed corner slot names.old names.new }
{
    if let Some(at) = find(names, corner) {
        names[at] = Name { corner, slot };
    }
}

// Whether the other slot is beside this one.
fn is_beside(sections: &[BinSection], slot: usize, other: usize) -> bool
    requires fit { All FitsU32 sections.now }
    requires full { IsFull sections.now slot }
    ensures { IsTrue result ↔ IsBeside sections.now slot other }
{
    if other >= sections.len() {
        return false;
    }
    let section = sections[other];
    has_cells(&section) & shares_face(&sections[slot], &section)
}

// The slot beside this one whose section has the corner that one has which shares the whole face
// on the axis.
fn at_face(
    names: &[Name],
    sections: &[BinSection],
    slot: usize,
    corner: Corner,
    axis: Axis,
) -> Option<usize>
    requires fit { All FitsU32 sections.now }
    requires full { IsFull sections.now slot }
    requires named { AreNamed corner sections.now names.now }
    ensures { IsLeastBeside (IsAtFace corner axis sections.now slot) sections.now slot result }
{
    let at = find(names, neighbour_number(&sections[slot], corner, axis))?;
    let other = names[at].slot;
    if !is_beside(sections, slot, other) {
        return None;
    }
    Some(other)
}

// The lesser of those that there are.
fn lesser(a: Option<usize>, b: Option<usize>) -> Option<usize>
    ensures one { IfSome result (λ i. (a ≡ Some i) ⊎ (b ≡ Some i)) }
    ensures first { (n : ℕ) → IsSomeAnd a (λ i. i ≤ n) → IsSomeAnd result (λ i. i ≤ n) }
    ensures second { (n : ℕ) → IsSomeAnd b (λ i. i ≤ n) → IsSomeAnd result (λ i. i ≤ n) }
{
    match (a, b) {
        (Some(i), Some(j)) => Some(i.min(j)),
        (Some(i), None) => Some(i),
        (None, other) => other,
    }
}

/// The slots of a list under the numbers of the corners of their sections: room for a sweep.
#[derive(Drop)]
pub struct Corners<A: Allocator + Copy> {
    near: Vec<Name, A>,
    far: Vec<Name, A>,
}

impl<A: Allocator + Copy> Corners<A> {
    /// With no room yet. Takes no memory.
    pub fn new(alloc: A) -> Self {
        Corners {
            near: Vec::new(alloc),
            far: Vec::new(alloc),
        }
    }

    /// Makes room for `sections` sections, where it lacks. Fails only when memory is refused.
    pub fn reserve(&mut self, sections: usize) -> Result<(), AllocError>
        ensures succeeds { sections ≤ room_of self.old → IsOk result }
    {
        self.near.clear();
        self.near.reserve(sections)?;
        self.far.clear();
        self.far.reserve(sections)
    }

    // Names each slot of the list. Answers whether there was room, and no two sections have the
    // same near corner or the same far corner. Takes no memory.
    pub(crate) fn name_slots(&mut self, sections: &[BinSection]) -> bool
        requires { All FitsU32 sections.now }
        ensures near { OnTrue result (AreNamed Near sections.now self.new.near.items) }
        ensures far { OnTrue result (AreNamed Far sections.now self.new.far.items) }
    {
        name_slots(&mut self.near, sections, Corner::Near)
            && name_slots(&mut self.far, sections, Corner::Far)
    }

    // The least slot beside this one.
    pub(crate) fn first_beside(&self, sections: &[BinSection], slot: usize) -> Option<usize>
        requires fit { All FitsU32 sections.now }
        requires full { IsFull sections.now slot }
        requires near { AreNamed Near sections.now self.now.near.items }
        requires far { AreNamed Far sections.now self.now.far.items }
        ensures { IsLeastBeside (λ other. IsFull sections.now other) sections.now slot result }
    {
        let on_x = self.at_faces(sections, slot, Axis::X);
        let on_y = self.at_faces(sections, slot, Axis::Y);
        let on_z = self.at_faces(sections, slot, Axis::Z);
        lesser(lesser(on_x, on_y), on_z)
    }

    // The least slot beside this one at a face on the axis.
    fn at_faces(&self, sections: &[BinSection], slot: usize, axis: Axis) -> Option<usize>
        requires fit { All FitsU32 sections.now }
        requires full { IsFull sections.now slot }
        requires near { AreNamed Near sections.now self.now.near.items }
        requires far { AreNamed Far sections.now self.now.far.items }
        ensures { IsLeastBeside
            (λ other.
            IsAtFace Near axis sections.now slot other ⊎ IsAtFace Far axis sections.now slot other)
            sections.now slot result }
    {
        let beyond = at_face(self.near.as_slice(), sections, slot, Corner::Near, axis);
        let before = at_face(self.far.as_slice(), sections, slot, Corner::Far, axis);
        lesser(beyond, before)
    }

    // Names this slot under the corners of a section that is joined to its section.
    pub(crate) fn rename(&mut self, joined: &BinSection, slot: usize)
        requires fits { FitsU32 joined.now }
        requires near { Rise self.old.near.items }
        requires far { Rise self.old.far.items }
        ensures near { IsRenamed (corner_number Near joined.now) slot self.old.near.items self.new.near.items }
        ensures far { IsRenamed (corner_number Far joined.now) slot self.old.far.items self.new.far.items }
    {
        rename(
            self.near.as_mut_slice(),
            corner_number(joined, Corner::Near),
            slot,
        );
        rename(
            self.far.as_mut_slice(),
            corner_number(joined, Corner::Far),
            slot,
        );
    }
}
