//! Planes by which boxes are told apart. Nothing is promised of them: any plane will do, and a good
//! one leaves few boxes on both sides.
ghost use Rattle.std.specs.Prelude.{◌≡◌};
ghost use Rattle.rectangle_pack_sections.specs.Boxes.{start, end};

use crate::parting::Numbered;
use rectangle_pack_sections::axis::Axis;
use rectangle_pack_sections::bin_section::BinSection;
use rectangle_pack_sections::span::Span;

/// A plane: a place on an axis.
#[derive(Debug, Clone, Copy, PartialEq)]
pub(crate) struct Plane {
    pub axis: Axis,
    pub place: u64,
}

/// From where to where on each axis planes are looked for, both ends excluded.
#[derive(Clone, Copy)]
pub(crate) struct Room {
    x: (u64, u64),
    y: (u64, u64),
    z: (u64, u64),
}

// At so many boxes it is looked to choose a plane.
const LOOKED_AT: usize = 16;

const FACES: usize = 2 * LOOKED_AT;

/// Where a box starts on an axis, and where it ends: the first place beyond it.
#[tactic(auto, unfolding(rectangle_pack_sections::specs::Boxes::start, rectangle_pack_sections::specs::Boxes::extent, rectangle_pack_sections::specs::Boxes::end))]
pub(crate) fn ends_on(section: &BinSection, axis: Axis) -> (u64, u64)
    ensures { (result.0 ≡ start axis section.now) × (result.1 ≡ end axis section.now) }
{
    let span = Span::of(section, axis);
    let start = span.start as u64;
    (start, start + span.length as u64)
}

impl Room {
    /// All places.
    pub(crate) const ALL: Room = Room {
        x: (0, u64::MAX),
        y: (0, u64::MAX),
        z: (0, u64::MAX),
    };

    fn along(&self, axis: Axis) -> (u64, u64) {
        match axis {
            Axis::X => self.x,
            Axis::Y => self.y,
            Axis::Z => self.z,
        }
    }

    /// What is below a plane.
    pub(crate) fn below(self, plane: Plane) -> Room {
        let (from, _) = self.along(plane.axis);
        self.with(plane.axis, (from, plane.place))
    }

    /// What is above it.
    pub(crate) fn above(self, plane: Plane) -> Room {
        let (_, to) = self.along(plane.axis);
        self.with(plane.axis, (plane.place, to))
    }

    fn with(self, axis: Axis, ends: (u64, u64)) -> Room {
        match axis {
            Axis::X => Room { x: ends, ..self },
            Axis::Y => Room { y: ends, ..self },
            Axis::Z => Room { z: ends, ..self },
        }
    }

    // Whether a plane at this place is in the room.
    fn has(&self, axis: Axis, place: u64) -> bool {
        let (from, to) = self.along(axis);
        from < place && place < to
    }
}

// Faces of boxes on an axis.
#[derive(Clone, Copy)]
struct Faces {
    places: [u64; FACES],
    count: usize,
}

impl Faces {
    const NONE: Faces = Faces {
        places: [0u64; FACES],
        count: 0,
    };

    fn note(&mut self, place: u64) {
        let count = self.count;
        if let Some(next) = self.places.get_mut(count) {
            *next = place;
            self.count = count.saturating_add(1);
        }
    }

    // The one in the middle, when they are put in order.
    fn middle(&mut self) -> Option<u64> {
        let count = self.count.min(FACES);
        let noted = &mut self.places[..count];
        noted.sort_unstable();
        noted.get(count / 2).copied()
    }
}

// Some of the boxes, evenly spread over the list.
#[derive(Clone, Copy)]
struct Sample<'p> {
    parts: &'p [Numbered],
    step: usize,
}

impl<'p> Sample<'p> {
    fn of(parts: &'p [Numbered]) -> Self {
        Sample {
            parts,
            step: (parts.len() / LOOKED_AT).max(1),
        }
    }

    // One of them, if there are so many.
    fn get(&self, i: usize) -> Option<&'p BinSection> {
        let part = self.parts.get(i.saturating_mul(self.step))?;
        Some(&part.section)
    }

    // The face in the middle of those that are in the room, on an axis.
    fn middle_face(&self, room: &Room, axis: Axis) -> Option<u64> {
        let mut faces = Faces::NONE;
        for i in 0..LOOKED_AT {
            if let Some(section) = self.get(i) {
                let (start, end) = ends_on(section, axis);
                if room.has(axis, start) {
                    faces.note(start);
                }
                if room.has(axis, end) {
                    faces.note(end);
                }
            }
        }
        faces.middle()
    }

    // How many of them are below a plane, or how many above, whatever is more. Those that it cuts
    // are on both sides.
    fn greater_side(&self, plane: Plane) -> usize {
        let (mut below, mut above) = (0usize, 0usize);
        for i in 0..LOOKED_AT {
            if let Some(section) = self.get(i) {
                let (start, end) = ends_on(section, plane.axis);
                below = below.saturating_add(usize::from(start < plane.place));
                above = above.saturating_add(usize::from(plane.place < end));
            }
        }
        below.max(above)
    }
}

// A plane in the room at a face of this box.
fn face_of(section: &BinSection, room: &Room) -> Option<Plane> {
    for axis in [Axis::X, Axis::Y, Axis::Z] {
        let (start, end) = ends_on(section, axis);
        let place = if room.has(axis, start) { start } else { end };
        if room.has(axis, place) {
            return Some(Plane { axis, place });
        }
    }
    None
}

// The same, at the first of these boxes that has one.
fn first_face(parts: &[Numbered], room: &Room) -> Option<Plane> {
    for part in parts {
        let plane = face_of(&part.section, room);
        if plane.is_some() {
            return plane;
        }
    }
    None
}

/// A plane in the room at a face of a box, with few boxes on either side; `None` where there is no
/// such face.
pub(crate) fn plane_in(parts: &[Numbered], room: &Room) -> Option<Plane> {
    let sample = Sample::of(parts);
    let mut best: Option<(usize, Plane)> = None;
    for axis in [Axis::X, Axis::Y, Axis::Z] {
        if let Some(place) = sample.middle_face(room, axis) {
            let plane = Plane { axis, place };
            let side = sample.greater_side(plane);
            if best.is_none_or(|(least, _)| side < least) {
                best = Some((side, plane));
            }
        }
    }
    match best {
        Some((_, plane)) => Some(plane),
        None => first_face(parts, room),
    }
}
