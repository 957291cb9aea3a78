//! The steps in a list with an index, in five bytes each, or in nine where the list may grow past 2^32
//! places.
ghost use Rattle.std.specs.Prelude.{◌≡◌, ◌≤◌, ◌<◌, ◌+◌, ◌^◌, ◌++◌, ◌∷◌, [], length, MatchOption, OnOk};

use crate::gap_list::GapList;
use std::alloc::{AllocError, Allocator};
use std::marker::Model;

// Up to how many places of a list are noted in 32 bits.
const NEAR: usize = 1 << 32;

/// The places of gaps, in the order in which steps left them.
#[derive(Drop)]
pub(crate) struct GapPlaces<A: Allocator> {
    // As long as the list has few places.
    near: Vec<u32, A>,
    // Those after them. Once there is room for one, no further one goes into `near`.
    far: Vec<usize, A>,
}

impl<A: Allocator> Model for GapPlaces<A> {
    ghost use Rattle.std.specs.Prelude.{◌-◌, ◌^◌, ◌++◌, ◌==◌, length, if◌then◌else◌};
    ghost use Rattle.std.specs.Vec.{vec_capacity};
    ghost use Rattle.rectangle_pack_lists.specs.private.Notes.{NotedPlaces};

    ghost Value = { NotedPlaces };

    ghost view = { λ p.
        record {
          all = p.near.items ++ p.far.items;
          room = if vec_capacity p.far == 0 then vec_capacity p.near - length p.near.items
              else vec_capacity p.far - length p.far.items;
          reach = if vec_capacity p.far == 0 then 2 ^ 32 else 2 ^ 64;
        } };
}

impl<A: Allocator + Copy> GapPlaces<A> {
    // None yet. Takes no memory.
    fn new(alloc: A) -> Self
        ensures { result.all ≡ [] }
    {
        GapPlaces {
            near: Vec::new(alloc),
            far: Vec::new(alloc),
        }
    }

    // Makes room for `steps` more, after which the list has `places` places at most. Fails only when
    // memory is refused.
    fn reserve(&mut self, steps: usize, places: usize) -> Result<(), AllocError>
        ensures room { OnOk result (steps ≤ self.new.room) }
        ensures reach { 0 < steps → OnOk result (places ≤ self.new.reach) }
        ensures all { self.new.all ≡ self.old.all }
    {
        if places <= NEAR && self.far.capacity() == 0 {
            self.near.reserve(steps)
        } else {
            self.far.reserve(steps)
        }
    }

    // Notes one more, where there is room.
    fn push_reserved(&mut self, place: usize)
        requires room { 0 < self.old.room }
        requires reach { place < self.old.reach }
        ensures all { self.new.all ≡ self.old.all ++ place ∷ [] }
        ensures room { self.old.room ≤ self.new.room + 1 }
        ensures reach { self.new.reach ≡ self.old.reach }
    {
        if self.far.capacity() == 0 {
            self.near.push_reserved(place as u32);
        } else {
            self.far.push_reserved(place);
        }
    }

    // Takes the last one off.
    fn pop(&mut self) -> Option<usize>
        ensures { MatchOption result ((self.old.all ≡ []) × (self.new.all ≡ []))
            (λ place. self.old.all ≡ self.new.all ++ place ∷ []) }
    {
        match self.far.pop() {
            Some(place) => Some(place),
            None => self.near.pop().map(|place| place as usize),
        }
    }
}

/// At which place each step left a gap, and how many pieces it pushed. The section that it took out
/// still stands there.
#[derive(Drop)]
pub(crate) struct Steps<A: Allocator> {
    places: GapPlaces<A>,
    pushed: Vec<u8, A>,
}

impl<A: Allocator> Model for Steps<A> {
    ghost use Rattle.std.specs.Prelude.{◌≡◌, ◌-◌, length, min, zip};
    ghost use Rattle.std.specs.Vec.{vec_capacity};
    ghost use Rattle.rectangle_pack_lists.specs.private.Notes.{GapSteps};

    ghost Value = { GapSteps };

    ghost view = { λ s.
        record {
          all = zip s.places.all s.pushed.items;
          room = min s.places.room (vec_capacity s.pushed - length s.pushed.items);
          reach = s.places.reach;
        } };

    ghost invariant = { λ s. length s.pushed.items ≡ length s.places.all };
}

impl<A: Allocator + Copy> Steps<A> {
    // None yet. Takes no memory.
    pub(crate) fn new(alloc: A) -> Self
        ensures { result.all ≡ [] }
    {
        Steps {
            places: GapPlaces::new(alloc),
            pushed: Vec::new(alloc),
        }
    }

    // How many there are.
    pub(crate) fn len(&self) -> usize
        ensures counted { result ≡ length self.now.all }
        ensures small { result < 2 ^ 63 }
    {
        self.pushed.len()
    }

    // Makes room for `steps` more, after which the list has `places` places at most. Fails only when
    // memory is refused.
    pub(crate) fn reserve(&mut self, steps: usize, places: usize) -> Result<(), AllocError>
        ensures room { OnOk result (steps ≤ self.new.room) }
        ensures reach { 0 < steps → OnOk result (places ≤ self.new.reach) }
        ensures all { self.new.all ≡ self.old.all }
    {
        self.places.reserve(steps, places)?;
        self.pushed.reserve(steps)
    }

    // Notes one more, where there is room.
    pub(crate) fn push_reserved(&mut self, place: usize, pushed: u8)
        requires room { 0 < self.old.room }
        requires reach { place < self.old.reach }
        ensures all { self.new.all ≡ self.old.all ++ (place, pushed) ∷ [] }
        ensures room { self.old.room ≤ self.new.room + 1 }
        ensures reach { self.new.reach ≡ self.old.reach }
    {
        self.places.push_reserved(place);
        self.pushed.push_reserved(pushed);
    }

    // Takes the last one off.
    pub(crate) fn pop(&mut self) -> Option<(usize, u8)>
        ensures { MatchOption result ((self.old.all ≡ []) × (self.new.all ≡ []))
            (λ step. self.old.all ≡ self.new.all ++ step ∷ []) }
    {
        self.places.pop().zip(self.pushed.pop())
    }
}

/// A list with an index, and the steps that were made since it was set.
#[derive(Drop)]
pub(crate) struct Indexed<A: Allocator + Copy> {
    pub(crate) list: GapList<A>,
    pub(crate) steps: Steps<A>,
}

impl<A: Allocator + Copy> Indexed<A> {
    // No section yet, and no step. Takes no memory.
    pub(crate) fn new(alloc: A) -> Self
        ensures { result.steps.all ≡ [] }
    {
        Indexed {
            list: GapList::new(alloc),
            steps: Steps::new(alloc),
        }
    }
}
