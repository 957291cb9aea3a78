//! A list of free sections while a packing lasts: what is done to it is noted, and can be undone.
ghost use Rattle.std.specs.Prelude.{ℕ, ◌≡◌, ◌≤◌, ◌<◌, ◌+◌, ◌*◌, ◌^◌, [], Some, length, map, take, drop, All, IfSome, MatchOption, OnOk, OnErr};
ghost use Rattle.std.specs.Vec.{vec_capacity};
ghost use Rattle.rectangle_pack_sections.specs.Boxes.{FitsU32};
ghost use Rattle.rectangle_pack_lists.specs.Steps.{IsStep};
ghost use Rattle.rectangle_pack_lists.specs.private.FreeLists.{now_of, left_of, places_in, notes_in, room_in, steps_in};
ghost use Rattle.rectangle_pack_lists.specs.private.Notes.{IsNoted, CanUndo, before_notes};
ghost use Rattle.rectangle_pack_lists.specs.private.Places.{sections_of, IsLastHolding, NoneHolds};
ghost use Rattle.rectangle_pack_lists.specs.private.Summaries.{Bounds};

pub mod plain;
pub mod steps;

use crate::free_list::plain::{Taken, newest, place_at, undo_one};
use crate::free_list::steps::Indexed;
use crate::gap_list::summary::Summary;
use crate::gap_list::{GapList, Search};
use rectangle_pack_sections::bin_section::BinSection;
use rectangle_pack_sections::closures::Policy;
use rectangle_pack_sections::packed_location::PackedLocation;
use rectangle_pack_sections::rect_to_insert::RectToInsert;
use std::alloc::{AllocError, Allocator};
use std::marker::Model;
use std::mem;

// From how many sections, with the steps to come, a list with an index is quicker than a plain one.
const LONG: usize = 1000;

// How many sections may get an index for each box that is packed.
const SECTIONS_A_BOX: usize = 16;

/// What is done with the steps in a list at the end.
#[derive(Clone, Copy, PartialEq)]
pub enum End {
    Keep,
    Undo,
}

// The sections: a plain list, or one with gaps, where it is long. That stands on the heap, so that
// plain lists, of which there may be many, stay small.
#[derive(Drop)]
enum Sections<A: Allocator + Copy> {
    Plain(Vec<BinSection, A>),
    Gapped(Box<Indexed<A>, A>),
}

/// Room for the notes of a trial, which goes from one bin to the next where the trial is stuck.
#[derive(Drop)]
pub struct Spare<A: Allocator + Copy> {
    taken: Vec<Taken, A>,
}

impl<A: Allocator + Copy> Model for Spare<A> {
    ghost use Rattle.std.specs.Prelude.{◌≡◌, [], ⊤};

    ghost Value = { ⊤ };

    ghost view = { λ s. tt };

    // There is room alone, and no note.
    ghost invariant = { λ s. s.taken.items ≡ [] };
}

impl<A: Allocator + Copy> Spare<A> {
    /// No room yet. Takes no memory.
    pub fn new(alloc: A) -> Self {
        Spare {
            taken: Vec::new(alloc),
        }
    }
}

/// The free sections of a bin, in which a packing of `boxes` boxes makes trials. Each step is noted,
/// and can be undone.
#[derive(Drop)]
pub struct FreeList<A: Allocator + Copy> {
    sections: Sections<A>,
    // The steps in the plain list. Where there is an index, it was set after them.
    taken: Vec<Taken, A>,
    boxes: usize,
}

impl<A: Allocator + Copy> Model for FreeList<A> {
    ghost use Rattle.rectangle_pack_lists.specs.private.FreeLists.{AtWork, places_in, notes_in, room_in, steps_in};
    ghost use Rattle.rectangle_pack_lists.specs.private.Notes.{CanUndo};

    ghost Value = { AtWork };

    ghost view = { λ l.
        record {
          places = places_in l.sections;
          notes = notes_in l.taken.items l.sections;
          room = room_in l.sections;
          steps = steps_in l.taken l.sections;
        } };

    // Each step that is noted can be undone.
    ghost invariant = { λ l.
        CanUndo (room_in l.sections) (notes_in l.taken.items l.sections) (places_in l.sections) };
}

impl<A: Allocator + Copy> FreeList<A> {
    /// These sections, in a packing of `boxes` boxes. Takes no memory.
    pub fn new(sections: Vec<BinSection, A>, boxes: usize) -> Self
        ensures places { result.places ≡ map (λ s. Some s) sections.items }
        ensures notes { result.notes ≡ [] }
        ensures room { result.room ≡ vec_capacity sections }
    {
        let taken = Vec::new(*sections.allocator());
        FreeList {
            sections: Sections::Plain(sections),
            taken,
            boxes,
        }
    }

    // Changes its room for notes for another, where it has no note. Takes no memory.
    pub(crate) fn swap_notes(&mut self, spare: &mut Spare<A>)
        ensures places { self.new.places ≡ self.old.places }
        ensures notes { self.new.notes ≡ self.old.notes }
        ensures room { self.new.room ≡ self.old.room }
    {
        if self.taken.is_empty() {
            mem::swap(&mut self.taken, &mut spare.taken);
        }
    }

    // How many steps are noted.
    pub(crate) fn steps(&self) -> usize
        ensures { result ≡ length self.now.notes }
    {
        match &self.sections {
            Sections::Plain(_) => self.taken.len(),
            Sections::Gapped(indexed) => self.taken.len() + indexed.steps.len(),
        }
    }

    // Looks for the newest section that holds a member.
    pub(crate) fn find(&self, member: &RectToInsert) -> Search
        ensures { MatchOption result.place
            (NoneHolds self.now.places member.now result.tests)
            (λ place. IsLastHolding self.now.places member.now place result.tests) }
    {
        match &self.sections {
            Sections::Plain(sections) => match newest(sections.as_slice(), member) {
                Some(place) => Search {
                    place: Some(place),
                    tests: sections.len() - place,
                },
                None => Search {
                    place: None,
                    tests: sections.len(),
                },
            },
            Sections::Gapped(indexed) => indexed.list.last_holding(member),
        }
    }

    // Makes room for `steps` steps more, and sets an index beside a long list. Fails only when
    // memory is refused.
    pub(crate) fn reserve(&mut self, steps: usize) -> Result<(), AllocError>
        requires small { steps * 3 < 2 ^ 64 }
        ensures ok { OnOk result (steps ≤ self.new.steps) }
        ensures places { self.new.places ≡ self.old.places }
        ensures notes { self.new.notes ≡ self.old.notes }
        ensures room { self.old.room ≤ self.new.room }
    {
        self.sections.reserve(&mut self.taken, steps, self.boxes)
    }

    // Makes room for `steps` steps more. Where memory is refused, the noted steps are undone but for
    // the first `kept`.
    pub(crate) fn reserve_or_undo(&mut self, steps: usize, kept: usize) -> Result<(), AllocError>
        requires small { steps * 3 < 2 ^ 64 }
        requires noted { kept ≤ length self.old.notes }
        ensures steps { OnOk result (steps ≤ self.new.steps) }
        ensures same_places { OnOk result (self.new.places ≡ self.old.places) }
        ensures same_notes { OnOk result (self.new.notes ≡ self.old.notes) }
        ensures undone_places { OnErr result
            (self.new.places ≡ before_notes (drop kept self.old.notes) self.old.places) }
        ensures undone_notes { OnErr result (self.new.notes ≡ take kept self.old.notes) }
        ensures room { self.old.room ≤ self.new.room }
    {
        let made = self.reserve(steps);
        if made.is_err() {
            self.undo_to(kept);
        }
        made
    }

    // Places a member into the section at this place, and notes the step. Takes no memory.
    pub(crate) fn place<R: Policy>(
        &mut self,
        place: usize,
        member: &RectToInsert,
        policy: &R,
    ) -> PackedLocation
        requires callable { R.is_callable policy.now }
        requires fits { All FitsU32 (now_of self.old) }
        requires newest { (tests : ℕ) × IsLastHolding self.old.places member.now place tests }
        requires steps { 0 < self.old.steps }
        ensures step { (tests : ℕ) →
            IsLastHolding self.old.places member.now place tests →
            IsStep (R.may policy.now) (now_of self.old) member.now result (now_of self.new) tests }
        ensures noted { IsNoted self.new.room self.old.notes self.new.notes self.old.places
            self.new.places }
        ensures room { self.old.room ≤ self.new.room }
        ensures steps { self.old.steps ≤ self.new.steps + 1 }
    {
        self.sections.place(&mut self.taken, place, member, policy)
    }

    // Undoes the noted steps but for the first `kept`, from the last. Takes no memory.
    pub(crate) fn undo_to(&mut self, kept: usize)
        requires { kept ≤ length self.old.notes }
        ensures places { self.new.places ≡
            before_notes (drop kept self.old.notes) self.old.places }
        ensures notes { self.new.notes ≡ take kept self.old.notes }
        ensures room { self.old.room ≤ self.new.room }
    {
        while self.steps() > kept {
            self.undo();
        }
    }

    // Undoes the last noted step. Takes no memory.
    fn undo(&mut self)
        requires { 0 < length self.old.notes }
        ensures undone { IsNoted self.old.room self.new.notes self.old.notes self.new.places
            self.old.places }
        ensures room { self.old.room ≤ self.new.room }
    {
        self.sections.undo(&mut self.taken);
    }

    /// Bounds of its sections, where they are few and no index stands beside them.
    pub fn summary(&self) -> Option<Summary>
        ensures { IfSome result (λ s. Bounds s (now_of self.now)) }
    {
        match &self.sections {
            Sections::Plain(sections) => Summary::of_few(sections.as_slice()),
            Sections::Gapped(..) => None,
        }
    }

    /// The sections at the end, closed up. A list that had an index asks to be made smaller, and stays
    /// as it is where that is refused. Asks for no other memory.
    pub fn into_sections(self, end: End) -> Vec<BinSection, A>
        ensures { result.items ≡ left_of end self }
    {
        let mut list = self;
        if end == End::Undo {
            list.undo_to(0);
        }
        let FreeList { sections, .. } = list;
        sections.into_sections()
    }
}

// Whether an index is worth it beside a list of `sections` sections, for `steps` steps more in a
// packing of `boxes` boxes.
fn is_worth_it(sections: usize, steps: usize, boxes: usize) -> bool {
    sections.saturating_add(steps) >= LONG && sections / SECTIONS_A_BOX <= boxes
}

impl<A: Allocator + Copy> Sections<A> {
    // Makes room for `steps` steps more, and sets an index beside a plain list where it is worth it.
    // Fails only when memory is refused.
    fn reserve(
        &mut self,
        taken: &mut Vec<Taken, A>,
        steps: usize,
        boxes: usize,
    ) -> Result<(), AllocError>
        requires small { steps * 3 < 2 ^ 64 }
        ensures ok { OnOk result (steps ≤ steps_in taken.new self.new) }
        ensures places { places_in self.new ≡ places_in self.old }
        ensures notes { notes_in taken.new.items self.new ≡ notes_in taken.old.items self.old }
        ensures room { room_in self.old ≤ room_in self.new }
    {
        match self {
            Sections::Gapped(indexed) => {
                let indexed = &mut **indexed;
                indexed.list.reserve(steps * 3)?;
                let places = indexed.list.places() + steps * 3;
                indexed.steps.reserve(steps, places)
            }
            Sections::Plain(sections) if !is_worth_it(sections.len(), steps, boxes) => {
                taken.reserve(steps)?;
                sections.reserve(steps * 2)
            }
            Sections::Plain(sections) => {
                let alloc = *sections.allocator();
                let mut indexed = Box::new(alloc, Indexed::new(alloc))?;
                let places = sections.len().saturating_add(steps * 3);
                indexed.steps.reserve(steps, places)?;
                indexed.list = GapList::over(sections, steps * 3)?;
                *self = Sections::Gapped(indexed);
                Ok(())
            }
        }
    }

    // Takes the section at this place out, and pushes what is left of it round a member.
    fn place<R: Policy>(
        &mut self,
        taken: &mut Vec<Taken, A>,
        place: usize,
        member: &RectToInsert,
        policy: &R,
    ) -> PackedLocation
        requires callable { R.is_callable policy.now }
        requires fits { All FitsU32 (sections_of (places_in self.old)) }
        requires newest { (tests : ℕ) ×
            IsLastHolding (places_in self.old) member.now place tests }
        requires steps { 0 < steps_in taken.old self.old }
        requires can_undo { CanUndo (room_in self.old) (notes_in taken.old.items self.old)
            (places_in self.old) }
        ensures step { (tests : ℕ) →
            IsLastHolding (places_in self.old) member.now place tests →
            IsStep (R.may policy.now) (sections_of (places_in self.old)) member.now result
            (sections_of (places_in self.new)) tests }
        ensures noted { IsNoted (room_in self.new) (notes_in taken.old.items self.old)
            (notes_in taken.new.items self.new) (places_in self.old) (places_in self.new) }
        ensures room { room_in self.old ≤ room_in self.new }
        ensures steps { steps_in taken.old self.old ≤ steps_in taken.new self.new + 1 }
    {
        match self {
            Sections::Plain(sections) => {
                let (location, note) = place_at(sections, place, member, policy);
                taken.push_reserved(note);
                location
            }
            Sections::Gapped(indexed) => {
                let indexed = &mut **indexed;
                let (location, pushed) = indexed.list.place_at(place, member, policy);
                indexed.steps.push_reserved(place, pushed);
                location
            }
        }
    }

    // Undoes the last noted step. Takes no memory.
    fn undo(&mut self, taken: &mut Vec<Taken, A>)
        requires some { 0 < length (notes_in taken.old.items self.old) }
        requires can_undo { CanUndo (room_in self.old) (notes_in taken.old.items self.old)
            (places_in self.old) }
        ensures undone { IsNoted (room_in self.old) (notes_in taken.new.items self.new)
            (notes_in taken.old.items self.old) (places_in self.new) (places_in self.old) }
        ensures room { room_in self.old ≤ room_in self.new }
    {
        match self {
            Sections::Plain(sections) => {
                if let Some(note) = taken.pop() {
                    undo_one(sections, note);
                }
            }
            Sections::Gapped(indexed) => {
                let indexed = &mut **indexed;
                if let Some((place, pushed)) = indexed.steps.pop() {
                    indexed.list.undo_one(place, pushed);
                } else if let Some(note) = taken.pop() {
                    // The index was set after this step, so no gap stands in the list any more.
                    let mut sections = indexed.list.take_sections();
                    undo_one(&mut sections, note);
                    *self = Sections::Plain(sections);
                }
            }
        }
    }

    // The sections alone, closed up. Where a list had gaps, it asks to be made smaller, and stays as
    // it is where that is refused.
    fn into_sections(self) -> Vec<BinSection, A>
        ensures { result.items ≡ sections_of (places_in self) }
    {
        match self {
            Sections::Plain(sections) => sections,
            Sections::Gapped(indexed) => {
                let Indexed { mut list, .. } = Box::into_inner(indexed);
                let mut sections = list.take_sections();
                // The room of gaps is given back.
                sections.shrink_to_fit();
                sections
            }
        }
    }
}
