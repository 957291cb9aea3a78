//! Bins and their free sections.
ghost use Rattle.std.specs.Prelude.{◌≡◌, ◌+◌, ◌≤◌, ◌<◌, ◌++◌, ◌∷◌, [], Err, IfOk, IfNone, IfSome, OnOk, OnErr, IsTrue, true, ◌↔◌, length, remove, filter, All};
ghost use Rattle.rectangle_pack_sections.specs.Boxes.{AreApart, Cell, Cuboid, has_cells};
ghost use Rattle.rectangle_pack_bins.specs.declared.target_bin.PushBinSectionError.TheVariants.{OutOfMemory};
ghost use Rattle.rectangle_pack_bins.specs.Pushes.{IsFirstSharing, IsPushAnswer};
ghost use Rattle.rectangle_pack_sections.specs.Bins.{new_bin, IsSound, IsAccepted};
ghost use Rattle.rectangle_pack_sections.specs.Counting.{AreAllApart, times_filled};
ghost use Rattle.rectangle_pack_lists.specs.Joining.{IsJoined, IsSwept, ShareNoFace};
ghost use Rattle.rectangle_pack_sections.specs.Keeping.{KeepCells};

mod clearing;
mod growing;
mod placing;
mod placing_at;
mod placing_best;
mod texts;
mod whole_lists;

pub use crate::target_bin::placing_at::{cut_round, first_around};
pub use crate::target_bin::placing_best::{best_section, cut_best};
pub use crate::target_bin::whole_lists::{bin_of_sections, put_sections, stand_in, take_sections};
use rectangle_pack_lists::coalesce::{join_all, join_all_in, join_at};
use rectangle_pack_lists::corners::Corners;
use rectangle_pack_lists::free_list::plain::push_pieces;
pub use rectangle_pack_lists::trial::FitTests;
use rectangle_pack_sections::bin_section::{BinSection, is_inside};
use rectangle_pack_sections::width_height_depth::{WidthHeightDepth, any_size};
use std::alloc::{AllocError, Allocator, Global};
use std::marker::Model;
use std::ops::Range;

/// Why a section was not given back to a bin. The section that was pushed comes with each.
#[derive(Debug, Drop)]
pub enum PushBinSectionError {
    /// It is not inside the bin.
    OutOfBounds(BinSection),
    /// It is inside the bin and shares a cell with a free section.
    Overlaps {
        /// The first free section that shares a cell with it.
        remaining_section: BinSection,
        /// The section that was pushed.
        new_section: BinSection,
    },
    /// The bin accepts it, and memory for the list was refused.
    OutOfMemory(BinSection),
}

/// A bin: its size, and the list of its free sections, in cells. Each free section is inside the
/// bin, and no two share a cell.
#[derive(Drop)]
#[derive_where(Debug)]
pub struct TargetBin<A: Allocator + Copy = Global> {
    max_size: WidthHeightDepth,
    available_bin_sections: Vec<BinSection, A>,
    // Whether a coalescing call was made on the bin since it was new or cleared.
    was_coalesced: bool,
}

impl<A: Allocator + Copy> Model for TargetBin<A> {
    ghost use Rattle.std.specs.Vec.{vec_capacity};
    ghost use Rattle.rectangle_pack_sections.specs.Bins.{Held, IsSound};

    ghost Value = { Held };

    ghost view = { λ b.
        record {
          bin = record {
            size = b.max_size;
            sections = b.available_bin_sections.items;
            coalesced = b.was_coalesced;
          };
          room = vec_capacity b.available_bin_sections;
        } };

    ghost invariant = { λ b. IsSound b.max_size b.available_bin_sections.items };
}

impl<A: Allocator + Copy> TargetBin<A> {
    /// A bin of this size, in cells, with one free section, which is all of it; any size will do.
    /// Fails only when memory is refused.
    pub fn new(alloc: A, width: u32, height: u32, depth: u32) -> Result<Self, AllocError>
        // Where it succeeds, the bin has this size and one free section, which is all of it, and
        //   does not count as coalesced. [without_sections.new_bin_counts_as_coalesced]
        ensures { IfOk result
            (λ b. b.bin ≡ new_bin (record { width = width; height = height; depth = depth })) }
    {
        let size = any_size(width, height, depth);
        let mut bin = TargetBin::without_sections(alloc, size);
        bin.available_bin_sections
            .push(BinSection::new(0, 0, 0, size))?;
        Ok(bin)
    }

    // A bin of this size that has no free section. Takes no memory.
    pub(crate) fn without_sections(alloc: A, max_size: WidthHeightDepth) -> Self
        ensures { result.bin ≡ record (new_bin max_size) { sections = [] } }
    {
        TargetBin {
            max_size,
            available_bin_sections: Vec::new(alloc),
            was_coalesced: false,
        }
    }

    /// The size of the bin, in cells.
    pub fn max_size(&self) -> WidthHeightDepth
        ensures { result ≡ self.now.bin.size }
    {
        self.max_size
    }

    /// The free sections, the newest last.
    pub fn available_bin_sections(&self) -> &Vec<BinSection, A>
        // The answer has the free sections of the bin, in the order of its list.
        ensures items { result.now.items ≡ self.now.bin.sections }
        // Each free section is inside the bin, and no two share a cell.
        ensures sound { IsSound self.now.bin.size self.now.bin.sections }
    {
        &self.available_bin_sections
    }

    /// An equal bin, with a list of its own. Fails only when memory is refused.
    pub fn clone(&self) -> Result<Self, AllocError>
        // Where it succeeds, the new bin has the same size, the same list of free sections, and
        //   counts as coalesced where the old one does.
        ensures { IfOk result (λ b. b.bin ≡ self.now.bin) }
    {
        let mut available_bin_sections = Vec::new(*self.available_bin_sections.allocator());
        available_bin_sections.extend_from_slice(self.available_bin_sections.as_slice())?;
        Ok(TargetBin {
            max_size: self.max_size,
            available_bin_sections,
            was_coalesced: self.was_coalesced,
        })
    }

    /// Whether the section is inside the bin and shares no cell with a free section.
    pub fn accepts(&self, section: &BinSection) -> bool
        // The answer is true exactly where the section is inside the bin and shares no cell with a
        //   free section. [overlaps.corner_alone_is_tested]
        ensures { IsTrue result ↔ IsAccepted self.now.bin section.now }
    {
        is_inside(section, &self.max_size)
            && first_sharing(self.available_bin_sections.as_slice(), section).is_none()
    }

    /// Takes the section at the index out of the list, which closes up. The caller sees to it that
    /// the index is below the length of the list.
    pub fn remove_filled_section(&mut self, idx: usize)
        // The index is below the length of the list.
        requires { idx < length self.old.bin.sections }
        // The entry at the index is taken out of the list, and all else in the bin stays.
        ensures { self.new.bin ≡
            record self.old.bin { sections = remove self.old.bin.sections idx } }
    {
        self.available_bin_sections.remove(idx);
    }

    /// Puts those of the three sections that are not empty at the end of the list, in this order.
    /// Fails only when memory is refused, where the list has no room for three more, and leaves the
    /// bin as it was.
    ///
    /// The caller sees to it that the bin accepts each of those and that no two of them share a
    /// cell.
    pub fn add_new_sections(&mut self, sections: [BinSection; 3]) -> Result<(), AllocError>
        // The bin accepts each of the three sections that has cells.
        requires accepted { All (IsAccepted self.old.bin) (filter has_cells sections) }
        // No two of those share a cell.
        requires apart { AreAllApart (filter has_cells sections) }
        // Where it succeeds, the sections that have cells stand at the end of the list, in their
        //   order. All else in the bin stays.
        ensures ok { OnOk result
            (self.new.bin ≡
            record self.old.bin { sections = self.old.bin.sections ++ filter has_cells sections }) }
        // An error leaves the bin as it was.
        ensures err { OnErr result (self.new.bin ≡ self.old.bin) }
        // An error is answered only where the list has no room for three sections more.
        ensures full { OnErr result (self.old.room < length self.old.bin.sections + 3) }
    {
        self.available_bin_sections.reserve(3)?;
        push_pieces(&mut self.available_bin_sections, sections);
        Ok(())
    }

    /// Gives a section back: puts it at the end of the list where the bin accepts it. An error
    /// leaves the bin as it was, and is `OutOfMemory` only where the list has no room for one more;
    /// an empty section inside the bin is accepted.
    ///
    /// ```
    /// let mut bin = TargetBin::new(alloc, 10, 10, 1)?;
    /// let members = [RectToInsert::new(4, 10, 1)];
    /// let mut tests = FitTests::new();
    /// let placed = bin.place_all(
    ///     &members,
    ///     &volume_heuristic,
    ///     &contains_smallest_box,
    ///     &mut tests,
    /// )?;
    /// assert!(rt; placed.is_some());
    /// // The box stands at (0, 0, 0). Its cells are free again once they are given back.
    /// let given = BinSection::new(0, 0, 0, WidthHeightDepth::new(4, 10, 1));
    /// bin.push_available_bin_section(given)?;
    /// let rest = BinSection::new(4, 0, 0, WidthHeightDepth::new(6, 10, 1));
    /// assert_eq!(rt;
    ///     bin.available_bin_sections().as_slice(),
    ///     [rest, given].as_slice()
    /// );
    /// ```
    pub fn push_available_bin_section(
        &mut self,
        bin_section: BinSection,
    ) -> Result<(), PushBinSectionError>
        // It succeeds only where the section is inside the bin and shares no cell with a free
        //   section. The section then stands at the end of the list, and all else in the bin stays.
        //   [push_available_bin_section.corner_alone_is_tested]
        // `OutOfBounds`: the section is not inside the bin. The error has the section, and the bin
        //   is as it was. [push_available_bin_section.corner_alone_is_tested]
        // `Overlaps`: the section is inside the bin. The error has the first free section that
        //   shares a cell with it, and the section. The bin is as it was.
        //   [overlaps.corner_alone_is_tested]
        // `OutOfMemory`: the bin accepts the section. The error has the section, and the bin is as
        //   it was.
        ensures answer { IsPushAnswer self.old.bin bin_section result self.new.bin }
        // `OutOfMemory` is answered only where the list has no room for one section more.
        ensures full { (refused : Cuboid) → result ≡ Err (OutOfMemory refused) →
            self.old.room ≤ length self.old.bin.sections }
    {
        if !is_inside(&bin_section, &self.max_size) {
            return Err(PushBinSectionError::OutOfBounds(bin_section));
        }
        let sections = self.available_bin_sections.as_slice();
        if let Some(remaining_section) = first_sharing(sections, &bin_section) {
            return Err(PushBinSectionError::Overlaps {
                remaining_section,
                new_section: bin_section,
            });
        }
        match self.push_available_bin_section_unchecked(bin_section) {
            Ok(()) => Ok(()),
            Err(_) => Err(PushBinSectionError::OutOfMemory(bin_section)),
        }
    }

    /// Puts a section at the end of the list. The caller sees to it that the bin accepts it. Fails
    /// only when memory is refused, where the list has no room for one more, and leaves the bin as
    /// it was.
    pub fn push_available_bin_section_unchecked(
        &mut self,
        bin_section: BinSection,
    ) -> Result<(), AllocError>
        // The bin accepts the section.
        requires { IsAccepted self.old.bin bin_section }
        // Where it succeeds, the section stands at the end of the list, and all else in the bin
        //   stays.
        ensures ok { OnOk result
            (self.new.bin ≡
            record self.old.bin { sections = self.old.bin.sections ++ bin_section ∷ [] }) }
        ensures err { OnErr result (self.new.bin ≡ self.old.bin) }
        // An error is answered only where the list has no room for one section more.
        ensures full { OnErr result (self.old.room ≤ length self.old.bin.sections) }
    {
        self.available_bin_sections.push(bin_section)?;
        Ok(())
    }

    /// Joins the free section at `idx` with those of the range that share a whole face with it: on
    /// two axes their corners and sizes are equal, and on the third the end of one is the start of
    /// the other.
    ///
    /// While some other index of the range has such a section, the one at the least such index is
    /// taken out, the list closes up, and the box that the two make up stands in place of the
    /// section at `idx`; the range ends one earlier. Where the index is past the end of the list,
    /// nothing is joined; a range that goes past the end is cut to the list. Takes no memory.
    pub fn coalesce_available_sections(&mut self, idx: usize, range: Range<usize>)
        // While some other section of the range shares a whole face with the one at the index, the
        //   one at the least such index is taken out of the list, and the box that the two make up
        //   stands in place of the other. The index is then that of this box, one lower where the
        //   one taken out stood before it, and the range, cut to the list, ends one earlier. An
        //   index past the end leaves the list. [shares_face.faces_that_meet_in_part_are_joined]
        ensures joined { IsJoined idx range.start range.end self.old.bin.sections
            self.new.bin.sections }
        // The bin counts as coalesced, also where nothing was joined. Beside its list all else in
        //   the bin stays.
        ensures stays { self.new.bin ≡
            record self.old.bin { sections = self.new.bin.sections; coalesced = true } }
        // Each cell is in as many free sections as before.
        //   [shares_face.faces_that_meet_in_part_are_joined]
        ensures filled { (c : Cell) →
            times_filled c self.new.bin.sections ≡ times_filled c self.old.bin.sections }
        // A cell is in some free section exactly where it was in one before, and no two free
        //   sections share a cell. [shares_face.faces_that_meet_in_part_are_joined]
        ensures cells { KeepCells self.old.bin.sections self.new.bin.sections }
        // The list is not longer than before.
        ensures no_longer { length self.new.bin.sections ≤ length self.old.bin.sections }
    {
        join_at(&mut self.available_bin_sections, idx, range);
        self.was_coalesced = true;
    }

    /// Joins free sections until no two share a whole face: coalesces at each index, from the last
    /// of the list down to 0, each time over the whole list. The free cells stay the same. Takes no
    /// memory.
    ///
    /// ```
    /// let mut bin = TargetBin::new(alloc, 10, 10, 1)?;
    /// bin.remove_filled_section(0);
    /// let left = BinSection::new(0, 0, 0, WidthHeightDepth::new(4, 10, 1));
    /// let right = BinSection::new(4, 0, 0, WidthHeightDepth::new(6, 10, 1));
    /// bin.push_available_bin_section(left)?;
    /// bin.push_available_bin_section(right)?;
    /// bin.coalesce_all();
    /// let whole = BinSection::new(0, 0, 0, WidthHeightDepth::new(10, 10, 1));
    /// assert_eq!(rt; bin.available_bin_sections().as_slice(), [whole].as_slice());
    /// ```
    pub fn coalesce_all(&mut self)
        // The list is what is left where each index, from the last down to 0, is joined as above,
        //   each time over the whole list as it is then. [join_all.goes_upward]
        ensures swept { IsSwept self.old.bin.sections self.new.bin.sections }
        ensures stays { self.new.bin ≡
            record self.old.bin { sections = self.new.bin.sections; coalesced = true } }
        // Afterwards no two free sections share a whole face. [join_all.does_nothing]
        ensures no_face { ShareNoFace self.new.bin.sections }
        ensures filled { (c : Cell) →
            times_filled c self.new.bin.sections ≡ times_filled c self.old.bin.sections }
        ensures cells { KeepCells self.old.bin.sections self.new.bin.sections }
        // The list is not longer than before. [coalesce_all.cuts_anew]
        ensures no_longer { length self.new.bin.sections ≤ length self.old.bin.sections }
    {
        join_all(&mut self.available_bin_sections);
        self.was_coalesced = true;
    }
}

/// Does what `TargetBin::coalesce_all` does, and finds what to join by its corners, in the room that
/// is lent. Takes no memory.
pub fn coalesce_all_in<A: Allocator + Copy>(bin: &mut TargetBin<A>, corners: &mut Corners<A>)
    ensures swept { IsSwept bin.old.bin.sections bin.new.bin.sections }
    ensures stays { bin.new.bin ≡
        record bin.old.bin { sections = bin.new.bin.sections; coalesced = true } }
    ensures no_face { ShareNoFace bin.new.bin.sections }
{
    join_all_in(&mut bin.available_bin_sections, corners);
    bin.was_coalesced = true;
}

/// Whether a coalescing call was made on the bin since it was new or cleared.
pub fn was_coalesced<A: Allocator + Copy>(bin: &TargetBin<A>) -> bool
    ensures { result ≡ bin.now.bin.coalesced }
{
    bin.was_coalesced
}

// The first section that shares a cell with the given one.
fn first_sharing(sections: &[BinSection], section: &BinSection) -> Option<BinSection>
    ensures none { IfNone result (All (λ s. AreApart s section.now) sections.now) }
    ensures first { IfSome result (IsFirstSharing sections.now section.now) }
{
    for s in sections {
        if s.overlaps(section) {
            return Some(*s);
        }
    }
    None
}
