//! Lists of sections with gaps, in which the last section that holds a box is found without a look at
//! each.
ghost use Rattle.std.specs.Prelude.{ℕ, ◌≡◌, ◌+◌, ◌-◌, ◌<◌, ◌≤◌, ◌*◌, ◌^◌, ◌++◌, ◌∷◌, [], map, filter, All, length, take, drop, set, slice_index_or, IfOk, OnErr, OnOk, IfSome, IsSome, MatchOption, if◌then◌else◌, None, Some};
ghost use Rattle.std.specs.List.{SameBelow};
ghost use Rattle.std.specs.Vec.{vec_capacity};
ghost use Rattle.rectangle_pack_sections.specs.Boxes.{FitsU32, has_cells};
ghost use Rattle.rectangle_pack_lists.specs.Joining.{entry};
ghost use Rattle.rectangle_pack_lists.specs.Steps.{IsStep};
ghost use Rattle.rectangle_pack_lists.specs.private.GapBits.{bits_of, flags_of};
ghost use Rattle.rectangle_pack_lists.specs.private.Notes.{before_note, gap_note};
ghost use Rattle.rectangle_pack_lists.specs.private.Places.{places_of, sections_of, IsLastHolding, NoneHolds};

pub mod gap_bits;
pub mod summary;

use crate::gap_list::gap_bits::{has_gap, marked, push_place};
use crate::gap_list::summary::{
    BLOCK, ROW, Summary, count_if_too_small, sum_block_anew, sum_blocks, sum_last_block,
    sum_last_row, sum_row_anew, sum_rows,
};
use crate::trial::place_in;
use rectangle_pack_sections::bin_section::{BinSection, has_cells, holds};
use rectangle_pack_sections::closures::Policy;
use rectangle_pack_sections::packed_location::PackedLocation;
use rectangle_pack_sections::rect_to_insert::RectToInsert;
use rectangle_pack_sections::width_height_depth::WidthHeightDepth;
use std::alloc::{AllocError, Allocator};
use std::marker::Model;
use std::mem;

/// A list of sections with an index: which places are gaps, and summaries of stretches of places. A
/// section that is taken out leaves a gap, so no section is moved until the list is closed up.
#[derive(Drop)]
pub(crate) struct GapList<A: Allocator + Copy> {
    // The section of each place; in a gap the one that was taken out.
    sections: Vec<BinSection, A>,
    // Which places are gaps, a bit for each: a byte for each block, the last of which may stand for
    // fewer places.
    gaps: Vec<u8, A>,
    // A summary of each whole block and of each whole row.
    blocks: Vec<Summary, A>,
    rows: Vec<Summary, A>,
}

impl<A: Allocator + Copy> Model for GapList<A> {
    ghost use Rattle.std.specs.Prelude.{◌+◌, ◌*◌, ◌/◌, ◌≡◌, length, min};
    ghost use Rattle.std.specs.Vec.{vec_capacity};
    ghost use Rattle.rectangle_pack_lists.specs.private.GapBits.{flags_of};
    ghost use Rattle.rectangle_pack_lists.specs.private.Places.{Places, places_of};
    ghost use Rattle.rectangle_pack_lists.specs.private.Summaries.{AreSummed};

    ghost Value = { Places };

    ghost view = { λ l.
        record {
          all = places_of l.sections.items (flags_of l.gaps.items);
          under = l.sections.items;
          room = min (min (vec_capacity l.sections) (vec_capacity l.gaps * 8))
              (min (vec_capacity l.blocks * 8 + 7) (vec_capacity l.rows * 64 + 63));
          capacity = vec_capacity l.sections;
        } };

    ghost invariant = { λ l. (length l.gaps.items ≡ (length l.sections.items + 7) / 8) ×
        AreSummed 8 64 (places_of l.sections.items (flags_of l.gaps.items)) l.blocks.items
        l.rows.items };
}

/// What a search found, and how many sections a look at each, from the last on, would have tested.
#[derive(Clone, Copy)]
pub struct Search {
    /// The place of the last section that holds the box.
    pub place: Option<usize>,
    /// How many sections stand from there on; all, where no section holds the box.
    pub tests: usize,
}

// Looks for the last section of a block that holds the member, at each of its places from the last
// on.
#[inline(always)]
fn last_of(sections: &[BinSection], gaps: u8, member: &RectToInsert) -> Search
    requires { length sections.now ≤ 8 }
    ensures found { MatchOption result.place
        (NoneHolds (places_of sections.now (bits_of gaps)) member.now result.tests)
        (λ place. IsLastHolding (places_of sections.now (bits_of gaps)) member.now place
        result.tests) }
    ensures place { IfSome result.place (λ place. place < length sections.now) }
    ensures most { result.tests ≤ length sections.now }
{
    let mut end = sections.len();
    let mut tests = 0;
    while end > 0 {
        end -= 1;
        if !has_gap(gaps, end) {
            tests += 1;
            if holds(&sections[end], member) {
                return Search {
                    place: Some(end),
                    tests,
                };
            }
        }
    }
    Search { place: None, tests }
}

impl<A: Allocator + Copy> GapList<A> {
    // A list without sections. Takes no memory.
    pub(crate) fn new(alloc: A) -> Self
        ensures { result.all ≡ [] }
    {
        GapList {
            sections: Vec::new(alloc),
            gaps: Vec::new(alloc),
            blocks: Vec::new(alloc),
            rows: Vec::new(alloc),
        }
    }

    // Sets an index beside a list, which is taken, with room for `extra` places more. Fails only
    // when memory is refused, and leaves the list then.
    pub(crate) fn over(sections: &mut Vec<BinSection, A>, extra: usize) -> Result<Self, AllocError>
        ensures all { IfOk result (λ l. l.all ≡ map (λ s. Some s) sections.old.items) }
        ensures room { IfOk result (λ l. length l.all + extra ≤ l.room) }
        ensures small { IfOk result (λ l. length l.all + extra < 2 ^ 64) }
        ensures capacity { IfOk result (λ l. vec_capacity sections.old ≤ l.capacity) }
        ensures err { OnErr result (sections.new.items ≡ sections.old.items) }
        ensures err_room { OnErr result (vec_capacity sections.old ≤ vec_capacity sections.new) }
    {
        let alloc = *sections.allocator();
        sections.reserve(extra)?;
        let most = sections.len() + extra;
        let mut gaps = Vec::with_capacity(alloc, most.div_ceil(BLOCK))?;
        gaps.resize(sections.len().div_ceil(BLOCK), 0)?;
        let blocks = sum_blocks(alloc, sections.as_slice(), gaps.as_slice(), most / BLOCK)?;
        let rows = sum_rows(alloc, blocks.as_slice(), most / ROW)?;
        let taken = mem::replace(sections, Vec::new(alloc));
        Ok(GapList {
            sections: taken,
            gaps,
            blocks,
            rows,
        })
    }

    // Makes room for `extra` places more. Fails only when memory is refused, and leaves the list.
    pub(crate) fn reserve(&mut self, extra: usize) -> Result<(), AllocError>
        ensures ok { OnOk result (length self.old.all + extra ≤ self.new.room) }
        ensures small { OnOk result (length self.old.all + extra < 2 ^ 64) }
        ensures all { self.new.all ≡ self.old.all }
        ensures under { self.new.under ≡ self.old.under }
        ensures capacity { self.old.capacity ≤ self.new.capacity }
    {
        self.sections.reserve(extra)?;
        let most = self.sections.len() + extra;
        self.gaps.reserve(most.div_ceil(BLOCK) - self.gaps.len())?;
        self.blocks.reserve(most / BLOCK - self.blocks.len())?;
        self.rows.reserve(most / ROW - self.rows.len())?;
        Ok(())
    }

    // How many places there are, gaps too.
    pub(crate) fn places(&self) -> usize
        ensures all { result ≡ length self.now.all }
        ensures under { result ≡ length self.now.under }
    {
        self.sections.len()
    }

    // Puts a section at the end of the list. The caller sees to it that there is room. Takes no
    // memory.
    pub(crate) fn push_reserved(&mut self, section: BinSection)
        requires { length self.old.all < self.old.room }
        ensures all { self.new.all ≡ self.old.all ++ Some section ∷ [] }
        ensures under { self.new.under ≡ self.old.under ++ section ∷ [] }
        ensures room { self.new.room ≡ self.old.room }
        ensures capacity { self.new.capacity ≡ self.old.capacity }
    {
        push_place(&mut self.gaps, self.sections.len());
        self.sections.push_reserved(section);
        sum_last_block(
            &mut self.blocks,
            self.sections.as_slice(),
            self.gaps.as_slice(),
        );
        sum_last_row(&mut self.rows, self.blocks.as_slice());
    }

    // Looks for the last section that holds the member.
    pub(crate) fn last_holding(&self, member: &RectToInsert) -> Search
        ensures found { MatchOption result.place
            (NoneHolds self.now.all member.now result.tests)
            (λ place. IsLastHolding self.now.all member.now place result.tests) }
    {
        let size = WidthHeightDepth::from(*member);
        let mut end = self.sections.len();
        let mut tests = 0;
        while end > 0 {
            if let Some((begin, count)) = self.too_small_before(end, &size) {
                end = begin;
                tests += count;
            } else {
                let block = (end - 1) / BLOCK;
                let begin = block * BLOCK;
                let found = last_of(&self.sections[begin..end], self.gaps[block], member);
                tests += found.tests;
                if let Some(at) = found.place {
                    return Search {
                        place: Some(begin + at),
                        tests,
                    };
                }
                end = begin;
            }
        }
        Search { place: None, tests }
    }

    // Where a row or a block ends here, and its summary shows that no section in it holds the size:
    // where it begins, and how many sections stand in it.
    #[inline(always)]
    fn too_small_before(&self, end: usize, size: &WidthHeightDepth) -> Option<(usize, usize)>
        requires from { 0 < end }
        requires to { end ≤ length self.now.all }
        ensures begin { IfSome result (λ r. r.0 < end) }
        ensures none { IfSome result
            (λ r. NoneHolds (take (end - r.0) (drop r.0 self.now.all)) size.now r.1) }
    {
        if end % BLOCK > 0 {
            return None;
        }
        if let Some(count) = count_if_too_small(self.rows.as_slice(), ROW, end, size) {
            return Some((end - ROW, count));
        }
        match count_if_too_small(self.blocks.as_slice(), BLOCK, end, size) {
            Some(count) => Some((end - BLOCK, count)),
            None => None,
        }
    }

    // Takes a section out, and leaves a gap. The caller sees to it that there is one at this place.
    // Takes no memory.
    pub(crate) fn take(&mut self, place: usize) -> BinSection
        requires within { place < length self.old.all }
        requires full { IsSome (slice_index_or self.old.all place None) }
        ensures section { slice_index_or self.old.all place None ≡ Some result }
        ensures all { self.new.all ≡ set self.old.all place None }
        ensures under { self.new.under ≡ self.old.under }
        ensures entry { entry self.old.under place ≡ result }
        ensures room { self.new.room ≡ self.old.room }
        ensures capacity { self.new.capacity ≡ self.old.capacity }
    {
        let section = self.sections[place];
        self.mark(place, true);
        section
    }

    // Says of a place whether it is a gap.
    fn mark(&mut self, place: usize, is_gap: bool)
        requires { place < length self.old.all }
        ensures all { self.new.all ≡ set self.old.all place
            (if is_gap then None else Some (entry self.old.under place)) }
        ensures under { self.new.under ≡ self.old.under }
        ensures room { self.new.room ≡ self.old.room }
        ensures capacity { self.new.capacity ≡ self.old.capacity }
    {
        let block = place / BLOCK;
        self.gaps[block] = marked(self.gaps[block], place % BLOCK, is_gap);
        sum_block_anew(
            &mut self.blocks,
            self.sections.as_slice(),
            self.gaps.as_slice(),
            place,
        );
        sum_row_anew(&mut self.rows, self.blocks.as_slice(), place);
    }

    // Takes off the last places, so that `places` are left. Takes no memory.
    pub(crate) fn truncate(&mut self, places: usize)
        requires { places ≤ length self.old.all }
        ensures all { self.new.all ≡ take places self.old.all }
        ensures under { self.new.under ≡ take places self.old.under }
        ensures room { self.new.room ≡ self.old.room }
        ensures capacity { self.new.capacity ≡ self.old.capacity }
    {
        self.sections.truncate(places);
        self.gaps.truncate(places.div_ceil(BLOCK));
        self.blocks.truncate(places / BLOCK);
        self.rows.truncate(places / ROW);
    }

    // Takes the sections, closed up, and leaves an empty list. Takes no memory.
    pub(crate) fn take_sections(&mut self) -> Vec<BinSection, A>
        ensures items { result.items ≡ sections_of self.old.all }
        ensures capacity { vec_capacity result ≡ self.old.capacity }
    {
        let none = Vec::new(*self.sections.allocator());
        let mut sections = mem::replace(&mut self.sections, none);
        close_up(&mut sections, self.gaps.as_slice());
        self.gaps.clear();
        self.blocks.clear();
        self.rows.clear();
        sections
    }

    // Takes the section at this place out, and pushes what is left of it round a member. Answers its
    // location, and how many pieces were pushed.
    pub(crate) fn place_at<R: Policy>(
        &mut self,
        place: usize,
        member: &RectToInsert,
        policy: &R,
    ) -> (PackedLocation, u8)
        requires callable { R.is_callable policy.now }
        requires newest { (tests : ℕ) × IsLastHolding self.old.all member.now place tests }
        requires fits { All FitsU32 (sections_of self.old.all) }
        requires room { length self.old.all + 3 ≤ self.old.room }
        ensures room { self.new.room ≡ self.old.room }
        ensures capacity { self.new.capacity ≡ self.old.capacity }
        ensures no_longer { length self.new.all ≤ length self.old.all + 3 }
        ensures step { (tests : ℕ) → IsLastHolding self.old.all member.now place tests →
            IsStep (R.may policy.now) (sections_of self.old.all) member.now result.0
            (sections_of self.new.all) tests }
        ensures before { before_note (gap_note self.new.under (place, result.1)) self.new.all ≡
            self.old.all }
        ensures under { SameBelow self.old.under self.new.under (length self.old.all) }
        ensures place { place + result.1 < length self.new.all }
    {
        let kept = self.places();
        let section = self.take(place);
        let (location, pieces) = place_in(&section, member, policy);
        self.push_pieces(pieces);
        let pushed = self.places() - kept;
        (location, pushed as u8)
    }

    // Takes the pieces of a step off, and its section is back in its gap. Takes no memory.
    pub(crate) fn undo_one(&mut self, place: usize, pushed: u8)
        requires { place + pushed < length self.old.all }
        ensures all { self.new.all ≡ before_note (gap_note self.old.under (place, pushed)) self.old.all }
        ensures under { SameBelow self.old.under self.new.under (length self.new.all) }
        ensures capacity { self.new.capacity ≡ self.old.capacity }
    {
        let kept = self.places() - usize::from(pushed);
        self.truncate(kept);
        self.mark(place, false);
    }

    // Pushes a piece that has cells, where there is room.
    fn push_piece(&mut self, piece: BinSection)
        requires { length self.old.all < self.old.room }
        ensures all { self.new.all ≡
            self.old.all ++ map (λ s. Some s) (filter has_cells (piece ∷ [])) }
        ensures under { self.new.under ≡ self.old.under ++ filter has_cells (piece ∷ []) }
        ensures room { self.new.room ≡ self.old.room }
        ensures capacity { self.new.capacity ≡ self.old.capacity }
    {
        if has_cells(&piece) {
            self.push_reserved(piece);
        }
    }

    // Pushes the pieces that have cells, in order, where there is room for all.
    fn push_pieces(&mut self, pieces: [BinSection; 3])
        requires { length self.old.all + 3 ≤ self.old.room }
        ensures all { self.new.all ≡ self.old.all ++ map (λ s. Some s) (filter has_cells pieces) }
        ensures under { self.new.under ≡ self.old.under ++ filter has_cells pieces }
        ensures room { self.new.room ≡ self.old.room }
        ensures capacity { self.new.capacity ≡ self.old.capacity }
        ensures no_longer { length self.new.all ≤ length self.old.all + 3 }
    {
        let [first, second, third] = pieces;
        self.push_piece(first);
        self.push_piece(second);
        self.push_piece(third);
    }
}

// Moves each section that is in no gap to the next free place, and cuts the list off behind the last.
// Takes no memory.
fn close_up<A: Allocator>(sections: &mut Vec<BinSection, A>, gaps: &[u8])
    requires { length sections.old.items ≤ length gaps.now * 8 }
    ensures items { sections.new.items ≡
        sections_of (places_of sections.old.items (flags_of gaps.now)) }
    ensures capacity { vec_capacity sections.new ≡ vec_capacity sections.old }
{
    let mut kept = 0;
    for place in 0..sections.len() {
        if !has_gap(gaps[place / BLOCK], place % BLOCK) {
            sections[kept] = sections[place];
            kept += 1;
        }
    }
    sections.truncate(kept);
}
