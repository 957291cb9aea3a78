//! Summaries of stretches of places: how many sections stand there, and bounds that none exceeds.
ghost use Rattle.std.specs.Prelude.{◌≡◌, ◌+◌, ◌*◌, ◌-◌, ◌/◌, ◌<◌, ◌≤◌, ◌++◌, ◌^◌, ◌∷◌, [], List, Option, length, take, drop, IfOk, IfSome, set};
ghost use Rattle.std.specs.Vec.{vec_capacity};
ghost use Rattle.std.specs.Bool.{OnFalse};
ghost use Rattle.rectangle_pack_sections.specs.Boxes.{Cuboid};
ghost use Rattle.rectangle_pack_lists.specs.private.GapBits.{bits_of, flags_of};
ghost use Rattle.rectangle_pack_lists.specs.private.Places.{places_of, NoneHolds};
ghost use Rattle.rectangle_pack_lists.specs.private.Summaries.{RulesOut, Bounds, Sums, SumAll, HavePlaces, of_section, joined, bounded_volume_of};

use crate::gap_list::gap_bits::has_gap;
use rectangle_pack_sections::bin_section::BinSection;
use rectangle_pack_sections::box_size_heuristics::middle_side;
use rectangle_pack_sections::width_height_depth::WidthHeightDepth;
use std::alloc::{AllocError, Allocator};

// The number of cells, up to the greatest number of 64 bits.
fn bounded_volume(size: &WidthHeightDepth) -> u64
    ensures { result ≡ bounded_volume_of size.now }
{
    u64::try_from(size.volume()).unwrap_or(u64::MAX)
}

// How many places a block has, and how many a row.
pub(crate) const BLOCK: usize = 8;

pub(crate) const ROW: usize = 64;

// How many blocks a row has.
const ROW_BLOCKS: usize = 8;

// How many sections of a bin are summed, at most.
const FEW: usize = 64;

/// Of some sections: the greatest width, height, depth, middle side and volume, and how many there
/// are.
#[derive(Clone, Copy)]
pub struct Summary {
    width: u32,
    height: u32,
    depth: u32,
    middle: u32,
    volume: u64,
    count: usize,
}

impl Summary {
    // The summary of no section.
    fn empty() -> Self
        ensures { Sums result [] }
    {
        Summary {
            width: 0,
            height: 0,
            depth: 0,
            middle: 0,
            volume: 0,
            count: 0,
        }
    }

    // The summary of one section, of this size.
    fn of_section(size: &WidthHeightDepth) -> Self
        ensures { result ≡ of_section size.now }
    {
        Summary {
            width: size.width(),
            height: size.height(),
            depth: size.depth(),
            middle: middle_side(size),
            volume: bounded_volume(size),
            count: 1,
        }
    }

    /// The summary of these sections.
    pub fn of_sections(sections: &[BinSection]) -> Self
        ensures { Bounds result sections.now }
    {
        let mut summary = Summary::empty();
        for section in sections {
            summary = summary.join(&Summary::of_section(&section.whd()));
        }
        summary
    }

    /// The summary of these sections, where they are few.
    pub fn of_few(sections: &[BinSection]) -> Option<Self>
        ensures { IfSome result (λ s. Bounds s sections.now) }
    {
        if sections.len() <= FEW {
            Some(Summary::of_sections(sections))
        } else {
            None
        }
    }

    /// How many sections there are.
    pub fn count(&self) -> usize
        ensures { result ≡ self.now.count }
    {
        self.count
    }

    // The summary of the sections at the places of a block.
    fn of(sections: &[BinSection], gaps: u8) -> Self
        requires { length sections.now ≤ 8 }
        ensures { Sums result (places_of sections.now (bits_of gaps)) }
    {
        let mut summary = Summary::empty();
        for place in 0..sections.len() {
            if !has_gap(gaps, place) {
                summary = summary.join(&Summary::of_section(&sections[place].whd()));
            }
        }
        summary
    }

    // The summary of all places of these blocks, of the summaries of the blocks.
    fn of_blocks(blocks: &[Summary]) -> Self
        requires { HavePlaces blocks.now }
        ensures { (places : List (Option Cuboid)) →
            length places ≡ length blocks.now * 8 →
            SumAll 8 places blocks.now →
            Sums result places }
    {
        let mut summary = Summary::empty();
        for block in blocks {
            summary = summary.join(block);
        }
        summary
    }

    /// The summary of the sections of both.
    pub fn join(self, other: &Self) -> Self
        requires { self.count + other.now.count < 2 ^ 64 }
        ensures { result ≡ joined self other.now }
    {
        Summary {
            width: self.width.max(other.width),
            height: self.height.max(other.height),
            depth: self.depth.max(other.depth),
            middle: self.middle.max(other.middle),
            volume: self.volume.max(other.volume),
            count: self.count + other.count,
        }
    }

    /// Whether a section within the summary may hold this size.
    #[inline(always)]
    pub fn may_hold(&self, size: &WidthHeightDepth) -> bool
        ensures { OnFalse result (RulesOut self.now size.now) }
    {
        // What the size has beyond the summary. One branch for all of it, as any one alone often
        // decides.
        let sides = size.width().saturating_sub(self.width)
            | size.height().saturating_sub(self.height)
            | size.depth().saturating_sub(self.depth)
            | middle_side(size).saturating_sub(self.middle);
        let volume = bounded_volume(size).saturating_sub(self.volume);
        u64::from(sides) | volume == 0
    }
}

// Where a stretch of `width` places ends at `end`, and its summary shows that no section in it holds
// the size: how many sections stand in it.
#[inline(always)]
pub(crate) fn count_if_too_small(
    summaries: &[Summary],
    width: usize,
    end: usize,
    size: &WidthHeightDepth,
) -> Option<usize>
    requires wide { 0 < width }
    requires some { 0 < end }
    requires summed { end < length summaries.now * width + width }
    ensures within { IfSome result (λ _. width ≤ end) }
    ensures none { (places : List (Option Cuboid)) →
        SumAll width places summaries.now →
        IfSome result
        (λ count. NoneHolds (take width (drop (end - width) places)) size.now count) }
{
    let stretches = end / width;
    if stretches * width != end {
        return None;
    }
    let summary = &summaries[stretches - 1];
    if summary.may_hold(size) {
        None
    } else {
        Some(summary.count)
    }
}

// The summaries of all whole blocks, with room for `most` in all. Fails only when memory is refused.
pub(crate) fn sum_blocks<A: Allocator>(
    alloc: A,
    sections: &[BinSection],
    gaps: &[u8],
    most: usize,
) -> Result<Vec<Summary, A>, AllocError>
    requires long { length sections.now ≤ length gaps.now * 8 }
    requires room { length sections.now / 8 ≤ most }
    ensures sums { IfOk result
        (λ blocks. SumAll 8 (places_of sections.now (flags_of gaps.now)) blocks.items) }
    ensures room { IfOk result (λ blocks. most ≤ vec_capacity blocks) }
{
    let mut blocks = Vec::with_capacity(alloc, most)?;
    for block in 0..sections.len() / BLOCK {
        let first = block * BLOCK;
        let end = first + BLOCK;
        blocks.push_reserved(Summary::of(&sections[first..end], gaps[block]));
    }
    Ok(blocks)
}

// The summaries of all whole rows, with room for `most` in all. Fails only when memory is refused.
pub(crate) fn sum_rows<A: Allocator>(
    alloc: A,
    blocks: &[Summary],
    most: usize,
) -> Result<Vec<Summary, A>, AllocError>
    requires summed { HavePlaces blocks.now }
    requires room { length blocks.now / 8 ≤ most }
    ensures sums { (places : List (Option Cuboid)) →
        SumAll 8 places blocks.now →
        IfOk result (λ rows. SumAll 64 places rows.items) }
    ensures room { IfOk result (λ rows. most ≤ vec_capacity rows) }
{
    let mut rows = Vec::with_capacity(alloc, most)?;
    for row in 0..blocks.len() / ROW_BLOCKS {
        let first = row * ROW_BLOCKS;
        rows.push_reserved(Summary::of_blocks(&blocks[first..first + ROW_BLOCKS]));
    }
    Ok(rows)
}

// Sums the block that the last place completes, if it does.
pub(crate) fn sum_last_block<A: Allocator>(
    blocks: &mut Vec<Summary, A>,
    sections: &[BinSection],
    gaps: &[u8],
)
    requires long { length sections.now ≤ length gaps.now * 8 }
    requires whole { length blocks.old.items * 8 < length sections.now }
    requires rest { length sections.now ≤ length blocks.old.items * 8 + 8 }
    requires room { length sections.now < vec_capacity blocks.old * 8 + 8 }
    ensures sums { (before : List (Option Cuboid)) (place : Option Cuboid) →
        places_of sections.now (flags_of gaps.now) ≡ before ++ place ∷ [] →
        SumAll 8 before blocks.old.items →
        SumAll 8 (places_of sections.now (flags_of gaps.now)) blocks.new.items }
    ensures capacity { vec_capacity blocks.new ≡ vec_capacity blocks.old }
{
    let block = blocks.len();
    let summed = block * BLOCK;
    if sections.len() - summed == BLOCK {
        blocks.push_reserved(Summary::of(&sections[summed..], gaps[block]));
    }
}

// Sums the row that the last block completes, if it does.
pub(crate) fn sum_last_row<A: Allocator>(rows: &mut Vec<Summary, A>, blocks: &[Summary])
    requires whole { length rows.old.items * 8 ≤ length blocks.now }
    requires rest { length blocks.now ≤ length rows.old.items * 8 + 8 }
    requires room { length blocks.now < vec_capacity rows.old * 8 + 8 }
    requires summed { HavePlaces blocks.now }
    ensures sums { (before : List (Option Cuboid)) (place : Option Cuboid) →
        SumAll 8 (before ++ place ∷ []) blocks.now →
        SumAll 64 before rows.old.items →
        SumAll 64 (before ++ place ∷ []) rows.new.items }
    ensures capacity { vec_capacity rows.new ≡ vec_capacity rows.old }
{
    let summed = rows.len() * ROW_BLOCKS;
    if blocks.len() - summed == ROW_BLOCKS {
        rows.push_reserved(Summary::of_blocks(&blocks[summed..]));
    }
}

// Sums the block of this place anew, if it is whole.
pub(crate) fn sum_block_anew<A: Allocator>(
    blocks: &mut Vec<Summary, A>,
    sections: &[BinSection],
    gaps: &[u8],
    place: usize,
)
    requires long { length sections.now ≤ length gaps.now * 8 }
    requires whole { length blocks.old.items * 8 ≤ length sections.now }
    ensures sums { (before : List (Option Cuboid)) (content : Option Cuboid) →
        places_of sections.now (flags_of gaps.now) ≡ set before place content →
        SumAll 8 before blocks.old.items →
        SumAll 8 (places_of sections.now (flags_of gaps.now)) blocks.new.items }
    ensures capacity { vec_capacity blocks.new ≡ vec_capacity blocks.old }
{
    let block = place / BLOCK;
    if block < blocks.len() {
        let first = block * BLOCK;
        let end = first + BLOCK;
        blocks[block] = Summary::of(&sections[first..end], gaps[block]);
    }
}

// Sums the row of this place anew, if it is whole.
pub(crate) fn sum_row_anew<A: Allocator>(
    rows: &mut Vec<Summary, A>,
    blocks: &[Summary],
    place: usize,
)
    requires whole { length rows.old.items * 8 ≤ length blocks.now }
    requires summed { HavePlaces blocks.now }
    ensures sums { (before : List (Option Cuboid)) (content : Option Cuboid) →
        SumAll 8 (set before place content) blocks.now →
        SumAll 64 before rows.old.items →
        SumAll 64 (set before place content) rows.new.items }
    ensures capacity { vec_capacity rows.new ≡ vec_capacity rows.old }
{
    let row = place / ROW;
    if row < rows.len() {
        let first = row * ROW_BLOCKS;
        rows[row] = Summary::of_blocks(&blocks[first..first + ROW_BLOCKS]);
    }
}
