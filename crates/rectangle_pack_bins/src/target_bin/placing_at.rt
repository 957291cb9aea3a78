//! A box at a corner of the caller's choice.
ghost use Rattle.std.specs.Prelude.{◌≡◌, ◌+◌, ◌-◌, ◌≤◌, ◌<◌, ◌^◌, ◌↔◌, ◌++◌, ◌∷◌, IsTrue, true, length, All, IfOk, IfNone, IfSome, OnOk, OnErr};
ghost use Rattle.rectangle_pack_sections.specs.Boxes.{Cell, FitsU32, IsPartOf};
ghost use Rattle.rectangle_pack_sections.specs.Counting.{times_filled};
ghost use Rattle.rectangle_pack_bins.specs.PlacedAt.{IsPlacedAt, pieces_round};
ghost use Rattle.rectangle_pack_bins.specs.private.Indices.{IsFirstAroundAt};

use crate::target_bin::TargetBin;
use rectangle_pack_lists::free_list::plain::push_pieces;
use rectangle_pack_sections::bin_section::BinSection;
use rectangle_pack_sections::packed_location::{PackedLocation, section_at};
use rectangle_pack_sections::width_height_depth::any_size;
use std::alloc::{AllocError, Allocator};

impl<A: Allocator + Copy> TargetBin<A> {
    /// Places a box at this location, and answers whether a free section holds it there.
    ///
    /// The first free section that the box is a part of is taken out of the list, which closes up.
    /// Straight cuts leave up to six pieces of it: left of the box and right of it, below and above
    /// it over its width, in front of it and behind it over its width and height. Those with cells
    /// go to the end of the list, in this order. `false` leaves the bin as it was, and so does an
    /// error. Fails only when memory is refused, where the list has no room for five more.
    ///
    /// ```
    /// let mut bin = TargetBin::new(alloc, 10, 10, 1)?;
    /// let knot = PackedLocation::new(4, 3, 0, WidthHeightDepth::new(2, 2, 1));
    /// assert!(rt; bin.place_at(knot)?);
    /// let left = BinSection::new(0, 0, 0, WidthHeightDepth::new(4, 10, 1));
    /// let right = BinSection::new(6, 0, 0, WidthHeightDepth::new(4, 10, 1));
    /// let below = BinSection::new(4, 0, 0, WidthHeightDepth::new(2, 3, 1));
    /// let above = BinSection::new(4, 5, 0, WidthHeightDepth::new(2, 5, 1));
    /// assert_eq!(rt;
    ///     bin.available_bin_sections().as_slice(),
    ///     [left, right, below, above].as_slice()
    /// );
    /// ```
    pub fn place_at(&mut self, location: PackedLocation) -> Result<bool, AllocError>
        // `true`: the first free section that the box is a part of is taken out of the list. Its
        //   pieces left of the box, right of it, below, above, in front and behind stand at the end
        //   of the list, in this order; those without cells are left out. All else in the bin
        //   stays. [place_at.piece_behind_is_left_out]
        // `false`: the box is a part of no free section. The bin is as it was.
        //   [first_around.corner_alone_is_tested]
        ensures placed { IfOk result (λ is_placed.
            IsPlacedAt self.old.bin location is_placed self.new.bin) }
        // `true`: the box and the new free sections fill each cell as often as the old ones did. So
        //   the cells of the box were free, they no longer are, and no other cell changes.
        //   [place_at.piece_behind_is_left_out]
        ensures filled { IfOk result (λ is_placed. IsTrue is_placed → (c : Cell) →
            times_filled c (location ∷ self.new.bin.sections) ≡
            times_filled c self.old.bin.sections) }
        // An error leaves the bin as it was.
        ensures err { OnErr result (self.new.bin ≡ self.old.bin) }
        // An error is answered only where the list has no room for five sections more.
        ensures full { OnErr result (self.old.room < length self.old.bin.sections + 5) }
    {
        let Some(index) = first_around(self, &location) else {
            return Ok(false);
        };
        cut_round(self, index, &location)?;
        Ok(true)
    }
}

/// The index of the first free section that the box is a part of. Takes no memory.
pub fn first_around<A>(bin: &TargetBin<A>, location: &PackedLocation) -> Option<usize>
where
    A: Allocator + Copy,
    ensures none { IfNone result (All (λ s. ¬ IsPartOf location.now s) bin.now.bin.sections) }
    ensures some { IfSome result (IsFirstAroundAt bin.now.bin.sections location.now) }
{
    let section = section_at(location);
    let sections = bin.available_bin_sections.as_slice();
    for i in 0..sections.len() {
        if is_part(&section, &sections[i]) {
            return Some(i);
        }
    }
    None
}

/// Takes the free section at the index, the first that the box is a part of, out of the list, and
/// puts its pieces round the box that have cells at the end. Fails only when memory is refused,
/// where the list has no room for five more, and leaves the bin as it was.
pub fn cut_round<A>(
    bin: &mut TargetBin<A>,
    index: usize,
    location: &PackedLocation,
) -> Result<(), AllocError>
where
    A: Allocator + Copy,
    requires first { IsFirstAroundAt bin.old.bin.sections location.now index }
    ensures ok { OnOk result (IsPlacedAt bin.old.bin location.now true bin.new.bin) }
    ensures err { OnErr result (bin.new.bin ≡ bin.old.bin) }
    ensures full { OnErr result (bin.old.room < length bin.old.bin.sections + 5) }
{
    bin.available_bin_sections.reserve(5)?;
    let section = bin.available_bin_sections.remove(index);
    let (first, last) = pieces_round(&section, &section_at(location));
    push_pieces(&mut bin.available_bin_sections, first);
    push_pieces(&mut bin.available_bin_sections, last);
    Ok(())
}

// Whether the box is a part of the section.
fn is_part(part: &BinSection, section: &BinSection) -> bool
    ensures { IsTrue result ↔ IsPartOf part.now section.now }
{
    let (size, whole) = (part.whd(), section.whd());
    runs_within((part.x(), size.width()), (section.x(), whole.width()))
        && runs_within((part.y(), size.height()), (section.y(), whole.height()))
        && runs_within((part.z(), size.depth()), (section.z(), whole.depth()))
}

// Whether a span, a first place and how far it runs, starts no earlier than another and ends no
// later.
fn runs_within(span: (u32, u32), whole: (u32, u32)) -> bool
    ensures { IsTrue result ↔
        ((whole.0 ≤ span.0) × (span.0 + span.1 ≤ whole.0 + whole.1)) }
{
    whole.0 <= span.0
        && u64::from(span.0) + u64::from(span.1) <= u64::from(whole.0) + u64::from(whole.1)
}

// What is left of a span on both sides of a part of it.
#[derive(Clone, Copy)]
struct Sides {
    // How far it runs before the part.
    before: u32,
    // Where the part ends.
    end: u32,
    // How far it runs behind the part.
    behind: u32,
}

// What is left of a span, a first place and how far it runs, on both sides of a part of it.
fn sides_of(span: (u32, u32), whole: (u32, u32)) -> Sides
    requires fits { whole.0 + whole.1 < 2 ^ 32 }
    requires starts { whole.0 ≤ span.0 }
    requires ends { span.0 + span.1 ≤ whole.0 + whole.1 }
    ensures before { result.before ≡ span.0 - whole.0 }
    ensures end { result.end ≡ span.0 + span.1 }
    ensures behind { result.behind ≡ (whole.0 + whole.1) - (span.0 + span.1) }
{
    let end = span.0 + span.1;
    Sides {
        before: span.0 - whole.0,
        end,
        behind: whole.0 + whole.1 - end,
    }
}

// The pieces of the section left of the box, right of it and below, and those above, in front and
// behind.
fn pieces_round(section: &BinSection, part: &BinSection) -> ([BinSection; 3], [BinSection; 3])
    requires fits { FitsU32 section.now }
    requires part { IsPartOf part.now section.now }
    ensures pieces { result.0 ++ result.1 ≡ pieces_round section.now part.now }
    ensures three { length result.0 ≡ 3 }
{
    let (x, y, z) = (section.x(), section.y(), section.z());
    let (width, height, depth) = lengths(section);
    let (left, bottom, front) = (part.x(), part.y(), part.z());
    let (wide, high, deep) = lengths(part);
    let across = sides_of((left, wide), (x, width));
    let up = sides_of((bottom, high), (y, height));
    let back = sides_of((front, deep), (z, depth));
    let first = [
        BinSection::new(x, y, z, any_size(across.before, height, depth)),
        BinSection::new(across.end, y, z, any_size(across.behind, height, depth)),
        BinSection::new(left, y, z, any_size(wide, up.before, depth)),
    ];
    let last = [
        BinSection::new(left, up.end, z, any_size(wide, up.behind, depth)),
        BinSection::new(left, bottom, z, any_size(wide, high, back.before)),
        BinSection::new(left, bottom, back.end, any_size(wide, high, back.behind)),
    ];
    (first, last)
}

// The width, the height and the depth of a section.
fn lengths(section: &BinSection) -> (u32, u32, u32)
    ensures { (result.0 ≡ section.now.whd.width) ×
        (result.1 ≡ section.now.whd.height) ×
        (result.2 ≡ section.now.whd.depth) }
{
    let whd = section.whd();
    (whd.width(), whd.height(), whd.depth())
}
