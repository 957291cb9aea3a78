//! One box where it fits best.
ghost use Rattle.std.specs.Prelude.{ℕ, ◌≡◌, ◌+◌, ◌<◌, ◌≤◌, ◌∷◌, Some, length, All, IfOk, IfNone, IfSome, OnErr};
ghost use Rattle.rectangle_pack_sections.specs.Boxes.{Cell, Holds};
ghost use Rattle.rectangle_pack_sections.specs.Closures.{AreCallable, answers};
ghost use Rattle.rectangle_pack_sections.specs.Counting.{times_filled};
ghost use Rattle.rectangle_pack_bins.specs.BestFit.{IsPlacedBest};
ghost use Rattle.rectangle_pack_bins.specs.private.Indices.{IsBestFitAt};

use crate::target_bin::TargetBin;
use rectangle_pack_lists::free_list::plain::place_at;
use rectangle_pack_sections::bin_section::holds;
use rectangle_pack_sections::closures::{Closures, Policy};
use rectangle_pack_sections::least_side::least_rest;
use rectangle_pack_sections::packed_location::PackedLocation;
use rectangle_pack_sections::rect_to_insert::RectToInsert;
use rectangle_pack_sections::width_height_depth::WidthHeightDepth;
use std::alloc::{AllocError, Allocator};
use std::cmp::Ordering;

impl<A: Allocator + Copy> TargetBin<A> {
    /// Places a box into the free section that it fits best, and answers its location; `None` where
    /// no section holds it. `None` and an error leave the bin as it was.
    ///
    /// It fits that section best of which it leaves the least on the tightest side; of several such
    /// the newest. An axis on which the bin has one cell does not count. The section goes out of
    /// the list, and what an allowed cut leaves of it stands at the end, as with `place_all`.
    ///
    /// The caller sees to it that both closures may be called on every size. Fails only when memory
    /// is refused, where the list has no room for two more.
    ///
    /// ```
    /// let mut bin = TargetBin::new(alloc, 20, 10, 1)?;
    /// bin.remove_filled_section(0);
    /// let narrow = BinSection::new(0, 0, 0, WidthHeightDepth::new(6, 10, 1));
    /// let wide = BinSection::new(6, 0, 0, WidthHeightDepth::new(14, 10, 1));
    /// bin.push_available_bin_section(narrow)?;
    /// bin.push_available_bin_section(wide)?;
    /// let size = RectToInsert::new(6, 4, 1);
    /// let placed = bin.place_best(size, &volume_heuristic, &contains_smallest_box)?;
    /// let location = placed.ok_or("no room")?;
    /// assert_eq!(rt; (location.x(), location.y(), location.z()), (0, 0, 0));
    /// let above = BinSection::new(0, 4, 0, WidthHeightDepth::new(6, 6, 1));
    /// assert_eq!(rt;
    ///     bin.available_bin_sections().as_slice(),
    ///     [wide, above].as_slice()
    /// );
    /// ```
    pub fn place_best<H, C>(
        &mut self,
        size: RectToInsert,
        heuristic: &H,
        comparison: &C,
    ) -> Result<Option<PackedLocation>, AllocError>
    where
        H: Fn(WidthHeightDepth) -> u128,
        C: Fn([WidthHeightDepth; 3], [WidthHeightDepth; 3], &H) -> Ordering,
        requires callable { AreCallable H.Fn C.Fn heuristic.now comparison.now }
        // A location: the box stands at the corner of a free section that holds it. Each newer
        //   section that holds it would leave more on the tightest side, and each older one at
        //   least as much. [best_section.first_section_that_holds_is_taken,
        //   best_section.ties_go_to_the_oldest]
        // A location: an axis on which the bin has at most one cell does not count there.
        //   [side_that_counts.depth_counts_in_a_flat_bin]
        // A location: the section is taken out of the list. The pieces of an allowed cut stand at
        //   the end, as `answer` of `place_all` says it. All else in the bin stays.
        // `None`: no free section holds the box. The bin is as it was.
        ensures placed { IfOk result (λ placed.
            IsPlacedBest (answers H.Fn C.Fn heuristic.now comparison.now)
            self.old.bin size placed self.new.bin) }
        // A location: the box and the new free sections fill each cell as often as the old ones.
        ensures filled { IfOk result (λ placed. IfSome placed (λ location. (c : Cell) →
            times_filled c (location ∷ self.new.bin.sections) ≡
            times_filled c self.old.bin.sections)) }
        // An error leaves the bin as it was.
        ensures err { OnErr result (self.new.bin ≡ self.old.bin) }
        // An error is answered only where the list has no room for two sections more.
        ensures full { OnErr result (self.old.room < length self.old.bin.sections + 2) }
    {
        let Some((index, _)) = best_section(self, &size) else {
            return Ok(None);
        };
        let policy = Closures {
            heuristic,
            comparison,
        };
        Ok(Some(cut_best(self, index, &size, &policy)?))
    }
}

/// The index of the free section that the box fits best, and what the box leaves of it on its
/// tightest side. Takes no memory.
pub fn best_section<A>(bin: &TargetBin<A>, size: &RectToInsert) -> Option<(usize, u32)>
where
    A: Allocator + Copy,
    ensures none { IfNone result (All (λ s. ¬ Holds s size.now) bin.now.bin.sections) }
    ensures some { IfSome result
        (λ found.
        IsBestFitAt bin.now.bin.size bin.now.bin.sections size.now found.0 found.1) }
{
    // Copies, which are not read again for each section.
    let (size, bounds) = (*size, bin.max_size);
    let whd = WidthHeightDepth::from(size);
    let sections = bin.available_bin_sections.as_slice();
    let mut best = None;
    for i in (0..sections.len()).rev() {
        let section = sections[i];
        if !holds(&section, &size) {
            continue;
        }
        let rest = least_rest(&bounds, &section, &whd);
        if rest == 0 {
            return Some((i, 0));
        }
        best = closer(best, i, rest);
    }
    best
}

// The section found so far, or the one at this index, where the box leaves less of it.
fn closer(best: Option<(usize, u32)>, index: usize, rest: u32) -> Option<(usize, u32)>
    ensures kept { IfSome best (λ found. found.1 ≤ rest → result ≡ best) }
    ensures taken { IfSome best (λ found. rest < found.1) → result ≡ Some (index, rest) }
{
    match best {
        Some((_, least)) if least <= rest => best,
        _ => Some((index, rest)),
    }
}

/// Takes the free section at the index, the one that the box fits best, out of the list, and puts
/// what an allowed cut leaves of it at the end. Fails only when memory is refused, where the list
/// has no room for two more, and leaves the bin as it was.
pub fn cut_best<A, R>(
    bin: &mut TargetBin<A>,
    index: usize,
    size: &RectToInsert,
    policy: &R,
) -> Result<PackedLocation, AllocError>
where
    A: Allocator + Copy,
    R: Policy,
    requires callable { R.is_callable policy.now }
    requires best { (rest : ℕ) ×
        IsBestFitAt bin.old.bin.size bin.old.bin.sections size.now index rest }
    ensures ok { IfOk result (λ location.
        IsPlacedBest (R.may policy.now) bin.old.bin size.now (Some location) bin.new.bin) }
    ensures err { OnErr result (bin.new.bin ≡ bin.old.bin) }
    ensures full { OnErr result (bin.old.room < length bin.old.bin.sections + 2) }
{
    let sections = &mut bin.available_bin_sections;
    sections.reserve(2)?;
    let section = sections.remove(index);
    let last = sections.len();
    sections.push_reserved(section);
    let (location, _) = place_at(sections, last, size, policy);
    Ok(location)
}
