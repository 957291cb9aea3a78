//! A box where it fits best.
ghost use Rattle.std.specs.Prelude.{ℕ, ◌≡◌, ◌≤◌, ◌<◌, Some, All, IfOk, IfNone, IfSome, IsSome, OnErr, option_map};
ghost use Rattle.std.specs.Bool.{OnTrue, OnFalse};
ghost use Rattle.std.specs.BTreeMap.{get, is_at};
ghost use Rattle.std.specs.Map.{lookup, set_value};
ghost use Rattle.rectangle_pack_sections.specs.Boxes.{Holds};
ghost use Rattle.rectangle_pack_sections.specs.Bins.{Bin, bins_of};
ghost use Rattle.rectangle_pack_sections.specs.Clones.{ClonesEqual};
ghost use Rattle.rectangle_pack_sections.specs.Closures.{AreCallable, answers};
ghost use Rattle.rectangle_pack_bins.specs.BestFit.{IsPlacedBest};
ghost use Rattle.rectangle_pack_bins.specs.private.Indices.{IsBestFitAt};
ghost use Rattle.rectangle_pack.specs.PlacingBest.{PlacesBest, HasNoPlace, IsThere, IsUnknown};
ghost use Rattle.rectangle_pack.specs.private.BestPlaces.{IsBestPlace, IsBestSeen};
ghost use Rattle.rectangle_pack.specs.Session.{IsSession};

use crate::session::Session;
use crate::session::command::{Outstanding, SessionError};
use rectangle_pack_bins::target_bin::{TargetBin, best_section, cut_best};
use rectangle_pack_sections::closures::{Closures, Policy};
use rectangle_pack_sections::packed_location::PackedLocation;
use rectangle_pack_sections::rect_to_insert::RectToInsert;
use rectangle_pack_sections::width_height_depth::WidthHeightDepth;
use std::alloc::{AllocError, Allocator};
use std::cmp::Ordering;
use std::collections::BTreeMap;

impl<Id, BinId, A> Session<Id, BinId, A>
where
    Id: Ord + Clone + Drop,
    BinId: Ord + Clone + Drop,
    A: Allocator + Copy,
{
    /// Places a box into the free section that it fits best, and answers the number of the
    /// placement, by which it is released. `bin` names the bin; with `None` all bins are searched.
    ///
    /// It fits that section best of which it leaves the least on the tightest side: of several such
    /// in one bin the newest, of several such bins that of the least id. An axis on which a bin has
    /// one cell does not count there. The box is placed as `TargetBin::place_best` does it.
    ///
    /// The caller sees to it that clones of ids of bins equal their originals, and that both
    /// closures may be called on every size.
    ///
    /// `UnknownBin` says that the named bin is not there, `NumbersUsedUp` that the next number is
    /// the greatest `u64`, `NotEnoughBinSpace` that no free section of the named bin, or of any,
    /// holds the box, and `OutOfMemory` that a growth or a clone was refused. They are looked at in
    /// this order, and the session is then as it was.
    ///
    /// ```
    /// let mut session: Session<&'static str, &'static str> = Session::new(alloc, 0);
    /// session.add_bin("large", 20, 20, 1)?;
    /// session.add_bin("small", 10, 8, 1)?;
    /// let size = RectToInsert::new(9, 5, 1);
    /// session.place_best(
    ///     None,
    ///     "shelf",
    ///     size,
    ///     &volume_heuristic,
    ///     &contains_smallest_box,
    /// )?;
    /// assert_eq!(rt; session.outstanding()[0].bin, "small");
    /// ```
    pub fn place_best<H, C>(
        &mut self,
        bin: Option<&BinId>,
        id: Id,
        size: RectToInsert,
        heuristic: &H,
        comparison: &C,
    ) -> Result<u64, SessionError>
    where
        H: Fn(WidthHeightDepth) -> u128,
        C: Fn([WidthHeightDepth; 3], [WidthHeightDepth; 3], &H) -> Ordering,
        requires bin_ids { ClonesEqual BinId.is_clone BinId.eq }
        requires callable { AreCallable H.Fn C.Fn heuristic.now comparison.now }
        // Placed: the bin is the named one. Where none is named, the box leaves the least there on
        //   the tightest side: any section that holds it in a bin of a lesser id would leave more,
        //   and in a bin of a greater id at least as much. [best_of_all.last_bin_is_searched_alone]
        // Placed: in this bin the box is placed where it fits best, as `placed` of
        //   `TargetBin::place_best` says it. [best_section.first_section_that_holds_is_taken]
        // Placed: the answer is the next number. The placement follows the outstanding ones under
        //   it, with this id, a clone of the bin's id and the box's location, and the next number
        //   grows by 1. All else stays.
        // `UnknownBin`: the named bin is not there. The session is as it was.
        // `NumbersUsedUp`: this is not so, and the next number and 1 add up to more than the
        //   greatest `u64`. The session is as it was.
        // `NotEnoughBinSpace`: neither of these is so, and no free section of the named bin holds
        //   the box; where none is named, no free section of any bin. The session is as it was.
        // `OutOfMemory`: none of these is so. The session is as it was.
        // No other error is answered.
        ensures placed { let may = answers H.Fn C.Fn heuristic.now comparison.now in
            PlacesBest BinId.cmp may (option_map (λ b. b.now) bin.entry) id size
            self.old result self.new }
        // What always holds of a session holds afterwards.
        ensures always { IsSession BinId.cmp self.new }
    {
        if !is_there(&self.bins, bin) {
            return Err(SessionError::UnknownBin);
        }
        let number = self.next;
        let Some(next) = number.checked_add(1) else {
            return Err(SessionError::NumbersUsedUp);
        };
        let Some(best) = best_place(&self.bins, bin, &size) else {
            return Err(SessionError::NotEnoughBinSpace);
        };
        let (bin, index) = (best.bin.clone()?, best.index);
        self.outstanding.reserve(1)?;
        let policy = Closures {
            heuristic,
            comparison,
        };
        let location = cut_in(&mut self.bins, &bin, index, &size, &policy)?;
        self.outstanding.push_reserved(Outstanding {
            number,
            id,
            bin,
            location,
        });
        self.next = next;
        Ok(number)
    }
}

// Whether the bin is there, where one is named.
fn is_there<B: Ord, A: Allocator + Copy>(
    bins: &BTreeMap<B, TargetBin<A>, A>,
    named: Option<&B>,
) -> bool
    ensures yes { OnTrue result
        (IsThere B.cmp (option_map (λ b. b.now) named.entry) (bins_of bins.now.entries)) }
    ensures no { OnFalse result
        (IsUnknown B.cmp (option_map (λ b. b.now) named.entry) (bins_of bins.now.entries)) }
{
    match named {
        Some(name) => bins.contains_key(name),
        None => true,
    }
}

// Where a box fits best: a bin, the index of the section, and what is left of that on its tightest
// side.
#[derive(Clone, Copy)]
struct Best<'b, B> {
    bin: &'b B,
    index: usize,
    rest: u32,
}

// Where the box fits best, in the named bin or in all.
fn best_place<'b, B: Ord, A: Allocator + Copy>(
    bins: &'b BTreeMap<B, TargetBin<A>, A>,
    named: Option<&B>,
    size: &RectToInsert,
) -> Option<Best<'b, B>>
    requires { IsThere B.cmp (option_map (λ b. b.now) named) (bins_of bins.now.entries) }
    ensures none { IfNone result
        (HasNoPlace B.cmp (option_map (λ b. b.now) named.entry) size.now
        (bins_of bins.now.entries)) }
    ensures some { IfSome result
        (λ best.
        IsBestPlace B.cmp (option_map (λ b. b.now) named.entry) size.now
        (bins_of bins.now.entries) best.bin.now best.index) }
{
    match named {
        Some(name) => {
            let (bin, target) = bins.get_key_value(name)?;
            let (index, rest) = best_section(target, size)?;
            Some(Best { bin, index, rest })
        }
        None => best_of_all(bins, size),
    }
}

// Where the box fits best in all bins: the first of those in which it leaves the least.
fn best_of_all<'b, B: Ord, A: Allocator + Copy>(
    bins: &'b BTreeMap<B, TargetBin<A>, A>,
    size: &RectToInsert,
) -> Option<Best<'b, B>>
    ensures none { IfNone result
        (All (λ e. All (λ s. ¬ Holds s size.now) e.1.sections) (bins_of bins.now.entries)) }
    ensures some { IfSome result
        (λ best.
        IsBestSeen B.cmp size.now (bins_of bins.now.entries) (bins_of bins.now.entries)
        best.bin.now best.index best.rest) }
{
    let mut best = None;
    for (bin, target) in bins {
        let Some((index, rest)) = best_section(target, size) else {
            continue;
        };
        let here = Best { bin, index, rest };
        if rest == 0 {
            return Some(here);
        }
        best = Some(closer(best, here));
    }
    best
}

// The place found so far, or this one, where the box leaves less there.
fn closer<'b, B>(best: Option<Best<'b, B>>, here: Best<'b, B>) -> Best<'b, B>
    ensures kept { IfSome best.entry (λ b. b.rest ≤ here.entry.rest → result ≡ b) }
    ensures taken { IfSome best.entry (λ b. here.entry.rest < b.rest) → result ≡ here.entry }
{
    match best {
        Some(least) if least.rest <= here.rest => least,
        _ => here,
    }
}

// Cuts the free section at the index, in the bin of this id, for a box that fits it best.
fn cut_in<B: Ord + Drop, A: Allocator + Copy, R: Policy>(
    bins: &mut BTreeMap<B, TargetBin<A>, A>,
    id: &B,
    index: usize,
    size: &RectToInsert,
    policy: &R,
) -> Result<PackedLocation, AllocError>
    requires callable { R.is_callable policy.now }
    requires best { IsSome (get B.cmp bins.old id.now) ×
        IfSome (get B.cmp bins.old id.now)
        (λ held. (rest : ℕ) ×
        IsBestFitAt held.bin.size held.bin.sections size.now index rest) }
    ensures ok { IfOk result
        (λ location.
        (bin : Bin) ×
        (lookup (is_at (B.cmp id.now)) (bins_of bins.old.entries) ≡ Some bin) ×
        (after : Bin) ×
        IsPlacedBest (R.may policy.now) bin size.now (Some location) after ×
        (bins_of bins.new.entries ≡
        set_value (is_at (B.cmp id.now)) (bins_of bins.old.entries) after)) }
    ensures err { OnErr result (bins_of bins.new.entries ≡ bins_of bins.old.entries) }
{
    match bins.get_mut(id) {
        Some(bin) => cut_best(bin, index, size, policy),
        None => unreachable!(),
    }
}
