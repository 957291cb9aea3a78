//! The bins of a packing. A bin stays in its map until it holds the first member of a group that is
//! tried in it. From then on it is out of the map: with many bins and groups, looking each up by its
//! id for each group would take most of the time.
ghost use Rattle.std.specs.Prelude.{ℕ, None, ◌≡◌, ◌≢◌, ◌-◌, ◌<◌, ◌≤◌, [], length, false, IfSome, IsSome, OnOk, OnErr, MatchBool, All, map, take, drop, slice_index_or};
ghost use Rattle.std.specs.BTreeMap.{get};
ghost use Rattle.std.specs.List.{IsDistinct};
ghost use Rattle.std.specs.Ordering.{eq_by_cmp};
ghost use Rattle.rectangle_pack_sections.specs.Boxes.{FitsU32};
ghost use Rattle.rectangle_pack_sections.specs.Bins.{Bin, bins_of, IsSound};
ghost use Rattle.rectangle_pack_lists.specs.declared.free_list.End.{End};
ghost use Rattle.rectangle_pack_lists.specs.private.FreeLists.{IsTried, IsStuckAtOnce, now_of, start_of};
ghost use Rattle.rectangle_pack_lists.specs.private.Summaries.{Bounds};
ghost use Rattle.rectangle_pack_packing.specs.private.BinsAtWork.{left_of, left_at, IsBinAt, IsTriedIn, BinsHoldNone};

pub mod summary_tree;

use crate::bins_at_work::summary_tree::{Passed, SummaryTree};
use rectangle_pack_bins::target_bin::{TargetBin, put_sections, stand_in, take_sections};
use rectangle_pack_lists::free_list::{End, FreeList, Spare};
use rectangle_pack_lists::gap_list::summary::Summary;
use rectangle_pack_lists::trial::{Trial, stuck_at_once};
use rectangle_pack_sections::closures::Policy;
use rectangle_pack_sections::packed_location::PackedLocation;
use rectangle_pack_sections::rect_to_insert::RectToInsert;
use rectangle_pack_sections::width_height_depth::WidthHeightDepth;
use std::alloc::{AllocError, Allocator};
use std::collections::BTreeMap;
use std::marker::Model;
use std::mem;

// From how many bins on summaries of them are kept.
const MANY: usize = 16;

/// The bins of a packing. Some are out of the map; there a bin without sections stands for each
/// meanwhile.
#[derive(Drop)]
pub struct BinsAtWork<'b, B: Ord, A: Allocator + Copy> {
    bins: BTreeMap<B, TargetBin<A>, A>,
    order: &'b [(u128, B)],
    // For each index of the order, up to the last whose bin is out: that bin, where it is out.
    out: Vec<Option<BinAtWork<A>>, A>,
    summaries: SummaryTree<A>,
    // Room for notes, for the next trial that begins in a list without notes.
    spare: Spare<A>,
    // How many boxes the packing has.
    boxes: usize,
    alloc: A,
}

impl<'b, B: Ord, A: Allocator + Copy> Model for BinsAtWork<'b, B, A> {
    ghost use Rattle.rectangle_pack_sections.specs.Bins.{bins_of};
    ghost use Rattle.rectangle_pack_lists.specs.declared.free_list.End.TheVariants.{Keep};
    ghost use Rattle.rectangle_pack_packing.specs.private.BinsAtWork.{BinsInUse, in_use, checked_in, AreSummed, CanCheckIn};

    ghost Value = { BinsInUse B };

    ghost view = { λ b. in_use B.cmp b.order.now b.out.items (bins_of b.bins.entries) };

    ghost invariant = { λ b. CanCheckIn B.cmp b.order.now b.out.items (bins_of b.bins.entries) ×
        AreSummed B.cmp b.order.now
        (checked_in B.cmp Keep b.order.now b.out.items (bins_of b.bins.entries)) b.summaries };
}

impl<'b, B: Ord, A: Allocator + Copy> BinsAtWork<'b, B, A> {
    /// All bins in their map. Takes no memory.
    pub fn new(bins: BTreeMap<B, TargetBin<A>, A>, order: &'b [(u128, B)], alloc: A) -> Self
        requires found { All (λ o. IsSome (get B.cmp bins o.1)) order.now }
        requires distinct { IsDistinct (eq_by_cmp B.cmp) (map (λ o. o.1) order.now) }
        ensures now { result.now ≡ bins_of bins.entries }
        ensures start { result.start ≡ bins_of bins.entries }
        ensures order { result.order ≡ order.now }
    {
        BinsAtWork {
            bins,
            order,
            out: Vec::new(alloc),
            summaries: SummaryTree::new(alloc),
            spare: Spare::new(alloc),
            boxes: 0,
            alloc,
        }
    }

    /// The ids of the bins in the order in which they are tried, each with its rate.
    pub fn order(&self) -> &'b [(u128, B)]
        ensures { result.now ≡ self.now.order }
    {
        self.order
    }

    /// Makes ready for a packing of `groups` groups and `boxes` boxes. Summaries of many bins are of
    /// use to the groups after the first. Fails only when memory is refused.
    pub fn make_ready(&mut self, groups: usize, boxes: usize) -> Result<(), AllocError>
        ensures { self.new ≡ self.old }
    {
        self.boxes = boxes;
        if groups > 1 && self.order.len() >= MANY {
            self.summaries.make_room(self.order.len())?;
        }
        Ok(())
    }

    /// Makes ready for a packing of `boxes` boxes that passes over no bins. Takes no memory.
    pub fn set_boxes(&mut self, boxes: usize)
        ensures { self.new ≡ self.old }
    {
        self.boxes = boxes;
    }

    /// Passes over bins from this index on, as long as it is known that none of their free sections
    /// holds the box. Nothing changes.
    pub fn pass_over(&self, from: usize, first: &RectToInsert) -> Passed
        ensures from { from ≤ result.index }
        ensures none { BinsHoldNone B.cmp self.now.now first.now
            (map (λ o. o.1) (take (result.index - from) (drop from self.now.order)))
            result.tests }
    {
        self.summaries.next(from, &WidthHeightDepth::from(*first))
    }

    /// One trial in the bin at this index. A bin that holds the first member is out of its map from
    /// then on. Fails only when memory is refused, and leaves the bins as they were.
    pub fn run_trial<R: Policy>(
        &mut self,
        index: usize,
        sizes: &[RectToInsert],
        policy: &R,
        locations: &mut Vec<PackedLocation, A>,
    ) -> Result<Trial, AllocError>
        requires callable { R.is_callable policy.now }
        requires in_order { index < length self.old.order }
        ensures tried { OnOk result ((o : ℕ × B) → o ≡ slice_index_or self.old.order index o →
            (before after : Bin) ×
            IsTriedIn B.cmp o.1 self.old.now before after self.new.now ×
            IsTried (R.may policy.now) before.sections sizes.now result
            locations.new.items after.sections) }
        ensures err { OnErr result (self.new.now ≡ self.old.now) }
        ensures start { self.new.start ≡ self.old.start }
        ensures order { self.new.order ≡ self.old.order }
    {
        if let Some(trial) = self.look(index, sizes) {
            return Ok(trial);
        }
        self.check_out(index)?;
        let bin = self.out[index].as_mut().unwrap();
        let list = &mut bin.lent.list;
        let trial = list.run_trial_in(&mut self.spare, sizes, policy, locations)?;
        sum_anew(&mut self.summaries, index, list, trial.is_done);
        Ok(trial)
    }

    // Whether the bin at this index is out of its map.
    fn is_out(&self, index: usize) -> bool
        ensures { MatchBool result (IsSome (slice_index_or self.now.out index None))
            (slice_index_or self.now.out index None ≡ None) }
    {
        index < self.out.len() && self.out[index].is_some()
    }

    // The trial in the bin at this index, where that is in its map and the trial is stuck at its
    // first member. The bin is summed, where it was not. Takes no memory.
    fn look(&mut self, index: usize, sizes: &[RectToInsert]) -> Option<Trial>
        requires { index < length self.old.order }
        ensures same { self.new ≡ self.old }
        ensures stuck { IfSome result
            (λ trial.
            (trial.is_done ≡ false) ×
            (bin : Bin) ×
            IsBinAt B.cmp self.old.order self.old.now index bin ×
            IsStuckAtOnce bin.sections sizes.now trial.tests) }
    {
        if self.is_out(index) {
            return None;
        }
        let order = self.order;
        let (_, id) = &order[index];
        let bin = self.bins.get(id).unwrap();
        let sections = bin.available_bin_sections().as_slice();
        let trial = stuck_at_once(sections, sizes)?;
        if self.summaries.lacks(index) {
            self.summaries.put(index, Summary::of_few(sections));
        }
        Some(trial)
    }

    // Checks the bin at this index out, where it is in its map. Fails only when memory is refused.
    fn check_out(&mut self, index: usize) -> Result<(), AllocError>
        requires { index < length self.old.order }
        ensures left { (end : End) → left_of end self.new ≡ left_of end self.old }
        ensures order { self.new.order ≡ self.old.order }
        ensures out { OnOk result (IsSome (slice_index_or self.new.out index None)) }
    {
        while self.out.len() <= index {
            self.out.push(None)?;
        }
        if self.out[index].is_some() {
            return Ok(());
        }
        let place = BinAtWork::place(self.alloc)?;
        let order = self.order;
        let (_, id) = &order[index];
        let bin = self.bins.get_mut(id).unwrap();
        let bin = mem::replace(bin, stand_in(self.alloc));
        self.out[index] = Some(place.with(bin, self.boxes));
        Ok(())
    }

    /// The bins at the end, all in their map. Asks for no memory, only that long lists be made
    /// smaller.
    pub fn end(self, end: End) -> BTreeMap<B, TargetBin<A>, A>
        ensures { bins_of result.entries ≡ left_of end self.entry }
    {
        let BinsAtWork {
            mut bins,
            order,
            mut out,
            ..
        } = self;
        while let Some(held) = out.pop() {
            if let Some(bin) = held {
                let (_, id) = &order[out.len()];
                *bins.get_mut(id).unwrap() = bin.end(end);
            }
        }
        bins
    }
}

// Writes the summary of the bin at this index, which has this list, where there is room for it, and
// either the list has changed or none is known.
fn sum_anew<A: Allocator + Copy>(
    summaries: &mut SummaryTree<A>,
    index: usize,
    list: &FreeList<A>,
    is_changed: bool,
)
    ensures here { (is_changed ≡ false →
        IfSome (slice_index_or summaries.old index None) (λ s. Bounds s (now_of list.now))) →
        IfSome (slice_index_or summaries.new index None) (λ s. Bounds s (now_of list.now)) }
    ensures elsewhere { (i : ℕ) → i ≢ index →
        slice_index_or summaries.new i None ≡ slice_index_or summaries.old i None }
{
    if index < summaries.len() && (is_changed || summaries.lacks(index)) {
        summaries.put(index, list.summary());
    }
}

// A bin that is out of its map, and its free sections, which are out of it while the packing works
// on them.
#[derive(Drop)]
struct Lent<A: Allocator + Copy> {
    bin: TargetBin<A>,
    list: FreeList<A>,
}

// The bin as it is, in a packing of `boxes` boxes, with its sections out of it. Takes no memory.
fn lend<A: Allocator + Copy>(bin: TargetBin<A>, boxes: usize) -> Lent<A>
    ensures bin { result.bin.bin ≡ record bin.bin { sections = [] } }
    ensures now { now_of result.list ≡ bin.bin.sections }
    ensures start { start_of result.list ≡ bin.bin.sections }
    ensures sound { IsSound bin.bin.size bin.bin.sections }
    ensures fits { All FitsU32 bin.bin.sections }
{
    let mut bin = bin;
    let sections = take_sections(&mut bin);
    Lent {
        bin,
        list: FreeList::new(sections, boxes),
    }
}

// A bin that is out of its map. It stands on the heap, so that the list of those that are out stays
// small where few are.
#[derive(Drop)]
struct BinAtWork<A: Allocator + Copy> {
    lent: Box<Lent<A>, A>,
}

impl<A: Allocator + Copy> Model for BinAtWork<A> {
    ghost use Rattle.rectangle_pack_lists.specs.private.FreeLists.{now_of, start_of};
    ghost use Rattle.std.specs.Prelude.{All};
    ghost use Rattle.rectangle_pack_sections.specs.Bins.{IsSound};
    ghost use Rattle.rectangle_pack_sections.specs.Boxes.{FitsU32};
    ghost use Rattle.rectangle_pack_packing.specs.private.BinsAtWork.{AtWork};

    ghost Value = { AtWork };

    ghost view = { λ b.
        record {
          start = record b.lent.value.bin.bin { sections = start_of b.lent.value.list };
          now = record b.lent.value.bin.bin { sections = now_of b.lent.value.list };
        } };

    // The sections are sound, now and at the start.
    ghost invariant = { λ b. IsSound b.lent.value.bin.bin.size (start_of b.lent.value.list) ×
        IsSound b.lent.value.bin.bin.size (now_of b.lent.value.list) ×
        All FitsU32 (now_of b.lent.value.list) };
}

impl<A: Allocator + Copy> BinAtWork<A> {
    // A place for a bin, with one that stands in. Fails only when memory is refused.
    fn place(alloc: A) -> Result<Self, AllocError> {
        let lent = Box::new(alloc, lend(stand_in(alloc), 0))?;
        Ok(BinAtWork { lent })
    }

    // The bin as it is, at this place, in a packing of `boxes` boxes. Takes no memory.
    fn with(self, bin: TargetBin<A>, boxes: usize) -> Self
        ensures { result ≡ record { start = bin.bin; now = bin.bin } }
    {
        let BinAtWork { mut lent } = self;
        *lent = lend(bin, boxes);
        BinAtWork { lent }
    }

    // The bin at the end. Asks for no memory, only that a long list be made smaller.
    fn end(self, end: End) -> TargetBin<A>
        ensures { result.bin ≡ left_at end self }
    {
        let Lent { mut bin, list } = Box::into_inner(self.lent);
        put_sections(&mut bin, list.into_sections(end));
        bin
    }
}
