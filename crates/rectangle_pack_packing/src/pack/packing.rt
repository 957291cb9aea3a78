//! One packing: group after group into the first bin that takes it. It is kept or undone at its end.
ghost use Rattle.std.specs.Prelude.{◌≡◌, ◌≤◌, ◌-◌, [], true, length, IfOk, IsSome, All, map, take, drop};
ghost use Rattle.std.specs.BTreeMap.{get};
ghost use Rattle.std.specs.List.{IsDistinct};
ghost use Rattle.std.specs.Map.{keys_of};
ghost use Rattle.std.specs.Ordering.{eq_by_cmp};
ghost use Rattle.rectangle_pack_sections.specs.Bins.{bins_of};
ghost use Rattle.rectangle_pack_sections.specs.Clones.{ClonesEqual};
ghost use Rattle.rectangle_pack_packing.specs.Fitting.{names_left};
ghost use Rattle.rectangle_pack_packing.specs.Orders.{IsBinOrder};
ghost use Rattle.rectangle_pack_packing.specs.Packing.{rules_by, excludes_by};
ghost use Rattle.rectangle_pack_packing.specs.declared.pack.packing.OnRefusal.TheVariants.{Stop, Leave};
ghost use Rattle.rectangle_pack_packing.specs.private.BinsAtWork.{left_of};
ghost use Rattle.rectangle_pack_packing.specs.private.Excluded.{are_in};
ghost use Rattle.rectangle_pack_packing.specs.private.OnItsWay.{IsBegun, IsSamePacking, IsGroupTried, AreGroupsTried, AreAllTried};
ghost use Rattle.rectangle_pack_packing.specs.private.Orders.{members_of, HasSizes};
ghost use Rattle.rectangle_pack_packing.specs.private.PassedOver.{ArePassedOver};

use crate::answer::{Placement, name_all};
use crate::bins_at_work::BinsAtWork;
use crate::bins_at_work::summary_tree::Passed;
use crate::homes::{ExcludedBins, Homes};
use crate::order::{OrderedGroup, group_order};
use rectangle_pack_bins::target_bin::TargetBin;
use rectangle_pack_groups::grouped_rects_to_place::exclusions::Exclusions;
use rectangle_pack_groups::grouped_rects_to_place::{GroupedRectsToPlace, exclusions_of};
use rectangle_pack_lists::free_list::End;
use rectangle_pack_lists::trial::{FitTests, add};
use rectangle_pack_sections::closures::Policy;
use rectangle_pack_sections::group::Group;
use rectangle_pack_sections::packed_location::PackedLocation;
use rectangle_pack_sections::rect_to_insert::RectToInsert;
use std::alloc::{AllocError, Allocator};
use std::collections::BTreeMap;
use std::marker::Model;

/// What becomes of a packing where no bin takes a group: it stops, or the group is left.
#[derive(Clone, Copy)]
pub enum OnRefusal {
    Stop,
    Leave,
}

/// A packing on its way: its bins, the policy it goes by, what it placed so far, and how many fit
/// tests it made.
#[derive(Drop)]
pub struct Packing<'p, 'b, Id: Ord + Clone, B: Ord + Clone, R: Policy, A: Allocator + Copy> {
    bins: BinsAtWork<'b, B, A>,
    policy: &'p R,
    placements: Vec<Placement<Id, B>, A>,
    tests: FitTests,
    // What one trial after another writes.
    locations: Vec<PackedLocation, A>,
}

// Clones of ids equal their originals, and the policy may be asked.
impl<'p, 'b, Id: Ord + Clone, B: Ord + Clone, R: Policy, A: Allocator + Copy> Model
    for Packing<'p, 'b, Id, B, R, A> {
    ghost use Rattle.rectangle_pack_sections.specs.Clones.{ClonesEqual};
    ghost use Rattle.rectangle_pack_packing.specs.private.OnItsWay.{OnItsWay, MayGoOn};

    ghost Value = { OnItsWay Id B R };

    ghost view = { λ p. record {
      bins = p.bins;
      policy = p.policy.now;
      placements = p.placements.items;
      tests = p.tests;
    } };

    ghost invariant = { λ p. MayGoOn (ClonesEqual Id.is_clone Id.eq) (ClonesEqual B.is_clone B.eq)
        (R.is_callable p.policy.now) };
}

impl<'p, 'b, Id, B, R, A> Packing<'p, 'b, Id, B, R, A>
where
    Id: Ord + Clone + Drop,
    B: Ord + Clone + Drop,
    R: Policy,
    A: Allocator + Copy,
{
    /// A packing of these bins, before its first group. Takes no memory.
    pub fn new(
        bins: BTreeMap<B, TargetBin<A>, A>,
        order: &'b [(u128, B)],
        policy: &'p R,
        alloc: A,
    ) -> Self
        requires ids { ClonesEqual Id.is_clone Id.eq }
        requires bin_ids { ClonesEqual B.is_clone B.eq }
        requires callable { R.is_callable policy.now }
        requires found { All (λ o. IsSome (get B.cmp bins o.1)) order.now }
        requires distinct { IsDistinct (eq_by_cmp B.cmp) (map (λ o. o.1) order.now) }
        ensures now { result.bins.now ≡ bins_of bins.entries }
        ensures start { result.bins.start ≡ bins_of bins.entries }
        ensures order { result.bins.order ≡ order.now }
        ensures policy { result.policy ≡ policy.now }
        ensures begun { IsBegun result }
    {
        Packing {
            bins: BinsAtWork::new(bins, order, alloc),
            policy,
            placements: Vec::new(alloc),
            tests: FitTests::new(),
            locations: Vec::new(alloc),
        }
    }

    /// The number of fit tests so far.
    pub fn count(&self) -> u128
        ensures { result ≡ self.now.tests }
    {
        self.tests.count()
    }

    /// What it placed so far.
    pub fn placements(&self) -> &[Placement<Id, B>]
        ensures { result.now ≡ self.now.placements }
    {
        self.placements.as_slice()
    }

    /// The bins at the end, and what the packing placed. Asks for no memory, only that long lists
    /// be made smaller.
    pub fn end(self, end: End) -> (BTreeMap<B, TargetBin<A>, A>, Vec<Placement<Id, B>, A>)
        ensures bins { bins_of result.0.entries ≡ left_of end self.entry.bins }
        ensures placements { result.1.items ≡ self.entry.placements }
    {
        let Packing {
            bins,
            placements,
            ..
        } = self;
        (bins.end(end), placements)
    }

    /// Packs all groups, in which there are `entries` entries. A group that no bin takes ends the
    /// packing, or it is put among those that are `left`; whether the packing came to its end. An
    /// error says that memory was refused. However it ends, what it did can be kept or undone.
    pub fn place_all<'a, GroupId: Ord + Clone + Drop>(
        &mut self,
        rects_to_place: &'a GroupedRectsToPlace<Id, GroupId, A>,
        entries: usize,
        on_refusal: OnRefusal,
        left: &mut Vec<&'a Group<GroupId, Id>, A>,
    ) -> Result<bool, AllocError>
        requires order { IsBinOrder (R.may self.old.policy).rate B.cmp self.old.bins.now
            self.old.bins.order }
        requires distinct { IsDistinct (eq_by_cmp B.cmp) (keys_of self.old.bins.now) }
        requires begun { IsBegun self.old }
        requires none_left { left.old.items ≡ [] }
        ensures packed { AreAllTried (rules_by Id.cmp B.cmp (R.may self.old.policy))
            ⟦<Group<GroupId, Id> as Ord>⟧.cmp rects_to_place.now self.old.bins.now on_refusal
            (names_left left.new) result self.new }
        ensures start { self.new.bins.start ≡ self.old.bins.start }
    {
        let rects = rects_to_place.rects();
        let lists = rects_to_place.groups();
        let alloc = *self.locations.allocator();
        let mut sizes = Vec::with_capacity(alloc, entries)?;
        let groups = group_order(alloc, rects, lists, self.policy, &mut sizes)?;
        self.placements.reserve(entries)?;
        let exclusions = exclusions_of(rects_to_place);
        self.place_groups(
            groups.as_slice(),
            sizes.as_slice(),
            exclusions,
            on_refusal,
            left,
        )
    }

    // Places each group of an order in turn, up to the first that no bin takes, or but for those
    // that no bin takes, which are put among those that are `left`; whether it came to the end of the
    // order. An error says that memory was refused.
    fn place_groups<'a, K: Ord>(
        &mut self,
        groups: &[OrderedGroup<'a, K, Id, A>],
        sizes: &[RectToInsert],
        exclusions: &'a Exclusions<K, A>,
        on_refusal: OnRefusal,
        left: &mut Vec<&'a K, A>,
    ) -> Result<bool, AllocError>
        requires in_range { All (HasSizes sizes.now) groups.now }
        requires distinct { IsDistinct (eq_by_cmp K.cmp) (map (λ o. o.name.now) groups.now) }
        requires begun { IsBegun self.old }
        requires none_left { left.old.items ≡ [] }
        ensures packed { AreGroupsTried (rules_by Id.cmp B.cmp (R.may self.old.policy))
            (excludes_by K.cmp B.cmp exclusions.now) (map (members_of sizes.now) groups.now)
            self.old (names_left left.new) result self.new }
        ensures stops { on_refusal ≡ Stop → left.new.items ≡ [] }
        ensures leaves { on_refusal ≡ Leave → IfOk result (λ ended. ended ≡ true) }
        ensures same { IsSamePacking self.old self.new }
    {
        self.bins.make_ready(groups.len(), sizes.len())?;
        let mut homes = Homes::new(exclusions, *self.locations.allocator());
        for group in groups {
            let excluded = homes.excluded_bins(group.name)?;
            let members = group.sizes_in(sizes);
            match self.place_group(group.ids.as_slice(), members, &excluded)? {
                Some(here) => homes.keep(group.name, here)?,
                None => match on_refusal {
                    OnRefusal::Stop => return Ok(false),
                    OnRefusal::Leave => left.push(group.name)?,
                },
            }
        }
        Ok(true)
    }

    // Puts a group into the first bin of the order that is not excluded and whose trial is done; the
    // id of that bin, or `None` where there is none. An error says that memory was refused.
    fn place_group(
        &mut self,
        ids: &[Id],
        sizes: &[RectToInsert],
        excluded: &ExcludedBins<'b, B, A>,
    ) -> Result<Option<&'b B>, AllocError>
        requires lengths { length ids.now ≡ length sizes.now }
        ensures tried { IsGroupTried (rules_by Id.cmp B.cmp (R.may self.old.policy))
            (are_in B.cmp excluded.now) (record { ids = ids.now; sizes = sizes.now }) self.old
            result self.new }
        ensures same { IsSamePacking self.old self.new }
    {
        let order = self.bins.order();
        let mut from = 0;
        loop {
            let passed = next_bin(&self.bins, from, sizes, excluded);
            add(&mut self.tests, passed.tests as u128);
            if passed.index >= order.len() {
                return Ok(None);
            }
            let (_, id) = &order[passed.index];
            from = passed.index + 1;
            if excluded.has(id) {
                continue;
            }
            let trial = self
                .bins
                .run_trial(passed.index, sizes, self.policy, &mut self.locations)?;
            add(&mut self.tests, trial.tests);
            if trial.is_done {
                name_all(&mut self.placements, ids, id, self.locations.as_slice())?;
                return Ok(Some(id));
            }
        }
    }
}

// The index of the next bin for a group, from this one on. Bins before it are passed over, as long
// as it is known that no section of theirs holds the first member of a group for which no bin is
// excluded; the tests of these.
fn next_bin<'b, B: Ord, A: Allocator + Copy>(
    bins: &BinsAtWork<'b, B, A>,
    from: usize,
    sizes: &[RectToInsert],
    excluded: &ExcludedBins<'b, B, A>,
) -> Passed
    ensures from { from ≤ result.index }
    ensures passed { ArePassedOver B.cmp excluded.now bins.now.now sizes.now
        (map (λ o. o.1) (take (result.index - from) (drop from bins.now.order))) result.tests }
{
    match sizes.first() {
        Some(first) if excluded.is_empty() => bins.pass_over(from, first),
        _ => Passed {
            index: from,
            tests: 0,
        },
    }
}
