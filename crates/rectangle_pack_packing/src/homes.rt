//! The bins of groups that were placed, and which bins these exclude for a group.
ghost use Rattle.std.specs.Prelude.{◌≡◌, [], false, IfOk, OnOk};
ghost use Rattle.std.specs.Bool.{OnTrue};
ghost use Rattle.rectangle_pack_packing.specs.private.Excluded.{are_in, went_to, bars, IsHomeKept};

use rectangle_pack_groups::grouped_rects_to_place::exclusions::Exclusions;
use std::alloc::{AllocError, Allocator};
use std::collections::{BTreeMap, BTreeSet};
use std::marker::Model;

/// The bins that are excluded for a group.
pub struct ExcludedBins<'b, B: Ord, A: Allocator + Copy> {
    ids: BTreeSet<&'b B, A>,
}

impl<'b, B: Ord, A: Allocator + Copy> Model for ExcludedBins<'b, B, A> {
    ghost use Rattle.std.specs.Prelude.{List};
    ghost use Rattle.std.specs.Borrow.{Bor};

    ghost Value = { List (Bor B) };

    ghost view = { λ e. e.ids.keys };
}

// Written out: a derived drop is proved anew wherever a value is dropped.
impl<'b, B: Ord, A: Allocator + Copy> Drop for ExcludedBins<'b, B, A> {
    fn drop(self) {
        let ExcludedBins { ids } = self;
        drop(ids);
    }
}

impl<'b, B: Ord, A: Allocator + Copy> ExcludedBins<'b, B, A> {
    /// Whether there is none.
    pub fn is_empty(&self) -> bool
        ensures { OnTrue result (self.now ≡ []) }
    {
        self.ids.is_empty()
    }

    /// Whether the bin of this id is excluded.
    pub fn has(&self, id: &'b B) -> bool
        ensures { result ≡ are_in B.cmp self.now id.now }
    {
        self.ids.contains(&id)
    }
}

/// The homes of groups: the bin of each group that was placed and is excluded with others.
pub struct Homes<'a, 'b, K: Ord, B: Ord, A: Allocator + Copy> {
    exclusions: &'a Exclusions<K, A>,
    bins: BTreeMap<&'a K, &'b B, A>,
    alloc: A,
}

impl<'a, 'b, K: Ord, B: Ord, A: Allocator + Copy> Model for Homes<'a, 'b, K, B, A> {
    ghost use Rattle.rectangle_pack_packing.specs.private.Excluded.{KeptHomes};

    ghost Value = { KeptHomes K B };

    ghost view = { λ h. record { partners = h.exclusions.now; bins = h.bins.entries } };
}

// Written out, as above.
impl<'a, 'b, K: Ord, B: Ord, A: Allocator + Copy> Drop for Homes<'a, 'b, K, B, A> {
    fn drop(self) {
        let Homes {
            exclusions: _,
            bins,
            alloc: _,
        } = self;
        drop(bins);
    }
}

impl<'a, 'b, K: Ord, B: Ord, A: Allocator + Copy> Homes<'a, 'b, K, B, A> {
    /// No homes. Takes no memory.
    pub fn new(exclusions: &'a Exclusions<K, A>, alloc: A) -> Self
        ensures { result ≡ record { partners = exclusions.now; bins = [] } }
    {
        Homes {
            exclusions,
            bins: BTreeMap::new(alloc),
            alloc,
        }
    }

    /// Keeps the bin of a group for those that are excluded with it, where there are any. Fails only
    /// when memory is refused.
    pub fn keep(&mut self, group: &'a K, here: &'b B) -> Result<(), AllocError>
        requires fresh { (id : B) → went_to K.cmp B.cmp self.old.bins group.now id ≡ false }
        ensures { OnOk result (IsHomeKept K.cmp B.cmp self.old group.now here.now self.new) }
    {
        if !self.exclusions.partners(group).is_empty() {
            self.bins.insert(group, here)?;
        }
        Ok(())
    }

    /// The homes of the groups that are excluded with this one, of those that have one. Fails only
    /// when memory is refused.
    pub fn excluded_bins(&self, group: &K) -> Result<ExcludedBins<'b, B, A>, AllocError>
        ensures { IfOk result
            (λ s. (id : B) → are_in B.cmp s id ≡ bars K.cmp B.cmp self.now group.now id) }
    {
        let mut ids = BTreeSet::new(self.alloc);
        for partner in self.exclusions.partners(group) {
            if let Some(id) = self.bins.get(&partner) {
                ids.insert(*id)?;
            }
        }
        Ok(ExcludedBins { ids })
    }
}
