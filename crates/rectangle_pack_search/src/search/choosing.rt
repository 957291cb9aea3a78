//! Which bins and which groups the next tries are made with.

use crate::search::Search;
use std::alloc::{AllocError, Allocator};

// At most so many of the groups that are left are tried at once.
const FROM_LEFT: usize = 64;

impl<A: Allocator + Copy> Search<A> {
    // Chooses two to four bins that are used, one of them an emptier one, sometimes one that is not
    // used, and always where there would be fewer than two; and the groups in them, with some of those
    // that are left.
    pub(super) fn choose(&mut self) -> Result<(), AllocError> {
        self.bins.clear();
        let few = (2 + self.chance.below(3)).min(self.layout.used.len());
        if let Some(bin) = self.emptier() {
            self.bins.push(bin)?;
        }
        for _ in 0..32 {
            if self.bins.len() < few {
                self.add_used()?;
            }
        }
        let is_wanted = self.chance.one_in(4);
        if self.bins.len() < 2 {
            self.add_other()?;
        } else if is_wanted {
            self.add_unused()?;
        }
        self.change_places();
        self.gather()
    }

    // One of the bins that are used, by chance.
    fn used_by_chance(&mut self) -> Option<usize> {
        if self.layout.used.is_empty() {
            return None;
        }
        let drawn = self.chance.below(self.layout.used.len());
        Some(self.layout.used[drawn])
    }

    // The emptier one of two bins, as far as they are there.
    fn emptier_of(&self, one: Option<usize>, other: Option<usize>) -> Option<usize> {
        match (one, other) {
            (Some(a), Some(b)) if self.layout.filled(b) < self.layout.filled(a) => Some(b),
            (None, other) => other,
            _ => one,
        }
    }

    // One of the emptier bins.
    fn emptier(&mut self) -> Option<usize> {
        let mut bin = self.used_by_chance();
        for _ in 0..2 {
            let other = self.used_by_chance();
            bin = self.emptier_of(bin, other);
        }
        if self.chance.one_in(3) {
            for i in 0..self.layout.used.len() {
                bin = self.emptier_of(bin, Some(self.layout.used[i]));
            }
        }
        bin
    }

    // Adds a bin that is used, if the one that is drawn is not there.
    fn add_used(&mut self) -> Result<(), AllocError> {
        if let Some(bin) = self.used_by_chance() {
            if !self.bins.as_slice().contains(&bin) {
                self.bins.push(bin)?;
            }
        }
        Ok(())
    }

    // Whether a bin is not used, and other than each that is chosen.
    fn is_other(&self, bin: usize) -> bool {
        !self.layout.used.as_slice().contains(&bin)
            && self.bins.iter().all(|chosen| self.job.differ(*chosen, bin))
    }

    // Adds a bin that is drawn, if it is not used, and other than each that is chosen.
    fn add_unused(&mut self) -> Result<(), AllocError> {
        let count = self.job.bins.len();
        if count > 0 {
            let drawn = self.chance.below(count);
            if self.is_other(drawn) {
                self.bins.push(drawn)?;
            }
        }
        Ok(())
    }

    // Adds such a bin, if there is one: the one that is drawn, or the next one.
    fn add_other(&mut self) -> Result<(), AllocError> {
        let count = self.job.bins.len();
        if count > 0 {
            let drawn = self.chance.below(count);
            let other = (drawn..count)
                .chain(0..drawn)
                .find(|bin| self.is_other(*bin));
            if let Some(bin) = other {
                self.bins.push(bin)?;
            }
        }
        Ok(())
    }

    // Exchanges the first bin for one of them.
    fn change_places(&mut self) {
        if !self.bins.is_empty() {
            let other = self.chance.below(self.bins.len());
            self.bins.swap(0, other);
        }
    }

    // Gathers the groups of the bins, and some of those that are left.
    fn gather(&mut self) -> Result<(), AllocError> {
        self.pool.clear();
        for bin in &self.bins {
            if let Some(pile) = self.layout.piles.get(*bin) {
                self.pool.extend_from_slice(pile.groups.as_slice())?;
            }
        }
        self.gather_left()
    }

    // Gathers some of the groups that are left.
    fn gather_left(&mut self) -> Result<(), AllocError> {
        self.shuffle_left();
        self.from_left = 0;
        self.left = 0;
        for group in self.layout.left.iter().rev().take(FROM_LEFT) {
            self.pool.push(*group)?;
            self.from_left = self.from_left.saturating_add(1);
            self.left = self.left.saturating_add(self.job.cells_of(*group));
        }
        Ok(())
    }

    // Puts some of the groups that are left, by chance, at the end of the list.
    fn shuffle_left(&mut self) {
        let left = self.layout.left.as_mut_slice();
        let len = left.len();
        if len <= FROM_LEFT {
            return;
        }
        for i in 0..FROM_LEFT {
            let other = self.chance.below(len);
            left.swap(len - 1 - i, other);
        }
    }
}
