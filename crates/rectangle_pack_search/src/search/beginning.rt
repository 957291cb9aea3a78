//! The packings with which a search begins: each order with each way to cut.

use crate::order::Noise;
use crate::search::Search;
use crate::stance::Stance;
use rectangle_pack_sections::box_size_heuristics::Heuristic;
use std::alloc::{AllocError, Allocator};

// In which stances boxes are laid at the beginning that may be turned.
const STANCES: [Stance; 3] = [Stance::AsTheyStand, Stance::Lying, Stance::Standing];

impl<A: Allocator + Copy> Search<A> {
    // Begins with a batch of all groups and all bins, the smallest first: a try for each stance, each
    // order and each way to cut.
    pub(super) fn begin(&mut self) -> Result<(), AllocError> {
        for bin in 0..self.job.bins.len() {
            self.bins.push(bin)?;
        }
        let job = &self.job;
        self.bins.sort_unstable_by_key(|bin| job.rank(*bin));
        self.pool.extend_from_slice(self.layout.left.as_slice())?;
        self.from_left = self.pool.len();
        self.left = self.progress.left;
        self.now = self.layout.score(job, &[], self.left);
        self.best_score = self.now;
        self.first = if self.may_turn { 192 } else { 64 };
        self.rest = self.first;
        Ok(())
    }

    // Makes a try of the first batch; whether it leaves no more cells than are left.
    pub(super) fn make_first(&mut self, number: u64) -> Result<bool, AllocError> {
        self.lay_all(STANCES[(number / 64 % 3) as usize]);
        self.order_by(Heuristic::ALL[(number / 8 % 8) as usize], Noise::NONE)?;
        self.tried.heuristic = Heuristic::ALL[(number % 8) as usize];
        self.tried.run(&self.job, self.bins.as_slice(), self.left)
    }

    // Lays all boxes in a stance.
    fn lay_all(&mut self, stance: Stance) {
        for (i, one) in self.job.boxes.iter().enumerate() {
            if let Some(laid) = self.tried.sizes.get_mut(i) {
                *laid = stance.turned(one.whd, one.turns);
            }
        }
    }
}
