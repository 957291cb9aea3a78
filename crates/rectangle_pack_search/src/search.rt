//! The search: bins are emptied and filled anew, again and again, and what is better is kept.

mod beginning;
mod choosing;

use crate::chance::Chance;
use crate::job::{Aim, Found, Job, Progress};
use crate::layout::Layout;
use crate::order::{Noise, weight_of};
use crate::score::{Score, WHOLE};
use crate::stance::{Stance, may_turn, turned_by_chance};
use crate::tries::Try;
use rectangle_pack_bounds::turning::Turns;
use rectangle_pack_sections::box_size_heuristics::Heuristic;
use rectangle_pack_sections::width_height_depth::WidthHeightDepth;
use std::alloc::{AllocError, Allocator, Global};
use std::mem;

/// A search on its way for a packing that leaves few cells, at a low cost, in few bins. What it finds
/// says nothing of itself: it is to be packed as it is told.
///
/// Tries are made in batches: with the same bins and groups, until one is much better, or the batch is
/// at its end; then the best of them is kept.
#[derive(Drop)]
pub struct Search<A: Allocator + Copy = Global> {
    job: Job<A>,
    aim: Aim,
    chance: Chance,
    layout: Layout<A>,
    // The bins and the groups of the batch.
    bins: Vec<usize, A>,
    pool: Vec<usize, A>,
    // How many of these groups are left as it is, and their cells.
    from_left: usize,
    left: u128,
    // How many tries the first batch has, and how many are still to be made of this one.
    first: u64,
    rest: u64,
    // What the bins are compared by as they are, and what a try has to beat.
    now: Score,
    best_score: Score,
    // The try that is made, and the best one of the batch, if one is found.
    tried: Try<A>,
    best: Try<A>,
    found: bool,
    progress: Progress,
    may_turn: bool,
    is_over: bool,
}

impl<A: Allocator + Copy> Search<A> {
    /// A search for such a packing. No try is made yet. Fails only when memory is refused.
    pub fn new(alloc: A, job: Job<A>, aim: Aim) -> Result<Self, AllocError> {
        let layout = Layout::new(alloc, &job)?;
        let mut tried = Try::new(alloc);
        tried.sizes.extend_from_slice(layout.sizes.as_slice())?;
        let mut best = Try::new(alloc);
        best.sizes.extend_from_slice(layout.sizes.as_slice())?;
        let progress = layout.progress(&job, 0);
        let may_turn = job.boxes.iter().any(|one| may_turn(one.turns));
        let mut search = Search {
            job,
            aim,
            chance: Chance::new(aim.seed),
            layout,
            bins: Vec::new(alloc),
            pool: Vec::new(alloc),
            from_left: 0,
            left: 0,
            first: 0,
            rest: 0,
            now: Score::NONE,
            best_score: Score::NONE,
            tried,
            best,
            found: false,
            progress,
            may_turn,
            is_over: false,
        };
        search.begin()?;
        Ok(search)
    }

    /// Makes so many tries, or fewer where there is nothing to be bettered. Before each `go_on` is
    /// asked whether to go on. Tries that are made in several calls find what they find in one. Fails
    /// only when memory is refused.
    pub fn run<F: FnMut(&Progress) -> bool>(
        &mut self,
        tries: u64,
        mut go_on: F,
    ) -> Result<(), AllocError>
        // The closure may be called at any time.
        requires callable { F.IsAlwaysCallable go_on }
    {
        for _ in 0..tries {
            if self.is_over || !go_on(&self.progress) {
                break;
            }
            self.step()?;
        }
        Ok(())
    }

    /// How far the search is.
    pub fn progress(&self) -> Progress {
        self.progress
    }

    /// Whether the last call found that there is nothing to be bettered. Then no more tries are made.
    pub fn is_over(&self) -> bool {
        self.is_over
    }

    /// What is found. Fails only when memory is refused.
    pub fn into_found(mut self, alloc: A) -> Result<Found<A>, AllocError> {
        self.end_batch()?;
        Ok(Found {
            puts: self.layout.puts(alloc)?,
            sizes: Vec::from_slice(alloc, self.layout.sizes.as_slice())?,
            tries: self.progress.tries,
        })
    }

    // Makes the next try, in the next batch where this one is at its end. Where there is nothing to be
    // bettered, the search is over.
    fn step(&mut self) -> Result<(), AllocError> {
        if self.rest == 0 {
            self.end_batch()?;
            if self.is_reached() || !self.begin_batch()? {
                self.is_over = true;
                return Ok(());
            }
        }
        self.rest = self.rest.saturating_sub(1);
        let is_first = self.progress.tries < self.first;
        let is_made = if is_first {
            self.make_first(self.progress.tries)?
        } else {
            self.make_try()?
        };
        self.progress.tries = self.progress.tries.saturating_add(1);
        if is_made && self.tried.score.is_better(&self.best_score) {
            self.note_best(is_first);
        }
        Ok(())
    }

    // Notes the try that was made as the best one. Where a bin is saved, the batch ends, but for the
    // first.
    fn note_best(&mut self, is_first: bool) {
        self.best_score = self.tried.score;
        self.found = true;
        mem::swap(&mut self.tried, &mut self.best);
        let saves = self.best_score.cost < self.now.cost || self.best_score.left < self.now.left;
        if saves && !is_first {
            self.rest = 0;
        }
    }

    // Whether the packing is as good as it is to be.
    fn is_reached(&self) -> bool {
        self.layout.left.is_empty() && self.layout.used.len() <= self.aim.enough
    }

    // Begins a batch with some of the bins: what it finds has to be better than what stands there,
    // or a little worse. Answers false where there is nothing to be bettered.
    fn begin_batch(&mut self) -> Result<bool, AllocError> {
        self.choose()?;
        if self.bins.len() < 2 && self.from_left == 0 {
            return Ok(false);
        }
        self.now = self
            .layout
            .score(&self.job, self.bins.as_slice(), self.left);
        self.best_score = self.a_little_worse(self.now);
        self.rest = 8 + self.chance.below(25) as u64;
        Ok(true)
    }

    // Ends the batch: the best of its tries is kept, if one is found.
    fn end_batch(&mut self) -> Result<(), AllocError> {
        if !self.found {
            return Ok(());
        }
        self.found = false;
        self.layout.keep(&self.job, self.bins.as_slice(), &self.best, self.from_left)?;
        self.progress = self.layout.progress(&self.job, self.progress.tries);
        Ok(())
    }

    // A little worse than this, so that the search can leave where it stands.
    fn a_little_worse(&mut self, now: Score) -> Score {
        let less = self.chance.below(10486) as u64 * WHOLE;
        Score {
            left: now.left,
            cost: now.cost,
            squares: now.squares.saturating_sub(less),
        }
    }

    // Makes a try with the groups of the pool; whether it leaves no more cells than are left.
    fn make_try(&mut self) -> Result<bool, AllocError> {
        self.lay();
        if self.chance.one_in(4) {
            self.order_as_it_is()?;
        } else {
            let heuristic = Heuristic::ALL[self.chance.below(8)];
            let noise = Noise::draw(heuristic, &mut self.chance);
            self.order_by(heuristic, noise)?;
        }
        self.tried.heuristic = Heuristic::ALL[self.chance.below(8)];
        self.tried.run(&self.job, self.bins.as_slice(), self.left)
    }

    // Lays the boxes of the pool as they stand, or in a stance, and then some of them otherwise.
    fn lay(&mut self) {
        let stance = Stance::draw(&mut self.chance);
        for i in 0..self.pool.len() {
            let group = self.pool.get(i).copied().unwrap_or(0);
            self.lay_group(group, stance);
        }
    }

    // Lays the boxes of a group.
    fn lay_group(&mut self, group: usize, stance: Stance) {
        let (start, end) = self.job.span(group);
        for i in start..end {
            let one = self.job.boxes.get(i).copied();
            let stands = self.layout.sizes.get(i).copied();
            if let (Some(one), Some(stands)) = (one, stands) {
                let size = self.laid(stands, one.turns, stance);
                put_at(&mut self.tried.sizes, i, size);
            }
        }
    }

    // How a box is laid that stands in this size.
    fn laid(&mut self, size: WidthHeightDepth, turns: Turns, stance: Stance) -> WidthHeightDepth {
        if !self.may_turn {
            return size;
        }
        let size = stance.turned(size, turns);
        if self.chance.one_in(8) {
            turned_by_chance(size, turns, &mut self.chance)
        } else {
            size
        }
    }

    // Puts the groups of the pool in falling order by a heuristic, with some noise.
    fn order_by(&mut self, heuristic: Heuristic, noise: Noise) -> Result<(), AllocError> {
        self.tried.order.clear();
        for group in &self.pool {
            let weight = weight_of(heuristic, self.tried.boxes_of(&self.job, *group));
            let heard = noise.heard(weight, &mut self.chance);
            self.tried.order.push((heard, *group))?;
        }
        self.tried.order.sort_unstable_by(|a, b| b.cmp(a));
        Ok(())
    }

    // Leaves the groups of the pool in their order, but moves each by a few places.
    fn order_as_it_is(&mut self) -> Result<(), AllocError> {
        let reach = 1 << (8 + self.chance.below(6));
        self.tried.order.clear();
        for (i, group) in self.pool.iter().enumerate() {
            let place = (self.pool.len() - i) as u64;
            let moved = self.chance.below(reach) as u64;
            self.tried
                .order
                .push((place.saturating_mul(256).saturating_add(moved), *group))?;
        }
        self.tried.order.sort_unstable_by(|a, b| b.cmp(a));
        Ok(())
    }
}

// Writes a size at its place of a list, if it has so many.
fn put_at<A: Allocator>(sizes: &mut Vec<WidthHeightDepth, A>, at: usize, size: WidthHeightDepth) {
    if let Some(place) = sizes.get_mut(at) {
        *place = size;
    }
}
