//! A try: some groups are put into some bins anew, in an order, each in a stance.

use crate::filling::Filling;
use crate::job::Job;
use crate::score::Score;
use rectangle_pack_sections::box_size_heuristics::Heuristic;
use rectangle_pack_sections::width_height_depth::WidthHeightDepth;
use std::alloc::{AllocError, Allocator};

/// A group in an order, with its weight.
pub(crate) type Ranked = (u64, usize);

/// A try, and what came of it.
#[derive(Drop)]
pub(crate) struct Try<A: Allocator + Copy> {
    alloc: A,
    /// The groups, in the order in which they are taken.
    pub order: Vec<Ranked, A>,
    /// The heuristic by which sections are cut up.
    pub heuristic: Heuristic,
    /// The sizes of all boxes; those of the groups of the try are its own.
    pub sizes: Vec<WidthHeightDepth, A>,
    /// How many bins the try has.
    pub count: usize,
    /// What each of them gets, in their order; further ones are room for other tries.
    pub fillings: Vec<Filling<A>, A>,
    /// The groups that no bin takes.
    pub left: Vec<usize, A>,
    /// What it is compared by.
    pub score: Score,
}

impl<A: Allocator + Copy> Try<A> {
    /// Nothing is tried yet. Takes no memory.
    pub(crate) fn new(alloc: A) -> Self {
        Try {
            alloc,
            order: Vec::new(alloc),
            heuristic: Heuristic::Volume,
            sizes: Vec::new(alloc),
            count: 0,
            fillings: Vec::new(alloc),
            left: Vec::new(alloc),
            score: Score::NONE,
        }
    }

    /// The sizes of the boxes of a group.
    pub(crate) fn boxes_of(&self, job: &Job<A>, group: usize) -> &[WidthHeightDepth] {
        let (start, end) = job.span(group);
        self.sizes.as_slice().get(start..end).unwrap_or(&[])
    }

    /// Puts the groups into these bins: each in its order into the first that takes it. Ends early
    /// where more cells are left than `most`; whether it did not.
    pub(crate) fn run(
        &mut self,
        job: &Job<A>,
        bins: &[usize],
        most: u128,
    ) -> Result<bool, AllocError> {
        self.begin(job, bins)?;
        let mut left = 0u128;
        for i in 0..self.order.len() {
            let group = self.order.get(i).map_or(0, |ranked| ranked.1);
            if !self.put(job, group)? {
                left = left.saturating_add(job.cells_of(group));
                self.left.push(group)?;
                if left > most {
                    return Ok(false);
                }
            }
        }
        self.score = self.score_of(job, bins, left);
        Ok(true)
    }

    // Begins with the free sections of these bins.
    fn begin(&mut self, job: &Job<A>, bins: &[usize]) -> Result<(), AllocError> {
        self.left.clear();
        for (i, bin) in bins.iter().enumerate() {
            if self.fillings.len() <= i {
                self.fillings.push(Filling::new(self.alloc))?;
            }
            if let (Some(filling), Some(open)) = (self.fillings.get_mut(i), job.bins.get(*bin)) {
                filling.begin(open.sections.as_slice())?;
            }
        }
        self.count = bins.len();
        Ok(())
    }

    // Puts a group into the first bin that takes it; whether there is one.
    fn put(&mut self, job: &Job<A>, group: usize) -> Result<bool, AllocError> {
        let (start, end) = job.span(group);
        let Some(boxes) = self.sizes.as_slice().get(start..end) else {
            return Ok(false);
        };
        let count = self.count.min(self.fillings.len());
        let fillings = self.fillings.as_mut_slice();
        put_first(&mut fillings[..count], job, group, boxes, self.heuristic)
    }

    // What came of it.
    fn score_of(&self, job: &Job<A>, bins: &[usize], left: u128) -> Score {
        let mut score = Score::NONE.with_left(left);
        for (filling, bin) in self.fillings.iter().zip(bins) {
            if let Some(open) = job.bins.get(*bin) {
                if !filling.groups.is_empty() {
                    score = score.with_bin(filling.filled, open.cells, open.cost);
                }
            }
        }
        score
    }
}

// Puts a group into the first of some bins that takes it; whether there is one.
fn put_first<A: Allocator + Copy>(
    fillings: &mut [Filling<A>],
    job: &Job<A>,
    group: usize,
    boxes: &[WidthHeightDepth],
    heuristic: Heuristic,
) -> Result<bool, AllocError> {
    for filling in fillings {
        if !filling.is_barred(job, group) && filling.put(boxes, heuristic)? {
            filling.keep(group, boxes)?;
            return Ok(true);
        }
    }
    Ok(false)
}
