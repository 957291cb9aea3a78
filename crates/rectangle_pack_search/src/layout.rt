//! Where the groups stand, as far as a search has come.

use crate::job::{Job, Progress, Put};
use crate::score::Score;
use crate::tries::Try;
use rectangle_pack_bounds::turning::TurningBox;
use rectangle_pack_sections::box_size_heuristics::Heuristic;
use rectangle_pack_sections::width_height_depth::WidthHeightDepth;
use std::alloc::{AllocError, Allocator};

/// The groups in a bin, in the order in which they were put there.
#[derive(Drop)]
pub(crate) struct Pile<A: Allocator + Copy> {
    pub groups: Vec<usize, A>,
    pub heuristic: Heuristic,
    pub filled: u128,
}

/// Where all groups stand.
#[derive(Drop)]
pub(crate) struct Layout<A: Allocator + Copy> {
    /// What is in each bin.
    pub piles: Vec<Pile<A>, A>,
    /// The bins that have groups.
    pub used: Vec<usize, A>,
    /// The groups that are in no bin.
    pub left: Vec<usize, A>,
    /// The sizes in which the boxes stand.
    pub sizes: Vec<WidthHeightDepth, A>,
}

impl<A: Allocator + Copy> Layout<A> {
    /// All groups are left, and all boxes stand as they are.
    pub(crate) fn new(alloc: A, job: &Job<A>) -> Result<Self, AllocError> {
        Ok(Layout {
            piles: empty_piles(alloc, job.bins.len())?,
            used: Vec::new(alloc),
            left: first_numbers(alloc, job.ends.len())?,
            sizes: sizes_of(alloc, job.boxes.as_slice())?,
        })
    }

    /// How many cells of a bin are filled.
    pub(crate) fn filled(&self, bin: usize) -> u128 {
        self.piles.get(bin).map_or(0, |pile| pile.filled)
    }

    /// What these bins are compared by as they are, where some more groups are left.
    pub(crate) fn score(&self, job: &Job<A>, bins: &[usize], left: u128) -> Score {
        let mut score = Score::NONE.with_left(left);
        for bin in bins {
            if let (Some(pile), Some(open)) = (self.piles.get(*bin), job.bins.get(*bin)) {
                if !pile.groups.is_empty() {
                    score = score.with_bin(pile.filled, open.cells, open.cost);
                }
            }
        }
        score
    }

    /// Keeps a try in these bins, in which the last `tried` of the groups were that are left.
    pub(crate) fn keep(
        &mut self,
        job: &Job<A>,
        bins: &[usize],
        made: &Try<A>,
        tried: usize,
    ) -> Result<(), AllocError> {
        for (_, group) in &made.order {
            self.stand(job, *group, made.boxes_of(job, *group));
        }
        self.fill(bins, made)?;
        self.left.truncate(self.left.len().saturating_sub(tried));
        self.left.extend_from_slice(made.left.as_slice())?;
        self.note_used(bins)
    }

    // The bins have what the try put into them.
    fn fill(&mut self, bins: &[usize], made: &Try<A>) -> Result<(), AllocError> {
        for (bin, filling) in bins.iter().zip(made.fillings.as_slice()) {
            if let Some(pile) = self.piles.get_mut(*bin) {
                pile.groups.clear();
                pile.groups.extend_from_slice(filling.groups.as_slice())?;
                pile.heuristic = made.heuristic;
                pile.filled = filling.filled;
            }
        }
        Ok(())
    }

    // The boxes of a group stand in these sizes.
    fn stand(&mut self, job: &Job<A>, group: usize, boxes: &[WidthHeightDepth]) {
        let (start, _) = job.span(group);
        for (i, size) in boxes.iter().enumerate() {
            if let Some(stands) = self.sizes.get_mut(start.saturating_add(i)) {
                *stands = *size;
            }
        }
    }

    // Notes which of these bins have groups.
    fn note_used(&mut self, bins: &[usize]) -> Result<(), AllocError> {
        self.used.retain(|bin| !bins.contains(bin));
        for bin in bins {
            if self
                .piles
                .get(*bin)
                .is_some_and(|pile| !pile.groups.is_empty())
            {
                self.used.push(*bin)?;
            }
        }
        Ok(())
    }

    /// How far it is, after so many tries.
    pub(crate) fn progress(&self, job: &Job<A>, tries: u64) -> Progress {
        let mut left = 0u128;
        for group in &self.left {
            left = left.saturating_add(job.cells_of(*group));
        }
        let score = self.score(job, self.used.as_slice(), left);
        Progress {
            tries,
            left,
            cost: score.cost,
            bins: self.used.len(),
        }
    }

    /// The groups that are in bins, bin by bin.
    pub(crate) fn puts(&self, alloc: A) -> Result<Vec<Put, A>, AllocError> {
        let mut puts = Vec::new(alloc);
        for (bin, pile) in self.piles.iter().enumerate() {
            pile.add_to(bin, &mut puts)?;
        }
        Ok(puts)
    }
}

impl<A: Allocator + Copy> Pile<A> {
    // Adds its groups to a list, in their order.
    fn add_to(&self, bin: usize, puts: &mut Vec<Put, A>) -> Result<(), AllocError> {
        let heuristic = self.heuristic;
        for group in &self.groups {
            puts.push(Put {
                group: *group,
                bin,
                heuristic,
            })?;
        }
        Ok(())
    }
}

// So many bins without groups.
fn empty_piles<A: Allocator + Copy>(alloc: A, count: usize) -> Result<Vec<Pile<A>, A>, AllocError> {
    let mut piles = Vec::with_capacity(alloc, count)?;
    for _ in 0..count {
        piles.push(Pile {
            groups: Vec::new(alloc),
            heuristic: Heuristic::Volume,
            filled: 0,
        })?;
    }
    Ok(piles)
}

// The numbers from 0 on, so many.
fn first_numbers<A: Allocator + Copy>(alloc: A, count: usize) -> Result<Vec<usize, A>, AllocError> {
    let mut numbers = Vec::with_capacity(alloc, count)?;
    for number in 0..count {
        numbers.push(number)?;
    }
    Ok(numbers)
}

// The sizes of boxes as they are.
fn sizes_of<A: Allocator + Copy>(
    alloc: A,
    boxes: &[TurningBox],
) -> Result<Vec<WidthHeightDepth, A>, AllocError> {
    let mut sizes = Vec::with_capacity(alloc, boxes.len())?;
    for one in boxes {
        sizes.push(one.whd)?;
    }
    Ok(sizes)
}
