//! Lists of free sections that a try fills. Only the sizes of sections count, so they have no
//! corners.

use crate::cutting::{by_falling_rate, cut_round};
use crate::job::Job;
use rectangle_pack_sections::box_size_heuristics::Heuristic;
use rectangle_pack_sections::width_height_depth::WidthHeightDepth;
use std::alloc::{AllocError, Allocator};
use std::mem;

/// The free sections of a bin while a try fills it.
#[derive(Drop)]
pub(crate) struct Filling<A: Allocator + Copy> {
    /// Their sizes, the newest last.
    sections: Vec<WidthHeightDepth, A>,
    // Room for a copy, from which a group that finds no room is undone.
    before: Vec<WidthHeightDepth, A>,
    /// The groups that were put into it.
    pub groups: Vec<usize, A>,
    /// The cells of these groups.
    pub filled: u128,
}

impl<A: Allocator + Copy> Filling<A> {
    /// No bin yet. Takes no memory.
    pub(crate) fn new(alloc: A) -> Self {
        Filling {
            sections: Vec::new(alloc),
            before: Vec::new(alloc),
            groups: Vec::new(alloc),
            filled: 0,
        }
    }

    /// Begins with these sections.
    pub(crate) fn begin(&mut self, sections: &[WidthHeightDepth]) -> Result<(), AllocError> {
        self.sections.clear();
        self.groups.clear();
        self.filled = 0;
        self.sections.extend_from_slice(sections)
    }

    /// Puts the boxes of a group into the bin, if all find room; whether they do.
    pub(crate) fn put(
        &mut self,
        boxes: &[WidthHeightDepth],
        heuristic: Heuristic,
    ) -> Result<bool, AllocError> {
        if let [only] = boxes {
            return place(&mut self.sections, *only, heuristic);
        }
        self.before.clear();
        self.before.extend_from_slice(self.sections.as_slice())?;
        for size in boxes {
            if !place(&mut self.sections, *size, heuristic)? {
                mem::swap(&mut self.sections, &mut self.before);
                return Ok(false);
            }
        }
        Ok(true)
    }
}

impl<A: Allocator + Copy> Filling<A> {
    /// Whether a group that is excluded with this one is in the bin.
    pub(crate) fn is_barred(&self, job: &Job<A>, group: usize) -> bool {
        !job.apart.is_empty() && self.groups.iter().any(|other| job.are_apart(group, *other))
    }

    /// Notes a group that was put into the bin.
    pub(crate) fn keep(
        &mut self,
        group: usize,
        boxes: &[WidthHeightDepth],
    ) -> Result<(), AllocError> {
        for size in boxes {
            self.filled = self.filled.saturating_add(size.volume());
        }
        self.groups.push(group)?;
        Ok(())
    }
}

// Whether a section of the size `held` holds a box of this size.
fn holds(held: WidthHeightDepth, size: WidthHeightDepth) -> bool {
    size.width() <= held.width() && size.height() <= held.height() && size.depth() <= held.depth()
}

// Takes the newest section out that holds a box.
fn take_newest<A: Allocator>(
    sections: &mut Vec<WidthHeightDepth, A>,
    size: WidthHeightDepth,
) -> Option<WidthHeightDepth> {
    for i in (0..sections.len()).rev() {
        if holds(sections[i], size) {
            return Some(sections.remove(i));
        }
    }
    None
}

// Places a box into the newest section that holds it; whether there is one. The pieces that are left
// of it go to the end of the list by falling rate, as in a packing.
fn place<A: Allocator>(
    sections: &mut Vec<WidthHeightDepth, A>,
    size: WidthHeightDepth,
    heuristic: Heuristic,
) -> Result<bool, AllocError> {
    let Some(held) = take_newest(sections, size) else {
        return Ok(false);
    };
    for piece in &by_falling_rate(cut_round(held, size, heuristic)) {
        let size = piece.size;
        if size.width() > 0 && size.height() > 0 && size.depth() > 0 {
            sections.push(size)?;
        }
    }
    Ok(true)
}
