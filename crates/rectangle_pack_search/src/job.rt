//! What a search is given, and what it answers.

use rectangle_pack_bounds::turning::TurningBox;
use rectangle_pack_sections::box_size_heuristics::Heuristic;
use rectangle_pack_sections::width_height_depth::WidthHeightDepth;
use std::alloc::Allocator;

/// A bin before a search.
#[derive(Debug, Drop)]
pub struct OpenBin<A: Allocator + Copy> {
    /// The sizes of its free sections, the newest last.
    pub sections: Vec<WidthHeightDepth, A>,
    /// The cells of these sections.
    pub cells: u128,
    /// What it costs to use the bin.
    pub cost: u64,
}

/// Groups of boxes, and bins for them. Groups and bins are named by their indices.
#[derive(Debug, Drop)]
pub struct Job<A: Allocator + Copy> {
    /// The boxes of all groups, one group after another.
    pub boxes: Vec<TurningBox, A>,
    /// Where in this list the boxes of each group end.
    pub ends: Vec<usize, A>,
    /// The pairs of groups that are excluded, in both orders, in rising order.
    pub apart: Vec<(usize, usize), A>,
    /// The bins.
    pub bins: Vec<OpenBin<A>, A>,
}

impl<A: Allocator + Copy> Job<A> {
    /// Where the boxes of a group begin and end.
    pub(crate) fn span(&self, group: usize) -> (usize, usize) {
        let end = self.ends.get(group).copied().unwrap_or(0);
        match group.checked_sub(1) {
            Some(before) => (self.ends.get(before).copied().unwrap_or(0), end),
            None => (0, end),
        }
    }

    /// The cells of a group, however its boxes are turned.
    pub(crate) fn cells_of(&self, group: usize) -> u128 {
        let (start, end) = self.span(group);
        let mut cells = 0u128;
        for one in self.boxes.as_slice().get(start..end).unwrap_or(&[]) {
            cells = cells.saturating_add(one.whd.volume());
        }
        cells
    }

    /// By which bins are put in order: the smaller first, of those that are as large the cheaper.
    pub(crate) fn rank(&self, bin: usize) -> (u128, u64) {
        self.bins
            .get(bin)
            .map_or((0, 0), |open| (open.cells, open.cost))
    }

    /// Whether two bins differ in their cells or their cost.
    pub(crate) fn differ(&self, one: usize, other: usize) -> bool {
        self.rank(one) != self.rank(other)
    }

    /// Whether two groups are excluded.
    pub(crate) fn are_apart(&self, one: usize, other: usize) -> bool {
        self.apart.as_slice().binary_search(&(one, other)).is_ok()
    }
}

/// What a search goes by.
#[derive(Debug, Clone, Copy)]
pub struct Aim {
    /// Equal seeds search alike.
    pub seed: u64,
    /// Once no group is left and no more bins than this are used, no more tries are made.
    pub enough: usize,
}

/// How far a search is.
#[derive(Debug, Clone, Copy, PartialEq)]
pub struct Progress {
    /// The tries that were made.
    pub tries: u64,
    /// The cells of the groups that are left.
    pub left: u128,
    /// What the bins cost that are used, together.
    pub cost: u128,
    /// How many bins are used.
    pub bins: usize,
}

/// A group that goes into a bin.
#[derive(Debug, Clone, Copy, PartialEq)]
pub struct Put {
    /// The index of the group.
    pub group: usize,
    /// The index of the bin.
    pub bin: usize,
    /// The heuristic by which sections are cut up.
    pub heuristic: Heuristic,
}

/// What a search proposes.
#[derive(Debug, Drop)]
pub struct Found<A: Allocator + Copy> {
    /// The groups that are put into bins, in the order in which they go into each bin.
    pub puts: Vec<Put, A>,
    /// The sizes in which the boxes stand, box by box.
    pub sizes: Vec<WidthHeightDepth, A>,
    /// The tries that were made.
    pub tries: u64,
}
