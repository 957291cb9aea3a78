//! Packings as they are told, as data. The comments say why.

use crate::best_cases::Placed;
use crate::box_list;
use crate::boxes::{GroupName, SizedBin, SizedBox};
use rectangle_pack_packing::pack::told::StepFault::{
    self, Excluded, NamedTwice, NoRoom, UnknownBin, UnknownGroup,
};
use rectangle_pack_packing::pack::told::{Step, ToldError};
use rectangle_pack_sections::box_size_heuristics::Heuristic::{self, SideArea, Volume};
use rectangle_pack_sections::group::Group::{Grouped, Ungrouped};
use std::alloc::{AllocError, Allocator};

/// A group, the bin that it is to go into, and the heuristic.
pub type Told = (GroupName, u32, Heuristic);

/// A step with these numbers.
pub type NumberedStep = Step<u32, u32, u32>;

/// A packing as it is told, and what comes of it.
#[derive(Clone, Copy)]
pub struct ToldCase {
    /// The bins, with the free sections that are left afterwards. Where a step is refused each is as
    /// it was new.
    pub bins: &'static [SizedBin],
    pub boxes: &'static [SizedBox],
    /// The groups that are excluded.
    pub excluded: &'static [(GroupName, GroupName)],
    pub steps: &'static [Told],
    /// The placements, in order; or the step that is refused, and why.
    pub answer: Result<&'static [Placed], (usize, StepFault)>,
}

const BIN: [u32; 3] = [4, 4, 1];

const NEW: &[[u32; 6]] = &[[0, 0, 0, 4, 4, 1]];

const WIDE: [u32; 3] = [10, 10, 1];

const COLUMN: [u32; 3] = [2, 3, 1];

/// The steps of a case, each of its own.
pub fn steps_of<A: Allocator + Copy>(
    alloc: A,
    case: &ToldCase,
) -> Result<Vec<NumberedStep, A>, AllocError> {
    let mut steps = Vec::new(alloc);
    for (group, bin, heuristic) in case.steps {
        let group = group.clone()?;
        steps.push(Step {
            group,
            bin: *bin,
            heuristic: *heuristic,
        })?;
    }
    Ok(steps)
}

/// Whether the error is that of the case.
pub fn is_refusal(error: &ToldError, case: &ToldCase) -> bool {
    match (error, case.answer) {
        (ToldError::StepRefused(index, fault), Err(wanted)) => (*index, *fault) == wanted,
        _ => false,
    }
}

/// Packings that are done.
pub fn done() -> &'static [ToldCase] {
    const DONE: &[ToldCase] = &[
        // A packing would take the larger box first, and the bin 0.
        ToldCase {
            bins: &[(0, WIDE, &[[0, 0, 0, 10, 10, 1]]), (1, WIDE, &[])],
            boxes: box_list!(1: [4, 10, 1], 2: [6, 10, 1]),
            excluded: &[],
            steps: &[(Ungrouped(1), 1, Volume), (Ungrouped(2), 1, Volume)],
            answer: Ok(&[(1, 1, [0, 0, 0, 4, 10, 1]), (2, 1, [4, 0, 0, 6, 10, 1])]),
        },
        // Of 4x4 a box of 2x3 leaves 2x4 beside it and 2x1 above, or 2x3 and 4x1. By volume the first
        // is better: 2 cells to 4. By side area, height times depth, the piece above is rated 1 both
        // ways, and the last of the cuts that are as good leaves the second.
        ToldCase {
            bins: &[
                (0, BIN, &[[2, 0, 0, 2, 4, 1], [0, 3, 0, 2, 1, 1]]),
                (1, BIN, &[[2, 0, 0, 2, 3, 1], [0, 3, 0, 4, 1, 1]]),
            ],
            boxes: box_list!(1: COLUMN, 2: COLUMN),
            excluded: &[],
            steps: &[(Ungrouped(2), 1, SideArea), (Ungrouped(1), 0, Volume)],
            answer: Ok(&[(2, 1, [0, 0, 0, 2, 3, 1]), (1, 0, [0, 0, 0, 2, 3, 1])]),
        },
        // The group goes whole: beside its first box 4x2 above and 1x2 are left, of which the second
        // box fills the newest. Box 3, which no step names, stays out.
        ToldCase {
            bins: &[(0, BIN, &[[0, 2, 0, 4, 2, 1]])],
            boxes: box_list!(1: [3, 2, 1] in [1], 2: [1, 2, 1] in [1], 3: [1, 1, 1]),
            excluded: &[],
            steps: &[(Grouped(1), 0, Volume)],
            answer: Ok(&[(1, 0, [0, 0, 0, 3, 2, 1]), (2, 0, [3, 0, 0, 1, 2, 1])]),
        },
        // Groups that are excluded may go into two bins. A box that is in both is placed twice.
        ToldCase {
            bins: &[(0, BIN, &[]), (1, BIN, &[])],
            boxes: box_list!(1: BIN in [1, 2]),
            excluded: &[(Grouped(1), Grouped(2))],
            steps: &[(Grouped(2), 0, Volume), (Grouped(1), 1, Volume)],
            answer: Ok(&[(1, 0, [0, 0, 0, 4, 4, 1]), (1, 1, [0, 0, 0, 4, 4, 1])]),
        },
    ];
    DONE
}

// Into two bins of 4x4, 0 and 1: box 1 alone, and the groups 5 and 6, of a column and of a box that
// fills a bin. Box 1 is excluded with both.
macro_rules! refused {
    ($steps:expr => $index:literal, $fault:ident) => {
        ToldCase {
            bins: &[(0, BIN, NEW), (1, BIN, NEW)],
            boxes: box_list!(1: COLUMN, 2: COLUMN in [5], 3: BIN in [6]),
            excluded: &[(Ungrouped(1), Grouped(5)), (Grouped(6), Ungrouped(1))],
            steps: $steps,
            answer: Err(($index, $fault)),
        }
    };
}

/// Packings of which a step is refused.
pub fn refused() -> &'static [ToldCase] {
    const REFUSED: &[ToldCase] = &[
        refused!(&[(Grouped(9), 0, Volume)] => 0, UnknownGroup),
        refused!(&[(Ungrouped(1), 0, Volume), (Ungrouped(2), 0, Volume)] => 1, UnknownGroup),
        refused!(&[(Ungrouped(1), 7, Volume)] => 0, UnknownBin),
        refused!(&[(Ungrouped(1), 0, Volume), (Ungrouped(1), 1, Volume)] => 1, NamedTwice),
        // There would be room for another column, 2x4.
        refused!(&[(Ungrouped(1), 0, Volume), (Grouped(5), 0, Volume)] => 1, Excluded),
        refused!(&[(Grouped(6), 1, Volume), (Grouped(5), 1, Volume)] => 1, NoRoom),
        // Of several faults the first is named: of a group that is not there, in a bin that is not;
        refused!(&[(Grouped(9), 7, Volume)] => 0, UnknownGroup),
        // of a group that was named, in a bin that is not there;
        refused!(&[(Ungrouped(1), 0, Volume), (Ungrouped(1), 7, Volume)] => 1, UnknownBin),
        // of a group that was named, in a bin that is excluded for it;
        refused!(&[(Ungrouped(1), 0, Volume), (Grouped(6), 1, Volume), (Ungrouped(1), 1, Volume)]
            => 2, NamedTwice),
        // of a group in a bin that is excluded for it, and has no room.
        refused!(&[(Ungrouped(1), 0, Volume), (Grouped(6), 0, Volume)] => 1, Excluded),
        // Of several steps the first.
        refused!(&[(Grouped(5), 0, Volume), (Grouped(9), 0, Volume), (Ungrouped(1), 7, Volume)]
            => 1, UnknownGroup),
    ];
    REFUSED
}
