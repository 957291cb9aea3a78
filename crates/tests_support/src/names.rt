//! Ids whose clones are refused.
ghost use Rattle.std.specs.Prelude.{◌≡◌};

use super::boxes::{SizedBin, SizedBox};
use super::refusing::Refusing;
use super::shapes::{has_list, named};
use crate::all_match;
use rectangle_pack_bins::target_bin::TargetBin;
use rectangle_pack_groups::grouped_rects_to_place::GroupedRectsToPlace;
use rectangle_pack_sections::rect_to_insert::RectToInsert;
use std::alloc::{AllocError, Global};
use std::cell::Cell;
use std::collections::BTreeMap;

/// How many clones are left, of all names that share it. A copy shares the count, which stays on
/// the heap to the end of the program.
#[derive(Clone, Copy)]
pub struct Clones {
    left: &'static Cell<u64>,
}

impl Clones {
    /// `left` of them. `AllocError` where there is no memory for the count.
    pub fn new(alloc: Global, left: u64) -> Result<Clones, AllocError> {
        let left = Box::new(alloc, Cell::new(left))?;
        Ok(Clones {
            left: Box::leak(left),
        })
    }

    /// From now on `left` are left.
    pub fn set(&self, left: u64) {
        self.left.set(left);
    }

    // Whether one was left, which is then taken.
    fn take(&self) -> bool {
        let left = self.left.get();
        self.left.set(left.saturating_sub(1));
        left > 0
    }
}

/// A number that is cloned only while clones are left; each takes one.
#[derive(Drop)]
#[derive_where(PartialEq, Eq, PartialOrd, Ord)]
pub struct Name {
    pub number: u32,
    #[derive_where(skip)]
    pub clones: Clones,
}

impl Clone for Name {
    ghost is_clone = { λ x y. y.number ≡ x.number };

    fn clone(&self) -> Result<Self, AllocError> {
        if !self.clones.take() {
            return Err(AllocError);
        }
        Ok(Name {
            number: self.number,
            clones: self.clones,
        })
    }
}

/// Boxes to place, by names and in numbered groups.
pub type Rects = GroupedRectsToPlace<Name, u32, Refusing>;

/// Bins by names.
pub type Bins = BTreeMap<Name, TargetBin<Refusing>, Refusing>;

/// Pushes the boxes, under names of their numbers.
pub fn push_all(
    rects: &mut Rects,
    alloc: Refusing,
    clones: Clones,
    boxes: &[SizedBox],
) -> Result<(), AllocError> {
    for sized in boxes {
        let (number, [width, height, depth], groups) = *sized;
        let groups = named(alloc, groups)?;
        let name = Name { number, clones };
        rects.push_rect(name, groups, RectToInsert::new(width, height, depth))?;
    }
    Ok(())
}

/// Whether these are the bins, in order, with these free sections.
pub fn have_lists(bins: &Bins, wanted: &[SizedBin]) -> bool {
    all_match!(bins.iter(), wanted, (name, bin), (number, _, list) =>
        name.number == *number && has_list(bin, list))
}
