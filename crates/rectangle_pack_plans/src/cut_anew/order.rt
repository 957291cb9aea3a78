//! The order of the free sections.
ghost use Rattle.std.specs.Prelude.{◌≡◌, List, map, All, IfOk};
ghost use Rattle.std.specs.List.Sorted.{IsPermutation};
ghost use Rattle.rectangle_pack_plans.specs.CuttingAnew.{sections_alone, AreThickestFirst};
ghost use Rattle.rectangle_pack_plans.specs.private.CuttingAnew.{HaveBothFit, ranked};

use crate::cut_anew::strips::FreeSection;
use rectangle_pack_sections::bin_section::BinSection;
use rectangle_pack_sections::least_side::least_side;
use rectangle_pack_sections::width_height_depth::WidthHeightDepth;
use std::alloc::{AllocError, Allocator};

// More than any volume: that of three sides of 32 bits is less.
const VOLUMES: u128 = 1 << 96;

// A free section, and where it stands in the order: the lesser rank first, and at equal ranks the
// smaller section.
#[derive(Clone, Copy)]
struct Ranked {
    rank: u128,
    section: BinSection,
}

// Ranked by thickness in a bin of this size, the thickest first, and then by the volume of the room.
fn rank(bin: &WidthHeightDepth, free: &FreeSection) -> Ranked
    ensures { result ≡ ranked bin.now free.now }
{
    let whd = free.section.whd();
    let thinness = u32::MAX - least_side(bin, &whd);
    Ranked {
        rank: u128::from(thinness) * VOLUMES + free.room.whd().volume(),
        section: free.section,
    }
}

fn rank_all<A: Allocator>(
    alloc: A,
    bin: &WidthHeightDepth,
    free: &[FreeSection],
) -> Result<Vec<Ranked, A>, AllocError>
    ensures { IfOk result (λ v. v.items ≡ map (ranked bin.now) free.now) }
{
    let mut all = Vec::with_capacity(alloc, free.len())?;
    for one in free {
        all.push(rank(bin, one))?;
    }
    Ok(all)
}

fn without_ranks<A: Allocator>(alloc: A, all: &[Ranked]) -> Result<Vec<BinSection, A>, AllocError>
    ensures { IfOk result (λ v. v.items ≡ map (λ r. r.section) all.now) }
{
    let mut sections = Vec::with_capacity(alloc, all.len())?;
    for one in all {
        sections.push(one.section)?;
    }
    Ok(sections)
}

// The sections in order: the thickest first, of equally thick ones that of the smallest room, and of
// those of equally large rooms the smallest.
pub(crate) fn in_order<A: Allocator + Copy>(
    alloc: A,
    bin: &WidthHeightDepth,
    free: &[FreeSection],
) -> Result<Vec<BinSection, A>, AllocError>
    requires fit { All HaveBothFit free.now }
    ensures { IfOk result (λ v. (sorted : List FreeSection) × IsPermutation free.now sorted
        × AreThickestFirst bin.now sorted × (v.items ≡ sections_alone sorted)) }
{
    let mut all = rank_all(alloc, bin, free)?;
    all.sort_unstable_by_key(|one| (one.rank, one.section.whd().volume()));
    let sections = without_ranks(alloc, all.as_slice())?;
    Ok(sections)
}
