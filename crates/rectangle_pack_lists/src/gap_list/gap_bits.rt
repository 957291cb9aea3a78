//! Which places are gaps, in the bits of bytes: one byte for each block of places.
ghost use Rattle.std.specs.Prelude.{◌≡◌, ◌+◌, ◌*◌, ◌/◌, ◌<◌, ◌++◌, ◌∷◌, List, Bool, false, length, take, set, slice_index_or};
ghost use Rattle.std.specs.Vec.{vec_capacity};
ghost use Rattle.rectangle_pack_lists.specs.private.GapBits.{bits_of, flags_of};

use crate::gap_list::summary::BLOCK;
use std::alloc::Allocator;

// Whether a place of a block is a gap. Its number counts from the first of the block.
#[inline(always)]
pub(crate) fn has_gap(bits: u8, place: usize) -> bool
    requires { place < 8 }
    ensures { result ≡ slice_index_or (bits_of bits) place false }
{
    bits >> place & 1 == 1
}

// The bits of a block once they say of a place whether it is a gap.
#[inline(always)]
pub(crate) fn marked(bits: u8, place: usize, is_gap: bool) -> u8
    requires { place < 8 }
    ensures { bits_of result ≡ set (bits_of bits) place is_gap }
{
    let bit: u8 = 1 << place;
    if is_gap { bits | bit } else { bits & !bit }
}

// Says of the place behind the first `places` that it is no gap. The caller sees to it that there
// is room. Takes no memory.
#[inline(always)]
pub(crate) fn push_place<A: Allocator>(gaps: &mut Vec<u8, A>, places: usize)
    requires long { length gaps.old.items ≡ (places + 7) / 8 }
    requires room { places < vec_capacity gaps.old * 8 }
    ensures long { length gaps.new.items ≡ places / 8 + 1 }
    ensures flags { (rest : List Bool) ×
        (flags_of gaps.new.items ≡ take places (flags_of gaps.old.items) ++ false ∷ rest) }
    ensures capacity { vec_capacity gaps.new ≡ vec_capacity gaps.old }
{
    let block = places / BLOCK;
    if block == gaps.len() {
        gaps.push_reserved(0);
    } else {
        gaps[block] = marked(gaps[block], places % BLOCK, false);
    }
}
