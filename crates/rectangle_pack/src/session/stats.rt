//! How full a bin is.
ghost use Rattle.std.specs.Prelude.{◌≡◌, ◌+◌, ◌<◌, ◌^◌, length, IfSome};
ghost use Rattle.rectangle_pack_sections.specs.Counting.{total_volume};
ghost use Rattle.rectangle_pack.specs.Session.{outstanding_in};
ghost use Rattle.rectangle_pack.specs.Stats.{stats_in};

use crate::session::Session;
use crate::session::command::Outstanding;
use rectangle_pack_sections::bin_section::BinSection;
use rectangle_pack_sections::packed_location::section_at;
use std::alloc::Allocator;

/// The statistics of a bin as it is: volumes, in cells, and counts. Each cell of the bin is free or
/// in an outstanding placement, so `free_volume` and `placed_volume` add up to `bin_volume`.
#[derive(Debug, Clone, Copy, PartialEq)]
pub struct BinStats {
    /// The volume of the bin.
    pub bin_volume: u128,
    /// The volumes of its free sections, added up.
    pub free_volume: u128,
    /// The volumes of the outstanding placements in it, added up.
    pub placed_volume: u128,
    /// How many free sections it has.
    pub free_sections: usize,
    /// How many placements are outstanding in it. Boxes without cells are counted too.
    pub placements: usize,
}

impl<Id, BinId, A> Session<Id, BinId, A>
where
    Id: Ord + Clone + Drop,
    BinId: Ord + Clone + Drop,
    A: Allocator + Copy,
{
    /// The statistics of a bin, or `None` where there is no such bin. Takes no memory.
    ///
    /// This looks once at each free section of the bin, and once at each outstanding placement of
    /// the session.
    pub fn stats(&self, id: &BinId) -> Option<BinStats>
        // The answer has the volume of the bin, the volumes of its free sections added up, those of
        //   its outstanding placements added up, and how many there are of each, those without
        //   cells counted too. It is `None` exactly where there is no such bin.
        ensures stats { result ≡ stats_in BinId.cmp self.now id.now }
        // The free and the placed volume add up to that of the bin.
        ensures whole { IfSome result (λ s. s.free_volume + s.placed_volume ≡ s.bin_volume) }
    {
        let bin = self.bins.get(id)?;
        let bin_volume = bin.max_size().volume();
        let sections = bin.available_bin_sections().as_slice();
        let (placed_volume, placements) = totals_in(self.outstanding.as_slice(), id);
        Some(BinStats {
            bin_volume,
            free_volume: free_volume_of(sections),
            placed_volume,
            free_sections: sections.len(),
            placements,
        })
    }
}

// The volumes of sections, added up.
fn free_volume_of(sections: &[BinSection]) -> u128
    requires { total_volume sections.now < 2 ^ 128 }
    ensures { result ≡ total_volume sections.now }
{
    sections.iter().map(|section| section.whd().volume()).sum()
}

// The volumes of the outstanding boxes of a bin, added up, and how many there are.
fn totals_in<Id, B: Ord>(outstanding: &[Outstanding<Id, B>], id: &B) -> (u128, usize)
    requires { total_volume (outstanding_in B.cmp outstanding.now id.now) < 2 ^ 128 }
    ensures volume { result.0 ≡ total_volume (outstanding_in B.cmp outstanding.now id.now) }
    ensures count { result.1 ≡ length (outstanding_in B.cmp outstanding.now id.now) }
{
    let mut volume = 0;
    let mut count = 0;
    for placement in outstanding {
        if placement.bin == *id {
            volume += section_at(&placement.location).whd().volume();
            count += 1;
        }
    }
    (volume, count)
}
