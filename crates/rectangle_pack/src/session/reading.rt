//! The placements that stand in one bin.
ghost use Rattle.std.specs.Prelude.{◌≡◌, map, IfOk};
ghost use Rattle.rectangle_pack.specs.Reading.{ArePlacementsIn, placements_in};

use crate::session::Session;
use crate::session::command::{Outstanding, SessionError};
use std::alloc::{AllocError, Allocator};

// The placements of the list that stand in the bin of this id, in their order.
fn find_in<'a, Id, B: Ord, A: Allocator>(
    alloc: A,
    outstanding: &'a [Outstanding<Id, B>],
    id: &B,
) -> Result<Vec<&'a Outstanding<Id, B>, A>, AllocError>
    ensures { IfOk result
        (λ found. map (λ r. r.now) found.items ≡ placements_in B.cmp outstanding.now id.now) }
{
    let mut found = Vec::new(alloc);
    for placement in outstanding {
        if placement.bin == *id {
            found.push(placement)?;
        }
    }
    Ok(found)
}

impl<Id, BinId, A> Session<Id, BinId, A>
where
    Id: Ord + Clone + Drop,
    BinId: Ord + Clone + Drop,
    A: Allocator + Copy,
{
    /// The outstanding placements of one bin, in the order of their numbers. This looks once at
    /// each outstanding placement of the session.
    ///
    /// `UnknownBin` says that there is no such bin; this is looked at first. `OutOfMemory` says
    /// that a growth was refused.
    pub fn outstanding_in(
        &self,
        id: &BinId,
    ) -> Result<Vec<&Outstanding<Id, BinId>, A>, SessionError>
        // The answer has those of the outstanding placements that stand in this bin, and no others,
        //   in the order of their numbers. [find_in.placements_of_other_bins_are_found]
        // `UnknownBin`: there is no such bin.
        // `OutOfMemory`: the bin is there. No other error is answered.
        ensures found { ArePlacementsIn BinId.cmp self.now id.now result }
    {
        if !self.bins.contains_key(id) {
            return Err(SessionError::UnknownBin);
        }
        let alloc = *self.outstanding.allocator();
        let found = find_in(alloc, self.outstanding.as_slice(), id)?;
        Ok(found)
    }
}
