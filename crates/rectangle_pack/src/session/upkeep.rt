//! Bins that are made whole again, and bins that are taken out.
ghost use Rattle.rectangle_pack.specs.Session.{IsSession, reply_of};
ghost use Rattle.rectangle_pack.specs.Upkeep.{Clears, RemovesBin};

use crate::session::Session;
use crate::session::command::SessionError;
use crate::session::outstanding::{forget, is_in_use};
use std::alloc::Allocator;

impl<Id, BinId, A> Session<Id, BinId, A>
where
    Id: Ord + Clone + Drop,
    BinId: Ord + Clone + Drop,
    A: Allocator + Copy,
{
    /// Makes a bin whole again: it has one free section, which is all of it, and does not count as
    /// coalesced. Its placements are no longer outstanding, and the others stay in their order. No
    /// number is given again.
    ///
    /// `UnknownBin` says that there is no such bin, `OutOfMemory` that a growth was refused. The
    /// session is then as it was.
    ///
    /// Once the box of the first example of `Session` is packed, the sheet is made whole again.
    ///
    /// ```
    /// session.clear_bin(&"sheet")?;
    /// assert!(rt; session.outstanding().is_empty());
    /// ```
    pub fn clear_bin(&mut self, id: &BinId) -> Result<(), SessionError>
        // Done: the bin is there. It is as a new bin of its size: it has one free section, which is
        //   all of it, and does not count as coalesced.
        // Done: the placements of the bin are no longer outstanding, and the others stay in their
        //   order. The next number stays, and so do the other bins.
        //   [forget.placement_is_kept]
        // `UnknownBin`: there is no such bin. The session is as it was.
        // `OutOfMemory`: the bin is there and has no free section. The session is as it was.
        // No other error is answered.
        ensures cleared { Clears BinId.cmp id.now self.old (reply_of result) self.new }
        // What always holds of a session holds afterwards. [forget.placement_is_kept]
        ensures always { IsSession BinId.cmp self.new }
    {
        let Some(bin) = self.bins.get_mut(id) else {
            return Err(SessionError::UnknownBin);
        };
        bin.clear()?;
        forget(&mut self.outstanding, id);
        Ok(())
    }

    /// Takes out a bin in which no placement is outstanding. Takes no memory.
    ///
    /// `UnknownBin` says that there is no such bin; this is looked at first. `BinInUse` says that
    /// placements are outstanding in the bin. The session is then as it was.
    pub fn remove_bin(&mut self, id: &BinId) -> Result<(), SessionError>
        // Done: the bin was there, and no outstanding placement stands in it. It is there no more,
        //   and all else stays. [is_in_use.placement_0_is_passed_over]
        // `UnknownBin`: there is no such bin. The session is as it was.
        // `BinInUse`: the bin is there, and some outstanding placement stands in it. The session is
        //   as it was. [is_in_use.placement_0_is_passed_over]
        // No other error is answered.
        ensures removed { RemovesBin BinId.cmp id.now self.old (reply_of result) self.new }
        // What always holds of a session holds afterwards. [is_in_use.placement_0_is_passed_over]
        ensures always { IsSession BinId.cmp self.new }
    {
        if !self.bins.contains_key(id) {
            return Err(SessionError::UnknownBin);
        }
        if is_in_use(self.outstanding.as_slice(), id) {
            return Err(SessionError::BinInUse);
        }
        self.bins.remove(id);
        Ok(())
    }
}
