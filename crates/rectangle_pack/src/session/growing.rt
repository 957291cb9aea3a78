//! A bin of a session that becomes larger.
ghost use Rattle.rectangle_pack.specs.Session.{IsSession, reply_of};
ghost use Rattle.rectangle_pack.specs.Growing.{GrowsBin};

use crate::session::Session;
use crate::session::command::SessionError;
use rectangle_pack_sections::axis::Axis;
use std::alloc::Allocator;

impl<Id, BinId, A> Session<Id, BinId, A>
where
    Id: Ord + Clone + Drop,
    BinId: Ord + Clone + Drop,
    A: Allocator + Copy,
{
    /// Makes the bin larger by so many cells on one axis. What is new is one more free section, the
    /// newest of the bin, where it has cells; all other sections and all placements stay where they
    /// are. While the bin does not count as coalesced, straight cuts still part it into its boxes;
    /// the first cut is where the bin ended before.
    ///
    /// `UnknownBin` says that there is no such bin; this is looked at first. `TooLarge` says that
    /// its side on the axis and `by` add up to more than the greatest `u32`, `OutOfMemory` that a
    /// growth was refused. The session is then as it was.
    ///
    /// ```
    /// let mut session: Session<u32, u32> = Session::new(alloc, 0);
    /// session.add_bin(1, 4, 10, 1)?;
    /// session.grow_bin(&1, Axis::X, 6)?;
    /// let sheet = session.bins().get(&1).ok_or("no such bin")?;
    /// let old = BinSection::new(0, 0, 0, WidthHeightDepth::new(4, 10, 1));
    /// let new = BinSection::new(4, 0, 0, WidthHeightDepth::new(6, 10, 1));
    /// assert_eq!(rt;
    ///     sheet.available_bin_sections().as_slice(),
    ///     [old, new].as_slice()
    /// );
    /// ```
    pub fn grow_bin(&mut self, id: &BinId, axis: Axis, by: u32) -> Result<(), SessionError>
        // Done: the bin is there, and its side on the axis and `by` add up to less than 2^32. It is
        //   larger by so many cells on the axis. The part at the old end and beyond it stands as a
        //   free section at the end of its list, where it has cells. All else in the bin and in the
        //   session stays. [grow.new_cells_overlap]
        // `UnknownBin`: there is no such bin. The session is as it was.
        // `TooLarge`: the bin is there, and its side on the axis and `by` add up to 2^32 or more.
        //   The session is as it was.
        // `OutOfMemory`: the bin is there, and these add up to less. The session is as it was.
        // No other error is answered.
        ensures grown { GrowsBin BinId.cmp id.now axis by self.old (reply_of result) self.new }
        // What always holds of a session holds afterwards. [grow.new_cells_overlap]
        ensures always { IsSession BinId.cmp self.new }
    {
        let Some(bin) = self.bins.get_mut(id) else {
            return Err(SessionError::UnknownBin);
        };
        if !bin.can_grow(axis, by) {
            return Err(SessionError::TooLarge);
        }
        self.corners
            .reserve(bin.available_bin_sections().len() + 1)?;
        bin.grow(axis, by)?;
        Ok(())
    }
}
