//! The free sections of a bin, joined.
ghost use Rattle.std.specs.Prelude.{◌≡◌, IfSome};
ghost use Rattle.std.specs.Map.{lookup};
ghost use Rattle.std.specs.BTreeMap.{is_at};
ghost use Rattle.std.specs.Option.{option_map};
ghost use Rattle.rectangle_pack_sections.specs.Bins.{Bin};
ghost use Rattle.rectangle_pack_lists.specs.Joining.{IsJoined, IsSwept, ShareNoFace};
ghost use Rattle.rectangle_pack.specs.Session.{IsSession, Coalesces, reply_of};

use crate::session::Session;
use crate::session::command::SessionError;
use rectangle_pack_bins::target_bin::{coalesce_all_in, was_coalesced};
use std::alloc::Allocator;
use std::ops::Range;

impl<Id, BinId, A> Session<Id, BinId, A>
where
    Id: Ord + Clone + Drop,
    BinId: Ord + Clone + Drop,
    A: Allocator + Copy,
{
    /// Whether a coalescing call that named the bin was accepted since it was added or last
    /// cleared, also where it joined nothing; `None` where there is no such bin.
    pub fn was_coalesced(&self, id: &BinId) -> Option<bool>
        ensures { result ≡ option_map (λ (b : Bin). b.coalesced)
            (lookup (is_at (BinId.cmp id.now)) self.now.bins) }
    {
        Some(was_coalesced(self.bins.get(id)?))
    }

    /// Joins a free section of the bin with those of the range that share a whole face with it, as
    /// `TargetBin::coalesce_available_sections` does. `UnknownBin` says that there is no such bin.
    /// Takes no memory.
    pub fn coalesce(
        &mut self,
        id: &BinId,
        idx: usize,
        range: Range<usize>,
    ) -> Result<(), SessionError>
        // Done: the bin is there, its list is one that the rule of joining allows for this index
        //   and range, as `joined` of `TargetBin::coalesce_available_sections` says it, and it
        //   counts as coalesced. All else stays. [shares_face.faces_that_meet_in_part_are_joined]
        // `UnknownBin`: there is no such bin. The session is as it was. No other error is answered.
        ensures joined { let joins = IsJoined idx range.start range.end in
            Coalesces BinId.cmp joins id.now self.old (reply_of result) self.new }
        // What always holds of a session holds afterwards.
        //   [shares_face.faces_that_meet_in_part_are_joined]
        ensures always { IsSession BinId.cmp self.new }
    {
        let Some(bin) = self.bins.get_mut(id) else {
            return Err(SessionError::UnknownBin);
        };
        bin.coalesce_available_sections(idx, range);
        Ok(())
    }

    /// Joins the free sections of the bin until no two share a whole face, as
    /// `TargetBin::coalesce_all` does. A bin without placements need not become one section;
    /// `clear_bin` makes it one. `UnknownBin` says that there is no such bin. Takes no memory.
    pub fn coalesce_all(&mut self, id: &BinId) -> Result<(), SessionError>
        // Done: the bin is there, its list is one that the rule of the sweep allows, as `swept` of
        //   `TargetBin::coalesce_all` says it, and it counts as coalesced. All else stays.
        //   [join_slots.goes_upward, join_all_in.cuts_anew, at_faces.section_before_is_missed]
        // `UnknownBin`: there is no such bin. The session is as it was. No other error is answered.
        ensures swept { Coalesces BinId.cmp IsSwept id.now self.old (reply_of result) self.new }
        // Afterwards no two free sections of that bin share a whole face.
        //   [join_slots.does_nothing]
        ensures no_face { IfSome (lookup (is_at (BinId.cmp id.now)) self.new.bins)
            (λ (b : Bin). ShareNoFace b.sections) }
        // What always holds of a session holds afterwards.
        //   [shares_face.faces_that_meet_in_part_are_joined]
        ensures always { IsSession BinId.cmp self.new }
    {
        let Some(bin) = self.bins.get_mut(id) else {
            return Err(SessionError::UnknownBin);
        };
        coalesce_all_in(bin, &mut self.corners);
        Ok(())
    }
}
