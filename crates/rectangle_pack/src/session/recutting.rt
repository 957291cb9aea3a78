//! The free part of a bin, cut anew.
ghost use Rattle.std.specs.Prelude.{◌++◌, List, All, IfOk, MatchOption, OnOk};
ghost use Rattle.rectangle_pack_sections.specs.Boxes.{Cuboid, FitsU32, IsPartOf};
ghost use Rattle.rectangle_pack_sections.specs.CutTrees.{IsFromCuts};
ghost use Rattle.rectangle_pack_plans.specs.CuttingAnew.{IsCutAnew};
ghost use Rattle.rectangle_pack.specs.Session.{IsSession, reply_of};
ghost use Rattle.rectangle_pack.specs.Recutting.{IsCutStraight, IsWholeIfEmpty, KeepsFree, Recuts, standing_in};

use crate::session::Session;
use crate::session::command::{Outstanding, SessionError};
use crate::session::cut_plan::{gather_outstanding, whole};
use rectangle_pack_bins::target_bin::put_sections;
use rectangle_pack_plans::cut_anew::cut_anew;
use rectangle_pack_sections::bin_section::BinSection;
use std::alloc::{AllocError, Allocator};

impl<Id, BinId, A> Session<Id, BinId, A>
where
    Id: Ord + Clone + Drop,
    BinId: Ord + Clone + Drop,
    A: Allocator + Copy,
{
    /// Cuts the free part of the bin anew: straight cuts, each across the whole of its part, part
    /// the bin into its placements, which stay where they are, and the new free sections, boxes
    /// without cells aside. First it cuts off what is free beyond all placements, the thickest strip
    /// first. What bounds these it then cuts into slabs, on the first axis on which a plane goes
    /// through none of them, and each slab in the same way.
    ///
    /// The thickest section stands first, by its least side, an axis on which the bin has one cell
    /// left out. Of equally thick ones that stands first whose room has the fewest cells: the bin, or
    /// the slab, from which it was cut off. Where these tie, the smallest does. A bin without
    /// placements becomes one section, if it has cells. The bin counts as coalesced where it did
    /// before.
    ///
    /// `UnknownBin` says that there is no such bin; this is looked at first. `NotFromCuts` says that
    /// no straight cuts part the boxes that stand in the bin, `OutOfMemory` that a growth was
    /// refused. The session is then as it was.
    ///
    /// ```
    /// let mut session: Session<&'static str, &'static str> = Session::new(alloc, 0);
    /// session.add_bin("board", 10, 10, 1)?;
    /// let knot = PackedLocation::new(0, 0, 0, WidthHeightDepth::new(4, 2, 1));
    /// session.place_at("board", "knot", knot)?;
    /// session.recut(&"board")?;
    /// let board = session.bins().get(&"board").ok_or("no such bin")?;
    /// let above = BinSection::new(0, 2, 0, WidthHeightDepth::new(10, 8, 1));
    /// let right = BinSection::new(4, 0, 0, WidthHeightDepth::new(6, 2, 1));
    /// assert_eq!(rt;
    ///     board.available_bin_sections().as_slice(),
    ///     [above, right].as_slice()
    /// );
    /// ```
    pub fn recut(&mut self, id: &BinId) -> Result<(), SessionError>
        // Done: the bin is there. Its free sections and the boxes with cells that stand in it are
        //   from straight cuts of it. Each section has cells. All else stays, also whether the bin
        //   counts as coalesced. [recut.bin_counts_as_new]
        // Done: where boxes with cells stand in the bin, the free sections are those that the rule
        //   names: the strips round the bounds of the boxes, the thickest first, and those of each
        //   slab of the bounds, on the first axis with an open plane.
        //   [cut_strips.each_strip_is_halved, thicker.thinner_strip_goes_first]
        // Done: where boxes with cells stand in the bin, the thickest free section stands first, of
        //   equally thick ones that of the smallest room, the bin or the slab from which it was cut
        //   off, and of those that tie then the smallest.
        //   [in_order.sorting_is_left_out, rank.section_counts_for_its_room,
        //   cut_strips.room_is_what_earlier_strips_left]
        // `UnknownBin`: there is no such bin. The session is as it was.
        // `NotFromCuts`: the bin is there, and there are no free sections with which the boxes that
        //   stand in it are from straight cuts of it. The session is as it was.
        // `OutOfMemory`: the bin is there. The session is as it was.
        // No other error is answered.
        ensures recut { Recuts BinId.cmp id.now self.old (reply_of result) self.new }
        // Done: in each bin each cell is in as many free sections as before.
        //   [cut_anew.a_strip_is_lost]
        ensures filled { OnOk result (KeepsFree BinId.cmp self.old self.new) }
        // Done: the free sections and placements of the bin are from straight cuts of it, also
        //   where it counts as coalesced.
        ensures from_cuts { OnOk result (IsCutStraight BinId.cmp id.now self.new) }
        // Done: where no box with cells stands in the bin, and the bin has cells, its one free
        //   section is all of it. [cut_anew.empty_whole_is_in_two_sections]
        ensures empty { OnOk result (IsWholeIfEmpty BinId.cmp id.now self.new) }
        // What always holds of a session holds afterwards.
        ensures always { IsSession BinId.cmp self.new }
    {
        let Some(bin) = self.bins.get_mut(id) else {
            return Err(SessionError::UnknownBin);
        };
        let alloc = *self.outstanding.allocator();
        let outstanding = self.outstanding.as_slice();
        let Some(sections) = free_anew(alloc, whole(bin), outstanding, id)? else {
            return Err(SessionError::NotFromCuts);
        };
        self.corners.reserve(sections.len())?;
        put_sections(bin, sections);
        Ok(())
    }
}

// The free part of a bin, cut anew round the boxes with cells that stand in it; `None` where these
// are from no cuts.
fn free_anew<Id, B: Ord, A: Allocator + Copy>(
    alloc: A,
    whole: BinSection,
    outstanding: &[Outstanding<Id, B>],
    id: &B,
) -> Result<Option<Vec<BinSection, A>>, AllocError>
    requires fits { FitsU32 whole }
    requires inside { All (λ b. IsPartOf b whole) (standing_in B.cmp outstanding.now id.now) }
    ensures { let boxes = standing_in B.cmp outstanding.now id.now in
        IfOk result
        (λ found. MatchOption found
        ((free : List Cuboid) → ¬ IsFromCuts (free ++ boxes) whole)
        (λ v. IsCutAnew whole boxes v.items)) }
{
    let mut boxes = Vec::new(alloc);
    gather_outstanding(&mut boxes, outstanding, id)?;
    cut_anew(alloc, whole, boxes.as_mut_slice())
}
