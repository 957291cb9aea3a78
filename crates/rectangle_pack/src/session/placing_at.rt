//! A box at a corner of the caller's choice.
ghost use Rattle.std.specs.Prelude.{◌≡◌, IfSome, IsSome, OnOk, OnErr};
ghost use Rattle.std.specs.BTreeMap.{get};
ghost use Rattle.rectangle_pack_sections.specs.Bins.{bins_of};
ghost use Rattle.rectangle_pack_bins.specs.private.Indices.{IsFirstAroundAt};
ghost use Rattle.rectangle_pack.specs.PlacingAt.{PlacesAt, PlacesIn};
ghost use Rattle.rectangle_pack.specs.Session.{IsSession};

use crate::session::Session;
use crate::session::command::{Outstanding, SessionError};
use rectangle_pack_bins::target_bin::{TargetBin, cut_round, first_around};
use rectangle_pack_sections::packed_location::PackedLocation;
use std::alloc::{AllocError, Allocator};
use std::collections::BTreeMap;

impl<Id, BinId, A> Session<Id, BinId, A>
where
    Id: Ord + Clone + Drop,
    BinId: Ord + Clone + Drop,
    A: Allocator + Copy,
{
    /// Places a box at this location of the bin, as `TargetBin::place_at` does, and answers the
    /// number of the placement, by which it is released. Knots, pillars and a layout that was made
    /// elsewhere go in so.
    ///
    /// `UnknownBin` says that there is no such bin, `NumbersUsedUp` that the next number is the
    /// greatest `u64`, `NotFree` that no free section of the bin holds the box there, also where
    /// its cells are free in several, and `OutOfMemory` that a growth was refused. They are looked
    /// at in this order, and the session is then as it was.
    ///
    /// ```
    /// let mut session: Session<&'static str, &'static str> = Session::new(alloc, 0);
    /// session.add_bin("board", 10, 10, 1)?;
    /// let knot = PackedLocation::new(4, 3, 0, WidthHeightDepth::new(2, 2, 1));
    /// assert_eq!(rt; session.place_at("board", "knot", knot)?, 0);
    /// assert_eq!(rt;
    ///     session.place_at("board", "again", knot),
    ///     Err(SessionError::NotFree)
    /// );
    /// ```
    pub fn place_at(
        &mut self,
        bin: BinId,
        id: Id,
        location: PackedLocation,
    ) -> Result<u64, SessionError>
        // Placed: the bin is there, and has the list that a placing of the box at this location
        //   leaves, as `placed` of `TargetBin::place_at` says it for `true`.
        // Placed: the answer is the next number. The placement follows the outstanding ones under
        //   it, with these ids and this location, and the next number grows by 1. All else stays.
        //   [place_at.number_is_one_too_great]
        // `UnknownBin`: there is no such bin. The session is as it was.
        // `NumbersUsedUp`: the bin is there, and the next number and 1 add up to more than the
        //   greatest `u64`. The session is as it was.
        // `NotFree`: neither of these is so, and the box is a part of no free section of the bin.
        //   The session is as it was.
        // `OutOfMemory`: none of these is so. The session is as it was.
        // No other error is answered.
        ensures placed { PlacesAt BinId.cmp bin id location self.old result self.new }
        // What always holds of a session holds afterwards. [place_at.piece_behind_is_left_out]
        ensures always { IsSession BinId.cmp self.new }
    {
        let Some(target) = self.bins.get(&bin) else {
            return Err(SessionError::UnknownBin);
        };
        let number = self.next;
        let Some(next) = number.checked_add(1) else {
            return Err(SessionError::NumbersUsedUp);
        };
        let Some(index) = first_around(target, &location) else {
            return Err(SessionError::NotFree);
        };
        self.outstanding.reserve(1)?;
        cut_in(&mut self.bins, &bin, index, &location)?;
        self.outstanding.push_reserved(Outstanding {
            number,
            id,
            bin,
            location,
        });
        self.next = next;
        Ok(number)
    }
}

// Cuts the free section at the index round the box, in the bin of this id.
fn cut_in<B: Ord + Drop, A: Allocator + Copy>(
    bins: &mut BTreeMap<B, TargetBin<A>, A>,
    id: &B,
    index: usize,
    location: &PackedLocation,
) -> Result<(), AllocError>
    requires around { IsSome (get B.cmp bins.old id.now) ×
        IfSome (get B.cmp bins.old id.now)
        (λ held. IsFirstAroundAt held.bin.sections location.now index) }
    ensures ok { OnOk result
        (PlacesIn B.cmp id.now location.now (bins_of bins.old.entries)
        (bins_of bins.new.entries)) }
    ensures err { OnErr result (bins_of bins.new.entries ≡ bins_of bins.old.entries) }
{
    match bins.get_mut(id) {
        Some(bin) => cut_round(bin, index, location),
        None => unreachable!(),
    }
}
