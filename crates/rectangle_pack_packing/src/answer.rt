//! What a packing answers.
ghost use Rattle.std.specs.Prelude.{◌≡◌, ◌++◌, List, length, IfOk, OnOk};
ghost use Rattle.rectangle_pack_sections.specs.Clones.{ClonesEqual};
ghost use Rattle.rectangle_pack_packing.specs.declared.answer.Placement.{Placement};
ghost use Rattle.rectangle_pack_packing.specs.Placed.{AreNamed, AreLastPlacements, placements_of, locations_of};

use rectangle_pack_sections::packed_location::PackedLocation;
use std::alloc::{AllocError, Allocator, Global};
use std::collections::BTreeMap;
use std::error::Error;
use std::fmt;

/// A box that was placed: its id, its bin and where it stands there.
#[derive(Debug, PartialEq, Drop)]
pub struct Placement<Id, BinId> {
    /// The id of the box, a clone of the one that it was pushed under.
    pub id: Id,
    /// The id of the bin.
    pub bin: BinId,
    /// The corner and the size of the box, in cells of the bin.
    pub location: PackedLocation,
}

/// What a packing placed.
#[derive(Drop)]
#[derive_where(Debug, PartialEq; Id, BinId)]
pub struct RectanglePackOk<Id: Ord, BinId, A: Allocator + Copy = Global> {
    packed_locations: BTreeMap<Id, (BinId, PackedLocation), A>,
    placements: Vec<Placement<Id, BinId>, A>,
}

impl<Id: Ord, BinId, A: Allocator + Copy> RectanglePackOk<Id, BinId, A> {
    /// The bin and the location of each id. An id that is in several groups, or in one group
    /// several times, is placed as often; here it is found at its last placement.
    pub fn packed_locations(&self) -> &BTreeMap<Id, (BinId, PackedLocation), A>
        // The answer has the bin and the location of each id, as the packing answered them.
        ensures { result.now.entries ≡ locations_of self.now }
    {
        &self.packed_locations
    }

    /// The placements alone, as `placements` lists them.
    pub fn into_placements(self) -> Vec<Placement<Id, BinId>, A>
    where
        Id: Drop,
        BinId: Drop,
        // The answer has all placements, in the order in which they were made.
        ensures { result.items ≡ placements_of self }
    {
        let RectanglePackOk {
            packed_locations: _,
            placements,
        } = self;
        placements
    }

    /// All placements, in the order in which they were made: one for each entry of each group.
    pub fn placements(&self) -> &[Placement<Id, BinId>]
        ensures { result.now ≡ placements_of self.now }
    {
        self.placements.as_slice()
    }
}

/// What a packing answers that leaves out what does not fit.
#[derive(Drop)]
pub struct Fitted<'a, P, K, A: Allocator + Copy = Global> {
    /// What was placed.
    pub packed: P,
    /// The groups that no bin took, in the order in which they were tried: those of the collection.
    pub left: Vec<&'a K, A>,
}

/// Why a packing failed.
#[derive(Debug, PartialEq, Drop)]
pub enum RectanglePackError {
    /// For some group each bin is excluded or does not take all of its boxes, as the groups
    /// before it left the bins. With `pack_rects` those groups stay placed. With `pack_rects_best`
    /// this is so with each heuristic of the list, and nothing stays placed.
    NotEnoughBinSpace,
    /// A growth or a clone was refused. The bins are as they were before the call.
    OutOfMemory,
}

impl fmt::Display for RectanglePackError {
    ghost use Rattle.std.specs.Prelude.{Some};
    ghost use Rattle.rectangle_pack_packing.specs.PackingTexts.{packing_text};

    // What is printed is "Not enough space to place all of the rectangles." or "Out of memory.", by
    //   the error.
    ghost output = { λ e. Some (packing_text e) };

    fn fmt<W: fmt::Write>(&self, f: &mut fmt::Formatter<W>) -> fmt::Result {
        match self {
            RectanglePackError::NotEnoughBinSpace => {
                write!(f, "Not enough space to place all of the rectangles.")
            }
            RectanglePackError::OutOfMemory => write!(f, "Out of memory."),
        }
    }
}

impl Error for RectanglePackError {}

/// The last placement of each id.
pub fn last_placements<Id, BinId, A>(
    alloc: A,
    placements: &[Placement<Id, BinId>],
) -> Result<BTreeMap<Id, (BinId, PackedLocation), A>, AllocError>
where
    Id: Ord + Clone + Drop,
    BinId: Ord + Clone + Drop,
    A: Allocator + Copy,
    requires ids { ClonesEqual Id.is_clone Id.eq }
    requires bin_ids { ClonesEqual BinId.is_clone BinId.eq }
    ensures { IfOk result (λ m. AreLastPlacements Id.cmp BinId.cmp placements.now m.entries) }
{
    let mut last = BTreeMap::new(alloc);
    for placement in placements {
        last.insert(
            placement.id.clone()?,
            (placement.bin.clone()?, placement.location),
        )?;
    }
    Ok(last)
}

/// The answer of a packing that made these placements, with the last placement of each id. Takes no
/// memory.
pub fn answer_of<Id: Ord, BinId, A: Allocator + Copy>(
    packed_locations: BTreeMap<Id, (BinId, PackedLocation), A>,
    placements: Vec<Placement<Id, BinId>, A>,
) -> RectanglePackOk<Id, BinId, A>
    ensures locations { locations_of result ≡ packed_locations.entries }
    ensures placements { placements_of result ≡ placements.items }
{
    RectanglePackOk {
        packed_locations,
        placements,
    }
}

/// Makes each location a placement, of the id at the same index, in this bin.
pub fn name_all<Id, B, A>(
    placements: &mut Vec<Placement<Id, B>, A>,
    ids: &[Id],
    bin: &B,
    locations: &[PackedLocation],
) -> Result<(), AllocError>
where
    Id: Ord + Clone + Drop,
    B: Ord + Clone + Drop,
    A: Allocator,
    requires ids { ClonesEqual Id.is_clone Id.eq }
    requires bin_ids { ClonesEqual B.is_clone B.eq }
    requires lengths { length ids.now ≡ length locations.now }
    ensures { OnOk result
        ((added : List (Placement Id B)) ×
        AreNamed Id.cmp B.cmp ids.now bin.now locations.now added ×
        (placements.new.items ≡ placements.old.items ++ added)) }
{
    for i in 0..ids.len() {
        let placement = Placement {
            id: ids[i].clone()?,
            bin: bin.clone()?,
            location: locations[i],
        };
        placements.push(placement)?;
    }
    Ok(())
}
