//! What a session is told, and what it answers.
ghost use Rattle.std.specs.Prelude.{◌≡◌};
ghost use Rattle.rectangle_pack.specs.SessionTexts.{session_text};

use rectangle_pack_groups::grouped_rects_to_place::GroupedRectsToPlace;
use rectangle_pack_sections::packed_location::PackedLocation;
use std::alloc::{AllocError, AllocFailed, Allocator, Global};
use std::error::Error;
use std::{fmt, io};

/// A placement that was not released, nor was its bin cleared.
#[derive(Debug, PartialEq, Drop)]
pub struct Outstanding<Id, BinId> {
    /// Its number, by which it is released.
    pub number: u64,
    /// The id of the box.
    pub id: Id,
    /// The id of the bin.
    pub bin: BinId,
    /// The corner and the size of the box, in cells of the bin.
    pub location: PackedLocation,
}

/// The numbers of the placements of one packing: `first`, `first + 1`, and so on, `count` in all.
/// Without placements `first` is the next number, which is not given.
#[derive(Debug, Clone, Copy, PartialEq)]
pub struct Packed {
    /// The number of the first placement, if there is one.
    pub first: u64,
    /// How many placements there are.
    pub count: u64,
}

/// Why a session refused a call. The session is then as it was before.
#[derive(Debug, Clone, Copy, PartialEq)]
pub enum SessionError {
    /// The bin is there already.
    DuplicateBin,
    /// There is no such bin.
    UnknownBin,
    /// No placement of this number is outstanding.
    UnknownPlacement,
    /// The numbers of the placements would reach the greatest `u64`, which is never given.
    NumbersUsedUp,
    /// For some group each bin is excluded or does not take all of its boxes; of `pack_best`, with
    /// each heuristic of the list.
    NotEnoughBinSpace,
    /// Placements are outstanding in the bin.
    BinInUse,
    /// A side of the bin would exceed the greatest `u32`.
    TooLarge,
    /// No free section of the bin holds the box there.
    NotFree,
    /// No straight cuts part the boxes that stand in the bin.
    NotFromCuts,
    /// A growth or a clone was refused.
    OutOfMemory,
}

impl SessionError {
    // The text that it prints.
    fn text(&self) -> &'static str
        ensures { result.now ≡ session_text self.now }
    {
        match self {
            SessionError::DuplicateBin => "The bin is there already.",
            SessionError::UnknownBin => "There is no such bin.",
            SessionError::UnknownPlacement => "No placement of this number is outstanding.",
            SessionError::NumbersUsedUp => "The numbers of placements are used up.",
            SessionError::NotEnoughBinSpace => "Not enough space to place all of the rectangles.",
            SessionError::BinInUse => "Placements are outstanding in the bin.",
            SessionError::TooLarge => {
                "A side of the bin would exceed the greatest number of 32 bits."
            }
            SessionError::NotFree => "No free section holds the box there.",
            SessionError::NotFromCuts => "No straight cuts part the boxes that stand in the bin.",
            SessionError::OutOfMemory => "Out of memory.",
        }
    }
}

impl fmt::Display for SessionError {
    ghost use Rattle.std.specs.Prelude.{Some};
    ghost use Rattle.rectangle_pack.specs.SessionTexts.{session_text};

    // What is printed is the text that `session_text` lists for the error, such as "There is no
    //   such bin." for `UnknownBin`.
    ghost output = { λ e. Some (session_text e) };

    fn fmt<W: fmt::Write>(&self, f: &mut fmt::Formatter<W>) -> fmt::Result {
        write!(f, "{}", self.text())
    }
}

impl Error for SessionError {}

impl From<AllocError> for SessionError {
    ghost use Rattle.std.specs.Prelude.{◌≡◌};
    ghost use Rattle.rectangle_pack.specs.declared.session.command.SessionError.TheVariants.{OutOfMemory};

    // The error is `OutOfMemory`.
    ghost from_gives = { λ e error. error ≡ OutOfMemory };

    fn from(_: AllocError) -> Self {
        SessionError::OutOfMemory
    }
}

impl<T: Drop> From<AllocFailed<T>> for SessionError {
    ghost use Rattle.std.specs.Prelude.{◌≡◌};
    ghost use Rattle.rectangle_pack.specs.declared.session.command.SessionError.TheVariants.{OutOfMemory};

    // The error is `OutOfMemory`.
    ghost from_gives = { λ e error. error ≡ OutOfMemory };

    fn from(_: AllocFailed<T>) -> Self {
        SessionError::OutOfMemory
    }
}

impl From<SessionError> for io::Error {
    fn from(error: SessionError) -> io::Error {
        io::Error::other(error.text())
    }
}

/// A call of a session, as a value.
#[derive(Drop)]
pub enum Command<Id: Ord, BinId, GroupId: Ord, A: Allocator + Copy = Global> {
    /// Adds a bin of this size, in cells.
    AddBin {
        /// Its id.
        id: BinId,
        /// Its width.
        width: u32,
        /// Its height.
        height: u32,
        /// Its depth.
        depth: u32,
    },
    /// Packs all groups of a collection.
    Pack(GroupedRectsToPlace<Id, GroupId, A>),
    /// Releases the placement of this number.
    Release(u64),
    /// Joins a free section of a bin with those of a range that share a whole face with it.
    Coalesce {
        /// The id of the bin.
        bin: BinId,
        /// The index of the section in the list of the bin.
        idx: usize,
        /// Where the range starts.
        lo: usize,
        /// Where it ends: the first index after it.
        hi: usize,
    },
    /// Joins the free sections of this bin until no two share a whole face.
    CoalesceAll(BinId),
}

/// What a session answers to a command.
#[derive(Debug, Clone, Copy, PartialEq)]
pub enum Reply {
    /// It is done.
    Done,
    /// The boxes are packed, under these numbers.
    Packed(Packed),
    /// It is refused, and the session is as it was before.
    Refused(SessionError),
}
