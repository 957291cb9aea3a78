//! The text of a push that is refused.
use crate::target_bin::PushBinSectionError;
use std::fmt;

impl fmt::Display for PushBinSectionError {
    fn fmt<W: fmt::Write>(&self, f: &mut fmt::Formatter<W>) -> fmt::Result {
        match self {
            PushBinSectionError::OutOfBounds(section) => f
                .debug_tuple("BinSection")
                .field(section)
                .finish(),
            PushBinSectionError::Overlaps {
                remaining_section,
                new_section,
            } => f
                .debug_struct("Overlaps")
                .field("remaining_section", remaining_section)
                .field("new_section", new_section)
                .finish(),
            PushBinSectionError::OutOfMemory(_) => write!(f, "Out of memory."),
        }
    }
}
