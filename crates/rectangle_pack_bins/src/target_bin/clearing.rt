//! Bins that are made whole again.
ghost use Rattle.std.specs.Prelude.{◌≡◌, [], OnOk, OnErr};
ghost use Rattle.rectangle_pack_sections.specs.Bins.{new_bin};

use crate::target_bin::TargetBin;
use rectangle_pack_sections::bin_section::BinSection;
use std::alloc::{AllocError, Allocator};

impl<A: Allocator + Copy> TargetBin<A> {
    /// Makes the bin whole again: it has one free section, which is all of it, and does not count as
    /// coalesced. Fails only when memory is refused, where the list has no room for one section, and
    /// leaves the bin as it was.
    pub fn clear(&mut self) -> Result<(), AllocError>
        // Where it succeeds, the bin is a new bin of its size: it has one free section, which is all
        //   of it, and does not count as coalesced. [clear.cleared_bin_counts_as_coalesced]
        ensures ok { OnOk result (self.new.bin ≡ new_bin self.old.bin.size) }
        // An error leaves the bin as it was.
        ensures err { OnErr result (self.new.bin ≡ self.old.bin) }
        // An error is answered only where there is no free section.
        ensures empty { OnErr result (self.old.bin.sections ≡ []) }
        // An error is answered only where the list has no room for one section.
        ensures full { OnErr result (self.old.room ≡ 0) }
    {
        if self.available_bin_sections.is_empty() {
            self.available_bin_sections.reserve(1)?;
        }
        let whole = BinSection::new(0, 0, 0, self.max_size);
        self.available_bin_sections.clear();
        self.available_bin_sections.push_reserved(whole);
        self.was_coalesced = false;
        Ok(())
    }
}
