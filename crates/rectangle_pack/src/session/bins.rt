//! A bin put among the bins of a session.
ghost use Rattle.std.specs.Prelude.{◌≡◌, OnOk, OnErr};
ghost use Rattle.std.specs.BTreeMap.{insert_entry};

use rectangle_pack_bins::target_bin::TargetBin;
use std::alloc::{AllocError, Allocator};
use std::collections::BTreeMap;

// Puts a bin under an id. A bin that is replaced is dropped, and so is what is refused.
pub(crate) fn put_bin<B: Ord + Drop, A: Allocator + Copy>(
    bins: &mut BTreeMap<B, TargetBin<A>, A>,
    id: B,
    bin: TargetBin<A>,
) -> Result<(), AllocError>
    ensures ok { OnOk result (bins.new.entries ≡ insert_entry B.cmp bins.old.entries id bin) }
    ensures err { OnErr result (bins.new.entries ≡ bins.old.entries) }
{
    match bins.insert(id, bin) {
        Ok(_) => Ok(()),
        Err(_) => Err(AllocError),
    }
}
