//! What a search is asked for.

use rectangle_pack_bounds::turning::Turns;
use std::alloc::{Allocator, Global};
use std::collections::BTreeMap;

/// How a search goes on, and what it may do.
#[derive(Drop)]
pub struct SearchOptions<'t, Id: Ord, BinId: Ord, A: Allocator + Copy = Global> {
    /// After so many tries `pack_rects_searched` ends. A try packs the boxes of some bins anew; a
    /// million of them take some seconds.
    pub tries: u64,
    /// Equal seeds search alike.
    pub seed: u64,
    /// Whether groups may be left that find no space.
    pub may_leave: bool,
    /// Which boxes may be turned, and about which axes. A box whose id is not here stands as it is,
    /// and so does one whose id is in several groups, or in one group several times.
    pub turns: &'t BTreeMap<Id, Turns, A>,
    /// What it costs to use a bin; 1 where its id is not here.
    pub costs: &'t BTreeMap<BinId, u64, A>,
}
