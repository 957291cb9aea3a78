//! What a search answers.

use std::alloc::{Allocator, Global};

/// A packing that was searched for.
#[derive(Drop)]
pub struct Searched<'a, P, K, A: Allocator + Copy = Global> {
    /// What was placed. A box was turned where its location has another size than the box.
    pub packed: P,
    /// The groups that no bin took: those of the collection.
    pub left: Vec<&'a K, A>,
    /// How many bins have a box of the packing.
    pub used: usize,
    /// How many bins are needed at least, as `least_bins` answers it.
    pub least: Option<usize>,
    /// Whether it is proved that no packer uses fewer bins: nothing is left, and no more bins are
    /// used than are needed.
    pub is_optimal: bool,
    /// How many tries were made.
    pub tries: u64,
}
