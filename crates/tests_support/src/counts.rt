//! Counts of how often the closures of a user are asked.

use std::cell::Cell;

/// How often the heuristic and the comparison were asked.
pub type Counts = (u64, u64);

/// Adds to a count of what was asked.
pub fn add(count: &Cell<u64>, more: u64) {
    count.set(count.get().wrapping_add(more));
}
