//! Which boxes share cells, found without a look at each pair. A layer of
//! `rectangle_pack_judge`.
#![tactic(auto)]

pub mod overlaps;
mod parting;
mod planes;
#[cfg(test)]
mod tests;
