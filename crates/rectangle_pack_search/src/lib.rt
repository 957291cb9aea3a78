//! A search for few bins: which groups of boxes go into which bin, in which order. What it proposes is
//! for a packing as it is told. So nothing is believed of a proposal, and nothing is promised here but
//! that the search is safe and ends.
#![tactic(auto)]

mod chance;
mod cutting;
mod filling;
pub mod job;
mod layout;
mod order;
mod score;
pub mod search;
mod stance;
#[cfg(test)]
mod tests;
mod tries;
