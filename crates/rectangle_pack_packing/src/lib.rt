//! Packings: the rule (the order of groups, the bins that are excluded for a group, what a packing
//! answers), its laws, and the packing itself, which is kept or rolled back. A layer of
//! `rectangle_pack`, which passes on what is for its users.
#![tactic(auto)]

pub mod answer;
pub mod bins_at_work;
pub mod homes;
pub mod laws;
pub mod order;
pub mod pack;
pub mod uses;
