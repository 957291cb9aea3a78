//! Bins and their free sections. A layer of `rectangle_pack`, which passes on what is for its users.
#![tactic(auto)]

pub mod target_bin;
