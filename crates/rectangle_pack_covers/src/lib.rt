//! What is wrong with boxes that are to be all of a bin, whoever says where they stand. A layer of
//! `rectangle_pack`.
#![tactic(auto)]

pub mod covers;
pub mod parts;
pub mod sections;
pub mod straight_cuts;
#[cfg(test)]
mod tests;
