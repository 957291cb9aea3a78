//! The collection of boxes to place, in groups. A layer of `rectangle_pack`, which passes on what is
//! for its users.
#![tactic(auto)]

pub mod grouped_rects_to_place;
