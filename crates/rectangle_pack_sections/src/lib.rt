//! Sizes, boxes, groups and sections, in cells; how a box is placed into a section, and the six ways
//! to cut up what is left of it. A layer of `rectangle_pack`, which passes on what is for its users.
#![tactic(auto)]

pub mod axis;
pub mod bin_section;
pub mod box_size_heuristics;
pub mod closures;
pub mod group;
pub mod least_side;
pub mod packed_location;
pub mod rect_to_insert;
pub mod span;
pub mod width_height_depth;
