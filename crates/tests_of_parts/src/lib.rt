//! The tests of the library's calls on what a packing is made of: sizes, sections, bins and
//! collections. A test stands in the module that is named as that of its call.
#![tactic(auto)]

#[cfg(test)]
mod bin_section;
#[cfg(test)]
mod box_size_heuristics;
#[cfg(test)]
mod grouped_rects_to_place;
#[cfg(test)]
mod packed_location;
#[cfg(test)]
mod rect_to_insert;
#[cfg(test)]
mod target_bin;
#[cfg(test)]
mod width_height_depth;
