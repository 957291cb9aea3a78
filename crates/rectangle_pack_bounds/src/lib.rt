//! Lower bounds: how many bins boxes need, by whatever packer. A layer of `rectangle_pack`, which
//! passes on what is for its users.
#![tactic(auto)]

pub mod laws;
pub mod least_bins;
pub mod least_rates;
pub mod rating;
pub mod ratings_along;
pub mod ratings_tried;
pub mod rows;
#[cfg(test)]
mod tests;
#[cfg(test)]
mod tests_of_volumes;
pub mod turning;
pub mod volumes;
pub mod ways;
