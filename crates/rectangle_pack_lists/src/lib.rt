//! Lists of free sections: trials in them, and joins. A layer of `rectangle_pack`, which passes on
//! what is for its users.
#![tactic(auto)]

pub mod coalesce;
pub mod corners;
pub mod free_list;
pub mod gap_list;
pub mod laws;
pub mod trial;
