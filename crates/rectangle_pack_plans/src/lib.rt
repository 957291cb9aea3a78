//! Cutting plans, and the laws of straight cuts. A layer of `rectangle_pack`, which passes on what is
//! for its users.
#![tactic(auto)]

pub mod cut_anew;
pub mod cut_plan;
