//! Whether boxes that stand somewhere are a packing, whoever put them there: a judge, by numbers. A
//! layer of `rectangle_pack`, which passes on what is for its users.
#![tactic(auto)]

mod apart;
pub mod case;
mod conflicts;
pub mod judging;
mod marks;
mod numbers;
#[cfg(test)]
mod tests;
