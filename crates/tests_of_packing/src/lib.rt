//! The tests of packings into bins. The examples of the documentation stand in `examples`, laws in
//! `laws`.
#![tactic(auto)]

#[cfg(test)]
mod bound;
#[cfg(test)]
mod examples;
#[cfg(test)]
mod laws;
#[cfg(test)]
mod pack;
#[cfg(test)]
mod searching;
