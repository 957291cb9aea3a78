//! The tests of sessions. In `session`, `run`, `stats` and `cut_plan` are named as the library's
//! modules that have these calls; its other modules have the calls of the library's `session`, each
//! a subject. The examples of the documentation stand in `examples`, the law in `laws`.
#![tactic(auto)]

#[cfg(test)]
mod examples;
#[cfg(test)]
mod laws;
#[cfg(test)]
mod session;
