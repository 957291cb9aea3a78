//! Whole runs over memory, by the module that each shows: how lines are read (`command`), what the
//! commands do (`store`), statuses (`stop`), and runs in which reads, writes and requests for
//! memory fail, by how the input comes and what is shown meanwhile, or whose lines are drawn by
//! chance (`run`).
#![tactic(auto)]

#[cfg(test)]
mod command;
#[cfg(test)]
mod run;
#[cfg(test)]
mod stop;
#[cfg(test)]
mod store;
#[cfg(test)]
mod support;
#[cfg(test)]
mod transcripts;
