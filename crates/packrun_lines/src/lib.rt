//! The lines of `packrun`: what a line says, what is done, and what is printed.
#![tactic(auto)]

mod bytes;
pub mod command;
mod input;
pub mod laws;
mod print;
pub mod run;
pub mod stop;
pub mod store;
mod word;
