//! Whole runs: where a read, a write or a request for memory fails, how the input comes, what is
//! shown while it comes, and runs over drawn lines.

mod counting;
mod drawn;
mod failures;
mod input;
mod shown;
