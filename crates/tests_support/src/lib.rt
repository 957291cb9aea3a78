//! What the tests of the library and of the program share: an allocator and names that
//! refuse, boxes, bins and sections by their numbers, counts of what closures are asked, and choices
//! that look random.
#![tactic(auto)]

pub mod best_cases;
pub mod boxes;
pub mod combs;
pub mod counts;
pub mod dice;
pub mod each_request;
pub mod fit_cases;
pub mod names;
pub mod refusing;
pub mod sequences;
pub mod shapes;
pub mod told_cases;
pub mod units;
