//! Calls of a bin that take no memory, while every request is refused.

use super::Call::{Place, Push, Remove};
use super::Pushed::{Accepted, OutOfBounds, Overlaps};
use super::{Script, runs};

const TILE: [u32; 6] = [0, 0, 0, 4, 4, 1];

// The readers of a bin, a trial without members, pushes that are refused before they ask for
// memory, and a removal, after which there is room.
const SCRIPT: Script = script!("a bin"; New [4, 4, 1] => &[TILE];
    Place(&[], tried!(Some(&[]), 0 of 0)) => &[TILE], Push([4, 0, 0, 1, 1, 1], OutOfBounds) => &[TILE],
    Push(TILE, Overlaps(TILE)) => &[TILE], Remove(0) => &[], Push(TILE, Accepted) => &[TILE]);

#[test]
fn calls_of_a_bin(rt: HostRuntime) {
    assert!(rt; !runs(&rt, rt.alloc(), &SCRIPT));
}
