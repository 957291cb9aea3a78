//! The laws of sessions that speak of any ids and closures, at ids and closures of a user.

use rectangle_pack::{
    contains_smallest_box, cuts_stay_until_coalesced, transitions_keep_sessions, volume_heuristic,
};
use std::alloc::Global;

#[test]
fn of_sessions() {
    transitions_keep_sessions::<u32, u32, u32, _, _, Global>(
        &volume_heuristic,
        &contains_smallest_box,
    );
    cuts_stay_until_coalesced::<u32, u32, u32, _, _, Global>(
        &volume_heuristic,
        &contains_smallest_box,
    );
}
