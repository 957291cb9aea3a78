//! The laws that speak of any ids and closures, at ids and closures of a user.

use rectangle_pack::{
    contains_smallest_box, equal_pushes_leave_equal_collections, excluded_groups_are_apart,
    fewest_bins_are_used, first_left_is_refused, fitted_groups_are_apart,
    fitted_groups_are_placed_whole, fitting_can_be_told, fitting_has_one_result,
    fitting_is_an_arrangement, fitting_keeps_cells, groups_are_ordered, groups_are_placed_whole,
    kept_packing_is_an_arrangement, left_box_is_held_nowhere, locations_follow_placements,
    packing_can_be_told, packing_has_one_result, packing_is_an_arrangement, packing_keeps_cells,
    packing_leaves_none, packing_without_exclusions, preorders_decide, refused_box_is_held_nowhere,
    smallest_box_is_preorder, step_adds_at_most_two, told_fewest_bins_are_used,
    told_groups_are_apart, told_groups_are_placed_whole, told_packing_has_one_result,
    told_packing_is_an_arrangement, told_packing_keeps_cells, trial_keeps_cells,
    trial_tests_are_bounded, volume_heuristic,
};

#[test]
fn of_ids() {
    groups_are_ordered::<&'static str, u32>();
    equal_pushes_leave_equal_collections::<u32, &'static str>();
    locations_follow_placements::<u32, &'static str>();
}

#[test]
fn of_trials() {
    step_adds_at_most_two(&volume_heuristic, &contains_smallest_box);
    trial_keeps_cells(&volume_heuristic, &contains_smallest_box);
    trial_tests_are_bounded(&volume_heuristic, &contains_smallest_box);
}

#[test]
fn of_packings() {
    packing_keeps_cells::<u32, u32, u32, _, _>(&volume_heuristic, &contains_smallest_box);
    refused_box_is_held_nowhere::<u32, u32, u32, _, _>(&volume_heuristic, &contains_smallest_box);
    packing_without_exclusions::<u32, u32, u32, _, _>(&volume_heuristic, &contains_smallest_box);
    groups_are_placed_whole::<u32, u32, u32, _, _>(&volume_heuristic, &contains_smallest_box);
    excluded_groups_are_apart::<u32, u32, u32, _, _>(&volume_heuristic, &contains_smallest_box);
}

#[test]
fn of_what_fits() {
    packing_leaves_none::<u32, u32, u32, _, _>(&volume_heuristic, &contains_smallest_box);
    first_left_is_refused::<u32, u32, u32, _, _>(&volume_heuristic, &contains_smallest_box);
    left_box_is_held_nowhere::<u32, u32, u32, _, _>(&volume_heuristic, &contains_smallest_box);
    fitting_keeps_cells::<u32, u32, u32, _, _>(&volume_heuristic, &contains_smallest_box);
    fitted_groups_are_placed_whole::<u32, u32, u32, _, _>(
        &volume_heuristic,
        &contains_smallest_box,
    );
    fitted_groups_are_apart::<u32, u32, u32, _, _>(&volume_heuristic, &contains_smallest_box);
    fitting_has_one_result::<u32, u32, u32, _, _>(&volume_heuristic, &contains_smallest_box);
}

#[test]
fn of_packings_as_told() {
    fitting_can_be_told::<u32, u32, u32>();
    packing_can_be_told::<u32, u32, u32>();
    told_packing_keeps_cells::<u32, u32, u32>();
    told_groups_are_placed_whole::<u32, u32, u32>();
    told_groups_are_apart::<u32, u32, u32>();
    told_packing_has_one_result::<u32, u32, u32>();
}

#[test]
fn of_arrangements() {
    packing_is_an_arrangement::<u32, u32, u32, _, _>(&volume_heuristic, &contains_smallest_box);
    kept_packing_is_an_arrangement::<u32, u32, u32, _, _>(
        &volume_heuristic,
        &contains_smallest_box,
    );
    fewest_bins_are_used::<u32, u32, u32, _, _>(&volume_heuristic, &contains_smallest_box);
    fitting_is_an_arrangement::<u32, u32, u32, _, _>(&volume_heuristic, &contains_smallest_box);
    told_packing_is_an_arrangement::<u32, u32, u32>();
    told_fewest_bins_are_used::<u32, u32, u32>();
}

// These closures meet the conditions: volumes are one answer on each size, and so the comparison by
// smallest boxes is a total preorder. `examples` has the law of these two closures.
#[test]
fn of_one_result() {
    smallest_box_is_preorder(&volume_heuristic, &contains_smallest_box);
    preorders_decide(&volume_heuristic, &contains_smallest_box);
    packing_has_one_result::<u32, u32, u32, _, _, _, _>(
        &volume_heuristic,
        &contains_smallest_box,
        &volume_heuristic,
        &contains_smallest_box,
    );
}
