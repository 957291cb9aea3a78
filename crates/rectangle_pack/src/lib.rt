//! Packs boxes into bins, in two and three dimensions. Sizes and corners are counted in cells.
//!
//! Sessions stand here, and the rest in the layers below, which pass it on: all of it is used as
//! `rectangle_pack::NAME`.
#![tactic(auto)]

pub mod bound;
pub mod searching;
pub mod session;

/// Free sections of a bin, and how a box is placed into one.
pub mod bin_section {
    pub use rectangle_pack_sections::bin_section::{
        BinSection, BinSectionError, cell_test_is_membership, contains_smallest_box,
        pieces_are_from_cuts, sections_are_ordered, sharing_is_symmetric, smallest_box_is_preorder,
    };
}

/// Heuristics, which rate a size.
pub mod box_size_heuristics {
    pub use rectangle_pack_sections::box_size_heuristics::{
        Heuristic, UnknownHeuristic, all_lists_each_heuristic_once, depth_heuristic,
        height_heuristic, longest_side_heuristic, shortest_side_heuristic, side_area_heuristic,
        side_sum_heuristic, volume_heuristic, width_heuristic,
    };
}

/// Boxes in groups.
pub mod grouped_rects_to_place {
    pub use rectangle_pack_groups::grouped_rects_to_place::{
        GroupedRectsToPlace, equal_pushes_leave_equal_collections, groups_are_ordered,
    };
    pub use rectangle_pack_sections::group::Group;
}

/// Whether boxes that stand somewhere are a packing, whoever put them there.
pub mod judge {
    pub use rectangle_pack_bounds::turning::TurningBox;
    pub use rectangle_pack_judge::case::{AloneFault, Case, Claim, Conflict, Entry};
    pub use rectangle_pack_judge::judging::{Fault, first_fault};
}

/// Packing groups of boxes into bins.
pub mod pack {
    pub use rectangle_pack_packing::answer::{
        Fitted, Placement, RectanglePackError, RectanglePackOk,
    };
    pub use rectangle_pack_packing::laws::fitting::{
        first_left_is_refused, fitted_groups_are_apart, fitted_groups_are_placed_whole,
        fitting_has_one_result, fitting_keeps_cells, left_box_is_held_nowhere, packing_leaves_none,
    };
    pub use rectangle_pack_packing::laws::told::{
        fitting_can_be_told, packing_can_be_told, told_groups_are_apart,
        told_groups_are_placed_whole, told_packing_has_one_result, told_packing_keeps_cells,
    };
    pub use rectangle_pack_packing::laws::{
        excluded_groups_are_apart, groups_are_placed_whole, locations_follow_placements,
        named_packing_has_one_result, packing_has_one_result, packing_keeps_cells,
        packing_without_exclusions, preorders_decide, refused_box_is_held_nowhere,
        volume_packing_has_one_result,
    };
    pub use rectangle_pack_packing::pack::told::{Step, StepFault, ToldError, pack_rects_told};
    pub use rectangle_pack_packing::pack::{
        pack_rects, pack_rects_best, pack_rects_counted, pack_rects_fitting,
        pack_rects_fitting_best,
    };
}

/// Where a box was placed.
pub mod packed_location {
    pub use rectangle_pack_sections::packed_location::{PackedLocation, RotatedBy};
}

/// What a caller gives of a box: its size.
pub mod rect_to_insert {
    pub use rectangle_pack_sections::rect_to_insert::RectToInsert;
}

/// Bins and their free sections.
pub mod target_bin {
    pub use rectangle_pack_bins::target_bin::{PushBinSectionError, TargetBin, was_coalesced};
    pub use rectangle_pack_lists::laws::{
        joining_has_one_result, joining_keeps_cells, joining_stays_within_the_list,
        step_adds_at_most_two, sweep_leaves_no_face, trial_keeps_cells, trial_tests_are_bounded,
    };
    pub use rectangle_pack_lists::trial::FitTests;
}

/// Sizes.
pub mod width_height_depth {
    pub use rectangle_pack_sections::width_height_depth::{WidthHeightDepth, sizes_are_ordered};
}

pub use bin_section::BinSection;
pub use bin_section::BinSectionError;
pub use bin_section::cell_test_is_membership;
pub use bin_section::contains_smallest_box;
pub use bin_section::pieces_are_from_cuts;
pub use bin_section::sections_are_ordered;
pub use bin_section::sharing_is_symmetric;
pub use bin_section::smallest_box_is_preorder;
pub use bound::Turns;
pub use bound::bins_are_bounded;
pub use bound::bins_used;
pub use bound::fewest_bins_are_used;
pub use bound::fitting_is_an_arrangement;
pub use bound::kept_packing_is_an_arrangement;
pub use bound::least_bins;
pub use bound::packing_is_an_arrangement;
pub use bound::rates_are_dual_feasible;
pub use bound::shown_bins_are_needed;
pub use bound::told_fewest_bins_are_used;
pub use bound::told_packing_is_an_arrangement;
pub use bound::uses_fewest_bins;
pub use box_size_heuristics::Heuristic;
pub use box_size_heuristics::UnknownHeuristic;
pub use box_size_heuristics::all_lists_each_heuristic_once;
pub use box_size_heuristics::depth_heuristic;
pub use box_size_heuristics::height_heuristic;
pub use box_size_heuristics::longest_side_heuristic;
pub use box_size_heuristics::shortest_side_heuristic;
pub use box_size_heuristics::side_area_heuristic;
pub use box_size_heuristics::side_sum_heuristic;
pub use box_size_heuristics::volume_heuristic;
pub use box_size_heuristics::width_heuristic;
pub use grouped_rects_to_place::Group;
pub use grouped_rects_to_place::GroupedRectsToPlace;
pub use grouped_rects_to_place::equal_pushes_leave_equal_collections;
pub use grouped_rects_to_place::groups_are_ordered;
pub use judge::AloneFault;
pub use judge::Case;
pub use judge::Claim;
pub use judge::Conflict;
pub use judge::Entry;
pub use judge::Fault;
pub use judge::TurningBox;
pub use judge::first_fault;
pub use pack::Fitted;
pub use pack::Placement;
pub use pack::RectanglePackError;
pub use pack::RectanglePackOk;
pub use pack::Step;
pub use pack::StepFault;
pub use pack::ToldError;
pub use pack::excluded_groups_are_apart;
pub use pack::first_left_is_refused;
pub use pack::fitted_groups_are_apart;
pub use pack::fitted_groups_are_placed_whole;
pub use pack::fitting_can_be_told;
pub use pack::fitting_has_one_result;
pub use pack::fitting_keeps_cells;
pub use pack::groups_are_placed_whole;
pub use pack::left_box_is_held_nowhere;
pub use pack::locations_follow_placements;
pub use pack::named_packing_has_one_result;
pub use pack::pack_rects;
pub use pack::pack_rects_best;
pub use pack::pack_rects_counted;
pub use pack::pack_rects_fitting;
pub use pack::pack_rects_fitting_best;
pub use pack::pack_rects_told;
pub use pack::packing_can_be_told;
pub use pack::packing_has_one_result;
pub use pack::packing_keeps_cells;
pub use pack::packing_leaves_none;
pub use pack::packing_without_exclusions;
pub use pack::preorders_decide;
pub use pack::refused_box_is_held_nowhere;
pub use pack::told_groups_are_apart;
pub use pack::told_groups_are_placed_whole;
pub use pack::told_packing_has_one_result;
pub use pack::told_packing_keeps_cells;
pub use pack::volume_packing_has_one_result;
pub use packed_location::PackedLocation;
pub use packed_location::RotatedBy;
pub use rect_to_insert::RectToInsert;
pub use searching::Progress;
pub use searching::Search;
pub use searching::SearchOptions;
pub use searching::Searched;
pub use searching::begin_search;
pub use searching::pack_rects_found;
pub use searching::pack_rects_searched;
pub use session::Axis;
pub use session::BinFault;
pub use session::BinStats;
pub use session::Command;
pub use session::CutStep;
pub use session::Outstanding;
pub use session::Packed;
pub use session::Reply;
pub use session::RestoreError;
pub use session::SectionsError;
pub use session::Session;
pub use session::SessionError;
pub use session::SessionParts;
pub use session::StraightCuts;
pub use session::bin_of_free_sections;
pub use session::cuts_cover_bins;
pub use session::cuts_have_open_planes;
pub use session::cuts_stay_until_coalesced;
pub use session::open_planes_split_cuts;
pub use session::pinwheel_is_not_from_cuts;
pub use session::plans_are_unique;
pub use session::straight_cuts;
pub use session::transitions_keep_sessions;
pub use target_bin::FitTests;
pub use target_bin::PushBinSectionError;
pub use target_bin::TargetBin;
pub use target_bin::joining_has_one_result;
pub use target_bin::joining_keeps_cells;
pub use target_bin::joining_stays_within_the_list;
pub use target_bin::step_adds_at_most_two;
pub use target_bin::sweep_leaves_no_face;
pub use target_bin::trial_keeps_cells;
pub use target_bin::trial_tests_are_bounded;
pub use target_bin::was_coalesced;
pub use width_height_depth::WidthHeightDepth;
pub use width_height_depth::sizes_are_ordered;
