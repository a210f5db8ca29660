//! The laws that make true what a certificate of each verdict says where it passes.
//!
//! This crate knows no text and no search.
#![tactic(auto)]

mod laws;

pub use laws::{
    leaves_bound_their_boxes, leaves_cover_boxes, parts_have_a_point, passing_is_infeasible,
    passing_is_optimal, passing_is_unbounded, points_of_rays_are_feasible, root_box_has_all_points,
    trees_bound_costs, valid_cuts_hold,
};
