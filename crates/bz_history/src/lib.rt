//! The history of a search: the state that its events make, one after another, which event may follow, and what is true of
//! every legal history.
#![tactic(auto)]

mod laws;
mod state;

pub use laws::{
    appended_cuts_are_of_bases, best_posts_are_right, certificates_are_right,
    certificates_have_their_shape, counts_rise, enough_is_enough, finished_searches_are_true,
    floors_come_first, fronts_rise, leaves_are_right, lives_are_right, nodes_are_few,
    nothing_better_is_lost, outcomes_are_true, parents_are_one, places_are_right, pools_are_right,
    posts_are_few, posts_are_right, posts_have_numbers, rays_are_true, sizes_are_right,
    trees_are_whole,
};
pub use state::{Closing, FallingRay, Filled, Node, Outcome, Post, Region, Stopped};
