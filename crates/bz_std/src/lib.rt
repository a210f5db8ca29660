//! The programs of a split, of a node, of a separation and of a floor; what their answers make of multipliers and
//! points: cuts, leaves and lowest forms; and the laws that these are right.
//!
//! This crate solves none of the programs, and knows no search.
#![tactic(auto)]

mod columns;
mod comparison;
mod cost_comparison;
mod costs;
mod cuts;
mod fitting;
mod floors;
mod laws;
mod leaves;
mod making;
mod multipliers;
mod nodes;
mod reduction;
mod row_comparison;
mod separation;
mod stops;
mod variables;

pub use comparison::{is_floor_lp, is_node_lp, is_separation_lp};
pub use cuts::{made_cut, wide_cuts_do_not_fit};
pub use fitting::fitting_cut;
pub use floors::floor_lp;
pub use laws::{
    answers_cross, cuts_are_of_bases, floors_have_one_end, lowest_forms_meet, made_cuts_are_valid,
    made_leaves_hold, nodes_never_fall, one_lowest_form, one_posed, points_are_decided,
    programs_tell_nodes, separations_cut_off, tasks_are_posed,
};
pub use leaves::{made_leaf, wide_leaves_do_not_fit};
pub use making::MakeStop;
pub use multipliers::{entries_are_unique, entries_of};
pub use nodes::node_lp;
pub use reduction::lowest;
pub use separation::separation_lp;
pub use stops::BuildStop;
pub use variables::differences;
