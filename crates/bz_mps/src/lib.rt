//! Models from their texts.
#![tactic(auto)]

mod bound_numbers;
mod column_ends;
mod columns_made;
mod making;
mod model_laws;
mod mps_reading;
#[cfg(test)]
mod mps_tests;
mod placing;
mod row_facts;
mod row_sides;
mod row_terms;
mod rows_made;
mod scaling;

pub use bz_facts::{MpsFault, MpsKind, MpsStop};
pub use model_laws::{
    model_scales_are_least, models_fit, mps_text_has_model_or_fault, mps_text_has_one_fault,
    mps_text_has_one_model, scale_is_least,
};
pub use mps_reading::read_mps;
