//! Whole numbers, fractions, sparse rows and sums of products within 127 bits.
#![tactic(auto)]

mod compare;
mod decimal;
mod digits;
mod division;
mod divisor;
mod fraction;
mod items;
mod laws;
mod memory;
mod narrow;
mod products;
mod reduce;
mod row;
mod sparse_sums;
mod sums;

pub use compare::{cmp_frac, cmp_quotients};
pub use decimal::{Dec, NumFault, decimals_have_one_value, read_decimal};
pub use division::{divide, divide_all, exact_quotient};
pub use divisor::{common_divisor, gcd};
pub use fraction::Frac;
pub use items::{Items, Name};
pub use laws::sparse_rows_are_short;
pub use memory::OutOfMemory;
pub use narrow::{narrow_difference, narrow_negation, narrow_product, narrow_sum};
pub use products::{Folding, WideSum, fold};
pub use reduce::primitive;
pub use row::SparseRow;
pub use sparse_sums::{fold_entries, fold_entry, fold_from_column, sparse_sum};
pub use sums::{Numbers, row_sum, sum_at};

#[cfg(test)]
mod tests;
