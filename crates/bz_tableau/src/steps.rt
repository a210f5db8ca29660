//! A row cleared in a column by another, number by number.
ghost use Rattle.std.specs.Prelude.{◌≢◌, pos, ◌*ℤ◌, ◌-ℤ◌, SomeIff};
ghost use Rattle.bz_algebra.specs.Numbers.{IsNarrow};
ghost use Rattle.bz_tableau.specs.Dense.{AreMultipliers, AreTurnedMultipliers, IsNarrowStep};

use bz_num::{exact_quotient, gcd, narrow_difference, narrow_negation, narrow_product};

/// How often the row and the pivot row are taken: their entries in the pivot's column, divided by the greatest common
/// divisor, crosswise.
#[derive(Clone, Copy)]
pub struct Multipliers {
    pub kept: i128,
    pub taken: i128,
}

// The multipliers of a pivot row's entry and of a row's entry.
fn find_multipliers(pivot: i128, number: i128) -> Multipliers
    requires pivot_narrow { IsNarrow pivot }
    requires number_narrow { IsNarrow number }
    requires nonzero { pivot ≢ pos 0 }
    ensures multipliers { AreMultipliers pivot number result.kept result.taken }
    ensures kept_narrow { IsNarrow result.kept }
    ensures taken_narrow { IsNarrow result.taken }
{
    let divisor = gcd(pivot, number);
    Multipliers {
        kept: exact_quotient(pivot, divisor),
        taken: exact_quotient(number, divisor),
    }
}

/// The multipliers of a pivot row's entry and of a row's entry, both with the sign by which the row is taken positively.
pub fn turned_multipliers(pivot: i128, number: i128) -> Multipliers
    requires pivot_narrow { IsNarrow pivot }
    requires number_narrow { IsNarrow number }
    requires nonzero { pivot ≢ pos 0 }
    ensures { AreTurnedMultipliers pivot number result.kept result.taken }
{
    let times = find_multipliers(pivot, number);
    if times.kept < 0 {
        Multipliers {
            kept: narrow_negation(times.kept),
            taken: narrow_negation(times.taken),
        }
    } else {
        times
    }
}

/// The difference of two products, where neither product is wide and it isn't either.
pub fn cleared(kept: i128, number: i128, taken: i128, pivot: i128) -> Option<i128>
    ensures { SomeIff result (IsNarrowStep kept number taken pivot) ((kept *ℤ number) -ℤ (taken *ℤ pivot)) }
{
    match narrow_product(kept, number) {
        Some(left) => match narrow_product(taken, pivot) {
            Some(right) => narrow_difference(left, right),
            None => None,
        },
        None => None,
    }
}
