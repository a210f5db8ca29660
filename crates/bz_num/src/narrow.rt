//! Sums, differences and products that stay below 2^127 in size.
ghost use Rattle.std.specs.Prelude.{◌≡◌, ◌*ℤ◌, ◌+ℤ◌, ◌-ℤ◌, SomeIff};
ghost use Rattle.std.proofs.Math.IntN.{neg_ℤ};
ghost use Rattle.bz_algebra.specs.Numbers.{IsNarrow};

/// The product, where it is not wide.
pub fn narrow_product(a: i128, b: i128) -> Option<i128>
    ensures { SomeIff result (IsNarrow (a *ℤ b)) (a *ℤ b) }
{
    match a.checked_mul(b) {
        Some(product) => if product == i128::MIN {
            None
        } else {
            Some(product)
        },
        None => None,
    }
}

/// The sum, where it is not wide.
pub fn narrow_sum(a: i128, b: i128) -> Option<i128>
    ensures { SomeIff result (IsNarrow (a +ℤ b)) (a +ℤ b) }
{
    match a.checked_add(b) {
        Some(sum) => if sum == i128::MIN { None } else { Some(sum) },
        None => None,
    }
}

/// The difference, where it is not wide.
pub fn narrow_difference(a: i128, b: i128) -> Option<i128>
    ensures { SomeIff result (IsNarrow (a -ℤ b)) (a -ℤ b) }
{
    match a.checked_sub(b) {
        Some(difference) => if difference == i128::MIN {
            None
        } else {
            Some(difference)
        },
        None => None,
    }
}

/// The number with the other sign.
pub fn narrow_negation(number: i128) -> i128
    requires { IsNarrow number }
    ensures value { result ≡ neg_ℤ number }
    ensures narrow { IsNarrow result }
{
    -number
}
