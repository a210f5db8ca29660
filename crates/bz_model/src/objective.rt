//! The objective that a value states.
ghost use Rattle.std.specs.Prelude.{◌≡◌, ◌↔◌, pos, ◌<ℤ◌, ◌*ℤ◌, IfOk, IfSome, IsOk, IsSome};
ghost use Rattle.bz_algebra.specs.Fractions.{IsSameNumber};
ghost use Rattle.bz_algebra.specs.Numbers.{IsNarrow};
ghost use Rattle.bz_num.specs.Fold.{IsNarrowSum, fold_of};
ghost use Rattle.bz_model.specs.PointFits.{FitsStated};
ghost use Rattle.bz_model.specs.PointSums.{sign_of, stated_pairs};
ghost use Rattle.bz_model.specs.Stated.{IsReduced, objective_of, stated_fraction};

use crate::records::Model;
use crate::stated::Stated;
use bz_num::{Frac, WideSum, fold, narrow_product};

/// What a value is multiplied by: -1 where the model maximises, and else 1.
fn sign(model: &Model) -> i128
    ensures { result ≡ sign_of model.now }
{
    if model.maximise { -1 } else { 1 }
}

/// The fraction in lowest terms.
fn lowest(num: i128, den: i128) -> Stated
    requires positive { pos 0 <ℤ den }
    requires narrow_num { IsNarrow num }
    requires narrow_den { IsNarrow den }
    ensures same { (result.num *ℤ den) ≡ (num *ℤ result.den) }
    ensures reduced { IsReduced (stated_fraction result) }
{
    let fraction = Frac::reduced(num, den);
    Stated {
        num: fraction.num,
        den: fraction.den,
    }
}

/// The numerator of the objective that a value over a denominator states, or its first wide place.
pub fn numerator(model: &Model, value: i128, den: i128) -> Result<i128, WideSum>
    ensures fold { result ≡ fold_of (stated_pairs model.now value den) }
    ensures sum { IfOk result (λ sum. sum ≡ (objective_of model.now value den).num) }
{
    fold(&[(sign(model), value), (model.constant, den)])
}

/// The objective that a value over a denominator states, in lowest terms. It is there exactly where the sum that gives
/// its numerator and the product that gives its denominator are not wide. It takes no memory.
pub fn stated_of(model: &Model, value: i128, den: i128) -> Option<Stated>
    requires { pos 0 <ℤ den }
    ensures fits { IsSome result ↔ FitsStated model.now value den }
    ensures same { IfSome result (λ s. IsSameNumber (stated_fraction s) (objective_of model.now value den)) }
    ensures reduced { IfSome result (λ s. IsReduced (stated_fraction s)) }
{
    match (
        numerator(model, value, den),
        narrow_product(model.scale, den),
    ) {
        (Ok(num), Some(den)) => Some(lowest(num, den)),
        _ => None,
    }
}
