//! A point of least cost, as the tableau shows it.
ghost use Rattle.std.specs.Prelude.{IfOk, MatchResult};
ghost use Rattle.bz_lex.specs.Shown.{ShowsLeast, GoesWideAtLeast, IsShownBasis};

use crate::multiples::common_multiple;
use crate::order::rising_order;
use crate::values::{multipliers, values};
use bz_num::Items;
use bz_tableau::{Answer, Tableau, Vals};
use std::alloc::{AllocError, Global};

/// The point and the multipliers of the basis, or the first place where a number of the point is wide.
pub fn least_answer(alloc: Global, tableau: &Tableau) -> Result<Result<Answer, usize>, AllocError>
    requires { IsShownBasis tableau.now }
    ensures { IfOk result (λ outcome. MatchResult outcome
        (λ a. ShowsLeast tableau.now a)
        (λ k. GoesWideAtLeast tableau.now k)) }
{
    let order = rising_order(alloc, tableau)?;
    let den = match common_multiple(tableau, order.as_slice()) {
        Ok(den) => den,
        Err(k) => return Ok(Err(k)),
    };
    match values(alloc, tableau, order.as_slice(), den, tableau.columns())? {
        Ok(z) => {
            let basis = Vec::from_slice(alloc, tableau.basis())?;
            let y = multipliers(alloc, tableau)?;
            Ok(Ok(Answer::Least {
                basis: Items::from_vec(basis),
                z: Vals {
                    num: Items::from_vec(z),
                    den,
                },
                y: Vals {
                    num: Items::from_vec(y),
                    den: tableau.factor(),
                },
            }))
        },
        Err(k) => Ok(Err(k)),
    }
}
