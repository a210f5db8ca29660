//! A ray, as the tableau shows it.
ghost use Rattle.std.specs.Prelude.{◌≡◌, ◌≢◌, ◌<◌, ◌≤◌, ℕ, pos, ◌<ℤ◌, neg_ℤ, length, IfOk, MatchResult};
ghost use Rattle.bz_tableau.specs.Dense.{entry, AreNarrow};
ghost use Rattle.bz_tableau.specs.Tables.{factor_column};
ghost use Rattle.bz_algebra.specs.Numbers.{IsNarrow};
ghost use Rattle.bz_lex.specs.Shown.{own_entry, IsOrderOf, IsShownBasis, IsNarrowLeast, IsPrimitivePart, IsShownMove, IsFirstWideOver, ShowsRay, GoesWideAtRay};

use crate::multiples::common_multiple;
use crate::order::rising_order;
use crate::values::values;
use bz_num::{Items, common_divisor, divide_all};
use bz_tableau::{Answer, Tableau, Vals};
use std::alloc::{AllocError, Global};

// Divides the numbers by their greatest common divisor.
fn make_primitive(numbers: &mut [i128])
    requires { AreNarrow numbers.old }
    ensures width { length numbers.new ≡ length numbers.old }
    ensures part { IsPrimitivePart numbers.old numbers.new }
{
    let divisor = common_divisor(numbers);
    if divisor > 0 {
        divide_all(numbers, divisor);
    }
}

// Raises the column by den, where it is one of the moves: not a slack.
fn raise(mut moves: Vec<i128>, column: usize, den: i128) -> Vec<i128>
    ensures width { length result.items ≡ length moves.items }
    ensures own { column < length moves.items → entry result.items column ≡ den }
    ensures other { (j : ℕ) → j ≢ column → entry result.items j ≡ entry moves.items j }
{
    if column < moves.len() {
        moves[column] = den;
    }
    moves
}

// The direction that raises the column, or the first place where a number of it is wide before it is made primitive.
fn direction(
    alloc: Global,
    tableau: &Tableau,
    order: &[u32],
    den: i128,
    column: u32,
) -> Result<Result<Vec<i128>, usize>, AllocError>
    requires order { IsOrderOf tableau.now order.now }
    requires column { column < factor_column tableau.now }
    requires den { IsNarrowLeast (length order.now) (own_entry tableau.now order.now) den }
    ensures { IfOk result (λ outcome. MatchResult outcome
        (λ d. IsShownMove tableau.now order.now den column d.items)
        (λ k. IsFirstWideOver (length order.now) tableau.now order.now (neg_ℤ den) column k)) }
{
    match values(alloc, tableau, order, -den, column)? {
        Ok(moves) => {
            let mut d = raise(moves, column as usize, den);
            make_primitive(d.as_mut_slice());
            Ok(Ok(d))
        },
        Err(k) => Ok(Err(k)),
    }
}

/// The point of the basis and the direction that raises the column, or the first place where a number of them is wide.
pub fn ray_answer(
    alloc: Global,
    tableau: &Tableau,
    column: u32,
) -> Result<Result<Answer, usize>, AllocError>
    requires column { column < factor_column tableau.now }
    requires basis { IsShownBasis tableau.now }
    ensures { IfOk result (λ outcome. MatchResult outcome
        (λ a. ShowsRay tableau.now column a)
        (λ k. GoesWideAtRay tableau.now column k)) }
{
    let order = rising_order(alloc, tableau)?;
    let den = match common_multiple(tableau, order.as_slice()) {
        Ok(den) => den,
        Err(k) => return Ok(Err(k)),
    };
    let values = values(alloc, tableau, order.as_slice(), den, tableau.columns())?;
    let moves = direction(alloc, tableau, order.as_slice(), den, column)?;
    match (values, moves) {
        (Ok(z), Ok(d)) => {
            let basis = Vec::from_slice(alloc, tableau.basis())?;
            Ok(Ok(Answer::Ray {
                basis: Items::from_vec(basis),
                column,
                z: Vals {
                    num: Items::from_vec(z),
                    den,
                },
                d: Items::from_vec(d),
            }))
        },
        (Ok(_), Err(k)) => Ok(Err(k)),
        (Err(k), Ok(_)) => Ok(Err(k)),
        (Err(k), Err(l)) => if k < l { Ok(Err(k)) } else { Ok(Err(l)) },
    }
}
