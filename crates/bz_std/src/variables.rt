//! The numbers of variables, each of which is the difference of two columns.
ghost use Rattle.std.specs.Prelude.{◌≡◌, ◌≤◌, ◌<◌, ◌*◌, ◌+◌, ℕ, pos, ◌≤ℤ◌, ◌++◌, ◌∷◌, [], IfOk, OnOk, length};
ghost use Rattle.bz_algebra.specs.Numbers.{IsNarrow};
ghost use Rattle.bz_num.specs.Dense.{entry};
ghost use Rattle.bz_std.specs.Meanings.{differences};
ghost use Rattle.bz_std.specs.NumberLists.{HasNumbers};

use bz_num::{Items, OutOfMemory};
use std::alloc::Global;

/// Adds a number at the end.
pub(crate) fn push_number(numbers: &mut Vec<i128>, number: i128) -> Result<(), OutOfMemory>
    ensures { OnOk result (numbers.new.items ≡ numbers.old.items ++ number ∷ []) }
{
    numbers.push(number).map_err(|_| OutOfMemory)
}

/// The number of a variable.
fn difference(z: &[i128], variable: u32) -> i128
    requires inside { 2 * variable + 1 < length z.now }
    requires first { pos 0 ≤ℤ entry z.now (2 * variable) }
    requires second { pos 0 ≤ℤ entry z.now (2 * variable + 1) }
    ensures value { result ≡ differences (entry z.now) variable }
    ensures narrow { IsNarrow result }
{
    let column = 2 * variable as usize;
    z[column] - z[column + 1]
}

/// The number of each of n variables. The columns' numbers aren't negative, so that no difference is wide.
pub fn differences(alloc: Global, z: &[i128], n: u32) -> Result<Items<i128>, OutOfMemory>
    requires inside { 2 * n ≤ length z.now }
    requires nonnegative { (j : ℕ) → j < length z.now → pos 0 ≤ℤ entry z.now j }
    ensures { IfOk result (HasNumbers n (differences (entry z.now))) }
{
    let mut values = Vec::new(alloc);
    for variable in 0..n {
        push_number(&mut values, difference(z, variable))?;
    }
    Ok(Items::from_vec(values))
}
