//! Least common multiples of the numbers of basic columns.
ghost use Rattle.std.specs.Prelude.{◌≡◌, ◌<◌, pos, ◌<ℤ◌, length, MatchOption, MatchResult};
ghost use Rattle.bz_algebra.specs.Numbers.{IsNarrow};
ghost use Rattle.bz_tableau.specs.Laws.{place};
ghost use Rattle.bz_lex.specs.Shown.{IsOrderOf, own_entry, IsLeastOfTwo, HasWideMultiple, IsNarrowLeast, IsFirstWideLeast};

use bz_num::{exact_quotient, gcd, narrow_product};
use bz_tableau::Tableau;

// The least common multiple of two positive numbers; None where it is wide.
fn multiple(a: i128, b: i128) -> Option<i128>
    requires left { pos 0 <ℤ a }
    requires left_narrow { IsNarrow a }
    requires right { pos 0 <ℤ b }
    requires right_narrow { IsNarrow b }
    ensures { MatchOption result (HasWideMultiple a b) (λ m. IsLeastOfTwo a b m × IsNarrow m) }
{
    narrow_product(exact_quotient(a, gcd(a, b)), b)
}

/// The number of a basic column in its own row.
pub fn own_number(tableau: &Tableau, order: &[u32], k: usize) -> i128
    requires order { IsOrderOf tableau.now order.now }
    requires inside { k < length order.now }
    ensures value { result ≡ own_entry tableau.now order.now k }
    ensures narrow { IsNarrow result }
{
    let row = order[k];
    tableau.entry(row, tableau.basis()[row as usize])
}

/// The least common multiple of the basic columns' own numbers, or the first place up to which it is wide.
pub fn common_multiple(tableau: &Tableau, order: &[u32]) -> Result<i128, usize>
    requires order { IsOrderOf tableau.now order.now }
    ensures { MatchResult result
        (λ m. IsNarrowLeast (length order.now) (own_entry tableau.now order.now) m)
        (λ k. IsFirstWideLeast (length order.now) (own_entry tableau.now order.now) k) }
{
    let mut least = 1;
    for k in 0..order.len() {
        match multiple(least, own_number(tableau, order, k)) {
            Some(m) => least = m,
            None => return Err(k),
        }
    }
    Ok(least)
}
