//! Sums of products, told exactly where they go wide.
ghost use Rattle.std.specs.Prelude.{◌≡◌, ◌+◌, ◌<◌, ◌^◌, pos, ◌+ℤ◌, ◌*ℤ◌, OnOk, IfOk, IfErr, is_err};
ghost use Rattle.bz_algebra.specs.Numbers.{IsNarrow};
ghost use Rattle.bz_num.specs.Fold.{fold_of, goes_wide, products, IsFirstWide, IsNarrowSum};

use crate::narrow::{narrow_product, narrow_sum};
use std::marker::Model;

/// A product, or a sum with it, is above 2^127 - 1 in size: the first such pair, counted from 0.
#[derive(Clone, Copy, Debug, PartialEq, Eq)]
pub struct WideSum {
    /// The number of pairs before it.
    pub at: usize,
}

/// The sum of the products of pairs that are pushed one by one. Contracts see that sum and the
/// number of pairs taken.
#[derive(Drop)]
pub struct Folding {
    sum: i128,
    count: usize,
}

impl Model for Folding {
    ghost use Rattle.bz_algebra.specs.Numbers.{IsNarrow};
    ghost use Rattle.bz_num.specs.Fold.{Taken};

    ghost Value = { Taken };

    ghost view = { λ f. record { sum = f.sum; count = f.count } };

    ghost invariant = { λ f. IsNarrow f.sum };
}

impl Folding {
    /// No pair taken, and the sum 0.
    pub fn new() -> Folding
        ensures sum { result.sum ≡ pos 0 }
        ensures count { result.count ≡ 0 }
    {
        Folding { sum: 0, count: 0 }
    }

    /// Adds the product of the pair. Where the product or the sum with it is wide, nothing is
    /// taken, and the error names the number of pairs taken before.
    pub fn push(&mut self, a: i128, b: i128) -> Result<(), WideSum>
        requires { self.old.count + 1 < 2 ^ 64 }
        ensures fails { is_err result ≡ goes_wide self.old.sum (a, b) }
        ensures sum { OnOk result (self.new.sum ≡ self.old.sum +ℤ (a *ℤ b)) }
        ensures count { OnOk result (self.new.count ≡ self.old.count + 1) }
        ensures place { IfErr result (λ wide. wide.at ≡ self.old.count) }
        ensures unchanged { IfErr result (λ _. self.new ≡ self.old) }
    {
        let wide = WideSum { at: self.count };
        let product = narrow_product(a, b).ok_or(wide)?;
        self.sum = narrow_sum(self.sum, product).ok_or(wide)?;
        self.count += 1;
        Ok(())
    }

    /// Takes so many pairs of the product 0.
    pub fn pass(&mut self, pairs: usize)
        requires { self.old.count + pairs < 2 ^ 64 }
        ensures { self.new ≡ record { sum = self.old.sum; count = self.old.count + pairs } }
    {
        self.count += pairs;
    }

    /// The number of pairs taken.
    pub fn count(&self) -> usize
        ensures value { result ≡ self.now.count }
        ensures narrow { IsNarrow self.now.sum }
    {
        self.count
    }

    /// The sum of the products taken.
    pub fn sum(&self) -> i128
        ensures value { result ≡ self.now.sum }
        ensures narrow { IsNarrow result }
    {
        self.sum
    }
}

/// The sum of the products, in order.
pub fn fold(pairs: &[(i128, i128)]) -> Result<i128, WideSum>
    ensures value { result ≡ fold_of pairs.now }
    ensures sum { IfOk result (λ sum. sum ≡ products pairs.now) }
    ensures narrow { IfOk result (λ _. IsNarrowSum pairs.now) }
    ensures first { IfErr result (λ wide. IsFirstWide pairs.now wide.at) }
{
    let mut folding = Folding::new();
    for (a, b) in pairs {
        folding.push(*a, *b)?;
    }
    Ok(folding.sum())
}
