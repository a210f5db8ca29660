//! The order of fractions, told by whole parts and rests: no product is formed, so none can be wide.
ghost use Rattle.std.specs.Prelude.{◌≡◌, ◌<◌, ◌*◌, ◌/◌, ◌%◌, pos, ◌*ℤ◌, ◌<ℤ◌};
ghost use Rattle.std.specs.Ordering.{int_cmp, nat_cmp, ordering_then};

use crate::fraction::Frac;
use std::cmp::Ordering;

/// The order of the whole parts of n / d and m / e, and where they are the same that of the rests.
fn cmp_parts(n: u128, d: u128, m: u128, e: u128) -> Ordering
    requires left { 0 < d }
    requires right { 0 < e }
    ensures { result ≡ ordering_then (nat_cmp (n / d) (m / e)) (nat_cmp (n % d) (m % e)) }
{
    (n / d).cmp(&(m / e)).then((n % d).cmp(&(m % e)))
}

/// The order of n / d and m / e.
fn cmp_unsigned(mut n: u128, mut d: u128, mut m: u128, mut e: u128) -> Ordering
    requires left { 0 < d }
    requires right { 0 < e }
    ensures { result ≡ nat_cmp (n * e) (m * d) }
{
    // With the same whole parts the rests decide: r / d against s / e is e / s against d / r.
    while n / d == m / e && n % d != 0 && m % e != 0 {
        let (rest, other) = (n % d, m % e);
        n = e;
        m = d;
        d = other;
        e = rest;
    }
    cmp_parts(n, d, m, e)
}

/// The order of the fractions n / d and m / e, which is that of their cross products.
pub fn cmp_quotients(n: i128, d: i128, m: i128, e: i128) -> Ordering
    requires left { pos 0 <ℤ d }
    requires right { pos 0 <ℤ e }
    ensures { result ≡ int_cmp (n *ℤ e) (m *ℤ d) }
{
    let (num, den) = (n.unsigned_abs(), d.unsigned_abs());
    let (other_num, other_den) = (m.unsigned_abs(), e.unsigned_abs());
    match (n < 0, m < 0) {
        (false, false) => cmp_unsigned(num, den, other_num, other_den),
        (false, true) => Ordering::Greater,
        (true, false) => Ordering::Less,
        (true, true) => cmp_unsigned(other_num, other_den, num, den),
    }
}

/// The order of two fractions as numbers, which is that of their cross products.
pub fn cmp_frac(a: &Frac, b: &Frac) -> Ordering
    ensures { result ≡ int_cmp (a.now.num *ℤ b.now.den) (b.now.num *ℤ a.now.den) }
{
    cmp_quotients(a.num, a.den, b.num, b.den)
}
