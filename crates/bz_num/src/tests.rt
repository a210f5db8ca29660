//! Worked values.
use crate::{
    Dec, Folding, Frac, Items, Name, NumFault, OutOfMemory, SparseRow, WideSum, cmp_frac,
    cmp_quotients, divide, fold, gcd, primitive, read_decimal,
};
use std::cmp::Ordering;
use std::test::Fail;

const HALF: i128 = 85070591730234615865843651857942052864; // 2^126

const MOST: i128 = 170141183460469231731687303715884105727; // 2^127 - 1

#[test]
fn folds_in_order(rt: HostRuntime) {
    assert_eq!(rt; fold(&[]), Ok(0));
    assert_eq!(rt; fold(&[(3, 5), (-2, 7)]), Ok(1));
    assert_eq!(rt; fold(&[(HALF, 1), (HALF, 1)]), Err(WideSum { at: 1 }));
    assert_eq!(rt; fold(&[(HALF, 1), (-HALF, 1), (HALF, 1)]), Ok(HALF));
    assert_eq!(rt;
        fold(&[(1, 1), (HALF, 2), (HALF, 4)]),
        Err(WideSum { at: 1 })
    );
    assert_eq!(rt;
        fold(&[(-HALF, 2)]),
        Err(WideSum { at: 0 }),
        "-2^127 is wide"
    );
    assert_eq!(rt; fold(&[(MOST, -1), (1, 0)]), Ok(-MOST));
}

#[test]
fn a_wide_push_takes_nothing(rt: HostRuntime) {
    let mut folding = Folding::new();
    assert_eq!(rt; folding.push(HALF, 1), Ok(()));
    assert_eq!(rt; folding.push(2, HALF), Err(WideSum { at: 1 }));
    assert_eq!(rt; folding.push(1, -1), Ok(()));
    assert_eq!(rt; folding.sum(), HALF - 1);
}

#[test]
fn divisors(rt: HostRuntime) {
    assert_eq!(rt; gcd(0, 0), 0);
    assert_eq!(rt; gcd(12, -18), 6);
    assert_eq!(rt; gcd(0, -7), 7);
    assert_eq!(rt; gcd(-MOST, MOST), MOST);
    assert_eq!(rt; gcd(MOST, HALF), 1);
}

#[test]
fn quotients_and_rests(rt: HostRuntime) {
    assert_eq!(rt; divide(7, 2), (3, 1));
    assert_eq!(rt; divide(-7, 2), (-4, 1));
    assert_eq!(rt; divide(-8, 2), (-4, 0));
}

#[test]
fn fractions_in_lowest_terms(rt: HostRuntime) {
    let half = Frac::reduced(-6, 12);
    assert_eq!(rt; (half.num, half.den), (-1, 2));
    let nothing = Frac::reduced(0, 5);
    assert_eq!(rt; (nothing.num, nothing.den), (0, 1));
    let most = Frac::reduced(MOST, HALF);
    assert_eq!(rt; (most.num, most.den), (MOST, HALF));
}

#[test]
fn fractions_rounded(rt: HostRuntime) {
    let above = Frac { num: 7, den: 2 };
    assert_eq!(rt; (above.floor(), above.ceiling()), (3, 4));
    let below = Frac { num: -7, den: 2 };
    assert_eq!(rt; (below.floor(), below.ceiling()), (-4, -3));
    let whole = Frac { num: -8, den: 2 };
    assert_eq!(rt; (whole.floor(), whole.ceiling()), (-4, -4));
}

#[test]
fn rows_grow(rt: HostRuntime) -> Result<(), Fail> {
    let mut row = SparseRow::from_pairs(rt.alloc(), &[(1, 4)])?;
    row.push(3, 0)?;
    row.push(9, -6)?;
    assert_eq!(rt; row.as_slice(), [(1, 4), (9, -6)].as_slice());
    let numbers = Items::from_vec(Vec::from_slice(rt.alloc(), &[5u8, 7])?);
    assert_eq!(rt; numbers.copy(rt.alloc())?.as_slice(), [5, 7].as_slice());
    Ok(())
}

#[test]
fn numbers_at_columns(rt: HostRuntime) -> Result<(), Fail> {
    let row = SparseRow::from_pairs(rt.alloc(), &[(1, 4), (3, -6), (9, 1)])?;
    for (column, want) in [(0, 0), (1, 4), (2, 0), (3, -6), (9, 1), (10, 0)] {
        assert_eq!(rt; row.at(column), want, "at {column}");
    }
    let copy = row.copy(rt.alloc())?;
    assert_eq!(rt; copy.as_slice(), [(1, 4), (3, -6), (9, 1)].as_slice());
    Ok(())
}

#[test]
fn a_row_becomes_primitive(rt: HostRuntime) -> Result<(), Fail> {
    let mut row = SparseRow::from_pairs(rt.alloc(), &[(0, 4), (2, -6)])?;
    let mut side = 10;
    assert_eq!(rt; primitive(&mut row, &mut side), 2);
    assert_eq!(rt; row.as_slice(), [(0, 2), (2, -3)].as_slice());
    assert_eq!(rt; side, 5);
    let mut empty = SparseRow::from_pairs(rt.alloc(), &[])?;
    let mut zero = 0;
    assert_eq!(rt; primitive(&mut empty, &mut zero), 0);
    assert_eq!(rt; zero, 0);
    Ok(())
}

#[test]
fn lists_from_vectors(rt: HostRuntime) -> Result<(), Fail> {
    let name = Name::from_vec(Vec::from_slice(rt.alloc(), b"cost")?);
    assert_eq!(rt; name.as_slice(), b"cost".as_slice());
    let halves = [Frac { num: 1, den: 2 }, Frac { num: -3, den: 2 }];
    let items = Items::from_vec(Vec::from_slice(rt.alloc(), &halves)?);
    assert_eq!(rt; items.as_slice().len(), 2);
    let row = SparseRow::from_vec(Vec::from_slice(rt.alloc(), &[(7, -1)])?);
    assert_eq!(rt; row.at(7), -1);
    Ok(())
}

fn crosses_threads<T: Send + Sync>() {}

#[test]
fn types_cross_threads() {
    crosses_threads::<Frac>();
    crosses_threads::<Items<Name>>();
    crosses_threads::<SparseRow>();
    crosses_threads::<WideSum>();
    crosses_threads::<Folding>();
    crosses_threads::<OutOfMemory>();
    crosses_threads::<Dec>();
    crosses_threads::<NumFault>();
}

#[test]
fn fractions_in_order(rt: HostRuntime) {
    let table = [
        (1, 2, 1, 3, Ordering::Greater),
        (-1, 2, -1, 3, Ordering::Less),
        (6, 4, 3, 2, Ordering::Equal),
        (-1, MOST, 0, 1, Ordering::Less),
        (0, 5, 0, MOST, Ordering::Equal),
        (MOST, MOST - 1, MOST - 1, MOST - 2, Ordering::Less), // 1 + 1 / (MOST - 1) and 1 + 1 / (MOST - 2)
        (MOST, 2, HALF, 1, Ordering::Less), // MOST / 2 is HALF - 1 / 2
        (i128::MIN, 1, -MOST, 1, Ordering::Less),
    ];
    for (n, d, m, e, want) in table {
        assert_eq!(rt; cmp_quotients(n, d, m, e), want, "{n} / {d} and {m} / {e}");
    }
    let half = Frac { num: 1, den: 2 };
    let third = Frac { num: 1, den: 3 };
    assert_eq!(rt; cmp_frac(&third, &half), Ordering::Less);
}

fn reads(mant: i128, exp: i32) -> Result<Dec, NumFault> {
    Ok(Dec { mant, exp })
}

fn stops(at: usize) -> Result<Dec, NumFault> {
    Err(NumFault::Form { at })
}

#[test]
fn decimals(rt: HostRuntime) {
    let wide = Err(NumFault::TooWide);
    let table = [
        (b"-12.50e1".as_slice(), reads(-125, 0)),
        (b".5", reads(5, -1)),
        (b"5.", reads(5, 0)),
        (b"0.0", reads(0, 0)),
        (b"1.e3", reads(1, 3)),
        (b"1d-05", reads(1, -5)),
        (b"+1E+00030", reads(1, 30)),
        (b"1e31", wide),
        (b"10e30", wide),
        (b"10000000000e-40", reads(1, -30)),
        (b"1e-31", wide),
        (
            b"999999999999999999999999999999",
            reads(999999999999999999999999999999, 0),
        ), // thirty digits
        (b"1000000000000000000000000000001", wide), // thirty-one digits
        (b"1000000000000000000000000000000", reads(1, 30)), // thirty zeros
        (
            b"1000000000000000000000000000000000000000000D-40",
            reads(1, 2),
        ), // forty-two zeros
        (b"0000000000000000000000000000000007.50", reads(75, -1)),
        (b"0.000000000000000000000000000001", reads(1, -30)), // thirty places
        (b"1e000000000000000000000005", reads(1, 5)),
        (b"1e99999999999999999999", wide),
        (b"1e-340282366920938463463374607431768211455", wide), // 2^128 - 1
        (b"0e99999999999999999999", reads(0, 0)),
        (b"", stops(0)),
        (b"+", stops(1)),
        (b".", stops(1)),
        (b"e1", stops(0)),
        (b"--1", stops(1)),
        (b"1..2", stops(2)),
        (b"12x", stops(2)),
        (b"1e", stops(2)),
        (b"1e+", stops(3)),
        (b"1e5.0", stops(3)),
    ];
    for (at, (text, want)) in table.into_iter().enumerate() {
        assert_eq!(rt; read_decimal(text), want, "at {at}");
    }
}
