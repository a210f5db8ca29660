//! Cuts of two models of an integer x from 0 to 1 in the master and a y that is at least 0 in block 1: examples/first.mps
//! has the row `x + y >= 1` and the cost `x + 2 y`, and examples/one.mps the row `2 x + y >= 1` and the cost `2 x + 3 y`.
//! The inequalities of block 1 are the row's, `-a x - y <= -1`, and the bound's, `-y <= 0`.
ghost use Rattle.std.specs.Prelude.{◌≡◌, ◌+ℤ◌, ◌<ℤ◌, ◌∷◌, [], IfOk, pos};
ghost use Rattle.bz_algebra.specs.Numbers.{IsNarrow};
ghost use Rattle.bz_model.specs.Worked.{AreWorkedColumns};
ghost use Rattle.bz_cut.specs.Worked.{AreLinked};

use crate::{Cut, CutFault, fits_and_valid, judge_at_most, judge_cut, judge_sum};
use bz_first::judge;
use bz_model::{Column, Model, Row, Split};
use bz_num::{Frac, Items, Name, OutOfMemory, SparseRow, fold};
use std::alloc::Global;
use std::test::Fail;

fn columns(alloc: Global) -> Result<Items<Column>, OutOfMemory>
    ensures { IfOk result (λ columns. AreWorkedColumns columns) }
{
    let x = Column {
        name: Name::from_vec(Vec::from_slice(alloc, b"x")?),
        integer: true,
        lower: Some(Frac { num: 0, den: 1 }),
        upper: Some(Frac { num: 1, den: 1 }),
    };
    let y = Column {
        name: Name::from_vec(Vec::from_slice(alloc, b"y")?),
        integer: false,
        lower: Some(Frac { num: 0, den: 1 }),
        upper: None,
    };
    let mut columns = Vec::with_capacity(alloc, 2)?;
    columns.push(x).map_err(|_| OutOfMemory)?;
    columns.push(y).map_err(|_| OutOfMemory)?;
    Ok(Items::from_vec(columns))
}

/// The row `a x + y >= 1`.
fn rows(alloc: Global, a: i128) -> Result<Items<Row>, OutOfMemory>
    requires some { pos 0 <ℤ a }
    requires few { a <ℤ pos 100 }
    ensures { IfOk result (λ rows. AreLinked a rows) }
{
    let link = Row {
        name: Name::from_vec(Vec::from_slice(alloc, b"LINK")?),
        terms: SparseRow::from_pairs(alloc, &[(0, a), (1, 1)])?,
        lower: Some(1),
        upper: None,
    };
    let mut rows = Vec::with_capacity(alloc, 1)?;
    rows.push(link).map_err(|_| OutOfMemory)?;
    Ok(Items::from_vec(rows))
}

/// The model with this row, where x costs `a` and y costs `a + 1`.
fn model(alloc: Global, a: i128, maximise: bool) -> Result<Model, OutOfMemory>
    requires some { pos 0 <ℤ a }
    requires few { a <ℤ pos 100 }
    ensures columns { IfOk result (λ model. AreWorkedColumns model.columns) }
    ensures rows { IfOk result (λ model. AreLinked a model.rows) }
    ensures cost { IfOk result (λ model. model.cost ≡ (0, a) ∷ (1, a +ℤ pos 1) ∷ []) }
{
    Ok(Model {
        columns: columns(alloc)?,
        rows: rows(alloc, a)?,
        objective: Name::from_vec(Vec::from_slice(alloc, b"COST")?),
        cost: SparseRow::from_pairs(alloc, &[(0, a), (1, a + 1)])?,
        constant: 0,
        scale: 1,
        maximise,
    })
}

fn split(alloc: Global, a: i128, maximise: bool) -> Result<Split, OutOfMemory>
    requires some { pos 0 <ℤ a }
    requires few { a <ℤ pos 100 }
{
    let model = model(alloc, a, maximise)?;
    let part = Items::from_vec(Vec::from_slice(alloc, &[0, 1])?);
    match Split::new(alloc, model, part) {
        Ok(split) => Ok(split),
        Err(_) => Err(OutOfMemory),
    }
}

const MOST: i128 = 170141183460469231731687303715884105727; // 2^127 - 1

const HALF: i128 = 85070591730234615865843651857942052864; // 2^126

/// The numbers of a cut: the multipliers of the row and of the bound, and alpha at one position.
#[derive(Clone, Copy)]
struct Numbers {
    block: u32,
    mu: (i128, i128),
    gcd: i128,
    position: u32,
    alpha: i128,
    p0: i128,
    beta: i128,
}

/// The cut of examples/first.cert: twice the row, `-2 x - 2 y <= -2`, and y costs 2.
const FIRST: Numbers = Numbers {
    block: 1,
    mu: (2, 0),
    gcd: 1,
    position: 0,
    alpha: -2,
    p0: 1,
    beta: -2,
};

/// Three times the bound, `-3 y <= 0`, where y costs 3: a cut of examples/one.cert.
const ONE_BELOW: Numbers = Numbers {
    mu: (0, 3),
    alpha: 0,
    beta: 0,
    ..FIRST
};

/// Three times the row, `-6 x - 3 y <= -3`: the other.
const ONE_ABOVE: Numbers = Numbers {
    mu: (3, 0),
    alpha: -6,
    beta: -3,
    ..FIRST
};

/// The cut of examples/first.cert 2^126 - 1 times as large: its sums are 2^127 - 2 in size.
const LARGE: Numbers = Numbers {
    mu: (MOST - 1, 0),
    alpha: 1 - MOST,
    p0: HALF - 1,
    beta: 1 - MOST,
    ..FIRST
};

/// The sum on y is -2, and not -8; that on x is compared with 2 MOST.
const WRONG_BEFORE_WIDE: Numbers = Numbers {
    gcd: 2,
    p0: 2,
    alpha: MOST,
    ..FIRST
};

/// `gcd p0` is 2^127.
const FACTOR_WIDE: Numbers = Numbers {
    gcd: 2,
    p0: HALF,
    ..FIRST
};

/// The number; the tests have none that is wide.
fn narrow(number: i128) -> i128
    ensures { IsNarrow result }
{
    if number == i128::MIN { 0 } else { number }
}

/// The row of a number at one place, empty where it is 0.
fn single(alloc: Global, place: u32, number: i128) -> Result<SparseRow, OutOfMemory> {
    let mut row = SparseRow::from_pairs(alloc, &[])?;
    row.push(place, narrow(number))?;
    Ok(row)
}

/// The row of two numbers at the places 0 and 1, without zeros.
fn pair(alloc: Global, numbers: (i128, i128)) -> Result<SparseRow, OutOfMemory> {
    let (first, second) = numbers;
    let mut row = SparseRow::from_pairs(alloc, &[])?;
    row.push(0, narrow(first))?;
    row.push(1, narrow(second))?;
    Ok(row)
}

fn cut(alloc: Global, numbers: &Numbers) -> Result<Cut, OutOfMemory> {
    Ok(Cut {
        block: numbers.block,
        mu: pair(alloc, numbers.mu)?,
        gcd: narrow(numbers.gcd),
        alpha: single(alloc, numbers.position, numbers.alpha)?,
        p0: narrow(numbers.p0),
        beta: narrow(numbers.beta),
    })
}

/// How often the row has x: 1 in examples/first.mps, and 2 in examples/one.mps.
fn factor(of_one: bool) -> i128
    ensures some { pos 0 <ℤ result }
    ensures few { result <ℤ pos 100 }
{
    if of_one { 2 } else { 1 }
}

#[test]
fn cuts_are_valid_in_their_models(rt: HostRuntime) -> Result<(), Fail> {
    let table = [
        (false, false, FIRST, true),
        (true, false, ONE_BELOW, true),
        (true, false, ONE_ABOVE, true),
        (true, false, FIRST, false),
        (false, true, FIRST, false),
        (false, false, LARGE, true),
    ];
    for (of_one, maximise, numbers, wanted) in table {
        let split = split(rt.alloc(), factor(of_one), maximise)?;
        let cut = cut(rt.alloc(), &numbers)?;
        assert_eq!(rt; fits_and_valid(&split, &cut), wanted);
    }
    Ok(())
}

#[test]
fn other_cuts_are_invalid(rt: HostRuntime) -> Result<(), Fail> {
    let split = split(rt.alloc(), 1, false)?;
    let table = [
        Numbers { block: 0, ..FIRST },
        Numbers { block: 2, ..FIRST },
        Numbers {
            position: 1,
            ..FIRST
        },
        Numbers {
            mu: (-2, 0),
            ..FIRST
        },
        Numbers { gcd: 0, ..FIRST },
        Numbers { p0: -1, ..FIRST },
        Numbers { p0: 2, ..FIRST },
        Numbers { alpha: -1, ..FIRST },
        Numbers { beta: -3, ..FIRST },
        WRONG_BEFORE_WIDE,
    ];
    for numbers in table {
        let cut = cut(rt.alloc(), &numbers)?;
        assert_eq!(rt; judge_cut(&split, &cut), Err(CutFault::Invalid));
    }
    Ok(())
}

#[test]
fn wide_sums_and_products_are_told(rt: HostRuntime) -> Result<(), Fail> {
    let split = split(rt.alloc(), 1, false)?;
    let table = [
        FACTOR_WIDE,
        Numbers { p0: HALF, ..FIRST },
        Numbers {
            mu: (MOST, 1),
            ..FIRST
        },
    ];
    for numbers in table {
        let cut = cut(rt.alloc(), &numbers)?;
        assert_eq!(rt; judge_cut(&split, &cut), Err(CutFault::Wide));
    }
    Ok(())
}

/// 2 + 3 is 5, and is at most 2 times 3.
#[test]
fn sums_are_judged(rt: HostRuntime) -> Result<(), Fail> {
    let (invalid, wide) = (CutFault::Invalid, CutFault::Wide);
    let five = fold(&[(2, 1), (1, 3)]);
    let too_large = fold(&[(MOST, 1), (1, 1)]);
    assert_eq!(rt; judge_sum(five, 5, invalid, wide), Ok(()));
    assert_eq!(rt; judge_sum(five, 6, invalid, wide), Err(invalid));
    assert_eq!(rt; judge_sum(too_large, 5, invalid, wide), Err(wide));
    assert_eq!(rt; judge_at_most(five, 2, 3, invalid, wide), Ok(()));
    assert_eq!(rt; judge_at_most(five, 2, 2, invalid, wide), Err(invalid));
    assert_eq!(rt; judge_at_most(five, 2, HALF, invalid, wide), Err(wide));
    assert_eq!(rt; judge(false, invalid), Err(invalid));
    Ok(())
}
