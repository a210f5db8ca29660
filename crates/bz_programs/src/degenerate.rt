//! Programs solved whose bases are degenerate. The least costs and least s are from outside, not from this solver; an
//! answer is checked by its own numbers, whatever its basis.
ghost use Rattle.std.specs.Prelude.{◌<◌, IfOk, length};
ghost use Rattle.bz_algebra.specs.Sums.{AllBelow};
ghost use Rattle.bz_tableau.specs.Programs.{IsLp};

use bz_lex::{relax, solve};
use bz_num::{Items, SparseRow};
use bz_tableau::{Answer, Lp, LpRow, Vals};
use std::alloc::{AllocError, Global};
use std::process::Abort;
use std::test::Fail;

/// What a program comes to, with the least cost as a fraction.
#[derive(Drop)]
enum Want {
    Least { cost: (i128, i128) },
    Empty,
    Ray,
}

/// A program by its rows, each with its right side, and its cost; what it comes to, and the least s of its relaxed
/// program as a fraction.
#[derive(Drop)]
struct Case<'a> {
    rows: &'a [(&'a [i128], i128)],
    cost: &'a [i128],
    want: Want,
    s: (i128, i128),
}

// ---- programs

fn sparse(rt: &impl Abort, alloc: Global, numbers: &[i128]) -> Result<SparseRow, AllocError>
    requires { length numbers.now < 1000 }
    ensures { IfOk result (λ row. AllBelow (length numbers.now) row) }
{
    let mut pairs = Vec::new(alloc);
    for j in 0..numbers.len() {
        let number = numbers[j];
        if number == 0 {
            continue;
        }
        assert!(rt; number != i128::MIN);
        pairs.push((j as u32, number))?;
    }
    Ok(SparseRow::from_vec(pairs))
}

fn program(rt: &impl Abort, alloc: Global, case: &Case<'_>) -> Result<Lp, AllocError>
    ensures { IfOk result (λ lp. IsLp lp) }
{
    assert!(rt; case.cost.len() < 1000);
    assert!(rt; case.rows.len() < 1000);
    let mut rows = Vec::with_capacity(alloc, case.rows.len())?;
    for i in 0..case.rows.len() {
        let (terms, rhs) = case.rows[i];
        assert!(rt; terms.len() == case.cost.len());
        assert!(rt; rhs != i128::MIN);
        let terms = sparse(rt, alloc, terms)?;
        rows.push(LpRow { terms, rhs })?;
    }
    Ok(Lp {
        columns: case.cost.len() as u32,
        rows: Items::from_vec(rows),
        cost: sparse(rt, alloc, case.cost)?,
    })
}

// ---- sums, None where one is wide

fn dot(a: &[i128], b: &[i128]) -> Option<i128> {
    let mut sum: i128 = 0;
    for k in 0..a.len() {
        sum = sum.checked_add(a[k].checked_mul(*b.get(k)?)?)?;
    }
    Some(sum)
}

// The number of a row in a column; its right side stands behind the last.
fn number(row: &(&[i128], i128), j: usize) -> i128 {
    if j < row.0.len() { row.0[j] } else { row.1 }
}

// The sum of y times the rows' numbers in a column.
fn sum_at(case: &Case<'_>, y: &[i128], j: usize) -> Option<i128> {
    let mut sum: i128 = 0;
    for i in 0..case.rows.len() {
        sum = sum.checked_add(number(&case.rows[i], j).checked_mul(*y.get(i)?)?)?;
    }
    Some(sum)
}

fn none_negative(numbers: &[i128]) -> bool {
    numbers.iter().all(|number| *number >= 0)
}

// ---- answers

// z / den meets the rows; with 0 as den, z is a direction along which no row rises.
fn meets(case: &Case<'_>, z: &[i128], den: i128) -> Option<bool> {
    for i in 0..case.rows.len() {
        if dot(case.rows[i].0, z)? > den.checked_mul(case.rows[i].1)? {
            return Some(false);
        }
    }
    Some(none_negative(z))
}

// The multipliers bound the cost, taken den times, from below in each column.
fn bounds(case: &Case<'_>, y: &[i128], den: i128) -> Option<bool> {
    for j in 0..case.cost.len() {
        if den
            .checked_mul(case.cost[j])?
            .checked_add(sum_at(case, y, j)?)?
            < 0
        {
            return Some(false);
        }
    }
    Some(none_negative(y))
}

fn is_fraction(number: i128, den: i128, want: (i128, i128)) -> Option<bool> {
    Some(number.checked_mul(want.1)? == want.0.checked_mul(den)?)
}

fn is_least(case: &Case<'_>, cost: (i128, i128), z: &Vals, y: &Vals) -> Option<bool> {
    let z_cost = dot(case.cost, z.num.as_slice())?;
    let y_cost = 0_i128.checked_sub(sum_at(case, y.num.as_slice(), case.cost.len())?)?;
    Some(
        is_fraction(z_cost, z.den, cost)?
            && is_fraction(y_cost, y.den, cost)?
            && meets(case, z.num.as_slice(), z.den)?
            && bounds(case, y.num.as_slice(), y.den)?,
    )
}

fn is_empty(case: &Case<'_>, y: &[i128]) -> Option<bool> {
    Some(bounds(case, y, 0)? && sum_at(case, y, case.cost.len())? < 0)
}

fn is_ray(case: &Case<'_>, z: &Vals, d: &[i128]) -> Option<bool> {
    Some(meets(case, z.num.as_slice(), z.den)? && meets(case, d, 0)? && dot(case.cost, d)? < 0)
}

fn is_wanted(case: &Case<'_>, answer: &Answer) -> Option<bool> {
    match (answer, &case.want) {
        (Answer::Least { z, y, .. }, Want::Least { cost }) => is_least(case, *cost, z, y),
        (Answer::Empty { y, .. }, Want::Empty) => is_empty(case, y.as_slice()),
        (Answer::Ray { z, d, .. }, Want::Ray) => is_ray(case, z, d.as_slice()),
        _ => Some(false),
    }
}

// The least s, the last number of the point.
fn is_wanted_relaxed(case: &Case<'_>, answer: &Answer) -> Option<bool> {
    match answer {
        Answer::Least { z, .. } => {
            is_fraction(*z.num.as_slice().get(case.cost.len())?, z.den, case.s)
        },
        _ => Some(false),
    }
}

fn check(rt: &impl Abort, alloc: Global, case: &Case<'_>) -> Result<(), Fail> {
    let lp = program(rt, alloc, case)?;
    let Ok(answer) = solve(alloc, &lp) else {
        return Err(Fail::from("refused"));
    };
    assert!(rt; is_wanted(case, &answer) == Some(true));
    let Ok(relaxed) = relax(alloc, &lp) else {
        return Err(Fail::from("refused"));
    };
    assert!(rt; is_wanted_relaxed(case, &relaxed) == Some(true));
    Ok(())
}

#[test]
fn five_rows_through_the_origin(rt: HostRuntime) -> Result<(), Fail> {
    let alloc = rt.alloc();
    let held = Case {
        rows: &[
            (&[1, -1, 0], 0),
            (&[0, 1, -1], 0),
            (&[-1, 0, 1], 0),
            (&[1, 1, -1], 0),
            (&[2, -1, -1], 0),
        ],
        cost: &[1, 1, -2],
        want: Want::Least { cost: (0, 1) },
        s: (0, 1),
    };
    check(&rt, alloc, &held)?;
    let closed = Case {
        rows: &[
            (&[1, -1, 0], 0),
            (&[0, 1, -1], 0),
            (&[1, 1, -2], 0),
            (&[1, -2, 1], 0),
            (&[3, -1, -2], 0),
            (&[1, 1, 1], 9),
        ],
        cost: &[-1, -1, -1],
        want: Want::Least { cost: (-9, 1) },
        s: (0, 1),
    };
    check(&rt, alloc, &closed)?;
    let left = Case {
        rows: &[
            (&[1, -1, 0], 0),
            (&[-1, 1, 0], 0),
            (&[1, 0, -1], 0),
            (&[2, -1, -1], 0),
            (&[1, 1, -2], 0),
        ],
        cost: &[-1, -1, -1],
        want: Want::Ray,
        s: (0, 1),
    };
    check(&rt, alloc, &left)?;
    Ok(())
}

// Solow's program. The rule of the most negative entry, the first of equals, with the last of the rows of the least
// quotient, is back at the slacks after six pivots, and so goes round for ever.
#[test]
fn cycles_by_the_most_negative_entry(rt: HostRuntime) -> Result<(), Fail> {
    let solow = Case {
        rows: &[(&[2, 1, -3, -1], 0), (&[-7, -3, 7, 2], 0)],
        cost: &[-2, -2, 8, 2],
        want: Want::Least { cost: (0, 1) },
        s: (0, 1),
    };
    check(&rt, rt.alloc(), &solow)
}

// Degenerate programs after Beale's and Chvatal's, with the rows and the cost multiplied until their numbers are whole;
// in this form that rule ends on both.
#[test]
fn degenerate_after_books(rt: HostRuntime) -> Result<(), Fail> {
    let alloc = rt.alloc();
    let beale = Case {
        rows: &[
            (&[1, -32, -4, 36], 0),
            (&[1, -24, -1, 6], 0),
            (&[0, 0, 1, 0], 1),
        ],
        cost: &[-3, 80, -2, 24],
        want: Want::Least { cost: (-5, 1) },
        s: (0, 1),
    };
    check(&rt, alloc, &beale)?;
    let chvatal = Case {
        rows: &[
            (&[1, -11, -5, 18], 0),
            (&[1, -3, -1, 2], 0),
            (&[1, 0, 0, 0], 1),
        ],
        cost: &[-10, 57, 9, 24],
        want: Want::Least { cost: (-1, 1) },
        s: (0, 1),
    };
    check(&rt, alloc, &chvatal)?;
    Ok(())
}

#[test]
fn equations(rt: HostRuntime) -> Result<(), Fail> {
    let alloc = rt.alloc();
    let twice = Case {
        rows: &[
            (&[1, 1], 2),
            (&[-1, -1], -2),
            (&[2, 2], 4),
            (&[-2, -2], -4),
            (&[1, -1], 0),
            (&[-1, 1], 0),
        ],
        cost: &[1, 2],
        want: Want::Least { cost: (3, 1) },
        s: (0, 1),
    };
    check(&rt, alloc, &twice)?;
    let assignment = Case {
        rows: &[
            (&[1, 1, 0, 0], 1),
            (&[0, 0, 1, 1], 1),
            (&[1, 0, 1, 0], 1),
            (&[0, 1, 0, 1], 1),
            (&[-1, -1, 0, 0], -1),
            (&[0, 0, -1, -1], -1),
            (&[-1, 0, -1, 0], -1),
            (&[0, -1, 0, -1], -1),
        ],
        cost: &[3, 5, 4, 1],
        want: Want::Least { cost: (4, 1) },
        s: (0, 1),
    };
    check(&rt, alloc, &assignment)?;
    let fractions = Case {
        rows: &[
            (&[2, 3, 1], 5),
            (&[-2, -3, -1], -5),
            (&[4, 1, 2], 11),
            (&[3, 4, 2], 8),
            (&[-4, -6, -2], -10),
        ],
        cost: &[-5, -4, -3],
        want: Want::Least { cost: (-13, 1) },
        s: (0, 1),
    };
    check(&rt, alloc, &fractions)?;
    let origin = Case {
        rows: &[(&[1, 1], 0), (&[1, -1], 0), (&[-1, 1], 0), (&[-1, -1], 0)],
        cost: &[-5, -7],
        want: Want::Least { cost: (0, 1) },
        s: (0, 1),
    };
    check(&rt, alloc, &origin)?;
    Ok(())
}

#[test]
fn no_point_or_no_bound(rt: HostRuntime) -> Result<(), Fail> {
    let alloc = rt.alloc();
    let sides = Case {
        rows: &[
            (&[1, 1, 0], 1),
            (&[-1, -1, 0], -2),
            (&[1, 0, -1], 0),
            (&[-1, 0, 1], 0),
            (&[0, 1, -1], 0),
        ],
        cost: &[1, 1, 1],
        want: Want::Empty,
        s: (1, 2),
    };
    check(&rt, alloc, &sides)?;
    let zeros = Case {
        rows: &[(&[0, 0], 0), (&[0, 0], -2), (&[1, -1], 0)],
        cost: &[1, -1],
        want: Want::Empty,
        s: (2, 1),
    };
    check(&rt, alloc, &zeros)?;
    let behind = Case {
        rows: &[
            (&[-1, -1], -1),
            (&[-2, -2], -2),
            (&[1, -1], 0),
            (&[0, -1], 0),
        ],
        cost: &[-1, 0],
        want: Want::Ray,
        s: (0, 1),
    };
    check(&rt, alloc, &behind)?;
    Ok(())
}
