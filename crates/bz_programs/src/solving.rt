//! Answers worked out by hand, at bases that pivots reach, and numbers that go wide.
ghost use Rattle.std.specs.Prelude.{◌≡◌, ◌<◌, IfOk, length};
ghost use Rattle.bz_algebra.specs.Numbers.{IsNarrow};
ghost use Rattle.bz_algebra.specs.Sums.{AllBelow};
ghost use Rattle.bz_num.specs.Row.{IsSparse};
ghost use Rattle.bz_tableau.specs.Programs.{IsLp};
ghost use Rattle.bz_tableau.specs.Tables.{IsTableauOf, factor_column};

use bz_lex::{answer_at, relax, solve};
use bz_num::{Items, OutOfMemory, SparseRow};
use bz_tableau::{Answer, Lp, LpRow, LpStop, Tableau, Vals, WideAt};
use std::alloc::Global;
use std::process::Abort;
use std::test::Fail;

const TWO_TO_63: i128 = 9223372036854775808;

const TWO_TO_64: i128 = 18446744073709551616;

const TWO_TO_126: i128 = 85070591730234615865843651857942052864;

/// What is expected of a basis.
#[derive(Drop)]
enum Want<'a> {
    Least {
        basis: &'a [u32],
        z: (&'a [i128], i128),
        y: (&'a [i128], i128),
    },
    Ray {
        basis: &'a [u32],
        column: u32,
        z: (&'a [i128], i128),
        d: &'a [i128],
    },
    Empty {
        basis: &'a [u32],
        y: &'a [i128],
    },
    Nothing,
    Wide {
        basis: &'a [u32],
        place: u32,
    },
    WidePivot {
        basis: &'a [u32],
        goal: &'a [u32],
        row: u32,
        pivot_row: u32,
        column: u32,
    },
}

fn is_vals(vals: &Vals, want: (&[i128], i128)) -> bool {
    vals.num.as_slice() == want.0 && vals.den == want.1
}

fn is_wanted(found: &Result<Option<Answer>, LpStop>, want: &Want<'_>) -> bool {
    match (found, want) {
        (
            Ok(Some(Answer::Least { basis, z, y })),
            Want::Least {
                basis: places,
                z: point,
                y: multipliers,
            },
        ) => basis.as_slice() == *places && is_vals(z, *point) && is_vals(y, *multipliers),
        (
            Ok(
                Some(
                    Answer::Ray {
                        basis,
                        column,
                        z,
                        d,
                    },
                ),
            ),
            Want::Ray {
                basis: places,
                column: rises,
                z: point,
                d: moves,
            },
        ) => {
            basis.as_slice() == *places
                && *column == *rises
                && is_vals(z, *point)
                && d.as_slice() == *moves
        },
        (
            Ok(Some(Answer::Empty { basis, y })),
            Want::Empty {
                basis: places,
                y: multipliers,
            },
        ) => basis.as_slice() == *places && y.as_slice() == *multipliers,
        (Ok(None), Want::Nothing) => true,
        (
            Err(LpStop::Wide(WideAt::Den { basis, place, .. })),
            Want::Wide {
                basis: places,
                place: at,
            },
        ) => basis.as_slice() == *places && *place == *at,
        (
            Err(
                LpStop::Wide(
                    WideAt::Pivot {
                        relaxed: true,
                        basis,
                        goal,
                        row,
                        pivot_row,
                        column,
                    },
                ),
            ),
            Want::WidePivot {
                basis: places,
                goal: aim,
                row: wide_row,
                pivot_row: by_row,
                column: enters,
            },
        ) => {
            basis.as_slice() == *places
                && goal.as_slice() == *aim
                && *row == *wide_row
                && *pivot_row == *by_row
                && *column == *enters
        },
        _ => false,
    }
}

// One pivot.
fn pivot(
    rt: &impl Abort,
    alloc: Global,
    lp: &Lp,
    relaxed: bool,
    tableau: &mut Tableau,
    row: u32,
    column: u32,
)
    requires lp { IsLp lp.now }
    requires tableau { IsTableauOf relaxed lp.now tableau.old }
    requires row { row < length tableau.old.basis }
    requires column { column < factor_column tableau.old }
    ensures { IsTableauOf relaxed lp.now tableau.new }
{
    assert!(rt; tableau.entry(row, column) != 0);
    let done = tableau.pivot(alloc, row, column);
    assert!(rt; done.is_ok());
}

// The answer after the pivots.
fn check(
    rt: &impl Abort,
    alloc: Global,
    lp: &Lp,
    relaxed: bool,
    pivots: &[(u32, u32)],
    want: &Want<'_>,
) -> Result<(), Fail>
    requires { IsLp lp.now }
{
    let mut tableau = Tableau::new(alloc, lp, relaxed)?;
    let rows = lp.rows.as_slice().len() as u32;
    let columns = lp.columns + rows;
    for (row, column) in pivots {
        assert!(rt; *row < rows);
        assert!(rt; *column < columns);
        pivot(rt, alloc, lp, relaxed, &mut tableau, *row, *column);
    }
    assert!(rt; is_wanted(&answer_at(alloc, lp, relaxed, &tableau), want));
    Ok(())
}

// The answers of the program and of its relaxed program.
fn check_solved(rt: &impl Abort, alloc: Global, lp: &Lp, want: &Want<'_>, relaxed: &Want<'_>)
    requires { IsLp lp.now }
{
    assert!(rt; is_wanted(&solve(alloc, lp).map(Some), want));
    assert!(rt; is_wanted(&relax(alloc, lp).map(Some), relaxed));
}

fn row(alloc: Global, terms: &[(u32, i128)], rhs: i128) -> Result<LpRow, OutOfMemory>
    requires terms { IsSparse terms.now }
    requires rhs { IsNarrow rhs }
    ensures { IfOk result (λ row. row.terms ≡ terms.now) }
{
    let terms = SparseRow::from_pairs(alloc, terms)?;
    Ok(LpRow { terms, rhs })
}

fn no_rows(alloc: Global, cost: &[(u32, i128)]) -> Result<Lp, OutOfMemory>
    requires cost { IsSparse cost.now }
    requires below { AllBelow 1 cost.now }
    ensures { IfOk result (λ lp. IsLp lp) }
{
    Ok(Lp {
        columns: 1,
        rows: Items::from_vec(Vec::new(alloc)),
        cost: SparseRow::from_pairs(alloc, cost)?,
    })
}

fn one_row(
    alloc: Global,
    terms: &[(u32, i128)],
    rhs: i128,
    cost: &[(u32, i128)],
) -> Result<Lp, OutOfMemory>
    requires terms { IsSparse terms.now }
    requires terms_below { AllBelow 1 terms.now }
    requires rhs { IsNarrow rhs }
    requires cost { IsSparse cost.now }
    requires cost_below { AllBelow 1 cost.now }
    ensures { IfOk result (λ lp. IsLp lp) }
{
    let mut rows = Vec::with_capacity(alloc, 1)?;
    rows.push(row(alloc, terms, rhs)?).map_err(|_| OutOfMemory)?;
    Ok(Lp {
        columns: 1,
        rows: Items::from_vec(rows),
        cost: SparseRow::from_pairs(alloc, cost)?,
    })
}

fn two_rows(
    alloc: Global,
    columns: u32,
    first: &[(u32, i128)],
    first_rhs: i128,
    second: &[(u32, i128)],
    second_rhs: i128,
    cost: &[(u32, i128)],
) -> Result<Lp, OutOfMemory>
    requires few { columns < 1000 }
    requires first { IsSparse first.now }
    requires first_below { AllBelow columns first.now }
    requires first_rhs { IsNarrow first_rhs }
    requires second { IsSparse second.now }
    requires second_below { AllBelow columns second.now }
    requires second_rhs { IsNarrow second_rhs }
    requires cost { IsSparse cost.now }
    requires cost_below { AllBelow columns cost.now }
    ensures { IfOk result (λ lp. IsLp lp) }
{
    let mut rows = Vec::with_capacity(alloc, 2)?;
    rows.push(row(alloc, first, first_rhs)?)
        .map_err(|_| OutOfMemory)?;
    rows.push(row(alloc, second, second_rhs)?)
        .map_err(|_| OutOfMemory)?;
    Ok(Lp {
        columns,
        rows: Items::from_vec(rows),
        cost: SparseRow::from_pairs(alloc, cost)?,
    })
}

#[test]
fn one_column(rt: HostRuntime) -> Result<(), Fail> {
    let alloc = rt.alloc();
    // z <= 3
    let lp = one_row(alloc, &[(0, 1)], 3, &[(0, -1)])?;
    let least = Want::Least {
        basis: &[0],
        z: (&[3], 1),
        y: (&[1], 1),
    };
    check(&rt, alloc, &lp, false, &[(0, 0)], &least)?;
    check(&rt, alloc, &lp, false, &[], &Want::Nothing)?;
    // z <= -1
    let lp = one_row(alloc, &[(0, 1)], -1, &[])?;
    let least = Want::Least {
        basis: &[1],
        z: (&[0, 1], 1),
        y: (&[1], 1),
    };
    check(&rt, alloc, &lp, true, &[(0, 1)], &least)?;
    check(&rt, alloc, &lp, false, &[], &Want::Nothing)?;
    // -2 z <= -3: the slack rises
    let lp = one_row(alloc, &[(0, -2)], -3, &[(0, -1)])?;
    let ray = Want::Ray {
        basis: &[0],
        column: 1,
        z: (&[3], 2),
        d: &[1],
    };
    check(&rt, alloc, &lp, false, &[(0, 0)], &ray)?;
    // no row
    let lp = no_rows(alloc, &[(0, -1)])?;
    let ray = Want::Ray {
        basis: &[],
        column: 0,
        z: (&[0], 1),
        d: &[1],
    };
    check(&rt, alloc, &lp, false, &[], &ray)?;
    Ok(())
}

#[test]
fn two_columns(rt: HostRuntime) -> Result<(), Fail> {
    let alloc = rt.alloc();
    let lp = two_rows(
        alloc,
        2,
        &[(0, 3), (1, 1)],
        5,
        &[(0, 1), (1, 2)],
        4,
        &[(0, -1), (1, -1)],
    )?;
    let least = Want::Least {
        basis: &[1, 0],
        z: (&[6, 7], 5),
        y: (&[1, 2], 5),
    };
    check(&rt, alloc, &lp, false, &[(0, 1), (1, 0)], &least)?;
    check(&rt, alloc, &lp, false, &[(0, 1)], &Want::Nothing)?;
    let lp = two_rows(
        alloc,
        2,
        &[(0, 2), (1, -3)],
        1,
        &[(0, -3), (1, 1)],
        5,
        &[(0, -1), (1, 1)],
    )?;
    let ray = Want::Ray {
        basis: &[0, 3],
        column: 1,
        z: (&[1, 0], 2),
        d: &[3, 2],
    };
    check(&rt, alloc, &lp, false, &[(0, 0)], &ray)?;
    Ok(())
}

#[test]
fn relaxed(rt: HostRuntime) -> Result<(), Fail> {
    let alloc = rt.alloc();
    let lp = two_rows(alloc, 1, &[(0, -1)], -2, &[(0, 3)], 4, &[])?;
    let least = Want::Least {
        basis: &[1, 0],
        z: (&[6, 2], 4),
        y: (&[3, 1], 4),
    };
    check(&rt, alloc, &lp, true, &[(0, 1), (1, 0)], &least)?;
    let lp = two_rows(
        alloc,
        2,
        &[(0, 6), (1, 4)],
        24,
        &[(0, -2), (1, 3)],
        -6,
        &[(0, 5), (1, -7)],
    )?;
    let least = Want::Least {
        basis: &[1, 0],
        z: (&[96, 12, 0], 26),
        y: (&[0, 0], 1),
    };
    check(&rt, alloc, &lp, true, &[(0, 1), (1, 0)], &least)?;
    Ok(())
}

#[test]
fn wide(rt: HostRuntime) -> Result<(), Fail> {
    let alloc = rt.alloc();
    let pivots = [(0, 0), (1, 1)];
    let second = Want::Wide {
        basis: &[0, 1],
        place: 1,
    };
    // the common denominator
    let lp = two_rows(
        alloc,
        2,
        &[(0, TWO_TO_64)],
        1,
        &[(1, TWO_TO_64 + 1)],
        1,
        &[],
    )?;
    check(&rt, alloc, &lp, false, &pivots, &second)?;
    // a number of the point
    let lp = two_rows(alloc, 2, &[(0, 3)], 1, &[(1, 5)], TWO_TO_126, &[])?;
    check(&rt, alloc, &lp, false, &pivots, &second)?;
    // a number of the ray's direction, before it is divided
    let lp = two_rows(
        alloc,
        3,
        &[(0, TWO_TO_63), (2, -2 * TWO_TO_63)],
        0,
        &[(1, TWO_TO_63 + 1), (2, -2 * TWO_TO_63 - 2)],
        0,
        &[(2, -1)],
    )?;
    let first = Want::Wide {
        basis: &[0, 1],
        place: 0,
    };
    check(&rt, alloc, &lp, false, &pivots, &first)?;
    Ok(())
}

#[test]
fn solved(rt: HostRuntime) -> Result<(), Fail> {
    let alloc = rt.alloc();
    // z <= 3
    let lp = one_row(alloc, &[(0, 1)], 3, &[(0, -1)])?;
    let least = Want::Least {
        basis: &[0],
        z: (&[3], 1),
        y: (&[1], 1),
    };
    let origin = Want::Least {
        basis: &[2],
        z: (&[0, 0], 1),
        y: (&[0], 1),
    };
    check_solved(&rt, alloc, &lp, &least, &origin);
    // z <= -1
    let lp = one_row(alloc, &[(0, 1)], -1, &[])?;
    let empty = Want::Empty {
        basis: &[1],
        y: &[1],
    };
    let apart = Want::Least {
        basis: &[1],
        z: (&[0, 1], 1),
        y: (&[1], 1),
    };
    check_solved(&rt, alloc, &lp, &empty, &apart);
    // no row
    let lp = no_rows(alloc, &[(0, -1)])?;
    let ray = Want::Ray {
        basis: &[],
        column: 0,
        z: (&[0], 1),
        d: &[1],
    };
    let nothing = Want::Least {
        basis: &[],
        z: (&[0, 0], 1),
        y: (&[], 1),
    };
    check_solved(&rt, alloc, &lp, &ray, &nothing);
    Ok(())
}

#[test]
fn refused(rt: HostRuntime) -> Result<(), Fail> {
    let alloc = rt.alloc();
    // z <= 2^126 and z <= -2^126: s enters in the second row, and the right side of the first is 2^127
    let lp = two_rows(alloc, 1, &[(0, 1)], TWO_TO_126, &[(0, 1)], -TWO_TO_126, &[])?;
    let pivot = Want::WidePivot {
        basis: &[2, 3],
        goal: &[2, 1],
        row: 0,
        pivot_row: 1,
        column: 1,
    };
    check_solved(&rt, alloc, &lp, &pivot, &pivot);
    Ok(())
}
