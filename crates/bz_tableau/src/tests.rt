//! Thirty pivots whose rows were worked out by solving the equations in fractions, and a refused pivot.
ghost use Rattle.std.specs.Prelude.{◌≡◌, ◌+◌, ◌<◌, ◌∷◌, [], IfOk, length};
ghost use Rattle.bz_algebra.specs.Numbers.{IsNarrow};
ghost use Rattle.bz_num.specs.Row.{IsSparse};
ghost use Rattle.bz_tableau.specs.Programs.{IsLp};

use crate::{Lp, LpRow, LpStop, Tableau, WideAt};
use bz_num::{Items, OutOfMemory, SparseRow};
use std::alloc::Global;
use std::process::Abort;
use std::test::Fail;

const HALF: i128 = 85070591730234615865843651857942052864; // 2^126

/// A pivot, and what the tableau shows after it: its numbers row by row, the right side last.
#[derive(Drop)]
struct Step<'a> {
    row: u32,
    column: u32,
    basis: &'a [u32],
    numbers: &'a [i128],
    factor: i128,
}

/// Whether the tableau shows these numbers, row by row, the right side last.
fn shows(tableau: &Tableau, rows: u32, columns: u32, numbers: &[i128]) -> bool
    requires rows { length tableau.now.basis ≡ rows }
    requires columns { tableau.now.slack + rows ≡ columns }
    requires few_rows { rows < 1000 }
    requires few_columns { columns < 1000 }
{
    let mut k = 0;
    for i in 0..rows + 1 {
        for j in 0..columns + 1 {
            if k >= numbers.len() || tableau.entry(i, j) != numbers[k] {
                return false;
            }
            k += 1;
        }
    }
    k == numbers.len()
}

fn check_step(
    rt: &impl Abort,
    alloc: Global,
    tableau: &mut Tableau,
    rows: u32,
    columns: u32,
    step: &Step<'_>,
)
    requires rows { length tableau.old.basis ≡ rows }
    requires columns { tableau.old.slack + rows ≡ columns }
    requires few_rows { rows < 1000 }
    requires few_columns { columns < 1000 }
    ensures rows { length tableau.new.basis ≡ rows }
    ensures columns { tableau.new.slack + rows ≡ columns }
{
    assert!(rt; step.row < rows);
    assert!(rt; step.column < columns);
    assert!(rt; tableau.entry(step.row, step.column) != 0);
    let done = tableau.pivot(alloc, step.row, step.column);
    assert!(rt; done.is_ok());
    assert_eq!(rt; tableau.basis(), step.basis);
    assert_eq!(rt; tableau.factor(), step.factor);
    assert!(rt; shows(tableau, rows, columns, step.numbers));
}

fn check_steps(
    rt: &impl Abort,
    alloc: Global,
    mut tableau: Tableau,
    rows: u32,
    columns: u32,
    steps: &[Step<'_>],
)
    requires rows { length tableau.basis ≡ rows }
    requires columns { tableau.slack + rows ≡ columns }
    requires few_rows { rows < 1000 }
    requires few_columns { columns < 1000 }
{
    for step in steps {
        check_step(rt, alloc, &mut tableau, rows, columns, step);
    }
}

fn row(alloc: Global, terms: &[(u32, i128)], rhs: i128) -> Result<LpRow, OutOfMemory>
    requires terms { IsSparse terms.now }
    requires rhs { IsNarrow rhs }
    ensures { IfOk result (λ row. row.terms ≡ terms.now) }
{
    let terms = SparseRow::from_pairs(alloc, terms)?;
    Ok(LpRow { terms, rhs })
}

fn plain_program(alloc: Global) -> Result<Lp, OutOfMemory>
    ensures lp { IfOk result (λ lp. IsLp lp) }
    ensures columns { IfOk result (λ lp. lp.columns ≡ 2) }
    ensures rows { IfOk result (λ lp. length lp.rows ≡ 3) }
{
    let mut rows = Vec::with_capacity(alloc, 3)?;
    rows.push(row(alloc, &[(0, 2), (1, 3)], 12)?)
        .map_err(|_| OutOfMemory)?;
    rows.push(row(alloc, &[(0, 4), (1, -1)], 8)?)
        .map_err(|_| OutOfMemory)?;
    rows.push(row(alloc, &[(0, -1), (1, 5)], 10)?)
        .map_err(|_| OutOfMemory)?;
    Ok(Lp {
        columns: 2,
        rows: Items::from_vec(rows),
        cost: SparseRow::from_pairs(alloc, &[(0, -3), (1, -4)])?,
    })
}

#[test]
fn plain_pivots(rt: HostRuntime) -> Result<(), Fail> {
    let lp = plain_program(rt.alloc())?;
    let tableau = Tableau::new(rt.alloc(), &lp, false)?;
    let steps = [
        Step {
            row: 1,
            column: 0,
            basis: &[2, 0, 4],
            numbers: &[
                0, 7, 2, -1, 0, 16, 4, -1, 0, 1, 0, 8, 0, 19, 0, 1, 4, 48, 0, -19, 0, 3, 0, 24,
            ],
            factor: 4,
        },
        Step {
            row: 0,
            column: 3,
            basis: &[3, 0, 4],
            numbers: &[
                0, -7, -2, 1, 0, -16, 2, 3, 1, 0, 0, 12, 0, 13, 1, 0, 2, 32, 0, 1, 3, 0, 0, 36,
            ],
            factor: 2,
        },
        Step {
            row: 2,
            column: 1,
            basis: &[3, 0, 1],
            numbers: &[
                0, 0, -19, 13, 14, 16, 13, 0, 5, 0, -3, 30, 0, 13, 1, 0, 2, 32, 0, 0, 19, 0, -1,
                218,
            ],
            factor: 13,
        },
        Step {
            row: 0,
            column: 2,
            basis: &[2, 0, 1],
            numbers: &[
                0, 0, 19, -13, -14, -16, 19, 0, 0, 5, 1, 50, 0, 19, 0, 1, 4, 48, 0, 0, 0, 1, 1, 18,
            ],
            factor: 1,
        },
        Step {
            row: 0,
            column: 4,
            basis: &[4, 0, 1],
            numbers: &[
                0, 0, -19, 13, 14, 16, 14, 0, 1, 3, 0, 36, 0, 7, 2, -1, 0, 16, 0, 0, 19, 1, 0, 236,
            ],
            factor: 14,
        },
        Step {
            row: 1,
            column: 2,
            basis: &[4, 2, 1],
            numbers: &[
                19, 0, 0, 5, 1, 50, 14, 0, 1, 3, 0, 36, -4, 1, 0, -1, 0, -8, -19, 0, 0, -4, 0, -32,
            ],
            factor: 1,
        },
        Step {
            row: 1,
            column: 3,
            basis: &[4, 3, 1],
            numbers: &[
                -13, 0, -5, 0, 3, -30, 14, 0, 1, 3, 0, 36, 2, 3, 1, 0, 0, 12, -1, 0, 4, 0, 0, 48,
            ],
            factor: 3,
        },
        Step {
            row: 0,
            column: 0,
            basis: &[0, 3, 1],
            numbers: &[
                13, 0, 5, 0, -3, 30, 0, 0, -19, 13, 14, 16, 0, 13, 1, 0, 2, 32, 0, 0, 19, 0, -1,
                218,
            ],
            factor: 13,
        },
        Step {
            row: 2,
            column: 4,
            basis: &[0, 3, 4],
            numbers: &[
                2, 3, 1, 0, 0, 12, 0, -7, -2, 1, 0, -16, 0, 13, 1, 0, 2, 32, 0, 1, 3, 0, 0, 36,
            ],
            factor: 2,
        },
        Step {
            row: 1,
            column: 1,
            basis: &[0, 1, 4],
            numbers: &[
                14, 0, 1, 3, 0, 36, 0, 7, 2, -1, 0, 16, 0, 0, -19, 13, 14, 16, 0, 0, 19, 1, 0, 236,
            ],
            factor: 14,
        },
    ];
    check_steps(&rt, rt.alloc(), tableau, 3, 5, &steps);
    Ok(())
}

fn relaxed_program(alloc: Global) -> Result<Lp, OutOfMemory>
    ensures lp { IfOk result (λ lp. IsLp lp) }
    ensures columns { IfOk result (λ lp. lp.columns ≡ 2) }
    ensures rows { IfOk result (λ lp. length lp.rows ≡ 2) }
{
    let mut rows = Vec::with_capacity(alloc, 2)?;
    rows.push(row(alloc, &[(0, 6), (1, 4)], 24)?)
        .map_err(|_| OutOfMemory)?;
    rows.push(row(alloc, &[(0, -2), (1, 3)], -6)?)
        .map_err(|_| OutOfMemory)?;
    Ok(Lp {
        columns: 2,
        rows: Items::from_vec(rows),
        cost: SparseRow::from_pairs(alloc, &[(0, 5), (1, -7)])?,
    })
}

#[test]
fn relaxed_pivots(rt: HostRuntime) -> Result<(), Fail> {
    let lp = relaxed_program(rt.alloc())?;
    let tableau = Tableau::new(rt.alloc(), &lp, true)?;
    let steps = [
        Step {
            row: 0,
            column: 0,
            basis: &[0, 4],
            numbers: &[6, 4, -1, 1, 0, 24, 0, 13, -4, 1, 3, 6, 0, 0, 1, 0, 0, 0],
            factor: 1,
        },
        Step {
            row: 0,
            column: 1,
            basis: &[1, 4],
            numbers: &[6, 4, -1, 1, 0, 24, -26, 0, -1, -3, 4, -96, 0, 0, 1, 0, 0, 0],
            factor: 1,
        },
        Step {
            row: 1,
            column: 3,
            basis: &[1, 3],
            numbers: &[-2, 3, -1, 0, 1, -6, 26, 0, 1, 3, -4, 96, 0, 0, 1, 0, 0, 0],
            factor: 1,
        },
        Step {
            row: 1,
            column: 0,
            basis: &[1, 0],
            numbers: &[0, 13, -4, 1, 3, 6, 26, 0, 1, 3, -4, 96, 0, 0, 1, 0, 0, 0],
            factor: 1,
        },
        Step {
            row: 0,
            column: 2,
            basis: &[2, 0],
            numbers: &[0, -13, 4, -1, -3, -6, 8, 1, 0, 1, -1, 30, 0, 13, 0, 1, 3, 6],
            factor: 4,
        },
        Step {
            row: 0,
            column: 4,
            basis: &[4, 0],
            numbers: &[0, 13, -4, 1, 3, 6, 6, 4, -1, 1, 0, 24, 0, 0, 1, 0, 0, 0],
            factor: 1,
        },
        Step {
            row: 0,
            column: 3,
            basis: &[3, 0],
            numbers: &[0, 13, -4, 1, 3, 6, 2, -3, 1, 0, -1, 6, 0, 0, 1, 0, 0, 0],
            factor: 1,
        },
        Step {
            row: 1,
            column: 2,
            basis: &[3, 2],
            numbers: &[8, 1, 0, 1, -1, 30, 2, -3, 1, 0, -1, 6, -2, 3, 0, 0, 1, -6],
            factor: 1,
        },
        Step {
            row: 0,
            column: 0,
            basis: &[0, 2],
            numbers: &[8, 1, 0, 1, -1, 30, 0, -13, 4, -1, -3, -6, 0, 13, 0, 1, 3, 6],
            factor: 4,
        },
        Step {
            row: 0,
            column: 1,
            basis: &[1, 2],
            numbers: &[
                8, 1, 0, 1, -1, 30, 26, 0, 1, 3, -4, 96, -26, 0, 0, -3, 4, -96,
            ],
            factor: 1,
        },
    ];
    check_steps(&rt, rt.alloc(), tableau, 2, 5, &steps);
    Ok(())
}

fn sparse_program(alloc: Global) -> Result<Lp, OutOfMemory>
    ensures lp { IfOk result (λ lp. IsLp lp) }
    ensures columns { IfOk result (λ lp. lp.columns ≡ 3) }
    ensures rows { IfOk result (λ lp. length lp.rows ≡ 3) }
{
    let mut rows = Vec::with_capacity(alloc, 3)?;
    rows.push(row(alloc, &[(0, 1), (1, 2)], 4)?)
        .map_err(|_| OutOfMemory)?;
    rows.push(row(alloc, &[(1, -3), (2, 6)], 9)?)
        .map_err(|_| OutOfMemory)?;
    rows.push(row(alloc, &[(0, 5), (2, -2)], 7)?)
        .map_err(|_| OutOfMemory)?;
    Ok(Lp {
        columns: 3,
        rows: Items::from_vec(rows),
        cost: SparseRow::from_pairs(alloc, &[(0, -2), (1, 1), (2, -3)])?,
    })
}

#[test]
fn sparse_pivots(rt: HostRuntime) -> Result<(), Fail> {
    let lp = sparse_program(rt.alloc())?;
    let tableau = Tableau::new(rt.alloc(), &lp, false)?;
    let steps = [
        Step {
            row: 0,
            column: 1,
            basis: &[1, 4, 5],
            numbers: &[
                1, 2, 0, 1, 0, 0, 4, 3, 0, 12, 3, 2, 0, 30, 5, 0, -2, 0, 0, 1, 7, -5, 0, -6, -1, 0,
                0, -4,
            ],
            factor: 2,
        },
        Step {
            row: 2,
            column: 2,
            basis: &[1, 4, 2],
            numbers: &[
                1, 2, 0, 1, 0, 0, 4, 33, 0, 0, 3, 2, 6, 72, -5, 0, 2, 0, 0, -1, -7, -20, 0, 0, -1,
                0, -3, -25,
            ],
            factor: 2,
        },
        Step {
            row: 2,
            column: 0,
            basis: &[1, 4, 0],
            numbers: &[
                0, 10, 2, 5, 0, -1, 13, 0, 0, 66, 15, 10, -3, 129, 5, 0, -2, 0, 0, 1, 7, 0, 0, -8,
                -1, 0, 1, 3,
            ],
            factor: 2,
        },
        Step {
            row: 1,
            column: 3,
            basis: &[1, 3, 0],
            numbers: &[
                0, 3, -6, 0, -1, 0, -9, 0, 0, 66, 15, 10, -3, 129, 5, 0, -2, 0, 0, 1, 7, 0, 0, -27,
                0, 5, 6, 87,
            ],
            factor: 15,
        },
        Step {
            row: 0,
            column: 2,
            basis: &[2, 3, 0],
            numbers: &[
                0, -3, 6, 0, 1, 0, 9, 0, 33, 0, 15, -1, -3, 30, 15, -3, 0, 0, 1, 3, 30, 0, -27, 0,
                0, 19, 12, 255,
            ],
            factor: 30,
        },
        Step {
            row: 2,
            column: 1,
            basis: &[2, 3, 1],
            numbers: &[
                -5, 0, 2, 0, 0, -1, -7, 33, 0, 0, 3, 2, 6, 72, -15, 3, 0, 0, -1, -3, -30, -27, 0,
                0, 0, 2, -3, -3,
            ],
            factor: 6,
        },
        Step {
            row: 1,
            column: 5,
            basis: &[2, 5, 1],
            numbers: &[
                3, 0, 12, 3, 2, 0, 30, 33, 0, 0, 3, 2, 6, 72, 1, 2, 0, 1, 0, 0, 4, -7, 0, 0, 1, 2,
                0, 22,
            ],
            factor: 4,
        },
        Step {
            row: 1,
            column: 0,
            basis: &[2, 0, 1],
            numbers: &[
                0, 0, 66, 15, 10, -3, 129, 33, 0, 0, 3, 2, 6, 72, 0, 33, 0, 15, -1, -3, 30, 0, 0,
                0, 27, 40, 21, 615,
            ],
            factor: 66,
        },
        Step {
            row: 0,
            column: 3,
            basis: &[3, 0, 1],
            numbers: &[
                0, 0, 66, 15, 10, -3, 129, 5, 0, -2, 0, 0, 1, 7, 0, 3, -6, 0, -1, 0, -9, 0, 0, -27,
                0, 5, 6, 87,
            ],
            factor: 15,
        },
        Step {
            row: 0,
            column: 5,
            basis: &[5, 0, 1],
            numbers: &[
                0, 0, -66, -15, -10, 3, -129, 3, 0, 12, 3, 2, 0, 30, 0, 3, -6, 0, -1, 0, -9, 0, 0,
                21, 6, 5, 0, 69,
            ],
            factor: 3,
        },
    ];
    check_steps(&rt, rt.alloc(), tableau, 3, 6, &steps);
    Ok(())
}

fn wide_program(alloc: Global) -> Result<Lp, OutOfMemory>
    ensures lp { IfOk result (λ lp. IsLp lp) }
    ensures columns { IfOk result (λ lp. lp.columns ≡ 2) }
    ensures rows { IfOk result (λ lp. length lp.rows ≡ 2) }
{
    let mut rows = Vec::with_capacity(alloc, 2)?;
    rows.push(row(alloc, &[(0, 3), (1, 1)], 1)?)
        .map_err(|_| OutOfMemory)?;
    rows.push(row(alloc, &[(0, 1), (1, 1)], 2)?)
        .map_err(|_| OutOfMemory)?;
    Ok(Lp {
        columns: 2,
        rows: Items::from_vec(rows),
        cost: SparseRow::from_pairs(alloc, &[(0, 1), (1, HALF)])?,
    })
}

fn check_refusal(rt: &impl Abort, alloc: Global, tableau: &mut Tableau)
    requires rows { length tableau.old.basis ≡ 2 }
    requires columns { tableau.old.slack ≡ 2 }
{
    assert!(rt; tableau.entry(0, 0) == 3);
    match tableau.pivot(alloc, 0, 0) {
        Err(
            LpStop::Wide(
                WideAt::Pivot {
                    relaxed,
                    basis,
                    goal,
                    row,
                    pivot_row,
                    column,
                },
            ),
        ) => {
            assert!(rt; !relaxed);
            assert_eq!(rt; basis.as_slice(), [2, 3].as_slice());
            assert_eq!(rt; goal.as_slice(), [2, 3].as_slice());
            assert_eq!(rt; (row, pivot_row, column), (2, 0, 0));
        },
        _ => assert!(rt; false),
    }
}

#[test]
fn a_wide_objective_refuses_the_pivot(rt: HostRuntime) -> Result<(), Fail> {
    let lp = wide_program(rt.alloc())?;
    let mut tableau = Tableau::new(rt.alloc(), &lp, false)?;
    check_refusal(&rt, rt.alloc(), &mut tableau);
    Ok(())
}
