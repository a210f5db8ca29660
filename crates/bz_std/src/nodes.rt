//! The node program of a box and cuts.
ghost use Rattle.std.specs.Prelude.{◌≡◌, ◌+◌, ◌<◌, ◌≤◌, IfOk, OnOk, length, map};
ghost use Rattle.std.specs.List.{AllByRecursion, enumerate_from, flat_map};
ghost use Rattle.bz_algebra.specs.Numbers.{IsNarrow};
ghost use Rattle.bz_algebra.specs.Sums.{AllBelow};
ghost use Rattle.bz_num.specs.Row.{entry_at};
ghost use Rattle.bz_model.specs.Limits.{list_limit};
ghost use Rattle.bz_model.specs.Parting.{blocks_of, width_of};
ghost use Rattle.bz_tableau.specs.Programs.{IsLp};
ghost use Rattle.bz_tree.specs.Ends.{box_of};
ghost use Rattle.bz_tree.specs.Leaves.{side_of_cut};
ghost use Rattle.bz_std.specs.NodeLines.{AreEndsAdded, cut_lines, end_lines, master_lines};
ghost use Rattle.bz_std.specs.Posed.{AreAdded, IsRowOf};
ghost use Rattle.bz_std.specs.Tasks.{IsBoxOf, IsCutOfSplit, IsNodeCost, IsNodeLp, side_line};

use crate::columns::{push_row, push_variable, row_over_columns};
use crate::costs::cost_over_columns;
use bz_cut::{Cut, Mode};
use bz_model::{Ineq, Split};
use bz_num::{Items, OutOfMemory, SparseRow, narrow_negation};
use bz_tableau::{Lp, LpRow};
use bz_tree::{NodeBox, integer_positions};
use std::alloc::Global;

/// Adds the master's inequalities, over `width` positions.
fn push_master_rows(
    alloc: Global,
    ineqs: &[Ineq],
    width: u32,
    rows: &mut Vec<LpRow>,
) -> Result<(), OutOfMemory>
    requires own { AllByRecursion (λ i. AllBelow list_limit i.own) ineqs.now }
    requires sides { AllByRecursion (λ i. IsNarrow i.rhs) ineqs.now }
    ensures { OnOk result (AreAdded rows.old.items rows.new.items (master_lines width ineqs.now)) }
{
    for ineq in ineqs {
        let terms = row_over_columns(alloc, &ineq.own)?;
        let rhs = ineq.rhs;
        push_row(rows, LpRow { terms, rhs })?;
    }
    Ok(())
}

/// The row of one variable, times a factor.
fn single_row(alloc: Global, variable: u32, factor: i128, rhs: i128) -> Result<LpRow, OutOfMemory>
    requires few { variable < list_limit }
    requires factor { IsNarrow factor }
    requires side { IsNarrow rhs }
    ensures { IfOk result (IsRowOf (record { terms = entry_at variable factor; rhs = rhs })) }
{
    let mut terms = SparseRow::from_vec(Vec::new(alloc));
    push_variable(&mut terms, variable, factor)?;
    Ok(LpRow { terms, rhs })
}

/// Adds the two ends of the integer column at a position.
fn push_ends(
    alloc: Global,
    position: u32,
    lower: i128,
    upper: i128,
    rows: &mut Vec<LpRow>,
) -> Result<(), OutOfMemory>
    requires few { position < list_limit }
    requires lower { IsNarrow lower }
    requires upper { IsNarrow upper }
    ensures { OnOk result (AreAdded rows.old.items rows.new.items (end_lines position lower upper)) }
{
    let at_most = single_row(alloc, position, 1, upper)?;
    push_row(rows, at_most)?;
    let at_least = single_row(alloc, position, -1, narrow_negation(lower))?;
    push_row(rows, at_least)
}

/// The row of a cut: its numbers by the master's positions, of which there are `width`, and then that of its eta.
fn cut_row(alloc: Global, cut: &Cut, width: u32) -> Result<LpRow, OutOfMemory>
    requires few { width < list_limit }
    requires first { 0 < cut.now.block }
    requires last { cut.now.block ≤ 256 }
    requires alpha { AllBelow width cut.now.alpha }
    ensures { IfOk result (IsRowOf (side_line width (side_of_cut cut.now))) }
{
    let mut terms = row_over_columns(alloc, &cut.alpha)?;
    push_variable(&mut terms, width + (cut.block - 1), narrow_negation(cut.p0))?;
    let rhs = cut.beta;
    Ok(LpRow { terms, rhs })
}

/// Adds the two ends of each integer column.
fn push_box_rows(
    alloc: Global,
    positions: &[u32],
    lower: &[i128],
    upper: &[i128],
    width: u32,
    rows: &mut Vec<LpRow>,
) -> Result<(), OutOfMemory>
    requires few { AllByRecursion (λ p. p < list_limit) positions.now }
    requires lowers { length lower.now ≡ length positions.now }
    requires uppers { length upper.now ≡ length positions.now }
    requires lower { AllByRecursion IsNarrow lower.now }
    requires upper { AllByRecursion IsNarrow upper.now }
    ensures { OnOk result (AreEndsAdded rows.old.items rows.new.items width positions.now lower.now upper.now) }
{
    for (k, position) in positions.iter().enumerate() {
        push_ends(alloc, *position, lower[k], upper[k], rows)?;
    }
    Ok(())
}

/// Adds the cuts.
fn push_cut_rows(
    alloc: Global,
    cuts: &[Cut],
    width: u32,
    rows: &mut Vec<LpRow>,
) -> Result<(), OutOfMemory>
    requires few { width < list_limit }
    requires blocks { AllByRecursion (λ cut. (0 < cut.block) × (cut.block ≤ 256)) cuts.now }
    requires alpha { AllByRecursion (λ cut. AllBelow width cut.alpha) cuts.now }
    ensures { OnOk result (AreAdded rows.old.items rows.new.items (cut_lines width cuts.now)) }
{
    for cut in cuts {
        let row = cut_row(alloc, cut, width)?;
        push_row(rows, row)?;
    }
    Ok(())
}

/// The cost of a node's program: in mode Cost the master's, and then 1 for each eta.
fn cost_of_node(alloc: Global, split: &Split, mode: Mode) -> Result<SparseRow, OutOfMemory>
    ensures { IfOk result (IsNodeCost split.now.model split.now.part mode) }
{
    if mode == Mode::Point {
        return Ok(SparseRow::from_vec(Vec::new(alloc)));
    }
    let mut row = cost_over_columns(alloc, split, 0)?;
    let width = split.width(0);
    for eta in 0..split.blocks() {
        push_variable(&mut row, width + eta, 1)?;
    }
    Ok(row)
}

/// The node program of a box and cuts: what the master costs at least in the box, as far as the cuts tell.
pub fn node_lp(
    alloc: Global,
    split: &Split,
    region: &NodeBox,
    cuts: &[Cut],
    mode: Mode,
) -> Result<Lp, OutOfMemory>
    requires region { IsBoxOf split.now.model (box_of region.now) }
    requires cuts { AllByRecursion (IsCutOfSplit split.now.part) cuts.now }
    requires few { length cuts.now + 1024 < list_limit }
    ensures program { IfOk result (IsNodeLp split.now.model split.now.part (box_of region.now) cuts.now mode) }
    ensures is_lp { IfOk result IsLp }
{
    let positions = integer_positions(alloc, split)?;
    let width = split.width(0);
    let mut rows = Vec::new(alloc);
    push_master_rows(alloc, split.inequalities(0), width, &mut rows)?;
    let (lower, upper) = (region.lower.as_slice(), region.upper.as_slice());
    push_box_rows(alloc, positions.as_slice(), lower, upper, width, &mut rows)?;
    push_cut_rows(alloc, cuts, width, &mut rows)?;
    let cost = cost_of_node(alloc, split, mode)?;
    Ok(Lp {
        columns: 2 * (width + split.blocks()),
        rows: Items::from_vec(rows),
        cost,
    })
}
