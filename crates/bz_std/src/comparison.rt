//! Programs that are given compared with those of a split: whether a program is that of a separation, of a floor or of
//! a node. It takes no memory.
ghost use Rattle.std.specs.Prelude.{◌↔◌, ◌≡◌, ◌<◌, ◌≤◌, ◌*◌, IsTrue, length};
ghost use Rattle.std.specs.List.{AllByRecursion};
ghost use Rattle.bz_algebra.specs.Numbers.{IsNarrow};
ghost use Rattle.bz_algebra.specs.Sums.{AllBelow};
ghost use Rattle.bz_model.specs.Limits.{list_limit};
ghost use Rattle.bz_model.specs.Parting.{blocks_of, inequalities_of, width_of};
ghost use Rattle.bz_tree.specs.Ends.{box_of};
ghost use Rattle.bz_tree.specs.Integers.{positions_of};
ghost use Rattle.bz_tree.specs.Leaves.{side_of_cut, side_of_master};
ghost use Rattle.bz_std.specs.Compared.{AreEndRows, AreNodeRows, AreRowsOfEach, AreSeparationRows, IsOwnRow, Pairwise};
ghost use Rattle.bz_std.specs.NodeLines.{side_lines};
ghost use Rattle.bz_std.specs.Posed.{AreRowsOf, IsProgramOf, IsRowOf};
ghost use Rattle.bz_std.specs.Tasks.{IsBoxOf, IsCutOfSplit, IsMasterOf, IsNodeLp, IsSeparationLp, cost_line, cost_lines, falling_line, floor, side_line};

use crate::cost_comparison::{is_cost, is_node_cost};
use crate::row_comparison::{
    are_ends, are_equal, is_cut_row, is_falling_row, is_master_row, is_own_row,
};
use bz_cut::{Cut, Mode};
use bz_model::{Ineq, Master, Split};
use bz_tableau::{Lp, LpRow};
use bz_tree::NodeBox;

/// Whether the program has two columns for each of so many variables.
fn has_columns(lp: &Lp, variables: u32) -> bool
    ensures { IsTrue result ↔ (lp.now.columns ≡ 2 * variables) }
{
    lp.columns as u64 == 2 * variables as u64
}

/// Whether the rows are those of the inequalities at the point.
fn are_own_rows(rows: &[LpRow], point: &Master, ineqs: &[Ineq]) -> bool
    requires own { AllByRecursion (λ i. AllBelow list_limit i.own) ineqs.now }
    requires master { AllByRecursion (λ i. AllBelow (length point.now.x) i.master) ineqs.now }
    ensures { IsTrue result ↔ Pairwise (IsOwnRow point.now) ineqs.now rows.now }
{
    if rows.len() != ineqs.len() {
        return false;
    }
    for (number, ineq) in ineqs.iter().enumerate() {
        if !is_own_row(&rows[number], point, ineq) {
            return false;
        }
    }
    true
}

/// Whether the row holds a block's cost to its eta.
fn is_cost_row(row: &LpRow, split: &Split, block: u32, point: &Master) -> bool
    requires first { 0 < block }
    requires last { block ≤ blocks_of split.now.part }
    requires eta { length point.now.eta ≡ blocks_of split.now.part }
    ensures { IsTrue result ↔ IsRowOf (cost_line split.now.model split.now.part point.now block) row.now }
{
    are_equal(row.rhs, point.eta.as_slice()[block as usize - 1])
        && is_cost(&row.terms, split, block)
}

/// Whether the rows are the one that holds a block's cost to its eta in mode Cost, and none in mode Point.
fn are_cost_rows(rows: &[LpRow], split: &Split, block: u32, point: &Master, mode: Mode) -> bool
    requires first { 0 < block }
    requires last { block ≤ blocks_of split.now.part }
    requires eta { length point.now.eta ≡ blocks_of split.now.part }
    ensures { IsTrue result ↔ AreRowsOfEach (cost_lines split.now.model split.now.part point.now block mode) rows.now }
{
    match mode {
        Mode::Cost => rows.len() == 1 && is_cost_row(&rows[0], split, block, point),
        Mode::Point => rows.is_empty(),
    }
}

/// Whether the rows are those of the separation of a block at the point, where no right side's sum is wide.
fn are_separation_rows(
    rows: &[LpRow],
    split: &Split,
    block: u32,
    point: &Master,
    mode: Mode,
) -> bool
    requires first { 0 < block }
    requires last { block ≤ blocks_of split.now.part }
    requires point { IsMasterOf split.now.part point.now }
    ensures { IsTrue result ↔ AreSeparationRows split.now.model split.now.part point.now block mode rows.now }
{
    let ineqs = split.inequalities(block);
    if rows.len() < ineqs.len() {
        return false;
    }
    let (own, more) = rows.split_at(ineqs.len());
    are_own_rows(own, point, ineqs) && are_cost_rows(more, split, block, point, mode)
}

/// Whether the program is the separation program of a block at the master's point, where no right side's sum is wide.
pub fn is_separation_lp(split: &Split, block: u32, point: &Master, mode: Mode, lp: &Lp) -> bool
    requires first { 0 < block }
    requires last { block ≤ blocks_of split.now.part }
    requires point { IsMasterOf split.now.part point.now }
    ensures { IsTrue result ↔ IsSeparationLp split.now.model split.now.part point.now block mode lp.now }
{
    has_columns(lp, split.width(block))
        && lp.cost.as_slice().is_empty()
        && are_separation_rows(lp.rows.as_slice(), split, block, point, mode)
}

/// Whether the rows are those along which no inequality rises.
fn are_falling_rows(rows: &[LpRow], ineqs: &[Ineq]) -> bool
    requires { AllByRecursion (λ i. AllBelow list_limit i.own) ineqs.now }
    ensures { IsTrue result ↔ Pairwise (λ i. IsRowOf (falling_line i)) ineqs.now rows.now }
{
    if rows.len() != ineqs.len() {
        return false;
    }
    for (number, ineq) in ineqs.iter().enumerate() {
        if !is_falling_row(&rows[number], ineq) {
            return false;
        }
    }
    true
}

/// Whether the rows are those of the floor of a block.
fn are_floor_rows(rows: &[LpRow], split: &Split, block: u32) -> bool
    requires { block ≤ blocks_of split.now.part }
    ensures { IsTrue result ↔ AreRowsOf (floor split.now.model split.now.part block).rows rows.now }
{
    are_falling_rows(rows, split.inequalities(block))
}

/// Whether the program is the floor program of a block.
pub fn is_floor_lp(split: &Split, block: u32, lp: &Lp) -> bool
    requires first { 0 < block }
    requires last { block ≤ blocks_of split.now.part }
    ensures { IsTrue result ↔ IsProgramOf (floor split.now.model split.now.part block) lp.now }
{
    has_columns(lp, split.width(block))
        && are_floor_rows(lp.rows.as_slice(), split, block)
        && is_cost(&lp.cost, split, block)
}

/// Whether the rows are the master's inequalities, over `width` positions.
fn are_master_rows(rows: &[LpRow], ineqs: &[Ineq], width: u32) -> bool
    requires { AllByRecursion (λ i. AllBelow list_limit i.own) ineqs.now }
    ensures { IsTrue result ↔ Pairwise (λ i. IsRowOf (side_line width (side_of_master i))) ineqs.now rows.now }
{
    if rows.len() != ineqs.len() {
        return false;
    }
    for (number, ineq) in ineqs.iter().enumerate() {
        if !is_master_row(&rows[number], ineq, width) {
            return false;
        }
    }
    true
}

/// Whether the rows are the two ends of each integer column.
fn are_box_rows(rows: &[LpRow], split: &Split, lower: &[i128], upper: &[i128]) -> bool
    requires lowers { length lower.now ≡ length (positions_of split.now.model split.now.part) }
    requires uppers { length upper.now ≡ length (positions_of split.now.model split.now.part) }
    requires lower { AllByRecursion IsNarrow lower.now }
    ensures { IsTrue result ↔ AreEndRows split.now.model split.now.part lower.now upper.now rows.now }
{
    if rows.len() != 2 * lower.len() {
        return false;
    }
    let columns = split.model().columns.as_slice();
    let mut k = 0;
    for (position, number) in split.columns_of(0).iter().enumerate() {
        let column = &columns[*number as usize];
        if column.integer {
            if !are_ends(
                &rows[2 * k],
                &rows[2 * k + 1],
                position as u32,
                lower[k],
                upper[k],
            ) {
                return false;
            }
            k += 1;
        }
    }
    true
}

/// Whether the rows are the cuts, over `width` positions of the master.
fn are_cut_rows(rows: &[LpRow], cuts: &[Cut], width: u32) -> bool
    requires few { width < list_limit }
    requires blocks { AllByRecursion (λ cut. (0 < cut.block) × (cut.block ≤ 256)) cuts.now }
    requires alpha { AllByRecursion (λ cut. AllBelow width cut.alpha) cuts.now }
    ensures { IsTrue result ↔ Pairwise (λ cut. IsRowOf (side_line width (side_of_cut cut))) cuts.now rows.now }
{
    if rows.len() != cuts.len() {
        return false;
    }
    for (number, cut) in cuts.iter().enumerate() {
        if !is_cut_row(&rows[number], cut, width) {
            return false;
        }
    }
    true
}

/// Whether the rows are the master's inequalities and then the ends of the box.
fn are_side_rows(rows: &[LpRow], split: &Split, region: &NodeBox) -> bool
    requires { IsBoxOf split.now.model (box_of region.now) }
    ensures { IsTrue result ↔ AreRowsOfEach (side_lines split.now.model split.now.part (box_of region.now)) rows.now }
{
    let ineqs = split.inequalities(0);
    if rows.len() < ineqs.len() {
        return false;
    }
    let (lower, upper) = (region.lower.as_slice(), region.upper.as_slice());
    let (of_master, of_box) = rows.split_at(ineqs.len());
    are_master_rows(of_master, ineqs, split.width(0)) && are_box_rows(of_box, split, lower, upper)
}

/// Whether the rows are those of the node of a box and cuts.
fn are_node_rows(rows: &[LpRow], split: &Split, region: &NodeBox, cuts: &[Cut]) -> bool
    requires region { IsBoxOf split.now.model (box_of region.now) }
    requires cuts { AllByRecursion (IsCutOfSplit split.now.part) cuts.now }
    ensures { IsTrue result ↔ AreNodeRows split.now.model split.now.part (box_of region.now) cuts.now rows.now }
{
    let sides = split.inequalities(0).len() + 2 * region.lower.as_slice().len();
    if rows.len() < sides {
        return false;
    }
    let (of_sides, of_cuts) = rows.split_at(sides);
    are_side_rows(of_sides, split, region) && are_cut_rows(of_cuts, cuts, split.width(0))
}

/// Whether the program is the node program of a box and cuts.
pub fn is_node_lp(split: &Split, region: &NodeBox, cuts: &[Cut], mode: Mode, lp: &Lp) -> bool
    requires region { IsBoxOf split.now.model (box_of region.now) }
    requires cuts { AllByRecursion (IsCutOfSplit split.now.part) cuts.now }
    ensures { IsTrue result ↔ IsNodeLp split.now.model split.now.part (box_of region.now) cuts.now mode lp.now }
{
    has_columns(lp, split.width(0) + split.blocks())
        && is_node_cost(&lp.cost, split, mode)
        && are_node_rows(lp.rows.as_slice(), split, region, cuts)
}
