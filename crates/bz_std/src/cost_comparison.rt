//! Costs over columns compared with the costs of parts, variable by variable.
ghost use Rattle.std.specs.Prelude.{◌↔◌, ◌<◌, ◌≤◌, ◌*◌, IsTrue};
ghost use Rattle.bz_algebra.specs.Numbers.{IsNarrow};
ghost use Rattle.bz_num.specs.Row.{IsSparse};
ghost use Rattle.bz_model.specs.Limits.{list_limit};
ghost use Rattle.bz_model.specs.Parting.{blocks_of, width_of};
ghost use Rattle.bz_std.specs.Compared.{HasCosts, HasNodeCosts, HasNumber, HasOnes};
ghost use Rattle.bz_std.specs.Tasks.{IsNodeCost, IsPartCost};

use crate::row_comparison::are_equal;
use bz_cut::Mode;
use bz_model::{Split, all_below};
use bz_num::{SparseRow, narrow_negation};

/// Whether a variable has this number in the row.
fn has_number(row: &SparseRow, variable: u32, number: i128) -> bool
    requires few { variable < 2 * list_limit }
    requires narrow { IsNarrow number }
    ensures { IsTrue result ↔ HasNumber row.now variable number }
{
    are_equal(row.at(2 * variable), number)
        && are_equal(row.at(2 * variable + 1), narrow_negation(number))
}

/// Whether each position of the part has in the row its number in the cost that is minimised.
fn has_costs(row: &SparseRow, split: &Split, part: u32) -> bool
    requires part { part ≤ blocks_of split.now.part }
    requires few { width_of split.now.part part < list_limit }
    ensures { IsTrue result ↔ HasCosts split.now.model split.now.part part row.now }
{
    for position in 0..split.width(part) {
        if !has_number(row, position, split.inner_cost(part, position)) {
            return false;
        }
    }
    true
}

/// Whether each eta has the number 1 in the row: they are the variables from `width` on.
fn has_etas(row: &SparseRow, width: u32, blocks: u32) -> bool
    requires width { width < list_limit }
    requires blocks { blocks ≤ 256 }
    ensures { IsTrue result ↔ HasOnes row.now width blocks }
{
    for eta in 0..blocks {
        if !has_number(row, width + eta, 1) {
            return false;
        }
    }
    true
}

/// Whether each variable of a node has in the row its number in mode Cost.
fn has_node_costs(row: &SparseRow, split: &Split) -> bool
    requires { width_of split.now.part 0 < list_limit }
    ensures { IsTrue result ↔ HasNodeCosts split.now.model split.now.part row.now }
{
    let (width, blocks) = (split.width(0), split.blocks());
    has_costs(row, split, 0) && has_etas(row, width, blocks)
}

/// A row has each index once, and no number that is 0.
fn rises(row: &SparseRow)
    ensures { IsSparse row.now }
{
    let _entries = row.as_slice();
}

/// Whether the row is the cost of a part over columns. It takes no memory.
pub(crate) fn is_cost(row: &SparseRow, split: &Split, part: u32) -> bool
    requires { part ≤ blocks_of split.now.part }
    ensures { IsTrue result ↔ IsPartCost split.now.model split.now.part part row.now }
{
    rises(row);
    rises(&split.model().cost);
    all_below(row, 2 * split.width(part)) && has_costs(row, split, part)
}

/// Whether the row is the cost of a node over columns. It takes no memory.
pub(crate) fn is_node_cost(row: &SparseRow, split: &Split, mode: Mode) -> bool
    ensures { IsTrue result ↔ IsNodeCost split.now.model split.now.part mode row.now }
{
    rises(row);
    rises(&split.model().cost);
    match mode {
        Mode::Cost => {
            all_below(row, 2 * (split.width(0) + split.blocks())) && has_node_costs(row, split)
        },
        Mode::Point => row.as_slice().is_empty(),
    }
}
