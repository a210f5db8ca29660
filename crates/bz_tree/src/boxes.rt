//! The box of the whole model, and the two sides of a box.
ghost use Rattle.std.specs.Prelude.{◌≡◌, ◌<◌, pos, ◌+ℤ◌, ◌<ℤ◌, ◌≤ℤ◌, IfOk, length, set};
ghost use Rattle.bz_model.specs.Points.{coordinate};
ghost use Rattle.bz_tree.specs.Boxes.{IsRootBox};
ghost use Rattle.bz_tree.specs.Ends.{box_of};
ghost use Rattle.bz_tree.specs.Trees.{with_lower, with_upper};

use crate::records::NodeBox;
use crate::rounding::{lower_ends, upper_ends};
use bz_model::Split;
use bz_num::{Items, OutOfMemory};
use std::alloc::{AllocError, Global};

/// The box of the whole model: the bounds of each integer column, rounded inward. Its ends may cross. It takes memory.
pub fn root_box(alloc: Global, split: &Split) -> Result<NodeBox, OutOfMemory>
    ensures { IfOk result (λ root. IsRootBox split.now.model (box_of root)) }
{
    let columns = split.model().columns.as_slice();
    let lower = lower_ends(alloc, columns)?;
    let upper = upper_ends(alloc, columns)?;
    Ok(NodeBox {
        lower: Items::from_vec(lower),
        upper: Items::from_vec(upper),
    })
}

/// The numbers with another one at the place. It takes memory for them.
fn replaced(
    alloc: Global,
    numbers: &[i128],
    place: u32,
    number: i128,
) -> Result<Items<i128>, AllocError>
    requires { place < length numbers.now }
    ensures { IfOk result (λ copy. copy ≡ set numbers.now place number) }
{
    let mut copy = Vec::from_slice(alloc, numbers)?;
    copy[place as usize] = number;
    Ok(Items::from_vec(copy))
}

/// The number after one that is below the end. The test shows that there is one.
fn next_below(value: i128, end: i128) -> i128
    requires { value <ℤ end }
    ensures { result ≡ value +ℤ pos 1 }
{
    if value < end { value + 1 } else { end }
}

/// The two sides of a box at a whole number between the ends of an integer column, by its place among the integer
/// columns: the points where the column is at most `value`, and those where it is at least `value + 1`. It takes memory.
pub fn split_box(
    alloc: Global,
    b: &NodeBox,
    place: u32,
    value: i128,
) -> Result<(NodeBox, NodeBox), OutOfMemory>
    requires lower { place < length b.now.lower }
    requires upper { place < length b.now.upper }
    requires at_least { coordinate b.now.lower place ≤ℤ value }
    requires below { value <ℤ coordinate b.now.upper place }
    ensures at_most { IfOk result (λ sides. box_of sides.0 ≡ with_upper place value (box_of b.now)) }
    ensures above { IfOk result (λ sides. box_of sides.1 ≡ with_lower place (value +ℤ pos 1) (box_of b.now)) }
{
    let (lower, upper) = (b.lower.as_slice(), b.upper.as_slice());
    let left = NodeBox {
        lower: b.lower.copy(alloc)?,
        upper: replaced(alloc, upper, place, value)?,
    };
    let next = next_below(value, upper[place as usize]);
    let right = NodeBox {
        lower: replaced(alloc, lower, place, next)?,
        upper: b.upper.copy(alloc)?,
    };
    Ok((left, right))
}
