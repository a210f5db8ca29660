//! The walk through a tree: the box of the next node, and the splits that are open. It takes a few words for each of
//! these, whatever the number of integer columns.
ghost use Rattle.std.specs.Prelude.{◌≡◌, ◌<◌, [], IfOk, length};
ghost use Rattle.bz_tree.specs.Ends.{box_of};
ghost use Rattle.bz_check.specs.Walks.{Enters, GoesOn, IsWalk, Returns, Turns, box_in};

use bz_tree::NodeBox;
use std::alloc::{AllocError, Global};

/// A split of which one side is walked.
#[derive(Clone, Copy)]
pub enum Frame {
    /// The first side: the place of the integer column, the upper end that stood there before, and the lower end that
    /// the second side gets.
    First {
        place: usize,
        upper: i128,
        right: i128,
    },
    /// The second side: the place of the integer column, and the lower end that stood there before.
    Second {
        place: usize,
        lower: i128,
    },
}

/// The ends of the box of the next node, by integer column, and the open splits, the last one last.
#[derive(Drop)]
pub struct Walk {
    pub lower: Vec<i128>,
    pub upper: Vec<i128>,
    pub frames: Vec<Frame>,
}

impl Walk {
    /// The walk from the root. It takes no memory.
    pub fn new(alloc: Global, root: NodeBox) -> Walk
        ensures root { box_in result ≡ box_of root }
        ensures frames { result.frames.items ≡ [] }
    {
        Walk {
            lower: root.lower.into_vec(),
            upper: root.upper.into_vec(),
            frames: Vec::new(alloc),
        }
    }
}

/// Goes to the first side of a split of the integer column at a place.
pub fn enter(walk: &mut Walk, place: usize, left: i128, right: i128) -> Result<(), AllocError>
    requires { place < length walk.old.upper.items }
    ensures { IfOk result (λ _. Enters place left right walk.old walk.new) }
{
    let upper = walk.upper[place];
    walk.frames.push(Frame::First {
        place,
        upper,
        right,
    })?;
    walk.upper[place] = left;
    Ok(())
}

/// Goes from behind the first side of a split to the second.
fn turn(walk: &mut Walk, place: usize, upper: i128, right: i128) -> Result<(), AllocError>
    requires lower { place < length walk.old.lower.items }
    requires upper { place < length walk.old.upper.items }
    ensures { IfOk result (λ _. Turns place upper right walk.old walk.new) }
{
    let lower = walk.lower[place];
    walk.frames.push(Frame::Second { place, lower })?;
    walk.upper[place] = upper;
    walk.lower[place] = right;
    Ok(())
}

/// Puts a lower end back behind the second side of a split, which is open no more.
fn put_back(walk: &mut Walk, place: usize, lower: i128)
    requires { place < length walk.old.lower.items }
    ensures { Returns place lower walk.old walk.new }
{
    walk.lower[place] = lower;
}

/// Goes from a leaf to the next tree that is to come: the second side of the last split whose first side is walked. What
/// the sides that are done with replaced is put back.
pub fn go_on(walk: &mut Walk) -> Result<(), AllocError>
    requires { IsWalk (length walk.old.lower.items) walk.old }
    ensures next { IfOk result (λ _. GoesOn walk.old walk.new) }
    ensures kept { IfOk result (λ _. IsWalk (length walk.old.lower.items) walk.new) }
{
    while let Some(frame) = walk.frames.pop() {
        match frame {
            Frame::First {
                place,
                upper,
                right,
            } => return turn(walk, place, upper, right),
            Frame::Second { place, lower } => put_back(walk, place, lower),
        }
    }
    Ok(())
}
