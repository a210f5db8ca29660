//! Lines of blocks, of cuts and of a tree.
ghost use Rattle.std.specs.Prelude.{◌≡◌, ◌<◌, ◌≤◌};
ghost use Rattle.bz_cert.specs.CertPhases.{ReadsBlocks, ReadsCuts, ReadsTree, FailsAtBlocks, FailsAtCuts, FailsAtTree, trees_behind as count_behind};
ghost use Rattle.bz_cert.specs.CertReading.{Answers};

use crate::faults::CertStop;
use crate::line_readers::{BlockLine, read_block, read_cut, read_node};
use crate::places::Place;
use crate::words::Word;
use bz_cut::Cut;
use bz_model::BlockPart;
use bz_tree::TreeNode;
use std::alloc::Global;

/// Lines of blocks: their parts, the place behind them, the numbers of the line that ends them, and what is left from
/// that line's end on.
#[derive(Drop)]
pub(crate) struct Blocks<'a> {
    pub parts: Vec<BlockPart>,
    pub behind: Place<'a>,
    pub last: Vec<i128>,
    pub from_feed: &'a [u8],
}

/// The blocks, up to the line of the word that ends them.
pub(crate) fn read_blocks<'a>(
    alloc: Global,
    at: Place<'a>,
    last: Word,
) -> Result<Blocks<'a>, CertStop>
    ensures { Answers
        (λ r. ReadsBlocks last r.parts.items at.entry.lines at.entry.rest.now
        r.behind.lines r.behind.rest.now r.last.items r.from_feed.now)
        (FailsAtBlocks last at.entry.lines at.entry.rest.now) result }
{
    let mut parts = Vec::new(alloc);
    let mut behind = at;
    'lines: loop {
        match read_block(alloc, behind, last, parts.len() as u32 + 1)? {
            BlockLine::Block(part, next) => {
                parts.push(part)?;
                behind = next;
            }
            BlockLine::Last(numbers, from_feed) => {
                return Ok(Blocks {
                    parts,
                    behind,
                    last: numbers,
                    from_feed,
                });
            }
        }
    }
}

/// So many cuts.
pub(crate) fn read_cuts<'a>(
    alloc: Global,
    at: Place<'a>,
    count: u32,
) -> Result<(Vec<Cut>, Place<'a>), CertStop>
    ensures { Answers (λ r. ReadsCuts count r.0.items at.entry.lines at.entry.rest.now r.1.lines r.1.rest.now)
        (FailsAtCuts count at.entry.lines at.entry.rest.now) result }
{
    let mut cuts = Vec::new(alloc);
    let mut behind = at;
    'cuts: for _ in 0..count {
        let (cut, next) = read_cut(alloc, behind)?;
        cuts.push(cut)?;
        behind = next;
    }
    Ok((cuts, behind))
}

/// How many trees are still to come behind one more node.
fn trees_behind(node: &TreeNode, trees: u32) -> u32
    requires some { 0 < trees }
    requires few { trees ≤ 65536 }
    ensures { result ≡ count_behind node.now trees }
{
    match node {
        TreeNode::Split { .. } => trees + 1,
        TreeNode::Leaf(_) => trees - 1,
    }
}

/// The nodes of a tree, up to its last leaf.
pub(crate) fn read_tree<'a>(
    alloc: Global,
    at: Place<'a>,
) -> Result<(Vec<TreeNode>, Place<'a>), CertStop>
    ensures { Answers (λ r. ReadsTree r.0.items at.entry.lines at.entry.rest.now r.1.lines r.1.rest.now)
        (FailsAtTree at.entry.lines at.entry.rest.now) result }
{
    let mut nodes = Vec::new(alloc);
    let mut behind = at;
    let mut trees: u32 = 1;
    'nodes: while trees > 0 {
        let (node, next) = read_node(alloc, behind, nodes.len())?;
        trees = trees_behind(&node, trees);
        nodes.push(node)?;
        behind = next;
    }
    Ok((nodes, behind))
}
