//! The lines of a certificate's text, one at a time, behind the bytes that stand before them.
ghost use Rattle.std.specs.Prelude.{OnOk, ◌≡◌, ◌++◌, ◌<◌, ◌^◌, ◌∷◌, [], pos};
ghost use Rattle.bz_algebra.specs.Sums.{AllBelow};
ghost use Rattle.bz_cert.specs.CertText.{cut_line, line_with, master_line, node_line, sparse_numbers, word_bytes};
ghost use Rattle.bz_tree.specs.declared.TreeNode.{TreeNode};
ghost use Rattle.bz_cert.specs.declared.words.Word.{Word};
ghost use Rattle.bz_cert.specs.CertWriting.{Adds, AddsNumbers, IsIndexed, IsIndexedCut, IsIndexedNode, pair_numbers};

use crate::words::Word;
use bz_cut::Cut;
use bz_model::{BlockPart, Master};
use bz_num::SparseRow;
use bz_tree::{Leaf, TreeNode};
use itoa::Buffer;
use std::alloc::AllocError;

/// Adds a number behind one blank.
fn write_number(out: &mut Vec<u8>, number: i128) -> Result<(), AllocError>
    ensures { OnOk result (AddsNumbers out.old.items (number ∷ []) out.new.items) }
{
    let mut buffer = Buffer::new();
    out.extend_from_slice(b" ")?;
    out.extend_from_slice(buffer.format(number).as_bytes())
}

/// Adds numbers, each behind one blank.
fn write_numbers(out: &mut Vec<u8>, numbers: &[i128]) -> Result<(), AllocError>
    ensures { OnOk result (AddsNumbers out.old.items numbers.now out.new.items) }
{
    'numbers: for number in numbers {
        write_number(out, *number)?;
    }
    Ok(())
}

/// Adds an index and a value.
fn write_pair(out: &mut Vec<u8>, index: u32, value: i128) -> Result<(), AllocError>
    ensures text { OnOk result (AddsNumbers out.old.items (pos index ∷ value ∷ []) out.new.items) }
    ensures index { index < 2 ^ 32 }
{
    write_number(out, i128::from(index))?;
    write_number(out, value)
}

/// Adds pairs of an index and a value.
fn write_pairs(out: &mut Vec<u8>, pairs: &[(u32, i128)]) -> Result<(), AllocError>
    ensures text { OnOk result (AddsNumbers out.old.items (pair_numbers pairs.now) out.new.items) }
    ensures indexes { OnOk result (AllBelow (2 ^ 32) pairs.now) }
{
    'pairs: for pair in pairs {
        write_pair(out, pair.0, pair.1)?;
    }
    Ok(())
}

/// Adds the numbers of a sparse list: its count, and its pairs.
fn write_list(out: &mut Vec<u8>, list: &SparseRow) -> Result<(), AllocError>
    ensures text { OnOk result (AddsNumbers out.old.items (sparse_numbers list.now) out.new.items) }
    ensures indexes { OnOk result (IsIndexed list.now) }
{
    let pairs = list.as_slice();
    write_number(out, pairs.len() as i128)?;
    write_pairs(out, pairs)
}

/// Adds the word of a line.
fn begin_line(out: &mut Vec<u8>, word: Word) -> Result<(), AllocError>
    ensures { OnOk result (out.new.items ≡ out.old.items ++ word_bytes word) }
{
    out.extend_from_slice(word.bytes())
}

/// Adds the line feed of a line.
fn end_line(out: &mut Vec<u8>) -> Result<(), AllocError>
    ensures { OnOk result (out.new.items ≡ out.old.items ++ 10 ∷ []) }
{
    out.extend_from_slice(b"\n")
}

/// Adds a line of a word and numbers.
pub(crate) fn write_line(out: &mut Vec<u8>, word: Word, numbers: &[i128]) -> Result<(), AllocError>
    ensures { OnOk result (Adds out.old.items (line_with word numbers.now ∷ []) out.new.items) }
{
    begin_line(out, word)?;
    write_numbers(out, numbers)?;
    end_line(out)
}

/// Adds the line of a master's numbers.
pub(crate) fn write_master(out: &mut Vec<u8>, master: &Master) -> Result<(), AllocError>
    ensures { OnOk result (Adds out.old.items (master_line master.now ∷ []) out.new.items) }
{
    begin_line(out, Word::Master)?;
    write_number(out, master.den)?;
    write_numbers(out, master.x.as_slice())?;
    end_line(out)
}

/// Adds the line of the block of that number.
pub(crate) fn write_block(
    out: &mut Vec<u8>,
    number: usize,
    block: &BlockPart,
) -> Result<(), AllocError>
    ensures { OnOk result
        (Adds out.old.items (line_with Word.Block (pos number ∷ block.now.times ∷ block.now.y) ∷ []) out.new.items) }
{
    begin_line(out, Word::Block)?;
    write_number(out, number as i128)?;
    write_number(out, block.times)?;
    write_numbers(out, block.y.as_slice())?;
    end_line(out)
}

/// Adds the numbers of a cut before its two lists.
fn write_cut_front(out: &mut Vec<u8>, cut: &Cut) -> Result<(), AllocError>
    ensures text { OnOk result
        (AddsNumbers out.old.items (pos cut.now.block ∷ cut.now.p0 ∷ cut.now.beta ∷ cut.now.gcd ∷ []) out.new.items) }
    ensures block { cut.now.block < 2 ^ 32 }
{
    write_pair(out, cut.block, cut.p0)?;
    write_number(out, cut.beta)?;
    write_number(out, cut.gcd)
}

/// Adds the line of a cut.
pub(crate) fn write_cut(out: &mut Vec<u8>, cut: &Cut) -> Result<(), AllocError>
    ensures text { OnOk result (Adds out.old.items (cut_line cut.now ∷ []) out.new.items) }
    ensures indexes { OnOk result (IsIndexedCut cut.now) }
{
    begin_line(out, Word::Cut)?;
    write_cut_front(out, cut)?;
    write_list(out, &cut.alpha)?;
    write_list(out, &cut.mu)?;
    end_line(out)
}

/// Adds the line of a leaf.
fn write_leaf(out: &mut Vec<u8>, leaf: &Leaf) -> Result<(), AllocError>
    ensures text { OnOk result (Adds out.old.items (node_line (TreeNode.Leaf leaf.now) ∷ []) out.new.items) }
    ensures indexes { OnOk result (IsIndexed leaf.now.lambda) }
{
    begin_line(out, Word::Leaf)?;
    write_number(out, leaf.delta)?;
    write_number(out, leaf.bound)?;
    write_list(out, &leaf.lambda)?;
    end_line(out)
}

/// Adds the line of a split.
fn write_split(out: &mut Vec<u8>, position: u32, left: i128, right: i128) -> Result<(), AllocError>
    ensures text { OnOk result
        (Adds out.old.items (node_line (TreeNode.Split position left right) ∷ []) out.new.items) }
    ensures position { position < 2 ^ 32 }
{
    begin_line(out, Word::Split)?;
    write_pair(out, position, left)?;
    write_number(out, right)?;
    end_line(out)
}

/// Adds the line of a node of a tree.
pub(crate) fn write_node(out: &mut Vec<u8>, node: &TreeNode) -> Result<(), AllocError>
    ensures text { OnOk result (Adds out.old.items (node_line node.now ∷ []) out.new.items) }
    ensures indexes { OnOk result (IsIndexedNode node.now) }
{
    match node {
        TreeNode::Split {
            position,
            left,
            right,
        } => write_split(out, *position, *left, *right),
        TreeNode::Leaf(leaf) => write_leaf(out, leaf),
    }
}
