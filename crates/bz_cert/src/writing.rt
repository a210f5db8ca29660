//! The writer of a certificate's text.
ghost use Rattle.std.specs.Prelude.{IfOk, OnOk, ◌≡◌, ◌∷◌, ◌++◌, [], map};
ghost use Rattle.std.specs.List.{AllByRecursion};
ghost use Rattle.bz_cert.specs.CertText.{IsCertText, block_lines, bound_lines, cert_lines, cert_text, cut_line, head_bytes, line_with, master_line, node_line};
ghost use Rattle.bz_cert.specs.CertWriting.{Adds, HasFewItems, IsIndexedCut, IsIndexedNode, PassesSome};
ghost use Rattle.bz_cert.specs.Shapes.{IsShaped};
ghost use Rattle.bz_cert.specs.declared.words.Word.{Word};

use crate::line_writers::{write_block, write_cut, write_line, write_master, write_node};
use crate::records::{Certificate, Verdict};
use crate::words::Word;
use bz_cut::Cut;
use bz_model::{BlockPart, Parts};
use bz_num::OutOfMemory;
use bz_tree::TreeNode;
use std::alloc::{AllocError, Global};

/// Adds the lines of blocks.
fn write_blocks(out: &mut Vec<u8>, blocks: &[BlockPart]) -> Result<(), AllocError>
    ensures { OnOk result (Adds out.old.items (block_lines 1 blocks.now) out.new.items) }
{
    'lines: for (place, block) in blocks.iter().enumerate() {
        write_block(out, place + 1, block)?;
    }
    Ok(())
}

/// Adds the lines of cuts.
fn write_cuts(out: &mut Vec<u8>, cuts: &[Cut]) -> Result<(), AllocError>
    ensures text { OnOk result (Adds out.old.items (map cut_line cuts.now) out.new.items) }
    ensures indexes { OnOk result (AllByRecursion IsIndexedCut cuts.now) }
{
    'cuts: for cut in cuts {
        write_cut(out, cut)?;
    }
    Ok(())
}

/// Adds the lines of a tree.
fn write_nodes(out: &mut Vec<u8>, nodes: &[TreeNode]) -> Result<(), AllocError>
    ensures text { OnOk result (Adds out.old.items (map node_line nodes.now) out.new.items) }
    ensures indexes { OnOk result (AllByRecursion IsIndexedNode nodes.now) }
{
    'nodes: for node in nodes {
        write_node(out, node)?;
    }
    Ok(())
}

/// Adds the lines of the cuts, of the tree and of the end.
fn write_bound(out: &mut Vec<u8>, cuts: &[Cut], tree: &[TreeNode]) -> Result<(), AllocError>
    ensures text { OnOk result (Adds out.old.items (bound_lines cuts.now tree.now) out.new.items) }
    ensures cut_indexes { OnOk result (AllByRecursion IsIndexedCut cuts.now) }
    ensures node_indexes { OnOk result (AllByRecursion IsIndexedNode tree.now) }
{
    write_line(out, Word::Cuts, &[cuts.len() as i128])?;
    write_cuts(out, cuts)?;
    write_nodes(out, tree)?;
    write_line(out, Word::End, &[])
}

/// Adds the lines of an optimal point and its value.
fn write_point(out: &mut Vec<u8>, parts: &Parts, value: i128) -> Result<(), AllocError>
    ensures { OnOk result
        (Adds out.old.items
        (master_line parts.now.master ∷ line_with Word.Eta parts.now.master.eta ∷
        (block_lines 1 parts.now.blocks ++ line_with Word.Value (value ∷ []) ∷ [])) out.new.items) }
{
    write_master(out, &parts.master)?;
    write_line(out, Word::Eta, parts.master.eta.as_slice())?;
    write_blocks(out, parts.blocks.as_slice())?;
    write_line(out, Word::Value, &[value])
}

/// Adds the lines of a point and a direction, and of the end.
fn write_direction(out: &mut Vec<u8>, parts: &Parts, ray: &[i128]) -> Result<(), AllocError>
    ensures { OnOk result
        (Adds out.old.items
        (master_line parts.now.master ∷
        (block_lines 1 parts.now.blocks ++ line_with Word.Ray ray.now ∷ line_with Word.End [] ∷ [])) out.new.items) }
{
    write_master(out, &parts.master)?;
    write_blocks(out, parts.blocks.as_slice())?;
    write_line(out, Word::Ray, ray)?;
    write_line(out, Word::End, &[])
}

/// The two first lines.
fn head(alloc: Global, verdict: Verdict) -> Result<Vec<u8>, AllocError>
    ensures { IfOk result (λ out. out.items ≡ head_bytes verdict) }
{
    match verdict {
        Verdict::Optimal => Vec::from_slice(alloc, b"bzcert 1\nverdict optimal\n"),
        Verdict::Infeasible => Vec::from_slice(alloc, b"bzcert 1\nverdict infeasible\n"),
        Verdict::Unbounded => Vec::from_slice(alloc, b"bzcert 1\nverdict unbounded\n"),
    }
}

/// Adds the lines behind the two first ones.
fn write_body(out: &mut Vec<u8>, c: &Certificate) -> Result<(), AllocError>
    requires { IsShaped c.now }
    ensures text { OnOk result (Adds out.old.items (cert_lines c.now) out.new.items) }
    ensures cut_indexes { OnOk result (AllByRecursion IsIndexedCut c.now.cuts) }
    ensures node_indexes { OnOk result (AllByRecursion IsIndexedNode c.now.tree) }
{
    match (c.verdict, &c.parts) {
        (Verdict::Optimal, Some(parts)) => {
            write_point(out, parts, c.value)?;
            write_bound(out, c.cuts.as_slice(), c.tree.as_slice())
        }
        (Verdict::Infeasible, None) => write_bound(out, c.cuts.as_slice(), c.tree.as_slice()),
        (Verdict::Unbounded, Some(parts)) => write_direction(out, parts, c.ray.as_slice()),
        _ => unreachable!(),
    }
}

/// The text of a certificate, which has what its verdict needs. It is the one text that is read as this certificate,
/// where there are fewer than 2^32 blocks, and as many pairs in each sparse list; and so is that of each certificate that
/// passes over a split.
pub fn write_cert(alloc: Global, c: &Certificate) -> Result<Vec<u8>, OutOfMemory>
    requires { IsShaped c.now }
    ensures text { IfOk result (λ text. text.items ≡ cert_text c.now) }
    ensures certificate { IfOk result (λ text. HasFewItems c.now → IsCertText text.items c.now) }
    ensures passing { IfOk result (λ text. PassesSome c.now → IsCertText text.items c.now) }
{
    let mut out = head(alloc, c.verdict)?;
    write_body(&mut out, c)?;
    Ok(out)
}
