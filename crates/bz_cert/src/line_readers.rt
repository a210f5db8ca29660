//! Single lines of a certificate's text.
ghost use Rattle.std.specs.Prelude.{[], ◌∷◌, ◌≤◌, pos};
ghost use Rattle.bz_cert.specs.declared.words.Word.{Word};
ghost use Rattle.bz_cert.specs.BlockLines.{BlockLineIs};
ghost use Rattle.bz_cert.specs.CertReading.{Answers, FailsAtBlock, FailsAtEnd, FailsAtNode, FailsAwaiting, ReadsLine};
ghost use Rattle.bz_cert.specs.CertText.{IsWritableCut, IsWritableNode, cut_line, line_with, node_line};

use crate::faults::{CertKind, CertStop, fault};
use crate::line_parts::{block_of, count_of, cut_of, master_of, node_of, nothing_of, numbers_of};
use crate::places::{NumberLine, Place, WordLine, next_line, next_line_of, next_place, next_word};
use crate::words::Word;
use bz_cut::Cut;
use bz_model::BlockPart;
use bz_tree::TreeNode;
use std::alloc::Global;

/// The line of the master, read.
#[derive(Drop)]
pub(crate) struct MasterLine<'a> {
    /// The master's denominator.
    pub den: i128,
    /// Its numerators.
    pub x: Vec<i128>,
    /// The place behind the line.
    pub behind: Place<'a>,
}

/// The master's denominator and numerators.
pub(crate) fn read_master<'a>(alloc: Global, at: Place<'a>) -> Result<MasterLine<'a>, CertStop>
    ensures { Answers
        (λ master. ReadsLine at.entry.lines at.entry.rest.now
        (line_with Word.Master (master.den ∷ master.x.items)) master.behind.lines master.behind.rest.now)
        (FailsAwaiting (Word.Master ∷ []) at.entry.lines at.entry.rest.now) result }
{
    let (numbers, from_feed) = next_line_of(alloc, at, Word::Master)?;
    let (den, x) = master_of(alloc, at.lines + 1, numbers.as_slice())?;
    let behind = next_place(at, from_feed)?;
    Ok(MasterLine { den, x, behind })
}

/// The etas of an optimum.
pub(crate) fn read_eta<'a>(alloc: Global, at: Place<'a>) -> Result<(Vec<i128>, Place<'a>), CertStop>
    ensures { Answers
        (λ r. ReadsLine at.entry.lines at.entry.rest.now (line_with Word.Eta r.0.items) r.1.lines r.1.rest.now)
        (FailsAwaiting (Word.Eta ∷ []) at.entry.lines at.entry.rest.now) result }
{
    let (eta, from_feed) = next_line_of(alloc, at, Word::Eta)?;
    let behind = next_place(at, from_feed)?;
    Ok((eta, behind))
}

/// A line of blocks: the next one, or the line that ends them.
pub(crate) enum BlockLine<'a> {
    /// The part of the block, and the place behind its line.
    Block(BlockPart, Place<'a>),
    /// The numbers of the other line, and what is left from its end on.
    Last(Vec<i128>, &'a [u8]),
}

/// The line of the block with this number, or the line of the word that ends the blocks.
pub(crate) fn read_block<'a>(
    alloc: Global,
    at: Place<'a>,
    last: Word,
    block: u32,
) -> Result<BlockLine<'a>, CertStop>
    ensures { Answers (BlockLineIs last block at.entry.lines at.entry.rest.now)
        (FailsAtBlock last block at.entry.lines at.entry.rest.now) result }
{
    let NumberLine {
        word,
        numbers,
        from_feed,
    } = next_line(alloc, at, &[Word::Block, last])?;
    if !word.is(Word::Block) {
        return Ok(BlockLine::Last(numbers, from_feed));
    }
    let part = block_of(alloc, at.lines + 1, block, numbers.as_slice())?;
    let behind = next_place(at, from_feed)?;
    Ok(BlockLine::Block(part, behind))
}

/// How many cuts there are.
pub(crate) fn read_count<'a>(alloc: Global, at: Place<'a>) -> Result<(u32, Place<'a>), CertStop>
    ensures { Answers
        (λ r. ReadsLine at.entry.lines at.entry.rest.now (line_with Word.Cuts (pos r.0 ∷ [])) r.1.lines r.1.rest.now
        × (r.0 ≤ 65535))
        (FailsAwaiting (Word.Cuts ∷ []) at.entry.lines at.entry.rest.now) result }
{
    let (numbers, from_feed) = next_line_of(alloc, at, Word::Cuts)?;
    let count = count_of(at.lines + 1, numbers.as_slice())?;
    let behind = next_place(at, from_feed)?;
    Ok((count, behind))
}

/// The next cut.
pub(crate) fn read_cut<'a>(alloc: Global, at: Place<'a>) -> Result<(Cut, Place<'a>), CertStop>
    ensures { Answers
        (λ r. ReadsLine at.entry.lines at.entry.rest.now (cut_line r.0) r.1.lines r.1.rest.now × IsWritableCut r.0)
        (FailsAwaiting (Word.Cut ∷ []) at.entry.lines at.entry.rest.now) result }
{
    let (numbers, from_feed) = next_line_of(alloc, at, Word::Cut)?;
    let cut = cut_of(alloc, at.lines + 1, numbers.as_slice())?;
    let behind = next_place(at, from_feed)?;
    Ok((cut, behind))
}

/// The next node, behind so many of a tree that is not whole.
pub(crate) fn read_node<'a>(
    alloc: Global,
    at: Place<'a>,
    nodes: usize,
) -> Result<(TreeNode, Place<'a>), CertStop>
    ensures { Answers
        (λ r. ReadsLine at.entry.lines at.entry.rest.now (node_line r.0) r.1.lines r.1.rest.now × IsWritableNode r.0
        × (nodes ≤ 65534))
        (FailsAtNode nodes at.entry.lines at.entry.rest.now) result }
{
    let WordLine {
        word,
        behind,
        from_feed,
    } = next_word(at, &[Word::Split, Word::Leaf, Word::End])?;
    if word.is(Word::End) {
        return Err(fault(at.lines + 1, CertKind::Tree));
    }
    let numbers = numbers_of(alloc, at.lines + 1, word, behind)?;
    let node = node_of(alloc, at.lines + 1, word, nodes, numbers.as_slice())?;
    let behind = next_place(at, from_feed)?;
    Ok((node, behind))
}

/// The last line. A line of another word would go on with a tree that is whole.
pub(crate) fn read_end<'a>(
    alloc: Global,
    at: Place<'a>,
    words: &[Word],
) -> Result<Place<'a>, CertStop>
    ensures { Answers
        (λ behind. ReadsLine at.entry.lines at.entry.rest.now (line_with Word.End []) behind.lines behind.rest.now)
        (FailsAtEnd words.now at.entry.lines at.entry.rest.now) result }
{
    let WordLine {
        word,
        behind,
        from_feed,
    } = next_word(at, words)?;
    if !word.is(Word::End) {
        return Err(fault(at.lines + 1, CertKind::Tree));
    }
    let numbers = numbers_of(alloc, at.lines + 1, word, behind)?;
    nothing_of(at.lines + 1, numbers.as_slice())?;
    next_place(at, from_feed)
}
