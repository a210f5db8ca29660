//! What the numbers of a line are: the parts of a certificate.
ghost use Rattle.std.specs.Prelude.{ℤ, List, [], ◌≡◌, ◌∷◌, ◌+◌, ◌≤◌, ◌⊎◌, suc, pos};
ghost use Rattle.std.specs.List.{AllByRecursion};
ghost use Rattle.bz_algebra.specs.Numbers.{IsNarrow};
ghost use Rattle.bz_cert.specs.CertFaults.{IsIndex, Standing, indexes_of};
ghost use Rattle.bz_cert.specs.CertReading.{Answers, AreNumbersOf, FailAnywhere, FailAsBlock, FailBehind, FailInRoom, IsNoNumbersOf, Only};
ghost use Rattle.bz_cert.specs.CertText.{IsWritableCut, IsWritableNode, cut_line, line_with, node_line};

use crate::faults::{CertKind, CertStop, fault};
use crate::lists::{Pairs, TwoLists, are_sparse, has_indexes, is_sparse, take_list, two_lists};
use crate::spelling::numbers_in;
use crate::words::Word;
use bz_cut::Cut;
use bz_model::BlockPart;
use bz_num::{Items, SparseRow};
use bz_tree::{Leaf, TreeNode};
use std::alloc::Global;

/// The most cuts, and the most nodes of a tree.
const MAX: usize = 65535;

/// The numbers of a line, which stand behind its word.
pub(crate) fn numbers_of(
    alloc: Global,
    line: u32,
    word: Word,
    behind: &[u8],
) -> Result<Vec<i128>, CertStop>
    ensures { Answers (λ numbers. AreNumbersOf word behind.now numbers.items)
        (Only line CertKind.Number (IsNoNumbersOf word behind.now)) result }
{
    let numbers = numbers_in(alloc, line, behind)?;
    if has_indexes(word, numbers.as_slice()) {
        Ok(numbers)
    } else {
        Err(fault(line, CertKind::Number))
    }
}

/// The denominator and the numerators of a master's line.
pub(crate) fn master_of(
    alloc: Global,
    line: u32,
    numbers: &[i128],
) -> Result<(i128, Vec<i128>), CertStop>
    ensures { Answers (λ master. numbers.now ≡ master.0 ∷ master.1.items)
        (FailAnywhere line Word.Master numbers.now) result }
{
    let [den, x @ ..] = numbers else {
        return Err(fault(line, CertKind::Line));
    };
    let x = Vec::from_slice(alloc, x)?;
    Ok((*den, x))
}

/// The part of the block with this number.
pub(crate) fn block_of(
    alloc: Global,
    line: u32,
    block: u32,
    numbers: &[i128],
) -> Result<BlockPart, CertStop>
    requires indexes { AllByRecursion IsIndex (indexes_of Word.Block numbers.now) }
    requires narrow { AllByRecursion IsNarrow numbers.now }
    ensures { Answers (λ part. numbers.now ≡ pos block ∷ part.times ∷ part.y)
        (FailAsBlock line block numbers.now) result }
{
    let [number, times, y @ ..] = numbers else {
        return Err(fault(line, CertKind::Line));
    };
    if *number != block as i128 {
        return Err(fault(line, CertKind::Order));
    }
    let y = Vec::from_slice(alloc, y)?;
    Ok(BlockPart {
        times: *times,
        y: Items::from_vec(y),
    })
}

/// The value, alone on its line.
pub(crate) fn value_of(line: u32, numbers: &[i128]) -> Result<i128, CertStop>
    ensures { Answers (λ value. numbers.now ≡ value ∷ []) (FailAnywhere line Word.Value numbers.now) result }
{
    match numbers {
        [value] => Ok(*value),
        _ => Err(fault(line, CertKind::Line)),
    }
}

/// How many cuts there are, alone on its line.
pub(crate) fn count_of(line: u32, numbers: &[i128]) -> Result<u32, CertStop>
    requires { AllByRecursion IsIndex (indexes_of Word.Cuts numbers.now) }
    ensures { Answers (λ count. (numbers.now ≡ pos count ∷ []) × (count ≤ 65535))
        (FailAnywhere line Word.Cuts numbers.now) result }
{
    let [count, rest @ ..] = numbers else {
        return Err(fault(line, CertKind::Line));
    };
    if *count > MAX as i128 {
        return Err(fault(line, CertKind::Limit));
    }
    if !rest.is_empty() {
        return Err(fault(line, CertKind::Line));
    }
    Ok(*count as u32)
}

/// The cut of a line.
pub(crate) fn cut_of(alloc: Global, line: u32, numbers: &[i128]) -> Result<Cut, CertStop>
    requires indexes { AllByRecursion IsIndex (indexes_of Word.Cut numbers.now) }
    requires narrow { AllByRecursion IsNarrow numbers.now }
    ensures { Answers (λ cut. (numbers.now ≡ (cut_line cut).numbers) × IsWritableCut cut)
        (FailAnywhere line Word.Cut numbers.now) result }
{
    let [block, p0, beta, gcd, lists @ ..] = numbers else {
        return Err(fault(line, CertKind::Line));
    };
    let TwoLists {
        first: alpha,
        second: mu,
    } = two_lists(alloc, line, lists)?;
    if !are_sparse(alpha.as_slice(), mu.as_slice()) {
        return Err(fault(line, CertKind::Order));
    }
    Ok(Cut {
        block: *block as u32,
        mu: SparseRow::from_vec(mu),
        gcd: *gcd,
        alpha: SparseRow::from_vec(alpha),
        p0: *p0,
        beta: *beta,
    })
}

/// The split of a line.
fn split_of(line: u32, numbers: &[i128]) -> Result<TreeNode, CertStop>
    requires { AllByRecursion IsIndex (indexes_of Word.Split numbers.now) }
    ensures { Answers (λ node. (node_line node ≡ line_with Word.Split numbers.now) × IsWritableNode node)
        (FailInRoom line Word.Split numbers.now) result }
{
    match numbers {
        [position, left, right] => Ok(TreeNode::Split {
            position: *position as u32,
            left: *left,
            right: *right,
        }),
        _ => Err(fault(line, CertKind::Line)),
    }
}

/// The leaf of a line.
fn leaf_of(alloc: Global, line: u32, numbers: &[i128]) -> Result<TreeNode, CertStop>
    requires indexes { AllByRecursion IsIndex (indexes_of Word.Leaf numbers.now) }
    requires narrow { AllByRecursion IsNarrow numbers.now }
    ensures { Answers (λ node. (node_line node ≡ line_with Word.Leaf numbers.now) × IsWritableNode node)
        (FailInRoom line Word.Leaf numbers.now) result }
{
    let [delta, bound, list @ ..] = numbers else {
        return Err(fault(line, CertKind::Line));
    };
    let Pairs {
        pairs: lambda,
        behind,
    } = take_list(alloc, line, list)?;
    if !behind.is_empty() {
        return Err(fault(line, CertKind::Line));
    }
    if !is_sparse(lambda.as_slice()) {
        return Err(fault(line, CertKind::Order));
    }
    Ok(TreeNode::Leaf(Leaf {
        lambda: SparseRow::from_vec(lambda),
        delta: *delta,
        bound: *bound,
    }))
}

/// The node of a line behind so many of the tree.
pub(crate) fn node_of(
    alloc: Global,
    line: u32,
    word: Word,
    nodes: usize,
    numbers: &[i128],
) -> Result<TreeNode, CertStop>
    requires word { (word ≡ Word.Split) ⊎ (word ≡ Word.Leaf) }
    requires indexes { AllByRecursion IsIndex (indexes_of word numbers.now) }
    requires narrow { AllByRecursion IsNarrow numbers.now }
    ensures { Answers (λ node. (node_line node ≡ line_with word numbers.now) × IsWritableNode node × (nodes ≤ 65534))
        (FailBehind nodes line word numbers.now) result }
{
    if nodes >= MAX {
        return Err(fault(line, CertKind::Limit));
    }
    match word {
        Word::Split => split_of(line, numbers),
        _ => leaf_of(alloc, line, numbers),
    }
}

/// Nothing, as on the last line.
pub(crate) fn nothing_of(line: u32, numbers: &[i128]) -> Result<(), CertStop>
    ensures { Answers (λ nothing. numbers.now ≡ []) (FailAnywhere line Word.End numbers.now) result }
{
    if numbers.is_empty() {
        Ok(())
    } else {
        Err(fault(line, CertKind::Line))
    }
}
