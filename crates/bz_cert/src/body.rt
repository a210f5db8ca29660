//! What stands behind the two first lines of a certificate's text, by the verdict.
ghost use Rattle.std.specs.Prelude.{[], ◌≡◌, ◌∷◌, Some};
ghost use Rattle.std.specs.List.{AllByRecursion};
ghost use Rattle.bz_algebra.specs.Numbers.{IsNarrow};
ghost use Rattle.bz_cert.specs.declared.records.Verdict.{Verdict};
ghost use Rattle.bz_cert.specs.declared.words.Word.{Word};
ghost use Rattle.bz_cert.specs.CertFaults.{FailsAtOnce, Standing};
ghost use Rattle.bz_cert.specs.CertPhases.{FailsAtBlocks, FailsAtBound, FailsBody, ReadsBlocksTo, ReadsBody, ReadsBound};
ghost use Rattle.bz_cert.specs.CertReading.{Answers};
ghost use Rattle.bz_cert.specs.CertText.{line_with};

use crate::faults::{CertKind, CertStop, fault};
use crate::line_lists::{read_blocks, read_cuts, read_tree};
use crate::line_parts::value_of;
use crate::line_readers::{MasterLine, read_count, read_end, read_eta, read_master};
use crate::places::{Place, next_place};
use crate::records::{Certificate, Verdict};
use crate::words::Word;
use bz_cut::Cut;
use bz_model::{BlockPart, Master, Parts};
use bz_num::Items;
use bz_tree::TreeNode;
use std::alloc::Global;

/// The text ends here.
fn finish(at: Place<'_>) -> Result<(), CertStop>
    ensures { Answers (λ nothing. at.entry.rest.now ≡ [])
        (λ number kind. (verdict : Verdict) (before : Standing) → before.last ≡ Some Word.End →
        FailsAtOnce verdict before at.entry.lines at.entry.rest.now number kind) result }
{
    if at.rest.is_empty() {
        Ok(())
    } else {
        Err(fault(at.lines + 1, CertKind::End))
    }
}

/// The master's part of a point.
fn master_part(den: i128, x: Vec<i128>, eta: Vec<i128>) -> Master
    requires den { IsNarrow den }
    requires x { AllByRecursion IsNarrow x.items }
    requires eta { AllByRecursion IsNarrow eta.items }
    ensures den { result.den ≡ den }
    ensures x { result.x ≡ x.items }
    ensures eta { result.eta ≡ eta.items }
{
    Master {
        den,
        x: Items::from_vec(x),
        eta: Items::from_vec(eta),
    }
}

/// The blocks of an optimum, and its value.
#[derive(Drop)]
struct Valued<'a> {
    /// The parts of the blocks.
    blocks: Vec<BlockPart>,
    /// The value.
    value: i128,
    /// The place behind its line.
    behind: Place<'a>,
}

/// The blocks of an unbounded model, and a direction.
#[derive(Drop)]
struct Directed<'a> {
    /// The parts of the blocks.
    blocks: Vec<BlockPart>,
    /// The direction.
    ray: Vec<i128>,
    /// The place behind its line.
    behind: Place<'a>,
}

/// The blocks and the value.
fn read_valued<'a>(alloc: Global, at: Place<'a>) -> Result<Valued<'a>, CertStop>
    ensures { Answers
        (λ r. ReadsBlocksTo (line_with Word.Value (r.value ∷ [])) r.blocks.items
        at.entry.lines at.entry.rest.now r.behind.lines r.behind.rest.now)
        (FailsAtBlocks Word.Value at.entry.lines at.entry.rest.now) result }
{
    let blocks = read_blocks(alloc, at, Word::Value)?;
    let value = value_of(blocks.behind.lines + 1, blocks.last.as_slice())?;
    let behind = next_place(blocks.behind, blocks.from_feed)?;
    Ok(Valued {
        blocks: blocks.parts,
        value,
        behind,
    })
}

/// The blocks and the direction.
fn read_directed<'a>(alloc: Global, at: Place<'a>) -> Result<Directed<'a>, CertStop>
    ensures { Answers
        (λ r. ReadsBlocksTo (line_with Word.Ray r.ray.items) r.blocks.items
        at.entry.lines at.entry.rest.now r.behind.lines r.behind.rest.now)
        (FailsAtBlocks Word.Ray at.entry.lines at.entry.rest.now) result }
{
    let blocks = read_blocks(alloc, at, Word::Ray)?;
    let behind = next_place(blocks.behind, blocks.from_feed)?;
    Ok(Directed {
        blocks: blocks.parts,
        ray: blocks.last,
        behind,
    })
}

/// The cuts and the tree, up to the end of the text.
fn read_bound(alloc: Global, at: Place<'_>) -> Result<(Vec<Cut>, Vec<TreeNode>), CertStop>
    ensures { Answers (λ r. ReadsBound r.0.items r.1.items at.entry.lines at.entry.rest.now)
        (FailsAtBound at.entry.lines at.entry.rest.now) result }
{
    let (count, behind) = read_count(alloc, at)?;
    let (cuts, behind) = read_cuts(alloc, behind, count)?;
    let (tree, behind) = read_tree(alloc, behind)?;
    let end = read_end(alloc, behind, &[Word::Split, Word::Leaf, Word::End])?;
    finish(end)?;
    Ok((cuts, tree))
}

/// The certificate of an optimum.
fn read_optimal(alloc: Global, at: Place<'_>) -> Result<Certificate, CertStop>
    ensures { Answers (ReadsBody Verdict.Optimal at.entry.rest.now)
        (FailsBody Verdict.Optimal at.entry.lines at.entry.rest.now) result }
{
    let MasterLine { den, x, behind } = read_master(alloc, at)?;
    let (eta, behind) = read_eta(alloc, behind)?;
    let Valued {
        blocks,
        value,
        behind,
    } = read_valued(alloc, behind)?;
    let (cuts, tree) = read_bound(alloc, behind)?;
    Ok(Certificate {
        verdict: Verdict::Optimal,
        parts: Some(Parts {
            master: master_part(den, x, eta),
            blocks: Items::from_vec(blocks),
        }),
        value,
        ray: Items::from_vec(Vec::new(alloc)),
        cuts: Items::from_vec(cuts),
        tree: Items::from_vec(tree),
    })
}

/// The certificate of a model without feasible points.
fn read_infeasible(alloc: Global, at: Place<'_>) -> Result<Certificate, CertStop>
    ensures { Answers (ReadsBody Verdict.Infeasible at.entry.rest.now)
        (FailsBody Verdict.Infeasible at.entry.lines at.entry.rest.now) result }
{
    let (cuts, tree) = read_bound(alloc, at)?;
    Ok(Certificate {
        verdict: Verdict::Infeasible,
        parts: None,
        value: 0,
        ray: Items::from_vec(Vec::new(alloc)),
        cuts: Items::from_vec(cuts),
        tree: Items::from_vec(tree),
    })
}

/// The certificate of an unbounded model.
fn read_unbounded(alloc: Global, at: Place<'_>) -> Result<Certificate, CertStop>
    ensures { Answers (ReadsBody Verdict.Unbounded at.entry.rest.now)
        (FailsBody Verdict.Unbounded at.entry.lines at.entry.rest.now) result }
{
    let MasterLine { den, x, behind } = read_master(alloc, at)?;
    let Directed {
        blocks,
        ray,
        behind,
    } = read_directed(alloc, behind)?;
    let end = read_end(alloc, behind, &[Word::End])?;
    finish(end)?;
    Ok(Certificate {
        verdict: Verdict::Unbounded,
        parts: Some(Parts {
            master: master_part(den, x, Vec::new(alloc)),
            blocks: Items::from_vec(blocks),
        }),
        value: 0,
        ray: Items::from_vec(ray),
        cuts: Items::from_vec(Vec::new(alloc)),
        tree: Items::from_vec(Vec::new(alloc)),
    })
}

/// The certificate behind the verdict's line.
pub(crate) fn read_body(
    alloc: Global,
    at: Place<'_>,
    verdict: Verdict,
) -> Result<Certificate, CertStop>
    ensures { Answers (ReadsBody verdict at.entry.rest.now)
        (FailsBody verdict at.entry.lines at.entry.rest.now) result }
{
    match verdict {
        Verdict::Optimal => read_optimal(alloc, at),
        Verdict::Infeasible => read_infeasible(alloc, at),
        Verdict::Unbounded => read_unbounded(alloc, at),
    }
}
