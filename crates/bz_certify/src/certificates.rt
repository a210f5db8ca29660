//! The certificate of a search that has come to its end, by its verdict.
ghost use Rattle.std.specs.Prelude.{◌≡◌, [], IfOk};
ghost use Rattle.std.specs.Option.{option_copied};
ghost use Rattle.bz_model.specs.Decomposed.{IsDecomposed};
ghost use Rattle.bz_event.specs.Nodes.{value_of as value_over};
ghost use Rattle.bz_history.specs.Certificates.{IsInfeasibleCertificate, IsOptimalCertificate, IsTreeAt, IsUnboundedCertificate, without_etas as without_etas_of};
ghost use Rattle.bz_history.specs.Finished.{completions as completions_in, parts_of as parts_in};
ghost use Rattle.bz_tree.specs.Trees.{Tree};
ghost use Rattle.bz_certify.specs.Finished.{HasPlaces, HasValue, IsFinished, IsRightCertificate};
ghost use Rattle.bz_certify.specs.Walks.{AreClosed};

use crate::trees::tree_of;
use bz_cert::{Certificate, Verdict};
use bz_cut::Cut;
use bz_floor::placed;
use bz_history::{FallingRay, Filled, Node, Post};
use bz_judge::value_sum;
use bz_model::{BlockPart, Master, Parts, Split};
use bz_num::{Items, OutOfMemory};
use std::alloc::Global;

/// No items.
fn none<T>(alloc: Global) -> Items<T>
    ensures { result ≡ [] }
{
    Items::from_vec(Vec::new(alloc))
}

/// The same cuts.
pub fn copies(alloc: Global, cuts: &[Cut]) -> Result<Items<Cut>, OutOfMemory>
    ensures { IfOk result (λ list. list ≡ cuts.now) }
{
    let mut list = Vec::new(alloc);
    for cut in cuts {
        list.push(cut.copy(alloc)?).map_err(|_| OutOfMemory)?;
    }
    Ok(Items::from_vec(list))
}

/// The completions of the blocks, in their order.
fn completions(alloc: Global, fills: &[Option<Filled>]) -> Result<Items<BlockPart>, OutOfMemory>
    ensures { IfOk result (λ list. list ≡ completions_in fills.now) }
{
    let mut list = Vec::new(alloc);
    for fill in fills {
        if let Some(filled) = fill {
            list.push(filled.y.copy(alloc)?).map_err(|_| OutOfMemory)?;
        }
    }
    Ok(Items::from_vec(list))
}

/// The point with its completions.
pub fn parts_of(alloc: Global, post: &Post) -> Result<Parts, OutOfMemory>
    ensures { IfOk result (λ parts. parts ≡ parts_in post.now) }
{
    Ok(Parts {
        master: post.point.copy(alloc)?,
        blocks: completions(alloc, post.fills.as_slice())?,
    })
}

/// The point without its etas.
fn without_etas(alloc: Global, point: &Master) -> Result<Master, OutOfMemory>
    ensures { IfOk result (λ copy. copy ≡ without_etas_of point.now) }
{
    Ok(Master {
        den: point.den,
        x: point.x.copy(alloc)?,
        eta: none(alloc),
    })
}

/// The point without its etas, with its completions.
fn parts_without_etas(alloc: Global, post: &Post) -> Result<Parts, OutOfMemory>
    ensures { IfOk result
        (λ parts. parts ≡ record { master = without_etas_of post.now.point; blocks = completions_in post.now.fills }) }
{
    Ok(Parts {
        master: without_etas(alloc, &post.point)?,
        blocks: completions(alloc, post.fills.as_slice())?,
    })
}

/// What the point costs with its etas, times its denominator.
fn value_of(split: &Split, point: &Master) -> i128
    requires { HasValue split.now point.now }
    ensures { result ≡ value_over split.now.model split.now.part point.now }
{
    let Ok(value) = value_sum(split, point) else {
        unreachable!()
    };
    value
}

/// A split's model may be solved by its partition. It does nothing else than say so.
fn decomposed(split: &Split)
    ensures { IsDecomposed split.now.model split.now.part }
{
    let _blocks = split.blocks();
}

/// The certificate of a best point in mode Cost.
fn optimal(
    alloc: Global,
    split: &Split,
    post: &Post,
    cuts: &[Cut],
    nodes: &[Node],
) -> Result<Certificate, OutOfMemory>
    requires closed { AreClosed nodes.now }
    requires value { HasValue split.now post.now.point }
    ensures { IfOk result (λ c. (tree : Tree) → IsTreeAt nodes.now 0 tree →
        IsOptimalCertificate split.now cuts.now post.now tree c) }
{
    Ok(Certificate {
        verdict: Verdict::Optimal,
        parts: Some(parts_of(alloc, post)?),
        value: value_of(split, &post.point),
        ray: none(alloc),
        cuts: copies(alloc, cuts)?,
        tree: tree_of(alloc, nodes)?,
    })
}

/// The certificate where there is no best point.
fn infeasible(alloc: Global, cuts: &[Cut], nodes: &[Node]) -> Result<Certificate, OutOfMemory>
    requires { AreClosed nodes.now }
    ensures { IfOk result (λ c. (tree : Tree) → IsTreeAt nodes.now 0 tree →
        IsInfeasibleCertificate cuts.now tree c) }
{
    Ok(Certificate {
        verdict: Verdict::Infeasible,
        parts: None,
        value: 0,
        ray: none(alloc),
        cuts: copies(alloc, cuts)?,
        tree: tree_of(alloc, nodes)?,
    })
}

/// The certificate of a best point in mode Point.
fn unbounded(
    alloc: Global,
    split: &Split,
    post: &Post,
    ray: &FallingRay,
) -> Result<Certificate, OutOfMemory>
    requires { HasPlaces split.now ray.now }
    ensures { IfOk result (IsUnboundedCertificate split.now post.now ray.now) }
{
    Ok(Certificate {
        verdict: Verdict::Unbounded,
        parts: Some(parts_without_etas(alloc, post)?),
        value: 0,
        ray: Items::from_vec(placed(alloc, split, ray.block, ray.d.as_slice())?),
        cuts: none(alloc),
        tree: none(alloc),
    })
}

/// The certificate of a search that has come to its end, from its cuts, its nodes, its points with the number of the best,
/// and its falling direction.
pub fn certificate_of(
    alloc: Global,
    split: &Split,
    cuts: &[Cut],
    nodes: &[Node],
    posts: &[Post],
    best: Option<u32>,
    ray: Option<&FallingRay>,
) -> Result<Certificate, OutOfMemory>
    requires { IsFinished split.now cuts.now nodes.now posts.now best (option_copied ray) }
    ensures { IfOk result
        (IsRightCertificate split.now cuts.now nodes.now posts.now best (option_copied ray.entry)) }
{
    decomposed(split);
    let Some(number) = best else {
        return infeasible(alloc, cuts, nodes);
    };
    let post = &posts[number as usize];
    match ray {
        Some(ray) => unbounded(alloc, split, post, ray),
        None => optimal(alloc, split, post, cuts, nodes),
    }
}
