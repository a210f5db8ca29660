//! A pool of two cuts of two blocks.
ghost use Rattle.bz_algebra.specs.Numbers.{IsNarrow};

use crate::Pool;
use bz_cut::Cut;
use bz_num::{OutOfMemory, SparseRow};
use std::alloc::Global;
use std::test::Fail;

/// The cut `-eta <= beta` of a block, from one multiplier.
fn cut(alloc: Global, block: u32, multiplier: i128, beta: i128) -> Result<Cut, OutOfMemory>
    requires multiplier { IsNarrow multiplier }
    requires beta { IsNarrow beta }
{
    let mut mu = SparseRow::from_vec(Vec::new(alloc));
    mu.push(0, multiplier)?;
    Ok(Cut {
        block,
        mu,
        gcd: 1,
        alpha: SparseRow::from_vec(Vec::new(alloc)),
        p0: 1,
        beta,
    })
}

/// Adds a cut where it is new, and tells its number.
fn add(pool: &mut Pool, cut: Cut) -> Result<u32, OutOfMemory> {
    if let Some(number) = pool.find(&cut) {
        return Ok(number);
    }
    pool.reserve(1)?;
    let number = pool.len();
    pool.push_reserved(cut);
    Ok(number)
}

#[test]
fn cuts_keep_their_numbers(rt: HostRuntime) -> Result<(), Fail> {
    let alloc = rt.alloc();
    let mut pool = Pool::new(alloc)?;
    assert!(rt; pool.len() == 0);
    assert!(rt; pool.find(&cut(alloc, 1, 1, 0)?).is_none());
    assert!(rt; add(&mut pool, cut(alloc, 1, 1, 0)?)? == 0);
    assert!(rt; add(&mut pool, cut(alloc, 2, 1, 0)?)? == 1);
    // The same cut from other multipliers, and one with another right side.
    assert!(rt; add(&mut pool, cut(alloc, 1, 7, 0)?)? == 0);
    assert!(rt; add(&mut pool, cut(alloc, 1, 1, -3)?)? == 2);
    assert!(rt; pool.len() == 3);
    assert!(rt; pool.front(2).len() == 2);
    assert!(rt; pool.front(2)[1].block == 2);
    Ok(())
}
