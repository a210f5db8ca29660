//! A list of cuts, no two the same.
ghost use Rattle.std.specs.Prelude.{◌≡◌, ◌≤◌, ◌<◌, ◌+◌, ◌++◌, ◌∷◌, [], IfNone, IfOk, IfSome, OnErr, OnOk, length, take};
ghost use Rattle.bz_pool.specs.Pools.{IsNew, IsPlaceOf};

use bz_cut::{Cut, same};
use bz_num::OutOfMemory;
use std::alloc::Global;
use std::marker::Model;

/// A list of cuts, no two the same, with room for some more. Contracts see the cuts, and how many more can be added
/// without memory.
#[derive(Drop)]
pub struct Pool {
    cuts: Vec<Cut>,
}

impl Model for Pool {
    ghost use Rattle.bz_pool.specs.Pools.{IsPool, PoolView, spare_of};
    ghost use Rattle.std.specs.Prelude.{vec_capacity};

    ghost Value = { PoolView };

    ghost view = { λ p. record { cuts = p.cuts.items; spare = spare_of (vec_capacity p.cuts) p.cuts.items } };

    ghost invariant = { λ p. IsPool p.cuts.items };
}

impl Pool {
    /// No cuts.
    pub fn new(alloc: Global) -> Result<Pool, OutOfMemory>
        ensures { IfOk result (λ pool. pool.cuts ≡ []) }
    {
        let cuts = Vec::new(alloc);
        Ok(Pool { cuts })
    }

    /// How many cuts there are.
    pub fn len(&self) -> u32
        ensures { result ≡ length self.now.cuts }
    {
        self.cuts.len() as u32
    }

    /// The first n cuts.
    pub fn front(&self, n: u32) -> &[Cut]
        requires { n ≤ length self.now.cuts }
        ensures { result.now ≡ take n self.now.cuts }
    {
        &self.cuts.as_slice()[..n as usize]
    }

    /// The number of the cut that is the same as this one, where there is one.
    pub fn find(&self, cut: &Cut) -> Option<u32>
        ensures found { IfSome result (IsPlaceOf self.now.cuts cut.now) }
        ensures missing { IfNone result (IsNew self.now.cuts cut.now) }
    {
        for (number, known) in self.cuts.as_slice().iter().enumerate() {
            if same(known, cut) {
                return Some(number as u32);
            }
        }
        None
    }

    /// Makes room for n more cuts.
    pub fn reserve(&mut self, n: u32) -> Result<(), OutOfMemory>
        ensures cuts { self.new.cuts ≡ self.old.cuts }
        ensures room { OnOk result (n ≤ self.new.spare) }
        ensures kept { self.old.spare ≤ self.new.spare }
    {
        // A cut's number has 32 bits.
        if n > u32::MAX - self.len() {
            return Err(OutOfMemory);
        }
        self.cuts.reserve(n as usize)?;
        Ok(())
    }

    /// Adds a cut at the end, in the room that is there.
    pub fn push_reserved(&mut self, cut: Cut)
        requires room { 1 ≤ self.old.spare }
        requires new { IsNew self.old.cuts cut }
        ensures cuts { self.new.cuts ≡ self.old.cuts ++ cut ∷ [] }
        ensures spare { self.new.spare + 1 ≡ self.old.spare }
    {
        self.cuts.push_reserved(cut);
    }
}
