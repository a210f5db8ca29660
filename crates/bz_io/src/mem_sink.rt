//! A sink in memory, for tests.
ghost use Rattle.std.specs.Prelude.{◌≡◌, ◌⊎◌, ◌<◌, ◌≤◌, min, length, Some, IsTrue, IsErr, IfOk, OnErr, is_err};
ghost use Rattle.bz_io.specs.Faults.{Counts};
ghost use Rattle.bz_io.specs.MemSink.{new_sink, next_put_fails, after_put};

use crate::{FaultCount, PutFailed, Sink};
use std::alloc::Global;
use std::marker::Model;

/// A sink that keeps what it takes, takes no more than a piece at a put, and fails where it is told to.
#[derive(Drop)]
pub struct MemSink {
    taken: Vec<u8>,
    piece: usize,
    fails: Vec<u64>,
    puts: u64,
    faults: FaultCount,
}

impl Model for MemSink {
    ghost use Rattle.std.specs.Prelude.{◌≤◌, ◌-◌, length, vec_capacity};
    ghost use Rattle.bz_io.specs.MemSink.{MemSinkState};

    ghost Value = { MemSinkState };

    ghost view = { λ s. record {
      taken = s.taken.items;
      room = vec_capacity s.taken - length s.taken.items;
      piece = s.piece;
      fails = s.fails.items;
      puts = s.puts;
      faults = s.faults;
    } };

    ghost invariant = { λ s. 1 ≤ s.piece };
}

impl MemSink {
    /// A sink that takes the first `piece` bytes of each put, or all where they are fewer. Puts are numbered from 0,
    /// and those that `fails` lists fail.
    pub fn new(alloc: Global, piece: usize, fails: Vec<u64>) -> MemSink
        requires { 1 ≤ piece }
        ensures { result ≡ new_sink piece fails.items }
    {
        MemSink {
            taken: Vec::new(alloc),
            piece,
            fails,
            puts: 0,
            faults: FaultCount::none(),
        }
    }

    /// The bytes taken so far, in order.
    pub fn taken(&self) -> &[u8]
        ensures { result.now ≡ self.now.taken }
    {
        &self.taken
    }
}

impl Sink for MemSink {
    ghost taken = { λ sink. Some sink.taken };

    ghost faults = { λ sink. sink.faults };

    /// Takes the first bytes, as many as a piece has. It fails where the put is listed, and where there is no memory for
    /// more bytes than it has room for.
    fn put(&mut self, bytes: &[u8]) -> Result<usize, PutFailed>
        requires { 0 < length bytes.now }
        ensures piece { IfOk result (λ count. count ≡ min self.old.piece (length bytes.now)) }
        ensures some { IfOk result (λ count. 0 < count) }
        ensures listed { IsTrue (next_put_fails self.old) → IsErr result }
        ensures cause { OnErr result (IsTrue (next_put_fails self.old) ⊎ (self.old.room < min self.old.piece (length bytes.now))) }
        ensures after { self.new ≡ after_put self.old bytes.now self.new.room result }
        ensures count { Counts (is_err result) self.old.faults self.new.faults }
    {
        let listed = self.fails.contains(&self.puts);
        self.puts = self.puts.saturating_add(1);
        let count = self.piece.min(bytes.len());
        let failed = listed || self.taken.extend_from_slice(&bytes[..count]).is_err();
        self.faults = self.faults.after(failed);
        if failed { Err(PutFailed) } else { Ok(count) }
    }
}
