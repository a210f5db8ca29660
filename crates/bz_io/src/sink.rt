//! Takers of bytes, piece by piece.
ghost use Rattle.std.specs.Prelude.{◌<◌, ◌≤◌, ℕ, List, length, take, Option, IfOk, OnOk, OnErr, is_err};
ghost use Rattle.bz_io.specs.declared.faults.FaultCount.{FaultCount};
ghost use Rattle.bz_io.specs.Faults.{Counts, CountsFault};
ghost use Rattle.bz_io.specs.Told.{WhereTold};
ghost use Rattle.bz_io.specs.Sink.{Takes, TakesNothing, TakesPrefix};

/// The sink failed, and took nothing of the piece.
#[derive(Clone, Copy, Debug, PartialEq, Eq)]
pub struct PutFailed;

/// A taker of bytes.
pub trait Sink {
    /// The bytes taken so far, in order, where the sink tells that.
    ghost taken: { Self → Option (List ℕ) };

    /// The faults that the sink has had.
    ghost faults: { Self → FaultCount };

    /// Takes from 1 to all of the piece's bytes, the first of them, and says how many. A failed put takes nothing.
    fn put(&mut self, bytes: &[u8]) -> Result<usize, PutFailed>
        requires { 0 < length bytes.now }
        ensures some { IfOk result (λ count. 0 < count) }
        ensures within { IfOk result (λ count. count ≤ length bytes.now) }
        ensures ok { IfOk result (λ count. WhereTold (Takes (take count bytes.now)) (taken self.old) (taken self.new)) }
        ensures failed { OnErr result (WhereTold TakesNothing (taken self.old) (taken self.new)) }
        ensures count { Counts (is_err result) (faults self.old) (faults self.new) };
}

/// Puts all the bytes, piece by piece, in order. After a failure a prefix of them was taken, and no more is put.
pub fn put_all<O: Sink>(out: &mut O, bytes: &[u8]) -> Result<(), PutFailed>
    ensures ok { OnOk result (WhereTold (Takes bytes.now) (O.taken out.old) (O.taken out.new)) }
    ensures failed { OnErr result (WhereTold (TakesPrefix bytes.now) (O.taken out.old) (O.taken out.new)) }
    ensures count { CountsFault result (O.faults out.old) (O.faults out.new) }
{
    let mut sent = 0;
    while sent < bytes.len() {
        sent += out.put(&bytes[sent..])?;
    }
    Ok(())
}
