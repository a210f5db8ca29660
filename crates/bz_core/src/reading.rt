//! What is counted and copied of a search.
ghost use Rattle.std.specs.Prelude.{◌≡◌, IfOk};
ghost use Rattle.bz_history.specs.Histories.{count_of};
ghost use Rattle.bz_core.specs.Bests.{IsBestParts};
ghost use Rattle.bz_core.specs.Searches.{now};

use crate::searches::Search;
use bz_certify::parts_of;
use bz_event::Entry;
use bz_model::Parts;
use bz_num::OutOfMemory;

/// How many of the entries are the worker's.
fn count_entries(history: &[Entry], worker: u32) -> u64
    ensures { result ≡ count_of worker history.now }
{
    let mut count = 0;
    for entry in history {
        if entry.stamp.worker == worker {
            count += 1;
        }
    }
    count
}

impl Search<'_> {
    /// How many entries of the history are the worker's.
    pub fn count_of(&self, worker: u32) -> u64
        ensures { result ≡ count_of worker self.now.history }
    {
        count_entries(self.history.as_slice(), worker)
    }

    /// The parts of the best point so far, where there is one. It takes memory for them.
    pub fn best(&self) -> Result<Option<Parts>, OutOfMemory>
        ensures { IfOk result (IsBestParts (now self.now)) }
    {
        let Some(number) = self.progress.best() else {
            return Ok(None);
        };
        let post = &self.progress.posts()[number as usize];
        let parts = parts_of(*self.history.allocator(), post)?;
        Ok(Some(parts))
    }
}
