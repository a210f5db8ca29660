//! The certificate of a search.
ghost use Rattle.std.specs.Prelude.{IfOk};
ghost use Rattle.bz_history.specs.Outcomes.{HasVerdict, outcome_of};
ghost use Rattle.bz_core.specs.Certified.{IsCertified};
ghost use Rattle.bz_core.specs.Searches.{now};

use crate::searches::Search;
use bz_cert::Certificate;
use bz_certify::certificate_of;
use bz_num::OutOfMemory;
use std::alloc::Global;

impl Search<'_> {
    /// The certificate of the verdict that the search has come to.
    pub fn certificate(&self, alloc: Global) -> Result<Certificate, OutOfMemory>
        requires { HasVerdict (outcome_of (now self.now)) }
        ensures { IfOk result (IsCertified self.now.split (now self.now)) }
    {
        let progress = &self.progress;
        let pool = progress.pool();
        certificate_of(
            alloc,
            self.split,
            pool.front(pool.len()),
            progress.nodes(),
            progress.posts(),
            progress.best(),
            progress.ray(),
        )
    }
}
