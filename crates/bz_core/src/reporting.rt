//! What a report needs of a search beside its history and its best point.
ghost use Rattle.std.specs.Prelude.{◌≡◌};
ghost use Rattle.std.specs.Option.{option_copied};
ghost use Rattle.bz_core.specs.Searches.{now};

use crate::searches::Search;
use bz_history::FallingRay;

impl Search<'_> {
    /// The direction along which a block's cost falls without bound, where one was found. It takes no memory.
    pub fn ray(&self) -> Option<&FallingRay>
        ensures { option_copied result ≡ (now self.now).ray }
    {
        self.progress.ray()
    }
}
