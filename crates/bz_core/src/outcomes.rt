//! What a search has come to.
ghost use Rattle.std.specs.Prelude.{◌≡◌};
ghost use Rattle.bz_cut.specs.declared.Mode.{Mode};
ghost use Rattle.bz_history.specs.Outcomes.{found, outcome_of};

use bz_cut::Mode;
use bz_history::{Outcome, Stopped};
use bz_state::Progress;

/// What a search that didn't stop has come to.
fn found(mode: Mode, best: Option<u32>, unclosed: bool) -> Outcome
    ensures { result ≡ found mode best unclosed }
{
    match mode {
        Mode::Point if best.is_some() => Outcome::Unbounded,
        Mode::Point | Mode::Cost if unclosed => Outcome::Running,
        Mode::Cost if best.is_some() => Outcome::Optimal,
        Mode::Cost | Mode::Point => Outcome::Infeasible,
    }
}

/// What the state says.
pub(crate) fn outcome_of(progress: &Progress) -> Outcome
    ensures { result ≡ outcome_of progress.now.state }
{
    match progress.stopped() {
        Some(Stopped::Budget) => Outcome::Budget,
        Some(Stopped::Wide) => Outcome::Wide,
        None => found(progress.mode(), progress.best(), progress.has_open_node()),
    }
}
