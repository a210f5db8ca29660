//! What is proved of the faults.
ghost use Rattle.std.specs.Prelude.{◌≡◌, ◌⊎◌, ◌↔◌, ℕ, List};
ghost use Rattle.bz_model.specs.Strict.{IsStrict};
ghost use Rattle.bz_model.specs.declared.Model.{Model};
ghost use Rattle.bz_split.specs.SplitFaults.{IsSplitFault};
ghost use Rattle.bz_split.specs.declared.faults.SplitFault.{SplitFault};

/// A model and a partition have exactly one of two things: the partition is strict, or there is one fault. Nothing
/// runs.
pub fn split_faults_are_unique()
    ensures unique { (m : Model) (part : List ℕ) (f g : SplitFault)
        → IsSplitFault m part f → IsSplitFault m part g → f ≡ g }
    ensures exactly { (m : Model) (part : List ℕ) → ((f : SplitFault) × IsSplitFault m part f) ↔ (IsStrict m part → ⊥) }
    ensures either { (m : Model) (part : List ℕ) → IsStrict m part ⊎ ((f : SplitFault) × IsSplitFault m part f) }
{}
