//! What is proved of the definitions of this crate.
ghost use Rattle.std.specs.Prelude.{◌↔◌, ℕ, ℤ, List};
ghost use Rattle.bz_model.specs.Meeting.{MeetsAllParts};
ghost use Rattle.bz_model.specs.Points.{IsFeasible};
ghost use Rattle.bz_model.specs.Strict.{AreUnjoined, HasItsColumns, IsPartition};
ghost use Rattle.bz_model.specs.declared.records.Model.{Model};

/// Where no row joins two blocks, a point is feasible exactly where it meets every part.
pub fn feasible_is_meeting_all_parts()
    ensures { (m : Model) (part : List ℕ) (p : List ℤ) (q : ℤ) → HasItsColumns m → IsPartition m part → AreUnjoined m part
        → IsFeasible m p q ↔ MeetsAllParts m part p q }
{}
