//! Why a cut or a leaf is not made.
ghost use Rattle.std.specs.Prelude.{◌≡◌};

use bz_num::{OutOfMemory, WideSum};

/// Why a cut or a leaf is not made.
#[derive(Drop)]
pub enum MakeStop {
    /// A sum of it is wide.
    Wide,
    /// There was no memory for it.
    OutOfMemory,
}

impl From<WideSum> for MakeStop {
    ghost use Rattle.std.specs.Prelude.{◌≡◌};
    ghost use Rattle.bz_std.specs.declared.making.MakeStop.TheVariants as stop;

    ghost from_gives = { λ _ e. e ≡ stop.Wide };

    fn from(_error: WideSum) -> MakeStop {
        MakeStop::Wide
    }
}

impl From<OutOfMemory> for MakeStop {
    ghost use Rattle.std.specs.Prelude.{◌≡◌};
    ghost use Rattle.bz_std.specs.declared.making.MakeStop.TheVariants as stop;

    ghost from_gives = { λ _ e. e ≡ stop.OutOfMemory };

    fn from(_error: OutOfMemory) -> MakeStop {
        MakeStop::OutOfMemory
    }
}
