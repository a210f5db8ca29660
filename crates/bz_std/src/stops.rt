//! Why a program is not built.
ghost use Rattle.std.specs.Prelude.{◌≡◌};

use bz_num::OutOfMemory;
use bz_tableau::WideAt;
use std::alloc::AllocError;

/// Why a separation's program is not built.
#[derive(Drop)]
pub enum BuildStop {
    /// The sum of a right side is wide: that of the first such row.
    Wide(WideAt),
    /// There was no memory for it.
    OutOfMemory,
}

impl From<OutOfMemory> for BuildStop {
    ghost use Rattle.std.specs.Prelude.{◌≡◌};
    ghost use Rattle.bz_std.specs.declared.stops.BuildStop.TheVariants as stop;

    ghost from_gives = { λ _ e. e ≡ stop.OutOfMemory };

    fn from(_error: OutOfMemory) -> BuildStop {
        BuildStop::OutOfMemory
    }
}

impl From<AllocError> for BuildStop {
    ghost use Rattle.std.specs.Prelude.{◌≡◌};
    ghost use Rattle.bz_std.specs.declared.stops.BuildStop.TheVariants as stop;

    ghost from_gives = { λ _ e. e ≡ stop.OutOfMemory };

    fn from(_error: AllocError) -> BuildStop {
        BuildStop::OutOfMemory
    }
}
