//! A stated objective.
ghost use Rattle.std.specs.Prelude.{pos, ◌<ℤ◌};

/// The fraction `num / den`.
#[derive(Clone, Copy, Debug)]
pub struct Stated {
    /// Of any sign.
    pub num: i128,
    /// At least 1.
    pub den: i128,
    pub ghost positive: { pos 0 <ℤ den },
}
