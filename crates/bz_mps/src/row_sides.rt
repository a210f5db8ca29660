//! The sides of a row as whole numbers. A range may be wide by itself where both sides fit: a side is formed from the right
//! side and the size of the range, and only the side has to fit.
ghost use Rattle.std.specs.Prelude.{◌≡◌, false, pos, ◌+ℤ◌, ◌-ℤ◌, ◌||◌, SomeIff};
ghost use Rattle.std.specs.Int.RustNames.{unsigned_abs};
ghost use Rattle.std.specs.Option.{ForSome, option_map};
ghost use Rattle.bz_algebra.specs.Numbers.{IsNarrow};
ghost use Rattle.bz_facts.specs.LineTests.{is_free};
ghost use Rattle.bz_facts.specs.Spellings.{is_below_zero};
ghost use Rattle.bz_mps.specs.NumbersMade.{IsScalable};
ghost use Rattle.bz_mps.specs.RowsMade.{AreSides, Unless};
ghost use Rattle.bz_mps.specs.ScaledRows.{is_wide_side, lower_side, scaled, upper_side};

use crate::scaling::{lowered, raised, scaled_number, scaled_size};
use bz_facts::RowType;
use bz_num::Dec;

/// The sides of a row, where they are there.
#[derive(Clone, Copy)]
pub(crate) struct Sides {
    pub lower: Option<i128>,
    pub upper: Option<i128>,
}

/// The right side and the size of the range together, where that is not wide.
fn above(side: i128, digits: u32, range: Dec) -> Option<i128>
    requires narrow { IsNarrow side }
    requires range { IsScalable digits range }
    ensures { SomeIff result (IsNarrow (side +ℤ pos (unsigned_abs (scaled digits range)))) (side +ℤ pos (unsigned_abs (scaled digits range))) }
{
    raised(side, scaled_size(digits, range)?)
}

/// The right side less the size of the range, where that is not wide.
fn below(side: i128, digits: u32, range: Dec) -> Option<i128>
    requires narrow { IsNarrow side }
    requires range { IsScalable digits range }
    ensures { SomeIff result (IsNarrow (side -ℤ pos (unsigned_abs (scaled digits range)))) (side -ℤ pos (unsigned_abs (scaled digits range))) }
{
    lowered(side, scaled_size(digits, range)?)
}

/// Whether the range of an E row reaches below the right side.
fn reaches_below(range: Dec) -> bool
    ensures { result ≡ is_below_zero range }
{
    range.mant < 0
}

/// The lower side of a row with this right side, as far as it has one, and nothing where that is wide.
fn lower_of(kind: RowType, side: i128, digits: u32, range: Option<Dec>) -> Option<Option<i128>>
    requires narrow { IsNarrow side }
    requires range { ForSome range (IsScalable digits) }
    ensures { Unless (is_wide_side (lower_side kind side (option_map (scaled digits) range))) (λ s. s ≡ lower_side kind side (option_map (scaled digits) range)) result }
{
    match (kind, range) {
        (RowType::Free, _) | (RowType::AtMost, None) => Some(None),
        (RowType::AtMost, Some(range)) => Some(Some(below(side, digits, range)?)),
        (RowType::AtLeast, _) | (RowType::Equal, None) => Some(Some(side)),
        (RowType::Equal, Some(range)) => if reaches_below(range) {
            Some(Some(below(side, digits, range)?))
        } else {
            Some(Some(side))
        },
    }
}

/// Its upper side.
fn upper_of(kind: RowType, side: i128, digits: u32, range: Option<Dec>) -> Option<Option<i128>>
    requires narrow { IsNarrow side }
    requires range { ForSome range (IsScalable digits) }
    ensures { Unless (is_wide_side (upper_side kind side (option_map (scaled digits) range))) (λ s. s ≡ upper_side kind side (option_map (scaled digits) range)) result }
{
    match (kind, range) {
        (RowType::Free, _) | (RowType::AtLeast, None) => Some(None),
        (RowType::AtLeast, Some(range)) => Some(Some(above(side, digits, range)?)),
        (RowType::AtMost, _) | (RowType::Equal, None) => Some(Some(side)),
        (RowType::Equal, Some(range)) => if reaches_below(range) {
            Some(Some(side))
        } else {
            Some(Some(above(side, digits, range)?))
        },
    }
}

/// The sides of a row with this right side and range, 10^digits times as large, and none where one is wide.
pub(crate) fn sides_of(kind: RowType, digits: u32, rhs: Dec, range: Option<Dec>) -> Option<Sides>
    requires kind { is_free kind ≡ false }
    requires rhs { IsScalable digits rhs }
    requires range { ForSome range (IsScalable digits) }
    ensures { Unless (is_wide_side (lower_side kind (scaled digits rhs) (option_map (scaled digits) range)) || is_wide_side (upper_side kind (scaled digits rhs) (option_map (scaled digits) range))) (AreSides (lower_side kind (scaled digits rhs) (option_map (scaled digits) range)) (upper_side kind (scaled digits rhs) (option_map (scaled digits) range))) result }
{
    let side = scaled_number(digits, rhs)?;
    let lower = lower_of(kind, side, digits, range)?;
    let upper = upper_of(kind, side, digits, range)?;
    Some(Sides { lower, upper })
}
