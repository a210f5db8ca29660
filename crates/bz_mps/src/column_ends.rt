//! The bounds of a column, by its bound lines.
ghost use Rattle.std.specs.Prelude.{◌≡◌, fold, int_lt};
ghost use Rattle.std.specs.List.{AllByRecursion, list_any};
ghost use Rattle.std.specs.Option.{ForSome};
ghost use Rattle.bz_facts.specs.SoundFacts.{IsFinite};
ghost use Rattle.bz_facts.specs.Spellings.{at_thirty};
ghost use Rattle.bz_mps.specs.ColumnEnds.{IsBound, bounded, ends_by, has_negative_upper as negative_upper, is_above as above, is_integer as integer_by, is_negative as negative, last_bound_line as last_line, makes_integer, speaks_of_lower, starting};
ghost use Rattle.bz_mps.specs.FactModel.{end_tests_of_column};
ghost use Rattle.bz_mps.specs.TestAnswers.{AreFinite, Tests};

use crate::bound_numbers::fraction_of;
use bz_facts::{BoundLine, BoundType, MpsFault, MpsKind, MpsStop};
use bz_num::{Dec, Frac, cmp_frac};

/// A lower and an upper bound, where they are there.
#[derive(Clone, Copy)]
pub(crate) struct Ends {
    pub lower: Option<Dec>,
    pub upper: Option<Dec>,
}

/// What a bound line of this kind, with its number where it has one, makes of the bounds.
fn bound_by(kind: BoundType, number: Option<Dec>, ends: Ends) -> Ends
    ensures { result ≡ bounded kind number ends }
{
    let Ends { lower, upper } = ends;
    match kind {
        BoundType::Up | BoundType::Ui => Ends {
            lower,
            upper: number,
        },
        BoundType::Lo | BoundType::Li => Ends {
            lower: number,
            upper,
        },
        BoundType::Fx => Ends {
            lower: number,
            upper: number,
        },
        BoundType::Fr => Ends {
            lower: None,
            upper: None,
        },
        BoundType::Mi => Ends { lower: None, upper },
        BoundType::Pl => Ends { lower, upper: None },
        BoundType::Bv => Ends {
            lower: Some(Dec { mant: 0, exp: 0 }),
            upper: Some(Dec { mant: 1, exp: 0 }),
        },
    }
}

/// What bound lines make of the bounds that a column starts with.
fn bounds_by(lines: &[BoundLine]) -> Ends
    requires { AllByRecursion (λ b. ForSome b.number IsFinite) lines.now }
    ensures ends { result ≡ fold (λ e b. bounded b.kind b.number e) starting lines.now }
    ensures finite { AreFinite result }
{
    let mut ends = Ends {
        lower: Some(Dec { mant: 0, exp: 0 }),
        upper: None,
    };
    for line in lines {
        ends = bound_by(line.kind, line.number, ends);
    }
    ends
}

/// The bounds of a column with these bound lines, where `marked` says whether a marker was open.
pub(crate) fn ends_of(marked: bool, lines: &[BoundLine]) -> Ends
    requires { AllByRecursion (λ b. ForSome b.number IsFinite) lines.now }
    ensures ends { result ≡ ends_by marked lines.now }
    ensures finite { AreFinite result }
{
    let ends = bounds_by(lines);
    if marked && lines.is_empty() {
        return Ends {
            lower: Some(Dec { mant: 0, exp: 0 }),
            upper: Some(Dec { mant: 1, exp: 0 }),
        };
    }
    ends
}

/// Whether one of the lines makes its column an integer.
fn make_integer(lines: &[BoundLine]) -> bool
    ensures { result ≡ list_any (λ b. makes_integer b.kind) lines.now }
{
    lines.iter().any(|line| { matches!(line.kind, BoundType::Bv | BoundType::Li | BoundType::Ui) })
}

/// Whether a column with these bound lines is an integer.
pub(crate) fn is_integer(marked: bool, lines: &[BoundLine]) -> bool
    ensures { result ≡ integer_by marked lines.now }
{
    marked || make_integer(lines)
}

/// Whether one of the lines speaks of the lower bound.
fn speak_of_lower(lines: &[BoundLine]) -> bool
    ensures { result ≡ list_any (λ b. speaks_of_lower b.kind) lines.now }
{
    lines.iter().any(|line| { !matches!(line.kind, BoundType::Up | BoundType::Ui | BoundType::Pl) })
}

/// Whether the bound is there and below zero.
fn is_negative(bound: Option<Dec>) -> bool
    ensures { result ≡ negative bound }
{
    match bound {
        Some(number) => number.mant < 0,
        None => false,
    }
}

/// Whether the first is the greater.
fn is_greater(lower: Dec, upper: Dec) -> bool
    requires lower { IsFinite lower }
    requires upper { IsFinite upper }
    ensures { result ≡ int_lt (at_thirty upper) (at_thirty lower) }
{
    cmp_frac(&fraction_of(lower), &fraction_of(upper)).is_gt()
}

/// Whether both are there, and the first is the greater.
fn is_above(lower: Option<Dec>, upper: Option<Dec>) -> bool
    requires lower { ForSome lower IsFinite }
    requires upper { ForSome upper IsFinite }
    ensures { result ≡ above lower upper }
{
    match (lower, upper) {
        (Some(lower), Some(upper)) => is_greater(lower, upper),
        _ => false,
    }
}

/// The number of the last of the lines, 0 where there is none.
fn last_bound_line(lines: &[BoundLine]) -> u32
    ensures { result ≡ last_line lines.now }
{
    match lines.last() {
        Some(line) => line.line,
        None => 0,
    }
}

/// Whether the upper bound is negative, and none of these lines speaks of the lower one.
fn has_negative_upper(ends: Ends, lines: &[BoundLine]) -> bool
    ensures { result ≡ negative_upper ends lines.now }
{
    is_negative(ends.upper) && !speak_of_lower(lines)
}

/// Stops where the bounds of a column with these bound lines fail an end test.
pub(crate) fn test_ends(ends: Ends, lines: &[BoundLine]) -> Result<(), MpsStop>
    requires { AreFinite ends }
    ensures { Tests (end_tests_of_column ends lines.now) result }
{
    let line = last_bound_line(lines);
    if has_negative_upper(ends, lines) {
        return Err(MpsStop::Fault(MpsFault {
            line,
            kind: MpsKind::NegativeUpper,
        }));
    }
    if is_above(ends.lower, ends.upper) {
        return Err(MpsStop::Fault(MpsFault {
            line,
            kind: MpsKind::Crossed,
        }));
    }
    Ok(())
}

/// A bound as a fraction in lowest terms.
pub(crate) fn bound_of(bound: Option<Dec>) -> Option<Frac>
    requires { ForSome bound IsFinite }
    ensures { IsBound bound result }
{
    match bound {
        Some(number) => Some(fraction_of(number)),
        None => None,
    }
}
