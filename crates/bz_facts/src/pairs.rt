//! Pairs of a row and a number.
ghost use Rattle.std.specs.Prelude.{◌≡◌, ◌<◌, ◌≤◌, ◌^◌, ◌+◌, ◌⊎◌, ◌++◌, drop, flat_map, length, map};
ghost use Rattle.bz_facts.specs.LineAnswers.{Passes};
ghost use Rattle.bz_facts.specs.LineFacts.{given_of, pairs as pairs_of};
ghost use Rattle.bz_facts.specs.LineSteps.{pairs_read};
ghost use Rattle.bz_facts.specs.LineTests.{pair_tests};

use crate::faults::MpsKind;
use crate::records::Given;
use crate::spelled::number;
use crate::words::field;
use bz_lines::Names;

/// One or two pairs of a row, by its place, and a number.
#[derive(Clone, Copy, Debug)]
pub(crate) struct Pairs {
    /// The first pair.
    pub first: Given,
    /// The second, where there is one.
    pub second: Option<Given>,
}

/// The pair of a row's name and a number.
fn read_pair(rows: &Names, name: &[u8], digits: &[u8]) -> Result<Given, MpsKind>
    requires { length rows.now < 2 ^ 32 }
    ensures { Passes (pair_tests rows.now (name.now, digits.now)) (λ g. g ≡ given_of rows.now (name.now, digits.now)) result }
{
    let Some(row) = rows.find(name) else {
        return Err(MpsKind::UnknownRow);
    };
    let number = number(digits)?;
    Ok(Given {
        row: row as u32,
        number,
    })
}

/// The pairs of the fields from a place on, of which there are two or four.
pub(crate) fn read_pairs(rows: &Names, fields: &[&[u8]], from: usize) -> Result<Pairs, MpsKind>
    requires rows { length rows.now < 2 ^ 32 }
    requires fields { (length fields.now ≡ from + 2) ⊎ (length fields.now ≡ from + 4) }
    ensures { let ps = pairs_of (drop from (map (λ f. f.now) fields.now)) in Passes (flat_map (pair_tests rows.now) ps) (λ p. pairs_read p ≡ map (given_of rows.now) ps) result }
{
    let first = read_pair(rows, field(fields, from), field(fields, from + 1))?;
    if fields.len() == from + 2 {
        return Ok(Pairs {
            first,
            second: None,
        });
    }
    let second = read_pair(rows, field(fields, from + 2), field(fields, from + 3))?;
    Ok(Pairs {
        first,
        second: Some(second),
    })
}
