//! The lines of ROWS.
ghost use Rattle.std.specs.Prelude.{◌≡◌, map};
ghost use Rattle.bz_facts.specs.LineAnswers.{PassesLine};
ghost use Rattle.bz_facts.specs.LineSteps.{RowAdded};
ghost use Rattle.bz_facts.specs.LineTests.{is_counted, row_tests};

use crate::faults::MpsKind;
use crate::records::RowType;
use crate::refusals::Refusal;
use crate::tables::Rows;
use crate::words::{field, row_type};

/// How many rows that count there may be.
const MOST_ROWS: usize = 2048;

/// Whether a row of this kind counts for the limit.
fn is_counted_row(row: RowType) -> bool
    ensures { result ≡ is_counted row }
{
    match row {
        RowType::Free => false,
        RowType::AtMost | RowType::AtLeast | RowType::Equal => true,
    }
}

/// Reads a line of ROWS: a kind and a name.
pub(crate) fn on_row_line<'a>(rows: &mut Rows<'a>, fields: &[&'a [u8]]) -> Result<(), Refusal>
    ensures { let fs = map (λ f. f.now) fields.now in PassesLine (row_tests rows.old.names rows.old.types fs) (λ _. RowAdded fs rows.old rows.new) result }
{
    if fields.len() != 2 {
        return Err(Refusal::Fault(MpsKind::Fields));
    }
    let Some(row) = row_type(field(fields, 0)) else {
        return Err(Refusal::Fault(MpsKind::RowKind));
    };
    let added = rows.names.add(field(fields, 1))?;
    if !added.new {
        return Err(Refusal::Fault(MpsKind::DoubleName));
    }
    if is_counted_row(row) && rows.types.counted() >= MOST_ROWS {
        return Err(Refusal::Fault(MpsKind::Limit));
    }
    rows.types.push(row)?;
    Ok(())
}
