//! The headers of a model's text.
ghost use Rattle.std.specs.Prelude.{◌≡◌, Some, length, map};
ghost use Rattle.bz_lines.specs.FieldLists.{field as field_at};
ghost use Rattle.bz_facts.specs.Headings.{is_it};
ghost use Rattle.bz_facts.specs.LineAnswers.{Passes};
ghost use Rattle.bz_facts.specs.LineSteps.{HeaderAdded, header_tests_by, is_misplaced_by, is_waiting as waiting_test, with_begun, with_header};
ghost use Rattle.bz_facts.specs.LineTests.{has_wrong_sense as wrong_sense_test, is_too_long as too_long_test};
ghost use Rattle.bz_facts.specs.Words.{heading as heading_of};

use crate::faults::MpsKind;
use crate::records::Heading;
use crate::sense_lines::note_word;
use crate::tables::{Begun, Headers, RowTypes, Sense};
use crate::words::{field, heading, is_left_out, is_sense_word};

/// Whether the section is COLUMNS.
fn is_columns(section: Option<Heading>) -> bool
    ensures { result ≡ is_it Heading.Columns section }
{
    match section {
        Some(Heading::Columns) => true,
        _ => false,
    }
}

/// Whether the section is OBJSENSE.
fn is_sense(section: Option<Heading>) -> bool
    ensures { result ≡ is_it Heading.ObjSense section }
{
    match section {
        Some(Heading::ObjSense) => true,
        _ => false,
    }
}

/// Whether the section is ENDATA.
pub(crate) fn is_end(section: Option<Heading>) -> bool
    ensures { result ≡ is_it Heading.EndData section }
{
    match section {
        Some(Heading::EndData) => true,
        _ => false,
    }
}

/// Whether a header of so many fields has more than it may.
fn is_too_long(heading: Heading, count: usize) -> bool
    ensures { result ≡ too_long_test (Some heading) count }
{
    match heading {
        Heading::Name => false,
        Heading::ObjSense => count > 2,
        _ => count > 1,
    }
}

/// Whether a header is OBJSENSE with another word than it may have.
fn has_wrong_sense(heading: Heading, fields: &[&[u8]]) -> bool
    ensures { result ≡ wrong_sense_test (Some heading) (map (λ f. f.now) fields.now) }
{
    is_sense(Some(heading)) && fields.len() > 1 && !is_sense_word(field(fields, 1))
}

/// Whether OBJSENSE stands last and its word is still to come.
fn is_waiting(section: Option<Heading>, sense: Sense) -> bool
    ensures { result ≡ waiting_test section sense }
{
    is_sense(section) && !sense.told
}

/// Whether a section stands too early, twice or too late where these have begun.
fn is_misplaced(begun: Begun, heading: Heading) -> bool
    ensures { result ≡ is_misplaced_by begun heading }
{
    match heading {
        Heading::Name => begun.any,
        Heading::ObjSense => begun.sense || begun.rows,
        Heading::Rows => begun.rows,
        Heading::Columns => !begun.rows || begun.columns,
        Heading::Rhs => !begun.columns || begun.rhs,
        Heading::Ranges => !begun.columns || begun.ranges,
        Heading::Bounds => !begun.columns || begun.bounds,
        Heading::EndData => !begun.columns,
    }
}

/// Notes that a section begins.
fn begin(begun: &mut Begun, heading: Heading)
    ensures { begun.new ≡ with_begun begun.old heading }
{
    begun.any = true;
    match heading {
        Heading::Name | Heading::EndData => (),
        Heading::ObjSense => begun.sense = true,
        Heading::Rows => begun.rows = true,
        Heading::Columns => begun.columns = true,
        Heading::Rhs => begun.rhs = true,
        Heading::Ranges => begun.ranges = true,
        Heading::Bounds => begun.bounds = true,
    }
}

/// The section that a header begins, where it may stand here. Whether the marker is open is given.
fn header_heading(
    headers: Headers,
    sense: Sense,
    open_marker: bool,
    types: &RowTypes,
    fields: &[&[u8]],
) -> Result<Heading, MpsKind>
    ensures { let fs = map (λ f. f.now) fields.now in Passes (header_tests_by headers sense open_marker types.now fs) (λ h. heading_of (field_at 0 fs) ≡ Some h) result }
{
    let word = field(fields, 0);
    if is_left_out(word) {
        return Err(MpsKind::SectionOut);
    }
    let Some(heading) = heading(word) else {
        return Err(MpsKind::Section);
    };
    if is_too_long(heading, fields.len()) {
        return Err(MpsKind::Fields);
    }
    if has_wrong_sense(heading, fields) || is_waiting(headers.section, sense) {
        return Err(MpsKind::Sense);
    }
    if is_columns(headers.section) && open_marker {
        return Err(MpsKind::MarkerOpen);
    }
    if is_misplaced(headers.begun, heading) {
        return Err(MpsKind::Order);
    }
    if is_columns(Some(heading)) && !types.has_objective() {
        return Err(MpsKind::NoObjective);
    }
    Ok(heading)
}

/// Reads a header. Whether the marker is open is given.
pub(crate) fn on_header(
    headers: &mut Headers,
    sense: &mut Sense,
    open_marker: bool,
    types: &RowTypes,
    fields: &[&[u8]],
) -> Result<(), MpsKind>
    ensures { let fs = map (λ f. f.now) fields.now in Passes (header_tests_by headers.old sense.old open_marker types.now fs) (λ _. HeaderAdded fs headers.old headers.new × (sense.new ≡ with_header sense.old fs)) result }
{
    let heading = header_heading(*headers, *sense, open_marker, types, fields)?;
    headers.section = Some(heading);
    begin(&mut headers.begun, heading);
    if is_sense(Some(heading)) && fields.len() > 1 {
        note_word(sense, field(fields, 1));
    }
    Ok(())
}
