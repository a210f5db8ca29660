//! The words of a model's text.
ghost use Rattle.std.specs.Prelude.{◌≡◌, map};
ghost use Rattle.bz_lines.specs.FieldLists.{field as field_at};
ghost use Rattle.bz_facts.specs.Words.{bound_type as bound_type_of, has_number as number_test, heading as heading_of, is_greater_word as greater_test, is_left_out as left_out_test, is_marker as marker_test, is_sense_word as sense_test, row_type as row_type_of};

use crate::records::{BoundType, Heading, RowType};

/// The field at a place, and no byte where there is none.
pub(crate) fn field<'a>(fields: &[&'a [u8]], place: usize) -> &'a [u8]
    ensures { result.now ≡ field_at place (map (λ f. f.now) fields.now) }
{
    match fields.get(place) {
        Some(field) => *field,
        None => b"",
    }
}

/// The section that a header's word begins.
pub(crate) fn heading(word: &[u8]) -> Option<Heading>
    ensures { result ≡ heading_of word.now }
{
    if word == b"NAME".as_slice() {
        Some(Heading::Name)
    } else if word == b"OBJSENSE".as_slice() {
        Some(Heading::ObjSense)
    } else if word == b"ROWS".as_slice() {
        Some(Heading::Rows)
    } else if word == b"COLUMNS".as_slice() {
        Some(Heading::Columns)
    } else if word == b"RHS".as_slice() {
        Some(Heading::Rhs)
    } else if word == b"RANGES".as_slice() {
        Some(Heading::Ranges)
    } else if word == b"BOUNDS".as_slice() {
        Some(Heading::Bounds)
    } else if word == b"ENDATA".as_slice() {
        Some(Heading::EndData)
    } else {
        None
    }
}

/// Whether the header's word is one of those of sections that are not read.
pub(crate) fn is_left_out(word: &[u8]) -> bool
    ensures { result ≡ left_out_test word.now }
{
    word == b"SOS".as_slice()
        || word == b"SOS1".as_slice()
        || word == b"SOS2".as_slice()
        || word == b"QSECTION".as_slice()
        || word == b"QUADOBJ".as_slice()
        || word == b"QMATRIX".as_slice()
        || word == b"QCMATRIX".as_slice()
        || word == b"INDICATORS".as_slice()
        || word == b"LAZYCONS".as_slice()
        || word == b"USERCUTS".as_slice()
        || word == b"OBJNAME".as_slice()
        || word == b"REFROW".as_slice()
}

/// Whether the word says that a greater objective is better.
pub(crate) fn is_greater_word(word: &[u8]) -> bool
    ensures { result ≡ greater_test word.now }
{
    word == b"MAX".as_slice() || word == b"MAXIMIZE".as_slice()
}

/// Whether the word says that a greater or that a lesser objective is better.
pub(crate) fn is_sense_word(word: &[u8]) -> bool
    ensures { result ≡ sense_test word.now }
{
    word == b"MAX".as_slice()
        || word == b"MAXIMIZE".as_slice()
        || word == b"MIN".as_slice()
        || word == b"MINIMIZE".as_slice()
}

/// What a row of this kind says.
pub(crate) fn row_type(word: &[u8]) -> Option<RowType>
    ensures { result ≡ row_type_of word.now }
{
    if word == b"N".as_slice() {
        Some(RowType::Free)
    } else if word == b"L".as_slice() {
        Some(RowType::AtMost)
    } else if word == b"G".as_slice() {
        Some(RowType::AtLeast)
    } else if word == b"E".as_slice() {
        Some(RowType::Equal)
    } else {
        None
    }
}

/// Whether the fields are those of a marker line.
pub(crate) fn is_marker(fields: &[&[u8]]) -> bool
    ensures { result ≡ marker_test (map (λ f. f.now) fields.now) }
{
    fields.len() == 3 && field(fields, 1) == b"'MARKER'".as_slice()
}

/// The kind of a bound line.
pub(crate) fn bound_type(word: &[u8]) -> Option<BoundType>
    ensures { result ≡ bound_type_of word.now }
{
    if word == b"UP".as_slice() {
        Some(BoundType::Up)
    } else if word == b"LO".as_slice() {
        Some(BoundType::Lo)
    } else if word == b"FX".as_slice() {
        Some(BoundType::Fx)
    } else if word == b"FR".as_slice() {
        Some(BoundType::Fr)
    } else if word == b"MI".as_slice() {
        Some(BoundType::Mi)
    } else if word == b"PL".as_slice() {
        Some(BoundType::Pl)
    } else if word == b"BV".as_slice() {
        Some(BoundType::Bv)
    } else if word == b"LI".as_slice() {
        Some(BoundType::Li)
    } else if word == b"UI".as_slice() {
        Some(BoundType::Ui)
    } else {
        None
    }
}

/// Whether a bound line of this kind has a number.
pub(crate) fn has_number(kind: BoundType) -> bool
    ensures { result ≡ number_test kind }
{
    match kind {
        BoundType::Up | BoundType::Lo | BoundType::Fx | BoundType::Li | BoundType::Ui => true,
        BoundType::Fr | BoundType::Mi | BoundType::Pl | BoundType::Bv => false,
    }
}
