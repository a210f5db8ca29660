//! The word of OBJSENSE.
ghost use Rattle.std.specs.Prelude.{◌≡◌, map};
ghost use Rattle.bz_lines.specs.FieldLists.{field as field_at};
ghost use Rattle.bz_facts.specs.LineAnswers.{Passes};
ghost use Rattle.bz_facts.specs.LineSteps.{sense_tests_by, with_word};

use crate::faults::MpsKind;
use crate::tables::Sense;
use crate::words::{field, is_greater_word, is_sense_word};

/// Notes the word of OBJSENSE.
pub(crate) fn note_word(sense: &mut Sense, word: &[u8])
    ensures { sense.new ≡ with_word sense.old word.now }
{
    sense.maximise = sense.maximise || is_greater_word(word);
    sense.told = true;
}

/// Reads a data line of OBJSENSE, which is its word.
pub(crate) fn on_sense_line(sense: &mut Sense, fields: &[&[u8]]) -> Result<(), MpsKind>
    ensures { let fs = map (λ f. f.now) fields.now in Passes (sense_tests_by sense.old fs) (λ _. sense.new ≡ with_word sense.old (field_at 0 fs)) result }
{
    if sense.told {
        return Err(MpsKind::Section);
    }
    if fields.len() != 1 {
        return Err(MpsKind::Fields);
    }
    let word = field(fields, 0);
    if !is_sense_word(word) {
        return Err(MpsKind::Sense);
    }
    note_word(sense, word);
    Ok(())
}
