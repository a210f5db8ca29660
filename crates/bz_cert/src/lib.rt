//! Certificates and their texts.
#![tactic(auto)]

mod body;
mod faults;
mod head;
mod laws;
mod line_lists;
mod line_parts;
mod line_readers;
mod line_writers;
mod lists;
mod places;
mod reader;
mod records;
mod spelling;
#[cfg(test)]
mod tests;
mod words;
mod writing;
#[cfg(test)]
mod writing_tests;

pub use faults::{CertFault, CertKind, CertStop};
pub use laws::{
    each_text_has_an_outcome, text_has_one_certificate, text_has_one_fault, texts_have_no_fault,
    what_is_written_is_read, what_passes_is_short,
};
pub use reader::read_cert;
pub use records::{Certificate, Verdict};
pub use writing::write_cert;
