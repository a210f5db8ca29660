//! The page that a report is written on, piece by piece.
ghost use Rattle.std.specs.Prelude.{◌≡◌, [], Some, OnOk};
ghost use Rattle.bz_model.specs.Stated.{stated_fraction};
ghost use Rattle.bz_text.specs.Pieces.{pieces_text};
ghost use Rattle.bz_text.specs.Texts.{line};
ghost use Rattle.bz_report.specs.Pages.{Adds};
ghost use Rattle.bz_report.specs.Reports.{name_line};

use bz_io::{FaultCount, PutFailed, Sink};
use bz_model::Stated;
use bz_num::OutOfMemory;
use bz_text::{Piece, put_fraction, put_line, put_pieces};
use std::alloc::Global;

/// A text in memory, which grows at its end.
#[derive(Drop)]
pub(crate) struct Page {
    text: Vec<u8>,
    /// How often there was no memory for more.
    faults: FaultCount,
}

impl Sink for Page {
    ghost taken = { λ page. Some page.text.items };

    ghost faults = { λ page. page.faults };

    /// Takes all bytes; it fails where there is no memory for them.
    fn put(&mut self, bytes: &[u8]) -> Result<usize, PutFailed> {
        if self.text.extend_from_slice(bytes).is_err() {
            self.faults = FaultCount {
                number: self.faults.number.saturating_add(1),
                last_failed: true,
            };
            return Err(PutFailed);
        }
        self.faults.last_failed = false;
        Ok(bytes.len())
    }
}

impl Page {
    /// An empty page.
    pub(crate) fn new(alloc: Global) -> Page
        ensures { result.text.items ≡ [] }
    {
        Page {
            text: Vec::new(alloc),
            faults: FaultCount {
                number: 0,
                last_failed: false,
            },
        }
    }

    /// What is written on it.
    pub(crate) fn into_text(self) -> Vec<u8>
        ensures { result.items ≡ self.text.items }
    {
        self.text
    }

    /// Adds pieces of text.
    pub(crate) fn add(&mut self, pieces: &[Piece]) -> Result<(), OutOfMemory>
        ensures { OnOk result (Adds self.old (pieces_text pieces.now) self.new) }
    {
        put_pieces(self, pieces).map_err(|_| OutOfMemory)
    }

    /// Adds a line.
    pub(crate) fn add_line(&mut self, bytes: &[u8]) -> Result<(), OutOfMemory>
        ensures { OnOk result (Adds self.old (line bytes.now) self.new) }
    {
        put_line(self, bytes, b"").map_err(|_| OutOfMemory)
    }

    /// Adds the line of a name and a fraction.
    pub(crate) fn add_fraction(&mut self, name: &[u8], value: Stated) -> Result<(), OutOfMemory>
        ensures { OnOk result (Adds self.old (name_line name.now (stated_fraction value)) self.new) }
    {
        put_fraction(self, name, value.num, value.den).map_err(|_| OutOfMemory)
    }
}
