//! The words of a certificate's lines.
ghost use Rattle.std.specs.Prelude.{◌≡◌, ◌↔◌, IfSome, IfNone, IsTrue};
ghost use Rattle.bz_cert.specs.declared.words.Word.{Word};
ghost use Rattle.bz_cert.specs.CertText.{word_bytes};

/// The first word of a line behind the verdict's.
#[derive(Clone, Copy, Debug, PartialEq, Eq)]
pub(crate) enum Word {
    Master,
    Eta,
    Block,
    Value,
    Ray,
    Cuts,
    Cut,
    Split,
    Leaf,
    End,
}

impl Word {
    /// Whether it is the other word.
    pub(crate) fn is(self, other: Word) -> bool
        ensures { IsTrue result ↔ (self ≡ other) }
    {
        self == other
    }

    /// Its bytes.
    pub(crate) fn bytes(self) -> &'static [u8]
        ensures { result.now ≡ word_bytes self }
    {
        match self {
            Word::Master => b"master",
            Word::Eta => b"eta",
            Word::Block => b"block",
            Word::Value => b"value",
            Word::Ray => b"ray",
            Word::Cuts => b"cuts",
            Word::Cut => b"cut",
            Word::Split => b"split",
            Word::Leaf => b"leaf",
            Word::End => b"end",
        }
    }
}

/// The word of these bytes.
pub(crate) fn word_of(field: &[u8]) -> Option<Word>
    ensures found { IfSome result (λ word. field.now ≡ word_bytes word) }
    ensures none { IfNone result ((word : Word) → field.now ≡ word_bytes word → ⊥) }
{
    match field {
        b"master" => Some(Word::Master),
        b"eta" => Some(Word::Eta),
        b"block" => Some(Word::Block),
        b"value" => Some(Word::Value),
        b"ray" => Some(Word::Ray),
        b"cuts" => Some(Word::Cuts),
        b"cut" => Some(Word::Cut),
        b"split" => Some(Word::Split),
        b"leaf" => Some(Word::Leaf),
        b"end" => Some(Word::End),
        _ => None,
    }
}
