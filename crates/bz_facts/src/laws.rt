//! What the definitions say.
ghost use Rattle.std.specs.Prelude.{◌≡◌, ◌<◌, ◌-◌, ◌^◌, ◌⊎◌, ℕ, List, length};
ghost use Rattle.bz_facts.specs.declared.faults.MpsKind.{MpsKind};
ghost use Rattle.bz_facts.specs.declared.records.Facts.{Facts};
ghost use Rattle.bz_facts.specs.FactTexts.{IsFactsOf, IsLineFault};
ghost use Rattle.bz_facts.specs.SoundFacts.{AreSound};
ghost use Rattle.bz_facts.specs.Spellings.{IsSpelled, Spelled, spelled};

/// A text has facts or a fault of its lines, and never both; and it has one of these alone. Nothing runs.
pub fn text_has_facts_or_one_fault()
    ensures some { (text : List ℕ) → ((f : Facts) × IsFactsOf text f) ⊎ ((line : ℕ) × ((kind : MpsKind) × IsLineFault text line kind)) }
    ensures apart { (text : List ℕ) (f : Facts) (line : ℕ) (kind : MpsKind) → IsFactsOf text f → IsLineFault text line kind → ⊥ }
    ensures facts { (text : List ℕ) (f g : Facts) → IsFactsOf text f → IsFactsOf text g → f ≡ g }
    ensures fault { (text : List ℕ) (l m : ℕ) (k j : MpsKind) → IsLineFault text l k → IsLineFault text m j → (l ≡ m) × (k ≡ j) }
{}

/// The facts of a text of fewer than 2^63 - 1 bytes fit one another and the limits, and no number of theirs has a zero at its
/// end. Nothing runs.
pub fn facts_are_sound()
    ensures { (text : List ℕ) (f : Facts) → length text < 2 ^ 63 - 1 → IsFactsOf text f → AreSound f }
{}

/// A field of fewer than 2^64 bytes spells what `spelled` says: a decimal within the limits, one that is outside of them,
/// or none; and every field spells one of these at most. Nothing runs.
pub fn fields_spell_one_number()
    ensures exact { (word : List ℕ) → length word < 2 ^ 64 → IsSpelled word (spelled word) }
    ensures same { (word : List ℕ) (s t : Spelled) → IsSpelled word s → IsSpelled word t → s ≡ t }
{}
