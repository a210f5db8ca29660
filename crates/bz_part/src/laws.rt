//! Laws of the texts of partitions.
ghost use Rattle.std.specs.Prelude.{ℕ, List, ◌≡◌, ◌⊎◌};
ghost use Rattle.bz_model.specs.declared.Model.{Model};
ghost use Rattle.bz_part.specs.declared.faults.PartKind.{PartKind as Kind};
ghost use Rattle.bz_part.specs.Partition.{PartFault, PartOf};

/// A text says one partition of a model, or it has one fault, and never both. Nothing runs.
pub fn text_has_one_reading()
    ensures some { (text : List ℕ) (m : Model) → ((part : List ℕ) × PartOf text m part) ⊎ ((line : ℕ) × (kind : Kind) × PartFault text m line kind) }
    ensures partitions { (text : List ℕ) (m : Model) (p q : List ℕ) → PartOf text m p → PartOf text m q → p ≡ q }
    ensures faults { (text : List ℕ) (m : Model) (n k : ℕ) (kind other : Kind) → PartFault text m n kind → PartFault text m k other → (n ≡ k) × (kind ≡ other) }
    ensures not_both { (text : List ℕ) (m : Model) (part : List ℕ) (line : ℕ) (kind : Kind) → PartOf text m part → PartFault text m line kind → ⊥ }
{}
