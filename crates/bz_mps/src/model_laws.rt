//! What the definitions say of models.
ghost use Rattle.std.specs.Prelude.{◌≡◌, ◌<◌, ◌≤◌, ◌-◌, ◌^◌, ◌⊎◌, ℕ, false, length, List, Option};
ghost use Rattle.std.specs.List.{AllZip};
ghost use Rattle.bz_num.specs.declared.Dec.{Dec};
ghost use Rattle.bz_model.specs.declared.Model.{Model};
ghost use Rattle.bz_model.specs.Strict.{HasItsColumns};
ghost use Rattle.bz_facts.specs.declared.Entry.{Entry};
ghost use Rattle.bz_facts.specs.declared.Facts.{Facts};
ghost use Rattle.bz_facts.specs.declared.MpsKind.{MpsKind};
ghost use Rattle.bz_facts.specs.declared.RowType.{RowType};
ghost use Rattle.bz_facts.specs.FactTexts.{IsFactsOf};
ghost use Rattle.bz_facts.specs.LineTests.{is_free};
ghost use Rattle.bz_facts.specs.SoundFacts.{AreSound};
ghost use Rattle.bz_mps.specs.FactModel.{IsModelOf, ModelOf, MpsFaultOf};
ghost use Rattle.bz_mps.specs.LeastScale.{AreReadDecimals, IsLeastObjective, IsLeastRow, IsLeastScale};
ghost use Rattle.bz_mps.specs.ScaledRows.{constraints, decimals_of, most_digits};

/// A text has at most one model. Nothing runs.
pub fn mps_text_has_one_model()
    ensures { (text : List ℕ) (m n : Model) → ModelOf text m → ModelOf text n → m ≡ n }
{}

/// A text of fewer than 2^63 - 1 bytes has a model or a fault. Nothing runs.
pub fn mps_text_has_model_or_fault()
    ensures { (text : List ℕ) → length text < 2 ^ 63 - 1 → ((m : Model) × ModelOf text m) ⊎ ((line : ℕ) × ((kind : MpsKind) × MpsFaultOf text line kind)) }
{}

/// A text that has a model has no fault, and a text has one fault alone. Nothing runs.
pub fn mps_text_has_one_fault()
    ensures apart { (text : List ℕ) (m : Model) (line : ℕ) (kind : MpsKind) → ModelOf text m → MpsFaultOf text line kind → ⊥ }
    ensures one { (text : List ℕ) (l m : ℕ) (k j : MpsKind) → MpsFaultOf text l k → MpsFaultOf text m j → (l ≡ m) × (k ≡ j) }
{}

/// Ten to the greatest number of digits behind a point is the least power of ten that makes a row's terms and sides whole.
/// With the kind of a row that is at least its right side, and no range, the same holds of the objective. Nothing runs.
pub fn scale_is_least()
    ensures { (t : RowType) (entries : List Entry) (rhs : Dec) (range : Option Dec) → is_free t ≡ false → AreReadDecimals entries rhs range → IsLeastScale (most_digits (decimals_of entries rhs range)) t entries rhs range }
{}

/// Each row of a text's model, and its objective, is the text's, multiplied by the least power of ten that makes its numbers
/// whole. Nothing runs.
pub fn model_scales_are_least()
    ensures rows { (text : List ℕ) (f : Facts) (m : Model) → length text < 2 ^ 63 - 1 → IsFactsOf text f → IsModelOf f m → AllZip (IsLeastRow f) (constraints f.row_types) m.rows }
    ensures objective { (text : List ℕ) (f : Facts) (m : Model) → length text < 2 ^ 63 - 1 → IsFactsOf text f → IsModelOf f m → IsLeastObjective f m }
{}

/// The model that sound facts make has as many columns as they name, at most 2,048 of them and of its rows, and terms of
/// its columns alone. Nothing runs.
pub fn models_fit()
    ensures many { (f : Facts) (m : Model) → AreSound f → IsModelOf f m → length m.columns ≡ length f.columns }
    ensures few_columns { (f : Facts) (m : Model) → AreSound f → IsModelOf f m → length m.columns ≤ 2048 }
    ensures few_rows { (f : Facts) (m : Model) → AreSound f → IsModelOf f m → length m.rows ≤ 2048 }
    ensures terms { (f : Facts) (m : Model) → AreSound f → IsModelOf f m → HasItsColumns m }
{}
