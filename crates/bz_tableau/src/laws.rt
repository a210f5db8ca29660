//! What is proved of the definitions of this crate.
ghost use Rattle.std.specs.Prelude.{ℕ, ℤ, List, length, ◌≡◌, ◌<◌, ◌≤◌, ◌^◌, Bool, true};
ghost use Rattle.bz_algebra.specs.Tableaus.{AllWithinBound, AreAlike, DifferInRightSides, Equations, IsBasis, IsObjectiveRow, IsRow, NoTwoAlike, Program, rows_of, side};
ghost use Rattle.bz_tableau.specs.Answers.{Answers, GivesAnswer, IsAnswer, IsEmpty, IsLeast, IsRay, basis_of, column_of, is_of_relaxed};
ghost use Rattle.bz_tableau.specs.Dense.{entry};
ghost use Rattle.bz_tableau.specs.Truths.{CostsLeast, FallsBelowAll, HasLeastS, HasNoPoint};
ghost use Rattle.bz_tableau.specs.declared.answers.Answer.{Answer};
ghost use Rattle.bz_tableau.specs.declared.answers.Vals.{Vals};
ghost use Rattle.bz_tableau.specs.declared.programs.Lp.{Lp};
ghost use Rattle.bz_tableau.specs.Laws.{HasRowsOfBasis};
ghost use Rattle.bz_tableau.specs.Tables.{Table, IsTableauOf};

/// The rows that a tableau shows are the rows of its basis, and the one after them is the objective row.
pub fn tableau_has_rows_of_basis()
    ensures { (relaxed : Bool) (lp : Lp) (t : Table) → IsTableauOf relaxed lp t → HasRowsOfBasis relaxed lp t }
{}

/// A basis has one row at most for each place.
pub fn rows_are_unique()
    ensures { (s : Equations) (basis : ℕ → ℕ) (i : ℕ) (v w : ℕ → ℤ) → IsBasis s basis → i < s.rows → IsRow s basis i v →
        IsRow s basis i w → (j : ℕ) → j ≤ side s → v j ≡ w j }
{}

/// The columns of a basis have one objective row at most, in whatever order they stand.
pub fn objective_rows_are_unique()
    ensures { (relaxed : Bool) (p : Program) (basis other : ℕ → ℕ) (d e : ℤ) (y z : ℕ → ℤ) →
        IsBasis (rows_of relaxed p) basis → IsBasis (rows_of relaxed p) other → AreAlike p.rows basis other →
        IsObjectiveRow relaxed p basis d y → IsObjectiveRow relaxed p other e z →
        (d ≡ e) × ((i : ℕ) → i < p.rows → y i ≡ z i) }
{}

/// Lists of `count` columns below a bound, no two of them with the same columns, are at most 2^bound.
pub fn bases_are_few()
    ensures { (bound count : ℕ) (bases : List (ℕ → ℕ)) → AllWithinBound count bound bases → NoTwoAlike count bases →
        length bases ≤ 2 ^ bound }
{}

/// A basis of a program is one of every program with the same columns, terms and cost, whatever the right sides; and so
/// is an objective row. So what is made of an objective row depends on the terms, the cost and the columns of the basis
/// alone.
pub fn right_sides_change_no_basis()
    ensures basis { (relaxed : Bool) (p q : Program) (basis : ℕ → ℕ) →
        DifferInRightSides p q → IsBasis (rows_of relaxed p) basis → IsBasis (rows_of relaxed q) basis }
    ensures objective { (relaxed : Bool) (p q : Program) (basis : ℕ → ℕ) (d : ℤ) (y : ℕ → ℤ) →
        DifferInRightSides p q → IsObjectiveRow relaxed p basis d y → IsObjectiveRow relaxed q basis d y }
{}

/// Each answer is given by its basis, and a ray with its column: that there is no point by a basis of the relaxed
/// program, every other answer of a program by one of the program itself.
pub fn answers_are_given()
    ensures solved { (lp : Lp) (a : Answer) →
        Answers lp a → GivesAnswer (is_of_relaxed a) (column_of a) lp (basis_of a) a }
    ensures of_basis { (relaxed : Bool) (lp : Lp) (a : Answer) →
        IsAnswer relaxed lp a → GivesAnswer relaxed (column_of a) lp (basis_of a) a }
{}

/// Answers are true of all points. A least one is a point and none costs less, so that none of the relaxed program has
/// a lesser s; an empty program has no point; and from a ray's point every step along its direction leads to a
/// point, and the cost falls below every number.
pub fn answers_are_true()
    ensures least { (relaxed : Bool) (p : Program) (basis : List ℕ) (z y : Vals) →
        IsLeast relaxed p basis z y → CostsLeast relaxed p (entry z.num) z.den }
    ensures least_s { (p : Program) (basis : List ℕ) (z y : Vals) →
        IsLeast true p basis z y → HasLeastS p (entry z.num) z.den }
    ensures empty { (p : Program) (basis : List ℕ) (y : List ℤ) → IsEmpty p basis y → HasNoPoint p }
    ensures ray { (p : Program) (basis : List ℕ) (column : ℕ) (z : Vals) (d : List ℤ) →
        IsRay p basis column z d → FallsBelowAll p (entry z.num) z.den (entry d) }
{}
