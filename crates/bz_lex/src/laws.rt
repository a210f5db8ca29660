//! What is proved of the definitions of this crate.
ghost use Rattle.std.specs.Prelude.{Bool, ℕ, List, ◌≡◌};
ghost use Rattle.bz_tableau.specs.Programs.{program_of};
ghost use Rattle.bz_tableau.specs.declared.answers.Answer.{Answer};
ghost use Rattle.bz_tableau.specs.declared.programs.Lp.{Lp};
ghost use Rattle.bz_tableau.specs.Answers.{IsAnswer, HasAnswer, basis_of};
ghost use Rattle.bz_tableau.specs.WidePlaces.{HasAnswerSigns};

/// The bases that have an answer, however wide its numbers, are those whose right sides and objective row have the signs
/// of one.
pub fn signs_are_those_of_answers()
    ensures answer { (relaxed : Bool) (lp : Lp) (basis : List ℕ) →
        HasAnswerSigns relaxed (program_of lp) basis → HasAnswer relaxed lp basis }
    ensures signs { (relaxed : Bool) (lp : Lp) (basis : List ℕ) (a : Answer) →
        basis_of a ≡ basis → IsAnswer relaxed lp a → HasAnswerSigns relaxed (program_of lp) basis }
{}
