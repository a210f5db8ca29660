//! What is proved of the end of a search.
ghost use Rattle.bz_ending.specs.Laws.{AnswersLower};

/// Each answer that the rules accept, but for a late cut of a post that has ended, leaves less work than there was.
pub fn answers_lower()
    ensures { AnswersLower }
{}
