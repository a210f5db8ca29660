//! What the tests of a cut tell.
ghost use Rattle.bz_cut.specs.Laws.{CutFaultsAreUnique, CutTestsTell};

/// The tests of a cut all hold exactly where it is valid and no sum or product is wide that tells so.
pub fn cut_tests_tell()
    ensures { CutTestsTell }
{}

/// A cut has one first fault at most, and none exactly where it is valid and no sum or product is wide that tells so.
pub fn cut_faults_are_unique()
    ensures { CutFaultsAreUnique }
{}
