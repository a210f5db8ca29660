//! What the tests of a certificate tell, and what a certificate that passes proves.
ghost use Rattle.bz_check.specs.Laws.{AllTestsTell, CheckFaultsAreUnique, PassingIsTrue};

/// The tests of a certificate all hold exactly where it passes and fits.
pub fn all_tests_tell()
    ensures { AllTestsTell }
{}

/// A certificate has one fault at most, and none exactly where it passes and fits.
pub fn check_faults_are_unique()
    ensures { CheckFaultsAreUnique }
{}

/// What a certificate that passes says is true of the model itself, which knows no parts.
pub fn passing_is_true()
    ensures { PassingIsTrue }
{}
