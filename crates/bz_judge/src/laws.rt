//! What the tests of this crate tell.
ghost use Rattle.bz_judge.specs.Laws.{TestsTell};

/// The tests of a point, of its integer columns, of a cost, a value, a direction and a leaf all hold exactly where these
/// hold and no sum or product is wide that tells so.
pub fn tests_tell()
    ensures { TestsTell }
{}
