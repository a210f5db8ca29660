//! What is proved of rows and a cost.
ghost use Rattle.bz_farkas.specs.Laws.{ExactlyOneEnd, SparseExactlyOneEnd};

/// For any rows and any cost there is a direction along which no row rises and the cost falls, or there are multipliers
/// that balance the cost; and never both. Where there is such a direction there is a primitive one.
pub fn exactly_one_end()
    ensures { ExactlyOneEnd }
{}

/// The same of rows and a cost that are lists of pairs of a column and a number.
pub fn sparse_exactly_one_end()
    ensures { SparseExactlyOneEnd }
{}
