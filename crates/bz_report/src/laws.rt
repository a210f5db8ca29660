//! What is true of the numbers in a report.
ghost use Rattle.bz_report.specs.LowestTerms.{LowestTermsAreOne};
ghost use Rattle.bz_report.specs.Values.{BestHasValues, ValuesAreCoordinates};

/// A fraction has exactly one form in lowest terms, and that is what is printed.
pub fn lowest_terms_are_one()
    ensures { LowestTermsAreOne }
{}

/// What is printed of each column is its coordinate, in lowest terms, at each point of the parts.
pub fn values_are_coordinates()
    ensures { ValuesAreCoordinates }
{}

/// The best point of every legal history, whatever the outcome, has a value for each column, and none is wide.
pub fn best_has_values()
    ensures { BestHasValues }
{}
