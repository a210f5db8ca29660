//! The cost that is minimised, by column, and by part and position.
ghost use Rattle.std.specs.Prelude.{◌≡◌, ◌<◌, ◌≤◌, if◌then◌else◌};
ghost use Rattle.std.proofs.Math.IntN.{neg_ℤ};
ghost use Rattle.bz_algebra.specs.Numbers.{IsNarrow};
ghost use Rattle.bz_algebra.specs.Sums.{coef};
ghost use Rattle.bz_model.specs.Parting.{blocks_of, inner_cost, terms_in, width_of};

use crate::records::Model;
use crate::sides::signed;
use crate::splitting::Split;

/// What a number of the model's cost is in the cost that is minimised: negated where the model maximises.
pub fn inner_number(maximise: bool, number: i128) -> i128
    requires { IsNarrow number }
    ensures value { result ≡ (if maximise then neg_ℤ number else number) }
    ensures narrow { IsNarrow result }
{
    signed(maximise, number)
}

/// The number of a column in the cost that is minimised.
fn column_cost(model: &Model, column: u32) -> i128
    ensures value { result ≡ coef (inner_cost model.now) column }
    ensures narrow { IsNarrow result }
{
    inner_number(model.maximise, model.cost.at(column))
}

impl Split {
    /// The number at a position of a part in the cost that is minimised.
    pub fn inner_cost(&self, part: u32, position: u32) -> i128
        requires part { part ≤ blocks_of self.now.part }
        requires position { position < width_of self.now.part part }
        ensures value { result ≡ coef (terms_in self.now.part part (inner_cost self.now.model)) position }
        ensures narrow { IsNarrow result }
    {
        let model = self.model();
        // Without costs no column has to be looked up.
        if model.cost.as_slice().is_empty() {
            return 0;
        }
        column_cost(model, self.columns_of(part)[position as usize])
    }
}
