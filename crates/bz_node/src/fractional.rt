//! Integer columns whose numbers aren't whole.
ghost use Rattle.std.specs.Prelude.{◌≡◌, ◌↔◌, ◌<◌, IsTrue, pos, ◌<ℤ◌, length};
ghost use Rattle.std.specs.List.{AllByRecursion};
ghost use Rattle.bz_num.specs.Dense.{entry};
ghost use Rattle.bz_model.specs.Points.{IsWhole};
ghost use Rattle.bz_event.specs.Nodes.{IsRoundedDown};
ghost use Rattle.bz_node.specs.Fractional.{FindsFractional};

use bz_num::divide;

/// Whether the number is 0.
fn is_zero(number: i128) -> bool
    ensures { IsTrue result ↔ (number ≡ pos 0) }
{
    number == 0
}

/// Whether the fraction is a whole number.
fn is_whole(number: i128, den: i128) -> bool
    requires { pos 0 <ℤ den }
    ensures { IsTrue result ↔ IsWhole number den }
{
    is_zero(divide(number, den).1)
}

/// The fraction rounded down.
pub(crate) fn rounded_down(number: i128, den: i128) -> i128
    requires { pos 0 <ℤ den }
    ensures { IsRoundedDown number den result }
{
    divide(number, den).0
}

/// The first of the positions whose number, over the denominator, isn't whole.
pub(crate) fn first_fractional(positions: &[u32], numbers: &[i128], den: i128) -> Option<u32>
    requires positive { pos 0 <ℤ den }
    requires inside { AllByRecursion (λ p. p < length numbers.now) positions.now }
    ensures { FindsFractional positions.now (entry numbers.now) den result }
{
    for position in positions {
        if !is_whole(numbers[*position as usize], den) {
            return Some(*position);
        }
    }
    None
}
