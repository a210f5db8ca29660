//! Single tests, with whatever answers. They take no memory.
ghost use Rattle.std.specs.Prelude.{◌≡◌, ◌≤ℤ◌, [], ◌∷◌, IsTrue};
ghost use Rattle.bz_first.specs.Tests.{Judges, test};

/// Nothing where the test holds, else the answer.
pub fn judge<F: Copy>(holds: bool, answer: F) -> Result<(), F>
    ensures { Judges (test answer (IsTrue holds) ∷ []) result }
{
    if holds { Ok(()) } else { Err(answer) }
}

/// Tests that the two numbers are equal.
pub fn judge_equal<F: Copy>(a: i128, b: i128, broken: F) -> Result<(), F>
    ensures { Judges (test broken (a ≡ b) ∷ []) result }
{
    if a == b { Ok(()) } else { Err(broken) }
}

/// Tests that the first number is at most the second.
pub fn judge_order<F: Copy>(a: i128, b: i128, broken: F) -> Result<(), F>
    ensures { Judges (test broken (a ≤ℤ b) ∷ []) result }
{
    if a <= b { Ok(()) } else { Err(broken) }
}
