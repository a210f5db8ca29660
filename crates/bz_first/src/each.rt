//! Tests of many items, judged one item after the other. They take no memory.
ghost use Rattle.std.specs.Prelude.{ℕ, ◌+◌, ◌<◌, ◌^◌, List, length};
ghost use Rattle.std.specs.List.{AllByRecursion, enumerate_from};
ghost use Rattle.bz_first.specs.Tests.{Judges, Test, each_below, each_of};

/// Tests of items that are counted. An item's tests may speak of its number.
pub trait ItemTests<X, F> {
    /// What an item with its number has to be for its tests to be judged.
    ghost takes: { Self → ℕ × X → Type 0 };

    /// The tests of an item with its number.
    ghost tests: { Self → ℕ × X → List (Test F) };

    /// Judges item `n` by its tests.
    fn judge(&self, n: u32, item: &X) -> Result<(), F>
        requires { takes self.now (n, item.now) }
        ensures { Judges (tests self.now (n, item.now)) result };
}

/// Judges the items in order. The first has the number `from`.
pub fn judge_each<X, F, T: ItemTests<X, F>>(items: &[X], from: u32, tests: &T) -> Result<(), F>
    requires few { from + length items.now < 2 ^ 32 }
    requires takes { AllByRecursion (T.takes tests.now) (enumerate_from from items.now) }
    ensures { Judges (each_of (T.tests tests.now) (enumerate_from from items.now)) result }
{
    for (place, item) in items.iter().enumerate() {
        tests.judge(from + place as u32, item)?;
    }
    Ok(())
}

/// Tests by the number of a place.
pub trait PlaceTests<F> {
    /// What a place has to be for its tests to be judged.
    ghost takes: { Self → ℕ → Type 0 };

    /// The tests of a place.
    ghost tests: { Self → ℕ → List (Test F) };

    /// Judges the place by its tests.
    fn judge_at(&self, n: u32) -> Result<(), F>
        requires { takes self.now n }
        ensures { Judges (tests self.now n) result };
}

/// Judges the places below `count`, rising.
pub fn judge_below<F, T: PlaceTests<F>>(count: u32, tests: &T) -> Result<(), F>
    requires { (n : ℕ) → n < count → T.takes tests.now n }
    ensures { Judges (each_below count (T.tests tests.now)) result }
{
    for n in 0..count {
        tests.judge_at(n)?;
    }
    Ok(())
}
