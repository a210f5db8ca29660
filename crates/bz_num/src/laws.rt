//! What is proved of sparse rows.
ghost use Rattle.std.specs.Prelude.{ℕ, ℤ, ◌≤◌, List, length};
ghost use Rattle.bz_algebra.specs.Sums.{AllBelow};
ghost use Rattle.bz_num.specs.Row.{IsSparse};

/// A sparse row whose columns are below n has at most n entries. Nothing runs.
pub fn sparse_rows_are_short()
    ensures { (n : ℕ) (row : List (ℕ × ℤ)) → IsSparse row → AllBelow n row → length row ≤ n }
{}
