//! The records of a model.
ghost use Rattle.std.specs.Prelude.{◌≡◌, pos, ◌<◌, ◌<ℤ◌, length};
ghost use Rattle.std.specs.Option.{ForSome};
ghost use Rattle.bz_algebra.specs.Numbers.{IsNarrow};
ghost use Rattle.bz_model.specs.Limits.{list_limit};

use bz_num::{Frac, Items, Name, SparseRow};

/// A column of a model, with its bounds where it has them.
#[derive(Drop)]
pub struct Column {
    /// Its name in the text.
    pub name: Name,
    /// Whether its values are whole numbers.
    pub integer: bool,
    /// The least value, where there is one.
    pub lower: Option<Frac>,
    /// The greatest value, where there is one.
    pub upper: Option<Frac>,
}

/// A row of a model: the sum of its terms is at least `lower` and at most `upper`, where these are there.
#[derive(Drop)]
pub struct Row {
    /// Its name in the text.
    pub name: Name,
    /// The row's numbers by the number of their column.
    pub terms: SparseRow,
    /// The lower side, in the units of the terms.
    pub lower: Option<i128>,
    /// The upper side, in the units of the terms.
    pub upper: Option<i128>,
    pub ghost lower_narrow: { ForSome lower IsNarrow },
    pub ghost upper_narrow: { ForSome upper IsNarrow },
}

/// A model. The objective's value at a point x is `(cost x + constant) / scale`. It has fewer than
/// 2^28 columns and fewer than 2^28 rows.
#[derive(Drop)]
pub struct Model {
    /// The columns in file order; a column's number is its place here, from 0.
    pub columns: Items<Column>,
    /// The rows in file order, the objective not among them.
    pub rows: Items<Row>,
    /// The objective's name.
    pub objective: Name,
    /// The objective's numbers by the number of their column, `scale` times as large as in the text.
    pub cost: SparseRow,
    /// The objective's constant, `scale` times as large as in the text.
    pub constant: i128,
    /// The power of ten that makes the objective's numbers whole, at least 1.
    pub scale: i128,
    /// Whether a greater value is better; else a lesser one is.
    pub maximise: bool,
    pub ghost constant_narrow: { IsNarrow constant },
    pub ghost scale_positive: { pos 0 <ℤ scale },
    pub ghost few_columns: { length columns < list_limit },
    pub ghost few_rows: { length rows < list_limit },
}

/// An inequality of a part of a split: the sum of `own` over the part's own positions and of `master` over the
/// master's is at most `rhs`. `master` is empty where the part is the master.
#[derive(Drop)]
pub struct Ineq {
    /// Numbers by position of the part.
    pub own: SparseRow,
    /// Numbers by position of the master.
    pub master: SparseRow,
    /// The right side.
    pub rhs: i128,
}
