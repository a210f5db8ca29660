//! The facts that the lines of a model's text state.
use bz_lines::Names;
use bz_num::{Dec, Items};

/// The sections of a model's text, by their headers.
#[derive(Clone, Copy, Debug, PartialEq, Eq)]
pub enum Heading {
    /// `NAME`.
    Name,
    /// `OBJSENSE`.
    ObjSense,
    /// `ROWS`.
    Rows,
    /// `COLUMNS`.
    Columns,
    /// `RHS`.
    Rhs,
    /// `RANGES`.
    Ranges,
    /// `BOUNDS`.
    Bounds,
    /// `ENDATA`.
    EndData,
}

/// What a row says of the sum of its terms.
#[derive(Clone, Copy, Debug, PartialEq, Eq)]
pub enum RowType {
    /// Nothing: `N`. The first of these is the objective.
    Free,
    /// It is at most the right side: `L`.
    AtMost,
    /// It is at least the right side: `G`.
    AtLeast,
    /// It is the right side: `E`.
    Equal,
}

/// A number of a column in a row.
#[derive(Clone, Copy, Debug)]
pub struct Entry {
    /// The column, by its place among the columns.
    pub column: u32,
    /// The row, by its place among the rows.
    pub row: u32,
    /// The number, which may be 0.
    pub number: Dec,
}

/// A right side or a range of a row.
#[derive(Clone, Copy, Debug)]
pub struct Given {
    /// The row, by its place among the rows.
    pub row: u32,
    /// The number.
    pub number: Dec,
}

/// The kinds of bound lines, named as in the text.
#[derive(Clone, Copy, Debug, PartialEq, Eq)]
pub enum BoundType {
    /// The upper bound.
    Up,
    /// The lower bound.
    Lo,
    /// Both bounds.
    Fx,
    /// No bounds.
    Fr,
    /// No lower bound.
    Mi,
    /// No upper bound.
    Pl,
    /// The bounds 0 and 1 of an integer column.
    Bv,
    /// The lower bound of an integer column.
    Li,
    /// The upper bound of an integer column.
    Ui,
}

/// A bound line of the section's own set.
#[derive(Clone, Copy, Debug)]
pub struct BoundLine {
    /// The line, counted from 1.
    pub line: u32,
    /// Its kind.
    pub kind: BoundType,
    /// The column, by its place among the columns.
    pub column: u32,
    /// The bound; none where the kind has no number, and where the number is infinite, so that it takes the bound away.
    pub number: Option<Dec>,
}

/// What the lines of a model's text say. Rows and columns are named by their places, counted from 0.
#[derive(Drop)]
pub struct Facts<'a> {
    /// Whether a greater value of the objective is better; else a lesser one is.
    pub maximise: bool,
    /// The names of the rows, those of kind N among them, in file order.
    pub row_names: Names<'a>,
    /// What each row says, in the same order.
    pub row_types: Items<RowType>,
    /// The names of the columns in the order in which they first come.
    pub columns: Names<'a>,
    /// Whether an integer marker was open at each column's first line, in the same order.
    pub integers: Items<bool>,
    /// The numbers of COLUMNS in file order, zeros and those of further N rows among them.
    pub entries: Items<Entry>,
    /// The right sides of the section's own set, in file order.
    pub right_sides: Items<Given>,
    /// The ranges of the section's own set, in file order.
    pub ranges: Items<Given>,
    /// The bound lines of the section's own set, in file order.
    pub bounds: Items<BoundLine>,
    /// The line of ENDATA, counted from 1.
    pub end: u32,
}
