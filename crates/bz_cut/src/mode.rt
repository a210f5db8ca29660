//! What a search looks for.

/// Whether the programs of a search have costs.
#[derive(Clone, Copy, Debug, PartialEq, Eq)]
pub enum Mode {
    /// A point of least cost is looked for.
    Cost,
    /// Any point is looked for: a block's cost falls without bound.
    Point,
}
