//! Why there is no split.
/// Why there is no split. Where there are several reasons it is the first in the order of these kinds, but that the
/// kinds about one column are tested column by column.
#[derive(Clone, Copy, Debug, PartialEq, Eq)]
pub enum SplitFault {
    /// A row has columns of two blocks: the first such row, the block of its first column in a block, and the block of
    /// its first column in another.
    Joins { row: u32, a: u32, b: u32 },
    /// An integer column is in a block: the first column, by its place in the file, that has one of the faults on
    /// columns.
    IntegerInBlock { column: u32 },
    /// An integer column of the master lacks a bound.
    IntegerOpen { column: u32 },
    /// A column of the master that is no integer lacks a bound.
    OpenMaster { column: u32 },
    /// A part has more than 1,024 inequalities, two counted for the box of each integer column where it is the master:
    /// the first such part, and how many it has.
    TooLarge { part: u32, count: u32 },
    /// There is no memory.
    OutOfMemory,
}
