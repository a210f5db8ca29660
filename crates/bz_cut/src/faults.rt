//! Why a cut is refused.

/// Why a cut is refused.
#[derive(Clone, Copy, Debug, PartialEq, Eq)]
pub enum CutFault {
    /// It is not valid.
    Invalid,
    /// A sum or a product that tells whether it is valid is wide.
    Wide,
}
