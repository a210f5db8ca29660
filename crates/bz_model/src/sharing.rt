//! The types of this crate may be shared by threads and moved between them.
use crate::parts::{BlockPart, Master, Parts};
use crate::records::{Column, Ineq, Model, Row};
use crate::splitting::{Split, Unsplit0};

/// Takes any type whose values may be shared by threads and moved between them.
fn crosses_threads<T: Send + Sync>() {}

/// The types that cross threads.
pub fn all_cross_threads() {
    crosses_threads::<Column>();
    crosses_threads::<Row>();
    crosses_threads::<Model>();
    crosses_threads::<Ineq>();
    crosses_threads::<Split>();
    crosses_threads::<Unsplit0>();
    crosses_threads::<Master>();
    crosses_threads::<BlockPart>();
    crosses_threads::<Parts>();
}
