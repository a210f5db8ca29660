//! The types of this crate may be shared by threads and moved between them.
use crate::records::{Leaf, NodeBox, TreeNode};

/// Takes any type whose values may be shared by threads and moved between them.
fn crosses_threads<T: Send + Sync>() {}

/// The types that cross threads.
pub fn all_cross_threads() {
    crosses_threads::<NodeBox>();
    crosses_threads::<Leaf>();
    crosses_threads::<TreeNode>();
}
