//! The types of this crate may be shared by threads and moved between them.
use crate::answers::{Answer, LpStop, Vals, WideAt};
use crate::programs::{Lp, LpRow};

/// Takes any type whose values may be shared by threads and moved between them.
fn crosses_threads<T: Send + Sync>() {}

/// The types that cross threads.
pub fn all_cross_threads() {
    crosses_threads::<LpRow>();
    crosses_threads::<Lp>();
    crosses_threads::<Vals>();
    crosses_threads::<Answer>();
    crosses_threads::<WideAt>();
    crosses_threads::<LpStop>();
}
