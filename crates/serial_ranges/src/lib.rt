//! Numbers without bound and the serials modulo 2^32 that stand for them on the wire (RFC 1982 with 32 bits).
#![tactic(auto)]

mod range_set;
mod serial;

pub use range_set::{RangeIter, RangeSet};
pub use serial::{unwrap, unwrap_range};
