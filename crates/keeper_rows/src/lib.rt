//! The rows of what a broker keeps, read and written.
#![tactic(auto)]

mod kept;
mod read;
#[cfg(test)]
mod tests;
mod write;

pub use kept::{Kept, RowCopy, RowError};
pub use read::read_row;
pub use write::write_row;
