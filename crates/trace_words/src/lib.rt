//! The words of a line: parts at single spaces, decimal numbers, and octets in hex.
#![tactic(auto)]

mod hex_word;
mod number;
mod part;

pub use hex_word::hex_octets;
pub use number::number_upto;
pub use part::{rest, word};
