//! Octets and texts as data, and reading them from left to right with the first flaw.
#![tactic(auto)]

mod flaw;
mod memory;
mod number;
mod octets;
mod part;
mod rest;
mod text;
mod why;
mod write;

pub use flaw::{Flaw, ReadError, refused};
pub use memory::NoMemory;
pub use number::{u8_of, u16_of, u32_of, u64_of};
pub use octets::Octets;
pub use part::{SizeWidth, octets_of, part_of, sized_of, text_of};
pub use rest::{end_of, moved, octets_from};
pub use text::Text;
pub use why::Why;
pub use write::{put, put_size, put_sized};
