//! The values of AMQP 0-10, and the plain types that every layer speaks in.
#![tactic(auto)]

mod copy;
mod fault;
mod fine;
mod keys;
mod kind;
mod read;
mod size;
#[cfg(test)]
mod tests;
mod value;
mod write;

pub use fault::{ValueError, ValueFault};
pub use fine::valid;
pub use octet_reading::{NoMemory, Octets, Text, Why};
pub use read::{read_value, value_of};
pub use size::size_of;
pub use value::{Items, Pair, Pairs, Range, Ranges, ReplyTo, Value, Xid};
pub use write::{put_value, write_value};
