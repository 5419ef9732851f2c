//! The structs of header segments (AMQP 0-10, "message") and the values of execution.result, read and written.
#![tactic(auto)]

mod error;
mod read;
mod result;
#[cfg(test)]
mod tests;
mod write;

pub use error::HeaderError;
pub use read::{header_of, read_header};
pub use result::{ResultKind, read_result, result_kind, write_result};
pub use write::{delivery_refs, header_size, message_refs, put_structs, write_header};
