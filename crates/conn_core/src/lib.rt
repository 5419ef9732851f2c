//! The two ends of a connection: what each takes and answers before sessions and commands come to it, and how long the
//! server's waits to hear its peer (AMQP 0-10, "connection").
#![tactic(auto)]

mod answers;
mod client;
mod mechanism;
mod said;
mod server;
#[cfg(test)]
mod tests;
mod turn;

pub use client::ClientEnd;
pub use said::Said;
pub use server::ServerEnd;
