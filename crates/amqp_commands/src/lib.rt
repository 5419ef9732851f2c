//! Controls and commands by class and code, and units as assemblies of segments (AMQP 0-10).
#![tactic(auto)]

mod commands;
mod controls;
mod error;
mod lend_commands;
mod lend_controls;
mod made;
mod put;
mod read;
mod refs;
#[cfg(test)]
mod tests;
mod write;

pub use commands::{CommandKind, command_kind};
pub use controls::{ControlKind, control_kind};
pub use error::{UnitError, UnitFault};
pub use lend_commands::command_refs;
pub use lend_controls::control_refs;
pub use read::read_unit;
pub use write::write_unit;
