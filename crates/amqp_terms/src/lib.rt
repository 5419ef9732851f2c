//! The controls, commands and contents of AMQP 0-10, as plain data.
#![tactic(auto)]

mod command;
mod content;
mod control;
mod event;
mod field;
mod result;
mod unit;

pub use command::Command;
pub use content::{Content, DeliveryProperties, Header, HeaderItem, MessageProperties};
pub use control::Control;
pub use event::{HubEvent, Out, Outs, discard_event, discard_units, send, send_alone};
pub use result::ResultValue;
pub use unit::{Unit, Units};
