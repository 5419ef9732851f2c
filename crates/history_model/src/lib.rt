//! What the broker hears, and the definitions of what it answers: functions of the whole list of arrivals.
#![tactic(auto)]

mod names;
mod trace;

pub use amqp_structs::{HeaderError, header_size, read_header, write_header};
pub use amqp_terms::{HubEvent, Out, Outs};
pub use names::ConnName;
pub use trace::TraceEvent;
