//! Lines out of a source in any pieces, a tool that takes them one by one, and what it wrote at each end.
#![tactic(auto)]

mod reading;
mod run;
mod tool;
mod write;

pub use reading::{LONGEST_INPUT, LONGEST_LINE, Next, Reading};
pub use run::{Ended, run_lines};
pub use tool::{LineTool, Stop, TraceWhy};
pub use write::{Written, write_all};
