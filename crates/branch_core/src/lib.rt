//! What transactions gather and how far they have come: a session's tx, and the branches of distributed transactions.
#![tactic(auto)]

mod branch;
mod branches;
mod marks;
mod seats;
mod table;
#[cfg(test)]
mod tests;
mod work;

pub use branch_intents::{Intent, Intents};
pub use branches::Branches;
pub use marks::{BranchFault, End, Owner, Standing, Start, Status, Xids};
