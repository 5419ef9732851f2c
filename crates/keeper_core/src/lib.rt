//! What keeps a broker's rows from one run to the next: the trait, and a keeper in memory.
#![tactic(auto)]

mod keeper;
mod map_keeper;
mod row;
#[cfg(test)]
mod tests;

pub use keeper::{Keeper, KeeperFault, OpenFault};
pub use map_keeper::MapKeeper;
pub use outside_core::Calls;
pub use row::{Change, Changes, Row, Rows};
