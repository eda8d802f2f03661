//! Several steps of one node that are taken in memory, and whose records are then appended at once.
#![tactic(auto)]

mod collected;
mod fault;
mod group;
mod records;

pub use fault::GroupFault;
pub use group::{Group, Part, step_group};
