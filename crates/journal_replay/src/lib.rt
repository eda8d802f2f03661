//! The records of a node's journal are read and replayed.
#![tactic(auto)]

mod fault;
mod records;

pub use fault::OpenFault;
pub use records::{Replays, replay};
