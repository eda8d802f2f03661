//! The critical section of a move: while a range of keys changes its shard, writes of it wait, and so do reads above the section's
//! time (MongoDB manual, "Chunk Migration Procedure").
#![tactic(auto)]

mod parked;
mod section;

pub use parked::{Parked, ParkedList};
pub use section::{Section, Want};
